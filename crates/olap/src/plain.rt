//! What others wrote, on a line for people: a character that would end the line, move in it or turn it round is escaped.

use forms::is_unseen;
use std::fmt::{self, Display, Formatter, Write as _};
use std::io::Write;

/// A text of which each control character and each mark that turns text round is shown as an escape of JSON.
#[derive(Drop)]
pub struct Plain<D>(pub D);

impl<D: Display> Display for Plain<D> {
    fn fmt<W: fmt::Write>(&self, f: &mut Formatter<W>) -> fmt::Result {
        let mut plainly = Plainly { f };
        write!(plainly, "{}", self.0)
    }
}

/// A writer that hands on what it is given, escaped.
#[derive(Drop)]
struct Plainly<'f, W> {
    f: &'f mut W,
}

impl<'f, W: fmt::Write> fmt::Write for Plainly<'f, W> {
    fn write_str(&mut self, text: &str) -> fmt::Result {
        for letter in text.chars() {
            match letter {
                '\n' => self.f.write_str("\\n")?,
                '\r' => self.f.write_str("\\r")?,
                '\t' => self.f.write_str("\\t")?,
                _ if is_unseen(letter) => write!(self.f, "\\u{:04x}", letter as u32)?,
                _ => self.f.write_char(letter)?,
            }
        }
        Ok(())
    }
}

/// Writes a line for people. Nobody may read it any more, so a failure to write changes nothing.
pub fn say<E: Write, D: Display + Drop>(err: &mut E, line: D) {
    let _ = writeln!(err, "{}", Plain(line));
}
