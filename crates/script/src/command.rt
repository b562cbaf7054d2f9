//! The command word of a line, and its rest.
ghost use Rattle.std.specs.Prelude.{◌≡◌, ◌==◌, option_map};
ghost use Rattle.std.specs.List.{after_first, before_first};
ghost use Rattle.script.specs.Deeds.{command_in, command_named, command_of, is_comment};

/// The commands of a script.
#[derive(Clone, Copy, Debug, PartialEq, Eq, Drop)]
pub enum Command {
    Table,
    Load,
    Put,
    Delete,
    Publish,
    Report,
    Shape,
}

/// Whether a line asks for nothing: it has no bytes, or begins with `#`. It may have any bytes.
pub fn is_comment(line: &[u8]) -> bool
    ensures { result ≡ is_comment line.now }
{
    match line {
        [] => true,
        [first, ..] => *first == b'#',
    }
}

/// The command of a line and what follows its first space, which may be nothing. None where the line
/// is not UTF-8 or its word, up to the first space, names no command.
#[tactic(auto, using(crate::proofs::CommandsLemmas::command_of_text, crate::proofs::CommandsLemmas::command_of_other))]
pub fn command_of(line: &[u8]) -> Option<(Command, &str)>
    ensures { option_map (λ c. (c.0, c.1.now)) result ≡ command_of line.now }
{
    match str::from_utf8(line) {
        Ok(text) => command_in(text),
        Err(_) => None,
    }
}

/// The same of a text.
fn command_in(text: &str) -> Option<(Command, &str)>
    ensures { option_map (λ c. (c.0, c.1.now)) result ≡ command_in text.now }
{
    let (word, rest) = parts_of(text);
    match command_named(word) {
        Some(command) => Some((command, rest)),
        None => None,
    }
}

/// What stands before the first space, and what follows it.
fn parts_of(text: &str) -> (&str, &str)
    ensures word { result.0.now ≡ before_first (λ b. b == 32) text.now }
    ensures rest { result.1.now ≡ after_first (λ b. b == 32) text.now }
{
    match text.split_once(' ') {
        Some(parts) => parts,
        None => (text, ""),
    }
}

fn command_named(word: &str) -> Option<Command>
    ensures { result ≡ command_named word.now }
{
    if word == "table" {
        Some(Command::Table)
    } else if word == "load" {
        Some(Command::Load)
    } else if word == "put" {
        Some(Command::Put)
    } else if word == "delete" {
        Some(Command::Delete)
    } else if word == "publish" {
        Some(Command::Publish)
    } else if word == "report" {
        Some(Command::Report)
    } else if word == "shape" {
        Some(Command::Shape)
    } else {
        None
    }
}
