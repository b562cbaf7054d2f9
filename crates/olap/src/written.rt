//! Files that the program writes.
ghost use Rattle.std.specs.Prelude.{◌≡◌, ℕ, ⊤, List, OnOk};

use crate::close::{ENDED_EARLY, NOTHING_RUN};
use crate::input::{Disk, Unread};
use crate::plain::say;
use cells::Text;
use std::fs::{self, File, Files, Metadata};
use std::io::{self, Write};
use std::os::unix::fs::MetadataExt;
use thiserror::Error;

/// How many names are tried for a file that is written beside another one.
const MOST_NAMES: u32 = 1000;

/// Why a file is not written: something would be lost. Its text is what the program writes after the file's name.
#[derive(Clone, Copy, Debug, Drop, Error)]
pub enum Untaken {
    /// A folder has the name.
    #[error("it is a folder")]
    IsFolder,
    /// A link has the name.
    #[error("it is a link, which the file would replace: name the file that it leads to, or another one")]
    IsLink,
    /// A device, a pipe or a socket has the name.
    #[error("it is no regular file, and the file would replace it: name another one")]
    IsDevice,
    /// A file that is to be read has the name, or is the same one under another name.
    #[error("it is the script or a part, which the file would replace: name another one")]
    IsRead,
}

/// Files, which are written whole by their names.
pub trait Writable {
    /// From the one to the other, the file of this name was written with these bytes.
    ghost writes: { Self → Self → List ℕ → List ℕ → Type 0 };

    /// A file of this name takes no other thing's place: what has the name is a regular file and none of these, or nothing.
    ghost may_take: { Self → List ℕ → List (List ℕ) → Type 0 };

    /// Looks whether a file may have this name, where those of the other names are to be read. It changes nothing.
    fn look(&self, name: &str, read: &[Text]) -> Result<(), Untaken>
        ensures { OnOk result (may_take self.now name.now read.now) };

    /// Writes a file, in the place of what stood there. It owns no byte of either.
    fn write(&mut self, name: &str, bytes: &[u8]) -> Result<(), Unread>
        ensures { OnOk result (writes self.old self.new name.now bytes.now) };
}

/// The bytes go to a new file beside it first, which then takes its place: so the file is there whole, or as it was. The new file has
/// a name that no file had, with the number of this program's process in it: so nobody else writes there, and no link is followed.
impl<'r, R: Files + AllocGlobal> Writable for Disk<'r, R> {
    ghost writes = { λ _ _ _ _. ⊤ };

    ghost may_take = { λ _ _ _. ⊤ };

    fn look(&self, name: &str, read: &[Text]) -> Result<(), Untaken> {
        // (where nothing can be told of the name, nothing can be written there either)
        let Ok(found) = fs::symlink_metadata(self.handle(), name) else {
            return Ok(());
        };
        let kind = found.file_type();
        if kind.is_dir() {
            return Err(Untaken::IsFolder);
        }
        if kind.is_symlink() {
            return Err(Untaken::IsLink);
        }
        if !kind.is_file() {
            return Err(Untaken::IsDevice);
        }
        if read.iter().any(|other| self.leads_to(other, &found)) {
            return Err(Untaken::IsRead);
        }
        Ok(())
    }

    fn write(&mut self, name: &str, bytes: &[u8]) -> Result<(), Unread> {
        self.replace(name, bytes).map_err(Unread::from)
    }
}

impl<'r, R: Files + AllocGlobal> Disk<'r, R> {
    /// Whether this name leads to the file of which this is told.
    fn leads_to(&self, name: &Text, file: &Metadata) -> bool {
        match fs::metadata(self.handle(), name.as_str()) {
            Ok(found) => found.dev() == file.dev() && found.ino() == file.ino(),
            Err(_) => false,
        }
    }

    /// Writes a new file, which then takes this name.
    fn replace(&self, name: &str, bytes: &[u8]) -> io::Result<()> {
        let (beside, mut file) = self.create_beside(name)?;
        let written = match file.write_all(bytes) {
            Ok(()) => fs::rename(self.handle(), beside.as_str(), name),
            Err(error) => Err(error),
        };
        if written.is_err() {
            let _ = fs::remove_file(self.handle(), beside.as_str());
        }
        written
    }

    /// Makes a file beside the one of this name, and gives its name: the first of those with the number of the process that none has.
    fn create_beside(&self, name: &str) -> io::Result<(String, R::File)> {
        let rt = self.handle();
        let process = self.process();
        for number in 1..=MOST_NAMES {
            let beside = format!(in rt.alloc(); "{name}.{process}-{number}.new")?;
            match File::create_new(rt, beside.as_str()) {
                Ok(file) => return Ok((beside, file)),
                Err(error) if error.kind() == io::ErrorKind::AlreadyExists => {}
                Err(error) => return Err(error),
            }
        }
        Err(io::Error::from(io::ErrorKind::AlreadyExists))
    }
}

/// Says which file may not be written, and why.
pub fn may_not_write<E: Write>(name: &str, why: Untaken, err: &mut E) -> u8
    ensures { result ≡ 2 }
{
    say(err, format_args!("olap: cannot write {name}: {why}"));
    NOTHING_RUN
}

/// Says which file can't be written, and why.
pub fn cannot_write<E: Write>(name: &str, why: Unread, err: &mut E) -> u8
    ensures { result ≡ 3 }
{
    say(err, format_args!("olap: cannot write {name}: {why}"));
    ENDED_EARLY
}
