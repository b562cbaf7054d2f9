//! What the words of the command line ask for, and why they may ask for nothing.
ghost use Rattle.std.specs.Prelude.{◌≡◌};
ghost use Rattle.script.specs.Viewers.{asked_of};
ghost use Rattle.command.specs.Jobs.{IsMemory};
ghost use Rattle.command.specs.declared.job.WordsFault.TheVariants.{Naming};

use crate::naming::NamingFault;
use cells::Text;
use forms::Form;
use script::{DEPTH, HashChoice, How, OnRefusal, ROWS, SHOTS, SMALL, VIEWERS, Viewing, WORKERS};
use std::alloc::{AllocError, AllocFailed};
use thiserror::Error;

/// What the words of the command line ask for. It owns its file names.
#[derive(Drop)]
pub struct Job {
    /// How the run is made.
    pub how: How,
    /// How keys are hashed.
    pub hash: HashChoice,
    /// The form of what is written.
    pub form: Form,
    /// What the run does after a refused line.
    pub on_refusal: OnRefusal,
    /// Whether it tells why lines are refused.
    pub explains: bool,
    /// Whether it tells how far it is.
    pub tells_progress: bool,
    /// The name of the script's file.
    pub script: Text,
    /// The names of the parts' files, in the order of the line, and then those of `--part`.
    pub parts: Vec<Text>,
    /// For each part the name that `load` lines may list it by, where it has one.
    pub names: Vec<Option<Text>>,
    /// What viewers beside the run are asked; None of `olap run`.
    pub live: Option<Viewing<Text>>,
}

impl Job {
    /// What its viewers are asked.
    pub fn viewing(&self) -> Option<Viewing<&str>>
        ensures { asked_of result ≡ self.now.live }
    {
        match &self.live {
            None => None,
            Some(live) => Some(Viewing {
                query: live.query.as_str(),
                viewers: live.viewers,
                shots: live.shots,
                showing: live.showing,
            }),
        }
    }
}

/// An option that has a range.
#[derive(Clone, Copy, Debug, Drop, Error)]
pub enum Setting {
    /// `--workers`, 1 to 64.
    #[error("'--workers' takes a number from {least} to {most}", least = WORKERS.least, most = WORKERS.most)]
    Workers,
    /// `--depth`, 0 to 13.
    #[error("'--depth' takes a number from {least} to {most}", least = DEPTH.least, most = DEPTH.most)]
    Depth,
    /// `--small`, 0 to 18,446,744,073,709,551,615.
    #[error("'--small' takes a number from {least} to {most}", least = SMALL.least, most = SMALL.most)]
    Small,
    /// `--rows`, 1 to 4,294,967,296.
    #[error("'--rows' takes a number from {least} to {most}", least = ROWS.least, most = ROWS.most)]
    Rows,
    /// `--hash`, `fnv` or `plain`.
    #[error("'--hash' takes fnv or plain")]
    Hash,
    /// `--format`, `classic`, `csv`, `json` or `table`.
    #[error("'--format' takes classic, csv, json or table")]
    Form,
    /// `--viewers`, 1 to 16.
    #[error("'--viewers' takes a number from {least} to {most}", least = VIEWERS.least, most = VIEWERS.most)]
    Viewers,
    /// `--shots`, 1 to 1,000.
    #[error("'--shots' takes a number from {least} to {most}", least = SHOTS.least, most = SHOTS.most)]
    Shots,
    /// `--shard`, K/N.
    #[error("'--shard' takes K/N, the shard K of N, from 1/1 on")]
    Shard,
}

/// Why words are no job. Its text is what the program writes.
#[derive(Debug, Drop, Error)]
pub enum WordsFault {
    /// `clap` does not read the words, or was asked for help, which is its text then; or memory was
    /// refused.
    #[error("{0}")]
    Clap(clap::Error),
    /// The value of an option lies outside its range. A sign before a number does, too.
    #[error("error: {0}\n\nFor more information, try '--help'.\n")]
    OutOfRange(Setting),
    /// A value of `--part` names no part.
    #[error("error: {0}\n\nFor more information, try '--help'.\n")]
    Naming(NamingFault),
    /// No script was named, or no query of the viewers. `clap` refuses such words itself, so this fault is not met.
    #[error("error: no SCRIPT\n\nFor more information, try '--help'.\n")]
    NoScript,
}

impl From<NamingFault> for WordsFault {
    ghost from_gives = { λ fault e. e ≡ Naming fault };

    fn from(fault: NamingFault) -> WordsFault {
        WordsFault::Naming(fault)
    }
}

impl From<AllocError> for WordsFault {
    ghost from_gives = { λ _ e. IsMemory e };

    fn from(error: AllocError) -> WordsFault {
        WordsFault::Clap(clap::Error::from(error))
    }
}

impl<T: Drop> From<AllocFailed<T>> for WordsFault {
    ghost from_gives = { λ _ e. IsMemory e };

    fn from(_error: AllocFailed<T>) -> WordsFault {
        WordsFault::Clap(clap::Error::from(AllocError))
    }
}
