//! Why a file makes no part.
ghost use Rattle.std.specs.Prelude.{◌≡◌};
ghost use Rattle.prepare.specs.declared.fault.PrepareFault.TheVariants.{OutOfMemory};

use crate::quotes::QuoteFault;
use std::alloc::{AllocError, AllocFailed};
use thiserror::Error;

/// Why a file makes no part.
#[derive(Clone, Copy, Debug, PartialEq, Eq, Drop, Error)]
pub enum PrepareFault {
    /// The file has no record, so it has no header.
    #[error("it has no header")]
    NoHeader,
    /// The header has no column of the name that is chosen at this place, where the first is 0.
    #[error("the header has not the column that is chosen at place {place}")]
    NoColumn {
        place: usize,
    },
    /// The header has two columns of the name that is chosen at this place, where the first is 0, and neither fits it better: both have
    /// exactly this name, or none has it and both do in another case. They are the first two such columns.
    #[error("the columns {first} and {second} of the header both have the name that is chosen at place {place}")]
    TwoColumns {
        place: usize,
        first: usize,
        second: usize,
    },
    /// This record, where the first after the header is 1, has another number of fields than the header.
    #[error("record {record} has {fields} fields, and the header {header}")]
    Uneven {
        record: u64,
        fields: usize,
        header: usize,
    },
    /// A quote of the file on this line, counted from 1 by line feeds, is not as RFC 4180 has it.
    #[error("line {line}: {fault}")]
    Quotes {
        fault: QuoteFault,
        line: u64,
    },
    /// Memory was refused.
    #[error("no memory")]
    OutOfMemory,
}

impl From<AllocError> for PrepareFault {
    ghost from_gives = { λ _ e. e ≡ OutOfMemory };

    fn from(_error: AllocError) -> PrepareFault {
        PrepareFault::OutOfMemory
    }
}

impl<T: Drop> From<AllocFailed<T>> for PrepareFault {
    ghost from_gives = { λ _ e. e ≡ OutOfMemory };

    fn from(_error: AllocFailed<T>) -> PrepareFault {
        PrepareFault::OutOfMemory
    }
}
