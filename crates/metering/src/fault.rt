// What can be wrong with an archive's text.
ghost use Rattle.std.specs.Prelude.{◌≡◌};
ghost use Rattle.metering.specs.declared.fault.ArchiveFault.TheVariants.{Memory};

use std::alloc::{AllocError, AllocFailed};
use thiserror::Error;

// Lines are counted from 1.
#[derive(Clone, Copy, Debug, PartialEq, Eq, Error)]
pub enum ArchiveFault {
    #[error("there is not enough memory for the archive")]
    Memory,
    #[error("line {0}: a byte is two hexadecimal digits")]
    NotAByte(usize),
    #[error("line {0}: a record has 100 bytes")]
    WrongLength(usize),
    #[error("an archive has 2 to 65535 records, this one has {0}")]
    WrongCount(usize),
}

// By hand, since the parsers' contracts say which fault a `?` makes.
impl From<AllocError> for ArchiveFault {
    ghost from_gives = { λ _ r. r ≡ Memory };

    fn from(_e: AllocError) -> ArchiveFault {
        ArchiveFault::Memory
    }
}

impl<T: Drop> From<AllocFailed<T>> for ArchiveFault {
    ghost from_gives = { λ _ r. r ≡ Memory };

    fn from(_e: AllocFailed<T>) -> ArchiveFault {
        ArchiveFault::Memory
    }
}
