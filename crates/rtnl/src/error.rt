//! Why a run stopped.

ghost use Rattle.std.specs.Prelude.{◌≡◌};

use std::alloc::{AllocError, AllocFailed};
use thiserror::Error;

/// Why a run stopped.
#[derive(Clone, Copy, Debug, PartialEq, Eq, Hash, Error)]
pub enum RunError {
    /// The line of this number, counted from 1, is not hexadecimal.
    #[error("line {0}: bad line")]
    BadLine(u32),

    /// A read failed, or the input is longer than 16,777,216 bytes.
    #[error("read fault")]
    ReadFault,

    /// A write failed, or took no byte.
    #[error("write fault")]
    WriteFault,

    /// Memory ran out.
    #[error("out of memory")]
    Memory,
}

impl RunError {
    ghost use Rattle.rtnl.specs.Codes.{run_code};

    /// The number of the refusal: 13 for memory, 14 for a bad line, 15 and 16 for a read and a
    /// write fault.
    pub fn code(&self) -> u8
        ensures { result ≡ run_code self.now }
    {
        match self {
            RunError::Memory => 13,
            RunError::BadLine(_) => 14,
            RunError::ReadFault => 15,
            RunError::WriteFault => 16,
        }
    }
}

impl From<AllocError> for RunError {
    ghost use Rattle.rtnl.specs.declared.error.RunError.TheVariants.{Memory};

    ghost from_gives = { λ _ e. e ≡ Memory };

    fn from(_error: AllocError) -> RunError {
        RunError::Memory
    }
}

impl<T: Drop> From<AllocFailed<T>> for RunError {
    ghost use Rattle.rtnl.specs.declared.error.RunError.TheVariants.{Memory};

    ghost from_gives = { λ _ e. e ≡ Memory };

    fn from(_error: AllocFailed<T>) -> RunError {
        RunError::Memory
    }
}
