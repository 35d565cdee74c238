//! `Short`: the error of a mirror's calls, for too little memory or room.

ghost use Rattle.std.specs.Prelude.{◌≡◌};
ghost use Rattle.nl_mirror.specs.Short.{reason};

use crate::stale::Stale;
use std::alloc::{AllocError, AllocFailed};
use thiserror::Error;

/// What there was too little of to apply a message. The table is stale then. All else that the
/// message says has been applied.
#[derive(Clone, Copy, Debug, PartialEq, Eq, Error)]
pub enum Short {
    /// Memory.
    #[error("out of memory")]
    Memory,
    /// Room for changes that wait for the end of a dump: the limit `waiting` of `Mirror::new`.
    #[error("too many changes wait")]
    Waiting,
}

impl Short {
    /// The reason for which the table is stale then.
    pub(crate) fn reason(self) -> Stale
        ensures { result ≡ reason self }
    {
        match self {
            Short::Memory => Stale::Memory,
            Short::Waiting => Stale::Waiting,
        }
    }
}

impl From<AllocError> for Short {
    ghost use Rattle.nl_mirror.specs.declared.short.Short.TheVariants.{Memory};

    ghost from_gives = { λ _ e. e ≡ Memory };

    fn from(_error: AllocError) -> Short {
        Short::Memory
    }
}

impl<T: Drop> From<AllocFailed<T>> for Short {
    ghost use Rattle.nl_mirror.specs.declared.short.Short.TheVariants.{Memory};

    ghost from_gives = { λ _ e. e ≡ Memory };

    fn from(_error: AllocFailed<T>) -> Short {
        Short::Memory
    }
}
