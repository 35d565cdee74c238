//! The error of `Mirror::begin`.

ghost use Rattle.std.specs.Prelude.{◌≡◌};

use crate::short::Short;
use thiserror::Error;

/// Why a dump didn't begin, or what was lost as it began.
#[derive(Clone, Copy, Debug, PartialEq, Eq, Error)]
pub enum BeginError {
    /// The sequence number isn't greater than that of each dump before. The mirror is as it was.
    #[error("the sequence number is not above that of the last dump")]
    Number,
    /// The dump began. But changes that waited for the end of the dump before it are lost.
    #[error("{0}")]
    Short(Short),
}
