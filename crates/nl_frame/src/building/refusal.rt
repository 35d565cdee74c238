//! The errors of building a datagram.

ghost use Rattle.std.specs.Prelude.{◌≡◌};

use thiserror::Error;

/// The error of a builder's call.
#[derive(Clone, Copy, Debug, PartialEq, Eq, Hash, Error)]
pub enum BuildError {
    /// The part doesn't belong there: an attribute among next hops, or the reverse. Or a type is
    /// 16,384 or more; bytes are put for an attribute that holds attributes or next hops, or the
    /// reverse; or a header or body isn't one of its message's type.
    #[error("mismatch")]
    Mismatch,
    /// A nested attribute would open a level beyond the depth limit.
    #[error("too deep")]
    TooDeep,
    /// An attribute has more than 65,535 bytes; a nested one or a next hop more than 65,532; or a
    /// message that is put whole more than 1,048,576.
    #[error("too long")]
    TooLong,
    /// The datagram would be longer than the datagram limit.
    #[error("too large")]
    TooLarge,
    /// The slice has no room for the part.
    #[error("no room")]
    NoRoom,
    /// No attribute or next hop is open to be closed, or no message to put into.
    #[error("nothing open")]
    NothingOpen,
    /// The message or datagram ends, or a message begins, while something is open.
    #[error("still open")]
    StillOpen,
}

impl BuildError {
    ghost use Rattle.nl_frame.specs.BuildCodes.{build_code};

    /// The error's number: 11, 5, 4, 6, 17, 21 or 22, in the order of the variants.
    pub fn code(self) -> u8
        ensures { result ≡ build_code self }
    {
        match self {
            BuildError::Mismatch => 11,
            BuildError::TooDeep => 5,
            BuildError::TooLong => 4,
            BuildError::TooLarge => 6,
            BuildError::NoRoom => 17,
            BuildError::NothingOpen => 21,
            BuildError::StillOpen => 22,
        }
    }
}
