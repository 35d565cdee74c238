//! The error of a call of a source or a sink, and which calls move no byte.

ghost use Rattle.std.specs.Prelude.{◌↔◌, IsTrue, Ok};
ghost use Rattle.rtnl.specs.Streams.{MovesNone};

use thiserror::Error;

/// A call of a source or of a sink failed, and moved no byte.
#[derive(Clone, Copy, Debug, PartialEq, Eq, Error)]
#[error("a read or a write failed")]
pub struct IoFailed;

/// Whether a call had bytes to move, and moved none of them.
pub(crate) fn moves_none(count: usize, size: usize) -> bool
    ensures { IsTrue result ↔ MovesNone (Ok count) size }
{
    count == 0 && size > 0
}
