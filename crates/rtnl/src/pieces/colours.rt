//! What begins and ends the colours of a terminal (ECMA-48, "SGR").

ghost use Rattle.std.specs.Prelude.{◌≡◌, ◌++◌, OnOk};
ghost use Rattle.rtnl.specs.ByteRows.{painted, unpaint};

use crate::pieces::push;
use std::alloc::AllocError;

/// What begins bold red words.
pub(crate) const RED: &str = "\x1b[1;31m";

/// What begins faint words.
pub(crate) const FAINT: &str = "\x1b[2m";

/// What begins bold words.
pub(crate) const BOLD: &str = "\x1b[1m";

/// What begins cyan words.
pub(crate) const CYAN: &str = "\x1b[36m";

/// Writes the end of a colour, where there is one.
pub(crate) fn push_end(out: &mut Vec<u8>, colour: &str) -> Result<(), AllocError>
    ensures { OnOk result (out.new.items ≡ out.old.items ++ unpaint colour.now) }
{
    if colour.is_empty() {
        return Ok(());
    }
    push(out, "\x1b[0m")
}

/// Writes a text in a colour.
#[tactic(auto, unfolding(crate::specs::ByteRows::painted))]
pub(crate) fn push_coloured(out: &mut Vec<u8>, colour: &str, text: &[u8]) -> Result<(), AllocError>
    ensures { OnOk result (out.new.items ≡ out.old.items ++ painted colour.now text.now) }
{
    push(out, colour)?;
    out.extend_from_slice(text)?;
    push_end(out, colour)
}
