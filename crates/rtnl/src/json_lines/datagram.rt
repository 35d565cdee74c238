//! Why a datagram is refused, as fields.

ghost use Rattle.std.specs.Prelude.{◌≡◌, ◌≢◌, OnOk};
ghost use Rattle.rtnl.specs.Json.{◌⊕◌, fields_tokens};
ghost use Rattle.rtnl.specs.Shown.{refusal_fields};

use crate::json_lines::line::Line;
use crate::names::reasons::reason_name;
use nl_frame::ReadError;
use std::alloc::AllocError;

/// Writes why a datagram is refused. It fails where `error` is `Memory`.
#[tactic(auto, unfolding(crate::specs::Shown::refusal_fields), using(crate::proofs::Sets::field))]
pub(crate) fn push_refusal(line: &mut Line, error: ReadError) -> Result<(), AllocError>
    ensures refusal { OnOk result (error ≢ ReadError.Memory) }
    ensures fields { OnOk result (line.new ≡ line.old ⊕ fields_tokens (refusal_fields error)) }
{
    match error {
        ReadError::TooLarge => line.text("refused", "too large"),
        ReadError::Layout(fault) => {
            line.text("refused", reason_name(fault.reason))?;
            line.number("at", fault.place.into())
        }
        ReadError::Memory => Err(AllocError),
    }
}
