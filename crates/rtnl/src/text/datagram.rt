//! The lines that are printed of a datagram beside its messages.

ghost use Rattle.std.specs.Prelude.{◌≡◌, ◌≢◌, ◌++◌, OnOk};
ghost use Rattle.rtnl.specs.Checked.{number_front};
ghost use Rattle.rtnl.specs.Datagrams.{datagram_line, refused_line, too_large_line};
ghost use Rattle.rtnl.specs.Shown.{refusal_text};

use crate::names::reasons::reason_name;
use crate::pieces::segment::Segment;
use crate::pieces::{push, push_decimal};
use nl_attr::Fault;
use nl_frame::ReadError;
use std::alloc::AllocError;

/// Writes the line of a datagram of this number, counted from 1, with this many bytes.
#[tactic(auto, unfolding(crate::specs::Datagrams::datagram_line))]
pub(crate) fn push_datagram_line(
    out: &mut Vec<u8>,
    number: usize,
    size: usize,
) -> Result<(), AllocError>
    ensures { OnOk result (out.new.items ≡ out.old.items ++ datagram_line number size) }
{
    let mut line = Segment::new();
    line.put("\n");
    line.put_field(" bytes ", size as u64);
    line.put_field("datagram ", number as u64);
    line.push_to(out)
}

/// Writes what stands before a word on the datagram of this number, counted from 1.
#[tactic(auto, unfolding(crate::specs::Checked::number_front))]
pub(crate) fn push_number(out: &mut Vec<u8>, number: usize) -> Result<(), AllocError>
    ensures { OnOk result (out.new.items ≡ out.old.items ++ number_front number) }
{
    let mut front = Segment::new();
    front.put(" ");
    front.put_field("datagram ", number as u64);
    front.push_to(out)
}

/// Writes that a datagram was refused at its first fault.
#[tactic(auto, unfolding(crate::specs::Datagrams::refused_line))]
fn push_refused_line(out: &mut Vec<u8>, fault: Fault) -> Result<(), AllocError>
    ensures { OnOk result (out.new.items ≡ out.old.items ++ refused_line fault.reason fault.place) }
{
    push(out, "refused ")?;
    push(out, reason_name(fault.reason))?;
    push(out, " at ")?;
    push_decimal(out, fault.place as u64)?;
    push(out, "\n")
}

/// Writes that a datagram was refused for its size.
#[tactic(auto, unfolding(crate::specs::Datagrams::too_large_line))]
fn push_too_large_line(out: &mut Vec<u8>) -> Result<(), AllocError>
    ensures { OnOk result (out.new.items ≡ out.old.items ++ too_large_line) }
{
    push(out, "refused too large\n")
}

/// Writes the line of a refusal. It fails where that was for memory.
pub(crate) fn push_refusal(out: &mut Vec<u8>, error: ReadError) -> Result<(), AllocError>
    ensures refusal { OnOk result (error ≢ ReadError.Memory) }
    ensures text { OnOk result (out.new.items ≡ out.old.items ++ refusal_text error) }
{
    match error {
        ReadError::TooLarge => push_too_large_line(out),
        ReadError::Layout(fault) => push_refused_line(out, fault),
        ReadError::Memory => Err(AllocError),
    }
}
