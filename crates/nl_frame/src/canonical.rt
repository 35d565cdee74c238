//! Whether a datagram is exactly what its messages are written as.

ghost use Rattle.std.specs.Prelude.{◌≡◌, ◌<◌, ◌↔◌, IsTrue, length, List, IfOk, IfErr, Err};
ghost use Rattle.nl_frame.specs.Message.{MessageVal};
ghost use Rattle.nl_frame.specs.Layout.{Layout};
ghost use Rattle.nl_frame.specs.Heads.{IsFirstFault, whole};
ghost use Rattle.nl_frame.specs.Outcomes.{IfFault};
ghost use Rattle.nl_frame.specs.Written.{written};

use crate::appending::append_messages;
use crate::limits::Limits;
use crate::reading::{ReadError, read_datagram};
use nl_attr::align4;
use std::alloc::Global;

/// Whether a datagram is canonical: exactly the bytes that `write_datagram` writes its messages
/// as. All padding is there and is zeros, and so are header bytes that aren't kept.
///
/// The errors are those of `read_datagram`. What was read is written into a second datagram and
/// compared, so `Memory` may also be for that.
#[tactic(auto, using(crate::proofs::ProperLayouts::proper))]
pub fn is_canonical(alloc: Global, bytes: &[u8], limits: &Limits) -> Result<bool, ReadError>
    ensures large { result ≡ Err ReadError.TooLarge ↔ limits.now.datagram < length bytes.now }
    // The datagram has a layout, and is canonical exactly where writing that gives the datagram.
    ensures canonical { IfOk result
        (λ canonical. (ms : List MessageVal) × Layout limits.now.shape ms bytes.now
        × (IsTrue canonical ↔ written limits.now.shape.order ms ≡ bytes.now)) }
    // An error of a header is the one of least offset.
    ensures first { IfErr result
        (λ e. IfFault e (λ f. IsFirstFault limits.now.shape (whole bytes.now) f.place f.reason)) }
    // Then no list of messages is the layout.
    ensures none { IfErr result
        (λ e. IfFault e (λ _. (ms : List MessageVal) → Layout limits.now.shape ms bytes.now → ⊥)) }
{
    // This makes the range of the limit known to the prover: what was read can be written.
    let _limit = limits.datagram();
    let messages = read_datagram(alloc, bytes, limits).into_result()?;
    // The padding of the last message may be cut short.
    let mut again = Vec::with_capacity(alloc, align4(bytes.len() as u32) as usize)?;
    append_messages(messages.as_slice(), limits.order(), &mut again);
    Ok(again.as_slice() == bytes)
}
