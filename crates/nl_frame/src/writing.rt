//! Writing messages as a datagram.

ghost use Rattle.std.specs.Prelude.{◌≡◌, ◌↔◌, Err, IfOk, map};
ghost use Rattle.nl_frame.specs.View.{message_view};
ghost use Rattle.nl_frame.specs.Layout.{Layout};
ghost use Rattle.nl_frame.specs.Written.{written};
ghost use Rattle.nl_frame.specs.Proper.{IsRanged, IsRefused};
ghost use Rattle.nl_frame.specs.Outcomes.{write_code, write_error};
ghost use Rattle.nl_frame.specs.declared.writing.WriteError.TheVariants.{Memory};

use crate::appending::append_messages;
use crate::body::Message;
use crate::limits::Limits;
use crate::measuring::measure_messages;
use nl_attr::Extent;
use std::alloc::{AllocError, Global};
use thiserror::Error;

/// The error of writing messages. Of several that apply it is the first, in the order of the
/// variants, each looked for in all messages.
#[derive(Clone, Copy, Debug, PartialEq, Eq, Hash, Error)]
pub enum WriteError {
    /// A body isn't one of its message's type. Or an attribute's type is 16,384 or more, or its
    /// value isn't what its context, type and flags say that it holds.
    #[error("mismatch")]
    Mismatch,
    /// A nested attribute opens a level beyond the depth limit.
    #[error("too deep")]
    TooDeep,
    /// An attribute or a next hop has more than 65,535 bytes, or a region or the datagram more than
    /// 1,048,576.
    #[error("too long")]
    TooLong,
    /// The datagram would be longer than the datagram limit.
    #[error("too large")]
    TooLarge,
    /// An allocation failed. All other rules hold.
    #[error("out of memory")]
    Memory,
}

impl WriteError {
    /// The error's number: 11, 5, 4, 6 or 13, in the order of the variants.
    pub fn code(self) -> u8
        ensures { result ≡ write_code self }
    {
        match self {
            WriteError::Mismatch => 11,
            WriteError::TooDeep => 5,
            WriteError::TooLong => 4,
            WriteError::TooLarge => 6,
            WriteError::Memory => 13,
        }
    }
}

impl From<nl_attr::WriteError> for WriteError {
    ghost from_gives = { λ refusal e. e ≡ write_error refusal };

    fn from(refusal: nl_attr::WriteError) -> WriteError {
        match refusal {
            nl_attr::WriteError::Mismatch => WriteError::Mismatch,
            nl_attr::WriteError::TooDeep => WriteError::TooDeep,
            nl_attr::WriteError::TooLong => WriteError::TooLong,
            nl_attr::WriteError::Memory => WriteError::Memory,
        }
    }
}

impl From<AllocError> for WriteError {
    ghost from_gives = { λ _ e. e ≡ Memory };

    fn from(_error: AllocError) -> WriteError {
        WriteError::Memory
    }
}

/// Writes messages as a datagram, each padded with zeros to a multiple of four bytes
/// (`NLMSG_ALIGN` of netlink(7)), the last one too. Headers are in the byte order of the limits.
/// Payloads are copied: numbers in them stay in the byte order that they were read in.
///
/// Of the limits, it uses the byte order, the depth and the datagram limit. The error is the first
/// of these that applies:
///
/// - `Mismatch`: a body isn't one of its message's type, a DONE has no status but four bytes or
///   more, or an attribute is one of `nl_attr::WriteError::Mismatch`.
/// - `TooDeep`: a nested attribute opens a level beyond the depth limit.
/// - `TooLong`: an attribute or a next hop has more than 65,535 bytes, or a region or the datagram
///   more than 1,048,576.
/// - `TooLarge`: the datagram would be longer than the datagram limit.
/// - `Memory`: the one allocation, which comes after all that, failed.
pub fn write_datagram(
    alloc: Global,
    messages: &[Message],
    limits: &Limits,
) -> Result<Vec<u8>, WriteError>
    ensures mismatch { (result ≡ Err WriteError.Mismatch)
        ↔ IsRefused (map message_view messages.now) limits.now WriteError.Mismatch }
    ensures deep { (result ≡ Err WriteError.TooDeep)
        ↔ IsRefused (map message_view messages.now) limits.now WriteError.TooDeep }
    ensures long { (result ≡ Err WriteError.TooLong)
        ↔ IsRefused (map message_view messages.now) limits.now WriteError.TooLong }
    ensures large { (result ≡ Err WriteError.TooLarge)
        ↔ IsRefused (map message_view messages.now) limits.now WriteError.TooLarge }
    // Otherwise they are written, unless memory runs out.
    ensures written { IfOk result
        (λ v. v.items ≡ written limits.now.shape.order (map message_view messages.now)) }
    // Each number of a message in memory is in the range of its Rust type.
    ensures ranged { IfOk result (λ v. IsRanged (map message_view messages.now)) }
    // The messages are the layout of what is written: it is read as them again.
    ensures again { IfOk result
        (λ v. Layout limits.now.shape (map message_view messages.now) v.items) }
{
    let len = Extent::length(measure_messages(messages, limits.depth()))?;
    if len > limits.datagram() as usize {
        return Err(WriteError::TooLarge);
    }
    let mut out = Vec::with_capacity(alloc, len)?;
    append_messages(messages, limits.order(), &mut out);
    Ok(out)
}
