//! Going over the attributes or the next hops of one region, from the first on. Nothing here takes
//! memory, or looks into nested attributes.
//!
//! - `attrs` and `hops`: the public iterators, `Attrs` and `HopParts`.
//! - `cursors`: the attribute or the next hop at an offset, for callers without an iterator.
//! - `counted`: the walks of the crate's own reading, which count the bytes that they visit.

ghost use Rattle.std.specs.Prelude.{◌≡◌, ◌≤◌, length, min};
ghost use Rattle.nl_attr.specs.Fixed as fixed;
ghost use Rattle.nl_attr.specs.Numbers.{aligned, kind_of, len_of};
ghost use Rattle.nl_attr.specs.Walk.{HeadIs, flags_of};

mod attrs;
mod counted;
mod cursors;
mod hops;

use crate::fault::Reason;
use crate::order::Order;
use crate::tree::{AttrFlags, NLA_F_NESTED, NLA_F_NET_BYTEORDER};
pub use attrs::{Attrs, Part};
pub(crate) use counted::{CountedAttrs, CountedHopParts, Step};
pub use cursors::{attr_at, hop_at};
pub use hops::{HopPart, HopParts};

/// The least multiple of 4 that is not below `n` (`NLMSG_ALIGN`, `RTA_ALIGN`).
pub fn align4(n: u32) -> u32
    requires { n ≤ 4294967292 }
    ensures { result ≡ aligned n }
{
    (n + 3) / 4 * 4
}

/// The length field of the header at the front, in bytes.
#[inline(always)]
pub(crate) fn len_at(order: Order, left: &[u8]) -> usize
    requires { 2 ≤ length left.now }
    ensures { result ≡ len_of order 2 left.now }
{
    order.read_u16(left) as usize
}

/// Validates the header at the front, which has `min` bytes, and answers its length field, in
/// bytes.
///
/// The error is `Cut` where fewer than `min` bytes are left. It is `BadLength` where the length is
/// less than `min`, or more than the bytes that are left.
pub(crate) fn head_len(order: Order, left: &[u8], min: usize) -> Result<usize, Reason>
    requires { 2 ≤ min }
    ensures { HeadIs order min 2 left.now result }
{
    if left.len() < min {
        return Err(Reason::Cut);
    }
    let len = len_at(order, left);
    if len < min || left.len() < len {
        return Err(Reason::BadLength);
    }
    Ok(len)
}

/// The type field of the attribute at the front, `rta_type`, with its flag bits.
#[inline(always)]
pub(crate) fn kind_at(order: Order, left: &[u8]) -> u16
    requires { 4 ≤ length left.now }
    ensures { result ≡ kind_of order left.now }
{
    order.read_u16(&left[2..])
}

/// The two flag bits of a type field.
#[inline(always)]
pub(crate) fn flags_in(kind: u16) -> AttrFlags
    ensures { result ≡ flags_of kind }
{
    AttrFlags {
        nested: kind / NLA_F_NESTED == 1,
        net: kind / NLA_F_NET_BYTEORDER % 2 == 1,
    }
}

/// The span of an attribute or a next hop of `len` bytes at the front: how many bytes it occupies
/// with its padding, as far as that is present.
#[inline(always)]
pub(crate) fn span_at(left: &[u8], len: usize) -> usize
    requires { len ≤ fixed.LONGEST_REGION }
    ensures { result ≡ min (aligned len) (length left.now) }
{
    (align4(len as u32) as usize).min(left.len())
}
