//! The attribute or the next hop at an offset of a region, for a caller that steps by itself.

ghost use Rattle.std.specs.Prelude.{◌≤◌, length};
ghost use Rattle.nl_attr.specs.Fixed as fixed;
ghost use Rattle.nl_attr.specs.Walk.{IsHopPart, IsPart, StandsAt};

use crate::fault::Fault;
use crate::order::Order;
use crate::walk::attrs::{Part, attr_in_front};
use crate::walk::hops::{HopPart, hop_in_front};

/// The attribute whose header stands at offset `place` of a region. `None` at the region's end or
/// beyond it. The error is the rule that the header breaks, `Cut` or `BadLength`.
///
/// Offsets count in bytes from the region's start, also those of the answer. The next attribute
/// stands at the offset plus the span. No byte before the offset is read: whether an attribute
/// really begins there is for the caller to know.
pub fn attr_at(bytes: &[u8], place: u32, order: Order) -> Option<Result<Part<'_>, Fault>>
    requires { length bytes.now ≤ fixed.LONGEST_REGION }
    ensures { StandsAt 4 IsPart order bytes.now place result }
{
    if bytes.len() <= place as usize {
        return None;
    }
    Some(attr_in_front(order, &bytes[place as usize..], place))
}

/// The next hop whose header stands at offset `place` of a region. All else is as in `attr_at`.
pub fn hop_at(bytes: &[u8], place: u32, order: Order) -> Option<Result<HopPart<'_>, Fault>>
    requires { length bytes.now ≤ fixed.LONGEST_REGION }
    ensures { StandsAt 8 IsHopPart order bytes.now place result }
{
    if bytes.len() <= place as usize {
        return None;
    }
    Some(hop_in_front(order, &bytes[place as usize..], place))
}
