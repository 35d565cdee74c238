//! Computing how many bytes an attribute list is written as, and whether it can be written.

ghost use Rattle.std.specs.Prelude.{◌≡◌, ◌≤◌, ◌↔◌, Some, IsTrue, IfSome};
ghost use Rattle.nl_attr.specs.Fixed as fixed;
ghost use Rattle.nl_attr.specs.Tree.{Items, HopItems};
ghost use Rattle.nl_attr.specs.View.{attrs_view, hops_view, attr_view, hop_view, value_view};
ghost use Rattle.nl_attr.specs.Written.{items_len};
ghost use Rattle.nl_attr.specs.Proper.{IsMismatched, IsDeep, IsLong, IsSized};
ghost use Rattle.nl_attr.specs.Measured.{extent_of, extent_of_val, extent_of_hops, item_len, join};
ghost use Rattle.nl_attr.specs.Measured.{length_of};

use crate::fault::WriteError;
use crate::limits::{Depth, LONGEST_ITEM, LONGEST_REGION};
use crate::tree::{Attr, Content, Ctx, Hop, NUMBERS, Value, holds};
use crate::walk::align4;

/// The measured size of an attribute list: its length as written, and whether it nests too deep.
#[derive(Clone, Copy, Debug, PartialEq, Eq, Hash)]
pub struct Extent {
    /// Whether a nested attribute opens a level beyond the depth limit.
    pub deep: bool,
    /// The length in bytes, with all padding. `None` where an attribute, a next hop or a region is
    /// too long.
    pub len: Option<usize>,
}

/// The length in bytes of an attribute or a next hop with its padding, from the length of its
/// header and that of its payload. `None` where either is too long.
fn item_size(head: usize, payload: Option<usize>) -> Option<usize>
    requires { head ≤ 8 }
    ensures { result ≡ item_len head payload }
{
    let len = payload?;
    if len > LONGEST_ITEM - head {
        return None;
    }
    Some(align4((head + len) as u32) as usize)
}

/// The extent of an attribute or a next hop, from its header's length and its payload's extent.
fn item_extent(head: usize, inner: Extent) -> Extent
    requires { head ≤ 8 }
    ensures { result ≡ record { deep = inner.deep; len = item_len head inner.len } }
{
    Extent {
        deep: inner.deep,
        len: item_size(head, inner.len),
    }
}

impl Extent {
    /// The extent of two parts of a region together. Its `len` is `None` above 1,048,576 bytes.
    pub fn and(self, other: Extent) -> Extent
        ensures { Some result ≡ join (Some self) (Some other) }
    {
        let len = match (self.len, other.len) {
            (Some(a), Some(b)) => match a.checked_add(b) {
                Some(sum) if sum <= LONGEST_REGION => Some(sum),
                _ => None,
            },
            _ => None,
        };
        Extent {
            deep: self.deep || other.deep,
            len,
        }
    }

    /// The length in bytes of what `measure` answered. The error is the first that applies:
    /// `Mismatch` where it answered `None`, then `TooDeep`, then `TooLong`.
    pub fn length(measured: Option<Extent>) -> Result<usize, WriteError>
        ensures { result ≡ length_of measured }
    {
        let extent = measured.ok_or(WriteError::Mismatch)?;
        if extent.deep {
            return Err(WriteError::TooDeep);
        }
        extent.len.ok_or(WriteError::TooLong)
    }
}

/// The extent of an attribute's value, where nested attributes may open `room` more levels. `None`
/// where the value, or one inside it, isn't what its attribute holds.
#[cycle(measuring)]
fn measure_value(value: &Value, content: Content, room: u8) -> Option<Extent>
    ensures { result ≡ extent_of_val (value_view value.now) content room }
{
    match (value, content) {
        (Value::Bytes(payload), Content::Bytes) => Some(Extent {
            deep: false,
            len: Some(payload.len()),
        }),
        (Value::List(attrs), Content::List(ctx)) => {
            let inner = measure_list(attrs, ctx, room.saturating_sub(1))?;
            Some(Extent {
                deep: room < 1 || inner.deep,
                len: inner.len,
            })
        }
        (Value::Hops(hops), Content::Hops) => {
            let inner = measure_hops(hops, room.saturating_sub(1))?;
            Some(Extent {
                deep: room < 2 || inner.deep,
                len: inner.len,
            })
        }
        _ => None,
    }
}

/// The extent of an attribute, as `measure_value`. `None` also for a type of 16,384 or more.
#[cycle(measuring)]
fn measure_attr(attr: &Attr, ctx: Ctx, room: u8) -> Option<Extent>
    ensures { (more : Items)
        → extent_of (attr_view attr.now more) ctx room ≡ join result (extent_of more ctx room) }
{
    if attr.number >= NUMBERS {
        return None;
    }
    let content = holds(ctx, attr.number, attr.flags);
    let inner = measure_value(&attr.value, content, room)?;
    Some(item_extent(4, inner))
}

/// The extent of an attribute list, as `measure_attr` for each.
#[cycle(measuring)]
fn measure_list(attrs: &[Attr], ctx: Ctx, room: u8) -> Option<Extent>
    ensures { result ≡ extent_of (attrs_view attrs.now) ctx room }
{
    let mut all = Extent {
        deep: false,
        len: Some(0),
    };
    for attr in attrs {
        all = all.and(measure_attr(attr, ctx, room)?);
    }
    Some(all)
}

/// The extent of a next hop, whose attributes lie one level further down.
#[cycle(measuring)]
fn measure_hop(hop: &Hop, room: u8) -> Option<Extent>
    ensures { (more : HopItems)
        → extent_of_hops (hop_view hop.now more) room ≡ join result (extent_of_hops more room) }
{
    let inner = measure_list(&hop.attrs, Ctx::Route, room.saturating_sub(1))?;
    Some(item_extent(8, inner))
}

/// The extent of next hops, as `measure_hop` for each.
#[cycle(measuring)]
fn measure_hops(hops: &[Hop], room: u8) -> Option<Extent>
    ensures { result ≡ extent_of_hops (hops_view hops.now) room }
{
    let mut all = Extent {
        deep: false,
        len: Some(0),
    };
    for hop in hops {
        all = all.and(measure_hop(hop, room)?);
    }
    Some(all)
}

/// Measures an attribute list of this context. `None` where an attribute's type is 16,384 or more,
/// or where its value isn't what its context, type and flags say that it holds.
///
/// A caller that writes the list behind bytes of its own so learns of every error in one pass,
/// before it takes any memory. It tests for `None` first, then `deep`, then `len`. `append_list`
/// may be called where there is a `len`, with room for so many bytes.
pub fn measure(attrs: &[Attr], ctx: Ctx, depth: Depth) -> Option<Extent>
    ensures mismatch { (result ≡ None) ↔ IsMismatched (attrs_view attrs.now) ctx }
    ensures deep { IfSome result (λ e. IsTrue e.deep ↔ IsDeep (attrs_view attrs.now) 0 depth) }
    ensures long { IfSome result (λ e. (e.len ≡ None) ↔ IsLong (attrs_view attrs.now)) }
    ensures len { IfSome result (λ e. IfSome e.len (λ n. n ≡ items_len (attrs_view attrs.now))) }
    ensures limit { IfSome result (λ e. IfSome e.len (λ n. n ≤ fixed.LONGEST_REGION)) }
    // Then it may be appended.
    ensures sized { IfSome result (λ e. IfSome e.len (λ n. IsSized (attrs_view attrs.now))) }
{
    measure_list(attrs, ctx, depth.get())
}
