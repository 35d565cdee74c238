//! The state of a region that is being read, and the calls that add to its list.

ghost use Rattle.std.specs.Prelude.{◌^◌, ◌≡◌, ◌≤◌, ◌<◌, ◌+◌, ◌*◌, [], ◌∷◌, ◌++◌, length, map, take, IfOk};
ghost use Rattle.std.specs.Prelude.{vec_capacity, vec_len};
ghost use Rattle.nl_attr.specs.Fixed as fixed;
ghost use Rattle.nl_attr.specs.Heads.{broken_container, attr_head, hop_head};
ghost use Rattle.nl_attr.specs.Reading.{items_of_region, hops_of_region};
ghost use Rattle.nl_attr.specs.Tree.{bytes as held, item, hop};
ghost use Rattle.nl_attr.specs.View.{attr_view, hop_view, value_view, attrs_view};
ghost use Rattle.nl_attr.specs.Open.{list_rest, hops_rest, spot_of, list_spot, hops_spot};

use crate::fault::{Fault, ListError, Reason};
use crate::limits::{LONGEST_CONTAINER, Shape};
use crate::payload::{INLINE, Payload};
use crate::tree::{Attr, AttrFlags, Content, Ctx, Hop, Value};
use crate::walk::{CountedAttrs, CountedHopParts};
use std::alloc::{AllocError, Global};

/// A region of attributes that is being read.
#[derive(Drop)]
pub(super) struct ListRegion<'a> {
    /// What is left of it.
    pub(super) walk: CountedAttrs<'a>,
    /// The attributes read so far.
    pub(super) list: Vec<Attr>,
    /// The offset of its first byte, with the base of the reading.
    pub(super) base: u32,
    /// Its nesting level.
    pub(super) level: u8,
    /// What the types of its attributes mean.
    pub(super) ctx: Ctx,
}

/// A region of next hops that is being read. The fields are as in `ListRegion`.
#[derive(Drop)]
pub(super) struct HopsRegion<'a> {
    pub(super) walk: CountedHopParts<'a>,
    pub(super) list: Vec<Hop>,
    pub(super) base: u32,
    pub(super) level: u8,
}

/// The fields of a next hop's header, `rtnexthop`, but for its length.
#[derive(Clone, Copy)]
pub(super) struct HopHead {
    pub(super) flags: u8,
    pub(super) hops: u8,
    pub(super) ifindex: i32,
}

/// The rule that an attribute of this content breaks at this level, or `None`: `TooLong` or
/// `TooDeep`. `len` is its length field, in bytes. An attribute that holds bytes breaks none.
pub(crate) fn container_fault(
    content: Content,
    len: usize,
    level: u8,
    shape: Shape,
) -> Option<Reason>
    requires { level ≤ fixed.MOST_LEVELS }
    ensures { result ≡ broken_container shape level content len }
{
    let opens = match content {
        Content::Bytes => return None,
        Content::List(_) => 1,
        Content::Hops => 2,
    };
    if len > LONGEST_CONTAINER {
        Some(Reason::TooLong)
    } else if level + opens > shape.depth() {
        Some(Reason::TooDeep)
    } else {
        None
    }
}

/// The error of a reading, from one whose offset counts from the region's start.
pub(super) fn layout(base: u32, fault: Fault) -> ListError
    requires { base + fault.place < 2 ^ 32 }
    ensures { result
        ≡ ListError.Layout (record { place = base + fault.place; reason = fault.reason }) }
{
    ListError::Layout(Fault {
        place: base + fault.place,
        reason: fault.reason,
    })
}

/// The most entries that are reserved before the first is read. A link of a recent kernel has some
/// 38 attributes.
const FIRST_ROOM: usize = 40;

/// How many entries to reserve for a region, where each has about `each` bytes; at most
/// `FIRST_ROOM`.
pub(super) fn first_room(bytes: &[u8], each: usize) -> usize
    requires { 1 ≤ each }
    ensures { result * each ≤ length bytes.now }
{
    (bytes.len() / each).min(FIRST_ROOM)
}

/// Begins the reading of a region of attributes. It reserves an entry for every eight bytes. The
/// error is for memory.
pub(super) fn list_of<'a>(
    alloc: Global,
    bytes: &'a [u8],
    base: u32,
    ctx: Ctx,
    level: u8,
    shape: Shape,
) -> Result<ListRegion<'a>, AllocError>
    requires { length bytes.now ≤ fixed.LONGEST_REGION }
    ensures rest { IfOk result
        (λ r. list_rest shape r ≡ items_of_region shape ctx level base bytes.now) }
    ensures spot { IfOk result (λ r. list_spot r ≡ spot_of shape attr_head base level bytes.now) }
{
    Ok(ListRegion {
        walk: CountedAttrs::over(bytes, shape.order()),
        ctx,
        base,
        level,
        list: Vec::with_capacity(alloc, first_room(bytes, 8))?,
    })
}

/// Begins the reading of a region of next hops. It reserves an entry for every sixteen bytes. The
/// error is for memory.
pub(super) fn hops_of<'a>(
    alloc: Global,
    bytes: &'a [u8],
    base: u32,
    level: u8,
    shape: Shape,
) -> Result<HopsRegion<'a>, AllocError>
    requires { length bytes.now ≤ fixed.LONGEST_REGION }
    ensures rest { IfOk result
        (λ r. hops_rest shape r ≡ hops_of_region shape level base bytes.now) }
    ensures spot { IfOk result (λ r. hops_spot r ≡ spot_of shape hop_head base level bytes.now) }
{
    Ok(HopsRegion {
        walk: CountedHopParts::over(bytes, shape.order()),
        base,
        level,
        list: Vec::with_capacity(alloc, first_room(bytes, 16))?,
    })
}

/// Adds an attribute to a list. The error is for memory.
#[inline(always)]
pub(super) fn keep_attr(
    list: &mut Vec<Attr>,
    number: u16,
    flags: AttrFlags,
    value: Value,
) -> Result<(), AllocError>
    ensures { IfOk result (λ _. map attr_view list.new.items
        ≡ map attr_view list.old.items ++ item number flags (value_view value) ∷ []) }
{
    let attr = Attr {
        number,
        flags,
        value,
    };
    list.push(attr)?;
    Ok(())
}

/// Adds an attribute that holds the first `len` bytes of `buffer`. The list has room for it.
#[inline(always)]
fn keep_front(list: &mut Vec<Attr>, number: u16, flags: AttrFlags, buffer: [u8; INLINE], len: u8)
    requires len { len ≤ INLINE }
    requires room { vec_len list.old < vec_capacity list.old }
    ensures { map attr_view list.new.items
        ≡ map attr_view list.old.items ++ item number flags (held (take len buffer)) ∷ [] }
{
    let value = Value::Bytes(Payload::front_of(buffer, len));
    list.push_reserved(Attr {
        number,
        flags,
        value,
    });
}

/// Adds an attribute that holds these bytes. The error is for memory.
///
/// Most payloads are numbers or addresses of 1, 4, 6, 8 or 16 bytes. For these the bytes are
/// copied one by one, since a copy of a length that is only known at run time would be a call.
#[inline(always)]
pub(super) fn keep_bytes(
    alloc: Global,
    list: &mut Vec<Attr>,
    number: u16,
    flags: AttrFlags,
    payload: &[u8],
) -> Result<(), AllocError>
    ensures { IfOk result (λ _. map attr_view list.new.items
        ≡ map attr_view list.old.items ++ item number flags (held payload.now) ∷ []) }
{
    list.reserve(1)?;
    match *payload {
        [a, b, c, d] => {
            let buffer = [
                a, b, c, d, 0, 0, 0, 0, 0, 0, 0, 0, 0, 0, 0, 0, 0, 0, 0, 0, 0, 0, 0,
            ];
            keep_front(list, number, flags, buffer, 4);
        }
        [a, b, c, d, e, f, g, h, i, j, k, l, m, n, o, p] => {
            let buffer = [
                a, b, c, d, e, f, g, h, i, j, k, l, m, n, o, p, 0, 0, 0, 0, 0, 0, 0,
            ];
            keep_front(list, number, flags, buffer, 16);
        }
        [a, b, c, d, e, f] => {
            let buffer = [
                a, b, c, d, e, f, 0, 0, 0, 0, 0, 0, 0, 0, 0, 0, 0, 0, 0, 0, 0, 0, 0,
            ];
            keep_front(list, number, flags, buffer, 6);
        }
        [a] => {
            let buffer = [
                a, 0, 0, 0, 0, 0, 0, 0, 0, 0, 0, 0, 0, 0, 0, 0, 0, 0, 0, 0, 0, 0, 0,
            ];
            keep_front(list, number, flags, buffer, 1);
        }
        [a, b, c, d, e, f, g, h] => {
            let buffer = [
                a, b, c, d, e, f, g, h, 0, 0, 0, 0, 0, 0, 0, 0, 0, 0, 0, 0, 0, 0, 0,
            ];
            keep_front(list, number, flags, buffer, 8);
        }
        _ => return keep_others(alloc, list, number, flags, payload),
    }
    Ok(())
}

/// Adds an attribute that holds bytes, however many there are. The error is for memory.
#[inline(never)]
pub(super) fn keep_others(
    alloc: Global,
    list: &mut Vec<Attr>,
    number: u16,
    flags: AttrFlags,
    payload: &[u8],
) -> Result<(), AllocError>
    ensures { IfOk result (λ _. map attr_view list.new.items
        ≡ map attr_view list.old.items ++ item number flags (held payload.now) ∷ []) }
{
    let payload = Payload::from_slice(alloc, payload)?;
    keep_attr(list, number, flags, Value::Bytes(payload))
}

/// Adds a next hop to a list. The error is for memory.
#[inline(always)]
pub(super) fn keep_hop(
    list: &mut Vec<Hop>,
    head: HopHead,
    attrs: Vec<Attr>,
) -> Result<(), AllocError>
    ensures { IfOk result (λ _. map hop_view list.new.items ≡ map hop_view list.old.items
        ++ hop head.flags head.hops head.ifindex (attrs_view attrs.items) ∷ []) }
{
    let hop = Hop {
        flags: head.flags,
        hops: head.hops,
        ifindex: head.ifindex,
        attrs,
    };
    list.push(hop)?;
    Ok(())
}
