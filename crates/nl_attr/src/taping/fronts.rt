//! The attribute or the next hop at the front of a region, and what is left behind it.

ghost use Rattle.std.specs.Prelude.{◌^◌, ◌≡◌, ◌≤◌, ◌<◌, ◌+◌, length, Ok};
ghost use Rattle.nl_attr.specs.Fixed as fixed;
ghost use Rattle.nl_attr.specs.Heads.{start_of};
ghost use Rattle.nl_attr.specs.Region.{ctx_in, head_of, sort_in};
ghost use Rattle.nl_attr.specs.Taped.{IsAttrFront, IsHopFront, hops_start};
ghost use Rattle.nl_attr.specs.HeadOrder.{sort_of};
ghost use Rattle.nl_attr.specs.Walk.{HeadIs};

use crate::events::{Event, SORT_BYTES, SORT_HOPS, SORT_LIST, SORT_NEXT_HOP};
use crate::order::Order;
use crate::region::{OpenRegion, Parts};
use crate::tree::{AttrFlags, Content, Ctx, NUMBERS};
use crate::walk::{flags_in, kind_at, span_at};

/// An attribute at the front of a region.
#[derive(Clone, Copy)]
pub(super) struct AttrFront<'a> {
    /// Its event. It says that the attribute holds bytes, which the caller corrects.
    pub(super) event: Event,
    pub(super) flags: AttrFlags,
    /// How many bytes it occupies, with its padding as far as present.
    pub(super) span: u32,
    pub(super) payload: &'a [u8],
    /// What is left behind it.
    pub(super) rest: OpenRegion<'a>,
}

/// A next hop at the front of a region.
#[derive(Clone, Copy)]
pub(super) struct HopFront<'a> {
    pub(super) event: Event,
    /// How many bytes it occupies, with its padding as far as present.
    pub(super) span: u32,
    /// The region of its attributes.
    pub(super) attrs: OpenRegion<'a>,
    /// What is left behind it.
    pub(super) rest: OpenRegion<'a>,
}

/// `Event::sort` of an attribute with this content.
#[inline(always)]
pub(super) fn sort(content: Content) -> u8
    ensures { result ≡ sort_of content }
{
    match content {
        Content::Bytes => SORT_BYTES,
        Content::List(_) => SORT_LIST,
        Content::Hops => SORT_HOPS,
    }
}

/// The region nested in an attribute or a next hop, from its header on. `place` is the header's
/// offset, `head` its size in bytes, and `level` the level of the region that it stands in.
#[inline(always)]
pub(super) fn inside<'a>(
    payload: &'a [u8],
    place: u32,
    head: u32,
    level: u8,
    parts: Parts,
) -> OpenRegion<'a>
    requires place { place + head < 2 ^ 32 }
    requires level { level ≤ fixed.MOST_LEVELS }
    ensures { head_of result ≡ record {
      place = place + head;
      sort = sort_in parts;
      ctx = ctx_in parts;
      level = level + 1;
      left = payload.now;
    } }
{
    OpenRegion {
        left: payload,
        place: place + head,
        level: level + 1,
        parts,
    }
}

/// The attribute of `len` bytes at the front, whose header has been validated.
#[inline(always)]
pub(super) fn attr_front<'a>(
    left: &'a [u8],
    len: usize,
    place: u32,
    level: u8,
    ctx: Ctx,
    order: Order,
) -> AttrFront<'a>
    requires size { length left.now ≤ fixed.LONGEST_REGION }
    requires place { place + length left.now ≤ fixed.FARTHEST_END }
    requires sound { HeadIs order 4 2 left.now (Ok len) }
    ensures { IsAttrFront order (start_of ctx level place left.now) result }
{
    let kind = kind_at(order, left);
    let flags = flags_in(kind);
    let payload = &left[4..len];
    let span = span_at(left, len);
    AttrFront {
        event: Event {
            place,
            len: payload.len() as u32,
            number: kind % NUMBERS,
            level,
            sort: SORT_BYTES,
            nested: flags.nested,
            net: flags.net,
        },
        flags,
        span: span as u32,
        payload,
        rest: OpenRegion {
            left: &left[span..],
            place: place + span as u32,
            level,
            parts: Parts::Attrs(ctx),
        },
    }
}

/// The next hop of `len` bytes at the front, whose header has been validated.
#[inline(always)]
pub(super) fn hop_front<'a>(
    left: &'a [u8],
    len: usize,
    place: u32,
    level: u8,
    order: Order,
) -> HopFront<'a>
    requires size { length left.now ≤ fixed.LONGEST_REGION }
    requires place { place + length left.now ≤ fixed.FARTHEST_END }
    requires level { level ≤ fixed.MOST_LEVELS }
    requires sound { HeadIs order 8 2 left.now (Ok len) }
    ensures { IsHopFront order (hops_start level place left.now) result }
{
    let payload = &left[8..len];
    let span = span_at(left, len);
    HopFront {
        event: Event {
            place,
            len: payload.len() as u32,
            number: 0,
            level,
            sort: SORT_NEXT_HOP,
            nested: false,
            net: false,
        },
        span: span as u32,
        attrs: inside(payload, place, 8, level, Parts::Attrs(Ctx::Route)),
        rest: OpenRegion {
            left: &left[span..],
            place: place + span as u32,
            level,
            parts: Parts::Hops,
        },
    }
}
