//! The loops of a scan over regions with nested attributes.
//!
//! The outermost region is scanned by `open_regions`. One nested in it is scanned by a call,
//! `tape_inner`, and mostly to its end by the short loop over leaves. What that loop leaves is
//! scanned by `tape_deep`, over a stack of the regions that wait.
//!
//! These functions aren't inlined into the loop over messages, since most messages need none of
//! them. So that loop keeps its registers free.

ghost use Rattle.std.specs.Prelude.{◌≡◌, ◌≤◌, length, None, Some};
ghost use Rattle.nl_attr.specs.Broken.{facts_of};
ghost use Rattle.nl_attr.specs.Fixed as fixed;
ghost use Rattle.nl_attr.specs.Region.{head_of};
ghost use Rattle.nl_attr.specs.Shape.{shape_of};
ghost use Rattle.nl_attr.specs.Taped.{IsTaped, MayScan, found};

use crate::broken::BrokenHead;
use crate::events::{Event, Room};
use crate::fault::Reason;
use crate::limits::{Depth, Shape};
use crate::order::Order;
use crate::region::{OpenRegion, Parts};
use crate::taping::Counts;
use crate::taping::steps::{Lead, pass_top, step};
use crate::tree::Ctx;
use arrayvec::ArrayVec;

/// The most regions that wait while a nested one is scanned.
const MOST_OPEN: usize = 33;

/// Stores the header at the front, which breaks this rule, in `broken`. A scan calls this once, at
/// its end. It isn't inlined: that keeps registers free in the loop.
#[inline(never)]
fn keep_broken(broken: &mut Option<BrokenHead>, at: OpenRegion<'_>, reason: Reason, shape: Shape)
    requires { length at.left.now ≤ fixed.LONGEST_REGION }
    ensures { broken.new ≡ Some (facts_of shape.order reason (head_of at.entry)) }
{
    *broken = Some(at.broken(reason, shape));
}

/// Scans a region and all that are nested in it, over a stack of the regions that wait.
#[inline(always)]
fn tape_open<'a>(
    broken: &mut Option<BrokenHead>,
    start: OpenRegion<'a>,
    shape: Shape,
    room: Room,
    out: &mut [Event],
    count: usize,
) -> Counts
    requires none { broken.old ≡ None }
    requires limit { shape.depth ≤ fixed.MOST_LEVELS }
    requires fits { MayScan shape.depth room count (length out.old) (head_of start) }
    ensures { IsTaped shape (head_of start.entry) count out.old out.new
        (found broken.new result) }
{
    let mut stack: ArrayVec<OpenRegion<'a>, MOST_OPEN> = ArrayVec::new();
    let mut top = start;
    let mut counts = Counts { count, visits: 0 };
    'heads: loop {
        let stepped = step(top, shape, out, &mut counts);
        match stepped.lead {
            Lead::Ends => match stack.pop() {
                None => return counts,
                Some(below) => top = below,
            },
            Lead::Fails(reason) => {
                keep_broken(broken, stepped.rest, reason, shape);
                return counts;
            }
            Lead::Goes => top = stepped.rest,
            Lead::Opens(inner) => {
                stack.push(stepped.rest);
                top = inner;
            }
        }
        top = pass_top(top, shape, room, out, &mut counts);
    }
}

/// Scans as `tape_open` does. It isn't inlined, and there is one for each `LOOP`, since a stack is
/// costly to make.
#[inline(never)]
fn tape_deep<const LOOP: u8>(
    broken: &mut Option<BrokenHead>,
    start: OpenRegion<'_>,
    depth: Depth,
    order: Order,
    room: Room,
    out: &mut [Event],
    count: usize,
) -> Counts
    requires none { broken.old ≡ None }
    requires fits { MayScan depth room count (length out.old) (head_of start) }
    ensures { IsTaped (shape_of order depth) (head_of start.entry) count out.old out.new
        (found broken.new result) }
{
    // The depth is at most 32, and so are the regions that wait.
    let _limit = depth.get();
    let shape = Shape::of(depth, order);
    tape_open(broken, start, shape, room, out, count)
}

/// Scans the attributes nested in an attribute or a next hop. Most such regions hold bytes alone,
/// and end in the short loop. The rest is scanned over a stack.
#[inline(always)]
fn tape_inside<const LOOP: u8>(
    broken: &mut Option<BrokenHead>,
    start: OpenRegion<'_>,
    depth: Depth,
    order: Order,
    room: Room,
    out: &mut [Event],
    count: usize,
) -> Counts
    requires none { broken.old ≡ None }
    requires fits { MayScan depth room count (length out.old) (head_of start) }
    ensures { IsTaped (shape_of order depth) (head_of start.entry) count out.old out.new
        (found broken.new result) }
{
    // The depth is at most 32, and so are the levels.
    let _limit = depth.get();
    let mut counts = Counts { count, visits: 0 };
    let shape = Shape::of(depth, order);
    let rest = pass_top(start, shape, room, out, &mut counts);
    if !rest.left.is_empty() {
        let count = counts.count;
        let more = tape_deep::<LOOP>(broken, rest, depth, order, room, out, count);
        counts.join(more);
    }
    counts
}

/// Scans a region of next hops, and the attributes of each.
#[inline(never)]
fn tape_hops<const LOOP: u8>(
    broken: &mut Option<BrokenHead>,
    start: OpenRegion<'_>,
    depth: Depth,
    order: Order,
    room: Room,
    out: &mut [Event],
    count: usize,
) -> Counts
    requires none { broken.old ≡ None }
    requires fits { MayScan depth room count (length out.old) (head_of start) }
    ensures { IsTaped (shape_of order depth) (head_of start.entry) count out.old out.new
        (found broken.new result) }
{
    // The depth is at most 32, and so are the levels.
    let _limit = depth.get();
    let shape = Shape::of(depth, order);
    let mut hops = start;
    let mut counts = Counts { count, visits: 0 };
    'hops: loop {
        let stepped = step(hops, shape, out, &mut counts);
        match stepped.lead {
            Lead::Ends => return counts,
            Lead::Fails(reason) => {
                keep_broken(broken, stepped.rest, reason, shape);
                return counts;
            }
            Lead::Goes => {}
            Lead::Opens(inner) => {
                let count = counts.count;
                let more = tape_inside::<LOOP>(broken, inner, depth, order, room, out, count);
                counts.join(more);
                if broken.is_some() {
                    return counts;
                }
            }
        }
        hops = stepped.rest;
    }
}

/// Scans the region nested in an attribute: attributes or next hops.
#[inline(always)]
fn tape_inner<const LOOP: u8>(
    broken: &mut Option<BrokenHead>,
    start: OpenRegion<'_>,
    depth: Depth,
    order: Order,
    room: Room,
    out: &mut [Event],
    count: usize,
) -> Counts
    requires none { broken.old ≡ None }
    requires fits { MayScan depth room count (length out.old) (head_of start) }
    ensures { IsTaped (shape_of order depth) (head_of start.entry) count out.old out.new
        (found broken.new result) }
{
    match start.parts {
        Parts::Attrs(_) => tape_inside::<LOOP>(broken, start, depth, order, room, out, count),
        Parts::Hops => tape_hops::<LOOP>(broken, start, depth, order, room, out, count),
    }
}

// The values of `LOOP`: one for each call of `open_regions`, by byte order and room.
const BIG: u8 = 0;

const LITTLE: u8 = 1;

const AMPLE: u8 = 2;

const NONE: u8 = 3;

/// Scans the outermost region, and all that are nested in it.
///
/// `LOOP` only makes a copy of the function for each call, so that the compiler can specialize the
/// copy, and what it calls, for that call's byte order and room.
#[inline(never)]
fn open_regions<const LOOP: u8>(
    broken: &mut Option<BrokenHead>,
    start: OpenRegion<'_>,
    ctx: Ctx,
    depth: Depth,
    order: Order,
    room: Room,
    out: &mut [Event],
    count: usize,
) -> Counts
    requires none { broken.old ≡ None }
    requires parts { start.parts ≡ Parts.Attrs ctx }
    requires fits { MayScan depth room count (length out.old) (head_of start) }
    ensures { IsTaped (shape_of order depth) (head_of start.entry) count out.old out.new
        (found broken.new result) }
{
    // The depth is at most 32, and so are the levels.
    let _limit = depth.get();
    let shape = Shape::of(depth, order);
    // The region holds attributes. It is said here again, so that no step tests for next hops.
    let mut top = OpenRegion {
        parts: Parts::Attrs(ctx),
        ..start
    };
    let mut counts = Counts { count, visits: 0 };
    'heads: loop {
        let stepped = step(top, shape, out, &mut counts);
        match stepped.lead {
            Lead::Ends => return counts,
            Lead::Fails(reason) => {
                keep_broken(broken, stepped.rest, reason, shape);
                return counts;
            }
            Lead::Goes => {}
            Lead::Opens(inner) => {
                let count = counts.count;
                let more = tape_inner::<LOOP>(broken, inner, depth, order, room, out, count);
                counts.join(more);
                if broken.is_some() {
                    return counts;
                }
            }
        }
        top = pass_top(stepped.rest, shape, room, out, &mut counts);
    }
}

/// Scans the outermost region by a separate loop for each byte order. For little-endian
/// there is one more for a buffer with room for all events, and one for an empty buffer.
#[inline(always)]
pub(super) fn tape_regions(
    broken: &mut Option<BrokenHead>,
    start: OpenRegion<'_>,
    ctx: Ctx,
    depth: Depth,
    order: Order,
    room: Room,
    out: &mut [Event],
    count: usize,
) -> Counts
    requires none { broken.old ≡ None }
    requires parts { start.parts ≡ Parts.Attrs ctx }
    requires fits { MayScan depth room count (length out.old) (head_of start) }
    ensures { IsTaped (shape_of order depth) (head_of start.entry) count out.old out.new
        (found broken.new result) }
{
    match (order, room) {
        (Order::Big, _) => {
            let (order, room) = (Order::Big, Room::Unknown);
            open_regions::<BIG>(broken, start, ctx, depth, order, room, out, count)
        }
        (Order::Little, Room::Ample) => {
            let (order, room) = (Order::Little, Room::Ample);
            open_regions::<AMPLE>(broken, start, ctx, depth, order, room, out, count)
        }
        // The empty buffer is a constant here, so that the compiler drops each put in the loop.
        (Order::Little, Room::Unknown) if out.is_empty() => {
            let (order, room) = (Order::Little, Room::Unknown);
            open_regions::<NONE>(broken, start, ctx, depth, order, room, &mut [], count)
        }
        (Order::Little, Room::Unknown) => {
            let (order, room) = (Order::Little, Room::Unknown);
            open_regions::<LITTLE>(broken, start, ctx, depth, order, room, out, count)
        }
    }
}
