//! Scanning a region: validating every header in it, nested ones too, and putting an `Event` of
//! each into a buffer. It takes no memory, and nesting takes no call stack.
//!
//! - `leaves` is the short loop over attributes that hold bytes, which most do.
//! - `steps` goes past one header of any kind, and then past leaves by that loop.
//! - `regions` has the loops over nested regions, one of them over a stack.
//! - `fronts` takes the attribute or the next hop at the front of a region apart.

ghost use Rattle.std.specs.Prelude.{◌^◌, ◌≡◌, ◌≤◌, ◌<◌, ◌+◌, ◌-◌, ◌*◌, drop, length, slice_set};
ghost use Rattle.nl_attr.specs.Fixed as fixed;
ghost use Rattle.nl_attr.specs.Heads.{start_of};
ghost use Rattle.nl_attr.specs.Region.{head_of};
ghost use Rattle.nl_attr.specs.Shape.{shape_of};
ghost use Rattle.nl_attr.specs.Taped.{HasRoom, IsTaped, MayScan, found};

mod fronts;
mod leaves;
mod regions;
mod steps;

use crate::broken::BrokenHead;
use crate::events::{Event, Room};
use crate::limits::{Depth, Shape};
use crate::order::Order;
use crate::region::{OpenRegion, Parts};
use crate::taping::regions::tape_regions;
use crate::taping::steps::pass_front;
use crate::tree::Ctx;

/// The result of a scan.
#[derive(Clone, Copy, Debug, PartialEq, Eq, Hash)]
#[must_use = "a fault is told here alone"]
pub struct Taped {
    /// The first header that breaks a rule, or `None` where the region is accepted.
    pub broken: Option<BrokenHead>,
    /// The index in the buffer behind the last event, even where the buffer is too short for it.
    pub count: usize,
    /// How many bytes were visited, as in `Tally`: up to the error, where there is one.
    pub visits: u64,
}

/// The counts of a scan, without its error.
#[derive(Clone, Copy, Debug, PartialEq, Eq, Hash)]
pub struct Counts {
    /// The index in the buffer behind the last event, even where the buffer is too short for it.
    pub count: usize,
    /// How many bytes were visited, as in `Tally`: up to the error, where there is one.
    pub visits: u64,
}

impl Counts {
    /// Counts one header, of an attribute or a next hop of `span` bytes, and puts its event.
    #[inline(always)]
    fn add(&mut self, out: &mut [Event], event: Event, span: u32)
        requires count { self.old.count < 2 ^ 63 }
        requires visits { self.old.visits < 2 ^ 63 }
        ensures event { out.new ≡ slice_set out.old self.old.count event }
        ensures counts { self.new ≡ record {
          count = self.old.count + 1;
          visits = self.old.visits + span;
        } }
    {
        let at = self.count;
        event.put(out, at);
        self.count = at + 1;
        self.visits += span as u64;
    }

    /// Counts headers whose events have been put: `count` is the index behind the last of them,
    /// and `spans` the sum of their spans in bytes.
    #[inline(always)]
    fn pass(&mut self, count: usize, spans: usize)
        requires spans { spans ≤ fixed.LONGEST_REGION }
        requires visits { self.old.visits ≤ fixed.MOST_VISITS }
        ensures { self.new ≡ record { count = count; visits = self.old.visits + spans } }
    {
        self.count = count;
        self.visits += spans as u64;
    }

    /// Adds the counts of an inner scan that began at this one's index.
    #[inline(always)]
    fn join(&mut self, more: Counts)
        requires { self.old.visits + more.visits < 2 ^ 64 }
        ensures { self.new ≡ record {
          count = more.count;
          visits = self.old.visits + more.visits;
        } }
    {
        self.count = more.count;
        self.visits += more.visits;
    }
}

/// Scans a region of attributes to its end, or to its first error, which is left in `broken`.
#[inline(always)]
fn tape_region(
    broken: &mut Option<BrokenHead>,
    start: OpenRegion<'_>,
    ctx: Ctx,
    depth: Depth,
    order: Order,
    room: Room,
    out: &mut [Event],
    count: usize,
) -> Counts
    requires none { broken.old ≡ None }
    requires parts { start.parts ≡ Parts.Attrs ctx }
    requires fits { MayScan depth room count (length out.old) (head_of start) }
    ensures { IsTaped (shape_of order depth) (head_of start.entry) count out.old out.new
        (found broken.new result) }
{
    // The depth is at most 32, and so are the levels.
    let _limit = depth.get();
    let mut counts = Counts { count, visits: 0 };
    let shape = Shape::of(depth, order);
    let top = pass_front(start, ctx, shape, room, false, out, &mut counts);
    // Most regions hold no nested attribute: they are at their end here, and need no stack.
    if top.left.is_empty() {
        return counts;
    }
    let count = counts.count;
    counts.join(tape_regions(broken, top, ctx, depth, order, room, out, count));
    counts
}

/// Scans a region of attributes as `tape_attrs` does. `room` says whether the buffer is known to
/// be long enough.
#[inline(always)]
pub fn tape_attrs_in(
    broken: &mut Option<BrokenHead>,
    bytes: &[u8],
    base: u32,
    ctx: Ctx,
    level: u8,
    depth: Depth,
    order: Order,
    room: Room,
    out: &mut [Event],
    count: usize,
) -> Counts
    // No error has been found before.
    requires none { broken.old ≡ None }
    requires level { level ≤ depth }
    requires size { length bytes.now ≤ fixed.LONGEST_REGION }
    requires place { base + length bytes.now ≤ fixed.FARTHEST_END }
    requires count { count ≤ 2 ^ 32 }
    requires room { HasRoom room count (length bytes.now) (length out.old) }
    // As for `tape_attrs`.
    ensures taped { IsTaped (shape_of order depth) (start_of ctx level base bytes.now)
        count out.old out.new (found broken.new result) }
    ensures bound { result.visits ≤ (depth - level + 1) * length bytes.now }
    ensures count { result.count ≤ count + result.visits }
    // Each header has at least four bytes of its own.
    ensures quarter { 4 * result.count ≤ 4 * count + length bytes.now }
    ensures untouched { drop result.count out.new ≡ drop result.count out.old }
{
    let start = OpenRegion {
        left: bytes,
        place: base,
        level,
        parts: Parts::Attrs(ctx),
    };
    tape_region(broken, start, ctx, depth, order, room, out, count)
}

/// Scans a region of attributes as `tape_list` does, but answers the counts alone. The first
/// header that breaks a rule is left in `broken`, which stays `None` where the region is
/// accepted.
#[inline(always)]
pub fn tape_attrs(
    broken: &mut Option<BrokenHead>,
    bytes: &[u8],
    base: u32,
    ctx: Ctx,
    level: u8,
    depth: Depth,
    order: Order,
    out: &mut [Event],
    count: usize,
) -> Counts
    // No fault has been found.
    requires none { broken.old ≡ None }
    requires level { level ≤ depth }
    requires size { length bytes.now ≤ fixed.LONGEST_REGION }
    requires place { base + length bytes.now ≤ fixed.FARTHEST_END }
    requires count { count ≤ 2 ^ 32 }
    // The heads are those of the region up to its first fault, and so are the visits; where there
    // is a fault, the head that breaks its rule stands in the region at its place.
    ensures taped { IsTaped (shape_of order depth) (start_of ctx level base bytes.now)
        count out.old out.new (found broken.new result) }
    ensures bound { result.visits ≤ (depth - level + 1) * length bytes.now }
    ensures count { result.count ≤ count + result.visits }
    // From the last event on the buffer is as it was.
    ensures untouched { drop result.count out.new ≡ drop result.count out.old }
{
    let room = Room::Unknown;
    tape_attrs_in(
        broken, bytes, base, ctx, level, depth, order, room, out, count,
    )
}

/// Validates a region of attributes, and puts an event of each header into `out`. It accepts what
/// `read_list_ordered` accepts, and takes no memory.
///
/// `base` is the offset of the first byte, `level` the region's nesting level, and `order` the
/// byte order. The events are in the order of their offsets, and the first goes to index `count`.
///
/// It ends at the first header that breaks a rule: `Cut`, `BadLength`, `TooLong` or `TooDeep`. The
/// events of the headers before it have been put, and its own too where its length is valid.
///
/// The answer's `count` is the index behind the last event, where the next scan goes on. Where it
/// is greater than the length of `out`, the last events had no room and were left out.
#[inline(always)]
pub fn tape_list(
    bytes: &[u8],
    base: u32,
    ctx: Ctx,
    level: u8,
    depth: Depth,
    order: Order,
    out: &mut [Event],
    count: usize,
) -> Taped
    requires level { level ≤ depth }
    requires size { length bytes.now ≤ fixed.LONGEST_REGION }
    requires place { base + length bytes.now ≤ fixed.FARTHEST_END }
    requires count { count ≤ 2 ^ 32 }
    // The heads are those of the region up to its first fault, and so are the visits; where there
    // is a fault, the head that breaks its rule stands in the region at its place.
    ensures taped { IsTaped (shape_of order depth) (start_of ctx level base bytes.now)
        count out.old out.new result }
    ensures bound { result.visits ≤ (depth - level + 1) * length bytes.now }
    ensures count { result.count ≤ count + result.visits }
    // From the last event on the buffer is as it was.
    ensures untouched { drop result.count out.new ≡ drop result.count out.old }
{
    let mut broken = None;
    let counts = tape_attrs(
        &mut broken,
        bytes,
        base,
        ctx,
        level,
        depth,
        order,
        out,
        count,
    );
    Taped {
        broken,
        count: counts.count,
        visits: counts.visits,
    }
}
