//! One step of a scan: past the header at the front of a region, whatever it is, and then past the
//! attributes behind it that hold bytes.

ghost use Rattle.std.specs.Prelude.{◌^◌, ◌≡◌, ◌≢◌, ◌≤◌, ◌<◌, ◌+◌, [], length};
ghost use Rattle.nl_attr.specs.Fixed as fixed;
ghost use Rattle.nl_attr.specs.Taped.{HasRoom, Leads, Skips};
ghost use Rattle.nl_attr.specs.Region.{head_of};

use crate::events::{Event, Room};
use crate::fault::Reason;
use crate::limits::Shape;
use crate::region::{OpenRegion, Parts};
use crate::stack::container_fault;
use crate::taping::Counts;
use crate::taping::fronts::{attr_front, hop_front, inside, sort};
use crate::taping::leaves::pass_leaves;
use crate::tree::{Content, Ctx, holds};
use crate::walk::head_len;

/// What a step of a scan came to.
#[derive(Clone, Copy)]
pub(super) enum Lead<'a> {
    /// The end of the region.
    Ends,
    /// A header that breaks this rule.
    Fails(Reason),
    /// An attribute without a nested header: it holds bytes, or is an empty nested one.
    Goes,
    /// An attribute or a next hop with this region nested in it.
    Opens(OpenRegion<'a>),
}

/// The result of one step of a scan.
#[derive(Clone, Copy)]
pub(super) struct Advance<'a> {
    pub(super) lead: Lead<'a>,
    /// What is left of the region: behind the attribute or next hop, or from the broken header on.
    pub(super) rest: OpenRegion<'a>,
}

/// Steps past an attribute: validates its header, counts it and puts its event. A header whose
/// length is valid is counted even where it breaks another rule.
#[inline(always)]
fn step_attr<'a>(
    region: OpenRegion<'a>,
    ctx: Ctx,
    shape: Shape,
    out: &mut [Event],
    counts: &mut Counts,
) -> Advance<'a>
    requires some { region.left.now ≢ [] }
    requires size { length region.left.now ≤ fixed.LONGEST_REGION }
    requires place { region.place + length region.left.now ≤ fixed.FARTHEST_END }
    requires level { region.level ≤ fixed.MOST_LEVELS }
    requires parts { region.parts ≡ Parts.Attrs ctx }
    requires count { counts.old.count < 2 ^ 63 }
    requires visits { counts.old.visits < 2 ^ 63 }
    ensures { Leads shape (head_of region.entry) counts.old counts.new out.old out.new result }
{
    let (left, place, level) = (region.left, region.place, region.level);
    let order = shape.order();
    let len = match head_len(order, left, 4) {
        Ok(len) => len,
        Err(reason) => {
            return Advance {
                lead: Lead::Fails(reason),
                rest: region,
            };
        }
    };
    let attr = attr_front(left, len, place, level, ctx, order);
    let content = holds(ctx, attr.event.number, attr.flags);
    let sort = sort(content);
    counts.add(out, Event { sort, ..attr.event }, attr.span);
    let parts = match Parts::of(content) {
        Some(parts) => parts,
        None => {
            return Advance {
                lead: Lead::Goes,
                rest: attr.rest,
            };
        }
    };
    match container_fault(content, len, level, shape) {
        Some(reason) => Advance {
            lead: Lead::Fails(reason),
            rest: region,
        },
        None => {
            // An empty region isn't opened.
            if attr.payload.is_empty() {
                return Advance {
                    lead: Lead::Goes,
                    rest: attr.rest,
                };
            }
            Advance {
                lead: Lead::Opens(inside(attr.payload, place, 4, level, parts)),
                rest: attr.rest,
            }
        }
    }
}

/// Goes past the attributes at the front of a region of attributes that hold bytes, and answers
/// what is left. With `lists` it goes past empty nested attributes too.
#[inline(always)]
pub(super) fn pass_front<'a>(
    region: OpenRegion<'a>,
    ctx: Ctx,
    shape: Shape,
    room: Room,
    lists: bool,
    out: &mut [Event],
    counts: &mut Counts,
) -> OpenRegion<'a>
    requires size { length region.left.now ≤ fixed.LONGEST_REGION }
    requires place { region.place + length region.left.now ≤ fixed.FARTHEST_END }
    requires level { region.level ≤ fixed.MOST_LEVELS }
    requires parts { region.parts ≡ Parts.Attrs ctx }
    requires count { counts.old.count ≤ 2 ^ 33 + fixed.MOST_VISITS }
    requires visits { counts.old.visits ≤ fixed.MOST_VISITS }
    requires room { HasRoom room counts.old.count (length region.left.now) (length out.old) }
    ensures skips { Skips shape (head_of region.entry) (head_of result) counts.old counts.new
        out.old out.new }
    ensures same { (result.level ≡ region.entry.level) × (result.parts ≡ region.entry.parts) }
    ensures size { length result.left.now ≤ length region.entry.left.now }
    ensures place { result.place + length result.left.now
        ≡ region.entry.place + length region.entry.left.now }
    ensures count { counts.new.count ≤ counts.old.count + length region.entry.left.now }
    ensures visits { counts.new.visits ≤ counts.old.visits + length region.entry.left.now }
{
    let (bytes, level, count) = (region.left, region.level, counts.count);
    let end = region.place + bytes.len() as u32;
    let passed = pass_leaves(bytes, end, level, ctx, shape, room, lists, out, count);
    counts.pass(passed.count, bytes.len() - passed.left.len());
    OpenRegion {
        left: passed.left,
        place: end - passed.left.len() as u32,
        ..region
    }
}

/// Steps past a next hop: validates its header, counts it and puts its event.
#[inline(always)]
fn step_hop<'a>(
    region: OpenRegion<'a>,
    shape: Shape,
    out: &mut [Event],
    counts: &mut Counts,
) -> Advance<'a>
    requires size { length region.left.now ≤ fixed.LONGEST_REGION }
    requires place { region.place + length region.left.now ≤ fixed.FARTHEST_END }
    requires level { region.level ≤ fixed.MOST_LEVELS }
    requires some { region.left.now ≢ [] }
    requires parts { region.parts ≡ Parts.Hops }
    requires count { counts.old.count < 2 ^ 63 }
    requires visits { counts.old.visits < 2 ^ 63 }
    ensures { Leads shape (head_of region.entry) counts.old counts.new out.old out.new result }
{
    let order = shape.order();
    match head_len(order, region.left, 8) {
        Err(reason) => Advance {
            lead: Lead::Fails(reason),
            rest: region,
        },
        Ok(len) => {
            let hop = hop_front(region.left, len, region.place, region.level, order);
            counts.add(out, hop.event, hop.span);
            Advance {
                lead: Lead::Opens(hop.attrs),
                rest: hop.rest,
            }
        }
    }
}

/// Goes past the attributes at the front of a region that hold bytes or are empty nested ones. A
/// region of next hops stays as it is.
#[inline(always)]
pub(super) fn pass_top<'a>(
    region: OpenRegion<'a>,
    shape: Shape,
    room: Room,
    out: &mut [Event],
    counts: &mut Counts,
) -> OpenRegion<'a>
    requires size { length region.left.now ≤ fixed.LONGEST_REGION }
    requires place { region.place + length region.left.now ≤ fixed.FARTHEST_END }
    requires level { region.level ≤ fixed.MOST_LEVELS }
    requires count { counts.old.count ≤ 2 ^ 33 + fixed.MOST_VISITS }
    requires visits { counts.old.visits ≤ fixed.MOST_VISITS }
    requires room { HasRoom room counts.old.count (length region.left.now) (length out.old) }
    ensures skips { Skips shape (head_of region.entry) (head_of result) counts.old counts.new
        out.old out.new }
    ensures size { length result.left.now ≤ length region.entry.left.now }
{
    match region.parts {
        Parts::Attrs(ctx) => pass_front(region, ctx, shape, room, true, out, counts),
        Parts::Hops => region,
    }
}

/// Steps past the header at the front of a region, or finds its end.
#[inline(always)]
pub(super) fn step<'a>(
    region: OpenRegion<'a>,
    shape: Shape,
    out: &mut [Event],
    counts: &mut Counts,
) -> Advance<'a>
    requires size { length region.left.now ≤ fixed.LONGEST_REGION }
    requires place { region.place + length region.left.now ≤ fixed.FARTHEST_END }
    requires level { region.level ≤ fixed.MOST_LEVELS }
    requires count { counts.old.count < 2 ^ 63 }
    requires visits { counts.old.visits < 2 ^ 63 }
    ensures { Leads shape (head_of region.entry) counts.old counts.new out.old out.new result }
{
    if region.left.is_empty() {
        return Advance {
            lead: Lead::Ends,
            rest: region,
        };
    }
    match region.parts {
        Parts::Attrs(ctx) => step_attr(region, ctx, shape, out, counts),
        Parts::Hops => step_hop(region, shape, out, counts),
    }
}
