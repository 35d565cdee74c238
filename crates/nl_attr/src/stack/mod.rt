//! Reading a region into a tree, without recursion: nested attributes take no call stack.
//!
//! A region without nested attributes is read by `read_walk` alone. One that holds such regions is
//! read by `read_on`. Where they hold nested attributes in turn, `read_nested` keeps the regions
//! that are not read to their end on a stack of at most 33.
//!
//! - `attributes` and `next_hops` read one region up to the next nested one.
//! - `nested` is the loop over the stack.
//! - `regions` has the state of a region that is being read, and the calls that add to it.

ghost use Rattle.std.specs.Prelude.{◌≡◌, ◌≤◌, ◌+◌, ◌-◌, ◌*◌, length};
ghost use Rattle.nl_attr.specs.Fixed as fixed;
ghost use Rattle.nl_attr.specs.Reading.{items_of_region, more_visits};
ghost use Rattle.nl_attr.specs.Open.{opening_rest, list_spot, opening_spot, room_in};
ghost use Rattle.nl_attr.specs.Open.{IsIn, IsWithinLimits};
ghost use Rattle.nl_attr.specs.View.{attrs_view};
ghost use Rattle.nl_attr.specs.Outcomes.{IsOutcome};

mod attributes;
mod nested;
mod next_hops;
mod regions;

use crate::fault::ListError;
use crate::limits::Shape;
use crate::order::Order;
use crate::region::Parts;
use crate::stack::attributes::{Opening, Turn, read_attrs, read_walk};
use crate::stack::nested::{HopsWaits, Outer, read_nested, waits_for};
use crate::stack::next_hops::{HopsTurn, read_hops};
pub(crate) use crate::stack::regions::container_fault;
use crate::stack::regions::{ListRegion, first_room, hops_of, keep_attr, list_of};
use crate::tree::{Attr, Ctx, Value};
use crate::walk::CountedAttrs;
use std::alloc::Global;

/// Reads the rest of a region, from its first nested attribute on, and answers all its attributes.
///
/// It reads each nested region at once, and the attributes of next hops too. Only where one of
/// those has a nested attribute does it hand over to `read_nested`, which makes the stack.
#[inline(never)]
fn read_on<'a>(
    alloc: Global,
    mut region: ListRegion<'a>,
    first: Opening<'a>,
    shape: Shape,
    visits: &mut u64,
) -> Result<Vec<Attr>, ListError>
    requires limit { shape.depth ≤ fixed.MOST_LEVELS }
    requires limits { IsWithinLimits shape (list_spot region) }
    requires inside { IsIn shape (room_in (list_spot region)) (opening_spot shape region first) }
    requires room { visits.old + (opening_rest shape region first).1 ≤ fixed.MOST_VISITS }
    ensures outcome { IsOutcome (λ v. attrs_view v.items) result visits.new
        (more_visits visits.old (opening_rest shape region.entry first.entry)) }
    ensures bound { visits.new ≤ visits.old + (opening_rest shape region.entry first.entry).1 }
{
    let mut opening = first;
    'items: loop {
        let (number, flags) = (opening.number, opening.flags);
        let (payload, place) = (opening.payload, opening.place);
        match opening.parts {
            Parts::Attrs(ctx) => {
                let mut inner = list_of(alloc, payload, place, ctx, region.level + 1, shape)?;
                match read_attrs(alloc, &mut inner, shape, visits) {
                    Turn::Ends => {
                        keep_attr(&mut region.list, number, flags, Value::List(inner.list))?;
                    }
                    Turn::Opens(second) => {
                        let outer = Outer::List(waits_for(region, opening));
                        return read_nested(alloc, outer, inner, second, shape, visits);
                    }
                    Turn::Fails(error) => return Err(error),
                }
            }
            Parts::Hops => {
                let mut hops = hops_of(alloc, payload, place, region.level + 1, shape)?;
                match read_hops(alloc, &mut hops, shape, visits) {
                    HopsTurn::Ends => {
                        keep_attr(&mut region.list, number, flags, Value::Hops(hops.list))?;
                    }
                    HopsTurn::Opens(head, inner, second) => {
                        let waits = waits_for(region, opening);
                        let outer = Outer::Hops(waits, HopsWaits { region: hops, head });
                        return read_nested(alloc, outer, inner, second, shape, visits);
                    }
                    HopsTurn::Fails(error) => return Err(error),
                }
            }
        }
        opening = match read_attrs(alloc, &mut region, shape, visits) {
            Turn::Ends => return Ok(region.list),
            Turn::Opens(opening) => opening,
            Turn::Fails(error) => return Err(error),
        };
    }
}

/// Reads a region. `order` is a constant at each call, so that no header tests the byte order.
#[inline(always)]
fn read_ordered(
    alloc: Global,
    bytes: &[u8],
    base: u32,
    ctx: Ctx,
    level: u8,
    order: Order,
    shape: Shape,
    visits: &mut u64,
) -> Result<Vec<Attr>, ListError>
    requires order { order ≡ shape.order }
    requires level { level ≤ shape.depth }
    requires limit { shape.depth ≤ fixed.MOST_LEVELS }
    requires none { visits.old ≡ 0 }
    requires size { length bytes.now ≤ fixed.LONGEST_REGION }
    requires place { base + length bytes.now ≤ fixed.FARTHEST_END }
    ensures outcome { IsOutcome (λ v. attrs_view v.items) result visits.new
        (items_of_region shape ctx level base bytes.now) }
    ensures bound { visits.new ≤ (shape.depth - level + 1) * length bytes.now }
{
    let mut walk = CountedAttrs::over(bytes, order);
    let mut list = Vec::with_capacity(alloc, first_room(bytes, 8))?;
    match read_walk(alloc, &mut walk, &mut list, base, ctx, level, shape, visits) {
        Turn::Ends => Ok(list),
        Turn::Opens(opening) => {
            let region = ListRegion {
                walk,
                list,
                base,
                level,
                ctx,
            };
            read_on(alloc, region, opening, shape, visits)
        }
        Turn::Fails(error) => Err(error),
    }
}

/// Reads a region into a tree, by a separate loop for each byte order. `visits` must be 0 before.
/// Arguments and errors are those of `read_list_ordered`.
pub(crate) fn read_region(
    alloc: Global,
    bytes: &[u8],
    base: u32,
    ctx: Ctx,
    level: u8,
    shape: Shape,
    visits: &mut u64,
) -> Result<Vec<Attr>, ListError>
    requires level { level ≤ shape.depth }
    requires limit { shape.depth ≤ fixed.MOST_LEVELS }
    requires none { visits.old ≡ 0 }
    requires size { length bytes.now ≤ fixed.LONGEST_REGION }
    requires place { base + length bytes.now ≤ fixed.FARTHEST_END }
    ensures outcome { IsOutcome (λ v. attrs_view v.items) result visits.new
        (items_of_region shape ctx level base bytes.now) }
    ensures bound { visits.new ≤ (shape.depth - level + 1) * length bytes.now }
{
    match shape.order() {
        Order::Little => read_ordered(alloc, bytes, base, ctx, level, Order::Little, shape, visits),
        Order::Big => read_ordered(alloc, bytes, base, ctx, level, Order::Big, shape, visits),
    }
}
