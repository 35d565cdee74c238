//! Reading regions that are nested at least two deep: a loop over a stack of the outer regions,
//! each of which waits until the region inside it has been read.

ghost use Rattle.std.specs.Prelude.{◌≡◌, ◌≤◌, ◌+◌, suc, length, IfOk};
ghost use Rattle.nl_attr.specs.Fixed as fixed;
ghost use Rattle.nl_attr.specs.Shape.{Shape as ShapeOf};
ghost use Rattle.nl_attr.specs.View.{value_view, attrs_view};
ghost use Rattle.nl_attr.specs.Outcomes.{IsOutcome};
ghost use Rattle.nl_attr.specs.Reading.{and_then, more_visits};
ghost use Rattle.nl_attr.specs.Open.{list_rest, hops_rest, opening_rest, waiting_goes_on};
ghost use Rattle.nl_attr.specs.Open.{hops_then, goes_on, NextGoes, list_spot, hops_spot};
ghost use Rattle.nl_attr.specs.Open.{opening_spot, outer_spot, Holds, room_in, IsIn};
ghost use Rattle.nl_attr.specs.Open.{outer_work, NextMoves, LiesUnder, PutsOn};
ghost use Rattle.arrayvec.specs.ArrayVec.{array_vec_len};

use crate::fault::ListError;
use crate::limits::Shape;
use crate::order::Order;
use crate::region::Parts;
use crate::stack::attributes::{Opening, Turn, read_attrs};
use crate::stack::next_hops::{HopTurn, next_hop};
use crate::stack::regions::{
    HopHead, HopsRegion, ListRegion, hops_of, keep_attr, keep_hop, list_of,
};
use crate::tree::{Attr, AttrFlags, Ctx, Value};
use crate::walk::CountedAttrs;
use arrayvec::ArrayVec;
use std::alloc::{AllocError, Global};
use std::default::MadeWith;

/// A region of attributes that waits for the value of one of them, with that one's type and flags.
#[derive(Drop)]
pub(super) struct ListWaits<'a> {
    pub(super) region: ListRegion<'a>,
    pub(super) number: u16,
    pub(super) flags: AttrFlags,
}

/// A region of next hops that waits for the attributes of one of them, with that one's header.
#[derive(Drop)]
pub(super) struct HopsWaits<'a> {
    pub(super) region: HopsRegion<'a>,
    pub(super) head: HopHead,
}

/// An entry of the stack: what waits for the attributes of the region that is read now.
#[derive(Drop)]
pub(super) enum Outer<'a> {
    /// A nested attribute, in the region that holds it.
    List(ListWaits<'a>),
    /// A next hop, in its region of next hops, which the region around it waits for.
    Hops(ListWaits<'a>, HopsWaits<'a>),
}

/// A placeholder for the unused entries of the stack.
impl<'a> MadeWith<Global> for Outer<'a> {
    fn made_with(alloc: Global) -> Self {
        Outer::List(ListWaits {
            region: ListRegion {
                walk: CountedAttrs::over(&[], Order::Little),
                ctx: Ctx::Plain,
                base: 0,
                level: 0,
                list: Vec::new(alloc),
            },
            number: 0,
            flags: AttrFlags {
                nested: false,
                net: false,
            },
        })
    }
}

/// Which region is read next.
#[derive(Drop)]
pub(super) enum Next<'a> {
    /// A new, inner one, and the entry of the stack that waits for it.
    Opens(Outer<'a>, ListRegion<'a>),
    /// An outer one that waited, and goes on.
    Goes(ListRegion<'a>),
}

/// Makes a region wait for the value of its attribute `opening`.
pub(super) fn waits_for<'a>(region: ListRegion<'a>, opening: Opening<'a>) -> ListWaits<'a>
    ensures { result ≡ record {
      region = region.entry;
      number = opening.entry.number;
      flags = opening.entry.flags;
    } }
{
    ListWaits {
        region,
        number: opening.number,
        flags: opening.flags,
    }
}

/// Adds the attribute that a region waits for, with this value, to the region's list. The error is
/// for memory.
fn take_value<'a>(waits: ListWaits<'a>, value: Value) -> Result<ListRegion<'a>, AllocError>
    ensures rest { IfOk result
        (λ r. (S : ShapeOf) → list_rest S r ≡ waiting_goes_on S waits.entry (value_view value)) }
    ensures spot { IfOk result (λ r. list_spot r ≡ list_spot waits.entry.region) }
{
    let ListWaits {
        mut region,
        number,
        flags,
    } = waits;
    keep_attr(&mut region.list, number, flags, value)?;
    Ok(region)
}

/// Goes on with the next hop, or, where none is left, with the region that waits for all of them.
fn go_on_hops<'a>(
    alloc: Global,
    waits: ListWaits<'a>,
    mut hops: HopsRegion<'a>,
    shape: Shape,
    visits: &mut u64,
) -> Result<Next<'a>, ListError>
    requires limit { shape.depth ≤ fixed.MOST_LEVELS }
    requires inside { IsIn shape (room_in (list_spot waits.region)) (hops_spot hops) }
    requires room { visits.old + (hops_then shape waits (hops_rest shape hops)).1
        ≤ fixed.MOST_VISITS }
    ensures goes { NextGoes shape visits.old
        (hops_then shape waits.entry (hops_rest shape hops.entry)) visits.new result }
    ensures moves { NextMoves shape (list_spot waits.entry.region)
        (suc (length waits.entry.region.walk.left) + suc (length hops.entry.walk.left)) result }
{
    match next_hop(alloc, &mut hops, shape, visits) {
        HopTurn::Ends => Ok(Next::Goes(take_value(waits, Value::Hops(hops.list))?)),
        HopTurn::Opens(head, inner) => {
            let hops = HopsWaits { region: hops, head };
            Ok(Next::Opens(Outer::Hops(waits, hops), inner))
        }
        HopTurn::Fails(error) => Err(error),
    }
}

/// Begins the region in a nested attribute of `region`.
fn open<'a>(
    alloc: Global,
    region: ListRegion<'a>,
    opening: Opening<'a>,
    shape: Shape,
    visits: &mut u64,
) -> Result<Next<'a>, ListError>
    requires limit { shape.depth ≤ fixed.MOST_LEVELS }
    requires inside { IsIn shape (room_in (list_spot region)) (opening_spot shape region opening) }
    requires room { visits.old + (opening_rest shape region opening).1 ≤ fixed.MOST_VISITS }
    ensures goes { NextGoes shape visits.old
        (opening_rest shape region.entry opening.entry) visits.new result }
    ensures moves { NextMoves shape (list_spot region.entry)
        (suc (length region.entry.walk.left) + suc (length opening.entry.payload.now)) result }
{
    let level = region.level + 1;
    let waits = waits_for(region, opening);
    match opening.parts {
        Parts::Attrs(ctx) => {
            let inner = list_of(alloc, opening.payload, opening.place, ctx, level, shape)?;
            Ok(Next::Opens(Outer::List(waits), inner))
        }
        Parts::Hops => {
            let hops = hops_of(alloc, opening.payload, opening.place, level, shape)?;
            go_on_hops(alloc, waits, hops, shape, visits)
        }
    }
}

/// Hands the attributes of a region that has ended to the entry of the stack that waits for them.
fn close<'a>(
    alloc: Global,
    outer: Outer<'a>,
    attrs: Vec<Attr>,
    shape: Shape,
    visits: &mut u64,
) -> Result<Next<'a>, ListError>
    requires limit { shape.depth ≤ fixed.MOST_LEVELS }
    requires holds { Holds shape outer }
    requires room { visits.old + (goes_on shape outer (attrs_view attrs.items)).1
        ≤ fixed.MOST_VISITS }
    ensures goes { NextGoes shape visits.old
        (goes_on shape outer.entry (attrs_view attrs.items)) visits.new result }
    ensures moves { NextMoves shape (outer_spot outer.entry) (outer_work outer.entry) result }
{
    match outer {
        Outer::List(waits) => Ok(Next::Goes(take_value(waits, Value::List(attrs))?)),
        Outer::Hops(waits, hops) => {
            let HopsWaits { mut region, head } = hops;
            keep_hop(&mut region.list, head, attrs)?;
            go_on_hops(alloc, waits, region, shape, visits)
        }
    }
}

/// Pushes the entry that waits, if it is new, and answers the region that is read next.
fn put_on<'a>(stack: &mut ArrayVec<Outer<'a>, 33, Global>, next: Next<'a>) -> ListRegion<'a>
    requires { array_vec_len stack.old + 1 ≤ 33 }
    ensures { PutsOn stack.old.items next.entry stack.new.items result }
{
    match next {
        Next::Opens(outer, region) => {
            stack.push(outer);
            region
        }
        Next::Goes(region) => region,
    }
}

/// Reads the outermost region to its end, and answers all its attributes.
///
/// `outermost` waits for `region`, which has come to its nested attribute `opening`.
pub(super) fn read_nested<'a>(
    alloc: Global,
    outermost: Outer<'a>,
    region: ListRegion<'a>,
    opening: Opening<'a>,
    shape: Shape,
    visits: &mut u64,
) -> Result<Vec<Attr>, ListError>
    requires limit { shape.depth ≤ fixed.MOST_LEVELS }
    requires lies { LiesUnder shape outermost region }
    requires inside { IsIn shape (room_in (list_spot region)) (opening_spot shape region opening) }
    requires room { visits.old
        + (and_then (opening_rest shape region opening) (goes_on shape outermost)).1
        ≤ fixed.MOST_VISITS }
    ensures outcome { IsOutcome (λ v. attrs_view v.items) result visits.new
        (more_visits visits.old (and_then (opening_rest shape region.entry opening.entry)
        (goes_on shape outermost.entry))) }
    ensures bound { visits.new
        ≤ visits.old + (and_then (opening_rest shape region.entry opening.entry)
        (goes_on shape outermost.entry)).1 }
{
    let mut stack: ArrayVec<Outer<'a>, 33, Global> = ArrayVec::new_in(alloc);
    stack.push(outermost);
    let next = open(alloc, region, opening, shape, visits)?;
    let mut top = put_on(&mut stack, next);
    'regions: loop {
        match read_attrs(alloc, &mut top, shape, visits) {
            Turn::Ends => match stack.pop() {
                None => return Ok(top.list),
                Some(outer) => {
                    let next = close(alloc, outer, top.list, shape, visits)?;
                    top = put_on(&mut stack, next);
                }
            },
            Turn::Opens(opening) => {
                let next = open(alloc, top, opening, shape, visits)?;
                top = put_on(&mut stack, next);
            }
            Turn::Fails(error) => return Err(error),
        }
    }
}
