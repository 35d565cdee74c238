//! Reading one region of next hops, up to the next nested attribute in one of them.

ghost use Rattle.std.specs.Prelude.{◌≤◌, ◌+◌};
ghost use Rattle.nl_attr.specs.Fixed as fixed;
ghost use Rattle.nl_attr.specs.Open.{hops_rest, hops_spot, HopGoes, HopMoves};
ghost use Rattle.nl_attr.specs.Open.{HopsGo, HopsMove, IsWithinLimits};

use crate::fault::ListError;
use crate::limits::Shape;
use crate::stack::attributes::{Opening, Turn, read_attrs};
use crate::stack::regions::{HopHead, HopsRegion, ListRegion, keep_hop, layout, list_of};
use crate::tree::Ctx;
use std::alloc::{AllocError, Global};

/// The result of one step in a region of next hops.
#[derive(Drop)]
pub(super) enum HopTurn<'a> {
    /// The region has ended, and all its next hops are in the list.
    Ends,
    /// The step came to a next hop, whose attributes must be read next.
    Opens(HopHead, ListRegion<'a>),
    /// A header breaks a rule, or an allocation failed.
    Fails(ListError),
}

/// Steps to the next hop at the front, and begins the region of its attributes.
#[inline(always)]
pub(super) fn next_hop<'a>(
    alloc: Global,
    region: &mut HopsRegion<'a>,
    shape: Shape,
    visits: &mut u64,
) -> HopTurn<'a>
    requires limit { shape.depth ≤ fixed.MOST_LEVELS }
    requires limits { IsWithinLimits shape (hops_spot region.old) }
    requires room { visits.old + (hops_rest shape region.old).1 ≤ fixed.MOST_VISITS }
    ensures goes { HopGoes shape visits.old
        (hops_rest shape region.old) visits.new region.new result }
    ensures moves { HopMoves shape (hops_spot region.old) region.new result }
{
    let part = match region.walk.step(visits) {
        None => return HopTurn::Ends,
        Some(Err(fault)) => return HopTurn::Fails(layout(region.base, fault)),
        Some(Ok(part)) => part,
    };
    let place = region.base + part.place + 8;
    match list_of(alloc, part.rest, place, Ctx::Route, region.level + 1, shape) {
        Ok(inner) => {
            let head = HopHead {
                flags: part.flags,
                hops: part.hops,
                ifindex: part.ifindex,
            };
            HopTurn::Opens(head, inner)
        }
        Err(AllocError) => HopTurn::Fails(ListError::Memory),
    }
}

/// Why the reading of a whole region of next hops stopped.
#[derive(Drop)]
pub(super) enum HopsTurn<'a> {
    /// The region has ended, and all its next hops are in the list.
    Ends,
    /// The attributes of this next hop came to a nested attribute.
    Opens(HopHead, ListRegion<'a>, Opening<'a>),
    /// A header breaks a rule, or an allocation failed.
    Fails(ListError),
}

/// Reads next hops with their attributes, up to the first that has a nested attribute.
#[inline(always)]
pub(super) fn read_hops<'a>(
    alloc: Global,
    region: &mut HopsRegion<'a>,
    shape: Shape,
    visits: &mut u64,
) -> HopsTurn<'a>
    requires limit { shape.depth ≤ fixed.MOST_LEVELS }
    requires limits { IsWithinLimits shape (hops_spot region.old) }
    requires room { visits.old + (hops_rest shape region.old).1 ≤ fixed.MOST_VISITS }
    ensures goes { HopsGo shape visits.old
        (hops_rest shape region.old) visits.new region.new result }
    ensures moves { HopsMove shape (hops_spot region.old) region.new result }
{
    'hops: loop {
        let (head, mut inner) = match next_hop(alloc, region, shape, visits) {
            HopTurn::Ends => return HopsTurn::Ends,
            HopTurn::Opens(head, inner) => (head, inner),
            HopTurn::Fails(error) => return HopsTurn::Fails(error),
        };
        match read_attrs(alloc, &mut inner, shape, visits) {
            Turn::Ends => match keep_hop(&mut region.list, head, inner.list) {
                Ok(()) => continue 'hops,
                Err(AllocError) => return HopsTurn::Fails(ListError::Memory),
            },
            Turn::Opens(opening) => return HopsTurn::Opens(head, inner, opening),
            Turn::Fails(error) => return HopsTurn::Fails(error),
        }
    }
}
