//! Reading one region of attributes, up to its next nested attribute.

ghost use Rattle.std.specs.Prelude.{◌^◌, ◌≤◌, ◌<◌, ◌+◌, length};
ghost use Rattle.nl_attr.specs.Fixed as fixed;
ghost use Rattle.nl_attr.specs.Open.{TurnsAt, list_rest, list_spot, region_at, Goes, Moves, IsWithinLimits};

use crate::fault::{Fault, ListError};
use crate::limits::Shape;
use crate::region::Parts;
use crate::stack::regions::{ListRegion, container_fault, keep_bytes, keep_others, layout};
use crate::tree::{Attr, AttrFlags, Ctx, holds};
use crate::walk::{CountedAttrs, Part, Step};
use std::alloc::{AllocError, Global};

/// A nested attribute that the walk has come to. Nothing of its payload has been read.
#[derive(Clone, Copy)]
pub(super) struct Opening<'a> {
    pub(super) number: u16,
    pub(super) flags: AttrFlags,
    /// The offset of the payload, with the base of the reading.
    pub(super) place: u32,
    pub(super) payload: &'a [u8],
    pub(super) parts: Parts,
}

/// Why the reading of a region of attributes stopped.
#[derive(Drop)]
pub(super) enum Turn<'a> {
    /// The region has ended, and all its attributes are in the list.
    Ends,
    /// The walk came to a nested attribute, whose region must be read first.
    Opens(Opening<'a>),
    /// A header breaks a rule, or an allocation failed.
    Fails(ListError),
}

/// Validates the length and the depth of a nested attribute: `Opens`, or `Fails` with the rule.
fn turn_at<'a>(part: Part<'a>, parts: Parts, base: u32, level: u8, shape: Shape) -> Turn<'a>
    requires level { level ≤ fixed.MOST_LEVELS }
    requires place { base + part.place + 4 < 2 ^ 32 }
    requires size { length part.payload.now ≤ fixed.LONGEST_REGION }
    ensures { TurnsAt shape level base part.entry parts result }
{
    let (place, payload) = (part.place, part.payload);
    if let Some(reason) = container_fault(parts.content(), payload.len() + 4, level, shape) {
        return Turn::Fails(layout(base, Fault { place, reason }));
    }
    Turn::Opens(Opening {
        number: part.number,
        flags: part.flags,
        place: base + place + 4,
        payload,
        parts,
    })
}

/// Reads what is left of a region of attributes, up to the next nested one, and adds them to
/// `list`. Where the caller's walk and list are local variables, they stay in registers.
#[inline(always)]
pub(super) fn read_walk<'a>(
    alloc: Global,
    walk: &mut CountedAttrs<'a>,
    list: &mut Vec<Attr>,
    base: u32,
    ctx: Ctx,
    level: u8,
    shape: Shape,
    visits: &mut u64,
) -> Turn<'a>
    requires limit { shape.depth ≤ fixed.MOST_LEVELS }
    requires limits { IsWithinLimits shape (list_spot (region_at walk.old list.old base level ctx)) }
    requires room { visits.old + (list_rest shape (region_at walk.old list.old base level ctx)).1
        ≤ fixed.MOST_VISITS }
    ensures goes { Goes shape visits.old
        (list_rest shape (region_at walk.old list.old base level ctx))
        visits.new (region_at walk.new list.new base level ctx) result }
    ensures moves { Moves shape (list_spot (region_at walk.old list.old base level ctx))
        (region_at walk.new list.new base level ctx) result }
{
    'attrs: loop {
        match walk.step(visits) {
            Step::Ends => return Turn::Ends,
            Step::Fails(place, reason) => return Turn::Fails(layout(base, Fault { place, reason })),
            Step::Word(part) => match Parts::of(holds(ctx, part.number, part.flags)) {
                None => match keep_bytes(alloc, list, part.number, part.flags, part.payload) {
                    Ok(()) => continue 'attrs,
                    Err(AllocError) => return Turn::Fails(ListError::Memory),
                },
                Some(parts) => return turn_at(part, parts, base, level, shape),
            },
            Step::Plain(part) => match Parts::of(holds(ctx, part.number, part.flags)) {
                None => match keep_bytes(alloc, list, part.number, part.flags, part.payload) {
                    Ok(()) => continue 'attrs,
                    Err(AllocError) => return Turn::Fails(ListError::Memory),
                },
                Some(parts) => return turn_at(part, parts, base, level, shape),
            },
            Step::Flagged(part) => match Parts::of(holds(ctx, part.number, part.flags)) {
                None => match keep_others(alloc, list, part.number, part.flags, part.payload) {
                    Ok(()) => continue 'attrs,
                    Err(AllocError) => return Turn::Fails(ListError::Memory),
                },
                Some(parts) => return turn_at(part, parts, base, level, shape),
            },
        }
    }
}

/// Reads what is left of `region`, up to its next nested attribute, as `read_walk` does.
#[inline(always)]
pub(super) fn read_attrs<'a>(
    alloc: Global,
    region: &mut ListRegion<'a>,
    shape: Shape,
    visits: &mut u64,
) -> Turn<'a>
    requires limit { shape.depth ≤ fixed.MOST_LEVELS }
    requires limits { IsWithinLimits shape (list_spot region.old) }
    requires room { visits.old + (list_rest shape region.old).1 ≤ fixed.MOST_VISITS }
    ensures goes { Goes shape visits.old (list_rest shape region.old) visits.new region.new result }
    ensures moves { Moves shape (list_spot region.old) region.new result }
{
    let (base, ctx, level) = (region.base, region.ctx, region.level);
    let (walk, list) = (&mut region.walk, &mut region.list);
    read_walk(alloc, walk, list, base, ctx, level, shape, visits)
}
