//! Reading a region of attributes into a tree: the public calls. The loop itself is in `stack`.

ghost use Rattle.std.specs.Prelude.{◌≤◌, ◌+◌, length};
ghost use Rattle.nl_attr.specs.Fixed as fixed;
ghost use Rattle.nl_attr.specs.Shape.{shape_of};
ghost use Rattle.nl_attr.specs.Reads.{ReadsList};

use crate::fault::{ListError, Tally};
use crate::limits::{Depth, Shape};
use crate::order::Order;
use crate::stack::read_region;
use crate::tree::{Attr, Ctx};
use std::alloc::Global;

/// Reads a region of attributes in little-endian byte order, with all that is nested in them.
///
/// `base` is the offset of the first byte, which offsets in errors count from. `ctx` says what the
/// types of the attributes mean. `level` is the region's nesting level, 0 for a message's own.
///
/// The error is the first header that breaks a rule: `Cut`, `BadLength`, `TooLong` or `TooDeep`.
/// Or it is `ListError::Memory`, where an allocation fails.
///
/// Attributes must fill the region to its end. Padding may hold any bytes, and the padding behind
/// the last attribute may be missing or short.
pub fn read_list(
    alloc: Global,
    bytes: &[u8],
    base: u32,
    ctx: Ctx,
    level: u8,
    depth: Depth,
) -> Tally<Vec<Attr>, ListError>
    requires level { level ≤ depth }
    requires size { length bytes.now ≤ fixed.LONGEST_REGION }
    requires place { base + length bytes.now ≤ fixed.FARTHEST_END }
    ensures { ReadsList (shape_of Order.Little depth) ctx level base bytes.now result }
{
    read_list_ordered(alloc, bytes, base, ctx, level, depth, Order::Little)
}

/// Reads a region of attributes in this byte order. All else is as in `read_list`.
#[tactic(auto, using(crate::proofs::Lemmas::Reads::reads_list))]
pub fn read_list_ordered(
    alloc: Global,
    bytes: &[u8],
    base: u32,
    ctx: Ctx,
    level: u8,
    depth: Depth,
    order: Order,
) -> Tally<Vec<Attr>, ListError>
    requires level { level ≤ depth }
    requires size { length bytes.now ≤ fixed.LONGEST_REGION }
    requires place { base + length bytes.now ≤ fixed.FARTHEST_END }
    ensures { ReadsList (shape_of order depth) ctx level base bytes.now result }
{
    let shape = Shape::of(depth, order);
    let mut visits: u64 = 0;
    let result = read_region(alloc, bytes, base, ctx, level, shape, &mut visits);
    Tally { result, visits }
}
