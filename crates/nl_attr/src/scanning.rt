//! Validating a region of attributes: a scan checks every header and keeps nothing.

ghost use Rattle.std.specs.Prelude.{◌≤◌, ◌+◌, ◌-◌, ◌*◌, length, IfOk, IfErr};
ghost use Rattle.nl_attr.specs.Broken.{fault_in};
ghost use Rattle.nl_attr.specs.Fixed as fixed;
ghost use Rattle.nl_attr.specs.Heads.{IsFirstFault, start_of};
ghost use Rattle.nl_attr.specs.Layout.{Fits};
ghost use Rattle.nl_attr.specs.Reading.{items_of_region};
ghost use Rattle.nl_attr.specs.Scanned.{Ends, Scans, SeesUpTo};
ghost use Rattle.nl_attr.specs.Shape.{shape_of};
ghost use Rattle.nl_attr.specs.Tree.{Items};

use crate::broken::BrokenHead;
use crate::events::Event;
use crate::fault::{Fault, Tally};
use crate::limits::Depth;
use crate::order::Order;
use crate::taping::tape_list;
use crate::tree::Ctx;

/// The result of a scan that ended at this broken header, or at the region's end.
fn answer(broken: Option<BrokenHead>) -> Result<(), Fault>
    ensures { Ends (fault_in broken) result }
{
    match broken {
        None => Ok(()),
        Some(head) => Err(head.fault),
    }
}

/// Validates a region of attributes: `read_list_ordered` accepts it exactly where this does. It
/// takes no memory.
///
/// `base` is the offset of the first byte, `level` the region's nesting level, and `order` the
/// byte order. The error is the first header that breaks a rule: `Cut`, `BadLength`, `TooLong` or
/// `TooDeep`.
pub fn scan_list_ordered(
    bytes: &[u8],
    base: u32,
    ctx: Ctx,
    level: u8,
    depth: Depth,
    order: Order,
) -> Tally<(), Fault>
    requires level { level ≤ depth }
    requires size { length bytes.now ≤ fixed.LONGEST_REGION }
    requires place { base + length bytes.now ≤ fixed.FARTHEST_END }
    // The result and the visits are those of a reading from left to right.
    ensures outcome { Scans result
        (items_of_region (shape_of order depth) ctx level base bytes.now) }
    // Where it is accepted some list fits the region.
    ensures fits { IfOk result.result
        (λ _. (is : Items) × Fits (shape_of order depth) is bytes.now ctx level) }
    // An error is the one at the least offset.
    ensures first { IfErr result.result (λ f. IsFirstFault (shape_of order depth)
        (start_of ctx level base bytes.now) f.place f.reason) }
    // Then no list fits.
    ensures none { IfErr result.result
        (λ _. (is : Items) → Fits (shape_of order depth) is bytes.now ctx level → ⊥) }
    // The visits are those of all headers, or of the headers up to the error.
    ensures visits { SeesUpTo (shape_of order depth) (start_of ctx level base bytes.now)
        (base + length bytes.now) result.result result.visits }
    ensures bound { result.visits ≤ (depth - level + 1) * length bytes.now }
{
    let out: &mut [Event] = &mut [];
    let taped = tape_list(bytes, base, ctx, level, depth, order, out, 0);
    Tally {
        result: answer(taped.broken),
        visits: taped.visits,
    }
}
