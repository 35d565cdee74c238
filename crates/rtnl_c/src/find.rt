//! `rtnlc_find`: the first attribute of a type in a region. It takes no memory.

ghost use Rattle.std.specs.Prelude.{◌≡◌, ◌≤◌, ◌<◌, ℕ, drop, length};
ghost use Rattle.nl_attr.specs.declared.tree.Ctx.{Ctx};
ghost use Rattle.nl_attr.specs.Fixed as fixed;
ghost use Rattle.nl_attr.specs.Layout.{Fits};
ghost use Rattle.nl_attr.specs.Shape.{shape_of};
ghost use Rattle.nl_attr.specs.Tree.{Items};
ghost use Rattle.rtnl_c.specs.declared.cursors.AttrAt.{AttrAt};
ghost use Rattle.rtnl_c.specs.Cursors.{no_attr};
ghost use Rattle.rtnl_c.specs.Find.{Finds, IsFirst};
ghost use Rattle.rtnl_c.specs.Options.{order_in};

use crate::cursors::{AttrAt, rtnlc_attr_at};
use nl_attr::LONGEST_REGION;

/// The first attribute of a number at a place of a region or behind it; 255 where none stands
/// there, with the place where the search ended; 1 or 2 at the first header that breaks a rule,
/// with its place; 6, with the place that was asked for, where the region is above 1,048,576 bytes.
///
/// The number has no flag bits. Headers before it are looked at, one after another, their payloads
/// are not. Where the region is accepted as a list, that is the attribute that counts for every
/// view of the list.
#[unsafe(no_mangle)]
pub extern "C" fn rtnlc_find(bytes: &[u8], place: u32, number: u16, big: bool) -> AttrAt
    ensures finds { length bytes.now ≤ fixed.LONGEST_REGION
        → Finds (order_in big) bytes.now number place result }
    ensures only { length bytes.now ≤ fixed.LONGEST_REGION
        → (a : AttrAt) → Finds (order_in big) bytes.now number place a → a ≡ result }
    // Of a list that fits the bytes from the place on.
    ensures first { length bytes.now ≤ fixed.LONGEST_REGION
        → (depth l : ℕ) (ctx : Ctx) (items : Items)
        → Fits (shape_of (order_in big) depth) items (drop place bytes.now) ctx l
        → IsFirst (shape_of (order_in big) depth) ctx l bytes.now place items number result }
    ensures large { fixed.LONGEST_REGION < length bytes.now → result ≡ no_attr place 6 }
{
    let mut found = rtnlc_attr_at(bytes, place, big);
    while found.code == 0 && found.number != number {
        found = rtnlc_attr_at(bytes, found.next, big);
    }
    found
}
