//! A caller of `nl_values`.

ghost use Rattle.std.specs.Prelude.{◌≡◌, ◌≤◌, length};
ghost use Rattle.std.specs.Option.{option_map};
ghost use Rattle.nl_values.specs.Known.{attribute_of};
ghost use Rattle.nl_values.specs.Meanings.{sense_in, sense_of};

use nl_attr::{Depth, LONGEST_REGION, Order};
use nl_values::{Meaning, Set, read_meaning};

/// What the attribute of this number in a set is called, and what its payload means. `kind` is the
/// payload of the attribute that chooses what it is, where one does.
pub fn shown<'a>(
    set: Set,
    number: u16,
    payload: &'a [u8],
    kind: &[u8],
    order: Order,
    level: u8,
    depth: Depth,
) -> Option<(&'static str, Meaning<'a>)>
    requires { length payload.now ≤ LONGEST_REGION }
    // Both are by what the tables say of it.
    ensures name { option_map (λ it. it.0.now) result
        ≡ option_map (λ row. row.name) (attribute_of set number) }
    ensures sense { option_map (λ it. sense_of it.1) result
        ≡ option_map (λ row. sense_in order depth level row.format kind.now payload.entry.now)
        (attribute_of set number) }
{
    let attribute = set.attribute(number)?;
    let read = read_meaning(attribute.format, payload, kind, order, level, depth);
    Some((attribute.name, read.meaning))
}
