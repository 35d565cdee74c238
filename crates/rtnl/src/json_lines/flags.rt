//! Arrays of the names of bits.

ghost use Rattle.std.specs.Prelude.{◌≡◌, ◌≤◌, ◌∷◌, [], List, OnOk, length, map, true};
ghost use Rattle.rtnl.specs.Json.{IsUnescaped, ◌⊕◌, fields_tokens, string, values_tokens};
ghost use Rattle.rtnl.specs.NamedBits.{BitName as AnyBitName, bit_names, bit_view};
ghost use Rattle.rtnl.specs.Names.{are_unescaped, names_json, names_set};

use crate::json_lines::line::Line;
use crate::names::flags::{BitName, Bits, Number, bit_names};
use bitflags::Flags;
use std::alloc::AllocError;

/// Writes the name of a bit if the number has it.
#[inline(always)]
#[tactic(auto, using(crate::proofs::Json::more))]
fn push_bit(line: &mut Line, row: &BitName, number: Number) -> Result<(), AllocError>
    requires { IsUnescaped (bit_view row.now).0 }
    ensures { OnOk result ((rows : List AnyBitName)
        → line.new ⊕ values_tokens (map string (names_set rows number.0))
        ≡ line.old ⊕ values_tokens (map string (names_set (bit_view row.now ∷ rows) number.0))) }
{
    if !number.contains(*row.value()) {
        return Ok(());
    }
    line.unescaped(row.name())
}

#[tactic(auto, using(crate::proofs::Sets::all_written))]
fn push_bits(line: &mut Line, table: &[BitName], number: Number) -> Result<(), AllocError>
    requires { are_unescaped (map bit_view table.now) ≡ true }
    ensures { OnOk result (line.new ≡ line.old
        ⊕ values_tokens (map string (names_set (map bit_view table.now) number.0))) }
{
    for row in table {
        push_bit(line, row, number)?;
    }
    Ok(())
}

/// Writes a field with the names of the bits that are set, lowest first.
#[tactic(auto, unfolding(crate::specs::Names::names_json), using(crate::proofs::Sets::whole_value, crate::proofs::Unescaped::unescaped_bits, crate::proofs::Unescaped::no_bits))]
pub(crate) fn push_names(
    line: &mut Line,
    name: &str,
    bits: Bits,
    number: u32,
) -> Result<(), AllocError>
    requires plain { IsUnescaped name.now }
    requires short { length name.now ≤ 64 }
    ensures { OnOk result (line.new ≡ line.old
        ⊕ fields_tokens ((name.now, names_json (bit_names bits) number) ∷ [])) }
{
    if number == 0 {
        return line.empty_array(name);
    }
    line.key(name)?;
    line.begin_array()?;
    push_bits(line, bit_names(bits), Number(number))?;
    line.end_array()
}
