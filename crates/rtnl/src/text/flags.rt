//! Lists of the names of bits.

ghost use Rattle.std.specs.Prelude.{◌≡◌, ◌+◌, ℕ, List, true, ◌∷◌, ◌++◌, OnOk, IfOk, drop, map};
ghost use Rattle.nl_values.specs.Known.{bits_of};
ghost use Rattle.rtnl.specs.NamedBits.{BitName as AnyBitName, bit_names, bit_view};
ghost use Rattle.rtnl.specs.Names.{names_set, names_text, rest_text};

use crate::names::flags::{BitName, Bits, Number, bit_names};
use crate::pieces::push;
use bitflags::Flags;
use nl_values::Names;
use std::alloc::AllocError;

/// Writes one name, behind a comma if there are others before it.
#[inline(always)]
#[tactic(auto, using(crate::proofs::Listing::first_name, crate::proofs::Listing::next_name))]
fn push_name(out: &mut Vec<u8>, any: bool, name: &str) -> Result<(), AllocError>
    ensures { OnOk result ((names : List (List ℕ)) → out.new.items ++ rest_text true names
        ≡ out.old.items ++ rest_text any (name.now ∷ names)) }
{
    if any {
        push(out, ",")?;
    }
    push(out, name)
}

/// Writes the name of a bit if the number has it, and says whether there is a name by now.
#[inline(always)]
fn push_bit(out: &mut Vec<u8>, any: bool, row: &BitName, number: Number) -> Result<bool, AllocError>
    ensures { IfOk result (λ more. (rows : List AnyBitName) →
        out.new.items ++ rest_text more (names_set rows number.0)
        ≡ out.old.items ++ rest_text any (names_set (bit_view row.now ∷ rows) number.0)) }
{
    if !number.contains(*row.value()) {
        return Ok(any);
    }
    push_name(out, any, row.name())?;
    Ok(true)
}

#[inline(always)]
#[tactic(auto, unfolding(crate::specs::Names::names_text))]
fn push_bits(out: &mut Vec<u8>, table: &[BitName], number: Number) -> Result<(), AllocError>
    ensures { OnOk result
        (out.new.items ≡ out.old.items ++ names_text (map bit_view table.now) number.0) }
{
    let mut any = false;
    for row in table {
        any = push_bit(out, any, row, number)?;
    }
    if !any {
        push(out, "-")?;
    }
    Ok(())
}

/// Writes the names of the bits that are set, lowest first, or a dash where none is.
pub(crate) fn push_names(out: &mut Vec<u8>, bits: Bits, number: u32) -> Result<(), AllocError>
    ensures { OnOk result (out.new.items
        ≡ out.old.items ++ names_text (bit_names bits) number) }
{
    push_bits(out, bit_names(bits), Number(number))
}

/// Writes the name of the bit of an index if the number has it, and says whether there is a name by
/// now.
fn push_bit_of(
    out: &mut Vec<u8>,
    any: bool,
    names: Names,
    index: usize,
    number: u64,
) -> Result<bool, AllocError>
    ensures { IfOk result (λ more.
        out.new.items ++ rest_text more (names_set (drop (index + 1) (bits_of names)) number)
        ≡ out.old.items ++ rest_text any (names_set (drop index (bits_of names)) number)) }
{
    let Some((name, bit)) = names.bit(index) else {
        return Ok(any);
    };
    if number & bit != bit {
        return Ok(any);
    }
    push_name(out, any, name)?;
    Ok(true)
}

/// The same of the bits that a table of the kernel's names has.
#[tactic(auto, unfolding(crate::specs::Names::names_text))]
pub(crate) fn push_bits_of(out: &mut Vec<u8>, names: Names, number: u64) -> Result<(), AllocError>
    ensures { OnOk result
        (out.new.items ≡ out.old.items ++ names_text (bits_of names) number) }
{
    let mut any = false;
    for index in 0..names.len() {
        any = push_bit_of(out, any, names, index, number)?;
    }
    if !any {
        push(out, "-")?;
    }
    Ok(())
}
