//! The value that is printed beside the bytes of a part.

ghost use Rattle.std.specs.Prelude.{◌≡◌, ◌++◌, OnOk, codes, decimal, option_map};
ghost use Rattle.std.specs.Fmt.{signed_decimal};
ghost use Rattle.nl_attr.specs.Walk.{flags_of};
ghost use Rattle.nl_values.specs.Known.{bits_of};
ghost use Rattle.nl_values.specs.Meanings.{sense_of};
ghost use Rattle.nl_values.specs.Numbers.{integer_view};
ghost use Rattle.rtnl.specs.Data.{mac_text};
ghost use Rattle.rtnl.specs.Kernel.{kernel_name};
ghost use Rattle.rtnl.specs.NamedBits.{bit_names};
ghost use Rattle.rtnl.specs.Notations.{all_digits, all_flags, attr_behind, bits_behind};
ghost use Rattle.rtnl.specs.Notations.{digits_behind, flags_behind, name_behind, number_in};
ghost use Rattle.rtnl.specs.Names.{names_text};
ghost use Rattle.rtnl.specs.Notations.{reading_behind, sense_behind, type_behind, value_behind};
ghost use Rattle.rtnl.specs.Notations.{word_if};
ghost use Rattle.rtnl.specs.Values.{reading_view};

use crate::json_lines::data::inside::meaning_at;
use crate::json_lines::data::leaves::{put_integer, put_mac};
use crate::names::attributes::Style;
use crate::names::flags::Bits;
use crate::names::kernel::{KernelName, any_message_name, set_name};
use crate::names::values::{Reading, read_payload};
use crate::pieces::push;
use crate::pieces::segment::Segment;
use crate::text::flags::{push_bits_of, push_names};
use crate::text::values::push_value;
use nl_attr::{AttrFlags, NLA_F_NESTED, NLA_F_NET_BYTEORDER, NUMBERS, Order};
use nl_values::{Format, Integer, Meaning, Names, Set};
use std::alloc::AllocError;

/// How the bytes of a part are read, and what is printed of them.
#[derive(Clone, Copy)]
pub(crate) enum Notation {
    /// No value.
    Blank,
    /// A number of one, two or four bytes, in decimal.
    Decimal,
    /// A number of four bytes with a sign.
    Signed,
    /// A number of one, two or four bytes, in hexadecimal digits.
    Digits,
    /// A number in hexadecimal digits, and the names of its bits.
    Flags(Bits),
    /// The type of a message, and its name.
    MessageType,
    /// The type of an attribute of this set, its name and its flag bits.
    AttrType(Option<Set>),
    /// The payload of an attribute in this style, and whether its type has the flag NET_BYTEORDER.
    Payload(Style, bool),
    /// What bytes of this format mean.
    Meaning(Format),
}

/// The number that one, two or four bytes are; none for another length.
pub(super) fn number(order: Order, bytes: &[u8]) -> Option<u32>
    ensures { result ≡ number_in order bytes.now }
{
    match bytes.len() {
        1 => Some(bytes[0] as u32),
        2 => Some(order.read_u16(bytes) as u32),
        4 => Some(order.read_u32(bytes)),
        _ => None,
    }
}

/// Writes a number in decimal.
fn push_number(out: &mut Vec<u8>, number: u32) -> Result<(), AllocError>
    ensures { OnOk result (out.new.items ≡ out.old.items ++ (codes " " ++ decimal number)) }
{
    let mut text = Segment::new();
    text.put_field(" ", number as u64);
    text.push_to(out)
}

fn push_signed(out: &mut Vec<u8>, number: i32) -> Result<(), AllocError>
    ensures { OnOk result (out.new.items ≡ out.old.items ++ (codes " " ++ signed_decimal number)) }
{
    let mut text = Segment::new();
    text.put_signed(number.into());
    text.put(" ");
    text.push_to(out)
}

#[tactic(auto, unfolding(crate::specs::Notations::digits_behind))]
fn push_hex2(out: &mut Vec<u8>, number: u8) -> Result<(), AllocError>
    ensures { OnOk result (out.new.items ≡ out.old.items ++ digits_behind 2 number) }
{
    let mut text = Segment::new();
    text.put_hex2(number);
    text.put(" 0x");
    text.push_to(out)
}

#[tactic(auto, unfolding(crate::specs::Notations::digits_behind))]
fn push_hex4(out: &mut Vec<u8>, number: u16) -> Result<(), AllocError>
    ensures { OnOk result (out.new.items ≡ out.old.items ++ digits_behind 4 number) }
{
    let mut text = Segment::new();
    text.put_hex4(number);
    text.put(" 0x");
    text.push_to(out)
}

#[tactic(auto, unfolding(crate::specs::Notations::digits_behind))]
fn push_hex8(out: &mut Vec<u8>, number: u32) -> Result<(), AllocError>
    ensures { OnOk result (out.new.items ≡ out.old.items ++ digits_behind 8 number) }
{
    let mut text = Segment::new();
    text.put_hex8(number);
    text.put(" 0x");
    text.push_to(out)
}

/// Writes a number in hexadecimal digits.
fn push_digits(out: &mut Vec<u8>, order: Order, bytes: &[u8]) -> Result<(), AllocError>
    ensures { OnOk result (out.new.items ≡ out.old.items ++ all_digits order bytes.now) }
{
    match bytes.len() {
        1 => push_hex2(out, bytes[0]),
        2 => push_hex4(out, order.read_u16(bytes)),
        4 => push_hex8(out, order.read_u32(bytes)),
        _ => Ok(()),
    }
}

#[tactic(auto, unfolding(crate::specs::Notations::flags_behind, crate::specs::Notations::digits_behind), using(crate::proofs::Sets::joins))]
fn push_flags8(out: &mut Vec<u8>, bits: Bits, flags: u8) -> Result<(), AllocError>
    ensures { OnOk result
        (out.new.items ≡ out.old.items ++ flags_behind 2 (bit_names bits) flags) }
{
    push_hex2(out, flags)?;
    push(out, " ")?;
    push_names(out, bits, flags.into())
}

#[tactic(auto, unfolding(crate::specs::Notations::flags_behind, crate::specs::Notations::digits_behind), using(crate::proofs::Sets::joins))]
fn push_flags16(out: &mut Vec<u8>, bits: Bits, flags: u16) -> Result<(), AllocError>
    ensures { OnOk result
        (out.new.items ≡ out.old.items ++ flags_behind 4 (bit_names bits) flags) }
{
    push_hex4(out, flags)?;
    push(out, " ")?;
    push_names(out, bits, flags.into())
}

#[tactic(auto, unfolding(crate::specs::Notations::flags_behind, crate::specs::Notations::digits_behind), using(crate::proofs::Sets::joins))]
fn push_flags32(out: &mut Vec<u8>, bits: Bits, flags: u32) -> Result<(), AllocError>
    ensures { OnOk result
        (out.new.items ≡ out.old.items ++ flags_behind 8 (bit_names bits) flags) }
{
    push_hex8(out, flags)?;
    push(out, " ")?;
    push_names(out, bits, flags)
}

/// Writes flags, and the names of those that are set.
fn push_flags(out: &mut Vec<u8>, order: Order, bits: Bits, bytes: &[u8]) -> Result<(), AllocError>
    ensures { OnOk result (out.new.items ≡ out.old.items ++ all_flags order bits bytes.now) }
{
    match (bits, bytes.len()) {
        (Bits::Message(_) | Bits::NeighState, 2) => push_flags16(out, bits, order.read_u16(bytes)),
        (Bits::Link, 4) => push_flags32(out, bits, order.read_u32(bytes)),
        (Bits::NeighFlags | Bits::NextHop, 1) => push_flags8(out, bits, bytes[0]),
        _ => Ok(()),
    }
}

/// Writes a name, where there is one.
fn push_name(out: &mut Vec<u8>, found: Option<KernelName>) -> Result<(), AllocError>
    ensures { OnOk result (out.new.items ≡ out.old.items
        ++ name_behind (option_map kernel_name found.entry)) }
{
    match found {
        None => Ok(()),
        Some((front, end)) => {
            push(out, " ")?;
            push(out, front)?;
            push(out, end)
        }
    }
}

#[tactic(auto, unfolding(crate::specs::Notations::type_behind), using(crate::proofs::Sets::joins))]
fn push_type(out: &mut Vec<u8>, kind: u16) -> Result<(), AllocError>
    ensures { OnOk result (out.new.items ≡ out.old.items ++ type_behind kind) }
{
    push_number(out, kind as u32)?;
    push_name(out, any_message_name(kind))
}

fn push_if(out: &mut Vec<u8>, word: &str, holds: bool) -> Result<(), AllocError>
    ensures { OnOk result (out.new.items ≡ out.old.items ++ word_if word.now holds) }
{
    if holds { push(out, word) } else { Ok(()) }
}

/// Writes the flag bits of an attribute's type.
#[tactic(auto, unfolding(crate::specs::Notations::bits_behind), using(crate::proofs::Sets::joins))]
fn push_bits(out: &mut Vec<u8>, flags: AttrFlags) -> Result<(), AllocError>
    ensures { OnOk result (out.new.items ≡ out.old.items ++ bits_behind flags) }
{
    push_if(out, " NESTED", flags.nested)?;
    push_if(out, " NET_BYTEORDER", flags.net)
}

fn flags_in(kind: u16) -> AttrFlags
    ensures { result ≡ flags_of kind }
{
    AttrFlags {
        nested: kind / NLA_F_NESTED == 1,
        net: kind / NLA_F_NET_BYTEORDER % 2 == 1,
    }
}

/// Writes the type of an attribute of this set.
#[tactic(auto, unfolding(crate::specs::Notations::attr_behind), using(crate::proofs::Sets::joins))]
fn push_attr_type(out: &mut Vec<u8>, set: Option<Set>, kind: u16) -> Result<(), AllocError>
    ensures { OnOk result (out.new.items ≡ out.old.items ++ attr_behind set kind) }
{
    let number = kind % NUMBERS;
    push_number(out, number as u32)?;
    push_name(out, set_name(set, number))?;
    push_bits(out, flags_in(kind))
}

/// Writes the value of a payload, or nothing where it is read as bytes.
#[tactic(auto, unfolding(crate::specs::Notations::reading_behind), using(crate::proofs::Sets::joins))]
fn push_reading(out: &mut Vec<u8>, reading: Reading<'_>) -> Result<(), AllocError>
    ensures { OnOk result
        (out.new.items ≡ out.old.items ++ reading_behind (reading_view reading.entry)) }
{
    if let Reading::Hex(_) = reading {
        return Ok(());
    }
    push(out, " ")?;
    push_value(out, reading)
}

fn push_integer(out: &mut Vec<u8>, number: Integer) -> Result<(), AllocError>
    ensures { OnOk result (out.new.items
        ≡ out.old.items ++ (codes " " ++ signed_decimal (integer_view number))) }
{
    let mut text = Segment::new();
    put_integer(&mut text, number);
    text.put(" ");
    text.push_to(out)
}

/// Writes a value of an enumeration, and its name, where it has one.
fn push_enumerated(out: &mut Vec<u8>, number: Integer, name: Option<&str>) -> Result<(), AllocError>
    ensures { OnOk result (out.new.items ≡ out.old.items
        ++ (codes " " ++ (signed_decimal (integer_view number)
        ++ name_behind (option_map (λ r. r.now) name.entry)))) }
{
    push_integer(out, number)?;
    match name {
        None => Ok(()),
        Some(name) => {
            push(out, " ")?;
            push(out, name)
        }
    }
}

fn push_mac(out: &mut Vec<u8>, address: [u8; 6]) -> Result<(), AllocError>
    ensures { OnOk result (out.new.items ≡ out.old.items ++ (codes " " ++ mac_text address)) }
{
    let mut text = Segment::new();
    put_mac(&mut text, &address);
    text.put(" ");
    text.push_to(out)
}

/// Writes a number, and the names of its bits.
fn push_named_bits(out: &mut Vec<u8>, number: u64, names: Names) -> Result<(), AllocError>
    ensures { OnOk result (out.new.items ≡ out.old.items
        ++ (codes " " ++ (decimal number ++ (codes " " ++ names_text (bits_of names) number)))) }
{
    let mut text = Segment::new();
    text.put(" ");
    text.put_number(number);
    text.put(" ");
    text.push_to(out)?;
    push_bits_of(out, names, number)
}

/// Writes a meaning that is one value, or nothing for any other.
#[tactic(auto, unfolding(crate::specs::Notations::sense_behind, crate::specs::Notations::reading_behind, crate::specs::Values::reading_of), using(crate::proofs::Sets::joins))]
fn push_meaning(out: &mut Vec<u8>, meaning: Meaning<'_>) -> Result<(), AllocError>
    ensures { OnOk result (out.new.items ≡ out.old.items ++ sense_behind (sense_of meaning.entry)) }
{
    match meaning {
        Meaning::Text(text) => {
            // A text has no byte order.
            let order = Order::Little;
            push_reading(
                out,
                read_payload(order, Style::Text, false, text.as_bytes()),
            )
        }
        Meaning::Integer(number) => push_integer(out, number),
        Meaning::Value(number, name) => push_enumerated(out, number, name),
        Meaning::Bits(number, names) => push_named_bits(out, number, names),
        Meaning::Mac(address) => push_mac(out, address),
        Meaning::Ipv4(address) => push_reading(out, Reading::Ipv4(address)),
        Meaning::Ipv6(address) => push_reading(out, Reading::Ipv6(address)),
        Meaning::Unknown
        | Meaning::Flag
        | Meaning::Series(_)
        | Meaning::Counters(_, _)
        | Meaning::Fields(_)
        | Meaning::Array(_, _)
        | Meaning::Headed(_, _, _)
        | Meaning::List(_) => Ok(()),
    }
}

/// Writes a blank and the value of a part, or nothing.
#[tactic(auto, unfolding(crate::specs::Notations::value_behind))]
pub(super) fn push_value_behind(
    out: &mut Vec<u8>,
    order: Order,
    notation: Notation,
    bytes: &[u8],
) -> Result<(), AllocError>
    ensures { OnOk result
        (out.new.items ≡ out.old.items ++ value_behind order notation bytes.now) }
{
    match notation {
        Notation::Blank => Ok(()),
        Notation::Decimal => match number(order, bytes) {
            Some(number) => push_number(out, number),
            None => Ok(()),
        },
        Notation::Signed if bytes.len() == 4 => push_signed(out, order.read_i32(bytes)),
        Notation::Digits => push_digits(out, order, bytes),
        Notation::Flags(bits) => push_flags(out, order, bits, bytes),
        Notation::MessageType if bytes.len() == 2 => push_type(out, order.read_u16(bytes)),
        Notation::AttrType(set) if bytes.len() == 2 => {
            push_attr_type(out, set, order.read_u16(bytes))
        }
        Notation::Signed | Notation::MessageType | Notation::AttrType(_) => Ok(()),
        Notation::Payload(style, net) => push_reading(out, read_payload(order, style, net, bytes)),
        Notation::Meaning(format) => { push_meaning(out, meaning_at(order, 1, format, &[], bytes)) }
    }
}
