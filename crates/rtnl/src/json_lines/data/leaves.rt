//! Values that hold no other attribute: numbers, names, texts, addresses.

ghost use Rattle.std.specs.Prelude.{◌≡◌, ◌≤◌, ◌<◌, ◌+◌, ◌∷◌, ◌++◌, [], OnOk, Some, drop, length, true, take, map, option_map};
ghost use Rattle.std.specs.Fmt.{signed_decimal};
ghost use Rattle.json.specs.Token.{key};
ghost use Rattle.json.specs.Tree.{json_tokens};
ghost use Rattle.nl_values.specs.Known.{bits_of, name_of};
ghost use Rattle.nl_values.specs.Numbers.{integer_view};
ghost use Rattle.rtnl.specs.Data.{bits_json, byte_behind, count_in, counters, mac_text};
ghost use Rattle.rtnl.specs.Data.{numbers_json, option_json, place_name, value_json};
ghost use Rattle.rtnl.specs.Json.{IsUnescaped, ◌⊕◌, array, fields_tokens, object, signed, string};
ghost use Rattle.rtnl.specs.Json.{value_text, values_tokens};
ghost use Rattle.rtnl.specs.Names.{names_set};
ghost use Rattle.rtnl.specs.Values.{ipv4_text, ipv6_text};

use crate::json_lines::line::{Line, is_unescaped};
use crate::json_lines::values::{put_ipv4_string, put_ipv6_string};
use crate::pieces::segment::Segment;
use nl_attr::Order;
use nl_values::{Integer, Names, Number};
use std::alloc::AllocError;

/// Puts a number in front.
pub(crate) fn put_integer(piece: &mut Segment, number: Integer)
    requires { 21 + length piece.old ≤ 248 }
    ensures text { piece.new ≡ signed_decimal (integer_view number) ++ piece.old }
    ensures len { length piece.new ≤ 21 + length piece.old }
{
    match number {
        Integer::Unsigned(number) => piece.put_number(number),
        Integer::Signed(number) => piece.put_signed(number),
    }
}

#[tactic(auto, using(crate::proofs::Json::signed_together))]
pub(super) fn push_integer(line: &mut Line, number: Integer) -> Result<(), AllocError>
    ensures { OnOk result (line.new ≡ line.old ⊕ json_tokens (signed (integer_view number))) }
{
    let mut piece = Segment::new();
    put_integer(&mut piece, number);
    line.piece(&mut piece, true)
}

/// Writes a name, or null where there is none.
fn push_name(line: &mut Line, name: Option<&str>) -> Result<(), AllocError>
    ensures { OnOk result
        (line.new ≡ line.old ⊕ json_tokens (option_json (option_map (λ r. r.now) name.entry))) }
{
    match name {
        Some(name) => line.string(name),
        None => line.null(),
    }
}

/// Whether a name fits into a segment with its value: it is short, and needs no escape.
#[inline(always)]
fn is_brief(name: &str) -> bool
    ensures plain { result ≡ true → IsUnescaped name.now }
    ensures short { result ≡ true → length name.now ≤ 64 }
{
    name.len() <= 64 && is_unescaped(name.as_bytes())
}

/// Writes a field with a number and a brief name.
#[tactic(auto, using(crate::proofs::Json::signed_field))]
fn push_brief(line: &mut Line, name: &str, number: Integer) -> Result<(), AllocError>
    requires plain { IsUnescaped name.now }
    requires short { length name.now ≤ 64 }
    ensures { OnOk result (line.new ≡ (line.old ⊕ (key name.now ∷ []))
        ⊕ json_tokens (signed (integer_view number))) }
{
    let mut piece = Segment::new();
    put_integer(&mut piece, number);
    piece.put("\":");
    piece.put(name);
    piece.put("\"");
    line.piece(&mut piece, true)
}

/// Writes a field with a number.
pub(super) fn push_named(line: &mut Line, name: &str, number: Integer) -> Result<(), AllocError>
    ensures { OnOk result (line.new ≡ (line.old ⊕ (key name.now ∷ []))
        ⊕ json_tokens (signed (integer_view number))) }
{
    if is_brief(name) {
        return push_brief(line, name, number);
    }
    line.name(name)?;
    push_integer(line, number)
}

/// Writes a value of an enumeration and its name, which is brief.
#[tactic(auto, using(crate::proofs::Json::brief_value))]
fn push_brief_value(line: &mut Line, number: Integer, name: &str) -> Result<(), AllocError>
    requires plain { IsUnescaped name.now }
    requires short { length name.now ≤ 64 }
    ensures { OnOk result (line.new ≡ line.old
        ⊕ json_tokens (value_json (integer_view number) (Some name.now))) }
{
    let mut piece = Segment::new();
    piece.put("\"}");
    piece.put(name);
    piece.put(",\"name\":\"");
    put_integer(&mut piece, number);
    piece.put("{\"number\":");
    line.piece(&mut piece, true)
}

/// Writes a value of an enumeration and its name.
#[tactic(auto, unfolding(crate::specs::Data::value_json, crate::specs::Json::fields_tokens), using(crate::proofs::Sets::whole_value))]
pub(super) fn push_value(
    line: &mut Line,
    number: Integer,
    name: Option<&str>,
) -> Result<(), AllocError>
    ensures { OnOk result (line.new ≡ line.old
        ⊕ json_tokens (value_json (integer_view number) (option_map (λ r. r.now) name.entry))) }
{
    if let Some(name) = name {
        if is_brief(name) {
            return push_brief_value(line, number, name);
        }
    }
    line.begin_object()?;
    line.key("number")?;
    push_integer(line, number)?;
    line.key("name")?;
    push_name(line, name)?;
    line.end_object()
}

/// Writes the name of the bit at this index, if the number has the bit.
fn push_bit(line: &mut Line, number: u64, names: Names, index: usize) -> Result<(), AllocError>
    ensures { OnOk result (line.new
        ⊕ values_tokens (map string (names_set (drop (index + 1) (bits_of names)) number))
        ≡ line.old ⊕ values_tokens (map string (names_set (drop index (bits_of names)) number))) }
{
    let Some((name, bit)) = names.bit(index) else {
        return Ok(());
    };
    if number & bit != bit {
        return Ok(());
    }
    line.string(name)
}

/// Writes the names of the bits of a number.
#[tactic(auto, using(crate::proofs::Sets::all_written))]
fn push_each_bit(line: &mut Line, number: u64, names: Names) -> Result<(), AllocError>
    ensures { OnOk result
        (line.new ≡ line.old ⊕ values_tokens (map string (names_set (bits_of names) number))) }
{
    for index in 0..names.len() {
        push_bit(line, number, names, index)?;
    }
    Ok(())
}

/// Writes a number and the names of its bits.
#[tactic(auto, unfolding(crate::specs::Data::bits_json, crate::specs::Json::fields_tokens), using(crate::proofs::Sets::whole_value))]
pub(super) fn push_bits(line: &mut Line, number: u64, names: Names) -> Result<(), AllocError>
    ensures { OnOk result (line.new ≡ line.old ⊕ json_tokens (bits_json number names)) }
{
    line.begin_object()?;
    line.number("number", number)?;
    line.key("names")?;
    line.begin_array()?;
    push_each_bit(line, number, names)?;
    line.end_array()?;
    line.end_object()
}

/// Puts a colon and a byte of a hardware address in front.
#[tactic(auto, unfolding(crate::specs::Data::byte_behind))]
fn put_byte(piece: &mut Segment, address: &[u8; 6], i: usize)
    requires room { 3 + length piece.old ≤ 248 }
    requires within { i < 6 }
    ensures text { piece.new ≡ byte_behind i address.now ++ piece.old }
    ensures len { length piece.new ≡ 3 + length piece.old }
{
    piece.put_hex2(address[i]);
    piece.put(":");
}

/// Puts a hardware address in front.
#[tactic(auto, unfolding(crate::specs::Data::mac_text), using(crate::proofs::Sets::joins))]
pub(crate) fn put_mac(piece: &mut Segment, address: &[u8; 6])
    requires { 17 + length piece.old ≤ 248 }
    ensures text { piece.new ≡ mac_text address.now ++ piece.old }
    ensures len { length piece.new ≡ 17 + length piece.old }
{
    put_byte(piece, address, 5);
    put_byte(piece, address, 4);
    put_byte(piece, address, 3);
    put_byte(piece, address, 2);
    put_byte(piece, address, 1);
    piece.put_hex2(address[0]);
}

/// Puts a hardware address in front, as a string.
#[tactic(auto, using(crate::proofs::Json::string_text, crate::proofs::Sets::joins, crate::proofs::Unescaped::mac_unescaped))]
fn put_mac_string(piece: &mut Segment, address: &[u8; 6])
    requires { 19 + length piece.old ≤ 248 }
    ensures text { piece.new ≡ value_text (string (mac_text address.now)) ++ piece.old }
    ensures len { length piece.new ≡ 19 + length piece.old }
{
    piece.put("\"");
    put_mac(piece, address);
    piece.put("\"");
}

#[tactic(auto, using(crate::proofs::Json::string_together))]
pub(super) fn push_mac(line: &mut Line, address: [u8; 6]) -> Result<(), AllocError>
    ensures { OnOk result (line.new ≡ line.old ⊕ json_tokens (string (mac_text address))) }
{
    let mut piece = Segment::new();
    put_mac_string(&mut piece, &address);
    line.piece(&mut piece, true)
}

#[tactic(auto, using(crate::proofs::Json::string_together))]
pub(super) fn push_ipv4(line: &mut Line, address: [u8; 4]) -> Result<(), AllocError>
    ensures { OnOk result (line.new ≡ line.old ⊕ json_tokens (string (ipv4_text address))) }
{
    let mut piece = Segment::new();
    put_ipv4_string(&mut piece, &address);
    line.piece(&mut piece, true)
}

#[tactic(auto, using(crate::proofs::Json::string_together))]
pub(super) fn push_ipv6(line: &mut Line, address: [u8; 16]) -> Result<(), AllocError>
    ensures { OnOk result (line.new ≡ line.old ⊕ json_tokens (string (ipv6_text address))) }
{
    let mut piece = Segment::new();
    put_ipv6_string(&mut piece, &address);
    line.piece(&mut piece, true)
}

/// The bytes in front of an offset; all where there are fewer.
pub(crate) fn bytes_up_to(bytes: &[u8], end: usize) -> &[u8]
    ensures { result.now ≡ take end bytes.entry.now }
{
    bytes.get(..end).unwrap_or(bytes)
}

/// The bytes from an offset on; none where there are fewer.
pub(crate) fn bytes_from(bytes: &[u8], from: usize) -> &[u8]
    ensures { result.now ≡ drop from bytes.entry.now }
{
    bytes.get(from..).unwrap_or(&[])
}

/// How many numbers or structs of `size` bytes `len` bytes have.
pub(crate) fn count_in(size: usize, len: usize) -> usize
    ensures { result ≡ count_in size len }
{
    if size == 0 {
        return 0;
    }
    len / size
}

fn push_numbers(
    line: &mut Line,
    order: Order,
    number: Number,
    bytes: &[u8],
) -> Result<(), AllocError>
    ensures { OnOk result (line.new
        ≡ line.old ⊕ values_tokens (numbers_json order number bytes.now)) }
{
    let size = number.size();
    let mut left = bytes;
    for _index in 0..count_in(size, bytes.len()) {
        push_integer(line, number.integer(order, bytes_up_to(left, size)))?;
        left = bytes_from(left, size);
    }
    Ok(())
}

/// Writes numbers as an array.
#[tactic(auto, using(crate::proofs::Sets::whole_value))]
pub(super) fn push_series(
    line: &mut Line,
    order: Order,
    number: Number,
    bytes: &[u8],
) -> Result<(), AllocError>
    ensures { OnOk result (line.new
        ≡ line.old ⊕ json_tokens (array (numbers_json order number bytes.now))) }
{
    line.begin_array()?;
    push_numbers(line, order, number, bytes)?;
    line.end_array()
}

/// Writes numbers as fields, each under the name of its index.
fn push_places(
    line: &mut Line,
    order: Order,
    number: Number,
    names: Names,
    bytes: &[u8],
) -> Result<(), AllocError>
    ensures { OnOk result (line.new ≡ line.old
        ⊕ fields_tokens (counters names 0 (numbers_json order number bytes.now))) }
{
    let size = number.size();
    let mut left = bytes;
    for place in 0..count_in(size, bytes.len()) {
        let value = number.integer(order, bytes_up_to(left, size));
        push_place(line, place as u64, names, value)?;
        left = bytes_from(left, size);
    }
    Ok(())
}

/// Writes a number as a field under the name of its index, or under the index itself.
fn push_place(line: &mut Line, place: u64, names: Names, number: Integer) -> Result<(), AllocError>
    ensures { OnOk result (line.new
        ≡ (line.old ⊕ (key (place_name place (name_of names place)) ∷ []))
        ⊕ json_tokens (signed (integer_view number))) }
{
    let Some(name) = names.name(place) else {
        line.place(place)?;
        return push_integer(line, number);
    };
    push_named(line, name, number)
}

/// Writes numbers as an object, each under the name of its index.
#[tactic(auto, using(crate::proofs::Sets::whole_value))]
pub(super) fn push_counters(
    line: &mut Line,
    order: Order,
    number: Number,
    names: Names,
    bytes: &[u8],
) -> Result<(), AllocError>
    ensures { OnOk result (line.new ≡ line.old
        ⊕ json_tokens (object (counters names 0 (numbers_json order number bytes.now)))) }
{
    line.begin_object()?;
    push_places(line, order, number, names, bytes)?;
    line.end_object()
}
