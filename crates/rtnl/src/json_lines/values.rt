//! The form and the value of a payload: `put_` writes them into a segment, `push_` to a line.

ghost use Rattle.std.specs.Prelude.{◌≡◌, ◌≤◌, ◌*◌, ◌+◌, ◌++◌, OnOk, length, true};
ghost use Rattle.json.specs.Print.{print};
ghost use Rattle.json.specs.Tree.{json_tokens};
ghost use Rattle.rtnl.specs.Json.{IsUnescaped, ◌⊕◌, digits, fields_tokens, string, value_text};
ghost use Rattle.rtnl.specs.MessagesJson.{IsReady, form_tokens, reading_fields, reading_json};
ghost use Rattle.rtnl.specs.Values.{ipv4_text, ipv6_text, reading_view};

use crate::json_lines::line::{Line, is_unescaped};
use crate::names::values::{LONGEST_TEXT, MOST_BYTES, Reading, put_ipv4, put_ipv6};
use crate::pieces::segment::Segment;
use std::alloc::AllocError;

/// Puts a text that needs no escape in front, as a string.
#[inline(always)]
#[tactic(auto, using(crate::proofs::Json::string_text, crate::proofs::Sets::joins))]
fn put_string(piece: &mut Segment, text: &str)
    requires plain { IsUnescaped text.now }
    requires room { 2 + length text.now + length piece.old ≤ 248 }
    ensures text { piece.new ≡ value_text (string text.now) ++ piece.old }
    ensures len { length piece.new ≡ 2 + length text.now + length piece.old }
{
    piece.put("\"");
    piece.put(text);
    piece.put("\"");
}

/// Puts bytes in front, as a string of hexadecimal digits.
#[inline(always)]
#[tactic(auto, using(crate::proofs::Json::string_text, crate::proofs::Sets::joins, crate::proofs::Unescaped::digits_unescaped))]
fn put_digits(piece: &mut Segment, bytes: &[u8])
    requires { 2 + 2 * length bytes.now + length piece.old ≤ 248 }
    ensures text { piece.new ≡ value_text (digits bytes.now) ++ piece.old }
    ensures len { length piece.new ≡ 2 + 2 * length bytes.now + length piece.old }
{
    piece.put("\"");
    piece.put_digits(bytes);
    piece.put("\"");
}

/// Puts an address of IPv4 in front, as a string.
#[inline(always)]
#[tactic(auto, using(crate::proofs::Json::string_text, crate::proofs::Sets::joins, crate::proofs::Unescaped::ipv4_unescaped))]
pub(crate) fn put_ipv4_string(piece: &mut Segment, address: &[u8; 4])
    requires { 35 + length piece.old ≤ 248 }
    ensures text { piece.new ≡ value_text (string (ipv4_text address.now)) ++ piece.old }
    ensures len { length piece.new ≤ 17 + length piece.old }
{
    piece.put("\"");
    put_ipv4(piece, *address);
    piece.put("\"");
}

/// Puts an address of IPv6 in front, as a string.
#[inline(always)]
#[tactic(auto, using(crate::proofs::Json::string_text, crate::proofs::Sets::joins, crate::proofs::Unescaped::ipv6_unescaped))]
pub(crate) fn put_ipv6_string(piece: &mut Segment, address: &[u8; 16])
    requires { 41 + length piece.old ≤ 248 }
    ensures text { piece.new ≡ value_text (string (ipv6_text address.now)) ++ piece.old }
    ensures len { length piece.new ≤ 41 + length piece.old }
{
    piece.put("\"");
    put_ipv6(piece, address);
    piece.put("\"");
}

/// Puts the value of a payload in front.
#[inline(always)]
#[tactic(auto, unfolding(crate::specs::MessagesJson::reading_json), using(crate::proofs::Json::number_text))]
fn put_value(piece: &mut Segment, reading: Reading<'_>)
    requires ready { IsReady (reading_view reading) }
    requires room { 130 + length piece.old ≤ 248 }
    ensures text { piece.new ≡ value_text (reading_json (reading_view reading.entry)) ++ piece.old }
    ensures len { length piece.new ≤ 130 + length piece.old }
{
    match reading {
        Reading::U8(number) => piece.put_number(number.into()),
        Reading::U16(number) => piece.put_number(number.into()),
        Reading::U32(number) => piece.put_number(number.into()),
        Reading::Text(text) => put_string(piece, text),
        Reading::Ipv4(address) => put_ipv4_string(piece, &address),
        Reading::Ipv6(address) => put_ipv6_string(piece, &address),
        Reading::Hex(bytes) => put_digits(piece, bytes),
    }
}

/// Whether a value fits into the segment of its object: it is short, and needs no escape.
#[inline(always)]
pub(crate) fn is_ready(reading: Reading<'_>) -> bool
    ensures { result ≡ true → IsReady (reading_view reading.entry) }
{
    match reading {
        Reading::Text(text) => text.len() <= LONGEST_TEXT && is_unescaped(text.as_bytes()),
        Reading::Hex(bytes) => bytes.len() <= MOST_BYTES,
        _ => true,
    }
}

/// Puts the form of a payload in front, and the key of its value.
#[inline(always)]
#[tactic(auto, unfolding(json::specs::Print::print_from, json::specs::Print::escape_byte, crate::specs::Values::reading_word))]
fn put_form(piece: &mut Segment, reading: Reading<'_>)
    requires { 23 + length piece.old ≤ 248 }
    ensures text { piece.new ≡ print (form_tokens (reading_view reading.entry)) ++ piece.old }
    ensures len { length piece.new ≤ 23 + length piece.old }
{
    match reading {
        Reading::U8(_) => piece.put("\"form\":\"u8\",\"value\":"),
        Reading::U16(_) => piece.put("\"form\":\"u16\",\"value\":"),
        Reading::U32(_) => piece.put("\"form\":\"u32\",\"value\":"),
        Reading::Text(_) => piece.put("\"form\":\"text\",\"value\":"),
        Reading::Ipv4(_) => piece.put("\"form\":\"ipv4\",\"value\":"),
        Reading::Ipv6(_) => piece.put("\"form\":\"ipv6\",\"value\":"),
        Reading::Hex(_) => piece.put("\"form\":\"hex\",\"value\":"),
    }
}

/// Puts the form and the value of a payload in front.
#[inline(always)]
#[tactic(auto, using(crate::proofs::Json::form_text, crate::proofs::Sets::joins))]
pub(crate) fn put_reading(piece: &mut Segment, reading: Reading<'_>)
    requires ready { IsReady (reading_view reading) }
    requires room { 153 + length piece.old ≤ 248 }
    ensures text { piece.new
        ≡ print (fields_tokens (reading_fields (reading_view reading.entry))) ++ piece.old }
    ensures len { length piece.new ≤ 153 + length piece.old }
{
    put_value(piece, reading);
    put_form(piece, reading);
}

/// Writes the form of a payload, and the key of its value.
#[inline(always)]
#[tactic(auto, using(crate::proofs::Json::tokens_put, crate::proofs::Sets::whole_value))]
fn push_form(line: &mut Line, reading: Reading<'_>) -> Result<(), AllocError>
    ensures { OnOk result (line.new ≡ line.old ⊕ form_tokens (reading_view reading.entry)) }
{
    let mut piece = Segment::new();
    put_form(&mut piece, reading);
    line.piece(&mut piece, false)
}

/// Writes the value of a payload.
#[inline(always)]
#[tactic(auto, unfolding(crate::specs::MessagesJson::reading_json), using(crate::proofs::Json::value_together, crate::proofs::Sets::whole_value))]
pub(crate) fn push_value(line: &mut Line, reading: Reading<'_>) -> Result<(), AllocError>
    ensures { OnOk result
        (line.new ≡ line.old ⊕ json_tokens (reading_json (reading_view reading.entry))) }
{
    match reading {
        Reading::Text(text) => line.string(text),
        Reading::Hex(bytes) => line.hex(bytes),
        _ => {
            let mut piece = Segment::new();
            put_value(&mut piece, reading);
            line.piece(&mut piece, true)
        }
    }
}

/// Writes the form and the value of a payload.
#[tactic(auto, unfolding(crate::specs::MessagesJson::reading_fields, crate::specs::Json::fields_tokens), using(crate::proofs::Sets::whole_value))]
pub(crate) fn push_reading(line: &mut Line, reading: Reading<'_>) -> Result<(), AllocError>
    ensures { OnOk result
        (line.new ≡ line.old ⊕ fields_tokens (reading_fields (reading_view reading.entry))) }
{
    push_form(line, reading)?;
    push_value(line, reading)
}
