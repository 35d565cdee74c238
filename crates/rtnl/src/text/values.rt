//! How a payload is printed.

ghost use Rattle.std.specs.Prelude.{◌≡◌, ◌≤◌, ◌*◌, ◌+◌, ◌++◌, OnOk, length, true};
ghost use Rattle.rtnl.specs.Values.{IsShort, reading_view, value_text};
ghost use Rattle.rtnl.specs.Text.{hex_text};

use crate::names::values::{LONGEST_TEXT, MOST_BYTES, Reading, put_ipv4, put_ipv6};
use crate::pieces::segment::Segment;
use crate::pieces::{push, push_hex};
use std::alloc::AllocError;

/// Puts bytes in front, in hexadecimal digits, or a dash where there are none.
#[inline(always)]
#[tactic(auto, unfolding(crate::specs::Text::hex_text))]
fn put_hex(text: &mut Segment, bytes: &[u8])
    requires { 1 + 2 * length bytes.now + length text.old ≤ 248 }
    ensures text { text.new ≡ hex_text bytes.now ++ text.old }
    ensures len { length text.new ≤ 1 + 2 * length bytes.now + length text.old }
{
    if bytes.is_empty() {
        text.put("-");
    } else {
        text.put_digits(bytes);
    }
}

/// Whether what is read may be put together with its line.
#[inline(always)]
pub(crate) fn is_short(reading: Reading<'_>) -> bool
    ensures { result ≡ true → IsShort (reading_view reading.entry) }
{
    match reading {
        Reading::Text(text) => text.len() <= LONGEST_TEXT,
        Reading::Hex(bytes) => bytes.len() <= MOST_BYTES,
        _ => true,
    }
}

/// Puts the word for what is read in front, and what is read behind it.
#[inline(always)]
#[tactic(auto, unfolding(crate::specs::Values::value_text, crate::specs::Values::reading_word, crate::specs::Values::reading_text), using(crate::proofs::Sets::joins))]
pub(crate) fn put_value(text: &mut Segment, reading: Reading<'_>)
    requires short { IsShort (reading_view reading) }
    requires room { 140 + length text.old ≤ 248 }
    ensures text { text.new ≡ value_text (reading_view reading.entry) ++ text.old }
    ensures len { length text.new ≤ 140 + length text.old }
{
    match reading {
        Reading::U8(number) => text.put_field("u8 ", number as u64),
        Reading::U16(number) => text.put_field("u16 ", number as u64),
        Reading::U32(number) => text.put_field("u32 ", number as u64),
        Reading::Text(words) => {
            text.put(words);
            text.put("text ");
        }
        Reading::Ipv4(address) => {
            put_ipv4(text, address);
            text.put("ipv4 ");
        }
        Reading::Ipv6(address) => {
            put_ipv6(text, &address);
            text.put("ipv6 ");
        }
        Reading::Hex(bytes) => {
            put_hex(text, bytes);
            text.put("hex ");
        }
    }
}

/// Writes the word for what is read and what is read behind it, where that is too long to be put
/// together.
#[inline(never)]
#[tactic(auto, unfolding(crate::specs::Values::value_text, crate::specs::Values::reading_word, crate::specs::Values::reading_text), using(crate::proofs::Sets::joins))]
pub(crate) fn push_value(out: &mut Vec<u8>, reading: Reading<'_>) -> Result<(), AllocError>
    ensures { OnOk result
        (out.new.items ≡ out.old.items ++ value_text (reading_view reading.entry)) }
{
    match reading {
        Reading::Text(text) => {
            push(out, "text ")?;
            push(out, text)
        }
        Reading::Hex(bytes) => {
            push(out, "hex ")?;
            push_hex(out, bytes)
        }
        _ => {
            let mut text = Segment::new();
            put_value(&mut text, reading);
            text.push_to(out)
        }
    }
}
