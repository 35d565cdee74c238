//! The pieces that text is put together from.

ghost use Rattle.std.specs.Prelude.{◌≡◌, ◌≤◌, ◌<◌, ◌*◌, ◌++◌, OnOk, decimal, length, slice_index};
ghost use Rattle.hex.specs.Hex.{encode_lower, lower_digits};
ghost use Rattle.rtnl.specs.Text.{hex_text};

pub(crate) mod colours;
pub(crate) mod segment;

use itoa::Buffer;
use std::alloc::AllocError;

/// Appends words.
#[inline(always)]
pub(crate) fn push(out: &mut Vec<u8>, words: &str) -> Result<(), AllocError>
    ensures { OnOk result (out.new.items ≡ out.old.items ++ words.now) }
{
    out.extend_from_slice(words.as_bytes())
}

/// Appends a number in decimal.
#[inline(always)]
pub(crate) fn push_decimal(out: &mut Vec<u8>, number: u64) -> Result<(), AllocError>
    ensures { OnOk result (out.new.items ≡ out.old.items ++ decimal number) }
{
    let mut buffer = Buffer::new();
    push(out, buffer.format(number))
}

/// The digit of a number below 16.
#[inline(always)]
fn digit(number: u8) -> u8
    requires { number < 16 }
    ensures { result ≡ slice_index lower_digits number }
{
    if number < 10 {
        b'0' + number
    } else {
        b'a' - 10 + number
    }
}

/// Writes bytes in hexadecimal digits. Without table look-ups, so that the compiler can vectorize
/// the loop.
#[inline(always)]
pub(crate) fn encode(bytes: &[u8], digits: &mut [u8])
    requires { length digits.old ≡ 2 * length bytes.now }
    ensures { digits.new ≡ encode_lower bytes.now }
{
    for i in 0..bytes.len() {
        digits[2 * i] = digit(bytes[i] / 16);
        digits[2 * i + 1] = digit(bytes[i] % 16);
    }
}

/// How many bytes are written in digits at a time.
const CHUNK: usize = 32;

/// Appends at most 32 bytes in hexadecimal digits.
#[inline(always)]
fn push_chunk(out: &mut Vec<u8>, bytes: &[u8]) -> Result<(), AllocError>
    requires { length bytes.now ≤ 32 }
    ensures { OnOk result (out.new.items ≡ out.old.items ++ encode_lower bytes.now) }
{
    let mut buffer = [0; 2 * CHUNK];
    let digits = &mut buffer[..2 * bytes.len()];
    encode(bytes, digits);
    out.extend_from_slice(digits)
}

/// Appends bytes in hexadecimal digits.
pub(crate) fn push_digits(out: &mut Vec<u8>, bytes: &[u8]) -> Result<(), AllocError>
    ensures { OnOk result (out.new.items ≡ out.old.items ++ encode_lower bytes.now) }
{
    let mut rest = bytes;
    while rest.len() > CHUNK {
        let (chunk, others) = rest.split_at(CHUNK);
        push_chunk(out, chunk)?;
        rest = others;
    }
    push_chunk(out, rest)
}

/// Appends bytes in hexadecimal digits, or a dash where there are none.
#[tactic(auto, unfolding(crate::specs::Text::hex_text))]
pub(crate) fn push_hex(out: &mut Vec<u8>, bytes: &[u8]) -> Result<(), AllocError>
    ensures { OnOk result (out.new.items ≡ out.old.items ++ hex_text bytes.now) }
{
    if bytes.is_empty() {
        return push(out, "-");
    }
    push_digits(out, bytes)
}
