//! Hexadecimal digits, many at a time.

ghost use Rattle.std.specs.Prelude.{◌≡◌, ◌<◌, true, false, length, Some, Ok, MatchResult};
ghost use Rattle.hex.specs.Hex.{decode_sized, hex_digit_value};

/// More than the value of any digit.
const NO_DIGIT: u8 = 16;

/// The value of a digit; at least 16 for any other byte. It is the least of three numbers. Without
/// table look-ups, so that the compiler can vectorize the loop.
#[inline(always)]
fn value(byte: u8) -> u8
    ensures { result < 16 → hex_digit_value byte ≡ Some result }
{
    let number = byte.wrapping_sub(b'0');
    let number = if number < 10 { number } else { NO_DIGIT };
    let upper = byte.wrapping_sub(b'A').saturating_add(10);
    let lower = byte.wrapping_sub(b'a').saturating_add(10);
    number.min(upper).min(lower)
}

/// Writes the bytes of pairs of digits, and says that it did. Where it does not say so, nothing is
/// known of them.
#[inline(always)]
fn decode_pairs(digits: &[u8], bytes: &mut [u8]) -> bool
    ensures { result ≡ true → decode_sized digits.now (length bytes.old) ≡ Ok bytes.new }
{
    if digits.len() % 2 != 0 || digits.len() / 2 != bytes.len() {
        return false;
    }
    let mut highest = 0u8;
    for i in 0..bytes.len() {
        let (high, low) = (value(digits[2 * i]), value(digits[2 * i + 1]));
        bytes[i] = high % 16 * 16 + low % 16;
        highest = highest.max(high).max(low);
    }
    highest < NO_DIGIT
}

/// Writes the bytes of digits, two for each byte, and says whether they are.
#[inline(always)]
pub(crate) fn decode(digits: &[u8], bytes: &mut [u8]) -> bool
    ensures { MatchResult (decode_sized digits.now (length bytes.old))
        (λ all. (result ≡ true) × (bytes.new ≡ all))
        (λ _. result ≡ false) }
{
    decode_pairs(digits, bytes) || hex::decode_to_slice(digits, bytes).is_ok()
}
