//! Short text that is put together from its end.

ghost use Rattle.std.specs.Prelude.{◌≡◌, ◌≤◌, ◌+◌, ◌*◌, [], ◌++◌, length, decimal, OnOk};
ghost use Rattle.std.specs.Fmt.{signed_decimal};
ghost use Rattle.hex.specs.Hex.{encode_lower};
ghost use Rattle.rtnl.specs.Text.{padded_hex};

use crate::pieces::encode;
use itoa::write_digits;
use std::alloc::AllocError;
use std::marker::Model;

/// How many bytes there is room for: with its start a segment has 256, which LLVM clears in place.
const ROOM: usize = 248;

/// Short text that is put together on the stack, each piece in front of those that stand. A number
/// is written where it stays, and the whole is copied once.
#[derive(Drop)]
pub(crate) struct Segment {
    buffer: [u8; ROOM],
    start: usize,
}

impl Model for Segment {
    ghost use Rattle.std.specs.Prelude.{List, ℕ, ◌≤◌, drop};

    ghost Value = { List ℕ };

    ghost view = { λ s. drop s.start s.buffer };

    ghost invariant = { λ s. s.start ≤ 248 };
}

impl Segment {
    /// No text.
    #[inline(always)]
    pub(crate) fn new() -> Segment
        ensures { result ≡ [] }
    {
        Segment {
            buffer: [0; ROOM],
            start: ROOM,
        }
    }

    /// Puts words in front.
    #[inline(always)]
    pub(crate) fn put(&mut self, words: &str)
        requires { length words.now + length self.old ≤ 248 }
        ensures text { self.new ≡ words.now ++ self.old }
        ensures len { length self.new ≡ length words.now + length self.old }
    {
        let words = words.as_bytes();
        let start = self.start - words.len();
        self.buffer[start..self.start].copy_from_slice(words);
        self.start = start;
    }

    /// Puts a number in front, in decimal.
    #[inline(always)]
    pub(crate) fn put_number(&mut self, number: u64)
        requires { 20 + length self.old ≤ 248 }
        ensures text { self.new ≡ decimal number ++ self.old }
        ensures len { length self.new ≤ 20 + length self.old }
    {
        self.start = write_digits(number, &mut self.buffer, self.start);
    }

    /// Puts a signed number in front, in decimal.
    #[inline(always)]
    #[tactic(auto, using(crate::proofs::Digits::below_zero, crate::proofs::Digits::not_below_zero))]
    pub(crate) fn put_signed(&mut self, number: i64)
        requires { 21 + length self.old ≤ 248 }
        ensures text { self.new ≡ signed_decimal number ++ self.old }
        ensures len { length self.new ≤ 21 + length self.old }
    {
        self.put_number(number.unsigned_abs());
        if number < 0 {
            self.put("-");
        }
    }

    /// Puts a number in front, behind its words.
    #[inline(always)]
    pub(crate) fn put_field(&mut self, words: &str, number: u64)
        requires { length words.now + 20 + length self.old ≤ 248 }
        ensures text { self.new ≡ words.now ++ (decimal number ++ self.old) }
        ensures len { length self.new ≤ length words.now + 20 + length self.old }
    {
        self.put_number(number);
        self.put(words);
    }

    /// Puts a number of one byte in front, behind its words.
    #[inline(always)]
    pub(crate) fn put_small(&mut self, words: &str, number: u8)
        requires { length words.now + 20 + length self.old ≤ 248 }
        ensures text { self.new ≡ words.now ++ (decimal number ++ self.old) }
        ensures len { length self.new ≤ length words.now + 3 + length self.old }
    {
        self.put_field(words, number as u64);
    }

    /// Puts a number of two bytes in front, in decimal.
    #[inline(always)]
    fn put_u16(&mut self, number: u16)
        requires { 5 + length self.old ≤ 248 }
        ensures text { self.new ≡ decimal number ++ self.old }
        ensures len { length self.new ≤ 5 + length self.old }
    {
        self.start = write_digits(number as u64, &mut self.buffer, self.start);
    }

    /// Puts a number of two bytes in front, behind its words.
    #[inline(always)]
    pub(crate) fn put_short(&mut self, words: &str, number: u16)
        requires { length words.now + 5 + length self.old ≤ 248 }
        ensures text { self.new ≡ words.now ++ (decimal number ++ self.old) }
        ensures len { length self.new ≤ length words.now + 5 + length self.old }
    {
        self.put_u16(number);
        self.put(words);
    }

    /// Puts bytes in front, in hexadecimal digits.
    #[inline(always)]
    pub(crate) fn put_digits(&mut self, bytes: &[u8])
        requires { 2 * length bytes.now + length self.old ≤ 248 }
        ensures text { self.new ≡ encode_lower bytes.now ++ self.old }
        ensures len { length self.new ≡ 2 * length bytes.now + length self.old }
    {
        let start = self.start - 2 * bytes.len();
        encode(bytes, &mut self.buffer[start..self.start]);
        self.start = start;
    }

    /// Puts a number in front, in two hexadecimal digits.
    #[inline(always)]
    #[tactic(auto, using(crate::proofs::Digits::two_digits))]
    pub(crate) fn put_hex2(&mut self, number: u8)
        requires { 2 + length self.old ≤ 248 }
        ensures text { self.new ≡ padded_hex 2 number ++ self.old }
        ensures len { length self.new ≡ 2 + length self.old }
    {
        self.put_digits(&[number]);
    }

    /// Puts a number in front, in four hexadecimal digits.
    #[inline(always)]
    #[tactic(auto, using(crate::proofs::Digits::four_digits))]
    pub(crate) fn put_hex4(&mut self, number: u16)
        requires { 4 + length self.old ≤ 248 }
        ensures text { self.new ≡ padded_hex 4 number ++ self.old }
        ensures len { length self.new ≡ 4 + length self.old }
    {
        self.put_digits(&[(number / 256) as u8, (number % 256) as u8]);
    }

    /// Puts a number in front, in eight hexadecimal digits.
    #[inline(always)]
    #[tactic(auto, using(crate::proofs::Digits::eight_digits, std::proofs::Common::append_assoc))]
    pub(crate) fn put_hex8(&mut self, number: u32)
        requires { 8 + length self.old ≤ 248 }
        ensures text { self.new ≡ padded_hex 8 number ++ self.old }
        ensures len { length self.new ≡ 8 + length self.old }
    {
        self.put_hex4((number % 65536) as u16);
        self.put_hex4((number / 65536) as u16);
    }

    /// The text.
    #[inline(always)]
    pub(crate) fn as_bytes(&self) -> &[u8]
        ensures { result.now ≡ self.now }
    {
        &self.buffer[self.start..]
    }

    /// Appends the text.
    #[inline(always)]
    pub(crate) fn push_to(&self, out: &mut Vec<u8>) -> Result<(), AllocError>
        ensures { OnOk result (out.new.items ≡ out.old.items ++ self.now) }
    {
        out.extend_from_slice(self.as_bytes())
    }
}
