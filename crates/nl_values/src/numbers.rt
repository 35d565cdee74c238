//! Numbers of all sizes, signs and byte orders.

ghost use Rattle.std.specs.Prelude.{◌≡◌, ◌≤◌, ◌<◌, length};
ghost use Rattle.std.specs.Option.{option_map};
ghost use Rattle.nl_attr.specs.Numbers.{number_of};
ghost use Rattle.nl_values.specs.Numbers.{integer_at, integer_in, integer_of, integer_view};
ghost use Rattle.nl_values.specs.Numbers.{raw_of, size_of};

use crate::format::Number;
use byteorder::{BigEndian, ByteOrder, LittleEndian};
use nl_attr::Order;

/// A number that was read.
#[derive(Clone, Copy, Debug, PartialEq, Eq)]
pub enum Integer {
    /// One without a sign.
    Unsigned(u64),
    /// One in two's complement.
    Signed(i64),
}

/// The first eight bytes as a number in this byte order.
fn read_u64(order: Order, bytes: &[u8]) -> u64
    requires { 8 ≤ length bytes.now }
    ensures { result ≡ number_of order 8 bytes.now }
{
    match order {
        Order::Little => LittleEndian::read_u64(bytes),
        Order::Big => BigEndian::read_u64(bytes),
    }
}

impl Number {
    /// How many bytes it has: 1, 2, 4 or 8.
    pub fn size(self) -> usize
        ensures value { result ≡ size_of self }
        ensures some { 0 < result }
    {
        match self {
            Number::U8 | Number::I8 => 1,
            Number::U16 | Number::I16 | Number::NetworkU16 => 2,
            Number::U32 | Number::I32 | Number::NetworkU32 => 4,
            Number::U64 | Number::I64 | Number::NetworkU64 => 8,
        }
    }

    /// The number in bytes of its size, in a message of this byte order.
    pub fn integer(self, order: Order, bytes: &[u8]) -> Integer
        requires { length bytes.now ≡ size_of self }
        ensures { integer_view result ≡ integer_of self order bytes.now }
    {
        match self {
            Number::U8 => Integer::Unsigned(u64::from(bytes[0])),
            Number::U16 => Integer::Unsigned(u64::from(order.read_u16(bytes))),
            Number::U32 => Integer::Unsigned(u64::from(order.read_u32(bytes))),
            Number::U64 => Integer::Unsigned(read_u64(order, bytes)),
            Number::I8 => Integer::Signed(i64::from(bytes[0].cast_signed())),
            Number::I16 => Integer::Signed(i64::from(order.read_u16(bytes).cast_signed())),
            Number::I32 => Integer::Signed(i64::from(order.read_i32(bytes))),
            Number::I64 => Integer::Signed(read_u64(order, bytes).cast_signed()),
            Number::NetworkU16 => Integer::Unsigned(u64::from(Order::Big.read_u16(bytes))),
            Number::NetworkU32 => Integer::Unsigned(u64::from(Order::Big.read_u32(bytes))),
            Number::NetworkU64 => Integer::Unsigned(read_u64(Order::Big, bytes)),
        }
    }

    /// The bits of the number in bytes of its size, as a number without a sign.
    pub(crate) fn raw(self, order: Order, bytes: &[u8]) -> u64
        requires { length bytes.now ≡ size_of self }
        ensures { result ≡ raw_of self order bytes.now }
    {
        match self {
            Number::U8 | Number::I8 => u64::from(bytes[0]),
            Number::U16 | Number::I16 => u64::from(order.read_u16(bytes)),
            Number::U32 | Number::I32 => u64::from(order.read_u32(bytes)),
            Number::U64 | Number::I64 => read_u64(order, bytes),
            Number::NetworkU16 => u64::from(Order::Big.read_u16(bytes)),
            Number::NetworkU32 => u64::from(Order::Big.read_u32(bytes)),
            Number::NetworkU64 => read_u64(Order::Big, bytes),
        }
    }

    /// The number that these bytes are, in a message of this byte order. `None` where there are
    /// fewer or more than its size.
    pub fn read(self, order: Order, bytes: &[u8]) -> Option<Integer>
        ensures { option_map integer_view result ≡ integer_in self order bytes.now }
    {
        if bytes.len() != self.size() {
            return None;
        }
        Some(self.integer(order, bytes))
    }

    /// The number of this index in numbers, one behind the other. `None` where they are fewer.
    pub fn read_at(self, order: Order, bytes: &[u8], index: u16) -> Option<Integer>
        ensures { option_map integer_view result ≡ integer_at self order bytes.now index }
    {
        let size = self.size();
        let from = usize::from(index) * size;
        if bytes.len() < from + size {
            return None;
        }
        self.read(order, &bytes[from..from + size])
    }
}
