//! Looking up an attribute by its type, and decoding its payload as a number or a text.

ghost use Rattle.std.specs.Prelude.{◌≡◌, ◌==◌};
ghost use Rattle.std.specs.List.{position, position_or_len};
ghost use Rattle.std.specs.Option.{option_map, option_copied};
ghost use Rattle.nl_attr.specs.View.{attrs_view, value_view};
ghost use Rattle.nl_attr.specs.Views.{entry_of, first_of, bytes_in, number_in, text_in};

use crate::order::Order;
use crate::tree::{Attr, Value};

/// The first attribute of this type in a list. `None` where the list has none.
pub fn find(attrs: &[Attr], number: u16) -> Option<&Attr>
    ensures { option_map (λ a. entry_of a.now) result ≡ first_of (attrs_view attrs.now) number }
{
    for attr in attrs {
        if attr.number == number {
            return Some(attr);
        }
    }
    None
}

/// The index of the first zero byte.
fn zero_at(bytes: &[u8]) -> Option<usize>
    ensures { result ≡ position (λ b. b == 0) bytes.now }
{
    bytes.iter().position(|b| *b == 0)
}

/// The length of the text at the front: up to the first zero byte, or all bytes without one.
#[tactic(auto, using(crate::proofs::Lemmas::Texts::or_all))]
fn text_len(bytes: &[u8]) -> usize
    ensures { result ≡ position_or_len (λ b. b == 0) bytes.now }
{
    zero_at(bytes).unwrap_or(bytes.len())
}

impl Attr {
    /// The payload. `None` for an attribute that holds attributes or next hops.
    pub fn bytes(&self) -> Option<&[u8]>
        ensures { option_copied result ≡ bytes_in (value_view self.now.value) }
    {
        match &self.value {
            Value::Bytes(payload) => Some(payload.as_slice()),
            _ => None,
        }
    }

    /// The payload up to its first zero byte, or all of it where it has none. `None` for an
    /// attribute that holds attributes or next hops.
    pub fn text(&self) -> Option<&[u8]>
        ensures { option_copied result ≡ text_in (value_view self.now.value) }
    {
        match self.bytes() {
            None => None,
            Some(bytes) => {
                let end = text_len(bytes);
                Some(&bytes[..end])
            }
        }
    }

    /// The first byte of the payload. `None` where the payload is shorter, or isn't bytes.
    pub fn u8_value(&self) -> Option<u8>
        ensures { result ≡ number_in Order.Little 1 (value_view self.now.value) }
    {
        match self.bytes() {
            Some(bytes) if !bytes.is_empty() => Some(bytes[0]),
            _ => None,
        }
    }

    /// The first two bytes of the payload as a little-endian number. `None` where the payload is
    /// shorter, or isn't bytes.
    ///
    /// For messages of the other byte order call `u16_value_ordered`.
    pub fn u16_value(&self) -> Option<u16>
        ensures { result ≡ number_in Order.Little 2 (value_view self.now.value) }
    {
        self.u16_value_ordered(Order::Little)
    }

    /// The first two bytes of the payload as a number in this byte order. `None` where the payload
    /// is shorter, or isn't bytes.
    pub fn u16_value_ordered(&self, order: Order) -> Option<u16>
        ensures { result ≡ number_in order 2 (value_view self.now.value) }
    {
        match self.bytes() {
            Some(bytes) if bytes.len() >= 2 => Some(order.read_u16(bytes)),
            _ => None,
        }
    }

    /// The first four bytes of the payload as a little-endian number. `None` where the payload is
    /// shorter, or isn't bytes.
    ///
    /// For messages of the other byte order call `u32_value_ordered`.
    pub fn u32_value(&self) -> Option<u32>
        ensures { result ≡ number_in Order.Little 4 (value_view self.now.value) }
    {
        self.u32_value_ordered(Order::Little)
    }

    /// The first four bytes of the payload as a number in this byte order. `None` where the
    /// payload is shorter, or isn't bytes.
    pub fn u32_value_ordered(&self, order: Order) -> Option<u32>
        ensures { result ≡ number_in order 4 (value_view self.now.value) }
    {
        match self.bytes() {
            Some(bytes) if bytes.len() >= 4 => Some(order.read_u32(bytes)),
            _ => None,
        }
    }

    /// The first two bytes of the payload as a number in network byte order, as ports have it in
    /// messages of either order. `None` where the payload is shorter, or isn't bytes.
    pub fn be16_value(&self) -> Option<u16>
        ensures { result ≡ number_in Order.Big 2 (value_view self.now.value) }
    {
        self.u16_value_ordered(Order::Big)
    }
}
