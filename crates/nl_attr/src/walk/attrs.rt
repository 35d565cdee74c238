//! The iterator over the attributes of a region.

ghost use Rattle.std.specs.Prelude.{◌≡◌, ◌+◌, ◌≤◌, length};
ghost use Rattle.nl_attr.specs.Fixed as fixed;
ghost use Rattle.nl_attr.specs.Walk.{IsInFront, IsPart};

use crate::fault::Fault;
use crate::order::Order;
use crate::tree::{AttrFlags, NUMBERS};
use crate::walk::{flags_in, head_len, kind_at, span_at};
use std::marker::Model;

/// An attribute where it lies in its region, with a borrowed payload.
#[derive(Clone, Copy, Debug, PartialEq, Eq)]
pub struct Part<'a> {
    /// The type without its two flag bits: below 16,384.
    pub number: u16,
    /// The two flag bits of the type.
    pub flags: AttrFlags,
    /// The offset of its header, in bytes from the region's start.
    pub place: u32,
    /// How many bytes it occupies: its header, its payload, and its padding as far as present.
    pub span: u32,
    /// The payload, without padding.
    pub payload: &'a [u8],
}

/// The attribute at the front of `left`, the rest of a region from offset `place` on. The error is
/// the rule that its header breaks, with the offset `place`.
#[inline(always)]
pub(super) fn attr_in_front(order: Order, left: &[u8], place: u32) -> Result<Part<'_>, Fault>
    requires { length left.now ≤ fixed.LONGEST_REGION }
    ensures { IsInFront 4 IsPart
        (record { order = order; place = place; left = left.now }) result }
{
    match head_len(order, left, 4) {
        Err(reason) => Err(Fault { place, reason }),
        Ok(len) => {
            let kind = kind_at(order, left);
            Ok(Part {
                number: kind % NUMBERS,
                flags: flags_in(kind),
                place,
                span: span_at(left, len) as u32,
                payload: &left[4..len],
            })
        }
    }
}

/// An iterator over the attributes of a region, in the order of their offsets.
///
/// Where a header breaks a rule, `Cut` or `BadLength`, it yields that error, and then `None`.
#[derive(Debug, Drop)]
#[must_use = "iterators are lazy and do nothing unless consumed"]
pub struct Attrs<'a> {
    left: &'a [u8],
    place: u32,
    order: Order,
}

impl<'a> Model for Attrs<'a> {
    ghost use Rattle.std.specs.Prelude.{◌+◌, ◌≤◌, length};
    ghost use Rattle.nl_attr.specs.Walk.{Region};
    ghost use Rattle.nl_attr.specs.Fixed.{LONGEST_REGION};

    ghost Value = { Region };

    ghost view = { λ a. record { order = a.order; place = a.place; left = a.left.now } };

    ghost invariant = { λ a. a.place + length a.left.now ≤ LONGEST_REGION };
}

impl<'a> Attrs<'a> {
    ghost use Rattle.nl_attr.specs.Walk.{IsAttrsOver};

    /// Iterates over a region in little-endian byte order.
    pub fn of(bytes: &'a [u8]) -> Self
        requires { length bytes.now ≤ fixed.LONGEST_REGION }
        ensures { IsAttrsOver Order.Little bytes.now result }
    {
        Attrs::of_ordered(bytes, Order::Little)
    }

    /// Iterates over a region in this byte order.
    pub fn of_ordered(bytes: &'a [u8], order: Order) -> Self
        requires { length bytes.now ≤ fixed.LONGEST_REGION }
        ensures { IsAttrsOver order bytes.now result }
    {
        Attrs {
            order,
            left: bytes,
            place: 0,
        }
    }

    /// How many bytes the attributes yielded so far occupy: the sum of their spans.
    pub fn seen(&self) -> u64
        ensures { result ≡ self.now.place }
    {
        self.place as u64
    }
}

impl<'a> Iterator for Attrs<'a> {
    ghost use Rattle.std.specs.Prelude.{length};
    ghost use Rattle.std.specs.Iterator.{at_most};
    ghost use Rattle.nl_attr.specs.Walk.{GivesPart};

    type Item = Result<Part<'a>, Fault>;

    ghost next_gives = { GivesPart };

    ghost remaining = { λ w. at_most (length w.left) };

    fn next(&mut self) -> Option<Result<Part<'a>, Fault>> {
        let left = self.left;
        if left.is_empty() {
            return None;
        }
        match attr_in_front(self.order, left, self.place) {
            Err(fault) => {
                self.left = &left[left.len()..];
                Some(Err(fault))
            }
            Ok(part) => {
                self.left = &left[part.span as usize..];
                self.place += part.span;
                Some(Ok(part))
            }
        }
    }
}
