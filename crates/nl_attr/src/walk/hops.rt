//! The iterator over the next hops of a region, `rtnexthop` of linux/rtnetlink.h.

ghost use Rattle.std.specs.Prelude.{◌≡◌, ◌+◌, ◌≤◌, length, Ok};
ghost use Rattle.nl_attr.specs.Fixed as fixed;
ghost use Rattle.nl_attr.specs.Numbers.{span_of};
ghost use Rattle.nl_attr.specs.Walk.{HeadIs, IsHopPart, IsInFront, ifindex_of};

use crate::fault::Fault;
use crate::order::Order;
use crate::walk::{head_len, span_at};
use std::marker::Model;

/// `rtnh_ifindex` of the next hop at the front: the index of its interface.
fn ifindex_at(order: Order, left: &[u8]) -> i32
    requires { 8 ≤ length left.now }
    ensures { result ≡ ifindex_of order left.now }
{
    order.read_i32(&left[4..])
}

/// A next hop where it lies in its region, with its attributes as borrowed bytes.
#[derive(Clone, Copy, Debug, PartialEq, Eq)]
pub struct HopPart<'a> {
    /// `rtnh_flags`: the `RTNH_F` bits.
    pub flags: u8,
    /// `rtnh_hops`: the weight less one.
    pub hops: u8,
    /// `rtnh_ifindex`: the index of the interface.
    pub ifindex: i32,
    /// The offset of its header, in bytes from the region's start.
    pub place: u32,
    /// How many bytes it occupies: its header, its attributes, and its padding as far as present.
    pub span: u32,
    /// The bytes behind its header, a region of attributes, which `Attrs` goes over.
    pub rest: &'a [u8],
}

/// The next hop of `len` bytes at the front, whose header has been validated.
#[tactic(auto, using(crate::proofs::Lemmas::Numbers::signed))]
fn hop_part(order: Order, left: &[u8], len: usize, place: u32, span: u32) -> HopPart<'_>
    requires sound { HeadIs order 8 2 left.now (Ok len) }
    requires span { span ≡ span_of order 2 left.now }
    ensures { IsHopPart result (record { order = order; place = place; left = left.now }) }
{
    HopPart {
        flags: left[2],
        hops: left[3],
        ifindex: ifindex_at(order, left),
        place,
        span,
        rest: &left[8..len],
    }
}

/// The next hop at the front of `left`, the rest of a region from offset `place` on. The error is
/// the rule that its header breaks, with the offset `place`.
#[inline(always)]
pub(super) fn hop_in_front(order: Order, left: &[u8], place: u32) -> Result<HopPart<'_>, Fault>
    requires { length left.now ≤ fixed.LONGEST_REGION }
    ensures { IsInFront 8 IsHopPart
        (record { order = order; place = place; left = left.now }) result }
{
    match head_len(order, left, 8) {
        Err(reason) => Err(Fault { place, reason }),
        Ok(len) => Ok(hop_part(order, left, len, place, span_at(left, len) as u32)),
    }
}

/// An iterator over the next hops of a region, in the order of their offsets. It ends as `Attrs`
/// does.
#[derive(Debug, Drop)]
#[must_use = "iterators are lazy and do nothing unless consumed"]
pub struct HopParts<'a> {
    left: &'a [u8],
    place: u32,
    order: Order,
}

impl<'a> Model for HopParts<'a> {
    ghost use Rattle.std.specs.Prelude.{◌+◌, ◌≤◌, length};
    ghost use Rattle.nl_attr.specs.Walk.{Region};
    ghost use Rattle.nl_attr.specs.Fixed.{LONGEST_REGION};

    ghost Value = { Region };

    ghost view = { λ a. record { order = a.order; place = a.place; left = a.left.now } };

    ghost invariant = { λ a. a.place + length a.left.now ≤ LONGEST_REGION };
}

impl<'a> HopParts<'a> {
    ghost use Rattle.nl_attr.specs.Walk.{IsHopsOver};

    /// Iterates over a region in little-endian byte order.
    pub fn of(bytes: &'a [u8]) -> Self
        requires { length bytes.now ≤ fixed.LONGEST_REGION }
        ensures { IsHopsOver Order.Little bytes.now result }
    {
        HopParts::of_ordered(bytes, Order::Little)
    }

    /// Iterates over a region in this byte order.
    pub fn of_ordered(bytes: &'a [u8], order: Order) -> Self
        requires { length bytes.now ≤ fixed.LONGEST_REGION }
        ensures { IsHopsOver order bytes.now result }
    {
        HopParts {
            order,
            left: bytes,
            place: 0,
        }
    }

    /// How many bytes the next hops yielded so far occupy: the sum of their spans.
    pub fn seen(&self) -> u64
        ensures { result ≡ self.now.place }
    {
        self.place as u64
    }
}

impl<'a> Iterator for HopParts<'a> {
    ghost use Rattle.std.specs.Prelude.{length};
    ghost use Rattle.std.specs.Iterator.{at_most};
    ghost use Rattle.nl_attr.specs.Walk.{GivesHop};

    type Item = Result<HopPart<'a>, Fault>;

    ghost next_gives = { GivesHop };

    ghost remaining = { λ w. at_most (length w.left) };

    fn next(&mut self) -> Option<Result<HopPart<'a>, Fault>> {
        let left = self.left;
        if left.is_empty() {
            return None;
        }
        match hop_in_front(self.order, left, self.place) {
            Err(fault) => {
                self.left = &left[left.len()..];
                Some(Err(fault))
            }
            Ok(part) => {
                self.left = &left[part.span as usize..];
                self.place += part.span;
                Some(Ok(part))
            }
        }
    }
}
