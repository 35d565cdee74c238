//! The walks of the crate's own reading, which count the bytes that they visit. A tree is read by
//! these alone, so that every visited byte is counted.

ghost use Rattle.std.specs.Prelude.{◌≡◌, ◌+◌, ◌≤◌, length, Ok};
ghost use Rattle.nl_attr.specs.Fixed as fixed;
ghost use Rattle.nl_attr.specs.Numbers.{kind_of};
ghost use Rattle.nl_attr.specs.Walk.{GivesHop, GivesPart, HeadIs, IsPart, after, span_given};
ghost use Rattle.nl_attr.specs.Steps.{given_by};

use crate::fault::{Fault, Reason};
use crate::order::Order;
use crate::tree::NUMBERS;
use crate::walk::{HopPart, HopParts, Part, flags_in, head_len, kind_at, len_at, span_at};
use std::marker::Model;

/// A walk over the attributes of a region that adds the span of each to a count.
#[derive(Drop)]
pub(crate) struct CountedAttrs<'a> {
    left: &'a [u8],
    place: u32,
    order: Order,
}

impl<'a> Model for CountedAttrs<'a> {
    ghost use Rattle.std.specs.Prelude.{◌+◌, ◌≤◌, length};
    ghost use Rattle.nl_attr.specs.Walk.{Region};
    ghost use Rattle.nl_attr.specs.Fixed.{LONGEST_REGION};

    ghost Value = { Region };

    ghost view = { λ c. record { order = c.order; place = c.place; left = c.left.now } };

    ghost invariant = { λ c. c.place + length c.left.now ≤ LONGEST_REGION };
}

/// One step of a walk over attributes. `Word`, `Plain` and `Flagged` are all attributes: they are
/// told apart for speed, so that the caller has separate code for each.
#[derive(Clone, Copy)]
pub(crate) enum Step<'a> {
    /// The region has ended.
    Ends,
    /// The header at this offset, from the region's start, breaks this rule.
    Fails(u32, Reason),
    /// An attribute of eight bytes without a flag bit, as most are.
    Word(Part<'a>),
    /// Any other attribute without a flag bit.
    Plain(Part<'a>),
    /// An attribute with a flag bit.
    Flagged(Part<'a>),
}

impl<'a> CountedAttrs<'a> {
    /// Begins a walk over a region in this byte order.
    pub(crate) fn over(bytes: &'a [u8], order: Order) -> Self
        requires { length bytes.now ≤ fixed.LONGEST_REGION }
        ensures { result ≡ record { order = order; place = 0; left = bytes.now } }
    {
        CountedAttrs {
            left: bytes,
            place: 0,
            order,
        }
    }

    /// Steps to the next attribute, and adds its span to `visits`. After `Fails` it answers
    /// `Ends`.
    #[inline(always)]
    pub(crate) fn step(&mut self, visits: &mut u64) -> Step<'a>
        requires { visits.old ≤ fixed.MOST_VISITS }
        ensures steps { GivesPart self.old (given_by result) self.new }
        ensures counts { visits.new ≡ visits.old + span_given (λ p. p.span) (given_by result) }
    {
        let (left, order) = (self.left, self.order);
        if left.len() >= 8 && len_at(order, left) == 8 && kind_at(order, left) < NUMBERS {
            return Step::Word(self.take(8, kind_at(order, left), visits));
        }
        if left.is_empty() {
            return Step::Ends;
        }
        match head_len(order, left, 4) {
            Err(reason) => {
                self.left = &left[left.len()..];
                Step::Fails(self.place, reason)
            }
            Ok(len) => {
                let kind = kind_at(order, left);
                if kind < NUMBERS {
                    Step::Plain(self.take(len, kind, visits))
                } else {
                    Step::Flagged(self.take(len, kind, visits))
                }
            }
        }
    }

    /// Takes the attribute of `len` bytes at the front, with this type field. Its header has been
    /// validated.
    #[inline(always)]
    fn take(&mut self, len: usize, kind: u16, visits: &mut u64) -> Part<'a>
        requires head { HeadIs self.old.order 4 2 self.old.left (Ok len) }
        requires kind { kind ≡ kind_of self.old.order self.old.left }
        requires room { visits.old ≤ fixed.MOST_VISITS }
        ensures part { IsPart result self.old }
        ensures after { self.new ≡ after self.old }
        ensures counts { visits.new ≡ visits.old + result.span }
    {
        let (left, place) = (self.left, self.place);
        let span = span_at(left, len);
        self.left = &left[span..];
        self.place += span as u32;
        *visits += span as u64;
        Part {
            number: kind % NUMBERS,
            flags: flags_in(kind),
            place,
            span: span as u32,
            payload: &left[4..len],
        }
    }
}

/// A walk over the next hops of a region that adds the span of each to a count.
#[derive(Drop)]
pub(crate) struct CountedHopParts<'a> {
    walk: HopParts<'a>,
}

impl<'a> Model for CountedHopParts<'a> {
    ghost use Rattle.nl_attr.specs.Walk.{Region};

    ghost Value = { Region };

    ghost view = { λ c. c.walk };
}

impl<'a> CountedHopParts<'a> {
    /// Begins a walk over a region in this byte order.
    pub(crate) fn over(bytes: &'a [u8], order: Order) -> Self
        requires { length bytes.now ≤ fixed.LONGEST_REGION }
        ensures { result ≡ record { order = order; place = 0; left = bytes.now } }
    {
        CountedHopParts {
            walk: HopParts::of_ordered(bytes, order),
        }
    }

    /// Steps to the next hop, and adds its span to `visits`. `None` at the region's end.
    pub(crate) fn step(&mut self, visits: &mut u64) -> Option<Result<HopPart<'a>, Fault>>
        requires { visits.old ≤ fixed.MOST_VISITS }
        ensures steps { GivesHop self.old result self.new }
        ensures counts { visits.new ≡ visits.old + span_given (λ p. p.span) result }
    {
        let given = self.walk.next();
        if let Some(Ok(part)) = &given {
            *visits += part.span as u64;
        }
        given
    }
}
