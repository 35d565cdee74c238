//! `BuilderTop`: a builder without the open headers around the innermost, and its calls.

ghost use Rattle.std.specs.Prelude.{◌≡◌, ◌≤◌, ◌<◌, ◌+◌, ◌∷◌, ◌++◌, List, Some, None, [], drop, length};
ghost use Rattle.std.specs.Prelude.{ℕ, Ok, Err, IfSome, IfNone, MatchOption, OnErr, OnOk, take};
ghost use Rattle.std.specs.Bool.{MatchBool};
ghost use Rattle.nl_attr.specs.Fixed as fixed;
ghost use Rattle.nl_attr.specs.Numbers.{aligned};
ghost use Rattle.nl_attr.specs.Written.{attr_item, with_padding};
ghost use Rattle.nl_frame.specs.declared.building.OpenHead.{OpenHead};
ghost use Rattle.nl_frame.specs.Building.{Built, answer, bytes_refusal, grown, held, lacks, or_next};
ghost use Rattle.nl_frame.specs.Building.{close, end, finish_refusal, head_ended, length_from};
ghost use Rattle.nl_frame.specs.Building.{put, top};
ghost use Rattle.nl_frame.specs.Parts.{over};
ghost use Rattle.nl_frame.specs.Tops.{AreWithin, left_with, parts_with};

use crate::building::OpenHead;
use crate::building::refusal::BuildError;
use crate::building::slices::put_at;
use crate::limits::Limits;
use nl_attr::{
    AttrFlags, Content, LONGEST_CONTAINER, LONGEST_ITEM, NUMBERS, align4, attr_head, holds,
};

/// A `Builder` without the open headers around the innermost, for a caller that keeps those
/// elsewhere, as in a C struct. What is put depends on the innermost alone.
#[derive(Clone, Copy, Drop)]
pub struct BuilderTop {
    /// The builder's limits.
    pub limits: Limits,
    /// How many bytes of the slice are accepted.
    pub len: usize,
    /// The innermost open header, if any.
    pub head: Option<OpenHead>,
    /// The first error, if there was one.
    pub refusal: Option<BuildError>,
}

/// What an attribute of this type holds behind this header. Or the error.
#[inline(always)]
pub(super) fn held_behind(
    head: Option<OpenHead>,
    number: u16,
    flags: AttrFlags,
) -> Result<Content, BuildError>
    ensures { result ≡ held head number flags }
{
    match head {
        None => Err(BuildError::NothingOpen),
        Some(head) => match head.content {
            Content::List(ctx) if number < NUMBERS => Ok(holds(ctx, number, flags)),
            Content::List(_) | Content::Hops | Content::Bytes => Err(BuildError::Mismatch),
        },
    }
}

/// The error of putting so many bytes, where `takes` is false: an earlier one, or that of what the
/// attribute holds, of its length, or of the room.
#[cold]
#[inline(never)]
fn why_not(
    first: Option<BuildError>,
    held: Result<Content, BuildError>,
    len: usize,
    room: Option<BuildError>,
) -> BuildError
    ensures { (b : Built) → (4 + len ≤ fixed.LONGEST_ITEM → room ≡ lacks b (aligned (4 + len)))
        → (or_next first (bytes_refusal b held len) ≡ None → ⊥)
        → or_next first (bytes_refusal b held len) ≡ Some result }
{
    if let Some(refusal) = first {
        return refusal;
    }
    match held {
        Err(refusal) => refusal,
        Ok(Content::List(_) | Content::Hops) => BuildError::Mismatch,
        Ok(Content::Bytes) => match room {
            Some(refusal) if len <= LONGEST_ITEM - 4 => refusal,
            Some(_) | None => BuildError::TooLong,
        },
    }
}

impl BuilderTop {
    /// The error where there is no room for so many bytes more: `NoRoom` or `TooLarge`, if any.
    #[inline(always)]
    pub(super) fn lacks(&self, out: &[u8], len: usize) -> Option<BuildError>
        requires fits { AreWithin self.now out.now }
        requires given { len ≤ fixed.LONGEST_REGION }
        ensures { result ≡ lacks (over (parts_with self.now []) out.now) len }
    {
        let limit = self.limits.datagram() as usize;
        if out.len() - self.len < len {
            return Some(BuildError::NoRoom);
        }
        if self.len + len > limit {
            return Some(BuildError::TooLarge);
        }
        None
    }

    /// Appends bytes, for which there is room.
    #[inline(always)]
    pub(super) fn accept(&mut self, out: &mut [u8], bytes: &[u8])
        requires fits { AreWithin self.old out.old }
        requires lacks { lacks (over (parts_with self.old []) out.old) (length bytes.now) ≡ None }
        ensures built { (hs : List OpenHead) → (over (parts_with self.new hs) out.new)
            ≡ grown (over (parts_with self.old hs) out.old) bytes.now }
        ensures rest { self.new ≡ record self.old { len = self.new.len } }
        ensures grows { self.new.len ≡ self.old.len + length bytes.now }
        ensures fits { AreWithin self.new out.new }
    {
        put_at(out, self.len, bytes);
        self.len += bytes.len();
    }

    /// Appends up to three zero bytes, for which there is room.
    #[inline(always)]
    pub(super) fn pad(&mut self, out: &mut [u8], count: usize)
        requires fits { AreWithin self.old out.old }
        requires few { count ≤ 3 }
        requires lacks { lacks (over (parts_with self.old []) out.old) count ≡ None }
        ensures built { (hs : List OpenHead) → (over (parts_with self.new hs) out.new)
            ≡ grown (over (parts_with self.old hs) out.old) (take count (0 ∷ 0 ∷ 0 ∷ [])) }
        ensures rest { self.new ≡ record self.old { len = self.new.len } }
        ensures grows { self.old.len ≤ self.new.len }
        ensures fits { AreWithin self.new out.new }
    {
        if count > 0 {
            self.accept(out, &[0; 3][..count]);
        }
    }

    /// Whether an attribute of this type with so many bytes can be put.
    #[inline(always)]
    fn takes(&self, out: &[u8], number: u16, flags: AttrFlags, len: usize) -> bool
        requires fits { AreWithin self.now out.now }
        ensures { let why = or_next self.now.refusal
            (bytes_refusal (over (parts_with self.now []) out.now)
            (held self.now.head number flags) len)
            in MatchBool result (why ≡ None) (why ≡ None → ⊥) }
    {
        let limit = self.limits.datagram() as usize;
        if self.refusal.is_some() || len > LONGEST_ITEM - 4 {
            return false;
        }
        let end = self.len + align4(4 + len as u32) as usize;
        match held_behind(self.head, number, flags) {
            Ok(Content::Bytes) => end <= out.len() && end <= limit,
            Ok(_) | Err(_) => false,
        }
    }

    /// The error of putting so many bytes for this attribute, if any.
    #[inline(always)]
    fn bytes_refusal(
        &self,
        out: &[u8],
        number: u16,
        flags: AttrFlags,
        len: usize,
    ) -> Option<BuildError>
        requires fits { AreWithin self.now out.now }
        ensures { result ≡ or_next self.now.refusal
            (bytes_refusal (over (parts_with self.now []) out.now)
            (held self.now.head number flags) len) }
    {
        if self.takes(out, number, flags, len) {
            return None;
        }
        let room = if len > LONGEST_ITEM - 4 {
            None
        } else {
            self.lacks(out, align4(4 + len as u32) as usize)
        };
        let held = held_behind(self.head, number, flags);
        Some(why_not(self.refusal, held, len, room))
    }

    /// Appends an attribute with the payload `bytes` and `tail`, for which there is room.
    #[inline(always)]
    pub(super) fn accept_attr(
        &mut self,
        out: &mut [u8],
        number: u16,
        flags: AttrFlags,
        bytes: &[u8],
        tail: &[u8],
    )
        requires fits { AreWithin self.old out.old }
        requires number { number < fixed.NUMBERS }
        requires short { 4 + (length bytes.now + length tail.now) ≤ fixed.LONGEST_ITEM }
        requires lacks { lacks (over (parts_with self.old []) out.old)
            (aligned (4 + (length bytes.now + length tail.now)))
            ≡ None }
        ensures built { (hs : List OpenHead) → (over (parts_with self.new hs) out.new)
            ≡ grown (over (parts_with self.old hs) out.old) (with_padding
            (attr_item self.old.limits.shape.order number flags (bytes.now ++ tail.now))) }
        ensures rest { self.new ≡ record self.old { len = self.new.len } }
        ensures grows { self.old.len ≤ self.new.len }
        ensures fits { AreWithin self.new out.new }
    {
        let len = 4 + (bytes.len() + tail.len()) as u32;
        let head = attr_head(len as u16, number, flags, self.limits.order());
        self.accept(out, &head);
        self.accept(out, bytes);
        self.accept(out, tail);
        self.pad(out, (align4(len) - len) as usize);
    }

    /// Puts an attribute with the payload `bytes` and `tail` behind the innermost header, as
    /// `Builder::put_bytes` does. The bytes accepted must be within the slice and the datagram
    /// limit.
    ///
    /// Errors are as in `Builder::put_bytes`, and the first one sticks.
    #[inline(always)]
    pub fn put(
        &mut self,
        out: &mut [u8],
        number: u16,
        flags: AttrFlags,
        bytes: &[u8],
        tail: &[u8],
    ) -> Result<(), BuildError>
        requires fits { AreWithin self.old out.old }
        requires given { length tail.now ≤ 1 }
        // Whatever headers are open, of which this is the innermost.
        ensures built { (hs : List OpenHead) → top hs ≡ self.old.head
            → (over (parts_with self.new hs) out.new)
            ≡ put (over (parts_with self.old hs) out.old) number flags (bytes.now ++ tail.now) }
        ensures rest { self.new ≡ record self.old { len = self.new.len; refusal = self.new.refusal } }
        ensures answer { result ≡ answer self.new.refusal }
        ensures grows { self.old.len ≤ self.new.len }
        ensures accepted { OnOk result (self.new.refusal ≡ self.old.refusal) }
        ensures refused { OnErr result (self.new.len ≡ self.old.len) }
        ensures fits { AreWithin self.new out.new }
    {
        if let Some(refusal) = self.bytes_refusal(out, number, flags, bytes.len() + tail.len()) {
            self.refusal = Some(refusal);
            return Err(refusal);
        }
        self.accept_attr(out, number, flags, bytes, tail);
        Ok(())
    }

    /// How many bytes there are from the innermost open header on.
    #[inline(always)]
    fn length_from(&self) -> usize
        requires inside { IfSome self.now.head (λ h. h.start + 4 ≤ self.now.len) }
        requires limit { self.now.len ≤ fixed.LONGEST_REGION }
        ensures value { (hs : List OpenHead) (out : List ℕ) → top hs ≡ self.now.head
            → self.now.len ≤ length out
            → result ≡ length_from (over (parts_with self.now hs) out) hs }
        ensures headless { IfNone self.now.head (result ≡ 0) }
        ensures limit { result ≤ fixed.LONGEST_REGION }
    {
        match self.head {
            None => 0,
            Some(head) => self.len - head.start as usize,
        }
    }

    /// Writes `field` as the length of the innermost open header.
    #[inline(always)]
    fn end_head(&self, out: &mut [u8], field: &[u8])
        requires fits { self.now.len ≤ length out.old }
        requires inside { IfSome self.now.head (λ h. h.start + 4 ≤ self.now.len) }
        requires given { length field.now ≤ 4 }
        ensures built { (hs : List OpenHead) → top hs ≡ self.now.head
            → over (parts_with self.now (drop 1 hs)) out.new
            ≡ head_ended (over (parts_with self.now hs) out.old) hs field.now }
        ensures headless { IfNone self.now.head (out.new ≡ out.old) }
        ensures behind { drop self.now.len out.new ≡ drop self.now.len out.old }
        ensures fits { self.now.len ≤ length out.new }
    {
        if let Some(head) = self.head {
            put_at(out, head.start as usize, field);
        }
    }

    /// Ends the message inside `count` open headers, as `Builder::end` does, and answers the
    /// error, if any. The bytes accepted must be within the slice and the datagram limit, and the
    /// innermost header within them.
    #[inline(always)]
    pub fn end(&self, out: &mut [u8], count: usize) -> Option<BuildError>
        requires fits { AreWithin self.now out.old }
        requires inside { IfSome self.now.head (λ h. h.start + 4 ≤ self.now.len) }
        // Whatever headers are open, which are so many, and of which this is the innermost.
        ensures built { (hs : List OpenHead) → top hs ≡ self.now.head → length hs ≡ count
            → over (left_with self.now result hs) out.new
            ≡ end (over (parts_with self.now hs) out.old) }
        ensures few { count ≡ 0
            → result ≡ or_next self.now.refusal (Some BuildError.NothingOpen) }
        ensures one { count ≡ 1 → result ≡ self.now.refusal }
        ensures many { 1 < count → result ≡ or_next self.now.refusal (Some BuildError.StillOpen) }
        ensures accepted { IfNone result (self.now.refusal ≡ None) }
        ensures refused { IfSome result (λ _. out.new ≡ out.old) }
        ensures headless { IfNone self.now.head (out.new ≡ out.old) }
        ensures behind { drop self.now.len out.new ≡ drop self.now.len out.old }
        ensures fits { self.now.len ≤ length out.new }
    {
        let _limit = self.limits.datagram();
        if let Some(refusal) = self.refusal {
            return Some(refusal);
        }
        if count == 0 {
            return Some(BuildError::NothingOpen);
        }
        if count > 1 {
            return Some(BuildError::StillOpen);
        }
        let field = self.limits.order().u32_bytes(self.length_from() as u32);
        self.end_head(out, &field);
        None
    }

    /// Closes the innermost attribute or next hop of `count` open headers, as `Builder::close`
    /// does, and answers the error, if any. The bytes accepted must be within the slice and the
    /// datagram limit, and the innermost header within them.
    #[inline(always)]
    pub fn close(&self, out: &mut [u8], count: usize) -> Option<BuildError>
        requires fits { AreWithin self.now out.old }
        requires inside { IfSome self.now.head (λ h. h.start + 4 ≤ self.now.len) }
        // Whatever headers are open, which are so many, and of which this is the innermost.
        ensures built { (hs : List OpenHead) → top hs ≡ self.now.head → length hs ≡ count
            → over (left_with self.now result hs) out.new
            ≡ close (over (parts_with self.now hs) out.old) }
        ensures few { count < 2 → result ≡ or_next self.now.refusal (Some BuildError.NothingOpen) }
        ensures many { 1 < count → IfNone self.now.head (result ≡ self.now.refusal) }
        ensures accepted { IfNone result (self.now.refusal ≡ None) }
        ensures refused { IfSome result (λ _. out.new ≡ out.old) }
        ensures headless { IfNone self.now.head (out.new ≡ out.old) }
        ensures behind { drop self.now.len out.new ≡ drop self.now.len out.old }
        ensures fits { self.now.len ≤ length out.new }
    {
        let _limit = self.limits.datagram();
        if let Some(refusal) = self.refusal {
            return Some(refusal);
        }
        if count < 2 {
            return Some(BuildError::NothingOpen);
        }
        let len = self.length_from();
        if len > LONGEST_CONTAINER {
            return Some(BuildError::TooLong);
        }
        let field = self.limits.order().u16_bytes(len as u16);
        self.end_head(out, &field);
        None
    }

    /// The length of the datagram that `Builder::finish` would hand out. Errors are the same.
    #[inline(always)]
    pub fn finish(&self) -> Result<usize, BuildError>
        ensures { (hs : List OpenHead) → top hs ≡ self.now.head
            → MatchOption (or_next self.now.refusal (finish_refusal hs))
            (result ≡ Ok self.now.len) (λ e. result ≡ Err e) }
    {
        if let Some(refusal) = self.refusal {
            return Err(refusal);
        }
        if self.head.is_some() {
            return Err(BuildError::StillOpen);
        }
        Ok(self.len)
    }
}
