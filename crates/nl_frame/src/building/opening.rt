//! The calls of `BuilderTop` that open an attribute or a next hop.

ghost use Rattle.std.specs.Prelude.{◌≡◌, ◌≤◌, ◌+◌, ◌∷◌, List, Some, None, Ok, [], length};
ghost use Rattle.std.specs.Prelude.{IfErr, IfNone, IfOk, OnOk};
ghost use Rattle.nl_frame.specs.declared.building.OpenHead.{OpenHead};
ghost use Rattle.nl_frame.specs.Building.{AreOpen, attr_begun, content_or_bytes, held, hop_refusal};
ghost use Rattle.nl_frame.specs.Building.{lacks, levels_in, open_attr, open_hop, open_refusal_in};
ghost use Rattle.nl_frame.specs.Building.{opened, or_next, top};
ghost use Rattle.nl_frame.specs.Parts.{over};
ghost use Rattle.nl_frame.specs.Tops.{AreWithin, Opens, heads_after, parts_with, refusal_of};

use crate::building::refusal::BuildError;
use crate::building::top::{BuilderTop, held_behind};
use crate::building::{OpenHead, levels_inside};
use nl_attr::{AttrFlags, Content, Ctx, attr_head, hop_head};

impl BuilderTop {
    /// Appends a header, for which there is room, and answers it as open. `content` is what is put
    /// behind it.
    #[inline(always)]
    pub(super) fn open_head(&mut self, out: &mut [u8], content: Content, head: &[u8]) -> OpenHead
        requires fits { AreWithin self.old out.old }
        requires lacks { lacks (over (parts_with self.old []) out.old) (length head.now) ≡ None }
        ensures built { (hs : List OpenHead) → over (parts_with self.new (result ∷ hs)) out.new
            ≡ opened (over (parts_with self.old hs) out.old) content head.now }
        ensures rest { self.new ≡ record self.old { len = self.new.len; head = Some result } }
        ensures value { result ≡ record { start = self.old.len; content = content } }
        ensures grows { self.new.len ≡ self.old.len + length head.now }
        ensures fits { AreWithin self.new out.new }
    {
        let _limit = self.limits.datagram();
        let opened = OpenHead {
            start: self.len as u32,
            content,
        };
        self.accept(out, head);
        self.head = Some(opened);
        opened
    }

    /// What an attribute holds that is opened inside `count` open headers. Or the error.
    #[inline(always)]
    fn opening(
        &self,
        out: &[u8],
        held: Result<Content, BuildError>,
        count: usize,
    ) -> Result<Content, BuildError>
        requires fits { AreWithin self.now out.now }
        ensures held { IfOk result (λ content. held ≡ Ok content) }
        ensures level { IfOk result (λ content.
            count + levels_in content ≤ self.now.limits.shape.depth) }
        ensures room { OnOk result (lacks (over (parts_with self.now []) out.now) 4 ≡ None) }
        ensures first { OnOk result (self.now.refusal ≡ None) }
        ensures none { OnOk result ((hs : List OpenHead) → or_next self.now.refusal
            (open_refusal_in (over (parts_with self.now hs) out.now) count held) ≡ None) }
        ensures refused { IfErr result (λ e. (hs : List OpenHead) → or_next self.now.refusal
            (open_refusal_in (over (parts_with self.now hs) out.now) count held) ≡ Some e) }
    {
        if let Some(refusal) = self.refusal {
            return Err(refusal);
        }
        let content = held?;
        if content == Content::Bytes {
            return Err(BuildError::Mismatch);
        }
        if count.saturating_add(levels_inside(content)) > self.limits.depth().get() as usize {
            return Err(BuildError::TooDeep);
        }
        match self.lacks(out, 4) {
            None => Ok(content),
            Some(refusal) => Err(refusal),
        }
    }

    /// Opens an attribute inside `count` open headers, as `Builder::open_attr` does, and answers
    /// its header, the innermost now. The bytes accepted must be within the slice and the datagram
    /// limit.
    ///
    /// Errors are as in `Builder::open_attr`, and the first one sticks.
    #[inline(always)]
    pub fn open_attr(
        &mut self,
        out: &mut [u8],
        number: u16,
        flags: AttrFlags,
        count: usize,
    ) -> Result<OpenHead, BuildError>
        requires fits { AreWithin self.old out.old }
        // Whatever headers are open, which are so many, and of which this is the innermost.
        ensures built { (hs : List OpenHead) → top hs ≡ self.old.head → length hs ≡ count
            → over (parts_with self.new (heads_after result hs)) out.new
            ≡ open_attr (over (parts_with self.old hs) out.old) number flags }
        ensures inside { (hs : List OpenHead) → top hs ≡ self.old.head → length hs ≡ count
            → AreOpen self.old.limits.shape.depth self.old.len hs
            → AreOpen self.old.limits.shape.depth self.new.len (heads_after result hs) }
        // For any count, which needn't be that of open headers, this is the error,
        ensures answer { refusal_of result ≡ or_next self.old.refusal (open_refusal_in
            (over (parts_with self.old []) out.old) count (held self.old.head number flags)) }
        // and without an error this is what it opens.
        ensures opened { IfOk result (λ h. over (parts_with self.new (h ∷ [])) out.new
            ≡ opened (over (parts_with self.old []) out.old)
            (content_or_bytes (held self.old.head number flags))
            (attr_begun self.old.limits.shape.order number flags)) }
        ensures opens { Opens self.old self.new out.old out.new result }
        ensures fits { AreWithin self.new out.new }
    {
        let held = held_behind(self.head, number, flags);
        match self.opening(out, held, count) {
            Ok(content) => {
                let head = attr_head(0, number, flags, self.limits.order());
                Ok(self.open_head(out, content, &head))
            }
            Err(refusal) => {
                self.refusal = Some(refusal);
                Err(refusal)
            }
        }
    }

    /// The error of opening a next hop, if any.
    #[inline(always)]
    fn hop_refusal(&self, out: &[u8]) -> Option<BuildError>
        requires fits { AreWithin self.now out.now }
        ensures value { (hs : List OpenHead) → result ≡ or_next self.now.refusal
            (hop_refusal (over (parts_with self.now hs) out.now) self.now.head) }
        ensures room { IfNone result (lacks (over (parts_with self.now []) out.now) 8 ≡ None) }
    {
        if self.refusal.is_some() {
            return self.refusal;
        }
        match self.head {
            None => Some(BuildError::NothingOpen),
            Some(head) => match head.content {
                Content::Hops => self.lacks(out, 8),
                Content::List(_) | Content::Bytes => Some(BuildError::Mismatch),
            },
        }
    }

    /// Opens a next hop, as `Builder::open_hop` does, and answers its header, the innermost now.
    /// The bytes accepted must be within the slice and the datagram limit.
    ///
    /// Errors are as in `Builder::open_hop`, and the first one sticks.
    #[inline(always)]
    pub fn open_hop(
        &mut self,
        out: &mut [u8],
        flags: u8,
        hops: u8,
        ifindex: i32,
    ) -> Result<OpenHead, BuildError>
        requires fits { AreWithin self.old out.old }
        // Whatever headers are open, of which this is the innermost.
        ensures built { (hs : List OpenHead) → top hs ≡ self.old.head
            → over (parts_with self.new (heads_after result hs)) out.new
            ≡ open_hop (over (parts_with self.old hs) out.old) flags hops ifindex }
        ensures inside { (hs : List OpenHead) → top hs ≡ self.old.head
            → AreOpen self.old.limits.shape.depth self.old.len hs
            → AreOpen self.old.limits.shape.depth self.new.len (heads_after result hs) }
        ensures opens { Opens self.old self.new out.old out.new result }
        ensures fits { AreWithin self.new out.new }
    {
        if let Some(refusal) = self.hop_refusal(out) {
            self.refusal = Some(refusal);
            return Err(refusal);
        }
        let head = hop_head(0, flags, hops, ifindex, self.limits.order());
        Ok(self.open_head(out, Content::List(Ctx::Route), &head))
    }
}
