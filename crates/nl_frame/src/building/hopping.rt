//! The calls that put a next hop with one attribute whole.

ghost use Rattle.std.specs.Prelude.{◌≡◌, ◌≤◌, ◌+◌, List, None, Ok, Some, length, [], IfSome, IsTrue};
ghost use Rattle.std.specs.Prelude.{OnOk};
ghost use Rattle.std.specs.Bool.{MatchBool};
ghost use Rattle.std.specs.Option.{option_map};
ghost use Rattle.nl_attr.specs.Fixed as fixed;
ghost use Rattle.nl_attr.specs.Numbers.{aligned};
ghost use Rattle.nl_attr.specs.declared.tree.Ctx.TheVariants.{Route};
ghost use Rattle.nl_attr.specs.declared.tree.Content.TheVariants as content;
ghost use Rattle.nl_frame.specs.declared.building.OpenHead.{OpenHead};
ghost use Rattle.nl_frame.specs.Building.{answer, held_in, lacks, no_flags, put_hop, top};
ghost use Rattle.nl_frame.specs.Draft.{Draft, Holds};
ghost use Rattle.nl_frame.specs.Draft as draft;
ghost use Rattle.nl_frame.specs.Limits.{Bounds};
ghost use Rattle.nl_frame.specs.Parts.{over};
ghost use Rattle.nl_frame.specs.Tops.{AreWithin, parts_with};

use crate::building::Builder;
use crate::building::refusal::BuildError;
use crate::building::top::BuilderTop;
use nl_attr::{Content, Ctx, LONGEST_CONTAINER, NO_FLAGS, NUMBERS, align4, holds, hop_head};

impl BuilderTop {
    /// The length of a next hop with one attribute of so many bytes. `None` where it can't be put.
    #[inline(always)]
    fn hop_length(&self, out: &[u8], number: u16, len: usize) -> Option<usize>
        requires fits { AreWithin self.now out.now }
        ensures none { IfSome result (λ n. self.now.refusal ≡ None) }
        ensures place { IfSome result (λ n.
            option_map (λ h. h.content) self.now.head ≡ Some content.Hops) }
        ensures held { IfSome result (λ n.
            held_in (content.List Route) number no_flags ≡ Ok content.Bytes) }
        ensures value { IfSome result (λ n. n ≡ 8 + aligned (4 + len)) }
        ensures size { IfSome result (λ n. n ≤ fixed.LONGEST_CONTAINER) }
        ensures room { IfSome result (λ n. lacks (over (parts_with self.now []) out.now) n ≡ None) }
    {
        let limit = self.limits.datagram() as usize;
        if self.refusal.is_some() || len > LONGEST_CONTAINER - 12 || number >= NUMBERS {
            return None;
        }
        let size = 8 + align4(4 + len as u32) as usize;
        let end = self.len + size;
        match (self.head, holds(Ctx::Route, number, NO_FLAGS)) {
            (Some(head), Content::Bytes)
                if head.content == Content::Hops && end <= out.len() && end <= limit => {
                Some(size)
            }
            _ => None,
        }
    }

    /// Puts a next hop with one attribute of these bytes, and answers true. Where any of the calls
    /// would fail it answers false, and nothing has changed.
    #[inline(always)]
    fn put_hop(
        &mut self,
        out: &mut [u8],
        flags: u8,
        hops: u8,
        ifindex: i32,
        number: u16,
        bytes: &[u8],
    ) -> bool
        requires fits { AreWithin self.old out.old }
        ensures built { MatchBool result
            ((hs : List OpenHead) → top hs ≡ self.old.head → over (parts_with self.new hs) out.new
            ≡ put_hop (over (parts_with self.old hs) out.old)
            flags hops ifindex number bytes.now)
            ((self.new ≡ self.old) × (out.new ≡ out.old)) }
        ensures none { IsTrue result → self.old.refusal ≡ None }
        ensures rest { self.new ≡ record self.old { len = self.new.len } }
        ensures grows { self.old.len ≤ self.new.len }
        ensures fits { AreWithin self.new out.new }
    {
        let Some(size) = self.hop_length(out, number, bytes.len()) else {
            return false;
        };
        let head = hop_head(size as u16, flags, hops, ifindex, self.limits.order());
        self.accept(out, &head);
        self.accept_attr(out, number, NO_FLAGS, bytes, &[]);
        true
    }
}

impl Builder {
    /// Puts a next hop that holds one attribute of these bytes, whose type has no flag bit. It
    /// does in one what `open_hop`, `put_bytes` and `close` do.
    ///
    /// Errors are theirs. What was accepted before the error stays.
    #[inline(always)]
    pub fn put_hop(
        &mut self,
        out: &mut [u8],
        flags: u8,
        hops: u8,
        ifindex: i32,
        number: u16,
        bytes: &[u8],
    ) -> Result<(), BuildError>
        requires fits { self.old.len ≤ length out.old }
        ensures built { over self.new out.new
            ≡ put_hop (over self.old out.old) flags hops ifindex number bytes.now }
        ensures answer { result ≡ answer self.new.refusal }
        ensures puts { OnOk result ((d : Draft) (L : Bounds) → Holds L (over self.old out.old) d
            → Holds L (over self.new out.new)
            (draft.put_hop d flags hops ifindex number bytes.now)) }
        ensures fits { self.new.len ≤ length out.new }
    {
        let mut top = self.as_top();
        if top.put_hop(out, flags, hops, ifindex, number, bytes) {
            self.len = top.len;
            return Ok(());
        }
        self.put_hop_by_parts(out, flags, hops, ifindex, number, bytes)
    }

    /// The same by the three calls, which find the error.
    #[inline(never)]
    fn put_hop_by_parts(
        &mut self,
        out: &mut [u8],
        flags: u8,
        hops: u8,
        ifindex: i32,
        number: u16,
        bytes: &[u8],
    ) -> Result<(), BuildError>
        requires fits { self.old.len ≤ length out.old }
        ensures built { over self.new out.new
            ≡ put_hop (over self.old out.old) flags hops ifindex number bytes.now }
        ensures answer { result ≡ answer self.new.refusal }
        ensures puts { OnOk result ((d : Draft) (L : Bounds) → Holds L (over self.old out.old) d
            → Holds L (over self.new out.new)
            (draft.put_hop d flags hops ifindex number bytes.now)) }
        ensures fits { self.new.len ≤ length out.new }
    {
        let _ = self.open_hop(out, flags, hops, ifindex);
        let _ = self.put_bytes(out, number, NO_FLAGS, bytes);
        self.close(out)
    }
}
