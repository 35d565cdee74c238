//! Building a datagram in a slice of the caller's, call by call, without memory.
//!
//! A header is *open* while its length isn't set. `Builder` keeps all open headers. `BuilderTop`
//! (`top`) knows the innermost alone, and its calls do the work: `top` puts attributes, `opening`
//! opens headers, `beginning` begins messages, and `hopping` puts next hops whole.

ghost use Rattle.std.specs.Prelude.{◌≡◌, ◌≤◌, ◌+◌, ◌∷◌, ◌++◌, ℕ, List, length, [], Ok, Err};
ghost use Rattle.std.specs.Prelude.{Some, None, IsOk, IfOk, OnErr, OnOk, IfNone, IfSome};
ghost use Rattle.std.specs.Prelude.{MatchOption};
ghost use Rattle.nl_attr.specs.Numbers.{num};
ghost use Rattle.nl_attr.specs.Shape.{Shape};
ghost use Rattle.nl_attr.specs.declared.tree.Content.TheVariants as content;
ghost use Rattle.nl_frame.specs.AnyHeads.{any_head};
ghost use Rattle.nl_frame.specs.Building.{AreOpen, answer, begin, close, end, finish};
ghost use Rattle.nl_frame.specs.Building.{levels_in, open_attr, open_hop, put, put_message, top};
ghost use Rattle.nl_frame.specs.Draft.{Draft, Holds, attribute, message, next_hop};
ghost use Rattle.nl_frame.specs.Draft as draft;
ghost use Rattle.nl_frame.specs.Limits.{Bounds};
ghost use Rattle.nl_frame.specs.Form.{form_of};
ghost use Rattle.nl_frame.specs.Message.{BodyVal};
ghost use Rattle.nl_frame.specs.OneList.{IsTheBody, IsTheList};
ghost use Rattle.nl_frame.specs.Parts.{AreParts, new_parts, over};
ghost use Rattle.nl_frame.specs.Tops.{heads_after, left, refusal_of, top_of};
ghost use Rattle.nl_frame.specs.Written.{written};

mod beginning;
mod head;
mod hopping;
mod opening;
mod putting;
mod refusal;
mod slices;
mod top;

use crate::limits::Limits;
use arrayvec::ArrayVec;
pub use head::FamilyHead;
use nl_attr::{AttrFlags, Content, Order};
pub use putting::PutMessage;
pub use refusal::BuildError;
use std::marker::Model;
pub use top::BuilderTop;

/// An open header: one whose length isn't set yet.
#[derive(Clone, Copy, Drop)]
pub struct OpenHead {
    /// The offset of its first byte.
    pub start: u32,
    /// What is put behind it: attributes of a context, or next hops.
    pub content: Content,
}

/// The value in the unused entries of a stack.
impl Default for OpenHead {
    ghost is_default = { λ head. head ≡ record { start = 0; content = content.Bytes } };

    fn default() -> Self {
        OpenHead {
            start: 0,
            content: Content::Bytes,
        }
    }
}

/// How many headers may be open: that of the message, and one for each of 32 levels.
const MOST_OPEN: usize = 33;

/// A builder of a datagram in a slice, which takes no memory. Each call is handed the slice. It
/// must be the same one each time, and have at least the bytes that are accepted.
///
/// Messages begin and end one after another. In a message attributes are put, and those that hold
/// attributes or next hops are opened and closed. `finish` hands the datagram out: it is within
/// the limits, canonical, and read again as exactly what was put.
///
/// The first error sticks: each later call answers it again, and so does `finish`. A call that
/// fails changes no byte of the slice. No call changes a byte behind the accepted ones, or needs
/// more room than those take.
#[derive(Drop)]
pub struct Builder {
    limits: Limits,
    /// How many bytes of the slice are accepted: those of the datagram so far.
    len: usize,
    /// The open headers, the innermost last.
    heads: ArrayVec<OpenHead, MOST_OPEN>,
    refusal: Option<BuildError>,
}

impl Model for Builder {
    ghost use Rattle.std.specs.Prelude.{◌≤◌, reverse};
    ghost use Rattle.nl_frame.specs.Building.{AreOpen};
    ghost use Rattle.nl_frame.specs.Parts.{Parts};

    ghost Value = { Parts };

    ghost view = { λ p. record {
      bounds = p.limits;
      len = p.len;
      heads = reverse p.heads.items;
      refusal = p.refusal;
    } };

    ghost invariant = { λ p. (p.len ≤ p.limits.datagram)
        × AreOpen p.limits.shape.depth p.len (reverse p.heads.items) };
}

impl Builder {
    /// A builder within these limits, in their byte order, with nothing accepted yet. Of the
    /// limits, it uses the byte order, the depth and the datagram limit.
    #[inline(always)]
    pub fn new(limits: &Limits) -> Builder
        ensures value { result ≡ new_parts limits.now }
        ensures puts { (out : List ℕ) → Holds limits.now (over result out) draft.nothing_put }
    {
        let _limits = limits.datagram();
        Builder {
            limits: *limits,
            len: 0,
            heads: ArrayVec::new(),
            refusal: None,
        }
    }

    /// The byte order of the datagram, that of the limits.
    pub fn order(&self) -> Order
        ensures { result ≡ self.now.bounds.shape.order }
    {
        self.limits.order()
    }

    /// The first error, if there was one.
    pub fn refusal(&self) -> Option<BuildError>
        ensures { result ≡ self.now.refusal }
    {
        let Builder { refusal, .. } = self;
        *refusal
    }

    /// The innermost open header.
    #[inline(always)]
    fn top(&self) -> Option<OpenHead>
        ensures value { result ≡ top self.now.heads }
        ensures inside { IfSome result (λ h. h.start + 4 ≤ self.now.len) }
    {
        self.heads.as_slice().last().copied()
    }

    /// The part of it that calls need: all but the open headers around the innermost.
    #[inline(always)]
    fn as_top(&self) -> BuilderTop
        ensures value { result ≡ top_of self.now }
        ensures inside { IfSome (top self.now.heads) (λ h. h.start + 4 ≤ self.now.len) }
        ensures parts { AreParts self.now }
    {
        let _limit = self.limits.datagram();
        BuilderTop {
            limits: self.limits,
            len: self.len,
            head: self.top(),
            refusal: self.refusal,
        }
    }

    /// How many headers are open.
    #[inline(always)]
    fn count(&self) -> usize
        ensures { result ≡ length self.now.heads }
    {
        self.heads.len()
    }

    /// Keeps an error, and answers it.
    #[inline(always)]
    fn refuse(&mut self, refusal: BuildError) -> Result<(), BuildError>
        ensures kept { self.new ≡ record self.old { refusal = Some refusal } }
        ensures answer { result ≡ Err refusal }
    {
        self.refusal = Some(refusal);
        Err(refusal)
    }

    /// Keeps the bytes or the error of a call that put something, and answers the same.
    #[inline(always)]
    fn keep_put(&mut self, top: &BuilderTop, put: Result<(), BuildError>) -> Result<(), BuildError>
        requires grows { self.old.len ≤ top.now.len }
        requires limit { top.now.len ≤ self.old.bounds.datagram }
        requires answer { put ≡ answer top.now.refusal }
        requires accepted { OnOk put (top.now.refusal ≡ self.old.refusal) }
        requires refused { OnErr put (top.now.len ≡ self.old.len) }
        ensures kept { self.new ≡ record self.old {
          len = top.now.len;
          refusal = top.now.refusal;
        } }
        ensures answer { result ≡ answer self.new.refusal }
    {
        match put {
            Ok(()) => {
                self.len = top.len;
                Ok(())
            }
            Err(refusal) => self.refuse(refusal),
        }
    }

    /// Keeps the header that a call opened, and the bytes accepted. Or keeps the error.
    #[inline(always)]
    fn keep_opened(
        &mut self,
        top: &BuilderTop,
        opened: Result<OpenHead, BuildError>,
    ) -> Result<(), BuildError>
        requires limit { top.now.len ≤ self.old.bounds.datagram }
        requires inside { AreOpen self.old.bounds.shape.depth top.now.len
            (heads_after opened self.old.heads) }
        requires accepted { OnOk opened (self.old.refusal ≡ None) }
        requires refused { OnErr opened (top.now.len ≡ self.old.len) }
        ensures kept { self.new ≡ record self.old {
          len = top.now.len;
          heads = heads_after opened self.old.heads;
          refusal = refusal_of opened;
        } }
        ensures answer { result ≡ answer self.new.refusal }
    {
        let _limit = self.limits.datagram();
        match opened {
            Ok(head) => {
                self.len = top.len;
                self.heads.push(head);
                Ok(())
            }
            Err(refusal) => self.refuse(refusal),
        }
    }

    /// Keeps that the innermost header is closed. Or keeps the error.
    #[inline(always)]
    fn keep_closed(&mut self, refusal: Option<BuildError>) -> Result<(), BuildError>
        requires { IfNone refusal (self.old.refusal ≡ None) }
        ensures kept { self.new ≡ record self.old {
          heads = left refusal self.old.heads;
          refusal = refusal;
        } }
        ensures answer { result ≡ answer self.new.refusal }
    {
        match refusal {
            None => {
                let _head = self.heads.pop();
                Ok(())
            }
            Some(refusal) => self.refuse(refusal),
        }
    }

    /// Puts an attribute whose payload is `bytes` and `tail`.
    #[inline(always)]
    fn put_parts(
        &mut self,
        out: &mut [u8],
        number: u16,
        flags: AttrFlags,
        bytes: &[u8],
        tail: &[u8],
    ) -> Result<(), BuildError>
        requires fits { self.old.len ≤ length out.old }
        requires given { length tail.now ≤ 1 }
        ensures built { (over self.new out.new)
            ≡ put (over self.old out.old) number flags (bytes.now ++ tail.now) }
        ensures answer { result ≡ answer self.new.refusal }
        ensures puts { OnOk result ((d : Draft) (L : Bounds) → Holds L (over self.old out.old) d
            → Holds L (over self.new out.new) (draft.put d number flags (bytes.now ++ tail.now))) }
        ensures fits { self.new.len ≤ length out.new }
    {
        let mut top = self.as_top();
        let put = top.put(out, number, flags, bytes, tail);
        self.keep_put(&top, put)
    }

    /// Puts an attribute with these bytes as its payload, and pads it with zeros to a multiple of
    /// four.
    ///
    /// The error is an earlier one, or the first of these: `NothingOpen` where no message is open;
    /// `Mismatch` where next hops belong, for a type of 16,384 or more, or for an attribute that
    /// holds attributes or next hops by its context, type and flags; `TooLong` above 65,531 bytes;
    /// `NoRoom`; `TooLarge`.
    #[inline(always)]
    pub fn put_bytes(
        &mut self,
        out: &mut [u8],
        number: u16,
        flags: AttrFlags,
        bytes: &[u8],
    ) -> Result<(), BuildError>
        requires fits { self.old.len ≤ length out.old }
        ensures built { (over self.new out.new)
            ≡ put (over self.old out.old) number flags bytes.now }
        ensures answer { result ≡ answer self.new.refusal }
        ensures puts { OnOk result ((d : Draft) (L : Bounds) → Holds L (over self.old out.old) d
            → Holds L (over self.new out.new) (draft.put d number flags bytes.now)) }
        ensures fits { self.new.len ≤ length out.new }
    {
        self.put_parts(out, number, flags, bytes, &[])
    }

    /// Puts an attribute with this text and one zero byte as its payload. Errors are as in
    /// `put_bytes`.
    #[inline(always)]
    pub fn put_text(
        &mut self,
        out: &mut [u8],
        number: u16,
        flags: AttrFlags,
        text: &[u8],
    ) -> Result<(), BuildError>
        requires fits { self.old.len ≤ length out.old }
        ensures built { (over self.new out.new)
            ≡ put (over self.old out.old) number flags (text.now ++ 0 ∷ []) }
        ensures answer { result ≡ answer self.new.refusal }
        ensures puts { OnOk result ((d : Draft) (L : Bounds) → Holds L (over self.old out.old) d
            → Holds L (over self.new out.new) (draft.put d number flags (text.now ++ 0 ∷ []))) }
        ensures fits { self.new.len ≤ length out.new }
    {
        self.put_parts(out, number, flags, text, &[0])
    }

    /// Puts an attribute that holds this number of one byte. Errors are as in `put_bytes`.
    #[inline(always)]
    pub fn put_u8(
        &mut self,
        out: &mut [u8],
        number: u16,
        flags: AttrFlags,
        value: u8,
    ) -> Result<(), BuildError>
        requires fits { self.old.len ≤ length out.old }
        ensures built { (over self.new out.new) ≡ put (over self.old out.old) number flags (value ∷ []) }
        ensures answer { result ≡ answer self.new.refusal }
        ensures puts { OnOk result ((d : Draft) (L : Bounds) → Holds L (over self.old out.old) d
            → Holds L (over self.new out.new) (draft.put d number flags (value ∷ []))) }
        ensures fits { self.new.len ≤ length out.new }
    {
        self.put_bytes(out, number, flags, &[value])
    }

    /// Puts an attribute that holds this number of two bytes, in this byte order. Errors are as in
    /// `put_bytes`.
    #[inline(always)]
    pub fn put_u16(
        &mut self,
        out: &mut [u8],
        number: u16,
        flags: AttrFlags,
        value: u16,
        order: Order,
    ) -> Result<(), BuildError>
        requires fits { self.old.len ≤ length out.old }
        ensures built { (over self.new out.new) ≡ put (over self.old out.old) number flags (num value 2 order) }
        ensures answer { result ≡ answer self.new.refusal }
        ensures puts { OnOk result ((d : Draft) (L : Bounds) → Holds L (over self.old out.old) d
            → Holds L (over self.new out.new) (draft.put d number flags (num value 2 order))) }
        ensures fits { self.new.len ≤ length out.new }
    {
        self.put_bytes(out, number, flags, &order.u16_bytes(value))
    }

    /// Puts an attribute that holds this number of four bytes, in this byte order. Errors are as
    /// in `put_bytes`.
    #[inline(always)]
    pub fn put_u32(
        &mut self,
        out: &mut [u8],
        number: u16,
        flags: AttrFlags,
        value: u32,
        order: Order,
    ) -> Result<(), BuildError>
        requires fits { self.old.len ≤ length out.old }
        ensures built { (over self.new out.new) ≡ put (over self.old out.old) number flags (num value 4 order) }
        ensures answer { result ≡ answer self.new.refusal }
        ensures puts { OnOk result ((d : Draft) (L : Bounds) → Holds L (over self.old out.old) d
            → Holds L (over self.new out.new) (draft.put d number flags (num value 4 order))) }
        ensures fits { self.new.len ≤ length out.new }
    {
        self.put_bytes(out, number, flags, &order.u32_bytes(value))
    }

    /// Puts an attribute that holds this number of eight bytes, in this byte order. Errors are as
    /// in `put_bytes`.
    #[inline(always)]
    pub fn put_u64(
        &mut self,
        out: &mut [u8],
        number: u16,
        flags: AttrFlags,
        value: u64,
        order: Order,
    ) -> Result<(), BuildError>
        requires fits { self.old.len ≤ length out.old }
        ensures built { (over self.new out.new) ≡ put (over self.old out.old) number flags (num value 8 order) }
        ensures answer { result ≡ answer self.new.refusal }
        ensures puts { OnOk result ((d : Draft) (L : Bounds) → Holds L (over self.old out.old) d
            → Holds L (over self.new out.new) (draft.put d number flags (num value 8 order))) }
        ensures fits { self.new.len ≤ length out.new }
    {
        self.put_bytes(out, number, flags, &order.u64_bytes(value))
    }

    /// Opens an attribute that holds attributes or next hops, by its context, type and flags.
    ///
    /// The error is an earlier one, or the first of these: `NothingOpen` where no message is open;
    /// `Mismatch` where next hops belong, for a type of 16,384 or more, or for an attribute that
    /// holds bytes; `TooDeep` for a level beyond the depth limit; `NoRoom`; `TooLarge`.
    pub fn open_attr(
        &mut self,
        out: &mut [u8],
        number: u16,
        flags: AttrFlags,
    ) -> Result<(), BuildError>
        requires fits { self.old.len ≤ length out.old }
        ensures built { (over self.new out.new) ≡ open_attr (over self.old out.old) number flags }
        ensures answer { result ≡ answer self.new.refusal }
        ensures puts { OnOk result ((d : Draft) (L : Bounds) → Holds L (over self.old out.old) d
            → Holds L (over self.new out.new) (draft.open_head d (attribute number flags))) }
        ensures fits { self.new.len ≤ length out.new }
    {
        let mut top = self.as_top();
        let opened = top.open_attr(out, number, flags, self.count());
        self.keep_opened(&top, opened)
    }

    /// Opens a next hop: `rtnh_flags`, `rtnh_hops` (the weight less one) and `rtnh_ifindex`.
    /// Attributes of routes are put behind it.
    ///
    /// The error is an earlier one, or the first of these: `NothingOpen` where no message is open;
    /// `Mismatch` where no next hops belong; `NoRoom`; `TooLarge`.
    pub fn open_hop(
        &mut self,
        out: &mut [u8],
        flags: u8,
        hops: u8,
        ifindex: i32,
    ) -> Result<(), BuildError>
        requires fits { self.old.len ≤ length out.old }
        ensures built { (over self.new out.new)
            ≡ open_hop (over self.old out.old) flags hops ifindex }
        ensures answer { result ≡ answer self.new.refusal }
        ensures puts { OnOk result ((d : Draft) (L : Bounds) → Holds L (over self.old out.old) d
            → Holds L (over self.new out.new) (draft.open_head d (next_hop flags hops ifindex))) }
        ensures fits { self.new.len ≤ length out.new }
    {
        let mut top = self.as_top();
        let opened = top.open_hop(out, flags, hops, ifindex);
        self.keep_opened(&top, opened)
    }

    /// Closes the innermost attribute or next hop: sets its length. It needs no room.
    ///
    /// The error is an earlier one, or the first of these: `NothingOpen` where none is open;
    /// `TooLong` where it has more than 65,532 bytes.
    pub fn close(&mut self, out: &mut [u8]) -> Result<(), BuildError>
        requires fits { self.old.len ≤ length out.old }
        ensures built { (over self.new out.new) ≡ close (over self.old out.old) }
        ensures answer { result ≡ answer self.new.refusal }
        ensures puts { OnOk result ((d : Draft) (L : Bounds) → Holds L (over self.old out.old) d
            → Holds L (over self.new out.new) (draft.close d)) }
        ensures fits { self.new.len ≤ length out.new }
    {
        let refusal = self.as_top().close(out, self.count());
        self.keep_closed(refusal)
    }

    /// Begins a message: its type, flags, sequence number and port id, and its family's header.
    ///
    /// The error is an earlier one, or the first of these: `StillOpen` where a message is open;
    /// `Mismatch` where the type isn't NEW, DEL or SET of the header's family; `NoRoom`;
    /// `TooLarge`.
    #[inline(always)]
    pub fn begin(
        &mut self,
        out: &mut [u8],
        kind: u16,
        flags: u16,
        seq: u32,
        port: u32,
        head: &FamilyHead,
    ) -> Result<(), BuildError>
        requires fits { self.old.len ≤ length out.old }
        ensures built { (over self.new out.new)
            ≡ begin (over self.old out.old) kind flags seq port (any_head head.now) }
        ensures answer { result ≡ answer self.new.refusal }
        ensures puts { OnOk result ((d : Draft) (L : Bounds) → Holds L (over self.old out.old) d
            → Holds L (over self.new out.new)
            (draft.open_head d (message kind flags seq port (any_head head.now)))) }
        ensures fits { self.new.len ≤ length out.new }
    {
        let mut top = self.as_top();
        let opened = top.begin(out, kind, flags, seq, port, head);
        self.keep_opened(&top, opened)
    }

    /// Ends the message: sets its length. It needs no room.
    ///
    /// The error is an earlier one, or the first of these: `NothingOpen` where no message is open;
    /// `StillOpen` where an attribute or a next hop is.
    #[inline(always)]
    pub fn end(&mut self, out: &mut [u8]) -> Result<(), BuildError>
        requires fits { self.old.len ≤ length out.old }
        ensures built { (over self.new out.new) ≡ end (over self.old out.old) }
        ensures answer { result ≡ answer self.new.refusal }
        ensures puts { OnOk result ((d : Draft) (L : Bounds) → Holds L (over self.old out.old) d
            → Holds L (over self.new out.new) (draft.end d)) }
        ensures fits { self.new.len ≤ length out.new }
    {
        let refusal = self.as_top().end(out, self.count());
        self.keep_closed(refusal)
    }

    /// Puts a whole message with these bytes as its body, and pads it with zeros to a multiple of
    /// four. It is for messages without a family's header: NOOP, ERROR, DONE and OVERRUN of
    /// netlink(7), a GET of rtnetlink(7), or a type that this crate doesn't know.
    ///
    /// The error is an earlier one, or the first of these: `StillOpen` where a message is open;
    /// `Mismatch` for NEW, DEL or SET of a family, or where the body is shorter than its type says
    /// (ERROR 20 bytes, GET 1); `TooLong` for a message of more than 1,048,576 bytes; `NoRoom`;
    /// `TooLarge`.
    pub fn message(
        &mut self,
        out: &mut [u8],
        kind: u16,
        flags: u16,
        seq: u32,
        port: u32,
        body: &[u8],
    ) -> Result<(), BuildError>
        requires fits { self.old.len ≤ length out.old }
        ensures built { (over self.new out.new)
            ≡ put_message (over self.old out.old) kind flags seq port body.now }
        ensures answer { result ≡ answer self.new.refusal }
        // The bytes are the one body of the type that they are read as,
        ensures body { OnOk result ((s : Shape) → (v : BodyVal)
            × IsTheBody s (form_of kind) body.now v) }
        // and a message with it is put.
        ensures puts { OnOk result ((d : Draft) (L : Bounds) (v : BodyVal)
            → IsTheBody L.shape (form_of kind) body.now v → Holds L (over self.old out.old) d
            → Holds L (over self.new out.new) (draft.put_message d kind flags seq port v)) }
        ensures fits { self.new.len ≤ length out.new }
    {
        let mut top = self.as_top();
        let put = top.message(out, kind, flags, seq, port, body);
        self.keep_put(&top, put)
    }

    /// The datagram, which is the front of the slice. The error is the first one of any call, or
    /// else `StillOpen` where a message is open.
    pub fn finish<'a>(&self, out: &'a [u8]) -> Result<&'a [u8], BuildError>
        requires fits { self.now.len ≤ length out.now }
        ensures refused { MatchOption (finish (over self.now out.now)) (IsOk result)
            (λ e. result ≡ Err e) }
        ensures bytes { IfOk result (λ bytes. bytes.now ≡ (over self.now out.now).front) }
        // They are the messages that were put, and are read as these alone.
        ensures puts { (d : Draft) (L : Bounds) → Holds L (over self.now out.now) d
            → IfOk result (λ bytes.
            (bytes.now ≡ written L.shape.order d.ended) × IsTheList L bytes.now d.ended) }
    {
        let len = self.as_top().finish()?;
        Ok(&out[..len])
    }
}

/// How many levels there are further down inside `content`: 1 in next hops, since each of them
/// holds attributes a level deeper, else 0.
#[inline(always)]
pub fn levels_inside(content: Content) -> usize
    ensures { result ≡ levels_in content }
{
    match content {
        Content::Hops => 1,
        Content::List(_) | Content::Bytes => 0,
    }
}
