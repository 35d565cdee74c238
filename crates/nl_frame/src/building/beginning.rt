//! The calls of `BuilderTop` that begin a message, or put a whole one.

ghost use Rattle.std.specs.Prelude.{◌≡◌, ◌≤◌, ◌+◌, ◌∷◌, ◌++◌, List, Some, None, [], length};
ghost use Rattle.std.specs.Prelude.{IfNone, OnErr, OnOk};
ghost use Rattle.std.specs.Option.{option_map};
ghost use Rattle.nl_attr.specs.Fixed as fixed;
ghost use Rattle.nl_attr.specs.Numbers.{aligned};
ghost use Rattle.nl_attr.specs.Written.{with_padding};
ghost use Rattle.nl_route.specs.Families.{family_of, fields_of, head_size};
ghost use Rattle.nl_route.specs.Fields as fields;
ghost use Rattle.nl_frame.specs.declared.building.OpenHead.{OpenHead};
ghost use Rattle.nl_frame.specs.AnyHeads.{any_head};
ghost use Rattle.nl_frame.specs.Building.{AreOpen, answer, begin, begin_refusal, grown, lacks};
ghost use Rattle.nl_frame.specs.Building.{message_refusal, or_next, put_message, top};
ghost use Rattle.nl_frame.specs.Form.{form_of};
ghost use Rattle.nl_frame.specs.Header.{header_fields};
ghost use Rattle.nl_frame.specs.Parts.{begin_bytes, head_by, no_head_refusal, over};
ghost use Rattle.nl_frame.specs.Tops.{AreWithin, Opens, heads_after, parts_with};

use crate::building::OpenHead;
use crate::building::head::FamilyHead;
use crate::building::refusal::BuildError;
use crate::building::top::BuilderTop;
use crate::form::Form;
use crate::header::Header;
use nl_attr::{Content, LONGEST_REGION, align4};
use nl_route::{Family, match_object};

impl BuilderTop {
    /// The error of beginning a message of this type with a header of this family, if any.
    #[inline(always)]
    fn begin_refusal(&self, out: &[u8], kind: u16, family: Family) -> Option<BuildError>
        requires fits { AreWithin self.now out.now }
        ensures value { (hs : List OpenHead) → top hs ≡ self.now.head
            → result ≡ or_next self.now.refusal
            (begin_refusal (over (parts_with self.now hs) out.now) hs kind family) }
        ensures first { IfNone result (self.now.refusal ≡ None) }
        ensures room { IfNone result (lacks (over (parts_with self.now []) out.now)
            (16 + head_size family) ≡ None) }
    {
        if self.refusal.is_some() {
            return self.refusal;
        }
        if self.head.is_some() {
            return Some(BuildError::StillOpen);
        }
        let size = family.row().head_size;
        match Form::of(kind) {
            Form::Object(form) if form.row().new_type == family.row().new_type => {
                self.lacks(out, 16 + size)
            }
            _ => Some(BuildError::Mismatch),
        }
    }

    /// Appends a family's header, for which there is room.
    #[inline(always)]
    fn accept_head(&mut self, out: &mut [u8], head: &FamilyHead)
        requires fits { AreWithin self.old out.old }
        requires lacks { lacks (over (parts_with self.old []) out.old)
            (head_size (family_of (any_head head.now))) ≡ None }
        ensures built { (hs : List OpenHead) → (over (parts_with self.new hs) out.new)
            ≡ grown (over (parts_with self.old hs) out.old)
            (fields.written self.old.limits.shape.order (fields_of (any_head head.now))) }
        ensures rest { self.new ≡ record self.old { len = self.new.len } }
        ensures grows { self.old.len ≤ self.new.len }
        // Each number of a header in memory is in the range of its Rust type.
        ensures ranged { fields.AreRanged (fields_of (any_head head.now)) }
        ensures fits { AreWithin self.new out.new }
    {
        let order = self.limits.order();
        match_object!(head, FamilyHead, head => self.accept(out, &head.write_ordered(order)), {})
    }

    /// Begins a message, as `Builder::begin` does, and answers its header, which is the innermost
    /// now. The bytes accepted must be within the slice and the datagram limit.
    ///
    /// Errors are as in `Builder::begin`, and the first one sticks.
    #[inline(always)]
    pub fn begin(
        &mut self,
        out: &mut [u8],
        kind: u16,
        flags: u16,
        seq: u32,
        port: u32,
        head: &FamilyHead,
    ) -> Result<OpenHead, BuildError>
        requires fits { AreWithin self.old out.old }
        // Whatever headers are open, of which this is the innermost.
        ensures built { (hs : List OpenHead) → top hs ≡ self.old.head
            → over (parts_with self.new (heads_after result hs)) out.new
            ≡ begin (over (parts_with self.old hs) out.old) kind flags seq port
            (any_head head.now) }
        ensures inside { (hs : List OpenHead) → top hs ≡ self.old.head
            → AreOpen self.old.limits.shape.depth self.old.len hs
            → AreOpen self.old.limits.shape.depth self.new.len (heads_after result hs) }
        ensures opens { Opens self.old self.new out.old out.new result }
        ensures ranged { OnOk result (fields.AreRanged (fields_of (any_head head.now))) }
        ensures fits { AreWithin self.new out.new }
    {
        let family = head.family();
        if let Some(refusal) = self.begin_refusal(out, kind, family) {
            self.refusal = Some(refusal);
            return Err(refusal);
        }
        let header = Header {
            len: 0,
            kind,
            flags,
            seq,
            port,
        };
        let front = header.bytes(self.limits.order());
        let opened = self.open_head(out, Content::List(family.row().context), &front);
        self.accept_head(out, head);
        Ok(opened)
    }

    /// Decodes the family header of a message of this type from exactly these bytes.
    #[inline(always)]
    fn head_in(&self, kind: u16, bytes: &[u8]) -> Option<FamilyHead>
        ensures { option_map any_head result
            ≡ head_by (self.now.limits.shape.order) (form_of kind) bytes.now }
    {
        let Form::Object(family) = Form::of(kind) else {
            return None;
        };
        if bytes.len() != family.row().head_size {
            return None;
        }
        Some(FamilyHead::read(family, bytes, self.limits.order()))
    }

    /// The error of beginning a message whose family header couldn't be decoded.
    #[inline(always)]
    fn no_head_refusal(&self) -> BuildError
        ensures { (hs : List OpenHead) → top hs ≡ self.now.head
            → Some result ≡ or_next self.now.refusal (Some (no_head_refusal hs)) }
    {
        match self.refusal {
            Some(refusal) => refusal,
            None if self.head.is_none() => BuildError::Mismatch,
            None => BuildError::StillOpen,
        }
    }

    /// Begins a message whose family header is these bytes, the kernel's struct in the builder's
    /// byte order, and answers the message's header, the innermost now. Bytes that aren't kept
    /// become zeros. The bytes accepted must be within the slice and the datagram limit.
    ///
    /// Errors are as in `Builder::begin`, and `Mismatch` also for a header of another length. The
    /// first error sticks.
    #[inline(always)]
    pub fn begin_bytes(
        &mut self,
        out: &mut [u8],
        kind: u16,
        flags: u16,
        seq: u32,
        port: u32,
        head: &[u8],
    ) -> Result<OpenHead, BuildError>
        requires fits { AreWithin self.old out.old }
        // Whatever headers are open, of which this is the innermost.
        ensures built { (hs : List OpenHead) → top hs ≡ self.old.head
            → over (parts_with self.new (heads_after result hs)) out.new
            ≡ begin_bytes (over (parts_with self.old hs) out.old) kind flags seq port head.now }
        ensures inside { (hs : List OpenHead) → top hs ≡ self.old.head
            → AreOpen self.old.limits.shape.depth self.old.len hs
            → AreOpen self.old.limits.shape.depth self.new.len (heads_after result hs) }
        ensures opens { Opens self.old self.new out.old out.new result }
        ensures fits { AreWithin self.new out.new }
    {
        let Some(head) = self.head_in(kind, head) else {
            let refusal = self.no_head_refusal();
            self.refusal = Some(refusal);
            return Err(refusal);
        };
        self.begin(out, kind, flags, seq, port, &head)
    }

    /// The error of putting a whole message of this type with so many bytes of body, if any.
    #[inline(always)]
    fn message_refusal(&self, out: &[u8], kind: u16, len: usize) -> Option<BuildError>
        requires fits { AreWithin self.now out.now }
        ensures value { (hs : List OpenHead) → top hs ≡ self.now.head
            → result ≡ or_next self.now.refusal
            (message_refusal (over (parts_with self.now hs) out.now) hs kind len) }
        ensures first { IfNone result (self.now.refusal ≡ None) }
        ensures short { IfNone result (16 + len ≤ fixed.LONGEST_REGION) }
        ensures room { IfNone result (lacks (over (parts_with self.now []) out.now)
            (aligned (16 + len)) ≡ None) }
    {
        if self.refusal.is_some() {
            return self.refusal;
        }
        if self.head.is_some() {
            return Some(BuildError::StillOpen);
        }
        let form = Form::of(kind);
        if matches!(form, Form::Object(_)) || len < form.least() {
            return Some(BuildError::Mismatch);
        }
        if len > LONGEST_REGION - 16 {
            return Some(BuildError::TooLong);
        }
        self.lacks(out, align4(16 + len as u32) as usize)
    }

    /// Appends a whole message, for which there is room.
    #[inline(always)]
    fn accept_message(&mut self, out: &mut [u8], header: Header, body: &[u8])
        requires fits { AreWithin self.old out.old }
        requires len { header.len ≡ 16 + length body.now }
        requires short { header.len ≤ fixed.LONGEST_REGION }
        requires lacks { lacks (over (parts_with self.old []) out.old) (aligned header.len)
            ≡ None }
        ensures built { (hs : List OpenHead) → (over (parts_with self.new hs) out.new)
            ≡ grown (over (parts_with self.old hs) out.old) (with_padding
            (fields.written self.old.limits.shape.order (header_fields header) ++ body.now)) }
        ensures rest { self.new ≡ record self.old { len = self.new.len } }
        ensures grows { self.old.len ≤ self.new.len }
        ensures fits { AreWithin self.new out.new }
    {
        let front = header.bytes(self.limits.order());
        self.accept(out, &front);
        self.accept(out, body);
        self.pad(out, (align4(header.len) - header.len) as usize);
    }

    /// Puts a whole message, as `Builder::message` does. The bytes accepted must be within the
    /// slice and the datagram limit.
    ///
    /// Errors are as in `Builder::message`, and the first one sticks.
    #[inline(always)]
    pub fn message(
        &mut self,
        out: &mut [u8],
        kind: u16,
        flags: u16,
        seq: u32,
        port: u32,
        body: &[u8],
    ) -> Result<(), BuildError>
        requires fits { AreWithin self.old out.old }
        // Whatever headers are open, of which this is the innermost.
        ensures built { (hs : List OpenHead) → top hs ≡ self.old.head
            → (over (parts_with self.new hs) out.new)
            ≡ put_message (over (parts_with self.old hs) out.old) kind flags seq port body.now }
        ensures rest { self.new ≡ record self.old { len = self.new.len; refusal = self.new.refusal } }
        ensures answer { result ≡ answer self.new.refusal }
        ensures grows { self.old.len ≤ self.new.len }
        ensures accepted { OnOk result (self.new.refusal ≡ self.old.refusal) }
        ensures refused { OnErr result (self.new.len ≡ self.old.len) }
        ensures fits { AreWithin self.new out.new }
    {
        if let Some(refusal) = self.message_refusal(out, kind, body.len()) {
            self.refusal = Some(refusal);
            return Err(refusal);
        }
        let header = Header {
            len: 16 + body.len() as u32,
            kind,
            flags,
            seq,
            port,
        };
        self.accept_message(out, header, body);
        Ok(())
    }
}
