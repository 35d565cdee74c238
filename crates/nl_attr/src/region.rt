//! Regions: what stands in one, attributes or next hops; and a position in one.
//!
//! A scan uses `OpenRegion`. The reading into a tree has `stack::regions` for the same purpose.

ghost use Rattle.std.specs.Prelude.{◌≡◌};
ghost use Rattle.nl_attr.specs.Region.{HasParts, content_in};

use crate::tree::{Content, Ctx};

/// What stands one after another in a region.
#[derive(Clone, Copy)]
pub(crate) enum Parts {
    /// Attributes, whose types mean what they do in this context.
    Attrs(Ctx),
    /// Next hops.
    Hops,
}

impl Parts {
    /// What stands in the payload of an attribute with this content. `None` for bytes, which are
    /// no region.
    #[inline(always)]
    pub(crate) fn of(content: Content) -> Option<Parts>
        ensures { HasParts content result }
    {
        match content {
            Content::Bytes => None,
            Content::List(ctx) => Some(Parts::Attrs(ctx)),
            Content::Hops => Some(Parts::Hops),
        }
    }

    /// The content of an attribute whose payload is such a region. It undoes `of`.
    #[inline(always)]
    pub(crate) fn content(self) -> Content
        ensures { result ≡ content_in self }
    {
        match self {
            Parts::Attrs(ctx) => Content::List(ctx),
            Parts::Hops => Content::Hops,
        }
    }
}

/// A position in a region: the bytes that are left of it, which begin with a header, or none.
#[derive(Clone, Copy)]
pub(crate) struct OpenRegion<'a> {
    pub(crate) left: &'a [u8],
    /// The offset of the first byte that is left, with the base of the scan.
    pub(crate) place: u32,
    /// The nesting level: 0 for a message's own attributes.
    pub(crate) level: u8,
    pub(crate) parts: Parts,
}

/// A placeholder for the unused entries of a stack. All its fields but the slice's address are
/// zeros, so that the compiler can fill many entries at once.
impl Default for OpenRegion<'_> {
    fn default() -> Self {
        OpenRegion {
            left: &[],
            place: 0,
            level: 0,
            parts: Parts::Attrs(Ctx::Link),
        }
    }
}
