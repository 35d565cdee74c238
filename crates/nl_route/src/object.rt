//! The body of a message of any family, and how it is read.

ghost use Rattle.std.specs.Prelude.{◌≡◌, ◌≤◌, ◌+◌, length};
ghost use Rattle.nl_attr.specs.Fixed as fixed;
ghost use Rattle.nl_attr.specs.Shape.{shape_of};
ghost use Rattle.nl_route.specs.Body.{ReadsBody};

use crate::family::Family;
use crate::head::Head;
use nl_attr::{Attr, Depth, ListError, Order, Tally, read_list_ordered};
use std::alloc::Global;

/// The body of a family's message: its header, and the attributes behind it.
#[derive(Debug, Drop, PartialEq, Eq)]
pub struct Object<H> {
    pub head: H,
    pub attrs: Vec<Attr>,
}

impl<H: Head> Object<H> {
    /// Its family.
    pub fn family(&self) -> Family
        ensures { result ≡ H.family }
    {
        H::family()
    }

    /// Reads a body in little-endian byte order, with all that is nested in its attributes.
    ///
    /// `base` is the offset of the body's first byte, and offsets in errors include it. Any bytes
    /// are a header, so the errors are those of `nl_attr::read_list` for the attributes.
    pub fn read_body(alloc: Global, bytes: &[u8], base: u32, depth: Depth) -> Tally<Self, ListError>
        requires head { H.SIZE ≤ length bytes.now }
        requires size { length bytes.now ≤ fixed.LONGEST_REGION }
        requires place { base + length bytes.now ≤ fixed.FARTHEST_END }
        ensures { ReadsBody (shape_of Order.Little depth)
            H.SIZE H.ctx H.of H.fields base bytes.now result }
    {
        Self::read_body_ordered(alloc, bytes, base, depth, Order::Little)
    }

    /// Reads a body in this byte order. All else is as in `read_body`.
    pub fn read_body_ordered(
        alloc: Global,
        bytes: &[u8],
        base: u32,
        depth: Depth,
        order: Order,
    ) -> Tally<Self, ListError>
        requires head { H.SIZE ≤ length bytes.now }
        requires size { length bytes.now ≤ fixed.LONGEST_REGION }
        requires place { base + length bytes.now ≤ fixed.FARTHEST_END }
        ensures { ReadsBody (shape_of order depth)
            H.SIZE H.ctx H.of H.fields base bytes.now result }
    {
        let head = H::read_front(bytes, order);
        read_list_ordered(
            alloc,
            &bytes[H::SIZE..],
            base + H::SIZE as u32,
            H::context(),
            0,
            depth,
            order,
        )
        .map(|attrs| Object { head, attrs })
    }
}
