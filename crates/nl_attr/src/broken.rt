//! The broken header at which a scan ends, with what an error message needs of it.

ghost use Rattle.std.specs.Prelude.{◌≡◌, ◌≤◌, length};
ghost use Rattle.nl_attr.specs.Fixed as fixed;
ghost use Rattle.nl_attr.specs.Heads.{least};
ghost use Rattle.nl_attr.specs.Broken.{facts_of, head_kind, number_said};
ghost use Rattle.nl_attr.specs.Region.{head_of, sort_in};

use crate::fault::{Fault, Reason};
use crate::limits::Shape;
use crate::order::Order;
use crate::region::{OpenRegion, Parts};
use crate::tree::NUMBERS;
use crate::walk::kind_at;

/// The kind of a header.
#[derive(Clone, Copy, Debug, PartialEq, Eq, Hash)]
pub enum HeadKind {
    /// The header of a message, `nlmsghdr` of netlink(7): 16 bytes.
    Message,
    /// The header of an attribute, `rtattr` of rtnetlink(7): 4 bytes.
    Attribute,
    /// The header of a next hop, `rtnexthop` of linux/rtnetlink.h: 8 bytes.
    NextHop,
}

/// A header that breaks a rule.
#[derive(Clone, Copy, Debug, PartialEq, Eq, Hash)]
pub struct BrokenHead {
    /// Its offset, and the rule.
    pub fault: Fault,
    /// Its kind.
    pub kind: HeadKind,
    /// Its nesting level: 0 for a message, and for the attributes of its body. A nested list is
    /// one level further down. So are next hops, and their attributes are two.
    pub level: u8,
    /// The type of a message, or that of an attribute without its two flag bits. `None` for a next
    /// hop, and for a truncated header.
    pub number: Option<u16>,
    /// The value of its length field, in bytes, which counts the header too. `None` for a
    /// truncated header.
    pub len: Option<u32>,
    /// How many bytes there are from its offset to the end of its region. A message's region is
    /// the datagram.
    pub left: u32,
}

impl Parts {
    /// The size of the headers in such a region, in bytes.
    fn head_size(self) -> usize
        ensures { result ≡ least (sort_in self) }
    {
        match self {
            Parts::Attrs(_) => 4,
            Parts::Hops => 8,
        }
    }

    /// The kind of the headers in such a region.
    fn head_kind(self) -> HeadKind
        ensures { result ≡ head_kind (sort_in self) }
    {
        match self {
            Parts::Attrs(_) => HeadKind::Attribute,
            Parts::Hops => HeadKind::NextHop,
        }
    }

    /// The type of the attribute at the front of `left`, without its flag bits. `None` for a next
    /// hop, and for a truncated header.
    fn number_at(self, left: &[u8], order: Order) -> Option<u16>
        ensures { result ≡ number_said order (sort_in self) left.now }
    {
        match self {
            Parts::Attrs(_) => {
                if left.len() < 4 {
                    None
                } else {
                    Some(kind_at(order, left) % NUMBERS)
                }
            }
            Parts::Hops => None,
        }
    }
}

impl OpenRegion<'_> {
    /// Describes the header at the front, which breaks the rule `reason`.
    ///
    /// A scan calls this once, at its end. It isn't inlined: that keeps registers free in the
    /// loop.
    #[inline(never)]
    pub(crate) fn broken(self, reason: Reason, shape: Shape) -> BrokenHead
        requires { length self.left.now ≤ fixed.LONGEST_REGION }
        ensures { result ≡ facts_of shape.order reason (head_of self.entry) }
    {
        let order = shape.order();
        let len = if self.left.len() < self.parts.head_size() {
            None
        } else {
            Some(order.read_u16(self.left) as u32)
        };
        BrokenHead {
            fault: Fault {
                place: self.place,
                reason,
            },
            kind: self.parts.head_kind(),
            level: self.level,
            number: self.parts.number_at(self.left, order),
            len,
            left: self.left.len() as u32,
        }
    }
}
