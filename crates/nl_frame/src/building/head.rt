//! A family's header, of whichever family.

ghost use Rattle.std.specs.Prelude.{◌≡◌, ◌≤◌, length, take};
ghost use Rattle.nl_frame.specs.AnyHeads.{any_head};
ghost use Rattle.nl_route.specs.Families.{family_of, head_of, head_size};

use nl_attr::Order;
use nl_route::{AddrHead, Family, Head, LinkHead, NeighHead, RouteHead, RuleHead};

/// The header that a family's message begins with, behind `nlmsghdr`, of any family.
#[derive(Clone, Copy, Debug, PartialEq, Eq, Hash)]
pub enum FamilyHead {
    Link(LinkHead),
    Addr(AddrHead),
    Route(RouteHead),
    Neigh(NeighHead),
    Rule(RuleHead),
}

impl FamilyHead {
    /// Decodes the header of this family at the front of a body, in this byte order. The body has
    /// at least the header's size.
    pub fn read(family: Family, bytes: &[u8], order: Order) -> FamilyHead
        requires { head_size family ≤ length bytes.now }
        ensures { any_head result ≡ head_of order family (take (head_size family) bytes.now) }
    {
        match family {
            Family::Link => FamilyHead::Link(LinkHead::read_front(bytes, order)),
            Family::Addr => FamilyHead::Addr(AddrHead::read_front(bytes, order)),
            Family::Route => FamilyHead::Route(RouteHead::read_front(bytes, order)),
            Family::Neigh => FamilyHead::Neigh(NeighHead::read_front(bytes, order)),
            Family::Rule => FamilyHead::Rule(RuleHead::read_front(bytes, order)),
        }
    }

    /// Its family.
    pub fn family(&self) -> Family
        ensures { result ≡ family_of (any_head self.now) }
    {
        match self {
            FamilyHead::Link(_) => Family::Link,
            FamilyHead::Addr(_) => Family::Addr,
            FamilyHead::Route(_) => Family::Route,
            FamilyHead::Neigh(_) => Family::Neigh,
            FamilyHead::Rule(_) => Family::Rule,
        }
    }
}
