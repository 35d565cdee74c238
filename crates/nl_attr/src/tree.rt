//! The tree of attributes that a reading makes and a writing takes: `Attr`, `Value` and `Hop`; and
//! which attributes hold others.

ghost use Rattle.std.specs.Prelude.{◌≡◌};
ghost use Rattle.nl_attr.specs.Tree.{holds_of};

use crate::payload::Payload;

/// An attribute's type without its two flag bits is below this: `NLA_TYPE_MASK` of
/// linux/netlink.h, plus 1.
pub const NUMBERS: u16 = 16_384;

/// The flag bit of `rta_type` that marks a nested attribute (linux/netlink.h).
pub const NLA_F_NESTED: u16 = 32_768;

/// The flag bit of `rta_type` that marks a payload in network byte order (linux/netlink.h). It is
/// kept, and changes nothing in how the payload is read.
pub const NLA_F_NET_BYTEORDER: u16 = 16_384;

/// The attribute of a link that holds `IFLA_INFO_*` attributes (linux/if_link.h).
pub const IFLA_LINKINFO: u16 = 18;

/// The attribute of a route that holds `RTAX_*` attributes (linux/rtnetlink.h).
pub const RTA_METRICS: u16 = 8;

/// The attribute of a route that holds next hops, `rtnexthop` (linux/rtnetlink.h).
pub const RTA_MULTIPATH: u16 = 9;

/// The two flag bits of an attribute's type.
#[derive(Clone, Copy, Debug, Default, PartialEq, Eq, Hash)]
pub struct AttrFlags {
    /// `NLA_F_NESTED`, 0x8000.
    pub nested: bool,
    /// `NLA_F_NET_BYTEORDER`, 0x4000. It changes nothing in how the payload is read.
    pub net: bool,
}

/// Neither flag bit, as most attributes have it.
pub const NO_FLAGS: AttrFlags = AttrFlags {
    nested: false,
    net: false,
};

/// The context of an attribute: which enumeration of the kernel's headers its type is from.
#[derive(Clone, Copy, Debug, PartialEq, Eq, Hash)]
pub enum Ctx {
    /// `IFLA_*` of a link.
    Link,
    /// `IFLA_INFO_*` in a link's `IFLA_LINKINFO`.
    LinkInfo,
    /// `IFA_*` of an address.
    Addr,
    /// `RTA_*` of a route, and of each of its next hops.
    Route,
    /// `RTAX_*` in a route's `RTA_METRICS`.
    Metrics,
    /// `NDA_*` of a neighbour.
    Neigh,
    /// `FRA_*` of a routing rule.
    Rule,
    /// The attributes of any other nested attribute, whose types are not known here.
    Plain,
}

/// What kind of payload an attribute has, by its type and flags. `Value` is the payload itself.
#[derive(Clone, Copy, Debug, PartialEq, Eq, Hash)]
pub enum Content {
    /// Bytes that are not read further.
    Bytes,
    /// Attributes of this context.
    List(Ctx),
    /// Next hops, `rtnexthop`, whose attributes have the context of routes.
    Hops,
}

/// An attribute, `rtattr` of rtnetlink(7).
#[cycle(tree)]
#[derive(Debug, Drop, PartialEq, Eq)]
pub struct Attr {
    /// The type, `rta_type`, without its two flag bits: below 16,384.
    pub number: u16,
    pub flags: AttrFlags,
    pub value: Value,
}

/// The payload of an attribute. `Content` says which of the three an attribute must have.
#[cycle(tree)]
#[derive(Debug, Drop, PartialEq, Eq)]
pub enum Value {
    Bytes(Payload),
    List(Vec<Attr>),
    Hops(Vec<Hop>),
}

/// A next hop, `rtnexthop` of linux/rtnetlink.h.
#[cycle(tree)]
#[derive(Debug, Drop, PartialEq, Eq)]
pub struct Hop {
    /// `rtnh_flags`: the `RTNH_F` bits.
    pub flags: u8,
    /// `rtnh_hops`: the weight less one.
    pub hops: u8,
    /// `rtnh_ifindex`: the index of the interface.
    pub ifindex: i32,
    /// Its attributes, whose types are those of a route, `RTA_*`.
    pub attrs: Vec<Attr>,
}

/// The kind of payload of an attribute with this context, type and flags. The first rule that
/// applies counts:
///
/// - `RTA_MULTIPATH` of a route or a next hop holds next hops, whatever its flags.
/// - `IFLA_LINKINFO` of a link and `RTA_METRICS` of a route or a next hop hold attributes,
///   whatever their flags.
/// - Any other attribute with `NLA_F_NESTED` holds attributes of the context `Plain`.
/// - Any other holds bytes.
pub fn holds(ctx: Ctx, number: u16, flags: AttrFlags) -> Content
    ensures { result ≡ holds_of ctx number flags }
{
    match (ctx, number) {
        (Ctx::Route, RTA_MULTIPATH) => Content::Hops,
        (Ctx::Link, IFLA_LINKINFO) => Content::List(Ctx::LinkInfo),
        (Ctx::Route, RTA_METRICS) => Content::List(Ctx::Metrics),
        _ => {
            if flags.nested {
                Content::List(Ctx::Plain)
            } else {
                Content::Bytes
            }
        }
    }
}
