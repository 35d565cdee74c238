//! The fields of the kernel's structs, in their order and by their names in its headers.

ghost use Rattle.std.specs.Prelude.{◌≡◌, map};
ghost use Rattle.rtnl.specs.Structs as structs;
ghost use Rattle.rtnl.specs.Structs.{field_view};

use crate::bytes::notation::Notation;
use crate::names::flags::Bits;
use crate::names::types::FlagNames;
use nl_route::Family;
use nl_values::Set;

/// A field: its name, how many bytes it has, and how they are read.
pub(crate) type Field = (&'static str, usize, Notation);

/// `nlmsghdr` of linux/netlink.h, whose flags have these names.
#[tactic(auto, unfolding(crate::specs::Structs::nlmsghdr))]
pub(super) fn nlmsghdr(names: FlagNames) -> [Field; 5]
    ensures { map field_view result ≡ structs.nlmsghdr names }
{
    [
        ("nlmsg_len", 4, Notation::Decimal),
        ("nlmsg_type", 2, Notation::MessageType),
        ("nlmsg_flags", 2, Notation::Flags(Bits::Message(names))),
        ("nlmsg_seq", 4, Notation::Decimal),
        ("nlmsg_pid", 4, Notation::Decimal),
    ]
}

/// `rtattr` of linux/rtnetlink.h, of an attribute of this set.
#[tactic(auto, unfolding(crate::specs::Structs::rtattr))]
pub(super) fn rtattr(set: Option<Set>) -> [Field; 2]
    ensures { map field_view result ≡ structs.rtattr set }
{
    [
        ("rta_len", 2, Notation::Decimal),
        ("rta_type", 2, Notation::AttrType(set)),
    ]
}

/// What an `nlmsgerr` of linux/netlink.h has before the header that it answers.
pub(super) const NLMSGERR: [Field; 1] = [("error", 4, Notation::Signed)];

/// What a DONE begins with.
pub(super) const STATUS: [Field; 1] = [("status", 4, Notation::Signed)];

/// `rtgenmsg` of linux/rtnetlink.h.
pub(super) const RTGENMSG: [Field; 1] = [("rtgen_family", 1, Notation::Decimal)];

/// `rtnexthop` of linux/rtnetlink.h.
pub(super) const RTNEXTHOP: [Field; 4] = [
    ("rtnh_len", 2, Notation::Decimal),
    ("rtnh_flags", 1, Notation::Flags(Bits::NextHop)),
    ("rtnh_hops", 1, Notation::Decimal),
    ("rtnh_ifindex", 4, Notation::Signed),
];

/// `ifinfomsg` of linux/rtnetlink.h.
const IFINFOMSG: &[Field] = &[
    ("ifi_family", 1, Notation::Decimal),
    ("__ifi_pad", 1, Notation::Blank),
    ("ifi_type", 2, Notation::Decimal),
    ("ifi_index", 4, Notation::Signed),
    ("ifi_flags", 4, Notation::Flags(Bits::Link)),
    ("ifi_change", 4, Notation::Digits),
];

/// `ifaddrmsg` of linux/if_addr.h.
const IFADDRMSG: &[Field] = &[
    ("ifa_family", 1, Notation::Decimal),
    ("ifa_prefixlen", 1, Notation::Decimal),
    ("ifa_flags", 1, Notation::Digits),
    ("ifa_scope", 1, Notation::Decimal),
    ("ifa_index", 4, Notation::Decimal),
];

/// `rtmsg` of linux/rtnetlink.h.
const RTMSG: &[Field] = &[
    ("rtm_family", 1, Notation::Decimal),
    ("rtm_dst_len", 1, Notation::Decimal),
    ("rtm_src_len", 1, Notation::Decimal),
    ("rtm_tos", 1, Notation::Decimal),
    ("rtm_table", 1, Notation::Decimal),
    ("rtm_protocol", 1, Notation::Decimal),
    ("rtm_scope", 1, Notation::Decimal),
    ("rtm_type", 1, Notation::Decimal),
    ("rtm_flags", 4, Notation::Digits),
];

/// `ndmsg` of linux/neighbour.h.
const NDMSG: &[Field] = &[
    ("ndm_family", 1, Notation::Decimal),
    ("ndm_pad1", 1, Notation::Blank),
    ("ndm_pad2", 2, Notation::Blank),
    ("ndm_ifindex", 4, Notation::Signed),
    ("ndm_state", 2, Notation::Flags(Bits::NeighState)),
    ("ndm_flags", 1, Notation::Flags(Bits::NeighFlags)),
    ("ndm_type", 1, Notation::Decimal),
];

/// `fib_rule_hdr` of linux/fib_rules.h.
const FIB_RULE_HDR: &[Field] = &[
    ("family", 1, Notation::Decimal),
    ("dst_len", 1, Notation::Decimal),
    ("src_len", 1, Notation::Decimal),
    ("tos", 1, Notation::Decimal),
    ("table", 1, Notation::Decimal),
    ("res1", 1, Notation::Blank),
    ("res2", 1, Notation::Blank),
    ("action", 1, Notation::Decimal),
    ("flags", 4, Notation::Digits),
];

/// The head of a family's body.
#[tactic(auto, unfolding(crate::specs::Structs::ifinfomsg, crate::specs::Structs::ifaddrmsg, crate::specs::Structs::rtmsg, crate::specs::Structs::ndmsg, crate::specs::Structs::fib_rule_hdr))]
pub(super) fn head_of(family: Family) -> &'static [Field]
    ensures { map field_view result.now ≡ structs.head_of family }
{
    match family {
        Family::Link => IFINFOMSG,
        Family::Addr => IFADDRMSG,
        Family::Route => RTMSG,
        Family::Neigh => NDMSG,
        Family::Rule => FIB_RULE_HDR,
    }
}
