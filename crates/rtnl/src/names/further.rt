//! The names of the kernel's headers for attributes that lines of text print without a name, whose
//! payload is never read: those beside the ones in `families`.

ghost use Rattle.std.specs.Prelude.{◌≡◌, map};
ghost use Rattle.rtnl.specs.Further.{further_rows};
ghost use Rattle.rtnl.specs.Named.{named_view};

use crate::names::named::Named;
use nl_attr::Ctx;

/// The attributes `IFLA` of a link.
const LINK: &[Named<()>] = &[
    (7, "STATS", ()),
    (8, "COST", ()),
    (9, "PRIORITY", ()),
    (11, "WIRELESS", ()),
    (12, "PROTINFO", ()),
    (14, "MAP", ()),
    (15, "WEIGHT", ()),
    (19, "NET_NS_PID", ()),
    (21, "NUM_VF", ()),
    (22, "VFINFO_LIST", ()),
    (23, "STATS64", ()),
    (24, "VF_PORTS", ()),
    (25, "PORT_SELF", ()),
    (26, "AF_SPEC", ()),
    (28, "NET_NS_FD", ()),
    (34, "PHYS_PORT_ID", ()),
    (36, "PHYS_SWITCH_ID", ()),
    (37, "LINK_NETNSID", ()),
    (38, "PHYS_PORT_NAME", ()),
    (39, "PROTO_DOWN", ()),
    (40, "GSO_MAX_SEGS", ()),
    (41, "GSO_MAX_SIZE", ()),
    (42, "PAD", ()),
    (43, "XDP", ()),
    (44, "EVENT", ()),
    (45, "NEW_NETNSID", ()),
    (46, "TARGET_NETNSID", ()),
    (47, "CARRIER_UP_COUNT", ()),
    (48, "CARRIER_DOWN_COUNT", ()),
    (49, "NEW_IFINDEX", ()),
    (50, "MIN_MTU", ()),
    (51, "MAX_MTU", ()),
    (52, "PROP_LIST", ()),
    (53, "ALT_IFNAME", ()),
    (54, "PERM_ADDRESS", ()),
    (55, "PROTO_DOWN_REASON", ()),
    (56, "PARENT_DEV_NAME", ()),
    (57, "PARENT_DEV_BUS_NAME", ()),
    (58, "GRO_MAX_SIZE", ()),
    (59, "TSO_MAX_SIZE", ()),
    (60, "TSO_MAX_SEGS", ()),
    (61, "ALLMULTI", ()),
    (62, "DEVLINK_PORT", ()),
    (63, "GSO_IPV4_MAX_SIZE", ()),
    (64, "GRO_IPV4_MAX_SIZE", ()),
    (65, "DPLL_PIN", ()),
    (66, "MAX_PACING_OFFLOAD_HORIZON", ()),
    (67, "NETNS_IMMUTABLE", ()),
    (68, "HEADROOM", ()),
    (69, "TAILROOM", ()),
];

/// The attributes `IFA` of an address.
const ADDR: &[Named<()>] = &[(10, "TARGET_NETNSID", ()), (11, "PROTO", ())];

/// The attributes `RTA` of a route.
const ROUTE: &[Named<()>] = &[
    (10, "PROTOINFO", ()),
    (13, "SESSION", ()),
    (14, "MP_ALGO", ()),
    (17, "MFC_STATS", ()),
    (24, "PAD", ()),
    (26, "TTL_PROPAGATE", ()),
    (27, "IP_PROTO", ()),
    (28, "SPORT", ()),
    (29, "DPORT", ()),
];

/// The attributes `RTAX` inside a route's METRICS.
const METRICS: &[Named<()>] = &[(17, "FASTOPEN_NO_COOKIE", ())];

/// The attributes `NDA` of a neighbour.
const NEIGH: &[Named<()>] = &[
    (10, "LINK_NETNSID", ()),
    (11, "SRC_VNI", ()),
    (12, "PROTOCOL", ()),
    (13, "NH_ID", ()),
    (14, "FDB_EXT_ATTRS", ()),
    (15, "FLAGS_EXT", ()),
    (16, "NDM_STATE_MASK", ()),
    (17, "NDM_FLAGS_MASK", ()),
];

/// The attributes `FRA` of a routing rule.
const RULE: &[Named<()>] = &[
    (11, "FLOW", ()),
    (12, "TUN_ID", ()),
    (13, "SUPPRESS_IFGROUP", ()),
    (14, "SUPPRESS_PREFIXLEN", ()),
    (18, "PAD", ()),
    (19, "L3MDEV", ()),
    (20, "UID_RANGE", ()),
    (21, "PROTOCOL", ()),
    (22, "IP_PROTO", ()),
    (23, "SPORT_RANGE", ()),
    (24, "DPORT_RANGE", ()),
];

/// The further attributes of a context.
#[tactic(auto, unfolding(crate::specs::Further::further_link, crate::specs::Further::further_addr, crate::specs::Further::further_route, crate::specs::Further::further_metrics, crate::specs::Further::further_neigh, crate::specs::Further::further_rule))]
pub(crate) fn further(ctx: Ctx) -> &'static [Named<()>]
    ensures { map named_view result.now ≡ further_rows ctx }
{
    match ctx {
        Ctx::Link => LINK,
        Ctx::Addr => ADDR,
        Ctx::Route => ROUTE,
        Ctx::Metrics => METRICS,
        Ctx::Neigh => NEIGH,
        Ctx::Rule => RULE,
        Ctx::LinkInfo | Ctx::Plain => &[],
    }
}
