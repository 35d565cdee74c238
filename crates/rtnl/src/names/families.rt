//! What the heads of the families are heads of, and the names of their attributes.

ghost use Rattle.std.specs.Prelude.{refl};
ghost use Rattle.nl_route.specs.declared.family.Family.TheVariants as family;
ghost use Rattle.nl_route.specs.Families.{any};

use crate::names::attributes::Style;
use crate::names::named::Named;
use nl_attr::{IFLA_LINKINFO, RTA_METRICS, RTA_MULTIPATH};
use nl_route::{
    AddrHead, FRA_DST, FRA_FWMARK, FRA_FWMASK, FRA_GOTO, FRA_IIFNAME, FRA_OIFNAME, FRA_PRIORITY,
    FRA_SRC, FRA_TABLE, Head, IFA_ADDRESS, IFA_BROADCAST, IFA_FLAGS, IFA_LABEL, IFA_LOCAL,
    IFLA_IFNAME, IFLA_INFO_KIND, IFLA_MASTER, IFLA_MTU, IFLA_OPERSTATE, LinkHead, NDA_DST,
    NDA_LLADDR, NDA_PORT, NDA_VLAN, NDA_VNI, NeighHead, Object, RTA_DST, RTA_GATEWAY, RTA_IIF,
    RTA_OIF, RTA_PREFSRC, RTA_PRIORITY, RTA_SRC, RTA_TABLE, RouteHead, RuleHead,
};

/// The attributes `IFLA` of a link.
pub(crate) const LINK: &[Named<Style>] = &[
    (1, "ADDRESS", Style::Hex),
    (2, "BROADCAST", Style::Hex),
    (IFLA_IFNAME, "IFNAME", Style::Text),
    (IFLA_MTU, "MTU", Style::U32),
    (5, "LINK", Style::U32),
    (6, "QDISC", Style::Text),
    (IFLA_MASTER, "MASTER", Style::U32),
    (13, "TXQLEN", Style::U32),
    (IFLA_OPERSTATE, "OPERSTATE", Style::U8),
    (17, "LINKMODE", Style::U8),
    (IFLA_LINKINFO, "LINKINFO", Style::Hex),
    (20, "IFALIAS", Style::Text),
    (27, "GROUP", Style::U32),
    (29, "EXT_MASK", Style::U32),
    (30, "PROMISCUITY", Style::U32),
    (31, "NUM_TX_QUEUES", Style::U32),
    (32, "NUM_RX_QUEUES", Style::U32),
    (33, "CARRIER", Style::U8),
    (35, "CARRIER_CHANGES", Style::U32),
];

/// The attributes `IFLA_INFO` inside a link's LINKINFO.
pub(crate) const LINK_INFO: &[Named<Style>] = &[
    (IFLA_INFO_KIND, "KIND", Style::Text),
    (2, "DATA", Style::Hex),
    (3, "XSTATS", Style::Hex),
    (4, "SLAVE_KIND", Style::Text),
    (5, "SLAVE_DATA", Style::Hex),
];

/// The attributes `IFA` of an address.
pub(crate) const ADDR: &[Named<Style>] = &[
    (IFA_ADDRESS, "ADDRESS", Style::Address),
    (IFA_LOCAL, "LOCAL", Style::Address),
    (IFA_LABEL, "LABEL", Style::Text),
    (IFA_BROADCAST, "BROADCAST", Style::Address),
    (5, "ANYCAST", Style::Address),
    (6, "CACHEINFO", Style::Hex),
    (7, "MULTICAST", Style::Address),
    (IFA_FLAGS, "FLAGS", Style::U32),
    (9, "RT_PRIORITY", Style::U32),
];

/// The attributes `RTA` of a route.
pub(crate) const ROUTE: &[Named<Style>] = &[
    (RTA_DST, "DST", Style::Address),
    (RTA_SRC, "SRC", Style::Address),
    (RTA_IIF, "IIF", Style::U32),
    (RTA_OIF, "OIF", Style::U32),
    (RTA_GATEWAY, "GATEWAY", Style::Address),
    (RTA_PRIORITY, "PRIORITY", Style::U32),
    (RTA_PREFSRC, "PREFSRC", Style::Address),
    (RTA_METRICS, "METRICS", Style::Hex),
    (RTA_MULTIPATH, "MULTIPATH", Style::Hex),
    (11, "FLOW", Style::U32),
    (12, "CACHEINFO", Style::Hex),
    (RTA_TABLE, "TABLE", Style::U32),
    (16, "MARK", Style::U32),
    (18, "VIA", Style::Hex),
    (19, "NEWDST", Style::Hex),
    (20, "PREF", Style::U8),
    (21, "ENCAP_TYPE", Style::U16),
    (22, "ENCAP", Style::Hex),
    (23, "EXPIRES", Style::U32),
    (25, "UID", Style::U32),
    (30, "NH_ID", Style::U32),
];

/// The attributes `RTAX` inside a route's METRICS.
pub(crate) const METRICS: &[Named<Style>] = &[
    (1, "LOCK", Style::U32),
    (2, "MTU", Style::U32),
    (3, "WINDOW", Style::U32),
    (4, "RTT", Style::U32),
    (5, "RTTVAR", Style::U32),
    (6, "SSTHRESH", Style::U32),
    (7, "CWND", Style::U32),
    (8, "ADVMSS", Style::U32),
    (9, "REORDERING", Style::U32),
    (10, "HOPLIMIT", Style::U32),
    (11, "INITCWND", Style::U32),
    (12, "FEATURES", Style::U32),
    (13, "RTO_MIN", Style::U32),
    (14, "INITRWND", Style::U32),
    (15, "QUICKACK", Style::U32),
    (16, "CC_ALGO", Style::Text),
];

/// The attributes `NDA` of a neighbour.
pub(crate) const NEIGH: &[Named<Style>] = &[
    (NDA_DST, "DST", Style::Address),
    (NDA_LLADDR, "LLADDR", Style::Hex),
    (3, "CACHEINFO", Style::Hex),
    (4, "PROBES", Style::U32),
    (NDA_VLAN, "VLAN", Style::U16),
    (NDA_PORT, "PORT", Style::NetworkU16),
    (NDA_VNI, "VNI", Style::U32),
    (8, "IFINDEX", Style::U32),
    (9, "MASTER", Style::U32),
];

/// The attributes `FRA` of a routing rule.
pub(crate) const RULE: &[Named<Style>] = &[
    (FRA_DST, "DST", Style::Address),
    (FRA_SRC, "SRC", Style::Address),
    (FRA_IIFNAME, "IIFNAME", Style::Text),
    (FRA_GOTO, "GOTO", Style::U32),
    (FRA_PRIORITY, "PRIORITY", Style::U32),
    (FRA_FWMARK, "FWMARK", Style::U32),
    (FRA_TABLE, "TABLE", Style::U32),
    (FRA_FWMASK, "FWMASK", Style::U32),
    (FRA_OIFNAME, "OIFNAME", Style::Text),
];

/// A head, as the head of any family that it is.
pub(crate) trait FamilyHead: Head {
    ghost use Rattle.std.specs.Prelude.{◌≡◌};
    ghost use Rattle.nl_route.specs.Families.{AnyHead, context_of, family_of};

    ghost as_any: { Self → AnyHead };

    // It is of its family.
    ghost named: { (h : Self) → family_of (as_any h) ≡ Self.Head.family };

    // Its attributes are of its family's context.
    ghost same: { (h : Self) → Self.Head.ctx ≡ context_of (family_of (as_any h)) };
}

/// A value that stands for an item of a table.
pub(crate) trait TableItem {
    ghost use Rattle.nl_dump.specs.Items.{Item};

    ghost item: { Self → Item };
}

impl<H: FamilyHead> TableItem for Object<H> {
    ghost use Rattle.nl_attr.specs.View.{attrs_view};

    ghost item = { λ b. (H.as_any b.head, attrs_view b.attrs.items) };
}

impl FamilyHead for LinkHead {
    ghost as_any = { any family.Link };

    ghost named = { λ h. refl };

    ghost same = { λ h. refl };
}

impl FamilyHead for AddrHead {
    ghost as_any = { any family.Addr };

    ghost named = { λ h. refl };

    ghost same = { λ h. refl };
}

impl FamilyHead for RouteHead {
    ghost as_any = { any family.Route };

    ghost named = { λ h. refl };

    ghost same = { λ h. refl };
}

impl FamilyHead for NeighHead {
    ghost as_any = { any family.Neigh };

    ghost named = { λ h. refl };

    ghost same = { λ h. refl };
}

impl FamilyHead for RuleHead {
    ghost as_any = { any family.Rule };

    ghost named = { λ h. refl };

    ghost same = { λ h. refl };
}
