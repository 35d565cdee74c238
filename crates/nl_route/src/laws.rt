//! A theorem about the constants of the code. A function's contract states it, and its body is
//! empty.

ghost use Rattle.std.specs.Prelude.{◌≡◌};
ghost use Rattle.nl_route.specs.Addr as addr;
ghost use Rattle.nl_route.specs.Link as link;
ghost use Rattle.nl_route.specs.Neigh as neigh;
ghost use Rattle.nl_route.specs.Route as route;
ghost use Rattle.nl_route.specs.Rule as rule;

use crate::fib_rule_hdr::{
    FRA_DST, FRA_FWMARK, FRA_FWMASK, FRA_GOTO, FRA_IIFNAME, FRA_OIFNAME, FRA_PRIORITY, FRA_SRC,
    FRA_TABLE,
};
use crate::ifaddrmsg::{IFA_ADDRESS, IFA_BROADCAST, IFA_FLAGS, IFA_LABEL, IFA_LOCAL};
use crate::ifinfomsg::{IFLA_IFNAME, IFLA_INFO_KIND, IFLA_MASTER, IFLA_MTU, IFLA_OPERSTATE};
use crate::ndmsg::{NDA_DST, NDA_LLADDR, NDA_PORT, NDA_VLAN, NDA_VNI};
use crate::rtmsg::{
    RTA_DST, RTA_GATEWAY, RTA_IIF, RTA_OIF, RTA_PREFSRC, RTA_PRIORITY, RTA_SRC, RTA_TABLE,
};

/// The attribute types that this crate exports, as `IFLA_MTU`, are those of the definitions.
pub fn constants_are_fixed()
    ensures links { (IFLA_IFNAME ≡ link.IFLA_IFNAME)
        × (IFLA_MTU ≡ link.IFLA_MTU)
        × (IFLA_MASTER ≡ link.IFLA_MASTER)
        × (IFLA_OPERSTATE ≡ link.IFLA_OPERSTATE)
        × (IFLA_INFO_KIND ≡ link.IFLA_INFO_KIND) }
    ensures addresses { (IFA_ADDRESS ≡ addr.IFA_ADDRESS)
        × (IFA_LOCAL ≡ addr.IFA_LOCAL)
        × (IFA_LABEL ≡ addr.IFA_LABEL)
        × (IFA_BROADCAST ≡ addr.IFA_BROADCAST)
        × (IFA_FLAGS ≡ addr.IFA_FLAGS) }
    ensures routes { (RTA_DST ≡ route.RTA_DST)
        × (RTA_SRC ≡ route.RTA_SRC)
        × (RTA_IIF ≡ route.RTA_IIF)
        × (RTA_OIF ≡ route.RTA_OIF)
        × (RTA_GATEWAY ≡ route.RTA_GATEWAY)
        × (RTA_PRIORITY ≡ route.RTA_PRIORITY)
        × (RTA_PREFSRC ≡ route.RTA_PREFSRC)
        × (RTA_TABLE ≡ route.RTA_TABLE) }
    ensures neighbours { (NDA_DST ≡ neigh.NDA_DST)
        × (NDA_LLADDR ≡ neigh.NDA_LLADDR)
        × (NDA_VLAN ≡ neigh.NDA_VLAN)
        × (NDA_PORT ≡ neigh.NDA_PORT)
        × (NDA_VNI ≡ neigh.NDA_VNI) }
    ensures rules { (FRA_DST ≡ rule.FRA_DST)
        × (FRA_SRC ≡ rule.FRA_SRC)
        × (FRA_IIFNAME ≡ rule.FRA_IIFNAME)
        × (FRA_GOTO ≡ rule.FRA_GOTO)
        × (FRA_PRIORITY ≡ rule.FRA_PRIORITY)
        × (FRA_FWMARK ≡ rule.FRA_FWMARK)
        × (FRA_TABLE ≡ rule.FRA_TABLE)
        × (FRA_FWMASK ≡ rule.FRA_FWMASK)
        × (FRA_OIFNAME ≡ rule.FRA_OIFNAME) }
{}
