//! The families of rtnetlink(7): links, addresses, routes, neighbours and routing rules. A family
//! here is a kind of object, and not an address family as `AF_INET`.
//!
//! The body of a family's message is a header, a C struct of the kernel's headers, and attributes.
//! `Object` is such a body.
//!
//! - `ifinfomsg` (links), `ifaddrmsg` (addresses), `rtmsg` (routes), `ndmsg` (neighbours) and
//!   `fib_rule_hdr` (rules). Each has a family's header, and its *views*: calls that decode the
//!   first attribute of one type.
//! - `family` has the table of the families, and their message types.
//! - `head` is the trait of their headers, `object` reads a body, `writing` writes one.
//! - `views` looks up attributes for them. `laws` states a theorem, and has no code.
#![tactic(auto)]

mod family;
mod fib_rule_hdr;
mod head;
mod ifaddrmsg;
mod ifinfomsg;
pub mod laws;
mod ndmsg;
mod object;
mod rtmsg;
mod views;
mod writing;

pub use family::{Family, RouteType, Row, Verb};
pub use fib_rule_hdr::{
    FRA_DST, FRA_FWMARK, FRA_FWMASK, FRA_GOTO, FRA_IIFNAME, FRA_OIFNAME, FRA_PRIORITY, FRA_SRC,
    FRA_TABLE, Rule, RuleHead,
};
pub use head::Head;
pub use ifaddrmsg::{Addr, AddrHead, IFA_ADDRESS, IFA_BROADCAST, IFA_FLAGS, IFA_LABEL, IFA_LOCAL};
pub use ifinfomsg::{
    IFLA_IFNAME, IFLA_INFO_KIND, IFLA_MASTER, IFLA_MTU, IFLA_OPERSTATE, Link, LinkHead,
};
pub use ndmsg::{NDA_DST, NDA_LLADDR, NDA_PORT, NDA_VLAN, NDA_VNI, Neigh, NeighHead};
pub use object::Object;
pub use rtmsg::{
    RTA_DST, RTA_GATEWAY, RTA_IIF, RTA_OIF, RTA_PREFSRC, RTA_PRIORITY, RTA_SRC, RTA_TABLE, Route,
    RouteHead,
};
