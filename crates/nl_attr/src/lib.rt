//! The attributes of netlink messages (netlink(7), rtnetlink(7)): `rtattr`, and the next hops,
//! `rtnexthop`, inside `RTA_MULTIPATH`.
//!
//! A *region* is the bytes in which attributes, or next hops, stand one after another: the payload
//! of a message behind its family's header, or the payload of a nested attribute.
//!
//! - `walk` goes over one region and takes no memory: `Attrs`, `HopParts`, `attr_at`, `hop_at`.
//! - `reading` and `stack` read a region, with all that is nested in it, into a `tree` of `Attr`.
//! - `scanning` and `taping` validate a region and take no memory. `taping` also indexes it: one
//!   `Event` for each header (`events`), and a `BrokenHead` for the first error (`broken`).
//! - `writing` measures an attribute list (`measuring`), and then appends it (`appending`).
//!   `heads` encodes single headers.
//! - `views` looks up an attribute of a list by its type. `payload` holds an attribute's bytes.
//! - `limits`, `order`, `fault` and `region` have the types that the others share.
//! - `laws` states theorems about the definitions in `specs/`. It has no code.
#![tactic(auto)]

mod appending;
mod broken;
mod events;
mod fault;
mod heads;
pub mod laws;
mod limits;
mod measuring;
mod order;
mod payload;
mod reading;
mod region;
mod scanning;
mod stack;
mod taping;
mod tree;
mod views;
mod walk;
mod writing;

pub use appending::{append_bytes, append_list};
pub use broken::{BrokenHead, HeadKind};
pub use events::{Event, Room, SORT_BYTES, SORT_HOPS, SORT_LIST, SORT_MESSAGE, SORT_NEXT_HOP};
pub use fault::{Fault, LimitFault, ListError, Reason, Tally, UnknownName, WriteError};
pub use heads::{attr_head, hop_head};
pub use limits::{
    Depth, FARTHEST_END, LONGEST_CONTAINER, LONGEST_ITEM, LONGEST_REGION, MOST_LEVELS, MOST_VISITS,
};
pub use measuring::{Extent, measure};
pub use order::Order;
pub use payload::Payload;
pub use reading::{read_list, read_list_ordered};
pub use scanning::scan_list_ordered;
pub use taping::{Counts, Taped, tape_attrs, tape_attrs_in, tape_list};
pub use tree::{
    Attr, AttrFlags, Content, Ctx, Hop, IFLA_LINKINFO, NLA_F_NESTED, NLA_F_NET_BYTEORDER, NO_FLAGS,
    NUMBERS, RTA_METRICS, RTA_MULTIPATH, Value, holds,
};
pub use views::find;
pub use walk::{Attrs, HopPart, HopParts, Part, align4, attr_at, hop_at};
pub use writing::{list_len, write_list, write_list_ordered};
