//! Netlink datagrams: messages, their headers and their bodies (netlink(7), rtnetlink(7)).
//!
//! A *body* is the payload of a message, behind `nlmsghdr`. The `Form` of a body is what the
//! message type says of it, and a `Frame` is one message as it lies in a datagram, unread.
//!
//! - `reading` reads a datagram into `Message`s. `body` has their types, `form` and `front` their
//!   layout, and `header` has `nlmsghdr`.
//! - `scanning` and `taping` validate a datagram, and `taping` also indexes its headers
//!   (`broken`).
//! - `writing` measures messages (`measuring`), and then appends them (`appending`). `canonical`
//!   says whether a datagram is what its messages are written as.
//! - `building` writes a datagram into a slice, call by call, without messages in memory.
//! - `limits` has the limits of them all. `laws` states theorems, and has no code.
#![tactic(auto)]

mod appending;
mod body;
mod broken;
mod building;
mod canonical;
mod form;
mod front;
mod header;
pub mod laws;
mod limits;
mod measuring;
mod reading;
mod scanning;
mod taping;
mod writing;

pub use body::{Body, Message};
pub use building::{
    BuildError, Builder, BuilderTop, FamilyHead, OpenHead, PutMessage, levels_inside,
};
pub use canonical::is_canonical;
pub use form::Form;
pub use front::{Frame, message_at};
pub use header::Header;
pub use limits::Limits;
pub use nl_attr::{BrokenHead, Event, HeadKind, LimitFault, Order};
pub use nl_route::Family;
pub use reading::{ReadError, read_datagram};
pub use scanning::{Counted, ScanError, scan_datagram, tape_datagram};
pub use writing::{WriteError, write_datagram};
