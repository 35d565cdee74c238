//! Requests that change links, addresses, routes, neighbours and rules (rtnetlink(7)), with the
//! operations of ip(8).
//!
//! A request is a plain struct of the fields that a program sets. Its `put` writes it into a
//! builder of `nl_frame` as one message. The attributes, their order and their bytes are those
//! that ip(8) sends. No memory is taken. A struct borrows its bytes, and a field that isn't set
//! is `None`.
//!
//! Nothing is sent here, and nothing is looked up: an interface is its index, and an address is
//! its bytes in network byte order. Values aren't validated. What the kernel would refuse, as an
//! address of a wrong length, is written as it is.
//!
//! - `link`, `addr`, `route`, `neigh` and `rule` each have the request of one family.
//! - `operation` is what a request asks for, and `asked` a request with its operation.
//! - `prefix`, `gateway` and `table` are fields that several requests have.
//! - `parts` writes optional attributes.
#![tactic(auto)]

mod addr;
mod asked;
mod gateway;
mod link;
mod neigh;
mod operation;
mod parts;
mod prefix;
mod route;
mod rule;
mod table;

pub use addr::{AddrRequest, Lifetimes};
pub use asked::Asked;
pub use gateway::Gateway;
pub use link::{LinkInfo, LinkRequest};
pub use neigh::NeighRequest;
pub use nl_frame::{BuildError, Builder};
pub use operation::Operation;
pub use prefix::Prefix;
pub use route::{Metric, NextHop, RouteRequest};
pub use rule::RuleRequest;
