//! Tables that follow the kernel's, by its dumps and its notifications (rtnetlink(7)).
//!
//! A program asks for a dump once, and then applies the notifications of the multicast groups.
//! That works until the kernel drops some of them (`ENOBUFS`). `Mirror` keeps a table of each
//! family, and says of each whether it is current, or why it may not be. It opens no socket: the
//! program hands datagrams in.
//!
//! The layers, from the outside in:
//!
//! - `mirror`: `Mirror`, which hands each message to the five followers.
//! - `follower`: one family. It tells the answers of its dump from notifications.
//! - `notes`: what one message says of a family's entries: a `Change`, or a doubt, a reason for
//!   which the table may have become wrong.
//! - `replica`: one table. It keeps changes back while a dump runs, and applies them afterwards.
//! - `telling`: one change, applied to a table.
//!
//! `effect` has what a caller is told of each message, `stale` and `short` the reasons for which a
//! table isn't current, and `key` the key of an entry.
#![tactic(auto)]

mod change;
mod effect;
mod errors;
mod follower;
mod key;
pub mod laws;
mod mirror;
mod notes;
mod replica;
mod short;
mod stale;
mod telling;

pub use change::Change;
pub use effect::{Effect, Update};
pub use errors::BeginError;
pub use mirror::Mirror;
pub use notes::OfFamily;
pub use short::Short;
pub use stale::Stale;
