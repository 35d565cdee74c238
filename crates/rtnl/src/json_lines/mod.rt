//! What is printed as lines of JSON.
//!
//! - `line`: a line that is being written; `flags`, `values`: fields of it;
//! - `datagram`: a refusal; `message`, `body`, `heads`, `tree`: what datagrams have;
//! - `data`: what payloads mean; `dump`, `mirror`: reports.

pub(crate) mod body;
pub(crate) mod data;
pub(crate) mod datagram;
pub(crate) mod dump;
pub(crate) mod flags;
pub(crate) mod heads;
pub(crate) mod line;
pub(crate) mod message;
pub(crate) mod mirror;
pub(crate) mod tree;
pub(crate) mod values;
