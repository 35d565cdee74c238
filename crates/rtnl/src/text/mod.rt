//! What is printed as lines of text.

pub(crate) mod body;
pub(crate) mod datagram;
pub(crate) mod dump;
pub(crate) mod flags;
pub(crate) mod heads;
pub(crate) mod message;
pub(crate) mod mirror;
pub(crate) mod painting;
pub(crate) mod tree;
pub(crate) mod values;
