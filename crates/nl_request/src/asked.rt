//! `Asked`: a request with what makes it a message, for `Builder::put`.

use crate::operation::Operation;

/// A request with its operation and its sequence number, which together make one message.
#[derive(Drop)]
pub struct Asked<'a, R> {
    /// The request of one family, as `RouteRequest`.
    pub request: &'a R,
    pub operation: Operation,
    /// `nlmsg_seq`.
    pub seq: u32,
}
