//! `rtnlc_request_route`: the request of a route.

ghost use Rattle.std.specs.Prelude.{◌≡◌};
ghost use Rattle.nl_request.specs.Route.{route_message};
ghost use Rattle.rtnl_c.specs.ChangeRequests.{IsPutAlone, Puts, route_in};

use crate::change_requests::{prefix, put_asked, some};
use crate::put::Put;
use nl_request::{Metric, NextHop, RouteRequest};

/// The fields of a request, as C hands them in: `struct rtnlc_route_request` of include/rtnlc.h.
/// Empty bytes mean that a field isn't set, as does a `has_x` that is false for its `x`.
#[repr(C)]
#[derive(Clone, Copy)]
pub struct RouteFields<'a> {
    pub destination: &'a [u8],
    pub source: &'a [u8],
    pub gateway: &'a [u8],
    pub preferred_source: &'a [u8],
    pub metrics: &'a [Metric],
    pub hops: &'a [NextHop],
    pub table: u32,
    pub flags: u32,
    pub priority: u32,
    pub oif: u32,
    pub has_priority: bool,
    pub has_oif: bool,
    pub family: u8,
    pub destination_length: u8,
    pub source_length: u8,
    pub tos: u8,
    pub protocol: u8,
    pub scope: u8,
    pub sort: u8,
}

impl<'a> RouteFields<'a> {
    /// The request with these fields.
    fn request(&self) -> RouteRequest<'a>
        ensures { result ≡ route_in self.now }
    {
        RouteRequest {
            family: self.family,
            destination: prefix(self.destination, self.destination_length),
            source: prefix(self.source, self.source_length),
            tos: self.tos,
            table: self.table,
            protocol: self.protocol,
            scope: self.scope,
            sort: self.sort,
            flags: self.flags,
            gateway: some(self.gateway),
            preferred_source: some(self.preferred_source),
            priority: self.has_priority.then_some(self.priority),
            oif: self.has_oif.then_some(self.oif),
            metrics: self.metrics,
            hops: self.hops,
        }
    }
}

/// Puts the request of a route at the front of `out`, as one message with port id 0.
///
/// Or there are none, and a code: 11 where no operation has the number, with nothing written; 11
/// for a metric's number of 16,384 or more; 4 for an attribute of more than 65,535 bytes; 17 where
/// `out` has less room than the message needs; 6 for a message of more than 65,536 bytes. After a
/// refusal the front of `out` holds what was put before it, and the rest is as it was.
#[unsafe(no_mangle)]
pub extern "C" fn rtnlc_request_route(
    fields: &RouteFields<'_>,
    asked: u8,
    seq: u32,
    big: bool,
    out: &mut [u8],
) -> Put
    ensures puts { Puts (route_message (route_in fields.now)) asked seq big out.old out.new result }
    ensures alone { IsPutAlone (route_message (route_in fields.now)) asked seq big out.new result }
{
    put_asked!(fields, asked, seq, big, out)
}
