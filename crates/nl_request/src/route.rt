//! Requests that change routes, as `ip route` does (linux/rtnetlink.h).

ghost use Rattle.std.specs.Prelude.{◌≡◌, ◌≤◌, ◌∷◌, [], map, FitsSigned, IfErr, OnOk, Some, length};
ghost use Rattle.std.specs.Int.{w32};
ghost use Rattle.nl_attr.specs.Proper.{IsRangedHops};
ghost use Rattle.nl_frame.specs.Building.{answer, close, open_hop, order_of, put_hop};
ghost use Rattle.nl_frame.specs.Calls.{and_message, calls_of_hops, calls_of_items};
ghost use Rattle.nl_frame.specs.Calls.{run, with_message};
ghost use Rattle.nl_frame.specs.Draft.{Draft, Holds};
ghost use Rattle.nl_frame.specs.Limits.{Bounds};
ghost use Rattle.nl_frame.specs.Parts.{over};
ghost use Rattle.nl_request.specs.Parts.{calls_of_part, items_of};
ghost use Rattle.nl_request.specs.Route.{first_parts, hops_of, hops_part, metric_part};
ghost use Rattle.nl_request.specs.Route.{metrics_part, route_head, route_message};
ghost use Rattle.nl_route.specs.Route as fields;

use crate::asked::Asked;
use crate::gateway::Gateway;
use crate::operation::Operation;
use crate::parts::{put_bytes, put_u32};
use crate::prefix::{Prefix, length_of, put_prefix};
use crate::table::{put_table, table_byte};
use nl_attr::{NO_FLAGS, Order, RTA_METRICS, RTA_MULTIPATH};
use nl_frame::{BuildError, Builder, Family, FamilyHead, PutMessage};
use nl_route::{
    RTA_DST, RTA_GATEWAY, RTA_OIF, RTA_PREFSRC, RTA_PRIORITY, RTA_SRC, RTA_TABLE, RouteHead,
};

/// A request to create, change or delete a route.
///
/// The operations are `Add`, `Replace`, `Change`, `Append`, `Prepend` and `Delete`. The fields of
/// the header, `rtmsg`, have no other defaults than 0. These are what ip(8) sends:
///
/// - To create a route: `protocol` `RTPROT_BOOT` (3), `table` `RT_TABLE_MAIN` (254), `sort`
///   `RTN_UNICAST` (1). For IPv4 without a gateway also `scope` `RT_SCOPE_LINK` (253).
/// - To delete one: `protocol` 0 and `sort` 0. For IPv4 also `scope` `RT_SCOPE_NOWHERE` (255).
#[derive(Clone, Copy, Debug, Default)]
pub struct RouteRequest<'a> {
    /// `rtm_family`: 2 for IPv4, 10 for IPv6.
    pub family: u8,
    /// `RTA_DST` and `rtm_dst_len`: the destination; none for the default route.
    pub destination: Option<Prefix<'a>>,
    /// `RTA_SRC` and `rtm_src_len`: the source that packets must have.
    pub source: Option<Prefix<'a>>,
    /// `rtm_tos`: the type of service.
    pub tos: u8,
    /// The routing table: in `rtm_table` up to 255, and in `RTA_TABLE` above.
    pub table: u32,
    /// `rtm_protocol`: what created the route, an `RTPROT` number.
    pub protocol: u8,
    /// `rtm_scope`: how far the destination is, an `RT_SCOPE` number.
    pub scope: u8,
    /// `rtm_type`: the type of the route, an `RTN` number.
    pub sort: u8,
    /// `rtm_flags`: `RTNH_F_ONLINK`, 4, for a gateway that is reached on the link.
    pub flags: u32,
    /// `RTA_GATEWAY`: the gateway's address, in network byte order.
    pub gateway: Option<&'a [u8]>,
    /// `RTA_PREFSRC`: the preferred source address, in network byte order.
    pub preferred_source: Option<&'a [u8]>,
    /// `RTA_PRIORITY`: the priority of the route, which ip(8) calls metric. The lowest wins.
    pub priority: Option<u32>,
    /// `RTA_OIF`: the index of the output interface.
    pub oif: Option<u32>,
    /// `RTA_METRICS`: the metrics. The attribute is left out where this is empty.
    pub metrics: &'a [Metric],
    /// `RTA_MULTIPATH`: several next hops instead of one. The attribute is left out where this is
    /// empty.
    pub hops: &'a [NextHop],
}

/// A metric of a route, an attribute inside `RTA_METRICS`. It has the layout of a C struct.
#[repr(C)]
#[derive(Clone, Copy, Debug, PartialEq, Eq, Hash)]
pub struct Metric {
    /// The `RTAX` number, as 2 for the MTU, 8 for the MSS, 10 for the hop limit; below 16,384.
    pub number: u16,
    /// The value, in the unit of that metric.
    pub value: u32,
}

/// One of several next hops of a route, `rtnexthop`. It has the layout of a C struct.
#[repr(C)]
#[derive(Clone, Copy, Debug, Default)]
pub struct NextHop {
    /// `rtnh_ifindex`: the index of the interface; 0 for none.
    pub index: i32,
    /// `rtnh_flags`: the `RTNH_F` bits.
    pub flags: u8,
    /// `rtnh_hops`: the weight less one.
    pub hops: u8,
    /// `RTA_GATEWAY`: the gateway, if any.
    pub gateway: Gateway,
}

/// Writes the metrics as attributes, one behind another.
fn put_each_metric(builder: &mut Builder, out: &mut [u8], metrics: &[Metric], order: Order)
    requires fits { builder.old.len ≤ length out.old }
    ensures built { over builder.new out.new
        ≡ run (over builder.old out.old)
        (calls_of_items (items_of (map (metric_part order) metrics.now))) }
    ensures fits { builder.new.len ≤ length out.new }
{
    for metric in metrics {
        let _ = builder.put_u32(out, metric.number, NO_FLAGS, metric.value, order);
    }
}

/// Writes `RTA_METRICS`, where there are metrics.
#[inline(always)]
fn put_metrics(builder: &mut Builder, out: &mut [u8], metrics: &[Metric], order: Order)
    requires fits { builder.old.len ≤ length out.old }
    ensures built { over builder.new out.new
        ≡ run (over builder.old out.old) (calls_of_part (metrics_part order metrics.now)) }
    ensures fits { builder.new.len ≤ length out.new }
{
    if !metrics.is_empty() {
        let _ = builder.open_attr(out, RTA_METRICS, NO_FLAGS);
        put_each_metric(builder, out, metrics, order);
        let _ = builder.close(out);
    }
}

/// Writes a next hop without a gateway.
fn put_bare_hop(builder: &mut Builder, out: &mut [u8], hop: &NextHop)
    requires fits { builder.old.len ≤ length out.old }
    ensures built { over builder.new out.new
        ≡ close (open_hop (over builder.old out.old) hop.now.flags hop.now.hops hop.now.index) }
    ensures fits { builder.new.len ≤ length out.new }
{
    let _ = builder.open_hop(out, hop.flags, hop.hops, hop.index);
    let _ = builder.close(out);
}

/// Writes a next hop with a gateway of this address. It isn't inlined, since most have four bytes.
#[inline(never)]
fn put_long_hop(builder: &mut Builder, out: &mut [u8], hop: &NextHop, address: &[u8])
    requires fits { builder.old.len ≤ length out.old }
    ensures built { over builder.new out.new ≡ put_hop (over builder.old out.old)
        hop.now.flags hop.now.hops hop.now.index fields.RTA_GATEWAY address.now }
    ensures fits { builder.new.len ≤ length out.new }
{
    let _ = builder.put_hop(out, hop.flags, hop.hops, hop.index, RTA_GATEWAY, address);
}

/// Writes a next hop. It is fastest for a gateway of four bytes, an IPv4 address.
fn put_hop(builder: &mut Builder, out: &mut [u8], hop: &NextHop)
    requires fits { builder.old.len ≤ length out.old }
    ensures built { over builder.new out.new
        ≡ run (over builder.old out.old) (calls_of_hops (hops_of (hop.now ∷ []))) }
    ensures fits { builder.new.len ≤ length out.new }
    ensures ranged { FitsSigned w32 hop.now.index }
{
    let (flags, hops, index) = (hop.flags, hop.hops, hop.index);
    let address = hop.gateway.address();
    if let Ok(word) = <[u8; 4]>::try_from(address) {
        let _ = builder.put_hop(out, flags, hops, index, RTA_GATEWAY, &word);
    } else if address.is_empty() {
        put_bare_hop(builder, out, hop);
    } else {
        put_long_hop(builder, out, hop, address);
    }
}

/// Writes the next hops, one behind another.
fn put_each_hop(builder: &mut Builder, out: &mut [u8], hops: &[NextHop])
    requires fits { builder.old.len ≤ length out.old }
    ensures built { over builder.new out.new
        ≡ run (over builder.old out.old) (calls_of_hops (hops_of hops.now)) }
    ensures fits { builder.new.len ≤ length out.new }
    ensures ranged { IsRangedHops (hops_of hops.now) }
{
    for hop in hops {
        put_hop(builder, out, hop);
    }
}

/// Writes `RTA_MULTIPATH`, where there are next hops.
#[inline(always)]
fn put_hops(builder: &mut Builder, out: &mut [u8], hops: &[NextHop])
    requires fits { builder.old.len ≤ length out.old }
    ensures built { over builder.new out.new
        ≡ run (over builder.old out.old) (calls_of_part (hops_part hops.now)) }
    ensures fits { builder.new.len ≤ length out.new }
    ensures ranged { IsRangedHops (hops_of hops.now) }
{
    if !hops.is_empty() {
        let _ = builder.open_attr(out, RTA_MULTIPATH, NO_FLAGS);
        put_each_hop(builder, out, hops);
        let _ = builder.close(out);
    }
}

impl RouteRequest<'_> {
    /// The header of its message, `rtmsg`.
    fn head(&self) -> RouteHead
        ensures { result ≡ route_head self.now }
    {
        RouteHead {
            family: self.family,
            dst_len: length_of(self.destination),
            src_len: length_of(self.source),
            tos: self.tos,
            table: table_byte(self.table),
            protocol: self.protocol,
            scope: self.scope,
            sort: self.sort,
            flags: self.flags,
        }
    }

    /// Writes its attributes but for the metrics and the next hops, up to the first error.
    #[inline(always)]
    fn put_first(
        &self,
        builder: &mut Builder,
        out: &mut [u8],
        order: Order,
    ) -> Result<(), BuildError>
        requires fits { builder.old.len ≤ length out.old }
        ensures built { over builder.new out.new ≡ run (over builder.old out.old)
            (calls_of_items (items_of (first_parts self.now order))) }
        ensures refused { IfErr result (λ e. builder.new.refusal ≡ Some e) }
        ensures fits { builder.new.len ≤ length out.new }
    {
        if let Some(refusal) = builder.refusal() {
            return Err(refusal);
        }
        put_prefix(builder, out, RTA_DST, self.destination)?;
        put_prefix(builder, out, RTA_SRC, self.source)?;
        put_bytes(builder, out, RTA_GATEWAY, self.gateway)?;
        put_bytes(builder, out, RTA_PREFSRC, self.preferred_source)?;
        put_u32(builder, out, RTA_PRIORITY, self.priority, order)?;
        put_table(builder, out, RTA_TABLE, self.table, order)?;
        put_u32(builder, out, RTA_OIF, self.oif, order)
    }

    /// Writes the message of this request into `out`, the slice of `builder`.
    /// `seq` is its sequence number, and its port id is 0.
    ///
    /// The attributes are `RTA_DST`, `RTA_SRC`, `RTA_GATEWAY`, `RTA_PREFSRC`, `RTA_PRIORITY`,
    /// `RTA_TABLE`, `RTA_OIF`, `RTA_METRICS` and `RTA_MULTIPATH`, those that are set.
    ///
    /// The error is the builder's: a message is open, a metric's number is 16,384 or more, an
    /// attribute is too long or opens a level beyond the depth limit, or there is no room in the
    /// slice or below the datagram limit. The builder keeps its first error.
    pub fn put(
        &self,
        operation: Operation,
        seq: u32,
        builder: &mut Builder,
        out: &mut [u8],
    ) -> Result<(), BuildError>
        requires fits { builder.old.len ≤ length out.old }
        ensures built { over builder.new out.new ≡ with_message (over builder.old out.old)
            (route_message self.now operation seq (order_of (over builder.old out.old))) }
        ensures answer { result ≡ answer builder.new.refusal }
        // The builder holds what it held, and this message behind it.
        ensures puts { OnOk result ((d : Draft) (L : Bounds) → Holds L (over builder.old out.old) d
            → Holds L (over builder.new out.new) (and_message d
            (route_message self.now operation seq (order_of (over builder.old out.old))))) }
        ensures fits { builder.new.len ≤ length out.new }
    {
        let order = builder.order();
        let kind = operation.type_of(Family::Route);
        let head = FamilyHead::Route(self.head());
        let _ = builder.begin(out, kind, operation.flags(), seq, 0, &head);
        let _ = self.put_first(builder, out, order);
        put_metrics(builder, out, self.metrics, order);
        put_hops(builder, out, self.hops);
        builder.end(out)
    }
}

impl PutMessage for Asked<'_, RouteRequest<'_>> {
    ghost message = { λ a. route_message a.request.now a.operation a.seq };

    fn put(&self, builder: &mut Builder, out: &mut [u8]) -> Result<(), BuildError> {
        self.request.put(self.operation, self.seq, builder, out)
    }
}
