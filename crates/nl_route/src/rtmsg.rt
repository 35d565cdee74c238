//! Routes: their header `rtmsg`, and their `RTA` attributes (linux/rtnetlink.h).

ghost use Rattle.std.specs.Prelude.{◌≡◌, unwrap_or};
ghost use Rattle.std.specs.Option.{option_copied};
ghost use Rattle.nl_attr.specs.Fixed as attr_fixed;
ghost use Rattle.nl_attr.specs.View.{attrs_view, hops_view};
ghost use Rattle.nl_route.specs.Fields.{AreRanged, IsHeadOf, IsWrittenHead};
ghost use Rattle.nl_route.specs.Route as fixed;
ghost use Rattle.nl_route.specs.Route.{route_fields, route_of};
ghost use Rattle.nl_route.specs.Views.{attrs_in, number_view, bytes_view};
ghost use Rattle.nl_route.specs.Views.{items_view, hop_items_view};

use crate::family::Family;
use crate::head::Head;
use crate::object::Object;
use crate::views::{bytes_of, hops_of, list_of, u32_view};
use nl_attr::{Attr, Ctx, Hop, Order, RTA_METRICS, RTA_MULTIPATH, append_bytes};

/// A route's destination.
pub const RTA_DST: u16 = 1;
/// A route's source.
pub const RTA_SRC: u16 = 2;
/// The index of the input interface.
pub const RTA_IIF: u16 = 3;
/// The index of the output interface.
pub const RTA_OIF: u16 = 4;
/// The gateway.
pub const RTA_GATEWAY: u16 = 5;
/// The priority of a route.
pub const RTA_PRIORITY: u16 = 6;
/// The preferred source address.
pub const RTA_PREFSRC: u16 = 7;
/// The routing table, all 32 bits.
pub const RTA_TABLE: u16 = 15;

/// The header of a route message, `rtmsg` of rtnetlink(7): 12 bytes.
#[derive(Clone, Copy, Debug, PartialEq, Eq, Hash)]
pub struct RouteHead {
    /// `rtm_family`: 2 for IPv4, 10 for IPv6.
    pub family: u8,
    /// `rtm_dst_len`: how many bits of the destination count.
    pub dst_len: u8,
    /// `rtm_src_len`: how many bits of the source count.
    pub src_len: u8,
    /// `rtm_tos`: the type of service.
    pub tos: u8,
    /// `rtm_table`: the routing table, an `RT_TABLE` number below 256.
    pub table: u8,
    /// `rtm_protocol`: who made the route, an `RTPROT` number.
    pub protocol: u8,
    /// `rtm_scope`: how far the destination is, an `RT_SCOPE` number.
    pub scope: u8,
    /// `rtm_type`: the type of the route, an `RTN` number.
    pub sort: u8,
    /// `rtm_flags`: the `RTM_F` bits.
    pub flags: u32,
}

/// A route: its header, and the attributes behind it.
///
/// Each view decodes the first attribute of its type. It is `None` where that is absent, nested,
/// or too short for a number. `metrics` and `hops` are empty instead of `None`.
pub type Route = Object<RouteHead>;

impl RouteHead {
    /// Decodes the header in little-endian byte order.
    pub fn read(bytes: &[u8; 12]) -> Self
        ensures { IsHeadOf route_of route_fields Order.Little bytes.now result }
    {
        RouteHead::read_ordered(bytes, Order::Little)
    }

    /// Decodes the header in this byte order.
    pub fn read_ordered(bytes: &[u8; 12], order: Order) -> Self
        ensures { IsHeadOf route_of route_fields order bytes.now result }
    {
        RouteHead {
            family: bytes[0],
            dst_len: bytes[1],
            src_len: bytes[2],
            tos: bytes[3],
            table: bytes[4],
            protocol: bytes[5],
            scope: bytes[6],
            sort: bytes[7],
            flags: order.read_u32(&bytes[8..]),
        }
    }

    /// The header itself. Its contract tells the prover that the numbers are in range.
    fn ranged(self) -> Self
        ensures same { result ≡ self }
        ensures ranged { AreRanged (route_fields self) }
    {
        self
    }

    /// Encodes the header in little-endian byte order.
    pub fn write(&self) -> [u8; 12]
        ensures { IsWrittenHead route_of route_fields Order.Little self.now result }
    {
        self.write_ordered(Order::Little)
    }

    /// Encodes the header in this byte order.
    #[tactic(auto, using(crate::proofs::Families::heads))]
    pub fn write_ordered(&self, order: Order) -> [u8; 12]
        ensures { IsWrittenHead route_of route_fields order self.now result }
    {
        let head = self.ranged();
        let mut bytes = [0; 12];
        bytes[0] = head.family;
        bytes[1] = head.dst_len;
        bytes[2] = head.src_len;
        bytes[3] = head.tos;
        bytes[4] = head.table;
        bytes[5] = head.protocol;
        bytes[6] = head.scope;
        bytes[7] = head.sort;
        bytes[8..].copy_from_slice(&order.u32_bytes(head.flags));
        bytes
    }
}

impl Head for RouteHead {
    ghost use Rattle.std.proofs.Common.{lit≤};
    ghost use Rattle.nl_route.specs.declared.family.Family.TheVariants as family;
    ghost use Rattle.nl_attr.specs.declared.tree.Ctx.TheVariants.{Route};

    const SIZE: usize = 12;

    ghost SIZE = { 12 };

    ghost family = { family.Route };

    ghost ctx = { Route };

    ghost fields = { route_fields };

    ghost of = { route_of };

    ghost small = { lit≤ tt };

    fn family() -> Family {
        Family::Route
    }

    fn context() -> Ctx {
        Ctx::Route
    }

    fn read_front(bytes: &[u8], order: Order) -> Self {
        let mut front = [0; 12];
        front.copy_from_slice(&bytes[..12]);
        RouteHead::read_ordered(&front, order)
    }

    fn put_front(&self, order: Order, out: &mut Vec<u8>) {
        append_bytes(out, &self.write_ordered(order));
    }
}

impl Route {
    /// The destination, `RTA_DST`.
    #[inline(always)]
    pub fn dst(&self) -> Option<&[u8]>
        ensures { option_copied result ≡ bytes_view fixed.RTA_DST (attrs_in self.now) }
    {
        bytes_of(&self.attrs, RTA_DST)
    }

    /// The source, `RTA_SRC`.
    #[inline(always)]
    pub fn src(&self) -> Option<&[u8]>
        ensures { option_copied result ≡ bytes_view fixed.RTA_SRC (attrs_in self.now) }
    {
        bytes_of(&self.attrs, RTA_SRC)
    }

    /// The gateway, `RTA_GATEWAY`.
    #[inline(always)]
    pub fn gateway(&self) -> Option<&[u8]>
        ensures { option_copied result ≡ bytes_view fixed.RTA_GATEWAY (attrs_in self.now) }
    {
        bytes_of(&self.attrs, RTA_GATEWAY)
    }

    /// The preferred source address, `RTA_PREFSRC`.
    pub fn prefsrc(&self) -> Option<&[u8]>
        ensures { option_copied result ≡ bytes_view fixed.RTA_PREFSRC (attrs_in self.now) }
    {
        bytes_of(&self.attrs, RTA_PREFSRC)
    }

    /// The index of the output interface, `RTA_OIF`, in little-endian byte order.
    ///
    /// For a body that was read in big-endian byte order, call `oif_ordered`.
    pub fn oif(&self) -> Option<u32>
        ensures { result ≡ number_view Order.Little 4 fixed.RTA_OIF (attrs_in self.now) }
    {
        self.oif_ordered(Order::Little)
    }

    /// The index of the output interface, `RTA_OIF`, in this byte order.
    #[inline(always)]
    pub fn oif_ordered(&self, order: Order) -> Option<u32>
        ensures { result ≡ number_view order 4 fixed.RTA_OIF (attrs_in self.now) }
    {
        u32_view(&self.attrs, RTA_OIF, order)
    }

    /// The index of the input interface, `RTA_IIF`, in little-endian byte order.
    ///
    /// For a body that was read in big-endian byte order, call `iif_ordered`.
    pub fn iif(&self) -> Option<u32>
        ensures { result ≡ number_view Order.Little 4 fixed.RTA_IIF (attrs_in self.now) }
    {
        self.iif_ordered(Order::Little)
    }

    /// The index of the input interface, `RTA_IIF`, in this byte order.
    pub fn iif_ordered(&self, order: Order) -> Option<u32>
        ensures { result ≡ number_view order 4 fixed.RTA_IIF (attrs_in self.now) }
    {
        u32_view(&self.attrs, RTA_IIF, order)
    }

    /// The priority of the route, `RTA_PRIORITY`, in little-endian byte order.
    ///
    /// For a body that was read in big-endian byte order, call `priority_ordered`.
    pub fn priority(&self) -> Option<u32>
        ensures { result ≡ number_view Order.Little 4 fixed.RTA_PRIORITY (attrs_in self.now) }
    {
        self.priority_ordered(Order::Little)
    }

    /// The priority of the route, `RTA_PRIORITY`, in this byte order.
    #[inline(always)]
    pub fn priority_ordered(&self, order: Order) -> Option<u32>
        ensures { result ≡ number_view order 4 fixed.RTA_PRIORITY (attrs_in self.now) }
    {
        u32_view(&self.attrs, RTA_PRIORITY, order)
    }

    /// The routing table: `RTA_TABLE`, in little-endian byte order, or `rtm_table` where it has no
    /// number.
    ///
    /// For a body that was read in big-endian byte order, call `table_id_ordered`.
    pub fn table_id(&self) -> u32
        ensures { result ≡ unwrap_or
            (number_view Order.Little 4 fixed.RTA_TABLE (attrs_in self.now)) self.now.head.table }
    {
        self.table_id_ordered(Order::Little)
    }

    /// The routing table: `RTA_TABLE`, in this byte order, or `rtm_table` where it has no number.
    #[inline(always)]
    pub fn table_id_ordered(&self, order: Order) -> u32
        ensures { result ≡ unwrap_or
            (number_view order 4 fixed.RTA_TABLE (attrs_in self.now)) self.now.head.table }
    {
        u32_view(&self.attrs, RTA_TABLE, order).unwrap_or(u32::from(self.head.table))
    }

    /// The metrics: the attributes in `RTA_METRICS`, or none.
    pub fn metrics(&self) -> &[Attr]
        ensures { attrs_view result.now ≡ items_view attr_fixed.RTA_METRICS (attrs_in self.now) }
    {
        list_of(&self.attrs, RTA_METRICS)
    }

    /// The next hops in `RTA_MULTIPATH`, or none.
    pub fn hops(&self) -> &[Hop]
        ensures { hops_view result.now
            ≡ hop_items_view attr_fixed.RTA_MULTIPATH (attrs_in self.now) }
    {
        hops_of(&self.attrs, RTA_MULTIPATH)
    }
}
