//! Links: their header `ifinfomsg` of linux/rtnetlink.h, and `IFLA` attributes of linux/if_link.h.

ghost use Rattle.std.specs.Prelude.{◌≡◌};
ghost use Rattle.std.specs.Option.{option_copied};
ghost use Rattle.nl_attr.specs.Fixed as attr_fixed;
ghost use Rattle.nl_route.specs.Fields.{AreRanged, IsHeadOf, IsWrittenHead};
ghost use Rattle.nl_route.specs.Link as fixed;
ghost use Rattle.nl_route.specs.Link.{link_fields, link_of};
ghost use Rattle.nl_route.specs.Views.{number_view, text_view, items_view, attrs_in};

use crate::family::Family;
use crate::head::Head;
use crate::object::Object;
use crate::views::{list_of, text_of, u8_view, u32_view};
use nl_attr::{Ctx, IFLA_LINKINFO, Order, append_bytes};

/// The name of an interface.
pub const IFLA_IFNAME: u16 = 3;
/// The MTU of an interface: its greatest packet, in bytes.
pub const IFLA_MTU: u16 = 4;
/// The index of the interface, as a bridge or a bond, that this one is a port of.
pub const IFLA_MASTER: u16 = 10;
/// The operational state of an interface.
pub const IFLA_OPERSTATE: u16 = 16;
/// The kind of a virtual interface, inside `IFLA_LINKINFO`.
pub const IFLA_INFO_KIND: u16 = 1;

/// The header of a link message, `ifinfomsg` of rtnetlink(7): 16 bytes. The second byte, padding,
/// is not kept.
#[derive(Clone, Copy, Debug, PartialEq, Eq, Hash)]
pub struct LinkHead {
    /// `ifi_family`: 0 for a link as such, 7 for a port of a bridge.
    pub family: u8,
    /// `ifi_type`: the kind of hardware, an `ARPHRD` number.
    pub hardware: u16,
    /// `ifi_index`: the index of the interface.
    pub index: i32,
    /// `ifi_flags`: the `IFF` bits.
    pub flags: u32,
    /// `ifi_change`: the mask of the flags that change.
    pub change: u32,
}

/// A link: its header, and the attributes behind it.
///
/// Each view decodes the first attribute of its type. It is `None` where that is absent, nested,
/// or too short for a number.
pub type Link = Object<LinkHead>;

impl LinkHead {
    /// Decodes the header in little-endian byte order.
    pub fn read(bytes: &[u8; 16]) -> Self
        ensures { IsHeadOf link_of link_fields Order.Little bytes.now result }
    {
        LinkHead::read_ordered(bytes, Order::Little)
    }

    /// Decodes the header in this byte order.
    pub fn read_ordered(bytes: &[u8; 16], order: Order) -> Self
        ensures { IsHeadOf link_of link_fields order bytes.now result }
    {
        LinkHead {
            family: bytes[0],
            hardware: order.read_u16(&bytes[2..]),
            index: order.read_i32(&bytes[4..]),
            flags: order.read_u32(&bytes[8..]),
            change: order.read_u32(&bytes[12..]),
        }
    }

    /// The header itself. Its contract tells the prover that the numbers are in range.
    fn ranged(self) -> Self
        ensures same { result ≡ self }
        ensures ranged { AreRanged (link_fields self) }
    {
        self
    }

    /// Encodes the header in little-endian byte order. Bytes that aren't kept are zeros.
    pub fn write(&self) -> [u8; 16]
        ensures { IsWrittenHead link_of link_fields Order.Little self.now result }
    {
        self.write_ordered(Order::Little)
    }

    /// Encodes the header in this byte order. Bytes that aren't kept are zeros.
    pub fn write_ordered(&self, order: Order) -> [u8; 16]
        ensures { IsWrittenHead link_of link_fields order self.now result }
    {
        let head = self.ranged();
        let mut bytes = [0; 16];
        bytes[0] = head.family;
        bytes[2..4].copy_from_slice(&order.u16_bytes(head.hardware));
        bytes[4..8].copy_from_slice(&order.i32_bytes(head.index));
        bytes[8..12].copy_from_slice(&order.u32_bytes(head.flags));
        bytes[12..].copy_from_slice(&order.u32_bytes(head.change));
        bytes
    }
}

impl Head for LinkHead {
    ghost use Rattle.std.proofs.Common.{lit≤};
    ghost use Rattle.nl_route.specs.declared.family.Family.TheVariants as family;
    ghost use Rattle.nl_attr.specs.declared.tree.Ctx.TheVariants.{Link};

    const SIZE: usize = 16;

    ghost SIZE = { 16 };

    ghost family = { family.Link };

    ghost ctx = { Link };

    ghost fields = { link_fields };

    ghost of = { link_of };

    ghost small = { lit≤ tt };

    fn family() -> Family {
        Family::Link
    }

    fn context() -> Ctx {
        Ctx::Link
    }

    fn read_front(bytes: &[u8], order: Order) -> Self {
        let mut front = [0; 16];
        front.copy_from_slice(&bytes[..16]);
        LinkHead::read_ordered(&front, order)
    }

    fn put_front(&self, order: Order, out: &mut Vec<u8>) {
        append_bytes(out, &self.write_ordered(order));
    }
}

impl Link {
    /// The name of the interface, `IFLA_IFNAME`.
    pub fn name(&self) -> Option<&[u8]>
        ensures { option_copied result ≡ text_view fixed.IFLA_IFNAME (attrs_in self.now) }
    {
        text_of(&self.attrs, IFLA_IFNAME)
    }

    /// The MTU, in bytes: `IFLA_MTU`, in little-endian byte order.
    ///
    /// For a body that was read in big-endian byte order, call `mtu_ordered`.
    pub fn mtu(&self) -> Option<u32>
        ensures { result ≡ number_view Order.Little 4 fixed.IFLA_MTU (attrs_in self.now) }
    {
        self.mtu_ordered(Order::Little)
    }

    /// The MTU, in bytes: `IFLA_MTU`, in this byte order.
    pub fn mtu_ordered(&self, order: Order) -> Option<u32>
        ensures { result ≡ number_view order 4 fixed.IFLA_MTU (attrs_in self.now) }
    {
        u32_view(&self.attrs, IFLA_MTU, order)
    }

    /// The index of the port's bridge or bond, `IFLA_MASTER`, in little-endian byte order.
    ///
    /// For a body that was read in big-endian byte order, call `master_ordered`.
    pub fn master(&self) -> Option<u32>
        ensures { result ≡ number_view Order.Little 4 fixed.IFLA_MASTER (attrs_in self.now) }
    {
        self.master_ordered(Order::Little)
    }

    /// The index of the port's bridge or bond, `IFLA_MASTER`, in this byte order.
    pub fn master_ordered(&self, order: Order) -> Option<u32>
        ensures { result ≡ number_view order 4 fixed.IFLA_MASTER (attrs_in self.now) }
    {
        u32_view(&self.attrs, IFLA_MASTER, order)
    }

    /// The operational state, `IFLA_OPERSTATE`: an `IF_OPER` number of linux/if.h (RFC 2863).
    pub fn operstate(&self) -> Option<u8>
        ensures { result ≡ number_view Order.Little 1 fixed.IFLA_OPERSTATE (attrs_in self.now) }
    {
        u8_view(&self.attrs, IFLA_OPERSTATE)
    }

    /// The kind of a virtual interface, as `vlan`: `IFLA_INFO_KIND` in `IFLA_LINKINFO`.
    pub fn kind(&self) -> Option<&[u8]>
        ensures { option_copied result
            ≡ text_view fixed.IFLA_INFO_KIND
            (items_view attr_fixed.IFLA_LINKINFO (attrs_in self.now)) }
    {
        text_of(list_of(&self.attrs, IFLA_LINKINFO), IFLA_INFO_KIND)
    }
}
