//! Neighbours: their header `ndmsg`, and their `NDA` attributes (linux/neighbour.h).

ghost use Rattle.std.specs.Prelude.{◌≡◌};
ghost use Rattle.std.specs.Option.{option_copied};
ghost use Rattle.nl_route.specs.Fields.{AreRanged, IsHeadOf, IsWrittenHead};
ghost use Rattle.nl_route.specs.Neigh as fixed;
ghost use Rattle.nl_route.specs.Neigh.{neigh_fields, neigh_of};
ghost use Rattle.nl_route.specs.Views.{number_view, bytes_view, attrs_in};

use crate::family::Family;
use crate::head::Head;
use crate::object::Object;
use crate::views::{bytes_of, u16_view, u32_view};
use nl_attr::{Ctx, Order, append_bytes};

/// A neighbour's network address.
pub const NDA_DST: u16 = 1;
/// A neighbour's link-layer address.
pub const NDA_LLADDR: u16 = 2;
/// The VLAN of a bridge's forwarding entry.
pub const NDA_VLAN: u16 = 5;
/// The UDP port of a VXLAN entry.
pub const NDA_PORT: u16 = 6;
/// The VXLAN network identifier.
pub const NDA_VNI: u16 = 7;
/// The index of the bridge that a forwarding entry is of.
pub const NDA_MASTER: u16 = 9;

/// The header of a neighbour message, `ndmsg` of rtnetlink(7): 12 bytes. The second to fourth,
/// padding, are not kept.
#[derive(Clone, Copy, Debug, PartialEq, Eq, Hash)]
pub struct NeighHead {
    /// `ndm_family`: 2 for IPv4, 7 for an entry of a bridge, 10 for IPv6.
    pub family: u8,
    /// `ndm_ifindex`: the index of the interface.
    pub ifindex: i32,
    /// `ndm_state`: the `NUD` bits.
    pub state: u16,
    /// `ndm_flags`: the `NTF` bits.
    pub flags: u8,
    /// `ndm_type`: the type of the neighbour's address, an `RTN` number.
    pub sort: u8,
}

/// A neighbour: its header, and the attributes behind it.
///
/// Each view decodes the first attribute of its type. It is `None` where that is absent, nested,
/// or too short for a number.
pub type Neigh = Object<NeighHead>;

impl NeighHead {
    /// Decodes the header in little-endian byte order.
    pub fn read(bytes: &[u8; 12]) -> Self
        ensures { IsHeadOf neigh_of neigh_fields Order.Little bytes.now result }
    {
        NeighHead::read_ordered(bytes, Order::Little)
    }

    /// Decodes the header in this byte order.
    pub fn read_ordered(bytes: &[u8; 12], order: Order) -> Self
        ensures { IsHeadOf neigh_of neigh_fields order bytes.now result }
    {
        NeighHead {
            family: bytes[0],
            ifindex: order.read_i32(&bytes[4..]),
            state: order.read_u16(&bytes[8..]),
            flags: bytes[10],
            sort: bytes[11],
        }
    }

    /// The header itself. Its contract tells the prover that the numbers are in range.
    fn ranged(self) -> Self
        ensures same { result ≡ self }
        ensures ranged { AreRanged (neigh_fields self) }
    {
        self
    }

    /// Encodes the header in little-endian byte order. Bytes that aren't kept are zeros.
    pub fn write(&self) -> [u8; 12]
        ensures { IsWrittenHead neigh_of neigh_fields Order.Little self.now result }
    {
        self.write_ordered(Order::Little)
    }

    /// Encodes the header in this byte order. Bytes that aren't kept are zeros.
    #[tactic(auto, using(crate::proofs::Families::heads))]
    pub fn write_ordered(&self, order: Order) -> [u8; 12]
        ensures { IsWrittenHead neigh_of neigh_fields order self.now result }
    {
        let head = self.ranged();
        let mut bytes = [0; 12];
        bytes[0] = head.family;
        bytes[4..8].copy_from_slice(&order.i32_bytes(head.ifindex));
        bytes[8..10].copy_from_slice(&order.u16_bytes(head.state));
        bytes[10] = head.flags;
        bytes[11] = head.sort;
        bytes
    }
}

impl Head for NeighHead {
    ghost use Rattle.std.proofs.Common.{lit≤};
    ghost use Rattle.nl_route.specs.declared.family.Family.TheVariants as family;
    ghost use Rattle.nl_attr.specs.declared.tree.Ctx.TheVariants.{Neigh};

    const SIZE: usize = 12;

    ghost SIZE = { 12 };

    ghost family = { family.Neigh };

    ghost ctx = { Neigh };

    ghost fields = { neigh_fields };

    ghost of = { neigh_of };

    ghost small = { lit≤ tt };

    fn family() -> Family {
        Family::Neigh
    }

    fn context() -> Ctx {
        Ctx::Neigh
    }

    fn read_front(bytes: &[u8], order: Order) -> Self {
        let mut front = [0; 12];
        front.copy_from_slice(&bytes[..12]);
        NeighHead::read_ordered(&front, order)
    }

    fn put_front(&self, order: Order, out: &mut Vec<u8>) {
        append_bytes(out, &self.write_ordered(order));
    }
}

impl Neigh {
    /// The neighbour's network address, `NDA_DST`.
    pub fn dst(&self) -> Option<&[u8]>
        ensures { option_copied result ≡ bytes_view fixed.NDA_DST (attrs_in self.now) }
    {
        bytes_of(&self.attrs, NDA_DST)
    }

    /// The neighbour's link-layer address, `NDA_LLADDR`.
    pub fn lladdr(&self) -> Option<&[u8]>
        ensures { option_copied result ≡ bytes_view fixed.NDA_LLADDR (attrs_in self.now) }
    {
        bytes_of(&self.attrs, NDA_LLADDR)
    }

    /// The VLAN of a forwarding entry, `NDA_VLAN`, in little-endian byte order.
    ///
    /// For a body that was read in big-endian byte order, call `vlan_ordered`.
    pub fn vlan(&self) -> Option<u16>
        ensures { result ≡ number_view Order.Little 2 fixed.NDA_VLAN (attrs_in self.now) }
    {
        self.vlan_ordered(Order::Little)
    }

    /// The VLAN of a forwarding entry, `NDA_VLAN`, in this byte order.
    pub fn vlan_ordered(&self, order: Order) -> Option<u16>
        ensures { result ≡ number_view order 2 fixed.NDA_VLAN (attrs_in self.now) }
    {
        u16_view(&self.attrs, NDA_VLAN, order)
    }

    /// The VXLAN network identifier, `NDA_VNI`, in little-endian byte order.
    ///
    /// For a body that was read in big-endian byte order, call `vni_ordered`.
    pub fn vni(&self) -> Option<u32>
        ensures { result ≡ number_view Order.Little 4 fixed.NDA_VNI (attrs_in self.now) }
    {
        self.vni_ordered(Order::Little)
    }

    /// The VXLAN network identifier, `NDA_VNI`, in this byte order.
    pub fn vni_ordered(&self, order: Order) -> Option<u32>
        ensures { result ≡ number_view order 4 fixed.NDA_VNI (attrs_in self.now) }
    {
        u32_view(&self.attrs, NDA_VNI, order)
    }

    /// The index of the bridge of a forwarding entry, `NDA_MASTER`, in little-endian byte order.
    ///
    /// For a body that was read in big-endian byte order, call `master_ordered`.
    pub fn master(&self) -> Option<u32>
        ensures { result ≡ number_view Order.Little 4 fixed.NDA_MASTER (attrs_in self.now) }
    {
        self.master_ordered(Order::Little)
    }

    /// The index of the bridge of a forwarding entry, `NDA_MASTER`, in this byte order.
    pub fn master_ordered(&self, order: Order) -> Option<u32>
        ensures { result ≡ number_view order 4 fixed.NDA_MASTER (attrs_in self.now) }
    {
        u32_view(&self.attrs, NDA_MASTER, order)
    }

    /// The UDP port of a VXLAN entry, `NDA_PORT`: always in network byte order.
    pub fn port(&self) -> Option<u16>
        ensures { result ≡ number_view Order.Big 2 fixed.NDA_PORT (attrs_in self.now) }
    {
        u16_view(&self.attrs, NDA_PORT, Order::Big)
    }

    /// The state, `ndm_state`: the `NUD` bits.
    pub fn state(&self) -> u16
        ensures { result ≡ self.now.head.state }
    {
        self.head.state
    }
}
