//! Addresses: their header `ifaddrmsg`, and their `IFA` attributes (linux/if_addr.h).

ghost use Rattle.std.specs.Prelude.{◌≡◌, unwrap_or};
ghost use Rattle.std.specs.Option.{option_copied};
ghost use Rattle.nl_route.specs.Fields.{AreRanged, IsHeadOf, IsWrittenHead};
ghost use Rattle.nl_route.specs.Addr as fixed;
ghost use Rattle.nl_route.specs.Addr.{addr_fields, addr_of};
ghost use Rattle.nl_route.specs.Views.{number_view, text_view, bytes_view, attrs_in};

use crate::family::Family;
use crate::head::Head;
use crate::object::Object;
use crate::views::{bytes_of, text_of, u32_view};
use nl_attr::{Ctx, Order, append_bytes};

/// The address, or the peer's on a point-to-point link.
pub const IFA_ADDRESS: u16 = 1;
/// The local address.
pub const IFA_LOCAL: u16 = 2;
/// The label of an address.
pub const IFA_LABEL: u16 = 3;
/// The broadcast address.
pub const IFA_BROADCAST: u16 = 4;
/// The flags of an address, all 32 bits.
pub const IFA_FLAGS: u16 = 8;

/// The header of an address message, `ifaddrmsg` of rtnetlink(7): 8 bytes.
#[derive(Clone, Copy, Debug, PartialEq, Eq, Hash)]
pub struct AddrHead {
    /// `ifa_family`: 2 for IPv4, 10 for IPv6.
    pub family: u8,
    /// `ifa_prefixlen`: how many bits of the address are the network's.
    pub prefixlen: u8,
    /// `ifa_flags`: the low eight `IFA_F` bits.
    pub flags: u8,
    /// `ifa_scope`: where the address is valid, an `RT_SCOPE` number.
    pub scope: u8,
    /// `ifa_index`: the index of the interface.
    pub index: u32,
}

/// An address: its header, and the attributes behind it.
///
/// Each view decodes the first attribute of its type. It is `None` where that is absent, nested,
/// or too short for a number.
pub type Addr = Object<AddrHead>;

impl AddrHead {
    /// Decodes the header in little-endian byte order.
    pub fn read(bytes: &[u8; 8]) -> Self
        ensures { IsHeadOf addr_of addr_fields Order.Little bytes.now result }
    {
        AddrHead::read_ordered(bytes, Order::Little)
    }

    /// Decodes the header in this byte order.
    pub fn read_ordered(bytes: &[u8; 8], order: Order) -> Self
        ensures { IsHeadOf addr_of addr_fields order bytes.now result }
    {
        AddrHead {
            family: bytes[0],
            prefixlen: bytes[1],
            flags: bytes[2],
            scope: bytes[3],
            index: order.read_u32(&bytes[4..]),
        }
    }

    /// The header itself. Its contract tells the prover that the numbers are in range.
    fn ranged(self) -> Self
        ensures same { result ≡ self }
        ensures ranged { AreRanged (addr_fields self) }
    {
        self
    }

    /// Encodes the header in little-endian byte order.
    pub fn write(&self) -> [u8; 8]
        ensures { IsWrittenHead addr_of addr_fields Order.Little self.now result }
    {
        self.write_ordered(Order::Little)
    }

    /// Encodes the header in this byte order.
    #[tactic(auto, using(crate::proofs::Families::heads))]
    pub fn write_ordered(&self, order: Order) -> [u8; 8]
        ensures { IsWrittenHead addr_of addr_fields order self.now result }
    {
        let head = self.ranged();
        let mut bytes = [0; 8];
        bytes[0] = head.family;
        bytes[1] = head.prefixlen;
        bytes[2] = head.flags;
        bytes[3] = head.scope;
        bytes[4..].copy_from_slice(&order.u32_bytes(head.index));
        bytes
    }
}

impl Head for AddrHead {
    ghost use Rattle.std.proofs.Common.{lit≤};
    ghost use Rattle.nl_route.specs.declared.family.Family.TheVariants as family;
    ghost use Rattle.nl_attr.specs.declared.tree.Ctx.TheVariants.{Addr};

    const SIZE: usize = 8;

    ghost SIZE = { 8 };

    ghost family = { family.Addr };

    ghost ctx = { Addr };

    ghost fields = { addr_fields };

    ghost of = { addr_of };

    ghost small = { lit≤ tt };

    fn family() -> Family {
        Family::Addr
    }

    fn context() -> Ctx {
        Ctx::Addr
    }

    fn read_front(bytes: &[u8], order: Order) -> Self {
        let mut front = [0; 8];
        front.copy_from_slice(&bytes[..8]);
        AddrHead::read_ordered(&front, order)
    }

    fn put_front(&self, order: Order, out: &mut Vec<u8>) {
        append_bytes(out, &self.write_ordered(order));
    }
}

impl Addr {
    /// The address, or that of the other end of a point-to-point link, `IFA_ADDRESS`.
    pub fn address(&self) -> Option<&[u8]>
        ensures { option_copied result ≡ bytes_view fixed.IFA_ADDRESS (attrs_in self.now) }
    {
        bytes_of(&self.attrs, IFA_ADDRESS)
    }

    /// The local address, `IFA_LOCAL`.
    pub fn local(&self) -> Option<&[u8]>
        ensures { option_copied result ≡ bytes_view fixed.IFA_LOCAL (attrs_in self.now) }
    {
        bytes_of(&self.attrs, IFA_LOCAL)
    }

    /// The label of the address, `IFA_LABEL`.
    pub fn label(&self) -> Option<&[u8]>
        ensures { option_copied result ≡ text_view fixed.IFA_LABEL (attrs_in self.now) }
    {
        text_of(&self.attrs, IFA_LABEL)
    }

    /// The broadcast address, `IFA_BROADCAST`.
    pub fn broadcast(&self) -> Option<&[u8]>
        ensures { option_copied result ≡ bytes_view fixed.IFA_BROADCAST (attrs_in self.now) }
    {
        bytes_of(&self.attrs, IFA_BROADCAST)
    }

    /// All flags: `IFA_FLAGS`, in little-endian byte order, or `ifa_flags` where it has no number.
    ///
    /// For a body that was read in big-endian byte order, call `flags_full_ordered`.
    pub fn flags_full(&self) -> u32
        ensures { result ≡ unwrap_or
            (number_view Order.Little 4 fixed.IFA_FLAGS (attrs_in self.now)) self.now.head.flags }
    {
        self.flags_full_ordered(Order::Little)
    }

    /// All flags: `IFA_FLAGS`, in this byte order, or `ifa_flags` where it has no number.
    pub fn flags_full_ordered(&self, order: Order) -> u32
        ensures { result ≡ unwrap_or
            (number_view order 4 fixed.IFA_FLAGS (attrs_in self.now)) self.now.head.flags }
    {
        u32_view(&self.attrs, IFA_FLAGS, order).unwrap_or(u32::from(self.head.flags))
    }
}
