//! Routing rules: their header `fib_rule_hdr`, and their `FRA` attributes (linux/fib_rules.h).

ghost use Rattle.std.specs.Prelude.{◌≡◌, unwrap_or};
ghost use Rattle.std.specs.Option.{option_copied};
ghost use Rattle.nl_route.specs.Fields.{AreRanged, IsHeadOf, IsWrittenHead};
ghost use Rattle.nl_route.specs.Rule as fixed;
ghost use Rattle.nl_route.specs.Rule.{rule_fields, rule_of};
ghost use Rattle.nl_route.specs.Views.{number_view, text_view, bytes_view, attrs_in};

use crate::family::Family;
use crate::head::Head;
use crate::object::Object;
use crate::views::{bytes_of, text_of, u32_view};
use nl_attr::{Ctx, Order, append_bytes};

/// A rule's destination.
pub const FRA_DST: u16 = 1;
/// A rule's source.
pub const FRA_SRC: u16 = 2;
/// The name of the input interface.
pub const FRA_IIFNAME: u16 = 3;
/// The priority of the rule to jump to.
pub const FRA_GOTO: u16 = 4;
/// The priority of a rule.
pub const FRA_PRIORITY: u16 = 6;
/// The firewall mark.
pub const FRA_FWMARK: u16 = 10;
/// The routing table, all 32 bits.
pub const FRA_TABLE: u16 = 15;
/// The mask of the firewall mark.
pub const FRA_FWMASK: u16 = 16;
/// The name of the output interface.
pub const FRA_OIFNAME: u16 = 17;

/// The header of a rule message, `fib_rule_hdr` of linux/fib_rules.h: 12 bytes. The sixth and
/// seventh are reserved and not kept.
#[derive(Clone, Copy, Debug, PartialEq, Eq, Hash)]
pub struct RuleHead {
    /// `family`: 2 for IPv4, 10 for IPv6.
    pub family: u8,
    /// `dst_len`: how many bits of the destination count.
    pub dst_len: u8,
    /// `src_len`: how many bits of the source count.
    pub src_len: u8,
    /// `tos`: the type of service.
    pub tos: u8,
    /// `table`: the routing table, an `RT_TABLE` number below 256.
    pub table: u8,
    /// `action`: what is done with a packet, an `FR_ACT` number.
    pub action: u8,
    /// `flags`: the `FIB_RULE` bits.
    pub flags: u32,
}

/// A routing rule: its header, and the attributes behind it.
///
/// Each view decodes the first attribute of its type. It is `None` where that is absent, nested,
/// or too short for a number.
pub type Rule = Object<RuleHead>;

impl RuleHead {
    /// Decodes the header in little-endian byte order.
    pub fn read(bytes: &[u8; 12]) -> Self
        ensures { IsHeadOf rule_of rule_fields Order.Little bytes.now result }
    {
        RuleHead::read_ordered(bytes, Order::Little)
    }

    /// Decodes the header in this byte order.
    pub fn read_ordered(bytes: &[u8; 12], order: Order) -> Self
        ensures { IsHeadOf rule_of rule_fields order bytes.now result }
    {
        RuleHead {
            family: bytes[0],
            dst_len: bytes[1],
            src_len: bytes[2],
            tos: bytes[3],
            table: bytes[4],
            action: bytes[7],
            flags: order.read_u32(&bytes[8..]),
        }
    }

    /// The header itself. Its contract tells the prover that the numbers are in range.
    fn ranged(self) -> Self
        ensures same { result ≡ self }
        ensures ranged { AreRanged (rule_fields self) }
    {
        self
    }

    /// Encodes the header in little-endian byte order. Bytes that aren't kept are zeros.
    pub fn write(&self) -> [u8; 12]
        ensures { IsWrittenHead rule_of rule_fields Order.Little self.now result }
    {
        self.write_ordered(Order::Little)
    }

    /// Encodes the header in this byte order. Bytes that aren't kept are zeros.
    #[tactic(auto, using(crate::proofs::Families::heads))]
    pub fn write_ordered(&self, order: Order) -> [u8; 12]
        ensures { IsWrittenHead rule_of rule_fields order self.now result }
    {
        let head = self.ranged();
        let mut bytes = [0; 12];
        bytes[0] = head.family;
        bytes[1] = head.dst_len;
        bytes[2] = head.src_len;
        bytes[3] = head.tos;
        bytes[4] = head.table;
        bytes[7] = head.action;
        bytes[8..].copy_from_slice(&order.u32_bytes(head.flags));
        bytes
    }
}

impl Head for RuleHead {
    ghost use Rattle.std.proofs.Common.{lit≤};
    ghost use Rattle.nl_route.specs.declared.family.Family.TheVariants as family;
    ghost use Rattle.nl_attr.specs.declared.tree.Ctx.TheVariants.{Rule};

    const SIZE: usize = 12;

    ghost SIZE = { 12 };

    ghost family = { family.Rule };

    ghost ctx = { Rule };

    ghost fields = { rule_fields };

    ghost of = { rule_of };

    ghost small = { lit≤ tt };

    fn family() -> Family {
        Family::Rule
    }

    fn context() -> Ctx {
        Ctx::Rule
    }

    fn read_front(bytes: &[u8], order: Order) -> Self {
        let mut front = [0; 12];
        front.copy_from_slice(&bytes[..12]);
        RuleHead::read_ordered(&front, order)
    }

    fn put_front(&self, order: Order, out: &mut Vec<u8>) {
        append_bytes(out, &self.write_ordered(order));
    }
}

impl Rule {
    /// The network address of the destination, `FRA_DST`.
    pub fn dst(&self) -> Option<&[u8]>
        ensures { option_copied result ≡ bytes_view fixed.FRA_DST (attrs_in self.now) }
    {
        bytes_of(&self.attrs, FRA_DST)
    }

    /// The network address of the source, `FRA_SRC`.
    pub fn src(&self) -> Option<&[u8]>
        ensures { option_copied result ≡ bytes_view fixed.FRA_SRC (attrs_in self.now) }
    {
        bytes_of(&self.attrs, FRA_SRC)
    }

    /// The name of the interface that packets come from, `FRA_IIFNAME`.
    pub fn iifname(&self) -> Option<&[u8]>
        ensures { option_copied result ≡ text_view fixed.FRA_IIFNAME (attrs_in self.now) }
    {
        text_of(&self.attrs, FRA_IIFNAME)
    }

    /// The name of the interface that packets leave by, `FRA_OIFNAME`.
    pub fn oifname(&self) -> Option<&[u8]>
        ensures { option_copied result ≡ text_view fixed.FRA_OIFNAME (attrs_in self.now) }
    {
        text_of(&self.attrs, FRA_OIFNAME)
    }

    /// The priority of the rule to jump to, `FRA_GOTO`, in little-endian byte order.
    ///
    /// For a body that was read in big-endian byte order, call `target_ordered`.
    pub fn target(&self) -> Option<u32>
        ensures { result ≡ number_view Order.Little 4 fixed.FRA_GOTO (attrs_in self.now) }
    {
        self.target_ordered(Order::Little)
    }

    /// The priority of the rule to jump to, `FRA_GOTO`, in this byte order.
    pub fn target_ordered(&self, order: Order) -> Option<u32>
        ensures { result ≡ number_view order 4 fixed.FRA_GOTO (attrs_in self.now) }
    {
        u32_view(&self.attrs, FRA_GOTO, order)
    }

    /// The priority, `FRA_PRIORITY`, in little-endian byte order: rules apply from the lowest on.
    ///
    /// For a body that was read in big-endian byte order, call `priority_ordered`.
    pub fn priority(&self) -> Option<u32>
        ensures { result ≡ number_view Order.Little 4 fixed.FRA_PRIORITY (attrs_in self.now) }
    {
        self.priority_ordered(Order::Little)
    }

    /// The priority, `FRA_PRIORITY`, in this byte order.
    pub fn priority_ordered(&self, order: Order) -> Option<u32>
        ensures { result ≡ number_view order 4 fixed.FRA_PRIORITY (attrs_in self.now) }
    {
        u32_view(&self.attrs, FRA_PRIORITY, order)
    }

    /// The firewall mark, `FRA_FWMARK`, in little-endian byte order.
    ///
    /// For a body that was read in big-endian byte order, call `fwmark_ordered`.
    pub fn fwmark(&self) -> Option<u32>
        ensures { result ≡ number_view Order.Little 4 fixed.FRA_FWMARK (attrs_in self.now) }
    {
        self.fwmark_ordered(Order::Little)
    }

    /// The firewall mark, `FRA_FWMARK`, in this byte order.
    pub fn fwmark_ordered(&self, order: Order) -> Option<u32>
        ensures { result ≡ number_view order 4 fixed.FRA_FWMARK (attrs_in self.now) }
    {
        u32_view(&self.attrs, FRA_FWMARK, order)
    }

    /// The mask of the firewall mark, `FRA_FWMASK`, in little-endian byte order.
    ///
    /// For a body that was read in big-endian byte order, call `fwmask_ordered`.
    pub fn fwmask(&self) -> Option<u32>
        ensures { result ≡ number_view Order.Little 4 fixed.FRA_FWMASK (attrs_in self.now) }
    {
        self.fwmask_ordered(Order::Little)
    }

    /// The mask of the firewall mark, `FRA_FWMASK`, in this byte order.
    pub fn fwmask_ordered(&self, order: Order) -> Option<u32>
        ensures { result ≡ number_view order 4 fixed.FRA_FWMASK (attrs_in self.now) }
    {
        u32_view(&self.attrs, FRA_FWMASK, order)
    }

    /// The routing table: `FRA_TABLE`, in little-endian byte order, or the header's where it has
    /// no number.
    ///
    /// For a body that was read in big-endian byte order, call `table_id_ordered`.
    pub fn table_id(&self) -> u32
        ensures { result ≡ unwrap_or
            (number_view Order.Little 4 fixed.FRA_TABLE (attrs_in self.now)) self.now.head.table }
    {
        self.table_id_ordered(Order::Little)
    }

    /// The routing table: `FRA_TABLE`, in this byte order, or the header's where it has no number.
    pub fn table_id_ordered(&self, order: Order) -> u32
        ensures { result ≡ unwrap_or
            (number_view order 4 fixed.FRA_TABLE (attrs_in self.now)) self.now.head.table }
    {
        u32_view(&self.attrs, FRA_TABLE, order).unwrap_or(u32::from(self.head.table))
    }
}
