//! The lines of the families' bodies.

use crate::names::families::{FamilyHead, TableItem};
use crate::names::flags::Bits;
use crate::pieces::segment::Segment;
use crate::text::flags::push_names;
use crate::text::tree::push_attrs;
use nl_attr::Order;
use nl_route::{AddrHead, LinkHead, NeighHead, Object, RouteHead, RuleHead};
use std::alloc::{AllocError, Global};

/// The head of a family, as it is printed.
pub(crate) trait HeadLine: FamilyHead {
    ghost use Rattle.std.specs.Prelude.{◌≡◌, ◌++◌, OnOk};
    ghost use Rattle.rtnl.specs.Messages.{head_line};

    /// Writes the line of the head.
    fn push_line(&self, out: &mut Vec<u8>) -> Result<(), AllocError>
        ensures { OnOk result (out.new.items
            ≡ out.old.items ++ head_line (Self.FamilyHead.as_any self.now)) };
}

/// An item of a table, as it is printed in lines.
pub(crate) trait ItemLines: TableItem {
    ghost use Rattle.std.specs.Prelude.{◌≡◌, ◌++◌, OnOk};
    ghost use Rattle.rtnl.specs.Tabled.{item_text};

    /// Writes the line of the head, and the lines of the attributes.
    fn push(&self, alloc: Global, out: &mut Vec<u8>, order: Order) -> Result<(), AllocError>
        ensures { OnOk result (out.new.items
            ≡ out.old.items ++ item_text order (Self.TableItem.item self.now)) };
}

impl<H: HeadLine> ItemLines for Object<H> {
    fn push(&self, alloc: Global, out: &mut Vec<u8>, order: Order) -> Result<(), AllocError> {
        self.head.push_line(out)?;
        push_attrs(out, &mut Vec::new(alloc), order, H::context(), &self.attrs)
    }
}

impl HeadLine for LinkHead {
    #[tactic(auto, unfolding(crate::specs::Link::link_line), using(crate::proofs::Sets::joins))]
    fn push_line(&self, out: &mut Vec<u8>) -> Result<(), AllocError> {
        let mut front = Segment::new();
        front.put(" ");
        front.put_hex8(self.flags);
        front.put(" flags 0x");
        front.put_signed(self.index.into());
        front.put(" index ");
        front.put_field(" type ", self.hardware as u64);
        front.put_field("  link family ", self.family as u64);
        front.push_to(out)?;
        push_names(out, Bits::Link, self.flags)?;
        let mut end = Segment::new();
        end.put("\n");
        end.put_hex8(self.change);
        end.put(" change 0x");
        end.push_to(out)
    }
}

impl HeadLine for AddrHead {
    #[tactic(auto, unfolding(crate::specs::Addr::addr_line))]
    fn push_line(&self, out: &mut Vec<u8>) -> Result<(), AllocError> {
        let mut line = Segment::new();
        line.put("\n");
        line.put_field(" index ", self.index as u64);
        line.put_field(" scope ", self.scope as u64);
        line.put_hex2(self.flags);
        line.put(" flags 0x");
        line.put_field(" prefix ", self.prefixlen as u64);
        line.put_field("  addr family ", self.family as u64);
        line.push_to(out)
    }
}

impl HeadLine for RouteHead {
    #[tactic(auto, unfolding(crate::specs::Route::route_line))]
    fn push_line(&self, out: &mut Vec<u8>) -> Result<(), AllocError> {
        let mut line = Segment::new();
        line.put("\n");
        line.put_hex8(self.flags);
        line.put(" flags 0x");
        line.put_field(" type ", self.sort as u64);
        line.put_field(" scope ", self.scope as u64);
        line.put_field(" protocol ", self.protocol as u64);
        line.put_field(" table ", self.table as u64);
        line.put_field(" tos ", self.tos as u64);
        line.put_field(" src_len ", self.src_len as u64);
        line.put_field(" dst_len ", self.dst_len as u64);
        line.put_field("  route family ", self.family as u64);
        line.push_to(out)
    }
}

impl HeadLine for NeighHead {
    #[tactic(auto, unfolding(crate::specs::Neigh::neigh_line), using(crate::proofs::Sets::joins))]
    fn push_line(&self, out: &mut Vec<u8>) -> Result<(), AllocError> {
        let mut front = Segment::new();
        front.put(" ");
        front.put_hex4(self.state);
        front.put(" state 0x");
        front.put_signed(self.ifindex.into());
        front.put(" index ");
        front.put_field("  neigh family ", self.family as u64);
        front.push_to(out)?;
        push_names(out, Bits::NeighState, self.state as u32)?;
        let mut middle = Segment::new();
        middle.put(" ");
        middle.put_hex2(self.flags);
        middle.put(" flags 0x");
        middle.push_to(out)?;
        push_names(out, Bits::NeighFlags, self.flags as u32)?;
        let mut end = Segment::new();
        end.put("\n");
        end.put_field(" type ", self.sort as u64);
        end.push_to(out)
    }
}

impl HeadLine for RuleHead {
    #[tactic(auto, unfolding(crate::specs::Rule::rule_line))]
    fn push_line(&self, out: &mut Vec<u8>) -> Result<(), AllocError> {
        let mut line = Segment::new();
        line.put("\n");
        line.put_hex8(self.flags);
        line.put(" flags 0x");
        line.put_field(" action ", self.action as u64);
        line.put_field(" table ", self.table as u64);
        line.put_field(" tos ", self.tos as u64);
        line.put_field(" src_len ", self.src_len as u64);
        line.put_field(" dst_len ", self.dst_len as u64);
        line.put_field("  rule family ", self.family as u64);
        line.push_to(out)
    }
}
