//! The families' bodies as fields.

ghost use Rattle.std.specs.Prelude.{◌≡◌};
ghost use Rattle.rtnl.specs.MessagesJson.{set_of};

use crate::json_lines::data::kinds::Scope;
use crate::json_lines::flags::push_names;
use crate::json_lines::line::Line;
use crate::json_lines::tree::push_attrs;
use crate::names::families::{FamilyHead, TableItem};
use crate::names::flags::Bits;
use crate::pieces::segment::Segment;
use nl_attr::Order;
use nl_route::{AddrHead, Family, LinkHead, NeighHead, Object, RouteHead, RuleHead};
use nl_values::Set;
use std::alloc::AllocError;

/// The set of a family's attributes.
pub(crate) fn set_of(family: Family) -> Set
    ensures { result ≡ set_of family }
{
    match family {
        Family::Link => Set::LINK,
        Family::Addr => Set::ADDR,
        Family::Route => Set::ROUTE,
        Family::Neigh => Set::NEIGH,
        Family::Rule => Set::RULE,
    }
}

/// The head of a family, as it is written in JSON.
pub(crate) trait HeadFields: FamilyHead {
    ghost use Rattle.std.specs.Prelude.{◌≡◌, OnOk};
    ghost use Rattle.rtnl.specs.Json.{◌⊕◌, fields_tokens};
    ghost use Rattle.rtnl.specs.MessagesJson.{address_family, head_fields};

    /// The byte of its address family.
    fn address_family(&self) -> u8
        ensures { result ≡ address_family (Self.FamilyHead.as_any self.now) };

    /// Writes the fields of the head.
    fn push_fields(&self, line: &mut Line) -> Result<(), AllocError>
        ensures { OnOk result (line.new
            ≡ line.old ⊕ fields_tokens (head_fields (Self.FamilyHead.as_any self.now))) };
}

/// An item of a table, as it is written in JSON.
pub(crate) trait ItemField: TableItem {
    ghost use Rattle.std.specs.Prelude.{◌≡◌, ◌∷◌, [], OnOk};
    ghost use Rattle.json.specs.Tree.{json_tokens};
    ghost use Rattle.rtnl.specs.Json.{◌⊕◌, fields_tokens};
    ghost use Rattle.rtnl.specs.MessagesJson.{item_field};

    /// Writes an object with the fields of the head and the attributes.
    fn push_value(&self, line: &mut Line, order: Order) -> Result<(), AllocError>
        ensures { OnOk result (line.new
            ≡ line.old ⊕ json_tokens (item_field order (Self.TableItem.item self.now)).1) };

    /// Writes the object of `push_value` as a field of the family's name.
    fn push_field(&self, line: &mut Line, order: Order) -> Result<(), AllocError>
        ensures { OnOk result (line.new
            ≡ line.old ⊕ fields_tokens (item_field order (Self.TableItem.item self.now) ∷ [])) };
}

impl<H: HeadFields> ItemField for Object<H> {
    fn push_value(&self, line: &mut Line, order: Order) -> Result<(), AllocError> {
        line.begin_object()?;
        self.head.push_fields(line)?;
        let family = [self.head.address_family()];
        let scope = Scope {
            order,
            family: &family,
        };
        let set = Some(set_of(H::family()));
        push_attrs(line, "attrs", scope, set, H::context(), &self.attrs)?;
        line.end_object()
    }

    fn push_field(&self, line: &mut Line, order: Order) -> Result<(), AllocError> {
        line.key(H::family().row().name)?;
        self.push_value(line, order)
    }
}

impl HeadFields for LinkHead {
    fn address_family(&self) -> u8 {
        self.family
    }

    #[tactic(auto, unfolding(crate::specs::Link::link_head_fields), using(crate::proofs::Sets::field))]
    fn push_fields(&self, line: &mut Line) -> Result<(), AllocError> {
        let mut piece = Segment::new();
        piece.put_field(",\"flags\":", self.flags as u64);
        piece.put_signed(self.index.into());
        piece.put(",\"index\":");
        piece.put_field(",\"type\":", self.hardware as u64);
        piece.put_small("\"family\":", self.family);
        line.piece(&mut piece, true)?;
        push_names(line, "flag_names", Bits::Link, self.flags)?;
        line.number("change", self.change.into())
    }
}

impl HeadFields for AddrHead {
    fn address_family(&self) -> u8 {
        self.family
    }

    fn push_fields(&self, line: &mut Line) -> Result<(), AllocError> {
        let mut piece = Segment::new();
        piece.put_field(",\"index\":", self.index as u64);
        piece.put_small(",\"scope\":", self.scope);
        piece.put_small(",\"flags\":", self.flags);
        piece.put_small(",\"prefix\":", self.prefixlen);
        piece.put_small("\"family\":", self.family);
        line.piece(&mut piece, true)
    }
}

impl HeadFields for RouteHead {
    fn address_family(&self) -> u8 {
        self.family
    }

    fn push_fields(&self, line: &mut Line) -> Result<(), AllocError> {
        let mut piece = Segment::new();
        piece.put_field(",\"flags\":", self.flags as u64);
        piece.put_small(",\"type\":", self.sort);
        piece.put_small(",\"scope\":", self.scope);
        piece.put_small(",\"protocol\":", self.protocol);
        piece.put_small(",\"table\":", self.table);
        piece.put_small(",\"tos\":", self.tos);
        piece.put_small(",\"src_len\":", self.src_len);
        piece.put_small(",\"dst_len\":", self.dst_len);
        piece.put_small("\"family\":", self.family);
        line.piece(&mut piece, true)
    }
}

impl HeadFields for NeighHead {
    fn address_family(&self) -> u8 {
        self.family
    }

    #[tactic(auto, unfolding(crate::specs::Neigh::neigh_head_fields), using(crate::proofs::Sets::field))]
    fn push_fields(&self, line: &mut Line) -> Result<(), AllocError> {
        let mut piece = Segment::new();
        piece.put_field(",\"state\":", self.state as u64);
        piece.put_signed(self.ifindex.into());
        piece.put(",\"index\":");
        piece.put_small("\"family\":", self.family);
        line.piece(&mut piece, true)?;
        push_names(line, "state_names", Bits::NeighState, self.state as u32)?;
        line.number("flags", self.flags.into())?;
        push_names(line, "flag_names", Bits::NeighFlags, self.flags as u32)?;
        line.number("type", self.sort.into())
    }
}

impl HeadFields for RuleHead {
    fn address_family(&self) -> u8 {
        self.family
    }

    fn push_fields(&self, line: &mut Line) -> Result<(), AllocError> {
        let mut piece = Segment::new();
        piece.put_field(",\"flags\":", self.flags as u64);
        piece.put_small(",\"action\":", self.action);
        piece.put_small(",\"table\":", self.table);
        piece.put_small(",\"tos\":", self.tos);
        piece.put_small(",\"src_len\":", self.src_len);
        piece.put_small(",\"dst_len\":", self.dst_len);
        piece.put_small("\"family\":", self.family);
        line.piece(&mut piece, true)
    }
}
