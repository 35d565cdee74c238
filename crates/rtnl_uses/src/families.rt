//! A caller of `nl_route`.

ghost use Rattle.std.specs.Prelude.{◌≡◌, ◌≤◌, length, IfOk, IfErr};
ghost use Rattle.std.specs.Option.{option_map};
ghost use Rattle.nl_attr.specs.Shape.{shape_of};
ghost use Rattle.nl_attr.specs.Heads.{IsFirstFault};
ghost use Rattle.nl_attr.specs.Tree.{Items};
ghost use Rattle.nl_attr.specs.Outcomes.{IfLayout};
ghost use Rattle.nl_attr.specs.declared.order.Order.{Order};
ghost use Rattle.nl_attr.specs.declared.tree.Ctx.{Ctx};
ghost use Rattle.nl_route.specs.Body.{IsObject, attrs_of};
ghost use Rattle.nl_route.specs.Link.{link_fields};
ghost use Rattle.nl_route.specs.Views.{number_view, text_view};
ghost use Rattle.nl_route.specs.declared.ifinfomsg.LinkHead.{LinkHead};

use nl_attr::{Depth, LONGEST_REGION, ListError};
use nl_route::{IFLA_IFNAME, IFLA_MTU, Link};
use std::alloc::Global;

/// What a link is called, and its greatest packet in bytes.
#[derive(Debug, Drop)]
pub struct Named {
    pub name: Option<Vec<u8>>,
    pub mtu: Option<u32>,
}

/// The name and the greatest packet of a link, by its body.
pub fn read_named(alloc: Global, body: &[u8], depth: Depth) -> Result<Named, ListError>
    requires head { 16 ≤ length body.now }
    requires size { length body.now ≤ LONGEST_REGION }
    // They are those of the first `IFLA_IFNAME` and the first `IFLA_MTU` of the body.
    ensures named { IfOk result (λ n. (head : LinkHead) × (attrs : Items)
        × IsObject (shape_of Order.Little depth) 16 (link_fields head) Ctx.Link attrs body.now
        × (option_map (λ v. v.items) n.name ≡ text_view IFLA_IFNAME attrs)
        × (n.mtu ≡ number_view Order.Little 4 IFLA_MTU attrs)) }
    // A fault is the one at the least place.
    ensures first { IfErr result (λ e. IfLayout e (λ fault.
        IsFirstFault (shape_of Order.Little depth)
        (attrs_of 16 Ctx.Link 0 body.now) fault.place fault.reason)) }
{
    let link = Link::read_body(alloc, body, 0, depth).into_result()?;
    let name = match link.name() {
        Some(name) => Some(Vec::from_slice(alloc, name)?),
        None => None,
    };
    Ok(Named {
        name,
        mtu: link.mtu(),
    })
}
