//! `FromBody`: takes the entry of a family out of a message's body.

ghost use Rattle.std.specs.Prelude.{◌≡◌, is_some, refl};
ghost use Rattle.nl_frame.specs.View.{body_view};
ghost use Rattle.nl_route.specs.declared.family.Family.TheVariants as families;
ghost use Rattle.nl_dump.specs.Items.{body_item, item_of};

use nl_frame::Body;
use nl_route::{Addr, Family, Link, Neigh, Route, Rule};
use nl_table::Entry;

/// Whether a body is an entry of this family.
pub fn is_of(kind: Family, body: &Body) -> bool
    ensures { result ≡ is_some (body_item kind (body_view body.now)) }
{
    match kind {
        Family::Link => matches!(body, Body::Link(_)),
        Family::Addr => matches!(body, Body::Addr(_)),
        Family::Route => matches!(body, Body::Route(_)),
        Family::Neigh => matches!(body, Body::Neigh(_)),
        Family::Rule => matches!(body, Body::Rule(_)),
    }
}

/// An entry that is the body of a message: `Link`, `Addr`, `Route`, `Neigh` or `Rule`.
pub trait FromBody: Entry + Drop {
    ghost use Rattle.std.specs.Prelude.{◌≡◌, option_map};
    ghost use Rattle.nl_attr.specs.declared.order.Order.{Order};
    ghost use Rattle.nl_route.specs.declared.family.Family.{Family};
    ghost use Rattle.nl_frame.specs.View.{body_view};
    ghost use Rattle.nl_dump.specs.Items.{Item, item_key, body_item};

    ghost family: { Family };

    ghost item: { Self → Item };

    /// The entry that a body is. `None` for a body of another family.
    fn from_body(body: Body) -> Option<Self>
        ensures { option_map item result ≡ body_item family (body_view body) };

    // The key of an entry is that of its item.
    ghost keyed: { (o : Order) (x : Self) → Self.key_of o x ≡ item_key o (item x) };
}

impl FromBody for Link {
    ghost family = { families.Link };

    ghost item = { item_of families.Link };

    ghost keyed = { λ o x. refl };

    fn from_body(body: Body) -> Option<Self> {
        match body {
            Body::Link(link) => Some(link),
            _ => None,
        }
    }
}

impl FromBody for Addr {
    ghost family = { families.Addr };

    ghost item = { item_of families.Addr };

    ghost keyed = { λ o x. refl };

    fn from_body(body: Body) -> Option<Self> {
        match body {
            Body::Addr(addr) => Some(addr),
            _ => None,
        }
    }
}

impl FromBody for Route {
    ghost family = { families.Route };

    ghost item = { item_of families.Route };

    ghost keyed = { λ o x. refl };

    fn from_body(body: Body) -> Option<Self> {
        match body {
            Body::Route(route) => Some(route),
            _ => None,
        }
    }
}

impl FromBody for Neigh {
    ghost family = { families.Neigh };

    ghost item = { item_of families.Neigh };

    ghost keyed = { λ o x. refl };

    fn from_body(body: Body) -> Option<Self> {
        match body {
            Body::Neigh(neigh) => Some(neigh),
            _ => None,
        }
    }
}

impl FromBody for Rule {
    ghost family = { families.Rule };

    ghost item = { item_of families.Rule };

    ghost keyed = { λ o x. refl };

    fn from_body(body: Body) -> Option<Self> {
        match body {
            Body::Rule(rule) => Some(rule),
            _ => None,
        }
    }
}
