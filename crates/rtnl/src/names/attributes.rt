//! The names of attributes, and the forms in which their payloads are printed.

ghost use Rattle.std.specs.Prelude.{◌≡◌, ◌≤◌, length, map, option_map};
ghost use Rattle.nl_attr.specs.Tree.{holds_of};
ghost use Rattle.rtnl.specs.Attributes.{attribute_name, attribute_rows, attribute_style, row_of};
ghost use Rattle.rtnl.specs.Attributes.{inner_context};
ghost use Rattle.rtnl.specs.Named.{named_view};

use crate::names::families;
use crate::names::named::{Named, find_named};
use nl_attr::{AttrFlags, Content, Ctx, holds};

/// How a payload is printed.
#[derive(Clone, Copy)]
pub(crate) enum Style {
    /// A number of 1, 2 or 4 bytes in the order of the datagram.
    U8,
    U16,
    U32,

    /// A number of 2 bytes, the high one first.
    NetworkU16,

    /// Text that may end in a zero byte.
    Text,

    /// An address of IPv4 or IPv6.
    Address,

    /// Bytes.
    Hex,
}

/// The attributes of a context.
fn table(ctx: Ctx) -> &'static [Named<Style>]
    ensures { map named_view result.now ≡ attribute_rows ctx }
{
    match ctx {
        Ctx::Link => families::LINK,
        Ctx::LinkInfo => families::LINK_INFO,
        Ctx::Addr => families::ADDR,
        Ctx::Route => families::ROUTE,
        Ctx::Metrics => families::METRICS,
        Ctx::Neigh => families::NEIGH,
        Ctx::Rule => families::RULE,
        Ctx::Plain => &[],
    }
}

/// The row of an attribute, if it has one.
#[tactic(auto, unfolding(crate::specs::Attributes::row_of))]
pub(crate) fn find(ctx: Ctx, number: u16) -> Option<(&'static str, Style)>
    ensures { option_map (λ row. (row.0.now, row.1)) result ≡ row_of ctx number }
{
    find_named(table(ctx), number)
}

/// The name of an attribute, or a dash, and how its payload is printed.
#[tactic(auto, using(crate::proofs::Sets::short))]
pub(crate) fn attribute(ctx: Ctx, number: u16) -> (&'static str, Style)
    ensures name { result.0.now ≡ attribute_name ctx number }
    ensures style { result.1 ≡ attribute_style ctx number }
    ensures short { length result.0.now ≤ 16 }
{
    match find(ctx, number) {
        Some(row) => row,
        None => ("-", Style::Hex),
    }
}

/// The context of the attributes inside one.
pub(crate) fn inner(ctx: Ctx, number: u16, flags: AttrFlags) -> Ctx
    ensures { result ≡ inner_context (holds_of ctx number flags) }
{
    match holds(ctx, number, flags) {
        Content::List(inner) => inner,
        Content::Bytes | Content::Hops => Ctx::Plain,
    }
}
