//! The kind: the payload of the attribute that says what another one holds.

ghost use Rattle.std.specs.Prelude.{◌≡◌, ◌≤◌, [], length};
ghost use Rattle.nl_attr.specs.Fixed as fixed;
ghost use Rattle.nl_attr.specs.View.{attrs_view, value_view};
ghost use Rattle.rtnl.specs.Data.{held, kind_for, left_behind, only_in, parts_in, parts_of};

use nl_attr::{Attr, Attrs, Order, Value};
use nl_values::{Format, Selector};

/// How many formats a kind may choose in a list. The list is searched for each.
pub(crate) const MOST_CHOSEN: u8 = 4;

/// The payload of the only attribute of this number in a region. It has no bytes where there is
/// none, or more than one.
pub(crate) fn only_in_region(order: Order, region: &[u8], number: u16) -> &[u8]
    requires { length region.now ≤ fixed.LONGEST_REGION }
    ensures { result.now ≡ only_in number (parts_of order region.entry.now) }
{
    let mut only = None;
    for part in Attrs::of_ordered(region, order) {
        match part {
            Ok(part) => {
                if part.number == number {
                    if only.is_some() {
                        return &[];
                    }
                    only = Some(part.payload);
                }
            }
            Err(_) => return only.unwrap_or(&[]),
        }
    }
    only.unwrap_or(&[])
}

/// The bytes of a value; none for a nested attribute.
fn held(value: &Value) -> &[u8]
    ensures { result.now ≡ held (value_view value.entry.now) }
{
    match value {
        Value::Bytes(payload) => payload.as_slice(),
        Value::List(_) | Value::Hops(_) => &[],
    }
}

/// What `only_in_region` answers, of a list that was read.
fn only_in_list(attrs: &[Attr], number: u16) -> &[u8]
    ensures { result.now ≡ only_in number (parts_in (attrs_view attrs.entry.now)) }
{
    let mut only = None;
    for attr in attrs {
        if attr.number == number {
            if only.is_some() {
                return &[];
            }
            only = Some(held(&attr.value));
        }
    }
    only.unwrap_or(&[])
}

/// What all attributes of a message share.
#[derive(Clone, Copy)]
pub(crate) struct Scope<'a> {
    pub(crate) order: Order,
    /// The byte of the address family in the head.
    pub(crate) family: &'a [u8],
}

/// The kind for a format, in a list that was read, or no bytes. `left` says how many formats a
/// kind may still choose.
pub(crate) fn kind_in_list<'a>(
    scope: Scope<'a>,
    attrs: &'a [Attr],
    left: u8,
    format: Format,
) -> &'a [u8]
    ensures { result.now
        ≡ kind_for left scope.entry.family.now [] (parts_in (attrs_view attrs.entry.now)) format }
{
    if left == 0 {
        return &[];
    }
    match format {
        Format::Chosen(_, Selector::Family) => scope.family,
        Format::Chosen(_, Selector::Beside(number)) => only_in_list(attrs, number),
        _ => &[],
    }
}

/// What `kind_in_list` answers, of a region that lies in the region `outer`.
pub(crate) fn kind_in_region<'a>(
    scope: Scope<'a>,
    outer: &'a [u8],
    region: &'a [u8],
    left: u8,
    format: Format,
) -> &'a [u8]
    requires outer { length outer.now ≤ fixed.LONGEST_REGION }
    requires region { length region.now ≤ fixed.LONGEST_REGION }
    ensures { result.now ≡ kind_for left scope.entry.family.now
        (parts_of scope.entry.order outer.entry.now)
        (parts_of scope.entry.order region.entry.now) format }
{
    if left == 0 {
        return &[];
    }
    match format {
        Format::Chosen(_, Selector::Family) => scope.family,
        Format::Chosen(_, Selector::Beside(number)) => only_in_region(scope.order, region, number),
        Format::Chosen(_, Selector::Above(number)) => only_in_region(scope.order, outer, number),
        _ => &[],
    }
}

/// How many formats a kind may still choose after an attribute of this format.
pub(crate) fn left_behind(left: u8, format: Format) -> u8
    ensures { result ≡ left_behind left format }
{
    match format {
        Format::Chosen(_, _) => left.saturating_sub(1),
        _ => left,
    }
}
