//! Looks up the first attribute of the type `number` in a list, and decodes its payload. `None`
//! where that is absent, nested, or too short.

ghost use Rattle.std.specs.Prelude.{◌≡◌};
ghost use Rattle.std.specs.Option.{option_copied};
ghost use Rattle.nl_attr.specs.View.{attrs_view, hops_view};
ghost use Rattle.nl_route.specs.Views.{number_view, text_view, bytes_view};
ghost use Rattle.nl_route.specs.Views.{items_view, hop_items_view};

use nl_attr::{Attr, Hop, Order, Value, find};

/// The first byte of the payload.
pub(crate) fn u8_view(attrs: &[Attr], number: u16) -> Option<u8>
    ensures { result ≡ number_view Order.Little 1 number (attrs_view attrs.now) }
{
    find(attrs, number)?.u8_value()
}

/// The number in the first two bytes of the payload, in this byte order.
pub(crate) fn u16_view(attrs: &[Attr], number: u16, order: Order) -> Option<u16>
    ensures { result ≡ number_view order 2 number (attrs_view attrs.now) }
{
    find(attrs, number)?.u16_value_ordered(order)
}

/// The number in the first four bytes of the payload, in this byte order.
#[inline(always)]
pub(crate) fn u32_view(attrs: &[Attr], number: u16, order: Order) -> Option<u32>
    ensures { result ≡ number_view order 4 number (attrs_view attrs.now) }
{
    find(attrs, number)?.u32_value_ordered(order)
}

/// The payload up to its first zero byte, or all of it where there is none.
pub(crate) fn text_of(attrs: &[Attr], number: u16) -> Option<&[u8]>
    ensures { option_copied result ≡ text_view number (attrs_view attrs.now) }
{
    find(attrs, number)?.text()
}

/// The whole payload.
#[inline(always)]
pub(crate) fn bytes_of(attrs: &[Attr], number: u16) -> Option<&[u8]>
    ensures { option_copied result ≡ bytes_view number (attrs_view attrs.now) }
{
    find(attrs, number)?.bytes()
}

/// The attributes nested in the attribute, or none.
pub(crate) fn list_of(attrs: &[Attr], number: u16) -> &[Attr]
    ensures { attrs_view result.now ≡ items_view number (attrs_view attrs.now) }
{
    match find(attrs, number) {
        Some(
            Attr {
                value: Value::List(list),
                ..
            },
        ) => list.as_slice(),
        _ => &[],
    }
}

/// The next hops in the attribute, or none.
pub(crate) fn hops_of(attrs: &[Attr], number: u16) -> &[Hop]
    ensures { hops_view result.now ≡ hop_items_view number (attrs_view attrs.now) }
{
    match find(attrs, number) {
        Some(
            Attr {
                value: Value::Hops(hops),
                ..
            },
        ) => hops.as_slice(),
        _ => &[],
    }
}
