//! A caller of `nl_frame`.

ghost use Rattle.std.specs.Prelude.{◌≡◌, ◌<◌, ◌↔◌, List, length, IfOk, IfErr, Err};
ghost use Rattle.nl_attr.specs.View.{attrs_view};
ghost use Rattle.nl_route.specs.Views.{number_view};
ghost use Rattle.nl_frame.specs.Message.{MessageVal};
ghost use Rattle.nl_frame.specs.Layout.{Layout};
ghost use Rattle.nl_frame.specs.Heads.{IsFirstFault, whole};
ghost use Rattle.nl_frame.specs.Outcomes.{IfFault};

use nl_frame::{Limits, ReadError, read_datagram};
use nl_route::Link;
use std::alloc::Global;

/// How many messages a datagram has.
pub fn message_count(alloc: Global, datagram: &[u8], limits: &Limits) -> Result<usize, ReadError>
    // It is too large exactly above the limit.
    ensures large { result ≡ Err ReadError.TooLarge ↔ limits.now.datagram < length datagram.now }
    // The datagram has a layout, of so many messages.
    ensures some { IfOk result (λ count. (messages : List MessageVal)
        × Layout limits.now.shape messages datagram.now × (count ≡ length messages)) }
    // It has no other number of messages.
    ensures only { IfOk result (λ count. (messages : List MessageVal)
        → Layout limits.now.shape messages datagram.now → count ≡ length messages) }
    // A fault is the one at the least place.
    ensures first { IfErr result (λ e. IfFault e (λ fault.
        IsFirstFault limits.now.shape (whole datagram.now) fault.place fault.reason)) }
{
    let messages = read_datagram(alloc, datagram, limits).into_result()?;
    Ok(messages.len())
}

/// The greatest packet of a link that was read under these limits, in whatever order.
pub fn mtu_of(link: &Link, limits: &Limits) -> Option<u32>
    // It is the number in the first `IFLA_MTU`, in the order of the limits.
    ensures { result ≡ number_view limits.now.shape.order 4 4 (attrs_view link.now.attrs.items) }
{
    link.mtu_ordered(limits.order())
}
