//! The key of a route. Its fields are defined in linux/rtnetlink.h.

ghost use Rattle.std.specs.Prelude.{◌≡◌};
ghost use Rattle.std.specs.Option.{option_copied};
ghost use Rattle.nl_attr.specs.View.{value_view};
ghost use Rattle.nl_attr.specs.Views as views;
ghost use Rattle.nl_route.specs.Route as fixed;
ghost use Rattle.nl_route.specs.Views.{attrs_in, bytes_view};
ghost use Rattle.nl_table.specs.Attributes.{number_at, table_id};

use crate::entry::Entry;
use crate::key::{KeyBuffer, append_bytes, append_numbers};
use nl_attr::{Attr, Order};
use nl_route::{RTA_DST, RTA_GATEWAY, RTA_OIF, RTA_PRIORITY, RTA_SRC, RTA_TABLE, Route};
use std::alloc::AllocError;

/// The first four bytes of an attribute's payload as a number in this byte order. `None` where it
/// has fewer.
#[inline(always)]
fn number_in(attr: &Attr, order: Order) -> Option<u32>
    ensures { result ≡ views.number_in order 4 (value_view attr.now.value) }
{
    match attr.bytes() {
        Some(bytes) if bytes.len() >= 4 => Some(order.read_u32(bytes)),
        _ => None,
    }
}

/// The fields of a route's key that come from its attributes.
#[derive(Clone, Copy)]
struct Parts<'a> {
    dst: Option<&'a [u8]>,
    src: Option<&'a [u8]>,
    gateway: Option<&'a [u8]>,
    table: u32,
    priority: u32,
    interface: u32,
}

/// Collects `Parts` in one pass, from the last attribute to the first. So of several attributes of
/// one type the first counts.
#[inline(always)]
fn parts_of(route: &Route, order: Order) -> Parts<'_>
    ensures dst { option_copied result.dst ≡ bytes_view fixed.RTA_DST (attrs_in route.now) }
    ensures src { option_copied result.src ≡ bytes_view fixed.RTA_SRC (attrs_in route.now) }
    ensures gateway { option_copied result.gateway
        ≡ bytes_view fixed.RTA_GATEWAY (attrs_in route.now) }
    ensures table { result.table
        ≡ table_id order fixed.RTA_TABLE route.now.head.table (attrs_in route.now) }
    ensures priority { result.priority ≡ number_at order fixed.RTA_PRIORITY (attrs_in route.now) }
    ensures interface { result.interface ≡ number_at order fixed.RTA_OIF (attrs_in route.now) }
{
    let table = u32::from(route.head.table);
    let mut parts = Parts {
        dst: None,
        src: None,
        gateway: None,
        table,
        priority: 0,
        interface: 0,
    };
    let mut at = route.attrs.len();
    while at > 0 {
        at -= 1;
        let attr = &route.attrs[at];
        match attr.number {
            RTA_DST => parts.dst = attr.bytes(),
            RTA_SRC => parts.src = attr.bytes(),
            RTA_OIF => parts.interface = number_in(attr, order).unwrap_or(0),
            RTA_GATEWAY => parts.gateway = attr.bytes(),
            RTA_PRIORITY => parts.priority = number_in(attr, order).unwrap_or(0),
            RTA_TABLE => parts.table = number_in(attr, order).unwrap_or(table),
            _ => {}
        }
    }
    parts
}

impl Entry for Route {
    ghost use Rattle.std.specs.Prelude.{refl};
    ghost use Rattle.nl_route.specs.declared.family.Family.TheVariants as family;
    ghost use Rattle.nl_table.specs.Entries.{entry_fields, entry_key};

    ghost fields_of = { entry_fields family.Route };

    ghost key_of = { entry_key family.Route };

    ghost key_is = { λ o e. refl };

    /// The key: `rtm_family` and `rtm_dst_len` in 1 byte each, `RTA_DST`, `rtm_src_len` in 1, and
    /// `RTA_SRC`. Then `rtm_tos` in 1, the table and `RTA_PRIORITY` in 4 each, `rtm_type` in 1.
    /// Last `RTA_OIF` in 4, and `RTA_GATEWAY`.
    ///
    /// The table is `RTA_TABLE`, or else `rtm_table`. A priority or an interface that is absent
    /// is 0.
    #[inline(always)]
    fn append_key<B: KeyBuffer>(&self, key: &mut B, order: Order) -> Result<(), AllocError> {
        let parts = parts_of(self, order);
        append_numbers!(key, byte(self.head.family), byte(self.head.dst_len));
        append_bytes(key, parts.dst)?;
        append_numbers!(key, byte(self.head.src_len));
        append_bytes(key, parts.src)?;
        append_numbers!(
            key,
            byte(self.head.tos),
            four(parts.table),
            four(parts.priority),
            byte(self.head.sort),
            four(parts.interface),
        );
        append_bytes(key, parts.gateway)?;
        Ok(())
    }
}
