//! The key of a routing rule. Its fields are defined in linux/fib_rules.h.

ghost use Rattle.std.specs.Prelude.{◌≡◌};
ghost use Rattle.std.specs.Option.{option_copied};
ghost use Rattle.nl_route.specs.Views.{attrs_in, bytes_view};

use crate::entry::Entry;
use crate::key::{KeyBuffer, append_bytes, append_numbers};
use nl_attr::{Order, find};
use nl_route::{FRA_IIFNAME, FRA_OIFNAME, Rule};
use std::alloc::AllocError;

/// The payload of the rule's first attribute of this type. `None` where it is absent or nested.
fn bytes_of(rule: &Rule, number: u16) -> Option<&[u8]>
    ensures { option_copied result ≡ bytes_view number (attrs_in rule.now) }
{
    find(&rule.attrs, number)?.bytes()
}

impl Entry for Rule {
    ghost use Rattle.std.specs.Prelude.{refl};
    ghost use Rattle.nl_route.specs.declared.family.Family.TheVariants as family;
    ghost use Rattle.nl_table.specs.Entries.{entry_fields, entry_key};

    ghost fields_of = { entry_fields family.Rule };

    ghost key_of = { entry_key family.Rule };

    ghost key_is = { λ o e. refl };

    /// The key: `family` and `dst_len` in 1 byte each, `FRA_DST`, `src_len` in 1, and `FRA_SRC`.
    /// Then `tos` in 1, the table and `FRA_PRIORITY` in 4 each, `action` in 1. Last `FRA_GOTO`,
    /// `FRA_FWMARK` and `FRA_FWMASK` in 4 each, `FRA_IIFNAME`, and `FRA_OIFNAME`.
    ///
    /// The table is `FRA_TABLE`, or else `table`. A number that is absent is 0. The names are the
    /// payloads of their attributes, with the zero byte at their end.
    #[inline(always)]
    fn append_key<B: KeyBuffer>(&self, key: &mut B, order: Order) -> Result<(), AllocError> {
        append_numbers!(key, byte(self.head.family), byte(self.head.dst_len));
        append_bytes(key, self.dst())?;
        append_numbers!(key, byte(self.head.src_len));
        append_bytes(key, self.src())?;
        append_numbers!(
            key,
            byte(self.head.tos),
            four(self.table_id_ordered(order)),
            four(self.priority_ordered(order).unwrap_or(0)),
            byte(self.head.action),
            four(self.target_ordered(order).unwrap_or(0)),
            four(self.fwmark_ordered(order).unwrap_or(0)),
            four(self.fwmask_ordered(order).unwrap_or(0)),
        );
        append_bytes(key, bytes_of(self, FRA_IIFNAME))?;
        append_bytes(key, bytes_of(self, FRA_OIFNAME))?;
        Ok(())
    }
}
