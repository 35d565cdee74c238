//! The key of an address. Its fields are defined in linux/if_addr.h.

use crate::entry::Entry;
use crate::key::{KeyBuffer, append_bytes, append_numbers};
use nl_attr::Order;
use nl_route::Addr;
use std::alloc::AllocError;

impl Entry for Addr {
    ghost use Rattle.std.specs.Prelude.{refl};
    ghost use Rattle.nl_route.specs.declared.family.Family.TheVariants as family;
    ghost use Rattle.nl_table.specs.Entries.{entry_fields, entry_key};

    ghost fields_of = { entry_fields family.Addr };

    ghost key_of = { entry_key family.Addr };

    ghost key_is = { λ o e. refl };

    /// The key: `ifa_family` in 1 byte, `ifa_index` in 4, `ifa_prefixlen` in 1, `IFA_ADDRESS` and
    /// `IFA_LOCAL`. The byte order isn't needed.
    #[inline(always)]
    fn append_key<B: KeyBuffer>(&self, key: &mut B, _order: Order) -> Result<(), AllocError> {
        append_numbers!(
            key,
            byte(self.head.family),
            four(self.head.index),
            byte(self.head.prefixlen),
        );
        append_bytes(key, self.address())?;
        append_bytes(key, self.local())?;
        Ok(())
    }
}
