//! The key of a link. Its field is defined in linux/rtnetlink.h.

use crate::entry::Entry;
use crate::key::{KeyBuffer, append_numbers};
use nl_attr::Order;
use nl_route::Link;
use std::alloc::AllocError;

impl Entry for Link {
    ghost use Rattle.std.specs.Prelude.{refl};
    ghost use Rattle.nl_route.specs.declared.family.Family.TheVariants as family;
    ghost use Rattle.nl_table.specs.Entries.{entry_fields, entry_key};

    ghost fields_of = { entry_fields family.Link };

    ghost key_of = { entry_key family.Link };

    ghost key_is = { λ o e. refl };

    /// The key: the index, `ifi_index`, in 4 bytes.
    #[inline(always)]
    fn append_key<B: KeyBuffer>(&self, key: &mut B, _order: Order) -> Result<(), AllocError> {
        append_numbers!(key, four(self.head.index.cast_unsigned()));
        Ok(())
    }
}
