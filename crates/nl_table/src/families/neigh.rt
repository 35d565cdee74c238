//! The key of a neighbour. Its fields are defined in linux/neighbour.h.

use crate::entry::Entry;
use crate::key::{KeyBuffer, append_bytes, append_numbers};
use nl_attr::Order;
use nl_route::Neigh;
use std::alloc::AllocError;

/// `AF_BRIDGE` of linux/socket.h: `ndm_family` of the entries of a bridge's forwarding table.
pub(crate) const AF_BRIDGE: u8 = 7;

/// The bits of `ndm_flags` that are part of a key: `NTF_SELF`, `NTF_MASTER` and `NTF_PROXY`.
pub(crate) const IDENTIFYING_FLAGS: u8 = 0x0e;

impl Entry for Neigh {
    ghost use Rattle.std.specs.Prelude.{refl};
    ghost use Rattle.nl_route.specs.declared.family.Family.TheVariants as family;
    ghost use Rattle.nl_table.specs.Entries.{entry_fields, entry_key};

    ghost fields_of = { entry_fields family.Neigh };

    ghost key_of = { entry_key family.Neigh };

    ghost key_is = { λ o e. refl };

    /// The key: `ndm_family` in 1 byte, `ndm_ifindex` in 4, `IDENTIFYING_FLAGS` of `ndm_flags` in
    /// 1, and `NDA_DST`.
    ///
    /// Where the family is `AF_BRIDGE`, `NDA_LLADDR`, `NDA_VLAN` in 2 bytes and `NDA_VNI` in 4
    /// follow. An absent number is 0.
    #[inline(always)]
    fn append_key<B: KeyBuffer>(&self, key: &mut B, order: Order) -> Result<(), AllocError> {
        append_numbers!(
            key,
            byte(self.head.family),
            four(self.head.ifindex.cast_unsigned()),
            byte(self.head.flags & IDENTIFYING_FLAGS),
        );
        append_bytes(key, self.dst())?;
        if self.head.family != AF_BRIDGE {
            return Ok(());
        }
        append_bytes(key, self.lladdr())?;
        append_numbers!(
            key,
            two(self.vlan_ordered(order).unwrap_or(0)),
            four(self.vni_ordered(order).unwrap_or(0)),
        );
        Ok(())
    }
}
