//! The key of an entry in a mirror's table.

ghost use Rattle.std.specs.Prelude.{◌≡◌, IfOk};
ghost use Rattle.nl_route.specs.declared.family.Family.TheVariants as families;
ghost use Rattle.nl_route.specs.Views.{attrs_in};
ghost use Rattle.nl_dump.specs.Items.{item_key};
ghost use Rattle.nl_mirror.specs.Told.{is_forwarding, known_head};

use nl_attr::Order;
use nl_dump::FromBody;
use nl_route::{Neigh, NeighHead};
use nl_table::CompactKey;
use std::alloc::{AllocError, Global};

/// `AF_BRIDGE` of linux/socket.h.
pub(crate) const AF_BRIDGE: u8 = 7;

/// `NTF_SELF` of linux/neighbour.h.
const SELF: u8 = 2;

/// The key of an entry in a session's table (`Entry::key_ordered`). The error is for memory.
pub(crate) fn own_key<T: FromBody>(
    alloc: Global,
    order: Order,
    entry: &T,
) -> Result<CompactKey, AllocError>
    ensures { IfOk result (λ key. key ≡ item_key order (T.item entry.now)) }
{
    let mut key = CompactKey::empty();
    key.fill(alloc, order, entry)?;
    Ok(key)
}

/// Whether a neighbour with this header is an entry of a bridge's forwarding table: `AF_BRIDGE`
/// without `NTF_SELF`.
fn is_forwarding(head: &NeighHead) -> bool
    ensures { result ≡ is_forwarding head.now }
{
    head.family == AF_BRIDGE && head.flags & SELF == 0
}

/// The header from which a mirror makes a neighbour's key. It is the neighbour's own, but for a
/// bridge's forwarding entry, where the bridge's index takes the place of the port's.
///
/// The kernel notifies of the new port alone where an address that the bridge has learnt moves.
/// With the port in the key the old entry would stay.
pub(crate) fn known_head(neigh: &Neigh, order: Order) -> NeighHead
    ensures { result ≡ known_head order families.Neigh neigh.now.head (attrs_in neigh.now) }
{
    if !is_forwarding(&neigh.head) {
        return neigh.head;
    }
    NeighHead {
        ifindex: neigh.master_ordered(order).unwrap_or(0).cast_signed(),
        ..neigh.head
    }
}
