//! The trait of family headers: what `ifinfomsg`, `rtmsg` and the others have in common.

ghost use Rattle.std.specs.Prelude.{◌≡◌, ◌≤◌, ◌+◌, ◌++◌, ℕ, List, length};
ghost use Rattle.std.specs.Prelude.{take, vec_len, vec_capacity};
ghost use Rattle.nl_attr.specs.declared.order.Order.{Order};
ghost use Rattle.nl_attr.specs.declared.tree.Ctx.{Ctx};
ghost use Rattle.nl_route.specs.declared.family.Family.{Family};
ghost use Rattle.nl_route.specs.Fields.{Field, AreRanged, IsHeadOf, written};

use crate::family::Family;
use nl_attr::{Ctx, Order};

/// The header that the body of a family's message begins with.
pub trait Head: Sized + Drop {
    /// Its size, in bytes.
    const SIZE: usize;

    ghost SIZE: { ℕ };

    ghost family: { Family };

    ghost ctx: { Ctx };

    // Its fields, in their order.
    ghost fields: { Self → List Field };

    // The header that these bytes are, in this byte order.
    ghost of: { Order → List ℕ → Self };

    /// Its family.
    fn family() -> Family
        ensures { result ≡ family };

    /// The context of the attributes behind it, which says what their types mean.
    fn context() -> Ctx
        ensures { result ≡ ctx };

    /// Decodes the header at the front of a body, in this byte order. Any bytes are a header.
    fn read_front(bytes: &[u8], order: Order) -> Self
        requires { SIZE ≤ length bytes.now }
        ensures { IsHeadOf of fields order (take SIZE bytes.now) result };

    /// Appends the header in this byte order. It takes no memory: `out` has room for `SIZE` bytes.
    fn put_front(&self, order: Order, out: &mut Vec<u8>)
        requires { vec_len out.old + SIZE ≤ vec_capacity out.old }
        ensures items { out.new.items ≡ out.old.items ++ written order (fields self.now) }
        ensures len { vec_len out.new ≡ vec_len out.old + SIZE }
        ensures room { vec_capacity out.old ≤ vec_capacity out.new }
        // Each number of a header in memory is in the range of its Rust type.
        ensures ranged { AreRanged (fields self.now) };

    // A header has at most 64 bytes, so lengths don't overflow.
    ghost small: { SIZE ≤ 64 };
}
