//! Encodes the headers of attributes and of next hops.

ghost use Rattle.std.specs.Prelude.{◌≡◌, ◌<◌, ◌∷◌, ◌++◌};
ghost use Rattle.std.specs.Int.{w32, cast_unsigned};
ghost use Rattle.nl_attr.specs.Fixed as fixed;
ghost use Rattle.nl_attr.specs.Numbers.{num};
ghost use Rattle.nl_attr.specs.Layout.{kind_number};

use crate::appending::kind_field;
use crate::order::Order;
use crate::tree::AttrFlags;

/// The four bytes of an attribute's header, `rtattr`: `rta_len`, and `rta_type` with its two flag
/// bits, in this byte order. `len` counts the header and the payload, in bytes.
pub fn attr_head(len: u16, number: u16, flags: AttrFlags, order: Order) -> [u8; 4]
    requires { number < fixed.NUMBERS }
    ensures { result ≡ num len 2 order ++ num (kind_number number flags) 2 order }
{
    let mut head = [0; 4];
    head[..2].copy_from_slice(&order.u16_bytes(len));
    head[2..].copy_from_slice(&order.u16_bytes(kind_field(number, flags)));
    head
}

/// The eight bytes of a next hop's header, `rtnexthop`: `rtnh_len`, `rtnh_flags`, `rtnh_hops` and
/// `rtnh_ifindex`, in this byte order. `len` counts the header and the attributes, in bytes.
pub fn hop_head(len: u16, flags: u8, hops: u8, ifindex: i32, order: Order) -> [u8; 8]
    ensures { result
        ≡ num len 2 order ++ (flags ∷ hops ∷ num (cast_unsigned w32 ifindex) 4 order) }
{
    let mut head = [0; 8];
    head[..2].copy_from_slice(&order.u16_bytes(len));
    head[2] = flags;
    head[3] = hops;
    head[4..].copy_from_slice(&order.i32_bytes(ifindex));
    head
}
