//! The limits on attributes: lengths, offsets and nesting depth; and the options of a reading.

ghost use Rattle.std.specs.Prelude.{◌≡◌, ◌≤◌};
ghost use Rattle.std.specs.Result.{OkIff};
ghost use Rattle.nl_attr.specs.Fixed as fixed;

use crate::fault::LimitFault;
use crate::order::Order;
use std::marker::Model;

/// The greatest length of a region, and of a datagram, in bytes: 1 MiB.
pub const LONGEST_REGION: usize = 1_048_576;

/// The greatest length of an attribute or a next hop, in bytes: `rta_len` and `rtnh_len` have 16
/// bits.
pub const LONGEST_ITEM: usize = 65_535;

/// The greatest length of an attribute that holds attributes or next hops, in bytes. It is the
/// greatest multiple of 4 (`RTA_ALIGN`) that the 16 bits of a length field can say.
pub const LONGEST_CONTAINER: usize = 65_532;

/// The greatest offset at which a region may end, in bytes: twice the longest datagram. So an
/// offset, with the base that a caller adds, always fits a `u32`.
pub const FARTHEST_END: u32 = 2_097_152;

/// The greatest depth limit, in levels.
pub const MOST_LEVELS: u8 = 32;

/// The most bytes that one reading visits: `LONGEST_REGION` times `MOST_LEVELS` + 1. Each byte is
/// visited once at every level that it lies in.
pub const MOST_VISITS: u64 = 34_603_008;

/// The depth limit: how many levels nested attributes may open below a message's own, 0 to 32.
///
/// A nested attribute list opens one level, and next hops open two.
#[derive(Clone, Copy, Debug, PartialEq, Eq, Hash)]
pub struct Depth {
    levels: u8,
}

impl Model for Depth {
    ghost use Rattle.std.specs.Prelude.{ℕ, ◌≤◌};
    ghost use Rattle.nl_attr.specs.Fixed.{MOST_LEVELS};

    ghost Value = { ℕ };

    ghost view = { λ d. d.levels };

    ghost invariant = { λ d. d.levels ≤ MOST_LEVELS };

    ghost inverse = { λ n. record { levels = n } };
}

impl Depth {
    /// A limit of `levels` levels. The error is `LimitFault`, for more than 32.
    pub fn new(levels: u8) -> Result<Depth, LimitFault>
        ensures { OkIff result (levels ≤ fixed.MOST_LEVELS) levels }
    {
        if levels > MOST_LEVELS {
            return Err(LimitFault);
        }
        Ok(Depth { levels })
    }

    /// The default limit: eight levels.
    pub fn standard() -> Depth
        ensures { result ≡ fixed.STANDARD_LEVELS }
    {
        Depth { levels: 8 }
    }

    /// The number of levels.
    pub fn get(self) -> u8
        ensures value { result ≡ self }
        ensures limit { result ≤ fixed.MOST_LEVELS }
    {
        self.levels
    }
}

impl Default for Depth {
    ghost is_default = { λ depth. depth ≡ fixed.STANDARD_LEVELS };

    fn default() -> Depth {
        Depth::standard()
    }
}

/// The options of a reading: the byte order of numbers, and the depth limit.
#[derive(Clone, Copy, Debug, PartialEq, Eq)]
pub(crate) struct Shape {
    order: Order,
    depth: Depth,
}

impl Model for Shape {
    ghost use Rattle.std.specs.Prelude.{◌≤◌};
    ghost use Rattle.nl_attr.specs.Shape.{Shape};
    ghost use Rattle.nl_attr.specs.Fixed.{MOST_LEVELS};

    ghost Value = { Shape };

    ghost view = { λ s. record { order = s.order; depth = s.depth } };

    ghost invariant = { λ s. s.depth ≤ MOST_LEVELS };

    ghost inverse = { λ v. record { order = v.order; depth = v.depth } };
}

impl Shape {
    pub(crate) fn of(depth: Depth, order: Order) -> Shape
        ensures { result ≡ record { order = order; depth = depth } }
    {
        Shape { order, depth }
    }

    pub(crate) fn order(self) -> Order
        ensures { result ≡ self.order }
    {
        self.order
    }

    pub(crate) fn depth(self) -> u8
        ensures value { result ≡ self.depth }
        ensures limit { result ≤ fixed.MOST_LEVELS }
    {
        self.depth.get()
    }
}
