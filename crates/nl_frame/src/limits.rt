//! The limits of reading, writing and building, and their byte order.

ghost use Rattle.std.specs.Prelude.{◌≡◌};
ghost use Rattle.std.specs.Result.{OkIff};
ghost use Rattle.nl_attr.specs.Shape.{shape_of};
ghost use Rattle.nl_frame.specs.Limits.{AreLimits, bounds_of, standard_bounds};

use nl_attr::{Depth, LONGEST_REGION, LimitFault, Order};
use std::marker::Model;

/// The greatest total limit, in bytes: 2^40.
const GREATEST_TOTAL: u64 = 1_099_511_627_776;

/// The greatest limit on a table's entries.
const MOST_ENTRIES: u32 = 65_536;

/// The limits: the nesting depth of attributes; the bytes of one datagram, and of all datagrams of
/// a session; the entries of a table. With them goes the byte order of numbers.
#[derive(Clone, Copy, Debug, PartialEq, Eq, Hash)]
pub struct Limits {
    order: Order,
    depth: Depth,
    datagram: u32,
    total: u64,
    entries: u32,
}

impl Model for Limits {
    ghost use Rattle.nl_frame.specs.Limits.{Bounds, AreLimits, bounds_of};

    ghost Value = { Bounds };

    ghost view = { λ l. bounds_of l.order l.depth l.datagram l.total l.entries };

    ghost invariant = { λ l. AreLimits (bounds_of l.order l.depth l.datagram l.total l.entries) };

    ghost inverse = { λ b. record {
      order = b.shape.order;
      depth = b.shape.depth;
      datagram = b.datagram;
      total = b.total;
      entries = b.entries;
    } };
}

impl Limits {
    /// These limits, little-endian. `LimitFault` where one is out of its range: a depth of 0 to 32
    /// levels, a datagram of 16 to 1,048,576 bytes and a multiple of 4, a total of 0 to 2^40
    /// bytes, 0 to 65,536 entries.
    pub fn new(depth: u8, datagram: u32, total: u64, entries: u32) -> Result<Limits, LimitFault>
        ensures { OkIff result (AreLimits (bounds_of Order.Little depth datagram total entries))
            (bounds_of Order.Little depth datagram total entries) }
    {
        let depth = Depth::new(depth)?;
        if datagram % 4 != 0
            || datagram < 16
            || datagram as usize > LONGEST_REGION
            || total > GREATEST_TOTAL
            || entries > MOST_ENTRIES
        {
            return Err(LimitFault);
        }
        Ok(Limits {
            order: Order::Little,
            depth,
            datagram,
            total,
            entries,
        })
    }

    /// Depth 8, a datagram of 65,536 bytes, a total of 2^30 bytes, 4,096 entries, little-endian.
    pub fn standard() -> Limits
        ensures { result ≡ standard_bounds }
    {
        Limits {
            order: Order::Little,
            depth: Depth::standard(),
            datagram: 65_536,
            total: 1_073_741_824,
            entries: 4_096,
        }
    }

    /// The same limits in this byte order, which is that of headers. A payload is kept as bytes.
    /// To decode a number in it, call the view that takes the byte order, as
    /// `link.mtu_ordered(limits.order())`: the plain views are little-endian.
    #[must_use]
    pub fn with_order(self, order: Order) -> Limits
        ensures { result ≡ record self { shape = shape_of order self.shape.depth } }
    {
        Limits { order, ..self }
    }

    /// The byte order of numbers.
    pub fn order(&self) -> Order
        ensures { result ≡ self.now.shape.order }
    {
        self.order
    }

    /// How many levels nested attributes may open.
    pub fn depth(&self) -> Depth
        ensures value { result ≡ self.now.shape.depth }
        ensures limits { AreLimits self.now }
    {
        let _total = self.total;
        self.depth
    }

    /// How many bytes a datagram may have.
    pub fn datagram(&self) -> u32
        ensures value { result ≡ self.now.datagram }
        ensures limits { AreLimits self.now }
    {
        self.datagram
    }

    /// How many bytes all datagrams of a session may have.
    pub fn total(&self) -> u64
        ensures value { result ≡ self.now.total }
        ensures limits { AreLimits self.now }
    {
        self.total
    }

    /// How many entries a table may have.
    pub fn entries(&self) -> u32
        ensures value { result ≡ self.now.entries }
        ensures limits { AreLimits self.now }
    {
        self.entries
    }
}

impl Default for Limits {
    ghost is_default = { λ limits. limits ≡ standard_bounds };

    fn default() -> Limits {
        Limits::standard()
    }
}
