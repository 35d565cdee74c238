//! The limits, as C hands them in.

ghost use Rattle.std.specs.Prelude.{◌≡◌};
ghost use Rattle.std.specs.Result.{OkIff};
ghost use Rattle.nl_frame.specs.Limits.{AreLimits};
ghost use Rattle.rtnl_c.specs.Options.{bounds_in, order_in};

use nl_frame::{LimitFault, Limits, Order};

/// The limits of a call, a session or a stream: `struct rtnlc_options` of include/rtnlc.h.
#[repr(C)]
#[derive(Clone, Copy)]
pub struct Options {
    /// How many bytes all datagrams of a session or a stream may have: 0 to 2^40.
    pub total: u64,
    /// How many bytes a datagram may have: a multiple of 4 from 16 to 1,048,576.
    pub datagram: u32,
    /// How many entries each table of a session may have: 0 to 65,536.
    pub entries: u32,
    /// How many levels nested attributes may open: 0 to 32.
    pub depth: u8,
    /// Whether numbers are big-endian.
    pub big: bool,
    /// The seed of the hash of a session's tables.
    pub seed: [u8; 16],
}

/// The byte order of numbers.
pub(crate) fn order(big: bool) -> Order
    ensures { result ≡ order_in big }
{
    if big { Order::Big } else { Order::Little }
}

/// The limits. The error is that one of them is out of its range.
pub(crate) fn limits(options: &Options) -> Result<Limits, LimitFault>
    ensures { OkIff result (AreLimits (bounds_in options.now)) (bounds_in options.now) }
{
    let limits = Limits::new(
        options.depth,
        options.datagram,
        options.total,
        options.entries,
    )?;
    Ok(limits.with_order(order(options.big)))
}
