//! `rtnlc_check`: whether a datagram is accepted, and canonical. It takes memory while it runs.

ghost use Rattle.std.specs.Prelude.{◌≡◌};
ghost use Rattle.nl_frame.specs.Limits.{AreLimits};
ghost use Rattle.rtnl_c.specs.Checked.{Checks, found, place_of, unchecked};
ghost use Rattle.rtnl_c.specs.Options.{bounds_in};

use crate::options::{Options, limits};
use nl_frame::{Limits, ReadError, is_canonical};
use std::alloc::Global;

/// The result of a check: `struct rtnlc_checked` of include/rtnlc.h.
#[repr(C)]
#[derive(Clone, Copy)]
pub struct Checked {
    /// The offset of the first header that breaks a rule; 0 where there is none.
    pub place: u32,
    /// 0 where the datagram is accepted, else the error's number.
    pub code: u8,
    /// Whether it is accepted, and exactly what its messages are written as.
    pub canonical: bool,
}

/// The offset in an error, or 0.
pub(crate) fn offset_in_error(error: ReadError) -> u32
    ensures { result ≡ place_of error }
{
    match error {
        ReadError::Layout(fault) => fault.place,
        ReadError::TooLarge | ReadError::Memory => 0,
    }
}

/// What a check found, as C is answered.
fn answer(checked: Result<bool, ReadError>) -> Checked
    ensures { result ≡ found checked }
{
    let (place, code, canonical) = match checked {
        Ok(canonical) => (0, 0, canonical),
        Err(error) => (offset_in_error(error), error.code(), false),
    };
    Checked {
        place,
        code,
        canonical,
    }
}

/// `rtnlc_check`, with limits that are in range.
fn check(alloc: Global, bytes: &[u8], limits: &Limits) -> Checked
    ensures { Checks limits.now bytes.now result }
{
    answer(is_canonical(alloc, bytes, limits))
}

/// Whether a datagram is canonical, accepted or refused within these limits; 12 where one of the
/// limits is out of its range, 13 where memory ran out.
#[unsafe(no_mangle)]
pub extern "C" fn rtnlc_check(alloc: Global, bytes: &[u8], options: &Options) -> Checked
    ensures checked { AreLimits (bounds_in options.now)
        → Checks (bounds_in options.now) bytes.now result }
    ensures limits { (AreLimits (bounds_in options.now) → ⊥) → result ≡ unchecked 12 }
{
    match limits(options) {
        Ok(limits) => check(alloc, bytes, &limits),
        Err(fault) => Checked {
            place: 0,
            code: fault.code(),
            canonical: false,
        },
    }
}
