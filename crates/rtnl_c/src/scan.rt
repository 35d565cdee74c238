//! `rtnlc_scan` and `rtnlc_tape`: validating a datagram, and indexing its headers. They take no
//! memory.

ghost use Rattle.std.specs.Prelude.{◌≡◌, ◌≤◌, ◌*◌, length};
ghost use Rattle.nl_frame.specs.Limits.{AreLimits};
ghost use Rattle.rtnl_c.specs.Options.{bounds_in};
ghost use Rattle.rtnl_c.specs.Scanned.{Scans, Tapes, refusal_of, refused, untaped};

use crate::codes::TOO_LARGE;
use crate::options::{Options, limits};
use nl_attr::Tally;
use nl_frame::{Counted, Event, Limits, ScanError, scan_datagram, tape_datagram};

/// The result of `rtnlc_scan`: `struct rtnlc_scanned` of include/rtnlc.h.
#[repr(C)]
#[derive(Clone, Copy)]
pub struct Scanned {
    /// How many bytes of attributes and next hops were visited.
    pub visits: u64,
    /// The offset of the first header that breaks a rule; 0 where there is none.
    pub place: u32,
    /// 0 where the datagram is accepted, else the error's number.
    pub code: u8,
}

/// The result of `rtnlc_tape`: `struct rtnlc_taped` of include/rtnlc.h.
#[repr(C)]
#[derive(Clone, Copy)]
pub struct Taped {
    /// How many headers the datagram has, or up to its first error; also where the buffer has room
    /// for fewer.
    pub count: usize,
    /// How many bytes of attributes and next hops were visited.
    pub visits: u64,
    /// The offset of the first header that breaks a rule; 0 where there is none.
    pub place: u32,
    /// 0 where the datagram is accepted, else the error's number.
    pub code: u8,
}

/// The offset and the number of what a scan answers; 0 and 0 where the datagram is accepted.
fn refusal(answer: Result<(), ScanError>) -> (u32, u8)
    ensures { result ≡ refusal_of answer }
{
    match answer {
        Ok(()) => (0, 0),
        Err(ScanError::TooLarge) => (0, TOO_LARGE),
        Err(ScanError::Layout(head)) => (head.fault.place, head.fault.code()),
    }
}

/// `rtnlc_scan`, with limits that are in range.
fn scan(bytes: &[u8], limits: &Limits) -> Scanned
    ensures { Scans limits.now bytes.now result }
{
    let Tally { result, visits } = scan_datagram(bytes, limits);
    let (place, code) = refusal(result);
    Scanned {
        visits,
        place,
        code,
    }
}

/// `rtnlc_tape`, with limits that are in range.
fn tape(bytes: &[u8], limits: &Limits, out: &mut [Event]) -> Taped
    ensures tapes { Tapes limits.now bytes.now out.old out.new result }
    ensures quarter { 4 * result.count ≤ length bytes.now }
{
    let Counted {
        scan: Tally { result, visits },
        count,
    } = tape_datagram(bytes, limits, out);
    let (place, code) = refusal(result);
    Taped {
        count,
        visits,
        place,
        code,
    }
}

/// Whether a datagram is accepted within these limits, or why it is refused; 12 where one of the
/// limits is out of its range.
#[unsafe(no_mangle)]
pub extern "C" fn rtnlc_scan(bytes: &[u8], options: &Options) -> Scanned
    ensures scanned { AreLimits (bounds_in options.now)
        → Scans (bounds_in options.now) bytes.now result }
    ensures limits { (AreLimits (bounds_in options.now) → ⊥) → result ≡ refused 0 0 12 }
{
    match limits(options) {
        Ok(limits) => scan(bytes, &limits),
        Err(fault) => Scanned {
            visits: 0,
            place: 0,
            code: fault.code(),
        },
    }
}

/// Scans a datagram as `rtnlc_scan` does, and puts the event of each header into `out`, in the
/// order of their places and as far as `out` goes.
#[unsafe(no_mangle)]
pub extern "C" fn rtnlc_tape(bytes: &[u8], options: &Options, out: &mut [Event]) -> Taped
    ensures taped { AreLimits (bounds_in options.now)
        → Tapes (bounds_in options.now) bytes.now out.old out.new result }
    ensures limits { (AreLimits (bounds_in options.now) → ⊥)
        → (result ≡ untaped 0 0 0 12) × (out.new ≡ out.old) }
    ensures quarter { 4 * result.count ≤ length bytes.now }
{
    match limits(options) {
        Ok(limits) => tape(bytes, &limits, out),
        Err(fault) => Taped {
            count: 0,
            visits: 0,
            place: 0,
            code: fault.code(),
        },
    }
}
