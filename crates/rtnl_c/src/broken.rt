//! `rtnlc_broken`: the header for which a datagram is refused, for error messages. It takes no
//! memory.

ghost use Rattle.std.specs.Prelude.{◌≡◌};
ghost use Rattle.nl_frame.specs.Limits.{AreLimits};
ghost use Rattle.rtnl_c.specs.Broken.{Breaks, answered, sort_of, unbroken};
ghost use Rattle.rtnl_c.specs.Options.{bounds_in};

use crate::codes::TOO_LARGE;
use crate::options::{Options, limits};
use nl_attr::{SORT_BYTES, SORT_MESSAGE, SORT_NEXT_HOP};
use nl_frame::{HeadKind, Limits, ScanError, scan_datagram};

/// The first header of a datagram that breaks a rule: `struct rtnlc_broken_head` of
/// include/rtnlc.h.
#[repr(C)]
#[derive(Clone, Copy)]
pub struct Broken {
    /// Its offset in the datagram, in bytes.
    pub place: u32,
    /// The value of its length field, in bytes; 0 where it is truncated.
    pub len: u32,
    /// How many bytes there are from its offset to the end of its region. A message's region is
    /// the datagram.
    pub left: u32,
    /// The type of a message, or that of an attribute without its two flag bits; 0 for a next hop,
    /// and where it is truncated.
    pub number: u16,
    /// Its nesting level: 0 for a message, and for the attributes of its body.
    pub level: u8,
    /// `SORT_MESSAGE`, `SORT_NEXT_HOP`, or `SORT_BYTES` for an attribute, whatever it holds.
    pub sort: u8,
    /// Whether it is whole: not truncated by the end of its region.
    pub whole: bool,
    /// 0 where the datagram is accepted, else the error's number.
    pub code: u8,
}

impl Broken {
    /// The answer where no header breaks a rule: 0, or the number of another error.
    fn none(code: u8) -> Broken
        ensures { result ≡ unbroken code }
    {
        Broken {
            place: 0,
            len: 0,
            left: 0,
            number: 0,
            level: 0,
            sort: 0,
            whole: false,
            code,
        }
    }
}

/// `Event::sort` of a header of this kind.
fn sort(kind: HeadKind) -> u8
    ensures { result ≡ sort_of kind }
{
    match kind {
        HeadKind::Message => SORT_MESSAGE,
        HeadKind::Attribute => SORT_BYTES,
        HeadKind::NextHop => SORT_NEXT_HOP,
    }
}

/// What a scan answered, as C is answered.
fn answer(scan: Result<(), ScanError>) -> Broken
    ensures { result ≡ answered scan }
{
    match scan {
        Ok(()) => Broken::none(0),
        Err(ScanError::TooLarge) => Broken::none(TOO_LARGE),
        Err(ScanError::Layout(head)) => Broken {
            place: head.fault.place,
            len: head.len.unwrap_or(0),
            left: head.left,
            number: head.number.unwrap_or(0),
            level: head.level,
            sort: sort(head.kind),
            whole: head.len.is_some(),
            code: head.fault.code(),
        },
    }
}

/// `rtnlc_broken`, with limits that are in range.
fn head_at_fault(bytes: &[u8], limits: &Limits) -> Broken
    ensures { Breaks limits.now bytes.now result }
{
    answer(scan_datagram(bytes, limits).into_result())
}

/// The header that breaks a rule at the datagram's first fault, or that there is none; 12 where one
/// of the limits is out of its range.
#[unsafe(no_mangle)]
pub extern "C" fn rtnlc_broken(bytes: &[u8], options: &Options) -> Broken
    ensures broken { AreLimits (bounds_in options.now)
        → Breaks (bounds_in options.now) bytes.now result }
    ensures limits { (AreLimits (bounds_in options.now) → ⊥) → result ≡ unbroken 12 }
{
    match limits(options) {
        Ok(limits) => head_at_fault(bytes, &limits),
        Err(fault) => Broken::none(fault.code()),
    }
}
