//! `rtnlc_show` and `rtnlc_show_json`: a datagram as text, or as a line of JSON. They take memory
//! while they run.

ghost use Rattle.std.specs.Prelude.{◌≡◌};
ghost use Rattle.nl_frame.specs.Limits.{AreLimits};
ghost use Rattle.rtnl_c.specs.Options.{bounds_in};
ghost use Rattle.rtnl_c.specs.Shown.{IsShown, Shows, ShowsJson, laid, unshown};

use crate::codes::NO_MEMORY;
use crate::options::{Options, limits};
use rtnl::{push_datagram, push_datagram_json};
use std::alloc::{AllocError, Global};

/// The result: `struct rtnlc_shown` of include/rtnlc.h.
#[repr(C)]
#[derive(Clone, Copy)]
pub struct Shown {
    /// How many bytes the text has, also where the buffer has less room.
    pub len: usize,
    /// 0 where there is a text, else the error's number.
    pub code: u8,
}

impl Shown {
    /// The answer where there is no text: the error of this number.
    fn none(code: u8) -> Shown
        ensures { result ≡ unshown code }
    {
        Shown { len: 0, code }
    }
}

/// Puts the front of a text into a buffer, as much as it has room for.
pub(crate) fn lay(text: &[u8], out: &mut [u8])
    ensures { out.new ≡ laid text.now out.old }
{
    let count = text.len().min(out.len());
    out[..count].copy_from_slice(&text[..count]);
}

/// Puts a text into a buffer, as far as it goes, where memory sufficed for it.
fn show(made: Result<bool, AllocError>, text: &[u8], out: &mut [u8]) -> Shown
    ensures { IsShown made text.now out.old out.new result }
{
    match made {
        Ok(_) => {
            lay(text, out);
            Shown {
                len: text.len(),
                code: 0,
            }
        }
        Err(AllocError) => Shown::none(NO_MEMORY),
    }
}

/// Puts the text of a datagram, which `rtnl show` prints of the datagram of this number, into
/// `out`, as far as `out` goes; 12 where one of the limits is out of its range, 13 where memory ran
/// out: then nothing is put there.
#[unsafe(no_mangle)]
pub extern "C" fn rtnlc_show(
    alloc: Global,
    number: usize,
    bytes: &[u8],
    options: &Options,
    out: &mut [u8],
) -> Shown
    ensures shown { AreLimits (bounds_in options.now)
        → Shows (bounds_in options.now) number bytes.now out.old out.new result }
    ensures limits { (AreLimits (bounds_in options.now) → ⊥)
        → (result ≡ unshown 12) × (out.new ≡ out.old) }
{
    match limits(options) {
        Ok(limits) => {
            let mut text = Vec::new(alloc);
            let made = push_datagram(alloc, &mut text, number, bytes, &limits);
            show(made, text.as_slice(), out)
        }
        Err(fault) => Shown::none(fault.code()),
    }
}

/// Puts the line of JSON of a datagram, which `rtnl show --format json` prints of the datagram of
/// this number, into `out`, as `rtnlc_show` does its text.
#[unsafe(no_mangle)]
pub extern "C" fn rtnlc_show_json(
    alloc: Global,
    number: usize,
    bytes: &[u8],
    options: &Options,
    out: &mut [u8],
) -> Shown
    ensures shown { AreLimits (bounds_in options.now)
        → ShowsJson (bounds_in options.now) number bytes.now out.old out.new result }
    ensures limits { (AreLimits (bounds_in options.now) → ⊥)
        → (result ≡ unshown 12) × (out.new ≡ out.old) }
{
    match limits(options) {
        Ok(limits) => {
            let mut text = Vec::new(alloc);
            let made = push_datagram_json(alloc, &mut text, number, bytes, &limits);
            show(made, text.as_slice(), out)
        }
        Err(fault) => Shown::none(fault.code()),
    }
}
