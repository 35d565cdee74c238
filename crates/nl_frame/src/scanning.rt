//! Scanning a datagram: validating it as `reading` does, without keeping anything or taking
//! memory. These are the public calls, and the loop is in `taping`.

ghost use Rattle.std.specs.Prelude.{◌≡◌, ◌≤◌, ◌<◌, ◌*◌, length};
ghost use Rattle.nl_attr.specs.HeadOrder.{put_from};
ghost use Rattle.nl_frame.specs.Heads.{whole};
ghost use Rattle.nl_frame.specs.Scans.{ScansDatagram};
ghost use Rattle.nl_frame.specs.Outcomes.{read_code};
ghost use Rattle.nl_frame.specs.Taped.{Ends, read_refusal};
ghost use Rattle.nl_frame.specs.HeadOrder.{events_of};

use crate::limits::Limits;
use crate::taping::{scan_messages, tape_messages};
use nl_attr::{BrokenHead, Event, Tally};
use thiserror::Error;

/// The error of scanning a datagram: that of `read_datagram`, but never for memory.
#[derive(Clone, Copy, Debug, PartialEq, Eq, Hash, Error)]
pub enum ScanError {
    /// The datagram is longer than the datagram limit. No byte of it was read.
    #[error("too large")]
    TooLarge,
    /// A header breaks a rule. It is the first one that does.
    #[error("{}", .0.fault)]
    Layout(BrokenHead),
}

impl ScanError {
    /// The error's number: that of the broken rule, or 6 for `TooLarge`.
    pub fn code(self) -> u8
        ensures { result ≡ read_code (read_refusal self) }
    {
        match self {
            ScanError::Layout(head) => head.fault.code(),
            ScanError::TooLarge => 6,
        }
    }
}

/// The result of `tape_datagram`.
pub struct Counted {
    /// Whether the datagram is accepted, and how many bytes were visited.
    pub scan: Tally<(), ScanError>,
    /// How many headers there are: all of them, or those up to the first error.
    pub count: usize,
}

/// The result of a scan that ended at this header, or that found none broken.
fn answer(broken: Option<BrokenHead>) -> Result<(), ScanError>
    ensures { Ends broken result }
{
    match broken {
        None => Ok(()),
        Some(head) => Err(ScanError::Layout(head)),
    }
}

/// Scans a datagram, and puts one event for each header into `out`, in the order of their offsets,
/// as far as `out` has room: each message's, and behind it those in its body. It takes no memory.
///
/// It also counts the headers, at most a quarter of the datagram's bytes, and the bytes visited.
/// The count may be more than `out` has room for. The errors are those of `read_datagram`, but
/// never `Memory`. After `TooLarge` nothing is counted, and `out` is as it was. After `Layout` the
/// events up to the broken header are in `out`. Its own is, too, where a nested attribute is too
/// long or too deep.
#[inline(always)]
pub fn tape_datagram(bytes: &[u8], limits: &Limits, out: &mut [Event]) -> Counted
    ensures scans { ScansDatagram limits.now bytes.now result.scan }
    ensures untouched { limits.now.datagram < length bytes.now
        → (result.count ≡ 0) × (out.new ≡ out.old) }
    // The events of the headers up to the error stand in the buffer, and the rest is as it was.
    ensures events { length bytes.now ≤ limits.now.datagram
        → out.new ≡ put_from 0 (events_of limits.now.shape (whole bytes.now)) out.old }
    ensures count { length bytes.now ≤ limits.now.datagram
        → result.count ≡ length (events_of limits.now.shape (whole bytes.now)) }
    // A header has at least four bytes that are no other header's.
    ensures quarter { 4 * result.count ≤ length bytes.now }
{
    if bytes.len() > limits.datagram() as usize {
        return Counted {
            scan: Tally {
                result: Err(ScanError::TooLarge),
                visits: 0,
            },
            count: 0,
        };
    }
    let taped = tape_messages(bytes, limits.depth(), limits.order(), out);
    Counted {
        scan: Tally {
            result: answer(taped.broken),
            visits: taped.visits,
        },
        count: taped.count,
    }
}

/// Whether `read_datagram` would accept a datagram, and how many bytes it would visit. It keeps
/// nothing, and takes no memory. The error is `TooLarge` above the datagram limit; else `Layout`,
/// the first header that breaks a rule.
#[inline(always)]
pub fn scan_datagram(bytes: &[u8], limits: &Limits) -> Tally<(), ScanError>
    ensures { ScansDatagram limits.now bytes.now result }
{
    if bytes.len() > limits.datagram() as usize {
        return Tally {
            result: Err(ScanError::TooLarge),
            visits: 0,
        };
    }
    let taped = scan_messages(bytes, limits.depth(), limits.order());
    Tally {
        result: answer(taped.broken),
        visits: taped.visits,
    }
}
