//! The bytes of a datagram beside what they are.
//!
//! - `tape`: the events of a datagram; `lists`: the lists that are open at an event;
//! - `view`: the pieces of a datagram; `inside`: those of a payload; `structs`: fields;
//! - `parts`: pieces, and parts by them; `notation`: the value of a part;
//! - `rows`: rows as text; `json_lines`: rows as lines of JSON.

ghost use Rattle.std.specs.Prelude.{◌≡◌, ◌<◌, ◌≤◌, ◌+◌, ◌++◌, ◌^◌, Some, None, OnOk, length};
ghost use Rattle.rtnl.specs.ByteRows.{opening, refused_at, row_printed};
ghost use Rattle.rtnl.specs.ByteViews.{AddsAllRows, refusal_ending};
ghost use Rattle.rtnl.specs.Tape.{refusal_line};

mod inside;
mod json_lines;
mod lists;
pub(crate) mod notation;
mod parts;
pub(crate) mod rows;
mod structs;
pub(crate) mod tape;
mod view;

use crate::bytes::parts::push_parts;
use crate::bytes::rows::{Printing, RowFormat};
use crate::bytes::tape::Tape;
use crate::bytes::view::{View, view_events, view_refused};
use crate::text::datagram::{push_datagram_line, push_refusal};
use nl_attr::Event;
use nl_frame::{ReadError, ScanError};
use std::alloc::{AllocError, Global};

/// The offset at which a datagram is refused; 0 where it is too large.
fn refused_at(error: ScanError) -> usize
    ensures { result ≡ refused_at error }
{
    match error {
        ScanError::TooLarge => 0,
        ScanError::Layout(head) => head.fault.place as usize,
    }
}

/// Writes the rows of a datagram that is accepted.
fn push_accepted(
    alloc: Global,
    out: &mut Vec<u8>,
    how: Printing,
    bytes: &[u8],
    events: &[Event],
) -> Result<(), AllocError>
    ensures { OnOk result (AddsAllRows (row_printed how.format how.order how.number)
        how.order bytes.now events.now None out.old.items out.new.items) }
{
    let View { pieces, .. } = view_events(alloc, how.order, bytes, events)?;
    push_parts(alloc, out, how, 0, bytes, None, &pieces)
}

/// Writes the rows of a datagram that is refused, before its first fault and from there on.
fn push_refused(
    alloc: Global,
    out: &mut Vec<u8>,
    how: Printing,
    bytes: &[u8],
    events: &[Event],
    error: ScanError,
) -> Result<(), AllocError>
    ensures { OnOk result (AddsAllRows (row_printed how.format how.order how.number)
        how.order bytes.now events.now (Some error) out.old.items out.new.items) }
{
    let stop = refused_at(error).min(bytes.len());
    let (before, behind) = bytes.split_at(stop);
    let View { pieces, lists } = view_events(alloc, how.order, bytes, events)?;
    push_parts(alloc, out, how, 0, before, None, &pieces)?;
    let broken = view_refused(alloc, &lists, error)?;
    push_parts(alloc, out, how, stop, behind, Some(error), &broken)
}

/// Writes the rows of a datagram.
pub(crate) fn push_rows(
    alloc: Global,
    out: &mut Vec<u8>,
    how: Printing,
    bytes: &[u8],
    tape: &Tape,
) -> Result<(), AllocError>
    ensures { OnOk result (AddsAllRows (row_printed how.format how.order how.number)
        how.order bytes.now tape.now.events.items tape.now.refusal out.old.items out.new.items) }
{
    let events = tape.events.as_slice();
    match tape.refusal {
        None => push_accepted(alloc, out, how, bytes, events),
        Some(error) => push_refused(alloc, out, how, bytes, events, error),
    }
}

/// Writes the line before the rows of a datagram. JSON has none.
pub(crate) fn push_opening(out: &mut Vec<u8>, how: Printing, bytes: &[u8]) -> Result<(), AllocError>
    ensures { OnOk result
        (out.new.items ≡ out.old.items ++ opening how.format how.number bytes.now) }
{
    match how.format {
        RowFormat::Text | RowFormat::Coloured => push_datagram_line(out, how.number, bytes.len()),
        RowFormat::Json => Ok(()),
    }
}

/// Writes the line of a refusal, or nothing.
fn push_line(out: &mut Vec<u8>, refusal: Option<ScanError>) -> Result<(), AllocError>
    ensures { OnOk result (out.new.items ≡ out.old.items ++ refusal_line refusal) }
{
    match refusal {
        None => Ok(()),
        Some(ScanError::TooLarge) => push_refusal(out, ReadError::TooLarge),
        Some(ScanError::Layout(head)) => push_refusal(out, ReadError::Layout(head.fault)),
    }
}

/// Writes the line of a refusal after the rows of a datagram. JSON has none.
pub(crate) fn push_ending(
    out: &mut Vec<u8>,
    format: RowFormat,
    refusal: Option<ScanError>,
) -> Result<(), AllocError>
    ensures { OnOk result (out.new.items ≡ out.old.items ++ refusal_ending format refusal) }
{
    match format {
        RowFormat::Text | RowFormat::Coloured => push_line(out, refusal),
        RowFormat::Json => Ok(()),
    }
}
