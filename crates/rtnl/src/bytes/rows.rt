//! The rows in which the bytes of a part are printed.

ghost use Rattle.std.specs.Prelude.{◌≡◌, ◌<◌, ◌≤◌, ◌+◌, ◌^◌, ◌++◌, ◌∷◌, [], true, Some, length};
ghost use Rattle.std.specs.Prelude.{OnOk, codes};
ghost use Rattle.std.specs.List.{flat_map};
ghost use Rattle.rtnl.specs.ByteRows.{beside, blanks, cell, fault_behind};
ghost use Rattle.rtnl.specs.ByteRows.{margin, mark, paint, refusal_behind, rule_at};
ghost use Rattle.rtnl.specs.ByteRows.{row_printed, row_text, words, words_in};
ghost use Rattle.rtnl.specs.ByteViews.{AddsPart, part_view, row_view};

use crate::bytes::json_lines::push_json;
use crate::bytes::notation::{Notation, push_value_behind};
use crate::names::kernel::KernelName;
use crate::names::reasons::reason_name;
use crate::pieces::colours::{FAINT, RED, push_end};
use crate::pieces::segment::Segment;
use crate::pieces::{push, push_decimal};
use nl_attr::{BrokenHead, Fault, Order};
use nl_frame::ScanError;
use std::alloc::{AllocError, Global};

/// How the rows of bytes are printed.
#[derive(Clone, Copy, Debug, PartialEq, Eq, Hash)]
pub enum RowFormat {
    /// A line of text for each row.
    Text,
    /// A line of text for each row, with colours for a terminal.
    Coloured,
    /// An object on a line for each row.
    Json,
}

/// What the bytes of a part are.
#[derive(Clone, Copy)]
pub(crate) struct Label {
    /// How many levels of attributes they lie in.
    pub level: u16,
    /// How many blanks stand before the name.
    pub indent: u32,
    pub name: KernelName,
    pub notation: Notation,
    /// Whether they are padding, or were not read.
    pub is_aside: bool,
}

/// A part of a datagram.
#[derive(Clone, Copy)]
pub(crate) struct BytePart<'a> {
    /// The offset of its first byte.
    pub place: u64,
    pub bytes: &'a [u8],
    pub label: Label,
    /// Why the datagram is refused at this part, if it is.
    pub refusal: Option<ScanError>,
}

/// A row of a part, and the offset of its first byte.
#[derive(Clone, Copy)]
pub(crate) struct ByteRow<'a> {
    pub place: u64,
    pub bytes: &'a [u8],
    pub part: BytePart<'a>,
    pub is_first: bool,
}

/// How the rows of a datagram are printed, its byte order, and its number.
#[derive(Clone, Copy)]
pub(crate) struct Printing {
    pub format: RowFormat,
    pub order: Order,
    pub number: usize,
}

/// How many bytes a row has at most.
const WIDTH: usize = 16;

/// The blanks before an offset, which align it to the right in five columns.
#[tactic(auto, unfolding(crate::specs::ByteRows::margin))]
fn margin_of(place: u64) -> &'static str
    ensures text { result.now ≡ margin place }
    ensures short { length result.now ≤ 4 }
{
    if place < 10 {
        "    "
    } else if place < 100 {
        "   "
    } else if place < 1000 {
        "  "
    } else if place < 10000 {
        " "
    } else {
        ""
    }
}

#[tactic(auto, unfolding(crate::specs::ByteRows::cell))]
fn push_cell(out: &mut Vec<u8>, byte: u8) -> Result<(), AllocError>
    ensures { OnOk result (out.new.items ≡ out.old.items ++ cell byte) }
{
    let mut text = Segment::new();
    text.put_hex2(byte);
    text.put(" ");
    text.push_to(out)
}

fn push_cells(out: &mut Vec<u8>, bytes: &[u8]) -> Result<(), AllocError>
    ensures { OnOk result (out.new.items ≡ out.old.items ++ flat_map cell bytes.now) }
{
    for byte in bytes {
        push_cell(out, *byte)?;
    }
    Ok(())
}

#[tactic(auto, unfolding(crate::specs::ByteRows::blanks), using(crate::proofs::ByteRows::one_blank))]
fn push_blanks(out: &mut Vec<u8>, count: usize) -> Result<(), AllocError>
    ensures { OnOk result (out.new.items ≡ out.old.items ++ blanks count) }
{
    let mut left = count;
    while left > 0 {
        push(out, " ")?;
        left -= 1;
    }
    Ok(())
}

/// Writes the mark of a refusal, or nothing.
#[tactic(auto, unfolding(crate::specs::ByteRows::mark))]
fn push_mark(out: &mut Vec<u8>, refusal: Option<ScanError>) -> Result<(), AllocError>
    ensures { OnOk result (out.new.items ≡ out.old.items ++ mark refusal) }
{
    match refusal {
        None => Ok(()),
        Some(_) => push(out, "!! "),
    }
}

/// Writes the rule that is broken, and the offset.
#[tactic(auto, unfolding(crate::specs::ByteRows::rule_at))]
fn push_rule(out: &mut Vec<u8>, fault: Fault) -> Result<(), AllocError>
    ensures { OnOk result (out.new.items ≡ out.old.items ++ rule_at fault) }
{
    push(out, reason_name(fault.reason))?;
    push(out, " at ")?;
    push_decimal(out, fault.place as u64)
}

/// Writes why a datagram is refused at this head.
#[tactic(auto, unfolding(crate::specs::ByteRows::fault_behind))]
fn push_fault(out: &mut Vec<u8>, head: BrokenHead) -> Result<(), AllocError>
    ensures { OnOk result (out.new.items ≡ out.old.items ++ fault_behind head) }
{
    push(out, ": ")?;
    push_rule(out, head.fault)?;
    push(out, ", ")?;
    push_decimal(out, head.left as u64)?;
    push(out, " bytes left")
}

/// Writes why a datagram is refused, or nothing.
#[tactic(auto, unfolding(crate::specs::ByteRows::refusal_behind))]
fn push_refusal(out: &mut Vec<u8>, refusal: Option<ScanError>) -> Result<(), AllocError>
    ensures { OnOk result (out.new.items ≡ out.old.items ++ refusal_behind refusal) }
{
    match refusal {
        None => Ok(()),
        Some(ScanError::TooLarge) => push(out, ": too large"),
        Some(ScanError::Layout(head)) => push_fault(out, head),
    }
}

/// Writes the name, the value and the refusal of a part.
#[tactic(auto, unfolding(crate::specs::ByteRows::words), using(crate::proofs::Sets::joins))]
fn push_words(out: &mut Vec<u8>, order: Order, part: &BytePart<'_>) -> Result<(), AllocError>
    ensures { OnOk result
        (out.new.items ≡ out.old.items ++ words order (part_view part.now)) }
{
    push_mark(out, part.refusal)?;
    push(out, part.label.name.0)?;
    push(out, part.label.name.1)?;
    push_value_behind(out, order, part.label.notation, part.bytes)?;
    push_refusal(out, part.refusal)
}

/// The escape before the words of a part, or no escape.
#[tactic(auto, unfolding(crate::specs::ByteRows::paint))]
fn colour(is_aside: bool, refusal: Option<ScanError>) -> &'static str
    ensures { result.now ≡ paint is_aside refusal }
{
    match (refusal, is_aside) {
        (Some(_), _) => RED,
        (None, true) => FAINT,
        (None, false) => "",
    }
}

/// Writes the words of a part in their colour.
#[tactic(auto, unfolding(crate::specs::ByteRows::painted), using(crate::proofs::Sets::joins))]
fn push_painted(out: &mut Vec<u8>, order: Order, part: &BytePart<'_>) -> Result<(), AllocError>
    ensures { OnOk result
        (out.new.items ≡ out.old.items ++ words_in true order (part_view part.now)) }
{
    let colour = colour(part.label.is_aside, part.refusal);
    push(out, colour)?;
    push_words(out, order, part)?;
    push_end(out, colour)
}

/// Writes what stands beside the bytes of a part's first row.
#[tactic(auto, using(crate::proofs::Sets::joins))]
fn push_beside(
    out: &mut Vec<u8>,
    is_coloured: bool,
    order: Order,
    row: &ByteRow<'_>,
) -> Result<(), AllocError>
    requires { length row.now.bytes.now ≤ 16 }
    ensures { OnOk result
        (out.new.items ≡ out.old.items ++ beside is_coloured order (row_view row.now)) }
{
    if !row.is_first {
        return Ok(());
    }
    let indent = row.part.label.indent as usize;
    push_blanks(out, 3 * (WIDTH - row.bytes.len()) + (2 + indent))?;
    if is_coloured {
        push_painted(out, order, &row.part)
    } else {
        push_words(out, order, &row.part)
    }
}

#[tactic(auto, unfolding(crate::specs::ByteRows::row_text), using(crate::proofs::Sets::joins))]
fn push_text(
    out: &mut Vec<u8>,
    is_coloured: bool,
    order: Order,
    row: &ByteRow<'_>,
) -> Result<(), AllocError>
    requires { length row.now.bytes.now ≤ 16 }
    ensures { OnOk result
        (out.new.items ≡ out.old.items ++ row_text is_coloured order (row_view row.now)) }
{
    let mut front = Segment::new();
    front.put(" ");
    front.put_number(row.place);
    front.put(margin_of(row.place));
    front.push_to(out)?;
    push_cells(out, row.bytes)?;
    push_beside(out, is_coloured, order, row)?;
    push(out, "\n")
}

fn push_row(
    alloc: Global,
    out: &mut Vec<u8>,
    how: Printing,
    row: &ByteRow<'_>,
) -> Result<(), AllocError>
    requires { length row.now.bytes.now ≤ 16 }
    ensures { OnOk result (out.new.items
        ≡ out.old.items ++ row_printed how.format how.order how.number (row_view row.now)) }
{
    match how.format {
        RowFormat::Text => push_text(out, false, how.order, row),
        RowFormat::Coloured => push_text(out, true, how.order, row),
        RowFormat::Json => push_json(alloc, out, how.order, how.number, row),
    }
}

/// Writes the rows of a part.
pub(super) fn push_part(
    alloc: Global,
    out: &mut Vec<u8>,
    how: Printing,
    part: BytePart<'_>,
) -> Result<(), AllocError>
    requires { part.place + length part.bytes.now < 2 ^ 64 }
    ensures { OnOk result (AddsPart (row_printed how.format how.order how.number)
        (part_view part.entry) out.old.items out.new.items) }
{
    let mut rest = part.bytes;
    let mut place = part.place;
    let mut is_first = true;
    while !rest.is_empty() {
        let (bytes, others) = rest.split_at(rest.len().min(WIDTH));
        let row = ByteRow {
            place,
            bytes,
            part,
            is_first,
        };
        push_row(alloc, out, how, &row)?;
        place += bytes.len() as u64;
        rest = others;
        is_first = false;
    }
    Ok(())
}
