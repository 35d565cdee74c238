//! The rows of bytes as lines of JSON.

ghost use Rattle.std.specs.Prelude.{◌≡◌, ◌∷◌, [], ◌++◌, OnOk, codes, option_map};
ghost use Rattle.json.specs.Json.{null};
ghost use Rattle.rtnl.specs.ByteRows.{first_fields, label_fields, place_fields, refusal_json, row_json};
ghost use Rattle.rtnl.specs.ByteViews.{label_view, row_view};
ghost use Rattle.rtnl.specs.Data.{data_json};
ghost use Rattle.rtnl.specs.Json.{IsUnescaped, ◌⊕◌, fields_tokens};
ghost use Rattle.rtnl.specs.Kernel.{kernel_name};
ghost use Rattle.rtnl.specs.Notations.{name_or, number_json, or_null, payload_json, value_json};
ghost use Rattle.rtnl.specs.Values.{reading_view};

use crate::bytes::notation::{Notation, number};
use crate::bytes::rows::{ByteRow, Label};
use crate::json_lines::data::inside::{is_known, meaning_at, push_meaning};
use crate::json_lines::data::kinds::Scope;
use crate::json_lines::line::Line;
use crate::json_lines::values::push_value;
use crate::names::kernel::{KernelName, any_message_name, set_name};
use crate::names::reasons::reason_name;
use crate::names::values::{Reading, read_payload};
use nl_attr::{NUMBERS, Order};
use nl_frame::ScanError;
use nl_values::Format;
use std::alloc::{AllocError, Global};

/// Writes a field whose value is null.
#[tactic(auto, using(crate::proofs::Sets::one))]
fn push_null(line: &mut Line, name: &str) -> Result<(), AllocError>
    requires { IsUnescaped name.now }
    ensures { OnOk result (line.new ≡ line.old ⊕ fields_tokens ((name.now, null) ∷ [])) }
{
    line.key(name)?;
    line.null()
}

fn push_number(line: &mut Line, number: Option<u32>) -> Result<(), AllocError>
    ensures { OnOk result
        (line.new ≡ line.old ⊕ fields_tokens ((codes "value", number_json number) ∷ [])) }
{
    match number {
        Some(number) => line.number("value", number.into()),
        None => push_null(line, "value"),
    }
}

/// Writes a name, or `number` where it has none.
fn push_name(
    alloc: Global,
    line: &mut Line,
    number: u16,
    found: Option<KernelName>,
) -> Result<(), AllocError>
    ensures { OnOk result (line.new ≡ line.old ⊕ fields_tokens ((
      codes "value",
      name_or number (option_map kernel_name found.entry),
    ) ∷ [])) }
{
    match found {
        Some((front, end)) => {
            let name = format!(in alloc; "{front}{end}")?;
            line.text("value", name.as_str())
        }
        None => line.number("value", number.into()),
    }
}

/// Writes the value of a payload, or null where it is read as bytes.
#[tactic(auto, unfolding(crate::specs::Notations::payload_json), using(crate::proofs::Sets::one))]
fn push_payload(line: &mut Line, reading: Reading<'_>) -> Result<(), AllocError>
    ensures { OnOk result (line.new ≡ line.old
        ⊕ fields_tokens ((codes "value", payload_json (reading_view reading.entry)) ∷ [])) }
{
    if let Reading::Hex(_) = reading {
        return push_null(line, "value");
    }
    line.key("value")?;
    push_value(line, reading)
}

/// Writes what bytes of a format mean, or null where that is unknown.
fn push_meaning_of(
    line: &mut Line,
    order: Order,
    format: Format,
    bytes: &[u8],
) -> Result<(), AllocError>
    ensures { OnOk result (line.new ≡ line.old
        ⊕ fields_tokens ((codes "value", or_null (data_json order [] 1 format [] [] bytes.now)) ∷ [])) }
{
    let meaning = meaning_at(order, 1, format, &[], bytes);
    if !is_known(meaning) {
        return push_null(line, "value");
    }
    let scope = Scope { order, family: &[] };
    line.key("value")?;
    push_meaning(line, scope, 0, &[], meaning, bytes)
}

/// Writes the value of the bytes of a part.
#[tactic(auto, unfolding(crate::specs::Notations::value_json))]
fn push_value_field(
    alloc: Global,
    line: &mut Line,
    order: Order,
    notation: Notation,
    bytes: &[u8],
) -> Result<(), AllocError>
    ensures { OnOk result (line.new ≡ line.old
        ⊕ fields_tokens ((codes "value", value_json order notation bytes.now) ∷ [])) }
{
    match notation {
        Notation::Blank => push_null(line, "value"),
        Notation::Decimal | Notation::Digits | Notation::Flags(_) => {
            push_number(line, number(order, bytes))
        }
        Notation::Signed if bytes.len() == 4 => line.signed("value", order.read_i32(bytes)),
        Notation::MessageType if bytes.len() == 2 => {
            let kind = order.read_u16(bytes);
            push_name(alloc, line, kind, any_message_name(kind))
        }
        Notation::AttrType(set) if bytes.len() == 2 => {
            let number = order.read_u16(bytes) % NUMBERS;
            push_name(alloc, line, number, set_name(set, number))
        }
        Notation::Signed | Notation::MessageType | Notation::AttrType(_) => {
            push_null(line, "value")
        }
        Notation::Payload(style, net) => push_payload(line, read_payload(order, style, net, bytes)),
        Notation::Meaning(format) => push_meaning_of(line, order, format, bytes),
    }
}

/// Writes why the datagram is refused at this part, or null.
#[tactic(auto, unfolding(crate::specs::ByteRows::refusal_json))]
fn push_fault_field(line: &mut Line, refusal: Option<ScanError>) -> Result<(), AllocError>
    ensures { OnOk result
        (line.new ≡ line.old ⊕ fields_tokens ((codes "fault", refusal_json refusal) ∷ [])) }
{
    match refusal {
        None => push_null(line, "fault"),
        Some(ScanError::TooLarge) => line.text("fault", "too large"),
        Some(ScanError::Layout(head)) => line.text("fault", reason_name(head.fault.reason)),
    }
}

/// Writes the value and the fault of a part, or nulls on its other rows.
#[tactic(auto, using(crate::proofs::Sets::field))]
fn push_first_fields(
    alloc: Global,
    line: &mut Line,
    order: Order,
    row: &ByteRow<'_>,
) -> Result<(), AllocError>
    ensures { OnOk result
        (line.new ≡ line.old ⊕ fields_tokens (first_fields order (row_view row.now))) }
{
    if !row.is_first {
        push_null(line, "value")?;
        return push_null(line, "fault");
    }
    push_value_field(alloc, line, order, row.part.label.notation, row.part.bytes)?;
    push_fault_field(line, row.part.refusal)
}

/// Writes the offset and the bytes of a row.
#[tactic(auto, unfolding(crate::specs::ByteRows::place_fields), using(crate::proofs::Sets::field))]
fn push_place(line: &mut Line, number: usize, row: &ByteRow<'_>) -> Result<(), AllocError>
    ensures { OnOk result
        (line.new ≡ line.old ⊕ fields_tokens (place_fields number (row_view row.now))) }
{
    line.number("datagram", number as u64)?;
    line.number("offset", row.place)?;
    line.number("length", row.bytes.len() as u64)?;
    line.digits("bytes", row.bytes)
}

#[tactic(auto, unfolding(crate::specs::ByteRows::label_fields), using(crate::proofs::Sets::field))]
fn push_label(alloc: Global, line: &mut Line, label: Label) -> Result<(), AllocError>
    ensures { OnOk result (line.new ≡ line.old ⊕ fields_tokens (label_fields (label_view label))) }
{
    let (front, end) = label.name;
    let name = format!(in alloc; "{front}{end}")?;
    line.number("level", label.level.into())?;
    line.text("name", name.as_str())
}

/// Writes a row as a line of JSON.
#[tactic(auto, using(crate::proofs::Sets::field))]
pub(super) fn push_json(
    alloc: Global,
    out: &mut Vec<u8>,
    order: Order,
    number: usize,
    row: &ByteRow<'_>,
) -> Result<(), AllocError>
    ensures { OnOk result
        (out.new.items ≡ out.old.items ++ row_json number order (row_view row.now)) }
{
    let mut line = Line::begin(alloc, out)?;
    push_place(&mut line, number, row)?;
    push_label(alloc, &mut line, row.part.label)?;
    push_first_fields(alloc, &mut line, order, row)?;
    line.end(out)
}
