//! The rows of the tables, and how they are looked up. Nothing here names a table, so that the
//! proofs don't depend on how long one is.

ghost use Rattle.std.specs.Prelude.{◌≡◌, slice_get};
ghost use Rattle.std.specs.Option.{option_map};
ghost use Rattle.std.specs.Str.{IsAscii};
ghost use Rattle.nl_values.specs.Rows.{attribute_by, attribute_view, bit_view, bits_at, bounds_at};
ghost use Rattle.nl_values.specs.Rows.{case_of, field_rows, field_view, fields_at, format_at};
ghost use Rattle.nl_values.specs.Rows.{is_kind, kind_number_of, label_of, name_at, named_rows};
ghost use Rattle.nl_values.specs.Rows.{names_prefix_by, prefix_by, rest_of, row_at, row_in};

use crate::format::Format;
use crate::set::Attribute;
use crate::structs::Field;
use crate::text::stem;
use nl_attr::Order;

/// A part of a text: its offset, and its length.
#[derive(Clone, Copy)]
pub(crate) struct Label {
    pub(crate) at: u16,
    pub(crate) len: u8,
}

/// A set: what its names begin with, the number of its first attribute, and its rows.
#[derive(Clone, Copy)]
pub(crate) struct SetRow {
    pub(crate) prefix: Label,
    pub(crate) first: u16,
    pub(crate) from: u16,
    pub(crate) count: u16,
}

/// An attribute.
#[derive(Clone, Copy)]
pub(crate) struct AttributeRow {
    pub(crate) label: Label,
    pub(crate) format: Format,
}

/// A struct: the least and the most bytes that it has, and its fields.
#[derive(Clone, Copy)]
pub(crate) struct StructRow {
    pub(crate) least: u16,
    pub(crate) most: u16,
    pub(crate) from: u16,
    pub(crate) count: u16,
}

/// A field: its name, its offset, its size and its format.
#[derive(Clone, Copy)]
pub(crate) struct FieldRow {
    pub(crate) label: Label,
    pub(crate) place: u16,
    pub(crate) size: u16,
    pub(crate) format: Format,
}

/// An enumeration, or bits: what the names begin with, and the names.
#[derive(Clone, Copy)]
pub(crate) struct NamesRow {
    pub(crate) prefix: Label,
    pub(crate) from: u16,
    pub(crate) count: u16,
}

/// A number with a name.
#[derive(Clone, Copy)]
pub(crate) struct NamedRow {
    pub(crate) label: Label,
    pub(crate) number: u32,
}

/// What a kind is.
#[derive(Clone, Copy)]
pub(crate) enum Kind {
    Text,
    Number,
}

/// A sub-message: what its kind is, and what it is where no case has that kind.
#[derive(Clone, Copy)]
pub(crate) struct ChoiceRow {
    pub(crate) kind: Kind,
    pub(crate) other: Format,
    pub(crate) from: u16,
    pub(crate) count: u16,
}

/// What a sub-message is at a kind, which is a text or a number.
#[derive(Clone, Copy)]
pub(crate) struct CaseRow {
    pub(crate) label: Label,
    pub(crate) number: u16,
    pub(crate) format: Format,
}

/// The name that a label says.
fn name_in(text: &'static str, label: Label) -> &'static str
    requires ascii { IsAscii text.now }
    ensures { result.now ≡ name_at text.entry.now label }
{
    let from = label.at as usize;
    match text.get(from..from + label.len as usize) {
        Some(name) => name,
        None => "",
    }
}

/// The prefix of a set.
pub(crate) fn prefix_in(sets: &[SetRow], text: &'static str, set: u16) -> &'static str
    requires ascii { IsAscii text.now }
    ensures { result.now ≡ prefix_by text.entry.now (slice_get sets.now set) }
{
    match sets.get(set as usize) {
        Some(row) => name_in(text, row.prefix),
        None => "",
    }
}

impl SetRow {
    /// The row of this number. An indexed array has no prefix, and its first row for all numbers.
    fn row(self, rows: &[AttributeRow], number: u16) -> Option<AttributeRow>
        ensures { result ≡ row_in self rows.now number }
    {
        let from = self.from as usize;
        if self.prefix.len == 0 {
            return rows.get(from).copied();
        }
        if number < self.first || number - self.first >= self.count {
            return None;
        }
        rows.get(from + (number - self.first) as usize).copied()
    }
}

/// What is said of the attribute of this number in a set.
pub(crate) fn attribute_in(
    sets: &[SetRow],
    rows: &[AttributeRow],
    text: &'static str,
    set: u16,
    number: u16,
) -> Option<Attribute>
    requires ascii { IsAscii text.now }
    ensures { option_map attribute_view result
        ≡ option_map (attribute_by text.entry.now) (row_at sets.now rows.now set number) }
{
    let row = sets.get(set as usize)?.row(rows, number)?;
    Some(Attribute {
        name: name_in(text, row.label),
        format: row.format,
    })
}

/// The rows of the fields of the struct of this number. None where the table has fewer.
pub(crate) fn fields_in<'a>(
    structs: &[StructRow],
    fields: &'a [FieldRow],
    of: u16,
) -> &'a [FieldRow]
    ensures { result.now ≡ field_rows structs.now fields.entry.now of }
{
    match structs.get(of as usize) {
        Some(row) => {
            let from = row.from as usize;
            fields.get(from..from + row.count as usize).unwrap_or(&[])
        }
        None => &[],
    }
}

/// The field of an index in a struct.
pub(crate) fn field_in(
    structs: &[StructRow],
    fields: &[FieldRow],
    text: &'static str,
    of: u16,
    index: usize,
) -> Option<Field>
    requires ascii { IsAscii text.now }
    ensures { option_map field_view result
        ≡ slice_get (fields_at structs.now fields.now text.entry.now of) index }
{
    let field = fields_in(structs, fields, of).get(index)?;
    Some(Field {
        name: name_in(text, field.label),
        place: field.place,
        size: field.size,
        format: field.format,
    })
}

/// The least and the most bytes that a struct has.
pub(crate) fn bounds_in(structs: &[StructRow], of: u16) -> Option<(u16, u16)>
    ensures { result ≡ bounds_at structs.now of }
{
    let row = structs.get(of as usize)?;
    Some((row.least, row.most))
}

/// The rows of the names of this number. None where the table has fewer.
pub(crate) fn rows_in<'a>(names: &[NamesRow], values: &'a [NamedRow], of: u16) -> &'a [NamedRow]
    ensures { result.now ≡ named_rows names.now values.entry.now of }
{
    match names.get(of as usize) {
        Some(row) => values
            .get(row.from as usize..row.from as usize + row.count as usize)
            .unwrap_or(&[]),
        None => &[],
    }
}

/// The label of the first row of this number.
fn label_in(rows: &[NamedRow], number: u64) -> Option<Label>
    ensures { result ≡ label_of rows.now number }
{
    for row in rows {
        if u64::from(row.number) == number {
            return Some(row.label);
        }
    }
    None
}

/// The name of a number.
pub(crate) fn value_name_in(
    names: &[NamesRow],
    values: &[NamedRow],
    text: &'static str,
    of: u16,
    number: u64,
) -> Option<&'static str>
    requires ascii { IsAscii text.now }
    ensures { option_map (λ r. r.now) result ≡ option_map (name_at text.entry.now)
        (label_of (named_rows names.now values.now of) number) }
{
    let label = label_in(rows_in(names, values, of), number)?;
    Some(name_in(text, label))
}

/// The bit of an index, as its name and its mask.
pub(crate) fn bit_in(
    names: &[NamesRow],
    values: &[NamedRow],
    text: &'static str,
    of: u16,
    index: usize,
) -> Option<(&'static str, u64)>
    requires ascii { IsAscii text.now }
    ensures { option_map bit_view result
        ≡ slice_get (bits_at names.now values.now text.entry.now of) index }
{
    let row = rows_in(names, values, of).get(index)?;
    Some((name_in(text, row.label), u64::from(row.number)))
}

/// The prefix of names.
pub(crate) fn names_prefix_in(names: &[NamesRow], text: &'static str, of: u16) -> &'static str
    requires ascii { IsAscii text.now }
    ensures { result.now ≡ names_prefix_by text.entry.now (slice_get names.now of) }
{
    match names.get(of as usize) {
        Some(row) => name_in(text, row.prefix),
        None => "",
    }
}

/// The bits of a number that no row has.
fn rest_in(rows: &[NamedRow], number: u64) -> u64
    ensures { result ≡ rest_of rows.now number }
{
    let mut left = number;
    for row in rows {
        left ^= left & u64::from(row.number);
    }
    left
}

/// The bits of a number that have no name.
pub(crate) fn unnamed_in(names: &[NamesRow], values: &[NamedRow], of: u16, number: u64) -> u64
    ensures { result ≡ rest_of (named_rows names.now values.now of) number }
{
    rest_in(rows_in(names, values, of), number)
}

/// The part of a text that a label says, as bytes.
fn part_in(text: &'static str, label: Label) -> &'static [u8]
    ensures { result.now ≡ name_at text.entry.now label }
{
    let from = label.at as usize;
    text.as_bytes()
        .get(from..from + label.len as usize)
        .unwrap_or(&[])
}

/// The number that these bytes of a kind are, which have one, two or four.
fn kind_number(order: Order, bytes: &[u8]) -> Option<u64>
    ensures { result ≡ kind_number_of order bytes.now }
{
    match bytes.len() {
        1 => Some(u64::from(bytes[0])),
        2 => Some(u64::from(order.read_u16(bytes))),
        4 => Some(u64::from(order.read_u32(bytes))),
        _ => None,
    }
}

/// Whether these bytes are the kind of a case.
fn is_of_kind(row: CaseRow, kind: Kind, text: &'static str, order: Order, bytes: &[u8]) -> bool
    ensures { result ≡ is_kind kind text.entry.now order bytes.now row }
{
    match kind {
        Kind::Text => part_in(text, row.label) == stem(bytes),
        Kind::Number => match kind_number(order, bytes) {
            Some(number) => number == u64::from(row.number),
            None => false,
        },
    }
}

/// The format of the first case of a kind.
fn case_in(
    cases: &[CaseRow],
    of: ChoiceRow,
    text: &'static str,
    order: Order,
    bytes: &[u8],
) -> Format
    ensures { result ≡ case_of of.other (is_kind of.kind text.entry.now order bytes.now) cases.now }
{
    for row in cases {
        if is_of_kind(*row, of.kind, text, order, bytes) {
            return row.format;
        }
    }
    of.other
}

/// What a kind chooses in a sub-message.
pub(crate) fn format_in(
    choices: &[ChoiceRow],
    cases: &[CaseRow],
    text: &'static str,
    of: u16,
    order: Order,
    kind: &[u8],
) -> Format
    ensures { result ≡ format_at choices.now cases.now text.entry.now of order kind.now }
{
    match choices.get(of as usize) {
        Some(row) => {
            let from = row.from as usize;
            let cases = cases.get(from..from + row.count as usize).unwrap_or(&[]);
            case_in(cases, *row, text, order, kind)
        }
        None => Format::Bytes,
    }
}
