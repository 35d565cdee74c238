//! Divides a payload into pieces by its meaning: numbers, fields of structs, attributes.

ghost use Rattle.std.specs.Prelude.{◌≡◌, ◌≤◌, ◌<◌, ◌+◌, ◌∷◌, ◌++◌, [], OnOk, IfOk, drop, length};
ghost use Rattle.std.specs.Prelude.{unwrap_or};
ghost use Rattle.nl_attr.specs.Fixed as fixed;
ghost use Rattle.nl_values.specs.Known.{field_view, fields_of, name_of};
ghost use Rattle.nl_values.specs.Meanings.{resolved_format, sense_of};
ghost use Rattle.rtnl.specs.ByteViews.{marks_in};
ghost use Rattle.rtnl.specs.Data.{parts_of};
ghost use Rattle.rtnl.specs.Inside as inside;
ghost use Rattle.rtnl.specs.Inside.{counter_marks, inside_marks, padding_behind, payload_name};
ghost use Rattle.rtnl.specs.Inside.{region_marks, sense_marks, series_marks, struct_marks};
ghost use Rattle.rtnl.specs.Inside.{structs_marks, whole};
ghost use Rattle.rtnl.specs.Kernel.{kernel_name};
ghost use Rattle.rtnl.specs.Marks.{level_of};

use crate::bytes::notation::Notation;
use crate::bytes::parts::{Depth, Extent, Piece, push_fields as push_all, push_gap, push_named};
use crate::bytes::structs::rtattr;
use crate::json_lines::data::inside::{known, levels_inside, meaning_at};
use crate::json_lines::data::kinds::{MOST_CHOSEN, Scope, kind_in_region, left_behind};
use crate::json_lines::data::leaves::{bytes_from, bytes_up_to, count_in};
use crate::names::kernel::{KernelName, set_name};
use nl_attr::{Attrs, Order, Part};
use nl_values::{Field, Format, Meaning, Names, Number, Set, Struct};
use std::alloc::AllocError;

/// Adds bytes that are one piece.
pub(super) fn push_whole(
    pieces: &mut Vec<Piece>,
    depth: Depth,
    name: KernelName,
    notation: Notation,
    size: usize,
) -> Result<(), AllocError>
    ensures { OnOk result (marks_in pieces.new.items ≡ marks_in pieces.old.items
        ++ whole depth (kernel_name name.entry) notation size) }
{
    push_named(pieces, depth, Extent::Bytes(size), name, notation)
}

/// The name of a payload: that of its attribute, or else `payload`.
pub(super) fn payload_name(set: Option<Set>, number: u16) -> KernelName
    ensures { kernel_name result ≡ payload_name set number }
{
    set_name(set, number).unwrap_or(("payload", ""))
}

/// Adds `count` numbers, each a piece.
fn push_series(
    pieces: &mut Vec<Piece>,
    depth: Depth,
    name: KernelName,
    number: Number,
    count: usize,
) -> Result<(), AllocError>
    ensures { OnOk result (marks_in pieces.new.items ≡ marks_in pieces.old.items
        ++ series_marks depth (kernel_name name.entry) number count) }
{
    let notation = Notation::Meaning(Format::Integer(number));
    for _index in 0..count {
        push_whole(pieces, depth, name, notation, number.size())?;
    }
    Ok(())
}

/// The name of the counter at this index, or `name` where it has none.
fn place_name(names: Names, place: u64, name: KernelName) -> KernelName
    ensures { kernel_name result
        ≡ unwrap_or (name_of names place) (kernel_name name.entry) }
{
    match names.name(place) {
        Some(own) => (own, ""),
        None => name,
    }
}

/// Adds `count` counters, each a piece under the name of its index.
fn push_counters(
    pieces: &mut Vec<Piece>,
    depth: Depth,
    name: KernelName,
    number: Number,
    names: Names,
    count: usize,
) -> Result<(), AllocError>
    ensures { OnOk result (marks_in pieces.new.items ≡ marks_in pieces.old.items
        ++ counter_marks depth (kernel_name name.entry) number names 0 count) }
{
    let notation = Notation::Meaning(Format::Integer(number));
    for place in 0..count {
        let own = place_name(names, place as u64, name);
        push_whole(pieces, depth, own, notation, number.size())?;
    }
    Ok(())
}

/// How many bytes of padding follow a payload of `size` bytes.
fn padding_behind(size: usize) -> usize
    ensures value { result ≡ padding_behind size }
    ensures bound { result ≤ 3 }
{
    (4 - size % 4) % 4
}

/// Adds a field of a struct, and the padding from `at` up to it. Answers the end of the field, or
/// `at` where it has no bytes.
#[cycle(inside)]
fn push_field(
    pieces: &mut Vec<Piece>,
    scope: Scope<'_>,
    levels: u8,
    depth: Depth,
    at: usize,
    field: Field,
    bytes: &[u8],
) -> Result<usize, AllocError>
    requires room { level_of depth + levels ≤ 1000 }
    requires bytes { length bytes.now ≤ fixed.LONGEST_REGION }
    ensures { IfOk result (λ end. (marks_in pieces.new.items ≡ marks_in pieces.old.items
        ++ inside.field_marks (inside_marks scope.entry.order scope.entry.family.now levels)
        depth at (field_view field) (inside.field_part (field_view field) bytes.now))
        × (end ≡ inside.field_end at (field_view field)
        (inside.field_part (field_view field) bytes.now))) }
{
    let Some(part) = field.part(bytes) else {
        return Ok(at);
    };
    let place = usize::from(field.place);
    push_gap(pieces, depth, place.saturating_sub(at))?;
    let name = (field.name, "");
    push_inside(
        pieces,
        scope,
        levels,
        depth,
        name,
        field.format,
        &[],
        &[],
        part,
    )?;
    Ok(place + part.len())
}

/// Adds the field of this index, if there is one, as `push_field` does.
#[cycle(inside)]
fn push_field_at(
    pieces: &mut Vec<Piece>,
    scope: Scope<'_>,
    levels: u8,
    depth: Depth,
    of: Struct,
    index: usize,
    at: usize,
    bytes: &[u8],
) -> Result<usize, AllocError>
    requires room { level_of depth + levels ≤ 1000 }
    requires bytes { length bytes.now ≤ fixed.LONGEST_REGION }
    ensures { IfOk result (λ end. marks_in pieces.new.items
        ++ struct_marks (inside_marks scope.entry.order scope.entry.family.now levels)
        depth end (drop (index + 1) (fields_of of)) bytes.now
        ≡ marks_in pieces.old.items
        ++ struct_marks (inside_marks scope.entry.order scope.entry.family.now levels)
        depth at (drop index (fields_of of)) bytes.now) }
{
    match of.field(index) {
        Some(field) => push_field(pieces, scope, levels, depth, at, field, bytes),
        None => Ok(at),
    }
}

/// Adds the fields of a struct, and the bytes after them as padding.
#[cycle(inside)]
fn push_struct(
    pieces: &mut Vec<Piece>,
    scope: Scope<'_>,
    levels: u8,
    depth: Depth,
    of: Struct,
    bytes: &[u8],
) -> Result<(), AllocError>
    requires room { level_of depth + levels ≤ 1000 }
    requires bytes { length bytes.now ≤ fixed.LONGEST_REGION }
    ensures { OnOk result (marks_in pieces.new.items ≡ marks_in pieces.old.items
        ++ struct_marks (inside_marks scope.entry.order scope.entry.family.now levels)
        depth 0 (fields_of of) bytes.now) }
{
    let mut at = 0;
    for index in 0..of.len() {
        at = push_field_at(pieces, scope, levels, depth, of, index, at, bytes)?;
    }
    push_gap(pieces, depth, bytes.len().saturating_sub(at))
}

/// Adds structs of `size` bytes, one after another.
#[cycle(inside)]
fn push_structs(
    pieces: &mut Vec<Piece>,
    scope: Scope<'_>,
    levels: u8,
    depth: Depth,
    of: Struct,
    size: u16,
    bytes: &[u8],
) -> Result<(), AllocError>
    requires room { level_of depth + levels ≤ 1000 }
    requires bytes { length bytes.now ≤ fixed.LONGEST_REGION }
    ensures { OnOk result (marks_in pieces.new.items ≡ marks_in pieces.old.items
        ++ structs_marks (inside_marks scope.entry.order scope.entry.family.now levels)
        depth (fields_of of) size bytes.now) }
{
    let width = usize::from(size);
    let mut left = bytes;
    for _index in 0..count_in(width, bytes.len()) {
        push_struct(pieces, scope, levels, depth, of, bytes_up_to(left, width))?;
        left = bytes_from(left, width);
    }
    Ok(())
}

/// Adds an attribute of a region: its header, and what it holds.
#[cycle(inside)]
fn push_item(
    pieces: &mut Vec<Piece>,
    scope: Scope<'_>,
    levels: u8,
    depth: Depth,
    region: &[u8],
    set: Set,
    part: Part<'_>,
    format: Format,
    kind: &[u8],
) -> Result<(), AllocError>
    requires room { level_of depth + levels ≤ 1000 }
    requires region { length region.now ≤ fixed.LONGEST_REGION }
    ensures { OnOk result (marks_in pieces.new.items ≡ marks_in pieces.old.items
        ++ inside.held_marks (inside_marks scope.entry.order scope.entry.family.now levels)
        depth set part.entry.number format kind.now (parts_of scope.entry.order region.now)
        part.entry.payload.now) }
{
    push_all(pieces, depth, &rtattr(Some(set)))?;
    let name = payload_name(Some(set), part.number);
    push_inside(
        pieces,
        scope,
        levels,
        depth,
        name,
        format,
        kind,
        region,
        part.payload,
    )
}

/// Adds the attributes of a region that lies in the region `outer`.
#[cycle(inside)]
fn push_region(
    pieces: &mut Vec<Piece>,
    scope: Scope<'_>,
    levels: u8,
    depth: Depth,
    outer: &[u8],
    set: Set,
    region: &[u8],
) -> Result<(), AllocError>
    requires room { level_of depth + levels ≤ 1000 }
    requires outer { length outer.now ≤ fixed.LONGEST_REGION }
    requires region { length region.now ≤ fixed.LONGEST_REGION }
    ensures { OnOk result (marks_in pieces.new.items ≡ marks_in pieces.old.items
        ++ region_marks scope.entry.order scope.entry.family.now
        (inside_marks scope.entry.order scope.entry.family.now levels)
        depth (parts_of scope.entry.order outer.now) set region.now) }
{
    // How many formats a kind may still choose.
    let mut left = MOST_CHOSEN;
    // The padding before the next attribute.
    let mut front = 0;
    // The bytes of the region that no piece has yet.
    let mut size = region.len();
    for part in Attrs::of_ordered(region, scope.order) {
        match part {
            Ok(part) => {
                push_gap(pieces, depth, front)?;
                let format = known(Some(set), part.number).format;
                let kind = kind_in_region(scope, outer, region, left, format);
                push_item(
                    pieces, scope, levels, depth, region, set, part, format, kind,
                )?;
                left = left_behind(left, format);
                size = size
                    .saturating_sub(front + 4)
                    .saturating_sub(part.payload.len());
                front = padding_behind(part.payload.len());
            }
            Err(_) => return push_gap(pieces, depth, size),
        }
    }
    push_gap(pieces, depth, size)
}

/// Adds a struct, and the attributes after it, which begin at `from`.
#[cycle(inside)]
fn push_headed(
    pieces: &mut Vec<Piece>,
    scope: Scope<'_>,
    levels: u8,
    depth: Depth,
    outer: &[u8],
    of: Struct,
    set: Set,
    from: u32,
    bytes: &[u8],
) -> Result<(), AllocError>
    requires room { level_of depth + levels < 1000 }
    requires outer { length outer.now ≤ fixed.LONGEST_REGION }
    requires bytes { length bytes.now ≤ fixed.LONGEST_REGION }
    ensures { OnOk result (marks_in pieces.new.items ≡ marks_in pieces.old.items
        ++ inside.headed_marks scope.entry.order scope.entry.family.now
        (inside_marks scope.entry.order scope.entry.family.now levels)
        depth (parts_of scope.entry.order outer.now) (fields_of of) set from bytes.now) }
{
    let from = from as usize;
    push_struct(pieces, scope, levels, depth, of, bytes_up_to(bytes, from))?;
    let behind = bytes_from(bytes, from);
    push_region(pieces, scope, levels, depth.deeper(), outer, set, behind)
}

/// Adds the pieces of the bytes of an attribute in `region`, by their meaning. Bytes that aren't
/// divided are one piece, of the notation `own`, or `plain` where the meaning is unknown.
#[cycle(inside)]
pub(super) fn push_sense(
    pieces: &mut Vec<Piece>,
    scope: Scope<'_>,
    levels: u8,
    depth: Depth,
    name: KernelName,
    region: &[u8],
    bytes: &[u8],
    plain: Notation,
    own: Notation,
    meaning: Meaning<'_>,
) -> Result<(), AllocError>
    requires room { level_of depth + levels < 1000 }
    requires region { length region.now ≤ fixed.LONGEST_REGION }
    requires bytes { length bytes.now ≤ fixed.LONGEST_REGION }
    ensures { OnOk result (marks_in pieces.new.items ≡ marks_in pieces.old.items
        ++ sense_marks scope.entry.order scope.entry.family.now
        (inside_marks scope.entry.order scope.entry.family.now levels) depth
        (kernel_name name.entry) (parts_of scope.entry.order region.now) bytes.now
        plain own (sense_of meaning.entry)) }
{
    match meaning {
        Meaning::Unknown => push_whole(pieces, depth, name, plain, bytes.len()),
        Meaning::Flag
        | Meaning::Text(_)
        | Meaning::Integer(_)
        | Meaning::Value(_, _)
        | Meaning::Bits(_, _)
        | Meaning::Mac(_)
        | Meaning::Ipv4(_)
        | Meaning::Ipv6(_) => push_whole(pieces, depth, name, own, bytes.len()),
        Meaning::Series(number) => {
            let count = count_in(number.size(), bytes.len());
            push_series(pieces, depth, name, number, count)
        }
        Meaning::Counters(number, names) => {
            let count = count_in(number.size(), bytes.len());
            push_counters(pieces, depth, name, number, names, count)
        }
        Meaning::Fields(of) => push_struct(pieces, scope, levels, depth, of, bytes),
        Meaning::Array(of, size) => push_structs(pieces, scope, levels, depth, of, size, bytes),
        Meaning::Headed(of, set, from) => {
            push_headed(pieces, scope, levels, depth, region, of, set, from, bytes)
        }
        Meaning::List(set) => {
            push_region(pieces, scope, levels, depth.deeper(), region, set, bytes)
        }
    }
}

/// The format that `kind` chooses, or `format` itself where no kind chooses.
pub(super) fn resolved(format: Format, order: Order, kind: &[u8]) -> Format
    ensures { result ≡ resolved_format order kind.now format }
{
    match format {
        Format::Chosen(choice, _) => choice.format(order, kind),
        format => format,
    }
}

/// Adds the pieces of a payload, with at most `levels` levels inside one another.
#[cycle(inside)]
pub(super) fn push_inside(
    pieces: &mut Vec<Piece>,
    scope: Scope<'_>,
    levels: u8,
    depth: Depth,
    name: KernelName,
    format: Format,
    kind: &[u8],
    region: &[u8],
    payload: &[u8],
) -> Result<(), AllocError>
    requires room { level_of depth + levels ≤ 1000 }
    requires region { length region.now ≤ fixed.LONGEST_REGION }
    ensures { OnOk result (marks_in pieces.new.items ≡ marks_in pieces.old.items
        ++ inside_marks scope.entry.order scope.entry.family.now levels depth
        (kernel_name name.entry) format kind.now
        (parts_of scope.entry.order region.now) payload.now) }
{
    let Some(inner) = levels_inside(levels, payload) else {
        return push_whole(pieces, depth, name, Notation::Blank, payload.len());
    };
    let meaning = meaning_at(scope.order, levels, format, kind, payload);
    let own = Notation::Meaning(resolved(format, scope.order, kind));
    push_sense(
        pieces,
        scope,
        inner,
        depth,
        name,
        region,
        payload,
        Notation::Blank,
        own,
        meaning,
    )
}
