//! The pieces of a datagram, and the parts that they cut its bytes into.

ghost use Rattle.std.specs.Prelude.{◌≡◌, ◌<◌, ◌+◌, ◌++◌, ◌∷◌, ◌^◌, [], length, map, OnOk};
ghost use Rattle.rtnl.specs.ByteParts.{size_from};
ghost use Rattle.rtnl.specs.Inside.{deeper};
ghost use Rattle.rtnl.specs.Marks as marks;
ghost use Rattle.rtnl.specs.Marks.{gap, indent_of, level_of, named, padding, padding_of};
ghost use Rattle.rtnl.specs.ByteRows.{row_printed};
ghost use Rattle.rtnl.specs.ByteViews.{AddsRows, marks_in, piece_view};
ghost use Rattle.rtnl.specs.Kernel.{kernel_name};
ghost use Rattle.rtnl.specs.Structs.{field_view};

use crate::bytes::notation::Notation;
use crate::bytes::rows::{BytePart, Label, Printing, push_part};
use crate::bytes::structs::Field;
use crate::names::kernel::KernelName;
use nl_frame::ScanError;
use std::alloc::{AllocError, Global};

/// How far a piece goes.
#[derive(Clone, Copy)]
pub(crate) enum Extent {
    /// This many bytes.
    Bytes(usize),
    /// Up to this offset of the datagram.
    UpTo(usize),
}

impl Extent {
    /// The size of a piece that begins at the offset `place`.
    fn size_from(self, place: usize) -> usize
        ensures { result ≡ size_from place self }
    {
        match self {
            Extent::Bytes(count) => count,
            Extent::UpTo(end) => end.saturating_sub(place),
        }
    }
}

/// How deep bytes lie.
#[derive(Clone, Copy)]
pub(crate) enum Depth {
    /// In the header of a message.
    Header,
    /// In a body, beside its attributes.
    Body,
    /// In an attribute or a next hop of this level.
    Level(u16),
}

impl Depth {
    /// The level of the attribute or next hop, or 0.
    fn level(self) -> u16
        ensures { result ≡ level_of self }
    {
        match self {
            Depth::Header | Depth::Body => 0,
            Depth::Level(level) => level,
        }
    }

    fn indent(self) -> u32
        ensures { result ≡ indent_of self }
    {
        match self {
            Depth::Header => 0,
            Depth::Body => 2,
            Depth::Level(level) => 2 * u32::from(level) + 4,
        }
    }

    /// The depth of attributes inside bytes of this depth.
    pub(super) fn deeper(self) -> Depth
        requires { level_of self < 1000 }
        ensures { result ≡ deeper self }
    {
        match self {
            Depth::Header | Depth::Body => Depth::Level(0),
            Depth::Level(level) => Depth::Level(level + 1),
        }
    }
}

/// What the next bytes are, and how far they go.
#[derive(Clone, Copy)]
pub(crate) struct Piece {
    extent: Extent,
    label: Label,
}

/// The label of bytes that were not read.
const UNREAD: Label = Label {
    level: 0,
    indent: 0,
    name: ("unread", ""),
    notation: Notation::Blank,
    is_aside: true,
};

fn push_piece(pieces: &mut Vec<Piece>, piece: Piece) -> Result<(), AllocError>
    ensures { OnOk result
        (marks_in pieces.new.items ≡ marks_in pieces.old.items ++ piece_view piece ∷ []) }
{
    pieces.push(piece)?;
    Ok(())
}

/// Adds a piece of this name.
pub(super) fn push_named(
    pieces: &mut Vec<Piece>,
    depth: Depth,
    extent: Extent,
    name: KernelName,
    notation: Notation,
) -> Result<(), AllocError>
    ensures { OnOk result (marks_in pieces.new.items
        ≡ marks_in pieces.old.items ++ named depth extent (kernel_name name.entry) notation ∷ []) }
{
    let label = Label {
        level: depth.level(),
        indent: depth.indent(),
        name,
        notation,
        is_aside: false,
    };
    push_piece(pieces, Piece { extent, label })
}

fn push_padding_of(pieces: &mut Vec<Piece>, depth: Depth, extent: Extent) -> Result<(), AllocError>
    ensures { OnOk result
        (marks_in pieces.new.items ≡ marks_in pieces.old.items ++ padding_of depth extent ∷ []) }
{
    let label = Label {
        level: depth.level(),
        indent: depth.indent(),
        name: ("padding", ""),
        notation: Notation::Blank,
        is_aside: true,
    };
    push_piece(pieces, Piece { extent, label })
}

/// Adds padding up to the offset `end`.
pub(super) fn push_padding(
    pieces: &mut Vec<Piece>,
    depth: Depth,
    end: usize,
) -> Result<(), AllocError>
    ensures { OnOk result
        (marks_in pieces.new.items ≡ marks_in pieces.old.items ++ padding depth end ∷ []) }
{
    push_padding_of(pieces, depth, Extent::UpTo(end))
}

/// Adds `count` bytes of padding.
pub(super) fn push_gap(
    pieces: &mut Vec<Piece>,
    depth: Depth,
    count: usize,
) -> Result<(), AllocError>
    ensures { OnOk result
        (marks_in pieces.new.items ≡ marks_in pieces.old.items ++ gap depth count ∷ []) }
{
    push_padding_of(pieces, depth, Extent::Bytes(count))
}

/// Adds the fields of a struct, each a piece.
pub(super) fn push_fields(
    pieces: &mut Vec<Piece>,
    depth: Depth,
    fields: &[Field],
) -> Result<(), AllocError>
    ensures { OnOk result (marks_in pieces.new.items
        ≡ marks_in pieces.old.items ++ marks.fields depth (map field_view fields.now)) }
{
    for (name, size, notation) in fields {
        push_named(pieces, depth, Extent::Bytes(*size), (name, ""), *notation)?;
    }
    Ok(())
}

/// Writes the rows of `bytes`, which begin at the offset `start`. Each piece that has bytes is a
/// part, and so are the bytes after the last piece. The refusal stands at the first part.
pub(super) fn push_parts(
    alloc: Global,
    out: &mut Vec<u8>,
    how: Printing,
    start: usize,
    bytes: &[u8],
    refusal: Option<ScanError>,
    pieces: &[Piece],
) -> Result<(), AllocError>
    requires { start + length bytes.now < 2 ^ 64 }
    ensures { OnOk result (AddsRows (row_printed how.format how.order how.number)
        start bytes.now refusal (marks_in pieces.now) out.old.items out.new.items) }
{
    let mut rest = bytes;
    let mut place = start;
    let mut refusal = refusal;
    for piece in pieces {
        let size = piece.extent.size_from(place).min(rest.len());
        if size == 0 {
            continue;
        }
        let (front, others) = rest.split_at(size);
        let part = BytePart {
            place: place as u64,
            bytes: front,
            label: piece.label,
            refusal,
        };
        push_part(alloc, out, how, part)?;
        place += size;
        rest = others;
        refusal = None;
    }
    if rest.is_empty() {
        return Ok(());
    }
    let part = BytePart {
        place: place as u64,
        bytes: rest,
        label: UNREAD,
        refusal,
    };
    push_part(alloc, out, how, part)
}
