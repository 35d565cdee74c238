//! The tables. `format/values.py` writes the blocks in `links`, `traffic`,
//! `structs`, `names` and `choices` from the rows of `format/`.
//!
//! A block is written in braces: what it says of itself, its first row and how many rows it has;
//! and behind a semicolon its rows. A name stands behind its place in the text of all names.

mod choices;
mod links;
mod names;
mod structs;
mod traffic;

use crate::choice::Choice;
use crate::format::Format::{
    Array, Bits, Bytes, Chosen, Counters, Fields, Flag, Headed, Hops, Ip, Ipv4, Ipv6, List, Mac,
    Series, Text, Unsigned, Value,
};
use crate::format::{Format, Number, Selector};
use crate::names::Names;
use crate::rows::{
    AttributeRow, CaseRow, ChoiceRow, FieldRow, Kind, Label, NamedRow, NamesRow, SetRow, StructRow,
};
use crate::set::Set;
use crate::structs::Struct;
use choices::choices;
use links::links;
use names::names;
use structs::structs;
use traffic::traffic;

const U8: Format = Format::Integer(Number::U8);

const U16: Format = Format::Integer(Number::U16);

const U32: Format = Format::Integer(Number::U32);

const U64: Format = Format::Integer(Number::U64);

const I8: Format = Format::Integer(Number::I8);

const I16: Format = Format::Integer(Number::I16);

const I32: Format = Format::Integer(Number::I32);

const I64: Format = Format::Integer(Number::I64);

const NETWORK_U16: Format = Format::Integer(Number::NetworkU16);

const NETWORK_U32: Format = Format::Integer(Number::NetworkU32);

const NETWORK_U64: Format = Format::Integer(Number::NetworkU64);

macro_rules! text_of_sets {
    ($({ $place:literal $prefix:literal $first:literal $from:literal $count:literal;
        $($at:literal $name:literal $format:expr),* })*) => {
        concat!($($prefix, $($name),*),*)
    };
}

macro_rules! sets {
    ($({ $place:literal $prefix:literal $first:literal $from:literal $count:literal;
        $($at:literal $name:literal $format:expr),* })*) => {
        [$(SetRow {
            prefix: Label { at: $place, len: $prefix.len() as u8 },
            first: $first,
            from: $from,
            count: $count,
        }),*]
    };
}

macro_rules! attributes {
    ($({ $place:literal $prefix:literal $first:literal $from:literal $count:literal;
        $($at:literal $name:literal $format:expr),* })*) => {
        [$($(AttributeRow {
            label: Label { at: $at, len: $name.len() as u8 },
            format: $format,
        }),*),*]
    };
}

macro_rules! text_of_structs {
    ($({ $least:literal $most:literal $from:literal $count:literal;
        $($at:literal $name:literal $place:literal $size:literal $format:expr),* })*) => {
        concat!($($($name),*),*)
    };
}

macro_rules! struct_rows {
    ($({ $least:literal $most:literal $from:literal $count:literal;
        $($at:literal $name:literal $place:literal $size:literal $format:expr),* })*) => {
        [$(StructRow {
            least: $least,
            most: $most,
            from: $from,
            count: $count,
        }),*]
    };
}

macro_rules! fields {
    ($({ $least:literal $most:literal $from:literal $count:literal;
        $($at:literal $name:literal $place:literal $size:literal $format:expr),* })*) => {
        [$($(FieldRow {
            label: Label { at: $at, len: $name.len() as u8 },
            place: $place,
            size: $size,
            format: $format,
        }),*),*]
    };
}

macro_rules! text_of_names {
    ($({ $place:literal $prefix:literal $from:literal $count:literal;
        $($at:literal $name:literal $number:literal),* })*) => {
        concat!($($prefix, $($name),*),*)
    };
}

macro_rules! names_rows {
    ($({ $place:literal $prefix:literal $from:literal $count:literal;
        $($at:literal $name:literal $number:literal),* })*) => {
        [$(NamesRow {
            prefix: Label { at: $place, len: $prefix.len() as u8 },
            from: $from,
            count: $count,
        }),*]
    };
}

macro_rules! named_rows {
    ($({ $place:literal $prefix:literal $from:literal $count:literal;
        $($at:literal $name:literal $number:literal),* })*) => {
        [$($(NamedRow {
            label: Label { at: $at, len: $name.len() as u8 },
            number: $number,
        }),*),*]
    };
}

macro_rules! text_of_choices {
    ($({ $kind:ident $other:expr, $from:literal $count:literal;
        $($at:literal $name:literal $number:literal $format:expr),* })*) => {
        concat!($($($name),*),*)
    };
}

macro_rules! choice_rows {
    ($({ $kind:ident $other:expr, $from:literal $count:literal;
        $($at:literal $name:literal $number:literal $format:expr),* })*) => {
        [$(ChoiceRow {
            kind: Kind::$kind,
            other: $other,
            from: $from,
            count: $count,
        }),*]
    };
}

macro_rules! cases {
    ($({ $kind:ident $other:expr, $from:literal $count:literal;
        $($at:literal $name:literal $number:literal $format:expr),* })*) => {
        [$($(CaseRow {
            label: Label { at: $at, len: $name.len() as u8 },
            number: $number,
            format: $format,
        }),*),*]
    };
}

/// The names of all attributes, and their prefixes.
pub(crate) static NAMES_OF_ATTRIBUTES: &str = links!(traffic text_of_sets);

/// The sets.
pub(crate) static SETS: [SetRow; 273] = links!(traffic sets);

/// The attributes of all sets.
pub(crate) static ATTRIBUTES: [AttributeRow; 1993] = links!(traffic attributes);

/// The names of all fields.
pub(crate) static NAMES_OF_FIELDS: &str = structs!(text_of_structs);

/// The structs.
pub(crate) static STRUCTS: [StructRow; 170] = structs!(struct_rows);

/// The fields of all structs.
pub(crate) static FIELDS: [FieldRow; 815] = structs!(fields);

/// The names of all values and bits, and their prefixes.
pub(crate) static NAMES_OF_VALUES: &str = names!(text_of_names);

/// The enumerations and the bits.
pub(crate) static NAMES: [NamesRow; 126] = names!(names_rows);

/// The values of all enumerations, and all bits.
pub(crate) static VALUES: [NamedRow; 963] = names!(named_rows);

/// The names of all kinds.
pub(crate) static NAMES_OF_KINDS: &str = choices!(text_of_choices);

/// The sub-messages.
pub(crate) static CHOICES: [ChoiceRow; 11] = choices!(choice_rows);

/// The cases of all sub-messages.
pub(crate) static CASES: [CaseRow; 137] = choices!(cases);
