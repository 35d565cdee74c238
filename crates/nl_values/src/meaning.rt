//! What a payload means.

use crate::format::Number;
use crate::names::Names;
use crate::numbers::Integer;
use crate::set::Set;
use crate::structs::Struct;

/// What the bytes of a payload, or of a field, mean.
///
/// Where a variant names only what the parts are, the parts lie in the payload itself: the caller
/// has it, and reads them one by one.
#[derive(Clone, Copy, Debug, PartialEq, Eq)]
pub enum Meaning<'a> {
    /// No meaning is known: nothing is said of such bytes, or they aren't what is said.
    Unknown,
    /// Nothing but that the attribute is there.
    Flag,
    /// A text.
    Text(&'a str),
    /// A number.
    Integer(Integer),
    /// A value of an enumeration, and its name, if it has one.
    Value(Integer, Option<&'static str>),
    /// A number whose bits have these names: `Names::bit` and `Names::unnamed_bits`.
    Bits(u64, Names),
    /// A hardware address.
    Mac([u8; 6]),
    /// An address of IPv4.
    Ipv4([u8; 4]),
    /// An address of IPv6.
    Ipv6([u8; 16]),
    /// Numbers: `Number::read_at` has each.
    Series(Number),
    /// Numbers: `Number::read_at` has each, and `Names::name` has the name of a place.
    Counters(Number, Names),
    /// A struct: `Struct::field` has each field.
    Fields(Struct),
    /// A struct again and again, each in as many bytes as this.
    Array(Struct, u16),
    /// A struct, and attributes of a set from this offset on.
    Headed(Struct, Set, u32),
    /// Attributes of a set.
    List(Set),
}

/// What was read of a payload, and how many bytes were visited for that.
#[derive(Clone, Copy, Debug, PartialEq, Eq)]
#[must_use]
pub struct Reading<'a> {
    pub meaning: Meaning<'a>,
    /// The sum of the spans of the attributes that were visited, up to the first fault.
    pub visits: u64,
}
