//! What a payload or a field is.

use crate::choice::Choice;
use crate::names::Names;
use crate::set::Set;
use crate::structs::Struct;

/// A number: its sign and its bits, and whether it is in network byte order. Others are in the
/// byte order of the message.
#[derive(Clone, Copy, Debug, PartialEq, Eq)]
pub enum Number {
    U8,
    U16,
    U32,
    U64,
    I8,
    I16,
    I32,
    I64,
    NetworkU16,
    NetworkU32,
    NetworkU64,
}

/// Where the kind stands by which a sub-message is chosen.
#[derive(Clone, Copy, Debug, PartialEq, Eq)]
pub enum Selector {
    /// The address family in the head of the message, a byte.
    Family,
    /// The attribute of this number in the same list.
    Beside(u16),
    /// The attribute of this number in the nearest list outside that has one.
    Above(u16),
}

/// What a payload or a field is.
#[derive(Clone, Copy, Debug, PartialEq, Eq)]
pub enum Format {
    /// Bytes of which no more is known.
    Bytes,
    /// No bytes: that the attribute is there says all.
    Flag,
    /// A text, with or without zero bytes at its end.
    Text,
    /// A number.
    Integer(Number),
    /// An unsigned number of four or eight bytes, by its length.
    Unsigned,
    /// A value of an enumeration.
    Value(Number, Names),
    /// A number whose bits have names.
    Bits(Number, Names),
    /// A hardware address of six bytes.
    Mac,
    /// An address of IPv4.
    Ipv4,
    /// An address of IPv6.
    Ipv6,
    /// An address of IPv4 or IPv6, by its length.
    Ip,
    /// Numbers, one behind the other.
    Series(Number),
    /// Numbers, one behind the other, of which each has a name by its place.
    Counters(Number, Names),
    /// A struct.
    Fields(Struct),
    /// A struct again and again.
    Array(Struct),
    /// A struct, and attributes of a set behind it.
    Headed(Struct, Set),
    /// Attributes of a set.
    List(Set),
    /// Next hops, each with attributes of a set.
    Hops(Set),
    /// What a kind chooses.
    Chosen(Choice, Selector),
}
