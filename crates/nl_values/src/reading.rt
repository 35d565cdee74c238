//! Reading what a payload means by its format.

ghost use Rattle.std.specs.Prelude.{◌≡◌, ◌-◌, ◌*◌, ◌==◌, ◌%◌, ◌≤◌, if◌then◌else◌};
ghost use Rattle.std.specs.Prelude.{drop, length, Some};
ghost use Rattle.nl_attr.specs.Fixed as fixed;
ghost use Rattle.nl_values.specs.Known.{bounds_of, name_of};
ghost use Rattle.nl_values.specs.Meanings as sense;
ghost use Rattle.nl_values.specs.Meanings.{array_sense, bits, counters, fields, flag};
ghost use Rattle.nl_values.specs.Meanings.{headed_sense, headed_visits, integer, ip_sense, ipv4};
ghost use Rattle.nl_values.specs.Meanings.{ipv6, is_list, is_repeated, is_within, mac, meaning_of};
ghost use Rattle.nl_values.specs.Meanings.{resolved_format, sense_in, sense_of, series, unknown};
ghost use Rattle.nl_values.specs.Meanings.{unsigned_sense, value, visits_in, visits_inside};
ghost use Rattle.nl_values.specs.Meanings.{visits_of};
ghost use Rattle.nl_values.specs.Numbers.{integer_of, raw_of, size_of};
ghost use Rattle.nl_values.specs.Texts.{is_text, stem_of};

use crate::format::{Format, Number};
use crate::meaning::{Meaning, Reading};
use crate::names::Names;
use crate::set::Set;
use crate::structs::Struct;
use crate::text::text_in;
use nl_attr::{Ctx, Depth, Order, Tally, align4, scan_list_ordered};

/// Whether bytes are attributes, and how many bytes were visited to find out.
#[derive(Clone, Copy)]
struct Scan {
    is_list: bool,
    visits: u64,
}

fn flag_of(bytes: &[u8]) -> Meaning<'_>
    ensures { sense_of result ≡ (if length bytes.entry.now == 0 then flag else unknown) }
{
    if bytes.is_empty() {
        Meaning::Flag
    } else {
        Meaning::Unknown
    }
}

fn text_of(bytes: &[u8]) -> Meaning<'_>
    ensures { sense_of result ≡ (if is_text bytes.entry.now
        then sense.text (stem_of bytes.entry.now) else unknown) }
{
    match text_in(bytes) {
        Some(text) => Meaning::Text(text),
        None => Meaning::Unknown,
    }
}

fn integer_in(number: Number, order: Order, bytes: &[u8]) -> Meaning<'_>
    ensures { sense_of result ≡ (if length bytes.entry.now == size_of number
        then integer (integer_of number order bytes.entry.now) else unknown) }
{
    if bytes.len() != number.size() {
        return Meaning::Unknown;
    }
    Meaning::Integer(number.integer(order, bytes))
}

fn unsigned_in(order: Order, bytes: &[u8]) -> Meaning<'_>
    ensures { sense_of result ≡ unsigned_sense order bytes.entry.now }
{
    match bytes.len() {
        4 => Meaning::Integer(Number::U32.integer(order, bytes)),
        8 => Meaning::Integer(Number::U64.integer(order, bytes)),
        _ => Meaning::Unknown,
    }
}

fn value_in(number: Number, names: Names, order: Order, bytes: &[u8]) -> Meaning<'_>
    ensures { sense_of result ≡ (if length bytes.entry.now == size_of number
        then value (integer_of number order bytes.entry.now)
        (name_of names (raw_of number order bytes.entry.now)) else unknown) }
{
    if bytes.len() != number.size() {
        return Meaning::Unknown;
    }
    let name = names.name(number.raw(order, bytes));
    Meaning::Value(number.integer(order, bytes), name)
}

fn bits_in(number: Number, names: Names, order: Order, bytes: &[u8]) -> Meaning<'_>
    ensures { sense_of result ≡ (if length bytes.entry.now == size_of number
        then bits (raw_of number order bytes.entry.now) names else unknown) }
{
    if bytes.len() != number.size() {
        return Meaning::Unknown;
    }
    Meaning::Bits(number.raw(order, bytes), names)
}

fn mac_in(bytes: &[u8]) -> Meaning<'_>
    ensures { sense_of result ≡ (if length bytes.entry.now == 6 then mac bytes.entry.now
        else unknown) }
{
    match <[u8; 6]>::try_from(bytes) {
        Ok(address) => Meaning::Mac(address),
        Err(_) => Meaning::Unknown,
    }
}

fn ipv4_in(bytes: &[u8]) -> Meaning<'_>
    ensures { sense_of result ≡ (if length bytes.entry.now == 4 then ipv4 bytes.entry.now
        else unknown) }
{
    match <[u8; 4]>::try_from(bytes) {
        Ok(address) => Meaning::Ipv4(address),
        Err(_) => Meaning::Unknown,
    }
}

fn ipv6_in(bytes: &[u8]) -> Meaning<'_>
    ensures { sense_of result ≡ (if length bytes.entry.now == 16 then ipv6 bytes.entry.now
        else unknown) }
{
    match <[u8; 16]>::try_from(bytes) {
        Ok(address) => Meaning::Ipv6(address),
        Err(_) => Meaning::Unknown,
    }
}

fn ip_in(bytes: &[u8]) -> Meaning<'_>
    ensures { sense_of result ≡ ip_sense bytes.entry.now }
{
    if bytes.len() == 4 {
        return ipv4_in(bytes);
    }
    ipv6_in(bytes)
}

/// Whether bytes are numbers, one behind the other.
fn is_series(number: Number, bytes: &[u8]) -> bool
    ensures { result ≡ (length bytes.now % size_of number == 0) }
{
    bytes.len() % number.size() == 0
}

fn series_in(number: Number, bytes: &[u8]) -> Meaning<'_>
    ensures { sense_of result ≡ (if length bytes.entry.now % size_of number == 0
        then series number else unknown) }
{
    if is_series(number, bytes) {
        Meaning::Series(number)
    } else {
        Meaning::Unknown
    }
}

fn counters_in(number: Number, names: Names, bytes: &[u8]) -> Meaning<'_>
    ensures { sense_of result ≡ (if length bytes.entry.now % size_of number == 0
        then counters number names else unknown) }
{
    if is_series(number, bytes) {
        Meaning::Counters(number, names)
    } else {
        Meaning::Unknown
    }
}

/// Whether this many bytes are within the least and the most of a struct.
fn is_sized(bounds: Option<(u16, u16)>, len: usize) -> bool
    ensures { result ≡ is_within bounds len }
{
    match bounds {
        None => false,
        Some((least, most)) => usize::from(least) <= len && len <= usize::from(most),
    }
}

fn fields_in(of: Struct, bytes: &[u8]) -> Meaning<'_>
    ensures { sense_of result ≡ (if is_within (bounds_of of) (length bytes.entry.now)
        then fields of else unknown) }
{
    if is_sized(of.bounds(), bytes.len()) {
        Meaning::Fields(of)
    } else {
        Meaning::Unknown
    }
}

/// Whether this many bytes are a struct of this many bytes, again and again.
fn has_whole(least: u16, len: usize) -> bool
    ensures { result ≡ is_repeated least len }
{
    least != 0 && len % usize::from(least) == 0
}

fn array_in(of: Struct, bytes: &[u8]) -> Meaning<'_>
    ensures { sense_of result ≡ array_sense of (bounds_of of) (length bytes.entry.now) }
{
    match of.bounds() {
        None => Meaning::Unknown,
        Some((least, _)) => {
            if has_whole(least, bytes.len()) {
                Meaning::Array(of, least)
            } else {
                Meaning::Unknown
            }
        }
    }
}

/// Scans bytes as attributes, a level deeper than the attribute that holds them.
fn scan_inside(region: &[u8], order: Order, level: u8, depth: Depth) -> Scan
    requires { length region.now ≤ fixed.LONGEST_REGION }
    ensures list { result.is_list ≡ is_list order depth level region.now }
    ensures visits { result.visits ≡ visits_inside order depth level region.now }
    ensures bound { result.visits ≤ (depth - level) * length region.now }
{
    if level >= depth.get() {
        return Scan {
            is_list: false,
            visits: 0,
        };
    }
    let Tally { result, visits } = scan_list_ordered(
        region,
        0,
        Ctx::Plain,
        level + 1,
        depth,
        order,
    );
    Scan {
        is_list: result.is_ok(),
        visits,
    }
}

fn read_attributes(set: Set, bytes: &[u8], order: Order, level: u8, depth: Depth) -> Reading<'_>
    requires { length bytes.now ≤ fixed.LONGEST_REGION }
    ensures means { sense_of result.meaning ≡ (if is_list order depth level bytes.entry.now
        then sense.list set else unknown) }
    ensures visits { result.visits ≡ visits_inside order depth level bytes.entry.now }
    ensures bound { result.visits ≤ (depth - level) * length bytes.entry.now }
{
    let Scan { is_list, visits } = scan_inside(bytes, order, level, depth);
    let meaning = if is_list {
        Meaning::List(set)
    } else {
        Meaning::Unknown
    };
    Reading { meaning, visits }
}

/// The bytes from an offset on: none where there are fewer.
fn bytes_from(bytes: &[u8], from: usize) -> &[u8]
    ensures { result.now ≡ drop from bytes.entry.now }
{
    if from >= bytes.len() {
        return &[];
    }
    &bytes[from..]
}

/// What lies behind a struct of this size: attributes of a set, or no meaning.
fn read_behind(
    of: Struct,
    set: Set,
    least: u16,
    bytes: &[u8],
    order: Order,
    level: u8,
    depth: Depth,
) -> Reading<'_>
    requires { length bytes.now ≤ fixed.LONGEST_REGION }
    ensures means { sense_of result.meaning
        ≡ headed_sense order depth level (Some (least, least)) of set bytes.entry.now }
    ensures visits { result.visits
        ≡ headed_visits order depth level (Some (least, least)) bytes.entry.now }
    ensures bound { result.visits ≤ (depth - level) * length bytes.entry.now }
{
    if bytes.len() < usize::from(least) {
        return plain(Meaning::Unknown);
    }
    let from = align4(u32::from(least));
    let behind = bytes_from(bytes, from as usize);
    let Scan { is_list, visits } = scan_inside(behind, order, level, depth);
    let meaning = if is_list {
        Meaning::Headed(of, set, from)
    } else {
        Meaning::Unknown
    };
    Reading { meaning, visits }
}

fn read_headed(
    of: Struct,
    set: Set,
    bytes: &[u8],
    order: Order,
    level: u8,
    depth: Depth,
) -> Reading<'_>
    requires { length bytes.now ≤ fixed.LONGEST_REGION }
    ensures means { sense_of result.meaning
        ≡ headed_sense order depth level (bounds_of of) of set bytes.entry.now }
    ensures visits { result.visits
        ≡ headed_visits order depth level (bounds_of of) bytes.entry.now }
    ensures bound { result.visits ≤ (depth - level) * length bytes.entry.now }
{
    match of.bounds() {
        None => plain(Meaning::Unknown),
        Some((least, _)) => read_behind(of, set, least, bytes, order, level, depth),
    }
}

/// A meaning for which nothing was visited.
fn plain(meaning: Meaning<'_>) -> Reading<'_>
    ensures { result ≡ record { meaning = meaning.entry; visits = 0 } }
{
    Reading { meaning, visits: 0 }
}

/// What a payload means by a format which a kind no longer chooses.
fn read_by<'a>(
    format: Format,
    bytes: &'a [u8],
    order: Order,
    level: u8,
    depth: Depth,
) -> Reading<'a>
    requires { length bytes.now ≤ fixed.LONGEST_REGION }
    ensures means { sense_of result.meaning
        ≡ meaning_of order depth level bytes.entry.now format }
    ensures visits { result.visits ≡ visits_of order depth level bytes.entry.now format }
    ensures bound { result.visits ≤ (depth - level) * length bytes.entry.now }
{
    match format {
        Format::Bytes => plain(Meaning::Unknown),
        Format::Flag => plain(flag_of(bytes)),
        Format::Text => plain(text_of(bytes)),
        Format::Integer(number) => plain(integer_in(number, order, bytes)),
        Format::Unsigned => plain(unsigned_in(order, bytes)),
        Format::Value(number, names) => plain(value_in(number, names, order, bytes)),
        Format::Bits(number, names) => plain(bits_in(number, names, order, bytes)),
        Format::Mac => plain(mac_in(bytes)),
        Format::Ipv4 => plain(ipv4_in(bytes)),
        Format::Ipv6 => plain(ipv6_in(bytes)),
        Format::Ip => plain(ip_in(bytes)),
        Format::Series(number) => plain(series_in(number, bytes)),
        Format::Counters(number, names) => plain(counters_in(number, names, bytes)),
        Format::Fields(of) => plain(fields_in(of, bytes)),
        Format::Array(of) => plain(array_in(of, bytes)),
        Format::Headed(of, set) => read_headed(of, set, bytes, order, level, depth),
        Format::List(set) => read_attributes(set, bytes, order, level, depth),
        Format::Hops(_) => plain(Meaning::Unknown),
        Format::Chosen(_, _) => plain(Meaning::Unknown),
    }
}

/// The format of a payload, of which the kind has chosen.
fn resolved(format: Format, order: Order, kind: &[u8]) -> Format
    ensures { result ≡ resolved_format order kind.now format }
{
    match format {
        Format::Chosen(choice, _) => choice.format(order, kind),
        other => other,
    }
}

/// What a payload of a format means, in a message of this byte order.
///
/// `kind` is the payload of the attribute, or the field, that the format's `Selector` names, and
/// empty where there is none. `level` is that of the list in which the attribute stands. Bytes
/// that aren't what the format says, and a list with a fault, have no meaning: `Meaning::Unknown`.
pub fn read_meaning<'a>(
    format: Format,
    bytes: &'a [u8],
    kind: &[u8],
    order: Order,
    level: u8,
    depth: Depth,
) -> Reading<'a>
    requires { length bytes.now ≤ fixed.LONGEST_REGION }
    ensures means { sense_of result.meaning
        ≡ sense_in order depth level format kind.now bytes.entry.now }
    ensures visits { result.visits
        ≡ visits_in order depth level format kind.now bytes.entry.now }
    // No byte is visited more often than there are levels below.
    ensures bound { result.visits ≤ (depth - level) * length bytes.entry.now }
{
    read_by(resolved(format, order, kind), bytes, order, level, depth)
}
