//! What a payload is read as.

ghost use Rattle.std.specs.Prelude.{◌≡◌, ◌+◌, ◌<◌, ◌≤◌, [], ◌++◌, length};
ghost use Rattle.std.specs.List.{list_all};
ghost use Rattle.rtnl.specs.Text.{padded_hex};
ghost use Rattle.rtnl.specs.Values.{group_at, groups_text, hex, ip_reading, ipv4_text, ipv6_text};
ghost use Rattle.rtnl.specs.Values.{is_plain, is_plain_byte, reading_of, reading_view, stem_of};
ghost use Rattle.rtnl.specs.Values.{text_reading, u16_reading, u32_reading, u8_reading};

use crate::names::attributes::Style;
use crate::pieces::segment::Segment;
use nl_attr::Order;

/// The longest text that is put together with what stands around it, in bytes.
pub(crate) const LONGEST_TEXT: usize = 128;

/// The most bytes whose digits are.
pub(crate) const MOST_BYTES: usize = 64;

/// What a payload is read as.
#[derive(Clone, Copy)]
pub(crate) enum Reading<'a> {
    U8(u8),
    U16(u16),
    U32(u32),
    Text(&'a str),
    Ipv4([u8; 4]),
    Ipv6([u8; 16]),
    Hex(&'a [u8]),
}

fn u8_of(net: bool, bytes: &[u8]) -> Reading<'_>
    ensures { reading_view result ≡ u8_reading net bytes.entry.now }
{
    if bytes.len() != 1 || net {
        return Reading::Hex(bytes);
    }
    Reading::U8(bytes[0])
}

fn u16_of(order: Order, net: bool, bytes: &[u8]) -> Reading<'_>
    ensures { reading_view result ≡ u16_reading order net bytes.entry.now }
{
    if bytes.len() != 2 || net {
        return Reading::Hex(bytes);
    }
    Reading::U16(order.read_u16(bytes))
}

fn u32_of(order: Order, net: bool, bytes: &[u8]) -> Reading<'_>
    ensures { reading_view result ≡ u32_reading order net bytes.entry.now }
{
    if bytes.len() != 4 || net {
        return Reading::Hex(bytes);
    }
    Reading::U32(order.read_u32(bytes))
}

/// The bytes without one zero byte at their end.
pub(crate) fn stem(bytes: &[u8]) -> &[u8]
    ensures { result.now ≡ stem_of bytes.entry.now }
{
    match bytes.split_last() {
        Some((0, front)) => front,
        _ => bytes,
    }
}

fn is_plain_character(byte: u8) -> bool
    ensures { result ≡ is_plain_byte byte }
{
    matches!(byte, b' '..=b'~')
}

fn all_plain(bytes: &[u8]) -> bool
    ensures { result ≡ list_all is_plain_byte bytes.now }
{
    bytes.iter().all(|byte| is_plain_character(*byte))
}

fn is_plain_text(bytes: &[u8]) -> bool
    ensures { result ≡ is_plain bytes.now }
{
    !bytes.is_empty() && all_plain(bytes)
}

/// A payload as a text, where it is one.
#[tactic(auto, using(crate::proofs::Unescaped::plain_utf8))]
fn text_of(bytes: &[u8]) -> Reading<'_>
    ensures { reading_view result ≡ text_reading bytes.entry.now }
{
    let stem = stem(bytes);
    if !is_plain_text(stem) {
        return Reading::Hex(bytes);
    }
    match str::from_utf8(stem) {
        Ok(text) => Reading::Text(text),
        Err(_) => unreachable!(),
    }
}

/// A payload as an address, where it has the length of one.
fn ip_of(bytes: &[u8]) -> Reading<'_>
    ensures { reading_view result ≡ ip_reading bytes.entry.now }
{
    if let Ok(address) = <[u8; 4]>::try_from(bytes) {
        return Reading::Ipv4(address);
    }
    if let Ok(address) = <[u8; 16]>::try_from(bytes) {
        return Reading::Ipv6(address);
    }
    Reading::Hex(bytes)
}

/// What a payload of this style is read as. `net` says that the attribute has the flag of the
/// network's order.
#[tactic(auto, unfolding(crate::specs::Values::reading_of))]
pub(crate) fn read_payload(order: Order, style: Style, net: bool, bytes: &[u8]) -> Reading<'_>
    ensures { reading_view result ≡ reading_of order style net bytes.entry.now }
{
    match style {
        Style::U8 => u8_of(net, bytes),
        Style::U16 => u16_of(order, net, bytes),
        Style::U32 => u32_of(order, net, bytes),
        Style::NetworkU16 => u16_of(Order::Big, false, bytes),
        Style::Text => text_of(bytes),
        Style::Address => ip_of(bytes),
        Style::Hex => Reading::Hex(bytes),
    }
}

/// Puts an address of IPv4 in front.
#[inline(always)]
#[tactic(auto, unfolding(crate::specs::Values::ipv4_text), using(crate::proofs::Sets::joins))]
pub(crate) fn put_ipv4(text: &mut Segment, address: [u8; 4])
    requires { 33 + length text.old ≤ 248 }
    ensures text { text.new ≡ ipv4_text address ++ text.old }
    ensures len { length text.new ≤ 15 + length text.old }
{
    let [a, b, c, d] = address;
    text.put_small(".", d);
    text.put_small(".", c);
    text.put_small(".", b);
    text.put_small("", a);
}

#[inline(always)]
#[tactic(auto, unfolding(crate::specs::Values::group_at))]
fn put_group(text: &mut Segment, address: &[u8; 16], i: usize)
    requires room { 4 + length text.old ≤ 248 }
    requires within { i + 1 < 16 }
    ensures text { text.new ≡ padded_hex 4 (group_at i address.now) ++ text.old }
    ensures len { length text.new ≡ 4 + length text.old }
{
    text.put_hex4(256 * u16::from(address[i]) + u16::from(address[i + 1]));
}

/// Puts four groups in front, from place i on.
#[inline(always)]
#[tactic(auto, unfolding(crate::specs::Values::groups_text), using(crate::proofs::Sets::joins))]
fn put_groups(text: &mut Segment, address: &[u8; 16], i: usize)
    requires room { 19 + length text.old ≤ 248 }
    requires within { i + 7 < 16 }
    ensures text { text.new ≡ groups_text i address.now ++ text.old }
    ensures len { length text.new ≡ 19 + length text.old }
{
    put_group(text, address, i + 6);
    text.put(":");
    put_group(text, address, i + 4);
    text.put(":");
    put_group(text, address, i + 2);
    text.put(":");
    put_group(text, address, i);
}

/// Puts an address of IPv6 in front.
#[tactic(auto, unfolding(crate::specs::Values::ipv6_text), using(crate::proofs::Sets::joins))]
pub(crate) fn put_ipv6(text: &mut Segment, address: &[u8; 16])
    requires { 39 + length text.old ≤ 248 }
    ensures text { text.new ≡ ipv6_text address.now ++ text.old }
    ensures len { length text.new ≡ 39 + length text.old }
{
    put_groups(text, address, 8);
    text.put(":");
    put_groups(text, address, 0);
}
