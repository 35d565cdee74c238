//! Attributes and next hops as arrays of objects.

ghost use Rattle.std.specs.Prelude.{◌≡◌, ◌≤◌, ◌+◌, ◌∷◌, [], ◌++◌, OnOk, codes, length};
ghost use Rattle.json.specs.Print.{print};
ghost use Rattle.json.specs.Token.{begin_object};
ghost use Rattle.json.specs.Tree.{json_tokens};
ghost use Rattle.nl_attr.specs.Tree.{HopItems, holds_of};
ghost use Rattle.nl_attr.specs.View.{attrs_view, hop_view, hops_view, value_view};
ghost use Rattle.nl_values.specs.Meanings.{sense_of};
ghost use Rattle.rtnl.specs.Attributes.{attribute_style, inner_context};
ghost use Rattle.rtnl.specs.Data.{longest_name, name_json};
ghost use Rattle.rtnl.specs.Json.{IsUnescaped, ◌⊕◌, array, fields_tokens, number, object, signed, value_text};
ghost use Rattle.rtnl.specs.Json.{values_tokens};
ghost use Rattle.rtnl.specs.MessagesJson.{IsReady, attr_front, bytes_fields};
ghost use Rattle.rtnl.specs.MessagesJson.{flags_json, hop_front, hops_json, is_said, items_fields};
ghost use Rattle.rtnl.specs.MessagesJson.{list_json, read_fields, reading_fields, says_all, sense_beside};
ghost use Rattle.rtnl.specs.MessagesJson.{set_inside, value_fields};
ghost use Rattle.rtnl.specs.Values.{reading_view};

use crate::json_lines::data::inside::{LEVELS, known, meaning_at, push_data};
use crate::json_lines::data::kinds::{MOST_CHOSEN, Scope, kind_in_list, left_behind};
use crate::json_lines::flags::push_names;
use crate::json_lines::line::Line;
use crate::json_lines::values::{is_ready, push_reading, put_reading};
use crate::names::attributes::{Style, attribute, inner};
use crate::names::flags::Bits;
use crate::names::values::{Reading, read_payload};
use crate::pieces::segment::Segment;
use nl_attr::{Attr, AttrFlags, Ctx, Hop, Order, Value};
use nl_values::{Attribute, Format, Meaning, Set};
use std::alloc::AllocError;

/// Puts the words of an attribute's flags in front, as an array.
#[inline(always)]
#[tactic(auto, unfolding(crate::specs::MessagesJson::flags_json, crate::specs::Json::array, json::specs::Print::print_from, json::specs::Print::escape_byte))]
fn put_flags(piece: &mut Segment, flags: AttrFlags)
    requires { 16 + length piece.old ≤ 248 }
    ensures text { piece.new ≡ value_text (flags_json flags) ++ piece.old }
    ensures len { length piece.new ≤ 16 + length piece.old }
{
    match (flags.nested, flags.net) {
        (false, false) => piece.put("[]"),
        (false, true) => piece.put("[\"net\"]"),
        (true, false) => piece.put("[\"nested\"]"),
        (true, true) => piece.put("[\"nested\",\"net\"]"),
    }
}

/// Puts the name of an attribute in front, as a string, or null where it has none.
#[inline(always)]
fn put_name(piece: &mut Segment, name: &str)
    requires plain { IsUnescaped name.now }
    requires short { length name.now ≤ 40 }
    requires room { 42 + length piece.old ≤ 248 }
    ensures text { piece.new ≡ value_text (name_json name.now) ++ piece.old }
    ensures len { length piece.new ≤ 42 + length piece.old }
{
    if name.is_empty() {
        piece.put("null");
        return;
    }
    piece.put("\"");
    piece.put(name);
    piece.put("\"");
}

/// Puts the beginning of the object of an attribute in front, and what every attribute has.
#[inline(always)]
fn put_front(piece: &mut Segment, name: &str, number: u16, flags: AttrFlags)
    requires plain { IsUnescaped name.now }
    requires short { length name.now ≤ longest_name }
    requires room { 90 + length piece.old ≤ 248 }
    ensures text { piece.new
        ≡ print (begin_object ∷ fields_tokens (attr_front name.now number flags)) ++ piece.old }
    ensures len { length piece.new ≤ 90 + length piece.old }
{
    put_flags(piece, flags);
    piece.put(",\"flags\":");
    put_name(piece, name);
    piece.put(",\"name\":");
    piece.put_short("{\"number\":", number);
}

/// Begins the object of an attribute, and writes what every attribute has.
#[inline(never)]
fn push_attr_front(
    line: &mut Line,
    name: &str,
    number: u16,
    flags: AttrFlags,
) -> Result<(), AllocError>
    requires plain { IsUnescaped name.now }
    requires short { length name.now ≤ longest_name }
    ensures { OnOk result
        (line.new ≡ line.old ⊕ (begin_object ∷ fields_tokens (attr_front name.now number flags))) }
{
    let mut piece = Segment::new();
    put_front(&mut piece, name, number, flags);
    line.piece(&mut piece, true)
}

/// Writes an attribute of which all is put together.
#[inline(never)]
fn push_whole(
    line: &mut Line,
    name: &str,
    number: u16,
    flags: AttrFlags,
    reading: Reading<'_>,
) -> Result<(), AllocError>
    requires plain { IsUnescaped name.now }
    requires short { length name.now ≤ longest_name }
    requires ready { IsReady (reading_view reading) }
    ensures { OnOk result (line.new ≡ line.old ⊕ json_tokens (object
        (attr_front name.now number flags ++ reading_fields (reading_view reading.entry)))) }
{
    let mut piece = Segment::new();
    piece.put("}");
    put_reading(&mut piece, reading);
    piece.put(",");
    put_front(&mut piece, name, number, flags);
    line.piece(&mut piece, true)
}

/// Begins the object of an attribute, of which the front and what is read are put together.
#[inline(never)]
fn push_front_read(
    line: &mut Line,
    name: &str,
    number: u16,
    flags: AttrFlags,
    reading: Reading<'_>,
) -> Result<(), AllocError>
    requires plain { IsUnescaped name.now }
    requires short { length name.now ≤ longest_name }
    requires ready { IsReady (reading_view reading) }
    ensures { OnOk result (line.new
        ≡ (line.old ⊕ (begin_object ∷ fields_tokens (attr_front name.now number flags)))
        ⊕ fields_tokens (reading_fields (reading_view reading.entry))) }
{
    let mut piece = Segment::new();
    put_reading(&mut piece, reading);
    piece.put(",");
    put_front(&mut piece, name, number, flags);
    line.piece(&mut piece, true)
}

/// Begins the object of an attribute, and writes what is read.
fn push_read(
    line: &mut Line,
    name: &str,
    number: u16,
    flags: AttrFlags,
    reading: Reading<'_>,
) -> Result<(), AllocError>
    requires plain { IsUnescaped name.now }
    requires short { length name.now ≤ longest_name }
    ensures { OnOk result (line.new
        ≡ (line.old ⊕ (begin_object ∷ fields_tokens (attr_front name.now number flags)))
        ⊕ fields_tokens (reading_fields (reading_view reading.entry))) }
{
    if is_ready(reading) {
        return push_front_read(line, name, number, flags, reading);
    }
    push_attr_front(line, name, number, flags)?;
    push_reading(line, reading)
}

/// Whether what is read says already what the bytes mean.
fn is_said(reading: Reading<'_>, meaning: Meaning<'_>) -> bool
    ensures { result ≡ is_said (reading_view reading.entry) (sense_of meaning.entry) }
{
    match (reading, meaning) {
        (Reading::Hex(_), _) => false,
        (_, Meaning::Integer(_) | Meaning::Text(_) | Meaning::Ipv4(_) | Meaning::Ipv6(_)) => true,
        _ => false,
    }
}

/// Whether what is read says all that bytes of a format can mean, so that they need not be read
/// once more.
#[inline(always)]
fn says_all(reading: Reading<'_>, format: Format) -> bool
    ensures { result ≡ says_all (reading_view reading.entry) format }
{
    match (reading, format) {
        (_, Format::Bytes | Format::Hops(_)) => true,
        (Reading::Hex(_), _) => false,
        (_, Format::Integer(_) | Format::Unsigned | Format::Text) => true,
        (_, Format::Ipv4 | Format::Ipv6 | Format::Ip) => true,
        _ => false,
    }
}

/// What the bytes of an attribute mean beside what is read of them. It is `Unknown` where that says
/// the same, and where the flag of the network's order stands.
#[tactic(auto, using(crate::proofs::Beside::nothing_beside))]
pub(crate) fn meaning_beside<'a>(
    scope: Scope<'_>,
    reading: Reading<'_>,
    net: bool,
    format: Format,
    kind: &[u8],
    payload: &'a [u8],
) -> Meaning<'a>
    ensures { sense_of result ≡ sense_beside scope.entry.order (reading_view reading.entry) net
        format kind.now payload.entry.now }
{
    if net {
        return Meaning::Unknown;
    }
    if says_all(reading, format) {
        return Meaning::Unknown;
    }
    let meaning = meaning_at(scope.order, LEVELS, format, kind, payload);
    if is_said(reading, meaning) {
        return Meaning::Unknown;
    }
    meaning
}

/// Writes an attribute of bytes of which this is read, and what they mean beside that.
#[inline(never)]
fn push_read_bytes(
    line: &mut Line,
    scope: Scope<'_>,
    reading: Reading<'_>,
    known: Attribute,
    kind: &[u8],
    number: u16,
    flags: AttrFlags,
    payload: &[u8],
) -> Result<(), AllocError>
    requires plain { IsUnescaped known.name.now }
    requires short { length known.name.now ≤ longest_name }
    ensures { OnOk result (line.new ≡ line.old ⊕ json_tokens (object
        (attr_front known.name.now number flags
        ++ read_fields scope.entry.order scope.entry.family.now (reading_view reading.entry)
        flags.net known.format kind.now payload.now))) }
{
    let meaning = meaning_beside(scope, reading, flags.net, known.format, kind, payload);
    if matches!(meaning, Meaning::Unknown) && is_ready(reading) {
        return push_whole(line, known.name, number, flags, reading);
    }
    push_read(line, known.name, number, flags, reading)?;
    push_data(line, scope, meaning, payload)?;
    line.end_object()
}

/// Writes an attribute of bytes.
#[inline(always)]
#[tactic(auto, using(crate::proofs::Beside::nothing_beside))]
fn push_bytes(
    line: &mut Line,
    scope: Scope<'_>,
    style: Style,
    known: Attribute,
    kind: &[u8],
    number: u16,
    flags: AttrFlags,
    payload: &[u8],
) -> Result<(), AllocError>
    requires plain { IsUnescaped known.name.now }
    requires short { length known.name.now ≤ longest_name }
    ensures { OnOk result (line.new ≡ line.old ⊕ json_tokens (object
        (attr_front known.name.now number flags
        ++ bytes_fields scope.entry.order scope.entry.family.now style
        flags.net known.format kind.now payload.now))) }
{
    let reading = read_payload(scope.order, style, flags.net, payload);
    if says_all(reading, known.format) && is_ready(reading) {
        return push_whole(line, known.name, number, flags, reading);
    }
    push_read_bytes(line, scope, reading, known, kind, number, flags, payload)
}

/// Writes how many next hops one stands for, and its interface.
#[inline(always)]
#[tactic(auto, using(crate::proofs::Json::hop_numbers_written))]
fn push_hop_numbers(line: &mut Line, hops: u8, index: i32) -> Result<(), AllocError>
    ensures { OnOk result (line.new ≡ line.old ⊕ fields_tokens
        ((codes "hops", number hops) ∷ (codes "index", signed index) ∷ [])) }
{
    let mut piece = Segment::new();
    piece.put_signed(index.into());
    piece.put(",\"index\":");
    piece.put_small("\"hops\":", hops);
    line.piece(&mut piece, true)
}

/// Writes what a next hop says of itself.
#[tactic(auto, unfolding(crate::specs::MessagesJson::hop_front), using(crate::proofs::Sets::field))]
fn push_hop_front(line: &mut Line, flags: u8, hops: u8, index: i32) -> Result<(), AllocError>
    ensures { OnOk result (line.new ≡ line.old ⊕ fields_tokens (hop_front flags hops index)) }
{
    line.number("flags", flags.into())?;
    push_names(line, "flag_names", Bits::NextHop, flags as u32)?;
    push_hop_numbers(line, hops, index)
}

/// The set of the attributes that an attribute of a format holds, if it is known.
pub(crate) fn set_inside(order: Order, format: Format, kind: &[u8]) -> Option<Set>
    ensures { result ≡ set_inside order kind.now format }
{
    let format = match format {
        Format::Chosen(choice, _) => choice.format(order, kind),
        format => format,
    };
    match format {
        Format::List(set) | Format::Hops(set) => Some(set),
        _ => None,
    }
}

/// Writes an attribute that holds a list.
#[inline(never)]
#[cycle(writing)]
fn push_list(
    line: &mut Line,
    scope: Scope<'_>,
    known: Attribute,
    kind: &[u8],
    number: u16,
    flags: AttrFlags,
    ctx: Ctx,
    attrs: &[Attr],
) -> Result<(), AllocError>
    requires plain { IsUnescaped known.name.now }
    requires short { length known.name.now ≤ longest_name }
    ensures { OnOk result (line.new ≡ line.old ⊕ json_tokens (object
        (attr_front known.name.now number flags
        ++ items_fields (codes "list") (list_json scope.entry.order scope.entry.family.now
        (set_inside scope.entry.order kind.now known.format) ctx (attrs_view attrs.now))))) }
{
    let set = set_inside(scope.order, known.format, kind);
    push_attr_front(line, known.name, number, flags)?;
    line.text("form", "list")?;
    push_attrs(line, "items", scope, set, ctx, attrs)?;
    line.end_object()
}

/// Writes an attribute that holds next hops.
#[inline(never)]
#[cycle(writing)]
fn push_hops(
    line: &mut Line,
    scope: Scope<'_>,
    known: Attribute,
    kind: &[u8],
    number: u16,
    flags: AttrFlags,
    hops: &[Hop],
) -> Result<(), AllocError>
    requires plain { IsUnescaped known.name.now }
    requires short { length known.name.now ≤ longest_name }
    ensures { OnOk result (line.new ≡ line.old ⊕ json_tokens (object
        (attr_front known.name.now number flags
        ++ items_fields (codes "hops") (hops_json scope.entry.order scope.entry.family.now
        (set_inside scope.entry.order kind.now known.format) (hops_view hops.now))))) }
{
    let set = set_inside(scope.order, known.format, kind);
    push_attr_front(line, known.name, number, flags)?;
    line.text("form", "hops")?;
    line.key("items")?;
    line.begin_array()?;
    push_each_hop(line, scope, set, hops)?;
    line.end_array()?;
    line.end_object()
}

/// Writes an attribute, of which this is known.
#[inline(always)]
#[cycle(writing)]
fn push_attr(
    line: &mut Line,
    scope: Scope<'_>,
    known: Attribute,
    kind: &[u8],
    ctx: Ctx,
    attr: &Attr,
) -> Result<(), AllocError>
    requires plain { IsUnescaped known.name.now }
    requires short { length known.name.now ≤ longest_name }
    ensures { OnOk result (line.new ≡ line.old ⊕ json_tokens (object
        (attr_front known.name.now attr.now.number attr.now.flags
        ++ value_fields scope.entry.order scope.entry.family.now
        (attribute_style ctx attr.now.number) attr.now.flags.net
        (inner_context (holds_of ctx attr.now.number attr.now.flags))
        known.format kind.now (value_view attr.now.value)))) }
{
    match &attr.value {
        Value::Bytes(payload) => {
            let (_, style) = attribute(ctx, attr.number);
            let payload = payload.as_slice();
            push_bytes(
                line,
                scope,
                style,
                known,
                kind,
                attr.number,
                attr.flags,
                payload,
            )
        }
        Value::List(attrs) => push_list(
            line,
            scope,
            known,
            kind,
            attr.number,
            attr.flags,
            inner(ctx, attr.number, attr.flags),
            attrs,
        ),
        Value::Hops(hops) => push_hops(line, scope, known, kind, attr.number, attr.flags, hops),
    }
}

#[cycle(writing)]
#[tactic(auto, using(crate::proofs::Sets::all_written))]
fn push_each_attr(
    line: &mut Line,
    scope: Scope<'_>,
    set: Option<Set>,
    ctx: Ctx,
    attrs: &[Attr],
) -> Result<(), AllocError>
    ensures { OnOk result (line.new ≡ line.old ⊕ values_tokens
        (list_json scope.entry.order scope.entry.family.now set ctx (attrs_view attrs.now))) }
{
    let mut left = MOST_CHOSEN;
    for attr in attrs {
        let known = known(set, attr.number);
        let kind = kind_in_list(scope, attrs, left, known.format);
        push_attr(line, scope, known, kind, ctx, attr)?;
        left = left_behind(left, known.format);
    }
    Ok(())
}

/// Writes a field of this name with attributes of a set, in a context.
#[cycle(writing)]
#[tactic(auto, using(crate::proofs::Sets::whole_value))]
pub(crate) fn push_attrs(
    line: &mut Line,
    name: &str,
    scope: Scope<'_>,
    set: Option<Set>,
    ctx: Ctx,
    attrs: &[Attr],
) -> Result<(), AllocError>
    requires { IsUnescaped name.now }
    ensures { OnOk result (line.new ≡ line.old ⊕ fields_tokens ((
      name.now,
      array
          (list_json scope.entry.order scope.entry.family.now set ctx (attrs_view attrs.now)),
    ) ∷ [])) }
{
    line.key(name)?;
    line.begin_array()?;
    push_each_attr(line, scope, set, ctx, attrs)?;
    line.end_array()
}

/// Writes a next hop.
#[cycle(writing)]
fn push_hop(
    line: &mut Line,
    scope: Scope<'_>,
    set: Option<Set>,
    hop: &Hop,
) -> Result<(), AllocError>
    ensures { OnOk result ((more : HopItems)
        → line.new ⊕ values_tokens (hops_json scope.entry.order scope.entry.family.now set more)
        ≡ line.old ⊕ values_tokens
        (hops_json scope.entry.order scope.entry.family.now set (hop_view hop.now more))) }
{
    line.begin_object()?;
    push_hop_front(line, hop.flags, hop.hops, hop.ifindex)?;
    push_attrs(line, "attrs", scope, set, Ctx::Route, &hop.attrs)?;
    line.end_object()
}

#[cycle(writing)]
#[tactic(auto, using(crate::proofs::Sets::all_written))]
fn push_each_hop(
    line: &mut Line,
    scope: Scope<'_>,
    set: Option<Set>,
    hops: &[Hop],
) -> Result<(), AllocError>
    ensures { OnOk result (line.new ≡ line.old ⊕ values_tokens
        (hops_json scope.entry.order scope.entry.family.now set (hops_view hops.now))) }
{
    for hop in hops {
        push_hop(line, scope, set, hop)?;
    }
    Ok(())
}
