//! Structs and attributes in a payload, and what these hold.

ghost use Rattle.std.specs.Prelude.{◌≡◌, ◌≤◌, ◌<◌, ◌+◌, ◌⊎◌, ◌∷◌, [], IfNone, IfSome, OnOk, codes, drop};
ghost use Rattle.std.specs.Prelude.{if◌then◌else◌, length};
ghost use Rattle.json.specs.Tree.{json_tokens};
ghost use Rattle.nl_attr.specs.Fixed as fixed;
ghost use Rattle.nl_values.specs.Known.{attribute_view, field_view, fields_of};
ghost use Rattle.nl_values.specs.Meanings.{sense_of, unknown};
ghost use Rattle.rtnl.specs.Data.{longest_name, attr_json, data_fields, data_json};
ghost use Rattle.rtnl.specs.Data.{field_json, shown_sense};
ghost use Rattle.rtnl.specs.Data.{headed_json, held_json, is_known, known, name_json, or_digits, parts_of};
ghost use Rattle.rtnl.specs.Data.{region_json, sense_at, sense_json, struct_json, structs_json};
ghost use Rattle.rtnl.specs.Json.{IsUnescaped, ◌⊕◌, array, fields_tokens, object};

use crate::json_lines::data::kinds::{MOST_CHOSEN, Scope, kind_in_region, left_behind};
use crate::json_lines::data::leaves::{
    bytes_from, bytes_up_to, count_in, push_bits, push_counters, push_integer, push_ipv4,
    push_ipv6, push_mac, push_named, push_series, push_value,
};
use crate::json_lines::line::Line;
use nl_attr::{Attrs, Depth, LONGEST_REGION, Order, Part};
use nl_values::{Attribute, Field, Format, Meaning, Set, Struct, read_meaning};
use std::alloc::AllocError;

/// How many levels of lists and structs are shown of a payload: the standard depth limit.
pub(crate) const LEVELS: u8 = 8;

/// The name and the format of an attribute; no name and `Format::Bytes` where it is unknown.
pub(crate) fn known(set: Option<Set>, number: u16) -> Attribute
    ensures says { attribute_view result ≡ known set number }
    // Names need no escape in JSON.
    ensures plain { IsUnescaped result.name.now }
    ensures short { length result.name.now ≤ longest_name }
{
    if let Some(set) = set {
        if let Some(attribute) = set.attribute(number) {
            return attribute;
        }
    }
    Attribute {
        name: "",
        format: Format::Bytes,
    }
}

/// What a payload means, with at most `levels` levels inside one another.
pub(crate) fn meaning_at<'a>(
    order: Order,
    levels: u8,
    format: Format,
    kind: &[u8],
    payload: &'a [u8],
) -> Meaning<'a>
    ensures { sense_of result ≡ sense_at order levels format kind.now payload.entry.now }
{
    if payload.len() > LONGEST_REGION {
        return Meaning::Unknown;
    }
    let depth = Depth::standard();
    let level = depth.get().saturating_sub(levels);
    read_meaning(format, payload, kind, order, level, depth).meaning
}

/// Whether a meaning is known. Bytes of an unknown one are shown in digits.
pub(crate) fn is_known(meaning: Meaning<'_>) -> bool
    ensures { result ≡ is_known (sense_of meaning.entry) }
{
    match meaning {
        Meaning::Unknown => false,
        Meaning::Flag => true,
        Meaning::Text(_) => true,
        Meaning::Integer(_) => true,
        Meaning::Value(_, _) => true,
        Meaning::Bits(_, _) => true,
        Meaning::Mac(_) => true,
        Meaning::Ipv4(_) => true,
        Meaning::Ipv6(_) => true,
        Meaning::Series(_) => true,
        Meaning::Counters(_, _) => true,
        Meaning::Fields(_) => true,
        Meaning::Array(_, _) => true,
        Meaning::Headed(_, _, _) => true,
        Meaning::List(_) => true,
    }
}

/// The key of what bytes mean, or of their digits.
fn key_of(known: bool) -> &'static str
    ensures name { result.now ≡ (if known then codes "data" else codes "value") }
    ensures plain { IsUnescaped result.now }
{
    if known { "data" } else { "value" }
}

/// How many levels may be shown inside `bytes`; `None` where `bytes` may not be shown.
pub(crate) fn levels_inside(levels: u8, bytes: &[u8]) -> Option<u8>
    ensures some { IfSome result (λ inner. (levels ≡ inner + 1)
        × (length bytes.now ≤ fixed.LONGEST_REGION)) }
    ensures none { IfNone result ((levels ≡ 0) ⊎ (fixed.LONGEST_REGION < length bytes.now)) }
{
    if bytes.len() > LONGEST_REGION {
        return None;
    }
    levels.checked_sub(1)
}

/// Writes a field of a struct, if its bytes are there.
#[cycle(meaning)]
fn push_field(
    line: &mut Line,
    scope: Scope<'_>,
    levels: u8,
    field: Field,
    bytes: &[u8],
) -> Result<(), AllocError>
    ensures { OnOk result (line.new ≡ line.old ⊕ fields_tokens
        (field_json (data_json scope.entry.order scope.entry.family.now levels) (field_view field) bytes.now)) }
{
    let Some(part) = field.part(bytes) else {
        return Ok(());
    };
    let Some(inner) = levels_inside(levels, part) else {
        line.name(field.name)?;
        return line.hex(part);
    };
    let meaning = meaning_at(scope.order, levels, field.format, &[], part);
    if let Meaning::Integer(number) = meaning {
        return push_named(line, field.name, number);
    }
    line.name(field.name)?;
    push_meaning(line, scope, inner, &[], meaning, part)
}

/// Writes the field of this index, if there is one.
#[cycle(meaning)]
fn push_field_at(
    line: &mut Line,
    scope: Scope<'_>,
    levels: u8,
    of: Struct,
    index: usize,
    bytes: &[u8],
) -> Result<(), AllocError>
    ensures { OnOk result (line.new ⊕ fields_tokens (struct_json
        (data_json scope.entry.order scope.entry.family.now levels) (drop (index + 1) (fields_of of)) bytes.now)
        ≡ line.old ⊕ fields_tokens (struct_json
        (data_json scope.entry.order scope.entry.family.now levels) (drop index (fields_of of)) bytes.now)) }
{
    match of.field(index) {
        Some(field) => push_field(line, scope, levels, field, bytes),
        None => Ok(()),
    }
}

#[cycle(meaning)]
#[tactic(auto, using(crate::proofs::Sets::no_field_left))]
fn push_fields(
    line: &mut Line,
    scope: Scope<'_>,
    levels: u8,
    of: Struct,
    bytes: &[u8],
) -> Result<(), AllocError>
    ensures { OnOk result (line.new ≡ line.old ⊕ fields_tokens
        (struct_json (data_json scope.entry.order scope.entry.family.now levels) (fields_of of) bytes.now)) }
{
    for index in 0..of.len() {
        push_field_at(line, scope, levels, of, index, bytes)?;
    }
    Ok(())
}

#[cycle(meaning)]
#[tactic(auto, using(crate::proofs::Sets::whole_value))]
fn push_struct(
    line: &mut Line,
    scope: Scope<'_>,
    levels: u8,
    of: Struct,
    bytes: &[u8],
) -> Result<(), AllocError>
    ensures { OnOk result (line.new ≡ line.old ⊕ json_tokens (object
        (struct_json (data_json scope.entry.order scope.entry.family.now levels) (fields_of of) bytes.now))) }
{
    line.begin_object()?;
    push_fields(line, scope, levels, of, bytes)?;
    line.end_object()
}

/// Writes structs of `size` bytes, one after another, as an array.
#[cycle(meaning)]
fn push_structs(
    line: &mut Line,
    scope: Scope<'_>,
    levels: u8,
    of: Struct,
    size: u16,
    bytes: &[u8],
) -> Result<(), AllocError>
    ensures { OnOk result (line.new ≡ line.old ⊕ json_tokens (array
        (structs_json (data_json scope.entry.order scope.entry.family.now levels)
        (fields_of of) size bytes.now))) }
{
    let width = usize::from(size);
    line.begin_array()?;
    let mut left = bytes;
    for _index in 0..count_in(width, bytes.len()) {
        push_struct(line, scope, levels, of, bytes_up_to(left, width))?;
        left = bytes_from(left, width);
    }
    line.end_array()
}

/// Writes the name of an attribute, or null where it has none.
fn push_name(line: &mut Line, name: &str) -> Result<(), AllocError>
    ensures { OnOk result (line.new ≡ line.old ⊕ json_tokens (name_json name.now)) }
{
    if name.is_empty() {
        return line.null();
    }
    line.string(name)
}

/// Writes what an attribute of a region holds.
#[cycle(meaning)]
fn push_held(
    line: &mut Line,
    scope: Scope<'_>,
    levels: u8,
    region: &[u8],
    format: Format,
    kind: &[u8],
    payload: &[u8],
) -> Result<(), AllocError>
    requires { length region.now ≤ fixed.LONGEST_REGION }
    ensures { OnOk result (line.new ≡ line.old ⊕ fields_tokens (held_json payload.now
        (data_json scope.entry.order scope.entry.family.now levels format kind.now
        (parts_of scope.entry.order region.now) payload.now) ∷ [])) }
{
    let Some(inner) = levels_inside(levels, payload) else {
        return line.digits("value", payload);
    };
    let meaning = meaning_at(scope.order, levels, format, kind, payload);
    line.key(key_of(is_known(meaning)))?;
    push_meaning(line, scope, inner, region, meaning, payload)
}

/// Writes an attribute of a region.
#[cycle(meaning)]
#[tactic(auto, unfolding(crate::specs::Json::fields_tokens), using(crate::proofs::Sets::whole_value))]
fn push_attr(
    line: &mut Line,
    scope: Scope<'_>,
    levels: u8,
    region: &[u8],
    part: Part<'_>,
    attribute: Attribute,
    kind: &[u8],
) -> Result<(), AllocError>
    requires { length region.now ≤ fixed.LONGEST_REGION }
    ensures { OnOk result (line.new ≡ line.old ⊕ json_tokens (attr_json part.entry.number
        attribute.name.now part.entry.payload.now
        (data_json scope.entry.order scope.entry.family.now levels attribute.format kind.now
        (parts_of scope.entry.order region.now) part.entry.payload.now))) }
{
    line.begin_object()?;
    line.number("number", part.number.into())?;
    line.key("name")?;
    push_name(line, attribute.name)?;
    push_held(
        line,
        scope,
        levels,
        region,
        attribute.format,
        kind,
        part.payload,
    )?;
    line.end_object()
}

/// Writes the attributes of a region that lies in the region `outer`, as an array.
#[cycle(meaning)]
fn push_list(
    line: &mut Line,
    scope: Scope<'_>,
    levels: u8,
    outer: &[u8],
    set: Set,
    region: &[u8],
) -> Result<(), AllocError>
    requires outer { length outer.now ≤ fixed.LONGEST_REGION }
    requires region { length region.now ≤ fixed.LONGEST_REGION }
    ensures { OnOk result (line.new ≡ line.old ⊕ json_tokens (array
        (region_json scope.entry.order scope.entry.family.now (data_json scope.entry.order scope.entry.family.now levels)
        (parts_of scope.entry.order outer.now) set region.now))) }
{
    line.begin_array()?;
    let mut left = MOST_CHOSEN;
    for part in Attrs::of_ordered(region, scope.order) {
        match part {
            Ok(part) => {
                let attribute = known(Some(set), part.number);
                let kind = kind_in_region(scope, outer, region, left, attribute.format);
                push_attr(line, scope, levels, region, part, attribute, kind)?;
                left = left_behind(left, attribute.format);
            }
            Err(_) => return line.end_array(),
        }
    }
    line.end_array()
}

/// Writes a struct, with the attributes after it as the field `attrs`.
#[cycle(meaning)]
#[tactic(auto, using(crate::proofs::Sets::whole_value, crate::proofs::Sets::field))]
fn push_headed(
    line: &mut Line,
    scope: Scope<'_>,
    levels: u8,
    outer: &[u8],
    of: Struct,
    set: Set,
    from: u32,
    bytes: &[u8],
) -> Result<(), AllocError>
    requires outer { length outer.now ≤ fixed.LONGEST_REGION }
    requires bytes { length bytes.now ≤ fixed.LONGEST_REGION }
    ensures { OnOk result (line.new ≡ line.old ⊕ json_tokens (object
        (headed_json scope.entry.order scope.entry.family.now (data_json scope.entry.order scope.entry.family.now levels)
        (parts_of scope.entry.order outer.now) (fields_of of) set from bytes.now))) }
{
    line.begin_object()?;
    push_fields(line, scope, levels, of, bytes)?;
    line.key("attrs")?;
    push_list(
        line,
        scope,
        levels,
        outer,
        set,
        bytes_from(bytes, from as usize),
    )?;
    line.end_object()
}

/// Writes what the bytes of an attribute in `region` mean, with `inner` levels inside. Bytes
/// without a meaning are digits.
#[cycle(meaning)]
pub(crate) fn push_meaning(
    line: &mut Line,
    scope: Scope<'_>,
    inner: u8,
    region: &[u8],
    meaning: Meaning<'_>,
    bytes: &[u8],
) -> Result<(), AllocError>
    requires region { length region.now ≤ fixed.LONGEST_REGION }
    requires bytes { length bytes.now ≤ fixed.LONGEST_REGION }
    ensures { OnOk result (line.new ≡ line.old ⊕ json_tokens (or_digits bytes.now
        (sense_json scope.entry.order scope.entry.family.now (data_json scope.entry.order scope.entry.family.now inner)
        (parts_of scope.entry.order region.now) bytes.now (sense_of meaning.entry)))) }
{
    match meaning {
        Meaning::Unknown => line.hex(bytes),
        Meaning::Flag => line.truth(true),
        Meaning::Text(text) => line.string(text),
        Meaning::Integer(number) => push_integer(line, number),
        Meaning::Value(number, name) => push_value(line, number, name),
        Meaning::Bits(number, names) => push_bits(line, number, names),
        Meaning::Mac(address) => push_mac(line, address),
        Meaning::Ipv4(address) => push_ipv4(line, address),
        Meaning::Ipv6(address) => push_ipv6(line, address),
        Meaning::Series(number) => push_series(line, scope.order, number, bytes),
        Meaning::Counters(number, names) => push_counters(line, scope.order, number, names, bytes),
        Meaning::Fields(of) => push_struct(line, scope, inner, of, bytes),
        Meaning::Array(of, size) => push_structs(line, scope, inner, of, size, bytes),
        Meaning::Headed(of, set, from) => {
            push_headed(line, scope, inner, region, of, set, from, bytes)
        }
        Meaning::List(set) => push_list(line, scope, inner, region, set, bytes),
    }
}

/// Writes the field `data` with what a payload means, or nothing where that is unknown.
pub(crate) fn push_data(
    line: &mut Line,
    scope: Scope<'_>,
    meaning: Meaning<'_>,
    payload: &[u8],
) -> Result<(), AllocError>
    requires { (sense_of meaning ≡ unknown → ⊥) → length payload.now ≤ fixed.LONGEST_REGION }
    ensures { OnOk result (line.new ≡ line.old ⊕ fields_tokens
        (data_fields (shown_sense scope.entry.order scope.entry.family.now (sense_of meaning.entry) payload.now))) }
{
    if !is_known(meaning) {
        return Ok(());
    }
    line.data_key()?;
    push_meaning(line, scope, LEVELS - 1, &[], meaning, payload)
}
