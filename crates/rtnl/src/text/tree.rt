//! The printed text of attributes and next hops.

ghost use Rattle.std.specs.Prelude.{◌≡◌, ◌≤◌, ◌+◌, ◌++◌, MatchOption, OnOk, codes, length};
ghost use Rattle.nl_attr.specs.Tree.{HopItems, Items};
ghost use Rattle.nl_attr.specs.View.{attr_view, attrs_view, hop_view, hops_view, value_view};
ghost use Rattle.rtnl.specs.Trees.{attr_front, attr_line, deeper, flags_text, held_text, hop_line};
ghost use Rattle.rtnl.specs.Trees.{hops_text, indented, inline_text, items_text};
ghost use Rattle.rtnl.specs.Values.{reading_view, value_text};

use crate::names::attributes::{Style, attribute, inner};
use crate::names::flags::Bits;
use crate::names::values::{Reading, read_payload};
use crate::pieces::push;
use crate::pieces::segment::Segment;
use crate::text::flags::push_names;
use crate::text::values::{is_short, push_value, put_value};
use nl_attr::{Attr, AttrFlags, Ctx, Hop, Order, Value};
use std::alloc::AllocError;

/// Puts the words of an attribute's flags in front.
#[inline(always)]
#[tactic(auto, unfolding(crate::specs::Trees::flags_text))]
fn put_flags(text: &mut Segment, flags: AttrFlags)
    requires { 10 + length text.old ≤ 248 }
    ensures text { text.new ≡ flags_text flags ++ text.old }
    ensures len { length text.new ≤ 10 + length text.old }
{
    match (flags.nested, flags.net) {
        (false, false) => text.put("-"),
        (false, true) => text.put("net"),
        (true, false) => text.put("nested"),
        (true, true) => text.put("nested,net"),
    }
}

/// Writes what stands before the words of a line inside a body.
#[inline(always)]
fn push_indent(out: &mut Vec<u8>, indent: &[u8]) -> Result<(), AllocError>
    ensures { OnOk result (out.new.items ≡ out.old.items ++ indented indent.now) }
{
    push(out, "    ")?;
    out.extend_from_slice(indent)
}

/// Writes what stands before the words of a line inside a body, and its first words.
#[inline(always)]
#[tactic(auto, using(crate::proofs::Sets::joins))]
fn push_front(out: &mut Vec<u8>, indent: &[u8], front: &mut Segment) -> Result<(), AllocError>
    requires { 4 + length front.old ≤ 248 }
    ensures { OnOk result
        (out.new.items ≡ out.old.items ++ (indented indent.now ++ front.old)) }
{
    if indent.is_empty() {
        front.put("    ");
        return front.push_to(out);
    }
    push_indent(out, indent)?;
    front.push_to(out)
}

/// Puts the words of an attribute in front of what its line says of its value.
#[inline(always)]
#[tactic(auto, using(crate::proofs::Sets::joins))]
fn put_front(line: &mut Segment, number: u16, name: &str, flags: AttrFlags)
    requires short { length name.now ≤ 16 }
    requires room { 54 + length line.old ≤ 248 }
    ensures text { line.new ≡ attr_front number name.now flags ++ line.old }
    ensures len { length line.new ≤ 54 + length line.old }
{
    line.put(" ");
    put_flags(line, flags);
    line.put(" ");
    line.put(name);
    line.put(" ");
    line.put_field("attr ", number as u64);
}

/// Puts what an attribute's line says of its value in front, or answers what is read, where that is
/// too long.
#[inline(always)]
#[tactic(auto, unfolding(crate::specs::Trees::inline_text), using(crate::proofs::Sets::inline))]
fn put_inline<'a>(
    line: &mut Segment,
    order: Order,
    style: Style,
    net: bool,
    value: &'a Value,
) -> Option<Reading<'a>>
    requires { 140 + length line.old ≤ 248 }
    ensures text { MatchOption result
        (line.new ≡ inline_text order style net (value_view value.now) ++ line.old)
        (λ reading. (line.new ≡ line.old) × (inline_text order style net (value_view value.now)
        ≡ value_text (reading_view reading))) }
    ensures len { length line.new ≤ 140 + length line.old }
{
    match value {
        Value::Bytes(payload) => {
            let reading = read_payload(order, style, net, payload.as_slice());
            if !is_short(reading) {
                return Some(reading);
            }
            put_value(line, reading);
            None
        }
        Value::List(attrs) => {
            line.put_field("list ", attrs.len() as u64);
            None
        }
        Value::Hops(hops) => {
            line.put_field("hops ", hops.len() as u64);
            None
        }
    }
}

/// Writes an attribute's own line, of whose value a long one is read.
#[inline(never)]
#[tactic(auto, using(crate::proofs::Sets::joins))]
fn push_long_line(
    out: &mut Vec<u8>,
    indent: &[u8],
    number: u16,
    name: &str,
    flags: AttrFlags,
    reading: Reading<'_>,
) -> Result<(), AllocError>
    requires { length name.now ≤ 16 }
    ensures { OnOk result (out.new.items ≡ out.old.items
        ++ (indented indent.now ++ (attr_front number name.now flags
        ++ (value_text (reading_view reading.entry) ++ codes "\n")))) }
{
    let mut front = Segment::new();
    put_front(&mut front, number, name, flags);
    push_front(out, indent, &mut front)?;
    push_value(out, reading)?;
    push(out, "\n")
}

/// Writes an attribute's own line.
#[inline(never)]
#[tactic(auto, unfolding(crate::specs::Trees::attr_line), using(crate::proofs::Sets::joins))]
fn push_attr_line(
    out: &mut Vec<u8>,
    order: Order,
    indent: &[u8],
    ctx: Ctx,
    attr: &Attr,
) -> Result<(), AllocError>
    ensures { OnOk result (out.new.items ≡ out.old.items
        ++ attr_line order
        (indented indent.now) ctx attr.now.number attr.now.flags (value_view attr.now.value)) }
{
    let (name, style) = attribute(ctx, attr.number);
    let mut line = Segment::new();
    line.put("\n");
    match put_inline(&mut line, order, style, attr.flags.net, &attr.value) {
        None => {
            put_front(&mut line, attr.number, name, attr.flags);
            push_front(out, indent, &mut line)
        }
        Some(reading) => push_long_line(out, indent, attr.number, name, attr.flags, reading),
    }
}

/// Writes a next hop's own line.
#[tactic(auto, unfolding(crate::specs::Trees::hop_line), using(crate::proofs::Sets::joins))]
fn push_hop_line(
    out: &mut Vec<u8>,
    indent: &[u8],
    flags: u8,
    hops: u8,
    index: i32,
) -> Result<(), AllocError>
    ensures { OnOk result
        (out.new.items ≡ out.old.items ++ hop_line (indented indent.now) flags hops index) }
{
    let mut front = Segment::new();
    front.put(" ");
    front.put_hex2(flags);
    front.put("hop flags 0x");
    push_indent(out, indent)?;
    front.push_to(out)?;
    push_names(out, Bits::NextHop, flags as u32)?;
    let mut end = Segment::new();
    end.put("\n");
    end.put_signed(index.into());
    end.put(" index ");
    end.put_field(" hops ", hops as u64);
    end.push_to(out)
}

/// Writes an attribute, and what it holds.
#[cycle(printing)]
fn push_attr(
    out: &mut Vec<u8>,
    indent: &mut Vec<u8>,
    order: Order,
    ctx: Ctx,
    attr: &Attr,
) -> Result<(), AllocError>
    ensures text { OnOk result ((more : Items) →
        out.new.items ++ items_text order (indented indent.old.items) ctx more
        ≡ out.old.items
        ++ items_text order (indented indent.old.items) ctx (attr_view attr.now more)) }
    ensures same { OnOk result (indent.new.items ≡ indent.old.items) }
{
    push_attr_line(out, order, indent.as_slice(), ctx, attr)?;
    let inner = inner(ctx, attr.number, attr.flags);
    push_held(out, indent, order, inner, &attr.value)
}

/// Writes what an attribute holds, in the context of the attributes inside.
#[cycle(printing)]
fn push_held(
    out: &mut Vec<u8>,
    indent: &mut Vec<u8>,
    order: Order,
    ctx: Ctx,
    value: &Value,
) -> Result<(), AllocError>
    ensures text { OnOk result (out.new.items ≡ out.old.items
        ++ held_text order (deeper (indented indent.old.items)) ctx (value_view value.now)) }
    ensures same { OnOk result (indent.new.items ≡ indent.old.items) }
{
    match value {
        Value::Bytes(_) => Ok(()),
        Value::List(attrs) => {
            let depth = indent.len();
            push(indent, "  ")?;
            push_attrs(out, indent, order, ctx, attrs)?;
            indent.truncate(depth);
            Ok(())
        }
        Value::Hops(hops) => {
            let depth = indent.len();
            push(indent, "  ")?;
            push_hops(out, indent, order, hops)?;
            indent.truncate(depth);
            Ok(())
        }
    }
}

/// Writes attributes in a context, each followed by what it holds, a line each, indented as the
/// attributes of a body and by `indent` besides. That is as it was where all are written.
#[cycle(printing)]
pub(crate) fn push_attrs(
    out: &mut Vec<u8>,
    indent: &mut Vec<u8>,
    order: Order,
    ctx: Ctx,
    attrs: &[Attr],
) -> Result<(), AllocError>
    ensures text { OnOk result (out.new.items ≡ out.old.items
        ++ items_text order (indented indent.old.items) ctx (attrs_view attrs.now)) }
    ensures same { OnOk result (indent.new.items ≡ indent.old.items) }
{
    for attr in attrs {
        push_attr(out, indent, order, ctx, attr)?;
    }
    Ok(())
}

/// Writes a next hop, and its attributes.
#[cycle(printing)]
fn push_hop(
    out: &mut Vec<u8>,
    indent: &mut Vec<u8>,
    order: Order,
    hop: &Hop,
) -> Result<(), AllocError>
    ensures text { OnOk result ((more : HopItems) →
        out.new.items ++ hops_text order (indented indent.old.items) more
        ≡ out.old.items ++ hops_text order (indented indent.old.items) (hop_view hop.now more)) }
    ensures same { OnOk result (indent.new.items ≡ indent.old.items) }
{
    push_hop_line(out, indent.as_slice(), hop.flags, hop.hops, hop.ifindex)?;
    let depth = indent.len();
    push(indent, "  ")?;
    push_attrs(out, indent, order, Ctx::Route, &hop.attrs)?;
    indent.truncate(depth);
    Ok(())
}

#[cycle(printing)]
fn push_hops(
    out: &mut Vec<u8>,
    indent: &mut Vec<u8>,
    order: Order,
    hops: &[Hop],
) -> Result<(), AllocError>
    ensures text { OnOk result (out.new.items ≡ out.old.items
        ++ hops_text order (indented indent.old.items) (hops_view hops.now)) }
    ensures same { OnOk result (indent.new.items ≡ indent.old.items) }
{
    for hop in hops {
        push_hop(out, indent, order, hop)?;
    }
    Ok(())
}
