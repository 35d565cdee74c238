//! Appending an attribute list to a vector that has room for it already.
//!
//! No function here fails or allocates: `measuring` has computed the length, and has checked that
//! the list can be written.

ghost use Rattle.std.specs.Prelude.{◌≡◌, ◌≤◌, ◌<◌, ◌+◌, ◌-◌, ◌++◌, ◌∷◌, length};
ghost use Rattle.std.specs.Prelude.{take, drop, vec_len, vec_capacity, FitsSigned};
ghost use Rattle.std.specs.Int.{w32, cast_unsigned};
ghost use Rattle.nl_attr.specs.Fixed as fixed;
ghost use Rattle.nl_attr.specs.declared.tree.Hop.{out-Hop};
ghost use Rattle.nl_attr.specs.Numbers.{aligned, num};
ghost use Rattle.nl_attr.specs.Layout.{kind_number};
ghost use Rattle.nl_attr.specs.View.{attrs_view, hops_view, value_view};
ghost use Rattle.nl_attr.specs.Written.{with_padding, attr_item, hop_item, written, written_val};
ghost use Rattle.nl_attr.specs.Written.{written_hops, val_len, items_len, hops_len};
ghost use Rattle.nl_attr.specs.Proper.{IsSized, IsSizedVal, IsSizedHops};
ghost use Rattle.nl_attr.specs.Proper.{IsRanged, IsRangedVal, IsRangedHops};

use crate::order::Order;
use crate::tree::{Attr, AttrFlags, Hop, NLA_F_NESTED, NLA_F_NET_BYTEORDER, Value};
use crate::walk::align4;

/// Appends bytes to a vector that has room for them. It takes no memory.
pub fn append_bytes(out: &mut Vec<u8>, bytes: &[u8])
    requires { vec_len out.old + length bytes.now ≤ vec_capacity out.old }
    ensures items { out.new.items ≡ out.old.items ++ bytes.now }
    ensures len { vec_len out.new ≡ vec_len out.old + length bytes.now }
    ensures room { vec_capacity out.old ≤ vec_capacity out.new }
{
    let _done = out.extend_from_slice(bytes);
}

/// The type field of an attribute, `rta_type`: its type with its two flag bits.
pub(crate) fn kind_field(number: u16, flags: AttrFlags) -> u16
    requires { number < fixed.NUMBERS }
    ensures { result ≡ kind_number number flags }
{
    let net = if flags.net { NLA_F_NET_BYTEORDER } else { 0 };
    let nested = if flags.nested { NLA_F_NESTED } else { 0 };
    number + net + nested
}

/// Appends the header of an attribute, with 0 for its length. `close_item` sets the length.
fn put_attr_head(out: &mut Vec<u8>, order: Order, number: u16, flags: AttrFlags)
    requires number { number < fixed.NUMBERS }
    requires space { vec_len out.old + 4 ≤ vec_capacity out.old }
    ensures items { out.new.items
        ≡ out.old.items ++ (0 ∷ 0 ∷ num (kind_number number flags) 2 order) }
    ensures len { vec_len out.new ≡ vec_len out.old + 4 }
    ensures room { vec_capacity out.old ≤ vec_capacity out.new }
{
    let kind = order.u16_bytes(kind_field(number, flags));
    append_bytes(out, &[0, 0]);
    append_bytes(out, &kind);
}

/// Appends the header of a next hop, with 0 for its length. `close_item` sets the length.
fn put_hop_head(out: &mut Vec<u8>, order: Order, flags: u8, hops: u8, ifindex: &i32)
    requires { vec_len out.old + 8 ≤ vec_capacity out.old }
    ensures items { out.new.items
        ≡ out.old.items ++ (0 ∷ 0 ∷ flags ∷ hops ∷ num (cast_unsigned w32 ifindex.now) 4 order) }
    ensures len { vec_len out.new ≡ vec_len out.old + 8 }
    ensures room { vec_capacity out.old ≤ vec_capacity out.new }
    ensures ranged { FitsSigned w32 ifindex.now }
{
    let index = order.i32_bytes(*ifindex);
    append_bytes(out, &[0, 0, flags, hops]);
    append_bytes(out, &index);
}

/// Ends the attribute or next hop that begins at `start`: writes its length into its first two
/// bytes, and pads it with zeros to a multiple of 4.
#[tactic(auto, using(crate::proofs::Lemmas::Lengths::closing))]
fn close_item(out: &mut Vec<u8>, order: Order, start: usize)
    requires begun { start + 2 ≤ vec_len out.old }
    requires short { vec_len out.old - start ≤ fixed.LONGEST_ITEM }
    requires space { start + aligned (vec_len out.old - start) ≤ vec_capacity out.old }
    ensures items { out.new.items ≡ take start out.old.items
        ++ with_padding (num (vec_len out.old - start) 2 order ++ drop (start + 2) out.old.items) }
    ensures room { vec_capacity out.old ≤ vec_capacity out.new }
{
    let len = out.len() - start;
    let field = order.u16_bytes(len as u16);
    out[start] = field[0];
    out[start + 1] = field[1];
    let _done = out.resize(start + align4(len as u32) as usize, 0);
}

/// Appends the value of an attribute: its bytes, its attributes or its next hops.
#[cycle(appending)]
fn append_value(value: &Value, order: Order, out: &mut Vec<u8>)
    requires sized { IsSizedVal (value_view value.now) }
    requires space { vec_len out.old + val_len (value_view value.now) ≤ vec_capacity out.old }
    ensures items { out.new.items ≡ out.old.items ++ written_val order (value_view value.now) }
    ensures room { vec_capacity out.old ≤ vec_capacity out.new }
    ensures ranged { IsRangedVal (value_view value.now) }
{
    match value {
        Value::Bytes(payload) => append_bytes(out, payload.as_slice()),
        Value::List(attrs) => append_list(attrs, order, out),
        Value::Hops(hops) => append_hops(hops, order, out),
    }
}

/// Appends an attribute: its header, its value and its padding.
#[cycle(appending)]
fn append_attr(attr: &Attr, order: Order, out: &mut Vec<u8>)
    requires number { attr.now.number < fixed.NUMBERS }
    requires short { 4 + val_len (value_view attr.now.value) ≤ fixed.LONGEST_ITEM }
    requires sized { IsSizedVal (value_view attr.now.value) }
    requires space { vec_len out.old + aligned (4 + val_len (value_view attr.now.value))
        ≤ vec_capacity out.old }
    ensures items { out.new.items ≡ out.old.items ++ with_padding (attr_item order
        attr.now.number attr.now.flags (written_val order (value_view attr.now.value))) }
    ensures room { vec_capacity out.old ≤ vec_capacity out.new }
    ensures ranged { IsRangedVal (value_view attr.now.value) }
{
    let start = out.len();
    put_attr_head(out, order, attr.number, attr.flags);
    append_value(&attr.value, order, out);
    close_item(out, order, start);
}

/// Appends an attribute list in this byte order, each attribute with its padding. It takes no
/// memory: `measure` has accepted the list, and `out` has room for its length.
///
/// The length of a nested attribute is written once its last byte is, so nothing is measured
/// again.
#[cycle(appending)]
pub fn append_list(attrs: &[Attr], order: Order, out: &mut Vec<u8>)
    requires sized { IsSized (attrs_view attrs.now) }
    requires space { vec_len out.old + items_len (attrs_view attrs.now) ≤ vec_capacity out.old }
    ensures items { out.new.items ≡ out.old.items ++ written order (attrs_view attrs.now) }
    ensures len { vec_len out.new ≡ vec_len out.old + items_len (attrs_view attrs.now) }
    ensures room { vec_capacity out.old ≤ vec_capacity out.new }
    // Each number of a list in memory is in the range of its Rust type.
    ensures ranged { IsRanged (attrs_view attrs.now) }
{
    for attr in attrs {
        append_attr(attr, order, out);
    }
}

/// Appends a next hop: its header, its attributes and its padding.
#[cycle(appending)]
fn append_hop(hop: &Hop, order: Order, out: &mut Vec<u8>)
    requires short { 8 + items_len (attrs_view (out-Hop hop.now).attrs.items) ≤ fixed.LONGEST_ITEM }
    requires sized { IsSized (attrs_view (out-Hop hop.now).attrs.items) }
    requires space { vec_len out.old + aligned
        (8 + items_len (attrs_view (out-Hop hop.now).attrs.items)) ≤ vec_capacity out.old }
    ensures items { out.new.items ≡ out.old.items
        ++ with_padding (hop_item order (out-Hop hop.now).flags (out-Hop hop.now).hops
        (out-Hop hop.now).ifindex (written order (attrs_view (out-Hop hop.now).attrs.items))) }
    ensures room { vec_capacity out.old ≤ vec_capacity out.new }
    ensures ranged { FitsSigned w32 (out-Hop hop.now).ifindex
        × IsRanged (attrs_view (out-Hop hop.now).attrs.items) }
{
    let start = out.len();
    put_hop_head(out, order, hop.flags, hop.hops, &hop.ifindex);
    append_list(&hop.attrs, order, out);
    close_item(out, order, start);
}

/// Appends next hops, one behind another.
#[cycle(appending)]
fn append_hops(hops: &[Hop], order: Order, out: &mut Vec<u8>)
    requires sized { IsSizedHops (hops_view hops.now) }
    requires space { vec_len out.old + hops_len (hops_view hops.now) ≤ vec_capacity out.old }
    ensures items { out.new.items ≡ out.old.items ++ written_hops order (hops_view hops.now) }
    ensures room { vec_capacity out.old ≤ vec_capacity out.new }
    ensures ranged { IsRangedHops (hops_view hops.now) }
{
    for hop in hops {
        append_hop(hop, order, out);
    }
}
