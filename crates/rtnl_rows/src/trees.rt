//! Trees of attributes, and what is read of one attribute.

use crate::row::{Row, unsigned};
use nl_attr::{
    Attr, Content, Hop, Order, Payload, Tally, Value, find, holds, read_list, read_list_ordered,
};
use std::alloc::AllocFailed;

pub(crate) fn answer(row: &mut Row<'_>) {
    match row.number() {
        0 => read(row),
        1 => view(row),
        2 => tell_content(row),
        3 => keep(row),
        4 => compare_payloads(row),
        _ => row.fail(),
    }
}

/// Answers how many attributes there are, and all of each: its number, its flags, and what it
/// holds behind a number for that, bytes, attributes or next hops.
#[cycle(putting)]
pub(crate) fn put_attrs(row: &mut Row<'_>, attrs: &[Attr]) {
    row.put(attrs.len() as u64);
    for attr in attrs {
        let flags = attr.flags;
        row.put_all(&[attr.number as u64, flags.nested as u64, flags.net as u64]);
        match &attr.value {
            Value::Bytes(payload) => row.put_bytes(payload.as_slice()),
            Value::List(attrs) => {
                row.put(0);
                put_attrs(row, attrs.as_slice());
            }
            Value::Hops(hops) => {
                row.put(1);
                put_hops(row, hops.as_slice());
            }
        }
    }
}

/// The same of next hops.
#[cycle(putting)]
pub(crate) fn put_hops(row: &mut Row<'_>, hops: &[Hop]) {
    row.put(hops.len() as u64);
    for hop in hops {
        row.put_all(&[hop.flags as u64, hop.hops as u64, unsigned(hop.ifindex)]);
        put_attrs(row, hop.attrs.as_slice());
    }
}

/// The list that is asked, by the call for its order, or by its twin. The visits are answered, and
/// why it was not read, or 0.
fn read_asked(row: &mut Row<'_>) -> Option<Vec<Attr>> {
    let (order, ctx, base) = (row.twin(), row.context(), row.base());
    let (level, depth, bytes) = (row.int::<u8>(), row.depth(), row.bytes());
    if level > depth.get() {
        row.fail();
        return None;
    }
    let Tally { result, visits } = match order {
        Some(order) => read_list_ordered(row.alloc, bytes, base, ctx, level, depth, order),
        None => read_list(row.alloc, bytes, base, ctx, level, depth),
    };
    row.put(visits);
    match result {
        Ok(attrs) => {
            row.put(0);
            Some(attrs)
        }
        Err(error) => {
            row.refuse(error.code(), error);
            None
        }
    }
}

fn read(row: &mut Row<'_>) {
    if let Some(attrs) = read_asked(row) {
        put_attrs(row, attrs.as_slice());
    }
}

/// What is read of the first attribute of a number.
fn view(row: &mut Row<'_>) {
    let number = row.int::<u16>();
    if let Some(attrs) = read_asked(row) {
        match find(attrs.as_slice(), number) {
            Some(attr) => put_views(row, attr),
            None => row.put_none(),
        }
    }
}

fn put_views(row: &mut Row<'_>, attr: &Attr) {
    row.put(0);
    row.put_found(attr.bytes());
    row.put_found(attr.text());
    row.put_maybe(attr.u8_value().map(u64::from));
    row.put_maybe(attr.be16_value().map(u64::from));
    row.put_maybe(attr.u16_value().map(u64::from));
    row.put_maybe(attr.u32_value().map(u64::from));
    row.put_maybe(attr.u16_value_ordered(Order::Little).map(u64::from));
    row.put_maybe(attr.u32_value_ordered(Order::Little).map(u64::from));
    row.put_maybe(attr.u16_value_ordered(Order::Big).map(u64::from));
    row.put_maybe(attr.u32_value_ordered(Order::Big).map(u64::from));
}

fn tell_content(row: &mut Row<'_>) {
    let (ctx, number, flags) = (row.context(), row.int::<u16>(), row.flags());
    match holds(ctx, number, flags) {
        Content::Bytes => row.put(0),
        Content::List(inner) => row.put_all(&[1, inner as u64]),
        Content::Hops => row.put(2),
    }
}

/// Answers the bytes that were taken out of a payload, or where memory ran out those that it still
/// has.
fn put_taken(row: &mut Row<'_>, taken: Result<Vec<u8>, AllocFailed<Payload>>) {
    match taken {
        Ok(bytes) => {
            row.put(0);
            row.put_bytes(bytes.as_slice());
        }
        Err(AllocFailed { value }) => {
            row.put(1);
            row.put_bytes(value.as_slice());
        }
    }
}

/// The bytes kept as a payload, and taken out of it; and out of one that their buffer became.
fn keep(row: &mut Row<'_>) {
    let bytes = row.bytes();
    let Ok(whole) = Vec::from_slice(row.alloc, bytes) else {
        return row.run_out();
    };
    let Ok(payload) = Payload::from_slice(row.alloc, bytes) else {
        return row.put_none();
    };
    row.put_all(&[payload.len() as u64, payload.is_empty() as u64]);
    row.put_bytes(payload.as_slice());
    let taken = payload.into_vec(row.alloc);
    let again = Payload::from(whole).into_vec(row.alloc);
    put_taken(row, taken);
    put_taken(row, again);
}

/// Whether two are one payload, in both directions and by bytes.
fn compare_payloads(row: &mut Row<'_>) {
    let (first, second) = (row.bytes(), row.bytes());
    let one = Payload::from_slice(row.alloc, first);
    let other = Vec::from_slice(row.alloc, second);
    match (one, other) {
        (Ok(one), Ok(other)) => {
            let other = Payload::from(other);
            row.put_all(&[
                one.is(second) as u64,
                (one == other) as u64,
                (other == one) as u64,
            ]);
        }
        _ => row.run_out(),
    }
}
