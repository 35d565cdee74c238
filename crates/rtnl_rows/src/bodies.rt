//! Bodies of the families: heads, bodies read and written, and the keys that they have.

use crate::row::{Row, by_family};
use crate::views::{Fields, put_object};
use nl_attr::{Order, Tally};
use nl_route::{AddrHead, Family, LinkHead, NeighHead, Object, RouteHead, RuleHead};
use nl_table::Entry;

pub(crate) fn answer(row: &mut Row<'_>) {
    by_family!(row, answer_of)
}

fn answer_of<H: Fields>(row: &mut Row<'_>)
where
    Object<H>: Entry,
{
    match row.number() {
        0 => read::<H>(row),
        1 => write::<H>(row),
        2 => tell_key::<H>(row),
        3 => H::tell(row),
        4 => read_front::<H>(row),
        _ => row.fail(),
    }
}

/// The body that is asked, by the call for this order, or by its twin. The visits are answered, and
/// why it was not read, or 0. Where that isn't tried memory must not run out.
fn read_asked<H: Fields>(
    row: &mut Row<'_>,
    order: Option<Order>,
    is_tried: bool,
) -> Option<Object<H>> {
    let (base, depth, bytes) = (row.base(), row.depth(), row.bytes());
    if bytes.len() < H::SIZE {
        row.fail();
        return None;
    }
    let Tally { result, visits } = match order {
        Some(order) => Object::read_body_ordered(row.alloc, bytes, base, depth, order),
        None => Object::read_body(row.alloc, bytes, base, depth),
    };
    match result {
        Ok(object) => {
            row.put_all(&[visits, 0]);
            Some(object)
        }
        Err(error) => {
            if !is_tried {
                row.stop(error.code());
            }
            row.put(visits);
            row.refuse(error.code(), error);
            None
        }
    }
}

/// The body with what its views find.
fn read<H: Fields>(row: &mut Row<'_>) {
    let order = row.twin();
    if let Some(body) = read_asked::<H>(row, order, true) {
        put_object(row, &body);
        H::views(&body, row);
    }
}

/// How long the body that is read so is, and what writing it so leaves behind the byte ee.
fn write<H: Fields>(row: &mut Row<'_>) {
    let (order, depth) = (row.twin(), row.depth());
    let Some(body) = read_asked::<H>(row, order, false) else {
        return;
    };
    let Ok(mut out) = Vec::from_slice(row.alloc, &[0xee]) else {
        return row.run_out();
    };
    let answer = match order {
        Some(order) => body.write_body_ordered(depth, &mut out, order),
        None => body.write_body(depth, &mut out),
    };
    row.put_maybe(body.body_len().map(u64::from));
    match answer {
        Ok(()) => row.put(0),
        Err(error) => row.refuse(error.code(), error),
    }
    row.put_bytes(out.as_slice());
}

/// The key of the body that is read so, by the call for the order, or by its twin.
fn tell_key<H: Fields>(row: &mut Row<'_>)
where
    Object<H>: Entry,
{
    let order = row.twin();
    let Some(body) = read_asked::<H>(row, order, false) else {
        return;
    };
    let key = match order {
        Some(order) => body.key_ordered(row.alloc, order),
        None => body.key(row.alloc),
    };
    match key {
        Ok(key) => row.put_bytes(key.as_slice()),
        Err(_) => row.put_none(),
    }
}

/// The context of the attributes, and the head at the front of bytes.
fn read_front<H: Fields>(row: &mut Row<'_>) {
    let (order, bytes) = (row.order(), row.bytes());
    if bytes.len() < H::SIZE {
        return row.fail();
    }
    row.put_all(&[H::context() as u64, H::family() as u64]);
    H::read_front(bytes, order).put(row);
}
