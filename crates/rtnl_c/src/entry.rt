//! Writes an entry of a table as a message of its family's NEW type.

ghost use Rattle.std.specs.Prelude.{◌≡◌, ◌≤◌, ◌+◌, ◌++◌, IfOk, OnErr, length, vec_len};
ghost use Rattle.std.specs.Prelude.{vec_capacity, slice_get, option_map};
ghost use Rattle.nl_attr.specs.Written.{items_len};
ghost use Rattle.nl_route.specs.Views.{attrs_in};
ghost use Rattle.rtnl_c.specs.Entries.{PutsMessage, message_bytes};

use crate::codes::END;
use crate::put::Put;
use nl_attr::{Depth, Extent, Order, align4, append_bytes};
use nl_frame::{Header, WriteError};
use nl_route::{Head, Object, Verb};
use nl_table::{Entry, Table};
use std::alloc::Global;

/// The greatest depth limit. What was read within any limit isn't too deep for this one.
fn deepest() -> Depth {
    match Depth::new(32) {
        Ok(depth) => depth,
        Err(_) => Depth::standard(),
    }
}

/// The message of an entry, in this byte order.
pub(crate) fn message<H: Head>(
    alloc: Global,
    entry: &Object<H>,
    order: Order,
) -> Result<Vec<u8>, WriteError>
    ensures { IfOk result (λ v. v.items ≡ message_bytes order H.family
        (H.SIZE + items_len (attrs_in entry.now)) (H.fields entry.now.head) (attrs_in entry.now)) }
{
    let body = Extent::length(entry.measure(deepest()))?;
    let header = Header {
        len: (16 + body) as u32,
        kind: H::family().type_of(Verb::New),
        flags: 0,
        seq: 0,
        port: 0,
    };
    let end = align4(header.len) as usize;
    let mut out = Vec::with_capacity(alloc, end)?;
    append_bytes(&mut out, &header.bytes(order));
    entry.append_body(order, &mut out);
    let _done = out.resize(end, 0);
    Ok(out)
}

/// Puts the message of the entry at an index of a table into a buffer.
pub(crate) fn put_message<H: Head>(
    alloc: Global,
    table: &Table<Object<H>>,
    index: u32,
    out: &mut [u8],
) -> Put
where
    Object<H>: Entry,
    ensures { PutsMessage (option_map (λ e. message_bytes table.now.order H.family
        (H.SIZE + items_len (attrs_in e.1)) (H.fields e.1.head) (attrs_in e.1))
        (slice_get table.now.entries index)) out.old out.new result }
{
    let Some(entry) = table.get(index) else {
        return Put::none(END);
    };
    match message(alloc, entry, table.order()) {
        Ok(bytes) => Put::all(bytes.as_slice(), out),
        Err(error) => Put::none(error.code()),
    }
}
