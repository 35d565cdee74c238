//! Lists and datagrams, written: what was read again, and what steps build.
//!
//! A step 0 reads bytes. Each other puts something behind what there is, or around it: a step 1 an
//! attribute of bytes, 2 one that holds the last attribute, 3 a next hop that has it, and 4 an
//! attribute that holds all those next hops. Of the last message of a datagram a step 5 sets the
//! type, and 6 the bytes that are not told apart further.

use crate::messages::put_body;
use crate::row::Row;
use crate::views::Fields;
use nl_attr::{
    Attr, Ctx, Depth, Hop, Order, Payload, Value, list_len, read_list_ordered, write_list,
    write_list_ordered,
};
use nl_frame::{Body, Limits, Message, read_datagram, write_datagram};
use nl_route::match_object;
use std::mem;

pub(crate) fn answer(row: &mut Row<'_>) {
    match row.number() {
        0 => write_attrs(row),
        1 => write_messages(row),
        2 => view_messages(row),
        _ => row.fail(),
    }
}

/// The last attribute, taken out.
fn last_of(row: &mut Row<'_>, attrs: &mut Vec<Attr>) -> Vec<Attr> {
    let mut last = Vec::new(row.alloc);
    match attrs.pop() {
        Some(attr) => {
            if last.push(attr).is_err() {
                row.run_out();
            }
        }
        None => row.fail(),
    }
    last
}

/// A copy of bytes that are asked.
fn bytes_of(row: &mut Row<'_>) -> Vec<u8> {
    let mut copy = Vec::new(row.alloc);
    if copy.extend_from_slice(row.bytes()).is_err() {
        row.run_out();
    }
    copy
}

/// Puts an attribute that holds this behind others.
fn push_attr(row: &mut Row<'_>, attrs: &mut Vec<Attr>, value: Value) {
    let attr = Attr {
        number: row.int::<u16>(),
        flags: row.flags(),
        value,
    };
    if attrs.push(attr).is_err() {
        row.run_out();
    }
}

/// Makes a step that builds.
fn build(row: &mut Row<'_>, step: u64, attrs: &mut Vec<Attr>, hops: &mut Vec<Hop>) {
    match step {
        1 => {
            let bytes = bytes_of(row);
            push_attr(row, attrs, Value::Bytes(Payload::from_vec(bytes)));
        }
        2 => {
            let last = last_of(row, attrs);
            push_attr(row, attrs, Value::List(last));
        }
        3 => {
            let hop = Hop {
                flags: row.int(),
                hops: row.int(),
                ifindex: row.int::<u32>().cast_signed(),
                attrs: last_of(row, attrs),
            };
            if hops.push(hop).is_err() {
                row.run_out();
            }
        }
        4 => {
            let all = mem::replace(hops, Vec::new(row.alloc));
            push_attr(row, attrs, Value::Hops(all));
        }
        _ => row.fail(),
    }
}

/// The attributes that are read of bytes.
fn attrs_in(row: &mut Row<'_>, ctx: Ctx) -> Vec<Attr> {
    let (order, bytes, depth) = (row.order(), row.bytes(), Depth::standard());
    match read_list_ordered(row.alloc, bytes, 0, ctx, 0, depth, order).into_result() {
        Ok(attrs) => attrs,
        Err(error) => {
            row.stop(error.code());
            Vec::new(row.alloc)
        }
    }
}

/// The attributes that steps read or build.
fn attrs_of(row: &mut Row<'_>, ctx: Ctx) -> Vec<Attr> {
    let (mut attrs, mut hops) = (Vec::new(row.alloc), Vec::new(row.alloc));
    for _ in 0..row.number() {
        match row.number() {
            0 => attrs = attrs_in(row, ctx),
            step => build(row, step, &mut attrs, &mut hops),
        }
    }
    attrs
}

/// What writing a list behind the byte ee leaves, by the call for the order, or by its twin.
fn put_list(row: &mut Row<'_>, attrs: &[Attr], ctx: Ctx, depth: Depth, order: Option<Order>) {
    let Ok(mut out) = Vec::from_slice(row.alloc, &[0xee]) else {
        return row.run_out();
    };
    let answer = match order {
        Some(order) => write_list_ordered(attrs, ctx, depth, &mut out, order),
        None => write_list(attrs, ctx, depth, &mut out),
    };
    match answer {
        Ok(()) => row.put(0),
        Err(error) => row.refuse(error.code(), error),
    }
    row.put_bytes(out.as_slice());
}

/// The length of a list, and what writing it leaves by each call.
fn write_attrs(row: &mut Row<'_>) {
    let (ctx, depth) = (row.context(), row.depth());
    let attrs = attrs_of(row, ctx);
    let attrs = attrs.as_slice();
    row.put_maybe(list_len(attrs, ctx).map(u64::from));
    put_list(row, attrs, ctx, depth, None);
    put_list(row, attrs, ctx, depth, Some(Order::Little));
    put_list(row, attrs, ctx, depth, Some(Order::Big));
}

/// Sets the bytes of a body that are not told apart further.
fn set_tail(row: &mut Row<'_>, body: &mut Body) {
    let bytes = bytes_of(row);
    match body {
        Body::Noop(tail) | Body::Overrun(tail) | Body::Other(tail) => *tail = bytes,
        Body::Error { tail, .. } | Body::Done { tail, .. } | Body::Get { tail, .. } => {
            *tail = bytes
        }
        _ => row.fail(),
    }
}

/// Changes a message as a step says.
fn change(row: &mut Row<'_>, step: u64, message: &mut Message, hops: &mut Vec<Hop>) {
    match step {
        5 => message.kind = row.int::<u16>(),
        6 => set_tail(row, &mut message.body),
        _ => match_object!(&mut message.body, Body, object => {
            build(row, step, &mut object.attrs, hops)
        }, {
            _ => row.fail(),
        }),
    }
}

/// The messages that are read of bytes, within the greatest limits.
fn messages_in(row: &mut Row<'_>) -> Vec<Message> {
    let (limits, bytes) = (row.limits(), row.bytes());
    match read_datagram(row.alloc, bytes, &limits).into_result() {
        Ok(messages) => messages,
        Err(error) => {
            row.stop(error.code());
            Vec::new(row.alloc)
        }
    }
}

/// The messages that steps read and change.
fn messages_of(row: &mut Row<'_>) -> Vec<Message> {
    let (mut messages, mut hops) = (Vec::new(row.alloc), Vec::new(row.alloc));
    for _ in 0..row.number() {
        match row.number() {
            0 => messages = messages_in(row),
            step => match messages.last_mut() {
                Some(message) => change(row, step, message, &mut hops),
                None => row.fail(),
            },
        }
    }
    messages
}

/// The bytes that messages are written as, or why they are not.
fn write_messages(row: &mut Row<'_>) {
    let limits = row.limits();
    let messages = messages_of(row);
    match write_datagram(row.alloc, messages.as_slice(), &limits) {
        Ok(bytes) => {
            row.put(0);
            row.put_bytes(bytes.as_slice());
        }
        Err(error) => row.refuse(error.code(), error),
    }
}

/// What the views of each message's body find.
fn view_messages(row: &mut Row<'_>) {
    let messages = messages_of(row);
    for message in messages.as_slice() {
        put_body(row, &message.body);
        match_object!(&message.body, Body, object => Fields::views(object, row), { _ => {} });
    }
}
