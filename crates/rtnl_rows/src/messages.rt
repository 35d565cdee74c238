//! Messages, and what they hold.

use crate::row::{Row, put_fields, unsigned};
use crate::views::put_object;
use nl_attr::Tally;
use nl_frame::{Body, Header, Message, is_canonical, read_datagram};
use nl_route::match_object;

pub(crate) fn answer(row: &mut Row<'_>) {
    match row.number() {
        0 => read(row),
        1 => compare(row),
        2 => tell_canonical(row),
        _ => row.fail(),
    }
}

pub(crate) fn put_header(row: &mut Row<'_>, header: &Header) {
    put_fields!(row, header, len kind flags seq port);
}

/// Answers all of a body, behind its sort: a family's head and attributes, or what else it holds.
pub(crate) fn put_body(row: &mut Row<'_>, body: &Body) {
    match_object!(body, Body, object => put_object(row, object), {
        _ => put_plain(row, body),
    })
}

/// The same of a body of no family.
fn put_plain(row: &mut Row<'_>, body: &Body) {
    let tail = match body {
        Body::Noop(tail) => {
            row.put(5);
            tail
        }
        Body::Error {
            code,
            answered,
            tail,
        } => {
            row.put_all(&[6, unsigned(*code)]);
            put_header(row, answered);
            tail
        }
        Body::Done { status, tail } => {
            row.put(7);
            row.put_maybe(status.map(|status| unsigned(status)));
            tail
        }
        Body::Overrun(tail) => {
            row.put(8);
            tail
        }
        Body::Get { family, tail } => {
            row.put_all(&[9, *family as u64]);
            tail
        }
        Body::Other(tail) => {
            row.put(10);
            tail
        }
        _ => return row.fail(),
    };
    row.put_bytes(tail.as_slice());
}

/// Answers how many messages there are, and all of each.
pub(crate) fn put_messages(row: &mut Row<'_>, messages: &[Message]) {
    row.put(messages.len() as u64);
    for message in messages {
        put_fields!(row, message, kind flags seq port);
        put_body(row, &message.body);
    }
}

/// The visits, and the messages of a datagram or why they were not read.
fn read(row: &mut Row<'_>) {
    let (limits, bytes) = (row.limits(), row.bytes());
    let Tally { result, visits } = read_datagram(row.alloc, bytes, &limits);
    row.put(visits);
    match result {
        Ok(messages) => {
            row.put(0);
            put_messages(row, messages.as_slice());
        }
        Err(error) => row.refuse(error.code(), error),
    }
}

/// Whether two datagrams have the same messages.
fn compare(row: &mut Row<'_>) {
    let limits = row.limits();
    let one = read_datagram(row.alloc, row.bytes(), &limits).into_result();
    let other = read_datagram(row.alloc, row.bytes(), &limits).into_result();
    match (one, other) {
        (Ok(one), Ok(other)) => row.put((one == other) as u64),
        _ => row.fail(),
    }
}

/// Whether the bytes are what their messages are written as.
fn tell_canonical(row: &mut Row<'_>) {
    let (limits, bytes) = (row.limits(), row.bytes());
    match is_canonical(row.alloc, bytes, &limits) {
        Ok(canonical) => row.put_all(&[0, canonical as u64]),
        Err(error) => row.refuse(error.code(), error),
    }
}
