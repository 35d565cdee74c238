//! The callers of `rtnl_uses`.

use crate::row::Row;
use crate::scans::room_for;
use nl_dump::{Dump, FeedError, Kind, Session, Stream};
use nl_frame::Limits;
use nl_route::Link;
use nl_table::Table;
use rtnl_uses::attributes::count_of;
use rtnl_uses::datagrams::{message_count, mtu_of};
use rtnl_uses::dumps::take_answer;
use rtnl_uses::families::read_named;
use rtnl_uses::links::links_of;
use rtnl_uses::recordings::show_text;
use rtnl_uses::streams::count_through;
use rtnl_uses::tables::keep;

pub(crate) fn answer(row: &mut Row<'_>) {
    match row.number() {
        0 => count_attributes(row),
        1 => count_messages(row),
        2 => tell_mtu(row),
        3 => tell_named(row),
        4 => show_recording(row),
        5 => tell_links(row),
        6 => keep_links(row),
        7 => answer_dump(row),
        8 => count_routes(row),
        _ => row.fail(),
    }
}

/// How many attributes of a number a region has.
fn count_attributes(row: &mut Row<'_>) {
    let (number, bytes) = (row.int::<u16>(), row.bytes());
    match count_of(bytes, number) {
        Ok(count) => row.put_all(&[0, count as u64]),
        Err(fault) => row.refuse(fault.code(), fault),
    }
}

fn count_messages(row: &mut Row<'_>) {
    let (limits, bytes) = (row.limits(), row.bytes());
    match message_count(row.alloc, bytes, &limits) {
        Ok(count) => row.put_all(&[0, count as u64]),
        Err(error) => row.refuse(error.code(), error),
    }
}

/// The link of a body.
fn link_in(row: &mut Row<'_>, limits: &Limits) -> Option<Link> {
    let bytes = row.bytes();
    if bytes.len() < 16 {
        row.fail();
        return None;
    }
    let tally = Link::read_body_ordered(row.alloc, bytes, 0, limits.depth(), limits.order());
    match tally.into_result() {
        Ok(link) => Some(link),
        Err(error) => {
            row.stop(error.code());
            None
        }
    }
}

/// What the caller answers of a link's body, and the plain view.
fn tell_mtu(row: &mut Row<'_>) {
    let limits = row.limits();
    if let Some(link) = link_in(row, &limits) {
        row.put_maybe(mtu_of(&link, &limits).map(u64::from));
        row.put_maybe(link.mtu().map(u64::from));
    }
}

/// The name and the MTU of a link's body.
fn tell_named(row: &mut Row<'_>) {
    let (depth, bytes) = (row.depth(), row.bytes());
    if bytes.len() < 16 {
        return row.fail();
    }
    match read_named(row.alloc, bytes, depth) {
        Ok(named) => {
            row.put(0);
            row.put_found(named.name.as_ref().map(|name| name.as_slice()));
            row.put_maybe(named.mtu.map(u64::from));
        }
        Err(error) => row.refuse(error.code(), error),
    }
}

fn show_recording(row: &mut Row<'_>) {
    let (limits, recording) = (row.limits(), row.text());
    match show_text(row.alloc, recording, &limits) {
        Ok((text, verdict)) => {
            row.put_all(&[0, verdict as u64]);
            row.put_bytes(text.as_slice());
        }
        Err(error) => row.refuse(error.code(), error),
    }
}

fn tell_links(row: &mut Row<'_>) {
    let (limits, recording) = (row.limits(), row.text());
    match links_of(row.alloc, recording, &limits) {
        Ok(links) => {
            row.put_all(&[0, links.len() as u64]);
            for (name, mtu) in links.as_slice() {
                row.put_bytes(name.as_slice());
                row.put_maybe(mtu.map(u64::from));
            }
        }
        Err(error) => row.refuse(1, error),
    }
}

/// What becomes of the links of bodies in a table of so many entries.
fn keep_links(row: &mut Row<'_>) {
    let Ok(mut table) = Table::new(row.alloc, row.int::<u32>()) else {
        return row.run_out();
    };
    for _ in 0..row.number() {
        let Some(link) = link_in(row, &Limits::standard()) else {
            return;
        };
        match keep(row.alloc, &mut table, link) {
            Ok(put) => row.put(put as u64),
            Err(_) => return row.run_out(),
        }
    }
}

fn put_taken(row: &mut Row<'_>, taken: Result<bool, FeedError>) {
    match taken {
        Ok(waits) => row.put_all(&[0, waits as u64]),
        Err(error) => row.refuse(error.code(), error),
    }
}

/// A datagram is taken before a dump of links to a port is begun, and then again. Answers whether
/// the dump still waits.
fn answer_dump(row: &mut Row<'_>) {
    let (port, bytes) = (row.int::<u32>(), row.bytes());
    let Ok(mut session) = Session::new(row.alloc, Limits::standard()) else {
        return row.run_out();
    };
    let before = take_answer(&mut session, bytes);
    put_taken(row, before);
    if session.begin(Kind::Link, 0, 1, port).is_err() {
        return row.fail();
    }
    let taken = take_answer(&mut session, bytes);
    put_taken(row, taken);
}

/// How many routes of each datagram leave by an interface, in one dump of routes with the sequence
/// number 1 and the port id 12345.
fn count_routes(row: &mut Row<'_>) {
    let (interface, room) = (row.int::<u32>(), row.int::<u8>());
    let mut stream = Stream::new(row.limits());
    let dump = Dump {
        kind: Kind::Route,
        family: 0,
        seq: 1,
        port: 12_345,
    };
    if stream.begin(dump).is_err() {
        return row.fail();
    }
    let mut events = room_for(row, room as usize);
    for _ in 0..row.number() {
        match count_through(&mut stream, row.bytes(), interface, events.as_mut_slice()) {
            Ok(count) => row.put_all(&[0, count as u64]),
            Err(error) => row.refuse(error.code(), error),
        }
    }
}
