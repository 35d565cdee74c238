//! Scans and tapes of datagrams and lists, and the head that breaks a rule, at which they end where
//! reading does.

use crate::row::{Row, put_fields};
use nl_attr::{BrokenHead, Event, Tally, read_list_ordered, scan_list_ordered, tape_list};
use nl_frame::{Counted, ScanError, read_datagram, scan_datagram, tape_datagram};

pub(crate) fn answer(row: &mut Row<'_>) {
    match row.number() {
        0 => scan(row),
        1 => scan_list(row),
        2 => tape(row),
        _ => row.fail(),
    }
}

/// Answers the head that breaks a rule.
fn put_broken(row: &mut Row<'_>, head: BrokenHead) {
    row.show(head.fault);
    row.put(head.kind as u64);
    row.put_maybe(head.number.map(u64::from));
    row.put_maybe(head.len.map(u64::from));
    row.put_all(&[head.left as u64, head.level as u64]);
}

/// Answers 0, or why a scan refuses its input and the head that breaks a rule.
fn put_scanned(row: &mut Row<'_>, scanned: Result<(), ScanError>) {
    match scanned {
        Ok(()) => row.put(0),
        Err(error) => {
            row.refuse(error.code(), error);
            match error {
                ScanError::Layout(head) => put_broken(row, head),
                ScanError::TooLarge => row.put_none(),
            }
        }
    }
}

/// What reading, a scan and a tape without room answer to a datagram: the visits, and why they
/// refuse it; of the tape also how many heads it has counted.
fn scan(row: &mut Row<'_>) {
    let (limits, bytes) = (row.limits(), row.bytes());
    let Tally { result, visits } = read_datagram(row.alloc, bytes, &limits);
    row.put(visits);
    match result {
        Ok(_) => row.put(0),
        Err(error) => row.refuse(error.code(), error),
    }
    let Tally { result, visits } = scan_datagram(bytes, &limits);
    row.put(visits);
    put_scanned(row, result);
    let Counted { scan, count } = tape_datagram(bytes, &limits, &mut []);
    let Tally { result, visits } = scan;
    row.put_all(&[visits, count as u64]);
    put_scanned(row, result);
}

/// Why reading, a scan and a tape without room refuse a list, the last with the head that it
/// answers.
fn scan_list(row: &mut Row<'_>) {
    let (order, ctx, base) = (row.order(), row.context(), row.base());
    let (level, depth, bytes) = (row.int::<u8>(), row.depth(), row.bytes());
    if level > depth.get() {
        return row.fail();
    }
    match read_list_ordered(row.alloc, bytes, base, ctx, level, depth, order).into_result() {
        Ok(_) => row.put(0),
        Err(error) => row.refuse(error.code(), error),
    }
    match scan_list_ordered(bytes, base, ctx, level, depth, order).into_result() {
        Ok(()) => row.put(0),
        Err(fault) => row.refuse(fault.code(), fault),
    }
    match tape_list(bytes, base, ctx, level, depth, order, &mut [], 0).broken {
        None => row.put_none(),
        Some(head) => put_broken(row, head),
    }
}

/// No head has an event like this.
pub(crate) const UNTOUCHED: Event = Event {
    place: 0xffff_ffff,
    len: 0xffff_ffff,
    number: 0xffff,
    level: 0xff,
    sort: 0xff,
    nested: true,
    net: true,
};

/// Room for so many events.
pub(crate) fn room_for(row: &mut Row<'_>, count: usize) -> Vec<Event> {
    match vec![in row.alloc; UNTOUCHED; count] {
        Ok(events) => events,
        Err(_) => {
            row.run_out();
            Vec::new(row.alloc)
        }
    }
}

/// Answers all of each event.
pub(crate) fn put_events(row: &mut Row<'_>, events: &[Event]) {
    for event in events {
        put_fields!(row, event, place sort number nested net len level);
    }
}

/// What a tape into a buffer with this room answers, and the buffer then.
fn tape(row: &mut Row<'_>) {
    let (room, limits, bytes) = (row.int::<u8>(), row.limits(), row.bytes());
    let mut events = room_for(row, room as usize);
    let Counted { scan, count } = tape_datagram(bytes, &limits, events.as_mut_slice());
    row.put(count as u64);
    put_scanned(row, scan.into_result());
    put_events(row, events.as_slice());
}
