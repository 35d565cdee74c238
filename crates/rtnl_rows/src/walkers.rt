//! Walks over the parts of a region, and cursors into one.

use crate::messages::put_header;
use crate::plain::put_form;
use crate::row::{Row, put_fields, unsigned};
use nl_attr::{Attrs, Fault, HopPart, HopParts, LONGEST_REGION, Part, align4, attr_at, hop_at};
use nl_frame::message_at;

pub(crate) fn answer(row: &mut Row<'_>) {
    match row.number() {
        0 => align(row),
        1 => walk_attrs(row),
        2 => walk_hops(row),
        3 => compare_parts(row),
        4 => compare_hops(row),
        5 => find_attr(row),
        6 => find_hop(row),
        7 => find_message(row),
        _ => row.fail(),
    }
}

/// The greatest number that is aligned.
const GREATEST: u32 = 4_294_967_292;

fn align(row: &mut Row<'_>) {
    let number: u32 = row.int();
    if number > GREATEST {
        return row.fail();
    }
    row.put(align4(number) as u64);
}

fn put_part(row: &mut Row<'_>, given: Result<Part<'_>, Fault>) {
    match given {
        Ok(part) => {
            row.put_all(&[0, part.number as u64]);
            put_fields!(row, part.flags, nested net);
            put_fields!(row, part, place span);
            row.put_bytes(part.payload);
        }
        Err(fault) => row.refuse(fault.code(), fault),
    }
}

fn put_hop(row: &mut Row<'_>, given: Result<HopPart<'_>, Fault>) {
    match given {
        Ok(hop) => {
            row.put_all(&[0, hop.flags as u64, hop.hops as u64, unsigned(hop.ifindex)]);
            put_fields!(row, hop, place span);
            row.put_bytes(hop.rest);
        }
        Err(fault) => row.refuse(fault.code(), fault),
    }
}

/// All that a walk gives, whether it gives nothing from then on, and how much it has seen.
fn walk_attrs(row: &mut Row<'_>) {
    let (order, bytes) = (row.twin(), row.bytes());
    let mut walk = match order {
        Some(order) => Attrs::of_ordered(bytes, order),
        None => Attrs::of(bytes),
    };
    for _ in 0..=LONGEST_REGION {
        match walk.next() {
            Some(given) => put_part(row, given),
            None => break,
        }
    }
    row.put_none();
    row.put(walk.next().is_none() as u64);
    row.put(walk.seen());
}

/// The same over next hops.
fn walk_hops(row: &mut Row<'_>) {
    let (order, bytes) = (row.twin(), row.bytes());
    let mut walk = match order {
        Some(order) => HopParts::of_ordered(bytes, order),
        None => HopParts::of(bytes),
    };
    for _ in 0..=LONGEST_REGION {
        match walk.next() {
            Some(given) => put_hop(row, given),
            None => break,
        }
    }
    row.put_none();
    row.put(walk.next().is_none() as u64);
    row.put(walk.seen());
}

/// Whether a part of one region, by its number from 0, is that of another.
fn compare_parts(row: &mut Row<'_>) {
    let (first, second) = (row.int::<usize>(), row.int::<usize>());
    let one = Attrs::of(row.bytes()).nth(first);
    let other = Attrs::of(row.bytes()).nth(second);
    match (one, other) {
        (Some(Ok(one)), Some(Ok(other))) => row.put((one == other) as u64),
        _ => row.fail(),
    }
}

/// The same of next hops.
fn compare_hops(row: &mut Row<'_>) {
    let (first, second) = (row.int::<usize>(), row.int::<usize>());
    let one = HopParts::of(row.bytes()).nth(first);
    let other = HopParts::of(row.bytes()).nth(second);
    match (one, other) {
        (Some(Ok(one)), Some(Ok(other))) => row.put((one == other) as u64),
        _ => row.fail(),
    }
}

fn find_attr(row: &mut Row<'_>) {
    let (place, order, bytes) = (row.int::<u32>(), row.order(), row.bytes());
    match attr_at(bytes, place, order) {
        None => row.put_none(),
        Some(given) => put_part(row, given),
    }
}

fn find_hop(row: &mut Row<'_>) {
    let (place, order, bytes) = (row.int::<u32>(), row.order(), row.bytes());
    match hop_at(bytes, place, order) {
        None => row.put_none(),
        Some(given) => put_hop(row, given),
    }
}

fn find_message(row: &mut Row<'_>) {
    let (place, order, bytes) = (row.int::<u32>(), row.order(), row.bytes());
    match message_at(bytes, place, order) {
        None => row.put_none(),
        Some(Err(fault)) => row.refuse(fault.code(), fault),
        Some(Ok(frame)) => {
            row.put(0);
            put_header(row, &frame.header);
            put_form(row, frame.form);
            row.put(frame.span as u64);
            row.put_bytes(frame.payload);
            row.put_bytes(frame.rest);
        }
    }
}
