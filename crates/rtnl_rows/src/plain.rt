//! Numbers in bytes, limits, what message types and families say, and the numbers and texts of
//! refusals.

use crate::row::{Row, put_calls, put_fields, unsigned};
use nl_attr::{Depth, Fault, LimitFault, ListError, Order, Reason, WriteError};
use nl_dump::{BeginError, FeedError, NotWaiting};
use nl_frame::{Family, Form, Limits, ReadError};
use nl_route::{RouteType, Verb};
use rtnl::RunError;
use std::alloc::AllocError;
use std::collections::HashSet;

pub(crate) fn answer(row: &mut Row<'_>) {
    match row.number() {
        0 => tell_number(row),
        1 => tell_depth(row),
        2 => tell_limits(row),
        3 => {
            let kind = row.int::<u16>();
            put_type(row, kind);
        }
        4 => count_distinct(row),
        5 => tell_family(row),
        6 => tell_named(row),
        7 => tell_fault(row),
        8 => tell_refusals(row),
        9 => tell_failures(row),
        _ => row.fail(),
    }
}

/// The bytes of a number, and the number in those bytes and two more.
fn tell_number(row: &mut Row<'_>) {
    let (kind, order) = (row.number(), row.order());
    match kind {
        0 => {
            let [a, b] = order.u16_bytes(row.int());
            row.put_bytes(&[a, b]);
            row.put(order.read_u16(&[a, b, 0x02, 0x80]) as u64);
        }
        1 => {
            let [a, b, c, d] = order.u32_bytes(row.int());
            row.put_bytes(&[a, b, c, d]);
            row.put(order.read_u32(&[a, b, c, d, 0x02, 0x80]) as u64);
        }
        _ => {
            let [a, b, c, d] = order.i32_bytes(row.int::<u32>().cast_signed());
            row.put_bytes(&[a, b, c, d]);
            row.put(unsigned(order.read_i32(&[a, b, c, d, 0x02, 0x80])));
        }
    }
}

/// A depth of so many levels, the standard one, or the default.
fn tell_depth(row: &mut Row<'_>) {
    let depth = match row.number() {
        0 => Depth::new(row.int::<u8>()),
        1 => Ok(Depth::standard()),
        _ => Ok(Depth::default()),
    };
    match depth {
        Ok(depth) => row.put_all(&[0, depth.get() as u64]),
        Err(fault) => row.refuse(fault.code(), fault),
    }
}

/// Limits of these numbers, the standard ones, or the default, maybe in another order.
fn tell_limits(row: &mut Row<'_>) {
    let (sort, order) = (row.number(), row.twin());
    let limits = match sort {
        0 => {
            let (depth, datagram) = (row.int::<u8>(), row.int::<u32>());
            Limits::new(depth, datagram, row.number(), row.int::<u32>())
        }
        1 => Ok(Limits::standard()),
        _ => Ok(Limits::default()),
    };
    match (limits, order) {
        (Ok(limits), Some(order)) => put_limits(row, limits.with_order(order)),
        (Ok(limits), None) => put_limits(row, limits),
        (Err(fault), _) => row.refuse(fault.code(), fault),
    }
}

/// Answers 0 and all limits.
pub(crate) fn put_limits(row: &mut Row<'_>, limits: Limits) {
    row.put_all(&[0, limits.order() as u64, limits.depth().get() as u64]);
    put_calls!(row, limits, datagram total entries);
}

pub(crate) fn put_form(row: &mut Row<'_>, form: Form) {
    row.put(match form {
        Form::Object(family) => family as u64,
        Form::Noop => 5,
        Form::Error => 6,
        Form::Done => 7,
        Form::Overrun => 8,
        Form::Get => 9,
        Form::Other => 10,
    });
}

/// Answers the form of a type, the fewest bytes of its bodies, and what it asks of a family.
fn put_type(row: &mut Row<'_>, kind: u16) {
    let form = Form::of(kind);
    row.put(kind as u64);
    put_form(row, form);
    row.put(form.least() as u64);
    match RouteType::of(kind) {
        None => row.put_none(),
        Some(says) => row.put_all(&[says.verb as u64, says.family as u64]),
    }
}

/// How many things the types of these say, where each says its own twice.
fn count_distinct(row: &mut Row<'_>) {
    let (first, last) = (row.int::<u16>(), row.int::<u16>());
    let mut said = HashSet::new(row.alloc);
    for kind in (first..=last).chain(first..=last) {
        if let Some(says) = RouteType::of(kind) {
            if said.insert(says).is_err() {
                row.run_out();
            }
        }
    }
    row.put(said.len() as u64);
}

/// What holds of a family, and of its type for a verb.
fn tell_family(row: &mut Row<'_>) {
    let (family, verb) = (row.family(), row.int::<usize>());
    let verb = *[Verb::New, Verb::Del, Verb::Get, Verb::Set]
        .get(verb)
        .unwrap_or(&Verb::New);
    let held = family.row();
    row.show(family);
    row.put_bytes(held.name.as_bytes());
    put_fields!(row, held, head_size context new_type has_set);
    row.put(family.has(verb) as u64);
    put_type(row, family.type_of(verb));
}

/// The byte order or the family of a name.
fn tell_named(row: &mut Row<'_>) {
    let (sort, name) = (row.number(), std::str::from_utf8(row.text()).unwrap_or(""));
    if sort != 0 {
        match name.parse::<Family>() {
            Ok(family) => row.show(family),
            Err(error) => row.show(error),
        }
    } else {
        match name.parse::<Order>() {
            Ok(order) => row.show(order),
            Err(error) => row.show(error),
        }
    }
}

/// The reasons by their numbers.
const REASONS: [Reason; 5] = [
    Reason::Cut,
    Reason::BadLength,
    Reason::ShortBody,
    Reason::TooLong,
    Reason::TooDeep,
];

/// The fault of a reason at a place, as each refusal that it is.
fn tell_fault(row: &mut Row<'_>) {
    let (place, reason) = (row.int(), row.int::<usize>());
    let reason = *REASONS.get(reason).unwrap_or(&Reason::Cut);
    let fault = Fault { place, reason };
    let (list, read, feed) = (
        ListError::Layout(fault),
        ReadError::Layout(fault),
        FeedError::Layout(fault),
    );
    row.refuse(reason.code(), reason);
    row.refuse(fault.code(), fault);
    row.refuse(list.code(), list);
    row.refuse(read.code(), read);
    row.refuse(feed.code(), feed);
    let feed = FeedError::from(read);
    row.refuse(feed.code(), feed);
}

/// All other refusals, but those of writing.
fn tell_refusals(row: &mut Row<'_>) {
    for error in [
        FeedError::Total,
        FeedError::TooLarge,
        FeedError::NotWaiting,
        FeedError::Memory,
    ] {
        row.refuse(error.code(), error);
    }
    let large = FeedError::from(ReadError::TooLarge);
    row.refuse(large.code(), large);
    let memory = FeedError::from(ReadError::Memory);
    row.refuse(memory.code(), memory);
    let memory = FeedError::from(AllocError);
    row.refuse(memory.code(), memory);
    for error in [BeginError::Busy, BeginError::SameSeq, BeginError::Memory] {
        row.refuse(error.code(), error);
    }
    row.refuse(ListError::Memory.code(), ListError::Memory);
    row.refuse(ReadError::TooLarge.code(), ReadError::TooLarge);
    row.refuse(ReadError::Memory.code(), ReadError::Memory);
    row.refuse(NotWaiting.code(), NotWaiting);
    row.refuse(LimitFault.code(), LimitFault);
}

/// Those of writing, and those of runs.
fn tell_failures(row: &mut Row<'_>) {
    use nl_frame::WriteError as InDatagrams;
    for error in [
        WriteError::Mismatch,
        WriteError::TooDeep,
        WriteError::TooLong,
        WriteError::Memory,
    ] {
        row.refuse(error.code(), error);
    }
    row.refuse(InDatagrams::Mismatch.code(), InDatagrams::Mismatch);
    row.refuse(InDatagrams::TooDeep.code(), InDatagrams::TooDeep);
    row.refuse(InDatagrams::TooLong.code(), InDatagrams::TooLong);
    row.refuse(InDatagrams::TooLarge.code(), InDatagrams::TooLarge);
    row.refuse(InDatagrams::Memory.code(), InDatagrams::Memory);
    row.refuse(RunError::BadLine(7).code(), RunError::BadLine(7));
    row.refuse(RunError::ReadFault.code(), RunError::ReadFault);
    row.refuse(RunError::WriteFault.code(), RunError::WriteFault);
    row.refuse(RunError::Memory.code(), RunError::Memory);
}
