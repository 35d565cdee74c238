//! Streams side by side with sessions, what both answer step by step, and requests in a buffer.

use crate::messages::put_messages;
use crate::row::{Row, put_calls};
use crate::scans::{put_events, room_for};
use crate::sessions::{dump_in, put_items, put_progress, put_standing, put_state};
use nl_dump::{Dump, End, ItemsRead, Kind, Session, State, Stream, StreamError, Streamed};

pub(crate) fn answer(row: &mut Row<'_>) {
    match row.number() {
        0 => run(row),
        1 => put_request(row),
        _ => row.fail(),
    }
}

/// What a new stream answers to each step, and a session of the same limits; and where both stand
/// then.
fn run(row: &mut Row<'_>) {
    let limits = row.limits();
    let mut stream = Stream::new(limits);
    let Ok(mut session) = Session::new(row.alloc, limits) else {
        return row.run_out();
    };
    for _ in 0..row.number() {
        step(row, &mut stream, &mut session);
        put_standing(row, stream.standing());
        put_standing(row, session.standing());
    }
}

fn step(row: &mut Row<'_>, stream: &mut Stream, session: &mut Session) {
    match row.number() {
        0 => begin(row, stream, session),
        1 => feed(row, stream, session),
        2 => read(row, stream, session),
        3 => {
            row.put(stream.abandon().is_err() as u64);
            row.put(session.abandon().is_err() as u64);
        }
        4 => show(row, stream, session),
        5 => restore(row, stream),
        _ => row.fail(),
    }
}

fn begin(row: &mut Row<'_>, stream: &mut Stream, session: &mut Session) {
    let dump = dump_in(row);
    match stream.begin(dump) {
        Ok(()) => row.put(0),
        Err(error) => row.refuse(error.code(), error),
    }
    match session.begin(dump.kind, dump.family, dump.seq, dump.port) {
        Ok(_) => row.put(0),
        Err(error) => row.refuse(error.code(), error),
    }
}

/// Feeds a datagram to the stream, with room for so many events, and to the session, unless the
/// stream lacked room.
fn feed(row: &mut Row<'_>, stream: &mut Stream, session: &mut Session) {
    let (room, bytes) = (row.int::<u32>(), row.bytes());
    let mut events = room_for(row, room as usize);
    match stream.feed(bytes, events.as_mut_slice()) {
        Ok(
            Streamed {
                progress,
                events: count,
            },
        ) => {
            put_items(row, progress);
            row.put(count as u64);
            put_events(row, events.get(..count).unwrap_or(&[]));
        }
        Err(error) => {
            row.refuse(error.code(), error);
            if let StreamError::Room(_) = error {
                return;
            }
        }
    }
    let beside = session.feed(bytes);
    put_progress(row, beside);
}

/// Reads a datagram by the stream, and feeds it to the session.
fn read(row: &mut Row<'_>, stream: &mut Stream, session: &mut Session) {
    let bytes = row.bytes();
    let answer = stream.read(row.alloc, bytes);
    let beside = session.feed(bytes);
    match answer {
        Ok(ItemsRead { items, progress }) => {
            put_items(row, progress);
            put_messages(row, items.as_slice());
        }
        Err(error) => row.refuse(error.code(), error),
    }
    put_progress(row, beside);
}

/// All that a stream answers, and whether the session's dump is complete.
fn show(row: &mut Row<'_>, stream: &Stream, session: &Session) {
    put_state(row, stream.state());
    put_calls!(row, stream, received visits ignored damaged interrupted complete);
    row.put(session.complete() as u64);
}

/// The state that is asked of a dump, the last one or else one of all links.
fn state_in(row: &mut Row<'_>, last: State) -> State {
    let dump = match last {
        State::Waiting(dump) | State::Ended(dump, _) => dump,
        State::Idle => Dump {
            kind: Kind::Link,
            family: 0,
            seq: 1,
            port: 0,
        },
    };
    match row.number() {
        0 => State::Ended(dump, End::Done(row.int::<u32>().cast_signed())),
        1 => State::Ended(dump, End::Error(row.int::<u32>().cast_signed())),
        2 => State::Ended(dump, End::Overrun),
        3 => State::Ended(dump, End::Abandoned),
        4 => State::Waiting(dump),
        _ => State::Idle,
    }
}

/// Whether a stream can be kept as this one, with the field changed that is asked, and is then kept
/// the same. Where none is changed it goes on as the one that is restored.
fn restore(row: &mut Row<'_>, stream: &mut Stream) {
    let mut standing = stream.standing();
    let field = row.number();
    match field {
        0 => standing.limits = row.limits(),
        1 => standing.state = state_in(row, standing.state),
        2 => standing.ignored = row.number(),
        3 => standing.visits = row.number(),
        4 => standing.received = row.number(),
        5 => standing.damaged = row.number() != 0,
        6 => standing.interrupted = row.number() != 0,
        _ => {}
    }
    match Stream::restore(standing) {
        Ok(restored) => {
            row.put_all(&[0, (restored.standing() == standing) as u64]);
            if field == KEPT {
                *stream = restored;
            }
        }
        Err(error) => row.refuse(error.code(), error),
    }
}

/// The number for no field.
const KEPT: u64 = 7;

/// How many bytes the request of a dump has, or that so many bytes of ones are too few for it; and
/// these bytes then.
fn put_request(row: &mut Row<'_>) {
    let (room, dump, order) = (row.int::<u8>(), dump_in(row), row.order());
    let Ok(mut out) = vec![in row.alloc; 0xff; room as usize] else {
        return row.run_out();
    };
    match dump.put_request(order, out.as_mut_slice()) {
        Ok(len) => row.put_all(&[0, len as u64]),
        Err(len) => row.put_all(&[1, len as u64]),
    }
    row.put(dump.request_len() as u64);
    row.put_bytes(out.as_slice());
}
