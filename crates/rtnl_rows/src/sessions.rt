//! Sessions, and what they answer step by step.

use crate::entries::put_entries;
use crate::plain::put_limits;
use crate::row::{Row, put_calls, put_fields, unsigned};
use nl_dump::{Dump, End, FeedError, Progress, Session, Standing, State, match_table};

/// What a new session answers to each step.
pub(crate) fn answer(row: &mut Row<'_>) {
    let limits = row.limits();
    let Ok(mut session) = Session::new(row.alloc, limits) else {
        row.skip();
        return row.put_none();
    };
    put_session(row, &session);
    for _ in 0..row.number() {
        step(row, &mut session);
        put_session(row, &session);
    }
}

fn step(row: &mut Row<'_>, session: &mut Session) {
    match row.number() {
        0 => feed(row, session),
        1 => begin(row, session),
        2 => row.put(session.abandon().is_err() as u64),
        3 => show(row, session),
        4 => match_table!(row.family(), session, table => put_entries(row, table)),
        _ => row.fail(),
    }
}

/// The dump that is asked.
pub(crate) fn dump_in(row: &mut Row<'_>) -> Dump {
    Dump {
        kind: row.family(),
        family: row.int::<u8>(),
        seq: row.int::<u32>(),
        port: row.int::<u32>(),
    }
}

/// Answers where a session stands, and how many entries its tables have.
fn put_session(row: &mut Row<'_>, session: &Session) {
    put_standing(row, session.standing());
    row.put_all(&[
        session.complete() as u64,
        session.links().len() as u64,
        session.addrs().len() as u64,
        session.routes().len() as u64,
        session.neighs().len() as u64,
        session.rules().len() as u64,
    ]);
}

/// Answers where a session or a stream stands.
pub(crate) fn put_standing(row: &mut Row<'_>, standing: Standing) {
    put_limits(row, standing.limits);
    put_state(row, standing.state);
    put_fields!(row, standing, received visits ignored damaged interrupted);
}

pub(crate) fn put_state(row: &mut Row<'_>, state: State) {
    match state {
        State::Idle => row.put(0),
        State::Waiting(dump) => {
            row.put(1);
            put_dump(row, dump);
        }
        State::Ended(dump, end) => {
            row.put(2);
            put_dump(row, dump);
            put_end(row, end);
        }
    }
}

fn put_dump(row: &mut Row<'_>, dump: Dump) {
    put_fields!(row, dump, kind family seq port);
}

fn put_end(row: &mut Row<'_>, end: End) {
    match end {
        End::Done(status) => row.put_all(&[0, unsigned(status)]),
        End::Error(code) => row.put_all(&[1, unsigned(code)]),
        End::Overrun => row.put(2),
        End::Abandoned => row.put(3),
    }
}

/// Answers what became of a datagram.
pub(crate) fn put_progress(row: &mut Row<'_>, answer: Result<Progress, FeedError>) {
    match answer {
        Ok(progress) => put_items(row, progress),
        Err(error) => row.refuse(error.code(), error),
    }
}

/// Answers 0 and what became of the messages.
pub(crate) fn put_items(row: &mut Row<'_>, progress: Progress) {
    row.put(0);
    put_fields!(row, progress, items ignored ended);
}

/// Begins a dump. Answers its request, or why it was not begun.
fn begin(row: &mut Row<'_>, session: &mut Session) {
    let (is_asked, dump) = (row.is_asked(), dump_in(row));
    if !is_asked {
        return row.put_none();
    }
    match session.begin(dump.kind, dump.family, dump.seq, dump.port) {
        Ok(request) => {
            row.put(0);
            row.put_bytes(request.as_slice());
        }
        Err(error) => row.refuse(error.code(), error),
    }
}

/// All that a session answers.
fn show(row: &mut Row<'_>, session: &Session) {
    put_state(row, session.state());
    put_calls!(row, session, received visits ignored damaged interrupted complete);
}

fn feed(row: &mut Row<'_>, session: &mut Session) {
    let (is_asked, bytes) = (row.is_asked(), row.bytes());
    if !is_asked {
        return row.put_none();
    }
    let answer = session.feed(bytes);
    put_progress(row, answer);
}
