//! The state and counts of a session or a stream, as C is told.

ghost use Rattle.std.specs.Prelude.{◌≡◌, pos};
ghost use Rattle.nl_dump.specs.Standing.{standing_of, whole_of};
ghost use Rattle.nl_dump.specs.View.{complete_of};
ghost use Rattle.rtnl_c.specs.Status.{last_dump, last_of, no_status, status_by};

use nl_dump::{Dump, End, Session, Standing, State, Stream};
use nl_route::Verb;

/// The answer: `struct rtnlc_status` of include/rtnlc.h.
#[repr(C)]
#[derive(Clone, Copy)]
pub struct Status {
    /// The bytes of all datagrams that were read, since the session or the stream was made.
    pub received: u64,
    /// How many bytes of attributes and next hops were visited in them.
    pub visits: u64,
    /// How many messages of the last dump were neither items nor its end.
    pub ignored: u64,
    pub seq: u32,
    pub port: u32,
    /// The status of DONE or the code of ERROR, where the last dump ended by one; else 0.
    pub status: i32,
    /// The message type NEW of the last dump's family.
    pub kind: u16,
    /// The address family that the last dump asked for.
    pub family: u8,
    /// 0 where none was begun, 1 where the last one waits; where it has ended, 2 by DONE, 3 by
    /// ERROR, 4 by OVERRUN, 5 by the caller.
    pub state: u8,
    pub damaged: bool,
    pub interrupted: bool,
    pub complete: bool,
    /// 0, or the error's number; then all other fields are 0.
    pub code: u8,
}

/// The last dump, in the numbers that `Status` has.
#[derive(Drop)]
pub(crate) struct Last {
    pub(crate) seq: u32,
    pub(crate) port: u32,
    pub(crate) status: i32,
    pub(crate) kind: u16,
    pub(crate) family: u8,
    pub(crate) state: u8,
}

impl Last {
    /// A dump in the state of this number.
    fn dump(dump: Dump, state: u8, status: i32) -> Last
        ensures { result ≡ last_dump dump state status }
    {
        Last {
            seq: dump.seq,
            port: dump.port,
            status,
            kind: dump.kind.type_of(Verb::New),
            family: dump.family,
            state,
        }
    }

    /// The last dump, by its state.
    pub(crate) fn of(state: State) -> Last
        ensures { result ≡ last_of state }
    {
        match state {
            State::Idle => Last {
                seq: 0,
                port: 0,
                status: 0,
                kind: 0,
                family: 0,
                state: 0,
            },
            State::Waiting(dump) => Last::dump(dump, 1, 0),
            State::Ended(dump, End::Done(status)) => Last::dump(dump, 2, status),
            State::Ended(dump, End::Error(code)) => Last::dump(dump, 3, code),
            State::Ended(dump, End::Overrun) => Last::dump(dump, 4, 0),
            State::Ended(dump, End::Abandoned) => Last::dump(dump, 5, 0),
        }
    }
}

impl Status {
    /// The answer where there is no session or stream: the error of this number.
    pub(crate) fn none(code: u8) -> Status
        ensures { result ≡ no_status code }
    {
        Status {
            received: 0,
            visits: 0,
            ignored: 0,
            seq: 0,
            port: 0,
            status: 0,
            kind: 0,
            family: 0,
            state: 0,
            damaged: false,
            interrupted: false,
            complete: false,
            code,
        }
    }

    /// The answer for a session or a stream of this standing.
    fn by(standing: &Standing, complete: bool) -> Status
        ensures { result ≡ status_by standing.now complete }
    {
        let last = Last::of(standing.state);
        Status {
            received: standing.received,
            visits: standing.visits,
            ignored: standing.ignored,
            seq: last.seq,
            port: last.port,
            status: last.status,
            kind: last.kind,
            family: last.family,
            state: last.state,
            damaged: standing.damaged,
            interrupted: standing.interrupted,
            complete,
            code: 0,
        }
    }

    /// Where a session stands.
    pub(crate) fn of_session(session: &Session) -> Status
        ensures { result ≡ status_by (standing_of session.now) (complete_of session.now) }
    {
        Status::by(&session.standing(), session.complete())
    }

    /// Where a stream stands.
    pub(crate) fn of_stream(stream: &Stream) -> Status
        ensures { result ≡ status_by stream.now (whole_of stream.now) }
    {
        Status::by(&stream.standing(), stream.complete())
    }
}
