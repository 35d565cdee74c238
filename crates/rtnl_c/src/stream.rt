//! `rtnlc_stream_*`: a stream whose state C stores as a plain struct. It takes no memory.

ghost use Rattle.std.specs.Prelude.{◌≡◌};
ghost use Rattle.nl_route.specs.Types.{route_type};
ghost use Rattle.nl_dump.specs.Request.{request_of};
ghost use Rattle.rtnl_c.specs.Kinds.{family_in};
ghost use Rattle.rtnl_c.specs.Streams.{Abandons, Begins, BeginsOne, Feeds, News, Restores};
ghost use Rattle.rtnl_c.specs.Streams.{PutsBegun, Tells, begun_in, flag_in, kept_of, state_in};

use crate::codes::{NO_KIND, NO_ROOM, NO_STREAM};
use crate::fed::Fed;
use crate::kinds::family_of;
use crate::options::{Options, limits, order};
use crate::put::Put;
use crate::session::abandon_code;
use crate::status::{Last, Status};
use nl_dump::{BeginError, Dump, End, Standing, State, Stream};
use nl_frame::{Event, Limits, Order};
use nl_route::Family;

/// A stream's state, as C stores it in `struct rtnlc_stream` of include/rtnlc.h.
#[repr(C)]
#[derive(Clone, Copy)]
pub struct StreamState {
    /// How many bytes all datagrams may have: 0 to 2^40.
    pub total: u64,
    pub received: u64,
    pub visits: u64,
    pub ignored: u64,
    /// How many bytes a datagram may have: a multiple of 4 from 16 to 1,048,576.
    pub datagram: u32,
    /// The limit on entries, which a stream doesn't use: 0 to 65,536.
    pub entries: u32,
    pub seq: u32,
    pub port: u32,
    /// The status of a DONE, or the code of an ERROR.
    pub status: i32,
    /// A message type of the family; after a call it is the NEW type.
    pub kind: u16,
    pub family: u8,
    /// The number of the state, as in `Status`.
    pub state: u8,
    pub depth: u8,
    /// 1 for big-endian byte order, else 0. `damaged` and `interrupted` are 0 or 1 too.
    pub big: u8,
    pub damaged: u8,
    pub interrupted: u8,
}

/// A byte that is 0 or 1, as a flag. `None` for another one.
fn flag(byte: u8) -> Option<bool>
    ensures { result ≡ flag_in byte }
{
    match byte {
        0 => Some(false),
        1 => Some(true),
        _ => None,
    }
}

/// The state of this number, other than that of no dump. `None` where there is no such number.
fn begun_state(state: u8, status: i32, dump: Dump) -> Option<State>
    ensures { result ≡ begun_in state status dump }
{
    match state {
        1 => Some(State::Waiting(dump)),
        2 => Some(State::Ended(dump, End::Done(status))),
        3 => Some(State::Ended(dump, End::Error(status))),
        4 => Some(State::Ended(dump, End::Overrun)),
        5 => Some(State::Ended(dump, End::Abandoned)),
        _ => None,
    }
}

/// The state in the struct. `None` where it is none of a stream.
fn state_of(kept: &StreamState) -> Option<State>
    ensures { result ≡ state_in kept.now }
{
    if kept.state == 0 {
        return Some(State::Idle);
    }
    let dump = Dump {
        kind: family_of(kept.kind)?,
        family: kept.family,
        seq: kept.seq,
        port: kept.port,
    };
    begun_state(kept.state, kept.status, dump)
}

/// The stream in the struct. `None` where it holds no stream's state.
fn restore(kept: &StreamState) -> Option<Stream>
    ensures { Restores kept.now result }
{
    let state = state_of(kept)?;
    let big = flag(kept.big)?;
    let damaged = flag(kept.damaged)?;
    let interrupted = flag(kept.interrupted)?;
    let limits = Limits::new(kept.depth, kept.datagram, kept.total, kept.entries).ok()?;
    Stream::restore(Standing {
        limits: limits.with_order(order(big)),
        state,
        ignored: kept.ignored,
        visits: kept.visits,
        received: kept.received,
        damaged,
        interrupted,
    })
    .ok()
}

/// The state of a stream, as C stores it.
fn to_state(stream: &Stream) -> StreamState
    ensures { result ≡ kept_of stream.now }
{
    let standing = stream.standing();
    let limits = standing.limits;
    let last = Last::of(standing.state);
    StreamState {
        total: limits.total(),
        received: standing.received,
        visits: standing.visits,
        ignored: standing.ignored,
        datagram: limits.datagram(),
        entries: limits.entries(),
        seq: last.seq,
        port: last.port,
        status: last.status,
        kind: last.kind,
        family: last.family,
        state: last.state,
        depth: limits.depth().get(),
        big: u8::from(limits.order() == Order::Big),
        damaged: u8::from(standing.damaged),
        interrupted: u8::from(standing.interrupted),
    }
}

/// Keeps a new stream of these limits; 12 where one of them is out of its range.
#[unsafe(no_mangle)]
pub extern "C" fn rtnlc_stream_new(kept: &mut StreamState, options: &Options) -> u8
    ensures { News options.now kept.old result kept.new }
{
    match limits(options) {
        Ok(limits) => {
            *kept = to_state(&Stream::new(limits));
            0
        }
        Err(fault) => fault.code(),
    }
}

/// Puts the request of a dump that was begun so into the buffer.
fn put_begun(begun: Result<(), BeginError>, dump: &Dump, order: Order, out: &mut [u8]) -> Put
    ensures { PutsBegun (request_of order dump.now) begun out.old out.new result }
{
    match begun {
        Ok(()) => Put::request(dump, order, out),
        Err(error) => Put::none(error.code()),
    }
}

/// Begins a dump in a stream, and puts its request into the buffer.
fn begin_dump(stream: &mut Stream, dump: Dump, out: &mut [u8]) -> Put
    ensures { BeginsOne stream.old dump out.old stream.new out.new result }
{
    let order = stream.standing().limits.order();
    put_begun(stream.begin(dump), &dump, order, out)
}

/// Begins a dump of the family of a message type in the stream that is kept, and puts its request
/// into `out`. 18 where what is kept is no stream, 19 where no family has the type, 17 where `out`
/// has less room than the request; 9 where a dump waits, 10 for the sequence number of the last
/// one: then nothing has begun.
#[unsafe(no_mangle)]
pub extern "C" fn rtnlc_stream_begin(
    kept: &mut StreamState,
    message_type: u16,
    family: u8,
    seq: u32,
    port: u32,
    out: &mut [u8],
) -> Put
    ensures { Begins kept.old (family_in (route_type message_type)) family seq port out.old
        kept.new out.new result }
{
    let Some(mut stream) = restore(kept) else {
        return Put::none(NO_STREAM);
    };
    let Some(kind) = family_of(message_type) else {
        return Put::none(NO_KIND);
    };
    let dump = Dump {
        kind,
        family,
        seq,
        port,
    };
    let len = dump.request_len();
    if out.len() < len {
        return Put { len, code: NO_ROOM };
    }
    let begun = begin_dump(&mut stream, dump, out);
    *kept = to_state(&stream);
    begun
}

/// Feeds a datagram to the stream that is kept.
#[unsafe(no_mangle)]
pub extern "C" fn rtnlc_stream_feed(kept: &mut StreamState, bytes: &[u8], out: &mut [Event]) -> Fed
    ensures { Feeds kept.old bytes.now out.old kept.new out.new result }
{
    let Some(mut stream) = restore(kept) else {
        return Fed::untaken(0, 0, NO_STREAM);
    };
    let fed = stream.feed(bytes, out);
    *kept = to_state(&stream);
    Fed::by_stream(fed)
}

/// Ends the dump that waits in the stream that is kept, as abandoned; 8 where none does.
#[unsafe(no_mangle)]
pub extern "C" fn rtnlc_stream_abandon(kept: &mut StreamState) -> u8
    ensures { Abandons kept.old kept.new result }
{
    let Some(mut stream) = restore(kept) else {
        return NO_STREAM;
    };
    let abandoned = stream.abandon();
    *kept = to_state(&stream);
    abandon_code(abandoned)
}

/// Where the dump of the stream that is kept stands.
#[unsafe(no_mangle)]
pub extern "C" fn rtnlc_stream_status(kept: &StreamState) -> Status
    ensures { Tells kept.now result }
{
    match restore(kept) {
        Some(stream) => Status::of_stream(&stream),
        None => Status::none(NO_STREAM),
    }
}
