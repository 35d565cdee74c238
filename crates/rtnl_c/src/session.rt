//! `rtnlc_session_new` to `rtnlc_session_status`: the calls on a session, but for its tables.

ghost use Rattle.std.specs.Prelude.{◌≡◌, Some, None};
ghost use Rattle.nl_route.specs.Types.{route_type};
ghost use Rattle.rtnl_c.specs.Kinds.{family_in};
ghost use Rattle.rtnl_c.specs.Options.{bounds_in};
ghost use Rattle.rtnl_c.specs.Sessions.{Abandoned, AbandonsOne, Begins, BeginsFamily};
ghost use Rattle.rtnl_c.specs.Sessions.{Feeds, FeedsOne, Makes, News};
ghost use Rattle.rtnl_c.specs.Sessions.{abandon_code as code_of_abandoned};
ghost use Rattle.rtnl_c.specs.Status.{session_status};

use crate::codes::{BUSY, NO_MEMORY, NO_ROOM, NO_SESSION};
use crate::fed::Fed;
use crate::handle::{Handle, of_family, of_held};
use crate::options::{Options, limits};
use crate::put::Put;
use crate::status::Status;
use nl_dump::{Dump, NotWaiting, Seed, Session};
use nl_frame::Limits;
use std::alloc::Global;

/// Makes a session of these limits and this seed in a handle that has none.
fn make(alloc: Global, handle: &mut Handle, limits: Limits, seed: Seed) -> u8
    requires { handle.old.session ≡ None }
    ensures { Makes limits result handle.new.session }
{
    let Ok(session) = Session::with_seed(alloc, limits, seed) else {
        return NO_MEMORY;
    };
    match Box::new(alloc, session) {
        Ok(session) => {
            *handle = Handle::of(session);
            0
        }
        Err(_) => NO_MEMORY,
    }
}

/// Makes a session of these limits. 9 where the handle has a session, which stays; 12 where a limit
/// is out of its range, 13 where memory ran out.
#[unsafe(no_mangle)]
pub extern "C" fn rtnlc_session_new(alloc: Global, handle: &mut Handle, options: &Options) -> u8
    ensures { News options.now handle.old.session result handle.new.session }
{
    if let Some(session) = handle.take(alloc) {
        *handle = Handle::of(session);
        return BUSY;
    }
    match limits(options) {
        Ok(limits) => make(alloc, handle, limits, Seed::from_bytes(options.seed)),
        Err(fault) => fault.code(),
    }
}

/// Lets a session go, with all that it holds. A handle with none stays as it is.
#[unsafe(no_mangle)]
pub extern "C" fn rtnlc_session_free(alloc: Global, handle: &mut Handle)
    ensures { handle.new.session ≡ None }
{
    let _gone = handle.take(alloc);
}

/// Begins a dump.
fn begin(session: &mut Session, dump: Dump, out: &mut [u8]) -> Put
    ensures { BeginsFamily session.old dump.kind dump.family dump.seq dump.port out.old out.new
        result (Some session.new) }
{
    let len = dump.request_len();
    if out.len() < len {
        return Put { len, code: NO_ROOM };
    }
    match session.begin(dump.kind, dump.family, dump.seq, dump.port) {
        Ok(request) => Put::all(request.as_slice(), out),
        Err(error) => Put::none(error.code()),
    }
}

/// Begins a dump of the family of a message type, and puts the bytes of its request into `out`. 20
/// where the handle has no session, 19 where no family has the type, 17 where `out` has less room
/// than the request; 9 where a dump waits, 10 for the sequence number of the last one, 13 where
/// memory ran out: then nothing has begun.
#[unsafe(no_mangle)]
pub extern "C" fn rtnlc_session_begin(
    alloc: Global,
    handle: &mut Handle,
    message_type: u16,
    family: u8,
    seq: u32,
    port: u32,
    out: &mut [u8],
) -> Put
    ensures { Begins handle.old.session (family_in (route_type message_type)) family seq port
        out.old out.new result handle.new.session }
{
    of_family!(
        handle: Handle, alloc, message_type,
        (session, kind) => begin(&mut session, Dump { kind, family, seq, port }, out),
        Put::none, NO_SESSION
    )
}

/// Feeds a datagram to a session.
fn feed(session: &mut Session, bytes: &[u8]) -> Fed
    ensures { FeedsOne session.old bytes.now result session.new }
{
    Fed::by_session(session.feed(bytes))
}

/// Takes a datagram into the dump that waits.
#[unsafe(no_mangle)]
pub extern "C" fn rtnlc_session_feed(alloc: Global, handle: &mut Handle, bytes: &[u8]) -> Fed
    ensures { Feeds handle.old.session bytes.now result handle.new.session }
{
    of_held!(
        handle: Handle, alloc,
        session => feed(&mut session, bytes),
        Fed::untaken(0, 0, NO_SESSION)
    )
}

/// The number of what became of a dump that was to be abandoned.
pub(crate) fn abandon_code(abandoned: Result<(), NotWaiting>) -> u8
    ensures { result ≡ code_of_abandoned abandoned }
{
    match abandoned {
        Ok(()) => 0,
        Err(error) => error.code(),
    }
}

/// Ends the dump that waits in a session.
fn abandon(session: &mut Session) -> u8
    ensures { AbandonsOne session.old result session.new }
{
    abandon_code(session.abandon())
}

/// Ends the dump that waits, as abandoned; 8 where none does.
#[unsafe(no_mangle)]
pub extern "C" fn rtnlc_session_abandon(alloc: Global, handle: &mut Handle) -> u8
    ensures { Abandoned handle.old.session result handle.new.session }
{
    of_held!(handle: Handle, alloc, session => abandon(&mut session), NO_SESSION)
}

/// Where the session of a handle stands.
#[unsafe(no_mangle)]
pub extern "C" fn rtnlc_session_status(alloc: Global, handle: &mut Handle) -> Status
    ensures status { result ≡ session_status handle.old.session }
    ensures stays { handle.new.session ≡ handle.old.session }
{
    of_held!(
        handle: Handle, alloc,
        session => Status::of_session(&session),
        Status::none(NO_SESSION)
    )
}
