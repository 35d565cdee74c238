//! `rtnlc_mirror_new`, `_free`, `_begin` and `_lost`: the calls that make a mirror and begin its
//! dumps.

ghost use Rattle.std.specs.Prelude.{◌≡◌, ◌≤◌, ◌<◌, length, None, Some};
ghost use Rattle.nl_route.specs.Types.{route_type};
ghost use Rattle.nl_dump.specs.Request.{request_of};
ghost use Rattle.nl_mirror.specs.Five.{Began};
ghost use Rattle.rtnl_c.specs.Kinds.{family_in};
ghost use Rattle.rtnl_c.specs.Options.{bounds_in};
ghost use Rattle.rtnl_c.specs.Mirrors.{Begins, BeginsDump, BeginsKind, LosesAll, Makes, News};
ghost use Rattle.rtnl_c.specs.Mirrors.{PutsBegun, order_at, short_code as code_of_short};

use crate::codes::{BUSY, NO_KIND, NO_MEMORY, NO_MIRROR, NO_ROOM, USED_SEQ};
use crate::handle::of_held;
use crate::kinds::family_of;
use crate::mirror_handle::MirrorHandle;
use crate::options::{Options, limits};
use crate::put::Put;
use nl_attr::Order;
use nl_dump::{Dump, Seed, match_table};
use nl_frame::Limits;
use nl_mirror::{BeginError, Mirror, Short};
use nl_route::Family;
use std::alloc::Global;

/// Makes a mirror of these limits and this seed in a handle that has none.
fn make(alloc: Global, handle: &mut MirrorHandle, limits: Limits, waiting: u32, seed: Seed) -> u8
    requires { handle.old.mirror ≡ None }
    ensures { Makes limits waiting result handle.new.mirror }
{
    let Ok(mirror) = Mirror::new(alloc, limits, waiting, seed) else {
        return NO_MEMORY;
    };
    match Box::new(alloc, mirror) {
        Ok(mirror) => {
            *handle = MirrorHandle::of(mirror);
            0
        }
        Err(_) => NO_MEMORY,
    }
}

/// Makes a mirror of these limits, where at most `waiting` changes of a kind wait for the end of a
/// dump. 9 where the handle has a mirror, which stays; 12 where a limit is out of its range, 13
/// where memory ran out.
#[unsafe(no_mangle)]
pub extern "C" fn rtnlc_mirror_new(
    alloc: Global,
    handle: &mut MirrorHandle,
    options: &Options,
    waiting: u32,
) -> u8
    ensures { News options.now waiting handle.old.mirror result handle.new.mirror }
{
    if let Some(mirror) = handle.take(alloc) {
        *handle = MirrorHandle::of(mirror);
        return BUSY;
    }
    match limits(options) {
        Ok(limits) => {
            let seed = Seed::from_bytes(options.seed);
            make(alloc, handle, limits, waiting, seed)
        }
        Err(fault) => fault.code(),
    }
}

/// Lets a mirror go, with all that it holds. A handle with none stays as it is.
#[unsafe(no_mangle)]
pub extern "C" fn rtnlc_mirror_free(alloc: Global, handle: &mut MirrorHandle)
    ensures { handle.new.mirror ≡ None }
{
    let _gone = handle.take(alloc);
}

/// The number of what was short.
pub(crate) fn short_code(short: Short) -> u8
    ensures { result ≡ code_of_short short }
{
    match short {
        Short::Memory => NO_MEMORY,
        Short::Waiting => NO_ROOM,
    }
}

/// The byte order of the table of a family.
fn order_of(mirror: &Mirror, kind: Family) -> Order
    ensures { result ≡ order_at kind mirror.now }
{
    match_table!(kind, mirror, table => table.order())
}

/// Puts the request of a dump that was begun so into a buffer that has room for it.
fn put_begun(begun: Result<(), BeginError>, dump: &Dump, order: Order, out: &mut [u8]) -> Put
    requires { length (request_of order dump.now) ≤ length out.old }
    ensures { PutsBegun (request_of order dump.now) begun out.old out.new result }
{
    match begun {
        Ok(()) => Put::request(dump, order, out),
        Err(BeginError::Number) => Put::none(USED_SEQ),
        Err(BeginError::Short(short)) => {
            let put = Put::request(dump, order, out);
            Put {
                len: put.len,
                code: short_code(short),
            }
        }
    }
}

/// Begins a dump.
fn begin_dump(mirror: &mut Mirror, dump: Dump, out: &mut [u8]) -> Put
    ensures { BeginsDump mirror.old dump out.old out.new result mirror.new }
{
    let order = order_of(mirror, dump.kind);
    let len = dump.request_len();
    if out.len() < len {
        return Put { len, code: NO_ROOM };
    }
    let begun = mirror.begin(dump);
    put_begun(begun, &dump, order, out)
}

/// Begins a dump of the family of a message type.
fn begin(
    mirror: &mut Mirror,
    kind: Option<Family>,
    family: u8,
    seq: u32,
    port: u32,
    out: &mut [u8],
) -> Put
    ensures { BeginsKind mirror.old kind family seq port out.old out.new result mirror.new }
{
    let Some(kind) = kind else {
        return Put::none(NO_KIND);
    };
    let dump = Dump {
        kind,
        family,
        seq,
        port,
    };
    begin_dump(mirror, dump, out)
}

/// Begins a dump of the family of a message type, and puts the bytes of its request into `out`. 25
/// where the handle has no mirror, 19 where no family has the type, 17 where `out` has less room
/// than the request, 10 where a dump had the sequence number or a later one: then nothing has
/// begun. 13 where what waited for the end of a dump that was given up is lost to want of memory:
/// then it has begun, and its request is put.
#[unsafe(no_mangle)]
pub extern "C" fn rtnlc_mirror_begin(
    alloc: Global,
    handle: &mut MirrorHandle,
    message_type: u16,
    family: u8,
    seq: u32,
    port: u32,
    out: &mut [u8],
) -> Put
    ensures { Begins handle.old.mirror (family_in (route_type message_type)) family seq port
        out.old out.new result handle.new.mirror }
{
    of_held!(
        handle: MirrorHandle, alloc,
        mirror => begin(&mut mirror, family_of(message_type), family, seq, port, out),
        Put::none(NO_MIRROR)
    )
}

/// The kernel dropped messages: all tables are stale.
#[unsafe(no_mangle)]
pub extern "C" fn rtnlc_mirror_lost(alloc: Global, handle: &mut MirrorHandle) -> u8
    ensures { LosesAll handle.old.mirror result handle.new.mirror }
{
    of_held!(handle: MirrorHandle, alloc, mirror => { mirror.lost(); 0 }, NO_MIRROR)
}
