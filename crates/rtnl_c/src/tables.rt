//! `rtnlc_session_table`, `_entry`, `_key` and `_find`: the tables of a session.

ghost use Rattle.std.specs.Prelude.{◌≡◌, length};
ghost use Rattle.nl_route.specs.Types.{route_type};
ghost use Rattle.nl_dump.specs.View.{table_at};
ghost use Rattle.rtnl_c.specs.Kinds.{family_in};
ghost use Rattle.rtnl_c.specs.Entries.{OfTable, PutsEntry, PutsKey};
ghost use Rattle.rtnl_c.specs.Entries.{found_at, found_if, found_in, no_table, place_of};
ghost use Rattle.rtnl_c.specs.Entries.{size_of, sized, table_in};

use crate::codes::{END, NO_SESSION};
use crate::entry::put_message;
use crate::handle::{Handle, of_family};
use crate::put::Put;
use nl_dump::{Session, match_table};
use nl_route::Family;
use nl_table::{Entry, Table};
use std::alloc::Global;

/// The size of a table.
#[repr(C)]
#[derive(Clone, Copy)]
pub struct TableSize {
    /// How many new keys it had no room for.
    pub missed: u64,
    /// How many entries it has.
    pub count: u32,
    /// How many it may have.
    pub limit: u32,
    /// 0, or the error's number where there is no table.
    pub code: u8,
}

/// The index of an entry: `struct rtnlc_found` of include/rtnlc.h.
#[repr(C)]
#[derive(Clone, Copy)]
pub struct FoundEntry {
    pub index: u32,
    /// 0 where there is an entry, else the error's number.
    pub code: u8,
}

/// The answer where there is no table: the error of this number.
fn table_none(code: u8) -> TableSize
    ensures { result ≡ no_table code }
{
    TableSize {
        missed: 0,
        count: 0,
        limit: 0,
        code,
    }
}

/// The size of a table.
pub(crate) fn table_size<T: Entry>(table: &Table<T>) -> TableSize
    ensures { result ≡ sized (length table.now.entries) table.now.missed table.now.limit }
{
    TableSize {
        missed: table.missed(),
        count: table.len(),
        limit: table.limit(),
        code: 0,
    }
}

/// The size of the table of a family.
#[tactic(auto, using(crate::proofs::Seen::size_seen))]
fn size_in(session: &Session, kind: Family) -> TableSize
    ensures { result ≡ size_of (table_at kind session.now.tables) }
{
    match_table!(kind, session, table => table_size(table))
}

/// The size of the table of the family of a message type.
#[unsafe(no_mangle)]
pub extern "C" fn rtnlc_session_table(
    alloc: Global,
    handle: &mut Handle,
    message_type: u16,
) -> TableSize
    ensures table { result ≡ table_in handle.old.session (family_in (route_type message_type)) }
    ensures stays { handle.new.session ≡ handle.old.session }
{
    of_family!(
        handle: Handle, alloc, message_type,
        (session, kind) => size_in(&session, kind),
        table_none, NO_SESSION
    )
}

/// Puts the entry at an index of the table of a family into a buffer.
fn put_entry(alloc: Global, session: &Session, kind: Family, index: u32, out: &mut [u8]) -> Put
    ensures { PutsEntry index (table_at kind session.now.tables) kind out.old out.new result }
{
    match kind {
        Family::Link => put_message(alloc, session.links(), index, out),
        Family::Addr => put_message(alloc, session.addrs(), index, out),
        Family::Route => put_message(alloc, session.routes(), index, out),
        Family::Neigh => put_message(alloc, session.neighs(), index, out),
        Family::Rule => put_message(alloc, session.rules(), index, out),
    }
}

/// Puts the entry at an index of the table of the family of a message type into `out`: a message
/// of type NEW. 20 where the handle has no session, 19 where no family has the type, 255 where the
/// table has no such entry, 13 where memory ran out, 17 where `out` has less room.
#[unsafe(no_mangle)]
pub extern "C" fn rtnlc_session_entry(
    alloc: Global,
    handle: &mut Handle,
    message_type: u16,
    index: u32,
    out: &mut [u8],
) -> Put
    ensures entry { OfTable (PutsEntry index) handle.old.session
        (family_in (route_type message_type)) out.old out.new result }
    ensures stays { handle.new.session ≡ handle.old.session }
{
    of_family!(
        handle: Handle, alloc, message_type,
        (session, kind) => put_entry(alloc, &session, kind, index, out),
        Put::none, NO_SESSION
    )
}

/// Puts the key of the entry at an index of the table of a family into a buffer.
fn put_key(session: &Session, kind: Family, index: u32, out: &mut [u8]) -> Put
    ensures { PutsKey index (table_at kind session.now.tables) kind out.old out.new result }
{
    match_table!(kind, session, table => Put::found(table.key_at(index), out))
}

/// Puts the key of the entry at an index of the table of the family of a message type into `out`;
/// 20 where the handle has no session, 19 where no family has the type, 255 where the table has no
/// such entry, 17 where `out` has less room.
#[unsafe(no_mangle)]
pub extern "C" fn rtnlc_session_key(
    alloc: Global,
    handle: &mut Handle,
    message_type: u16,
    index: u32,
    out: &mut [u8],
) -> Put
    ensures key { OfTable (PutsKey index) handle.old.session
        (family_in (route_type message_type)) out.old out.new result }
    ensures stays { handle.new.session ≡ handle.old.session }
{
    of_family!(
        handle: Handle, alloc, message_type,
        (session, kind) => put_key(&session, kind, index, out),
        Put::none, NO_SESSION
    )
}

/// The answer where there is no entry: the error of this number.
pub(crate) fn found_none(code: u8) -> FoundEntry
    ensures { result ≡ found_at 0 code }
{
    FoundEntry { index: 0, code }
}

/// Where an entry stands, or that there is none.
pub(crate) fn found(index: Option<u32>) -> FoundEntry
    ensures { result ≡ found_if index }
{
    match index {
        Some(index) => FoundEntry { index, code: 0 },
        None => found_none(END),
    }
}

/// Where the entry of a key stands in the table of a family.
#[tactic(auto, using(crate::proofs::Seen::keys_seen))]
fn find(session: &Session, kind: Family, key: &[u8]) -> FoundEntry
    ensures { result ≡ found_if (place_of key.now (table_at kind session.now.tables)) }
{
    match_table!(kind, session, table => found(table.find(key)))
}

/// Where the entry of a key stands in the table of the family of a message type; 255 where none
/// has the key.
#[unsafe(no_mangle)]
pub extern "C" fn rtnlc_session_find(
    alloc: Global,
    handle: &mut Handle,
    message_type: u16,
    key: &[u8],
) -> FoundEntry
    ensures found { result ≡ found_in handle.old.session
        (family_in (route_type message_type)) key.now }
    ensures stays { handle.new.session ≡ handle.old.session }
{
    of_family!(
        handle: Handle, alloc, message_type,
        (session, kind) => find(&session, kind, key),
        found_none, NO_SESSION
    )
}
