//! `rtnlc_mirror_table`, `_entry`, `_key` and `_find`: the tables of a mirror.

ghost use Rattle.std.specs.Prelude.{◌≡◌};
ghost use Rattle.nl_route.specs.Types.{route_type};
ghost use Rattle.nl_mirror.specs.Five.{follower_at};
ghost use Rattle.rtnl_c.specs.Kinds.{family_in};
ghost use Rattle.rtnl_c.specs.Entries.{PutsEntry, PutsKey, found_if, place_of, size_of};
ghost use Rattle.rtnl_c.specs.Mirrors.{OfTable, found_in, standing as standing_of};
ghost use Rattle.rtnl_c.specs.Mirrors.{stale_number as number_of_stale, standing_in};
ghost use Rattle.rtnl_c.specs.Mirrors.{table_at, unmirrored};

use crate::codes::NO_MIRROR;
use crate::entry::put_message;
use crate::handle::of_family;
use crate::mirror_handle::MirrorHandle;
use crate::put::Put;
use crate::tables::{FoundEntry, TableSize, found, found_none, table_size};
use nl_dump::match_table;
use nl_mirror::{Mirror, Stale};
use nl_route::Family;
use std::alloc::Global;

/// A table's size, and whether it is current: `struct rtnlc_mirrored` of include/rtnlc.h.
#[repr(C)]
#[derive(Clone, Copy)]
pub struct MirrorTableInfo {
    /// How many new keys it had no room for since its last whole dump.
    pub missed: u64,
    /// How many entries it has.
    pub count: u32,
    /// How many it may have.
    pub limit: u32,
    /// The sequence number of the dump of it that runs, 0 where none does.
    pub seq: u32,
    /// 0 where it is current, else the reason why it is stale (`enum rtnlc_stale`).
    pub stale: u8,
    /// Whether a dump of it runs.
    pub dumps: bool,
    /// 0, or the error's number where there is no table.
    pub code: u8,
}

/// The answer where there is no table: the error of this number.
fn mirrored_none(code: u8) -> MirrorTableInfo
    ensures { result ≡ unmirrored code }
{
    MirrorTableInfo {
        missed: 0,
        count: 0,
        limit: 0,
        seq: 0,
        stale: 0,
        dumps: false,
        code,
    }
}

/// The number of why a table is stale.
fn stale_number(stale: Option<Stale>) -> u8
    ensures { result ≡ number_of_stale stale }
{
    match stale {
        None => 0,
        Some(Stale::NeverDumped) => 1,
        Some(Stale::Lost) => 2,
        Some(Stale::Refused) => 3,
        Some(Stale::Memory) => 4,
        Some(Stale::Waiting) => 5,
        Some(Stale::Silent) => 6,
        Some(Stale::Unnamed) => 7,
        Some(Stale::Full) => 8,
    }
}

/// The size of the table of a family.
fn size_in(mirror: &Mirror, kind: Family) -> TableSize
    ensures { result ≡ size_of (table_at kind mirror.now) }
{
    match_table!(kind, mirror, table => table_size(table))
}

/// How the table of a family stands.
fn standing(mirror: &Mirror, kind: Family) -> MirrorTableInfo
    ensures { result ≡ standing_of (follower_at kind mirror.now) }
{
    let size = size_in(mirror, kind);
    let (dumps, seq) = match mirror.dump(kind) {
        Some(dump) => (true, dump.seq),
        None => (false, 0),
    };
    MirrorTableInfo {
        missed: size.missed,
        count: size.count,
        limit: size.limit,
        seq,
        stale: stale_number(mirror.stale(kind)),
        dumps,
        code: 0,
    }
}

/// How the table of the family of a message type stands.
#[unsafe(no_mangle)]
pub extern "C" fn rtnlc_mirror_table(
    alloc: Global,
    handle: &mut MirrorHandle,
    message_type: u16,
) -> MirrorTableInfo
    ensures table { result ≡ standing_in handle.old.mirror (family_in (route_type message_type)) }
    ensures stays { handle.new.mirror ≡ handle.old.mirror }
{
    of_family!(
        handle: MirrorHandle, alloc, message_type,
        (mirror, kind) => standing(&mirror, kind),
        mirrored_none, NO_MIRROR
    )
}

/// Puts the entry at an index of the table of a family into a buffer.
fn put_entry(alloc: Global, mirror: &Mirror, kind: Family, index: u32, out: &mut [u8]) -> Put
    ensures { PutsEntry index (table_at kind mirror.now) kind out.old out.new result }
{
    match kind {
        Family::Link => put_message(alloc, mirror.links(), index, out),
        Family::Addr => put_message(alloc, mirror.addrs(), index, out),
        Family::Route => put_message(alloc, mirror.routes(), index, out),
        Family::Neigh => put_message(alloc, mirror.neighs(), index, out),
        Family::Rule => put_message(alloc, mirror.rules(), index, out),
    }
}

/// Puts the entry at an index of the table of the family of a message type into `out`: a message
/// of type NEW. 25 where the handle has no mirror, 19 where no family has the type, 255 where the
/// table has no such entry, 13 where memory ran out, 17 where `out` has less room.
#[unsafe(no_mangle)]
pub extern "C" fn rtnlc_mirror_entry(
    alloc: Global,
    handle: &mut MirrorHandle,
    message_type: u16,
    index: u32,
    out: &mut [u8],
) -> Put
    ensures entry { OfTable (PutsEntry index) handle.old.mirror
        (family_in (route_type message_type)) out.old out.new result }
    ensures stays { handle.new.mirror ≡ handle.old.mirror }
{
    of_family!(
        handle: MirrorHandle, alloc, message_type,
        (mirror, kind) => put_entry(alloc, &mirror, kind, index, out),
        Put::none, NO_MIRROR
    )
}

/// Puts the key of the entry at an index of the table of a family into a buffer.
fn put_key(mirror: &Mirror, kind: Family, index: u32, out: &mut [u8]) -> Put
    ensures { PutsKey index (table_at kind mirror.now) kind out.old out.new result }
{
    match_table!(kind, mirror, table => Put::found(table.key_at(index), out))
}

/// Puts the key of the entry at an index of the table of the family of a message type into `out`;
/// 25 where the handle has no mirror, 19 where no family has the type, 255 where the table has no
/// such entry, 17 where `out` has less room.
#[unsafe(no_mangle)]
pub extern "C" fn rtnlc_mirror_key(
    alloc: Global,
    handle: &mut MirrorHandle,
    message_type: u16,
    index: u32,
    out: &mut [u8],
) -> Put
    ensures key { OfTable (PutsKey index) handle.old.mirror
        (family_in (route_type message_type)) out.old out.new result }
    ensures stays { handle.new.mirror ≡ handle.old.mirror }
{
    of_family!(
        handle: MirrorHandle, alloc, message_type,
        (mirror, kind) => put_key(&mirror, kind, index, out),
        Put::none, NO_MIRROR
    )
}

/// Where the entry of a key stands in the table of a family.
#[tactic(auto, using(crate::proofs::Mirrors::keys_held))]
fn find(mirror: &Mirror, kind: Family, key: &[u8]) -> FoundEntry
    ensures { result ≡ found_if (place_of key.now (table_at kind mirror.now)) }
{
    match_table!(kind, mirror, table => found(table.find(key)))
}

/// Where the entry of a key stands in the table of the family of a message type; 25 where the
/// handle has no mirror, 19 where no family has the type, 255 where none has the key.
#[unsafe(no_mangle)]
pub extern "C" fn rtnlc_mirror_find(
    alloc: Global,
    handle: &mut MirrorHandle,
    message_type: u16,
    key: &[u8],
) -> FoundEntry
    ensures found { result ≡ found_in handle.old.mirror
        (family_in (route_type message_type)) key.now }
    ensures stays { handle.new.mirror ≡ handle.old.mirror }
{
    of_family!(
        handle: MirrorHandle, alloc, message_type,
        (mirror, kind) => find(&mirror, kind, key),
        found_none, NO_MIRROR
    )
}
