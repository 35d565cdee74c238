//! What a user can do about a table that isn't what was meant, or a recording that is too long.

use crate::commands::MOST_ENTRIES;
use crate::output::Errors;
use crate::pieces::Name;
use crate::pieces::Piece::{self, Number, Text};
use crate::senders::{kind_answered, senders_of};
use nl_dump::match_table;
use rtnl::dump::{Dump, Session};
use rtnl::frame::Limits;
use rtnl::{LONGEST_INPUT, Numbers};
use std::io;

/// Writes what is done with a recording that is too long.
pub(crate) fn hint_too_long(rt: &HostRuntime, name: Name<'_>) -> io::Result<()> {
    Errors(rt).say(&[
        Piece::Name(name),
        Number(": longer than ", LONGEST_INPUT as u64),
        Text(" bytes; a recording can be cut at any line"),
    ])
}

/// Writes which option lifts the limit by which entries of a dump were missed, if some were.
pub(crate) fn hint_missed(
    rt: &HostRuntime,
    session: &Session,
    dump: Dump,
    limits: &Limits,
) -> io::Result<()> {
    let missed = match_table!(dump.kind, session, table => table.missed());
    if missed == 0 {
        return Ok(());
    }
    let limit = limits.entries();
    let way = if limit < MOST_ENTRIES {
        " entries; --entries sets another, up to 65536"
    } else {
        " entries, and no option lifts it"
    };
    Errors(rt).say(&[
        Number("missed ", missed),
        Number(": the limit is ", u64::from(limit)),
        Text(way),
    ])
}

/// Writes which numbers the messages have, where none has those of the dump.
pub(crate) fn hint_ignored(
    rt: &HostRuntime,
    found: &[Vec<u8>],
    dump: Dump,
    limits: &Limits,
) -> io::Result<()> {
    let senders = senders_of(rt.alloc(), found, limits)?;
    let Some(first) = senders.first().map(|sender| sender.numbers) else {
        return Ok(());
    };
    let (seq, port) = (dump.seq, dump.port);
    let sought = Numbers { seq, port };
    if senders.iter().any(|sender| sender.numbers == sought) {
        return Ok(());
    }
    let who = if senders.iter().all(|sender| sender.numbers == first) {
        "; all have seq "
    } else {
        "; the first has seq "
    };
    Errors(rt).say(&[
        Number("ignored ", senders.len() as u64),
        Number(": no message has seq ", u64::from(dump.seq)),
        Number(" port ", u64::from(dump.port)),
        Number(who, u64::from(first.seq)),
        Number(" port ", u64::from(first.port)),
    ])
}

/// Writes of which kind the objects are that answer a dump, where the table has none of its kind.
pub(crate) fn hint_kind(
    rt: &HostRuntime,
    session: &Session,
    found: &[Vec<u8>],
    dump: Dump,
    limits: &Limits,
) -> io::Result<()> {
    let ignored = session.ignored();
    let is_bare =
        match_table!(dump.kind, session, table => table.is_empty() && table.missed() == 0);
    if ignored == 0 || !is_bare {
        return Ok(());
    }
    let senders = senders_of(rt.alloc(), found, limits)?;
    let mut kinds = senders
        .iter()
        .filter_map(|sender| kind_answered(*sender, dump));
    let Some(first) = kinds.next() else {
        return Ok(());
    };
    let (answers, are) = if kinds.all(|kind| kind == first) {
        (": the answers with seq ", " are of kind ")
    } else {
        (": the first answer with seq ", " is of kind ")
    };
    Errors(rt).say(&[
        Number("ignored ", ignored),
        Number(answers, u64::from(dump.seq)),
        Number(" port ", u64::from(dump.port)),
        Text(are),
        Text(first.row().name),
    ])
}
