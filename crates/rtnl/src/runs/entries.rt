//! What a dump's report says of a table: its entries, and how its dump ended.

ghost use Rattle.std.specs.Prelude.{◌≡◌, ◌++◌, OnOk, length};
ghost use Rattle.nl_dump.specs.Items.{seen};
ghost use Rattle.nl_dump.specs.View.{table_at};
ghost use Rattle.rtnl.specs.Tabled.{entries_text};
ghost use Rattle.rtnl.specs.Tabled as tabled;

use crate::ending::Ending;
use crate::json_lines::heads::ItemField;
use crate::runs::report::ReportFormat;
use crate::text::heads::ItemLines;
use nl_attr::Order;
use nl_dump::{Dump, Session, match_table};
use nl_route::Family;
use nl_table::{Entry, Table};
use std::alloc::{AllocError, Global};

/// Reports the entries of a table.
pub(crate) fn push_entries<F: ReportFormat, T: Entry + ItemLines + ItemField>(
    alloc: Global,
    out: &mut Vec<u8>,
    order: Order,
    table: &Table<T>,
) -> Result<(), AllocError>
    ensures { OnOk result (out.new.items ≡ out.old.items
        ++ entries_text F.report order 1 (seen T.item table.now).entries) }
{
    let mut number = 1;
    for (_, entry) in table {
        F::push_entry(alloc, out, order, number, entry)?;
        number += 1;
    }
    Ok(())
}

/// Reports the entries of the table of a family.
pub(crate) fn push_table<F: ReportFormat>(
    alloc: Global,
    out: &mut Vec<u8>,
    order: Order,
    session: &Session,
    kind: Family,
) -> Result<(), AllocError>
    ensures { OnOk result (out.new.items ≡ out.old.items
        ++ entries_text F.report order 1 (table_at kind session.now.tables).entries) }
{
    match_table!(kind, session, table => push_entries::<F, _>(alloc, out, order, table))
}

/// How many entries the table of a family has, and how many it missed.
fn size_of(session: &Session, kind: Family) -> (u32, u64)
    ensures entries { result.0 ≡ length (table_at kind session.now.tables).entries }
    ensures missed { result.1 ≡ (table_at kind session.now.tables).missed }
{
    match_table!(kind, session, table => (table.len(), table.missed()))
}

/// How a session's dump ended, with `unfed` datagrams left.
pub(crate) fn ending_of(session: &Session, dump: &Dump, unfed: usize) -> Ending
    ensures { result ≡ tabled.ending_of dump.now unfed session.now }
{
    let (entries, missed) = size_of(session, dump.kind);
    Ending {
        entries: entries.into(),
        missed,
        unfed: unfed as u64,
        standing: session.standing(),
        complete: session.complete(),
    }
}
