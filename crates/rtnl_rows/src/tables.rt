//! Bounded tables, and what becomes of the entries that are put.

use crate::entries::{put_count, put_entries, put_entry, put_keys};
use crate::row::{Row, by_family};
use nl_attr::Depth;
use nl_route::{AddrHead, Family, Head, LinkHead, NeighHead, Object, RouteHead, RuleHead};
use nl_table::{Entry, Table};

pub(crate) fn answer(row: &mut Row<'_>) {
    by_family!(row, run)
}

/// What a new table answers to each step, made by the call for its order, or by its twin.
fn run<H: Head>(row: &mut Row<'_>)
where
    Object<H>: Entry,
{
    let (order, entries) = (row.twin(), row.int::<u32>());
    let made = match order {
        Some(order) => Table::new_ordered(row.alloc, entries, order),
        None => Table::new(row.alloc, entries),
    };
    let mut table: Table<Object<H>> = match made {
        Ok(table) => table,
        Err(_) => {
            row.skip();
            return row.put_none();
        }
    };
    for _ in 0..row.number() {
        step(row, &mut table);
        put_count(row, &table);
    }
}

fn step<H: Head>(row: &mut Row<'_>, table: &mut Table<Object<H>>)
where
    Object<H>: Entry,
{
    match row.number() {
        0 => {}
        1 => {
            let is_refused = table.reserve(row.int::<u32>()).is_err();
            row.put(is_refused as u64);
        }
        2 => put(row, table),
        3 => table.clear(),
        4 => {
            let found = table.find(row.bytes());
            row.put_maybe(found.map(u64::from));
        }
        5 => {
            let place = row.int::<u32>();
            put_entry(row, table, place);
        }
        6 => put_entries(row, table),
        7 => put_keys(row, table),
        _ => row.fail(),
    }
}

/// Puts the entry of a body under its key, where a place is reserved or none is needed; else
/// answers none.
fn put<H: Head>(row: &mut Row<'_>, table: &mut Table<Object<H>>)
where
    Object<H>: Entry,
{
    let bytes = row.bytes();
    if bytes.len() < H::SIZE {
        return row.fail();
    }
    let tally = Object::read_body_ordered(row.alloc, bytes, 0, Depth::standard(), table.order());
    let entry: Object<H> = match tally.into_result() {
        Ok(entry) => entry,
        Err(error) => return row.stop(error.code()),
    };
    let Ok(key) = entry.key_ordered(row.alloc, table.order()) else {
        return row.run_out();
    };
    if table.spare() > 0 || table.len() == table.limit() {
        return row.put(table.put(key, entry) as u64);
    }
    row.put_none();
}
