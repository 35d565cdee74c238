//! The entries of tables.

use crate::row::{Row, put_calls};
use nl_route::{Head, Object};
use nl_table::{Entry, Table};

/// Answers all that is counted of a table, and its byte order.
pub(crate) fn put_count<H: Head>(row: &mut Row<'_>, table: &Table<Object<H>>)
where
    Object<H>: Entry,
{
    put_calls!(row, table, order len limit missed is_empty spare);
}

/// Answers the key at a place, the place where it is found, and the body that stands under it.
pub(crate) fn put_entry<H: Head>(row: &mut Row<'_>, table: &Table<Object<H>>, place: u32)
where
    Object<H>: Entry,
{
    match (table.key_at(place), table.get(place)) {
        (Some(key), Some(entry)) => {
            row.put_bytes(key);
            row.put_maybe(table.find(key).map(u64::from));
            row.put_object(entry, table.order());
        }
        (None, None) => row.put_none(),
        _ => row.fail(),
    }
}

/// Answers all that a table holds, and what stands behind its last entry.
pub(crate) fn put_entries<H: Head>(row: &mut Row<'_>, table: &Table<Object<H>>)
where
    Object<H>: Entry,
{
    put_count(row, table);
    for place in 0..=table.len() {
        put_entry(row, table, place);
    }
}

/// Answers the keys in order of first appearance, and then from the last to the first.
pub(crate) fn put_keys<H: Head>(row: &mut Row<'_>, table: &Table<Object<H>>)
where
    Object<H>: Entry,
{
    for (key, _) in table {
        row.put_bytes(key);
    }
    row.put_none();
    for (key, _) in table.iter().rev() {
        row.put_bytes(key);
    }
    row.put_none();
}
