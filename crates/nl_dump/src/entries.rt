//! Puts the items of a datagram into their table: all or none of them.

ghost use Rattle.std.specs.Prelude.{◌≡◌, ◌-◌, ◌≤◌, ◌++◌, ◌∷◌, [], length, map, min};
ghost use Rattle.std.specs.Prelude.{IfOk, OnErr, OnOk};
ghost use Rattle.std.specs.List.{AllByRecursion};
ghost use Rattle.nl_attr.specs.Fixed as fixed;
ghost use Rattle.nl_frame.specs.View.{message_view};
ghost use Rattle.nl_dump.specs.Items.{item_key, seen};
ghost use Rattle.nl_dump.specs.Steps.{Puts};
ghost use Rattle.nl_dump.specs.Inside.{AreKeyed, brought};

use crate::families::FromBody;
use nl_attr::Order;
use nl_frame::Message;
use nl_table::{CompactKey, Table};
use std::alloc::{AllocError, Global};

/// Adds an entry to the list, with its key.
fn add<T: FromBody>(
    alloc: Global,
    order: Order,
    entries: &mut Vec<(CompactKey, T)>,
    entry: T,
) -> Result<(), AllocError>
    ensures { OnOk result (entries.new.items
        ≡ entries.old.items ++ (T.key_of order entry, entry) ∷ []) }
{
    // The key is filled in place: moving it there would cost as much as filling it.
    entries.push((CompactKey::empty(), entry))?;
    let last = entries.len() - 1;
    let (key, entry) = &mut entries[last];
    key.fill(alloc, order, entry)?;
    Ok(())
}

/// The entries that these messages bring, each with its key. Other messages are left out.
fn keyed<T: FromBody>(
    alloc: Global,
    order: Order,
    messages: Vec<Message>,
) -> Result<Vec<(CompactKey, T)>, AllocError>
    ensures keyed { IfOk result (λ es. AreKeyed T.item (T.key_of order) T.family
        (map message_view messages.items) es.items) }
    ensures few { IfOk result (λ es. length es.items ≤ length messages.items) }
{
    let mut entries = Vec::with_capacity(alloc, messages.len())?;
    for message in messages {
        if let Some(entry) = T::from_body(message.body) {
            add(alloc, order, &mut entries, entry)?;
        }
    }
    Ok(entries)
}

/// Puts entries under their keys, in order. Room for them has been reserved.
fn put_all<T: FromBody>(table: &mut Table<T>, entries: Vec<(CompactKey, T)>)
    requires keyed { AllByRecursion (λ p. p.0 ≡ T.key_of table.old.order p.1) entries.items }
    requires room { min (length entries.items) (table.old.limit - length table.old.entries)
        ≤ table.old.spare }
    ensures { Puts (item_key table.old.order) (seen T.item table.old)
        (map (λ p. T.item p.1) entries.items) (seen T.item table.new) }
{
    for (key, entry) in entries {
        table.put_compact(key, entry);
    }
}

/// Puts the entries that these messages bring into their table. All memory is taken first, so
/// after an error the table is as it was.
pub(crate) fn put_items<T: FromBody>(
    alloc: Global,
    table: &mut Table<T>,
    messages: Vec<Message>,
) -> Result<(), AllocError>
    requires size { length messages.items ≤ fixed.LONGEST_REGION }
    ensures puts { IfOk result (λ _. Puts (item_key table.old.order) (seen T.item table.old)
        (brought T.family (map message_view messages.items)) (seen T.item table.new)) }
    ensures err { OnErr result (table.new ≡ table.old) }
{
    let entries = keyed(alloc, table.order(), messages)?;
    table.reserve(entries.len() as u32)?;
    put_all(table, entries);
    Ok(())
}
