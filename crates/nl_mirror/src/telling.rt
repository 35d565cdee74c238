//! Applying changes to a table.

ghost use Rattle.std.specs.Prelude.{◌≡◌, IfErr, IfOk, OnOk, OnErr};
ghost use Rattle.nl_mirror.specs.Changes.{held_of, put, tell, tell_all, SameLimits};
ghost use Rattle.nl_mirror.specs.Effects.{effect as effect_of, exchanged_effect, removed_effect};
ghost use Rattle.nl_mirror.specs.Told.{key_by};
ghost use Rattle.nl_mirror.specs.declared.change.Change.TheVariants as change;
ghost use Rattle.nl_mirror.specs.declared.short.Short.TheVariants as short;

use crate::change::Change;
use crate::effect::Effect;
use crate::notes::OfFamily;
use crate::short::Short;
use nl_table::{Exchanged, Table};
use std::alloc::{AllocError, Global};

/// The effect of a `Table::exchange`.
fn effect_of_exchange<T: Drop>(exchanged: Exchanged<T>) -> Effect<T>
    ensures { result ≡ exchanged_effect exchanged }
{
    match exchanged {
        Exchanged::Replaced(place, before) => Effect::Changed(place, before),
        Exchanged::Added(place) => Effect::Added(place),
        Exchanged::Missed => Effect::Nothing,
    }
}

/// The effect of a `Table::remove`.
fn effect_of_removal<T: Drop>(removed: Option<(u32, T)>) -> Effect<T>
    ensures { result ≡ removed_effect removed }
{
    match removed {
        Some((place, before)) => Effect::Removed(place, before),
        None => Effect::Nothing,
    }
}

/// Puts an entry under its key. The error is for memory, and the table then holds what it held.
pub(crate) fn put_now<T: OfFamily>(
    alloc: Global,
    table: &mut Table<T>,
    mut entry: T,
) -> Result<Effect<T>, AllocError>
    ensures put { OnOk result (held_of table.new ≡ put table.old.limit (held_of table.old)
        (key_by T.item table.old.order entry) entry) }
    ensures effect { IfOk result (λ e. e ≡ effect_of (key_by T.item table.old.order)
        table.old.limit (held_of table.old) (change.Now entry)) }
    ensures err { OnErr result (held_of table.new ≡ held_of table.old) }
    ensures limits { SameLimits table.old table.new }
{
    let key = entry.mirror_key(alloc, table.order())?;
    let exchanged = table.exchange(key, entry)?;
    Ok(effect_of_exchange(exchanged))
}

/// Applies a change. The error is for memory, and the table then holds what it held.
pub(crate) fn tell<T: OfFamily>(
    alloc: Global,
    table: &mut Table<T>,
    change: Change<T>,
) -> Result<Effect<T>, Short>
    ensures told { OnOk result (held_of table.new ≡ tell (key_by T.item table.old.order)
        table.old.limit (held_of table.old) change) }
    ensures effect { IfOk result (λ e. e ≡ effect_of (key_by T.item table.old.order)
        table.old.limit (held_of table.old) change) }
    ensures err { OnErr result (held_of table.new ≡ held_of table.old) }
    ensures memory { IfErr result (λ e. e ≡ short.Memory) }
    ensures limits { SameLimits table.old table.new }
{
    match change {
        Change::Now(entry) => Ok(put_now(alloc, table, entry)?),
        Change::Gone(mut entry) => {
            let key = entry.mirror_key(alloc, table.order())?;
            let removed = table.remove(key.as_slice());
            Ok(effect_of_removal(removed))
        }
    }
}

/// Applies a change as `tell` does, and drops the effect with its old entry.
fn tell_silently<T: OfFamily>(
    alloc: Global,
    table: &mut Table<T>,
    change: Change<T>,
) -> Result<(), Short>
    ensures told { OnOk result (held_of table.new ≡ tell (key_by T.item table.old.order)
        table.old.limit (held_of table.old) change) }
    ensures limits { SameLimits table.old table.new }
{
    match tell(alloc, table, change) {
        Ok(_) => Ok(()),
        Err(short) => Err(short),
    }
}

/// Applies changes in order. It stops at the first error, with the changes before it applied.
pub(crate) fn tell_all<T: OfFamily>(
    alloc: Global,
    table: &mut Table<T>,
    changes: Vec<Change<T>>,
) -> Result<(), Short>
    ensures told { OnOk result (held_of table.new ≡ tell_all (key_by T.item table.old.order)
        table.old.limit (held_of table.old) changes.items) }
    ensures limits { SameLimits table.old table.new }
{
    for change in changes {
        tell_silently(alloc, table, change)?;
    }
    Ok(())
}
