//! A caller of `nl_table`.

ghost use Rattle.std.specs.Prelude.{◌≡◌, ℕ, IfOk, OnErr};
ghost use Rattle.nl_table.specs.Content.{Step};
ghost use Rattle.nl_route.specs.declared.family.Family.TheVariants as family;
ghost use Rattle.nl_table.specs.Entries.{entry_key};

use nl_route::Link;
use nl_table::{Entry, Put, Table};
use std::alloc::{AllocError, Global};

/// Keeps a link under its index, and says whether it is new, takes the place of one, or is missed.
pub fn keep(alloc: Global, table: &mut Table<Link>, link: Link) -> Result<Put, AllocError>
    // It is one step of the table, in which some places are reserved first.
    ensures step { IfOk result (λ put. (spare : ℕ)
        × Step (record table.old { spare = spare }) (entry_key family.Link table.old.order link)
        link put table.new) }
    // Where memory runs out, the table is unchanged.
    ensures err { OnErr result (table.new ≡ table.old) }
{
    let key = link.key_ordered(alloc, table.order())?;
    table.reserve(1)?;
    Ok(table.put(key, link))
}
