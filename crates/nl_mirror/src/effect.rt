//! What a message did to the tables: the answers of `Mirror::hear` and `Mirror::feed`.

use nl_route::{Addr, Link, Neigh, Route, Rule};

/// What a change did to a table. Each index is one of `Table::get`.
#[derive(Drop)]
pub enum Effect<T: Drop> {
    /// A new entry was added, and is the last one, at this index.
    Added(u32),
    /// The entry at this index was replaced. This is the old one, which may be equal to the new.
    Changed(u32, T),
    /// This entry was removed. It was at this index, where the last entry stands now.
    Removed(u32, T),
    /// A dump of the table is running: the change is kept, and applied when the dump has ended.
    Waits,
    /// The table is as it was. The message said nothing of an entry, or deleted one that the table
    /// doesn't have, or the table was full.
    Nothing,
}

/// What a message did to the table of its body's family.
#[derive(Drop)]
pub enum Update {
    /// To the links.
    Link(Effect<Link>),
    /// To the addresses.
    Addr(Effect<Addr>),
    /// To the routes.
    Route(Effect<Route>),
    /// To the neighbours.
    Neigh(Effect<Neigh>),
    /// To the rules.
    Rule(Effect<Rule>),
    /// The body is of no family, as of `NLMSG_DONE` or `NLMSG_OVERRUN`. The message may have
    /// ended a dump, or made tables stale.
    Other,
}
