//! The settings of a mirror that a recording keeps, and its state from line to line.

use nl_dump::{Kind, Seed};
use nl_frame::Limits;
use nl_mirror::Mirror;

/// How a mirror is kept by the lines of a recording, and what is printed of it.
#[derive(Clone, Copy, Debug)]
pub struct MirrorSettings {
    /// The limits of its datagrams and of its tables.
    pub limits: Limits,
    /// How many changes of a kind may wait for the end of a dump.
    pub waiting: u32,
    /// The seed under which its tables hash.
    pub seed: Seed,
    /// The address family that its dumps ask for, 0 for all.
    pub family: u8,
    /// The only kind whose table is printed, or `None` for all.
    pub kind: Option<Kind>,
    /// Whether each change is printed as it comes, in place of the tables at the end.
    pub changes: bool,
}

/// What is kept of a mirror from one line to the next.
#[derive(Drop)]
pub(crate) struct MirrorSoFar {
    pub(crate) mirror: Mirror,
    /// How many datagrams were fed.
    pub(crate) datagrams: u64,
    /// How many dumps didn't begin.
    pub(crate) unbegun: u64,
}

/// The state of the table of a kind.
#[derive(Clone, Copy)]
pub(crate) struct TableState {
    /// Whether a dump of it runs.
    pub(crate) dump_running: bool,
    /// Whether it is stale.
    pub(crate) stale: bool,
}

/// The states of the tables of all kinds.
#[derive(Clone, Copy)]
pub(crate) struct TableStates {
    pub(crate) link: TableState,
    pub(crate) addr: TableState,
    pub(crate) route: TableState,
    pub(crate) neigh: TableState,
    pub(crate) rule: TableState,
}
