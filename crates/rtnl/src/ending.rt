//! How a dump ended.

use nl_dump::Standing;

/// How a dump ended, and what was counted of it.
#[derive(Clone, Copy)]
pub(crate) struct Ending {
    /// How many entries there are.
    pub(crate) entries: u64,
    /// How many found no room.
    pub(crate) missed: u64,
    /// How many datagrams stand behind its end.
    pub(crate) unfed: u64,
    pub(crate) standing: Standing,
    /// Whether it ended with no failure, and nothing of it was lost.
    pub(crate) complete: bool,
}
