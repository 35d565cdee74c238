//! The laws of faults, tables, sessions and streams.

use crate::row::Row;
use nl_route::{Addr, Link, Neigh, Route, Rule};

/// Calls each law, for each family where it has one.
pub(crate) fn answer(row: &mut Row<'_>) {
    nl_attr::laws::one_first_fault();
    nl_attr::laws::one_head_at_fault();
    nl_frame::laws::one_first_fault();
    nl_frame::laws::one_head_at_fault();
    nl_frame::laws::written_back();
    rtnl::laws::one_answer();
    rtnl::laws::one_text();
    nl_table::laws::runs_end_in_table::<Link>();
    nl_table::laws::runs_end_in_table::<Addr>();
    nl_table::laws::runs_end_in_table::<Route>();
    nl_table::laws::runs_end_in_table::<Neigh>();
    nl_table::laws::runs_end_in_table::<Rule>();
    nl_table::laws::keys_tell_apart();
    nl_dump::laws::calls_end_in_session();
    nl_dump::laws::headline_of_calls();
    nl_dump::laws::stream_is_session();
    nl_dump::laws::one_header_for_each_item();
    row.put(1);
}
