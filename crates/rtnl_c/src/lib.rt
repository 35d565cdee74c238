//! The C library: each `rtnlc_` function of include/rtnlc.h, as an export with its contract. The
//! header says what a caller in C owes. A `code` is a number of the header's `enum rtnlc_code`, 0
//! for success. `codes` has those that no library below has.
//!
//! - Without memory: `scan`, `broken`, `cursors`, `find`, `numbers`, `names`,
//!   `dump_request`, `change_requests`. With memory while they run: `check` and `show`.
//! - Sessions: `session`, `tables`, `handle`. Mirrors: `mirror`, `hearing`, `mirrored`,
//!   `mirror_handle`. Both: `entry`, `loose`.
//! - Streams and builders, which C stores as plain structs: `stream` and `building`.
//! - Structs of several calls: `options`, `put`, `fed`, `status`. `kinds` finds a message type's
//!   family.
#![tactic(auto)]

mod broken;
mod building;
mod change_requests;
mod check;
mod codes;
mod cursors;
mod dump_request;
mod entry;
mod fed;
mod find;
mod handle;
mod hearing;
mod kinds;
mod loose;
mod mirror;
mod mirror_handle;
mod mirrored;
mod names;
mod numbers;
mod options;
mod put;
mod scan;
mod session;
mod show;
mod status;
mod stream;
mod tables;
