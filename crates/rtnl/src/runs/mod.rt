//! The commands over a recording, and the request that begins a dump. Start at `run_each` for a
//! whole recording, and at `follow_lines::follow` for a live one.
//!
//! Over a whole recording, which is printed once it has come to its end:
//! - `per_datagram`: what a command finds of one datagram, and the text of that;
//! - `run_each`: the run of such a command; `output`: the text that it has made so far;
//! - `run`: the run of a command that needs all datagrams at once;
//! - `show`, `show_bytes`, `check`, `table`: the commands.
//!
//! Over a live recording, of which each line is printed as it ends:
//! - `per_line`: what a command finds of one line, and the text of that;
//! - `follow_lines`: the run of such a command; `followed`: its work on one line, the listener;
//! - `follow`, `follow_dump`: the commands; `open_dump`: the state of a dump that is followed.
//!
//! The mirror, which is a command over a live recording:
//! - `mirror`: its runs; `mirrored`: its settings and its state; `steps`: what a line tells it;
//! - `mirroring`: the report of its tables; `mirror_format`: that report as text and as JSON.
//!
//! For several of these: `report`, a dump's report as text and as JSON; `entries`, its table.
//! `request` writes the request that begins a dump.

pub(crate) mod check;
mod entries;
pub(crate) mod follow;
pub(crate) mod follow_dump;
pub(crate) mod follow_lines;
pub(crate) mod followed;
pub(crate) mod mirror;
mod mirror_format;
pub(crate) mod mirrored;
mod mirroring;
mod open_dump;
mod output;
pub(crate) mod per_datagram;
pub(crate) mod per_line;
pub(crate) mod report;
pub(crate) mod request;
pub(crate) mod run;
pub(crate) mod run_each;
pub(crate) mod show;
pub(crate) mod show_bytes;
mod steps;
pub(crate) mod table;
