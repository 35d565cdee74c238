//! Shows recordings of rtnetlink datagrams. The rooms, each standing on those before it:
//! `streams`, where bytes come from and go to; `recordings`, lines to datagrams; `pieces` of text;
//! `names`, numbers to words; `text` and `json_lines`, what is printed of a datagram, file for file,
//! and `bytes`, its bytes beside what they are, in both; `kernel_errors`, what the kernel says of an
//! error; `runs`, the commands over a recording.
#![tactic(auto)]

mod bytes;
mod ending;
mod error;
mod json_lines;
mod kernel_errors;
pub mod laws;
mod names;
mod pieces;
mod recordings;
mod runs;
mod streams;
mod text;
mod verdict;

pub use bytes::rows::RowFormat;
pub use bytes::tape::{Tape, context_inside, tape_of};
pub use error::RunError;
pub use kernel_errors::{KernelError, error_name, kernel_error, request_name};
pub use names::kernel::{KernelName, attribute_name, message_name};
pub use nl_dump as dump;
pub use nl_frame as frame;
pub use nl_mirror as mirror;
pub use recordings::heading::{Heading, Numbers, heading_in, heading_of, is_digits};
pub use recordings::lines::{LineFault, datagrams, line_fault};
pub use recordings::unfinished::LONGEST_LINE;
pub use runs::check::{run_check, run_check_json};
pub use runs::follow::{run_follow, run_follow_bytes, run_follow_coloured, run_follow_json};
pub use runs::follow_dump::{DumpFollowed, run_follow_dump, run_follow_dump_json};
pub use runs::followed::{FollowListener, Followed};
pub use runs::mirror::{MirrorFollowed, run_mirror, run_mirror_json};
pub use runs::mirrored::MirrorSettings;
pub use runs::request::{run_request, run_request_ordered};
pub use runs::show::{
    push_datagram, push_datagram_json, run_show, run_show_coloured, run_show_json,
};
pub use runs::show_bytes::run_show_bytes;
pub use runs::table::{run_table, run_table_json, run_table_with_seed};
pub use streams::errors::IoFailed;
pub use streams::sink::{Sink, VecSink, WriteSink};
pub use streams::source::{LONGEST_INPUT, LiveSource, ReadSource, SliceSource, Source};
pub use verdict::Verdict;
