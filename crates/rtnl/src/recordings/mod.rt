//! The datagrams of the lines of a recording.

pub(crate) mod digits;
pub(crate) mod heading;
pub(crate) mod lines;
pub(crate) mod recording;
pub(crate) mod unfinished;
