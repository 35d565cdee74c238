//! Sources and sinks of bytes.

pub(crate) mod errors;
pub(crate) mod sink;
pub(crate) mod source;
