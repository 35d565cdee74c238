//! Numbers to words: what text and JSON print alike.

pub(crate) mod attributes;
pub(crate) mod families;
pub(crate) mod flags;
pub(crate) mod further;
pub(crate) mod kernel;
pub(crate) mod named;
pub(crate) mod reasons;
pub(crate) mod types;
pub(crate) mod values;
