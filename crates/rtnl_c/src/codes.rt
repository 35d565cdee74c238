//! The error numbers that come from this crate, beside those of the libraries: each is one of
//! `enum rtnlc_code` in include/rtnlc.h.

/// The bytes are more than `LONGEST_REGION`, 1,048,576.
pub(crate) const TOO_LARGE: u8 = 6;

/// A session or a mirror is made already.
pub(crate) const BUSY: u8 = 9;

/// A mirror's dump had this sequence number, or a later one.
pub(crate) const USED_SEQ: u8 = 10;

/// An allocation failed.
pub(crate) const NO_MEMORY: u8 = 13;

/// The buffer has less room than the answer needs.
pub(crate) const NO_ROOM: u8 = 17;

/// The struct holds no stream's state.
pub(crate) const NO_STREAM: u8 = 18;

/// A message type is of no family.
pub(crate) const NO_KIND: u8 = 19;

/// The handle has no session.
pub(crate) const NO_SESSION: u8 = 20;

/// The struct holds no builder's state.
pub(crate) const NO_BUILDER: u8 = 23;

/// The handle has no mirror.
pub(crate) const NO_MIRROR: u8 = 25;

/// There is nothing there: at or behind the end of the bytes, behind the last entry, or under a
/// key.
pub(crate) const END: u8 = 255;
