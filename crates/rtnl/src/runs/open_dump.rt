//! The state of a dump that is followed.

ghost use Rattle.std.specs.Prelude.{◌≤◌};

use nl_dump::Stream;

/// The stream of a dump that is followed, and how many items have come. They are no more than the
/// bytes received.
#[derive(Clone, Copy)]
pub(crate) struct OpenDump {
    pub(crate) stream: Stream,
    pub(crate) items: u64,
    ghost few: { items ≤ stream.received },
}
