//! The trait of messages that put themselves into a builder.

ghost use Rattle.std.specs.Prelude.{◌≡◌, ◌≤◌, length, OnOk};
ghost use Rattle.nl_frame.specs.Building.{answer, order_of};
ghost use Rattle.nl_frame.specs.Calls.{and_message, with_message};
ghost use Rattle.nl_frame.specs.Draft.{Draft, Holds};
ghost use Rattle.nl_frame.specs.Limits.{Bounds};
ghost use Rattle.nl_frame.specs.Parts.{over};

use crate::building::Builder;
use crate::building::refusal::BuildError;

/// A message that puts itself into a builder, as each request of `nl_request` does.
pub trait PutMessage {
    ghost use Rattle.nl_attr.specs.declared.order.Order.{Order};
    ghost use Rattle.nl_frame.specs.Message.{MessageVal};

    // The message that it puts, in this byte order.
    ghost message: { Self → Order → MessageVal };

    /// Puts it into the builder's slice, in the builder's byte order, by calls that put its parts.
    ///
    /// The error is the first of these calls, or an earlier one. What was accepted before it
    /// stays.
    fn put(&self, builder: &mut Builder, out: &mut [u8]) -> Result<(), BuildError>
        requires fits { builder.old.len ≤ length out.old }
        ensures built { over builder.new out.new ≡ with_message (over builder.old out.old)
            (message self.now (order_of (over builder.old out.old))) }
        ensures answer { result ≡ answer builder.new.refusal }
        // The builder holds what was put before, and this message behind it.
        ensures puts { OnOk result ((d : Draft) (L : Bounds) → Holds L (over builder.old out.old) d
            → Holds L (over builder.new out.new) (and_message d
            (message self.now (order_of (over builder.old out.old))))) }
        ensures fits { builder.new.len ≤ length out.new };
}
