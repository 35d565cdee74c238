//! Describes the message header that breaks a rule, at which a scan ends.

ghost use Rattle.std.specs.Prelude.{◌≡◌, ◌≤◌, length};
ghost use Rattle.nl_attr.specs.Fixed as fixed;
ghost use Rattle.nl_frame.specs.Broken.{message_facts};

use crate::header::Header;
use nl_attr::{BrokenHead, Fault, HeadKind, Order, Reason};

/// Describes the header at the front, which breaks the rule `reason`. A scan calls this once, at
/// its end. It isn't inlined: that keeps registers free in the loop.
#[inline(never)]
pub(crate) fn header_at_fault(left: &[u8], place: u32, reason: Reason, order: Order) -> BrokenHead
    requires { length left.now ≤ fixed.LONGEST_REGION }
    ensures { result ≡ message_facts order reason (record { place = place; left = left.now }) }
{
    let (number, len) = if left.len() < 16 {
        (None, None)
    } else {
        let header = Header::read(left, order);
        (Some(header.kind), Some(header.len))
    };
    BrokenHead {
        fault: Fault { place, reason },
        kind: HeadKind::Message,
        level: 0,
        number,
        len,
        left: left.len() as u32,
    }
}
