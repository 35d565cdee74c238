//! Finds the message at the front of bytes, or at an offset of a datagram, without reading it.

ghost use Rattle.std.specs.Prelude.{◌≡◌, ◌≤◌, length, min, Ok};
ghost use Rattle.nl_attr.specs.Fixed as fixed;
ghost use Rattle.nl_attr.specs.Numbers.{aligned};
ghost use Rattle.nl_attr.specs.Walk.{HeadIs};
ghost use Rattle.nl_frame.specs.Front.{GivesFrame, StandsAt, form_at};

use crate::form::Form;
use crate::header::Header;
use nl_attr::{Fault, Order, Reason, align4};

/// A message as it lies in its datagram: its header is decoded, its body is not.
#[derive(Clone, Copy, Debug)]
pub struct Frame<'a> {
    /// Its header. The length in it is at least 16, and within the datagram.
    pub header: Header,
    /// The form of its body, by its type.
    pub form: Form,
    /// How many bytes it occupies: header, payload, and the padding as far as it is there.
    pub span: u32,
    /// The bytes of its body, at least `form.least()` many.
    pub payload: &'a [u8],
    /// The bytes behind the message and its padding, to the end of the datagram.
    pub rest: &'a [u8],
}

/// The length field of the header at the front, in bytes. Or the rule that breaks: `Cut` or
/// `BadLength`.
pub(crate) fn frame_len(left: &[u8], order: Order) -> Result<usize, Reason>
    ensures { HeadIs order 16 4 left.now result }
{
    if left.len() < 16 {
        return Err(Reason::Cut);
    }
    let len = order.read_u32(left) as usize;
    if len < 16 || left.len() < len {
        return Err(Reason::BadLength);
    }
    Ok(len)
}

/// How many bytes a message of this length occupies, its padding as far as it is there.
pub(crate) fn frame_span(left: &[u8], len: usize) -> u32
    requires len { len ≤ length left.now }
    requires size { length left.now ≤ fixed.LONGEST_REGION }
    ensures { result ≡ min (aligned len) (length left.now) }
{
    align4(len as u32).min(left.len() as u32)
}

/// The form of the body of the message at the front, by its type.
#[inline(always)]
pub(crate) fn front_form(left: &[u8], order: Order) -> Form
    requires { 16 ≤ length left.now }
    ensures { result ≡ form_at order left.now }
{
    Form::of(order.read_u16(&left[4..]))
}

/// The message of `len` bytes at the front, with a body of this form. Or `ShortBody`.
#[inline(always)]
pub(crate) fn front_of(
    left: &[u8],
    len: usize,
    form: Form,
    order: Order,
) -> Result<Frame<'_>, Reason>
    requires size { length left.now ≤ fixed.LONGEST_REGION }
    requires len { HeadIs order 16 4 left.now (Ok len) }
    requires form { form ≡ form_at order left.now }
    ensures { GivesFrame order left.now result }
{
    let header = Header::read(left, order);
    let payload = &left[16..len];
    if payload.len() < form.least() {
        return Err(Reason::ShortBody);
    }
    let span = frame_span(left, len);
    Ok(Frame {
        header,
        form,
        span,
        payload,
        rest: &left[span as usize..],
    })
}

/// The message at the front. Or the first rule that its header breaks.
#[inline(always)]
pub(crate) fn front(left: &[u8], order: Order) -> Result<Frame<'_>, Reason>
    requires { length left.now ≤ fixed.LONGEST_REGION }
    ensures { GivesFrame order left.now result }
{
    let len = frame_len(left, order)?;
    front_of(left, len, front_form(left, order), order)
}

/// The message whose header is at this offset of a datagram. `None` where the datagram has no byte
/// there, and a `Fault` where no whole message is. It takes no memory, and reads no byte before.
///
/// Offsets count from the datagram's start, also in a `Fault`. The next message is at the offset
/// plus `span`. Only the least length of the body is checked. That a walk from the datagram's
/// start comes to the offset is not.
pub fn message_at(bytes: &[u8], place: u32, order: Order) -> Option<Result<Frame<'_>, Fault>>
    requires { length bytes.now ≤ fixed.LONGEST_REGION }
    ensures { StandsAt order bytes.now place result }
{
    if bytes.len() <= place as usize {
        return None;
    }
    Some(front(&bytes[place as usize..], order).map_err(|reason| Fault { place, reason }))
}
