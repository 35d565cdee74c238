//! What `role` says of a message, found from the bytes of its datagram without reading it.

ghost use Rattle.std.specs.Prelude.{◌≡◌, ◌≤◌, length};
ghost use Rattle.std.specs.Prelude.{IfSome};
ghost use Rattle.std.specs.Option.{option_copied};
ghost use Rattle.nl_attr.specs.Fixed as fixed;
ghost use Rattle.nl_frame.specs.Form.{least_body};
ghost use Rattle.nl_dump.specs.Events.{status_at, error_at, form_end, end_here, left_at};
ghost use Rattle.nl_dump.specs.Events.{belongs_in, marked_in, role_here, found_at};

use crate::dump::{Dump, End};
use crate::role::{Found, Role, is_marked};
use nl_attr::{Event, Order};
use nl_frame::{Form, message_at};
use nl_route::Verb;

/// The end by a DONE message with this payload. Its status is 0 where it has none.
fn done_at(payload: &[u8], order: Order) -> End
    ensures { result ≡ status_at order payload.now }
{
    if payload.len() < 4 {
        return End::Done(0);
    }
    End::Done(order.read_i32(payload))
}

/// The end by an ERROR message with this payload. `None` for an acknowledgement, whose code is 0.
fn failure_at(payload: &[u8], order: Order) -> Option<End>
    requires { 20 ≤ length payload.now }
    ensures { result ≡ error_at order payload.now }
{
    let code = order.read_i32(payload);
    if code == 0 {
        return None;
    }
    Some(End::Error(code))
}

/// How a message with this form and payload ends a dump. `None` where it doesn't.
#[inline(always)]
fn end_at(form: Form, payload: &[u8], order: Order) -> Option<End>
    requires { least_body form ≤ length payload.now }
    ensures { result ≡ form_end order form payload.now }
{
    match form {
        Form::Done => Some(done_at(payload, order)),
        Form::Error => failure_at(payload, order),
        Form::Overrun => Some(End::Overrun),
        Form::Noop | Form::Object(_) | Form::Get | Form::Other => None,
    }
}

/// How the message at the front of these bytes ends a dump. `None` where it doesn't, or where
/// there is no whole message.
fn find_end(left: &[u8], order: Order) -> Option<End>
    requires { length left.now ≤ fixed.LONGEST_REGION }
    ensures { result ≡ end_here order left.now }
{
    match message_at(left, 0, order) {
        Some(Ok(frame)) => end_at(frame.form, frame.payload, order),
        Some(Err(_)) | None => None,
    }
}

/// The bytes from a header's offset on. `None` where they are fewer than its 16.
#[inline(always)]
pub(crate) fn header_at(bytes: &[u8], place: u32) -> Option<&[u8]>
    ensures left { option_copied result ≡ left_at bytes.now place }
    ensures room { IfSome result
        (λ left. (16 ≤ length left.now) × (length left.now ≤ length bytes.now)) }
{
    if bytes.len() < place as usize + 16 {
        return None;
    }
    Some(&bytes[place as usize..])
}

/// Whether the header in the first 16 bytes carries the dump's sequence number and port id.
#[inline(always)]
pub(crate) fn belongs(left: &[u8], order: Order, dump: &Dump) -> bool
    requires { 16 ≤ length left.now }
    ensures { result ≡ belongs_in order dump.now left.now }
{
    order.read_u32(&left[8..]) == dump.seq && order.read_u32(&left[12..]) == dump.port
}

/// Whether the header in the first 16 bytes has the flag `NLM_F_DUMP_INTR`.
#[inline(always)]
pub(crate) fn has_mark(left: &[u8], order: Order) -> bool
    requires { 16 ≤ length left.now }
    ensures { result ≡ marked_in order left.now }
{
    is_marked(order.read_u16(&left[6..]))
}

/// What a message of this type, at the front of these bytes, is to a dump.
#[inline(always)]
fn role_in(left: &[u8], number: u16, order: Order, dump: &Dump) -> Role<()>
    requires least { 16 ≤ length left.now }
    requires size { length left.now ≤ fixed.LONGEST_REGION }
    ensures { result ≡ role_here order dump.now number left.now }
{
    if !belongs(left, order, dump) {
        return Role::Other;
    }
    if number == dump.kind.type_of(Verb::New) {
        return Role::Item(());
    }
    match find_end(left, order) {
        Some(end) => Role::End(end),
        None => Role::Other,
    }
}

/// What the message of an event is to a dump. `Role::Other` where its offset has no header.
#[inline(always)]
pub(crate) fn find(bytes: &[u8], event: Event, order: Order, dump: &Dump) -> Found
    requires { length bytes.now ≤ fixed.LONGEST_REGION }
    ensures { result ≡ found_at order dump.now bytes.now event }
{
    match header_at(bytes, event.place) {
        Some(left) => Found {
            role: role_in(left, event.number, order, dump),
            marked: has_mark(left, order),
        },
        None => Found {
            role: Role::Other,
            marked: false,
        },
    }
}
