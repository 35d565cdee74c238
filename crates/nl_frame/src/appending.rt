//! Appending messages to a vector that has room for them already. No function here fails or
//! allocates: `measuring` has computed the length, and has checked that the messages can be
//! written.

ghost use Rattle.std.specs.Prelude.{◌≡◌, ◌≤◌, ◌<◌, ◌+◌, ◌-◌, ◌++◌, ◌∷◌, [], length};
ghost use Rattle.std.specs.Prelude.{map, take, drop, vec_len, vec_capacity, FitsSigned};
ghost use Rattle.std.specs.Int.{w32};
ghost use Rattle.nl_attr.specs.Fixed as fixed;
ghost use Rattle.nl_attr.specs.Numbers.{aligned, num};
ghost use Rattle.nl_attr.specs.Written.{with_padding};
ghost use Rattle.nl_route.specs.Fields.{signed};
ghost use Rattle.nl_route.specs.Fields as fields;
ghost use Rattle.nl_frame.specs.Message.{error, done};
ghost use Rattle.nl_frame.specs.View.{body_view, message_view};
ghost use Rattle.nl_frame.specs.Written.{body_len, body_written};
ghost use Rattle.nl_frame.specs.Written.{message_item, written, written_len};
ghost use Rattle.nl_frame.specs.Proper.{IsRangedBody, IsRanged};
ghost use Rattle.nl_frame.specs.Measured.{IsSizedBody, IsSized};

use crate::body::{Body, Message};
use crate::header::Header;
use nl_attr::{Order, align4, append_bytes};
use nl_route::match_object;

/// Appends a signed number of four bytes, in two's complement.
fn append_signed(out: &mut Vec<u8>, order: Order, number: i32)
    requires { vec_len out.old + 4 ≤ vec_capacity out.old }
    ensures items { out.new.items ≡ out.old.items ++ fields.written order (signed number ∷ []) }
    ensures len { vec_len out.new ≡ vec_len out.old + 4 }
    ensures room { vec_capacity out.old ≤ vec_capacity out.new }
    ensures ranged { FitsSigned w32 number }
{
    append_bytes(out, &order.i32_bytes(number));
}

/// Appends the body of an ERROR message, `nlmsgerr` of netlink(7): the code, the header that is
/// answered, and what stands behind it.
fn append_error(out: &mut Vec<u8>, order: Order, code: i32, answered: Header, tail: &[u8])
    requires { vec_len out.old + (20 + length tail.now) ≤ vec_capacity out.old }
    ensures items { out.new.items
        ≡ out.old.items ++ body_written order (error code answered tail.now) }
    ensures len { vec_len out.new ≡ vec_len out.old + (20 + length tail.now) }
    ensures room { vec_capacity out.old ≤ vec_capacity out.new }
    ensures ranged { IsRangedBody (error code answered tail.now) }
{
    append_signed(out, order, code);
    answered.put(order, out);
    append_bytes(out, tail);
}

/// Appends the body of a DONE message: its status, where it has one, and what stands behind it.
fn append_done(out: &mut Vec<u8>, order: Order, status: Option<i32>, tail: &[u8])
    requires { vec_len out.old + body_len (done status tail.now) ≤ vec_capacity out.old }
    ensures items { out.new.items ≡ out.old.items ++ body_written order (done status tail.now) }
    ensures len { vec_len out.new ≡ vec_len out.old + body_len (done status tail.now) }
    ensures room { vec_capacity out.old ≤ vec_capacity out.new }
    ensures ranged { IsRangedBody (done status tail.now) }
{
    match status {
        Some(status) => {
            append_signed(out, order, status);
            append_bytes(out, tail);
        }
        None => append_bytes(out, tail),
    }
}

/// Appends the body of a GET message: its address family, `rtgen_family`, and what stands behind
/// it.
fn append_get(out: &mut Vec<u8>, family: u8, tail: &[u8])
    requires { vec_len out.old + (1 + length tail.now) ≤ vec_capacity out.old }
    ensures items { out.new.items ≡ out.old.items ++ (family ∷ tail.now) }
    ensures len { vec_len out.new ≡ vec_len out.old + (1 + length tail.now) }
    ensures room { vec_capacity out.old ≤ vec_capacity out.new }
    ensures ranged { family < 256 }
{
    append_bytes(out, &[family]);
    append_bytes(out, tail);
}

/// Appends a body.
fn append_body(body: &Body, order: Order, out: &mut Vec<u8>)
    requires sized { IsSizedBody (body_view body.now) }
    requires space { vec_len out.old + body_len (body_view body.now) ≤ vec_capacity out.old }
    ensures items { out.new.items ≡ out.old.items ++ body_written order (body_view body.now) }
    ensures len { vec_len out.new ≡ vec_len out.old + body_len (body_view body.now) }
    ensures room { vec_capacity out.old ≤ vec_capacity out.new }
    ensures ranged { IsRangedBody (body_view body.now) }
{
    match_object!(body, Body, object => object.append_body(order, out), {
        Body::Noop(bytes) => append_bytes(out, bytes),
        Body::Error {
            code,
            answered,
            tail,
        } => append_error(out, order, *code, *answered, tail),
        Body::Done { status, tail } => append_done(out, order, *status, tail),
        Body::Overrun(bytes) => append_bytes(out, bytes),
        Body::Get { family, tail } => append_get(out, *family, tail),
        Body::Other(bytes) => append_bytes(out, bytes),
    })
}

/// Ends the message that begins at `start`: writes its length into its first four bytes, and pads
/// it with zeros (`NLMSG_ALIGN`).
fn close_message(out: &mut Vec<u8>, order: Order, start: usize)
    requires begun { start + 4 ≤ vec_len out.old }
    requires short { vec_len out.old - start ≤ fixed.LONGEST_REGION + 16 }
    requires space { start + aligned (vec_len out.old - start) ≤ vec_capacity out.old }
    ensures items { out.new.items ≡ take start out.old.items
        ++ with_padding (num (vec_len out.old - start) 4 order ++ drop (start + 4) out.old.items) }
    ensures len { vec_len out.new ≡ start + aligned (vec_len out.old - start) }
    ensures room { vec_capacity out.old ≤ vec_capacity out.new }
{
    let len = out.len() - start;
    out[start..start + 4].copy_from_slice(&order.u32_bytes(len as u32));
    let _done = out.resize(start + align4(len as u32) as usize, 0);
}

/// Appends a message: its header, its body and its padding.
fn append_message(message: &Message, order: Order, out: &mut Vec<u8>)
    requires sized { IsSizedBody (body_view message.now.body) }
    requires short { body_len (body_view message.now.body) ≤ fixed.LONGEST_REGION }
    requires space { vec_len out.old + aligned (16 + body_len (body_view message.now.body))
        ≤ vec_capacity out.old }
    ensures items { out.new.items
        ≡ out.old.items ++ with_padding (message_item order (message_view message.now)) }
    ensures len { vec_len out.new
        ≡ vec_len out.old + aligned (16 + body_len (body_view message.now.body)) }
    ensures room { vec_capacity out.old ≤ vec_capacity out.new }
    ensures ranged { IsRanged (message_view message.now ∷ []) }
{
    let start = out.len();
    let header = Header {
        len: 0,
        kind: message.kind,
        flags: message.flags,
        seq: message.seq,
        port: message.port,
    };
    header.put(order, out);
    append_body(&message.body, order, out);
    close_message(out, order, start);
}

/// Appends messages in this byte order, each with its padding. It takes no memory:
/// `measure_messages` has accepted them, and `out` has room for their length.
pub(crate) fn append_messages(messages: &[Message], order: Order, out: &mut Vec<u8>)
    requires sized { IsSized (map message_view messages.now) }
    requires short { written_len (map message_view messages.now) ≤ fixed.LONGEST_REGION }
    requires space { vec_len out.old + written_len (map message_view messages.now)
        ≤ vec_capacity out.old }
    ensures items { out.new.items ≡ out.old.items ++ written order (map message_view messages.now) }
    // Each number of a message in memory is in the range of its Rust type.
    ensures ranged { IsRanged (map message_view messages.now) }
{
    for message in messages {
        append_message(message, order, out);
    }
}
