//! Measures messages for writing: their length, and whether they are too deep or too long.

ghost use Rattle.std.specs.Prelude.{◌≡◌, ◌≤◌, ◌+◌, ◌↔◌, IsTrue, IfSome, map};
ghost use Rattle.nl_attr.specs.Fixed as fixed;
ghost use Rattle.nl_frame.specs.Form.{form_of};
ghost use Rattle.nl_frame.specs.Message.{done};
ghost use Rattle.nl_frame.specs.View.{body_view, message_view};
ghost use Rattle.nl_frame.specs.Proper.{IsMismatchedBody, IsMismatched, IsDeepBody, IsDeep};
ghost use Rattle.nl_frame.specs.Measured.{IsLenOf, IsBodyLen, IsMessageLen, IsLen};

use crate::body::{Body, Message};
use crate::form::Form;
use nl_attr::{Depth, Extent, LONGEST_REGION, align4};
use nl_route::match_object;

/// The extent of a body without attributes: `head` bytes of fields, and `tail` bytes behind.
fn plain(head: usize, tail: usize) -> Extent
    requires { head ≤ 20 }
    ensures deep { IsTrue result.deep → ⊥ }
    ensures len { IsLenOf (fixed.LONGEST_REGION + 64) ⊥ (Unit {0}) (head + tail) result.len }
{
    let len = if tail > LONGEST_REGION {
        None
    } else {
        Some(head + tail)
    };
    Extent { deep: false, len }
}

/// Measures the body of a DONE message. `None` where it has no status, but four bytes or more:
/// those would be read as one.
fn measure_done(status: &Option<i32>, tail: &[u8]) -> Option<Extent>
    ensures mismatch { (result ≡ None) ↔ IsMismatchedBody (done status.now tail.now) Form.Done }
    ensures deep { IfSome result (λ e. IsTrue e.deep → ⊥) }
    ensures len { IfSome result (λ e. IsBodyLen (done status.now tail.now) e.len) }
{
    match status {
        Some(_) => Some(plain(4, tail.len())),
        None => {
            if tail.len() < 4 {
                Some(plain(0, tail.len()))
            } else {
                None
            }
        }
    }
}

/// Measures a body in a message whose type has this form. `None` where the body is of another
/// form, or is a `Mismatch` in itself.
fn measure_body(body: &Body, form: Form, depth: Depth) -> Option<Extent>
    ensures mismatch { (result ≡ None) ↔ IsMismatchedBody (body_view body.now) form }
    ensures deep { IfSome result (λ e. IsTrue e.deep ↔ IsDeepBody (body_view body.now) depth) }
    ensures len { IfSome result (λ e. IsBodyLen (body_view body.now) e.len) }
{
    match_object!(body, Body, object => {
        if form == Form::Object(object.family()) {
            object.measure(depth)
        } else {
            None
        }
    }, {
        Body::Noop(bytes) if form == Form::Noop => Some(plain(0, bytes.len())),
        Body::Error { tail, .. } if form == Form::Error => Some(plain(20, tail.len())),
        Body::Done { status, tail } if form == Form::Done => measure_done(status, tail),
        Body::Overrun(bytes) if form == Form::Overrun => Some(plain(0, bytes.len())),
        Body::Get { tail, .. } if form == Form::Get => Some(plain(1, tail.len())),
        Body::Other(bytes) if form == Form::Other => Some(plain(0, bytes.len())),
        _ => None,
    })
}

/// Measures a message, its header and its padding included. `None` is `Mismatch`.
#[tactic(auto, using(crate::proofs::Extents::message_len))]
fn measure_message(message: &Message, depth: Depth) -> Option<Extent>
    ensures mismatch { (result ≡ None)
        ↔ IsMismatchedBody (body_view message.now.body) (form_of message.now.kind) }
    ensures deep { IfSome result
        (λ e. IsTrue e.deep ↔ IsDeepBody (body_view message.now.body) depth) }
    ensures len { IfSome result (λ e. IsMessageLen (body_view message.now.body) e.len) }
{
    let inner = measure_body(&message.body, Form::of(message.kind), depth)?;
    let len = match inner.len {
        None => None,
        Some(len) => Some(align4((16 + len) as u32) as usize),
    };
    Some(Extent {
        deep: inner.deep,
        len,
    })
}

/// Measures messages for writing. `None` is the error `Mismatch` of `write_datagram`. Else `deep`
/// says whether they are `TooDeep`, and no `len` that they are `TooLong`.
pub(crate) fn measure_messages(messages: &[Message], depth: Depth) -> Option<Extent>
    ensures mismatch { (result ≡ None) ↔ IsMismatched (map message_view messages.now) }
    ensures deep { IfSome result
        (λ e. IsTrue e.deep ↔ IsDeep (map message_view messages.now) depth) }
    ensures len { IfSome result (λ e. IsLen (map message_view messages.now) e.len) }
{
    let mut all = Extent {
        deep: false,
        len: Some(0),
    };
    for message in messages {
        all = all.and(measure_message(message, depth)?);
    }
    Some(all)
}
