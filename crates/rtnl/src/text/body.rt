//! The printed text of a message's body.

ghost use Rattle.std.specs.Prelude.{◌≡◌, ◌++◌, OnOk};
ghost use Rattle.nl_frame.specs.View.{body_view};
ghost use Rattle.rtnl.specs.Messages.{body_text, bytes_line, done_line};
ghost use Rattle.rtnl.specs.Messages.{error_line, get_line, tail_end};

use crate::pieces::segment::Segment;
use crate::pieces::{push, push_hex};
use crate::text::heads::ItemLines;
use nl_attr::Order;
use nl_frame::{Body, Header};
use nl_route::match_object;
use std::alloc::{AllocError, Global};

/// Writes the bytes behind a fixed part, which end the line.
fn push_tail(out: &mut Vec<u8>, tail: &[u8]) -> Result<(), AllocError>
    ensures { OnOk result (out.new.items ≡ out.old.items ++ tail_end tail.now) }
{
    push(out, " tail ")?;
    push_hex(out, tail)?;
    push(out, "\n")
}

#[tactic(auto, unfolding(crate::specs::Messages::error_line))]
fn push_error(
    out: &mut Vec<u8>,
    code: i32,
    answered: &Header,
    tail: &[u8],
) -> Result<(), AllocError>
    ensures { OnOk result (out.new.items ≡ out.old.items ++ error_line code answered.now tail.now) }
{
    let mut front = Segment::new();
    front.put_field(" port ", answered.port as u64);
    front.put_field(" seq ", answered.seq as u64);
    front.put_hex4(answered.flags);
    front.put(" flags 0x");
    front.put_field(" type ", answered.kind as u64);
    front.put_field(" answers len ", answered.len as u64);
    front.put_signed(code.into());
    front.put("  error code ");
    front.push_to(out)?;
    push_tail(out, tail)
}

#[tactic(auto, unfolding(crate::specs::Messages::done_line))]
fn push_done(out: &mut Vec<u8>, status: i32, tail: &[u8]) -> Result<(), AllocError>
    ensures { OnOk result (out.new.items ≡ out.old.items ++ done_line status tail.now) }
{
    let mut front = Segment::new();
    front.put_signed(status.into());
    front.put("  done status ");
    front.push_to(out)?;
    push_tail(out, tail)
}

#[tactic(auto, unfolding(crate::specs::Messages::get_line))]
fn push_get(out: &mut Vec<u8>, family: u8, tail: &[u8]) -> Result<(), AllocError>
    ensures { OnOk result (out.new.items ≡ out.old.items ++ get_line family tail.now) }
{
    let mut front = Segment::new();
    front.put_field("  get family ", family as u64);
    front.push_to(out)?;
    push_tail(out, tail)
}

#[tactic(auto, unfolding(crate::specs::Messages::bytes_line))]
fn push_bytes(out: &mut Vec<u8>, payload: &[u8]) -> Result<(), AllocError>
    ensures { OnOk result (out.new.items ≡ out.old.items ++ bytes_line payload.now) }
{
    push(out, "  bytes ")?;
    push_hex(out, payload)?;
    push(out, "\n")
}

/// Writes the line of a body, and the lines of its attributes.
#[tactic(auto, unfolding(crate::specs::Messages::body_text), using(crate::proofs::Sets::joins))]
pub(crate) fn push_body(
    alloc: Global,
    out: &mut Vec<u8>,
    order: Order,
    body: &Body,
) -> Result<(), AllocError>
    ensures { OnOk result (out.new.items ≡ out.old.items ++ body_text order (body_view body.now)) }
{
    match_object!(body, Body, object => object.push(alloc, out, order), {
        Body::Noop(payload) | Body::Overrun(payload) | Body::Other(payload) => {
            push_bytes(out, payload)
        }
        Body::Error {
            code,
            answered,
            tail,
        } => push_error(out, *code, answered, tail),
        Body::Done { status, tail } => push_done(out, status.unwrap_or(0), tail),
        Body::Get { family, tail } => push_get(out, *family, tail),
    })
}
