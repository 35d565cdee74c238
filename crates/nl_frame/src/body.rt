//! Messages in memory, and how the body of one is read.

ghost use Rattle.std.specs.Prelude.{◌≡◌, ◌≤◌, ◌+◌, ◌*◌, length, drop};
ghost use Rattle.std.specs.Prelude.{slice_index, IfSome, MatchOption};
ghost use Rattle.nl_attr.specs.Fixed as fixed;
ghost use Rattle.nl_attr.specs.Outcomes.{HasOutcome};
ghost use Rattle.nl_route.specs.Families.{head_size};
ghost use Rattle.nl_frame.specs.Form.{least_body};
ghost use Rattle.nl_frame.specs.Header.{header_of};
ghost use Rattle.nl_frame.specs.Message.{error, get};
ghost use Rattle.nl_frame.specs.View.{body_view};
ghost use Rattle.nl_frame.specs.Reading.{body_at, object_body_at, done_at, signed_of};

use crate::form::Form;
use crate::header::Header;
use crate::limits::Limits;
use nl_attr::{ListError, Order, Tally};
use nl_route::{Addr, Family, Link, Neigh, Route, Rule, read_object};
use std::alloc::Global;

/// The body of a message, by its type (netlink(7), rtnetlink(7)). A `tail` is the bytes behind the
/// fields that are decoded.
#[derive(Debug, Drop, PartialEq, Eq)]
pub enum Body {
    /// NLMSG_NOOP: its payload.
    Noop(Vec<u8>),
    /// NLMSG_ERROR: its code, a negative errno or 0 for an acknowledgement; the header that it
    /// answers; and the rest.
    Error {
        code: i32,
        answered: Header,
        tail: Vec<u8>,
    },
    /// NLMSG_DONE: its status, `None` exactly where the payload has fewer than 4 bytes; and the
    /// rest.
    Done {
        status: Option<i32>,
        tail: Vec<u8>,
    },
    /// NLMSG_OVERRUN: its payload.
    Overrun(Vec<u8>),
    Link(Link),
    Addr(Addr),
    Route(Route),
    Neigh(Neigh),
    Rule(Rule),
    /// GET of any family: its address family, `rtgen_family`, and the rest as it stands.
    Get {
        family: u8,
        tail: Vec<u8>,
    },
    /// Any other type: its payload.
    Other(Vec<u8>),
}

/// A message: the fields of `nlmsghdr` but for the length, and the body. `port` is `nlmsg_pid`.
#[derive(Debug, Drop, PartialEq, Eq)]
pub struct Message {
    pub kind: u16,
    pub flags: u16,
    pub seq: u32,
    pub port: u32,
    pub body: Body,
}

/// The result for a body without attributes, which visits no bytes. `None` is `Memory`.
fn plain<T: Drop>(value: Option<T>) -> Tally<T, ListError>
    ensures none { result.visits ≡ 0 }
    ensures value { MatchOption value (result.result ≡ Err ListError.Memory)
        (λ v. result.result ≡ Ok v) }
{
    match value {
        Some(value) => Tally {
            result: Ok(value),
            visits: 0,
        },
        None => Tally {
            result: Err(ListError::Memory),
            visits: 0,
        },
    }
}

/// Reads the body of a DONE message. `None` where an allocation fails.
fn read_done(alloc: Global, bytes: &[u8], order: Order) -> Option<Body>
    ensures { IfSome result (λ b. body_view b ≡ done_at order bytes.now) }
{
    if bytes.len() < 4 {
        return Some(Body::Done {
            status: None,
            tail: Vec::from_slice(alloc, bytes).ok()?,
        });
    }
    Some(Body::Done {
        status: Some(order.read_i32(bytes)),
        tail: Vec::from_slice(alloc, &bytes[4..]).ok()?,
    })
}

/// Reads the body of an ERROR message. `None` where an allocation fails.
fn read_error(alloc: Global, bytes: &[u8], order: Order) -> Option<Body>
    requires { 20 ≤ length bytes.now }
    ensures { IfSome result (λ b. body_view b ≡ error (signed_of order bytes.now)
        (header_of order (drop 4 bytes.now)) (drop 20 bytes.now)) }
{
    Some(Body::Error {
        code: order.read_i32(bytes),
        answered: Header::read(&bytes[4..], order),
        tail: Vec::from_slice(alloc, &bytes[20..]).ok()?,
    })
}

/// Reads the body of a GET message. `None` where an allocation fails.
fn read_get(alloc: Global, bytes: &[u8]) -> Option<Body>
    requires { 1 ≤ length bytes.now }
    ensures { IfSome result (λ b. body_view b ≡ get (slice_index bytes.now 0) (drop 1 bytes.now)) }
{
    Some(Body::Get {
        family: bytes[0],
        tail: Vec::from_slice(alloc, &bytes[1..]).ok()?,
    })
}

/// Reads the body of a family's message: its header and its attributes.
fn read_object(
    alloc: Global,
    bytes: &[u8],
    family: Family,
    base: u32,
    limits: &Limits,
) -> Tally<Body, ListError>
    requires least { head_size family ≤ length bytes.now }
    requires size { length bytes.now ≤ fixed.LONGEST_REGION }
    requires place { base + length bytes.now ≤ fixed.FARTHEST_END }
    ensures outcome { HasOutcome body_view result
        (object_body_at limits.now.shape family base bytes.now) }
    ensures bound { result.visits ≤ (limits.now.shape.depth + 1) * length bytes.now }
{
    let depth = limits.depth();
    let order = limits.order();
    read_object!(family, Body, (alloc, bytes, base, depth, order))
}

impl Body {
    /// Reads the body of this form in a payload whose first byte has this offset.
    pub(crate) fn read(
        alloc: Global,
        bytes: &[u8],
        form: Form,
        base: u32,
        limits: &Limits,
    ) -> Tally<Body, ListError>
        requires least { least_body form ≤ length bytes.now }
        requires size { length bytes.now ≤ fixed.LONGEST_REGION }
        requires place { base + length bytes.now ≤ fixed.FARTHEST_END }
        ensures outcome { HasOutcome body_view result
            (body_at limits.now.shape form base bytes.now) }
        ensures bound { result.visits ≤ (limits.now.shape.depth + 1) * length bytes.now }
    {
        let order = limits.order();
        match form {
            Form::Noop => plain(Vec::from_slice(alloc, bytes).ok().map(Body::Noop)),
            Form::Error => plain(read_error(alloc, bytes, order)),
            Form::Done => plain(read_done(alloc, bytes, order)),
            Form::Overrun => plain(Vec::from_slice(alloc, bytes).ok().map(Body::Overrun)),
            Form::Object(family) => read_object(alloc, bytes, family, base, limits),
            Form::Get => plain(read_get(alloc, bytes)),
            Form::Other => plain(Vec::from_slice(alloc, bytes).ok().map(Body::Other)),
        }
    }
}
