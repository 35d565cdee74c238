//! The heads of a datagram, up to its end or its first fault.

ghost use Rattle.std.specs.Prelude.{◌≡◌, IfOk};
ghost use Rattle.rtnl.specs.Shown.{Answer, Answers};
ghost use Rattle.rtnl.specs.Tape.{AreEvents, IsAboutItsHead, IsRefusalOf, body_context};
ghost use Rattle.rtnl.specs.Tape.{context_in, refusal_in};

use crate::names::attributes::inner;
use nl_attr::{AttrFlags, Ctx, Event, SORT_HOPS, SORT_LIST, SORT_MESSAGE, SORT_NEXT_HOP};
use nl_frame::{Counted, Form, Limits, ScanError, tape_datagram};
use std::alloc::{AllocError, Global};

/// The heads of a datagram, and why it is refused.
#[derive(Drop)]
pub struct Tape {
    /// The event of each head up to the first fault, in the order of their offsets. It is empty
    /// where the datagram is above the datagram limit.
    pub events: Vec<Event>,
    /// Why the datagram is refused, if it is.
    pub refusal: Option<ScanError>,
}

/// Fills the buffer before the scan. No event has this sort.
const BLANK: Event = Event {
    place: 0,
    len: 0,
    number: 0,
    level: 0,
    sort: 255,
    nested: false,
    net: false,
};

/// Why a scan refused a datagram.
fn refusal(scanned: Result<(), ScanError>) -> Option<ScanError>
    ensures { result ≡ refusal_in scanned }
{
    match scanned {
        Ok(()) => None,
        Err(error) => Some(error),
    }
}

/// Scans a datagram, and keeps the event of each head. It fails only where memory runs out.
pub fn tape_of(alloc: Global, bytes: &[u8], limits: &Limits) -> Result<Tape, AllocError>
    // The refusal is that of the datagram's answer under these limits.
    ensures refusal { IfOk result (λ tape. (answer : Answer) × Answers limits.now bytes.now answer
        × IsRefusalOf answer tape.refusal) }
    // The events are those of the heads up to the first fault, all of them and in their order.
    ensures events { IfOk result (λ tape. AreEvents limits.now bytes.now tape.events.items) }
    // A fault is that of the head that breaks its rule.
    ensures head { IfOk result (λ tape. IsAboutItsHead limits.now bytes.now tape.refusal) }
{
    // A head has at least four bytes, so there is room for all events.
    let mut events = vec![in alloc; BLANK; bytes.len() / 4 + 1]?;
    let Counted { scan, count } = tape_datagram(bytes, limits, events.as_mut_slice());
    let refusal = refusal(scan.into_result());
    events.truncate(count);
    Ok(Tape { events, refusal })
}

/// The context of the attributes in a body of this form.
fn context_of_body(form: Form) -> Ctx
    ensures { result ≡ body_context form }
{
    match form {
        Form::Object(family) => family.row().context,
        Form::Noop | Form::Error | Form::Done | Form::Overrun | Form::Get | Form::Other => {
            Ctx::Plain
        }
    }
}

/// The context of the attributes inside an event's item, which itself stands in the context
/// `outer`. It is `Ctx::Plain` where the item holds none.
pub fn context_inside(event: Event, outer: Ctx) -> Ctx
    ensures { result ≡ context_in event outer }
{
    match event.sort {
        SORT_MESSAGE => context_of_body(Form::of(event.number)),
        SORT_LIST => {
            let flags = AttrFlags {
                nested: event.nested,
                net: event.net,
            };
            inner(outer, event.number, flags)
        }
        SORT_HOPS | SORT_NEXT_HOP => Ctx::Route,
        _ => Ctx::Plain,
    }
}
