//! Callers of a stream of `nl_dump`.

ghost use Rattle.std.specs.Prelude.{◌≡◌, ◌==◌, ◌&&◌, ◌+◌, ◌*◌, ◌≤◌, if◌then◌else◌};
ghost use Rattle.std.specs.Prelude.{List, [], take, drop, map, count_by, nat_eq, Some, None};
ghost use Rattle.std.specs.Prelude.{IfOk, OnErr};
ghost use Rattle.std.specs.Option.{option_eq};
ghost use Rattle.nl_attr.specs.Views.{first_number};
ghost use Rattle.nl_frame.specs.Layout.{Layout};
ghost use Rattle.nl_frame.specs.Message.{MessageVal};
ghost use Rattle.nl_frame.specs.View.{message_view};
ghost use Rattle.nl_dump.specs.Handed.{item_events};
ghost use Rattle.nl_dump.specs.Reading.{item_messages};
ghost use Rattle.nl_dump.specs.Streams.{StaysAnswer};
ghost use Rattle.nl_dump.specs.declared.dump.Dump.{Dump};
ghost use Rattle.nl_dump.specs.declared.dump.State.TheVariants.{Waiting};

use nl_attr::{Event, Order};
use nl_dump::{FeedError, Stream, StreamError};
use nl_frame::Message;
use nl_route::RTA_OIF;
use std::alloc::Global;

/// The bytes behind the head of an attribute, as far as the datagram has them.
fn payload_of(datagram: &[u8], event: Event) -> &[u8]
    ensures { result.now ≡ take event.len (drop (event.place + 4) datagram.now) }
{
    let behind = datagram.get(event.place as usize + 4..).unwrap_or(&[]);
    behind.get(..event.len as usize).unwrap_or(behind)
}

/// The interface that an attribute of a route names, where it is `RTA_OIF`.
fn interface_in(datagram: &[u8], event: Event, order: Order) -> Option<u32>
    ensures { result ≡ (if (event.level == 0) && (event.number == RTA_OIF)
        then first_number order 4 (Some (take event.len (drop (event.place + 4) datagram.now)))
        else None) }
{
    if event.level != 0 || event.number != RTA_OIF {
        return None;
    }
    let payload = payload_of(datagram, event);
    if payload.len() < 4 {
        return None;
    }
    Some(order.read_u32(payload))
}

/// Takes a datagram that may answer a dump of routes, and says how many of its routes leave by this
/// interface: those whose `RTA_OIF` it is. It takes no memory; room for an event in each four bytes
/// of a datagram is enough.
pub fn count_through(
    stream: &mut Stream,
    datagram: &[u8],
    interface: u32,
    events: &mut [Event],
) -> Result<usize, StreamError>
    // The datagram is these messages, and of the heads of the dump's items those are counted that
    // are an `RTA_OIF` of a route itself, and hold this number.
    ensures counted { IfOk result (λ count. (dump : Dump) × (stream.old.state ≡ Waiting dump)
        × (messages : List MessageVal) × Layout stream.old.limits.shape messages datagram.now
        × (count ≡ count_by (λ e. option_eq nat_eq
        (if (e.level == 0) && (e.number == RTA_OIF) then first_number
        stream.old.limits.shape.order 4 (Some (take e.len (drop (e.place + 4) datagram.now)))
        else None) (Some interface))
        (item_events stream.old.limits.shape dump messages datagram.now))) }
    // One that is refused leaves the dump's answer as it was.
    ensures refused { OnErr result (StaysAnswer stream.old datagram.now events.old stream.new) }
    // However it is answered, each byte received is visited once a level at most.
    ensures visits { stream.new.visits
        ≤ (stream.new.limits.shape.depth + 1) * stream.new.received }
{
    let streamed = stream.feed(datagram, events)?;
    let order = stream.standing().limits.order();
    let mut count = 0;
    for event in &events[..streamed.events] {
        if interface_in(datagram, *event, order) == Some(interface) {
            count += 1;
        }
    }
    Ok(count)
}

/// Takes a datagram that may answer a dump, and hands its entries out as messages. Whether the dump
/// has ended stands in `stream.state()`.
pub fn entries_in(
    alloc: Global,
    stream: &mut Stream,
    datagram: &[u8],
) -> Result<Vec<Message>, FeedError>
    // The datagram is these messages, and those of them are handed out that are the dump's items.
    ensures entries { IfOk result (λ entries. (dump : Dump)
        × (stream.old.state ≡ Waiting dump)
        × (messages : List MessageVal) × Layout stream.old.limits.shape messages datagram.now
        × (map message_view entries.items ≡ item_messages dump messages)) }
    // One that is refused leaves the dump's answer as it was.
    ensures refused { OnErr result (StaysAnswer stream.old datagram.now [] stream.new) }
    // However it is answered, each byte received is visited once a level at most.
    ensures visits { stream.new.visits
        ≤ (stream.new.limits.shape.depth + 1) * stream.new.received }
{
    let read = stream.read(alloc, datagram)?;
    Ok(read.items)
}
