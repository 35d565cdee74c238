//! Whose the messages of a recording are, and of which kinds.

ghost use Rattle.std.specs.Prelude.{◌≡◌, IfSome};
ghost use Rattle.nl_route.specs.Families.{row};

use nl_attr::{LONGEST_REGION, SORT_MESSAGE};
use rtnl::dump::{Dump, Kind};
use rtnl::frame::{Limits, message_at};
use rtnl::{Numbers, Tape, datagrams, tape_of};
use std::alloc::{AllocError, Global};

/// What the header of a message says of whose it is.
#[derive(Clone, Copy)]
pub(crate) struct Sender {
    pub numbers: Numbers,
    /// The type of the message.
    pub number: u16,
}

/// The same of the message whose header stands at this place of a datagram.
fn sender_at(datagram: &[u8], place: u32, limits: &Limits) -> Option<Sender> {
    if datagram.len() > LONGEST_REGION as usize {
        return None;
    }
    match message_at(datagram, place, limits.order())? {
        Ok(frame) => Some(Sender {
            numbers: Numbers {
                seq: frame.header.seq,
                port: frame.header.port,
            },
            number: frame.header.kind,
        }),
        Err(_) => None,
    }
}

/// The same of each message of the datagrams that are taken.
pub(crate) fn senders_of(
    alloc: Global,
    found: &[Vec<u8>],
    limits: &Limits,
) -> Result<Vec<Sender>, AllocError> {
    let mut senders = Vec::new(alloc);
    for datagram in found {
        let Tape { events, refusal } = tape_of(alloc, datagram, limits)?;
        if refusal.is_some() {
            continue;
        }
        for event in events.iter().filter(|event| event.sort == SORT_MESSAGE) {
            if let Some(sender) = sender_at(datagram, event.place, limits) {
                senders.push(sender)?;
            }
        }
    }
    Ok(senders)
}

/// The kind of the object that a message brings, where it has the numbers of this dump.
pub(crate) fn kind_answered(sender: Sender, dump: Dump) -> Option<Kind>
    ensures whose { IfSome result (λ _. (sender.numbers.seq ≡ dump.seq)
        × (sender.numbers.port ≡ dump.port)) }
    ensures kind { IfSome result (λ kind. (row kind).new ≡ sender.number) }
{
    let Dump { seq, port, .. } = dump;
    if sender.numbers != (Numbers { seq, port }) {
        return None;
    }
    let mut kinds = Kind::ALL.into_iter();
    kinds.find(|kind| kind.row().new_type == sender.number)
}

/// Whether the first object that a recording brings in answer to a dump is of another kind. It is
/// read no further, and in most an object stands in the first datagram. The recording was read
/// before, so only memory can be refused.
pub(crate) fn begins_otherwise(
    alloc: Global,
    input: &[u8],
    dump: Dump,
    limits: &Limits,
) -> Result<bool, AllocError> {
    for line in input.split(|byte| *byte == b'\n') {
        let Ok(found) = datagrams(alloc, line) else {
            return Err(AllocError);
        };
        let senders = senders_of(alloc, found.as_slice(), limits)?;
        let first = senders
            .iter()
            .find_map(|sender| kind_answered(*sender, dump));
        if let Some(kind) = first {
            return Ok(kind != dump.kind);
        }
    }
    Ok(false)
}
