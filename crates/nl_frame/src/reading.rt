//! Reading a datagram into messages in memory.

ghost use Rattle.std.specs.Prelude.{◌≡◌, ◌≤◌, ◌<◌, ◌+◌, ◌*◌, ◌↔◌, ◌++◌, ◌∷◌, []};
ghost use Rattle.std.specs.Prelude.{IsTrue, length, map, List, IfOk, IfErr, Err};
ghost use Rattle.nl_attr.specs.Fixed as fixed;
ghost use Rattle.nl_attr.specs.Reading.{map_value};
ghost use Rattle.nl_attr.specs.Outcomes.{HasOutcome};
ghost use Rattle.nl_frame.specs.Form.{least_body};
ghost use Rattle.nl_frame.specs.Reading.{message_of, body_at, messages_of};
ghost use Rattle.nl_frame.specs.View.{message_view};
ghost use Rattle.nl_frame.specs.Message.{MessageVal};
ghost use Rattle.nl_frame.specs.Outcomes.{read_code, read_error};
ghost use Rattle.nl_frame.specs.declared.reading.ReadError.TheVariants.{Memory};

use crate::body::{Body, Message};
use crate::front::{Frame, frame_len, front};
use crate::header::Header;
use crate::limits::Limits;
use nl_attr::{Fault, ListError, Order, Tally};
use std::alloc::{AllocError, AllocFailed, Global};
use thiserror::Error;

/// The error of reading a datagram.
#[derive(Clone, Copy, Debug, PartialEq, Eq, Hash, Error)]
pub enum ReadError {
    /// The datagram is longer than the datagram limit. No byte of it was read.
    #[error("too large")]
    TooLarge,
    /// A header breaks a rule. It is the first one that does.
    #[error("{0}")]
    Layout(Fault),
    /// An allocation failed. What stands behind it in the datagram isn't validated then.
    #[error("out of memory")]
    Memory,
}

impl ReadError {
    /// The error's number: that of the broken rule, 6 for `TooLarge`, or 13 for `Memory`.
    pub fn code(self) -> u8
        ensures { result ≡ read_code self }
    {
        match self {
            ReadError::Layout(fault) => fault.code(),
            ReadError::TooLarge => 6,
            ReadError::Memory => 13,
        }
    }
}

impl From<ListError> for ReadError {
    ghost from_gives = { λ refusal e. e ≡ read_error refusal };

    fn from(refusal: ListError) -> ReadError {
        match refusal {
            ListError::Layout(fault) => ReadError::Layout(fault),
            ListError::Memory => ReadError::Memory,
        }
    }
}

impl From<AllocError> for ReadError {
    ghost from_gives = { λ _ e. e ≡ Memory };

    fn from(_error: AllocError) -> ReadError {
        ReadError::Memory
    }
}

impl<T: Drop> From<AllocFailed<T>> for ReadError {
    ghost from_gives = { λ _ e. e ≡ Memory };

    fn from(_error: AllocFailed<T>) -> ReadError {
        ReadError::Memory
    }
}

/// Reads the body of a frame, and makes the message.
fn read_message(
    alloc: Global,
    frame: &Frame,
    place: u32,
    limits: &Limits,
) -> Tally<Message, ListError>
    requires least { least_body frame.now.form ≤ length frame.now.payload.now }
    requires size { length frame.now.payload.now ≤ fixed.LONGEST_REGION }
    requires place { place + 16 + length frame.now.payload.now ≤ fixed.FARTHEST_END }
    ensures outcome { HasOutcome message_view result (map_value (message_of frame.now.header)
        (body_at limits.now.shape frame.now.form (place + 16) frame.now.payload.now)) }
    ensures bound { result.visits ≤ (limits.now.shape.depth + 1) * length frame.now.payload.now }
{
    let Header {
        kind,
        flags,
        seq,
        port,
        ..
    } = frame.header;
    Body::read(alloc, frame.payload, frame.form, place + 16, limits).map(|body| Message {
        kind,
        flags,
        seq,
        port,
        body,
    })
}

/// Adds a message to a list. False where an allocation fails.
fn keep(list: &mut Vec<Message>, message: Message) -> bool
    ensures { IsTrue result → list.new.items ≡ list.old.items ++ message ∷ [] }
{
    list.push(message).is_ok()
}

/// A guess of how many messages there are: as many as there would be if all were as long as the
/// first. In a dump they mostly are.
fn first_room(bytes: &[u8], order: Order) -> usize
    ensures { 16 * result ≤ length bytes.now }
{
    match frame_len(bytes, order) {
        Ok(len) => bytes.len() / len,
        Err(_) => 0,
    }
}

/// Reads the messages of a datagram that is within its limit.
fn read_messages(alloc: Global, bytes: &[u8], limits: &Limits) -> Tally<Vec<Message>, ListError>
    requires { length bytes.now ≤ fixed.LONGEST_REGION }
    ensures outcome { HasOutcome
        (λ v. map message_view v.items) result (messages_of limits.now.shape 0 bytes.now) }
    ensures bound { result.visits ≤ (limits.now.shape.depth + 1) * length bytes.now }
{
    // This makes the range of the depth known to the prover, so that `visits` can't overflow.
    let _limit = limits.depth();
    let order = limits.order();
    let mut list = match Vec::with_capacity(alloc, first_room(bytes, order)) {
        Ok(list) => list,
        Err(AllocError) => {
            return Tally {
                result: Err(ListError::Memory),
                visits: 0,
            };
        }
    };
    let mut visits = 0u64;
    let mut place = 0u32;
    let mut left = bytes;
    while !left.is_empty() {
        let frame = match front(left, order) {
            Ok(frame) => frame,
            Err(reason) => {
                return Tally {
                    result: Err(ListError::Layout(Fault { place, reason })),
                    visits,
                };
            }
        };
        let Tally {
            result,
            visits: inside,
        } = read_message(alloc, &frame, place, limits);
        visits += inside;
        match result {
            Ok(message) => {
                if !keep(&mut list, message) {
                    return Tally {
                        result: Err(ListError::Memory),
                        visits,
                    };
                }
            }
            Err(error) => {
                return Tally {
                    result: Err(error),
                    visits,
                };
            }
        }
        place += frame.span;
        left = frame.rest;
    }
    Tally {
        result: Ok(list),
        visits,
    }
}

ghost use Rattle.nl_frame.specs.Layout.{Layout};
ghost use Rattle.nl_frame.specs.Outcomes.{IfFault, VisitsUpTo};
ghost use Rattle.nl_frame.specs.Kept.{kept};
ghost use Rattle.nl_frame.specs.Heads.{IsFirstFault, whole};

/// Reads a datagram into its messages, and counts the bytes of attributes and next hops visited.
///
/// The error is `TooLarge` above the datagram limit; else `Layout`, the first header that breaks a
/// rule; or `Memory` where an allocation fails before that. Padding may hold any bytes, and that
/// of the last message may be missing or short.
pub fn read_datagram(alloc: Global, bytes: &[u8], limits: &Limits) -> Tally<Vec<Message>, ReadError>
    ensures large { result.result ≡ Err ReadError.TooLarge
        ↔ limits.now.datagram < length bytes.now }
    // What is read is the layout of the datagram.
    ensures fits { IfOk result.result
        (λ v. Layout limits.now.shape (map message_view v.items) bytes.now) }
    // No other list is.
    ensures only { IfOk result.result (λ v. (ms : List MessageVal)
        → Layout limits.now.shape ms bytes.now → ms ≡ map message_view v.items) }
    // An error of a header is the one of least offset.
    ensures first { IfErr result.result
        (λ e. IfFault e (λ f. IsFirstFault limits.now.shape (whole bytes.now) f.place f.reason)) }
    // Then no list of messages is the layout.
    ensures none { IfErr result.result
        (λ e. IfFault e (λ _. (ms : List MessageVal) → Layout limits.now.shape ms bytes.now → ⊥)) }
    // The visits are those of all headers, or of those up to the error.
    ensures visits { VisitsUpTo limits.now.shape bytes.now result.result result.visits }
    ensures bound { result.visits ≤ (limits.now.shape.depth + 1) * length bytes.now }
    // What is read holds no more bytes than the datagram has.
    ensures kept { IfOk result.result (λ v. kept (map message_view v.items) ≤ length bytes.now) }
{
    if bytes.len() > limits.datagram() as usize {
        return Tally {
            result: Err(ReadError::TooLarge),
            visits: 0,
        };
    }
    read_messages(alloc, bytes, limits).map_err(ReadError::from)
}
