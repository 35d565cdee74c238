//! Scans a datagram into a buffer of events, and keeps only those of a dump's items.

ghost use Rattle.std.specs.Prelude.{◌≡◌, ◌≤◌, ◌<◌, ◌+◌, ◌*◌, ◌^◌, [], length, take, IfOk};
ghost use Rattle.nl_attr.specs.Fixed as fixed;
ghost use Rattle.nl_attr.specs.HeadOrder.{put_from};
ghost use Rattle.nl_dump.specs.Events.{no_counts, at_head, found_at, counted, keeping};
ghost use Rattle.nl_dump.specs.Events.{kept, counts_of, IsFront};
ghost use Rattle.nl_dump.specs.Inside.{ReadsEvents, is_room, scan_refusal};

use crate::counts::{Counts, Taken, is_interrupted};
use crate::dump::Dump;
use crate::errors::StreamError;
use crate::unread::{belongs, find, has_mark, header_at};
use nl_attr::{Event, Order, SORT_MESSAGE, Tally};
use nl_frame::{Counted, Limits, ScanError, tape_datagram};
use nl_route::Verb;

/// What a datagram's messages were to the dump, and how many events of items are in the buffer.
#[derive(Clone, Copy)]
pub(crate) struct PickedEvents {
    pub(crate) taken: Taken,
    pub(crate) events: usize,
}

impl Counts {
    /// Counts the message, where the event is that of its header.
    #[inline(always)]
    fn at_head(self, event: Event, bytes: &[u8], order: Order, dump: &Dump) -> Counts
        requires size { length bytes.now ≤ fixed.LONGEST_REGION }
        requires items { self.items + 1 < 2 ^ 64 }
        requires ignored { self.ignored + 1 < 2 ^ 64 }
        ensures { result ≡ at_head (found_at order dump.now bytes.now) event self }
    {
        if event.sort != SORT_MESSAGE {
            return self;
        }
        self.judge(find(bytes, event, order, dump))
    }

    /// Moves an event of an item behind those kept before, and drops any other.
    #[inline(always)]
    fn keep(self, event: Event, out: &mut [Event]) -> Counts
        requires { self.events + 1 < 2 ^ 64 }
        ensures counted { result ≡ counted self }
        ensures events { out.new ≡ put_from self.events (keeping self.keeps event []) out.old }
    {
        if !self.keeps {
            return self;
        }
        event.put(out, self.events);
        Counts {
            events: self.events + 1,
            ..self
        }
    }
}

/// Counts the items before the first other message. Their events already lie at the front.
#[inline(always)]
fn front(bytes: &[u8], order: Order, dump: &Dump, out: &[Event], count: usize) -> Counts
    requires size { length bytes.now ≤ fixed.LONGEST_REGION }
    requires room { count ≤ length out.now }
    ensures front { IsFront (found_at order dump.now bytes.now) out.now result }
    ensures count { result.events ≤ count }
{
    let new = dump.kind.type_of(Verb::New);
    let mut front = Counts::none();
    for at in 0..count {
        let event = out[at];
        if event.sort == SORT_MESSAGE {
            let Some(left) = header_at(bytes, event.place) else {
                break;
            };
            if event.number != new || !belongs(left, order, dump) {
                break;
            }
            front.items += 1;
            front.interrupted = is_interrupted(front.interrupted, has_mark(left, order));
        }
        front.events = at + 1;
    }
    front
}

/// Moves the events of a dump's items to the front of a buffer, in their order. Its first `count`
/// events must be those of `bytes`.
pub(crate) fn sift(
    bytes: &[u8],
    order: Order,
    dump: &Dump,
    out: &mut [Event],
    count: usize,
) -> Counts
    requires size { length bytes.now ≤ fixed.LONGEST_REGION }
    requires room { count ≤ length out.old }
    ensures found { result ≡ counts_of (found_at order dump.now bytes.now) no_counts
        (take count out.old) }
    ensures events { out.new ≡ put_from 0 (kept (found_at order dump.now bytes.now) no_counts
        (take count out.old)) out.old }
{
    let mut counts = front(bytes, order, dump, out, count);
    for at in counts.events..count {
        let event = out[at];
        counts = counts.at_head(event, bytes, order, dump).keep(event, out);
    }
    counts
}

/// The error of a scan as that of a stream.
fn refusal(error: ScanError) -> StreamError
    ensures { result ≡ scan_refusal error }
{
    match error {
        ScanError::TooLarge => StreamError::TooLarge,
        ScanError::Layout(broken) => StreamError::Layout(broken.fault),
    }
}

/// Whether the error is `Room`, which leaves the stream as it was.
pub(crate) fn lacks_room(error: &StreamError) -> bool
    ensures { result ≡ is_room error.now }
{
    matches!(error, StreamError::Room(_))
}

/// Scans a datagram once, and moves the events of the dump's items to the front of the buffer.
pub(crate) fn read_events(
    limits: &Limits,
    dump: &Dump,
    bytes: &[u8],
    out: &mut [Event],
) -> Tally<PickedEvents, StreamError>
    ensures reads { ReadsEvents limits.now dump.now bytes.now out.old
        result.result result.visits out.new }
    ensures bound { result.visits ≤ (limits.now.shape.depth + 1) * length bytes.now }
    ensures ignored { IfOk result.result (λ s. s.taken.progress.ignored ≤ length bytes.now) }
{
    // This tells the prover the range of the limit, so that the counts fit 32 bits.
    let _limit = limits.datagram();
    let Counted {
        scan: Tally { result, visits },
        count,
    } = tape_datagram(bytes, limits, out);
    match result {
        Ok(()) => {
            if out.len() < count {
                return Tally {
                    result: Err(StreamError::Room(count)),
                    visits,
                };
            }
            let counts = sift(bytes, limits.order(), dump, out, count);
            Tally {
                result: Ok(PickedEvents {
                    taken: counts.taken(),
                    events: counts.events,
                }),
                visits,
            }
        }
        Err(error) => Tally {
            result: Err(refusal(error)),
            visits,
        },
    }
}
