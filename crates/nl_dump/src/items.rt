//! Reads a datagram into messages, and keeps only the items of a dump.

ghost use Rattle.std.specs.Prelude.{◌≡◌, ◌≤◌, ◌+◌, ◌*◌, IfOk, length, map};
ghost use Rattle.nl_attr.specs.Fixed as fixed;
ghost use Rattle.nl_frame.specs.View.{message_view};
ghost use Rattle.nl_dump.specs.Inside.{Picks, AreCounts};
ghost use Rattle.nl_dump.specs.Reading.{item_messages};

use crate::counts::{Counts, Taken};
use crate::dump::Dump;
use crate::errors::FeedError;
use crate::role::find;
use nl_attr::Tally;
use nl_frame::{Limits, Message, read_datagram};
use std::alloc::Global;

/// The items of a datagram, and what all its messages were to the dump.
#[derive(Drop)]
pub(crate) struct PickedItems {
    pub(crate) items: Vec<Message>,
    pub(crate) taken: Taken,
}

/// Drops the messages that aren't items, and keeps the order of the others. It takes no memory.
fn pick(dump: &Dump, messages: &mut Vec<Message>) -> Counts
    requires { length messages.old.items ≤ fixed.LONGEST_REGION }
    ensures counts { AreCounts dump.now (map message_view messages.old.items) result }
    ensures items { map message_view messages.new.items
        ≡ item_messages dump.now (map message_view messages.old.items) }
{
    let mut counts = Counts::none();
    for at in 0..messages.len() {
        let place = counts.items;
        counts = counts.judge(find(dump, &messages[at]));
        if counts.keeps && place != at {
            messages.swap(place, at);
        }
    }
    messages.truncate(counts.items);
    counts
}

/// Reads a datagram, and keeps only the items of the dump.
pub(crate) fn read_items(
    alloc: Global,
    limits: &Limits,
    dump: &Dump,
    bytes: &[u8],
) -> Tally<PickedItems, FeedError>
    ensures picks { Picks limits.now dump.now bytes.now result.result result.visits }
    ensures bound { result.visits ≤ (limits.now.shape.depth + 1) * length bytes.now }
    ensures ignored { IfOk result.result (λ p. p.taken.progress.ignored ≤ length bytes.now) }
    ensures few { IfOk result.result (λ p. length p.items.items ≤ length bytes.now) }
{
    // This tells the prover the range of the limit, so that the counts fit 32 bits.
    let _limit = limits.datagram();
    let Tally { result, visits } = read_datagram(alloc, bytes, limits);
    match result {
        Ok(messages) => {
            let mut items = messages;
            let taken = pick(dump, &mut items).taken();
            Tally {
                result: Ok(PickedItems { items, taken }),
                visits,
            }
        }
        Err(error) => Tally {
            result: Err(FeedError::from(error)),
            visits,
        },
    }
}
