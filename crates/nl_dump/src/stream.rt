//! A stream: it reads one dump after another in constant space, and hands the items out.

ghost use Rattle.std.specs.Prelude.{◌≡◌, Decides, ◌≤◌, length, IfOk};
ghost use Rattle.std.specs.Result.{OkIff};
ghost use Rattle.nl_dump.specs.Standing.{IsPossible, IsReached, new_standing, whole_of};
ghost use Rattle.nl_dump.specs.Streams.{StreamBegan, StreamFed, StreamAbandons, EveryStreamed};
ghost use Rattle.nl_dump.specs.Reading.{StreamRead, EveryRead};

use crate::dump::{Dump, End, ItemsRead, State, Streamed};
use crate::errors::{BeginError, FeedError, Impossible, NotWaiting, StreamError};
use crate::events::{PickedEvents, lacks_room, read_events};
use crate::items::{PickedItems, read_items};
use crate::standing::Standing;
use nl_attr::{Event, Tally};
use nl_frame::Limits;
use std::alloc::Global;
use std::marker::Model;

/// Reads one dump after another (netlink(7), `NLM_F_DUMP`; RFC 3549, section 2.3.2.2). It is a
/// plain value that keeps nothing of a datagram.
///
/// The caller sends the request (`Dump::put_request`), and hands the answers in by one of two
/// calls. `feed` leaves the events of the dump's items in a buffer, and takes no memory. `read`
/// answers the items as messages. The limits hold over the stream's whole life, but the one on
/// entries isn't used.
#[derive(Clone, Copy, Debug, PartialEq, Eq, Hash)]
pub struct Stream {
    standing: Standing,
}

impl Model for Stream {
    ghost use Rattle.nl_dump.specs.declared.standing.Standing.{Standing};
    ghost use Rattle.nl_dump.specs.Standing.{IsPossible};

    ghost Value = { Standing };

    ghost view = { λ s. s.standing };

    ghost invariant = { λ s. IsPossible s.standing };

    ghost inverse = { λ v. record { standing = v } };
}

/// Whether calls can lead to this state. Before the first dump nothing was taken, and no dump ends
/// by an ERROR with code 0.
fn is_reached(standing: &Standing) -> bool
    ensures { Decides result (IsReached standing.now.state standing.now) }
{
    match standing.state {
        State::Idle => {
            standing.ignored == 0
                && standing.visits == 0
                && standing.received == 0
                && !standing.damaged
                && !standing.interrupted
        }
        State::Waiting(_) => true,
        State::Ended(_, End::Error(code)) => code != 0,
        State::Ended(_, End::Done(_) | End::Overrun | End::Abandoned) => true,
    }
}

impl Stream {
    /// A stream of these limits without a dump, with counts of 0.
    pub fn new(limits: Limits) -> Stream
        ensures new { result ≡ new_standing limits }
        ensures possible { IsPossible result }
    {
        // This makes the ranges of the limits known to the prover.
        let _total = limits.total();
        Stream {
            standing: Standing::new(limits),
        }
    }

    /// Begins a dump: `ignored`, `damaged` and `interrupted` begin anew, `visits` and `received`
    /// stay. The dump's `port` is the port id that answers must carry.
    ///
    /// After an error the stream is as it was: `Busy` where a dump waits for answers; `SameSeq`
    /// for the sequence number of the last dump. `Memory` doesn't occur.
    pub fn begin(&mut self, dump: Dump) -> Result<(), BeginError>
        ensures step { StreamBegan self.old dump result self.new }
        ensures possible { IsPossible self.new }
    {
        self.standing.may_begin(dump.seq)?;
        self.standing.begin(dump);
        Ok(())
    }

    /// Takes a datagram that answers the dump, and leaves its items' events at the front of `out`.
    /// They are as of `tape_datagram`: that of an item's header, then those of its attributes and
    /// next hops. The rest of `out` means nothing, and after an error all of it.
    ///
    /// It answers the numbers of items, of ignored messages and of events, and whether the dump
    /// ended. The error is the first of these that applies. After any of them the state, `ignored`
    /// and `interrupted` are as before.
    ///
    /// - `NotWaiting`: no dump waits for answers. Nothing has changed.
    /// - `Total`: the stream would be above its total limit. `damaged` is set.
    /// - `TooLarge`, `Layout`: as of `read_datagram`. `damaged` is set, `received` grows by the
    ///   datagram's length, and `visits` by the bytes visited.
    /// - `Room`: `out` has fewer entries than the datagram has headers. The stream is as it was,
    ///   so the same datagram can be fed again with more room.
    #[tactic(auto, using(crate::proofs::Streaming::every))]
    pub fn feed(&mut self, bytes: &[u8], out: &mut [Event]) -> Result<Streamed, StreamError>
        ensures step { StreamFed self.old bytes.now out.old result self.new out.new }
        ensures possible { IsPossible self.new }
        // Each datagram is refused at its first error, with the dump's answer unchanged. Or it
        // gives the one list of its layout, which is written and read again.
        ensures every { EveryStreamed self.old bytes.now out.old result self.new }
    {
        self.feed_step(bytes, out)
    }

    /// `feed`, with a contract that says what one call changes.
    fn feed_step(&mut self, bytes: &[u8], out: &mut [Event]) -> Result<Streamed, StreamError>
        ensures step { StreamFed self.old bytes.now out.old result self.new out.new }
        ensures possible { IsPossible self.new }
        ensures limits { self.new.limits ≡ self.old.limits }
    {
        let State::Waiting(dump) = self.standing.state else {
            return Err(StreamError::NotWaiting);
        };
        let count = bytes.len() as u64;
        if self.standing.exceeds_total(count) {
            return Err(StreamError::Total);
        }
        let Tally { result, visits } = read_events(&self.standing.limits, &dump, bytes, out);
        match result {
            Ok(PickedEvents { taken, events }) => {
                self.standing.take(dump, count, visits, &taken);
                Ok(Streamed {
                    progress: taken.progress,
                    events,
                })
            }
            Err(error) => {
                if lacks_room(&error) {
                    return Err(error);
                }
                self.standing.refuse(count, visits);
                Err(error)
            }
        }
    }

    /// Takes a datagram that answers the dump, and answers its items as messages, in order. The
    /// counts are those of `feed`. Each attribute byte is visited once for each level that it is
    /// in.
    ///
    /// It takes memory for these messages, by `alloc`, and the stream keeps none of it. The errors
    /// are those of `feed`, and change what they change there, but `Room` doesn't occur. `Memory`,
    /// where an allocation fails, changes what `Layout` does.
    #[tactic(auto, using(crate::proofs::Handing::every))]
    pub fn read(&mut self, alloc: Global, bytes: &[u8]) -> Result<ItemsRead, FeedError>
        ensures step { StreamRead self.old bytes.now result self.new }
        ensures possible { IsPossible self.new }
        // Each datagram is refused at its first error, with the dump's answer unchanged. Or it
        // gives the one list of its layout, which is written and read again.
        ensures every { EveryRead self.old bytes.now result self.new }
        ensures few { IfOk result (λ read. length read.items.items ≤ length bytes.now) }
    {
        self.read_step(alloc, bytes)
    }

    /// `read`, with a contract that says what one call changes.
    fn read_step(&mut self, alloc: Global, bytes: &[u8]) -> Result<ItemsRead, FeedError>
        ensures step { StreamRead self.old bytes.now result self.new }
        ensures possible { IsPossible self.new }
        ensures limits { self.new.limits ≡ self.old.limits }
        ensures few { IfOk result (λ read. length read.items.items ≤ length bytes.now) }
    {
        let State::Waiting(dump) = self.standing.state else {
            return Err(FeedError::NotWaiting);
        };
        let count = bytes.len() as u64;
        if self.standing.exceeds_total(count) {
            return Err(FeedError::Total);
        }
        let Tally { result, visits } = read_items(alloc, &self.standing.limits, &dump, bytes);
        match result {
            Ok(PickedItems { items, taken }) => {
                self.standing.take(dump, count, visits, &taken);
                Ok(ItemsRead {
                    items,
                    progress: taken.progress,
                })
            }
            Err(error) => {
                self.standing.refuse(count, visits);
                Err(error)
            }
        }
    }

    /// Ends the dump that waits, as `End::Abandoned`. Where none waits it fails, and nothing has
    /// changed.
    pub fn abandon(&mut self) -> Result<(), NotWaiting>
        ensures step { StreamAbandons self.old result self.new }
        ensures possible { IsPossible self.new }
    {
        self.standing.abandon()
    }

    /// Makes a stream of its `standing`. `Impossible` where no stream can have it:
    ///
    /// - A count is above what the limits and `received` allow.
    /// - Something was taken before the first dump.
    /// - A dump has ended by an ERROR with code 0.
    pub fn restore(standing: Standing) -> Result<Stream, Impossible>
        ensures { OkIff result (IsPossible standing) standing }
    {
        let limits = standing.limits;
        let levels = u64::from(limits.depth().get()) + 1;
        if standing.received > limits.total()
            || standing.ignored > standing.received
            || standing.visits > levels * standing.received
            || !is_reached(&standing)
        {
            return Err(Impossible);
        }
        Ok(Stream { standing })
    }

    /// All of the stream, as plain values.
    pub fn standing(&self) -> Standing
        ensures standing { result ≡ self.now }
        ensures possible { IsPossible self.now }
    {
        self.standing
    }

    /// The state of the last dump.
    pub fn state(&self) -> State
        ensures { result ≡ self.now.state }
    {
        self.standing.state
    }

    /// How many bytes of attributes and next hops were visited since `new`, in refused datagrams
    /// too. It is at most `depth + 1` times those received.
    pub fn visits(&self) -> u64
        ensures { result ≡ self.now.visits }
    {
        self.standing.visits
    }

    /// How many bytes of datagrams were received since `new`, with those refused but for
    /// `NotWaiting`, `Total` and `Room`. It is at most the total limit.
    pub fn received(&self) -> u64
        ensures { result ≡ self.now.received }
    {
        self.standing.received
    }

    /// How many messages of the last dump were neither items nor its end.
    pub fn ignored(&self) -> u64
        ensures { result ≡ self.now.ignored }
    {
        self.standing.ignored
    }

    /// Whether a datagram of the last dump was refused, but for `NotWaiting` and `Room`.
    pub fn damaged(&self) -> bool
        ensures { result ≡ self.now.damaged }
    {
        self.standing.damaged
    }

    /// Whether an item or the ending DONE of the last dump has the flag `NLM_F_DUMP_INTR`.
    pub fn interrupted(&self) -> bool
        ensures { result ≡ self.now.interrupted }
    {
        self.standing.interrupted
    }

    /// Whether the dump ended by DONE with no failure, had no datagram refused, and wasn't
    /// interrupted. Then every item of it was handed out.
    pub fn complete(&self) -> bool
        ensures { result ≡ whole_of self.now }
    {
        match self.standing.state {
            State::Ended(_, End::Done(status)) => {
                status >= 0 && !self.standing.damaged && !self.standing.interrupted
            }
            _ => false,
        }
    }
}
