//! The state, limits and counts of a stream, or of a session, and how calls change them.

ghost use Rattle.std.specs.Prelude.{◌≡◌, ◌<◌, ◌≤◌, ◌+◌, ◌^◌, true};
ghost use Rattle.std.specs.Bool.{MatchBool};
ghost use Rattle.nl_dump.specs.Answer.{state_by};
ghost use Rattle.nl_dump.specs.Inside.{MayBegin, taken_by, begun_by};
ghost use Rattle.nl_dump.specs.Standing.{new_standing};
ghost use Rattle.nl_dump.specs.Streams.{StreamAbandons, refused_by};

use crate::counts::{Taken, is_interrupted};
use crate::dump::{Dump, End, State};
use crate::errors::{BeginError, NotWaiting};
use nl_frame::Limits;

/// The state, limits and counts of a stream or a session, as plain values to be stored anywhere.
/// A stream has nothing else: `Stream::restore` makes one of these values.
#[derive(Clone, Copy, Debug, PartialEq, Eq, Hash)]
pub struct Standing {
    pub limits: Limits,
    /// The state of the last dump.
    pub state: State,
    /// How many messages of the last dump were neither items nor its end.
    pub ignored: u64,
    /// How many bytes of attributes and next hops were visited since the stream was new.
    pub visits: u64,
    /// How many bytes of datagrams were received since the stream was new.
    pub received: u64,
    /// Whether a datagram of the last dump was refused, but for `NotWaiting` and `Room`.
    pub damaged: bool,
    /// Whether an item or the ending DONE of the last dump has the flag `NLM_F_DUMP_INTR`.
    pub interrupted: bool,
}

/// The state of a dump after a datagram with this end, or none.
fn state_after(dump: Dump, end: Option<End>) -> State
    ensures { result ≡ state_by dump end }
{
    match end {
        None => State::Waiting(dump),
        Some(end) => State::Ended(dump, end),
    }
}

impl Standing {
    /// The state before the first dump: all counts are 0.
    pub(crate) fn new(limits: Limits) -> Standing
        ensures { result ≡ new_standing limits }
    {
        Standing {
            limits,
            state: State::Idle,
            ignored: 0,
            visits: 0,
            received: 0,
            damaged: false,
            interrupted: false,
        }
    }

    /// Checks that a dump of this sequence number may begin: none waits, and the last had another.
    pub(crate) fn may_begin(&self, seq: u32) -> Result<(), BeginError>
        ensures { MayBegin self.now.state seq result }
    {
        match self.state {
            State::Waiting(_) => Err(BeginError::Busy),
            State::Ended(last, _) if last.seq == seq => Err(BeginError::SameSeq),
            State::Idle | State::Ended(_, _) => Ok(()),
        }
    }

    /// Begins a dump.
    pub(crate) fn begin(&mut self, dump: Dump)
        ensures { self.new ≡ begun_by self.old dump }
    {
        self.state = State::Waiting(dump);
        self.ignored = 0;
        self.damaged = false;
        self.interrupted = false;
    }

    /// Ends the dump that waits, as abandoned. Where none waits, it fails and changes nothing.
    pub(crate) fn abandon(&mut self) -> Result<(), NotWaiting>
        ensures { StreamAbandons self.old result self.new }
    {
        let State::Waiting(dump) = self.state else {
            return Err(NotWaiting);
        };
        self.state = State::Ended(dump, End::Abandoned);
        Ok(())
    }

    /// Whether a datagram of `count` bytes would go above the total limit. If so, it sets
    /// `damaged`.
    pub(crate) fn exceeds_total(&mut self, count: u64) -> bool
        requires { self.old.received ≤ self.old.limits.total }
        ensures { MatchBool result
            ((self.old.limits.total < self.old.received + count)
            × (self.new ≡ record self.old { damaged = true }))
            ((self.old.received + count ≤ self.old.limits.total) × (self.new ≡ self.old)) }
    {
        if count > self.limits.total() - self.received {
            self.damaged = true;
            return true;
        }
        false
    }

    /// Counts a datagram of `count` bytes that was accepted, and the `visits` of reading it.
    pub(crate) fn take(&mut self, dump: Dump, count: u64, visits: u64, taken: &Taken)
        requires received { self.old.received + count < 2 ^ 64 }
        requires visits { self.old.visits + visits < 2 ^ 64 }
        requires ignored { self.old.ignored + taken.now.progress.ignored < 2 ^ 64 }
        ensures { self.new ≡ taken_by self.old dump count visits taken.now }
    {
        self.received += count;
        self.visits += visits;
        self.ignored += u64::from(taken.progress.ignored);
        self.interrupted = is_interrupted(self.interrupted, taken.interrupted);
        self.state = state_after(dump, taken.end);
    }

    /// Counts a datagram of `count` bytes that was refused, and the `visits` of reading it.
    pub(crate) fn refuse(&mut self, count: u64, visits: u64)
        requires received { self.old.received + count < 2 ^ 64 }
        requires visits { self.old.visits + visits < 2 ^ 64 }
        ensures { self.new ≡ refused_by self.old count visits }
    {
        self.received += count;
        self.visits += visits;
        self.damaged = true;
    }
}
