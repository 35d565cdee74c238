//! Counts the messages of a datagram by what each is to the dump.

ghost use Rattle.std.specs.Prelude.{◌≡◌, ◌≤◌, ◌<◌, ◌+◌, ◌^◌, ◌||◌, ◌&&◌, Some};
ghost use Rattle.nl_attr.specs.Fixed as fixed;
ghost use Rattle.nl_dump.specs.Answer.{ends_done};
ghost use Rattle.nl_dump.specs.Events.{no_counts, judge};
ghost use Rattle.nl_dump.specs.Inside.{taken_of};

use crate::dump::{End, Progress};
use crate::role::{Found, Role};

/// The counts of a whole datagram.
#[derive(Clone, Copy, Debug, PartialEq, Eq)]
pub(crate) struct Taken {
    pub(crate) progress: Progress,
    pub(crate) interrupted: bool,
    pub(crate) end: Option<End>,
}

/// The counts of the messages so far, and of the events kept.
#[derive(Clone, Copy)]
pub(crate) struct Counts {
    /// How many events of items are at the front of the buffer, where there is one.
    pub(crate) events: usize,
    /// Whether the events inside the last message are kept: it is an item, or there is none yet.
    pub(crate) keeps: bool,
    pub(crate) items: usize,
    pub(crate) ignored: usize,
    pub(crate) interrupted: bool,
    pub(crate) end: Option<End>,
}

/// Whether an end also interrupts the dump: a DONE with `NLM_F_DUMP_INTR` does, no other end.
fn marks_end(marked: bool, end: &End) -> bool
    ensures { result ≡ (marked && ends_done (Some end.now)) }
{
    marked && matches!(end, End::Done(_))
}

/// Whether the dump is interrupted: it was before, or is so now.
pub(crate) fn is_interrupted(before: bool, now: bool) -> bool
    ensures { result ≡ (before || now) }
{
    before || now
}

impl Counts {
    /// The counts before the first message.
    pub(crate) fn none() -> Counts
        ensures { result ≡ no_counts }
    {
        Counts {
            events: 0,
            keeps: true,
            items: 0,
            ignored: 0,
            interrupted: false,
            end: None,
        }
    }

    /// Counts one message. All messages behind the end are ignored.
    #[inline(always)]
    pub(crate) fn judge(self, found: Found) -> Counts
        requires items { self.items + 1 < 2 ^ 64 }
        requires ignored { self.ignored + 1 < 2 ^ 64 }
        ensures { result ≡ judge self.end found.role found.marked self }
    {
        if self.end.is_some() {
            return Counts {
                keeps: false,
                ignored: self.ignored + 1,
                ..self
            };
        }
        match found.role {
            Role::Item(()) => Counts {
                keeps: true,
                items: self.items + 1,
                interrupted: is_interrupted(self.interrupted, found.marked),
                ..self
            },
            Role::End(end) => Counts {
                keeps: false,
                interrupted: is_interrupted(self.interrupted, marks_end(found.marked, &end)),
                end: Some(end),
                ..self
            },
            Role::Other => Counts {
                keeps: false,
                ignored: self.ignored + 1,
                ..self
            },
        }
    }

    /// The counts of the datagram, after its last message.
    pub(crate) fn taken(self) -> Taken
        requires items { self.items ≤ fixed.LONGEST_REGION }
        requires ignored { self.ignored ≤ fixed.LONGEST_REGION }
        ensures { result ≡ taken_of self }
    {
        Taken {
            progress: Progress {
                items: self.items as u32,
                ignored: self.ignored as u32,
                ended: self.end.is_some(),
            },
            interrupted: self.interrupted,
            end: self.end,
        }
    }
}
