//! What is done with one line of a recording that is followed: the counts, the listener, the text.

ghost use Rattle.std.specs.Prelude.{◌≡◌, ◌↔◌, ◌∷◌, [], List, Option, Some, false};
ghost use Rattle.std.specs.Option.{option_copied};
ghost use Rattle.rtnl.specs.Streams.{Gains};
ghost use Rattle.rtnl.specs.Followed.{GoesOn, IsCounted, TellsLine, one_bad};

use crate::error::RunError;
use crate::runs::per_line::PerLine;
use crate::streams::sink::{Sink, give_all};
use std::alloc::Global;

/// What was counted of a recording that is followed.
#[derive(Clone, Copy, Debug, Default, PartialEq, Eq, Hash)]
pub struct Followed {
    /// How many lines were followed.
    pub lines: u64,
    /// How many of them are datagrams.
    pub datagrams: u64,
    /// How many of these were refused.
    pub refused: u64,
    /// How many lines are bad: not hexadecimal, or longer than `LONGEST_LINE`.
    pub bad_lines: u64,
}

/// A listener to the bad lines and to the datagrams of a recording that is followed.
pub trait FollowListener {
    ghost use Rattle.std.specs.Prelude.{◌≡◌, ◌↔◌, ◌∷◌, [], List, Option, false};
    ghost use Rattle.std.specs.Option.{option_copied};
    ghost use Rattle.rtnl.specs.Streams.{Gains};
    ghost use Rattle.rtnl.specs.Followed.{HeardLine};

    /// The bad lines that it heard of so far, with their numbers, or `None` where it doesn't say.
    ghost heard: { Self → Option (List HeardLine) };

    /// Its last call answered that the lines after it aren't followed.
    ghost is_ended: { Self → Type 0 };

    /// Hears that the line of this number, counted from 1, is bad. It answers whether the lines
    /// after it are followed, and after `false` it is not called again. The line comes without its
    /// newline, and is none where it is longer than `LONGEST_LINE`.
    fn bad_line(&mut self, number: u64, line: Option<&[u8]>) -> bool
        requires { is_ended self.old → ⊥ }
        ensures heard { Gains (heard self.old) (heard self.new)
            (record { number = number; line = option_copied line.entry } ∷ []) }
        ensures ended { is_ended self.new ↔ (result ≡ false) };

    /// Sees a datagram that was refused, after its text was written. The number counts datagrams
    /// from 1. No clause says that this is called, and it changes nothing that clauses speak of.
    fn refused_datagram(&self, number: u64, datagram: &[u8]);

    /// Sees a datagram that was accepted, just as `refused_datagram` sees a refused one.
    fn taken_datagram(&self, number: u64, datagram: &[u8]);
}

/// What was counted so far, and buffers that each line uses again. They are for the bytes of its
/// datagram and for its text.
#[derive(Drop)]
pub(crate) struct Progress {
    pub(crate) counts: Followed,
    pub(crate) bytes: Vec<u8>,
    pub(crate) text: Vec<u8>,
}

impl Progress {
    ghost use Rattle.rtnl.specs.Followed.{none_followed};

    /// Nothing was counted.
    pub(crate) fn new(alloc: Global) -> Progress
        ensures { result.counts ≡ none_followed }
    {
        Progress {
            counts: Followed {
                lines: 0,
                datagrams: 0,
                refused: 0,
                bad_lines: 0,
            },
            bytes: Vec::new(alloc),
            text: Vec::new(alloc),
        }
    }
}

/// Counts a bad line and tells the listener. It answers whether the lines after it are followed.
pub(crate) fn tell_bad<B: FollowListener>(
    listener: &mut B,
    counts: &mut Followed,
    line: Option<&[u8]>,
) -> bool
    requires counted { IsCounted 1 counts.old }
    requires going { B.is_ended listener.old → ⊥ }
    ensures counted { counts.new ≡ one_bad counts.old }
    ensures heard { Gains (B.heard listener.old) (B.heard listener.new)
        (record { number = counts.new.lines; line = option_copied line.entry } ∷ []) }
    ensures ended { B.is_ended listener.new ↔ (result ≡ false) }
{
    counts.lines += 1;
    counts.bad_lines += 1;
    listener.bad_line(counts.lines, line)
}

/// Handles a line: writes its text, if it says anything, or tells the listener that it is bad. It
/// answers whether the next line is handled.
pub(crate) fn tell_line<W: Sink, B: FollowListener, E: PerLine>(
    alloc: Global,
    each: &E,
    kept: &mut E::Kept,
    sink: &mut W,
    listener: &mut B,
    progress: &mut Progress,
    line: &[u8],
) -> Result<bool, RunError>
    requires counted { IsCounted 1 progress.old.counts }
    requires going { GoesOn E.ends B.is_ended kept.old listener.old }
    ensures { TellsLine (E.says each.now) (E.finds each.now) (E.text each.now) E.takes E.ends B.heard B.is_ended
        W.contents W.is_stalled W.stall_count W.failure_count
        (Some line.now) kept.old kept.new progress.old.counts progress.new.counts
        listener.old listener.new sink.old sink.new result }
{
    let Progress {
        counts,
        bytes,
        text,
    } = progress;
    text.clear();
    bytes.clear();
    let number = counts.datagrams + 1;
    let told = match each.tell(alloc, kept, text, bytes, number as usize, line) {
        Ok(Some(told)) => told,
        Ok(None) => {
            counts.lines += 1;
            return Ok(true);
        }
        Err(RunError::BadLine(_)) => return Ok(tell_bad(listener, counts, Some(line))),
        Err(error) => return Err(error),
    };
    give_all(sink, text.as_slice())?;
    if !told.taken {
        listener.refused_datagram(told.number, bytes.as_slice());
    } else if !bytes.is_empty() {
        listener.taken_datagram(told.number, bytes.as_slice());
    }
    counts.lines += 1;
    counts.datagrams = number;
    counts.refused += u64::from(!told.taken);
    Ok(told.goes_on)
}
