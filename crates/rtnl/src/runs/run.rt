//! The run of a command that needs all datagrams of a recording at once.

ghost use Rattle.std.specs.Prelude.{IfOk};
ghost use Rattle.rtnl.specs.Runs.{Runs};

use crate::error::RunError;
use crate::recordings::lines::read_datagrams;
use crate::recordings::recording::Datagrams;
use crate::streams::sink::{Sink, give_all};
use crate::streams::source::{Source, read_input};
use crate::verdict::Verdict;
use std::alloc::{AllocError, Global};

/// A command over the datagrams of a recording: their text, and the verdict on them.
pub(crate) trait Command {
    ghost use Rattle.std.specs.Prelude.{ℕ, List, IfOk};
    ghost use Rattle.rtnl.specs.declared.verdict.Verdict.{Verdict};

    // The text of datagrams, and the verdict on them.
    ghost says: { Self → List (List ℕ) → List ℕ → Verdict → Type 0 };

    /// The text of all datagrams, in order, and the verdict on them.
    fn text_of(
        &self,
        alloc: Global,
        datagrams: &Datagrams,
    ) -> Result<(Vec<u8>, Verdict), AllocError>
        ensures { IfOk result (λ p. says self.now datagrams.now p.0.items p.1) };
}

/// Runs a command over a recording. The input is read to its end and all lines are checked, then
/// the text is made, then it is written.
pub(crate) fn run<S: Source, W: Sink, C: Command>(
    alloc: Global,
    source: &mut S,
    sink: &mut W,
    command: &C,
) -> Result<Verdict, RunError>
    ensures { Runs S.remaining S.is_ended S.failure_count
        W.contents W.is_stalled W.stall_count W.failure_count
        (C.says command.now) source.old source.new sink.old sink.new result }
{
    let input = read_input(alloc, source)?;
    let datagrams = read_datagrams(alloc, input.as_slice())?;
    drop(input);
    let (text, verdict) = command.text_of(alloc, &datagrams)?;
    give_all(sink, text.as_slice())?;
    Ok(verdict)
}
