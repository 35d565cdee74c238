//! The run of a command that prints each datagram of a recording by itself.

ghost use Rattle.std.specs.Prelude.{◌≡◌, ◌+◌, ◌⊎◌, ℕ, List, Err, OnOk, IfOk, IfErr};
ghost use Rattle.std.specs.Io.KnownBytes.{Consumes};
ghost use Rattle.rtnl.specs.Runs as fixed;
ghost use Rattle.rtnl.specs.Lines.{datagrams};
ghost use Rattle.rtnl.specs.Runs.{Prints, Runs};
ghost use Rattle.rtnl.specs.Output.{IsSaid};
ghost use Rattle.rtnl.specs.Streams.{ConsumesAtMost, ConsumesMoreThan, IsRead, one_more};

use crate::error::RunError;
use crate::runs::output::Output;
use crate::runs::per_datagram::PerDatagram;
use crate::streams::errors::IoFailed;
use crate::streams::sink::{Sink, give_parts};
use crate::streams::source::{LONGEST_INPUT, Source};
use crate::verdict::Verdict;
use std::alloc::Global;

/// The text of the datagrams that a source gives up to its end. It takes at most `LONGEST_INPUT`
/// bytes and one more, and stops at the first call that fails.
#[tactic(auto, using(crate::proofs::Sets::given))]
fn say_input<S: Source, E: PerDatagram>(
    alloc: Global,
    source: &mut S,
    each: &E,
) -> Result<Output, RunError>
    ensures said { IfOk result (λ s. (input : List ℕ)
        × Consumes (S.remaining source.old) (S.remaining source.new) input
        × IsSaid (E.finds each.now) (E.text each.now) E.takes (datagrams input) s) }
    ensures read { OnOk result
        (IsRead S.remaining S.is_ended S.failure_count source.old source.new) }

    ensures fault { result ≡ Err RunError.ReadFault →
        (S.failure_count source.new ≡ one_more (S.failure_count source.old))
        ⊎ ((S.failure_count source.new ≡ S.failure_count source.old)
        × ConsumesMoreThan fixed.LONGEST_INPUT (S.remaining source.old) (S.remaining source.new)) }
    ensures memory { result ≡ Err RunError.Memory
        → S.failure_count source.new ≡ S.failure_count source.old }
    ensures errors { IfErr result (λ e. (e ≡ RunError.ReadFault) ⊎ (e ≡ RunError.Memory)) }
    ensures bounded { ConsumesAtMost (fixed.LONGEST_INPUT + 1)
        (S.remaining source.old) (S.remaining source.new) }
{
    let mut so_far = Output::new(alloc)?;
    let mut buffer = [0u8; 8192];
    let mut received = 0;
    while received <= LONGEST_INPUT {
        let room = buffer.len().min(LONGEST_INPUT + 1 - received);
        match source.take(&mut buffer[..room]) {
            Err(IoFailed) => return Err(RunError::ReadFault),
            Ok(0) => {
                so_far.end_line(alloc, each, b"")?;
                return Ok(so_far);
            }
            Ok(count) => {
                so_far.say_piece(alloc, each, &buffer[..count])?;
                received += count;
            }
        }
    }
    Err(RunError::ReadFault)
}

/// Runs a command over each datagram of a recording. The text is made as the input is read. It is
/// written once the input has ended and no line is bad.
pub(crate) fn run_each<S: Source, W: Sink, E: PerDatagram>(
    alloc: Global,
    source: &mut S,
    sink: &mut W,
    each: &E,
) -> Result<Verdict, RunError>
    ensures { Runs S.remaining S.is_ended S.failure_count
        W.contents W.is_stalled W.stall_count W.failure_count
        (Prints (E.finds each.now) (E.text each.now) E.takes)
        source.old source.new sink.old sink.new result }
{
    let Output {
        bad_line,
        verdict,
        mut parts,
        part,
        ..
    } = say_input(alloc, source, each)?;
    if let Some(number) = bad_line {
        return Err(RunError::BadLine(number));
    }
    parts.push(part)?;
    give_parts(sink, parts.as_slice())?;
    Ok(verdict)
}
