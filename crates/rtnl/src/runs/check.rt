//! Runs that check a recording: as text, as lines of JSON.

ghost use Rattle.std.specs.Prelude.{◌≡◌, ◌++◌, Ok, OnOk};
ghost use Rattle.rtnl.specs.Checked.{Checks};
ghost use Rattle.rtnl.specs.Checked.{ChecksJson, finding_text};
ghost use Rattle.rtnl.specs.Runs.{Runs};

use crate::error::RunError;
use crate::json_lines;
use crate::json_lines::line::Line;
use crate::pieces::push;
use crate::runs::per_datagram::PerDatagram;
use crate::runs::run_each::run_each;
use crate::streams::sink::Sink;
use crate::streams::source::Source;
use crate::text::datagram::{push_number, push_refusal};
use crate::verdict::Verdict;
use nl_frame::{Limits, is_canonical};
use std::alloc::{AllocError, Global};

#[tactic(auto, unfolding(crate::specs::Checked::finding_text))]
fn push_accepted(out: &mut Vec<u8>, canonical: bool) -> Result<(), AllocError>
    ensures { OnOk result (out.new.items ≡ out.old.items ++ finding_text (Ok canonical)) }
{
    push(
        out,
        if canonical {
            "canonical\n"
        } else {
            "accepted\n"
        },
    )
}

/// Writes what a check under these limits finds of datagrams, as text.
#[derive(Clone, Copy)]
struct Check {
    limits: Limits,
}

impl PerDatagram for Check {
    ghost use Rattle.rtnl.specs.Checked.{Finding, Finds, checked_line, is_accepted};

    ghost Found = { Finding };

    ghost finds = { λ c. Finds c.limits };

    ghost text = { λ _. checked_line };

    ghost takes = { is_accepted };

    fn push(
        &self,
        alloc: Global,
        out: &mut Vec<u8>,
        number: usize,
        bytes: &[u8],
    ) -> Result<bool, AllocError> {
        push_number(out, number)?;
        match is_canonical(alloc, bytes, &self.limits) {
            Ok(canonical) => {
                push_accepted(out, canonical)?;
                Ok(true)
            }
            Err(error) => {
                push_refusal(out, error)?;
                Ok(false)
            }
        }
    }
}

/// Writes what a check under these limits finds of datagrams, as lines of JSON.
#[derive(Clone, Copy)]
struct CheckJson {
    limits: Limits,
}

impl PerDatagram for CheckJson {
    ghost use Rattle.rtnl.specs.Checked.{Finding, Finds, finding_json, is_accepted};

    ghost Found = { Finding };

    ghost finds = { λ c. Finds c.limits };

    ghost text = { λ _. finding_json };

    ghost takes = { is_accepted };

    fn push(
        &self,
        alloc: Global,
        out: &mut Vec<u8>,
        number: usize,
        bytes: &[u8],
    ) -> Result<bool, AllocError> {
        let mut line = Line::begin(alloc, out)?;
        line.number("datagram", number as u64)?;
        match is_canonical(alloc, bytes, &self.limits) {
            Ok(canonical) => {
                line.boolean("canonical", canonical)?;
                line.end(out)?;
                Ok(true)
            }
            Err(error) => {
                json_lines::datagram::push_refusal(&mut line, error)?;
                line.end(out)?;
                Ok(false)
            }
        }
    }
}

/// Checks the datagrams of the lines that a source gives. It writes whether each is canonical,
/// accepted though not canonical, or refused, and why.
///
/// The text is written once the input has ended and no line is bad. After a bad line, a read fault
/// or the end of memory nothing was written. After a write fault a prefix of the text was. The
/// verdict is NotClean exactly where a datagram was refused.
pub fn run_check<S: Source, W: Sink>(
    alloc: Global,
    source: &mut S,
    sink: &mut W,
    limits: &Limits,
) -> Result<Verdict, RunError>
    // It wrote what a check says of the datagrams that it read. The verdict is theirs.
    ensures runs { Runs S.remaining S.is_ended S.failure_count
        W.contents W.is_stalled W.stall_count W.failure_count
        (Checks limits.now) source.old source.new sink.old sink.new result }
{
    run_each(alloc, source, sink, &Check { limits: *limits })
}

/// Checks each datagram as `run_check` does, and writes a line of JSON (RFC 8259) in place of
/// text. Its object has the datagram's number, and whether it is canonical or why it is refused.
///
/// It reads, writes and ends as `run_check` does.
pub fn run_check_json<S: Source, W: Sink>(
    alloc: Global,
    source: &mut S,
    sink: &mut W,
    limits: &Limits,
) -> Result<Verdict, RunError>
    // It wrote the objects of the datagrams that it read. The verdict is theirs.
    ensures runs { Runs S.remaining S.is_ended S.failure_count
        W.contents W.is_stalled W.stall_count W.failure_count
        (ChecksJson limits.now) source.old source.new sink.old sink.new result }
{
    run_each(alloc, source, sink, &CheckJson { limits: *limits })
}
