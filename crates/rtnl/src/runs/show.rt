//! Runs that show a recording: as text, as text in colours, as lines of JSON.

ghost use Rattle.std.specs.Prelude.{◌≡◌, ◌++◌, IfOk, OnErr};
ghost use Rattle.rtnl.specs.Painted.{ShowsColoured};
ghost use Rattle.rtnl.specs.Runs.{Runs};
ghost use Rattle.rtnl.specs.Shown.{Answer, Answers, datagram_json, datagram_text, is_accepted};
ghost use Rattle.rtnl.specs.Shown.{Shows, ShowsJson};

use crate::error::RunError;
use crate::json_lines;
use crate::json_lines::line::Line;
use crate::runs::per_datagram::PerDatagram;
use crate::runs::run_each::run_each;
use crate::streams::sink::Sink;
use crate::streams::source::Source;
use crate::text::datagram::{push_datagram_line, push_refusal};
use crate::text::message::push_messages;
use crate::text::painting::push_in_colours;
use crate::verdict::Verdict;
use nl_frame::{Limits, read_datagram};
use std::alloc::{AllocError, Global};

/// Appends the text that `run_show` writes of the datagram of this number. It answers whether the
/// datagram was accepted.
///
/// It fails only where memory runs out; then `out` is as it was.
pub fn push_datagram(
    alloc: Global,
    out: &mut Vec<u8>,
    number: usize,
    bytes: &[u8],
    limits: &Limits,
) -> Result<bool, AllocError>
    // The text is that of the datagram's answer under these limits.
    ensures text { IfOk result (λ taken. (answer : Answer) × Answers limits.now bytes.now answer
        × (out.new.items ≡ out.old.items
        ++ datagram_text limits.now.shape.order number bytes.now answer)
        × (taken ≡ is_accepted answer)) }
    ensures unchanged { OnErr result (out.new.items ≡ out.old.items) }
{
    let mut text = Vec::new(alloc);
    let taken = Show { limits: *limits }.push(alloc, &mut text, number, bytes)?;
    out.extend_from_slice(&text)?;
    Ok(taken)
}

/// Appends the line of JSON that `run_show_json` writes of the datagram of this number. It answers
/// whether the datagram was accepted.
///
/// It fails only where memory runs out; then `out` is as it was.
pub fn push_datagram_json(
    alloc: Global,
    out: &mut Vec<u8>,
    number: usize,
    bytes: &[u8],
    limits: &Limits,
) -> Result<bool, AllocError>
    // The line is that of the datagram's answer under these limits.
    ensures text { IfOk result (λ taken. (answer : Answer) × Answers limits.now bytes.now answer
        × (out.new.items ≡ out.old.items
        ++ datagram_json limits.now.shape.order number bytes.now answer)
        × (taken ≡ is_accepted answer)) }
    ensures unchanged { OnErr result (out.new.items ≡ out.old.items) }
{
    let mut text = Vec::new(alloc);
    let taken = ShowJson { limits: *limits }.push(alloc, &mut text, number, bytes)?;
    out.extend_from_slice(&text)?;
    Ok(taken)
}

/// Writes datagrams that are read under these limits, as text.
#[derive(Clone, Copy)]
pub(crate) struct Show {
    pub(crate) limits: Limits,
}

impl PerDatagram for Show {
    ghost use Rattle.rtnl.specs.Shown.{Answer, Answers, datagram_text, is_accepted};

    ghost Found = { Answer };

    ghost finds = { λ s. Answers s.limits };

    ghost text = { λ s. datagram_text s.limits.shape.order };

    ghost takes = { is_accepted };

    fn push(
        &self,
        alloc: Global,
        out: &mut Vec<u8>,
        number: usize,
        bytes: &[u8],
    ) -> Result<bool, AllocError> {
        push_datagram_line(out, number, bytes.len())?;
        match read_datagram(alloc, bytes, &self.limits).into_result() {
            Ok(messages) => {
                push_messages(alloc, out, self.limits.order(), messages.as_slice())?;
                Ok(true)
            }
            Err(error) => {
                push_refusal(out, error)?;
                Ok(false)
            }
        }
    }
}

/// Writes the text of `Show` in colours.
#[derive(Clone, Copy)]
pub(crate) struct ShowColoured {
    pub(crate) limits: Limits,
}

impl PerDatagram for ShowColoured {
    ghost use Rattle.rtnl.specs.Painted.{coloured_text};
    ghost use Rattle.rtnl.specs.Shown.{Answer, Answers, is_accepted};

    ghost Found = { Answer };

    ghost finds = { λ s. Answers s.limits };

    ghost text = { λ s. coloured_text s.limits.shape.order };

    ghost takes = { is_accepted };

    fn push(
        &self,
        alloc: Global,
        out: &mut Vec<u8>,
        number: usize,
        bytes: &[u8],
    ) -> Result<bool, AllocError> {
        let mut text = Vec::new(alloc);
        let plain = Show {
            limits: self.limits,
        };
        let taken = plain.push(alloc, &mut text, number, bytes)?;
        push_in_colours(out, text.as_slice())?;
        Ok(taken)
    }
}

/// Writes datagrams that are read under these limits, as lines of JSON.
#[derive(Clone, Copy)]
pub(crate) struct ShowJson {
    pub(crate) limits: Limits,
}

impl PerDatagram for ShowJson {
    ghost use Rattle.rtnl.specs.Shown.{Answer, Answers, datagram_json, is_accepted};

    ghost Found = { Answer };

    ghost finds = { λ s. Answers s.limits };

    ghost text = { λ s. datagram_json s.limits.shape.order };

    ghost takes = { is_accepted };

    fn push(
        &self,
        alloc: Global,
        out: &mut Vec<u8>,
        number: usize,
        bytes: &[u8],
    ) -> Result<bool, AllocError> {
        let mut line = Line::begin(alloc, out)?;
        line.number("datagram", number as u64)?;
        match read_datagram(alloc, bytes, &self.limits).into_result() {
            Ok(messages) => {
                line.number("bytes", bytes.len() as u64)?;
                json_lines::message::push_messages(
                    &mut line,
                    self.limits.order(),
                    messages.as_slice(),
                )?;
                line.end(out)?;
                Ok(true)
            }
            Err(error) => {
                json_lines::datagram::push_refusal(&mut line, error)?;
                line.end(out)?;
                Ok(false)
            }
        }
    }
}

/// Shows each datagram of the lines that a source gives: its messages and their attributes, or why
/// it is refused.
///
/// The text is written once the input has ended and no line is bad. After a bad line, a read fault
/// or the end of memory nothing was written. After a write fault a prefix of the text was. The
/// verdict is NotClean exactly where a datagram was refused.
pub fn run_show<S: Source, W: Sink>(
    alloc: Global,
    source: &mut S,
    sink: &mut W,
    limits: &Limits,
) -> Result<Verdict, RunError>
    // It wrote the text of the datagrams that it read. The verdict is theirs.
    ensures runs { Runs S.remaining S.is_ended S.failure_count
        W.contents W.is_stalled W.stall_count W.failure_count
        (Shows limits.now) source.old source.new sink.old sink.new result }
{
    run_each(alloc, source, sink, &Show { limits: *limits })
}

/// Shows each datagram as `run_show` does, in colours for a terminal. The line of a refusal is
/// red, a message's type bold, an attribute's name cyan. The text is what `run_show` writes, with
/// escapes put in (`laws::colours_change_nothing`).
///
/// It reads, writes and ends as `run_show` does.
pub fn run_show_coloured<S: Source, W: Sink>(
    alloc: Global,
    source: &mut S,
    sink: &mut W,
    limits: &Limits,
) -> Result<Verdict, RunError>
    // It wrote the text of the datagrams that it read, in colours. The verdict is theirs.
    ensures runs { Runs S.remaining S.is_ended S.failure_count
        W.contents W.is_stalled W.stall_count W.failure_count
        (ShowsColoured limits.now) source.old source.new sink.old sink.new result }
{
    run_each(alloc, source, sink, &ShowColoured { limits: *limits })
}

/// Shows each datagram as `run_show` does, as a line of JSON (RFC 8259) in place of text. Its
/// object has the datagram's number, size and messages, or the number and why it is refused.
///
/// It reads, writes and ends as `run_show` does.
pub fn run_show_json<S: Source, W: Sink>(
    alloc: Global,
    source: &mut S,
    sink: &mut W,
    limits: &Limits,
) -> Result<Verdict, RunError>
    // It wrote the objects of the datagrams that it read. The verdict is theirs.
    ensures runs { Runs S.remaining S.is_ended S.failure_count
        W.contents W.is_stalled W.stall_count W.failure_count
        (ShowsJson limits.now) source.old source.new sink.old sink.new result }
{
    run_each(alloc, source, sink, &ShowJson { limits: *limits })
}
