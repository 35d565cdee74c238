//! The run that shows a recording in bytes: each datagram's bytes beside what they are.

ghost use Rattle.std.specs.Prelude.{is_none};
ghost use Rattle.rtnl.specs.ByteRows.{ShowsBytes};
ghost use Rattle.rtnl.specs.Runs.{Runs};

use crate::bytes::rows::{Printing, RowFormat};
use crate::bytes::tape::tape_of;
use crate::bytes::{push_ending, push_opening, push_rows};
use crate::error::RunError;
use crate::runs::per_datagram::PerDatagram;
use crate::runs::run_each::run_each;
use crate::streams::sink::Sink;
use crate::streams::source::Source;
use crate::verdict::Verdict;
use nl_frame::Limits;
use std::alloc::{AllocError, Global};

/// Writes the bytes of datagrams that are read under these limits, in rows of this form.
#[derive(Clone, Copy)]
pub(crate) struct ShowBytes {
    pub(crate) limits: Limits,
    pub(crate) format: RowFormat,
}

impl PerDatagram for ShowBytes {
    ghost use Rattle.rtnl.specs.ByteRows.{Viewed, Views, is_accepted, viewed_text};

    ghost Found = { Viewed };

    ghost finds = { λ s. Views s.limits };

    ghost text = { λ s. viewed_text s.format s.limits.shape.order };

    ghost takes = { is_accepted };

    fn push(
        &self,
        alloc: Global,
        out: &mut Vec<u8>,
        number: usize,
        bytes: &[u8],
    ) -> Result<bool, AllocError> {
        let how = Printing {
            format: self.format,
            order: self.limits.order(),
            number,
        };
        let tape = tape_of(alloc, bytes, &self.limits)?;
        push_opening(out, how, bytes)?;
        push_rows(alloc, out, how, bytes, &tape)?;
        push_ending(out, self.format, tape.refusal)?;
        Ok(tape.refusal.is_none())
    }
}

/// Shows the bytes of each datagram in rows of at most sixteen, beside what they are. Each byte
/// stands there once, and in order. Bytes are fields of headers and of structs, payloads, or
/// padding. Text is indented as that of `run_show`, and the line of a refusal follows the rows. In
/// JSON (RFC 8259) each row is an object on a line.
///
/// Of a refused datagram, what stands before its first fault is shown so. The head that breaks a
/// rule follows, with the refusal. The other bytes come last, as bytes.
///
/// It reads, writes and ends as `run_show` does.
pub fn run_show_bytes<S: Source, W: Sink>(
    alloc: Global,
    source: &mut S,
    sink: &mut W,
    limits: &Limits,
    format: RowFormat,
) -> Result<Verdict, RunError>
    // It wrote each byte of the datagrams that it read once, in order. Beside it stand its offset,
    // and the name and the value of its part. The verdict is theirs.
    ensures runs { Runs S.remaining S.is_ended S.failure_count
        W.contents W.is_stalled W.stall_count W.failure_count
        (ShowsBytes format limits.now) source.old source.new sink.old sink.new result }
{
    let show = ShowBytes {
        limits: *limits,
        format,
    };
    run_each(alloc, source, sink, &show)
}
