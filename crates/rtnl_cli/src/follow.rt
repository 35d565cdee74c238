//! Following a recording as it comes.

ghost use Rattle.std.specs.Prelude.{◌≡◌, false};

use crate::arguments::{Follow, FollowOutput, Format};
use crate::explain::{explain_datagram, explain_one_line, explain_refused};
use crate::output::Errors;
use crate::pieces::Name;
use crate::pieces::Piece::{Number, Text};
use crate::standard_error::name_file;
use crate::terminal::{is_coloured, row_format};
use rtnl::frame::Limits;
use rtnl::{
    DumpFollowed, FollowListener, Followed, LiveSource, MirrorFollowed, RunError, Sink, run_follow,
    run_follow_bytes, run_follow_coloured, run_follow_dump, run_follow_dump_json, run_follow_json,
    run_mirror, run_mirror_json,
};
use std::io;

/// Names bad lines on standard error, and says why datagrams are refused, and what the kernel says
/// of errors, where that is asked for.
#[derive(Drop)]
pub(crate) struct BadLineReporter<'a> {
    pub rt: &'a HostRuntime,
    pub name: Name<'a>,
    pub explain: bool,
    pub is_strict: bool,
    pub limits: &'a Limits,
    /// It has answered that the lines behind a bad one aren't followed.
    pub is_ended: bool,
}

impl BadLineReporter<'_> {
    /// Writes that the line of this number is bad, and why where that is asked for.
    fn name_line(&self, number: u64, line: Option<&[u8]>) -> io::Result<()> {
        let (rt, name) = (self.rt, self.name);
        Errors(rt).say(&[Number("line ", number), Text(": bad line")])?;
        if self.explain {
            explain_one_line(rt, name, number, line)
        } else {
            name_file(rt, name)
        }
    }
}

impl FollowListener for BadLineReporter<'_> {
    ghost use Rattle.std.specs.Prelude.{IsTrue, None};

    ghost heard = { λ _. None };

    ghost is_ended = { λ reporter. IsTrue reporter.is_ended };

    fn bad_line(&mut self, number: u64, line: Option<&[u8]>) -> bool {
        // A line that can't be written is not worth ending for.
        let _ = self.name_line(number, line);
        self.is_ended = self.is_strict;
        !self.is_ended
    }

    fn refused_datagram(&self, number: u64, datagram: &[u8]) {
        if self.explain {
            let _ = explain_refused(self.rt, number as usize, datagram, self.limits);
        }
    }

    fn taken_datagram(&self, number: u64, datagram: &[u8]) {
        if self.explain {
            let _ = explain_datagram(self.rt, number as usize, datagram, self.limits);
        }
    }
}

/// How the following of a recording ended.
#[derive(Clone, Copy)]
pub(crate) struct Ended {
    pub counts: Followed,
    /// No line was bad; and no datagram was refused or, of a dump, it is complete. Of a mirror no
    /// dump was refused either, and each table that is printed is current.
    pub is_clean: bool,
}

impl Ended {
    /// Of datagrams by themselves.
    fn of_each(counts: Followed) -> Ended {
        let is_clean = counts.refused == 0 && counts.bad_lines == 0;
        Ended { counts, is_clean }
    }

    fn of_dump(DumpFollowed { counts, complete }: DumpFollowed) -> Ended {
        let is_clean = complete && counts.bad_lines == 0;
        Ended { counts, is_clean }
    }

    fn of_mirror(ended: MirrorFollowed) -> Ended {
        let Ended { counts, is_clean } = Ended::of_each(ended.counts);
        let is_clean = is_clean && ended.unbegun == 0 && ended.current;
        Ended { counts, is_clean }
    }
}

/// Follows what a source gives; what is printed goes to a sink.
pub(crate) fn follow<S: LiveSource<W>, W: Sink>(
    source: &mut S,
    sink: &mut W,
    reporter: &mut BadLineReporter<'_>,
    follow: &Follow,
) -> Result<Ended, RunError>
    requires { reporter.old.is_ended ≡ false }
{
    let (rt, limits) = (reporter.rt, &follow.limits);
    let alloc = rt.alloc();
    match (follow.output, follow.format) {
        (FollowOutput::Each(color), Format::Text) if is_coloured(rt, color) => {
            run_follow_coloured(alloc, source, sink, reporter, limits).map(Ended::of_each)
        }
        (FollowOutput::Each(_), Format::Text) => {
            run_follow(alloc, source, sink, reporter, limits).map(Ended::of_each)
        }
        (FollowOutput::Each(_), Format::Json) => {
            run_follow_json(alloc, source, sink, reporter, limits).map(Ended::of_each)
        }
        (FollowOutput::Bytes(color), format) => {
            let rows = row_format(rt, color, format);
            run_follow_bytes(alloc, source, sink, reporter, limits, rows).map(Ended::of_each)
        }
        (FollowOutput::Dump(dump), Format::Text) => {
            run_follow_dump(alloc, source, sink, reporter, dump, limits).map(Ended::of_dump)
        }
        (FollowOutput::Dump(dump), Format::Json) => {
            run_follow_dump_json(alloc, source, sink, reporter, dump, limits).map(Ended::of_dump)
        }
        (FollowOutput::Mirror(settings), Format::Text) => {
            run_mirror(alloc, source, sink, reporter, &settings).map(Ended::of_mirror)
        }
        (FollowOutput::Mirror(settings), Format::Json) => {
            run_mirror_json(alloc, source, sink, reporter, &settings).map(Ended::of_mirror)
        }
    }
}
