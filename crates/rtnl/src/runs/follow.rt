//! Runs that follow a recording of any length: each datagram is printed as it comes.

ghost use Rattle.rtnl.specs.ByteRows.{Views, is_accepted, viewed_text};
ghost use Rattle.rtnl.specs.Followed.{FollowsAll, alone, never};
ghost use Rattle.rtnl.specs.Lines.{line_at};
ghost use Rattle.rtnl.specs.Painted.{coloured_text};
ghost use Rattle.rtnl.specs.Shown.{Answers, datagram_json, datagram_text};
ghost use Rattle.rtnl.specs.Shown.{is_accepted as is_accepted_answer};

use crate::bytes::rows::RowFormat;
use crate::error::RunError;
use crate::runs::follow_lines::follow;
use crate::runs::followed::{FollowListener, Followed};
use crate::runs::show::{Show, ShowColoured, ShowJson};
use crate::runs::show_bytes::ShowBytes;
use crate::streams::sink::Sink;
use crate::streams::source::LiveSource;
use nl_frame::Limits;
use std::alloc::Global;

/// Follows the lines that a source gives. It writes the text of each datagram, as `run_show` does,
/// before it reads on. Datagrams and lines are numbered from 1.
///
/// The input may have any length. One read of it is kept, and one line of at most `LONGEST_LINE`
/// bytes. `listener` hears of each bad line, and says whether the lines after it are followed.
/// Where no line is bad, what is written is what `run_show` writes.
///
/// After a read fault the texts of all whole lines before it were written. After the end of memory
/// those of some first lines were. After a write fault a prefix of these was.
pub fn run_follow<S: LiveSource<W>, W: Sink, B: FollowListener>(
    alloc: Global,
    source: &mut S,
    sink: &mut W,
    listener: &mut B,
    limits: &Limits,
) -> Result<Followed, RunError>
    requires { B.is_ended listener.old → ⊥ }
    ensures { FollowsAll (line_at 0) (alone (Answers limits.now)) (datagram_text limits.now.shape.order)
        is_accepted_answer never B.heard B.is_ended S.remaining S.is_ended S.failure_count S.reads
        W.contents W.is_stalled W.stall_count W.failure_count tt tt
        source.old source.new sink.old sink.new listener.old listener.new result }
{
    let each = Show { limits: *limits };
    follow(alloc, source, sink, listener, &each, &mut ())
}

/// Follows the lines as `run_follow` does, and writes of each datagram what `run_show_coloured`
/// writes.
pub fn run_follow_coloured<S: LiveSource<W>, W: Sink, B: FollowListener>(
    alloc: Global,
    source: &mut S,
    sink: &mut W,
    listener: &mut B,
    limits: &Limits,
) -> Result<Followed, RunError>
    requires { B.is_ended listener.old → ⊥ }
    ensures { FollowsAll (line_at 0) (alone (Answers limits.now)) (coloured_text limits.now.shape.order)
        is_accepted_answer never B.heard B.is_ended S.remaining S.is_ended S.failure_count S.reads
        W.contents W.is_stalled W.stall_count W.failure_count tt tt
        source.old source.new sink.old sink.new listener.old listener.new result }
{
    let each = ShowColoured { limits: *limits };
    follow(alloc, source, sink, listener, &each, &mut ())
}

/// Follows the lines as `run_follow` does, and writes of each datagram what `run_show_json` writes.
pub fn run_follow_json<S: LiveSource<W>, W: Sink, B: FollowListener>(
    alloc: Global,
    source: &mut S,
    sink: &mut W,
    listener: &mut B,
    limits: &Limits,
) -> Result<Followed, RunError>
    requires { B.is_ended listener.old → ⊥ }
    ensures { FollowsAll (line_at 0) (alone (Answers limits.now)) (datagram_json limits.now.shape.order)
        is_accepted_answer never B.heard B.is_ended S.remaining S.is_ended S.failure_count S.reads
        W.contents W.is_stalled W.stall_count W.failure_count tt tt
        source.old source.new sink.old sink.new listener.old listener.new result }
{
    let each = ShowJson { limits: *limits };
    follow(alloc, source, sink, listener, &each, &mut ())
}

/// Follows the lines as `run_follow` does, and writes of each datagram what `run_show_bytes` writes.
pub fn run_follow_bytes<S: LiveSource<W>, W: Sink, B: FollowListener>(
    alloc: Global,
    source: &mut S,
    sink: &mut W,
    listener: &mut B,
    limits: &Limits,
    format: RowFormat,
) -> Result<Followed, RunError>
    requires { B.is_ended listener.old → ⊥ }
    ensures { FollowsAll (line_at 0) (alone (Views limits.now)) (viewed_text format limits.now.shape.order)
        is_accepted never B.heard B.is_ended S.remaining S.is_ended S.failure_count S.reads
        W.contents W.is_stalled W.stall_count W.failure_count tt tt
        source.old source.new sink.old sink.new listener.old listener.new result }
{
    let each = ShowBytes {
        limits: *limits,
        format,
    };
    follow(alloc, source, sink, listener, &each, &mut ())
}
