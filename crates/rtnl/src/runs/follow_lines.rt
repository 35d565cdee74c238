//! The loop that follows a recording: what a line says is printed as the line ends.

ghost use Rattle.std.specs.Prelude.{◌≡◌, ◌≤◌, List, [], Some, ℕ, Option, length, OnOk};
ghost use Rattle.rtnl.specs.Followed.{Follows, FollowsAll, FollowsPiece, GoesOn, IsCounted};
ghost use Rattle.rtnl.specs.Followed.{TellsLine, with_part};
ghost use Rattle.rtnl.specs.Followed as fixed;

use crate::error::RunError;
use crate::recordings::unfinished::{LONGEST_LINE, Unfinished};
use crate::runs::followed::{FollowListener, Followed, Progress, tell_bad, tell_line};
use crate::runs::per_line::PerLine;
use crate::streams::errors::IoFailed;
use crate::streams::sink::Sink;
use crate::streams::source::LiveSource;
use memchr::memchr;
use std::alloc::Global;

/// The line that has not ended, and what was counted so far.
#[derive(Drop)]
struct FollowState {
    unfinished: Unfinished,
    progress: Progress,
}

impl FollowState {
    ghost use Rattle.rtnl.specs.Followed.{none_followed};

    /// Nothing is followed yet.
    fn new(alloc: Global) -> FollowState
        ensures unfinished { result.unfinished ≡ Some [] }
        ensures counts { result.progress.counts ≡ none_followed }
    {
        FollowState {
            unfinished: Unfinished::new(alloc),
            progress: Progress::new(alloc),
        }
    }
}

/// Handles the line that ends with `part`, and answers whether the next line is handled. A line
/// that came in one part is not copied.
fn end_line<W: Sink, B: FollowListener, E: PerLine>(
    alloc: Global,
    each: &E,
    kept: &mut E::Kept,
    sink: &mut W,
    listener: &mut B,
    state: &mut FollowState,
    part: &[u8],
) -> Result<bool, RunError>
    requires counted { IsCounted 1 state.old.progress.counts }
    requires short { length part.now ≤ fixed.LONGEST_LINE }
    requires going { GoesOn E.ends B.is_ended kept.old listener.old }
    ensures tells { TellsLine (E.says each.now) (E.finds each.now) (E.text each.now) E.takes E.ends
        B.heard B.is_ended W.contents W.is_stalled W.stall_count W.failure_count
        (with_part state.old.unfinished part.now) kept.old kept.new
        state.old.progress.counts state.new.progress.counts
        listener.old listener.new sink.old sink.new result }
    ensures cleared { OnOk result (state.new.unfinished ≡ Some []) }
{
    let FollowState {
        unfinished,
        progress,
    } = state;
    if let Some([]) = unfinished.line() {
        return tell_line(alloc, each, kept, sink, listener, progress, part);
    }
    unfinished.push(part)?;
    let goes_on = match unfinished.line() {
        Some(line) => tell_line(alloc, each, kept, sink, listener, progress, line)?,
        None => tell_bad(listener, &mut progress.counts, None),
    };
    unfinished.clear();
    Ok(goes_on)
}

/// Handles the lines that end in a piece of the input, and keeps the rest of the piece. It answers
/// whether the next line is handled.
fn follow_piece<W: Sink, B: FollowListener, E: PerLine>(
    alloc: Global,
    each: &E,
    kept: &mut E::Kept,
    sink: &mut W,
    listener: &mut B,
    state: &mut FollowState,
    piece: &[u8],
) -> Result<bool, RunError>
    requires counted { IsCounted (length piece.now) state.old.progress.counts }
    requires short { length piece.now ≤ fixed.LONGEST_LINE }
    requires going { GoesOn E.ends B.is_ended kept.old listener.old }
    ensures { (before : List ℕ) (first : E.Kept) (unheard : B) (old : Option (List ℕ))
        → Follows (E.says each.now) (E.finds each.now) (E.text each.now) E.takes E.ends B.heard B.is_ended
        before state.old.unfinished first kept.old state.old.progress.counts
        unheard listener.old old (W.contents sink.old)
        → FollowsPiece (E.says each.now) (E.finds each.now) (E.text each.now) E.takes E.ends B.heard B.is_ended
        W.contents W.is_stalled W.stall_count W.failure_count before piece.now
        state.new.unfinished first kept.new state.new.progress.counts
        unheard listener.new old sink.old sink.new result }
{
    let mut left = piece;
    while let Some(end) = memchr(b'\n', left) {
        let (part, rest) = left.split_at(end);
        if !end_line(alloc, each, kept, sink, listener, state, part)? {
            return Ok(false);
        }
        let (_newline, behind) = rest.split_at(1);
        left = behind;
    }
    state.unfinished.push(left)?;
    Ok(true)
}

/// The most bytes that are followed, so that a `u64` can count their lines.
const MOST_FOLLOWED: u64 = u64::MAX - 65_536;

/// Follows a recording. It handles each line as the line ends, and the last one at the end of the
/// input. `kept` is what the command keeps from one line to the next.
///
/// The text of a line is written before the next read. One piece and one line of the input are
/// kept. After a read fault or the end of memory the texts of whole lines were written. After a
/// write fault a prefix of that was.
pub(crate) fn follow<S: LiveSource<W>, W: Sink, B: FollowListener, E: PerLine>(
    alloc: Global,
    source: &mut S,
    sink: &mut W,
    listener: &mut B,
    each: &E,
    kept: &mut E::Kept,
) -> Result<Followed, RunError>
    requires going { GoesOn E.ends B.is_ended kept.old listener.old }
    ensures { FollowsAll (E.says each.now) (E.finds each.now) (E.text each.now) E.takes E.ends B.heard B.is_ended
        S.remaining S.is_ended S.failure_count S.reads
        W.contents W.is_stalled W.stall_count W.failure_count kept.old kept.new
        source.old source.new sink.old sink.new listener.old listener.new result }
{
    let mut state = FollowState::new(alloc);
    let mut buffer = [0u8; 8192];
    let mut received = 0;
    while received <= MOST_FOLLOWED {
        match source.take_behind(sink, &mut buffer) {
            Err(IoFailed) => return Err(RunError::ReadFault),
            Ok(0) => {
                end_line(alloc, each, kept, sink, listener, &mut state, b"")?;
                return Ok(state.progress.counts);
            }
            Ok(count) => {
                let piece = &buffer[..count];
                if !follow_piece(alloc, each, kept, sink, listener, &mut state, piece)? {
                    return Ok(state.progress.counts);
                }
                received += count as u64;
            }
        }
    }
    Err(RunError::ReadFault)
}
