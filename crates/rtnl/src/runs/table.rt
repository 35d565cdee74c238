//! Runs that read a recording as the answers to a dump.

ghost use Rattle.std.specs.Prelude.{◌≡◌, ◌≤◌, ◌+◌, ◌++◌, ◌↔◌, IsTrue};
ghost use Rattle.std.specs.Prelude.{List, length, drop, Result, IfOk, OnOk};
ghost use Rattle.nl_dump.specs.Steps.{Fed, IsWaiting};
ghost use Rattle.nl_dump.specs.declared.dump.Progress.{Progress as AnyProgress};
ghost use Rattle.nl_dump.specs.declared.errors.FeedError.{FeedError as AnyFeedError};
ghost use Rattle.rtnl.specs.Runs.{Runs};
ghost use Rattle.rtnl.specs.TabledJson.{TablesJson};
ghost use Rattle.rtnl.specs.Tabled.{Answered, FeedsSome, IsReported, ReportsFrom, Tables};
ghost use Rattle.rtnl.specs.Tabled.{answer_text, refusals_text, verdict_of};

use crate::error::RunError;
use crate::recordings::recording::Datagrams;
use crate::runs::entries::{ending_of, push_table};
use crate::runs::report::{InJson, InText, ReportFormat};
use crate::runs::request::begun;
use crate::runs::run::{Command, run};
use crate::streams::sink::Sink;
use crate::streams::source::Source;
use crate::verdict::Verdict;
use nl_dump::{Dump, Seed, Session, State};
use nl_frame::Limits;
use std::alloc::{AllocError, Global};
use std::marker::PhantomData;

fn is_waiting(state: State) -> bool
    ensures { IsTrue result ↔ IsWaiting state }
{
    matches!(state, State::Waiting(_))
}

/// Feeds a datagram to a session in which a dump waits. Writes why it is refused, if it is.
fn feed_one<F: ReportFormat>(
    alloc: Global,
    session: &mut Session,
    out: &mut Vec<u8>,
    number: usize,
    bytes: &[u8],
) -> Result<(), AllocError>
    requires { IsWaiting session.old.state }
    ensures { IfOk result (λ _. (r : Result AnyProgress AnyFeedError)
        × Fed session.old bytes.now r session.new × IsReported r
        × (out.new.items ≡ out.old.items ++ answer_text F.report number r)) }
{
    match session.feed(bytes) {
        Ok(_) => Ok(()),
        Err(error) => F::push_refusal(alloc, out, number, error),
    }
}

/// Feeds datagrams in order until the dump has ended, and writes why datagrams are refused. It
/// answers how many were fed.
fn feed_all<F: ReportFormat>(
    alloc: Global,
    session: &mut Session,
    out: &mut Vec<u8>,
    datagrams: &Datagrams,
) -> Result<usize, AllocError>
    ensures { IfOk result (λ count. (count ≤ length datagrams.now)
        × (IsWaiting session.new.state → count ≡ length datagrams.now)
        × ((fed : List Answered)
        × FeedsSome session.old datagrams.now fed (drop count datagrams.now) session.new
        × (out.new.items ≡ out.old.items ++ refusals_text F.report fed))) }
{
    for index in 0..datagrams.len() {
        if !is_waiting(session.state()) {
            return Ok(index);
        }
        feed_one::<F>(alloc, session, out, index + 1, datagrams.get(index))?;
    }
    Ok(datagrams.len())
}

/// How many bytes of text most datagrams have per byte, at most.
const TEXT_OF_A_BYTE: usize = 8;

/// Reserves room for the text of a session's entries, so that it rarely moves as it grows.
fn reserve_text(out: &mut Vec<u8>, session: &Session) -> Result<(), AllocError>
    ensures { OnOk result (out.new.items ≡ out.old.items) }
{
    let received = session.received() as usize;
    out.reserve(received.saturating_mul(TEXT_OF_A_BYTE))
}

fn verdict(complete: bool) -> Verdict
    ensures { result ≡ verdict_of complete }
{
    if complete {
        Verdict::Clean
    } else {
        Verdict::NotClean
    }
}

/// Prints datagrams as the answers to a dump, under these limits and this seed.
#[derive(Clone, Copy)]
struct Tabulate<F> {
    dump: Dump,
    limits: Limits,
    seed: Seed,
    report: PhantomData<F>,
}

impl<F: ReportFormat> Tabulate<F> {
    /// Feeds the datagrams to a session in which the dump waits. Answers the report of the
    /// session, and whether the dump is complete.
    fn report_of(
        &self,
        alloc: Global,
        session: &mut Session,
        datagrams: &Datagrams,
    ) -> Result<(Vec<u8>, Verdict), AllocError>
        ensures { IfOk result (λ p. ReportsFrom F.report self.now.limits.shape.order self.now.dump
            session.old datagrams.now p.0.items p.1 session.new) }
    {
        let mut out = Vec::new(alloc);
        F::push_front(alloc, &mut out, &self.dump)?;
        let fed = feed_all::<F>(alloc, session, &mut out, datagrams)?;
        let unfed = datagrams.len() - fed;
        let order = self.limits.order();
        reserve_text(&mut out, session)?;
        push_table::<F>(alloc, &mut out, order, session, self.dump.kind)?;
        let ending = ending_of(session, &self.dump, unfed);
        F::push_ending(alloc, &mut out, &self.dump, &ending)?;
        Ok((out, verdict(session.complete())))
    }
}

impl<F: ReportFormat> Command for Tabulate<F> {
    ghost use Rattle.rtnl.specs.Tabled.{TablesBy};

    ghost says = { λ t. TablesBy F.report t.limits t.dump };

    fn text_of(
        &self,
        alloc: Global,
        datagrams: &Datagrams,
    ) -> Result<(Vec<u8>, Verdict), AllocError> {
        let (mut session, _request) = begun(alloc, &self.dump, &self.limits, self.seed)?;
        self.report_of(alloc, &mut session, datagrams)
    }
}

/// Reads the datagrams of the lines that a source gives as the answers to a dump. A new session of
/// these limits begins the dump. It is fed them in order until the dump has ended. It writes why
/// datagrams were refused, the entries of the dump's table, and how the dump ended.
///
/// The text is made and written once the input has ended and no line is bad. After a bad line, a
/// read fault or the end of memory nothing was written. After a write fault a prefix of the text
/// was. The verdict is NotClean exactly where the dump is not complete.
///
/// The session's tables hash under a seed that everybody knows. `run_table_with_seed` is for
/// recordings whose content others choose.
pub fn run_table<S: Source, W: Sink>(
    alloc: Global,
    source: &mut S,
    sink: &mut W,
    dump: Dump,
    limits: &Limits,
) -> Result<Verdict, RunError>
    // It wrote the text of the session that was fed what it read. The verdict is the session's.
    ensures runs { Runs S.remaining S.is_ended S.failure_count
        W.contents W.is_stalled W.stall_count W.failure_count
        (Tables limits.now dump) source.old source.new sink.old sink.new result }
{
    run_table_with_seed(alloc, source, sink, dump, limits, Seed::KNOWN)
}

/// Reads the datagrams as `run_table` does, into tables that hash under this seed.
///
/// It reads, writes and ends as `run_table` does.
pub fn run_table_with_seed<S: Source, W: Sink>(
    alloc: Global,
    source: &mut S,
    sink: &mut W,
    dump: Dump,
    limits: &Limits,
    seed: Seed,
) -> Result<Verdict, RunError>
    // It wrote the text of the session that was fed what it read. The verdict is the session's.
    ensures runs { Runs S.remaining S.is_ended S.failure_count
        W.contents W.is_stalled W.stall_count W.failure_count
        (Tables limits.now dump) source.old source.new sink.old sink.new result }
{
    let tabulate = Tabulate::<InText> {
        dump,
        limits: *limits,
        seed,
        report: PhantomData,
    };
    run(alloc, source, sink, &tabulate)
}

/// Reads the datagrams as `run_table_with_seed` does, and writes lines of JSON (RFC 8259) in place
/// of text. There is an object for each refused datagram, for each entry, and for the dump's end.
///
/// It reads, writes and ends as `run_table` does.
pub fn run_table_json<S: Source, W: Sink>(
    alloc: Global,
    source: &mut S,
    sink: &mut W,
    dump: Dump,
    limits: &Limits,
    seed: Seed,
) -> Result<Verdict, RunError>
    // It wrote the objects of the session that was fed what it read. The verdict is the session's.
    ensures runs { Runs S.remaining S.is_ended S.failure_count
        W.contents W.is_stalled W.stall_count W.failure_count
        (TablesJson limits.now dump) source.old source.new sink.old sink.new result }
{
    let tabulate = Tabulate::<InJson> {
        dump,
        limits: *limits,
        seed,
        report: PhantomData,
    };
    run(alloc, source, sink, &tabulate)
}
