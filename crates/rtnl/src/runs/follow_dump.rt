//! Runs that follow a dump of any length: its items are printed as they come, then how it ended.

ghost use Rattle.std.specs.Prelude.{◌≡◌, ◌<◌, ◌+◌, ◌^◌, ◌++◌, false, length, map, OnOk};
ghost use Rattle.nl_frame.specs.View.{message_view};
ghost use Rattle.rtnl.specs.FollowedDump.{FollowsDump, IsBegun, ending_at, is_done};
ghost use Rattle.rtnl.specs.Tabled.{bodies_text, in_text};
ghost use Rattle.rtnl.specs.TabledJson.{in_json};

use crate::ending::Ending;
use crate::error::RunError;
use crate::runs::follow_lines::follow;
use crate::runs::followed::{FollowListener, Followed};
use crate::runs::open_dump::OpenDump;
use crate::runs::per_line::{PerLine, Told, read_datagram_of};
use crate::runs::report::{InJson, InText, ReportFormat};
use crate::streams::sink::{Sink, give_all};
use crate::streams::source::LiveSource;
use nl_attr::Order;
use nl_dump::{Dump, State, Stream};
use nl_frame::{Limits, Message};
use std::alloc::{AllocError, Global};
use std::marker::PhantomData;

/// How the following of a dump ended.
#[derive(Clone, Copy, Debug, PartialEq, Eq, Hash)]
pub struct DumpFollowed {
    /// What was counted of its lines.
    pub counts: Followed,
    /// Whether a DONE without failure ended the dump, none of its datagrams was refused, and
    /// nothing interrupted it.
    pub complete: bool,
}

/// Whether no dump waits.
fn is_over(state: State) -> bool
    ensures { result ≡ is_done state }
{
    match state {
        State::Waiting(_) => false,
        State::Idle | State::Ended(_, _) => true,
    }
}

/// The state of a dump that begins under these limits. A new stream waits for no dump and has no
/// last sequence number, so it refuses none.
fn begun(dump: Dump, limits: &Limits) -> OpenDump
    ensures { IsBegun limits.now dump result }
{
    let mut stream = Stream::new(*limits);
    let Ok(()) = stream.begin(dump) else {
        unreachable!()
    };
    OpenDump { stream, items: 0 }
}

/// How a followed dump ended.
fn ending_of(kept: &OpenDump) -> Ending
    ensures { result ≡ ending_at kept.now }
{
    Ending {
        entries: kept.items,
        missed: 0,
        unfed: 0,
        standing: kept.stream.standing(),
        complete: kept.stream.complete(),
    }
}

/// Writes items as entries, of which the first has the number `before` + 1.
#[tactic(auto, unfolding(crate::specs::Tabled::bodies_text))]
fn push_items<F: ReportFormat>(
    alloc: Global,
    out: &mut Vec<u8>,
    order: Order,
    before: u64,
    items: &[Message],
) -> Result<(), AllocError>
    requires { before + length items.now < 2 ^ 64 }
    ensures { OnOk result (out.new.items ≡ out.old.items
        ++ bodies_text (λ m. m.body) F.report order (before + 1) (map message_view items.now)) }
{
    let mut number = before;
    for item in items {
        number += 1;
        F::push_body(alloc, out, order, number, &item.body)?;
    }
    Ok(())
}

/// Prints the answers to a dump, whose numbers have this byte order.
#[derive(Clone, Copy)]
struct TellDump<F> {
    order: Order,
    report: PhantomData<F>,
}

impl<F: ReportFormat> PerLine for TellDump<F> {
    ghost use Rattle.std.specs.Prelude.{ℕ, List};
    ghost use Rattle.rtnl.specs.FollowedDump.{Given, Reads, ends_dump, given_text, is_accepted};
    ghost use Rattle.rtnl.specs.Lines.{line_at};

    type Kept = OpenDump;

    ghost Content = { List ℕ };

    ghost says = { λ _. line_at 0 };

    ghost Found = { Given };

    ghost finds = { λ _. Reads };

    ghost text = { λ e. given_text F.report e.order };

    ghost takes = { is_accepted };

    ghost ends = { ends_dump };

    fn tell(
        &self,
        alloc: Global,
        kept: &mut OpenDump,
        out: &mut Vec<u8>,
        bytes: &mut Vec<u8>,
        number: usize,
        line: &[u8],
    ) -> Result<Option<Told>, RunError> {
        if !read_datagram_of(alloc, bytes, line)? {
            return Ok(None);
        }
        let mut stream = kept.stream;
        let mut items = kept.items;
        let taken = match stream.read(alloc, bytes.as_slice()) {
            Ok(read) => {
                push_items::<F>(alloc, out, self.order, items, read.items.as_slice())?;
                items += read.items.len() as u64;
                true
            }
            Err(error) => {
                F::push_refusal(alloc, out, number, error)?;
                false
            }
        };
        *kept = OpenDump { stream, items };
        Ok(Some(Told {
            taken,
            number: number as u64,
            goes_on: !is_over(stream.state()),
        }))
    }
}

/// Follows a dump, and reports of it in this form.
fn follow_dump<F: ReportFormat, S: LiveSource<W>, W: Sink, B: FollowListener>(
    alloc: Global,
    source: &mut S,
    sink: &mut W,
    listener: &mut B,
    dump: Dump,
    limits: &Limits,
) -> Result<DumpFollowed, RunError>
    requires { B.is_ended listener.old → ⊥ }
    ensures { FollowsDump S.remaining S.is_ended S.failure_count S.reads
        W.contents W.is_stalled W.stall_count W.failure_count B.heard B.is_ended
        F.report limits.now dump source.old source.new sink.old sink.new
        listener.old listener.new result }
{
    let mut text = Vec::new(alloc);
    F::push_front(alloc, &mut text, &dump)?;
    give_all(sink, text.as_slice())?;
    let mut kept = begun(dump, limits);
    let each = TellDump::<F> {
        order: limits.order(),
        report: PhantomData,
    };
    let counts = follow(alloc, source, sink, listener, &each, &mut kept)?;
    let ending = ending_of(&kept);
    text.clear();
    F::push_ending(alloc, &mut text, &dump, &ending)?;
    give_all(sink, text.as_slice())?;
    Ok(DumpFollowed {
        counts,
        complete: ending.complete,
    })
}

/// Follows the lines that a source gives as the answers to a dump, of any length. It first writes
/// which dump is read, as `run_table` does. Before it reads on, it writes the entries of a
/// datagram's items, or why it is refused. At the end of the dump, or of the input, it writes how
/// the dump ended. Entries, datagrams and lines are numbered from 1. No read follows the one that
/// brings the end of the dump, so no datagram is unfed.
///
/// It keeps no table: the entries are the items as they come, and none is missed. It treats bad
/// lines and faults as `run_follow` does. After a fault, the text of how the dump ended is missing
/// or cut short.
pub fn run_follow_dump<S: LiveSource<W>, W: Sink, B: FollowListener>(
    alloc: Global,
    source: &mut S,
    sink: &mut W,
    listener: &mut B,
    dump: Dump,
    limits: &Limits,
) -> Result<DumpFollowed, RunError>
    requires { B.is_ended listener.old → ⊥ }
    ensures { FollowsDump S.remaining S.is_ended S.failure_count S.reads
        W.contents W.is_stalled W.stall_count W.failure_count B.heard B.is_ended
        in_text limits.now dump source.old source.new sink.old sink.new
        listener.old listener.new result }
{
    follow_dump::<InText, _, _, _>(alloc, source, sink, listener, dump, limits)
}

/// Follows the lines as `run_follow_dump` does, and writes the dump as lines of JSON, as
/// `run_table_json` does.
pub fn run_follow_dump_json<S: LiveSource<W>, W: Sink, B: FollowListener>(
    alloc: Global,
    source: &mut S,
    sink: &mut W,
    listener: &mut B,
    dump: Dump,
    limits: &Limits,
) -> Result<DumpFollowed, RunError>
    requires { B.is_ended listener.old → ⊥ }
    ensures { FollowsDump S.remaining S.is_ended S.failure_count S.reads
        W.contents W.is_stalled W.stall_count W.failure_count B.heard B.is_ended
        in_json limits.now dump source.old source.new sink.old sink.new
        listener.old listener.new result }
{
    follow_dump::<InJson, _, _, _>(alloc, source, sink, listener, dump, limits)
}
