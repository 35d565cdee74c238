//! Runs that keep a mirror by the lines of a recording of any length.

ghost use Rattle.std.specs.Prelude.{◌≡◌, ◌++◌, IfOk, OnOk, Result, not, true};
ghost use Rattle.nl_mirror.specs.Five.{Began};
ghost use Rattle.nl_mirror.specs.declared.errors.BeginError.{BeginError as AnyBeginError};
ghost use Rattle.rtnl.specs.Mirrors.{FollowsMirror, Keeps, followed};
ghost use Rattle.rtnl.specs.Mirroring.{Comes, IsUnheard, end_text, Outcome, begins_well, fed_by, feeds};
ghost use Rattle.rtnl.specs.Mirroring.{in_text, is_begun, outcome_is_accepted};
ghost use Rattle.rtnl.specs.Mirroring.{outcome_text, step_of, unbegun_by, where_so};
ghost use Rattle.rtnl.specs.MirroringJson as lines_of_json;
ghost use Rattle.rtnl.specs.Runs.{Writes};
ghost use Rattle.rtnl.specs.Streams.{one_more};
ghost use Rattle.rtnl.specs.Tabled as tabled;
ghost use Rattle.rtnl.specs.TabledJson as tabled_json;

use crate::error::RunError;
use crate::runs::follow_lines::follow;
use crate::runs::followed::{FollowListener, Followed};
use crate::runs::mirror_format::MirrorFormat;
use crate::runs::mirrored::{MirrorSettings, MirrorSoFar};
use crate::runs::mirroring::{hear_all, is_current, push_all_table_states, push_end, table_states};
use crate::runs::per_line::{PerLine, Told};
use crate::runs::report::{InJson, InText};
use crate::runs::steps::{StepKind, read_step};
use crate::streams::sink::{Sink, give_all};
use crate::streams::source::LiveSource;
use nl_dump::Dump;
use nl_frame::read_datagram;
use nl_mirror::{BeginError, Mirror};
use std::alloc::{AllocError, Global};
use std::marker::PhantomData;

/// What was counted of a recording that kept a mirror, and whether the tables are current.
#[derive(Clone, Copy, Debug, PartialEq, Eq, Hash)]
pub struct MirrorFollowed {
    /// What was counted of the lines; its datagrams are those that were fed.
    pub counts: Followed,
    /// How many dumps didn't begin, since their sequence numbers were not above those before.
    pub unbegun: u64,
    /// Whether each table that is shown is current.
    pub current: bool,
}

/// A new mirror.
fn unheard(alloc: Global, settings: &MirrorSettings) -> Result<MirrorSoFar, AllocError>
    ensures { IfOk result (IsUnheard settings.now) }
{
    Ok(MirrorSoFar {
        mirror: Mirror::new(alloc, settings.limits, settings.waiting, settings.seed)?,
        datagrams: 0,
        unbegun: 0,
    })
}

/// Feeds the datagram of this number to a mirror. Writes what its messages changed, or why it is
/// refused. It answers whether the datagram was accepted.
fn feed<F: MirrorFormat>(
    alloc: Global,
    out: &mut Vec<u8>,
    settings: &MirrorSettings,
    mirror: &mut Mirror,
    number: u64,
    datagram: &[u8],
) -> Result<bool, AllocError>
    ensures { IfOk result (λ taken. (o : Outcome)
        × Comes settings.now.limits mirror.old (feeds datagram.now) o mirror.new
        × (out.new.items ≡ out.old.items ++ outcome_text F.report F.telling
        settings.now.limits.shape.order settings.now (feeds datagram.now) number o)
        × (taken ≡ outcome_is_accepted o) × (begins_well o ≡ true)) }
{
    match read_datagram(alloc, datagram, &settings.limits).into_result() {
        Ok(messages) => {
            hear_all::<F>(alloc, out, settings, mirror, messages)?;
            Ok(true)
        }
        Err(error) => {
            mirror.refused(error);
            F::push_refusal(alloc, out, number as usize, error.into())?;
            Ok(false)
        }
    }
}

/// Whether a dump began. After `Short` it did, though changes were lost.
fn is_begun(answer: Result<(), BeginError>) -> bool
    ensures { result ≡ is_begun answer }
{
    match answer {
        Ok(()) => true,
        Err(BeginError::Number) => false,
        Err(BeginError::Short(_)) => true,
    }
}

/// Writes that a dump didn't begin, unless `begun`.
fn push_unbegun<F: MirrorFormat>(
    alloc: Global,
    out: &mut Vec<u8>,
    dump: &Dump,
    begun: bool,
) -> Result<(), AllocError>
    ensures { OnOk result (out.new.items ≡ out.old.items
        ++ where_so (not begun) (F.telling.unbegun dump.now)) }
{
    if begun {
        Ok(())
    } else {
        F::push_unbegun(alloc, out, dump)
    }
}

/// How many dumps didn't begin, after one more dump.
fn count_unbegun(unbegun: u64, begun: bool) -> u64
    ensures { result ≡ unbegun_by begun unbegun }
{
    if begun {
        unbegun
    } else {
        unbegun.saturating_add(1)
    }
}

/// Begins a dump in a mirror. One that doesn't begin is written and counted.
fn begin<F: MirrorFormat>(
    alloc: Global,
    out: &mut Vec<u8>,
    kept: &mut MirrorSoFar,
    dump: Dump,
) -> Result<(), AllocError>
    ensures { OnOk result ((r : Result (Unit {0}) AnyBeginError)
        × Began dump r kept.old.mirror kept.new.mirror
        × (kept.new.datagrams ≡ kept.old.datagrams)
        × (kept.new.unbegun ≡ unbegun_by (is_begun r) kept.old.unbegun)
        × (out.new.items ≡ out.old.items
        ++ where_so (not (is_begun r)) (F.telling.unbegun dump))) }
{
    let begun = is_begun(kept.mirror.begin(dump));
    push_unbegun::<F>(alloc, out, &dump, begun)?;
    kept.unbegun = count_unbegun(kept.unbegun, begun);
    Ok(())
}

/// Takes a step, and writes what came of it, but no state of a table. It answers whether the
/// step's datagram was accepted, or true where it has none.
fn take_step<F: MirrorFormat>(
    alloc: Global,
    out: &mut Vec<u8>,
    settings: &MirrorSettings,
    kept: &mut MirrorSoFar,
    step: StepKind,
    datagram: &[u8],
) -> Result<bool, AllocError>
    ensures { IfOk result (λ taken. (o : Outcome)
        × Comes settings.now.limits kept.old.mirror (step_of datagram.now step) o kept.new.mirror
        × (kept.new.datagrams ≡ fed_by (step_of datagram.now step) kept.old.datagrams)
        × (kept.new.unbegun ≡ unbegun_by (begins_well o) kept.old.unbegun)
        × (out.new.items ≡ out.old.items ++ outcome_text F.report F.telling
        settings.now.limits.shape.order settings.now (step_of datagram.now step)
        kept.new.datagrams o)
        × (taken ≡ outcome_is_accepted o)) }
{
    match step {
        StepKind::Datagram => {
            kept.datagrams = kept.datagrams.saturating_add(1);
            feed::<F>(
                alloc,
                out,
                settings,
                &mut kept.mirror,
                kept.datagrams,
                datagram,
            )
        }
        StepKind::Dump(dump) => {
            begin::<F>(alloc, out, kept, dump)?;
            Ok(true)
        }
        StepKind::Loss => {
            kept.mirror.lost();
            Ok(true)
        }
    }
}

/// Prints what lines do to a mirror.
#[derive(Clone, Copy)]
struct TellMirror<F> {
    settings: MirrorSettings,
    report: PhantomData<F>,
}

impl<F: MirrorFormat> PerLine for TellMirror<F> {
    ghost use Rattle.rtnl.specs.Mirroring.{Passed, Passes, Step, is_accepted, never_ends};
    ghost use Rattle.rtnl.specs.Mirroring.{step_in, step_text};

    type Kept = MirrorSoFar;

    ghost Content = { Step };

    ghost says = { λ t. step_in t.settings.family };

    ghost Found = { Passed };

    ghost finds = { λ t. Passes t.settings.limits };

    ghost text = { λ t number. step_text F.report F.telling t.settings.limits.shape.order
        t.settings };

    ghost takes = { is_accepted };

    ghost ends = { never_ends };

    fn tell(
        &self,
        alloc: Global,
        kept: &mut MirrorSoFar,
        out: &mut Vec<u8>,
        bytes: &mut Vec<u8>,
        _number: usize,
        line: &[u8],
    ) -> Result<Option<Told>, RunError> {
        let settings = &self.settings;
        let Some(step) = read_step(alloc, bytes, settings.family, line)? else {
            return Ok(None);
        };
        let was = table_states(&kept.mirror);
        let taken = take_step::<F>(alloc, out, settings, kept, step, bytes.as_slice())?;
        push_all_table_states::<F>(alloc, out, settings, &was, &kept.mirror)?;
        Ok(Some(Told {
            taken,
            number: kept.datagrams,
            goes_on: true,
        }))
    }
}

/// Writes the report at the end of a recording, and answers what was counted.
fn finish<F: MirrorFormat, W: Sink>(
    alloc: Global,
    sink: &mut W,
    settings: &MirrorSettings,
    kept: &MirrorSoFar,
    counts: Followed,
) -> Result<MirrorFollowed, RunError>
    ensures writes { Writes W.contents W.is_stalled W.stall_count W.failure_count
        (end_text F.report F.telling settings.now.limits.shape.order settings.now
        kept.now.mirror) sink.old sink.new result }
    ensures answer { IfOk result (λ m. m ≡ followed settings.now kept.now counts) }
{
    let mut text = Vec::new(alloc);
    push_end::<F>(alloc, &mut text, settings, &kept.mirror)?;
    give_all(sink, text.as_slice())?;
    Ok(MirrorFollowed {
        counts: Followed {
            datagrams: kept.datagrams,
            ..counts
        },
        unbegun: kept.unbegun,
        current: is_current(settings.kind, &kept.mirror),
    })
}

/// Keeps this mirror by the lines of a recording, and reports it in the form `F`.
fn keep<F: MirrorFormat, S: LiveSource<W>, W: Sink, B: FollowListener>(
    alloc: Global,
    source: &mut S,
    sink: &mut W,
    listener: &mut B,
    settings: &MirrorSettings,
    kept: &mut MirrorSoFar,
) -> Result<MirrorFollowed, RunError>
    requires { B.is_ended listener.old → ⊥ }
    ensures { Keeps S.remaining S.is_ended S.failure_count S.reads
        W.contents W.is_stalled W.stall_count W.failure_count B.heard B.is_ended
        F.report F.telling settings.now source.old source.new sink.old sink.new
        listener.old listener.new kept.old kept.new result }
{
    let each = TellMirror::<F> {
        settings: *settings,
        report: PhantomData,
    };
    let counts = follow(alloc, source, sink, listener, &each, kept)?;
    finish::<F, _>(alloc, sink, settings, kept, counts)
}

/// Keeps a new mirror as `keep` does, apart from it, since owning a mirror makes proofs slow.
fn run<F: MirrorFormat, S: LiveSource<W>, W: Sink, B: FollowListener>(
    alloc: Global,
    source: &mut S,
    sink: &mut W,
    listener: &mut B,
    settings: &MirrorSettings,
) -> Result<MirrorFollowed, RunError>
    requires { B.is_ended listener.old → ⊥ }
    ensures { FollowsMirror S.remaining S.is_ended S.failure_count S.reads
        W.contents W.is_stalled W.stall_count W.failure_count B.heard B.is_ended
        F.report F.telling settings.now source.old source.new sink.old sink.new
        listener.old listener.new result }
{
    let mut kept = unheard(alloc, settings)?;
    keep::<F, _, _, _>(alloc, source, sink, listener, settings, &mut kept)
}

/// Keeps a mirror by the lines that a source gives, of any length. Each datagram is fed to it. A
/// line `# seq N port N kind KIND` begins a dump of that kind. A line `# dropped` says that
/// messages were lost. With `settings.changes` it writes what each line changed in the tables
/// before it reads on. Else it writes the tables at the end of the input. Refused datagrams are
/// written at once, and so are dumps whose sequence number is not above earlier ones. Entries,
/// datagrams and lines are numbered from 1.
///
/// What is kept is the mirror, within its limits. It treats bad lines and faults as `run_follow`
/// does. After a fault, the tables at the end are missing or cut short.
pub fn run_mirror<S: LiveSource<W>, W: Sink, B: FollowListener>(
    alloc: Global,
    source: &mut S,
    sink: &mut W,
    listener: &mut B,
    settings: &MirrorSettings,
) -> Result<MirrorFollowed, RunError>
    requires { B.is_ended listener.old → ⊥ }
    ensures { FollowsMirror S.remaining S.is_ended S.failure_count S.reads
        W.contents W.is_stalled W.stall_count W.failure_count B.heard B.is_ended
        tabled.in_text in_text settings.now source.old source.new sink.old sink.new
        listener.old listener.new result }
{
    run::<InText, _, _, _>(alloc, source, sink, listener, settings)
}

/// Keeps a mirror as `run_mirror` does, and writes lines of JSON (RFC 8259) in place of text.
pub fn run_mirror_json<S: LiveSource<W>, W: Sink, B: FollowListener>(
    alloc: Global,
    source: &mut S,
    sink: &mut W,
    listener: &mut B,
    settings: &MirrorSettings,
) -> Result<MirrorFollowed, RunError>
    requires { B.is_ended listener.old → ⊥ }
    ensures { FollowsMirror S.remaining S.is_ended S.failure_count S.reads
        W.contents W.is_stalled W.stall_count W.failure_count B.heard B.is_ended
        tabled_json.in_json lines_of_json.in_json settings.now source.old source.new
        sink.old sink.new listener.old listener.new result }
{
    run::<InJson, _, _, _>(alloc, source, sink, listener, settings)
}
