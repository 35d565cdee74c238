//! The request that begins a dump.

ghost use Rattle.std.specs.Prelude.{◌≡◌, ◌++◌, Ok, OnOk, IfOk};
ghost use Rattle.nl_dump.specs.Request.{dump_of};
ghost use Rattle.nl_dump.specs.Steps.{Began, IsNew};
ghost use Rattle.nl_dump.specs.View.{View};
ghost use Rattle.rtnl.specs.Requested.{bytes_alone, requested};
ghost use Rattle.rtnl.specs.Runs.{Writes};

use crate::error::RunError;
use crate::pieces::{push, push_hex};
use crate::streams::sink::{Sink, give_all};
use crate::verdict::Verdict;
use nl_attr::Order;
use nl_dump::{BeginError, Dump, Seed, Session};
use nl_frame::Limits;
use nl_route::Family;
use std::alloc::{AllocError, Global};

/// A new session of these limits and this seed that begins a dump, and the request. It fails only
/// where memory runs out: a new session refuses no dump.
pub(crate) fn begun(
    alloc: Global,
    dump: &Dump,
    limits: &Limits,
    seed: Seed,
) -> Result<(Session, Vec<u8>), AllocError>
    ensures { IfOk result
        (λ p. (new : View) × IsNew limits.now new × Began new dump.now (Ok p.1) p.0) }
{
    let mut session = Session::with_seed(alloc, *limits, seed)?;
    match session.begin(dump.kind, dump.family, dump.seq, dump.port) {
        Ok(request) => Ok((session, request)),
        Err(error) => {
            prove!(matches!(error, BeginError::Memory));
            Err(AllocError)
        }
    }
}

#[tactic(auto, unfolding(crate::specs::Requested::bytes_alone))]
fn push_bytes_alone(out: &mut Vec<u8>, bytes: &[u8]) -> Result<(), AllocError>
    ensures { OnOk result (out.new.items ≡ out.old.items ++ bytes_alone bytes.now) }
{
    push_hex(out, bytes)?;
    push(out, "\n")
}

/// The line of the request that begins a dump.
fn text_of(alloc: Global, dump: &Dump, order: Order) -> Result<Vec<u8>, AllocError>
    ensures { IfOk result (λ text. text.items ≡ requested order dump.now) }
{
    let limits = Limits::standard().with_order(order);
    let (_session, request) = begun(alloc, dump, &limits, Seed::KNOWN)?;
    let mut text = Vec::new(alloc);
    push_bytes_alone(&mut text, request.as_slice())?;
    Ok(text)
}

/// Writes the request that begins a dump, as `run_request_ordered` does with `Order::Little`.
pub fn run_request<W: Sink>(
    alloc: Global,
    sink: &mut W,
    kind: Family,
    family: u8,
    seq: u32,
) -> Result<Verdict, RunError>
    ensures writes { Writes W.contents W.is_stalled W.stall_count W.failure_count
        (requested Order.Little (dump_of kind family seq 0)) sink.old sink.new result }
    ensures clean { IfOk result (λ verdict. verdict ≡ Verdict.Clean) }
{
    run_request_ordered(alloc, sink, kind, family, seq, Order::Little)
}

/// Writes the request that begins a dump as one line of hexadecimal, with numbers in this byte
/// order. It is what `Session::begin` of `nl_dump` answers for this kind, address family and
/// sequence number.
///
/// After the end of memory nothing was written. After a write fault a prefix of the line was.
pub fn run_request_ordered<W: Sink>(
    alloc: Global,
    sink: &mut W,
    kind: Family,
    family: u8,
    seq: u32,
    order: Order,
) -> Result<Verdict, RunError>
    // What was written is the line of the request.
    ensures writes { Writes W.contents W.is_stalled W.stall_count W.failure_count
        (requested order (dump_of kind family seq 0)) sink.old sink.new result }
    ensures clean { IfOk result (λ verdict. verdict ≡ Verdict.Clean) }
{
    let dump = Dump {
        kind,
        family,
        seq,
        port: 0,
    };
    let text = text_of(alloc, &dump, order)?;
    give_all(sink, text.as_slice())?;
    Ok(Verdict::Clean)
}
