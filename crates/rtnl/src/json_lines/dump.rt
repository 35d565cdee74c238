//! The fields of the report of a dump.

ghost use Rattle.std.specs.Prelude.{◌≡◌, ◌++◌, OnOk};
ghost use Rattle.rtnl.specs.Json.{◌⊕◌, fields_tokens, json_line};
ghost use Rattle.rtnl.specs.Shown.{datagram_object, refusal_fields};
ghost use Rattle.rtnl.specs.TabledJson.{code_fields, count_fields, dump_fields};
ghost use Rattle.rtnl.specs.TabledJson.{end_code, end_fields, end_word};
ghost use Rattle.rtnl.specs.TabledJson.{loss_fields, sum_fields, total_fields};

use crate::ending::Ending;
use crate::json_lines::datagram::push_refusal;
use crate::json_lines::line::Line;
use nl_dump::{Dump, End, Standing, State};
use nl_frame::ReadError;
use std::alloc::{AllocError, Global};

/// Writes the line of a datagram that was refused. It fails where `error` is `Memory`.
#[tactic(auto, using(crate::proofs::Sets::field))]
pub(crate) fn push_refused(
    alloc: Global,
    lines: &mut Vec<u8>,
    number: usize,
    error: ReadError,
) -> Result<(), AllocError>
    ensures { OnOk result (lines.new.items ≡ lines.old.items
        ++ json_line (datagram_object number (refusal_fields error))) }
{
    let mut line = Line::begin(alloc, lines)?;
    line.number("datagram", number as u64)?;
    push_refusal(&mut line, error)?;
    line.end(lines)
}

/// Writes the line of a datagram that was refused for the total limit.
#[tactic(auto, unfolding(crate::specs::TabledJson::total_fields), using(crate::proofs::Sets::field))]
pub(crate) fn push_total(
    alloc: Global,
    lines: &mut Vec<u8>,
    number: usize,
) -> Result<(), AllocError>
    ensures { OnOk result (lines.new.items ≡ lines.old.items
        ++ json_line (datagram_object number total_fields)) }
{
    let mut line = Line::begin(alloc, lines)?;
    line.number("datagram", number as u64)?;
    line.text("refused", "total")?;
    line.end(lines)
}

/// Writes which dump is read.
#[tactic(auto, unfolding(crate::specs::TabledJson::dump_fields), using(crate::proofs::Sets::field))]
pub(crate) fn push_dump(line: &mut Line, dump: &Dump) -> Result<(), AllocError>
    ensures { OnOk result (line.new ≡ line.old ⊕ fields_tokens (dump_fields dump.now)) }
{
    line.text("dump", dump.kind.row().name)?;
    line.number("seq", dump.seq.into())?;
    line.number("port", dump.port.into())
}

/// The word for how the dump ended, and the status or the code that ended it.
fn end_of(state: State) -> (&'static str, Option<i32>)
    ensures word { result.0.now ≡ end_word state }
    ensures code { result.1 ≡ end_code state }
{
    match state {
        State::Ended(_, End::Done(status)) => ("done", Some(status)),
        State::Ended(_, End::Error(code)) => ("error", Some(code)),
        State::Ended(_, End::Overrun) => ("overrun", None),
        State::Idle | State::Waiting(_) | State::Ended(_, End::Abandoned) => ("none", None),
    }
}

/// Writes the field of a status or a code, if there is one.
#[tactic(auto, using(crate::proofs::Json::no_field))]
fn push_code(line: &mut Line, code: Option<i32>) -> Result<(), AllocError>
    ensures { OnOk result (line.new ≡ line.old ⊕ fields_tokens (code_fields code)) }
{
    match code {
        Some(code) => line.signed("code", code),
        None => Ok(()),
    }
}

/// Writes how the dump ended.
#[tactic(auto, unfolding(crate::specs::TabledJson::end_fields), using(crate::proofs::Sets::field))]
pub(crate) fn push_end(line: &mut Line, state: State) -> Result<(), AllocError>
    ensures { OnOk result (line.new ≡ line.old ⊕ fields_tokens (end_fields state)) }
{
    let (word, code) = end_of(state);
    line.text("end", word)?;
    push_code(line, code)
}

/// Writes what was counted of the dump.
#[tactic(auto, unfolding(crate::specs::TabledJson::count_fields), using(crate::proofs::Sets::field))]
pub(crate) fn push_counts(line: &mut Line, ending: &Ending) -> Result<(), AllocError>
    ensures { OnOk result (line.new ≡ line.old ⊕ fields_tokens (count_fields ending.now)) }
{
    line.number("entries", ending.entries)?;
    line.number("missed", ending.missed)?;
    line.number("ignored", ending.standing.ignored)?;
    line.number("unfed", ending.unfed)
}

/// Writes whether something of the dump was lost.
#[tactic(auto, unfolding(crate::specs::TabledJson::loss_fields), using(crate::proofs::Sets::field))]
pub(crate) fn push_losses(line: &mut Line, standing: &Standing) -> Result<(), AllocError>
    ensures { OnOk result (line.new ≡ line.old ⊕ fields_tokens (loss_fields standing.now)) }
{
    line.boolean("damaged", standing.damaged)?;
    line.boolean("interrupted", standing.interrupted)
}

/// Writes what was counted of all datagrams.
#[tactic(auto, unfolding(crate::specs::TabledJson::sum_fields), using(crate::proofs::Sets::field))]
pub(crate) fn push_sums(line: &mut Line, standing: &Standing) -> Result<(), AllocError>
    ensures { OnOk result (line.new ≡ line.old ⊕ fields_tokens (sum_fields standing.now)) }
{
    line.number("received", standing.received)?;
    line.number("visits", standing.visits)
}
