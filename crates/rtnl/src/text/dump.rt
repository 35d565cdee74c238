//! The printed text of a dump.

ghost use Rattle.std.specs.Prelude.{◌≡◌, ◌≢◌, ◌≤◌, ◌++◌, OnOk, codes, length};
ghost use Rattle.std.specs.Fmt.{signed_decimal};
ghost use Rattle.rtnl.specs.Tabled.{complete_line, counts_line, dump_line, end_line};
ghost use Rattle.rtnl.specs.Tabled.{entry_line, refusal_line, sums_line, total_line, yes_no};

use crate::ending::Ending;
use crate::pieces::push;
use crate::pieces::segment::Segment;
use crate::text::datagram::{push_number, push_refusal};
use nl_dump::{Dump, End, FeedError, Standing, State};
use nl_frame::ReadError;
use std::alloc::AllocError;

#[tactic(auto, unfolding(crate::specs::Tabled::yes_no))]
fn yes_or_no(word: bool) -> &'static str
    ensures word { result.now ≡ yes_no word }
    ensures short { length result.now ≤ 3 }
{
    if word { "yes" } else { "no" }
}

/// Writes which dump is read.
#[tactic(auto, unfolding(crate::specs::Tabled::dump_line))]
pub(crate) fn push_dump_line(out: &mut Vec<u8>, dump: &Dump) -> Result<(), AllocError>
    ensures { OnOk result (out.new.items ≡ out.old.items ++ dump_line dump.now) }
{
    let kind = dump.kind.row().name;
    let (seq, port) = (dump.seq, dump.port);
    push(out, "dump ")?;
    push(out, kind)?;
    let mut end = Segment::new();
    end.put("\n");
    end.put_field(" port ", port as u64);
    end.put_field(" seq ", seq as u64);
    end.push_to(out)
}

#[tactic(auto, unfolding(crate::specs::Tabled::total_line))]
fn push_total_line(out: &mut Vec<u8>) -> Result<(), AllocError>
    ensures { OnOk result (out.new.items ≡ out.old.items ++ total_line) }
{
    push(out, "refused total\n")
}

/// Writes why the datagram of this number was refused. It fails where that was for memory.
#[tactic(auto, unfolding(crate::specs::Tabled::refusal_line), using(crate::proofs::Sets::joins))]
pub(crate) fn push_feed_error(
    out: &mut Vec<u8>,
    number: usize,
    error: FeedError,
) -> Result<(), AllocError>
    ensures refusal { OnOk result (error ≢ FeedError.Memory) }
    ensures text { OnOk result (out.new.items ≡ out.old.items ++ refusal_line number error) }
{
    match error {
        FeedError::NotWaiting => Ok(()),
        FeedError::Total => {
            push_number(out, number)?;
            push_total_line(out)
        }
        FeedError::TooLarge => {
            push_number(out, number)?;
            push_refusal(out, ReadError::TooLarge)
        }
        FeedError::Layout(fault) => {
            push_number(out, number)?;
            push_refusal(out, ReadError::Layout(fault))
        }
        FeedError::Memory => Err(AllocError),
    }
}

/// Writes a line of words and a code.
fn push_coded(out: &mut Vec<u8>, words: &str, code: i32) -> Result<(), AllocError>
    ensures { OnOk result
        (out.new.items ≡ out.old.items ++ words.now ++ signed_decimal code ++ codes "\n") }
{
    let mut end = Segment::new();
    end.put("\n");
    end.put_signed(code.into());
    push(out, words)?;
    end.push_to(out)
}

/// Writes how the dump ended.
#[tactic(auto, unfolding(crate::specs::Tabled::end_line))]
pub(crate) fn push_end_line(out: &mut Vec<u8>, state: State) -> Result<(), AllocError>
    ensures { OnOk result (out.new.items ≡ out.old.items ++ end_line state) }
{
    match state {
        State::Ended(_, End::Done(status)) => push_coded(out, "end done ", status),
        State::Ended(_, End::Error(code)) => push_coded(out, "end error ", code),
        State::Ended(_, End::Overrun) => push(out, "end overrun\n"),
        State::Idle | State::Waiting(_) | State::Ended(_, End::Abandoned) => {
            push(out, "end none\n")
        }
    }
}

/// Writes what was counted of the dump.
#[tactic(auto, unfolding(crate::specs::Tabled::counts_line))]
pub(crate) fn push_counts_line(out: &mut Vec<u8>, ending: &Ending) -> Result<(), AllocError>
    ensures { OnOk result (out.new.items ≡ out.old.items
        ++ counts_line ending.now.entries ending.now.missed ending.now.standing.ignored
        ending.now.unfed ending.now.standing.damaged ending.now.standing.interrupted) }
{
    let standing = &ending.standing;
    let mut line = Segment::new();
    line.put("\n");
    line.put(yes_or_no(standing.interrupted));
    line.put(" interrupted ");
    line.put(yes_or_no(standing.damaged));
    line.put(" damaged ");
    line.put_field(" unfed ", ending.unfed);
    line.put_field(" ignored ", standing.ignored);
    line.put_field(" missed ", ending.missed);
    line.put_field("entries ", ending.entries);
    line.push_to(out)
}

/// Writes what was counted of all datagrams.
#[tactic(auto, unfolding(crate::specs::Tabled::sums_line))]
pub(crate) fn push_sums_line(out: &mut Vec<u8>, standing: &Standing) -> Result<(), AllocError>
    ensures { OnOk result (out.new.items ≡ out.old.items
        ++ sums_line standing.now.received standing.now.visits) }
{
    let mut line = Segment::new();
    line.put("\n");
    line.put_field(" visits ", standing.visits);
    line.put_field("received ", standing.received);
    line.push_to(out)
}

/// Writes whether the dump is complete.
#[tactic(auto, unfolding(crate::specs::Tabled::complete_line))]
pub(crate) fn push_complete_line(out: &mut Vec<u8>, complete: bool) -> Result<(), AllocError>
    ensures { OnOk result (out.new.items ≡ out.old.items ++ complete_line complete) }
{
    push(out, "complete ")?;
    push(out, yes_or_no(complete))?;
    push(out, "\n")
}

/// Writes the line of the entry of this number, counted from 1.
#[tactic(auto, unfolding(crate::specs::Tabled::entry_line))]
pub(crate) fn push_entry_line(out: &mut Vec<u8>, number: u64) -> Result<(), AllocError>
    ensures { OnOk result (out.new.items ≡ out.old.items ++ entry_line number) }
{
    let mut line = Segment::new();
    line.put("\n");
    line.put_field("entry ", number);
    line.push_to(out)
}
