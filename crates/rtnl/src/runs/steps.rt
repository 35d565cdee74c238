//! What a line says to a mirror.

ghost use Rattle.std.specs.Prelude.{◌≡◌, ℕ, List, option_map};
ghost use Rattle.rtnl.specs.Mirroring.{ReadsStep, comment_says, ends_word, says_loss, step_of};

use crate::error::RunError;
use crate::recordings::heading::{behind, heading_of};
use crate::recordings::lines::{begins_comment, is_blank};
use crate::runs::per_line::read_datagram_of;
use nl_dump::Dump;
use std::alloc::Global;

/// What a line says: that its datagram came, that a dump was asked for, or that messages were lost.
#[derive(Clone, Copy)]
pub(crate) enum StepKind {
    Datagram,
    Dump(Dump),
    Loss,
}

/// Whether the word before `rest` ends there.
fn ends_word(rest: &[u8]) -> bool
    ensures { result ≡ ends_word rest.now }
{
    match rest {
        [] => true,
        [byte, ..] => is_blank(*byte) || *byte == b':',
    }
}

/// Whether a line says that messages were lost.
fn says_loss(line: &[u8]) -> bool
    ensures { result ≡ says_loss line.now }
{
    match behind(b"# dropped", line) {
        Some(rest) => ends_word(rest),
        None => false,
    }
}

/// What a comment says, if anything. A dump asks for this address family.
fn comment_says(family: u8, line: &[u8]) -> Option<StepKind>
    ensures { (bytes : List ℕ)
        → option_map (step_of bytes) result ≡ comment_says family line.now }
{
    if says_loss(line) {
        return Some(StepKind::Loss);
    }
    let heading = heading_of(line)?;
    let kind = heading.kind?;
    Some(StepKind::Dump(Dump {
        kind,
        family,
        seq: heading.numbers.seq,
        port: heading.numbers.port,
    }))
}

/// Reads what a line says, if anything. `bytes` has its datagram then, if there is one.
pub(crate) fn read_step(
    alloc: Global,
    bytes: &mut Vec<u8>,
    family: u8,
    line: &[u8],
) -> Result<Option<StepKind>, RunError>
    ensures { ReadsStep family line.now bytes.new.items result }
{
    if begins_comment(line) {
        return Ok(comment_says(family, line));
    }
    if read_datagram_of(alloc, bytes, line)? {
        Ok(Some(StepKind::Datagram))
    } else {
        Ok(None)
    }
}
