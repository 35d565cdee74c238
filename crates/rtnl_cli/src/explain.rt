//! What is said on standard error beside the fixed lines.

ghost use Rattle.std.specs.Prelude.{◌≡◌, ◌↔◌, ◌⊎◌, [], ◌∷◌, IsTrue, take};

use crate::arguments::{WholeCommand, WholeRun};
use crate::errors_told::{may_say_error, tell_errors};
use crate::hints::{hint_ignored, hint_kind, hint_missed, hint_too_long};
use crate::output::Errors;
use crate::pieces::Name;
use crate::pieces::Piece::{self, Byte, Number, Text};
use crate::senders::begins_otherwise;
use crate::standard_error::name_file;
use crate::subject::Subject;
use nl_attr::{Event, Reason};
use rtnl::dump::{Dump, FeedError, Seed, Session};
use rtnl::frame::{Limits, ScanError};
use rtnl::{LONGEST_LINE, LineFault, RunError, Tape, Verdict, datagrams, line_fault, tape_of};
use std::alloc::AllocError;
use std::io;

/// How much is said.
#[derive(Clone, Copy, PartialEq, Eq)]
pub(crate) enum Detail {
    /// What is always said.
    Least,
    /// Also what can be done about limits and numbers, as on a terminal.
    Hints,
    /// Also why something failed or was refused, as with `--explain`.
    All,
}

/// The line of this number, counted from 1.
fn line_at(input: &[u8], number: u32) -> Option<&[u8]> {
    let index = number.checked_sub(1)? as usize;
    input.split(|byte| *byte == b'\n').nth(index)
}

/// Whether a line beside this one is as long, as where the digits of a datagram are wrapped.
fn looks_wrapped(input: &[u8], number: u32, line: &[u8]) -> bool {
    [number.saturating_sub(1), number.saturating_add(1)]
        .into_iter()
        .any(|beside| line_at(input, beside).is_some_and(|other| other.len() == line.len()))
}

/// Whether a byte stands in no text.
fn is_binary(byte: u8) -> bool {
    !matches!(byte, b'\t' | b'\r' | b' '..=b'~')
}

/// Whether an input begins with a byte order mark, that of UTF-8 or one of UTF-16.
fn begins_with_mark(input: &[u8]) -> bool
    ensures { IsTrue result ↔ ((take 3 input.now ≡ 0xef ∷ 0xbb ∷ 0xbf ∷ [])
        ⊎ ((take 2 input.now ≡ 0xff ∷ 0xfe ∷ []) ⊎ (take 2 input.now ≡ 0xfe ∷ 0xff ∷ []))) }
{
    matches!(
        input,
        [0xef, 0xbb, 0xbf, ..] | [0xff, 0xfe, ..] | [0xfe, 0xff, ..]
    )
}

/// What is wrong with a line tells of the file that it stands in.
fn hint_of_fault(input: &[u8], number: u32, line: &[u8], fault: LineFault) -> &'static str {
    match fault {
        LineFault::Character { column, byte } => {
            if number == 1 && column == 1 && begins_with_mark(input) {
                "; the file begins with a byte order mark"
            } else if is_binary(byte) {
                "; the file is binary: rtnl-record reads captures"
            } else {
                ""
            }
        }
        LineFault::Odd { .. } if looks_wrapped(input, number, line) => "; the line looks wrapped",
        LineFault::Odd { .. } => "",
    }
}

/// Writes what is wrong with the line of this number, and what that tells.
fn say_fault<'a>(
    rt: &HostRuntime,
    name: Name<'a>,
    number: u64,
    fault: LineFault,
    hint: &'a str,
) -> io::Result<()> {
    match fault {
        LineFault::Character { column, byte } => Errors(rt).say(&[
            Piece::Name(name),
            Number(": line ", number),
            Number(", column ", column as u64),
            Text(": byte 0x"),
            Byte(byte),
            Text(" is no hexadecimal digit"),
            Text(hint),
        ]),
        LineFault::Odd { digits } => Errors(rt).say(&[
            Piece::Name(name),
            Number(": line ", number),
            Number(": ", digits as u64),
            Text(" digits, an odd number"),
            Text(hint),
        ]),
    }
}

/// Writes what is wrong with the line of this number.
fn explain_line(rt: &HostRuntime, name: Name<'_>, input: &[u8], number: u32) -> io::Result<()> {
    let Some(line) = line_at(input, number) else {
        return Ok(());
    };
    let Some(fault) = line_fault(line) else {
        return Ok(());
    };
    let hint = hint_of_fault(input, number, line, fault);
    say_fault(rt, name, u64::from(number), fault, hint)
}

/// Writes what is wrong with a line that is looked at by itself; with none that it is too long.
pub(crate) fn explain_one_line(
    rt: &HostRuntime,
    name: Name<'_>,
    number: u64,
    line: Option<&[u8]>,
) -> io::Result<()> {
    let Some(line) = line else {
        return Errors(rt).say(&[
            Piece::Name(name),
            Number(": line ", number),
            Number(": longer than ", LONGEST_LINE as u64),
            Text(" bytes"),
        ]);
    };
    match line_fault(line) {
        Some(fault) => say_fault(rt, name, number, fault, ""),
        None => Ok(()),
    }
}

/// What a rule says.
fn rule(reason: Reason) -> &'static str {
    match reason {
        Reason::Cut => "a head is whole",
        Reason::BadLength => "a length counts its head, and is at most the bytes left",
        Reason::ShortBody => "a body begins with the whole head of its type",
        Reason::TooLong => "an attribute that holds others has at most 65532 bytes",
        Reason::TooDeep => "attributes are nested at most as deep as the limit",
    }
}

/// Writes what the head is that breaks a rule at a datagram's first fault, and where it lies.
fn explain_head<'a>(
    rt: &HostRuntime,
    number: usize,
    datagram: &'a [u8],
    subject: Subject<'a>,
) -> io::Result<()> {
    let fault = subject.head.fault;
    Errors(rt).say(&[
        Number("datagram ", number as u64),
        Text(": "),
        Piece::Fault(fault),
        Text(": "),
        Text(rule(fault.reason)),
        Text(": "),
        Piece::Subject(subject),
        Text(": "),
        Piece::Around(datagram, fault.place as usize),
    ])
}

/// Writes why the datagram of this number was refused.
fn explain_scan(
    rt: &HostRuntime,
    number: usize,
    datagram: &[u8],
    limits: &Limits,
    events: &[Event],
    error: ScanError,
) -> io::Result<()> {
    match error {
        ScanError::Layout(head) => explain_head(rt, number, datagram, Subject { head, events }),
        ScanError::TooLarge => Errors(rt).say(&[
            Number("datagram ", number as u64),
            Number(": too large: ", datagram.len() as u64),
            Number(" bytes, and the limit is ", u64::from(limits.datagram())),
        ]),
    }
}

/// Writes why the datagram of this number was refused, if it was.
pub(crate) fn explain_refused(
    rt: &HostRuntime,
    number: usize,
    datagram: &[u8],
    limits: &Limits,
) -> io::Result<()> {
    let Tape { events, refusal } = tape_of(rt.alloc(), datagram, limits)?;
    match refusal {
        None => Ok(()),
        Some(error) => explain_scan(rt, number, datagram, limits, events.as_slice(), error),
    }
}

/// Writes why the datagram of this number was refused; or, if it wasn't, what the kernel says of
/// the errors in it.
pub(crate) fn explain_datagram(
    rt: &HostRuntime,
    number: usize,
    datagram: &[u8],
    limits: &Limits,
) -> io::Result<()> {
    let Tape { events, refusal } = tape_of(rt.alloc(), datagram, limits)?;
    match refusal {
        None if events.iter().any(may_say_error) => tell_errors(rt, number, datagram, limits),
        None => Ok(()),
        Some(error) => explain_scan(rt, number, datagram, limits, events.as_slice(), error),
    }
}

/// Writes why the datagram of this number was not fed.
fn explain_refusal(
    rt: &HostRuntime,
    number: usize,
    datagram: &[u8],
    limits: &Limits,
    error: FeedError,
) -> io::Result<()> {
    match error {
        FeedError::Layout(_) | FeedError::TooLarge => {
            explain_refused(rt, number, datagram, limits)
        }
        FeedError::Total => Errors(rt).say(&[
            Number("datagram ", number as u64),
            Number(": total: with its ", datagram.len() as u64),
            Number(" bytes all are above the limit of ", limits.total()),
        ]),
        FeedError::NotWaiting => Ok(()),
        FeedError::Memory => Err(AllocError.into()),
    }
}

/// Feeds a session the datagrams that answer its dump, up to its end. With `Detail::All` it writes
/// why they were refused, and what the kernel says of errors.
fn feed_told(
    rt: &HostRuntime,
    session: &mut Session,
    found: &[Vec<u8>],
    limits: &Limits,
    detail: Detail,
) -> io::Result<()> {
    for (index, datagram) in found.iter().enumerate() {
        match session.feed(datagram) {
            Ok(_) if detail == Detail::All => explain_datagram(rt, index + 1, datagram, limits)?,
            Ok(_) => continue,
            Err(FeedError::NotWaiting) => break,
            Err(FeedError::Memory) => return Err(AllocError.into()),
            Err(error) if detail == Detail::All => {
                explain_refusal(rt, index + 1, datagram, limits, error)?
            }
            Err(_) => continue,
        }
    }
    Ok(())
}

/// Writes what can be done about what a dump missed or ignored, and of which kind its answers are
/// where it is another.
fn hint_doubt(
    rt: &HostRuntime,
    session: &Session,
    found: &[Vec<u8>],
    limits: &Limits,
    dump: Dump,
    detail: Detail,
) -> io::Result<()> {
    if detail != Detail::Least {
        hint_missed(rt, session, dump, limits)?;
        hint_ignored(rt, found, dump, limits)?;
    }
    hint_kind(rt, session, found, dump, limits)
}

/// Writes what there is to say of a dump, which is begun in a new session, and of its answers.
fn tell_begun(
    rt: &HostRuntime,
    session: &mut Session,
    found: &[Vec<u8>],
    limits: &Limits,
    dump: Dump,
    detail: Detail,
    is_doubted: bool,
) -> io::Result<()> {
    if session
        .begin(dump.kind, dump.family, dump.seq, dump.port)
        .is_err()
    {
        return Err(AllocError.into());
    }
    feed_told(rt, session, found, limits, detail)?;
    if is_doubted {
        hint_doubt(rt, session, found, limits, dump, detail)
    } else {
        Ok(())
    }
}

/// Writes what there is to say of a dump. A new session begins each dump, so only memory can be
/// refused. It has one way out at which a session is dropped, since each is dear to prove.
fn tell_dump(
    rt: &HostRuntime,
    found: &[Vec<u8>],
    limits: &Limits,
    (dump, seed): (Dump, Seed),
    detail: Detail,
    is_doubted: bool,
) -> io::Result<()> {
    let mut session = Session::with_seed(rt.alloc(), *limits, seed)?;
    tell_begun(rt, &mut session, found, limits, dump, detail, is_doubted)
}

/// Writes what there is to say of the datagrams of a recording. The recording was read, so only
/// memory can be refused.
fn tell_datagrams(
    rt: &HostRuntime,
    input: &[u8],
    whole: &WholeRun,
    verdict: Verdict,
    detail: Detail,
) -> io::Result<()> {
    let (alloc, limits) = (rt.alloc(), &whole.limits);
    let is_other = match whole.command {
        WholeCommand::Table(dump, _) => begins_otherwise(alloc, input, dump, limits)?,
        _ => false,
    };
    let is_doubted = is_other || verdict != Verdict::Clean;
    let is_told = match detail {
        Detail::Least => is_other,
        Detail::Hints => is_doubted,
        Detail::All => true,
    };
    if !is_told {
        return Ok(());
    }
    let Ok(found) = datagrams(alloc, input) else {
        return Err(AllocError.into());
    };
    match (whole.command, detail) {
        (WholeCommand::Table(dump, seed), _) => {
            tell_dump(
                rt,
                found.as_slice(),
                limits,
                (dump, seed),
                detail,
                is_doubted,
            )
        }
        (_, Detail::All) => found.iter().enumerate().try_for_each(|(
            index,
            datagram,
        )| explain_datagram(rt, index + 1, datagram, limits)),
        (_, Detail::Least | Detail::Hints) => Ok(()),
    }
}

/// Writes what there is to say of a run over an input, behind the fixed line. The reason of a
/// failed write is written by the caller.
pub(crate) fn tell(
    rt: &HostRuntime,
    name: Name<'_>,
    input: &[u8],
    whole: &WholeRun,
    answer: Result<Verdict, RunError>,
    detail: Detail,
) -> io::Result<()> {
    match (answer, detail) {
        (Ok(verdict), _) => tell_datagrams(rt, input, whole, verdict, detail),
        (Err(RunError::ReadFault), _) => hint_too_long(rt, name),
        (Err(RunError::BadLine(number)), Detail::All) => explain_line(rt, name, input, number),
        (Err(RunError::BadLine(_)), _) => name_file(rt, name),
        (Err(RunError::WriteFault | RunError::Memory), _) => Ok(()),
    }
}
