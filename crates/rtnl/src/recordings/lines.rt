//! The lines of a recording.

ghost use Rattle.std.specs.List.{list_any, position};
ghost use Rattle.std.specs.Prelude.{◌≡◌, ◌≤◌, ◌<◌, ◌↔◌, ◌++◌, ℕ, List, length, map};
ghost use Rattle.std.specs.Prelude.{IfOk, IfErr, Ok, Err};
ghost use Rattle.hex.specs.Hex.{decode_of};
ghost use Rattle.rtnl.specs.Runs as fixed;
ghost use Rattle.rtnl.specs.Lines.{Fails, Gives, Reads, compact, datagrams, decoded, digits_at};
ghost use Rattle.rtnl.specs.Lines.{is_blank, is_comment, is_stray, line_at, line_fault_of};
ghost use Rattle.rtnl.specs.Lines.{lines_left};
ghost use Rattle.std.specs.Iterator.{YieldsFirstRef, item_count};

use crate::error::RunError;
use crate::recordings::digits::decode;
use crate::recordings::recording::Datagrams;
use crate::streams::source::LONGEST_INPUT;
use memchr::{memchr, memchr3};
use std::alloc::{AllocError, Global};

pub(crate) fn is_blank(byte: u8) -> bool
    ensures { result ≡ is_blank byte }
{
    matches!(byte, b' ' | b'\t' | b'\r')
}

pub(crate) fn begins_comment(line: &[u8]) -> bool
    ensures { result ≡ is_comment line.now }
{
    matches!(line, [b'#', ..])
}

fn without_blanks(alloc: Global, line: &[u8]) -> Result<Vec<u8>, AllocError>
    ensures { IfOk result (λ v. v.items ≡ compact line.now) }
{
    line.iter()
        .copied()
        .filter(|byte| !is_blank(*byte))
        .collect(alloc)
}

#[tactic(auto, using(crate::proofs::Cuts::blank_found))]
fn has_blank(line: &[u8]) -> bool
    ensures { result ≡ list_any is_blank line.now }
{
    memchr3(b' ', b'\t', b'\r', line).is_some()
}

/// What is wrong with a line that is not hexadecimal.
#[derive(Clone, Copy, Debug, PartialEq, Eq, Hash)]
pub enum LineFault {
    /// The first byte that is neither a digit nor a blank (a space, a tab, a carriage return), and
    /// its column, counted from 1 over all bytes of the line.
    Character { column: usize, byte: u8 },
    /// All bytes are digits or blanks, and there are so many digits, an odd number.
    Odd { digits: usize },
}

fn is_stray_byte(byte: u8) -> bool
    ensures { result ≡ is_stray byte }
{
    !byte.is_ascii_hexdigit() && !is_blank(byte)
}

/// The place of the first byte of a line that is neither a digit nor a blank.
fn stray_place(line: &[u8]) -> Option<usize>
    ensures { result ≡ position is_stray line.now }
{
    line.iter().position(|byte| is_stray_byte(*byte))
}

/// How many bytes of a line are no blanks.
fn nonblank_count(line: &[u8]) -> usize
    ensures { result ≡ length (compact line.now) }
{
    line.iter().filter(|byte| !is_blank(**byte)).count()
}

/// What is wrong with a line of a recording, handed in without the newline that ends it; none where
/// it is a comment, blank, or a datagram. It takes no memory.
pub fn line_fault(line: &[u8]) -> Option<LineFault>
    ensures { result ≡ line_fault_of line.now }
{
    if begins_comment(line) {
        return None;
    }
    if let Some(place) = stray_place(line) {
        return Some(LineFault::Character {
            column: place + 1,
            byte: line[place],
        });
    }
    let digits = nonblank_count(line);
    if digits % 2 == 1 {
        return Some(LineFault::Odd { digits });
    }
    None
}

/// How many digits are decoded at a time, an even number.
const PIECE: usize = 256;

/// Appends the bytes of the digits of the line of this number. They go through a buffer on the
/// stack, a piece at a time; after an error those of some pieces may have been appended.
fn push_decoded(bytes: &mut Vec<u8>, number: u32, digits: &[u8]) -> Result<(), RunError>
    ensures read { IfOk result (λ _. (datagram : List ℕ) × (decode_of digits.now ≡ Ok datagram)
        × (bytes.new.items ≡ bytes.old.items ++ datagram)) }
    ensures failed { IfErr result (λ e. Fails e (decoded number (decode_of digits.now))) }
{
    let mut buffer = [0; PIECE / 2];
    for piece in digits.chunks(PIECE) {
        let part = &mut buffer[..piece.len() / 2];
        if !decode(piece, part) {
            return Err(RunError::BadLine(number));
        }
        bytes.extend_from_slice(part)?;
    }
    Ok(())
}

/// Appends the datagram of the digits of a line, and says whether there are any.
fn read_digits(bytes: &mut Vec<u8>, number: u32, digits: &[u8]) -> Result<bool, RunError>
    ensures { Reads bytes.old.items bytes.new.items result (digits_at number digits.now) }
{
    if digits.is_empty() {
        return Ok(false);
    }
    push_decoded(bytes, number, digits)?;
    Ok(true)
}

/// Appends the datagram of a line, and says whether it has one. Only a line with blanks is copied.
pub(crate) fn read_line(
    alloc: Global,
    bytes: &mut Vec<u8>,
    number: u32,
    line: &[u8],
) -> Result<bool, RunError>
    ensures { Reads bytes.old.items bytes.new.items result (line_at number line.now) }
{
    if begins_comment(line) {
        return Ok(false);
    }
    if !has_blank(line) {
        return read_digits(bytes, number, line);
    }
    let digits = without_blanks(alloc, line)?;
    read_digits(bytes, number, digits.as_slice())
}

/// The lines of what is left of an input, if it has not come to its end.
#[derive(Drop)]
struct Lines<'a>(Option<&'a [u8]>);

impl<'a> Iterator for Lines<'a> {
    type Item = &'a [u8];

    ghost next_gives = { YieldsFirstRef (λ s. lines_left s.0) };

    ghost remaining = { item_count (λ s. lines_left s.0) };

    #[tactic(auto, using(crate::proofs::Cuts::line_found, crate::proofs::Cuts::last_line))]
    fn next(&mut self) -> Option<&'a [u8]> {
        let rest = self.0?;
        match memchr(b'\n', rest) {
            Some(end) => {
                self.0 = Some(&rest[end + 1..]);
                Some(&rest[..end])
            }
            None => {
                self.0 = None;
                Some(rest)
            }
        }
    }
}

/// The datagrams of the lines of a recording, or the first line that is bad. A byte takes two
/// digits, so there is room for all bytes from the start.
pub(crate) fn read_datagrams(alloc: Global, input: &[u8]) -> Result<Datagrams, RunError>
    requires { length input.now ≤ fixed.LONGEST_INPUT }
    ensures { Gives (λ ds. ds) result (datagrams input.now) }
{
    let mut bytes = Vec::with_capacity(alloc, input.len() / 2)?;
    let mut ends = Vec::new(alloc);
    let mut number = 0;
    for line in Lines(Some(input)) {
        number += 1;
        if !read_line(alloc, &mut bytes, number, line)? {
            continue;
        }
        ends.push(bytes.len() as u32)?;
    }
    Ok(Datagrams::new(bytes, ends))
}

/// The datagrams of a recording in memory, one for each line that has one, or the number of the
/// first line that is bad; a read fault where the recording is longer than 16,777,216 bytes.
pub fn datagrams(alloc: Global, recording: &[u8]) -> Result<Vec<Vec<u8>>, RunError>
    ensures large { (result ≡ Err RunError.ReadFault)
        ↔ (fixed.LONGEST_INPUT < length recording.now) }
    // Else they are those of its lines, or the first line that is bad, or memory ran out.
    ensures outcome { length recording.now ≤ fixed.LONGEST_INPUT
        → Gives (λ v. map (λ d. d.items) v.items) result (datagrams recording.now) }
{
    if recording.len() > LONGEST_INPUT {
        return Err(RunError::ReadFault);
    }
    Ok(read_datagrams(alloc, recording)?.to_vecs(alloc)?)
}
