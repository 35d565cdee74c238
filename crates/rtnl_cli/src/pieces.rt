//! The pieces of which texts for a user are made.

ghost use Rattle.std.specs.Prelude.{◌≡◌, ◌↔◌, ◌⊎◌, IsTrue, is_some};
ghost use Rattle.std.specs.Char.{is_control};
ghost use Rattle.ucd_category.specs.GeneralCategory.{general_category};

use crate::errors_told::write_error;
use crate::subject::Subject;
use nl_attr::Fault;
use rtnl::{KernelError, RunError};
use std::fmt::{self, Display};
use std::io;
use ucd_category::GeneralCategory;

/// How many bytes are shown around a place.
const WINDOW: usize = 16;

/// The name of a recording: that of its file, or standard input where it has none.
#[derive(Clone, Copy)]
pub(crate) struct Name<'a>(pub Option<&'a str>);

impl Name<'_> {
    pub(crate) fn is_file(self) -> bool
        ensures { result ≡ is_some self.entry.0 }
    {
        self.0.is_some()
    }
}

/// A piece of a text.
#[derive(Clone, Copy)]
pub(crate) enum Piece<'a> {
    /// These characters.
    Text(&'a str),
    /// A number behind a text.
    Number(&'a str, u64),
    /// A byte in hexadecimal.
    Byte(u8),
    /// A text as between the quotes of a C string: backslashes, quotes and what isn't seen are
    /// escaped, as in `\n`, `\x1b` and `\u202e`.
    Escaped(&'a str),
    /// Bytes that may be no text, escaped as a text is: of what is no text each byte, as in `\xff`.
    Raw(&'a [u8]),
    /// The name of a recording, escaped.
    Name(Name<'a>),
    /// Why a run failed.
    Failure(RunError),
    /// Why the system failed, behind a text.
    Reason(&'a str, io::Error),
    /// Which rule a head breaks, and where.
    Fault(Fault),
    /// What this head is, and the heads in which it lies.
    Subject(Subject<'a>),
    /// The bytes around this place.
    Around(&'a [u8], usize),
    /// What the kernel says of an error.
    KernelError(KernelError<'a>),
}

fn is_quote(character: char) -> bool
    ensures { IsTrue result ↔ ((character ≡ 34) ⊎ (character ≡ 92)) }
{
    matches!(character, '\\' | '"')
}

/// Whether characters of this category aren't seen.
fn is_unseen(category: GeneralCategory) -> bool
    ensures { IsTrue result ↔ ((category ≡ GeneralCategory.Format)
        ⊎ ((category ≡ GeneralCategory.LineSeparator)
        ⊎ (category ≡ GeneralCategory.ParagraphSeparator))) }
{
    matches!(
        category,
        GeneralCategory::Format
            | GeneralCategory::LineSeparator
            | GeneralCategory::ParagraphSeparator
    )
}

/// Whether a character is written otherwise than as it is: a control or a format character, one
/// that separates lines or paragraphs, a backslash or a quote.
pub(crate) fn is_escaped(character: char) -> bool
    ensures { IsTrue result ↔ (IsTrue (is_control character)
        ⊎ (((character ≡ 34) ⊎ (character ≡ 92))
        ⊎ ((general_category character ≡ GeneralCategory.Format)
        ⊎ ((general_category character ≡ GeneralCategory.LineSeparator)
        ⊎ (general_category character ≡ GeneralCategory.ParagraphSeparator))))) }
{
    character.is_control() || is_quote(character) || is_unseen(GeneralCategory::for_char(character))
}

/// The last digit of a number in hexadecimal.
fn last_digit(number: u8) -> char {
    char::from_digit(u32::from(number & 0xf), 16).unwrap_or('0')
}

/// Writes a byte in hexadecimal.
fn write_byte<W: fmt::Write>(f: &mut fmt::Formatter<W>, byte: u8) -> fmt::Result {
    f.write_char(last_digit(byte >> 4))?;
    f.write_char(last_digit(byte))
}

/// Writes a character by its number, as in a string of C.
fn write_code<W: fmt::Write>(f: &mut fmt::Formatter<W>, character: char) -> fmt::Result {
    let bytes = (character as u32).to_be_bytes();
    let (mark, code) = match bytes.as_slice() {
        [0, 0, 0, code @ ..] => ("\\x", code),
        [0, 0, code @ ..] => ("\\u", code),
        code => ("\\U", code),
    };
    f.write_str(mark)?;
    for byte in code {
        write_byte(f, *byte)?;
    }
    Ok(())
}

fn write_escaped<W: fmt::Write>(f: &mut fmt::Formatter<W>, text: &str) -> fmt::Result {
    for character in text.chars() {
        match character {
            '\n' => f.write_str("\\n")?,
            '\r' => f.write_str("\\r")?,
            '\t' => f.write_str("\\t")?,
            '\\' => f.write_str("\\\\")?,
            '"' => f.write_str("\\\"")?,
            _ if is_escaped(character) => write_code(f, character)?,
            _ => f.write_char(character)?,
        }
    }
    Ok(())
}

/// Writes bytes as a text is escaped; of what is no text each byte.
pub(crate) fn write_raw<W: fmt::Write>(f: &mut fmt::Formatter<W>, bytes: &[u8]) -> fmt::Result {
    for chunk in bytes.utf8_chunks() {
        write_escaped(f, chunk.valid())?;
        for byte in chunk.invalid() {
            f.write_str("\\x")?;
            write_byte(f, *byte)?;
        }
    }
    Ok(())
}

/// Writes the bytes around a place in hexadecimal, up to sixteen, that at the place in brackets.
fn write_around<W: fmt::Write>(
    f: &mut fmt::Formatter<W>,
    bytes: &[u8],
    place: usize,
) -> fmt::Result {
    let latest = bytes.len().saturating_sub(WINDOW);
    let start = place.saturating_sub(WINDOW / 2).min(latest);
    for index in start..start.saturating_add(WINDOW) {
        match bytes.get(index) {
            Some(byte) if index == place => {
                f.write_str("[")?;
                write_byte(f, *byte)?;
                f.write_str("]")?;
            }
            Some(byte) => write_byte(f, *byte)?,
            None => break,
        }
    }
    Ok(())
}

/// Writes a text, and a number behind it.
pub(crate) fn write_number<W: fmt::Write>(
    f: &mut fmt::Formatter<W>,
    front: &str,
    number: u64,
) -> fmt::Result {
    f.write_str(front)?;
    number.fmt(f)
}

impl Display for Piece<'_> {
    fn fmt<W: fmt::Write>(&self, f: &mut fmt::Formatter<W>) -> fmt::Result {
        match *self {
            Piece::Text(text) => f.write_str(text),
            Piece::Number(front, number) => write_number(f, front, number),
            Piece::Byte(byte) => write_byte(f, byte),
            Piece::Escaped(text) | Piece::Name(Name(Some(text))) => write_escaped(f, text),
            Piece::Raw(bytes) => write_raw(f, bytes),
            Piece::Name(Name(None)) => f.write_str("standard input"),
            Piece::Failure(error) => error.fmt(f),
            Piece::Reason(front, error) => {
                f.write_str(front)?;
                error.fmt(f)
            }
            Piece::Fault(fault) => fault.fmt(f),
            Piece::Subject(subject) => subject.write(f),
            Piece::Around(bytes, place) => write_around(f, bytes, place),
            Piece::KernelError(error) => write_error(f, error),
        }
    }
}

/// A text of pieces.
#[derive(Clone, Copy)]
pub(crate) struct Pieces<'a>(pub &'a [Piece<'a>]);

impl Display for Pieces<'_> {
    fn fmt<W: fmt::Write>(&self, f: &mut fmt::Formatter<W>) -> fmt::Result {
        for piece in self.0 {
            piece.fmt(f)?;
        }
        Ok(())
    }
}
