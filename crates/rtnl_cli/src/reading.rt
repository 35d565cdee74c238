//! A recording as it is read: why a read failed, and where messages were dropped.

ghost use Rattle.std.specs.Prelude.{◌≤◌, length};

use crate::output::Errors;
use crate::pieces::Piece::{Number, Text};
use memchr::memchr;
use std::fs::File;
use std::io::{self, BufRead, BufReader, ErrorKind, Read, Stdin};

/// How a line begins that says that messages were dropped where it stands.
const DROPPED: &[u8] = b"# dropped";

/// Where the bytes of a recording come from.
#[derive(Drop)]
enum Input {
    Standard(Stdin),
    File(File),
}

impl Read for Input {
    fn read(&mut self, buffer: &mut [u8]) -> io::Result<usize> {
        match self {
            Input::Standard(stdin) => stdin.read(buffer),
            Input::File(file) => file.read(buffer),
        }
    }
}

/// How far the lines of a recording are passed.
#[derive(Drop)]
struct Lines {
    /// The number of the line at hand, counted from 1.
    number: u64,
    /// How many bytes of it are those of `DROPPED`, where it may still say that.
    matched: Option<usize>,
    /// The number of a line that says so, and has not been named.
    unnamed: Option<u64>,
}

impl Lines {
    fn begin_line(&mut self) {
        self.number = self.number.saturating_add(1);
        self.matched = Some(0);
    }

    /// What is known at the end of the first word of the line.
    fn end_word(&mut self) {
        if self.matched == Some(DROPPED.len()) {
            self.unnamed = Some(self.number);
        }
        self.matched = None;
    }

    /// Passes a byte of the line's front, of which so many bytes are matched.
    fn pass_byte(&mut self, matched: usize, byte: u8) {
        if matches!(byte, b'\n' | b'\r' | b'\t' | b' ' | b':') {
            self.end_word();
        }
        self.matched = match DROPPED.get(matched) {
            Some(expected) if *expected == byte => Some(matched.saturating_add(1)),
            _ => None,
        };
        if byte == b'\n' {
            self.begin_line();
        }
    }

    /// Passes some of these bytes, at least one where there is one, and answers what is left.
    fn pass_some<'a>(&mut self, bytes: &'a [u8]) -> &'a [u8] {
        let Some((first, behind)) = bytes.split_first() else {
            return bytes;
        };
        if let Some(matched) = self.matched {
            self.pass_byte(matched, *first);
            return behind;
        }
        match memchr(b'\n', bytes) {
            None => &[],
            Some(end) => {
                self.begin_line();
                let (_, behind) = bytes.split_at(end);
                behind.get(1..).unwrap_or(&[])
            }
        }
    }

    /// Passes these bytes, but for those behind the word of a line that is to be named. It answers
    /// how many were passed.
    fn pass(&mut self, bytes: &[u8]) -> usize
        ensures { result ≤ length bytes.now }
    {
        let mut left = bytes;
        for _ in 0..bytes.len() {
            if left.is_empty() || self.unnamed.is_some() {
                break;
            }
            left = self.pass_some(left);
        }
        bytes.len().saturating_sub(left.len())
    }
}

/// A recording that is read. Each of its lines that says that messages were dropped is named on
/// standard error, as soon as what stands before it was taken.
#[derive(Drop)]
pub(crate) struct Reading<'a> {
    rt: &'a HostRuntime,
    input: BufReader<Input>,
    lines: Lines,
    /// Why its last read failed.
    pub(crate) error: Option<io::Error>,
    /// Whether a line was named.
    pub(crate) is_lossy: bool,
}

impl<'a> Reading<'a> {
    /// Opens a file, or standard input where none is named.
    pub(crate) fn open(rt: &'a HostRuntime, file: Option<&str>) -> io::Result<Self> {
        let input = match file {
            None => Input::Standard(rt.stdin()),
            Some(path) => Input::File(File::open(rt, path)?),
        };
        Ok(Reading {
            rt,
            input: BufReader::new(rt.alloc(), input)?,
            lines: Lines {
                number: 1,
                matched: Some(0),
                unnamed: None,
            },
            error: None,
            is_lossy: false,
        })
    }

    fn name_line(&mut self) {
        if let Some(number) = self.lines.unnamed.take() {
            self.is_lossy = true;
            // A line that can't be written is not worth ending for.
            let place = Number("line ", number);
            let _ = Errors(self.rt).say(&[place, Text(": messages were dropped here")]);
        }
    }
}

impl Read for Reading<'_> {
    fn read(&mut self, buffer: &mut [u8]) -> io::Result<usize> {
        self.name_line();
        let ready = match self.input.fill_buf() {
            Ok(ready) => ready,
            Err(error) => {
                if error.kind() != ErrorKind::Interrupted {
                    self.error = Some(error);
                }
                return Err(error);
            }
        };
        let is_end = ready.is_empty();
        let (ready, _) = ready.split_at(ready.len().min(buffer.len()));
        let (room, _) = buffer.split_at_mut(ready.len());
        room.copy_from_slice(ready);
        let count = self.lines.pass(ready);
        self.input.consume(count);
        if is_end {
            self.lines.end_word();
            self.name_line();
        }
        Ok(count)
    }
}
