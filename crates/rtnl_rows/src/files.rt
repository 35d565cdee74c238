//! Files that are read and written in short calls, and end or fail.

use crate::row::Row;
use std::io::{self, ErrorKind, Read, Write};

/// A file of bytes, and of blanks behind them. A call reads up to `each` bytes; behind all of them
/// it fails where the file is broken.
#[derive(Drop)]
pub struct ShortReader<'a> {
    bytes: &'a [u8],
    blanks: usize,
    each: usize,
    is_broken: bool,
}

impl<'a> ShortReader<'a> {
    /// The file of these bytes that is asked.
    pub(crate) fn of(row: &mut Row<'_>, bytes: &'a [u8]) -> ShortReader<'a> {
        ShortReader {
            bytes,
            each: row.int::<usize>(),
            blanks: row.int::<usize>(),
            is_broken: row.number() != 0,
        }
    }

    /// How many bytes were not read.
    pub(crate) fn left(&self) -> usize {
        self.bytes.len().saturating_add(self.blanks)
    }
}

impl Read for ShortReader<'_> {
    fn read(&mut self, buffer: &mut [u8]) -> io::Result<usize> {
        let wanted = self.each.min(buffer.len());
        let count = wanted.min(self.bytes.len());
        if count > 0 {
            let (next, rest) = self.bytes.split_at(count);
            let (room, _) = buffer.split_at_mut(count);
            room.copy_from_slice(next);
            self.bytes = rest;
            return Ok(count);
        }
        let count = wanted.min(self.blanks);
        if count == 0 && self.is_broken {
            return Err(io::Error::from(ErrorKind::BrokenPipe));
        }
        let (room, _) = buffer.split_at_mut(count);
        room.fill(b' ');
        self.blanks -= count;
        Ok(count)
    }
}

/// A file with room for so many bytes, which it keeps. A call writes up to `each` bytes; where no
/// room is left it writes none, or fails where the file is broken.
#[derive(Drop)]
pub struct ShortWriter {
    pub(crate) bytes: Vec<u8>,
    room: usize,
    each: usize,
    is_broken: bool,
}

impl ShortWriter {
    /// The file that is asked.
    pub(crate) fn of(row: &mut Row<'_>) -> ShortWriter {
        ShortWriter {
            bytes: Vec::new(row.alloc),
            each: row.int::<usize>(),
            room: row.int::<usize>(),
            is_broken: row.number() != 0,
        }
    }
}

impl Write for ShortWriter {
    fn write(&mut self, bytes: &[u8]) -> io::Result<usize> {
        let count = self.room.min(self.each).min(bytes.len());
        if count == 0 && self.is_broken {
            return Err(io::Error::from(ErrorKind::BrokenPipe));
        }
        let (front, _) = bytes.split_at(count);
        if self.bytes.extend_from_slice(front).is_err() {
            return Err(io::Error::from(ErrorKind::OutOfMemory));
        }
        self.room -= count;
        Ok(count)
    }

    fn flush(&mut self) -> io::Result<()> {
        Ok(())
    }
}
