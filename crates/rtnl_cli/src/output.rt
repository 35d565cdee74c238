//! What is printed, to a standard output or error that may be full for now.

ghost use Rattle.std.specs.Prelude.{◌≤◌, IfOk, length};

use crate::pieces::{Piece, Pieces};
use std::alloc::AllocError;
use std::fmt::Display;
use std::io::{self, Eprint, ErrorKind, Stdout, Write};
use std::thread::sleep;
use std::time::Duration;

/// For how many milliseconds a write is waited for at first, and at most, before it is tried again.
const FIRST_WAIT: u64 = 1;

const LONGEST_WAIT: u64 = 64;

/// A writer that is tried again where it is full and doesn't wait itself, as a pipe that another
/// process made non-blocking. It notes why its last write failed.
#[derive(Drop)]
pub(crate) struct RetryingWriter<'a, W> {
    rt: &'a HostRuntime,
    inner: W,
    pub(crate) error: Option<io::Error>,
}

impl<'a, W> RetryingWriter<'a, W> {
    /// No write has failed.
    pub(crate) fn new(rt: &'a HostRuntime, inner: W) -> Self {
        RetryingWriter {
            rt,
            inner,
            error: None,
        }
    }
}

impl<W: Write> RetryingWriter<'_, W> {
    /// Writes once, and once more behind each wait.
    fn write_on(&mut self, bytes: &[u8]) -> io::Result<usize>
        ensures { IfOk result (λ count. count ≤ length bytes.now) }
    {
        let mut wait = FIRST_WAIT;
        for _ in 0..u64::MAX {
            match self.inner.write(bytes) {
                Err(error) if error.kind() == ErrorKind::WouldBlock => {
                    sleep(self.rt, Duration::from_millis(wait));
                    wait = wait.saturating_add(wait).min(LONGEST_WAIT);
                }
                ended => return ended,
            }
        }
        Err(io::Error::from(ErrorKind::TimedOut))
    }
}

impl<W: Write> Write for RetryingWriter<'_, W> {
    fn write(&mut self, bytes: &[u8]) -> io::Result<usize> {
        let result = self.write_on(bytes);
        if let Err(error) = &result {
            self.error = Some(*error);
        }
        result
    }

    fn flush(&mut self) -> io::Result<()> {
        self.inner.flush()
    }
}

/// Standard output.
pub(crate) fn standard_output(rt: &HostRuntime) -> RetryingWriter<'_, Stdout> {
    RetryingWriter::new(rt, rt.stdout())
}

/// Standard error.
#[derive(Clone, Copy)]
pub(crate) struct Errors<'a>(pub &'a HostRuntime);

impl Errors<'_> {
    /// Writes a text, by one call where there is memory for it.
    pub(crate) fn eprint<D: Display + Drop>(&self, text: D) -> io::Result<()> {
        let Errors(rt) = *self;
        match format!(in rt.alloc(); "{text}") {
            Ok(whole) => RetryingWriter::new(rt, rt.stderr()).write_all(whole.as_bytes()),
            Err(AllocError) => rt.eprint(text),
        }
    }

    /// The same of a line, behind the name of the program.
    pub(crate) fn say(&self, pieces: &[Piece<'_>]) -> io::Result<()> {
        let text = Pieces(pieces);
        self.eprint(format_args!("rtnl: {text}\n"))
    }
}
