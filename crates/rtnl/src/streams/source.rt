//! Sources of bytes.

ghost use Rattle.std.specs.Prelude.{◌≡◌, ◌≢◌, ℕ, ◌+◌, ◌≤◌, ◌↔◌, ◌⊎◌, List, length};
ghost use Rattle.std.specs.Prelude.{Option, Some, OnOk, OnErr, IfOk, IfErr, IsTrue};
ghost use Rattle.std.specs.Io.KnownBytes.{Consumes, ReadConsumes};
ghost use Rattle.std.specs.IoError.{error_kind};
ghost use Rattle.rtnl.specs.Runs as fixed;
ghost use Rattle.rtnl.specs.Streams.{ConsumesAtMost, ConsumesMoreThan, IsRead, MovesNone, one_more};

use crate::error::RunError;
use crate::streams::errors::{IoFailed, moves_none};
use crate::streams::sink::Sink;
use std::alloc::Global;
use std::io::{self, ErrorKind, Read};

/// A source of bytes.
pub trait Source {
    /// The bytes that it still has to give, or `None` where it doesn't say them.
    ghost remaining: { Self → Option (List ℕ) };

    /// Its last call came to the end: it moved no byte into a buffer that isn't empty.
    ghost is_ended: { Self → Type 0 };

    /// How many of its calls failed, up to the greatest `u64`.
    ghost failure_count: { Self → ℕ };

    /// How many calls of `take` failed. The count stops at the greatest `u64`.
    fn failures(&self) -> u64
        ensures { result ≡ failure_count self.now };

    /// Moves the next bytes to the front of `buffer`, and answers how many they are. 0 for a
    /// buffer that isn't empty is the end of the input. A call that fails moves no byte.
    fn take(&mut self, buffer: &mut [u8]) -> Result<usize, IoFailed>
        ensures fits { IfOk result (λ count. count ≤ length buffer.old) }
        ensures bytes { ReadConsumes (remaining self.old) (remaining self.new) result buffer.new }
        ensures end { is_ended self.new ↔ MovesNone result (length buffer.old) }
        ensures sound { OnOk result (failure_count self.new ≡ failure_count self.old) }
        ensures failed { OnErr result
            (failure_count self.new ≡ one_more (failure_count self.old)) };
}

/// The source of a recording that is followed into a sink. At each read it may look at what the
/// sink has taken so far.
pub trait LiveSource<W: Sink>: Source {
    ghost use Rattle.std.specs.Prelude.{◌≡◌, ◌≤◌, ◌↔◌, List, Option, length};
    ghost use Rattle.std.specs.Prelude.{OnOk, OnErr, IfOk};
    ghost use Rattle.std.specs.Io.KnownBytes.{ReadConsumes};
    ghost use Rattle.rtnl.specs.Streams.{AddsRead, MovesNone, Read, one_more};

    /// Its reads, the newest last, or `None` where it doesn't say them. A read has the bytes that
    /// it moved, and those that the sink had taken before it.
    ghost reads: { Self → Option (List Read) };

    /// Moves the next bytes as `take` does. It may look at what `sink` has taken.
    fn take_behind(&mut self, sink: &W, buffer: &mut [u8]) -> Result<usize, IoFailed>
        ensures fits { IfOk result (λ count. count ≤ length buffer.old) }
        ensures bytes { ReadConsumes (Self.remaining self.old) (Self.remaining self.new)
            result buffer.new }
        ensures end { Self.is_ended self.new ↔ MovesNone result (length buffer.old) }
        ensures sound { OnOk result
            (Self.failure_count self.new ≡ Self.failure_count self.old) }
        ensures failed { OnErr result
            (Self.failure_count self.new ≡ one_more (Self.failure_count self.old)) }
        ensures seen { AddsRead (reads self.old) (reads self.new) (W.contents sink.now)
            result buffer.new };
}

/// Gives the bytes of a slice, from the first on.
#[derive(Debug, Drop)]
pub struct SliceSource<'a> {
    bytes: &'a [u8],
    ended: bool,
}

impl<'a> SliceSource<'a> {
    /// A source that gives these bytes.
    pub fn new(bytes: &'a [u8]) -> Self
        ensures remaining { ⟦<SliceSource<'a> as Source>⟧.remaining result ≡ Some bytes.now }
        ensures sound { ⟦<SliceSource<'a> as Source>⟧.failure_count result ≡ 0 }
        ensures fresh { ⟦<SliceSource<'a> as Source>⟧.is_ended result → ⊥ }
    {
        SliceSource {
            bytes,
            ended: false,
        }
    }
}

impl Source for SliceSource<'_> {
    ghost remaining = { λ s. Some s.bytes.now };

    ghost is_ended = { λ s. IsTrue s.ended };

    ghost failure_count = { λ _. 0 };

    fn failures(&self) -> u64 {
        0
    }

    fn take(&mut self, buffer: &mut [u8]) -> Result<usize, IoFailed> {
        let count = self.bytes.len().min(buffer.len());
        let (next, rest) = self.bytes.split_at(count);
        let (room, _) = buffer.split_at_mut(count);
        room.copy_from_slice(next);
        self.bytes = rest;
        self.ended = moves_none(count, buffer.len());
        Ok(count)
    }
}

impl<W: Sink> LiveSource<W> for SliceSource<'_> {
    ghost use Rattle.std.specs.Prelude.{None};

    ghost reads = { λ _. None };

    fn take_behind(&mut self, _sink: &W, buffer: &mut [u8]) -> Result<usize, IoFailed> {
        self.take(buffer)
    }
}

/// Reads once, and again while a signal interrupts it.
fn read_on<R: Read>(reader: &mut R, buffer: &mut [u8]) -> io::Result<usize>
    ensures fits { IfOk result (λ count. count ≤ length buffer.old) }
    ensures bytes { ReadConsumes (R.remaining reader.old) (R.remaining reader.new)
        result buffer.new }
    ensures goes_on { IfErr result (λ e. error_kind e ≢ ErrorKind.Interrupted) }
{
    for _ in 0..u64::MAX {
        match reader.read(buffer) {
            Err(error) if error.kind() == ErrorKind::Interrupted => {}
            ended => return ended,
        }
    }
    Err(io::Error::from(ErrorKind::TimedOut))
}

/// Gives what one of std's readers gives. A read that a signal interrupts is tried again.
#[derive(Debug, Drop)]
pub struct ReadSource<R> {
    reader: R,
    ended: bool,
    failures: u64,
}

impl<R: Read> ReadSource<R> {
    /// A source that reads from this reader.
    pub fn new(reader: R) -> Self
        ensures remaining { ⟦<ReadSource<R> as Source>⟧.remaining result ≡ R.remaining reader }
        ensures sound { ⟦<ReadSource<R> as Source>⟧.failure_count result ≡ 0 }
        ensures fresh { ⟦<ReadSource<R> as Source>⟧.is_ended result → ⊥ }
    {
        ReadSource {
            reader,
            ended: false,
            failures: 0,
        }
    }
}

impl<R: Read> Source for ReadSource<R> {
    ghost remaining = { λ s. R.remaining s.reader };

    ghost is_ended = { λ s. IsTrue s.ended };

    ghost failure_count = { λ s. s.failures };

    fn failures(&self) -> u64 {
        self.failures
    }

    fn take(&mut self, buffer: &mut [u8]) -> Result<usize, IoFailed> {
        match read_on(&mut self.reader, buffer) {
            Ok(count) => {
                self.ended = moves_none(count, buffer.len());
                Ok(count)
            }
            Err(_) => {
                self.ended = false;
                self.failures = self.failures.saturating_add(1);
                Err(IoFailed)
            }
        }
    }
}

impl<R: Read, W: Sink> LiveSource<W> for ReadSource<R> {
    ghost use Rattle.std.specs.Prelude.{None};

    ghost reads = { λ _. None };

    fn take_behind(&mut self, _sink: &W, buffer: &mut [u8]) -> Result<usize, IoFailed> {
        self.take(buffer)
    }
}

/// The longest input that is read, in bytes.
pub const LONGEST_INPUT: usize = 16_777_216;

/// The capacity for an input at first, in bytes. Most allocators grow a block of this size without
/// a copy.
const FIRST_ROOM: usize = 262_144;

/// All that a source gives up to its end. It takes at most `LONGEST_INPUT` + 1 bytes, and stops at
/// the first call that fails. A longer input is a `ReadFault`.
#[tactic(auto, using(crate::proofs::Sets::given))]
pub(crate) fn read_input<S: Source>(alloc: Global, source: &mut S) -> Result<Vec<u8>, RunError>
    ensures all { IfOk result
        (λ input. Consumes (S.remaining source.old) (S.remaining source.new) input.items) }
    ensures fits { IfOk result (λ input. length input.items ≤ fixed.LONGEST_INPUT) }
    ensures read { OnOk result
        (IsRead S.remaining S.is_ended S.failure_count source.old source.new) }

    ensures fault { result ≡ Err RunError.ReadFault →
        (S.failure_count source.new ≡ one_more (S.failure_count source.old))
        ⊎ ((S.failure_count source.new ≡ S.failure_count source.old)
        × ConsumesMoreThan fixed.LONGEST_INPUT (S.remaining source.old) (S.remaining source.new)) }
    ensures memory { result ≡ Err RunError.Memory
        → S.failure_count source.new ≡ S.failure_count source.old }
    ensures errors { IfErr result (λ e. (e ≡ RunError.ReadFault) ⊎ (e ≡ RunError.Memory)) }
    ensures bounded { ConsumesAtMost (fixed.LONGEST_INPUT + 1)
        (S.remaining source.old) (S.remaining source.new) }
{
    let mut input = Vec::with_capacity(alloc, FIRST_ROOM)?;
    let mut buffer = [0u8; 8192];
    while input.len() <= LONGEST_INPUT {
        let room = buffer.len().min(LONGEST_INPUT + 1 - input.len());
        match source.take(&mut buffer[..room]) {
            Err(IoFailed) => return Err(RunError::ReadFault),
            Ok(0) => return Ok(input),
            Ok(count) => input.extend_from_slice(&buffer[..count])?,
        }
    }
    Err(RunError::ReadFault)
}
