//! Sinks of bytes.

ghost use Rattle.std.specs.Prelude.{◌≡◌, ◌≢◌, ℕ, ◌≤◌, ◌↔◌, List, [], length, Option};
ghost use Rattle.std.specs.Prelude.{Some, OnOk, OnErr, IfOk, IfErr, IsTrue};
ghost use Rattle.std.specs.Io.KnownBytes.{Appends, WriteAppends};
ghost use Rattle.std.specs.IoError.{error_kind};
ghost use Rattle.rtnl.specs.Parts.{joined};
ghost use Rattle.rtnl.specs.Streams.{AppendsPrefix, MovesNone, StopsOnce, one_more};

use crate::error::RunError;
use crate::streams::errors::{IoFailed, moves_none};
use std::alloc::Global;
use std::io::{self, ErrorKind, Write};

/// A sink of bytes.
pub trait Sink {
    /// The bytes that it took so far, or `None` where it doesn't say them.
    ghost contents: { Self → Option (List ℕ) };

    /// Its last call was handed bytes, and took none.
    ghost is_stalled: { Self → Type 0 };

    /// How many of its calls were handed bytes and took none, up to the greatest `u64`.
    ghost stall_count: { Self → ℕ };

    /// How many of its calls failed, up to the greatest `u64`.
    ghost failure_count: { Self → ℕ };

    /// How many calls of `give` failed. The count stops at the greatest `u64`.
    fn failures(&self) -> u64
        ensures { result ≡ failure_count self.now };

    /// How many calls of `give` were handed bytes and took none, counted as `failures`.
    fn stalls(&self) -> u64
        ensures { result ≡ stall_count self.now };

    /// Takes bytes from the front of `bytes`, and answers how many. A call that fails takes none.
    fn give(&mut self, bytes: &[u8]) -> Result<usize, IoFailed>
        ensures fits { IfOk result (λ count. count ≤ length bytes.now) }
        ensures bytes { WriteAppends (contents self.old) (contents self.new) result bytes.now }
        ensures stalled { is_stalled self.new ↔ MovesNone result (length bytes.now) }
        ensures once { is_stalled self.new
            → stall_count self.new ≡ one_more (stall_count self.old) }
        ensures others { (is_stalled self.new → ⊥) → stall_count self.new ≡ stall_count self.old }
        ensures sound { OnOk result (failure_count self.new ≡ failure_count self.old) }
        ensures failed { OnErr result
            (failure_count self.new ≡ one_more (failure_count self.old)) };
}

/// Keeps all bytes in a vector. A call fails where memory runs out.
#[derive(Debug, Drop)]
pub struct VecSink {
    /// The bytes that the sink took so far.
    pub bytes: Vec<u8>,
    failures: u64,
}

impl VecSink {
    /// A sink that has taken no byte.
    pub fn new(alloc: Global) -> Self
        ensures contents { ⟦<VecSink as Sink>⟧.contents result ≡ Some [] }
        ensures sound { ⟦<VecSink as Sink>⟧.failure_count result ≡ 0 }
        ensures steady { ⟦<VecSink as Sink>⟧.stall_count result ≡ 0 }
    {
        VecSink {
            bytes: Vec::new(alloc),
            failures: 0,
        }
    }
}

impl Sink for VecSink {
    ghost contents = { λ s. Some s.bytes.items };

    ghost is_stalled = { λ _. ⊥ };

    ghost stall_count = { λ _. 0 };

    ghost failure_count = { λ s. s.failures };

    fn failures(&self) -> u64 {
        self.failures
    }

    fn stalls(&self) -> u64 {
        0
    }

    fn give(&mut self, bytes: &[u8]) -> Result<usize, IoFailed> {
        match self.bytes.extend_from_slice(bytes) {
            Ok(()) => Ok(bytes.len()),
            Err(_) => {
                self.failures = self.failures.saturating_add(1);
                Err(IoFailed)
            }
        }
    }
}

/// Writes once, and again while a signal interrupts it.
fn write_on<W: Write>(writer: &mut W, bytes: &[u8]) -> io::Result<usize>
    ensures fits { IfOk result (λ count. count ≤ length bytes.now) }
    ensures bytes { WriteAppends (W.contents writer.old) (W.contents writer.new)
        result bytes.now }
    ensures goes_on { IfErr result (λ e. error_kind e ≢ ErrorKind.Interrupted) }
{
    for _ in 0..u64::MAX {
        match writer.write(bytes) {
            Err(error) if error.kind() == ErrorKind::Interrupted => {}
            ended => return ended,
        }
    }
    Err(io::Error::from(ErrorKind::TimedOut))
}

/// Writes the bytes to one of std's writers. A write that a signal interrupts is tried again.
#[derive(Debug, Drop)]
pub struct WriteSink<W> {
    writer: W,
    stalled: bool,
    stalls: u64,
    failures: u64,
}

impl<W: Write> WriteSink<W> {
    /// Writes to this writer.
    pub fn new(writer: W) -> Self
        ensures contents { ⟦<WriteSink<W> as Sink>⟧.contents result ≡ W.contents writer }
        ensures sound { ⟦<WriteSink<W> as Sink>⟧.failure_count result ≡ 0 }
        ensures steady { ⟦<WriteSink<W> as Sink>⟧.stall_count result ≡ 0 }
        ensures fresh { ⟦<WriteSink<W> as Sink>⟧.is_stalled result → ⊥ }
    {
        WriteSink {
            writer,
            stalled: false,
            stalls: 0,
            failures: 0,
        }
    }
}

impl<W: Write> Sink for WriteSink<W> {
    ghost contents = { λ s. W.contents s.writer };

    ghost is_stalled = { λ s. IsTrue s.stalled };

    ghost stall_count = { λ s. s.stalls };

    ghost failure_count = { λ s. s.failures };

    fn failures(&self) -> u64 {
        self.failures
    }

    fn stalls(&self) -> u64 {
        self.stalls
    }

    fn give(&mut self, bytes: &[u8]) -> Result<usize, IoFailed> {
        match write_on(&mut self.writer, bytes) {
            Ok(count) => {
                self.stalled = moves_none(count, bytes.len());
                if self.stalled {
                    self.stalls = self.stalls.saturating_add(1);
                }
                Ok(count)
            }
            Err(_) => {
                self.stalled = false;
                self.failures = self.failures.saturating_add(1);
                Err(IoFailed)
            }
        }
    }
}

/// Gives all of `text` to a sink, by as many calls as that needs. The first call that fails or
/// takes no byte is a `WriteFault`. The sink has then taken a prefix of the text.
#[tactic(auto, using(crate::proofs::Sets::gives))]
pub(crate) fn give_all<W: Sink>(sink: &mut W, text: &[u8]) -> Result<(), RunError>
    ensures all { OnOk result (Appends (W.contents sink.old) (W.contents sink.new) text.now) }
    ensures sound { OnOk result (W.failure_count sink.new ≡ W.failure_count sink.old) }
    ensures steady { OnOk result (W.stall_count sink.new ≡ W.stall_count sink.old) }

    ensures part { OnErr result
        (AppendsPrefix (W.contents sink.old) (W.contents sink.new) text.now) }
    ensures once { OnErr result
        (StopsOnce W.is_stalled W.stall_count W.failure_count sink.old sink.new) }
    ensures error { IfErr result (λ e. e ≡ RunError.WriteFault) }
{
    let mut done = 0;
    while done < text.len() {
        let (_, rest) = text.split_at(done);
        match sink.give(rest) {
            Err(IoFailed) | Ok(0) => return Err(RunError::WriteFault),
            Ok(count) => done += count,
        }
    }
    Ok(())
}

/// Gives the parts of a text to a sink in order, each as `give_all` does.
pub(crate) fn give_parts<W: Sink>(sink: &mut W, parts: &[Vec<u8>]) -> Result<(), RunError>
    ensures all { OnOk result
        (Appends (W.contents sink.old) (W.contents sink.new) (joined parts.now)) }
    ensures sound { OnOk result (W.failure_count sink.new ≡ W.failure_count sink.old) }
    ensures steady { OnOk result (W.stall_count sink.new ≡ W.stall_count sink.old) }

    ensures part { OnErr result
        (AppendsPrefix (W.contents sink.old) (W.contents sink.new) (joined parts.now)) }
    ensures once { OnErr result
        (StopsOnce W.is_stalled W.stall_count W.failure_count sink.old sink.new) }
    ensures error { IfErr result (λ e. e ≡ RunError.WriteFault) }
{
    for index in 0..parts.len() {
        give_all(sink, parts[index].as_slice())?;
    }
    Ok(())
}
