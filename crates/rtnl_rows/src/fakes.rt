//! Sources and sinks that fail, or move few bytes at a time.

ghost use Rattle.std.specs.Prelude.{None, ◌≡◌, ◌≤◌, IfSome, IsTrue, false};
ghost use Rattle.rtnl.specs.Streams.{one_more};

use rtnl::{IoFailed, Sink, Source};

/// Gives some bytes, and then fails at each call.
#[derive(Drop)]
pub(crate) struct BrokenSource<'a> {
    pub(crate) left: &'a [u8],
    pub(crate) failures: u64,
}

impl Source for BrokenSource<'_> {
    ghost remaining = { λ _. None };

    ghost is_ended = { λ _. ⊥ };

    ghost failure_count = { λ s. s.failures };

    fn failures(&self) -> u64 {
        self.failures
    }

    fn take(&mut self, buffer: &mut [u8]) -> Result<usize, IoFailed> {
        let count = self.left.len().min(buffer.len());
        if count == 0 {
            self.failures = self.failures.saturating_add(1);
            return Err(IoFailed);
        }
        let (next, rest) = self.left.split_at(count);
        let (room, _) = buffer.split_at_mut(count);
        room.copy_from_slice(next);
        self.left = rest;
        Ok(count)
    }
}

/// Gives blanks without end, and counts them.
#[derive(Drop)]
pub(crate) struct EndlessSource {
    pub(crate) given: u64,
}

impl Source for EndlessSource {
    ghost remaining = { λ _. None };

    ghost is_ended = { λ _. ⊥ };

    ghost failure_count = { λ _. 0 };

    fn failures(&self) -> u64 {
        0
    }

    fn take(&mut self, buffer: &mut [u8]) -> Result<usize, IoFailed> {
        buffer.fill(b' ');
        self.given = self.given.saturating_add(buffer.len() as u64);
        Ok(buffer.len())
    }
}

/// Takes up to `each` bytes in each of `calls` calls, and then fails, or takes none.
#[derive(Drop)]
pub(crate) struct TightSink {
    pub(crate) bytes: Vec<u8>,
    pub(crate) each: usize,
    pub(crate) calls: usize,
    pub(crate) fails: bool,
    pub(crate) stalled: bool,
    pub(crate) stalls: u64,
    pub(crate) failures: u64,
}

impl TightSink {
    /// How many of so many bytes the next call takes, unless it fails.
    fn count(&mut self, wanted: usize) -> Option<usize>
        ensures fits { IfSome result (λ count. count ≤ wanted) }
        ensures counts { (self.new.failures ≡ self.old.failures)
            × (self.new.stalls ≡ self.old.stalls) }
    {
        if self.calls > 0 {
            self.calls -= 1;
            return Some(wanted.min(self.each));
        }
        if self.fails { None } else { Some(0) }
    }

    fn fail(&mut self) -> IoFailed
        ensures failed { self.new.failures ≡ one_more self.old.failures }
        ensures stalls { (self.new.stalled ≡ false) × (self.new.stalls ≡ self.old.stalls) }
    {
        self.stalled = false;
        self.failures = self.failures.saturating_add(1);
        IoFailed
    }
}

impl Sink for TightSink {
    ghost contents = { λ _. None };

    ghost is_stalled = { λ s. IsTrue s.stalled };

    ghost stall_count = { λ s. s.stalls };

    ghost failure_count = { λ s. s.failures };

    fn failures(&self) -> u64 {
        self.failures
    }

    fn stalls(&self) -> u64 {
        self.stalls
    }

    fn give(&mut self, bytes: &[u8]) -> Result<usize, IoFailed> {
        let Some(count) = self.count(bytes.len()) else {
            return Err(self.fail());
        };
        let (front, _) = bytes.split_at(count);
        if self.bytes.extend_from_slice(front).is_err() {
            return Err(self.fail());
        }
        self.stalled = count == 0 && !bytes.is_empty();
        if self.stalled {
            self.stalls = self.stalls.saturating_add(1);
        }
        Ok(count)
    }
}
