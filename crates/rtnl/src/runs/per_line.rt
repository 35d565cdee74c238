//! Commands that print each line of a recording that is followed.

ghost use Rattle.rtnl.specs.Lines.{Reads, line_at};
ghost use Rattle.std.specs.Prelude.{[]};

use crate::error::RunError;
use crate::recordings::lines::read_line;
use crate::runs::per_datagram::PerDatagram;
use std::alloc::Global;

/// What `tell` answers of a line that says something.
#[derive(Drop)]
pub(crate) struct Told {
    /// Whether what the line says is accepted.
    pub(crate) taken: bool,
    /// The number of the line's datagram, if there is one, for the listener. Datagrams are counted
    /// from 1. No clause speaks of it.
    pub(crate) number: u64,
    /// Whether the next line is handled.
    pub(crate) goes_on: bool,
}

/// A command that prints the lines of a recording that is followed, one after another.
pub(crate) trait PerLine {
    ghost use Rattle.std.specs.Prelude.{◌≡◌, ℕ, List, Bool, Option, Result, false};
    ghost use Rattle.rtnl.specs.Followed.{TellsSo};

    /// What is kept from one line to the next.
    type Kept;

    // What a line may say.
    ghost Content: { Type 0 };

    // What a line says, if it says anything, or an error where it is bad.
    ghost says: { Self → List ℕ → Result (Option Content) ℕ };

    // What may be found of what a line says.
    ghost Found: { Type 0 };

    // It relates the state before the line, the content, the result, and the state after it.
    ghost finds: { Self → Self.Kept → Content → Found → Self.Kept → Type 0 };

    // The text of what a line says, by what is found of it. The number counts the lines that say
    // something.
    ghost text: { Self → ℕ → Content → Found → List ℕ };

    // Whether a line of which this is found is accepted.
    ghost takes: { Found → Bool };

    // Whether in this state no further line is handled.
    ghost ends: { Self.Kept → Bool };

    /// Appends to `out` the text of what a line says, or answers `None` where it says nothing.
    /// `number` counts the lines that say something, with this one. `bytes` is an empty buffer,
    /// which then has the line's datagram, if there is one. After `BadLine`, whose number may be
    /// any, `kept` and `out` are as before. After `Memory` they may be anything.
    fn tell(
        &self,
        alloc: Global,
        kept: &mut Self::Kept,
        out: &mut Vec<u8>,
        bytes: &mut Vec<u8>,
        number: usize,
        line: &[u8],
    ) -> Result<Option<Told>, RunError>
        requires { ends kept.old ≡ false }
        ensures { TellsSo (finds self.now) (text self.now number) takes ends
            (says self.now line.now) kept.old kept.new out.old.items out.new.items result };
}

/// Reads the datagram of a line into `bytes`, which it clears before, and says whether there is one.
pub(crate) fn read_datagram_of(
    alloc: Global,
    bytes: &mut Vec<u8>,
    line: &[u8],
) -> Result<bool, RunError>
    ensures { Reads [] bytes.new.items result (line_at 0 line.now) }
{
    bytes.clear();
    read_line(alloc, bytes, 0, line)
}

/// A command that prints each datagram by itself keeps nothing, and handles all lines.
impl<E: PerDatagram> PerLine for E {
    ghost use Rattle.std.specs.Prelude.{ℕ, List};
    ghost use Rattle.rtnl.specs.Followed.{alone, never};
    ghost use Rattle.rtnl.specs.Lines.{line_at};

    type Kept = ();

    ghost Content = { List ℕ };

    ghost says = { λ _. line_at 0 };

    ghost Found = { E.Found };

    ghost finds = { λ each. alone (E.finds each) };

    ghost text = { E.text };

    ghost takes = { E.takes };

    ghost ends = { never };

    fn tell(
        &self,
        alloc: Global,
        _kept: &mut (),
        out: &mut Vec<u8>,
        bytes: &mut Vec<u8>,
        number: usize,
        line: &[u8],
    ) -> Result<Option<Told>, RunError> {
        if !read_datagram_of(alloc, bytes, line)? {
            return Ok(None);
        }
        let taken = self.push(alloc, out, number, bytes.as_slice())?;
        Ok(Some(Told {
            taken,
            number: number as u64,
            goes_on: true,
        }))
    }
}
