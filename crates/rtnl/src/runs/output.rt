//! The text that a run makes while it reads a recording. `run_each` writes it at the end.

ghost use Rattle.std.specs.Prelude.{◌≡◌, ◌≤◌, ◌<◌, ◌+◌, ◌++◌, ◌∷◌, [], ℕ, List, length};
ghost use Rattle.std.specs.Prelude.{None, OnOk, IfOk, IfErr};
ghost use Rattle.rtnl.specs.Lines.{datagrams_from};
ghost use Rattle.rtnl.specs.Parts.{joined};
ghost use Rattle.rtnl.specs.Runs.{with_one};

use crate::error::RunError;
use crate::recordings::lines::read_line;
use crate::runs::per_datagram::PerDatagram;
use crate::verdict::Verdict;
use memchr::memchr;
use std::alloc::{AllocError, Global};
use std::mem;

/// The least size of a part of the text, but for the last one, in bytes.
const PART: usize = 262_144;

/// Adds a part that is long enough to those that are done, and begins the next one.
#[tactic(auto, using(crate::proofs::Parts::joined_more, crate::proofs::Sets::joins))]
fn end_part(alloc: Global, parts: &mut Vec<Vec<u8>>, part: &mut Vec<u8>) -> Result<(), AllocError>
    ensures { OnOk result
        (joined parts.new.items ++ part.new.items ≡ joined parts.old.items ++ part.old.items) }
{
    if part.len() < PART {
        return Ok(());
    }
    let next = Vec::with_capacity(alloc, 2 * PART)?;
    parts.push(mem::replace(part, next))?;
    Ok(())
}

/// The text and the verdict of the lines read so far, and the front of the next line. The text is
/// in parts. A part moves only where its last datagram has a text longer than `PART`.
#[derive(Drop)]
pub(crate) struct Output {
    /// The number of the first bad line, if there is one.
    pub(crate) bad_line: Option<u32>,
    pub(crate) verdict: Verdict,
    pub(crate) parts: Vec<Vec<u8>>,
    /// The part that the next text goes into.
    pub(crate) part: Vec<u8>,
    pub(crate) lines: u32,
    pub(crate) datagrams: u32,
    /// The front of the line that has not ended.
    pub(crate) unfinished: Vec<u8>,
    /// The bytes of the datagram that was read last.
    pub(crate) bytes: Vec<u8>,
    ghost few: { datagrams ≤ lines },
}

impl Output {
    ghost use Rattle.rtnl.specs.Output.{IsSaid, SaysInput};

    /// Nothing was read.
    pub(crate) fn new(alloc: Global) -> Result<Output, AllocError>
        ensures { IfOk result (λ s. (s.bad_line ≡ None) × (s.verdict ≡ Verdict.Clean)
            × (s.parts.items ≡ []) × (s.part.items ≡ []) × (s.lines ≡ 0) × (s.datagrams ≡ 0)
            × (s.unfinished.items ≡ [])) }
    {
        Ok(Output {
            bad_line: None,
            verdict: Verdict::Clean,
            parts: Vec::new(alloc),
            part: Vec::with_capacity(alloc, 2 * PART)?,
            lines: 0,
            datagrams: 0,
            unfinished: Vec::new(alloc),
            bytes: Vec::new(alloc),
        })
    }

    /// Adds the text of the datagram in `bytes`.
    fn say_datagram<E: PerDatagram>(&mut self, alloc: Global, each: &E) -> Result<(), AllocError>
        requires { self.old.datagrams < self.old.lines }
        ensures lines { OnOk result (self.new.lines ≡ self.old.lines) }
        ensures unfinished { OnOk result (self.new.unfinished ≡ self.old.unfinished) }
        ensures good { OnOk result (self.new.bad_line ≡ self.old.bad_line) }
        ensures counted { OnOk result (self.new.datagrams ≡ self.old.datagrams + 1) }
        ensures said { IfOk result (λ _. (found : E.Found)
            × E.finds each.now self.old.bytes.items found
            × (joined self.new.parts.items ++ self.new.part.items
            ≡ (joined self.old.parts.items ++ self.old.part.items)
            ++ E.text each.now (self.old.datagrams + 1) self.old.bytes.items found)
            × (self.new.verdict ≡ with_one self.old.verdict (E.takes found))) }
    {
        self.datagrams += 1;
        let number = self.datagrams as usize;
        let taken = each.push(alloc, &mut self.part, number, self.bytes.as_slice())?;
        self.verdict = self.verdict.and(taken);
        end_part(alloc, &mut self.parts, &mut self.part)
    }

    /// Adds the text of a line's datagram, if it has one. After a bad line nothing is added.
    fn say_line<E: PerDatagram>(
        &mut self,
        alloc: Global,
        each: &E,
        line: &[u8],
    ) -> Result<(), RunError>
        requires { self.old.lines < 4294967295 }
        ensures counted { OnOk result (self.new.lines ≡ self.old.lines + 1) }
        ensures unfinished { OnOk result (self.new.unfinished ≡ self.old.unfinished) }
        ensures said { (done : List (List ℕ)) → self.old.lines ≡ length done
            → IsSaid (E.finds each.now) (E.text each.now) E.takes
            (datagrams_from 1 done) self.old
            → IfOk result (λ _. IsSaid (E.finds each.now) (E.text each.now) E.takes
            (datagrams_from 1 (done ++ line.now ∷ [])) self.new) }
        ensures errors { IfErr result (λ e. e ≡ RunError.Memory) }
    {
        self.lines += 1;
        if self.bad_line.is_some() {
            return Ok(());
        }
        self.bytes.clear();
        match read_line(alloc, &mut self.bytes, self.lines, line) {
            Ok(true) => Ok(self.say_datagram(alloc, each)?),
            Ok(false) => Ok(()),
            Err(RunError::BadLine(number)) => {
                self.bad_line = Some(number);
                Ok(())
            }
            Err(_) => Err(RunError::Memory),
        }
    }

    /// Handles the line that ends with `part`. A line that came in one part is not copied.
    pub(crate) fn end_line<E: PerDatagram>(
        &mut self,
        alloc: Global,
        each: &E,
        part: &[u8],
    ) -> Result<(), RunError>
        requires { self.old.lines < 4294967295 }
        ensures counted { OnOk result (self.new.lines ≡ self.old.lines + 1) }
        ensures ended { OnOk result (self.new.unfinished.items ≡ []) }
        ensures said { (done : List (List ℕ)) → self.old.lines ≡ length done
            → IsSaid (E.finds each.now) (E.text each.now) E.takes
            (datagrams_from 1 done) self.old
            → IfOk result (λ _. IsSaid (E.finds each.now) (E.text each.now) E.takes
            (datagrams_from 1 (done ++ (self.old.unfinished.items ++ part.now) ∷ [])) self.new) }
        ensures errors { IfErr result (λ e. e ≡ RunError.Memory) }
    {
        if self.unfinished.is_empty() {
            return self.say_line(alloc, each, part);
        }
        let mut line = mem::replace(&mut self.unfinished, Vec::new(alloc));
        line.extend_from_slice(part)?;
        self.say_line(alloc, each, line.as_slice())
    }

    /// Handles the lines that end in a piece of the input, and keeps the rest of the piece.
    pub(crate) fn say_piece<E: PerDatagram>(
        &mut self,
        alloc: Global,
        each: &E,
        piece: &[u8],
    ) -> Result<(), RunError>
        requires { self.old.lines + length piece.now < 4294967295 }
        ensures said { (input : List ℕ)
            → SaysInput (E.finds each.now) (E.text each.now) E.takes input self.old
            → IfOk result (λ _. SaysInput (E.finds each.now) (E.text each.now) E.takes
            (input ++ piece.now) self.new) }
        ensures errors { IfErr result (λ e. e ≡ RunError.Memory) }
    {
        let mut left = piece;
        while let Some(end) = memchr(b'\n', left) {
            let (part, rest) = left.split_at(end);
            self.end_line(alloc, each, part)?;
            let (_newline, behind) = rest.split_at(1);
            left = behind;
        }
        self.unfinished.extend_from_slice(left)?;
        Ok(())
    }
}
