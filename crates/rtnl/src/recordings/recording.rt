//! The datagrams of a recording, in one vector.

ghost use Rattle.std.specs.Prelude.{◌≡◌, ◌<◌, ◌≤◌, [], ◌∷◌, length, map, IfOk};
ghost use Rattle.std.specs.Prelude.{slice_index, slice_index_or};
ghost use Rattle.rtnl.specs.Lines.{Rise, pieces};

use std::alloc::{AllocError, Global};
use std::marker::Model;

/// The datagrams of a recording: their bytes, one behind the other, and where each one ends.
#[derive(Drop)]
pub(crate) struct Datagrams {
    bytes: Vec<u8>,
    ends: Vec<u32>,
}

impl Model for Datagrams {
    ghost use Rattle.std.specs.Prelude.{List, ℕ, length};

    ghost Value = { List (List ℕ) };

    ghost use Rattle.rtnl.specs.Lines.{Rise, pieces};

    ghost view = { λ d. pieces 0 d.bytes.items d.ends.items };

    ghost invariant = { λ d. Rise 0 d.ends.items (length d.bytes.items) };
}

/// Where the piece at this place begins: where the one before it ends.
fn start_of(ends: &[u32], index: usize) -> usize
    requires { index ≤ length ends.now }
    ensures { result ≡ slice_index (0 ∷ ends.now) index }
{
    if index == 0 {
        0
    } else {
        ends[index - 1] as usize
    }
}

impl Datagrams {
    /// The pieces of some bytes that end at these places. The last of them is the end of the bytes.
    pub(crate) fn new(bytes: Vec<u8>, ends: Vec<u32>) -> Datagrams
        requires { Rise 0 ends.items (length bytes.items) }
        ensures { result ≡ pieces 0 bytes.items ends.items }
    {
        Datagrams { bytes, ends }
    }

    /// How many there are.
    pub(crate) fn len(&self) -> usize
        ensures { result ≡ length self.now }
    {
        self.ends.len()
    }

    /// The datagram at this place, counted from 0.
    pub(crate) fn get(&self, index: usize) -> &[u8]
        requires { index < length self.now }
        ensures { result.now ≡ slice_index_or self.now index [] }
    {
        let start = start_of(self.ends.as_slice(), index);
        &self.bytes[start..self.ends[index] as usize]
    }

    /// A vector of its own for each datagram.
    pub(crate) fn to_vecs(&self, alloc: Global) -> Result<Vec<Vec<u8>>, AllocError>
        ensures { IfOk result (λ v. map (λ d. d.items) v.items ≡ self.now) }
    {
        let mut vectors = Vec::with_capacity(alloc, self.len())?;
        for index in 0..self.len() {
            vectors.push(Vec::from_slice(alloc, self.get(index))?)?;
        }
        Ok(vectors)
    }
}
