//! The iterator over the entries of a table.

ghost use Rattle.std.specs.Prelude.{◌≡◌, ⊤};
ghost use Rattle.std.specs.Iterator.{YieldsFirstBy, YieldsLastBy, item_count};
ghost use Rattle.std.specs.Map.Iter.{deref_pair};

use crate::compact::CompactKey;
use indexmap::map;
use std::alloc::AllocError;
use std::iter::FusedIterator;
use std::marker::Model;

/// An iterator over the entries of a table with their keys, in the order of `Table::get`.
#[derive(Drop)]
#[must_use = "iterators are lazy and do nothing unless consumed"]
pub struct Iter<'a, T> {
    pub(crate) pairs: map::Iter<'a, CompactKey, T>,
}

impl<'a, T> Model for Iter<'a, T> {
    ghost use Rattle.std.specs.Prelude.{ℕ, List};

    ghost Value = { List (List ℕ × T) };

    ghost view = { λ it. it.pairs };
}

impl<'a, T> Clone for Iter<'a, T> {
    ghost is_clone = { λ it copy. copy ≡ it };

    ghost is_infallible = { λ _. ⊤ };

    fn clone(&self) -> Result<Self, AllocError> {
        Ok(Iter {
            pairs: self.pairs.clone()?,
        })
    }
}

impl<'a, T> Iterator for Iter<'a, T> {
    type Item = (&'a [u8], &'a T);

    ghost next_gives = { YieldsFirstBy deref_pair (λ rest. rest) };

    ghost remaining = { item_count (λ rest. rest) };

    fn next(&mut self) -> Option<(&'a [u8], &'a T)> {
        let (key, entry) = self.pairs.next()?;
        Some((key.as_slice(), entry))
    }

    fn size_hint(&self) -> (usize, Option<usize>) {
        self.pairs.size_hint()
    }
}

impl<'a, T> DoubleEndedIterator for Iter<'a, T> {
    ghost next_back_gives = { YieldsLastBy deref_pair (λ rest. rest) };

    fn next_back(&mut self) -> Option<(&'a [u8], &'a T)> {
        let (key, entry) = self.pairs.next_back()?;
        Some((key.as_slice(), entry))
    }
}

impl<'a, T> ExactSizeIterator for Iter<'a, T> {
    fn len(&self) -> usize {
        self.pairs.len()
    }
}

impl<'a, T> FusedIterator for Iter<'a, T> {}
