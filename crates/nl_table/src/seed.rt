//! `Seed`: the secret of a table's hash.

ghost use Rattle.std.specs.Prelude.{◌≡◌, take, drop};
ghost use Rattle.core.specs.Int.{w64, from_le_bytes};

use core::hash::keyed_hasher;
use std::fmt;
use std::hash::{BuildHasher, DefaultHasher};

/// The 128-bit key of SipHash 1-3, by which a table hashes the keys of its entries.
///
/// Somebody who chooses entries and knows the seed can make keys that collide. Each put then
/// compares its key with all of them. So a seed should be random, and known to no peer. It doesn't
/// change what a table holds, or in which order.
#[derive(Clone, Copy)]
pub struct Seed {
    pub key0: u64,
    pub key1: u64,
}

impl Seed {
    /// The seed of a table that is given none. It is public, and protects from no collisions.
    pub const KNOWN: Seed = Seed { key0: 0, key1: 0 };

    /// The seed of these bytes: `key0` from the first eight, `key1` from the others,
    /// little-endian.
    pub fn from_bytes(bytes: [u8; 16]) -> Seed
        ensures first { result.key0 ≡ from_le_bytes w64 (take 8 bytes) }
        ensures second { result.key1 ≡ from_le_bytes w64 (drop 8 bytes) }
    {
        let [a, b, c, d, e, f, g, h, i, j, k, l, m, n, o, p] = bytes;
        Seed {
            key0: u64::from_le_bytes([a, b, c, d, e, f, g, h]),
            key1: u64::from_le_bytes([i, j, k, l, m, n, o, p]),
        }
    }
}

impl BuildHasher for Seed {
    ghost use Rattle.core.specs.Hash.DefaultHasher.{with_keys};

    type Hasher = DefaultHasher;

    ghost build_hasher = { λ s. with_keys s.key0 s.key1 };

    fn build_hasher(&self) -> DefaultHasher {
        keyed_hasher(self.key0, self.key1)
    }
}

// A seed is secret, so its keys aren't printed.
impl fmt::Debug for Seed {
    fn fmt<W: fmt::Write>(&self, f: &mut fmt::Formatter<W>) -> fmt::Result {
        f.debug_struct("Seed").finish_non_exhaustive()
    }
}
