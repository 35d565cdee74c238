//! `CompactKey`: a key as a table stores it.

ghost use Rattle.std.specs.Prelude.{◌≡◌, ◌∷◌, [], length, OnOk, nat_eq};
ghost use Rattle.std.specs.Cmp.Lexicographic.{pointwise, bytes_decides, nat_list_eq_equiv};
ghost use Rattle.std.specs.Cmp.{on_equiv, on_per, partial_equiv_from_equiv};
ghost use Rattle.std.proofs.Common.{ap};

use crate::entry::Entry;
use crate::key::KeyBuffer;
use indexmap::Equivalent;
use nl_attr::Order;
use std::alloc::{AllocError, Global};
use std::hash::{Hash, Hasher};
use std::marker::Model;

/// The most bytes of a `ShortKey`. An IPv6 route's key has up to 68, or 92 with a source.
const INLINE: usize = 70;

/// A key. Up to 70 bytes are stored in place, so that most keys take no memory.
#[derive(Drop)]
pub struct CompactKey {
    store: Store,
}

/// Where the bytes are stored: at the front of a buffer of fixed size, or in a vector.
#[derive(Drop)]
enum Store {
    Short(ShortKey),
    Long(Vec<u8>),
}

impl Model for CompactKey {
    ghost use Rattle.std.specs.Prelude.{List, ℕ};
    ghost use Rattle.nl_table.specs.Compact.{stored};

    ghost Value = { List ℕ };

    ghost view = { λ k. stored k.store };
}

impl CompactKey {
    /// A key without a byte, for `fill`.
    #[inline(always)]
    pub fn empty() -> CompactKey
        ensures { result ≡ [] }
    {
        CompactKey {
            store: Store::Short(ShortKey::empty()),
        }
    }

    /// Takes over a vector's bytes without copying them. It takes no memory.
    pub fn from_vec(bytes: Vec<u8>) -> CompactKey
        ensures { result ≡ bytes.items }
    {
        CompactKey {
            store: Store::Long(bytes),
        }
    }

    /// Writes the key of an entry into an empty `CompactKey`. `order` is the byte order of the
    /// numbers in the entry's attributes.
    ///
    /// It takes memory for more than 70 bytes. The error is for memory. The key must not be used
    /// then: it may hold part of the bytes.
    #[inline(always)]
    pub fn fill<T: Entry>(
        &mut self,
        alloc: Global,
        order: Order,
        entry: &T,
    ) -> Result<(), AllocError>
        requires empty { self.old ≡ [] }
        ensures key { OnOk result (self.new ≡ T.key_of order entry.now) }
    {
        if let Store::Short(short) = &mut self.store {
            if entry.append_key(short, order).is_ok() {
                return Ok(());
            }
        }
        self.fill_long(alloc, order, entry)
    }

    /// Writes the key of an entry into a vector, as `fill` does for a long one.
    #[inline(never)]
    fn fill_long<T: Entry>(
        &mut self,
        alloc: Global,
        order: Order,
        entry: &T,
    ) -> Result<(), AllocError>
        ensures key { OnOk result (self.new ≡ T.key_of order entry.now) }
    {
        self.store = Store::Long(entry.key_ordered(alloc, order)?);
        Ok(())
    }

    /// The bytes.
    #[inline]
    pub fn as_slice(&self) -> &[u8]
        ensures { result.now ≡ self.now }
    {
        match &self.store {
            Store::Short(short) => short.as_slice(),
            Store::Long(bytes) => bytes.as_slice(),
        }
    }
}

/// A key of at most 70 bytes, in a buffer of fixed size. As a `KeyBuffer` it fails beyond that.
#[derive(Drop)]
pub(crate) struct ShortKey {
    buffer: [u8; INLINE],
    len: u8,
}

impl Model for ShortKey {
    ghost use Rattle.std.specs.Prelude.{List, ℕ, ◌≤◌, take};

    ghost Value = { List ℕ };

    ghost view = { λ k. take k.len k.buffer };

    ghost invariant = { λ k. k.len ≤ 70 };
}

impl ShortKey {
    /// A key without a byte.
    #[inline(always)]
    pub(crate) fn empty() -> ShortKey
        ensures { result ≡ [] }
    {
        ShortKey {
            buffer: [0; INLINE],
            len: 0,
        }
    }

    /// The bytes.
    #[inline]
    fn as_slice(&self) -> &[u8]
        ensures { result.now ≡ self.now }
    {
        &self.buffer[..self.len as usize]
    }
}

impl KeyBuffer for ShortKey {
    ghost use Rattle.std.specs.Prelude.{◌-◌};

    ghost held = { λ k. k };

    ghost room = { λ k. 70 - length k };

    #[inline(always)]
    fn make_room(&mut self, count: usize) -> Result<(), AllocError> {
        if count > INLINE - self.len as usize {
            return Err(AllocError);
        }
        Ok(())
    }

    #[inline(always)]
    fn append_within(&mut self, bytes: &[u8]) {
        let len = self.len as usize;
        let end = len + bytes.len();
        self.buffer[len..end].copy_from_slice(bytes);
        self.len = end as u8;
    }
}

impl PartialEq for CompactKey {
    ghost eq = { pointwise nat_eq };

    ghost laws = { partial_equiv_from_equiv nat_list_eq_equiv };

    // It isn't inlined: most keys that are put are new, and are compared with no other.
    #[inline(never)]
    fn eq(&self, other: &CompactKey) -> bool {
        self.as_slice() == other.as_slice()
    }
}

impl Eq for CompactKey {
    ghost laws = { nat_list_eq_equiv };
}

// All bytes are written in one call, so that a hasher takes many at a time.
impl Hash for CompactKey {
    ghost hash_input = { λ k. k ∷ [] };

    ghost respects_eq = { λ x y h. ap (λ l. l ∷ []) ((bytes_decides x y).0 h) };

    fn hash<H: Hasher>(&self, state: &mut H) {
        state.write(self.as_slice());
    }
}

/// A borrowed key to look up.
#[derive(Clone, Copy)]
pub(crate) struct Sought<'a> {
    pub(crate) bytes: &'a [u8],
}

impl PartialEq for Sought<'_> {
    ghost eq = { λ x y. pointwise nat_eq x.bytes.now y.bytes.now };

    ghost laws = { on_per (λ x. x.bytes.now) (partial_equiv_from_equiv nat_list_eq_equiv) };

    fn eq(&self, other: &Self) -> bool {
        self.bytes == other.bytes
    }
}

impl Eq for Sought<'_> {
    ghost laws = { on_equiv (λ x. x.bytes.now) nat_list_eq_equiv };
}

impl Hash for Sought<'_> {
    ghost hash_input = { λ q. q.bytes.now ∷ [] };

    ghost respects_eq = { λ x y h. ap (λ l. l ∷ []) ((bytes_decides x.bytes.now y.bytes.now).0 h) };

    fn hash<H: Hasher>(&self, state: &mut H) {
        state.write(self.bytes);
    }
}

impl Equivalent<CompactKey> for Sought<'_> {
    ghost equivalent = { λ q. pointwise nat_eq q.bytes.now };

    ghost respects_hash = { λ q k h. ap (λ l. l ∷ []) ((bytes_decides q.bytes.now k).0 h) };

    ghost respects_eq = { λ q x y. nat_list_eq_equiv.congr q.bytes.now x y };

    fn equivalent(&self, key: &CompactKey) -> bool {
        self.bytes == key.as_slice()
    }
}
