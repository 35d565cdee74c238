//! `Payload`: the bytes of an attribute that holds neither attributes nor next hops.

ghost use Rattle.std.specs.Prelude.{◌≡◌, ◌≤◌, ◌<◌, ◌==◌, ◌↔◌, nat_eq};
ghost use Rattle.std.specs.Prelude.{length, take, IsTrue, IsOk, IfOk, IfErr};
ghost use Rattle.std.specs.Cmp.Lexicographic.{pointwise, nat_list_eq_equiv};
ghost use Rattle.std.specs.Cmp.{partial_equiv_from_equiv};

use std::alloc::{AllocError, AllocFailed, Global};
use std::fmt;
use std::marker::Model;

/// The most bytes that are stored in the value itself, not on the heap.
pub(crate) const INLINE: usize = 23;

/// A byte string. Up to 23 bytes are stored in the value itself, so that numbers, addresses and
/// short names take no memory.
#[derive(Drop)]
pub struct Payload {
    store: Store,
}

/// Where the bytes are stored: at the front of a buffer of fixed size, or in a vector.
#[derive(Drop)]
enum Store {
    Inline(u8, [u8; INLINE]),
    Heap(Vec<u8>),
}

impl Model for Payload {
    ghost use Rattle.std.specs.Prelude.{List, ℕ};

    ghost Value = { List ℕ };

    ghost use Rattle.nl_attr.specs.Stored.{stored, IsStored};

    ghost view = { λ p. stored p.store };

    ghost invariant = { λ p. IsStored p.store };
}

impl Payload {
    /// Copies these bytes. It takes memory only for more than 23. The error is for memory.
    pub fn from_slice(alloc: Global, bytes: &[u8]) -> Result<Payload, AllocError>
        ensures value { IfOk result (λ p. p ≡ bytes.now) }
        ensures inline { length bytes.now ≤ INLINE → IsOk result }
    {
        if bytes.len() <= INLINE {
            Ok(Payload::short(bytes))
        } else {
            let store = Store::Heap(Vec::from_slice(alloc, bytes)?);
            Ok(Payload { store })
        }
    }

    /// Copies at most 23 bytes. It takes no memory.
    fn short(bytes: &[u8]) -> Payload
        requires { length bytes.now ≤ INLINE }
        ensures { result ≡ bytes.now }
    {
        let len = bytes.len();
        let mut buffer = [0; INLINE];
        buffer[..len].copy_from_slice(bytes);
        let store = Store::Inline(len as u8, buffer);
        Payload { store }
    }

    /// The first `len` bytes of a buffer.
    #[inline(always)]
    pub(crate) fn front_of(buffer: [u8; INLINE], len: u8) -> Payload
        requires { len ≤ INLINE }
        ensures { result ≡ take len buffer }
    {
        let store = Store::Inline(len, buffer);
        Payload { store }
    }

    /// Takes over a vector's bytes without copying them. It takes no memory.
    pub fn from_vec(bytes: Vec<u8>) -> Payload
        ensures { result ≡ bytes.items }
    {
        let store = Store::Heap(bytes);
        Payload { store }
    }

    /// Turns the payload into a vector. Bytes that are stored in the value itself are copied,
    /// which takes memory. The error is for memory, and gives the payload back.
    pub fn into_vec(self, alloc: Global) -> Result<Vec<u8>, AllocFailed<Payload>>
        ensures value { IfOk result (λ v. v.items ≡ self) }
        ensures long { INLINE < length self → IsOk result }
        ensures back { IfErr result (λ failed. failed.value ≡ self) }
    {
        match self {
            Payload {
                store: Store::Heap(bytes),
            } => Ok(bytes),
            short => match Vec::from_slice(alloc, short.as_slice()) {
                Ok(bytes) => Ok(bytes),
                Err(AllocError) => Err(AllocFailed { value: short }),
            },
        }
    }

    /// The bytes.
    #[inline]
    pub fn as_slice(&self) -> &[u8]
        ensures { result.now ≡ self.now }
    {
        match &self.store {
            Store::Inline(len, buffer) => &buffer[..*len as usize],
            Store::Heap(bytes) => bytes.as_slice(),
        }
    }

    /// Whether its bytes are equal to these.
    #[inline]
    pub fn is(&self, bytes: &[u8]) -> bool
        ensures { IsTrue result ↔ self.now ≡ bytes.now }
    {
        self.as_slice() == bytes
    }

    /// The number of bytes.
    #[inline]
    pub fn len(&self) -> usize
        ensures { result ≡ length self.now }
    {
        self.as_slice().len()
    }

    /// Whether it has no byte.
    #[inline]
    pub fn is_empty(&self) -> bool
        ensures { result ≡ (length self.now == 0) }
    {
        self.len() == 0
    }
}

impl From<Vec<u8>> for Payload {
    ghost from_gives = { λ v p. p ≡ v.items };

    fn from(bytes: Vec<u8>) -> Payload {
        Payload::from_vec(bytes)
    }
}

impl PartialEq for Payload {
    ghost eq = { pointwise nat_eq };

    ghost laws = { partial_equiv_from_equiv nat_list_eq_equiv };

    fn eq(&self, other: &Payload) -> bool {
        self.as_slice() == other.as_slice()
    }
}

impl Eq for Payload {
    ghost laws = { nat_list_eq_equiv };
}

impl fmt::Debug for Payload {
    fn fmt<W: fmt::Write>(&self, f: &mut fmt::Formatter<W>) -> fmt::Result {
        self.as_slice().fmt(f)
    }
}
