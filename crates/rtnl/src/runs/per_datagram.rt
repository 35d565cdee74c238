//! Commands that print each datagram of a recording by itself.

use std::alloc::{AllocError, Global};

/// A command that prints each datagram by itself: what it finds of one, and the text of that.
pub(crate) trait PerDatagram {
    ghost use Rattle.std.specs.Prelude.{◌≡◌, ◌++◌, ℕ, List, Bool, IfOk};

    // What may be found of a datagram.
    ghost Found: { Type 0 };

    // Whether this is found of these bytes.
    ghost finds: { Self → List ℕ → Found → Type 0 };

    // The text of the datagram of this number, by what is found of it.
    ghost text: { Self → ℕ → List ℕ → Found → List ℕ };

    // Whether a datagram of which this is found is accepted.
    ghost takes: { Found → Bool };

    /// Writes the text of the datagram of this number, counted from 1, and answers whether it is
    /// accepted.
    fn push(
        &self,
        alloc: Global,
        out: &mut Vec<u8>,
        number: usize,
        bytes: &[u8],
    ) -> Result<bool, AllocError>
        ensures { IfOk result (λ taken. (found : Found) × finds self.now bytes.now found
            × (out.new.items ≡ out.old.items ++ text self.now number bytes.now found)
            × (taken ≡ takes found)) };
}
