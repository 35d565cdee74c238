//! Names of values and of bits.

ghost use Rattle.std.specs.Prelude.{◌≡◌, length, slice_get};
ghost use Rattle.std.specs.Option.{option_map};
ghost use Rattle.nl_values.specs.Known.{bit_view, bits_of, name_of, names_prefix_of, unnamed_of};

use crate::rows::{bit_in, names_prefix_in, rows_in, unnamed_in, value_name_in};
use crate::tables::{NAMES, NAMES_OF_VALUES, VALUES};

/// The names of an enumeration's values, or of bits, by their number in the tables.
#[derive(Clone, Copy, Debug, PartialEq, Eq)]
pub struct Names(pub(crate) u16);

impl Names {
    /// The numbers by which a system call says why it failed, as `ENOENT`, which is 2.
    pub const ERRNO: Names = Names(121);

    /// What the kernel's names of these begin with, as `IFF_`.
    pub fn prefix(self) -> &'static str
        ensures { result.now ≡ names_prefix_of self }
    {
        names_prefix_in(&NAMES, NAMES_OF_VALUES, self.0)
    }

    /// The name of a number without the prefix. `None` where it has none.
    ///
    /// A negative value goes by its bits: -1 of 32 bits is 4,294,967,295.
    pub fn name(self, number: u64) -> Option<&'static str>
        ensures { option_map (λ r. r.now) result ≡ name_of self number }
    {
        value_name_in(&NAMES, &VALUES, NAMES_OF_VALUES, self.0, number)
    }

    /// How many bits have a name.
    pub fn len(self) -> usize
        ensures { result ≡ length (bits_of self) }
    {
        rows_in(&NAMES, &VALUES, self.0).len()
    }

    /// The bit of this index that has a name: the name without the prefix, and the bit, as a
    /// number. `None` from their number on.
    pub fn bit(self, index: usize) -> Option<(&'static str, u64)>
        ensures { option_map bit_view result ≡ slice_get (bits_of self) index }
    {
        bit_in(&NAMES, &VALUES, NAMES_OF_VALUES, self.0, index)
    }

    /// The bits of a number that have no name.
    pub fn unnamed_bits(self, number: u64) -> u64
        ensures { result ≡ unnamed_of self number }
    {
        unnamed_in(&NAMES, &VALUES, self.0, number)
    }
}
