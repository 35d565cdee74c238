//! Structs of the kernel's headers.

ghost use Rattle.std.specs.Prelude.{◌≡◌, length, slice_get};
ghost use Rattle.std.specs.Option.{option_map};
ghost use Rattle.nl_values.specs.Known.{bounds_of, field_view, fields_of};
ghost use Rattle.nl_values.specs.Fields.{part_in};

use crate::format::Format;
use crate::rows::{bounds_in, field_in, fields_in};
use crate::tables::{FIELDS, NAMES_OF_FIELDS, STRUCTS};

/// A struct, by its number in the tables.
#[derive(Clone, Copy, Debug, PartialEq, Eq)]
pub struct Struct(pub(crate) u16);

/// A field of a struct.
#[derive(Clone, Copy, Debug, PartialEq, Eq)]
pub struct Field {
    /// Its name, as `rx_packets`.
    pub name: &'static str,
    /// Its offset in the struct, in bytes.
    pub place: u16,
    /// How many bytes it has. 0 is said of a last field that has all bytes from its offset on.
    pub size: u16,
    /// What it is.
    pub format: Format,
}

impl Struct {
    /// How many fields it has.
    pub fn len(self) -> usize
        ensures { result ≡ length (fields_of self) }
    {
        fields_in(&STRUCTS, &FIELDS, self.0).len()
    }

    /// The field of this index. `None` from the number of fields on.
    pub fn field(self, index: usize) -> Option<Field>
        ensures { option_map field_view result ≡ slice_get (fields_of self) index }
    {
        field_in(&STRUCTS, &FIELDS, NAMES_OF_FIELDS, self.0, index)
    }

    /// The least and the most bytes that it has.
    pub(crate) fn bounds(self) -> Option<(u16, u16)>
        ensures { result ≡ bounds_of self }
    {
        bounds_in(&STRUCTS, self.0)
    }
}

impl Field {
    /// The bytes of the field in those of its struct. `None` where these are fewer.
    pub fn part<'a>(&self, bytes: &'a [u8]) -> Option<&'a [u8]>
        ensures { option_map (λ r. r.now) result
            ≡ part_in self.now.place self.now.size bytes.entry.now }
    {
        let from = usize::from(self.place);
        if self.size == 0 {
            return bytes.get(from..);
        }
        bytes.get(from..from + usize::from(self.size))
    }
}
