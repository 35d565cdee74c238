//! Sub-messages: payloads of which a kind says what they are.

ghost use Rattle.std.specs.Prelude.{◌≡◌};
ghost use Rattle.nl_values.specs.Known.{chosen_format};

use crate::format::Format;
use crate::rows::format_in;
use crate::tables::{CASES, CHOICES, NAMES_OF_KINDS};
use nl_attr::Order;

/// A sub-message, by its number in the tables.
#[derive(Clone, Copy, Debug, PartialEq, Eq)]
pub struct Choice(pub(crate) u16);

impl Choice {
    /// What the payload is where these bytes are the kind: those of the attribute or the field
    /// that the selector names. It is `Format::Bytes` where the kind has none.
    pub fn format(self, order: Order, kind: &[u8]) -> Format
        ensures { result ≡ chosen_format self order kind.now }
    {
        format_in(&CHOICES, &CASES, NAMES_OF_KINDS, self.0, order, kind)
    }
}
