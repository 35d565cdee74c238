//! Sets of attributes.

ghost use Rattle.std.specs.Prelude.{◌≡◌, IfSome, true};
ghost use Rattle.std.specs.Option.{option_map};
ghost use Rattle.nl_values.specs.Known.{attribute_of, attribute_view, is_word, prefix_of};

use crate::format::Format;
use crate::rows::{attribute_in, prefix_in};
use crate::tables::{ATTRIBUTES, NAMES_OF_ATTRIBUTES, SETS};

/// A set of attributes, by its number in the tables.
#[derive(Clone, Copy, Debug, PartialEq, Eq)]
pub struct Set(pub(crate) u16);

/// What is said of an attribute.
#[derive(Clone, Copy, Debug, PartialEq, Eq)]
pub struct Attribute {
    /// Its name without the prefix of its set, as `MTU`. It is empty where the number has none.
    pub name: &'static str,
    /// What its payload is.
    pub format: Format,
}

impl Set {
    /// The attributes of a link, `IFLA_*`.
    pub const LINK: Set = Set(61);
    /// The attributes of a link's `IFLA_LINKINFO`, `IFLA_INFO_*`.
    pub const LINK_INFO: Set = Set(66);
    /// The attributes of an address, `IFA_*`.
    pub const ADDR: Set = Set(0);
    /// The attributes of a route and of its next hops, `RTA_*`.
    pub const ROUTE: Set = Set(145);
    /// The attributes of a route's `RTA_METRICS`, `RTAX_*`.
    pub const METRICS: Set = Set(146);
    /// The attributes of a neighbour, `NDA_*`.
    pub const NEIGH: Set = Set(131);
    /// The attributes of a routing rule, `FRA_*`.
    pub const RULE: Set = Set(52);
    /// The attributes of an acknowledgement or of an end of a dump, `NLMSGERR_ATTR_*`.
    pub const EXTACK: Set = Set(51);
    /// The types of the messages of rtnetlink, as `RTM_NEWLINK`. `Format::Headed` says which head
    /// and which attributes a message of the type has.
    pub const MESSAGES: Set = Set(169);

    /// What the kernel's names of its attributes begin with, as `IFLA_`.
    pub fn prefix(self) -> &'static str
        ensures { result.now ≡ prefix_of self }
    {
        prefix_in(&SETS, NAMES_OF_ATTRIBUTES, self.0)
    }

    /// What is said of the attribute of this number. `None` where the set has none.
    pub fn attribute(self, number: u16) -> Option<Attribute>
        ensures row { option_map attribute_view result ≡ attribute_of self number }
        // The name is short, of letters, digits, `_` and `-`.
        ensures word { IfSome result (λ it. is_word it.name.now ≡ true) }
    {
        attribute_in(&SETS, &ATTRIBUTES, NAMES_OF_ATTRIBUTES, self.0, number)
    }
}
