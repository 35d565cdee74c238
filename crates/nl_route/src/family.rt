//! The constants of each family, and the two parts of a message type: its family and its verb.

ghost use Rattle.std.specs.Prelude.{◌≡◌, Some, IsTrue};
ghost use Rattle.std.specs.Fmt.{padded};
ghost use Rattle.nl_attr.specs.Names.{Parses};
ghost use Rattle.nl_route.specs.Types.{route_type, says};
ghost use Rattle.nl_route.specs.Families.{context_of, has_verb, head_size};
ghost use Rattle.nl_route.specs.Families.{name_of, place_of, row, type_of};
ghost use Rattle.nl_route.specs.Parts.{family_of_fourth, verb_at};

use crate::fib_rule_hdr::RuleHead;
use crate::head::Head;
use crate::ifaddrmsg::AddrHead;
use crate::ifinfomsg::LinkHead;
use crate::ndmsg::NeighHead;
use crate::rtmsg::RouteHead;
use nl_attr::{Ctx, UnknownName};
use std::fmt;
use std::str::FromStr;

/// The kind of object that a message describes. Not an address family, as `AF_INET`.
#[derive(Clone, Copy, Debug, PartialEq, Eq, Hash)]
pub enum Family {
    Link,
    Addr,
    Route,
    Neigh,
    Rule,
}

/// What a message does to an object of its family. A family's message types, as `RTM_NEWLINK` to
/// `RTM_SETLINK`, are consecutive numbers in this order.
#[derive(Clone, Copy, Debug, PartialEq, Eq, Hash)]
pub enum Verb {
    New,
    Del,
    Get,
    Set,
}

/// A message type of any family, as `RTM_NEWLINK`, taken apart. It isn't the type of a route.
#[derive(Clone, Copy, Debug, PartialEq, Eq, Hash)]
pub struct RouteType {
    pub family: Family,
    pub verb: Verb,
}

/// The constants of a family.
#[derive(Clone, Copy, Debug, PartialEq, Eq)]
pub struct Row {
    /// The size of its header, in bytes.
    pub head_size: usize,
    /// The context of its attributes.
    pub context: Ctx,
    /// Its first message type, as `RTM_NEWLINK`.
    pub new_type: u16,
    /// Whether it has a SET message, whose type is `new_type + 3`.
    pub has_set: bool,
    /// Its name in text and on the command line, as `link`.
    pub name: &'static str,
}

impl Row {
    fn of<H: Head>(new_type: u16, has_set: bool, name: &'static str) -> Row
        ensures size { result.head_size ≡ H.SIZE }
        ensures context { result.context ≡ H.ctx }
        ensures new { result.new_type ≡ new_type }
        ensures set { result.has_set ≡ has_set }
        ensures name { result.name.now ≡ name.now }
    {
        Row {
            head_size: H::SIZE,
            context: H::context(),
            new_type,
            has_set,
            name,
        }
    }
}

impl Verb {
    /// The verb at this index, 0 to 3, among a family's four message types.
    fn at(place: u16) -> Verb
        ensures { result ≡ verb_at place }
    {
        match place {
            0 => Verb::New,
            1 => Verb::Del,
            2 => Verb::Get,
            _ => Verb::Set,
        }
    }

    /// The index of this verb, as in `at`.
    fn place(self) -> u16
        ensures { result ≡ place_of self }
    {
        match self {
            Verb::New => 0,
            Verb::Del => 1,
            Verb::Get => 2,
            Verb::Set => 3,
        }
    }
}

impl Family {
    /// All families.
    pub const ALL: [Family; 5] = [
        Family::Link,
        Family::Addr,
        Family::Route,
        Family::Neigh,
        Family::Rule,
    ];

    /// The family whose four message types begin at `4 * number`. `None` where there is none.
    fn at(number: u16) -> Option<Family>
        ensures { result ≡ family_of_fourth number }
    {
        match number {
            4 => Some(Family::Link),
            5 => Some(Family::Addr),
            6 => Some(Family::Route),
            7 => Some(Family::Neigh),
            8 => Some(Family::Rule),
            _ => None,
        }
    }

    /// The constants of this family.
    #[tactic(auto, unfolding(crate::specs::Types::route_type))]
    pub fn row(self) -> Row
        ensures size { result.head_size ≡ head_size self }
        ensures context { result.context ≡ context_of self }
        ensures new { result.new_type ≡ (row self).new }
        ensures set { result.has_set ≡ has_verb self Verb.Set }
        ensures name { result.name.now ≡ name_of self }
    {
        match self {
            Family::Link => Row::of::<LinkHead>(16, true, "link"),
            Family::Addr => Row::of::<AddrHead>(20, false, "addr"),
            Family::Route => Row::of::<RouteHead>(24, false, "route"),
            Family::Neigh => Row::of::<NeighHead>(28, false, "neigh"),
            Family::Rule => Row::of::<RuleHead>(32, false, "rule"),
        }
    }

    /// Whether this family has a message type of this verb. Only SET is one that a family may
    /// lack.
    pub fn has(self, verb: Verb) -> bool
        ensures { result ≡ has_verb self verb }
    {
        match verb {
            Verb::New | Verb::Del | Verb::Get => true,
            Verb::Set => self.row().has_set,
        }
    }

    /// The message type of this family and verb. It means nothing where `has` is false.
    #[tactic(auto, using(crate::proofs::Families::type_says))]
    pub fn type_of(self, verb: Verb) -> u16
        ensures number { result ≡ type_of self verb }
        // Where the family has the verb, `RouteType::of` takes the type apart again.
        ensures says { IsTrue (has_verb self verb) → route_type result ≡ Some (says verb self) }
    {
        self.row().new_type + verb.place()
    }
}

impl fmt::Display for Family {
    ghost output = { λ family. Some (name_of family) };

    ghost styled_output = { λ family spec. Some (padded spec (name_of family)) };

    fn fmt<W: fmt::Write>(&self, f: &mut fmt::Formatter<W>) -> fmt::Result {
        f.pad(self.row().name)
    }
}

/// Parses the name of a family, as `link`. Any other text is `UnknownName`.
impl FromStr for Family {
    type Err = UnknownName;

    ghost from_str_gives = { Parses name_of };

    fn from_str(name: &str) -> Result<Family, UnknownName> {
        for family in Family::ALL {
            if family.row().name == name {
                return Ok(family);
            }
        }
        Err(UnknownName)
    }
}

impl RouteType {
    /// Takes a message type apart. `None` where no family has it.
    #[tactic(auto, using(crate::proofs::Types::agree))]
    pub fn of(kind: u16) -> Option<RouteType>
        ensures { result ≡ route_type kind }
    {
        let family = Family::at(kind / 4)?;
        let verb = Verb::at(kind % 4);
        if family.has(verb) {
            Some(RouteType { family, verb })
        } else {
            None
        }
    }
}

/// Calls another macro with these arguments and the list of all families. So a match over the
/// families needn't name them.
#[macro_export]
macro_rules! families {
    ([$($macro:tt)+] $arguments:tt) => {
        $($macro)+!($arguments [Link Addr Route Neigh Rule])
    };
}

/// Matches over an enum that has a variant for each family, named as the family is, and others.
/// `$then` is the arm of each family, with its body as `$object`. `$others` are the other arms.
#[macro_export]
macro_rules! match_object {
    (
        ($value:expr, $Type:ident, $object:ident => $then:expr, { $($others:tt)* })
        [$($Family:ident)+]
    ) => {
        match $value {
            $($Type::$Family($object) => $then,)+
            $($others)*
        }
    };
    ($($arguments:tt)+) => { $crate::families!([$crate::match_object] ($($arguments)+)) };
}

/// Reads the body of a family that is only known at run time, by `read_body_ordered`. The body
/// comes in the variant of `$Type` that is named as the family is.
#[macro_export]
macro_rules! read_object {
    (($family:expr, $Type:ident, $arguments:tt) [$($Family:ident)+]) => {
        match $family {
            $($crate::Family::$Family => {
                $crate::$Family::read_body_ordered $arguments.map($Type::$Family)
            })+
        }
    };
    ($($arguments:tt)+) => { $crate::families!([$crate::read_object] ($($arguments)+)) };
}
