//! The names of message types, and which names their flags have.

ghost use Rattle.std.specs.Prelude.{◌≡◌, ◌++◌, map};
ghost use Rattle.rtnl.specs.Named.{named_view};
ghost use Rattle.rtnl.specs.Types.{controls, type_flags};
ghost use Rattle.rtnl.specs.Types.{type_name, verb_flags, verb_name};

use crate::names::named::{Named, find_named};
use nl_route::{RouteType, Verb};

/// Which names the flags of a message have, beside those of all types.
#[derive(Clone, Copy)]
pub(crate) enum FlagNames {
    Common,
    Get,
    New,
    Error,
}

/// The message types of netlink(7).
const CONTROLS: &[Named<FlagNames>] = &[
    (1, "noop", FlagNames::Common),
    (2, "error", FlagNames::Error),
    (3, "done", FlagNames::Common),
    (4, "overrun", FlagNames::Common),
];

#[tactic(auto, unfolding(crate::specs::Types::controls))]
fn rows() -> &'static [Named<FlagNames>]
    ensures { map named_view result.now ≡ controls }
{
    CONTROLS
}

/// The first part of the name of a family's message type, and which names its flags have.
fn verb_type(verb: Verb) -> (&'static str, FlagNames)
    ensures name { result.0.now ≡ verb_name verb }
    ensures flags { result.1 ≡ verb_flags verb }
{
    match verb {
        Verb::New => ("new", FlagNames::New),
        Verb::Del => ("del", FlagNames::Common),
        Verb::Get => ("get", FlagNames::Get),
        Verb::Set => ("set", FlagNames::Common),
    }
}

/// The name of a message type in two parts, and which names its flags have.
#[tactic(auto, unfolding(crate::specs::Types::type_name, crate::specs::Types::type_flags))]
pub(crate) fn message_type(kind: u16) -> (&'static str, &'static str, FlagNames)
    ensures name { type_name kind ≡ result.0.now ++ result.1.now }
    ensures flags { result.2 ≡ type_flags kind }
{
    match RouteType::of(kind) {
        Some(of) => {
            let (verb, names) = verb_type(of.verb);
            (verb, of.family.row().name, names)
        }
        None => match find_named(rows(), kind) {
            Some((name, names)) => ("", name, names),
            None => ("", "other", FlagNames::Common),
        },
    }
}
