//! `Operation`: what a request asks for, which decides its message type and its flags.

ghost use Rattle.std.specs.Prelude.{◌≡◌};
ghost use Rattle.nl_request.specs.Operations.{flags_of, type_of};

use nl_route::{Family, Verb};

/// What a request asks for, named as by ip(8). The kernel answers each with `NLMSG_ERROR`: an
/// error, or 0 as the acknowledgement.
#[derive(Clone, Copy, Debug, PartialEq, Eq, Hash)]
pub enum Operation {
    /// Creates the object; an error where it exists: `RTM_NEW` with `NLM_F_CREATE` and
    /// `NLM_F_EXCL`.
    Add,
    /// Creates the object, or replaces the existing one: `RTM_NEW` with `NLM_F_CREATE` and
    /// `NLM_F_REPLACE`.
    Replace,
    /// Replaces the existing object: `RTM_NEW` with `NLM_F_REPLACE`. Where there is none, it is an
    /// error for routes and neighbours, and an address is created. For links use `Set`.
    Change,
    /// Creates a route behind the existing ones, or an entry of a bridge: `RTM_NEW` with
    /// `NLM_F_CREATE` and `NLM_F_APPEND`.
    Append,
    /// Creates a route before the existing ones: `RTM_NEW` with `NLM_F_CREATE`.
    Prepend,
    /// Sets fields of an existing link; an error where there is none: `RTM_NEW` with no further
    /// flag.
    Set,
    /// Deletes the object: `RTM_DEL` with no further flag.
    Delete,
}

impl Operation {
    /// `nlmsg_flags` of its messages: `NLM_F_REQUEST`, `NLM_F_ACK`, and the flags named above
    /// (netlink(7)).
    #[inline]
    pub fn flags(self) -> u16
        ensures { result ≡ flags_of self }
    {
        match self {
            Operation::Add => 0x0605,
            Operation::Replace => 0x0505,
            Operation::Change => 0x0105,
            Operation::Append => 0x0c05,
            Operation::Prepend => 0x0405,
            Operation::Set | Operation::Delete => 0x0005,
        }
    }

    /// `nlmsg_type` of its messages for this family: `RTM_NEW` or `RTM_DEL` of it.
    #[inline]
    pub fn type_of(self, family: Family) -> u16
        ensures { result ≡ type_of self family }
    {
        match self {
            Operation::Delete => family.type_of(Verb::Del),
            _ => family.type_of(Verb::New),
        }
    }
}
