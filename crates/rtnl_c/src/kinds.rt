//! The families, which C names by any message type of them.

ghost use Rattle.std.specs.Prelude.{◌≡◌};
ghost use Rattle.nl_route.specs.Types.{route_type};
ghost use Rattle.rtnl_c.specs.Kinds.{family_in};

use nl_route::{Family, RouteType};

/// The family of a message type. `None` where no family has it.
pub(crate) fn family_of(message_type: u16) -> Option<Family>
    ensures { result ≡ family_in (route_type message_type) }
{
    match RouteType::of(message_type) {
        Some(said) => Some(said.family),
        None => None,
    }
}
