//! `rtnlc_request`: the request of a dump. It takes no memory.

ghost use Rattle.nl_route.specs.Types.{route_type};
ghost use Rattle.rtnl_c.specs.Kinds.{family_in};
ghost use Rattle.rtnl_c.specs.Options.{order_in};
ghost use Rattle.rtnl_c.specs.DumpRequest.{Asks};

use crate::codes::NO_KIND;
use crate::kinds::family_of;
use crate::options::order;
use crate::put::Put;
use nl_dump::Dump;

/// Puts the request of a dump of the family of a message type into `out`; 19 where no family has
/// the type, 17 where `out` has less room.
#[unsafe(no_mangle)]
pub extern "C" fn rtnlc_request(
    message_type: u16,
    family: u8,
    seq: u32,
    big: bool,
    out: &mut [u8],
) -> Put
    ensures { Asks (family_in (route_type message_type)) (order_in big) family seq out.old
        out.new result }
{
    let Some(kind) = family_of(message_type) else {
        return Put::none(NO_KIND);
    };
    let dump = Dump {
        kind,
        family,
        seq,
        port: 0,
    };
    Put::request(&dump, order(big), out)
}
