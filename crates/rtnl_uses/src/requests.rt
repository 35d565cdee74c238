//! A caller of `nl_request`.

ghost use Rattle.std.specs.Prelude.{◌≡◌, ◌∷◌, [], IfOk};
ghost use Rattle.nl_frame.specs.OneList.{IsTheList};
ghost use Rattle.nl_frame.specs.Written.{written};
ghost use Rattle.nl_request.specs.Route.{route_message};

use nl_frame::Limits;
use nl_request::{BuildError, Builder, Operation, RouteRequest};

/// The datagram that puts this route in the place of the one that is there, at the front of `out`.
pub fn replace_route<'a>(
    route: &RouteRequest<'_>,
    seq: u32,
    limits: &Limits,
    out: &'a mut [u8],
) -> Result<&'a [u8], BuildError>
    // It is the one writing of this one message, and is read again as this message alone.
    ensures { IfOk result (λ bytes.
        let order = limits.now.shape.order in
        let messages = route_message route.now Operation.Replace seq order ∷ [] in
        (bytes.now ≡ written order messages) × IsTheList limits.now bytes.now messages) }
{
    let mut builder = Builder::new(limits);
    route.put(Operation::Replace, seq, &mut builder, out)?;
    builder.finish(out)
}
