//! A caller of `nl_mirror`.

ghost use Rattle.std.specs.Prelude.{◌≡◌, Err, Ok, IfErr, IfOk, is_none};
ghost use Rattle.nl_route.specs.declared.family.Family.TheVariants as family;
ghost use Rattle.nl_mirror.specs.Five.{Fed, follower_at};
ghost use Rattle.nl_mirror.specs.Replicated.{stale_of};

use nl_frame::ReadError;
use nl_mirror::{Mirror, Short, Update};
use nl_route::Family;

/// Hears a datagram, and answers what each of its messages makes of a table, and whether the table
/// of routes can be trusted then.
pub fn are_routes_known(
    mirror: &mut Mirror,
    bytes: &[u8],
) -> Result<(Vec<Result<Update, Short>>, bool), ReadError>
    // Each table is what the one meaning of the datagram makes of it, and the answers are of that.
    ensures ok { IfOk result (λ answer. Fed mirror.old bytes.now (Ok answer.0) mirror.new
        × (answer.1 ≡ is_none (stale_of (follower_at family.Route mirror.new).replica))) }
    // Where it is refused, nothing changes but that each table is stale.
    ensures err { IfErr result (λ e. Fed mirror.old bytes.now (Err e) mirror.new) }
{
    let answers = mirror.feed(bytes).into_result()?;
    Ok((answers, mirror.stale(Family::Route).is_none()))
}
