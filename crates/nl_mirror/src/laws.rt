//! Theorems about the definitions in `specs/` alone. Each function's contract states one, and its
//! body is empty.

ghost use Rattle.std.specs.Prelude.{ℕ};
ghost use Rattle.nl_attr.specs.declared.order.Order.{Order};
ghost use Rattle.nl_mirror.specs.Converging.{Converges};
ghost use Rattle.nl_mirror.specs.Datagrams.{RunsEndInMirror, RunsKeepLimits};
ghost use Rattle.nl_mirror.specs.Five.{FullIsSaid};
ghost use Rattle.nl_mirror.specs.Replicated.{Replicated};
ghost use Rattle.nl_mirror.specs.Past.{Event, EventsEndInMirror, Moves};
ghost use Rattle.nl_mirror.specs.Seen.{event_seen, replica_seen};
ghost use Rattle.nl_mirror.specs.Told.{key_by, mirror_key};

use nl_dump::FromBody;

/// A table that isn't stale has the items of its last complete dump, with all changes since that
/// dump began applied in order. It doesn't matter where among the answers a notification came.
pub fn events_end_in_mirror<T: FromBody>()
    ensures { EventsEndInMirror (key_by T.item) }
{}

/// A dump may read each entry at another moment. Still its items, with all changes since it began
/// applied in order, are in the end what the kernel has under each key. This holds as long as the
/// table missed no entry.
#[tactic(auto, using(crate::proofs::Lookups::converges))]
pub fn converges<T: FromBody>()
    ensures { (o : Order) (limit : ℕ) → Converges (key_by T.item o) limit }
{}

/// A step of a replica of values in memory is a step of the replica of the items that they stand
/// for. So the laws of replicas hold of items too.
pub fn moves_are_seen<T: FromBody>()
    ensures { (o : Order) (m : Replicated T) (e : Event T) (n : Replicated T)
        → Moves (key_by T.item o) m e n → Moves (mirror_key o) (replica_seen T.item m)
        (event_seen T.item e) (replica_seen T.item n) }
{}

/// Whatever messages a follower has taken, its table has the items of its last complete dump, with
/// all changes since that dump began applied in order. Or it is stale, and says so.
#[tactic(auto, using(crate::proofs::Datagram::runs_end))]
pub fn followers_end_in_mirror()
    ensures { RunsEndInMirror }
{}

/// Whatever messages a follower has taken, its limits and its byte order stay the same. It keeps
/// no more changes for a dump's end than its limit. No table holds more entries than its own
/// limit (`Table::len`).
#[tactic(auto, using(crate::proofs::Datagram::runs_keep))]
pub fn limits_stay()
    ensures { RunsKeepLimits }
{}

/// A change that finds no room to wait for a dump's end is answered by `Short::Waiting`, and by
/// nothing else.
pub fn full_is_said()
    ensures { FullIsSaid }
{}
