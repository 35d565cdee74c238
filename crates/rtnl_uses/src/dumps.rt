//! A caller of `nl_dump`.

ghost use Rattle.std.specs.Prelude.{◌+◌, ◌*◌, ◌≤◌, ◌↔◌, List, IfOk, IsTrue, OnOk, OnErr, length};
ghost use Rattle.nl_frame.specs.Message.{MessageVal};
ghost use Rattle.nl_frame.specs.OneList.{IsTheList};
ghost use Rattle.nl_route.specs.declared.family.Family.{Family};
ghost use Rattle.nl_dump.specs.Every.{SameAnswer};
ghost use Rattle.nl_dump.specs.Steps.{IsWaiting};
ghost use Rattle.nl_dump.specs.View.{table_at};

use nl_dump::{FeedError, Session, State};

/// Takes a datagram that may answer a dump, and says whether the dump still waits.
pub fn take_answer(session: &mut Session, datagram: &[u8]) -> Result<bool, FeedError>
    // A datagram that is taken is one list of messages, which is written and read again.
    ensures taken { OnOk result ((messages : List MessageVal)
        × IsTheList session.old.limits datagram.now messages) }
    // The dump waits until its end has come.
    ensures waits { IfOk result (λ waits. IsTrue waits ↔ IsWaiting session.new.state) }
    // One that is refused leaves the dump's answer and all tables as they were.
    ensures refused { OnErr result (SameAnswer session.old session.new) }
    // However it is answered, each byte received is visited once a level at most,
    ensures visits { session.new.visits
        ≤ (session.new.limits.shape.depth + 1) * session.new.received }
    // and no table has more entries than the limit.
    ensures tables { (family : Family)
        → length (table_at family session.new.tables).entries ≤ session.new.limits.entries }
{
    session.feed(datagram)?;
    Ok(matches!(session.state(), State::Waiting(_)))
}
