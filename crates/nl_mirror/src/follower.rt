//! `Follower`: the table of one family, and which messages are the answers of its dump.

ghost use Rattle.std.specs.Prelude.{◌≡◌, ◌||◌, is_some, false, true, IfErr, IfOk, None, Some};
ghost use Rattle.nl_frame.specs.View.{body_view, message_view};
ghost use Rattle.nl_dump.specs.Items.{body_item};
ghost use Rattle.nl_mirror.specs.Hearing.{IsHeardBy, IsLost, in_items};
ghost use Rattle.nl_mirror.specs.Effects.{FindsNoRoom, effect_beside, effect_heard, effect_seen};
ghost use Rattle.nl_mirror.specs.Effects.{update_effect};
ghost use Rattle.nl_mirror.specs.Five.{IsOverheard, is_own};
ghost use Rattle.nl_route.specs.declared.family.Family.{Family};
ghost use Rattle.nl_mirror.specs.Notes.{asks, beside, ending, hears, silent, within, marks};
ghost use Rattle.nl_mirror.specs.Notes.{ends_whole as is_whole_end, lost_by as loss_by};
ghost use Rattle.nl_mirror.specs.Notes.{renewal as loss_of};
ghost use Rattle.nl_dump.specs.Answer.{belongs as has_numbers, end_in, item_in};
ghost use Rattle.nl_mirror.specs.Replicated.{is_full, new_replica, stale_of};
ghost use Rattle.nl_mirror.specs.Changes.{held_of};
ghost use Rattle.nl_mirror.specs.declared.effect.Effect.TheVariants as effects;
ghost use Rattle.nl_mirror.specs.declared.short.Short.TheVariants as short;

use crate::effect::{Effect, Update};
use crate::notes::{OfFamily, doubt_of, note_of};
use crate::replica::Replica;
use crate::short::Short;
use crate::stale::Stale;
use nl_attr::Order;
use nl_dump::{Dump, End, Role, end_by, is_marked, is_of, role_of};
use nl_frame::Message;
use nl_route::Family;
use nl_table::{Seed, Table};
use std::alloc::{AllocError, Global};
use std::marker::Model;

/// Whether a dump is complete at its end: `NLMSG_DONE` with no error, and no interruption
/// (`NLM_F_DUMP_INTR`).
fn ends_whole(interrupted: bool, end: End) -> bool
    ensures { result ≡ is_whole_end interrupted end }
{
    match end {
        End::Done(status) => status >= 0 && !interrupted,
        _ => false,
    }
}

/// Why the end of a dump makes its table stale, or `None`: `NLMSG_OVERRUN` does, since the kernel
/// dropped messages.
fn lost_by(end: End) -> Option<Stale>
    ensures { result ≡ loss_by end }
{
    match end {
        End::Overrun => Some(Stale::Lost),
        _ => None,
    }
}

/// Why the begin of a dump makes its table stale, or `None`. It does where the dump asks for
/// another address family, `now`, than the dump before it.
fn renewal(before: u8, now: u8) -> Option<Stale>
    ensures { result ≡ loss_of before now }
{
    (before != now).then_some(Stale::NeverDumped)
}

/// Whether a message is an answer of this dump: it has the dump's sequence number and port id.
fn belongs(dump: &Dump, message: &Message) -> bool
    ensures { result ≡ has_numbers dump.now (message_view message.now) }
{
    message.seq == dump.seq && message.port == dump.port
}

/// Whether the dump is interrupted, by an answer before or by this one.
fn is_interrupted(before: bool, now: bool) -> bool
    ensures { result ≡ (before || now) }
{
    before || now
}

/// The replica of one family's table, and the dump that is running.
#[derive(Drop)]
pub(crate) struct Follower<T: OfFamily> {
    replica: Replica<T>,
    dump: Option<Dump>,
    // Whether an answer of the running dump had `NLM_F_DUMP_INTR`.
    interrupted: bool,
    // The address family that the last dump asked for.
    asked: u8,
}

impl<T: OfFamily> Model for Follower<T> {
    ghost use Rattle.std.specs.Prelude.{◌≡◌, is_some, IfSome};
    ghost use Rattle.nl_mirror.specs.Hearing.{Following};

    ghost Value = { Following T };

    ghost view = { λ f. record {
      kind = T.family;
      listening = record { dump = f.dump; interrupted = f.interrupted; asked = f.asked };
      replica = f.replica;
    } };

    ghost invariant = { λ f. (f.replica.dumps ≡ is_some f.dump)
        × IfSome f.dump (λ d. d.kind ≡ T.family) };
}

impl<T: OfFamily> Follower<T> {
    /// A follower with an empty table of at most `limit` entries. At most
    /// `waiting` changes are kept while a dump runs.
    ///
    /// The error is for memory.
    pub(crate) fn new(
        alloc: Global,
        limit: u32,
        waiting: u32,
        order: Order,
        seed: Seed,
    ) -> Result<Self, AllocError>
        ensures { IfOk result (λ f. f ≡ record {
          kind = T.family;
          listening = silent;
          replica = new_replica order limit waiting;
        }) }
    {
        Ok(Follower {
            replica: Replica::new(alloc, limit, waiting, order, seed)?,
            dump: None,
            interrupted: false,
            asked: 0,
        })
    }

    /// Takes a message that is no answer of the running dump: a notification.
    fn hear_beside(&mut self, message: Message) -> Result<Effect<T>, Short>
        ensures heard { IsHeardBy result (in_items T.item self.old)
            (beside self.old.kind self.old.listening (message_view message))
            (in_items T.item self.new) }
        ensures effect { IfOk result (λ e. effect_seen T.item e
            ≡ effect_beside (in_items T.item self.old) (message_view message)) }
        ensures room { IfErr result (λ e. e ≡ short.Waiting
            → (effect_beside (in_items T.item self.old) (message_view message) ≡ effects.Waits)
            × (is_full (in_items T.item self.old).replica ≡ true)) }
        ensures memory { IfErr result (λ e. e ≡ short.Memory
            → is_full (in_items T.item self.old).replica ≡ false) }
    {
        let kind = T::kind();
        let doubt = doubt_of(kind, &message);
        match note_of::<T>(kind, self.asked, message) {
            Some(change) => self.replica.change_in_doubt(change, doubt),
            None => {
                self.replica.doubt(doubt);
                Ok(Effect::Nothing)
            }
        }
    }

    /// Ends the running dump.
    fn hear_end(&mut self, end: End, interrupted: bool) -> Result<(), Short>
        requires { is_some self.old.listening.dump ≡ true }
        ensures heard { IsHeardBy result (in_items T.item self.old)
            (ending end interrupted self.old.listening) (in_items T.item self.new) }
        ensures memory { IfErr result (λ e. e ≡ short.Memory) }
    {
        self.dump = None;
        self.replica
            .end_in_doubt(ends_whole(interrupted, end), lost_by(end))
    }

    /// Takes an answer of the running dump: an item, its end, or anything else, which is ignored.
    fn hear_within(&mut self, dump: Dump, message: Message) -> Result<(), Short>
        requires dump { self.old.listening.dump ≡ Some dump }
        requires kind { dump.kind ≡ T.family }
        ensures heard { IsHeardBy result (in_items T.item self.old)
            (within (end_in dump (message_view message)) (item_in dump (message_view message))
            (marks (message_view message)) self.old.listening) (in_items T.item self.new) }
        ensures memory { IfErr result (λ e. e ≡ short.Memory) }
    {
        let now = is_interrupted(self.interrupted, is_marked(message.flags));
        match role_of::<T>(&dump, message) {
            Role::Item(entry) => {
                self.interrupted = now;
                self.replica.item(entry)
            }
            Role::End(end) => self.hear_end(end, now),
            Role::Other => Ok(()),
        }
    }

    /// Takes a message whose body is of this family: an answer of the running dump, or a
    /// notification. After an error the table is stale.
    pub(crate) fn hear(&mut self, message: Message) -> Result<Update, Short>
        ensures heard { IsHeardBy result (in_items T.item self.old)
            (hears self.old.kind self.old.listening (message_view message))
            (in_items T.item self.new) }
        ensures update { IfOk result (λ u. update_effect u
            ≡ Some (T.family, effect_heard (in_items T.item self.old) (message_view message))) }
        ensures room { IfErr result (λ e. e ≡ short.Waiting
            → FindsNoRoom (in_items T.item self.old) (message_view message)) }
        ensures memory { IfErr result (λ e. e ≡ short.Memory
            → FindsNoRoom (in_items T.item self.old) (message_view message) → ⊥) }
    {
        if let Some(dump) = self.dump {
            if belongs(&dump, &message) {
                self.hear_within(dump, message)?;
                return Ok(T::update(Effect::Nothing));
            }
        }
        match self.hear_beside(message) {
            Ok(effect) => Ok(T::update(effect)),
            Err(short) => Err(short),
        }
    }

    /// Takes a message whose body is of another family, or of none. It may end the running dump,
    /// or make the table stale.
    #[tactic(auto, using(crate::proofs::Fives::end_of_no_kind))]
    fn hear_other(&mut self, message: &Message) -> Result<(), Short>
        requires { body_item T.family (body_view message.now.body) ≡ None }
        ensures heard { IsHeardBy result (in_items T.item self.old)
            (hears self.old.kind self.old.listening (message_view message.now))
            (in_items T.item self.new) }
        ensures memory { IfErr result (λ e. e ≡ short.Memory) }
        ensures ends { IfErr result (λ e. (k : Family)
            → is_own k (message_view message.now) ≡ false) }
    {
        if let Some(dump) = self.dump {
            if belongs(&dump, message) {
                let now = is_interrupted(self.interrupted, is_marked(message.flags));
                return match end_by(&message.body) {
                    Some(end) => self.hear_end(end, now),
                    None => Ok(()),
                };
            }
        }
        self.replica.doubt(doubt_of(T::kind(), message));
        Ok(())
    }

    /// Takes a message as `hear_other` does. It does nothing where the body is of this family,
    /// since `hear` takes those.
    pub(crate) fn overhear(&mut self, message: &Message) -> Result<(), Short>
        ensures heard { IsOverheard T.family result (in_items T.item self.old)
            (message_view message.now) (in_items T.item self.new) }
        ensures memory { IfErr result (λ e. e ≡ short.Memory) }
        ensures ends { IfErr result (λ e. (k : Family)
            → is_own k (message_view message.now) ≡ false) }
    {
        if is_of(T::kind(), &message.body) {
            return Ok(());
        }
        self.hear_other(message)
    }

    /// Makes the table stale, for this reason.
    pub(crate) fn lose(&mut self, why: Stale)
        ensures { IsLost why (in_items T.item self.old) (in_items T.item self.new) }
    {
        self.replica.lose(why);
    }

    /// Begins a dump, whose request was sent. A dump that is running is given up. The table
    /// becomes stale where the new dump asks for another address family than the one before it.
    pub(crate) fn begin(&mut self, dump: Dump) -> Result<(), Short>
        requires { dump.kind ≡ T.family }
        ensures heard { IsHeardBy result (in_items T.item self.old) (asks self.old.listening dump)
            (in_items T.item self.new) }
        ensures memory { IfErr result (λ e. e ≡ short.Memory) }
    {
        let loss = renewal(self.asked, dump.family);
        self.dump = Some(dump);
        self.interrupted = false;
        self.asked = dump.family;
        self.replica.begin(loss)
    }

    /// The running dump, if any.
    pub(crate) fn dump(&self) -> Option<Dump>
        ensures { result ≡ self.now.listening.dump }
    {
        self.dump
    }

    /// The table. While a dump is running it is as it was when the dump began.
    pub(crate) fn table(&self) -> &Table<T>
        ensures table { held_of result.now ≡ self.now.replica.table }
        ensures limit { result.now.limit ≡ self.now.replica.limit }
        ensures order { result.now.order ≡ self.now.replica.order }
    {
        self.replica.table()
    }

    /// Why the table may differ from the kernel's. `None` where it is current.
    pub(crate) fn stale(&self) -> Option<Stale>
        ensures { result ≡ stale_of self.now.replica }
    {
        self.replica.stale()
    }
}
