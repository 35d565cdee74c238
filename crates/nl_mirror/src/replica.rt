//! `Replica`: one table, and what is kept while a dump of it runs.

ghost use Rattle.std.specs.Prelude.{◌≡◌, true, false, ◌∷◌, IfOk, OnOk, IfErr, OnErr};
ghost use Rattle.nl_mirror.specs.Changes.{held_of, nothing};
ghost use Rattle.nl_mirror.specs.Replicated.{first_of, is_full, new_replica, stale_of};
ghost use Rattle.nl_mirror.specs.Past.{beginning, beginning_with, by_doubt, Moves, MovesAll};
ghost use Rattle.nl_mirror.specs.Past.{brings, ends, fails, loses, tells};
ghost use Rattle.nl_mirror.specs.Effects.{effect_in};
ghost use Rattle.nl_mirror.specs.Short.{shortage};
ghost use Rattle.nl_mirror.specs.Told.{key_by};
ghost use Rattle.nl_mirror.specs.declared.effect.Effect.TheVariants as effect;
ghost use Rattle.nl_mirror.specs.declared.short.Short.TheVariants as short;
ghost use Rattle.nl_mirror.specs.declared.stale.Stale.TheVariants as stale;

use crate::change::Change;
use crate::effect::Effect;
use crate::notes::OfFamily;
use crate::short::Short;
use crate::stale::Stale;
use crate::telling::{put_now, tell, tell_all};
use nl_attr::Order;
use nl_table::{Seed, Table};
use std::alloc::{AllocError, Global};
use std::marker::Model;

/// A table that follows the kernel's: the items of a dump, with all changes since it began.
///
/// Changes that come while a dump is running are kept. When the dump has ended, they are applied
/// to the table that it filled. So it doesn't matter where among the dump's answers they came.
/// Until then the table is as it was when the dump began.
///
/// Where something is lost the table is stale, until the next dump that is complete and during
/// which nothing is lost.
#[derive(Drop)]
pub(crate) struct Replica<T: OfFamily> {
    alloc: Global,
    seed: Seed,
    // What a caller sees.
    table: Table<T>,
    // What the running dump fills.
    coming: Table<T>,
    // The changes that are kept since the running dump began.
    since: Vec<Change<T>>,
    // The most of them.
    waiting: u32,
    // Whether a dump is running.
    dumps: bool,
    // Whether something was lost since the last dump began.
    lost: bool,
    // Why `table` is stale, the first reason; none where it is current.
    why: Option<Stale>,
}

impl<T: OfFamily> Model for Replica<T> {
    ghost use Rattle.std.specs.Prelude.{◌≡◌, ◌≤◌, length};
    ghost use Rattle.nl_mirror.specs.Changes.{held_of};
    ghost use Rattle.nl_mirror.specs.Replicated.{Replicated};

    ghost Value = { Replicated T };

    ghost view = { λ m. record {
      order = m.table.order;
      limit = m.table.limit;
      waiting = m.waiting;
      table = held_of m.table;
      coming = held_of m.coming;
      since = m.since.items;
      dumps = m.dumps;
      lost = m.lost;
      why = m.why;
    } };

    ghost invariant = { λ m. (m.coming.order ≡ m.table.order) × (m.coming.limit ≡ m.table.limit)
        × (length m.since.items ≤ m.waiting) };
}

/// The reason for which a table is stale after a further one: the first stays.
fn first_of(first: Option<Stale>, later: Stale) -> Stale
    ensures { result ≡ first_of first later }
{
    first.unwrap_or(later)
}

impl<T: OfFamily> Replica<T> {
    /// An empty replica of at most `limit` entries in this byte order. At most `waiting` changes
    /// are kept while a dump runs. It is stale until its first dump.
    ///
    /// The error is for memory.
    pub(crate) fn new(
        alloc: Global,
        limit: u32,
        waiting: u32,
        order: Order,
        seed: Seed,
    ) -> Result<Self, AllocError>
        ensures { IfOk result (λ m. m ≡ new_replica order limit waiting) }
    {
        Ok(Replica {
            alloc,
            seed,
            table: Table::with_seed(alloc, limit, order, seed)?,
            coming: Table::with_seed(alloc, limit, order, seed)?,
            since: Vec::new(alloc),
            waiting,
            dumps: false,
            lost: false,
            why: Some(Stale::NeverDumped),
        })
    }

    /// Begins a dump, whose request was sent. A running one is given up. The table becomes stale
    /// for the reason `loss`, if any.
    ///
    /// The error is for memory: changes that were kept are lost, and the dump has begun.
    pub(crate) fn begin(&mut self, loss: Option<Stale>) -> Result<(), Short>
        ensures ok { OnOk result (MovesAll (key_by T.item self.old.order) self.old
            (beginning self.old.dumps loss) self.new) }
        ensures err { OnErr result ((self.old.dumps ≡ true)
            × MovesAll (key_by T.item self.old.order) self.old (fails ∷ beginning_with loss)
            self.new) }
        ensures memory { IfErr result (λ e. e ≡ short.Memory) }
        ensures dumps { self.new.dumps ≡ true }
    {
        let given_up = if self.dumps { self.end(false) } else { Ok(()) };
        if let Some(why) = loss {
            self.lose(why);
        }
        self.coming.clear();
        self.dumps = true;
        self.lost = false;
        given_up
    }

    /// Makes the table stale. The reason is `why`, unless it is stale already.
    pub(crate) fn lose(&mut self, why: Stale)
        ensures { Moves (key_by T.item self.old.order) self.old (loses why) self.new }
    {
        self.lost = true;
        self.why = Some(first_of(self.why, why));
    }

    /// Adds an item of the running dump. The error is for memory: the item is lost, and the table
    /// stale.
    pub(crate) fn item(&mut self, entry: T) -> Result<(), Short>
        requires { self.old.dumps ≡ true }
        ensures ok { OnOk result (Moves (key_by T.item self.old.order) self.old (brings entry)
            self.new) }
        ensures err { OnErr result (Moves (key_by T.item self.old.order) self.old
            (loses stale.Memory) self.new) }
        ensures memory { IfErr result (λ e. e ≡ short.Memory) }
    {
        match put_now(self.alloc, &mut self.coming, entry) {
            Ok(_) => Ok(()),
            Err(_) => {
                self.lose(Stale::Memory);
                Err(Short::Memory)
            }
        }
    }

    /// Keeps a change until the running dump has ended. The error is `Waiting` where the limit is
    /// reached, or `Memory`, and the replica is as it was.
    fn keep(&mut self, change: Change<T>) -> Result<Effect<T>, Short>
        requires { self.old.dumps ≡ true }
        ensures ok { OnOk result (Moves (key_by T.item self.old.order) self.old (tells change)
            self.new) }
        ensures effect { IfOk result (λ e. e ≡ effect.Waits) }
        ensures err { OnErr result (self.new ≡ self.old) }
        ensures full { IfErr result (λ e. e ≡ short.Waiting → is_full self.old ≡ true) }
        ensures room { IfErr result (λ e. e ≡ short.Memory → is_full self.old ≡ false) }
    {
        if self.since.len() >= self.waiting as usize {
            return Err(Short::Waiting);
        }
        self.since.push(change)?;
        Ok(Effect::Waits)
    }

    /// Applies the change of a notification to the table, or keeps it while a dump is running.
    /// After an error the change is lost, and the table stale.
    pub(crate) fn change(&mut self, change: Change<T>) -> Result<Effect<T>, Short>
        ensures ok { OnOk result (Moves (key_by T.item self.old.order) self.old (tells change)
            self.new) }
        ensures effect { IfOk result (λ e. e ≡ effect_in (key_by T.item self.old.order) self.old
            change) }
        ensures err { IfErr result
            (λ e. Moves (key_by T.item self.old.order) self.old (shortage e) self.new) }
        ensures room { IfErr result (λ e. e ≡ short.Memory → is_full self.old ≡ false) }
    {
        let taken = if self.dumps {
            self.keep(change)
        } else {
            tell(self.alloc, &mut self.table, change)
        };
        match taken {
            Ok(effect) => Ok(effect),
            Err(short) => {
                self.lose(short.reason());
                Err(short)
            }
        }
    }

    /// Makes the table stale for this reason, if any.
    pub(crate) fn doubt(&mut self, doubt: Option<Stale>)
        ensures doubt { MovesAll (key_by T.item self.old.order) self.old (by_doubt doubt) self.new }
        ensures dumps { self.new.dumps ≡ self.old.dumps }
    {
        if let Some(why) = doubt {
            self.lose(why);
        }
    }

    /// Takes a change as `change` does, and then makes the table stale for the reason `doubt`, if
    /// any.
    pub(crate) fn change_in_doubt(
        &mut self,
        change: Change<T>,
        doubt: Option<Stale>,
    ) -> Result<Effect<T>, Short>
        ensures ok { OnOk result (MovesAll (key_by T.item self.old.order) self.old
            (tells change ∷ by_doubt doubt) self.new) }
        ensures effect { IfOk result (λ e. e ≡ effect_in (key_by T.item self.old.order) self.old
            change) }
        ensures err { IfErr result (λ e. MovesAll (key_by T.item self.old.order) self.old
            (shortage e ∷ by_doubt doubt) self.new) }
        ensures room { IfErr result (λ e. e ≡ short.Memory → is_full self.old ≡ false) }
        ensures dumps { self.new.dumps ≡ self.old.dumps }
    {
        let told = self.change(change);
        self.doubt(doubt);
        told
    }

    /// Drops what a dump has filled, and its memory too: between dumps there is only one table.
    fn empty_coming(&mut self)
        ensures { self.new ≡ record self.old { coming = nothing } }
    {
        // An empty table takes no memory, so this doesn't fail. If it did, the memory would be
        // kept.
        match Table::with_seed(
            self.alloc,
            self.table.limit(),
            self.table.order(),
            self.seed,
        ) {
            Ok(empty) => self.coming = empty,
            Err(_) => self.coming.clear(),
        }
    }

    /// Ends the running dump. Where it is complete (`whole`) and nothing was lost since it began,
    /// what it filled replaces the table. In any case the changes that were kept are applied
    /// then.
    ///
    /// The error is for memory: some of these changes are lost, and the table is stale.
    pub(crate) fn end(&mut self, whole: bool) -> Result<(), Short>
        requires { self.old.dumps ≡ true }
        ensures ok { OnOk result (Moves (key_by T.item self.old.order) self.old (ends whole)
            self.new) }
        ensures err { OnErr result (Moves (key_by T.item self.old.order) self.old fails self.new) }
        ensures memory { IfErr result (λ e. e ≡ short.Memory) }
        ensures idle { self.new.dumps ≡ false }
    {
        if whole && !self.lost {
            std::mem::swap(&mut self.table, &mut self.coming);
            self.why = None;
        }
        self.empty_coming();
        self.dumps = false;
        let since = std::mem::replace(&mut self.since, Vec::new(self.alloc));
        match tell_all(self.alloc, &mut self.table, since) {
            Ok(()) => Ok(()),
            Err(_) => {
                self.lose(Stale::Memory);
                Err(Short::Memory)
            }
        }
    }

    /// Ends the running dump as `end` does, and then makes the table stale for the reason
    /// `doubt`, if any.
    pub(crate) fn end_in_doubt(&mut self, whole: bool, doubt: Option<Stale>) -> Result<(), Short>
        requires { self.old.dumps ≡ true }
        ensures ok { OnOk result (MovesAll (key_by T.item self.old.order) self.old
            (ends whole ∷ by_doubt doubt) self.new) }
        ensures err { OnErr result (MovesAll (key_by T.item self.old.order) self.old
            (fails ∷ by_doubt doubt) self.new) }
        ensures memory { IfErr result (λ e. e ≡ short.Memory) }
        ensures idle { self.new.dumps ≡ false }
    {
        let ended = self.end(whole);
        self.doubt(doubt);
        ended
    }

    /// The table. While a dump is running it is as it was when the dump began.
    pub(crate) fn table(&self) -> &Table<T>
        ensures table { held_of result.now ≡ self.now.table }
        ensures limit { result.now.limit ≡ self.now.limit }
        ensures order { result.now.order ≡ self.now.order }
    {
        &self.table
    }

    /// Why the table may differ from the kernel's. `None` where it is current.
    pub(crate) fn stale(&self) -> Option<Stale>
        ensures { result ≡ stale_of self.now }
    {
        if self.table.missed() == 0 {
            return self.why;
        }
        Some(first_of(self.why, Stale::Full))
    }
}
