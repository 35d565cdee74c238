//! `Mirror`: the tables of all five families.

ghost use Rattle.std.specs.Prelude.{◌≡◌, ◌<◌, ◌≤◌, ◌+◌, ◌*◌, ◌↔◌, Err, IfErr, IfOk, OnOk, false};
ghost use Rattle.std.specs.Prelude.{◌++◌, ◌∷◌, [], OnErr, length, map, vec_capacity, vec_len};
ghost use Rattle.nl_frame.specs.View.{message_view};
ghost use Rattle.nl_frame.specs.declared.reading.ReadError.TheVariants as unread;
ghost use Rattle.nl_mirror.specs.Five.{BeginsIn, Began, EachHearsBy, EachLoses, Fed, HearsEach};
ghost use Rattle.nl_mirror.specs.Five.{is_used as has_passed, IsNew, IsRead, IsShort, IsUpdate};
ghost use Rattle.nl_mirror.specs.Five.{OneHears, OthersHear, follower_at, is_own};
ghost use Rattle.nl_route.specs.declared.family.Family.{Family};
ghost use Rattle.nl_mirror.specs.Five.{refusal as reason_of};
ghost use Rattle.nl_mirror.specs.declared.short.Short.TheVariants as short;
ghost use Rattle.nl_mirror.specs.declared.stale.Stale.TheVariants as stale;
ghost use Rattle.nl_mirror.specs.Changes.{held_of};
ghost use Rattle.nl_mirror.specs.Replicated.{stale_of};

use crate::effect::Update;
use crate::errors::BeginError;
use crate::follower::Follower;
use crate::short::Short;
use crate::stale::Stale;
use nl_attr::Tally;
use nl_dump::Dump;
use nl_frame::{Body, Limits, Message, ReadError, read_datagram};
use nl_route::{Addr, Family, Link, Neigh, Route, Rule};
use nl_table::{Seed, Table};
use std::alloc::{AllocError, Global};
use std::marker::Model;

/// A table of each family, of limited size, that follows the kernel's (rtnetlink(7)).
///
/// Feed it all datagrams of a socket: the answers of dumps, and the notifications of the
/// multicast groups. Changes that come while a dump is running are kept, and applied at its end.
/// `stale` says of each table whether it is current.
#[derive(Drop)]
pub struct Mirror {
    alloc: Global,
    limits: Limits,
    // The sequence number of the last dump that was begun.
    last: Option<u32>,
    links: Follower<Link>,
    addrs: Follower<Addr>,
    routes: Follower<Route>,
    neighs: Follower<Neigh>,
    rules: Follower<Rule>,
}

impl Model for Mirror {
    ghost use Rattle.nl_attr.specs.contracts.tree.Value as value;
    ghost use Rattle.nl_attr.specs.contracts.tree.Attr as attr;
    ghost use Rattle.std.specs.Coded.{codes};
    ghost use Rattle.nl_mirror.specs.Five.{Mirrored};

    ghost Value = { Mirrored };

    ghost coded = { Prim.hlevel (codes, attr.the_row.coded, value.the_row.coded) };

    ghost view = { λ m. record {
      settings = record { limits = m.limits; last = m.last };
      links = m.links;
      addrs = m.addrs;
      routes = m.routes;
      neighs = m.neighs;
      rules = m.rules;
    } };
}

/// Whether a dump before had this sequence number, or a greater one.
fn is_used(last: Option<u32>, number: u32) -> bool
    ensures { result ≡ has_passed last number }
{
    match last {
        Some(last) => number <= last,
        None => false,
    }
}

/// The error of `first`, where it is one; else `second`.
fn both<T: Drop>(first: Result<(), Short>, second: Result<T, Short>) -> Result<T, Short>
    ensures first { IfErr first (λ e. result ≡ Err e) }
    ensures second { OnOk first (result ≡ second) }
{
    match first {
        Ok(()) => second,
        Err(short) => Err(short),
    }
}

/// Appends an answer to a vector that has room for it.
fn append(answers: &mut Vec<Result<Update, Short>>, answer: Result<Update, Short>)
    requires { vec_len answers.old < vec_capacity answers.old }
    ensures items { answers.new.items ≡ answers.old.items ++ answer ∷ [] }
    ensures len { vec_len answers.new ≡ vec_len answers.old + 1 }
    ensures capacity { vec_capacity answers.old ≤ vec_capacity answers.new }
{
    match answers.push(answer) {
        Ok(()) => {}
        Err(_) => unreachable!(),
    }
}

impl Mirror {
    /// A mirror with these limits and empty tables, which are stale until their first dump. At
    /// most `waiting` changes of each family are kept while a dump runs. `seed` is that of the
    /// tables.
    ///
    /// The error is for memory.
    pub fn new(
        alloc: Global,
        limits: Limits,
        waiting: u32,
        seed: Seed,
    ) -> Result<Mirror, AllocError>
        ensures { IfOk result (IsNew limits waiting) }
    {
        let order = limits.order();
        let entries = limits.entries();
        Ok(Mirror {
            alloc,
            limits,
            last: None,
            links: Follower::new(alloc, entries, waiting, order, seed)?,
            addrs: Follower::new(alloc, entries, waiting, order, seed)?,
            routes: Follower::new(alloc, entries, waiting, order, seed)?,
            neighs: Follower::new(alloc, entries, waiting, order, seed)?,
            rules: Follower::new(alloc, entries, waiting, order, seed)?,
        })
    }

    /// Begins a dump. Call this when its request is sent, and then feed its answers as all other
    /// datagrams. A running dump of the same family is given up. Where the new one asks for
    /// another address family, the table is stale until it is complete.
    ///
    /// The sequence number must be greater than those of all dumps before, so that the answers of
    /// one don't end another. Else the error is `BeginError::Number`, and nothing has changed.
    /// The other error, `Short`, is for memory: the dump began, but changes that were kept are
    /// lost.
    pub fn begin(&mut self, dump: Dump) -> Result<(), BeginError>
        ensures { Began dump result self.old self.new }
    {
        if is_used(self.last, dump.seq) {
            return Err(BeginError::Number);
        }
        self.last = Some(dump.seq);
        match self.begin_in(dump) {
            Ok(()) => Ok(()),
            Err(short) => Err(BeginError::Short(short)),
        }
    }

    /// Begins a dump in the follower of its family.
    fn begin_in(&mut self, dump: Dump) -> Result<(), Short>
        ensures begins { BeginsIn dump result self.old self.new }
        ensures memory { IfErr result (λ e. e ≡ short.Memory) }
    {
        match dump.kind {
            Family::Link => self.links.begin(dump),
            Family::Addr => self.addrs.begin(dump),
            Family::Route => self.routes.begin(dump),
            Family::Neigh => self.neighs.begin(dump),
            Family::Rule => self.rules.begin(dump),
        }
    }

    /// Says that the kernel dropped messages for this socket: `recv` failed with `ENOBUFS`. All
    /// tables become stale.
    pub fn lost(&mut self)
        ensures { EachLoses stale.Lost self.old self.new }
    {
        self.lose(Stale::Lost);
    }

    /// Says that `read_datagram` rejected a datagram with this error. All tables become stale.
    ///
    /// It is for callers that read datagrams themselves and call `hear`. `feed` does it itself.
    pub fn refused(&mut self, error: ReadError)
        ensures { EachLoses (reason_of error) self.old self.new }
    {
        self.lose(refusal(error));
    }

    /// Makes all tables stale, for this reason.
    fn lose(&mut self, why: Stale)
        ensures { EachLoses why self.old self.new }
    {
        self.links.lose(why);
        self.addrs.lose(why);
        self.routes.lose(why);
        self.neighs.lose(why);
        self.rules.lose(why);
    }

    /// Hands a message to each follower but that of its own family.
    fn overhear(&mut self, message: &Message) -> Result<(), Short>
        ensures heard { OthersHear result self.old (message_view message.now) self.new }
        ensures memory { IfErr result (λ e. e ≡ short.Memory) }
        ensures ends { IfErr result (λ e. (k : Family)
            → is_own k (message_view message.now) ≡ false) }
    {
        let links = self.links.overhear(message);
        let addrs = self.addrs.overhear(message);
        let routes = self.routes.overhear(message);
        let neighs = self.neighs.overhear(message);
        let rules = self.rules.overhear(message);
        both(links, both(addrs, both(routes, both(neighs, rules))))
    }

    /// Hands a message to the follower of its own family, if it has one.
    fn hear_own(&mut self, message: Message) -> Result<Update, Short>
        ensures heard { OneHears result self.old (message_view message) self.new }
        ensures update { IfOk result (IsUpdate self.old (message_view message)) }
        ensures room { IfErr result (IsShort self.old (message_view message)) }
    {
        match &message.body {
            Body::Link(_) => self.links.hear(message),
            Body::Addr(_) => self.addrs.hear(message),
            Body::Route(_) => self.routes.hear(message),
            Body::Neigh(_) => self.neighs.hear(message),
            Body::Rule(_) => self.rules.hear(message),
            _ => Ok(Update::Other),
        }
    }

    /// Applies one message, as `read_datagram` read it: a notification, or an answer of a running
    /// dump. Messages must come in the order of the datagram. The answer is what it did to the
    /// table of its family. The index in it holds until the next message.
    ///
    /// The error is for too little memory, or too little room for changes that wait. The table
    /// that the change is missing from is then stale.
    pub fn hear(&mut self, message: Message) -> Result<Update, Short>
        ensures heard { EachHearsBy result self.old (message_view message) self.new }
        ensures update { IfOk result (IsUpdate self.old (message_view message)) }
    {
        let others = self.overhear(&message);
        both(others, self.hear_own(message))
    }

    /// Applies messages in order, as `hear` does, and answers an update or an error for each. The
    /// error is for memory for the answers, and no message has been applied then.
    fn hear_each(
        &mut self,
        messages: Vec<Message>,
    ) -> Result<Vec<Result<Update, Short>>, AllocError>
        ensures ok { IfOk result (λ answers. HearsEach self.old
            (map message_view messages.items) answers.items self.new) }
        ensures err { OnErr result (self.new ≡ self.old) }
    {
        let mut answers = Vec::with_capacity(self.alloc, messages.len())?;
        for message in messages {
            let answer = self.hear(message);
            append(&mut answers, answer);
        }
        Ok(answers)
    }

    /// Reads a datagram within the limits of this mirror, as `read_datagram` does, and applies
    /// nothing. Hand each message to `hear`, in order, or the error to `refused`: `feed` does so,
    /// and keeps an answer for each message.
    pub fn read(&self, bytes: &[u8]) -> Tally<Vec<Message>, ReadError>
        ensures read { IsRead self.now.settings.limits bytes.now result.result }
        ensures large { result.result ≡ Err unread.TooLarge
            ↔ self.now.settings.limits.datagram < length bytes.now }
        ensures bound { result.visits
            ≤ (self.now.settings.limits.shape.depth + 1) * length bytes.now }
    {
        read_datagram(self.alloc, bytes, &self.limits)
    }

    /// Reads a datagram, and applies its messages in order. For each message it answers what that
    /// did to the table of its family, and beside all of them how many bytes were visited.
    ///
    /// The error is that of `read_datagram`, or `Memory` where there is none for the answers. All
    /// tables are stale then, and no message has been applied.
    ///
    /// The answer for one message may be an error too, as for `hear`. The other messages have been
    /// applied then.
    pub fn feed(&mut self, bytes: &[u8]) -> Tally<Vec<Result<Update, Short>>, ReadError>
        ensures fed { Fed self.old bytes.now result.result self.new }
        ensures large { result.result ≡ Err unread.TooLarge
            ↔ self.old.settings.limits.datagram < length bytes.now }
        ensures bound { result.visits
            ≤ (self.old.settings.limits.shape.depth + 1) * length bytes.now }
    {
        let Tally { result, visits } = self.read(bytes);
        let messages = match result {
            Ok(messages) => messages,
            Err(error) => {
                self.refused(error);
                return Tally {
                    result: Err(error),
                    visits,
                };
            }
        };
        match self.hear_each(messages) {
            Ok(answers) => Tally {
                result: Ok(answers),
                visits,
            },
            Err(_) => {
                self.refused(ReadError::Memory);
                Tally {
                    result: Err(ReadError::Memory),
                    visits,
                }
            }
        }
    }

    /// The links. While a dump of a family is running, its table is as it was when the dump began.
    pub fn links(&self) -> &Table<Link>
        ensures table { held_of result.now ≡ self.now.links.replica.table }
        ensures limit { result.now.limit ≡ self.now.links.replica.limit }
        ensures order { result.now.order ≡ self.now.links.replica.order }
    {
        self.links.table()
    }

    /// The addresses.
    pub fn addrs(&self) -> &Table<Addr>
        ensures table { held_of result.now ≡ self.now.addrs.replica.table }
        ensures limit { result.now.limit ≡ self.now.addrs.replica.limit }
        ensures order { result.now.order ≡ self.now.addrs.replica.order }
    {
        self.addrs.table()
    }

    /// The routes.
    pub fn routes(&self) -> &Table<Route>
        ensures table { held_of result.now ≡ self.now.routes.replica.table }
        ensures limit { result.now.limit ≡ self.now.routes.replica.limit }
        ensures order { result.now.order ≡ self.now.routes.replica.order }
    {
        self.routes.table()
    }

    /// The neighbours.
    pub fn neighs(&self) -> &Table<Neigh>
        ensures table { held_of result.now ≡ self.now.neighs.replica.table }
        ensures limit { result.now.limit ≡ self.now.neighs.replica.limit }
        ensures order { result.now.order ≡ self.now.neighs.replica.order }
    {
        self.neighs.table()
    }

    /// The rules.
    pub fn rules(&self) -> &Table<Rule>
        ensures table { held_of result.now ≡ self.now.rules.replica.table }
        ensures limit { result.now.limit ≡ self.now.rules.replica.limit }
        ensures order { result.now.order ≡ self.now.rules.replica.order }
    {
        self.rules.table()
    }

    /// Why the table of a family may differ from the kernel's. `None` where it is current.
    pub fn stale(&self, kind: Family) -> Option<Stale>
        ensures { result ≡ stale_of (follower_at kind self.now).replica }
    {
        match kind {
            Family::Link => self.links.stale(),
            Family::Addr => self.addrs.stale(),
            Family::Route => self.routes.stale(),
            Family::Neigh => self.neighs.stale(),
            Family::Rule => self.rules.stale(),
        }
    }

    /// The running dump of this family, if any.
    pub fn dump(&self, kind: Family) -> Option<Dump>
        ensures { result ≡ (follower_at kind self.now).listening.dump }
    {
        match kind {
            Family::Link => self.links.dump(),
            Family::Addr => self.addrs.dump(),
            Family::Route => self.routes.dump(),
            Family::Neigh => self.neighs.dump(),
            Family::Rule => self.rules.dump(),
        }
    }
}

/// The reason for which tables are stale after an error of `read_datagram`.
fn refusal(error: ReadError) -> Stale
    ensures { result ≡ reason_of error }
{
    match error {
        ReadError::Memory => Stale::Memory,
        _ => Stale::Refused,
    }
}
