//! What one message says of a family's table: a change of an entry, or a doubt, which is a reason
//! for which the table may have become wrong.

ghost use Rattle.std.specs.Prelude.{◌≡◌, ◌==◌, ◌&&◌, ◌||◌, not, bit_and, option_map, Some};
ghost use Rattle.nl_route.specs.declared.family.Family.TheVariants as families;
ghost use Rattle.nl_frame.specs.View.{body_view, message_view};
ghost use Rattle.nl_mirror.specs.Notes.{covers as is_covered, if_covered, is_part as has_part};
ghost use Rattle.nl_mirror.specs.Notes.{note_in, item_family};
ghost use Rattle.nl_mirror.specs.Notes.{body_open, doubt_of as doubt_in, item_cloned};
ghost use Rattle.nl_dump.specs.Items.{body_item, item_of};
ghost use Rattle.nl_mirror.specs.Effects.{effect_seen, update_effect};
ghost use Rattle.nl_mirror.specs.Seen.{change_seen};

use crate::change::Change;
use crate::effect::{Effect, Update};
use crate::key::{AF_BRIDGE, known_head, own_key};
use crate::stale::Stale;
use nl_attr::Order;
use nl_dump::FromBody;
use nl_frame::{Body, Message};
use nl_route::{Addr, Family, Link, Neigh, Route, Rule, Verb};
use nl_table::CompactKey;
use std::alloc::{AllocError, Global};

/// `NLM_F_MULTI` of netlink(7), which the answers of dumps have.
const MULTI: u16 = 2;

/// `RTM_F_CLONED` of linux/rtnetlink.h.
const CLONED: u32 = 0x200;

/// What the mirror needs of an entry of each family.
pub trait OfFamily: FromBody {
    ghost use Rattle.std.specs.Prelude.{◌≡◌, IfOk, Some};
    ghost use Rattle.nl_mirror.specs.Effects.{effect_seen, update_effect};
    ghost use Rattle.nl_mirror.specs.Notes.{item_cloned, item_family};
    ghost use Rattle.nl_mirror.specs.Told.{mirror_key};

    /// The family that it is of.
    fn kind() -> Family
        ensures { result ≡ Self.family };

    /// The address family in its header, as `ifa_family` or `rtm_family`.
    fn family_byte(&self) -> u8
        ensures { result ≡ item_family (Self.item self.now) };

    /// Whether it is a route that answers a look-up (`RTM_F_CLONED`), and so is in no table.
    fn is_cloned(&self) -> bool
        ensures { result ≡ item_cloned (Self.item self.now) };

    /// The update with this effect, of the entry's family.
    fn update(effect: Effect<Self>) -> Update
        ensures { update_effect result ≡ Some (Self.family, effect_seen Self.item effect) };

    /// Its key in a mirror. `order` is the byte order of the numbers in its attributes. The call
    /// changes the header of a bridge's forwarding entry for a moment, and then restores it.
    ///
    /// The error is for memory.
    fn mirror_key(&mut self, alloc: Global, order: Order) -> Result<CompactKey, AllocError>
        ensures key { IfOk result (λ key. key ≡ mirror_key order (Self.item self.old)) }
        ensures kept { self.new ≡ self.old };
}

impl OfFamily for Link {
    fn kind() -> Family {
        Family::Link
    }

    fn family_byte(&self) -> u8 {
        self.head.family
    }

    fn is_cloned(&self) -> bool {
        false
    }

    fn update(effect: Effect<Link>) -> Update
        ensures { update_effect result
            ≡ Some (families.Link, effect_seen (item_of families.Link) effect) }
    {
        Update::Link(effect)
    }

    fn mirror_key(&mut self, alloc: Global, order: Order) -> Result<CompactKey, AllocError> {
        own_key(alloc, order, self)
    }
}

impl OfFamily for Addr {
    fn kind() -> Family {
        Family::Addr
    }

    fn family_byte(&self) -> u8 {
        self.head.family
    }

    fn is_cloned(&self) -> bool {
        false
    }

    fn update(effect: Effect<Addr>) -> Update
        ensures { update_effect result
            ≡ Some (families.Addr, effect_seen (item_of families.Addr) effect) }
    {
        Update::Addr(effect)
    }

    fn mirror_key(&mut self, alloc: Global, order: Order) -> Result<CompactKey, AllocError> {
        own_key(alloc, order, self)
    }
}

impl OfFamily for Route {
    fn kind() -> Family {
        Family::Route
    }

    fn family_byte(&self) -> u8 {
        self.head.family
    }

    fn is_cloned(&self) -> bool {
        self.head.flags & CLONED != 0
    }

    fn update(effect: Effect<Route>) -> Update
        ensures { update_effect result
            ≡ Some (families.Route, effect_seen (item_of families.Route) effect) }
    {
        Update::Route(effect)
    }

    fn mirror_key(&mut self, alloc: Global, order: Order) -> Result<CompactKey, AllocError> {
        own_key(alloc, order, self)
    }
}

impl OfFamily for Neigh {
    fn kind() -> Family {
        Family::Neigh
    }

    fn family_byte(&self) -> u8 {
        self.head.family
    }

    fn is_cloned(&self) -> bool {
        false
    }

    fn update(effect: Effect<Neigh>) -> Update
        ensures { update_effect result
            ≡ Some (families.Neigh, effect_seen (item_of families.Neigh) effect) }
    {
        Update::Neigh(effect)
    }

    fn mirror_key(&mut self, alloc: Global, order: Order) -> Result<CompactKey, AllocError> {
        let known = known_head(self, order);
        let head = std::mem::replace(&mut self.head, known);
        let key = own_key(alloc, order, self);
        self.head = head;
        key
    }
}

impl OfFamily for Rule {
    fn kind() -> Family {
        Family::Rule
    }

    fn family_byte(&self) -> u8 {
        self.head.family
    }

    fn is_cloned(&self) -> bool {
        false
    }

    fn update(effect: Effect<Rule>) -> Update
        ensures { update_effect result
            ≡ Some (families.Rule, effect_seen (item_of families.Rule) effect) }
    {
        Update::Rule(effect)
    }

    fn mirror_key(&mut self, alloc: Global, order: Order) -> Result<CompactKey, AllocError> {
        own_key(alloc, order, self)
    }
}

/// Whether a dump that asks for the address family `asked` includes entries of the family `has`.
///
/// It includes those of the same family. Where it asks for 0, `AF_UNSPEC`, it includes all others
/// too, but for `AF_BRIDGE`. For links 0 includes no others.
pub(crate) fn covers(kind: Family, asked: u8, has: u8) -> bool
    ensures { result ≡ is_covered kind asked has }
{
    asked == has || asked == 0 && !matches!(kind, Family::Link) && has != AF_BRIDGE
}

/// Whether a message is an answer of some dump (`NLM_F_MULTI`), and so is no notification.
pub(crate) fn is_part(flags: u16) -> bool
    ensures { result ≡ has_part flags }
{
    flags & MULTI != 0
}

/// The entry that a body holds, where a dump that asks for the address family `asked` includes it.
fn covered<T: OfFamily>(kind: Family, asked: u8, body: Body) -> Option<T>
    requires { kind ≡ T.family }
    ensures { option_map T.item result ≡ if_covered kind asked (body_item kind (body_view body)) }
{
    let entry = T::from_body(body)?;
    if covers(kind, asked, entry.family_byte()) && !entry.is_cloned() {
        Some(entry)
    } else {
        None
    }
}

/// The change that a notification makes to the table of family `kind`, or `None`. `asked` is the
/// address family that the last dump asked for: entries of others are left out.
pub(crate) fn note_of<T: OfFamily>(kind: Family, asked: u8, message: Message) -> Option<Change<T>>
    requires { kind ≡ T.family }
    ensures { option_map (change_seen T.item) result ≡ note_in kind asked (message_view message) }
{
    if is_part(message.flags) {
        return None;
    }
    if message.kind == kind.type_of(Verb::New) {
        return Some(Change::Now(covered::<T>(kind, asked, message.body)?));
    }
    if message.kind == kind.type_of(Verb::Del) {
        return Some(Change::Gone(covered::<T>(kind, asked, message.body)?));
    }
    None
}

/// `IFF_UP` of linux/if.h.
const UP: u32 = 1;

/// `NLM_F_REPLACE` and `NLM_F_APPEND` of netlink(7).
const REPLACE_OR_APPEND: u16 = 0x900;

/// `AF_INET` of linux/socket.h.
const AF_INET: u8 = 2;

/// `AF_INET6` of linux/socket.h.
const AF_INET6: u8 = 10;

/// Why a notification makes the table of routes stale, or `None`.
///
/// - `Silent`: a link went down or was deleted, or an IPv4 address was deleted.
/// - `Unnamed`: a route was replaced or appended, or an IPv6 route was deleted.
fn leaves_open(message: &Message) -> Option<Stale>
    ensures { result ≡ body_open (message_view message.now) (body_view message.now.body) }
{
    match &message.body {
        Body::Link(link) => {
            let gone = message.kind == Family::Link.type_of(Verb::Del);
            (gone || link.head.flags & UP == 0).then_some(Stale::Silent)
        }
        Body::Addr(addr) => {
            let gone = message.kind == Family::Addr.type_of(Verb::Del);
            (gone && addr.head.family == AF_INET).then_some(Stale::Silent)
        }
        Body::Route(route) => {
            let gone = message.kind == Family::Route.type_of(Verb::Del);
            let joins = message.flags & REPLACE_OR_APPEND != 0;
            (joins || gone && route.head.family == AF_INET6).then_some(Stale::Unnamed)
        }
        _ => None,
    }
}

/// Why a message makes the table of family `kind` stale, or `None`. `NLMSG_OVERRUN` does so for
/// each family, and some notifications do so for routes.
pub(crate) fn doubt_of(kind: Family, message: &Message) -> Option<Stale>
    ensures { result ≡ doubt_in kind (message_view message.now) }
{
    if matches!(&message.body, Body::Overrun(_)) {
        return Some(Stale::Lost);
    }
    if matches!(kind, Family::Route) && !is_part(message.flags) {
        return leaves_open(message);
    }
    None
}
