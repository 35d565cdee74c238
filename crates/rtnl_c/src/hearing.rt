//! `rtnlc_mirror_feed`: a datagram is applied to a mirror, and C is told what each message
//! changed.

ghost use Rattle.std.specs.Prelude.{◌≡◌, ◌≤◌, ◌<◌, ◌+◌, ◌^◌, ◌/◌, ⊤, IfOk, length, map};
ghost use Rattle.std.specs.Prelude.{option_map};
ghost use Rattle.nl_attr.specs.Written.{items_len};
ghost use Rattle.nl_route.specs.Views.{attrs_in};
ghost use Rattle.nl_frame.specs.View.{message_view};
ghost use Rattle.rtnl_c.specs.Entries.{message_bytes};
ghost use Rattle.rtnl_c.specs.Mirrors.{Feeds, FeedsOne, Hears, PutsBefore, PutsChanges, Tells};
ghost use Rattle.rtnl_c.specs.Mirrors.{before_bytes, change_in, change_of, effect_before};
ghost use Rattle.rtnl_c.specs.Mirrors.{effect_index};
ghost use Rattle.rtnl_c.specs.Mirrors.{effect_number, no_change};
ghost use Rattle.rtnl_c.specs.Mirrors.{unheard as not_heard};

use crate::check::offset_in_error;
use crate::codes::{NO_MIRROR, NO_ROOM};
use crate::entry::message;
use crate::handle::of_held;
use crate::mirror::short_code;
use crate::mirror_handle::MirrorHandle;
use crate::put::lay;
use nl_attr::{Order, Tally};
use nl_frame::{Message, ReadError, WriteError};
use nl_mirror::{Effect, Mirror, Short, Update};
use nl_route::{Family, Head, Object, Verb};
use std::alloc::Global;

/// What one message changed: `struct rtnlc_change` of include/rtnlc.h.
#[repr(C)]
#[derive(Clone, Copy)]
pub struct Change {
    /// The offset, in the bytes put into `before`, of the entry as it was before the message.
    pub before: u32,
    /// The length of that entry in bytes; 0 where it wasn't put, or there was none.
    pub before_len: u32,
    /// The index of the entry in its table; 0 where the effect has none.
    pub index: u32,
    /// The NEW type of the table; 0 where the message is of none, or `code` isn't 0.
    pub kind: u16,
    /// The number of the effect (`enum rtnlc_effect`).
    pub effect: u8,
    /// 0; or 13 or 17 where the message was lost to want of memory or room.
    pub code: u8,
}

/// The answer for a datagram: `struct rtnlc_heard` of include/rtnlc.h.
#[repr(C)]
#[derive(Clone, Copy)]
pub struct Heard {
    /// How many bytes of attributes and next hops were visited.
    pub visits: u64,
    /// How many changes were put.
    pub changes: usize,
    /// How many bytes of the entries before them were put.
    pub before: usize,
    /// The offset of the first header that breaks a rule; 0 where there is none.
    pub place: u32,
    /// 0 where the datagram was applied, else the error's number.
    pub code: u8,
}

/// The answer where nothing was applied.
fn unheard(visits: u64, place: u32, code: u8) -> Heard
    ensures { result ≡ not_heard visits place code }
{
    Heard {
        visits,
        changes: 0,
        before: 0,
        place,
        code,
    }
}

/// The number of an effect, and the index of its entry.
fn parts<T: Drop>(effect: &Effect<T>) -> (u8, u32)
    ensures { result ≡ (effect_number effect.now, effect_index effect.now) }
{
    match effect {
        Effect::Nothing => (0, 0),
        Effect::Added(index) => (1, *index),
        Effect::Changed(index, _) => (2, *index),
        Effect::Removed(index, _) => (3, *index),
        Effect::Waits => (4, 0),
    }
}

/// What a message makes of the table of a family, and where the entry before it was put.
fn effect_change<T: Drop>(kind: Family, effect: &Effect<T>, at: u32, len: u32) -> Change
    ensures { result ≡ change_in kind effect.now at len }
{
    let (effect, index) = parts(effect);
    Change {
        before: at,
        before_len: len,
        index,
        kind: kind.type_of(Verb::New),
        effect,
        code: 0,
    }
}

/// What became of a message that makes nothing of a table.
fn no_effect(at: u32, len: u32, code: u8) -> Change
    ensures { result ≡ no_change at len code }
{
    Change {
        before: at,
        before_len: len,
        index: 0,
        kind: 0,
        effect: 0,
        code,
    }
}

/// What became of a message that was answered so.
fn change_by(answer: &Result<Update, Short>, at: u32, len: u32) -> Change
    ensures { result ≡ change_of answer.now at len }
{
    match answer {
        Ok(Update::Link(effect)) => effect_change(Family::Link, effect, at, len),
        Ok(Update::Addr(effect)) => effect_change(Family::Addr, effect, at, len),
        Ok(Update::Route(effect)) => effect_change(Family::Route, effect, at, len),
        Ok(Update::Neigh(effect)) => effect_change(Family::Neigh, effect, at, len),
        Ok(Update::Rule(effect)) => effect_change(Family::Rule, effect, at, len),
        Ok(Update::Other) => no_effect(at, len, 0),
        Err(short) => no_effect(at, len, short_code(*short)),
    }
}

/// The entry before an effect, as its message is written, where there was one.
fn before_of<H: Head>(
    alloc: Global,
    effect: &Effect<Object<H>>,
    order: Order,
) -> Result<Option<Vec<u8>>, WriteError>
where
    Object<H>: Drop,
    ensures { IfOk result (λ r. option_map (λ v. v.items) r
        ≡ option_map (λ e. message_bytes order H.family
        (H.SIZE + items_len (attrs_in e)) (H.fields e.head) (attrs_in e))
        (effect_before effect.now)) }
{
    match effect {
        Effect::Changed(_, entry) | Effect::Removed(_, entry) => {
            Ok(Some(message(alloc, entry, order)?))
        }
        Effect::Nothing | Effect::Added(_) | Effect::Waits => Ok(None),
    }
}

/// The entry before what a message was answered, where there was one.
fn entry_before(
    alloc: Global,
    mirror: &Mirror,
    answer: &Result<Update, Short>,
) -> Result<Option<Vec<u8>>, WriteError>
    ensures { IfOk result (λ r. option_map (λ v. v.items) r
        ≡ before_bytes mirror.now answer.now) }
{
    match answer {
        Ok(Update::Link(effect)) => before_of(alloc, effect, mirror.links().order()),
        Ok(Update::Addr(effect)) => before_of(alloc, effect, mirror.addrs().order()),
        Ok(Update::Route(effect)) => before_of(alloc, effect, mirror.routes().order()),
        Ok(Update::Neigh(effect)) => before_of(alloc, effect, mirror.neighs().order()),
        Ok(Update::Rule(effect)) => before_of(alloc, effect, mirror.rules().order()),
        Ok(Update::Other) | Err(_) => Ok(None),
    }
}

/// Puts the entry before what a message was answered at the front of a buffer, where there was one,
/// it can be written, and there is room for it. The answer is how many bytes were put.
fn put_before(
    alloc: Global,
    mirror: &Mirror,
    answer: &Result<Update, Short>,
    out: &mut [u8],
) -> usize
    ensures { PutsBefore (before_bytes mirror.now answer.now) out.old out.new result }
{
    // No entry has room there, so none is written.
    if out.is_empty() {
        return 0;
    }
    match entry_before(alloc, mirror, answer) {
        Ok(Some(bytes)) if bytes.len() <= out.len() => {
            lay(bytes.as_slice(), out);
            bytes.len()
        }
        _ => 0,
    }
}

/// Puts what became of a message into `change`, and the entry before it at the front of a buffer
/// that stands at this place of another. The answer is how many bytes were put.
fn put_change(
    alloc: Global,
    mirror: &Mirror,
    answer: Result<Update, Short>,
    at: usize,
    change: &mut Change,
    out: &mut [u8],
) -> usize
    requires { at + length out.old < 2 ^ 32 }
    ensures before { PutsBefore (before_bytes mirror.now answer) out.old out.new result }
    ensures change { change.new ≡ change_of answer at result }
{
    let len = put_before(alloc, mirror, &answer, out);
    *change = change_by(&answer, at as u32, len as u32);
    len
}

/// Applies messages in order, and tells nothing of them.
fn hear_silently(mirror: &mut Mirror, messages: Vec<Message>)
    ensures { Hears mirror.old (map message_view messages.items) mirror.new (λ _. ⊤) }
{
    for message in messages {
        drop(mirror.hear(message));
    }
}

/// Applies messages in order. What became of each is put into `changes`, and the entries before
/// them into `before`, one behind another. The answer is how many bytes of them were put.
fn hear_and_put(
    alloc: Global,
    mirror: &mut Mirror,
    messages: Vec<Message>,
    changes: &mut [Change],
    before: &mut [u8],
) -> usize
    requires room { length messages.items ≤ length changes.old }
    requires places { length before.old < 2 ^ 32 }
    ensures { Hears mirror.old (map message_view messages.items) mirror.new (λ answers.
        PutsChanges mirror.new answers changes.old before.old changes.new before.new result) }
{
    let mut at = 0;
    let mut index = 0;
    for message in messages {
        let answer = mirror.hear(message);
        at += put_change(
            alloc,
            mirror,
            answer,
            at,
            &mut changes[index],
            &mut before[at..],
        );
        index += 1;
    }
    at
}

/// Applies messages, and puts what became of them, where that is wanted.
fn hear_each(
    alloc: Global,
    mirror: &mut Mirror,
    messages: Vec<Message>,
    visits: u64,
    changes: &mut [Change],
    before: &mut [u8],
) -> Heard
    requires { 0 < length changes.old → length messages.items ≤ length changes.old }
    ensures { Hears mirror.old (map message_view messages.items) mirror.new (λ answers.
        Tells mirror.new answers visits changes.old before.old changes.new before.new result) }
{
    if changes.is_empty() {
        hear_silently(mirror, messages);
        return unheard(visits, 0, 0);
    }
    let count = messages.len();
    let room = before.len().min(u32::MAX as usize);
    let before = hear_and_put(alloc, mirror, messages, changes, &mut before[..room]);
    Heard {
        visits,
        changes: count,
        before,
        place: 0,
        code: 0,
    }
}

/// How many changes there must be room for, where any are wanted: a message has 16 bytes or more.
fn needed(room: usize, len: usize) -> usize
    ensures none { room ≡ 0 → result ≡ 0 }
    ensures some { 0 < room → result ≡ len / 16 }
{
    if room == 0 { 0 } else { len / 16 }
}

/// Feeds a datagram to a mirror.
fn feed(
    alloc: Global,
    mirror: &mut Mirror,
    bytes: &[u8],
    changes: &mut [Change],
    before: &mut [u8],
) -> Heard
    ensures { FeedsOne mirror.old bytes.now changes.old before.old
        changes.new before.new result mirror.new }
{
    if changes.len() < needed(changes.len(), bytes.len()) {
        return unheard(0, 0, NO_ROOM);
    }
    let Tally { result, visits } = mirror.read(bytes);
    match result {
        Ok(messages) => hear_each(alloc, mirror, messages, visits, changes, before),
        Err(error) => {
            mirror.refused(error);
            unheard(visits, offset_in_error(error), error.code())
        }
    }
}

/// Takes a datagram into the tables of a mirror. What each message makes of the table of its kind
/// is put into `changes`, and the entries before them into `before`, as far as there is room. 25
/// where the handle has no mirror; 17 where `changes` has room, and for fewer than a sixteenth of
/// the bytes: then nothing was looked at. 6, 1 to 5 or 13 where it is refused: then all tables are
/// stale.
///
/// No clause says that an entry before can be written wherever there is room: as that of an entry
/// of a table, writing it takes memory, and where it fails nothing of the entry is put.
#[unsafe(no_mangle)]
pub extern "C" fn rtnlc_mirror_feed(
    alloc: Global,
    handle: &mut MirrorHandle,
    bytes: &[u8],
    changes: &mut [Change],
    before: &mut [u8],
) -> Heard
    ensures { Feeds bytes.now changes.old before.old handle.old.mirror
        changes.new before.new result handle.new.mirror }
{
    of_held!(
        handle: MirrorHandle, alloc,
        mirror => feed(alloc, &mut mirror, bytes, changes, before),
        unheard(0, 0, NO_MIRROR)
    )
}
