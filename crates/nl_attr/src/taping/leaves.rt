//! The short loop of a scan, over the attributes at the front of a region that hold bytes.
//!
//! Most attributes hold bytes, and a loop that handles no nested ones is fast. Behind the first
//! nested attribute of a message the loop also accepts empty ones, of which a link has some.

ghost use Rattle.std.specs.Prelude.{◌^◌, ◌≡◌, ◌≤◌, ◌+◌, ◌-◌, ◌%◌, true, length};
ghost use Rattle.nl_attr.specs.Fixed as fixed;
ghost use Rattle.nl_attr.specs.Heads.{start_of};
ghost use Rattle.nl_attr.specs.Taped.{HasRoom, IsEmptyList, IsLike, IsPassing};
ghost use Rattle.nl_attr.specs.Walk.{flags_of};

use crate::events::{Event, Room, SORT_BYTES, SORT_LIST};
use crate::limits::Shape;
use crate::tree::{AttrFlags, Content, Ctx, NUMBERS, holds};
use crate::walk::{flags_in, kind_at, len_at};

/// The result of the loop.
#[derive(Clone, Copy)]
pub(super) struct Passed<'a> {
    /// What is left of the region behind the attributes.
    pub(super) left: &'a [u8],
    /// The index in the buffer behind the last event.
    pub(super) count: usize,
}

/// Whether the loop may accept this attribute as an empty nested one: `lists` allows it, it has
/// no payload, and the depth limit has room for it. `kind` is its type field, and `len` the
/// length of its payload in bytes. The answer is false for one without `NLA_F_NESTED`, which the
/// loop leaves.
#[inline(always)]
fn is_empty_list(key: Ctx, kind: u16, len: usize, level: u8, shape: Shape, lists: bool) -> bool
    requires { level ≤ fixed.MOST_LEVELS }
    ensures { result ≡ true → IsEmptyList key kind len level shape.depth }
{
    let flags = flags_in(kind);
    // Nearly all attributes with the flag are lists, so the compiler compares no type here.
    if !lists || len != 0 || level >= shape.depth() || !flags.nested {
        return false;
    }
    match holds(key, kind % NUMBERS, flags) {
        Content::List(_) => true,
        Content::Bytes | Content::Hops => false,
    }
}

/// The event of an empty nested attribute with this type field.
#[inline(always)]
fn list_event(place: u32, kind: u16, level: u8) -> Event
    ensures { result ≡ record {
      place = place;
      len = 0;
      number = kind % fixed.NUMBERS;
      level = level;
      sort = fixed.SORT_LIST;
      nested = (flags_of kind).nested;
      net = (flags_of kind).net;
    } }
{
    let flags = flags_in(kind);
    Event {
        place,
        len: 0,
        number: kind % NUMBERS,
        level,
        sort: SORT_LIST,
        nested: flags.nested,
        net: flags.net,
    }
}

/// Goes past the attributes at the front that hold bytes and have no flag bit, and puts their
/// events from index `count` on. With `lists` it goes past empty nested attributes too. It stops
/// at any other attribute, and at a last one whose padding is missing.
///
/// `end` is the offset behind the region. `key` is a context in which attributes hold the same as
/// in `ctx`. It is a constant at each call, so that the loop compares no other context's types.
#[inline(always)]
fn pass_like<'a>(
    bytes: &'a [u8],
    end: u32,
    level: u8,
    ctx: Ctx,
    key: Ctx,
    shape: Shape,
    room: Room,
    lists: bool,
    out: &mut [Event],
    count: usize,
) -> Passed<'a>
    requires key { IsLike ctx key }
    requires size { length bytes.now ≤ fixed.LONGEST_REGION }
    requires within { length bytes.now ≤ end }
    requires level { level ≤ fixed.MOST_LEVELS }
    requires place { end ≤ fixed.FARTHEST_END }
    requires count { count ≤ 2 ^ 33 + fixed.MOST_VISITS }
    requires room { HasRoom room count (length bytes.now) (length out.old) }
    ensures { IsPassing shape (start_of ctx level (end - length bytes.now) bytes.now) count
        out.old result.left.now result.count out.new }
{
    let order = shape.order();
    let start = end - bytes.len() as u32;
    // Headers stand at multiples of 4, so one that begins before the limit is whole.
    let limit = bytes.len() / 4 * 4;
    let mut at = 0;
    let mut count = count;
    // How many bytes there are behind the header, up to the limit. At the limit it wraps.
    let mut behind = limit.wrapping_sub(4);
    'leaves: while behind <= isize::MAX as usize {
        let left = &bytes[at..];
        // A length field below 4 wraps to a length that no region has.
        let len = len_at(order, left).wrapping_sub(4);
        if behind < len {
            break;
        }
        let number = kind_at(order, left);
        if number >= NUMBERS {
            if !is_empty_list(key, number, len, level, shape, lists) {
                break;
            }
            list_event(start + at as u32, number, level).put_in(out, count, room);
            count += 1;
            at += 4;
            behind = behind.wrapping_sub(4);
            continue 'leaves;
        }
        let (nested, net) = (false, false);
        match holds(key, number, AttrFlags { nested, net }) {
            Content::Bytes => {
                Event {
                    place: start + at as u32,
                    len: len as u32,
                    number,
                    level,
                    sort: SORT_BYTES,
                    nested,
                    net,
                }
                .put_in(out, count, room);
                count += 1;
                let span = (len + 7) / 4 * 4;
                at += span;
                behind = behind.wrapping_sub(span);
            }
            Content::List(_) | Content::Hops => break,
        }
    }
    Passed {
        left: &bytes[at..],
        count,
    }
}

/// Goes past the attributes at the front that hold bytes, as `pass_like` does. There is a separate
/// loop for each context in which some types hold others: routes and links. `end` is the offset
/// behind the region.
#[inline(always)]
pub(super) fn pass_leaves<'a>(
    bytes: &'a [u8],
    end: u32,
    level: u8,
    ctx: Ctx,
    shape: Shape,
    room: Room,
    lists: bool,
    out: &mut [Event],
    count: usize,
) -> Passed<'a>
    requires size { length bytes.now ≤ fixed.LONGEST_REGION }
    requires within { length bytes.now ≤ end }
    requires level { level ≤ fixed.MOST_LEVELS }
    requires place { end ≤ fixed.FARTHEST_END }
    requires count { count ≤ 2 ^ 33 + fixed.MOST_VISITS }
    requires room { HasRoom room count (length bytes.now) (length out.old) }
    ensures { IsPassing shape (start_of ctx level (end - length bytes.now) bytes.now) count
        out.old result.left.now result.count out.new }
{
    match ctx {
        Ctx::Route => pass_like(
            bytes,
            end,
            level,
            ctx,
            Ctx::Route,
            shape,
            room,
            lists,
            out,
            count,
        ),
        Ctx::Link => pass_like(
            bytes,
            end,
            level,
            ctx,
            Ctx::Link,
            shape,
            room,
            lists,
            out,
            count,
        ),
        _ => pass_like(
            bytes,
            end,
            level,
            ctx,
            Ctx::Plain,
            shape,
            room,
            lists,
            out,
            count,
        ),
    }
}
