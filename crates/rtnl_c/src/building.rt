//! `rtnlc_builder_*`: a builder whose state C stores as a plain struct. It takes no memory.
//!
//! A call makes a `BuilderTop` of the struct, and stores what that changed. Where the struct holds
//! no builder's state, it answers 23 and changes nothing.

ghost use Rattle.std.specs.Prelude.{◌≡◌, ◌≤◌, ◌<◌, ◌-◌, ◌∷◌, ◌++◌, ℕ, [], IfOk, MatchOption, length};
ghost use Rattle.nl_attr.specs.Fixed as fixed;
ghost use Rattle.nl_attr.specs.declared.order.Order.TheVariants.{Big};
ghost use Rattle.nl_attr.specs.Numbers.{num};
ghost use Rattle.nl_frame.specs.Building.{close, end, levels_in, open_attr, open_hop, order_of, put};
ghost use Rattle.nl_frame.specs.Building.{put_message};
ghost use Rattle.nl_frame.specs.Parts.{begin_bytes, new_parts};
ghost use Rattle.rtnl_c.specs.Building.{Calls, Finishes, IsKept, IsNone, News, with_opened};
ghost use Rattle.rtnl_c.specs.Building.{HasNone, IsInnermost, IsTopOf, left_closed};
ghost use Rattle.rtnl_c.specs.Building.{content_in, content_number, flags_in, number_in};
ghost use Rattle.rtnl_c.specs.Building.{order_by, order_number, refusal_in, refusal_number};

use crate::codes::NO_BUILDER;
use crate::numbers::{context, number};
use crate::options::{Options, limits, order};
use crate::put::Put;
use nl_attr::{AttrFlags, Content};
use nl_frame::{BuildError, BuilderTop, Limits, OpenHead, Order, levels_inside};

/// How many headers may be open: that of the message, and one for each of 32 levels.
const MOST_OPEN: u8 = 33;

/// A builder's state, as C stores it in `struct rtnlc_builder` of include/rtnlc.h.
#[repr(C)]
#[derive(Clone, Copy)]
pub struct BuilderState {
    /// The total limit, as in `Options`. A builder doesn't use it.
    pub total: u64,
    /// The limit on entries, which a builder doesn't use either.
    pub entries: u32,
    /// How many bytes a datagram may have: a multiple of 4 from 16 to 1,048,576.
    pub datagram: u32,
    /// How many bytes of the buffer are accepted.
    pub len: u32,
    /// The offsets of the open headers, the outermost first.
    pub starts: [u32; 33],
    /// What is put behind each of them: attributes of the context of this number, or 9 for next
    /// hops.
    pub contents: [u8; 33],
    /// How many headers are open.
    pub count: u8,
    pub depth: u8,
    /// 1 for big-endian byte order, else 0.
    pub big: u8,
    /// The number of the first error, or 0.
    pub refusal: u8,
}

/// The number of a byte order, as in `big`.
fn number_of_order(order: Order) -> u8
    ensures { result ≡ order_number order }
{
    match order {
        Order::Little => 0,
        Order::Big => 1,
    }
}

/// The byte order of a number. `None` where it is neither 0 nor 1.
#[inline(always)]
fn order_by_number(number: u8) -> Option<Order>
    ensures { result ≡ order_by number }
{
    match number {
        0 => Some(Order::Little),
        1 => Some(Order::Big),
        _ => None,
    }
}

/// The number of what is put behind a header, as in `contents`.
fn number_of(content: Content) -> u8
    ensures { result ≡ content_number content }
{
    match content {
        Content::Bytes => 0,
        Content::List(ctx) => number(ctx),
        Content::Hops => 9,
    }
}

/// What is put behind a header, by its number. `None` where there is no such number.
#[inline(always)]
fn content_by_number(number: u8) -> Option<Content>
    ensures { result ≡ content_in number }
{
    match context(number) {
        Some(ctx) => Some(Content::List(ctx)),
        None => match number {
            0 => Some(Content::Bytes),
            9 => Some(Content::Hops),
            _ => None,
        },
    }
}

/// The error of a number, where 0 is no error. The outer `None` is for a number of no builder's
/// error.
#[inline(always)]
fn refusal_by_number(code: u8) -> Option<Option<BuildError>>
    ensures { result ≡ refusal_in code }
{
    if code == 0 {
        return Some(None);
    }
    match code {
        4 => Some(Some(BuildError::TooLong)),
        5 => Some(Some(BuildError::TooDeep)),
        6 => Some(Some(BuildError::TooLarge)),
        11 => Some(Some(BuildError::Mismatch)),
        17 => Some(Some(BuildError::NoRoom)),
        21 => Some(Some(BuildError::NothingOpen)),
        22 => Some(Some(BuildError::StillOpen)),
        _ => None,
    }
}

/// The number of an error, or 0.
#[inline(always)]
fn code_of(refusal: Option<BuildError>) -> u8
    ensures { result ≡ refusal_number refusal }
{
    match refusal {
        None => 0,
        Some(refusal) => refusal.code(),
    }
}

/// Stores a new builder of these limits.
fn keep_new(limits: &Limits, kept: &mut BuilderState)
    ensures { (room : ℕ) → IsKept kept.new room (new_parts limits.now) }
{
    kept.total = limits.total();
    kept.entries = limits.entries();
    kept.datagram = limits.datagram();
    kept.depth = limits.depth().get();
    kept.big = number_of_order(limits.order());
    kept.len = 0;
    kept.count = 0;
    kept.refusal = 0;
}

/// The innermost open header, if any. The outer `None` is for a state that no builder has.
#[inline(always)]
fn innermost(kept: &BuilderState) -> Option<Option<OpenHead>>
    requires { kept.now.depth ≤ 32 }
    ensures { MatchOption result (HasNone kept.now) (IsInnermost kept.now) }
{
    if kept.count > MOST_OPEN {
        return None;
    }
    let mut head = None;
    let mut index = 0;
    while index < kept.count as usize {
        let Some(content) = content_by_number(kept.contents[index]) else {
            return None;
        };
        let start = kept.starts[index];
        if kept.len < 4
            || start > kept.len - 4
            || index + levels_inside(content) > kept.depth as usize
        {
            return None;
        }
        head = Some(OpenHead { start, content });
        index += 1;
    }
    Some(head)
}

/// The builder in the struct, over a slice of `room` bytes, without the outer open headers. `None`
/// where the struct holds no builder's state.
#[inline(always)]
fn top_of(kept: &BuilderState, room: usize) -> Option<BuilderTop>
    ensures { MatchOption result (IsNone kept.now room) (IsTopOf kept.now room) }
{
    let len = kept.len as usize;
    if len > room || kept.len > kept.datagram {
        return None;
    }
    let Some(order) = order_by_number(kept.big) else {
        return None;
    };
    let Some(refusal) = refusal_by_number(kept.refusal) else {
        return None;
    };
    let Ok(limits) = Limits::new(kept.depth, kept.datagram, kept.total, kept.entries) else {
        return None;
    };
    let Some(head) = innermost(kept) else {
        return None;
    };
    let limits = limits.with_order(order);
    Some(BuilderTop {
        limits,
        len,
        head,
        refusal,
    })
}

/// Stores what a call changed that opened and closed no header. It answers the error's number, or
/// 0.
#[inline(always)]
fn keep_top(top: &BuilderTop, kept: &mut BuilderState) -> u8
    requires { top.now.len ≤ fixed.LONGEST_REGION }
    ensures kept { kept.new ≡ record kept.old {
      len = top.now.len;
      refusal = refusal_number top.now.refusal;
    } }
    ensures code { result ≡ refusal_number top.now.refusal }
{
    kept.len = top.len as u32;
    kept.refusal = code_of(top.refusal);
    kept.refusal
}

/// Stores what a call changed that opened a header, or its error. It answers the error's number,
/// or 0.
#[inline(always)]
fn keep_opened(
    top: &BuilderTop,
    opened: Result<OpenHead, BuildError>,
    kept: &mut BuilderState,
) -> u8
    requires size { top.now.len ≤ fixed.LONGEST_REGION }
    requires few { IfOk opened (λ h. kept.old.count ≤ 32) }
    ensures places { IfOk opened (λ h. (kept.old.count < length kept.old.starts)
        × (kept.old.count < length kept.old.contents)) }
    ensures kept { kept.new ≡ record (with_opened kept.old opened) {
      len = top.now.len;
      refusal = refusal_number top.now.refusal;
    } }
    ensures code { result ≡ refusal_number top.now.refusal }
{
    if let Ok(OpenHead { start, content }) = opened {
        let at = kept.count as usize;
        kept.starts[at] = start;
        kept.contents[at] = number_of(content);
        kept.count += 1;
    }
    keep_top(top, kept)
}

/// Stores that the innermost header is closed, or the error. It answers the error's number, or 0.
#[inline(always)]
fn keep_fewer(refusal: Option<BuildError>, kept: &mut BuilderState) -> u8
    ensures kept { kept.new ≡ record kept.old {
      count = kept.old.count - left_closed refusal;
      refusal = refusal_number refusal;
    } }
    ensures code { result ≡ refusal_number refusal }
{
    if refusal.is_none() {
        kept.count = kept.count.saturating_sub(1);
    }
    kept.refusal = code_of(refusal);
    kept.refusal
}

/// The flag bits of an attribute's type.
#[inline(always)]
fn flags_of(kind: u16) -> AttrFlags
    ensures { result ≡ flags_in kind }
{
    AttrFlags {
        nested: kind >= 0x8000,
        net: kind % 0x8000 >= 0x4000,
    }
}

/// The attribute's type without its flag bits.
#[inline(always)]
fn number_of_type(kind: u16) -> u16
    ensures { result ≡ number_in kind }
{
    kind % 0x4000
}

/// Puts an attribute of these bytes.
#[inline(always)]
fn put_bytes(kept: &mut BuilderState, out: &mut [u8], kind: u16, bytes: &[u8]) -> u8
    ensures { Calls (λ b. put b (number_in kind) (flags_in kind) bytes.now)
        kept.old out.old kept.new out.new result }
{
    let Some(mut top) = top_of(kept, out.len()) else {
        return NO_BUILDER;
    };
    let _ = top.put(out, number_of_type(kind), flags_of(kind), bytes, &[]);
    keep_top(&top, kept)
}

/// Keeps a new builder of these limits; 12 where one of them is out of its range.
#[unsafe(no_mangle)]
pub extern "C" fn rtnlc_builder_new(kept: &mut BuilderState, options: &Options) -> u8
    ensures { News options.now kept.old result kept.new }
{
    match limits(options) {
        Ok(limits) => {
            keep_new(&limits, kept);
            0
        }
        Err(fault) => fault.code(),
    }
}

/// Begins a message, whose body's header is in these bytes.
#[unsafe(no_mangle)]
pub extern "C" fn rtnlc_builder_begin(
    kept: &mut BuilderState,
    out: &mut [u8],
    kind: u16,
    flags: u16,
    seq: u32,
    port: u32,
    head: &[u8],
) -> u8
    ensures { Calls (λ b. begin_bytes b kind flags seq port head.now)
        kept.old out.old kept.new out.new result }
{
    let Some(mut top) = top_of(kept, out.len()) else {
        return NO_BUILDER;
    };
    let opened = top.begin_bytes(out, kind, flags, seq, port, head);
    keep_opened(&top, opened, kept)
}

/// Puts an attribute of these bytes.
#[unsafe(no_mangle)]
pub extern "C" fn rtnlc_builder_put(
    kept: &mut BuilderState,
    out: &mut [u8],
    kind: u16,
    bytes: &[u8],
) -> u8
    ensures { Calls (λ b. put b (number_in kind) (flags_in kind) bytes.now)
        kept.old out.old kept.new out.new result }
{
    put_bytes(kept, out, kind, bytes)
}

/// Puts an attribute of this text, with one zero byte behind it.
#[unsafe(no_mangle)]
pub extern "C" fn rtnlc_builder_put_text(
    kept: &mut BuilderState,
    out: &mut [u8],
    kind: u16,
    text: &[u8],
) -> u8
    ensures { Calls (λ b. put b (number_in kind) (flags_in kind) (text.now ++ 0 ∷ []))
        kept.old out.old kept.new out.new result }
{
    let Some(mut top) = top_of(kept, out.len()) else {
        return NO_BUILDER;
    };
    let _ = top.put(out, number_of_type(kind), flags_of(kind), text, &[0]);
    keep_top(&top, kept)
}

/// Puts an attribute of this number in one byte.
#[unsafe(no_mangle)]
pub extern "C" fn rtnlc_builder_put_u8(
    kept: &mut BuilderState,
    out: &mut [u8],
    kind: u16,
    value: u8,
) -> u8
    ensures { Calls (λ b. put b (number_in kind) (flags_in kind) (value ∷ []))
        kept.old out.old kept.new out.new result }
{
    put_bytes(kept, out, kind, &[value])
}

/// Puts an attribute of this number in 2 bytes of the builder's order.
#[unsafe(no_mangle)]
pub extern "C" fn rtnlc_builder_put_u16(
    kept: &mut BuilderState,
    out: &mut [u8],
    kind: u16,
    value: u16,
) -> u8
    ensures { Calls (λ b. put b (number_in kind) (flags_in kind) (num value 2 (order_of b)))
        kept.old out.old kept.new out.new result }
{
    put_bytes(kept, out, kind, &order(kept.big == 1).u16_bytes(value))
}

/// Puts an attribute of this number in 2 bytes of network order.
#[unsafe(no_mangle)]
pub extern "C" fn rtnlc_builder_put_be16(
    kept: &mut BuilderState,
    out: &mut [u8],
    kind: u16,
    value: u16,
) -> u8
    ensures { Calls (λ b. put b (number_in kind) (flags_in kind) (num value 2 Big))
        kept.old out.old kept.new out.new result }
{
    put_bytes(kept, out, kind, &Order::Big.u16_bytes(value))
}

/// Puts an attribute of this number in 4 bytes of the builder's order.
#[unsafe(no_mangle)]
pub extern "C" fn rtnlc_builder_put_u32(
    kept: &mut BuilderState,
    out: &mut [u8],
    kind: u16,
    value: u32,
) -> u8
    ensures { Calls (λ b. put b (number_in kind) (flags_in kind) (num value 4 (order_of b)))
        kept.old out.old kept.new out.new result }
{
    put_bytes(kept, out, kind, &order(kept.big == 1).u32_bytes(value))
}

/// Puts an attribute of this number in 4 bytes of network order.
#[unsafe(no_mangle)]
pub extern "C" fn rtnlc_builder_put_be32(
    kept: &mut BuilderState,
    out: &mut [u8],
    kind: u16,
    value: u32,
) -> u8
    ensures { Calls (λ b. put b (number_in kind) (flags_in kind) (num value 4 Big))
        kept.old out.old kept.new out.new result }
{
    put_bytes(kept, out, kind, &Order::Big.u32_bytes(value))
}

/// Puts an attribute of this number in 8 bytes of the builder's order.
#[unsafe(no_mangle)]
pub extern "C" fn rtnlc_builder_put_u64(
    kept: &mut BuilderState,
    out: &mut [u8],
    kind: u16,
    value: u64,
) -> u8
    ensures { Calls (λ b. put b (number_in kind) (flags_in kind) (num value 8 (order_of b)))
        kept.old out.old kept.new out.new result }
{
    put_bytes(kept, out, kind, &order(kept.big == 1).u64_bytes(value))
}

/// Puts an attribute of this number in 8 bytes of network order.
#[unsafe(no_mangle)]
pub extern "C" fn rtnlc_builder_put_be64(
    kept: &mut BuilderState,
    out: &mut [u8],
    kind: u16,
    value: u64,
) -> u8
    ensures { Calls (λ b. put b (number_in kind) (flags_in kind) (num value 8 Big))
        kept.old out.old kept.new out.new result }
{
    put_bytes(kept, out, kind, &Order::Big.u64_bytes(value))
}

/// Opens an attribute that holds attributes or next hops.
#[unsafe(no_mangle)]
pub extern "C" fn rtnlc_builder_open(kept: &mut BuilderState, out: &mut [u8], kind: u16) -> u8
    ensures { Calls (λ b. open_attr b (number_in kind) (flags_in kind))
        kept.old out.old kept.new out.new result }
{
    let Some(mut top) = top_of(kept, out.len()) else {
        return NO_BUILDER;
    };
    let count = kept.count as usize;
    let opened = top.open_attr(out, number_of_type(kind), flags_of(kind), count);
    keep_opened(&top, opened, kept)
}

/// Opens a next hop.
#[unsafe(no_mangle)]
pub extern "C" fn rtnlc_builder_open_hop(
    kept: &mut BuilderState,
    out: &mut [u8],
    flags: u8,
    hops: u8,
    ifindex: i32,
) -> u8
    ensures { Calls (λ b. open_hop b flags hops ifindex) kept.old out.old kept.new out.new result }
{
    let Some(mut top) = top_of(kept, out.len()) else {
        return NO_BUILDER;
    };
    let opened = top.open_hop(out, flags, hops, ifindex);
    keep_opened(&top, opened, kept)
}

/// Closes the innermost attribute or next hop.
#[unsafe(no_mangle)]
pub extern "C" fn rtnlc_builder_close(kept: &mut BuilderState, out: &mut [u8]) -> u8
    ensures { Calls (λ b. close b) kept.old out.old kept.new out.new result }
{
    let Some(top) = top_of(kept, out.len()) else {
        return NO_BUILDER;
    };
    let refusal = top.close(out, kept.count as usize);
    keep_fewer(refusal, kept)
}

/// Ends the message.
#[unsafe(no_mangle)]
pub extern "C" fn rtnlc_builder_end(kept: &mut BuilderState, out: &mut [u8]) -> u8
    ensures { Calls (λ b. end b) kept.old out.old kept.new out.new result }
{
    let Some(top) = top_of(kept, out.len()) else {
        return NO_BUILDER;
    };
    let refusal = top.end(out, kept.count as usize);
    keep_fewer(refusal, kept)
}

/// Puts a whole message of no family, whose body is these bytes.
#[unsafe(no_mangle)]
pub extern "C" fn rtnlc_builder_message(
    kept: &mut BuilderState,
    out: &mut [u8],
    kind: u16,
    flags: u16,
    seq: u32,
    port: u32,
    body: &[u8],
) -> u8
    ensures { Calls (λ b. put_message b kind flags seq port body.now)
        kept.old out.old kept.new out.new result }
{
    let Some(mut top) = top_of(kept, out.len()) else {
        return NO_BUILDER;
    };
    let _ = top.message(out, kind, flags, seq, port, body);
    keep_top(&top, kept)
}

/// How many bytes the datagram has, at the front of the buffer; or why there is none.
#[unsafe(no_mangle)]
pub extern "C" fn rtnlc_builder_finish(kept: &BuilderState, out: &[u8]) -> Put
    ensures { Finishes kept.now out.now result }
{
    let Some(top) = top_of(kept, out.len()) else {
        return Put::none(NO_BUILDER);
    };
    match top.finish() {
        Ok(len) => Put { len, code: 0 },
        Err(refusal) => Put::none(refusal.code()),
    }
}
