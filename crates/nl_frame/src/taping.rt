//! The loop of a scan: one pass over the messages of a datagram, without memory or recursion. Each
//! header is checked, and its event is put into a buffer.

ghost use Rattle.std.specs.Prelude.{◌≡◌, ◌≤◌, ◌+◌, ◌*◌, [], length, None, Ok, IfSome};
ghost use Rattle.nl_attr.specs.Fixed as fixed;
ghost use Rattle.nl_attr.specs.Shape.{shape_of};
ghost use Rattle.nl_attr.specs.Taped.{HasRoom, found};
ghost use Rattle.nl_attr.specs.Walk.{HeadIs};
ghost use Rattle.nl_route.specs.Families.{head_size};
ghost use Rattle.nl_frame.specs.Broken.{IsBrokenHead, IsBrokenIn};
ghost use Rattle.nl_frame.specs.Form.{least_body};
ghost use Rattle.nl_frame.specs.Front.{form_at};
ghost use Rattle.nl_frame.specs.Heads.{region_in, whole};
ghost use Rattle.nl_frame.specs.Taped.{IsFrameTaped, IsTaped, TapesFront};
ghost use Rattle.nl_frame.specs.HeadOrder.{header_event, region_trail, trail_of};

use crate::broken::header_at_fault;
use crate::form::Form;
use crate::front::{Frame, frame_len, front_form, front_of};
use nl_attr::{
    BrokenHead, Counts, Depth, Event, Order, Reason, Room, SORT_MESSAGE, Taped, tape_attrs_in,
};
use nl_route::{Family, families};

/// A message that the loop has scanned.
#[derive(Clone, Copy)]
struct TapedFrame<'a> {
    frame: Frame<'a>,
    /// The visits, and the buffer's count behind it.
    counts: Counts,
}

/// Makes the event of a message's header.
#[inline(always)]
fn event_of(frame: &Frame, place: u32) -> Event
    requires { length frame.now.payload.now ≤ fixed.LONGEST_REGION }
    ensures { result ≡ header_event place frame.now.header.kind (length frame.now.payload.now) }
{
    let payload = frame.payload;
    Event {
        place,
        len: payload.len() as u32,
        number: frame.header.kind,
        level: 0,
        sort: SORT_MESSAGE,
        nested: false,
        net: false,
    }
}

/// Scans the attributes of a family's body.
#[inline(always)]
fn tape_object(
    broken: &mut Option<BrokenHead>,
    payload: &[u8],
    family: Family,
    place: u32,
    depth: Depth,
    order: Order,
    room: Room,
    out: &mut [Event],
    count: usize,
) -> Counts
    requires none { broken.old ≡ None }
    requires least { head_size family ≤ length payload.now }
    requires size { length payload.now ≤ fixed.LONGEST_REGION }
    requires place { place + length payload.now ≤ fixed.FARTHEST_END }
    requires count { count ≤ 4294967296 }
    requires room { HasRoom room count (length payload.now) (length out.old) }
    ensures taped { IsTaped (shape_of order depth) (region_trail (shape_of order depth)
        (region_in (Form.Object family) place payload.now)) count out.old out.new
        (found broken.new result) }
    ensures head { IfSome broken.new (IsBrokenIn (shape_of order depth)
        (region_in (Form.Object family) place payload.now)) }
    ensures bound { result.visits ≤ (depth + 1) * length payload.now }
    ensures count { result.count ≤ count + result.visits }
    ensures quarter { 4 * result.count ≤ 4 * count + length payload.now }
{
    let row = family.row();
    let bytes = &payload[row.head_size..];
    let base = place + row.head_size as u32;
    tape_attrs_in(
        broken,
        bytes,
        base,
        row.context,
        0,
        depth,
        order,
        room,
        out,
        count,
    )
}

/// Scans a body of this form: the attributes and next hops in it, where it is a family's.
#[inline(always)]
fn tape_body(
    broken: &mut Option<BrokenHead>,
    payload: &[u8],
    form: Form,
    place: u32,
    depth: Depth,
    order: Order,
    room: Room,
    out: &mut [Event],
    count: usize,
) -> Counts
    requires none { broken.old ≡ None }
    requires least { least_body form ≤ length payload.now }
    requires size { length payload.now ≤ fixed.LONGEST_REGION }
    requires place { place + length payload.now ≤ fixed.FARTHEST_END }
    requires count { count ≤ 4294967296 }
    requires room { HasRoom room count (length payload.now) (length out.old) }
    ensures taped { IsTaped (shape_of order depth) (region_trail (shape_of order depth)
        (region_in form place payload.now)) count out.old out.new
        (found broken.new result) }
    ensures head { IfSome broken.new (IsBrokenIn (shape_of order depth)
        (region_in form place payload.now)) }
    ensures bound { result.visits ≤ (depth + 1) * length payload.now }
    ensures count { result.count ≤ count + result.visits }
    ensures quarter { 4 * result.count ≤ 4 * count + length payload.now }
{
    match form {
        Form::Object(family) => {
            tape_object(
                broken, payload, family, place, depth, order, room, out, count,
            )
        }
        Form::Noop | Form::Error | Form::Done | Form::Overrun | Form::Get | Form::Other => Counts {
            count,
            visits: 0,
        },
    }
}

/// Puts the event of a message's header, and scans the message's body.
#[inline(always)]
fn tape_frame(
    broken: &mut Option<BrokenHead>,
    frame: &Frame<'_>,
    place: u32,
    depth: Depth,
    order: Order,
    room: Room,
    out: &mut [Event],
    count: usize,
) -> Counts
    requires none { broken.old ≡ None }
    requires least { least_body frame.now.form ≤ length frame.now.payload.now }
    requires size { length frame.now.payload.now ≤ fixed.LONGEST_REGION }
    requires place { place + 16 + length frame.now.payload.now ≤ fixed.FARTHEST_END }
    requires count { count + 1 ≤ 4294967296 }
    requires room { HasRoom room count (16 + length frame.now.payload.now) (length out.old) }
    ensures taped { IsFrameTaped (shape_of order depth) frame.now place count
        out.old out.new (found broken.new result) }
    ensures head { IfSome broken.new (IsBrokenIn (shape_of order depth)
        (region_in frame.now.form (place + 16) frame.now.payload.now)) }
    ensures bound { result.visits ≤ (depth + 1) * length frame.now.payload.now }
    ensures count { result.count ≤ count + 1 + result.visits }
    ensures quarter { 4 * result.count ≤ 4 * count + 16 + length frame.now.payload.now }
{
    event_of(frame, place).put_in(out, count, room);
    tape_body(
        broken,
        frame.payload,
        frame.form,
        place + 16,
        depth,
        order,
        room,
        out,
        count + 1,
    )
}

/// Scans the message of `len` bytes at the front, whose body has this form.
#[inline(always)]
fn tape_front<'a>(
    broken: &mut Option<BrokenHead>,
    left: &'a [u8],
    len: usize,
    form: Form,
    place: u32,
    depth: Depth,
    order: Order,
    room: Room,
    out: &mut [Event],
    count: usize,
) -> Result<TapedFrame<'a>, Reason>
    requires none { broken.old ≡ None }
    requires size { length left.now ≤ fixed.LONGEST_REGION }
    requires len { HeadIs order 16 4 left.now (Ok len) }
    requires form { form ≡ form_at order left.now }
    requires place { place + length left.now ≤ fixed.FARTHEST_END }
    requires count { count + 1 ≤ 4294967296 }
    requires room { HasRoom room count (length left.now) (length out.old) }
    ensures { TapesFront (shape_of order depth) left.now place count out.old out.new
        broken.new result }
{
    let frame = front_of(left, len, form, order)?;
    let counts = tape_frame(broken, &frame, place, depth, order, room, out, count);
    Ok(TapedFrame { frame, counts })
}

/// A match over a form, with an arm for each family, in which the form is a constant.
macro_rules! match_form {
    (($value:expr, $form:ident => $then:expr) [$($Family:ident)+]) => {
        match $value {
            $(Form::Object(Family::$Family) => {
                let $form = Form::Object(Family::$Family);
                $then
            })+
            $form => $then,
        }
    };
    ($($arguments:tt)+) => { families!([match_form] ($($arguments)+)) };
}

/// Scans the message at the front. Its form is found once: in the arm of a family the size of its
/// header and the context of its attributes are constants.
///
/// `inline(always)` would be dropped from so long a function. So each loop has an instance of its
/// own, by `LOOP`, which is inlined since nothing else calls it.
fn tape_message<'a, const LOOP: u8>(
    broken: &mut Option<BrokenHead>,
    left: &'a [u8],
    place: u32,
    depth: Depth,
    order: Order,
    room: Room,
    out: &mut [Event],
    count: usize,
) -> Result<TapedFrame<'a>, Reason>
    requires none { broken.old ≡ None }
    requires size { length left.now ≤ fixed.LONGEST_REGION }
    requires place { place + length left.now ≤ fixed.FARTHEST_END }
    requires count { count + 1 ≤ 4294967296 }
    requires room { HasRoom room count (length left.now) (length out.old) }
    ensures { TapesFront (shape_of order depth) left.now place count out.old out.new
        broken.new result }
{
    let len = frame_len(left, order)?;
    match_form!(front_form(left, order), form => {
        tape_front(broken, left, len, form, place, depth, order, room, out, count)
    })
}

/// The values of `LOOP`: one for each caller of `tape_ordered`.
const BIG: u8 = 0;

const LITTLE: u8 = 1;

const AMPLE: u8 = 2;

const SCAN: u8 = 3;

/// Scans the messages of a datagram, in a byte order that is a constant in the caller. Each caller
/// has a `LOOP` of its own, for `tape_message`.
#[inline(always)]
fn tape_ordered<const LOOP: u8>(
    bytes: &[u8],
    depth: Depth,
    order: Order,
    room: Room,
    out: &mut [Event],
) -> Taped
    requires size { length bytes.now ≤ fixed.LONGEST_REGION }
    requires room { HasRoom room 0 (length bytes.now) (length out.old) }
    ensures taped { IsTaped (shape_of order depth) (trail_of (shape_of order depth)
        (whole bytes.now)) 0 out.old out.new result }
    ensures head { IfSome result.broken
        (IsBrokenHead (shape_of order depth) (whole bytes.now)) }
    ensures bound { result.visits ≤ (depth + 1) * length bytes.now }
{
    // This makes the range of the depth known to the prover, so that `visits` can't overflow.
    let _limit = depth.get();
    let mut broken = None;
    let mut count = 0;
    let mut visits = 0u64;
    let mut place = 0u32;
    let mut left = bytes;
    'messages: while !left.is_empty() {
        let message = tape_message::<LOOP>(
            &mut broken,
            left,
            place,
            depth,
            order,
            room,
            out,
            count,
        );
        let taped = match message {
            Ok(taped) => taped,
            Err(reason) => {
                return Taped {
                    broken: Some(header_at_fault(left, place, reason, order)),
                    count,
                    visits,
                };
            }
        };
        count = taped.counts.count;
        visits += taped.counts.visits;
        if let Some(head) = broken {
            return Taped {
                broken: Some(head),
                count,
                visits,
            };
        }
        place += taped.frame.span;
        left = taped.frame.rest;
    }
    Taped {
        broken: None,
        count,
        visits,
    }
}

/// The big-endian loop. It isn't inlined: that keeps registers free in the other loops.
#[inline(never)]
fn tape_big(bytes: &[u8], depth: Depth, out: &mut [Event]) -> Taped
    requires { length bytes.now ≤ fixed.LONGEST_REGION }
    ensures taped { IsTaped (shape_of Order.Big depth) (trail_of (shape_of Order.Big depth)
        (whole bytes.now)) 0 out.old out.new result }
    ensures head { IfSome result.broken
        (IsBrokenHead (shape_of Order.Big depth) (whole bytes.now)) }
    ensures bound { result.visits ≤ (depth + 1) * length bytes.now }
{
    tape_ordered::<BIG>(bytes, depth, Order::Big, Room::Unknown, out)
}

/// The little-endian loop, with a buffer that may be too short.
#[inline(never)]
fn tape_little(bytes: &[u8], depth: Depth, out: &mut [Event]) -> Taped
    requires { length bytes.now ≤ fixed.LONGEST_REGION }
    ensures taped { IsTaped (shape_of Order.Little depth) (trail_of (shape_of Order.Little depth)
        (whole bytes.now)) 0 out.old out.new result }
    ensures head { IfSome result.broken
        (IsBrokenHead (shape_of Order.Little depth) (whole bytes.now)) }
    ensures bound { result.visits ≤ (depth + 1) * length bytes.now }
{
    tape_ordered::<LITTLE>(bytes, depth, Order::Little, Room::Unknown, out)
}

/// The little-endian loop, with a buffer that has room for all events. It isn't inlined: so the
/// loop has all registers.
#[inline(never)]
fn tape_ample(bytes: &[u8], depth: Depth, out: &mut [Event]) -> Taped
    requires size { length bytes.now ≤ fixed.LONGEST_REGION }
    requires room { HasRoom Room.Ample 0 (length bytes.now) (length out.old) }
    ensures taped { IsTaped (shape_of Order.Little depth) (trail_of (shape_of Order.Little depth)
        (whole bytes.now)) 0 out.old out.new result }
    ensures head { IfSome result.broken
        (IsBrokenHead (shape_of Order.Little depth) (whole bytes.now)) }
    ensures bound { result.visits ≤ (depth + 1) * length bytes.now }
{
    tape_ordered::<AMPLE>(bytes, depth, Order::Little, Room::Ample, out)
}

/// Scans the messages of a datagram, and puts their events into `out`. It chooses the loop by the
/// byte order and the buffer's room.
#[inline(always)]
pub(crate) fn tape_messages(bytes: &[u8], depth: Depth, order: Order, out: &mut [Event]) -> Taped
    requires { length bytes.now ≤ fixed.LONGEST_REGION }
    ensures taped { IsTaped (shape_of order depth) (trail_of (shape_of order depth)
        (whole bytes.now)) 0 out.old out.new result }
    ensures head { IfSome result.broken
        (IsBrokenHead (shape_of order depth) (whole bytes.now)) }
    ensures bound { result.visits ≤ (depth + 1) * length bytes.now }
{
    match order {
        Order::Little => {
            if bytes.len() / 4 <= out.len() {
                tape_ample(bytes, depth, out)
            } else {
                tape_little(bytes, depth, out)
            }
        }
        Order::Big => tape_big(bytes, depth, out),
    }
}

/// Scans the messages of a datagram, and puts no event. The empty buffer is made here, so that the
/// compiler drops all use of it from the loops.
pub(crate) fn scan_messages(bytes: &[u8], depth: Depth, order: Order) -> Taped
    requires { length bytes.now ≤ fixed.LONGEST_REGION }
    ensures taped { IsTaped (shape_of order depth) (trail_of (shape_of order depth)
        (whole bytes.now)) 0 [] [] result }
    ensures head { IfSome result.broken
        (IsBrokenHead (shape_of order depth) (whole bytes.now)) }
    ensures bound { result.visits ≤ (depth + 1) * length bytes.now }
{
    let out: &mut [Event] = &mut [];
    match order {
        Order::Little => tape_ordered::<SCAN>(bytes, depth, Order::Little, Room::Unknown, out),
        Order::Big => tape_big(bytes, depth, out),
    }
}
