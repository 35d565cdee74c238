//! The pieces of a datagram, by the events of its tape.

ghost use Rattle.std.specs.Prelude.{◌≡◌, ◌<◌, ◌≤◌, ◌^◌, ◌++◌, ◌∷◌, [], IfOk, OnOk, map, take};
ghost use Rattle.rtnl.specs.ByteParts as marks;
ghost use Rattle.rtnl.specs.ByteParts.{broken_by, done_marks, echo_marks, error_marks, flags_at};
ghost use Rattle.rtnl.specs.ByteParts.{head_marks, header, lists_after, marks_of, number_at};
ghost use Rattle.rtnl.specs.ByteParts.{other_body, refused_marks, rest_of, tail_marks};
ghost use Rattle.rtnl.specs.ByteViews.{attr_list_view, marks_in};
ghost use Rattle.rtnl.specs.Marks.{fields};
ghost use Rattle.rtnl.specs.Structs.{rtnexthop};

use crate::bytes::inside::{payload_name, push_inside, push_sense, push_whole, resolved};
use crate::bytes::lists::{
    AttrList, content_of, kind_here, known_here, list_at, list_behind, list_inside,
};
use crate::bytes::notation::Notation;
use crate::bytes::parts::{Depth, Extent, Piece, push_fields, push_gap, push_named, push_padding};
use crate::bytes::structs::{NLMSGERR, RTGENMSG, RTNEXTHOP, STATUS, head_of, nlmsghdr, rtattr};
use crate::json_lines::body::{echo_of, has_attributes};
use crate::json_lines::data::inside::{LEVELS, known};
use crate::json_lines::data::kinds::Scope;
use crate::json_lines::data::leaves::{bytes_from, bytes_up_to};
use crate::json_lines::tree::meaning_beside;
use crate::names::attributes::attribute;
use crate::names::types::message_type;
use crate::names::values::read_payload;
use nl_attr::{
    BrokenHead, Event, HeadKind, LONGEST_REGION, Order, SORT_BYTES, SORT_MESSAGE, SORT_NEXT_HOP,
    align4,
};
use nl_frame::{Form, ScanError};
use nl_values::{Format, Set};
use std::alloc::{AllocError, Global};

/// What the events of a datagram say of its bytes.
#[derive(Drop)]
pub(super) struct View<'a> {
    /// The pieces, from the first byte on.
    pub pieces: Vec<Piece>,
    /// The lists that are open after the last event, the outermost first.
    pub lists: Vec<AttrList<'a>>,
}

fn push_header(pieces: &mut Vec<Piece>, depth: Depth, kind: u16) -> Result<(), AllocError>
    ensures { OnOk result
        (marks_in pieces.new.items ≡ marks_in pieces.old.items ++ header depth kind) }
{
    let (_, _, names) = message_type(kind);
    push_fields(pieces, depth, &nlmsghdr(names))
}

fn body_place(event: &Event) -> usize
    ensures place { result ≡ marks.body_place event.now }
    ensures below { result < 2 ^ 33 }
{
    event.place as usize + 16
}

/// Adds the rest of a body as one piece.
fn push_rest(pieces: &mut Vec<Piece>, event: &Event, name: &'static str) -> Result<(), AllocError>
    ensures { OnOk result (marks_in pieces.new.items
        ≡ marks_in pieces.old.items ++ rest_of event.now name.now) }
{
    let end = body_place(event) + event.len as usize;
    push_named(
        pieces,
        Depth::Body,
        Extent::UpTo(end),
        (name, ""),
        Notation::Blank,
    )
}

/// The number in the first two bytes; 0 where there are fewer.
fn u16_at(order: Order, bytes: &[u8]) -> u16
    ensures { result ≡ number_at order 2 bytes.now }
{
    if bytes.len() < 2 {
        return 0;
    }
    order.read_u16(bytes)
}

/// The number in the first four bytes; 0 where there are fewer.
fn u32_at(order: Order, bytes: &[u8]) -> u32
    ensures { result ≡ number_at order 4 bytes.now }
{
    if bytes.len() < 4 {
        return 0;
    }
    order.read_u32(bytes)
}

fn flags_at(order: Order, bytes: &[u8], event: &Event) -> u16
    ensures { result ≡ flags_at order bytes.now event.now }
{
    u16_at(order, bytes_from(bytes, event.place as usize + 6))
}

/// Adds the payload of a message by the format that `Set::MESSAGES` has for its type.
fn push_other(
    pieces: &mut Vec<Piece>,
    order: Order,
    kind: u16,
    content: &[u8],
) -> Result<(), AllocError>
    ensures { OnOk result (marks_in pieces.new.items
        ≡ marks_in pieces.old.items ++ other_body order kind content.now) }
{
    let scope = Scope {
        order,
        family: bytes_up_to(content, 1),
    };
    let format = known(Some(Set::MESSAGES), kind).format;
    let name = ("payload", "");
    push_inside(
        pieces,
        scope,
        LEVELS,
        Depth::Body,
        name,
        format,
        &[],
        &[],
        content,
    )
}

/// Adds the bytes after an error or a DONE, which are attributes where `flags` says so.
fn push_tail(
    pieces: &mut Vec<Piece>,
    order: Order,
    flags: u16,
    tail: &[u8],
) -> Result<(), AllocError>
    ensures { OnOk result (marks_in pieces.new.items
        ≡ marks_in pieces.old.items ++ tail_marks order flags tail.now) }
{
    let name = ("tail", "");
    if !has_attributes(flags) {
        return push_whole(pieces, Depth::Body, name, Notation::Blank, tail.len());
    }
    let scope = Scope { order, family: &[] };
    let format = Format::List(Set::EXTACK);
    push_inside(
        pieces,
        scope,
        LEVELS,
        Depth::Body,
        name,
        format,
        &[],
        &[],
        tail,
    )
}

/// Adds the `size` bytes of the request's payload that an error repeats, and what follows them.
fn push_echo(
    pieces: &mut Vec<Piece>,
    order: Order,
    flags: u16,
    kind: u16,
    size: u32,
    tail: &[u8],
) -> Result<(), AllocError>
    requires { size ≤ 4294967279 }
    ensures { OnOk result (marks_in pieces.new.items
        ≡ marks_in pieces.old.items ++ echo_marks order flags kind size tail.now) }
{
    let echo = bytes_up_to(tail, size as usize);
    let end = align4(size) as usize;
    push_other(pieces, order, kind, echo)?;
    let padding = bytes_up_to(tail, end).len().saturating_sub(echo.len());
    push_gap(pieces, Depth::Body, padding)?;
    push_tail(pieces, order, flags, bytes_from(tail, end))
}

#[tactic(auto, unfolding(crate::specs::Structs::nlmsgerr), using(crate::proofs::Sets::joins))]
fn push_error(
    pieces: &mut Vec<Piece>,
    order: Order,
    flags: u16,
    content: &[u8],
) -> Result<(), AllocError>
    ensures { OnOk result (marks_in pieces.new.items
        ≡ marks_in pieces.old.items ++ error_marks order flags content.now) }
{
    let is_ack = u32_at(order, content) == 0;
    let len = u32_at(order, bytes_from(content, 4));
    let kind = u16_at(order, bytes_from(content, 8));
    push_fields(pieces, Depth::Body, &NLMSGERR)?;
    push_header(pieces, Depth::Body, kind)?;
    let size = echo_of(flags, is_ack, len);
    push_echo(pieces, order, flags, kind, size, bytes_from(content, 20))
}

/// Adds the body of a DONE, which may be too short for a status.
#[tactic(auto, unfolding(crate::specs::Structs::status), using(crate::proofs::Sets::joins))]
fn push_done(
    pieces: &mut Vec<Piece>,
    order: Order,
    flags: u16,
    content: &[u8],
) -> Result<(), AllocError>
    ensures { OnOk result (marks_in pieces.new.items
        ≡ marks_in pieces.old.items ++ done_marks order flags content.now) }
{
    if content.len() < 4 {
        return push_tail(pieces, order, flags, content);
    }
    push_fields(pieces, Depth::Body, &STATUS)?;
    push_tail(pieces, order, flags, bytes_from(content, 4))
}

/// Adds the body of a message by its form. Of a family's body it adds the head.
#[tactic(auto, unfolding(crate::specs::Structs::rtgenmsg), using(crate::proofs::Sets::joins))]
fn push_body(
    pieces: &mut Vec<Piece>,
    order: Order,
    bytes: &[u8],
    event: &Event,
    form: Form,
) -> Result<(), AllocError>
    ensures { OnOk result (marks_in pieces.new.items
        ≡ marks_in pieces.old.items ++ marks.body order bytes.now event.now form) }
{
    let content = content_of(bytes, 16, event);
    match form {
        Form::Object(family) => push_fields(pieces, Depth::Body, head_of(family)),
        Form::Error => push_error(pieces, order, flags_at(order, bytes, event), content),
        Form::Done => push_done(pieces, order, flags_at(order, bytes, event), content),
        Form::Get => {
            push_fields(pieces, Depth::Body, &RTGENMSG)?;
            push_rest(pieces, event, "tail")
        }
        Form::Noop | Form::Overrun => push_rest(pieces, event, "payload"),
        Form::Other => push_other(pieces, order, event.number, content),
    }
}

/// Adds a message's header, and its body but for its attributes.
#[tactic(auto, using(crate::proofs::Sets::joins))]
fn push_message(
    pieces: &mut Vec<Piece>,
    order: Order,
    bytes: &[u8],
    event: &Event,
) -> Result<(), AllocError>
    ensures { OnOk result (marks_in pieces.new.items
        ≡ marks_in pieces.old.items ++ marks.message order bytes.now event.now) }
{
    push_header(pieces, Depth::Header, event.number)?;
    push_body(pieces, order, bytes, event, Form::of(event.number))
}

/// Adds the payload of an attribute by what it means, or else in its style.
fn push_payload(
    pieces: &mut Vec<Piece>,
    order: Order,
    bytes: &[u8],
    list: &AttrList<'_>,
    event: &Event,
) -> Result<(), AllocError>
    ensures { OnOk result (marks_in pieces.new.items ≡ marks_in pieces.old.items
        ++ marks.payload order bytes.now (attr_list_view list.now) event.now) }
{
    let content = content_of(bytes, 4, event);
    let depth = Depth::Level(event.level.into());
    let name = payload_name(list.set, event.number);
    let (_, style) = attribute(list.context, event.number);
    let plain = Notation::Payload(style, event.net);
    if content.len() > LONGEST_REGION {
        return push_whole(pieces, depth, name, plain, content.len());
    }
    let scope = Scope {
        order,
        family: list.family,
    };
    let format = known_here(list, event).format;
    let kind = kind_here(bytes, list, event);
    let reading = read_payload(order, style, event.net, content);
    let meaning = meaning_beside(scope, reading, event.net, format, kind, content);
    let own = Notation::Meaning(resolved(format, order, kind));
    push_sense(
        pieces,
        scope,
        LEVELS - 1,
        depth,
        name,
        &[],
        content,
        plain,
        own,
        meaning,
    )
}

/// Adds an attribute's header, and its payload where it holds bytes.
#[tactic(auto, using(crate::proofs::Sets::joins))]
fn push_attr(
    pieces: &mut Vec<Piece>,
    order: Order,
    bytes: &[u8],
    list: &AttrList<'_>,
    event: &Event,
) -> Result<(), AllocError>
    ensures { OnOk result (marks_in pieces.new.items ≡ marks_in pieces.old.items
        ++ marks.attribute order bytes.now (attr_list_view list.now) event.now) }
{
    push_fields(pieces, Depth::Level(event.level.into()), &rtattr(list.set))?;
    match event.sort {
        SORT_BYTES => push_payload(pieces, order, bytes, list, event),
        _ => Ok(()),
    }
}

#[tactic(auto, unfolding(crate::specs::Structs::rtnexthop))]
fn push_hop(pieces: &mut Vec<Piece>, depth: Depth) -> Result<(), AllocError>
    ensures { OnOk result
        (marks_in pieces.new.items ≡ marks_in pieces.old.items ++ fields depth rtnexthop) }
{
    push_fields(pieces, depth, &RTNEXTHOP)
}

/// Adds the pieces of an event's item up to the heads inside it.
fn push_head(
    pieces: &mut Vec<Piece>,
    order: Order,
    bytes: &[u8],
    list: &AttrList<'_>,
    event: &Event,
) -> Result<(), AllocError>
    ensures { OnOk result (marks_in pieces.new.items ≡ marks_in pieces.old.items
        ++ head_marks order bytes.now (attr_list_view list.now) event.now) }
{
    match event.sort {
        SORT_MESSAGE => push_message(pieces, order, bytes, event),
        SORT_NEXT_HOP => push_hop(pieces, Depth::Level(event.level.into())),
        _ => push_attr(pieces, order, bytes, list, event),
    }
}

/// The depth of what stands inside an event's item, and of the padding after it.
fn depth_inside(event: &Event) -> Depth
    ensures { result ≡ marks.depth_inside event.now }
{
    match event.sort {
        SORT_MESSAGE => Depth::Body,
        _ => Depth::Level(event.level.into()),
    }
}

/// Closes the lists that are deeper than an event, and notes the event in its own list.
fn close<'a>(
    lists: &mut Vec<AttrList<'a>>,
    list: AttrList<'a>,
    event: &Event,
) -> Result<(), AllocError>
    ensures { OnOk result (map attr_list_view lists.new.items
        ≡ marks.lists_closed (map attr_list_view lists.old.items)
        (attr_list_view list.entry) event.now) }
{
    if event.sort == SORT_MESSAGE {
        lists.truncate(0);
        return Ok(());
    }
    lists.truncate(event.level as usize);
    lists.push(list_behind(list, event))?;
    Ok(())
}

/// Opens the list inside an event's item. `behind` are the events after this one.
fn enter<'a>(
    lists: &mut Vec<AttrList<'a>>,
    order: Order,
    bytes: &'a [u8],
    list: AttrList<'a>,
    event: &Event,
    behind: &'a [Event],
) -> Result<(), AllocError>
    ensures { OnOk result (map attr_list_view lists.new.items
        ≡ marks.lists_entered order bytes.entry.now (map attr_list_view lists.old.items)
        (attr_list_view list.entry) event.now behind.entry.now) }
{
    close(lists, list, event)?;
    lists.push(list_inside(order, bytes, &list, event, behind))?;
    Ok(())
}

/// The pieces of a datagram, and the lists that are open after its last event.
pub(super) fn view_events<'a>(
    alloc: Global,
    order: Order,
    bytes: &'a [u8],
    events: &'a [Event],
) -> Result<View<'a>, AllocError>
    ensures pieces { IfOk result
        (λ v. marks_in v.pieces.items ≡ marks_of order bytes.entry.now events.entry.now) }
    ensures lists { IfOk result
        (λ v. map attr_list_view v.lists.items
        ≡ lists_after order bytes.entry.now [] events.entry.now) }
{
    let mut pieces = Vec::new(alloc);
    let mut lists = Vec::new(alloc);
    let mut depth = Depth::Header;
    let mut left = events;
    while let Some((event, behind)) = left.split_first() {
        push_padding(&mut pieces, depth, event.place as usize)?;
        let list = list_at(&lists, event.level);
        push_head(&mut pieces, order, bytes, &list, event)?;
        enter(&mut lists, order, bytes, list, event, behind)?;
        depth = depth_inside(event);
        left = behind;
    }
    push_padding(&mut pieces, depth, bytes.len())?;
    Ok(View { pieces, lists })
}

fn broken_depth(kind: HeadKind, level: u8) -> Depth
    ensures { result ≡ marks.broken_depth kind level }
{
    match kind {
        HeadKind::Message => Depth::Header,
        HeadKind::Attribute | HeadKind::NextHop => Depth::Level(level.into()),
    }
}

/// The name of a head that is cut.
fn cut_name(kind: HeadKind) -> &'static str
    ensures { result.now ≡ marks.cut_name kind }
{
    match kind {
        HeadKind::Message => "nlmsghdr",
        HeadKind::Attribute => "rtattr",
        HeadKind::NextHop => "rtnexthop",
    }
}

/// Adds the pieces of a head that breaks a rule, at which these lists are open.
fn push_broken(
    pieces: &mut Vec<Piece>,
    lists: &[AttrList<'_>],
    head: BrokenHead,
) -> Result<(), AllocError>
    ensures { OnOk result (marks_in pieces.new.items
        ≡ marks_in pieces.old.items ++ broken_by (map attr_list_view lists.now) head head.len) }
{
    let depth = broken_depth(head.kind, head.level);
    if head.len.is_none() {
        let left = Extent::Bytes(head.left as usize);
        return push_named(
            pieces,
            depth,
            left,
            (cut_name(head.kind), ""),
            Notation::Blank,
        );
    }
    match head.kind {
        HeadKind::Message => push_header(pieces, depth, head.number.unwrap_or(0)),
        HeadKind::Attribute => push_fields(pieces, depth, &rtattr(list_at(lists, head.level).set)),
        HeadKind::NextHop => push_hop(pieces, depth),
    }
}

/// The pieces from the offset on at which a datagram is refused.
pub(super) fn view_refused(
    alloc: Global,
    lists: &[AttrList<'_>],
    error: ScanError,
) -> Result<Vec<Piece>, AllocError>
    ensures { IfOk result
        (λ p. marks_in p.items ≡ refused_marks (map attr_list_view lists.now) error) }
{
    let mut pieces = Vec::new(alloc);
    if let ScanError::Layout(head) = error {
        push_broken(&mut pieces, lists, head)?;
    }
    Ok(pieces)
}
