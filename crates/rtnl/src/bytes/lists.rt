//! The open lists of attributes, and the kind of an attribute in one, by a tape's events.

ghost use Rattle.std.specs.Prelude.{◌≡◌, ◌≤◌, map};
ghost use Rattle.nl_values.specs.Known.{attribute_view};
ghost use Rattle.rtnl.specs.ByteParts as parts;
ghost use Rattle.rtnl.specs.ByteParts.{attrs_in, content_of, ends_list, family_in_head, held_of};
ghost use Rattle.rtnl.specs.ByteParts.{kind_here, known_here, list_behind, list_inside};
ghost use Rattle.rtnl.specs.ByteParts.{set_in_head};
ghost use Rattle.rtnl.specs.ByteViews.{attr_list_view};
ghost use Rattle.rtnl.specs.Data.{only_in};

use crate::bytes::tape::context_inside;
use crate::json_lines::data::inside::known;
use crate::json_lines::data::kinds::{MOST_CHOSEN, left_behind};
use crate::json_lines::data::leaves::{bytes_from, bytes_up_to};
use crate::json_lines::heads::set_of;
use crate::json_lines::tree::set_inside;
use nl_attr::{Ctx, Event, Order, SORT_BYTES, SORT_MESSAGE, SORT_NEXT_HOP};
use nl_frame::Form;
use nl_values::{Attribute, Format, Selector, Set};

/// A list of attributes: that of a body, of an attribute or of a next hop.
#[derive(Clone, Copy)]
pub(super) struct AttrList<'a> {
    pub context: Ctx,
    pub set: Option<Set>,
    /// The events from its first attribute on.
    pub events: &'a [Event],
    /// How many formats a kind may still choose.
    pub left: u8,
    /// The byte of the message's address family, or no byte.
    pub family: &'a [u8],
}

/// The list of a level at which none is open.
const NO_LIST: AttrList<'static> = AttrList {
    context: Ctx::Plain,
    set: None,
    events: &[],
    left: 0,
    family: &[],
};

/// The open list of a level.
pub(super) fn list_at<'a>(lists: &[AttrList<'a>], level: u8) -> AttrList<'a>
    ensures { attr_list_view result ≡ parts.list_at (map attr_list_view lists.now) level }
{
    lists.get(level as usize).copied().unwrap_or(NO_LIST)
}

/// The bytes of an item after its header, which has `header` bytes.
pub(super) fn content_of<'a>(bytes: &'a [u8], header: usize, event: &Event) -> &'a [u8]
    requires { header ≤ 16 }
    ensures { result.now ≡ content_of bytes.entry.now header event.now }
{
    let behind = bytes_from(bytes, event.place as usize + header);
    bytes_up_to(behind, event.len as usize)
}

/// The payload of an attribute; no bytes for a nested attribute.
fn held_of<'a>(bytes: &'a [u8], event: &Event) -> &'a [u8]
    ensures { result.now ≡ held_of bytes.entry.now event.now }
{
    match event.sort {
        SORT_BYTES => content_of(bytes, 4, event),
        _ => &[],
    }
}

/// Whether a list of this level has ended before an event.
fn ends_list(level: u8, event: &Event) -> bool
    ensures { result ≡ ends_list level event.now }
{
    event.sort == SORT_MESSAGE || event.level < level
}

/// The payload of the only attribute of this number in the list that begins at `events`. It has no
/// bytes where there is none, or more than one.
fn only_in_events<'a>(bytes: &'a [u8], level: u8, events: &[Event], number: u16) -> &'a [u8]
    ensures { result.now ≡ only_in number (attrs_in bytes.entry.now level events.now) }
{
    let mut only = None;
    for event in events {
        if ends_list(level, event) {
            return only.unwrap_or(&[]);
        }
        if event.level == level && event.number == number {
            if only.is_some() {
                return &[];
            }
            only = Some(held_of(bytes, event));
        }
    }
    only.unwrap_or(&[])
}

/// The name and the format of an attribute in a list.
pub(super) fn known_here(list: &AttrList<'_>, event: &Event) -> Attribute
    ensures { attribute_view result ≡ known_here (attr_list_view list.now) event.now }
{
    known(list.set, event.number)
}

/// The kind that chooses the format of an attribute in a list, or no bytes.
pub(super) fn kind_here<'a>(bytes: &'a [u8], list: &AttrList<'a>, event: &Event) -> &'a [u8]
    ensures { result.now ≡ kind_here bytes.entry.now (attr_list_view list.now) event.now }
{
    if list.left == 0 {
        return &[];
    }
    match known_here(list, event).format {
        Format::Chosen(_, Selector::Family) => list.family,
        Format::Chosen(_, Selector::Beside(number)) => {
            only_in_events(bytes, event.level, list.events, number)
        }
        _ => &[],
    }
}

/// The set of the attributes in a body of this form.
fn body_set(form: Form) -> Option<Set>
    ensures { result ≡ parts.body_set form }
{
    match form {
        Form::Object(family) => Some(set_of(family)),
        Form::Noop | Form::Error | Form::Done | Form::Overrun | Form::Get | Form::Other => None,
    }
}

/// The set of the attributes inside an event's item.
fn set_in_head(order: Order, bytes: &[u8], list: &AttrList<'_>, event: &Event) -> Option<Set>
    ensures { result ≡ set_in_head order bytes.now (attr_list_view list.now) event.now }
{
    match event.sort {
        SORT_MESSAGE => body_set(Form::of(event.number)),
        SORT_NEXT_HOP => list.set,
        SORT_BYTES => None,
        _ => set_inside(
            order,
            known_here(list, event).format,
            kind_here(bytes, list, event),
        ),
    }
}

/// The byte of the address family in an event's message.
fn family_in_head<'a>(bytes: &'a [u8], list: &AttrList<'a>, event: &Event) -> &'a [u8]
    ensures { result.now ≡ family_in_head bytes.entry.now (attr_list_view list.now) event.now }
{
    match event.sort {
        SORT_MESSAGE => bytes_up_to(content_of(bytes, 16, event), 1),
        _ => list.family,
    }
}

/// The list inside an event's item. `behind` are the events after this one.
pub(super) fn list_inside<'a>(
    order: Order,
    bytes: &'a [u8],
    list: &AttrList<'a>,
    event: &Event,
    behind: &'a [Event],
) -> AttrList<'a>
    ensures { attr_list_view result ≡ list_inside order bytes.entry.now
        (attr_list_view list.now) event.now behind.entry.now }
{
    AttrList {
        context: context_inside(*event, list.context),
        set: set_in_head(order, bytes, list, event),
        events: behind,
        left: MOST_CHOSEN,
        family: family_in_head(bytes, list, event),
    }
}

/// The list after one of its items. One choice less is left where a kind chose the item's format.
pub(super) fn list_behind<'a>(list: AttrList<'a>, event: &Event) -> AttrList<'a>
    ensures { attr_list_view result ≡ list_behind (attr_list_view list.entry) event.now }
{
    if event.sort == SORT_NEXT_HOP {
        return list;
    }
    let left = left_behind(list.left, known_here(&list, event).format);
    AttrList { left, ..list }
}
