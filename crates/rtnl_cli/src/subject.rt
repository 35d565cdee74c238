//! What a head is that breaks a rule, and the heads in which it lies.

use crate::pieces::write_number;
use nl_attr::{Ctx, Event, SORT_MESSAGE, SORT_NEXT_HOP};
use rtnl::frame::{BrokenHead, HeadKind};
use rtnl::{KernelName, attribute_name, context_inside, message_name};
use std::fmt;

/// Writes a name in two parts.
pub(crate) fn write_kernel_name<W: fmt::Write>(
    f: &mut fmt::Formatter<W>,
    name: KernelName,
) -> fmt::Result {
    f.write_str(name.0)?;
    f.write_str(name.1)
}

/// Writes a name behind a blank.
fn write_name<W: fmt::Write>(f: &mut fmt::Formatter<W>, name: KernelName) -> fmt::Result {
    f.write_str(" ")?;
    write_kernel_name(f, name)
}

/// Writes the type of a message: its name, or its number where it has none.
fn write_type<W: fmt::Write>(f: &mut fmt::Formatter<W>, number: u16) -> fmt::Result {
    match message_name(number) {
        Some(name) => write_name(f, name),
        None => write_number(f, " of type ", u64::from(number)),
    }
}

/// Writes the number of an attribute behind a text, and its name where it has one.
fn write_attribute<W: fmt::Write>(
    f: &mut fmt::Formatter<W>,
    text: &str,
    context: Ctx,
    number: u16,
) -> fmt::Result {
    write_number(f, text, u64::from(number))?;
    match attribute_name(context, number) {
        Some(name) => write_name(f, name),
        None => Ok(()),
    }
}

/// A head that breaks a rule, and the events of the heads before it, or up to it where its length
/// is sound.
#[derive(Clone, Copy)]
pub(crate) struct Subject<'a> {
    pub head: BrokenHead,
    pub events: &'a [Event],
}

impl<'a> Subject<'a> {
    /// How many messages begin before it.
    fn message_count(self) -> usize {
        let events = self.events.iter();
        events.filter(|event| event.sort == SORT_MESSAGE).count()
    }

    /// The message in which it lies: the last before it.
    fn message(self) -> Option<&'a Event> {
        let events = self.events.iter();
        events.filter(|event| event.sort == SORT_MESSAGE).last()
    }

    /// The head of this level in which it lies: heads stand in the order of their places, so it is
    /// the last of its level.
    fn outer(self, level: u8) -> Option<&'a Event> {
        let events = self.events.iter();
        events
            .filter(|event| event.sort != SORT_MESSAGE && event.level == level)
            .last()
    }

    /// The context of the attributes beside it.
    fn context(self) -> Ctx {
        let mut context = match self.message() {
            Some(message) => context_inside(*message, Ctx::Plain),
            None => Ctx::Plain,
        };
        for level in 0..self.head.level {
            if let Some(event) = self.outer(level) {
                context = context_inside(*event, context);
            }
        }
        context
    }

    /// Writes what it is.
    fn write_kind<W: fmt::Write>(self, f: &mut fmt::Formatter<W>) -> fmt::Result {
        match (self.head.kind, self.head.number) {
            (HeadKind::Message, number) => {
                let count = self.message_count() as u64;
                write_number(f, "message ", count.saturating_add(1))?;
                return match number {
                    Some(number) => write_type(f, number),
                    None => Ok(()),
                };
            }
            (HeadKind::Attribute, Some(number)) => {
                write_attribute(f, "attribute ", self.context(), number)?
            }
            (HeadKind::Attribute, None) => f.write_str("attribute")?,
            (HeadKind::NextHop, _) => f.write_str("next hop")?,
        }
        write_number(f, " at level ", u64::from(self.head.level))
    }

    /// Writes the heads in which it lies, from the message on.
    fn write_way<W: fmt::Write>(self, f: &mut fmt::Formatter<W>) -> fmt::Result {
        let Some(message) = self.message() else {
            return Ok(());
        };
        write_number(f, ", in message ", self.message_count() as u64)?;
        write_type(f, message.number)?;
        write_number(f, " at ", u64::from(message.place))?;
        let mut context = context_inside(*message, Ctx::Plain);
        for level in 0..self.head.level {
            let Some(event) = self.outer(level) else {
                return Ok(());
            };
            if event.sort == SORT_NEXT_HOP {
                f.write_str(", next hop")?;
            } else {
                write_attribute(f, ", attribute ", context, event.number)?;
            }
            write_number(f, " at ", u64::from(event.place))?;
            context = context_inside(*event, context);
        }
        Ok(())
    }

    /// Writes what it is, its length, the bytes that are left for it, and the heads in which it lies.
    pub(crate) fn write<W: fmt::Write>(self, f: &mut fmt::Formatter<W>) -> fmt::Result {
        self.write_kind(f)?;
        if let Some(len) = self.head.len {
            write_number(f, " of length ", u64::from(len))?;
        }
        write_number(f, ", ", u64::from(self.head.left))?;
        f.write_str(" bytes left")?;
        match self.head.kind {
            HeadKind::Message => Ok(()),
            HeadKind::Attribute | HeadKind::NextHop => self.write_way(f),
        }
    }
}
