//! What the kernel says of errors, on standard error.

use crate::output::Errors;
use crate::pieces::Piece::{self, Number, Text};
use crate::pieces::{write_number, write_raw};
use crate::subject::write_kernel_name;
use nl_attr::{Event, SORT_MESSAGE};
use rtnl::frame::{Limits, Message, ReadError, read_datagram};
use rtnl::{KernelError, error_name, kernel_error, request_name};
use std::alloc::AllocError;
use std::fmt::{self, Display};
use std::io;

/// The types of the messages in which an error may be said.
const NLMSG_ERROR: u16 = 2;

const NLMSG_DONE: u16 = 3;

/// Whether a head is that of a message in which an error may be said.
pub(crate) fn may_say_error(event: &Event) -> bool {
    event.sort == SORT_MESSAGE && matches!(event.number, NLMSG_ERROR | NLMSG_DONE)
}

/// Writes what failed: a request of this type, or a dump, whose end doesn't say its type.
fn write_request<W: fmt::Write>(f: &mut fmt::Formatter<W>, request: Option<u16>) -> fmt::Result {
    let Some(kind) = request else {
        return f.write_str("dump failed: ");
    };
    match request_name(kind) {
        Some(name) => write_kernel_name(f, name)?,
        None => write_number(f, "type ", u64::from(kind))?,
    }
    f.write_str(" refused: ")
}

/// Writes the name of an error, or its number where it has none.
fn write_code<W: fmt::Write>(f: &mut fmt::Formatter<W>, code: i32) -> fmt::Result {
    match error_name(code) {
        Some(name) => f.write_str(name),
        None => {
            f.write_str("error ")?;
            code.fmt(f)
        }
    }
}

/// Writes the kernel's message, where there is one.
fn write_message<W: fmt::Write>(f: &mut fmt::Formatter<W>, message: &[u8]) -> fmt::Result {
    if message.is_empty() {
        return Ok(());
    }
    f.write_str(", ")?;
    write_raw(f, message)
}

/// Writes the offset of the attribute that is at fault, where the kernel says it.
fn write_offset<W: fmt::Write>(f: &mut fmt::Formatter<W>, offset: Option<u32>) -> fmt::Result {
    match offset {
        Some(offset) => write_number(f, ", attribute at ", u64::from(offset)),
        None => Ok(()),
    }
}

/// Writes what the kernel says of an error.
pub(crate) fn write_error<W: fmt::Write>(
    f: &mut fmt::Formatter<W>,
    error: KernelError<'_>,
) -> fmt::Result {
    write_request(f, error.request)?;
    write_code(f, error.code)?;
    write_message(f, error.message)?;
    write_offset(f, error.offset)
}

/// Writes what the kernel says of the errors in the datagram of this number, which was accepted.
pub(crate) fn tell_errors(
    rt: &HostRuntime,
    number: usize,
    datagram: &[u8],
    limits: &Limits,
) -> io::Result<()> {
    let messages: Vec<Message> = match read_datagram(rt.alloc(), datagram, limits).into_result() {
        Ok(messages) => messages,
        Err(ReadError::Memory) => return Err(AllocError.into()),
        Err(ReadError::Layout(_) | ReadError::TooLarge) => return Ok(()),
    };
    for message in &messages {
        if let Some(error) = kernel_error(limits.order(), message) {
            Errors(rt).say(&[
                Number("datagram ", number as u64),
                Text(": "),
                Piece::KernelError(error),
            ])?;
        }
    }
    Ok(())
}
