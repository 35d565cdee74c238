//! The arguments that the program is given.

use crate::pieces::{Piece, Pieces};
use std::alloc::{AllocError, Global};
use std::env::{Env, FillError};
use std::str;

/// What stands for the program's name, which may be any bytes.
const PROGRAM: &str = "rtnl";

/// The arguments of the program.
#[derive(Drop)]
pub(crate) enum Given {
    /// All of them, the program's name first.
    Texts(Vec<String>),
    /// One of them is no text, and how it is shown.
    NoText(String),
}

/// The bytes of the argument of this number, where there are so many.
fn bytes_of(rt: &HostRuntime, number: usize) -> Result<Option<Vec<u8>>, AllocError> {
    let mut room = 256usize;
    for _ in 0..usize::BITS {
        let mut bytes = vec![in rt.alloc(); 0u8; room]?;
        match rt.arg(number, bytes.as_mut_slice()) {
            Ok(count) => {
                bytes.truncate(count);
                return Ok(Some(bytes));
            }
            Err(FillError::NotPresent) => return Ok(None),
            Err(FillError::TooLong) => room = room.saturating_add(room),
        }
    }
    Err(AllocError)
}

/// The arguments.
pub(crate) fn read_given(rt: &HostRuntime) -> Result<Given, AllocError> {
    let alloc = rt.alloc();
    let mut texts = vec![in alloc; String::from_str(alloc, PROGRAM)?]?;
    for number in 1..usize::MAX {
        let Some(bytes) = bytes_of(rt, number)? else {
            break;
        };
        match str::from_utf8(bytes.as_slice()) {
            Ok(text) => texts.push(String::from_str(alloc, text)?)?,
            Err(_) => {
                let shown = Pieces(&[Piece::Raw(bytes.as_slice())]).to_string(alloc)?;
                return Ok(Given::NoText(shown));
            }
        }
    }
    Ok(Given::Texts(texts))
}
