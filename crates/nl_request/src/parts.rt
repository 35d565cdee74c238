//! Writing the optional attributes of a request: each call writes one, or nothing for `None`.
//!
//! After its first error a builder keeps that error, and further calls change nothing. So a caller
//! may go on after an error: what is written stays the same.

ghost use Rattle.std.specs.Prelude.{◌≡◌, ◌≤◌, Some, IfErr, length};
ghost use Rattle.nl_frame.specs.Building.{answer, no_flags, put};
ghost use Rattle.nl_frame.specs.Calls.{run};
ghost use Rattle.nl_frame.specs.Parts.{over};
ghost use Rattle.nl_request.specs.Parts.{bytes_part, calls_of_part, number_part};
ghost use Rattle.nl_request.specs.Parts.{text_part};

use nl_attr::{NO_FLAGS, Order};
use nl_frame::{BuildError, Builder};

/// Writes an attribute with this payload. It is fastest for four bytes, an IPv4 address.
#[inline(always)]
pub(crate) fn put_address(
    builder: &mut Builder,
    out: &mut [u8],
    number: u16,
    bytes: &[u8],
) -> Result<(), BuildError>
    requires fits { builder.old.len ≤ length out.old }
    ensures built { over builder.new out.new
        ≡ put (over builder.old out.old) number no_flags bytes.now }
    ensures answer { result ≡ answer builder.new.refusal }
    ensures fits { builder.new.len ≤ length out.new }
{
    if let Ok(word) = <[u8; 4]>::try_from(bytes) {
        return builder.put_bytes(out, number, NO_FLAGS, &word);
    }
    builder.put_bytes(out, number, NO_FLAGS, bytes)
}

/// Writes an attribute with this payload, if any.
#[inline(always)]
pub(crate) fn put_bytes(
    builder: &mut Builder,
    out: &mut [u8],
    number: u16,
    bytes: Option<&[u8]>,
) -> Result<(), BuildError>
    requires fits { builder.old.len ≤ length out.old }
    ensures built { over builder.new out.new
        ≡ run (over builder.old out.old) (calls_of_part (bytes_part number bytes.entry)) }
    ensures refused { IfErr result (λ e. builder.new.refusal ≡ Some e) }
    ensures fits { builder.new.len ≤ length out.new }
{
    match bytes {
        Some(bytes) => put_address(builder, out, number, bytes),
        None => Ok(()),
    }
}

/// Writes an attribute with this text and a zero byte behind it, if any.
#[inline(always)]
pub(crate) fn put_text(
    builder: &mut Builder,
    out: &mut [u8],
    number: u16,
    text: Option<&[u8]>,
) -> Result<(), BuildError>
    requires fits { builder.old.len ≤ length out.old }
    ensures built { over builder.new out.new
        ≡ run (over builder.old out.old) (calls_of_part (text_part number text.entry)) }
    ensures refused { IfErr result (λ e. builder.new.refusal ≡ Some e) }
    ensures fits { builder.new.len ≤ length out.new }
{
    match text {
        Some(text) => builder.put_text(out, number, NO_FLAGS, text),
        None => Ok(()),
    }
}

/// Writes an attribute whose payload is `value` in four bytes of this byte order, if any.
#[inline(always)]
pub(crate) fn put_u32(
    builder: &mut Builder,
    out: &mut [u8],
    number: u16,
    value: Option<u32>,
    order: Order,
) -> Result<(), BuildError>
    requires fits { builder.old.len ≤ length out.old }
    ensures built { over builder.new out.new
        ≡ run (over builder.old out.old) (calls_of_part (number_part number 4 order value)) }
    ensures refused { IfErr result (λ e. builder.new.refusal ≡ Some e) }
    ensures fits { builder.new.len ≤ length out.new }
{
    match value {
        Some(value) => builder.put_u32(out, number, NO_FLAGS, value, order),
        None => Ok(()),
    }
}

/// Writes an attribute whose payload is `value` in two bytes of this byte order, if any.
#[inline(always)]
pub(crate) fn put_u16(
    builder: &mut Builder,
    out: &mut [u8],
    number: u16,
    value: Option<u16>,
    order: Order,
) -> Result<(), BuildError>
    requires fits { builder.old.len ≤ length out.old }
    ensures built { over builder.new out.new
        ≡ run (over builder.old out.old) (calls_of_part (number_part number 2 order value)) }
    ensures refused { IfErr result (λ e. builder.new.refusal ≡ Some e) }
    ensures fits { builder.new.len ≤ length out.new }
{
    match value {
        Some(value) => builder.put_u16(out, number, NO_FLAGS, value, order),
        None => Ok(()),
    }
}
