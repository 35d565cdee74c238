//! `Prefix`: an address with a prefix length.

ghost use Rattle.std.specs.Prelude.{◌≡◌, ◌≤◌, Some, IfErr, length};
ghost use Rattle.nl_frame.specs.Calls.{run};
ghost use Rattle.nl_frame.specs.Parts.{over};
ghost use Rattle.nl_request.specs.Parts.{calls_of_part};
ghost use Rattle.nl_request.specs.Prefixes.{prefix_length, prefix_part};

use crate::parts::put_address;
use nl_frame::{BuildError, Builder};

/// An address and how many of its first bits count.
#[derive(Clone, Copy, Debug)]
pub struct Prefix<'a> {
    /// The address, in network byte order: 4 bytes for IPv4, 16 for IPv6.
    pub address: &'a [u8],
    /// The prefix length, in bits: up to 32 for IPv4, up to 128 for IPv6.
    pub length: u8,
}

/// The prefix length, in bits: 0 where there is no prefix.
#[inline(always)]
pub(crate) fn length_of(prefix: Option<Prefix<'_>>) -> u8
    ensures { result ≡ prefix_length prefix.entry }
{
    match prefix {
        None => 0,
        Some(prefix) => prefix.length,
    }
}

/// Writes an attribute with the prefix's address, if any.
#[inline(always)]
pub(crate) fn put_prefix(
    builder: &mut Builder,
    out: &mut [u8],
    number: u16,
    prefix: Option<Prefix<'_>>,
) -> Result<(), BuildError>
    requires fits { builder.old.len ≤ length out.old }
    ensures built { over builder.new out.new
        ≡ run (over builder.old out.old) (calls_of_part (prefix_part number prefix.entry)) }
    ensures refused { IfErr result (λ e. builder.new.refusal ≡ Some e) }
    ensures fits { builder.new.len ≤ length out.new }
{
    match prefix {
        Some(prefix) => put_address(builder, out, number, prefix.address),
        None => Ok(()),
    }
}
