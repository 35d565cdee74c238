//! `rtnlc_request_addr`: the request of an address.

ghost use Rattle.std.specs.Prelude.{◌≡◌};
ghost use Rattle.nl_request.specs.Addr.{addr_message};
ghost use Rattle.rtnl_c.specs.ChangeRequests.{IsPutAlone, Puts, addr_in};

use crate::change_requests::{put_asked, some};
use crate::put::Put;
use nl_request::{AddrRequest, Lifetimes};

/// The fields of a request, as C hands them in: `struct rtnlc_addr_request` of include/rtnlc.h.
/// Empty bytes mean that a field isn't set, as does a `has_x` that is false for its `x`.
#[repr(C)]
#[derive(Clone, Copy)]
pub struct AddrFields<'a> {
    pub local: &'a [u8],
    pub peer: &'a [u8],
    pub broadcast: &'a [u8],
    pub label: &'a [u8],
    pub index: u32,
    pub flags: u32,
    pub preferred: u32,
    pub valid: u32,
    pub has_lifetimes: bool,
    pub family: u8,
    pub prefix_length: u8,
    pub scope: u8,
}

impl<'a> AddrFields<'a> {
    /// The request with these fields.
    fn request(&self) -> AddrRequest<'a>
        ensures { result ≡ addr_in self.now }
    {
        let lifetimes = Lifetimes {
            preferred: self.preferred,
            valid: self.valid,
        };
        AddrRequest {
            family: self.family,
            prefix_length: self.prefix_length,
            scope: self.scope,
            index: self.index,
            flags: self.flags,
            local: self.local,
            peer: some(self.peer),
            broadcast: some(self.broadcast),
            label: some(self.label),
            lifetimes: self.has_lifetimes.then_some(lifetimes),
        }
    }
}

/// Puts the request of an address at the front of `out`, as one message with port id 0.
///
/// Or there are none, and a code: 11 where no operation has the number, with nothing written; 4
/// for an attribute of more than 65,535 bytes; 17 where `out` has less room than the message
/// needs; 6 for a message of more than 65,536 bytes. After a refusal the front of `out` holds what
/// was put before it, and the rest is as it was.
#[unsafe(no_mangle)]
pub extern "C" fn rtnlc_request_addr(
    fields: &AddrFields<'_>,
    asked: u8,
    seq: u32,
    big: bool,
    out: &mut [u8],
) -> Put
    ensures puts { Puts (addr_message (addr_in fields.now)) asked seq big out.old out.new result }
    ensures alone { IsPutAlone (addr_message (addr_in fields.now)) asked seq big out.new result }
{
    put_asked!(fields, asked, seq, big, out)
}
