//! `rtnlc_request_neigh`: the request of a neighbour.

ghost use Rattle.std.specs.Prelude.{◌≡◌};
ghost use Rattle.nl_request.specs.Neigh.{neigh_message};
ghost use Rattle.rtnl_c.specs.ChangeRequests.{IsPutAlone, Puts, neigh_in};

use crate::change_requests::{put_asked, some};
use crate::put::Put;
use nl_request::NeighRequest;

/// The fields of a request, as C hands them in: `struct rtnlc_neigh_request` of include/rtnlc.h.
/// Empty bytes mean that a field isn't set, as does a `has_x` that is false for its `x`.
#[repr(C)]
#[derive(Clone, Copy)]
pub struct NeighFields<'a> {
    pub destination: &'a [u8],
    pub link_address: &'a [u8],
    pub index: i32,
    pub state: u16,
    pub vlan: u16,
    pub has_vlan: bool,
    pub family: u8,
    pub flags: u8,
}

impl<'a> NeighFields<'a> {
    /// The request with these fields.
    fn request(&self) -> NeighRequest<'a>
        ensures { result ≡ neigh_in self.now }
    {
        NeighRequest {
            family: self.family,
            index: self.index,
            state: self.state,
            flags: self.flags,
            destination: some(self.destination),
            link_address: some(self.link_address),
            vlan: self.has_vlan.then_some(self.vlan),
        }
    }
}

/// Puts the request of a neighbour at the front of `out`, as one message with port id 0.
///
/// Or there are none, and a code: 11 where no operation has the number, with nothing written; 4
/// for an attribute of more than 65,535 bytes; 17 where `out` has less room than the message
/// needs; 6 for a message of more than 65,536 bytes. After a refusal the front of `out` holds what
/// was put before it, and the rest is as it was.
#[unsafe(no_mangle)]
pub extern "C" fn rtnlc_request_neigh(
    fields: &NeighFields<'_>,
    asked: u8,
    seq: u32,
    big: bool,
    out: &mut [u8],
) -> Put
    ensures puts { Puts (neigh_message (neigh_in fields.now)) asked seq big out.old out.new result }
    ensures alone { IsPutAlone (neigh_message (neigh_in fields.now)) asked seq big out.new result }
{
    put_asked!(fields, asked, seq, big, out)
}
