//! `rtnlc_request_link`: the request of a link.

ghost use Rattle.std.specs.Prelude.{◌≡◌};
ghost use Rattle.nl_request.specs.Link.{link_message};
ghost use Rattle.rtnl_c.specs.ChangeRequests.{IsPutAlone, Puts, info_in, link_in};

use crate::change_requests::{put_asked, some};
use crate::put::Put;
use nl_request::{LinkInfo, LinkRequest};

/// The fields of a request, as C hands them in: `struct rtnlc_link_request` of include/rtnlc.h.
/// Empty bytes mean that a field isn't set, as does a `has_x` that is false for its `x`.
#[repr(C)]
#[derive(Clone, Copy)]
pub struct LinkFields<'a> {
    pub name: &'a [u8],
    pub address: &'a [u8],
    pub kind: &'a [u8],
    pub data: &'a [u8],
    pub index: i32,
    pub mtu: u32,
    pub master: u32,
    pub link: u32,
    pub has_mtu: bool,
    pub has_master: bool,
    pub has_link: bool,
    pub has_up: bool,
    pub up: bool,
}

impl<'a> LinkFields<'a> {
    /// The request with these fields.
    fn request(&self) -> LinkRequest<'a>
        ensures { result ≡ link_in self.now }
    {
        LinkRequest {
            index: self.index,
            name: some(self.name),
            up: self.has_up.then_some(self.up),
            mtu: self.has_mtu.then_some(self.mtu),
            master: self.has_master.then_some(self.master),
            link: self.has_link.then_some(self.link),
            address: some(self.address),
            info: self.info(),
        }
    }

    /// The kind of a virtual interface, where there is one.
    fn info(&self) -> Option<LinkInfo<'a>>
        ensures { result ≡ info_in self.now.kind self.now.«data» }
    {
        if self.kind.is_empty() {
            return None;
        }
        Some(LinkInfo {
            kind: self.kind,
            data: some(self.data),
        })
    }
}

/// Puts the request of a link at the front of `out`, as one message with port id 0.
///
/// Or there are none, and a code: 11 where no operation has the number, with nothing written; 4
/// for an attribute of more than 65,535 bytes; 17 where `out` has less room than the message
/// needs; 6 for a message of more than 65,536 bytes. After a refusal the front of `out` holds what
/// was put before it, and the rest is as it was.
#[unsafe(no_mangle)]
pub extern "C" fn rtnlc_request_link(
    fields: &LinkFields<'_>,
    asked: u8,
    seq: u32,
    big: bool,
    out: &mut [u8],
) -> Put
    ensures puts { Puts (link_message (link_in fields.now)) asked seq big out.old out.new result }
    ensures alone { IsPutAlone (link_message (link_in fields.now)) asked seq big out.new result }
{
    put_asked!(fields, asked, seq, big, out)
}
