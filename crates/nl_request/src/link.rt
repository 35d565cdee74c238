//! Requests that change links, as `ip link` does (linux/if_link.h).

ghost use Rattle.std.specs.Prelude.{◌≡◌, ◌≤◌, OnOk, length};
ghost use Rattle.nl_frame.specs.Building.{answer, order_of};
ghost use Rattle.nl_frame.specs.Calls.{and_message, run, with_message};
ghost use Rattle.nl_frame.specs.Draft.{Draft, Holds};
ghost use Rattle.nl_frame.specs.Limits.{Bounds};
ghost use Rattle.nl_frame.specs.Parts.{over};
ghost use Rattle.nl_request.specs.Link.{info_part, link_head, link_message};
ghost use Rattle.nl_request.specs.Parts.{calls_of_part};

use crate::asked::Asked;
use crate::operation::Operation;
use crate::parts::{put_bytes, put_text, put_u32};
use nl_attr::{IFLA_LINKINFO, NO_FLAGS};
use nl_frame::{BuildError, Builder, Family, FamilyHead, PutMessage};
use nl_route::{IFLA_IFNAME, IFLA_INFO_KIND, IFLA_MASTER, IFLA_MTU, LinkHead};

/// The attribute of an interface's link-layer address (linux/if_link.h).
const IFLA_ADDRESS: u16 = 1;
/// The attribute of the index of the interface below, as a VLAN has it.
const IFLA_LINK: u16 = 5;
/// The attribute of a kind's own attributes, inside `IFLA_LINKINFO`.
const IFLA_INFO_DATA: u16 = 2;
/// `IFF_UP` of linux/if.h: the bit of `ifi_flags` of a link that is up.
const IFF_UP: u32 = 1;

/// A request to create a link, to set some of its fields, or to delete it.
///
/// The operations are `Add`, `Replace`, `Set` and `Delete`. The interface is the one with `index`;
/// or, where that is 0, the one with `name`. With an index, `name` is its new name.
#[derive(Clone, Copy, Debug, Default)]
pub struct LinkRequest<'a> {
    /// `ifi_index`: the index of the interface; 0 where `name` says which one, or where the kernel
    /// chooses it.
    pub index: i32,
    /// `IFLA_IFNAME`: the name, without a zero byte.
    pub name: Option<&'a [u8]>,
    /// `IFF_UP`: `true` brings the interface up, `false` brings it down.
    pub up: Option<bool>,
    /// `IFLA_MTU`: the size of the greatest packet, in bytes.
    pub mtu: Option<u32>,
    /// `IFLA_MASTER`: the index of the interface that it is to be a port of; 0 for none.
    pub master: Option<u32>,
    /// `IFLA_LINK`: the index of the interface below, as a VLAN has it.
    pub link: Option<u32>,
    /// `IFLA_ADDRESS`: the link-layer address.
    pub address: Option<&'a [u8]>,
    /// `IFLA_LINKINFO`: the kind of a virtual interface, and the kind's own attributes.
    pub info: Option<LinkInfo<'a>>,
}

/// The kind of a virtual interface, and the kind's own attributes.
#[derive(Clone, Copy, Debug)]
pub struct LinkInfo<'a> {
    /// `IFLA_INFO_KIND`: the name of the kind, as `dummy`, `vlan` or `bridge`, without a zero
    /// byte.
    pub kind: &'a [u8],
    /// `IFLA_INFO_DATA`: the kind's own attributes as bytes, each with its header and its padding.
    pub data: Option<&'a [u8]>,
}

/// Writes `IFLA_LINKINFO`, if any.
fn put_info(builder: &mut Builder, out: &mut [u8], info: Option<LinkInfo<'_>>)
    requires fits { builder.old.len ≤ length out.old }
    ensures built { over builder.new out.new
        ≡ run (over builder.old out.old) (calls_of_part (info_part info.entry)) }
    ensures fits { builder.new.len ≤ length out.new }
{
    if let Some(info) = info {
        let _ = builder.open_attr(out, IFLA_LINKINFO, NO_FLAGS);
        let _ = builder.put_bytes(out, IFLA_INFO_KIND, NO_FLAGS, info.kind);
        let _ = put_bytes(builder, out, IFLA_INFO_DATA, info.data);
        let _ = builder.close(out);
    }
}

impl LinkRequest<'_> {
    /// The header of its message, `ifinfomsg`.
    fn head(&self) -> LinkHead
        ensures { result ≡ link_head self.now }
    {
        LinkHead {
            family: 0,
            hardware: 0,
            index: self.index,
            flags: if let Some(true) = self.up { IFF_UP } else { 0 },
            change: if self.up.is_some() { IFF_UP } else { 0 },
        }
    }

    /// Writes the message of this request into `out`, the slice of `builder`.
    /// `seq` is its sequence number, and its port id is 0.
    ///
    /// The attributes are `IFLA_ADDRESS`, `IFLA_MTU`, `IFLA_MASTER`, `IFLA_LINK`, `IFLA_IFNAME`
    /// and `IFLA_LINKINFO`, those that are set.
    ///
    /// The error is the builder's: a message is open, an attribute is too long, or there is no
    /// room in the slice or below the datagram limit. The builder keeps its first error.
    pub fn put(
        &self,
        operation: Operation,
        seq: u32,
        builder: &mut Builder,
        out: &mut [u8],
    ) -> Result<(), BuildError>
        requires fits { builder.old.len ≤ length out.old }
        ensures built { over builder.new out.new ≡ with_message (over builder.old out.old)
            (link_message self.now operation seq (order_of (over builder.old out.old))) }
        ensures answer { result ≡ answer builder.new.refusal }
        // The builder holds what it held, and this message behind it.
        ensures puts { OnOk result ((d : Draft) (L : Bounds) → Holds L (over builder.old out.old) d
            → Holds L (over builder.new out.new) (and_message d
            (link_message self.now operation seq (order_of (over builder.old out.old))))) }
        ensures fits { builder.new.len ≤ length out.new }
    {
        let order = builder.order();
        let kind = operation.type_of(Family::Link);
        let head = FamilyHead::Link(self.head());
        let _ = builder.begin(out, kind, operation.flags(), seq, 0, &head);
        let _ = put_bytes(builder, out, IFLA_ADDRESS, self.address);
        let _ = put_u32(builder, out, IFLA_MTU, self.mtu, order);
        let _ = put_u32(builder, out, IFLA_MASTER, self.master, order);
        let _ = put_u32(builder, out, IFLA_LINK, self.link, order);
        let _ = put_text(builder, out, IFLA_IFNAME, self.name);
        put_info(builder, out, self.info);
        builder.end(out)
    }
}

impl PutMessage for Asked<'_, LinkRequest<'_>> {
    ghost message = { λ a. link_message a.request.now a.operation a.seq };

    fn put(&self, builder: &mut Builder, out: &mut [u8]) -> Result<(), BuildError> {
        self.request.put(self.operation, self.seq, builder, out)
    }
}
