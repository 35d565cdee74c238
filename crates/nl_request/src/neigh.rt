//! Requests that change neighbours, as `ip neighbour` does, and entries of a bridge's forwarding
//! table, as `bridge fdb` does (linux/neighbour.h).

ghost use Rattle.std.specs.Prelude.{◌≡◌, ◌≤◌, OnOk, length};
ghost use Rattle.nl_frame.specs.Building.{answer, order_of};
ghost use Rattle.nl_frame.specs.Calls.{and_message, with_message};
ghost use Rattle.nl_frame.specs.Draft.{Draft, Holds};
ghost use Rattle.nl_frame.specs.Limits.{Bounds};
ghost use Rattle.nl_frame.specs.Parts.{over};
ghost use Rattle.nl_request.specs.Neigh.{neigh_head, neigh_message};

use crate::asked::Asked;
use crate::operation::Operation;
use crate::parts::{put_bytes, put_u16};
use nl_frame::{BuildError, Builder, Family, FamilyHead, PutMessage};
use nl_route::{NDA_DST, NDA_LLADDR, NDA_VLAN, NeighHead};

/// A request to add, change or delete a neighbour.
///
/// The operations are `Add`, `Replace`, `Change`, `Append` and `Delete`. ip(8) sends the state
/// `NUD_PERMANENT`, 128, where none is given.
#[derive(Clone, Copy, Debug, Default)]
pub struct NeighRequest<'a> {
    /// `ndm_family`: 2 for IPv4, 7 for an entry of a bridge, 10 for IPv6.
    pub family: u8,
    /// `ndm_ifindex`: the index of the interface.
    pub index: i32,
    /// `ndm_state`: the `NUD` bits.
    pub state: u16,
    /// `ndm_flags`: the `NTF` bits.
    pub flags: u8,
    /// `NDA_DST`: the network address, in network byte order.
    pub destination: Option<&'a [u8]>,
    /// `NDA_LLADDR`: the link-layer address.
    pub link_address: Option<&'a [u8]>,
    /// `NDA_VLAN`: the VLAN of a bridge's entry.
    pub vlan: Option<u16>,
}

impl NeighRequest<'_> {
    /// The header of its message, `ndmsg`.
    fn head(&self) -> NeighHead
        ensures { result ≡ neigh_head self.now }
    {
        NeighHead {
            family: self.family,
            ifindex: self.index,
            state: self.state,
            flags: self.flags,
            sort: 0,
        }
    }

    /// Writes the message of this request into `out`, the slice of `builder`.
    /// `seq` is its sequence number, and its port id is 0.
    ///
    /// The attributes are `NDA_DST`, `NDA_LLADDR` and `NDA_VLAN`, those that are set.
    ///
    /// The error is the builder's: a message is open, an attribute is too long, or there is no
    /// room in the slice or below the datagram limit. The builder keeps its first error.
    pub fn put(
        &self,
        operation: Operation,
        seq: u32,
        builder: &mut Builder,
        out: &mut [u8],
    ) -> Result<(), BuildError>
        requires fits { builder.old.len ≤ length out.old }
        ensures built { over builder.new out.new ≡ with_message (over builder.old out.old)
            (neigh_message self.now operation seq (order_of (over builder.old out.old))) }
        ensures answer { result ≡ answer builder.new.refusal }
        // The builder holds what it held, and this message behind it.
        ensures puts { OnOk result ((d : Draft) (L : Bounds) → Holds L (over builder.old out.old) d
            → Holds L (over builder.new out.new) (and_message d
            (neigh_message self.now operation seq (order_of (over builder.old out.old))))) }
        ensures fits { builder.new.len ≤ length out.new }
    {
        let order = builder.order();
        let kind = operation.type_of(Family::Neigh);
        let head = FamilyHead::Neigh(self.head());
        let _ = builder.begin(out, kind, operation.flags(), seq, 0, &head);
        let _ = put_bytes(builder, out, NDA_DST, self.destination);
        let _ = put_bytes(builder, out, NDA_LLADDR, self.link_address);
        let _ = put_u16(builder, out, NDA_VLAN, self.vlan, order);
        builder.end(out)
    }
}

impl PutMessage for Asked<'_, NeighRequest<'_>> {
    ghost message = { λ a. neigh_message a.request.now a.operation a.seq };

    fn put(&self, builder: &mut Builder, out: &mut [u8]) -> Result<(), BuildError> {
        self.request.put(self.operation, self.seq, builder, out)
    }
}
