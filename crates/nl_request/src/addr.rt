//! Requests that change addresses, as `ip address` does (linux/if_addr.h).

ghost use Rattle.std.specs.Prelude.{◌≡◌, ◌≤◌, ◌++◌, Some, OnOk, length};
ghost use Rattle.nl_attr.specs.Numbers.{num};
ghost use Rattle.nl_frame.specs.Building.{answer, order_of};
ghost use Rattle.nl_frame.specs.Calls.{and_message, run, with_message};
ghost use Rattle.nl_frame.specs.Draft.{Draft, Holds};
ghost use Rattle.nl_frame.specs.Limits.{Bounds};
ghost use Rattle.nl_frame.specs.Parts.{over};
ghost use Rattle.nl_request.specs.Addr.{addr_head, addr_message, flags_part};
ghost use Rattle.nl_request.specs.Addr.{lifetimes_part, own_part};
ghost use Rattle.nl_request.specs.Parts.{calls_of_part};

use crate::asked::Asked;
use crate::operation::Operation;
use crate::parts::{put_bytes, put_text};
use nl_attr::{NO_FLAGS, Order};
use nl_frame::{BuildError, Builder, Family, FamilyHead, PutMessage};
use nl_route::{AddrHead, IFA_ADDRESS, IFA_BROADCAST, IFA_FLAGS, IFA_LABEL, IFA_LOCAL};

/// The attribute of an address's lifetimes, `ifa_cacheinfo` (linux/if_addr.h).
const IFA_CACHEINFO: u16 = 6;

/// A request to add, change or delete an address.
///
/// The operations are `Add`, `Replace`, `Change` and `Delete`.
#[derive(Clone, Copy, Debug, Default)]
pub struct AddrRequest<'a> {
    /// `ifa_family`: 2 for IPv4, 10 for IPv6.
    pub family: u8,
    /// `ifa_prefixlen`: the prefix length of the address, in bits; or that of `peer`, where it is
    /// set.
    pub prefix_length: u8,
    /// `ifa_scope`: where the address is valid, an `RT_SCOPE` number.
    pub scope: u8,
    /// `ifa_index`: the index of the interface.
    pub index: u32,
    /// The `IFA_F` bits: in `ifa_flags` up to 255, and in `IFA_FLAGS` above.
    pub flags: u32,
    /// `IFA_LOCAL`: the address of the interface, in network byte order; 4 bytes for IPv4, 16 for
    /// IPv6.
    pub local: &'a [u8],
    /// `IFA_ADDRESS`: the address of the other end of a point-to-point link, in network byte
    /// order.
    pub peer: Option<&'a [u8]>,
    /// `IFA_BROADCAST`: the broadcast address, in network byte order.
    pub broadcast: Option<&'a [u8]>,
    /// `IFA_LABEL`: the label, without a zero byte.
    pub label: Option<&'a [u8]>,
    /// `IFA_CACHEINFO`: how long the address is valid, and how long preferred.
    pub lifetimes: Option<Lifetimes>,
}

/// How long an address is preferred and valid, in seconds; 2^32 - 1 is for ever.
#[derive(Clone, Copy, Debug, PartialEq, Eq, Hash)]
pub struct Lifetimes {
    /// `ifa_prefered`, in seconds.
    pub preferred: u32,
    /// `ifa_valid`, in seconds.
    pub valid: u32,
}

impl Lifetimes {
    /// The bytes of `ifa_cacheinfo` with these lifetimes. Its two time stamps are 0: the kernel
    /// sets them.
    fn bytes(self, order: Order) -> [u8; 16]
        ensures { result ≡ num self.preferred 4 order ++ num self.valid 4 order
            ++ num 0 4 order ++ num 0 4 order }
    {
        let mut bytes = [0; 16];
        bytes[..4].copy_from_slice(&order.u32_bytes(self.preferred));
        bytes[4..8].copy_from_slice(&order.u32_bytes(self.valid));
        bytes[8..12].copy_from_slice(&order.u32_bytes(0));
        bytes[12..].copy_from_slice(&order.u32_bytes(0));
        bytes
    }
}

/// Writes `IFA_FLAGS`, where the flags are above 255 and don't fit the header.
fn put_flags(builder: &mut Builder, out: &mut [u8], flags: u32, order: Order)
    requires fits { builder.old.len ≤ length out.old }
    ensures built { over builder.new out.new
        ≡ run (over builder.old out.old) (calls_of_part (flags_part order flags)) }
    ensures fits { builder.new.len ≤ length out.new }
{
    if flags >= 256 {
        let _ = builder.put_u32(out, IFA_FLAGS, NO_FLAGS, flags, order);
    }
}

/// Writes the local address again as `IFA_ADDRESS`, where there is no peer.
fn put_own(builder: &mut Builder, out: &mut [u8], local: &[u8], peer: Option<&[u8]>)
    requires fits { builder.old.len ≤ length out.old }
    ensures built { over builder.new out.new
        ≡ run (over builder.old out.old) (calls_of_part (own_part local.now peer.entry)) }
    ensures fits { builder.new.len ≤ length out.new }
{
    if peer.is_none() {
        let _ = builder.put_bytes(out, IFA_ADDRESS, NO_FLAGS, local);
    }
}

/// Writes `IFA_CACHEINFO`, if any.
fn put_lifetimes(builder: &mut Builder, out: &mut [u8], lifetimes: Option<Lifetimes>, order: Order)
    requires fits { builder.old.len ≤ length out.old }
    ensures built { over builder.new out.new
        ≡ run (over builder.old out.old) (calls_of_part (lifetimes_part order lifetimes)) }
    ensures fits { builder.new.len ≤ length out.new }
{
    if let Some(lifetimes) = lifetimes {
        let _ = builder.put_bytes(out, IFA_CACHEINFO, NO_FLAGS, &lifetimes.bytes(order));
    }
}

impl AddrRequest<'_> {
    /// The header of its message, `ifaddrmsg`.
    fn head(&self) -> AddrHead
        ensures { result ≡ addr_head self.now }
    {
        AddrHead {
            family: self.family,
            prefixlen: self.prefix_length,
            flags: if self.flags < 256 {
                self.flags as u8
            } else {
                0
            },
            scope: self.scope,
            index: self.index,
        }
    }

    /// Writes the message of this request into `out`, the slice of `builder`.
    /// `seq` is its sequence number, and its port id is 0.
    ///
    /// The attributes are `IFA_LOCAL`, `IFA_BROADCAST`, `IFA_LABEL`, `IFA_FLAGS`, `IFA_ADDRESS`
    /// and `IFA_CACHEINFO`, those that are set. `IFA_ADDRESS` is the local address again; that of
    /// a peer stands directly behind `IFA_LOCAL`.
    ///
    /// The error is the builder's: a message is open, an attribute is too long, or there is no
    /// room in the slice or below the datagram limit. The builder keeps its first error.
    pub fn put(
        &self,
        operation: Operation,
        seq: u32,
        builder: &mut Builder,
        out: &mut [u8],
    ) -> Result<(), BuildError>
        requires fits { builder.old.len ≤ length out.old }
        ensures built { over builder.new out.new ≡ with_message (over builder.old out.old)
            (addr_message self.now operation seq (order_of (over builder.old out.old))) }
        ensures answer { result ≡ answer builder.new.refusal }
        // The builder holds what it held, and this message behind it.
        ensures puts { OnOk result ((d : Draft) (L : Bounds) → Holds L (over builder.old out.old) d
            → Holds L (over builder.new out.new) (and_message d
            (addr_message self.now operation seq (order_of (over builder.old out.old))))) }
        ensures fits { builder.new.len ≤ length out.new }
    {
        let order = builder.order();
        let kind = operation.type_of(Family::Addr);
        let head = FamilyHead::Addr(self.head());
        let _ = builder.begin(out, kind, operation.flags(), seq, 0, &head);
        let _ = builder.put_bytes(out, IFA_LOCAL, NO_FLAGS, self.local);
        let _ = put_bytes(builder, out, IFA_ADDRESS, self.peer);
        let _ = put_bytes(builder, out, IFA_BROADCAST, self.broadcast);
        let _ = put_text(builder, out, IFA_LABEL, self.label);
        put_flags(builder, out, self.flags, order);
        put_own(builder, out, self.local, self.peer);
        put_lifetimes(builder, out, self.lifetimes, order);
        builder.end(out)
    }
}

impl PutMessage for Asked<'_, AddrRequest<'_>> {
    ghost message = { λ a. addr_message a.request.now a.operation a.seq };

    fn put(&self, builder: &mut Builder, out: &mut [u8]) -> Result<(), BuildError> {
        self.request.put(self.operation, self.seq, builder, out)
    }
}
