//! Events: the records that a scan puts into a buffer, one for each header.

ghost use Rattle.std.specs.Prelude.{◌≡◌, length, slice_set};
ghost use Rattle.nl_attr.specs.Taped.{HasRoom};

/// `Event::sort` of a message.
pub const SORT_MESSAGE: u8 = 0;
/// `Event::sort` of an attribute that holds bytes.
pub const SORT_BYTES: u8 = 1;
/// `Event::sort` of an attribute that holds attributes.
pub const SORT_LIST: u8 = 2;
/// `Event::sort` of an attribute that holds next hops, `RTA_MULTIPATH`.
pub const SORT_HOPS: u8 = 3;
/// `Event::sort` of a next hop.
pub const SORT_NEXT_HOP: u8 = 4;

/// The record of one header that a scan visited: of a message (`nlmsghdr`, netlink(7)), an
/// attribute (`rtattr`, rtnetlink(7)) or a next hop (`rtnexthop`). It has 16 bytes.
#[repr(C)]
#[derive(Clone, Copy, Debug, PartialEq, Eq, Hash)]
pub struct Event {
    /// The offset of the header, in bytes from where the scan began, plus the `base` of the call.
    pub place: u32,
    /// The length of the payload behind the header, in bytes, without padding.
    pub len: u32,
    /// The type of a message, or that of an attribute without its two flag bits, below 16,384; 0
    /// for a next hop.
    pub number: u16,
    /// The nesting level: 0 for a message, and for the attributes of its body. A nested list is
    /// one level further down. So are next hops, and their attributes are two.
    pub level: u8,
    /// The header's kind, and what an attribute holds: `SORT_MESSAGE`, `SORT_BYTES`, `SORT_LIST`,
    /// `SORT_HOPS` or `SORT_NEXT_HOP`.
    pub sort: u8,
    /// `NLA_F_NESTED` of an attribute, 0x8000 of its type; false for others.
    pub nested: bool,
    /// `NLA_F_NET_BYTEORDER` of an attribute, 0x4000 of its type; false for others.
    pub net: bool,
}

/// Whether a buffer is known to be long enough for all events of a scan.
#[derive(Clone, Copy, Debug, PartialEq, Eq)]
pub enum Room {
    /// It has an entry for every four bytes that are left, so no put tests the index.
    Ample,
    /// It may be too short, so each put tests the index.
    Unknown,
}

impl Event {
    /// Stores the event at index `at` of a buffer. It does nothing where the buffer is too short.
    #[inline(always)]
    pub fn put(self, out: &mut [Event], at: usize)
        ensures { out.new ≡ slice_set out.old at self }
    {
        if at < out.len() {
            out[at] = self;
        }
    }

    /// Stores the event as `put` does. Where `room` is `Ample` it doesn't test the index.
    #[inline(always)]
    pub fn put_in(self, out: &mut [Event], at: usize, room: Room)
        requires { HasRoom room at 4 (length out.old) }
        ensures { out.new ≡ slice_set out.old at self }
    {
        match room {
            Room::Ample => out[at] = self,
            Room::Unknown => self.put(out, at),
        }
    }
}
