//! The header of a message, `nlmsghdr` of netlink(7).

ghost use Rattle.std.specs.Prelude.{◌≡◌, ◌≤◌, ◌+◌, ◌++◌, length, vec_len, vec_capacity};
ghost use Rattle.nl_route.specs.Fields.{AreRanged, written};
ghost use Rattle.nl_frame.specs.Header.{header_of, header_fields};

use nl_attr::{Order, append_bytes};

/// A message's header, `nlmsghdr`: 16 bytes. `len` counts header and payload in bytes, without
/// padding. The others are type, flags, sequence number and port id, `nlmsg_pid`.
#[derive(Clone, Copy, Debug, PartialEq, Eq, Hash)]
pub struct Header {
    pub len: u32,
    pub kind: u16,
    pub flags: u16,
    pub seq: u32,
    pub port: u32,
}

impl Header {
    /// Decodes the header in the first 16 bytes.
    pub(crate) fn read(bytes: &[u8], order: Order) -> Header
        requires { 16 ≤ length bytes.now }
        ensures { result ≡ header_of order bytes.now }
    {
        Header {
            len: order.read_u32(bytes),
            kind: order.read_u16(&bytes[4..]),
            flags: order.read_u16(&bytes[6..]),
            seq: order.read_u32(&bytes[8..]),
            port: order.read_u32(&bytes[12..]),
        }
    }

    /// Encodes the header in this byte order.
    pub fn bytes(self, order: Order) -> [u8; 16]
        ensures { result ≡ written order (header_fields self) }
    {
        let mut bytes = [0; 16];
        bytes[..4].copy_from_slice(&order.u32_bytes(self.len));
        bytes[4..6].copy_from_slice(&order.u16_bytes(self.kind));
        bytes[6..8].copy_from_slice(&order.u16_bytes(self.flags));
        bytes[8..12].copy_from_slice(&order.u32_bytes(self.seq));
        bytes[12..].copy_from_slice(&order.u32_bytes(self.port));
        bytes
    }

    /// Appends the 16 bytes of the header. It takes no memory.
    pub(crate) fn put(self, order: Order, out: &mut Vec<u8>)
        requires { vec_len out.old + 16 ≤ vec_capacity out.old }
        ensures items { out.new.items ≡ out.old.items ++ written order (header_fields self) }
        ensures len { vec_len out.new ≡ vec_len out.old + 16 }
        ensures room { vec_capacity out.old ≤ vec_capacity out.new }
        // Each number is in the range of its field.
        ensures ranged { AreRanged (header_fields self) }
    {
        append_bytes(out, &self.bytes(order));
    }
}
