//! `Gateway`: the address of a next hop's gateway.

ghost use Rattle.std.specs.Prelude.{◌≡◌, ◌<◌, length, MatchOption, []};
ghost use Rattle.nl_request.specs.Gateways.{gateway_bytes};

/// The greatest length of a gateway's address, in bytes: that of IPv6.
const LONGEST_ADDRESS: usize = 16;

/// The address of a gateway, up to 16 bytes in network byte order, or no address, which is the
/// default.
///
/// It has the layout of a C struct. A length above 16, which C may have written, counts as 16.
#[repr(C)]
#[derive(Clone, Copy, Debug)]
pub struct Gateway {
    len: u8,
    bytes: [u8; LONGEST_ADDRESS],
}

impl Gateway {
    /// The gateway with this address: 4 bytes for IPv4, 16 for IPv6, or 0 for no gateway. `None`
    /// for more than 16 bytes.
    pub fn new(address: &[u8]) -> Option<Gateway>
        ensures { MatchOption result (16 < length address.now)
            (λ gateway. gateway_bytes gateway ≡ address.now) }
    {
        let len = address.len();
        if len > LONGEST_ADDRESS {
            return None;
        }
        let mut bytes = [0; LONGEST_ADDRESS];
        bytes[..len].copy_from_slice(address);
        Some(Gateway {
            len: len as u8,
            bytes,
        })
    }

    /// The address; empty where there is no gateway.
    pub fn address(&self) -> &[u8]
        ensures { result.now ≡ gateway_bytes self.now }
    {
        let len = (self.len as usize).min(LONGEST_ADDRESS);
        &self.bytes[..len]
    }
}

/// No gateway.
impl Default for Gateway {
    ghost is_default = { λ gateway. gateway_bytes gateway ≡ [] };

    fn default() -> Self {
        Gateway {
            len: 0,
            bytes: [0; LONGEST_ADDRESS],
        }
    }
}
