//! The first caller: what a recording in memory says of links.

ghost use Rattle.std.specs.Prelude.{◌≡◌, ◌<◌, ℕ, length, Err};
ghost use Rattle.rtnl.specs.Lines.{datagrams};

use crate::datagrams::mtu_of;
use nl_frame::{Body, Limits, Message, ReadError, read_datagram};
use rtnl::{LONGEST_INPUT, RunError, datagrams};
use std::alloc::{AllocError, Global};
use thiserror::Error;

/// Why the links of a recording are not answered.
#[derive(Clone, Copy, Debug, PartialEq, Eq, Error)]
pub enum LinksError {
    /// The recording has a bad line, or is too long.
    #[error("{0}")]
    Recording(RunError),
    /// A datagram was refused.
    #[error("{0}")]
    Datagram(ReadError),
    /// Memory ran out.
    #[error("out of memory")]
    Memory,
}

impl From<AllocError> for LinksError {
    ghost use Rattle.rtnl_uses.specs.declared.links.LinksError.TheVariants.{Memory};

    ghost from_gives = { λ _ e. e ≡ Memory };

    fn from(_error: AllocError) -> LinksError {
        LinksError::Memory
    }
}

/// Adds the name and the MTU of each link in messages.
fn push_links(
    alloc: Global,
    links: &mut Vec<(Vec<u8>, Option<u32>)>,
    messages: &[Message],
    limits: &Limits,
) -> Result<(), AllocError> {
    for message in messages {
        if let Body::Link(link) = &message.body {
            let name = Vec::from_slice(alloc, link.name().unwrap_or(b"?"))?;
            links.push((name, mtu_of(link, limits)))?;
        }
    }
    Ok(())
}

/// The names and the MTUs of the links in a recording in memory, in order.
pub fn links_of(
    alloc: Global,
    recording: &[u8],
    limits: &Limits,
) -> Result<Vec<(Vec<u8>, Option<u32>)>, LinksError>
    // A bad line is the first one of the recording.
    ensures bad_line { (number : ℕ) → result ≡ Err (LinksError.Recording (RunError.BadLine number))
        → datagrams recording.now ≡ Err number }
    // It is a read fault only where the recording is too long.
    ensures read_fault { result ≡ Err (LinksError.Recording RunError.ReadFault)
        → LONGEST_INPUT < length recording.now }
{
    let found = datagrams(alloc, recording).map_err(LinksError::Recording)?;
    let mut links = Vec::new(alloc);
    for datagram in found.iter() {
        let messages = read_datagram(alloc, datagram, limits)
            .into_result()
            .map_err(LinksError::Datagram)?;
        push_links(alloc, &mut links, messages.as_slice(), limits)?;
    }
    Ok(links)
}
