//! `rtnlc_message_at`, `rtnlc_attr_at` and `rtnlc_hop_at`: the header at one offset of a datagram
//! or a region. No call here takes memory.

ghost use Rattle.std.specs.Prelude.{◌≡◌, ◌≤◌, ◌<◌, length};
ghost use Rattle.nl_attr.specs.Fixed as fixed;
ghost use Rattle.rtnl_c.specs.Cursors.{AttrStands, HopStands, MessageStands};
ghost use Rattle.rtnl_c.specs.Cursors.{no_attr, no_hop, no_message};
ghost use Rattle.rtnl_c.specs.Options.{order_in};

use crate::codes::{END, TOO_LARGE};
use crate::options::order;
use nl_attr::{LONGEST_REGION, attr_at, hop_at};
use nl_frame::message_at;

/// The message at an offset: `struct rtnlc_message` of include/rtnlc.h.
#[repr(C)]
#[derive(Clone, Copy)]
pub struct MessageAt {
    /// The offset that was asked for.
    pub place: u32,
    /// The offset of the next message; `place` where there is no message here.
    pub next: u32,
    /// The length of its body in bytes. The body begins at `place + 16`.
    pub len: u32,
    pub seq: u32,
    pub port: u32,
    pub kind: u16,
    pub flags: u16,
    /// 0 where a message is here, else the error's number.
    pub code: u8,
}

/// The attribute at an offset: `struct rtnlc_attr` of include/rtnlc.h.
#[repr(C)]
#[derive(Clone, Copy)]
pub struct AttrAt {
    /// The offset that was asked for.
    pub place: u32,
    /// The offset of the next attribute; `place` where there is no attribute here.
    pub next: u32,
    /// The length of its payload in bytes. The payload begins at `place + 4`.
    pub len: u32,
    /// Its type without the two flag bits.
    pub number: u16,
    pub nested: bool,
    pub net: bool,
    /// 0 where an attribute is here, else the error's number.
    pub code: u8,
}

/// The next hop at an offset: `struct rtnlc_hop` of include/rtnlc.h.
#[repr(C)]
#[derive(Clone, Copy)]
pub struct HopAt {
    /// The offset that was asked for.
    pub place: u32,
    /// The offset of the next one; `place` where there is no next hop here.
    pub next: u32,
    /// The length of its attributes in bytes. They begin at `place + 8`.
    pub len: u32,
    pub ifindex: i32,
    pub flags: u8,
    pub hops: u8,
    /// 0 where a next hop is here, else the error's number.
    pub code: u8,
}

/// The answer where there is no message.
fn message_none(place: u32, code: u8) -> MessageAt
    ensures { result ≡ no_message place code }
{
    MessageAt {
        place,
        next: place,
        len: 0,
        seq: 0,
        port: 0,
        kind: 0,
        flags: 0,
        code,
    }
}

/// The answer where there is no attribute.
fn attr_none(place: u32, code: u8) -> AttrAt
    ensures { result ≡ no_attr place code }
{
    AttrAt {
        place,
        next: place,
        len: 0,
        number: 0,
        nested: false,
        net: false,
        code,
    }
}

/// The answer where there is no next hop.
fn hop_none(place: u32, code: u8) -> HopAt
    ensures { result ≡ no_hop place code }
{
    HopAt {
        place,
        next: place,
        len: 0,
        ifindex: 0,
        flags: 0,
        hops: 0,
        code,
    }
}

/// The message whose header stands at a place of a datagram; 255 at the end and behind it, 6 where
/// the datagram is above 1,048,576 bytes.
#[unsafe(no_mangle)]
pub extern "C" fn rtnlc_message_at(bytes: &[u8], place: u32, big: bool) -> MessageAt
    ensures stands { length bytes.now ≤ fixed.LONGEST_REGION
        → MessageStands (order_in big) bytes.now place result }
    ensures large { fixed.LONGEST_REGION < length bytes.now → result ≡ no_message place 6 }
{
    if bytes.len() > LONGEST_REGION {
        return message_none(place, TOO_LARGE);
    }
    match message_at(bytes, place, order(big)) {
        None => message_none(place, END),
        Some(Err(fault)) => message_none(place, fault.code()),
        Some(Ok(frame)) => MessageAt {
            place,
            next: place + frame.span,
            len: frame.payload.len() as u32,
            seq: frame.header.seq,
            port: frame.header.port,
            kind: frame.header.kind,
            flags: frame.header.flags,
            code: 0,
        },
    }
}

/// The attribute whose header stands at a place of a region; 255 at the end and behind it, 6 where
/// the region is above 1,048,576 bytes.
#[unsafe(no_mangle)]
pub extern "C" fn rtnlc_attr_at(bytes: &[u8], place: u32, big: bool) -> AttrAt
    ensures stands { length bytes.now ≤ fixed.LONGEST_REGION
        → AttrStands (order_in big) bytes.now place result }
    ensures large { fixed.LONGEST_REGION < length bytes.now → result ≡ no_attr place 6 }
{
    if bytes.len() > LONGEST_REGION {
        return attr_none(place, TOO_LARGE);
    }
    match attr_at(bytes, place, order(big)) {
        None => attr_none(place, END),
        Some(Err(fault)) => attr_none(place, fault.code()),
        Some(Ok(part)) => AttrAt {
            place,
            next: place + part.span,
            len: part.payload.len() as u32,
            number: part.number,
            nested: part.flags.nested,
            net: part.flags.net,
            code: 0,
        },
    }
}

/// The next hop whose header stands at a place of a region; 255 at the end and behind it, 6 where
/// the region is above 1,048,576 bytes.
#[unsafe(no_mangle)]
pub extern "C" fn rtnlc_hop_at(bytes: &[u8], place: u32, big: bool) -> HopAt
    ensures stands { length bytes.now ≤ fixed.LONGEST_REGION
        → HopStands (order_in big) bytes.now place result }
    ensures large { fixed.LONGEST_REGION < length bytes.now → result ≡ no_hop place 6 }
{
    if bytes.len() > LONGEST_REGION {
        return hop_none(place, TOO_LARGE);
    }
    match hop_at(bytes, place, order(big)) {
        None => hop_none(place, END),
        Some(Err(fault)) => hop_none(place, fault.code()),
        Some(Ok(part)) => HopAt {
            place,
            next: place + part.span,
            len: part.rest.len() as u32,
            ifindex: part.ifindex,
            flags: part.flags,
            hops: part.hops,
            code: 0,
        },
    }
}
