//! Bytes that are answered in a buffer of C's.

ghost use Rattle.std.specs.Prelude.{◌≡◌, ◌≤◌, ◌++◌, length, drop, option_copied};
ghost use Rattle.nl_dump.specs.Request.{request_of};
ghost use Rattle.rtnl_c.specs.Codes.{nothing_there};
ghost use Rattle.rtnl_c.specs.Put.{IsPut, PutsFound, not_put};

use crate::codes::{END, NO_ROOM};
use nl_attr::Order;
use nl_dump::Dump;

/// How many bytes were put into a buffer: `struct rtnlc_put` of include/rtnlc.h.
#[repr(C)]
#[derive(Clone, Copy)]
pub struct Put {
    /// How many bytes there are, also where the buffer has less room; 0 where there are none.
    pub len: usize,
    /// 0 where they were put; 17 where the buffer has less room, else why there are none.
    pub code: u8,
}

impl Put {
    /// The answer where there are no bytes: the error of this number.
    pub(crate) fn none(code: u8) -> Put
        ensures { result ≡ not_put code }
    {
        Put { len: 0, code }
    }

    /// Puts bytes at the front of a buffer, where it has room for them.
    pub(crate) fn all(bytes: &[u8], out: &mut [u8]) -> Put
        ensures { IsPut bytes.now out.old out.new result }
    {
        let len = bytes.len();
        if out.len() < len {
            return Put { len, code: NO_ROOM };
        }
        lay(bytes, out);
        Put { len, code: 0 }
    }

    /// Puts what was found at the front of a buffer, where that has room for it.
    pub(crate) fn found(bytes: Option<&[u8]>, out: &mut [u8]) -> Put
        ensures { PutsFound (option_copied bytes.entry) nothing_there out.old out.new result }
    {
        match bytes {
            Some(bytes) => Put::all(bytes, out),
            None => Put::none(END),
        }
    }

    /// Puts bytes at the front of a buffer, and others right behind them, where it has room for all.
    pub(crate) fn both(front: &[u8], rest: &[u8], out: &mut [u8]) -> Put
        ensures { IsPut (front.now ++ rest.now) out.old out.new result }
    {
        let len = front.len() + rest.len();
        if out.len() < len {
            return Put { len, code: NO_ROOM };
        }
        lay(front, out);
        lay(rest, &mut out[front.len()..]);
        Put { len, code: 0 }
    }

    /// Puts the request of a dump at the front of a buffer, where it has room for it.
    pub(crate) fn request(dump: &Dump, order: Order, out: &mut [u8]) -> Put
        ensures { IsPut (request_of order dump.now) out.old out.new result }
    {
        match dump.put_request(order, out) {
            Ok(len) => Put { len, code: 0 },
            Err(len) => Put { len, code: NO_ROOM },
        }
    }
}

/// Puts bytes at the front of a buffer that has room for them.
pub(crate) fn lay(bytes: &[u8], out: &mut [u8])
    requires { length bytes.now ≤ length out.old }
    ensures { out.new ≡ bytes.now ++ drop (length bytes.now) out.old }
{
    out[..bytes.len()].copy_from_slice(bytes);
}
