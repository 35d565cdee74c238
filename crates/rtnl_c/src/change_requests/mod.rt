//! `rtnlc_request_link` and the others: requests that change something. They take no memory.

ghost use Rattle.std.specs.Prelude.{◌≡◌};
ghost use Rattle.rtnl_c.specs.ChangeRequests.{IsAlone, PutsAlone, bytes_in, operation_in};
ghost use Rattle.rtnl_c.specs.ChangeRequests.{prefix_in};
ghost use Rattle.rtnl_c.specs.Options.{order_in};

mod addr;
mod link;
mod neigh;
mod route;
mod rule;

use crate::options::order;
use crate::put::Put;
use nl_frame::{Builder, Limits, PutMessage};
use nl_request::{Operation, Prefix};

/// The code where no operation has the number, that of `BuildError::Mismatch`.
const MISMATCH: u8 = 11;

/// The operation of a number of `enum rtnlc_operation`. `None` where there is no such number.
fn operation(number: u8) -> Option<Operation>
    ensures { result ≡ operation_in number }
{
    match number {
        0 => Some(Operation::Add),
        1 => Some(Operation::Replace),
        2 => Some(Operation::Change),
        3 => Some(Operation::Append),
        4 => Some(Operation::Prepend),
        5 => Some(Operation::Set),
        6 => Some(Operation::Delete),
        _ => None,
    }
}

/// These bytes, or none where there is no byte.
fn some(bytes: &[u8]) -> Option<&[u8]>
    ensures { result ≡ bytes_in bytes.entry }
{
    if bytes.is_empty() { None } else { Some(bytes) }
}

/// The prefix of this address, or none where it has no byte.
fn prefix(address: &[u8], length: u8) -> Option<Prefix<'_>>
    ensures { result ≡ prefix_in address.entry length }
{
    if address.is_empty() {
        return None;
    }
    Some(Prefix { address, length })
}

/// Puts a message at the front of a buffer, as a datagram of its own.
fn put_alone<M: PutMessage>(message: &M, big: bool, out: &mut [u8]) -> Put
    ensures puts { PutsAlone (M.message message.now (order_in big)) (order_in big)
        out.old out.new result }
    ensures alone { IsAlone (M.message message.now (order_in big)) (order_in big) out.new result }
{
    let limits = Limits::standard().with_order(order(big));
    let mut builder = Builder::new(&limits);
    let _ = message.put(&mut builder, out);
    match builder.finish(out) {
        Ok(bytes) => Put {
            len: bytes.len(),
            code: 0,
        },
        Err(refusal) => Put::none(refusal.code()),
    }
}

/// What each call does: it puts the request with these fields, in a message of this operation.
macro_rules! put_asked {
    ($fields:ident, $asked:ident, $seq:ident, $big:ident, $out:ident) => {
        match $crate::change_requests::operation($asked) {
            Some(operation) => {
                let (request, seq) = (&$fields.request(), $seq);
                let asked = nl_request::Asked {
                    request,
                    operation,
                    seq,
                };
                $crate::change_requests::put_alone(&asked, $big, $out)
            }
            None => $crate::put::Put::none($crate::change_requests::MISMATCH),
        }
    };
}

use put_asked;
