//! `rtnlc_request_rule`: the request of a rule.

ghost use Rattle.std.specs.Prelude.{◌≡◌};
ghost use Rattle.nl_request.specs.Rule.{rule_message};
ghost use Rattle.rtnl_c.specs.ChangeRequests.{IsPutAlone, Puts, rule_in};

use crate::change_requests::{prefix, put_asked, some};
use crate::put::Put;
use nl_request::RuleRequest;

/// The fields of a request, as C hands them in: `struct rtnlc_rule_request` of include/rtnlc.h.
/// Empty bytes mean that a field isn't set, as does a `has_x` that is false for its `x`.
#[repr(C)]
#[derive(Clone, Copy)]
pub struct RuleFields<'a> {
    pub source: &'a [u8],
    pub destination: &'a [u8],
    pub iif: &'a [u8],
    pub oif: &'a [u8],
    pub table: u32,
    pub mark: u32,
    pub mask: u32,
    pub target: u32,
    pub suppress_prefix_length: u32,
    pub priority: u32,
    pub has_mark: bool,
    pub has_mask: bool,
    pub has_target: bool,
    pub has_suppress_prefix_length: bool,
    pub has_priority: bool,
    pub invert: bool,
    pub family: u8,
    pub source_length: u8,
    pub destination_length: u8,
    pub tos: u8,
    pub action: u8,
}

impl<'a> RuleFields<'a> {
    /// The request with these fields.
    fn request(&self) -> RuleRequest<'a>
        ensures { result ≡ rule_in self.now }
    {
        RuleRequest {
            family: self.family,
            source: prefix(self.source, self.source_length),
            destination: prefix(self.destination, self.destination_length),
            tos: self.tos,
            table: self.table,
            action: self.action,
            invert: self.invert,
            mark: self.has_mark.then_some(self.mark),
            mask: self.has_mask.then_some(self.mask),
            iif: some(self.iif),
            oif: some(self.oif),
            target: self.has_target.then_some(self.target),
            suppress_prefix_length: self
                .has_suppress_prefix_length
                .then_some(self.suppress_prefix_length),
            priority: self.has_priority.then_some(self.priority),
        }
    }
}

/// Puts the request of a rule at the front of `out`, as one message with port id 0.
///
/// Or there are none, and a code: 11 where no operation has the number, with nothing written; 4
/// for an attribute of more than 65,535 bytes; 17 where `out` has less room than the message
/// needs; 6 for a message of more than 65,536 bytes. After a refusal the front of `out` holds what
/// was put before it, and the rest is as it was.
#[unsafe(no_mangle)]
pub extern "C" fn rtnlc_request_rule(
    fields: &RuleFields<'_>,
    asked: u8,
    seq: u32,
    big: bool,
    out: &mut [u8],
) -> Put
    ensures puts { Puts (rule_message (rule_in fields.now)) asked seq big out.old out.new result }
    ensures alone { IsPutAlone (rule_message (rule_in fields.now)) asked seq big out.new result }
{
    put_asked!(fields, asked, seq, big, out)
}
