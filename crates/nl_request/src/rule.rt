//! Requests that add and delete routing rules, as `ip rule` does (linux/fib_rules.h).

ghost use Rattle.std.specs.Prelude.{◌≡◌, ◌≤◌, OnOk, length};
ghost use Rattle.nl_frame.specs.Building.{answer, order_of};
ghost use Rattle.nl_frame.specs.Calls.{and_message, with_message};
ghost use Rattle.nl_frame.specs.Draft.{Draft, Holds};
ghost use Rattle.nl_frame.specs.Limits.{Bounds};
ghost use Rattle.nl_frame.specs.Parts.{over};
ghost use Rattle.nl_request.specs.Rule.{rule_head, rule_message};

use crate::asked::Asked;
use crate::operation::Operation;
use crate::parts::{put_text, put_u32};
use crate::prefix::{Prefix, length_of, put_prefix};
use crate::table::{put_table, table_byte};
use nl_frame::{BuildError, Builder, Family, FamilyHead, PutMessage};
use nl_route::{
    FRA_DST, FRA_FWMARK, FRA_FWMASK, FRA_GOTO, FRA_IIFNAME, FRA_OIFNAME, FRA_PRIORITY, FRA_SRC,
    FRA_TABLE, RuleHead,
};

/// The attribute of the greatest prefix length of routes that a rule ignores.
const FRA_SUPPRESS_PREFIXLEN: u16 = 14;
/// `FIB_RULE_INVERT` of linux/fib_rules.h, a bit of the header's `flags`.
const FIB_RULE_INVERT: u32 = 2;

/// A request to add or delete a routing rule.
///
/// The operations are `Add` and `Delete`. A rule to add has the action `FR_ACT_TO_TBL`, 1, and a
/// table, or another action and table 0. To delete a rule ip(8) sends the action 0.
#[derive(Clone, Copy, Debug, Default)]
pub struct RuleRequest<'a> {
    /// `family`: 2 for IPv4, 10 for IPv6.
    pub family: u8,
    /// `FRA_SRC` and `src_len`: the source of the packets that match.
    pub source: Option<Prefix<'a>>,
    /// `FRA_DST` and `dst_len`: the destination of the packets that match.
    pub destination: Option<Prefix<'a>>,
    /// `tos`: the type of service.
    pub tos: u8,
    /// The routing table: in the header's `table` up to 255, and in `FRA_TABLE` above.
    pub table: u32,
    /// `action`: what is done with a packet, an `FR_ACT` number.
    pub action: u8,
    /// `FIB_RULE_INVERT`: whether the rule is for the packets that don't match.
    pub invert: bool,
    /// `FRA_FWMARK`: the firewall mark of the packets that match.
    pub mark: Option<u32>,
    /// `FRA_FWMASK`: the bits of the mark that count; all where this is `None`.
    pub mask: Option<u32>,
    /// `FRA_IIFNAME`: the name of the interface that packets come in by, without a zero byte.
    pub iif: Option<&'a [u8]>,
    /// `FRA_OIFNAME`: the name of the interface that packets leave by, without a zero byte.
    pub oif: Option<&'a [u8]>,
    /// `FRA_GOTO`: the priority of the rule to go to, under the action `FR_ACT_GOTO`, 2.
    pub target: Option<u32>,
    /// `FRA_SUPPRESS_PREFIXLEN`: the rule ignores routes whose prefix length is at most this, in
    /// bits.
    pub suppress_prefix_length: Option<u32>,
    /// `FRA_PRIORITY`: the rule's position among the others; the lowest comes first.
    pub priority: Option<u32>,
}

impl RuleRequest<'_> {
    /// The header of its message, `fib_rule_hdr`.
    fn head(&self) -> RuleHead
        ensures { result ≡ rule_head self.now }
    {
        RuleHead {
            family: self.family,
            dst_len: length_of(self.destination),
            src_len: length_of(self.source),
            tos: self.tos,
            table: table_byte(self.table),
            action: self.action,
            flags: if self.invert { FIB_RULE_INVERT } else { 0 },
        }
    }

    /// Writes the message of this request into `out`, the slice of `builder`.
    /// `seq` is its sequence number, and its port id is 0.
    ///
    /// The attributes are `FRA_SRC`, `FRA_DST`, `FRA_FWMARK`, `FRA_FWMASK`, `FRA_IIFNAME`,
    /// `FRA_OIFNAME`, `FRA_TABLE`, `FRA_GOTO`, `FRA_SUPPRESS_PREFIXLEN` and `FRA_PRIORITY`, those
    /// that are set.
    ///
    /// The error is the builder's: a message is open, an attribute is too long, or there is no
    /// room in the slice or below the datagram limit. The builder keeps its first error.
    pub fn put(
        &self,
        operation: Operation,
        seq: u32,
        builder: &mut Builder,
        out: &mut [u8],
    ) -> Result<(), BuildError>
        requires fits { builder.old.len ≤ length out.old }
        ensures built { over builder.new out.new ≡ with_message (over builder.old out.old)
            (rule_message self.now operation seq (order_of (over builder.old out.old))) }
        ensures answer { result ≡ answer builder.new.refusal }
        // What was put is held, and this message behind it.
        ensures puts { OnOk result ((d : Draft) (L : Bounds) → Holds L (over builder.old out.old) d
            → Holds L (over builder.new out.new) (and_message d
            (rule_message self.now operation seq (order_of (over builder.old out.old))))) }
        ensures fits { builder.new.len ≤ length out.new }
    {
        let order = builder.order();
        let kind = operation.type_of(Family::Rule);
        let head = FamilyHead::Rule(self.head());
        let _ = builder.begin(out, kind, operation.flags(), seq, 0, &head);
        let _ = put_prefix(builder, out, FRA_SRC, self.source);
        let _ = put_prefix(builder, out, FRA_DST, self.destination);
        let _ = put_u32(builder, out, FRA_FWMARK, self.mark, order);
        let _ = put_u32(builder, out, FRA_FWMASK, self.mask, order);
        let _ = put_text(builder, out, FRA_IIFNAME, self.iif);
        let _ = put_text(builder, out, FRA_OIFNAME, self.oif);
        let _ = put_table(builder, out, FRA_TABLE, self.table, order);
        let _ = put_u32(builder, out, FRA_GOTO, self.target, order);
        let _ = put_u32(
            builder,
            out,
            FRA_SUPPRESS_PREFIXLEN,
            self.suppress_prefix_length,
            order,
        );
        let _ = put_u32(builder, out, FRA_PRIORITY, self.priority, order);
        builder.end(out)
    }
}

impl PutMessage for Asked<'_, RuleRequest<'_>> {
    ghost message = { λ a. rule_message a.request.now a.operation a.seq };

    fn put(&self, builder: &mut Builder, out: &mut [u8]) -> Result<(), BuildError> {
        self.request.put(self.operation, self.seq, builder, out)
    }
}
