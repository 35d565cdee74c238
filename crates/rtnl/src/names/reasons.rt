//! The names of the rules that a datagram breaks.

ghost use Rattle.std.specs.Prelude.{◌≡◌};
ghost use Rattle.rtnl.specs.Datagrams.{reason_text};

use nl_attr::Reason;

#[tactic(auto, unfolding(crate::specs::Datagrams::reason_text))]
pub(crate) fn reason_name(reason: Reason) -> &'static str
    ensures { result.now ≡ reason_text reason }
{
    match reason {
        Reason::Cut => "cut",
        Reason::BadLength => "bad length",
        Reason::ShortBody => "short body",
        Reason::TooLong => "too long",
        Reason::TooDeep => "too deep",
    }
}
