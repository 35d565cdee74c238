//! What a run found.

ghost use Rattle.std.specs.Prelude.{◌≡◌};

/// What a run found about the datagrams that it went through.
#[derive(Clone, Copy, Debug, PartialEq, Eq, Hash)]
#[must_use = "what was refused is told here alone"]
pub enum Verdict {
    /// Nothing was refused.
    Clean,

    /// Something was refused, or a dump is not complete.
    NotClean,
}

impl Verdict {
    ghost use Rattle.rtnl.specs.Runs.{with_one};

    /// This verdict, and a datagram more.
    pub(crate) fn and(self, taken: bool) -> Verdict
        ensures { result ≡ with_one self taken }
    {
        if taken { self } else { Verdict::NotClean }
    }
}
