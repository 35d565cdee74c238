//! `Stale`: the reasons for which a table may differ from the kernel's.

ghost use Rattle.std.specs.Prelude.{◌≡◌};
ghost use Rattle.nl_mirror.specs.Names.{stale_name};

/// Why a table may differ from the kernel's. It stays so until its next complete dump.
#[derive(Clone, Copy, Debug, PartialEq, Eq)]
pub enum Stale {
    /// No dump of it has been complete yet.
    NeverDumped,
    /// The kernel dropped messages: `ENOBUFS` of the socket, or `NLMSG_OVERRUN`.
    Lost,
    /// A datagram was rejected as malformed, or was too large.
    Refused,
    /// There was too little memory to apply a message.
    Memory,
    /// More changes came while a dump was running than may wait for its end.
    Waiting,
    /// Of routes: a link went down or was deleted, or an IPv4 address was deleted. The kernel then
    /// deletes IPv4 routes without a notification.
    Silent,
    /// Of routes: one was replaced or appended, or an IPv6 route was deleted. The message doesn't
    /// say which routes of the table that concerns.
    Unnamed,
    /// The table was full, and missed an entry.
    Full,
}

impl Stale {
    /// Its name, as it is printed.
    pub fn name(self) -> &'static str
        ensures { result.now ≡ stale_name self }
    {
        match self {
            Stale::NeverDumped => "never dumped",
            Stale::Lost => "lost",
            Stale::Refused => "refused",
            Stale::Memory => "memory",
            Stale::Waiting => "waiting",
            Stale::Silent => "silent",
            Stale::Unnamed => "unnamed",
            Stale::Full => "full",
        }
    }
}
