//! The names of bits.

ghost use Rattle.std.specs.Prelude.{◌≡◌, ⊤, map};
ghost use Rattle.rtnl.specs.NamedBits.{bit_names, bit_view};

use crate::names::types::FlagNames;
use bitflags::{Flag, Flags};

/// Which names bits have.
#[derive(Clone, Copy)]
pub(crate) enum Bits {
    Message(FlagNames),
    Link,
    NeighState,
    NeighFlags,
    NextHop,
}

/// A number whose bits have names. Which they are is said by `Bits`, not by its type.
#[derive(Clone, Copy)]
pub(crate) struct Number(pub u32);

impl Flags for Number {
    // The crate bitflags calls the type of the number so: it is not the enum above.
    type Bits = u32;

    ghost exact = { ⊤ };

    ghost set_of = { λ number. number.0 };

    fn flags<'a>() -> &'a [Flag<Number>] {
        &[]
    }

    fn bits(&self) -> u32 {
        self.0
    }

    fn from_bits_retain(bits: u32) -> Number {
        Number(bits)
    }
}

/// The name of a bit, and the bit.
pub(crate) type BitName = Flag<Number>;

/// Writes a table of named bits.
macro_rules! named_bits {
    ($($name:ident = $bit:expr,)*) => {
        &[$(Flag { name: stringify!($name), value: Number($bit) },)*]
    };
}

/// Writes the table of the flags that messages of all types have, and of these behind them.
macro_rules! message_bits {
    ($($name:ident = $bit:expr,)*) => {
        named_bits!(
            REQUEST = 0x1,
            MULTI = 0x2,
            ACK = 0x4,
            ECHO = 0x8,
            DUMP_INTR = 0x10,
            DUMP_FILTERED = 0x20,
            $($name = $bit,)*
        )
    };
}

/// The flags that messages of all types have.
const MESSAGE_FLAGS: &[BitName] = message_bits!();

/// The flags of a message that asks.
const GET_FLAGS: &[BitName] = message_bits!(ROOT = 0x100, MATCH = 0x200, ATOMIC = 0x400,);

/// The flags of a message of something new.
const NEW_FLAGS: &[BitName] = message_bits!(
    REPLACE = 0x100,
    EXCL = 0x200,
    CREATE = 0x400,
    APPEND = 0x800,
);

/// The flags of an answer with a code.
const ERROR_FLAGS: &[BitName] = message_bits!(CAPPED = 0x100, ACK_TLVS = 0x200,);

/// The flags of a link.
const LINK_FLAGS: &[BitName] = named_bits!(
    UP = 0x1,
    BROADCAST = 0x2,
    DEBUG = 0x4,
    LOOPBACK = 0x8,
    POINTOPOINT = 0x10,
    NOTRAILERS = 0x20,
    RUNNING = 0x40,
    NOARP = 0x80,
    PROMISC = 0x100,
    ALLMULTI = 0x200,
    MASTER = 0x400,
    SLAVE = 0x800,
    MULTICAST = 0x1000,
    PORTSEL = 0x2000,
    AUTOMEDIA = 0x4000,
    DYNAMIC = 0x8000,
    LOWER_UP = 0x10000,
    DORMANT = 0x20000,
    ECHO = 0x40000,
);

/// The states of a neighbour.
const NEIGH_STATES: &[BitName] = named_bits!(
    INCOMPLETE = 0x1,
    REACHABLE = 0x2,
    STALE = 0x4,
    DELAY = 0x8,
    PROBE = 0x10,
    FAILED = 0x20,
    NOARP = 0x40,
    PERMANENT = 0x80,
);

/// The flags of a neighbour.
const NEIGH_FLAGS: &[BitName] = named_bits!(
    USE = 0x1,
    SELF = 0x2,
    MASTER = 0x4,
    PROXY = 0x8,
    EXT_LEARNED = 0x10,
    OFFLOADED = 0x20,
    STICKY = 0x40,
    ROUTER = 0x80,
);

/// The flags of a next hop.
const HOP_FLAGS: &[BitName] = named_bits!(
    DEAD = 0x1,
    PERVASIVE = 0x2,
    ONLINK = 0x4,
    OFFLOAD = 0x8,
    LINKDOWN = 0x10,
    UNRESOLVED = 0x20,
);

/// The names, lowest bit first.
pub(crate) fn bit_names(bits: Bits) -> &'static [BitName]
    ensures { map bit_view result.now ≡ bit_names bits }
{
    match bits {
        Bits::Message(FlagNames::Common) => MESSAGE_FLAGS,
        Bits::Message(FlagNames::Get) => GET_FLAGS,
        Bits::Message(FlagNames::New) => NEW_FLAGS,
        Bits::Message(FlagNames::Error) => ERROR_FLAGS,
        Bits::Link => LINK_FLAGS,
        Bits::NeighState => NEIGH_STATES,
        Bits::NeighFlags => NEIGH_FLAGS,
        Bits::NextHop => HOP_FLAGS,
    }
}
