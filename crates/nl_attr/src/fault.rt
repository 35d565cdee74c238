//! The errors of reading and writing, and `Tally`, a result with the number of bytes visited.
//!
//! Each error has a number, its `code`, which is its number in the C library too.

ghost use Rattle.std.specs.Prelude.{◌≡◌, IsOkAnd, IsErrAnd, MatchResult, Ok, Err};
ghost use Rattle.std.specs.Result.{ForErr, ForOk};

use std::alloc::{AllocError, AllocFailed};
use thiserror::Error;

/// The rule that a header breaks: a message's, an attribute's or a next hop's.
#[derive(Clone, Copy, Debug, PartialEq, Eq, Hash, Error)]
pub enum Reason {
    /// Truncated: fewer bytes are left in the region than a header has.
    #[error("cut")]
    Cut,
    /// The length field is less than the header's size, or more than the bytes that are left.
    #[error("bad length")]
    BadLength,
    /// The payload of a message is shorter than the family header of its type, as `ifinfomsg`.
    #[error("short body")]
    ShortBody,
    /// A nested attribute has more than 65,532 bytes, so its aligned length doesn't fit its field.
    #[error("too long")]
    TooLong,
    /// A nested attribute opens a level beyond the depth limit.
    #[error("too deep")]
    TooDeep,
}

impl Reason {
    ghost use Rattle.nl_attr.specs.Codes.{reason_code};

    /// The error's number: 1 to 5, in the order of the variants.
    pub fn code(self) -> u8
        ensures { result ≡ reason_code self }
    {
        match self {
            Reason::Cut => 1,
            Reason::BadLength => 2,
            Reason::ShortBody => 3,
            Reason::TooLong => 4,
            Reason::TooDeep => 5,
        }
    }
}

/// A header that breaks a rule: the rule, and the header's offset.
#[derive(Clone, Copy, Debug, PartialEq, Eq, Hash, Error)]
#[error("{reason} at {place}")]
pub struct Fault {
    /// The offset of the header, in bytes from where reading began, plus the `base` of the call.
    pub place: u32,
    /// The rule.
    pub reason: Reason,
}

impl Fault {
    ghost use Rattle.nl_attr.specs.Codes.{fault_code};

    /// The error's number: that of its reason.
    pub fn code(self) -> u8
        ensures { result ≡ fault_code self }
    {
        self.reason.code()
    }
}

/// The error of a reading.
#[derive(Clone, Copy, Debug, PartialEq, Eq, Hash, Error)]
pub enum ListError {
    /// A header breaks a rule. It is the first one that does.
    #[error("{0}")]
    Layout(Fault),
    /// An allocation failed. What stands behind the attribute that was read then isn't validated.
    #[error("out of memory")]
    Memory,
}

impl ListError {
    ghost use Rattle.nl_attr.specs.Codes.{list_code};

    /// The error's number: that of the broken rule, or 13 for memory.
    pub fn code(self) -> u8
        ensures { result ≡ list_code self }
    {
        match self {
            ListError::Layout(fault) => fault.code(),
            ListError::Memory => 13,
        }
    }
}

impl From<AllocError> for ListError {
    ghost use Rattle.nl_attr.specs.declared.fault.ListError.TheVariants.{Memory};

    ghost from_gives = { λ _ e. e ≡ Memory };

    fn from(_error: AllocError) -> ListError {
        ListError::Memory
    }
}

impl<T: Drop> From<AllocFailed<T>> for ListError {
    ghost use Rattle.nl_attr.specs.declared.fault.ListError.TheVariants.{Memory};

    ghost from_gives = { λ _ e. e ≡ Memory };

    fn from(_error: AllocFailed<T>) -> ListError {
        ListError::Memory
    }
}

/// The error of a writing. Of several that apply it is the first, in the order of the variants.
#[derive(Clone, Copy, Debug, PartialEq, Eq, Hash, Error)]
pub enum WriteError {
    /// An attribute's type is 16,384 or more. Or its value isn't what its context, type and flags
    /// say that it holds: bytes, attributes or next hops.
    #[error("mismatch")]
    Mismatch,
    /// A nested attribute opens a level beyond the depth limit.
    #[error("too deep")]
    TooDeep,
    /// An attribute or a next hop has more than 65,535 bytes, or a region more than 1,048,576.
    #[error("too long")]
    TooLong,
    /// An allocation failed. All other rules hold.
    #[error("out of memory")]
    Memory,
}

impl WriteError {
    ghost use Rattle.nl_attr.specs.Codes.{write_code};

    /// The error's number: 11, 5, 4 or 13, in the order of the variants.
    pub fn code(self) -> u8
        ensures { result ≡ write_code self }
    {
        match self {
            WriteError::Mismatch => 11,
            WriteError::TooDeep => 5,
            WriteError::TooLong => 4,
            WriteError::Memory => 13,
        }
    }
}

impl From<AllocError> for WriteError {
    ghost use Rattle.nl_attr.specs.declared.fault.WriteError.TheVariants.{Memory};

    ghost from_gives = { λ _ e. e ≡ Memory };

    fn from(_error: AllocError) -> WriteError {
        WriteError::Memory
    }
}

/// The error for a limit out of its range.
#[derive(Clone, Copy, Debug, PartialEq, Eq, Hash, Error)]
#[error("a limit out of its range")]
pub struct LimitFault;

impl LimitFault {
    /// The error's number: 12.
    pub fn code(self) -> u8
        ensures { result ≡ 12 }
    {
        12
    }
}

/// The error of parsing a name: it is none of the known ones.
#[derive(Clone, Copy, Debug, PartialEq, Eq, Hash, Error)]
#[error("unknown name")]
pub struct UnknownName;

/// A call's result, and how many bytes it visited.
///
/// A value of this type can't be dropped, so that no caller forgets to count visits. Take it
/// apart, or call `into_result`.
#[derive(Debug, PartialEq, Eq)]
pub struct Tally<T, E> {
    pub result: Result<T, E>,
    /// The sum of the spans, in bytes, of the attributes and next hops that were visited: those up
    /// to the error, where there is one.
    pub visits: u64,
}

impl<T, E> Tally<T, E> {
    /// The result alone, for callers that don't count visits.
    pub fn into_result(self) -> Result<T, E>
        ensures { result ≡ self.result }
    {
        let Tally { result, visits: _ } = self;
        result
    }

    /// Applies `make` to the value, as `Result::map` does. The visits stay the same.
    pub fn map<U, F: FnOnce(T) -> U>(self, make: F) -> Tally<U, E>
        requires { ForOk self.result (F.pre make) }
        ensures cases { MatchResult self.result
            (λ x. IsOkAnd result.result (F.post make x)) (λ e. result.result ≡ Err e) }
        ensures visits { result.visits ≡ self.visits }
    {
        let Tally { result, visits } = self;
        Tally {
            result: result.map(make),
            visits,
        }
    }

    /// Applies `make` to the error, as `Result::map_err` does. The visits stay the same.
    pub fn map_err<O, F: FnOnce(E) -> O>(self, make: F) -> Tally<T, O>
        requires { ForErr self.result (F.pre make) }
        ensures cases { MatchResult self.result (λ x. result.result ≡ Ok x)
            (λ e. IsErrAnd result.result (F.post make e)) }
        ensures visits { result.visits ≡ self.visits }
    {
        let Tally { visits, result } = self;
        Tally {
            result: result.map_err(make),
            visits,
        }
    }
}
