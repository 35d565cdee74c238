//! A line whose end has not come.

use std::alloc::{AllocError, Global};
use std::marker::Model;

/// The longest line that is followed, in bytes. It is as long as an input that the other commands
/// take, so that each line of theirs is followed.
pub const LONGEST_LINE: usize = 16_777_216;

/// The front of a line whose end has not come; of a line that is too long nothing is kept.
#[derive(Drop)]
pub(crate) struct Unfinished {
    bytes: Vec<u8>,
    is_too_long: bool,
}

impl Model for Unfinished {
    ghost use Rattle.std.specs.Prelude.{◌≤◌, ℕ, List, length, Option, Some, None, if◌then◌else◌};

    ghost Value = { Option (List ℕ) };

    ghost view = { λ u. if u.is_too_long then None else Some u.bytes.items };

    ghost invariant = { λ u. length u.bytes.items ≤ 16777216 };
}

impl Unfinished {
    ghost use Rattle.std.specs.Prelude.{◌≡◌, ◌≤◌, [], length, Some, OnOk, IfSome};
    ghost use Rattle.std.specs.Option.{option_copied};
    ghost use Rattle.rtnl.specs.Followed.{with_part};

    /// A line of which nothing has come.
    pub(crate) fn new(alloc: Global) -> Unfinished
        ensures { result ≡ Some [] }
    {
        Unfinished {
            bytes: Vec::new(alloc),
            is_too_long: false,
        }
    }

    /// What has come of the line, where it is not too long.
    pub(crate) fn line(&self) -> Option<&[u8]>
        ensures { option_copied result ≡ self.now }
    {
        if self.is_too_long {
            None
        } else {
            Some(self.bytes.as_slice())
        }
    }

    /// A part more of the line has come.
    pub(crate) fn push(&mut self, part: &[u8]) -> Result<(), AllocError>
        ensures { OnOk result (self.new ≡ with_part self.old part.now) }
    {
        if self.is_too_long {
            return Ok(());
        }
        if part.len() > LONGEST_LINE - self.bytes.len() {
            self.is_too_long = true;
            self.bytes.clear();
            return Ok(());
        }
        self.bytes.extend_from_slice(part)
    }

    /// The line has ended, and of the next one nothing has come.
    pub(crate) fn clear(&mut self)
        ensures { self.new ≡ Some [] }
    {
        self.is_too_long = false;
        self.bytes.clear();
    }
}
