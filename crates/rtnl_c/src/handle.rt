//! The handle by which C holds a session: `struct rtnlc_session` of include/rtnlc.h.

ghost use Rattle.std.specs.Prelude.{◌≡◌, Option, Some, None, option_map};
ghost use Rattle.std.specs.Coded.{coded_option};
ghost use Rattle.nl_dump.specs.View.{View};
ghost use Rattle.nl_dump.specs.contracts.session.Session as session_type;

use crate::loose::Loose;
use nl_dump::Session;
use std::alloc::Global;
use std::marker::Model;
use std::{mem, ptr};

/// The pointer to a session on the heap, where `made` is true; else it means nothing.
/// C hands it from call to call, and each call has it alone while it runs.
#[repr(C)]
#[derive(Drop)]
pub struct Handle {
    at: *mut u8,
    made: bool,
    ghost session: { Option View } by { coded_option session_type.the_row.coded },
}

impl Model for Handle {
    ghost use Rattle.std.specs.Prelude.{Option};
    ghost use Rattle.nl_dump.specs.View.{View};
    ghost use Rattle.nl_dump.specs.contracts.session.Session as session_type;
    ghost use Rattle.rtnl_c.specs.Held.{held_owns};

    ghost also_owns = { λ h. held_owns session_type.the_row h.made h.at h.session };
}

impl Handle {
    /// The handle of no session.
    pub(crate) fn none() -> Handle
        ensures { result.session ≡ None }
    {
        Handle {
            at: ptr::null_mut(),
            made: false,
        }
    }

    /// The handle of a session by its pointer.
    fn of_loose(session: Loose<Session, Global>) -> Handle
        ensures { result.session ≡ Some session.value }
    {
        let Loose { at, alloc: _ } = session;
        Handle {
            at: at as *mut u8,
            made: true,
        }
    }

    /// The session by its pointer, where there is one.
    fn into_loose(self, alloc: Global) -> Option<Loose<Session, Global>>
        ensures { option_map (λ l. l.value) result ≡ self.session }
    {
        let Handle { at, made } = self;
        if made {
            Some(Loose {
                at: at as *mut Session,
                alloc,
            })
        } else {
            None
        }
    }

    /// The handle of a session.
    pub(crate) fn of(session: Box<Session>) -> Handle
        ensures { result.session ≡ Some session.value }
    {
        Handle::of_loose(Loose::of(session))
    }

    /// Takes the session, where there is one. The handle then has none.
    pub(crate) fn take(&mut self, alloc: Global) -> Option<Box<Session>>
        ensures taken { option_map (λ b. b.value) result ≡ self.old.session }
        ensures after { self.new.session ≡ None }
    {
        let handle = mem::replace(self, Handle::none());
        match handle.into_loose(alloc) {
            Some(session) => Some(session.into_box()),
            None => None,
        }
    }
}

/// What is answered of what a handle holds, which is taken out of it for the while; or what is
/// answered where it holds nothing.
macro_rules! of_held {
    ($handle:ident: $Handle:ident, $alloc:ident, $held:ident => $answer:expr, $none:expr) => {
        match $handle.take($alloc) {
            None => $none,
            Some(taken) => {
                let mut $held = taken;
                let answer = $answer;
                *$handle = $Handle::of($held);
                answer
            }
        }
    };
}

pub(crate) use of_held;

/// The same where a message type names one family; or what `$none` makes of the error's number,
/// `$code` where the handle holds nothing.
macro_rules! of_family {
    ($handle:ident: $Handle:ident, $alloc:ident, $message_type:ident,
        ($held:ident, $kind:ident) => $answer:expr, $none:path, $code:ident) => {
        $crate::handle::of_held!(
            $handle: $Handle, $alloc,
            $held => match $crate::kinds::family_of($message_type) {
                Some($kind) => $answer,
                None => $none($crate::codes::NO_KIND),
            },
            $none($code)
        )
    };
}

pub(crate) use of_family;
