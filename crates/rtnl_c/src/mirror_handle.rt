//! The handle by which C holds a mirror: `struct rtnlc_mirror` of include/rtnlc.h.

ghost use Rattle.std.specs.Prelude.{◌≡◌, Option, Some, None, option_map};
ghost use Rattle.std.specs.Coded.{coded_option};
ghost use Rattle.nl_mirror.specs.Five.{Mirrored};
ghost use Rattle.nl_mirror.specs.contracts.mirror.Mirror as mirror_type;

use crate::loose::Loose;
use nl_mirror::Mirror;
use std::alloc::Global;
use std::marker::Model;
use std::{mem, ptr};

/// The pointer to a mirror on the heap, where `made` is true; else it means nothing.
/// C hands it from call to call, and each call has it alone while it runs.
#[repr(C)]
#[derive(Drop)]
pub struct MirrorHandle {
    at: *mut u8,
    made: bool,
    ghost mirror: { Option Mirrored } by { coded_option mirror_type.the_row.coded },
}

impl Model for MirrorHandle {
    ghost use Rattle.std.specs.Prelude.{Option};
    ghost use Rattle.nl_mirror.specs.Five.{Mirrored};
    ghost use Rattle.nl_mirror.specs.contracts.mirror.Mirror as mirror_type;
    ghost use Rattle.rtnl_c.specs.Held.{held_owns};

    ghost also_owns = { λ h. held_owns mirror_type.the_row h.made h.at h.mirror };
}

impl MirrorHandle {
    /// The handle of no mirror.
    pub(crate) fn none() -> MirrorHandle
        ensures { result.mirror ≡ None }
    {
        MirrorHandle {
            at: ptr::null_mut(),
            made: false,
        }
    }

    /// The handle of a mirror by its pointer.
    fn of_loose(mirror: Loose<Mirror, Global>) -> MirrorHandle
        ensures { result.mirror ≡ Some mirror.value }
    {
        let Loose { at, alloc: _ } = mirror;
        MirrorHandle {
            at: at as *mut u8,
            made: true,
        }
    }

    /// The mirror by its pointer, where there is one.
    fn into_loose(self, alloc: Global) -> Option<Loose<Mirror, Global>>
        ensures { option_map (λ l. l.value) result ≡ self.mirror }
    {
        let MirrorHandle { at, made } = self;
        if made {
            Some(Loose {
                at: at as *mut Mirror,
                alloc,
            })
        } else {
            None
        }
    }

    /// The handle of a mirror.
    pub(crate) fn of(mirror: Box<Mirror>) -> MirrorHandle
        ensures { result.mirror ≡ Some mirror.value }
    {
        MirrorHandle::of_loose(Loose::of(mirror))
    }

    /// Takes the mirror, where there is one. The handle then has none.
    pub(crate) fn take(&mut self, alloc: Global) -> Option<Box<Mirror>>
        ensures taken { option_map (λ b. b.value) result ≡ self.old.mirror }
        ensures after { self.new.mirror ≡ None }
    {
        let handle = mem::replace(self, MirrorHandle::none());
        match handle.into_loose(alloc) {
            Some(mirror) => Some(mirror.into_box()),
            None => None,
        }
    }
}
