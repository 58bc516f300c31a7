//! The handle of a dispatcher, which a caller in C keeps.
ghost use Rattle.std.specs.Prelude.{◌≡◌, Some, None, MatchOption};
ghost use Rattle.mapf_c.specs.Kept.{flag_of};

use crate::kept::Kept;
use crate::parts::Parts;
use mapf_player::Dispatch;
use std::alloc::Global;
use std::mem::replace;

// The flag of a handle that has a dispatcher.
const MADE: u32 = 1;

/// A dispatcher, or none: `mapf_dispatcher` of the header.
#[repr(C)]
#[derive(Drop)]
pub struct Dispatcher {
    pub kept: Kept,
    // 1 if there is one, else 0.
    is_made: u32,
    ghost told: { is_made ≡ flag_of kept.progress },
}

impl Dispatcher {
    /// Returns a handle without a dispatcher.
    pub fn none(alloc: Global) -> Dispatcher
        ensures { result.kept.progress ≡ None }
    {
        Dispatcher {
            kept: Kept::none(alloc),
            is_made: 0,
        }
    }

    /// Returns the handle of this dispatcher.
    pub fn of(dispatch: Box<Dispatch>) -> Dispatcher
        ensures { result.kept.progress ≡ Some dispatch.value }
    {
        Dispatcher {
            kept: Kept::of_parts(Parts::of(dispatch)),
            is_made: MADE,
        }
    }

    /// Takes the dispatcher out of the handle, if there is one.
    pub fn take(&mut self, alloc: Global) -> Option<Box<Dispatch>>
        ensures taken { MatchOption result (self.old.kept.progress ≡ None)
            (λ dispatch. self.old.kept.progress ≡ Some dispatch.value) }
        ensures none { self.new.kept.progress ≡ None }
    {
        let Dispatcher { kept, is_made } = replace(self, Dispatcher::none(alloc));
        if is_made == MADE {
            Some(kept.into_parts().into_box())
        } else {
            None
        }
    }
}
