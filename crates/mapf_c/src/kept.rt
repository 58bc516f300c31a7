//! A dispatcher on the heap, or none, whose type names no type of the library. It crosses to C in a `Dispatcher`.
ghost use Rattle.std.specs.Prelude.{◌≡◌, Option, Some, None};
ghost use Rattle.mapf_c.specs.Kept.{kept_coded, kept_owns};
ghost use Rattle.mapf_player.specs.Dispatching.{Progress};

use crate::parts::Parts;
use mapf_player::Dispatch;
use std::alloc::Global;
use std::marker::Model;
use std::ptr::null_mut;

/// The pointer to a dispatcher, which owns it, or the null pointer.
#[repr(C)]
#[derive(Drop)]
pub struct Kept {
    at: *mut u8,
    alloc: Global,
    /// How far the agents of the dispatcher are, if there is one.
    pub ghost progress: { Option Progress } by { kept_coded },
}

impl Model for Kept {
    ghost also_owns = { λ k. kept_owns k.alloc k.at k.progress };
}

impl Kept {
    /// Keeps none.
    pub fn none(alloc: Global) -> Kept
        ensures { result.progress ≡ None }
    {
        Kept {
            at: null_mut(),
            alloc,
        }
    }

    /// Keeps the dispatcher of these parts.
    pub fn of_parts(parts: Parts<Dispatch, Global>) -> Kept
        ensures { result.progress ≡ Some parts.value }
    {
        let Parts { ptr, alloc } = parts;
        Kept {
            at: ptr as *mut u8,
            alloc,
        }
    }

    /// Returns the parts of the dispatcher.
    pub fn into_parts(self) -> Parts<Dispatch, Global>
        requires { (progress : Progress) × (self.progress ≡ Some progress) }
        ensures { Some result.value ≡ self.progress }
    {
        let Kept { at, alloc } = self;
        Parts {
            ptr: at as *mut Dispatch,
            alloc,
        }
    }
}
