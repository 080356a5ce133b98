// The pointer in a handle.
ghost use Rattle.std.specs.Prelude.{◌≡◌, ◌≢◌};
ghost use Rattle.std.specs.declared.option.Option.{Option};
ghost use Rattle.std.specs.declared.option.Option.TheVariants.{None, Some};
ghost use Rattle.cedar_c.specs.declared.handles.held.Held.{Held};
ghost use Rattle.cedar_c.specs.Slots.{slot_coded, slot_owns};

use super::held::Held;
use super::parts::Parts;
use std::alloc::Global;
use std::marker::Model;
use std::ptr::null_mut;

/// A box as a pointer that C may keep, or no box. Its drop frees no box.
#[repr(C)]
#[derive(Drop)]
pub struct Slot {
    ptr: *mut u8,
    alloc: Global,
    pub ghost value: { Option Held } by { slot_coded },
}

impl Model for Slot {
    ghost also_owns = { λ s. slot_owns s.alloc s.ptr s.value };
}

impl Slot {
    /// The null pointer.
    pub fn empty(alloc: Global) -> Slot
        ensures { result.value ≡ None }
    {
        Slot {
            ptr: null_mut(),
            alloc,
        }
    }

    pub fn of_parts(parts: Parts<Held, Global>) -> Slot
        ensures { result.value ≡ Some parts.value }
    {
        let Parts { ptr, alloc } = parts;
        Slot {
            ptr: ptr as *mut u8,
            alloc,
        }
    }

    pub fn into_parts(self) -> Parts<Held, Global>
        requires { self.value ≢ None }
        ensures { Some result.value ≡ self.value }
    {
        let Slot { ptr, alloc } = self;
        Parts {
            ptr: ptr as *mut Held,
            alloc,
        }
    }
}
