//! What lies behind a handle of C, whatever its kind.
ghost use Rattle.std.specs.Prelude.{◌≡◌, None, Option, Some};
ghost use Rattle.std.specs.Option.{option_map};
ghost use Rattle.art_c.specs.Handles.{coded_behind, owns_behind, held_row};

use crate::held::Held;
use crate::parts::Parts;
use std::alloc::Global;
use std::marker::{Model, Send};
use std::mem;
use std::ptr::null_mut;

/// The address of a boxed map or table, or null where the handle holds none. For contracts what it holds, if
/// anything. The handles of the header are each a `Handle` that holds one kind.
#[repr(C)]
#[derive(Drop)]
pub struct Handle {
    ptr: *mut u8,
    alloc: Global,
    pub ghost held: { Option held_row.Denot } by { coded_behind held_row },
}

impl Model for Handle {
    ghost also_owns = { λ handle. owns_behind held_row handle.alloc handle.ptr handle.held };
}

// What it holds may go to another thread with it.
unsafe impl Send for Handle {}

impl Handle {
    ghost use Rattle.std.specs.Borrow.{sem};
    ghost use Rattle.art_c.specs.Lending.{LendsHeld};

    /// A handle that holds nothing.
    pub(crate) fn empty(alloc: Global) -> Handle
        ensures { result.held ≡ None }
    {
        Handle {
            ptr: null_mut(),
            alloc,
        }
    }

    fn of_parts(parts: Parts<Held, Global>) -> Handle
        ensures { result.held ≡ Some parts.value }
    {
        let Parts { ptr, alloc } = parts;
        Handle {
            ptr: ptr as *mut u8,
            alloc,
        }
    }

    fn into_parts(self) -> Option<Parts<Held, Global>>
        ensures { option_map (λ parts. parts.value) result ≡ self.held }
    {
        let Handle { ptr, alloc } = self;
        if ptr.is_null() {
            None
        } else {
            Some(Parts {
                ptr: ptr as *mut Held,
                alloc,
            })
        }
    }

    /// What lies behind the handle, if anything. The handle itself is not written.
    pub(crate) fn lent_mut(&mut self) -> Option<&mut Held>
        ensures* writes_back { sem 𝓛 (LendsHeld self.entry result) }
        ensures held { option_map (λ held. held.now) result ≡ self.old.held }
    {
        let ptr = self.ptr;
        if ptr.is_null() {
            None
        } else {
            Some(unsafe { &mut *(ptr as *mut Held) })
        }
    }

    /// Takes out what the handle holds, if anything.
    pub(crate) fn take(&mut self, alloc: Global) -> Option<Box<Held>>
        ensures held { option_map (λ held. held.value) result ≡ self.old.held }
        ensures none_left { self.new.held ≡ None }
    {
        let parts = mem::replace(self, Handle::empty(alloc)).into_parts()?;
        Some(parts.into_box())
    }

    /// Gives the handle this to hold.
    pub(crate) fn hold(&mut self, held: Box<Held>)
        ensures { self.new.held ≡ Some held.value }
    {
        *self = Handle::of_parts(Parts::of(held));
    }
}
