//! What a C program holds of a server.
ghost use Rattle.std.specs.Prelude.{◌≡◌, None, Some};
ghost use Rattle.std.specs.Option.{MatchOption};
ghost use Rattle.std.specs.declared.option.Option.{Option as Maybe};
ghost use Rattle.held_server.specs.declared.holding.Held.{Held as SomeHeld};
ghost use Rattle.held_server.specs.Held.{held_coded, held_owns};

use crate::holding::Held;
use crate::parts::Parts;
use std::alloc::Global;
use std::marker::Model;

/// A server that a C program holds, or nothing: then its pointer is null. It has the
/// bytes of a pointer.
#[repr(C)]
#[derive(Drop)]
pub struct Handle {
    at: *mut u8,
    alloc: Global,
    pub ghost held: { Maybe SomeHeld } by { held_coded },
}

impl Model for Handle {
    ghost also_owns = { λ h. held_owns h.alloc h.at h.held };
}

impl Handle {
    /// A handle that holds nothing.
    pub fn none(alloc: Global) -> Handle
        ensures { result.held ≡ None }
    {
        Handle {
            at: std::ptr::null_mut(),
            alloc,
        }
    }

    /// A handle of what is in this box.
    pub fn of(held: Box<Held>) -> Handle
        ensures { result.held ≡ Some held.value }
    {
        Handle::of_parts(Parts::of(held))
    }

    /// The box of what it holds, if it holds something.
    pub fn into_box(self) -> Option<Box<Held>>
        ensures { MatchOption result (self.held ≡ None) (λ held. self.held ≡ Some held.value) }
    {
        match self.into_parts() {
            Some(parts) => Some(parts.into_box()),
            None => None,
        }
    }

    fn of_parts(parts: Parts<Held, Global>) -> Handle
        ensures { result.held ≡ Some parts.value }
    {
        let Parts { at, alloc } = parts;
        Handle {
            at: at as *mut u8,
            alloc,
        }
    }

    fn into_parts(self) -> Option<Parts<Held, Global>>
        ensures { MatchOption result (self.held ≡ None) (λ parts. self.held ≡ Some parts.value) }
    {
        let Handle { at, alloc } = self;
        if at.is_null() {
            None
        } else {
            Some(Parts {
                at: at as *mut Held,
                alloc,
            })
        }
    }
}

/// What is held is plain data, so a handle may go to another thread.
unsafe impl Send for Handle {}

/// A handle may go to another thread, so it may be given to what asks for that.
pub fn handles_may_cross(handle: Handle) -> Handle
    ensures { result ≡ handle }
{
    crossing(handle)
}

/// What may go to another thread.
fn crossing<T: Send>(value: T) -> T
    ensures { result ≡ value }
{
    value
}
