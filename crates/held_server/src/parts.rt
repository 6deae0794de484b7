//! A box taken apart, so that its pointer can be kept elsewhere.
ghost use Rattle.std.specs.Prelude.{◌≡◌};
ghost use Rattle.std.specs.Box.Ownership.{box_owns};

use std::alloc::Allocator;
use std::marker::Model;

/// What a box is made of. It owns what the box owned.
pub struct Parts<T, A: Allocator> {
    /// The place of the value.
    pub(crate) at: *mut T,
    /// The allocator that gave its block.
    pub(crate) alloc: A,
    // The value.
    pub ghost value: { T },
}

impl<T, A: Allocator> Model for Parts<T, A> {
    ghost also_owns = { λ p. box_owns (A.dealloc_token p.alloc) T.row p.at p.value };
}

impl<T, A: Allocator> Parts<T, A> {
    /// The parts of a box.
    pub(crate) fn of(value: Box<T, A>) -> Parts<T, A>
    where
        T: Drop,
        ensures { result.value ≡ value.value }
    {
        let (at, alloc) = Box::into_raw_with_allocator(value);
        Parts { at, alloc }
    }

    /// The box of these parts.
    pub(crate) fn into_box(self) -> Box<T, A>
        ensures { result.value ≡ self.value }
    {
        let Parts { at, alloc } = self;
        unsafe { Box::from_raw(alloc, at) }
    }
}
