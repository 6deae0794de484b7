//! Room in a list: what is added if there is some, and making it.
ghost use Rattle.std.specs.Prelude.{IfOk, [], length, vec_capacity, ◌++◌, ◌<◌, ◌∷◌, ◌≡◌, ◌≤◌};

use std::alloc::AllocError;

/// Adds an item at the end if there is room. Takes no memory.
#[inline(always)]
pub fn push_within<T: Copy>(items: &mut Vec<T>, item: T)
    ensures items { length items.old.items < vec_capacity items.old
        → items.new.items ≡ items.old.items ++ item ∷ [] }
    ensures room { vec_capacity items.new ≡ vec_capacity items.old }
{
    if items.len() < items.capacity() {
        items.push_reserved(item);
    }
}

/// Makes room for so many items in all. Takes memory if there is less.
pub fn reserve_to<T: Copy>(items: &mut Vec<T>, most: usize) -> Result<(), AllocError>
    ensures items { items.new.items ≡ items.old.items }
    ensures grows { vec_capacity items.old ≤ vec_capacity items.new }
    ensures room { IfOk result (λ done. most ≤ vec_capacity items.new) }
{
    let more = most.saturating_sub(items.len());
    items.reserve(more)
}
