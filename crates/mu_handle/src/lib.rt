//! What a C program holds of a judge or of an engine: a pointer that it neither reads nor writes.
#![tactic(auto)]

mod handle;
mod holding;
mod parts;

pub use handle::Handle;
pub use holding::Held;
