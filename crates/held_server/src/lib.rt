//! A server of clients of Redis that a C program holds, by a pointer that it neither reads nor
//! writes; and the calls on it.
#![tactic(auto)]

mod calls;
mod codes;
mod handle;
mod holding;
mod opening;
mod parts;
mod told;

pub use calls::{
    close_connection, connection_state, give_bytes, open_connection, play_rounds, take_bytes,
};
pub use codes::codes_are_stated;
pub use handle::Handle;
pub use opening::{let_go, open_server};
pub use told::{Moved, Told};
