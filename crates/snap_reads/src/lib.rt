//! Reads of the store while commands are applied: one writer publishes the rows of commands, and
//! each reader brings a store of its own up to the count that it loads.
#![tactic(auto)]

mod board;
mod keys;
mod living;
mod opening;
mod reader;
mod rule;
mod seen;
mod sight;
mod told;
mod watching;
mod writer;

pub use living::{AllSights, Lived, Sights, live};
pub use opening::{SnapReaders, start};
pub use reader::SnapReader;
pub use rule::View;
pub use seen::Seen;
pub use sight::Sight;
pub use told::Told;
pub use watching::GETS;
pub use writer::SnapWriter;

/// The most readers.
pub const MOST_READERS: u8 = 4;
