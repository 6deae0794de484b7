//! What decides where a replica may put an entry, as those remember it who judge its events: the
//! heads that it read, its puts that landed, how far each log is filled and has what it knows, and
//! where it looked. A leader itself goes by its place in the listing, and keeps none of this.
//!
//! Each state stands for the replica's own events, and is kept up to date event by event.
#![tactic(auto)]

mod filled_logs;
mod heads;
mod landed_puts;
mod looks;
mod naming;
mod region_looks;

pub use filled_logs::FilledLogs;
pub use heads::Heads;
pub use landed_puts::LandedPuts;
pub use looks::Looks;
