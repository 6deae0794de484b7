//! One replica: its turns and its end.
//!
//! A turn makes the step that the leader, the host, the failure detector or the replayer has due,
//! which the replica may make by its own events; if none is due, it beats.
#![tactic(auto)]

mod adding;
mod again;
mod answers;
mod cycle;
mod deciding;
mod ending;
mod leaving;
mod node;
mod planning;
mod replying;
mod result;
mod showing;
mod taking;
mod turn;
mod watch;
mod zeal;

pub use answers::{Answers, Replies};
pub use deciding::Decision;
pub use node::Node;
pub use result::NodeResult;
pub use turn::Turn;
pub use zeal::Zeal;
