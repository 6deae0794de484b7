//! The executable oracle: what may come next and what it is answered, recomputed from the list of
//! events so far; slow, for tests and tools.
//!
//! The definitions are those of `mu_model`, and each function here is what one of them says.
//! Nothing that a run does stands on this crate: there the same answers come from running states.
#![tactic(auto)]

mod allowing;
mod answering;
mod entering;
mod fetching;
mod hosting;
mod knowledge;
mod leadership;
mod picking;
mod placing;
mod room;
mod scoring;
mod walks;

pub use allowing::allows;
pub use answering::answers;
