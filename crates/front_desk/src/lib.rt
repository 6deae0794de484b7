//! A front desk: clients send their commands at once, and one hand takes them in.
#![tactic(auto)]

mod collecting;
mod line;
mod sending;
mod taking;

pub use collecting::collect;
