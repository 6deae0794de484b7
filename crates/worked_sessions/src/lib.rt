//! Sessions of a live engine, call by call: replicas stop and pause meanwhile, the replies are those
//! of a store of a few lines, and a judge of its own finds the events legal.
#![tactic(auto)]

#[cfg(test)]
mod chance;
#[cfg(test)]
mod playing;
#[cfg(test)]
mod sessions;
#[cfg(test)]
mod store;
