//! The worked rows of all crates that only a call can say: figures, lists of events and texts from
//! outside, compared with what the public calls make of them. What the program can say is in
//! `cases/`.
#![tactic(auto)]

#[cfg(test)]
mod bulk_jobs;
#[cfg(test)]
mod event_scripts;
#[cfg(test)]
mod grants;
#[cfg(test)]
mod laws;
#[cfg(test)]
mod memories;
#[cfg(test)]
mod model;
#[cfg(test)]
mod rows;
#[cfg(test)]
mod scores;
#[cfg(test)]
mod shared_ports;
#[cfg(test)]
mod spelled;
#[cfg(test)]
mod store;
#[cfg(test)]
mod streams;
#[cfg(test)]
mod untrue;
#[cfg(test)]
mod verdicts;
#[cfg(test)]
mod words;
