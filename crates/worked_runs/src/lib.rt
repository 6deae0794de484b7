//! The worked rows of whole runs that only a call can say: jobs, and what the public calls make of
//! them, compared with texts and figures from outside. What the program can say is in `cases/`.
#![tactic(auto)]

#[cfg(test)]
mod desks;
#[cfg(test)]
mod list_runs;
#[cfg(test)]
mod orders;
#[cfg(test)]
mod printing;
#[cfg(test)]
mod readers;
#[cfg(test)]
mod replays;
#[cfg(test)]
mod reports;
#[cfg(test)]
mod runs;
