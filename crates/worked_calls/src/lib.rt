//! The worked rows of the top call that no table of `cases/` can say: reads and writes that fail, and
//! the calls of the library, compared with texts and figures from outside.
#![tactic(auto)]

#[cfg(test)]
mod calling;
#[cfg(test)]
mod calls;
#[cfg(test)]
mod command_lines;
#[cfg(test)]
mod engines;
#[cfg(test)]
mod library;
#[cfg(test)]
mod threads;
