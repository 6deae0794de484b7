//! A list of rows in shared words, to which each process puts rows of its own and which all read;
//! and its law: whatever comes between, all read the same rows, each as its writer wrote it.
#![tactic(auto)]

ghost use Rattle.mu_inbox.specs.Entries.{ListGoesOn, OneList};
ghost use Rattle.mu_inbox.specs.Running.{AccessesGoOn, WordsMayStand};
ghost use Rattle.mu_inbox.specs.Shapes.{CellsDiffer};

mod access;
mod inbox;
mod planning;
mod taking;

pub use access::{Access, Cell, Shape, Verb};
pub use inbox::{Inbox, Refusal};
pub use taking::{Came, Untaken};

/// Different words of the list stand at different places of memory.
pub fn cells_differ()
    ensures { CellsDiffer }
{}

/// Over any memory in which each access found what its word held, what was read of a place stands
/// there, and what stands there was put there by its writer, once, and in the order of its rows.
pub fn one_list()
    ensures { OneList }
{}

/// Whatever accesses come, the list only grows at its end, and a closed one doesn't.
pub fn list_goes_on()
    ensures { ListGoesOn }
{}

/// The access that is under way may be made, whatever came between; then the value that takes what
/// it found stands for the accesses of its process.
pub fn accesses_go_on()
    ensures { AccessesGoOn }
{}

/// If each row that is put is one that there may be, as every value sees to, no place ever holds a
/// word that a value refuses.
pub fn words_may_stand()
    ensures { WordsMayStand }
{}
