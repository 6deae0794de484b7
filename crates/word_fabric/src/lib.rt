//! Memory as packed words: a fabric keeps one list of words, and each step changes one of them.
//!
//! The contract is that of `list_fabric`: the list of all events, and the answer that it gives. The
//! answers come only from the words, by the law of word steps of `mu_words`.
#![tactic(auto)]

mod adding;
mod fabric;
mod making;

pub use adding::{GrowingFabric, GrowingPort};
pub use fabric::WordFabric;
