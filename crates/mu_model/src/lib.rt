//! The model: what replicas do, what each step answers, and which lists of events are legal.
//!
//! An event is one step on one word of shared memory, made by one replica. Contracts speak of lists
//! of events in true order; the definitions in `specs/` are recursions on the history of such a
//! list, which has the newest event first.
#![tactic(auto)]

mod config;
mod contents;
mod event;
mod journal;
mod numbers;
mod packing;
mod reason;
mod rooms;
mod rows;
mod scoring;
mod script;
mod sentence;
mod sequence;
mod wording;

pub use config::{Config, Row};
pub use contents::{
    FIRST_MARK, PAYLOADS, count_of_commands, count_of_rows, positions_in, reserve_of, row_client,
    row_number, row_rest, row_word, stands_for_batch, stands_for_mark,
};
pub use event::{Answer, Event, Fence, Target, Verb};
pub use journal::Journal;
pub use numbers::{majority, next_number};
pub use packing::{VerbFields, fields_of, own_word, target_in, target_kind, target_place, verb_in};
pub use reason::Reason;
pub use rooms::{push_within, reserve_to};
pub use rows::Rows;
pub use scoring::score_after;
pub use script::{End, Pause, Pauses, Script, Stop, Stops, is_stopped};
pub use sentence::{Sentence, Value};
pub use sequence::Sequence;

/// Want of memory.
pub use std::alloc::AllocError as NoMemory;
