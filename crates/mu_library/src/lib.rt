//! The calls of the library for C over bytes in memory: what the program says, a picture, a judge
//! that takes one line at a time, and a live engine. The first bytes of a text go to the room that
//! the caller gives, and its length is told, so that a caller can give more room. Nothing is
//! printed.
#![tactic(auto)]

mod answering;
mod codes;
mod drawing;
mod engines;
mod front;
mod handles;
mod holding;
mod judging;
mod replicas;
mod replies;
mod rounds;
mod shown;
mod sinks;
mod states;
mod tasks;
mod telling;
mod traces;

pub use answering::{Answered, answer, show};
pub use codes::codes_are_stated;
pub use drawing::draw;
pub use engines::{Numbered, open_engine, submit_line};
pub use handles::let_go;
pub use holding::{call_back, pause_replica, stop_replica};
pub use judging::{judge_answer, open_judge, take_line};
pub use replicas::{
    Asked, Submitted, append_line, next_access, open_replica, take_word, take_word_and_next,
};
pub use replies::Replied;
pub use rounds::{play_round, play_until};
pub use shown::{Numbers, Show, last_event, own_reply, show_numbers};
pub use states::{EngineState, NOBODY, ReplicaHold, engine_state, replica_hold};
pub use telling::{row_reply, trace_so_far};
