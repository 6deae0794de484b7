//! A store whose commands stand in one order, on which its replicas agree: what it promises to the one
//! that submits them.
#![tactic(auto)]

ghost use Rattle.ordered_store.specs.Laws.{AnswersComeInTime, AnswersStay, MomentsGoOn};

mod replica;
mod store;
mod untaken;

pub use replica::ReplicaState;
pub use store::OrderedStore;
pub use untaken::Untaken;

/// A moment goes on to itself, and to all to which a later one goes on.
pub fn moments_go_on()
    ensures { MomentsGoOn }
{}

/// A reply to a command stays that.
pub fn answers_stay()
    ensures { AnswersStay }
{}

/// A command that is submitted after a reply was told stands behind the command of that reply.
pub fn answers_come_in_time()
    ensures { AnswersComeInTime }
{}
