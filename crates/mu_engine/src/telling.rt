//! Telling replies.
ghost use Rattle.std.specs.Prelude.{List, length, ◌<◌, ◌≡◌};
ghost use Rattle.mu_input.specs.declared.job.Job.{Job};
ghost use Rattle.mu_model.specs.declared.event.Event.{Event};
ghost use Rattle.mu_model.specs.Histories.{history, part};
ghost use Rattle.mu_model.specs.Scores.{leader};
ghost use Rattle.mu_engine.specs.Moments.{IsMoment};
ghost use Rattle.mu_engine.specs.Seats.{AreSeated};
ghost use Rattle.mu_engine.specs.Telling.{TellsNow, handed_log};

use crate::engine::Engine;
use crate::seat::Seat;
use kv_store::Reply;

/// The reply to the command of a row, by the first replica that has one.
fn first_reply(seats: &[Seat], row: u16) -> Option<Reply>
    ensures { (job : Job) → (events : List Event) → IsMoment job events
        → AreSeated job.config events seats.now → TellsNow job events row result }
{
    for seat in seats {
        if let Some(reply) = seat.node.reply_to(row) {
            return Some(reply);
        }
    }
    None
}

impl Engine {
    /// The reply to the command of a row, as soon as some replica has handed the row on to its
    /// store. Takes no memory.
    pub fn reply_to(&self, row: u16) -> Option<Reply>
        ensures { TellsNow self.now.job self.now.events row result }
    {
        first_reply(self.seats.as_slice(), row)
    }

    /// The entries that a replica has handed on to its store so far: the first ones of its log.
    pub fn handed_by(&self, replica: u8) -> &[u16]
        requires { replica < length self.now.holds }
        ensures { result.now ≡ handed_log self.now.job.config self.now.events replica }
    {
        self.seats[usize::from(replica)].node.entries_handed_on()
    }
    /// The replica that the scores of a replica name leader: the least of those that it takes as
    /// alive.
    pub fn leader_by(&self, replica: u8) -> u8
        requires { replica < length self.now.holds }
        ensures { result ≡ leader self.now.job.config replica
            (part replica (history self.now.events)) }
    {
        self.seats[usize::from(replica)].node.leader()
    }
}
