//! A store with one order of its commands.
ghost use Rattle.std.specs.Prelude.{◌≡◌, ◌<◌, ℕ, IfSome, MatchResult};

use crate::{ReplicaState, Untaken};
use kv_store::{NoMemory, Op, Reply};

/// A store whose commands stand in one order, on which its replicas agree.
///
/// It means the moments at which it may be: what was submitted to it, by row, and the order so far.
/// The commands of the order may be of others too. A command stands in the order once a majority has
/// it, and a reply to it is told only then.
pub trait OrderedStore: Drop + Sized {
    ghost use Rattle.std.specs.Prelude.{ℕ, ◌≡◌, ◌≢◌};
    ghost use Rattle.kv_store.specs.Sessions.{IsInSession};
    ghost use Rattle.kv_store.specs.Commands.{HasShortTexts};
    ghost use Rattle.ordered_store.specs.Moments.{IsAnswer, Moment, Orders, Takes};
    ghost use Rattle.ordered_store.specs.declared.replica.ReplicaState.{ReplicaState as State};

    // whether it may be at this moment
    ghost stands: { Self → Moment → Type 0 };

    // how many replicas it has
    ghost replicas: { Self → ℕ };

    // what each replica does
    ghost state: { Self → ℕ → State };

    /// Takes a command of this operation, and answers its row. Rows are numbered from 0 on.
    ///
    /// # Errors
    ///
    /// The store stays as it is.
    fn submit(&mut self, op: Op) -> Result<u64, Untaken>
        requires texts { HasShortTexts op }
        ensures replicas { replicas self.new ≡ replicas self.old }
        ensures taken { (moment : Moment) → stands self.old moment → MatchResult result
            (λ row. Takes (stands self.new) moment op row) (λ why. stands self.new moment) };

    /// One round: replicas agree on more of what was submitted.
    ///
    /// # Errors
    ///
    /// There was no memory: the round may be made again.
    fn round(&mut self) -> Result<(), NoMemory>
        ensures replicas { replicas self.new ≡ replicas self.old }
        ensures orders { (moment : Moment) → stands self.old moment
            → Orders (stands self.new) moment };

    /// The reply to the command of a row, if it stands in the order and the reply is still kept.
    fn reply_to(&self, row: u64) -> Option<Reply>
        ensures { (moment : Moment) → stands self.now moment
            → IfSome result (λ reply. IsAnswer moment row reply) };

    /// How many replicas there are.
    fn replicas(&self) -> u8
        ensures { result ≡ replicas self.now };

    /// What a replica does.
    fn state_of(&self, replica: u8) -> ReplicaState
        requires { replica < replicas self.now }
        ensures { result ≡ state self.now replica };

    /// The replica that put last, if that is known.
    fn leader(&self) -> Option<u8>
        ensures { IfSome result (λ replica. replica < replicas self.now) };

    /// Stops a replica. All others do what they did.
    fn stop(&mut self, replica: u8)
        requires { replica < replicas self.old }
        ensures replicas { replicas self.new ≡ replicas self.old }
        ensures stands { (moment : Moment) → stands self.old moment → stands self.new moment }
        ensures stopped { state self.new replica ≡ State.Stopped }
        ensures others { (r : ℕ) → r ≢ replica → state self.new r ≡ state self.old r };

    /// Pauses a replica for so many rounds, if it isn't stopped.
    fn pause(&mut self, replica: u8, rounds: u32)
        requires { replica < replicas self.old }
        ensures replicas { replicas self.new ≡ replicas self.old }
        ensures stands { (moment : Moment) → stands self.old moment → stands self.new moment }
        ensures stays { state self.old replica ≡ State.Stopped
            → state self.new replica ≡ State.Stopped }
        ensures others { (r : ℕ) → r ≢ replica → state self.new r ≡ state self.old r };

    /// Calls a replica back that was stopped or paused: it goes on.
    fn call_back(&mut self, replica: u8)
        requires { replica < replicas self.old }
        ensures replicas { replicas self.new ≡ replicas self.old }
        ensures stands { (moment : Moment) → stands self.old moment → stands self.new moment }
        ensures running { state self.new replica ≡ State.Running }
        ensures others { (r : ℕ) → r ≢ replica → state self.new r ≡ state self.old r };

    // each command stands in the order once, and each client's in the order of their numbers
    ghost sessions: { (store : Self) (moment : Moment) → stands store moment
        → IsInSession moment.order };
}
