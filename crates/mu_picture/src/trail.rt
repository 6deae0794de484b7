//! The states of all replicas, regions and lanes along a list of events.
ghost use Rattle.std.specs.Prelude.{◌≡◌, ◌∷◌, ◌<◌, ◌≤◌, ℕ, [], List, Some, IfOk, length, take};
ghost use Rattle.mu_course.specs.Walks.{StandsForWalk};
ghost use Rattle.mu_model.specs.Contents.{IsConfig};
ghost use Rattle.mu_model.specs.Histories.{history, part};
ghost use Rattle.mu_model.specs.Legal.{IsLegalHistory};
ghost use Rattle.mu_model.specs.Scores.{is_failed};
ghost use Rattle.mu_model.specs.declared.config.Config.{Config as Settings};
ghost use Rattle.mu_model.specs.declared.event.Event.{Event as Made};
ghost use Rattle.mu_model.specs.declared.script.Script.{Script as Settled};
ghost use Rattle.mu_outcome.specs.Breaks.{reached};
ghost use Rattle.mu_picture.specs.Hearing.{heard_by};
ghost use Rattle.mu_picture.specs.Marks.{mark_of};
ghost use Rattle.mu_picture.specs.Openings.{opening_of};
ghost use Rattle.mu_picture.specs.Trails.{HasPassed, IsAtNext, StandsForTrail, TellsNoted};

use crate::deeds::{Heard, deed_of};
use crate::marks::{Mark, mark_of};
use crate::openings::{Opening, opening_with};
use crate::standings::{Standings, resumption_at, standing_with};
use mu_course::{Turn, Walk, halt_after};
use mu_model::{Config, Event, NoMemory, Script, Verb};
use mu_outcome::Broken;
use std::alloc::Global;

/// How many events a walk has taken that was to take those before `to`, if this is where the list
/// broke.
pub fn reached(broken: &Option<Broken>, to: u32) -> u32
    ensures { result ≡ reached broken.now to }
{
    match broken {
        None => to,
        Some(broken) => broken.index,
    }
}

/// The states of all replicas, regions and lanes after the first events of a list, which are legal.
#[derive(Drop)]
pub struct Trail {
    walk: Walk,
    standings: Standings,
}

/// The replica whose beats the event reads, if it reads any.
fn heard_of(event: &Event) -> Option<u8>
    ensures { result ≡ heard_by event.now.verb }
{
    match event.verb {
        Verb::ReadBeat(q) => Some(q),
        _ => None,
    }
}

/// Whether a replica holds the other, if there is one, to be failed.
fn fails(walk: &Walk, r: u8, q: Option<u8>) -> bool
    ensures { (past : List Made) → (c : Settings) → (p : ℕ) → q ≡ Some p → r < c.replicas
        → p < c.replicas → StandsForWalk c past walk.now → result ≡ is_failed r p (part r past) }
{
    match q {
        Some(q) => walk.fails(r, q),
        None => false,
    }
}

impl Trail {
    /// The states before any event. Takes all memory that it ever needs.
    pub fn new(alloc: Global, config: &Config) -> Result<Trail, NoMemory>
        requires { IsConfig config.now }
        ensures { IfOk result (λ trail. (script : Settled)
            → StandsForTrail config.now script [] trail) }
    {
        Ok(Trail {
            walk: Walk::new(alloc, config)?,
            standings: Standings::new(),
        })
    }

    /// What holds in the lane of `r`.
    pub fn opening(&self, r: u8) -> Opening
        ensures { (past : List Made) → (c : Settings) → (script : Settled) → r < c.replicas
            → StandsForTrail c script past self.now → result ≡ opening_of c script r past }
    {
        let fence = self.walk.fence(r);
        let standing = self.standings.of(r);
        let leads = self.walk.leads(r);
        let named = self.walk.named_leader(r);
        opening_with(fence, standing, leads, named)
    }

    /// Takes the next event of the legal list. What it comes to, and how it changes whom its
    /// replica holds to be failed.
    fn note(&mut self, config: &Config, event: &Event) -> Option<(Turn, Heard)>
        requires { IsConfig config.now }
        ensures stands { (past : List Made) → IsLegalHistory config.now (event.now ∷ past)
            → StandsForWalk config.now past self.old.walk
            → StandsForWalk config.now (event.now ∷ past) self.new.walk }
        ensures standings { self.new.standings ≡ self.old.standings }
        ensures tells { (past : List Made) → IsLegalHistory config.now (event.now ∷ past)
            → StandsForWalk config.now past self.old.walk
            → TellsNoted config.now (part event.now.by past) event.now result }
    {
        let q = heard_of(event);
        let was = fails(&self.walk, event.by, q);
        let turn = self.walk.take(config, event)?;
        let heard = Heard {
            was,
            now: fails(&self.walk, event.by, q),
            named: self.walk.named_leader(event.by),
        };
        Some((turn, heard))
    }

    /// The mark of the next event of the legal list, which is the step `step`, if it is drawn.
    fn take(&mut self, config: &Config, script: &Script, step: u32, event: &Event) -> Option<Mark>
        requires { IsConfig config.now }
        ensures stands { (past : List Made) → IsLegalHistory config.now (event.now ∷ past)
            → StandsForTrail config.now script.now past self.old
            → StandsForTrail config.now script.now (event.now ∷ past) self.new }
        ensures mark { (past : List Made) → IsLegalHistory config.now (event.now ∷ past)
            → StandsForTrail config.now script.now past self.old → step ≡ length past
            → result ≡ mark_of config.now script.now past event.now }
    {
        let r = event.by;
        let granted = self.walk.grant_count(r);
        let resumed = resumption_at(
            self.standings.of(r),
            self.walk.leads(r),
            self.walk.named_leader(r),
        );
        let (turn, heard) = self.note(config, event)?;
        let deed = deed_of(event, &turn.told, turn.resigns, turn.named, heard, granted);
        let halt = halt_after(config, script, r, turn.told.steps, turn.finishes);
        self.standings.take(r, standing_with(deed, halt));
        mark_of(step, event, resumed, deed, halt)
    }

    /// Judges the event at an index of a list, and takes it if it may follow: its mark, if it is
    /// drawn. Takes no memory.
    ///
    /// # Errors
    ///
    /// The event breaks the list. Then the states stay.
    pub fn next(
        &mut self,
        config: &Config,
        script: &Script,
        events: &[Event],
        index: u32,
    ) -> Result<Option<Mark>, Broken>
        requires config { IsConfig config.now }
        requires within { index < length events.now }
        ensures { StandsForTrail config.now script.now (history (take index events.now)) self.old
            → IsAtNext config.now script.now events.now index self.new result }
    {
        let event = events[index as usize];
        match self.walk.fault(config, &event) {
            Some(fault) => Err(Broken {
                index,
                event,
                fault,
            }),
            None => Ok(self.take(config, script, index, &event)),
        }
    }

    /// Judges the events before `to`, and takes those before the first that breaks the list, which
    /// is the answer if there is one. Takes no memory.
    pub fn pass(
        &mut self,
        config: &Config,
        script: &Script,
        events: &[Event],
        to: u32,
    ) -> Option<Broken>
        requires config { IsConfig config.now }
        requires fresh { StandsForTrail config.now script.now [] self.old }
        requires within { to ≤ length events.now }
        ensures passed { HasPassed config.now script.now events.now (reached result to) self.new
            result }
        ensures within { reached result to ≤ to }
    {
        for index in 0..to {
            if let Err(broken) = self.next(config, script, events, index) {
                return Some(broken);
            }
        }
        None
    }
}
