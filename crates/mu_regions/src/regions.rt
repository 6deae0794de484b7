//! The state of all regions.
ghost use Rattle.std.specs.Prelude.{IfOk, List, [], length, vec_capacity, ◌<◌, ◌^◌, ◌∷◌, ◌≡◌};
ghost use Rattle.mu_model.specs.declared.config.Config.{Config};
ghost use Rattle.mu_model.specs.declared.event.Event.{Event};
ghost use Rattle.mu_model.specs.Answers.{answer_of};
ghost use Rattle.mu_model.specs.Contents.{IsConfig};
ghost use Rattle.mu_regions.specs.Range.{InRange, IsNear};
ghost use Rattle.mu_regions.specs.Stands.{HoldsEach, Stands};

use crate::region::{Region, is_first, region_read};
use mu_model::{Answer, Config, Event, NoMemory, Verb};
use std::alloc::Global;

/// What all regions hold after a list of events, kept up to date event by event. An answer and an
/// update cost the same however long the list is.
#[derive(Drop)]
pub struct Regions {
    ring: u16,
    regions: Vec<Region>,
}

/// Takes the event at each region.
fn take_at_each(regions: &mut [Region], event: &Event)
    ensures { (c : Config) → (past : List Event) → length past < 2 ^ 20 → IsNear c event.now.verb
        → HoldsEach c past regions.old → HoldsEach c (event.now ∷ past) regions.new }
{
    for region in regions.iter_mut() {
        region.take(event);
    }
}

impl Regions {
    /// The state before any event. Takes all memory that it ever needs.
    pub fn new(alloc: Global, config: &Config) -> Result<Regions, NoMemory>
        requires { IsConfig config.now }
        ensures stands { IfOk result (λ state. Stands config.now [] state) }
        ensures room { IfOk result
            (λ state. vec_capacity state.regions ≡ config.now.replicas) }
    {
        let mut regions = Vec::with_capacity(alloc, usize::from(config.replicas))?;
        for id in 0..config.replicas {
            regions.push_reserved(Region::new(alloc, id, config)?);
        }
        Ok(Regions {
            ring: config.ring,
            regions,
        })
    }

    /// What `by` is answered to `verb` after the history that the state stands for, if `by` and all
    /// that the verb names exist. Takes no memory.
    #[inline(always)]
    pub fn answer(&self, by: u8, verb: &Verb) -> Answer
        ensures { (c : Config) → (past : List Event) → InRange c by verb.now
            → Stands c past self.now
            → result ≡ answer_of c by past verb.now }
    {
        match self.regions.get(usize::from(region_read(by, verb))) {
            Some(region) => region.answer(self.ring, by, verb),
            None => Answer::Done,
        }
    }

    /// Takes the next event of the history that the state stands for, whatever it answers, if its
    /// position, row and word exist. Takes no memory.
    #[inline(always)]
    pub fn take(&mut self, event: &Event)
        ensures { (c : Config) → (past : List Event) → length past < 2 ^ 20
            → IsNear c event.now.verb
            → Stands c past self.old → Stands c (event.now ∷ past) self.new }
    {
        if is_first(&event.verb) {
            take_at_each(&mut self.regions, event);
            return;
        }
        let at = usize::from(region_read(event.by, &event.verb));
        if let Some(region) = self.regions.get_mut(at) {
            region.take(event);
        }
    }
}
