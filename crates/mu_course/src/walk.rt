//! A walk over the legal part of a list of events, with the states of all replicas and regions.
ghost use Rattle.std.specs.Prelude.{IfOk, IsTrue, List, [], MatchOption, Some, map, vec_capacity, ◌∷◌, ◌<◌, ◌≡◌, ◌≤◌, ◌↔◌};
ghost use Rattle.mu_model.specs.declared.event.Event.{Event as Made};
ghost use Rattle.mu_model.specs.Answers.{answer_of};
ghost use Rattle.mu_model.specs.Contents.{IsConfig};
ghost use Rattle.mu_model.specs.Histories.{history, part};
ghost use Rattle.mu_model.specs.Knowledge.{applied as applied_of, commits as commits_of};
ghost use Rattle.mu_model.specs.Legal.{IsLegal, IsLegalHistory};
ghost use Rattle.mu_model.specs.Regions.{fence as fence_of, fence_grant};
ghost use Rattle.mu_model.specs.Scores.{is_failed, leader};
ghost use Rattle.mu_model.specs.declared.config.Config.{Config as Settings};
ghost use Rattle.mu_course.specs.Courses.{StandsForCourse};
ghost use Rattle.mu_course.specs.Walks.{IsWalked, StandsForWalk, TellsAt, TellsFault, TellsRegion, TellsStep, fence_shown, grants_shown};
ghost use Rattle.mu_course.specs.Resigning.{is_leading};
ghost use Rattle.mu_course.specs.SoFar.{IsSoFar};
ghost use Rattle.mu_knowledge.specs.Commits.{pair_of};
ghost use Rattle.mu_regions.specs.Range.{InRange};

use crate::course::{Course, Turn};
use mu_knowledge::Commit;
use mu_model::{Answer, Config, Event, Fence, NoMemory, Reason, Script, Verb};
use mu_outcome::{Broken, EndSoFar, Fault};
use mu_regions::Regions;
use std::alloc::Global;

/// The states of all replicas and regions after the first events of a list, which are legal.
#[derive(Drop)]
pub struct Walk {
    courses: Vec<Course>,
    regions: Regions,
}

/// The fence that is seen.
fn fence_in(answer: Answer) -> Option<Fence>
    ensures { result ≡ fence_shown answer }
{
    match answer {
        Answer::Seen(fence) => Some(fence),
        _ => None,
    }
}

/// How often the region of a fence was granted.
fn grants_in(fence: Option<Fence>) -> u32
    ensures { result ≡ grants_shown fence }
{
    match fence {
        Some(fence) => fence.grant,
        None => 0,
    }
}

/// Whether the answers are the same.
fn is_same(given: Answer, defined: Answer) -> bool
    ensures { IsTrue result ↔ (given ≡ defined) }
{
    given == defined
}

impl Walk {
    /// The states before any event. Takes all memory that it ever needs.
    pub fn new(alloc: Global, config: &Config) -> Result<Walk, NoMemory>
        requires { IsConfig config.now }
        ensures stands { IfOk result (λ walk. StandsForWalk config.now [] walk) }
        ensures room { IfOk result (λ walk. vec_capacity walk.courses ≡ config.now.replicas) }
    {
        let mut courses = Vec::with_capacity(alloc, usize::from(config.replicas))?;
        for replica in 0..config.replicas {
            courses.push_reserved(Course::new(alloc, config, replica)?);
        }
        let regions = Regions::new(alloc, config)?;
        Ok(Walk { courses, regions })
    }

    /// What a replica is answered to a verb, if it and all that the verb names exist.
    pub fn answer(&self, by: u8, verb: &Verb) -> Answer
        ensures { (past : List Made) → (c : Settings) → InRange c by verb.now
            → StandsForWalk c past self.now → result ≡ answer_of c by past verb.now }
    {
        self.regions.answer(by, verb)
    }

    /// What the events of a replica come to. `None` exactly if there is no such replica.
    pub fn course(&self, r: u8) -> Option<&Course>
        ensures { (past : List Made) → (c : Settings) → StandsForWalk c past self.now
            → MatchOption result (c.replicas ≤ r)
            (λ course. StandsForCourse c r (part r past) course.now) }
    {
        match self.courses.get(usize::from(r)) {
            None => None,
            Some(course) => Some(course),
        }
    }

    /// The fence of a region. `None` if there is no such region.
    pub fn fence(&self, region: u8) -> Option<Fence>
        ensures { TellsRegion self.now region (λ p past. Some (fence_of p past)) result }
    {
        fence_in(self.regions.answer(region, &Verb::Fence(region)))
    }

    /// How often the region was granted.
    pub fn grant_count(&self, region: u8) -> u32
        ensures { TellsRegion self.now region fence_grant result }
    {
        grants_in(self.fence(region))
    }

    /// Whether a leadership of the replica is under way.
    pub fn leads(&self, r: u8) -> bool
        ensures { TellsAt self.now r is_leading result }
    {
        match self.course(r) {
            None => false,
            Some(course) => course.is_leading(),
        }
    }

    /// What the replica has applied, in order. Nothing if there is no such replica.
    pub fn applied_values(&self, r: u8) -> &[u16]
        ensures { TellsAt self.now r applied_of result.now }
    {
        match self.course(r) {
            None => &[],
            Some(course) => course.applied_values(),
        }
    }

    /// What it committed, in order. Nothing if there is no such replica.
    pub fn commits(&self, r: u8) -> &[Commit]
        ensures { TellsAt self.now r commits_of (map pair_of result.now) }
    {
        match self.course(r) {
            None => &[],
            Some(course) => course.commits(),
        }
    }

    /// How it has ended so far, by its script and its budget.
    pub fn end(&self, config: &Config, script: &Script, r: u8) -> EndSoFar
        requires { IsConfig config.now }
        ensures { (past : List Made) → r < config.now.replicas
            → StandsForWalk config.now past self.now
            → IsSoFar config.now script.now r (part r past) result }
    {
        match self.course(r) {
            None => EndSoFar::Running,
            Some(course) => course.end(config, script),
        }
    }

    /// The replica that the scores of a replica name leader.
    pub fn named_leader(&self, r: u8) -> u8
        ensures { TellsAt self.now r leader result }
    {
        match self.course(r) {
            None => 0,
            Some(course) => course.named_leader(),
        }
    }

    /// Whether the replica `r` holds `q` to be failed.
    pub fn fails(&self, r: u8, q: u8) -> bool
        ensures { (past : List Made) → (c : Settings) → r < c.replicas → q < c.replicas
            → StandsForWalk c past self.now → result ≡ is_failed r q (part r past) }
    {
        match self.course(r) {
            None => false,
            Some(course) => course.fails(q),
        }
    }

    /// What is wrong with an event as the next one of the list: nothing exactly if it may follow.
    /// Takes no memory.
    pub fn fault(&self, config: &Config, event: &Event) -> Option<Fault>
        requires { IsConfig config.now }
        ensures { (past : List Made) → StandsForWalk config.now past self.now
            → TellsFault config.now past event.now result }
    {
        let Some(course) = self.course(event.by) else {
            return Some(Fault::NotAllowed(Reason::NoReplica { replica: event.by }));
        };
        if let Some(reason) = course.replica.why_not(config, &event.verb) {
            return Some(Fault::NotAllowed(reason));
        }
        let expected = self.answer(event.by, &event.verb);
        if is_same(event.answer, expected) {
            None
        } else {
            Some(Fault::WrongAnswer { expected })
        }
    }

    /// Takes the next event, which may follow, and tells what it comes to. Takes no memory.
    pub fn take(&mut self, config: &Config, event: &Event) -> Option<Turn>
        requires { IsConfig config.now }
        ensures stands { (past : List Made) → IsLegalHistory config.now (event.now ∷ past)
            → StandsForWalk config.now past self.old
            → StandsForWalk config.now (event.now ∷ past) self.new }
        ensures tells { (past : List Made) → IsLegalHistory config.now (event.now ∷ past)
            → StandsForWalk config.now past self.old
            → TellsStep config.now (part event.now.by past) event.now result }
    {
        self.regions.take(event);
        match self.courses.get_mut(usize::from(event.by)) {
            None => None,
            Some(course) => Some(course.take(config, event)),
        }
    }
}

/// Judges a list and walks over it: the states after its events, if these are legal; else the first
/// that breaks it, and nothing is said of the states.
///
/// # Errors
///
/// Only for want of memory.
pub fn walk_of(
    alloc: Global,
    config: &Config,
    events: &[Event],
) -> Result<(Walk, Option<Broken>), NoMemory>
    requires config { IsConfig config.now }
    ensures judged { IfOk result (λ found. IsWalked config.now events.now found.0 found.1) }
    ensures legal { IsLegal config.now events.now
        → IfOk result (λ found. StandsForWalk config.now (history events.now) found.0) }
{
    let mut walk = Walk::new(alloc, config)?;
    for index in 0..events.len() {
        let event = events[index];
        if let Some(fault) = walk.fault(config, &event) {
            let broken = Broken {
                index: index as u32,
                event,
                fault,
            };
            return Ok((walk, Some(broken)));
        }
        let _ = walk.take(config, &event);
    }
    Ok((walk, None))
}
