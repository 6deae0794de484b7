//! What the events of one replica come to.
ghost use Rattle.std.specs.Prelude.{IfOk, List, [], false, if◌then◌else◌, length, map, not, take, vec_capacity, ℕ, ◌&&◌, ◌+◌, ◌<◌, ◌||◌, ◌∷◌, ◌≡◌};
ghost use Rattle.mu_model.specs.declared.config.Config.{Config as Settings};
ghost use Rattle.mu_model.specs.declared.event.Event.{Event as Made};
ghost use Rattle.mu_model.specs.Contents.{IsConfig, row_count};
ghost use Rattle.mu_model.specs.Ends.{is_finished as is_finished_of};
ghost use Rattle.mu_model.specs.Knowledge.{applied as applied_of, commits as commits_of, known as known_of};
ghost use Rattle.mu_model.specs.Leaderships.{begins_leadership, has_begun as has_begun_of, is_member as is_member_of, is_over as is_over_of, proposal_number};
ghost use Rattle.mu_model.specs.Room.{reserve};
ghost use Rattle.mu_model.specs.Scores.{is_failed as is_failed_by, leader as leader_of};
ghost use Rattle.mu_model.specs.Steps.{is_beat as is_beat_event};
ghost use Rattle.mu_model.specs.Stretches.{is_odd};
ghost use Rattle.mu_course.specs.Courses.{IfNext, StandsForCourse, TellsOf, TellsTurn};
ghost use Rattle.mu_course.specs.Resigning.{is_leading as is_leading_of, yields as yields_by};
ghost use Rattle.mu_course.specs.SoFar.{IsSoFar};
ghost use Rattle.mu_course.specs.Telling.{Tells};
ghost use Rattle.mu_knowledge.specs.Commits.{pair_of};

use crate::finishing::is_finished;
use crate::halts::stops_at;
use crate::noting::{commit_in, push_commit};
use crate::so_far::first_end;
use crate::told::{Told, is_end, take_event};
use mu_detect::Scores;
use mu_follow::{Completion, Published, count_applied, outrun_after};
use mu_knowledge::{Commit, first_values};
use mu_model::{Config, Event, NoMemory, Script, Verb, positions_in};
use mu_outcome::EndSoFar;
use mu_replicas::Replica;
use std::alloc::Global;

/// What the events of one replica come to, kept up to date event by event.
#[derive(Drop)]
pub struct Course {
    /// What they let it do next.
    pub(crate) replica: Replica,
    /// Which replicas it holds to be failed.
    scores: Scores,
    /// Whether it gave up its last leadership.
    resigned: bool,
    /// The heads that it knows.
    heads: Published,
    /// How many of the entries that it applied hold all commands.
    completion: Completion,
    /// What it committed.
    commits: Vec<Commit>,
    /// The region and the position at which it was outrun.
    outrun: Option<(u8, u16)>,
}

/// What an event comes to for the replica that makes it.
#[derive(Clone, Copy, Debug, PartialEq, Eq)]
pub struct Turn {
    /// For its leadership as the verbs end it, and for what it knows.
    pub told: Told,
    /// The replica that its scores named before.
    pub named: u8,
    /// Whether it gives up its leadership by it.
    pub resigns: bool,
    /// Whether it finishes by it.
    pub finishes: bool,
}

/// Whether the event is a beat.
fn is_beat(event: &Event) -> bool
    ensures { result ≡ is_beat_event event.now }
{
    match event.verb {
        Verb::Beat => true,
        _ => false,
    }
}

/// Whether the event begins a leadership of `r`.
fn begins(event: &Event, r: u8) -> bool
    ensures { result ≡ begins_leadership r event.now }
{
    match event.verb {
        Verb::Ask(p) => event.by == r && p == 0,
        _ => false,
    }
}

/// Whether the next step is odd, after this many steps: steps are counted from 0.
fn is_odd_step(steps: u32) -> bool
    ensures { result ≡ is_odd steps }
{
    steps % 2 == 1
}

/// Whether an event gives way to another leader: it is a beat in a turn of replication, and another
/// replica is named.
fn is_yield(beats: bool, replicates: bool, named: bool) -> bool
    ensures { result ≡ (beats && (replicates && not named)) }
{
    beats && (replicates && !named)
}

/// Whether a leadership is under way: it has begun, isn't over and wasn't given up.
fn is_under_way(begun: bool, over: bool, resigned: bool) -> bool
    ensures { result ≡ (begun && (not over && not resigned)) }
{
    begun && (!over && !resigned)
}

/// Whether the last leadership was given up, after an event that begins one, or gives way.
fn resigned_after(resigned: bool, begins: bool, yields: bool) -> bool
    ensures { result ≡ (if begins then false else (yields || resigned)) }
{
    if begins { false } else { yields || resigned }
}

/// Whether a leadership is given up: it is under way, and the step gives way to another.
fn is_resigning(leading: bool, yields: bool) -> bool
    ensures { result ≡ (leading && yields) }
{
    leading && yields
}

impl Course {
    /// The course of a replica before any event. Takes all memory that it ever needs.
    pub fn new(alloc: Global, config: &Config, replica: u8) -> Result<Course, NoMemory>
        requires config { IsConfig config.now }
        requires inside { replica < config.now.replicas }
        ensures stands { IfOk result (λ course. StandsForCourse config.now replica [] course) }
        ensures room { IfOk result (λ course. vec_capacity course.commits
            ≡ row_count config.now + reserve config.now + 1) }
    {
        let state = Replica::new(alloc, config, replica)?;
        let scores = Scores::new(config.replicas, replica);
        let heads = Published::new();
        let completion = Completion::new(alloc, config)?;
        Ok(Course {
            replica: state,
            scores,
            resigned: false,
            heads,
            completion,
            commits: Vec::with_capacity(alloc, positions_in(config))?,
            outrun: None,
        })
    }

    /// Whether a leadership is under way.
    pub fn is_leading(&self) -> bool
        ensures { TellsOf self.now is_leading_of result }
    {
        let begun = self.replica.leadership.has_begun();
        let over = self.replica.leadership.is_over();
        is_under_way(begun, over, self.resigned)
    }

    /// How many steps it made.
    pub fn steps(&self) -> u32
        ensures { TellsOf self.now (λ c r. length) result }
    {
        self.replica.steps
    }

    /// Whether a leadership of it has begun.
    pub fn has_begun(&self) -> bool
        ensures { TellsOf self.now (λ c. has_begun_of) result }
    {
        self.replica.leadership.has_begun()
    }

    /// Whether its last leadership is over, as the verbs end it.
    pub fn is_over(&self) -> bool
        ensures { TellsOf self.now (λ c. is_over_of) result }
    {
        self.replica.leadership.is_over()
    }

    /// The proposal number of its last leadership, if it has one.
    pub fn number(&self) -> Option<u32>
        ensures { TellsOf self.now (λ c. proposal_number) result }
    {
        self.replica.leadership.number()
    }

    /// Whether the region `p` is a member in its last leadership.
    pub fn is_member(&self, p: u8) -> bool
        ensures { (c : Settings) → (r : ℕ) → (mine : List Made) → p < 7
            → StandsForCourse c r mine self.now → result ≡ is_member_of r p mine }
    {
        self.replica.leadership.is_member(p)
    }

    /// The replica that its scores name leader.
    pub fn named_leader(&self) -> u8
        ensures { TellsOf self.now leader_of result }
    {
        self.scores.leader()
    }

    /// Whether it holds `q` to be failed. If there is no such replica, the answer says nothing.
    pub fn fails(&self, q: u8) -> bool
        ensures { (c : Settings) → (r : ℕ) → (mine : List Made) → q < c.replicas
            → StandsForCourse c r mine self.now → result ≡ is_failed_by r q mine }
    {
        !self.scores.alive(q)
    }

    /// Whether the next event gives way to another leader.
    fn yields(&self, event: &Event) -> bool
        ensures { TellsOf self.now (λ c r mine. yields_by c r mine event.now) result }
    {
        let named = self.scores.leader() == self.replica.replica;
        is_yield(is_beat(event), is_odd_step(self.replica.steps), named)
    }

    /// Whether it has finished.
    fn is_finished(&self, config: &Config) -> bool
        requires { IsConfig config.now }
        ensures { (r : ℕ) → (mine : List Made) → StandsForCourse config.now r mine self.now
            → result ≡ is_finished_of config.now r mine }
    {
        is_finished(
            &self.completion,
            &self.heads,
            &self.scores,
            self.replica.replica,
            config.replicas,
        )
    }

    /// Takes the next event of the replica, which it was allowed, and which gives way or doesn't.
    fn note(&mut self, config: &Config, event: &Event, yields: bool) -> Told
        requires config { IsConfig config.now }
        ensures stands { IfNext config.now event.now self.old
            (λ mine. yields ≡ yields_by config.now event.now.by mine event.now
            → StandsForCourse config.now event.now.by (event.now ∷ mine) self.new) }
        ensures tells { IfNext config.now event.now self.old
            (λ mine. Tells config.now mine event.now result) }
    {
        let told = take_event(&mut self.replica, config, event);
        let commit = commit_in(event, told.taught);
        push_commit(&mut self.commits, commit);
        self.outrun = outrun_after(self.outrun, event.by, told.known, event);
        self.scores.note(event);
        self.resigned = resigned_after(self.resigned, begins(event, event.by), yields);
        self.heads.note(event.by, event);
        count_applied(
            &mut self.completion,
            config,
            &self.replica.known_log,
            &self.replica.held_rows,
        );
        told
    }

    /// What the replica knows, in order.
    pub fn known(&self) -> &[u16]
        ensures { TellsOf self.now known_of result.now }
    {
        self.replica.known_log.known()
    }

    /// What it has applied, in order.
    pub fn applied_values(&self) -> &[u16]
        ensures { TellsOf self.now applied_of result.now }
    {
        first_values(self.known(), self.replica.held_rows.applied_count())
    }

    /// What it committed, in order.
    pub fn commits(&self) -> &[Commit]
        ensures { TellsOf self.now commits_of (map pair_of result.now) }
    {
        self.commits.as_slice()
    }

    /// How it has ended so far, by its script and its budget.
    pub fn end(&self, config: &Config, script: &Script) -> EndSoFar
        requires { IsConfig config.now }
        ensures { (r : ℕ) → (mine : List Made) → StandsForCourse config.now r mine self.now
            → IsSoFar config.now script.now r mine result }
    {
        let steps = self.replica.steps;
        let stopped = stops_at(script.stops.as_slice(), self.replica.replica, steps);
        let spent = steps == config.budget;
        let finished = self.is_finished(config);
        first_end(stopped, spent, self.outrun, finished)
    }

    /// Takes the next event of the replica, which it was allowed, and tells what it comes to. Takes
    /// no memory.
    pub fn take(&mut self, config: &Config, event: &Event) -> Turn
        requires config { IsConfig config.now }
        ensures stands { IfNext config.now event.now self.old
            (λ mine. StandsForCourse config.now event.now.by (event.now ∷ mine) self.new) }
        ensures tells { IfNext config.now event.now self.old
            (λ mine. TellsTurn config.now mine event.now result) }
    {
        let named = self.scores.leader();
        let yields = self.yields(event);
        let leading = self.is_leading();
        let before = self.is_finished(config);
        let told = self.note(config, event, yields);
        let after = self.is_finished(config);
        Turn {
            told,
            named,
            resigns: is_resigning(leading, yields),
            finishes: is_end(before, after),
        }
    }
}
