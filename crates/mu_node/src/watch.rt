//! Which replicas a replica holds to be failed, and which it names leader.
ghost use Rattle.std.specs.Prelude.{List, [], ◌<◌, ◌≡◌, ◌≤◌, ℕ};
ghost use Rattle.mu_model.specs.declared.config.Config.{Config};
ghost use Rattle.mu_model.specs.declared.event.Event.{Event as SomeEvent};
ghost use Rattle.mu_model.specs.Scores.{is_failed, leader as leader_of, score};
ghost use Rattle.mu_detect.specs.Stands.{StandsFor};
ghost use Rattle.mu_lead.specs.Sets.{bit};
ghost use Rattle.mu_lead.specs.Standing.{TellsFailed};
ghost use Rattle.mu_knowledge.specs.Telling.{Tells};
ghost use Rattle.mu_node.specs.Watch.{StandsForWatch, TakesForWatch, is_beat_read};

use mu_detect::Scores;
use mu_model::{Event, Verb};

/// The scores, and what they say: this changes only when a count of beats is read.
#[derive(Drop)]
pub struct Watch {
    /// The scores of the others.
    scores: Scores,
    /// Which replica they name leader.
    named: u8,
    /// Which replicas they hold to be failed: bit q for replica q.
    failed: u8,
}

/// Whether the verb reads a count of beats.
fn reads_beat(verb: &Verb) -> bool
    ensures { result ≡ is_beat_read verb.now }
{
    match *verb {
        Verb::ReadBeat(_) => true,
        _ => false,
    }
}

/// 1 if it is so, else 0.
fn one_if(so: bool) -> u8
    ensures few { result ≤ 1 }
    ensures is { result ≡ bit so }
{
    if so { 1 } else { 0 }
}

/// The bit of a replica that is held to be failed: 1, else 0.
fn failed_bit(scores: &Scores, n: u8, q: u8) -> u8
    ensures few { result ≤ 1 }
    ensures is { (r : ℕ) → (mine : List SomeEvent) → q < n → StandsFor n r mine scores.now
        → result ≡ bit (is_failed r q mine) }
{
    if q < n { one_if(!scores.alive(q)) } else { 0 }
}

/// Which replicas the scores of `n` replicas hold to be failed: bit q for replica q.
fn failed_in(scores: &Scores, n: u8) -> u8
    ensures { (c : Config) → (r : ℕ) → (mine : List SomeEvent) → n ≡ c.replicas
        → StandsFor c.replicas r mine scores.now → TellsFailed c r mine result }
{
    let zero = failed_bit(scores, n, 0);
    let one = failed_bit(scores, n, 1);
    let two = failed_bit(scores, n, 2);
    let three = failed_bit(scores, n, 3);
    let four = failed_bit(scores, n, 4);
    let five = failed_bit(scores, n, 5);
    let six = failed_bit(scores, n, 6);
    zero + 2 * one + 4 * two + 8 * three + 16 * four + 32 * five + 64 * six
}

impl Watch {
    /// The replica `id` of `replicas` before any read.
    pub fn new(replicas: u8, id: u8) -> Watch
        requires few { replicas ≤ 7 }
        requires inside { id < replicas }
        ensures { (c : Config) → replicas ≡ c.replicas → StandsForWatch c id [] result }
    {
        let scores = Scores::new(replicas, id);
        Watch {
            named: scores.leader(),
            failed: failed_in(&scores, replicas),
            scores,
        }
    }

    /// Takes the next event of the replica, one of `n`. Takes no memory.
    pub fn note(&mut self, n: u8, event: &Event)
        ensures { TakesForWatch n event.now self.old self.new }
    {
        if !reads_beat(&event.verb) {
            return;
        }
        self.note_read(n, event);
    }

    /// Takes a read of a count of beats.
    #[inline(never)]
    fn note_read(&mut self, n: u8, event: &Event)
        ensures { TakesForWatch n event.now self.old self.new }
    {
        self.scores.note(event);
        self.named = self.scores.leader();
        self.failed = failed_in(&self.scores, n);
    }

    /// The replica that the scores name leader.
    pub fn leader(&self) -> u8
        ensures { Tells StandsForWatch self.now leader_of result }
    {
        self.named
    }

    /// Which replicas they hold to be failed: bit q for replica q.
    pub fn failed_replicas(&self) -> u8
        ensures { (c : Config) → (r : ℕ) → (mine : List SomeEvent)
            → StandsForWatch c r mine self.now
            → TellsFailed c r mine result }
    {
        self.failed
    }

    /// Whether `q` is held to be alive.
    pub fn alive(&self, q: u8) -> bool
        ensures { (c : Config) → (r : ℕ) → (mine : List SomeEvent) → q < c.replicas
            → StandsForWatch c r mine self.now → result ≡ (score r q mine).1 }
    {
        self.scores.alive(q)
    }
}
