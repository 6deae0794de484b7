//! The scores of one replica.
ghost use Rattle.std.specs.Prelude.{List, [], ℕ, ◌<◌, ◌∷◌, ◌≡◌, ◌≤◌};
ghost use Rattle.mu_model.specs.declared.config.Config.{Config};
ghost use Rattle.mu_model.specs.declared.event.Answer.{Answer};
ghost use Rattle.mu_model.specs.declared.event.Event.{Event};
ghost use Rattle.mu_model.specs.declared.event.Verb.{Verb};
ghost use Rattle.mu_model.specs.Scores.{leader, score};
ghost use Rattle.mu_detect.specs.Stands.{HoldsPeer, StandsFor};

use mu_model::{Answer, Event, Verb, score_after};

/// What a replica holds of one replica.
#[derive(Clone, Copy)]
pub struct Peer {
    /// The count of beats that was read last, 0 before any.
    count: u64,
    /// The score, from 0 to 15.
    points: u8,
    /// Whether it is held to be alive.
    alive: bool,
}

/// What a replica holds of all replicas.
#[derive(Drop)]
pub struct Scores {
    /// How many replicas there are.
    replicas: u8,
    /// The replica whose scores these are.
    id: u8,
    /// Every replica that there can be, in order.
    peers: [Peer; 7],
}

impl Peer {
    /// What is held of it after one more read of its count of beats.
    fn after(self, count: u64) -> Peer
        ensures { (r q : ℕ) → (mine : List Event) → (event : Event) → event.by ≡ r
            → event.verb ≡ Verb.ReadBeat q → event.answer ≡ Answer.Number count
            → HoldsPeer r q mine self → HoldsPeer r q (event ∷ mine) result }
    {
        let (points, alive) = score_after(self.points, self.alive, count != self.count);
        Peer {
            count,
            points,
            alive,
        }
    }
}

impl Scores {
    /// The scores of the replica `id` before any read: all are alive, with 15 points.
    pub fn new(replicas: u8, id: u8) -> Scores
        requires few { replicas ≤ 7 }
        requires inside { id < replicas }
        ensures { StandsFor replicas id [] result }
    {
        Scores {
            replicas,
            id,
            peers: [Peer {
                count: 0,
                points: 15,
                alive: true,
            }; 7],
        }
    }

    /// Takes a read of the count of beats of `q`. If there is no such replica, nothing changes.
    pub fn take(&mut self, q: u8, count: u64)
        ensures reads { (n r : ℕ) → (mine : List Event) → (event : Event) → event.by ≡ r
            → event.verb ≡ Verb.ReadBeat q → event.answer ≡ Answer.Number count
            → StandsFor n r mine self.old → StandsFor n r (event ∷ mine) self.new }
        ensures beyond { self.old.replicas ≤ q → self.new ≡ self.old }
    {
        if q < self.replicas && q < 7 {
            let at = usize::from(q);
            self.peers[at] = self.peers[at].after(count);
        }
    }

    /// Takes the next event, of any kind and of any replica.
    pub fn note(&mut self, event: &Event)
        ensures { (n r : ℕ) → (mine : List Event) → StandsFor n r mine self.old
            → StandsFor n r (event.now ∷ mine) self.new }
    {
        if let (Verb::ReadBeat(q), Answer::Number(count)) = (event.verb, event.answer) {
            if event.by == self.id {
                self.take(q, count);
            }
        }
    }

    /// The score of `q`, from 0 to 15. If there is no such replica, the answer says nothing.
    pub fn score(&self, q: u8) -> u8
        ensures { (n r : ℕ) → (mine : List Event) → q < n → StandsFor n r mine self.now
            → result ≡ (score r q mine).0 }
    {
        match self.peers.get(usize::from(q)) {
            Some(peer) => peer.points,
            None => 0,
        }
    }

    /// Whether `q` is held to be alive. If there is no such replica, the answer says nothing.
    pub fn alive(&self, q: u8) -> bool
        ensures { (n r : ℕ) → (mine : List Event) → q < n → StandsFor n r mine self.now
            → result ≡ (score r q mine).1 }
    {
        match self.peers.get(usize::from(q)) {
            Some(peer) => peer.alive,
            None => false,
        }
    }

    /// The replica that the scores name leader: the least of this replica's id and the others that
    /// are held to be alive.
    pub fn leader(&self) -> u8
        ensures { (c : Config) → (r : ℕ) → (mine : List Event)
            → StandsFor c.replicas r mine self.now
            → result ≡ leader c r mine }
    {
        for q in 0..self.id {
            if self.alive(q) {
                return q;
            }
        }
        self.id
    }
}
