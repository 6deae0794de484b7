//! The heads that a replica has read, and which of them were read while their replica was failed.
ghost use Rattle.std.specs.Prelude.{List, Some, [], nat_lt, ℕ, ◌+◌, ◌<◌, ◌||◌, ◌∷◌, ◌≡◌, ◌≤◌};
ghost use Rattle.mu_model.specs.declared.config.Config.{Config};
ghost use Rattle.mu_model.specs.declared.event.Event.{Event};
ghost use Rattle.mu_model.specs.Room.{is_mark_candidate, lacks_room, last_head};
ghost use Rattle.mu_model.specs.Scores.{score};
ghost use Rattle.mu_placing.specs.Heads.{StandsForHeads, HoldsPeer, StandsForStuck, tells_of_heads, tells_of_peers, PeersTake, TellsOfHead};

use mu_detect::Scores;
use mu_model::{Answer, Config, Event, Verb};

/// What a replica has read of the head of one replica.
#[derive(Clone, Copy)]
pub struct Peer {
    /// The head that was read last.
    pub head: u64,
    /// The least head that was read in the leadership under way while the replica was failed.
    pub stuck: Option<u64>,
}

/// What a replica has read of all replicas' heads, and the scores by which it holds others to be
/// failed.
#[derive(Drop)]
pub struct Heads {
    scores: Scores,
    peers: [Peer; 7],
}

/// Whether the verb bears on what a replica has read of the others: it reads a head or a count of
/// beats, or may begin a leadership.
fn tells_of_peers(verb: &Verb) -> bool
    ensures { result ≡ tells_of_peers verb.now }
{
    match verb {
        Verb::Ask(_) | Verb::Head(_) | Verb::ReadBeat(_) => true,
        _ => false,
    }
}

/// Whether the verb reads a head, or may begin a leadership.
fn tells_of_heads(verb: &Verb) -> bool
    ensures { result ≡ tells_of_heads verb.now }
{
    match verb {
        Verb::Ask(_) | Verb::Head(_) => true,
        _ => false,
    }
}

/// The head of `q` that was read last, after the event.
fn head_after(held: u64, r: u8, q: u8, event: &Event) -> u64
    ensures { (mine : List Event) → held ≡ last_head r q mine
        → result ≡ last_head r q (event.now ∷ mine) }
{
    match (event.verb, event.answer) {
        (Verb::Head(p), Answer::Number(x)) if event.by == r && p == q => x,
        _ => held,
    }
}

/// The smaller of a head, if there is one, and another.
fn least_head(held: Option<u64>, head: u64) -> u64
    ensures { (c : Config) → (limit : ℕ)
        → lacks_room c limit (Some result)
        ≡ (lacks_room c limit (Some head) || lacks_room c limit held) }
{
    match held {
        Some(least) => least.min(head),
        None => head,
    }
}

/// The least head of `q` that was read in the leadership under way while `q` was failed, after the
/// event: `alive` says whether `q` is alive before it.
fn stuck_after(held: Option<u64>, alive: bool, r: u8, q: u8, event: &Event) -> Option<u64>
    ensures { (c : Config) → (mine : List Event) → alive ≡ (score r q mine).1
        → StandsForStuck c r q mine held → StandsForStuck c r q (event.now ∷ mine) result }
{
    match (event.verb, event.answer) {
        (Verb::Ask(p), _) if event.by == r && p == 0 => None,
        (Verb::Head(p), Answer::Number(x)) if event.by == r && p == q && !alive => {
            Some(least_head(held, x))
        }
        _ => held,
    }
}

impl Peer {
    /// What `r` has read of the head of `q` after the event: `alive` says whether `q` is alive
    /// before it.
    fn after(self, alive: bool, r: u8, q: u8, event: &Event) -> Peer
        ensures { (c : Config) → (mine : List Event) → alive ≡ (score r q mine).1
            → HoldsPeer c r q mine self → HoldsPeer c r q (event.now ∷ mine) result }
    {
        Peer {
            head: head_after(self.head, r, q, event),
            stuck: stuck_after(self.stuck, alive, r, q, event),
        }
    }

    /// Whether the head leaves room for the position `i` and for `free` more.
    fn leaves_room(&self, ring: u16, i: u16, free: u8) -> bool
        ensures { result ≡ nat_lt (i + free) (self.now.head + ring) }
    {
        let last = u64::from(i) + u64::from(free);
        last < self.head || last - self.head < u64::from(ring)
    }
}

/// Whether the head, if there is one, and the ring do not reach above the limit.
fn is_short(head: Option<u64>, ring: u16, limit: u64) -> bool
    ensures { (c : Config) → ring ≡ c.ring → result ≡ lacks_room c limit head }
{
    match head {
        Some(head) => head <= limit && u64::from(ring) <= limit - head,
        None => false,
    }
}

/// Takes the event at each peer: the scores are those before it.
fn take_at_peers(peers: &mut [Peer; 7], scores: &Scores, r: u8, event: &Event)
    ensures { PeersTake r scores.now event.now peers.old peers.new }
{
    for q in 0..7u8 {
        let at = usize::from(q);
        peers[at] = peers[at].after(scores.alive(q), r, q, event);
    }
}

/// Takes the event at the peers, if it bears on one: most events read a count of beats.
#[inline(always)]
fn take_heads(peers: &mut [Peer; 7], scores: &Scores, r: u8, event: &Event)
    ensures { PeersTake r scores.now event.now peers.old peers.new }
{
    if tells_of_heads(&event.verb) {
        take_at_peers(peers, scores, r, event);
    }
}

impl Heads {
    /// The state of the replica `id` with nothing read: all are alive.
    pub fn new(config: &Config, id: u8) -> Heads
        requires few { config.now.replicas ≤ 7 }
        requires inside { id < config.now.replicas }
        ensures { StandsForHeads config.now id [] result }
    {
        Heads {
            scores: Scores::new(config.replicas, id),
            peers: [Peer {
                head: 0,
                stuck: None,
            }; 7],
        }
    }

    /// Takes the next event of `r`. Takes no memory.
    #[inline(always)]
    pub fn take(&mut self, r: u8, event: &Event)
        ensures { (c : Config) → (mine : List Event) → StandsForHeads c r mine self.old
            → StandsForHeads c r (event.now ∷ mine) self.new }
    {
        if !tells_of_peers(&event.verb) {
            return;
        }
        take_heads(&mut self.peers, &self.scores, r, event);
        self.scores.note(event);
    }

    /// The head of `q` that was read last, else 0.
    pub fn last_head(&self, q: u8) -> u64
        ensures { (c : Config) → (r : ℕ) → (mine : List Event) → q < c.replicas → c.replicas ≤ 7
            → StandsForHeads c r mine self.now → result ≡ last_head r q mine }
    {
        match self.peers.get(usize::from(q)) {
            Some(peer) => peer.head,
            None => 0,
        }
    }

    /// Whether the head of `q` that was read last leaves room for the position `i` and for `free`
    /// more in a log of `ring` slots.
    pub fn leaves_room(&self, q: u8, ring: u16, i: u16, free: u8) -> bool
        ensures { TellsOfHead self.now
            (λ c r mine. nat_lt (i + free) (last_head r q mine + c.ring)) q ring result }
    {
        match self.peers.get(usize::from(q)) {
            Some(peer) => peer.leaves_room(ring, i, free),
            None => false,
        }
    }

    /// Whether in the leadership under way a head of `q` was read that leaves no room up to the
    /// limit in a log of `ring` slots, and `q` was failed then.
    pub fn is_candidate(&self, q: u8, ring: u16, limit: u64) -> bool
        ensures { TellsOfHead self.now
            (λ c r mine. is_mark_candidate c r q limit mine) q ring result }
    {
        match self.peers.get(usize::from(q)) {
            Some(peer) => is_short(peer.stuck, ring, limit),
            None => false,
        }
    }
}
