//! The rounds of a replay: in each one, in order of id, each replica that is due takes a turn.
ghost use Rattle.std.specs.Prelude.{IfOk, List, Some, [], false, slice_get, suc, true, vec_capacity, ℕ, ◌+◌, ◌<◌, ◌≡◌, ◌≤◌};
ghost use Rattle.mu_model.specs.declared.script.Script.{Script};
ghost use Rattle.mu_model.specs.declared.config.Config.{Config};
ghost use Rattle.mu_model.specs.declared.event.Event.{Event};
ghost use Rattle.mu_model.specs.Contents.{IsConfig};
ghost use Rattle.mu_model.specs.Parts.{IsPossible};
ghost use Rattle.mu_node.specs.Node.{StandsForNode};
ghost use Rattle.mu_node.specs.declared.zeal.Zeal.{Zeal as SomeZeal};
ghost use Rattle.mu_node.specs.Turns.{IsLeft, TellsEnd};
ghost use Rattle.mu_cluster.specs.declared.rounds.Seat.{Seat};
ghost use Rattle.mu_cluster.specs.Rounds.{PlayedBy, Plays, Sits, all_left, left_of, one_if_going, part_of};

use crate::pauses::{go_on, next_pause, rounds_at};
use mu_input::Job;
use mu_model::{NoMemory, Pause};
use mu_node::{Node, NodeResult, Turn, Zeal};
use mu_port::{Memory, MemoryPort};
use std::alloc::Global;

/// A replica in its rounds.
#[derive(Drop)]
pub(crate) struct Seat {
    /// The replica.
    pub(crate) node: Node,
    /// In how many rounds since its last step it took none.
    waited: u32,
    /// Whether its journal has an end.
    ended: bool,
    /// Its next pause.
    next: Option<Pause>,
}

impl Seat {
    /// A replica that has taken no step, with its first pause.
    fn new(node: Node, next: Option<Pause>) -> Seat
        ensures node { result.node ≡ node }
        ensures going { result.ended ≡ false }
        ensures waited { result.waited ≡ 0 }
        ensures next { result.next ≡ next }
    {
        Seat {
            node,
            waited: 0,
            ended: false,
            next,
        }
    }

    /// What the replica leaves.
    pub(crate) fn into_result(self) -> NodeResult
        requires stands { (c : Config) × (r : ℕ) × (mine : List Event) × IsConfig c
            × IsPossible c r mine × StandsForNode c r mine self.node }
        ensures left { (c : Config) → (r : ℕ) → (mine : List Event) → IsConfig c → IsPossible c r mine
            → StandsForNode c r mine self.node → IsLeft c r mine result }
        ensures end { (c : Config) → (script : Script) → (r : ℕ) → (mine : List Event)
            → script.stops ≡ self.node.stops.items → IsConfig c → IsPossible c r mine
            → StandsForNode c r mine self.node → TellsEnd c script r mine result.end }
    {
        let Seat {
            node,
            waited: _,
            ended: _,
            next: _,
        } = self;
        node.into_result()
    }

    /// Its turn in a round: the memory is passed to it.
    fn play<M: Memory>(&mut self, port: &mut MemoryPort<M>, pauses: &[Pause])
        requires config { IsConfig port.old.config }
        requires inside { self.old.node.id < port.old.config.replicas }
        requires sits { (kind : SomeZeal)
            × ((script : Script)
            × ((rounds : ℕ)
            × Sits kind port.old.config script self.old.node.id
            (part_of self.old.node.id port.old.events) self.old rounds)) }
        ensures config { port.new.config ≡ port.old.config }
        ensures plays { (kind : SomeZeal) → (script : Script) → (rounds : ℕ)
            → pauses.now ≡ script.pauses
            → Sits kind port.old.config script self.old.node.id
            (part_of self.old.node.id port.old.events)
            self.old rounds
            → Plays kind port.old.config script self.old.node.id port.old.events port.new.events
            self.old self.new rounds }
        ensures left { (kind : SomeZeal) → (script : Script) → (rounds : ℕ)
            → Sits kind port.old.config script self.old.node.id
            (part_of self.old.node.id port.old.events)
            self.old rounds
            → left_of self.new + one_if_going self.old.ended ≤ left_of self.old }
    {
        if self.ended {
            return;
        }
        let id = self.node.id();
        if self.waited < rounds_at(self.next, self.node.steps()) {
            self.waited = self.waited.saturating_add(1);
            return;
        }
        port.pass_to(id);
        match self.node.turn(port) {
            Turn::Took(_) => {
                self.waited = 0;
                go_on(&mut self.next, pauses, id, self.node.steps());
            }
            Turn::Ended(_) => self.ended = true,
        }
    }
}

/// The replicas of a job before any step, each a node of this kind. Takes all memory of theirs.
pub(crate) fn seats(alloc: Global, job: &Job, kind: Zeal) -> Result<Vec<Seat>, NoMemory>
    requires { IsConfig job.now.config }
    ensures played { IfOk result
        (λ seats. PlayedBy kind job.now.config job.now.script [] seats.items 0 0) }
    ensures room { IfOk result (λ seats. vec_capacity seats ≡ job.now.config.replicas) }
{
    let mut seats = Vec::with_capacity(alloc, usize::from(job.config.replicas))?;
    for id in 0..job.config.replicas {
        seats.push_reserved(Seat::new(
            Node::new(alloc, job, id, kind)?,
            next_pause(job.script.pauses.as_slice(), id, 0),
        ));
    }
    Ok(seats)
}

/// Whether some replica has no end yet.
fn are_going(seats: &[Seat]) -> bool
    ensures some { result ≡ true
        → (k : ℕ) × ((seat : Seat) × ((slice_get seats.now k ≡ Some seat) × (seat.ended ≡ false))) }
    ensures none { result ≡ false → (r : ℕ) → (seat : Seat) → slice_get seats.now r ≡ Some seat
        → seat.ended ≡ true }
{
    for seat in seats {
        if !seat.ended {
            return true;
        }
    }
    false
}

/// One round.
fn round<M: Memory>(port: &mut MemoryPort<M>, seats: &mut [Seat], pauses: &[Pause])
    requires config { IsConfig port.old.config }
    requires played { (kind : SomeZeal)
        × ((script : Script)
        × ((rounds : ℕ)
        × ((pauses.now ≡ script.pauses)
        × PlayedBy kind port.old.config script port.old.events seats.old rounds 0))) }
    ensures config { port.new.config ≡ port.old.config }
    ensures played { (kind : SomeZeal) → (script : Script) → (rounds : ℕ)
        → pauses.now ≡ script.pauses
        → PlayedBy kind port.old.config script port.old.events seats.old rounds 0
        → PlayedBy kind port.old.config script port.new.events seats.new (suc rounds) 0 }
    ensures left { (k : ℕ) → (seat : Seat) → slice_get seats.old k ≡ Some seat → seat.ended ≡ false
        → all_left seats.new < all_left seats.old }
{
    for k in 0..seats.len() {
        seats[k].play(port, pauses);
    }
}

/// Round after round, until each replica has an end.
fn play_rounds<M: Memory>(port: &mut MemoryPort<M>, seats: &mut [Seat], pauses: &[Pause])
    requires config { IsConfig port.old.config }
    requires played { (kind : SomeZeal)
        × ((script : Script)
        × ((rounds : ℕ)
        × ((pauses.now ≡ script.pauses)
        × PlayedBy kind port.old.config script port.old.events seats.old rounds 0))) }
    ensures config { port.new.config ≡ port.old.config }
    ensures played { (kind : SomeZeal) → (script : Script) → (rounds : ℕ)
        → pauses.now ≡ script.pauses
        → PlayedBy kind port.old.config script port.old.events seats.old rounds 0
        → (more : ℕ) × PlayedBy kind port.old.config script port.new.events seats.new more 0 }
    ensures ended { (r : ℕ) → (seat : Seat) → slice_get seats.new r ≡ Some seat
        → seat.ended ≡ true }
{
    while are_going(seats) {
        round(port, seats, pauses);
    }
}

/// The memory after all rounds. Its port is passed round, so that no turn moves the memory.
pub(crate) fn finished<M: Memory>(memory: M, seats: &mut [Seat], pauses: &[Pause]) -> M
    requires config { IsConfig (M.config memory) }
    requires played { (kind : SomeZeal)
        × ((script : Script)
        × ((rounds : ℕ)
        × ((pauses.now ≡ script.pauses)
        × PlayedBy kind (M.config memory) script (M.events memory) seats.old rounds 0))) }
    ensures config { M.config result ≡ M.config memory }
    ensures played { (kind : SomeZeal) → (script : Script) → (rounds : ℕ)
        → pauses.now ≡ script.pauses
        → PlayedBy kind (M.config memory) script (M.events memory) seats.old rounds 0
        → (more : ℕ) × PlayedBy kind (M.config memory) script (M.events result) seats.new more 0 }
    ensures ended { (r : ℕ) → (seat : Seat) → slice_get seats.new r ≡ Some seat
        → seat.ended ≡ true }
{
    let mut port = memory.port(0);
    play_rounds(&mut port, seats, pauses);
    port.back()
}
