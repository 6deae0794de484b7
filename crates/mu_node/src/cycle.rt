//! The background turns of a replica: what is due at each place of the cycle.
ghost use Rattle.std.specs.Prelude.{IfSome, List, false, length, ◌%◌, ◌-◌, ◌<◌, ◌≡◌, ℕ};
ghost use Rattle.mu_model.specs.declared.config.Config.{Config};
ghost use Rattle.mu_model.specs.declared.event.Event.{Event as SomeEvent};
ghost use Rattle.mu_model.specs.Contents.{IsConfig};
ghost use Rattle.mu_model.specs.Parts.{IsPossible};
ghost use Rattle.mu_model.specs.Stretches.{is_odd};
ghost use Rattle.mu_lead.specs.Beside.{leads_at};
ghost use Rattle.mu_node.specs.Cycle.{IsBackgroundDue, IsDueAt, other_at, place_now, read_at};
ghost use Rattle.mu_node.specs.Due.{MayBeside};
ghost use Rattle.mu_node.specs.Keeping.{InBackground, KeepsSelf, OncePlanned};
ghost use Rattle.mu_node.specs.Node.{HasPlanned, StandsForNode};

use crate::answers::apply_ready;
use crate::node::Node;
use mu_follow::PLACES;
use mu_model::Verb;

/// How many places of the cycle are the host's.
const HOST_PLACES: u8 = 4;

/// The place at which the head is raised, besides two for each replica.
const HEAD_PLACE: u8 = 20;

/// A number as a place: places are few.
fn as_place(number: u32) -> u8
    ensures { number < 256 → result ≡ number }
{
    match u8::try_from(number) {
        Ok(place) => place,
        Err(_) => u8::MAX,
    }
}

/// The other replica with this place among them, counted from 1.
fn other(r: u8, place: u8) -> u8
    ensures { 0 < place → result ≡ other_at r place }
{
    if r < place {
        place
    } else {
        place.saturating_sub(1)
    }
}

impl Node {
    /// What is due in a background turn, if anything is. Before the head is raised, what is there
    /// is applied to the replica's own store, and handed on.
    #[inline(always)]
    pub(crate) fn background(&mut self) -> Option<Verb>
        requires config { IsConfig self.old.follow.config }
        ensures stands { (c : Config) → (r : ℕ) → (mine : List SomeEvent)
            → is_odd (length mine) ≡ false → IsPossible c r mine
            → StandsForNode c r mine self.old → HasPlanned c r mine self.new }
        ensures lead { self.new.lead ≡ self.old.lead }
        ensures keeps { KeepsSelf self.old self.new }
        ensures due { InBackground self.old
            (λ c r mine. IsBackgroundDue c r mine (leads_at self.old.lead.place) result) }
        ensures may { InBackground self.old
            (λ c r mine. IfSome result (λ verb. MayBeside c r mine self.old.lead verb)) }
    {
        let place = self.place();
        self.hand_on(place);
        self.due_at(place)
    }

    /// The place of the cycle of a background turn.
    fn place(&self) -> u8
        requires config { IsConfig self.now.follow.config }
        ensures { (c : Config) → (r : ℕ) → (mine : List SomeEvent) → StandsForNode c r mine self.now
            → result ≡ place_now c mine }
    {
        let cycle = u32::from(self.replicas) * 2 + PLACES;
        as_place(self.follow.steps() / 2 % cycle)
    }

    /// Applies what is there to the replica's own store, and hands it on, before the head is
    /// raised.
    fn hand_on(&mut self, place: u8)
        requires config { IsConfig self.old.follow.config }
        ensures stands { (c : Config) → (r : ℕ) → (mine : List SomeEvent)
            → is_odd (length mine) ≡ false → IsPossible c r mine
            → place ≡ place_now c mine → StandsForNode c r mine self.old
            → HasPlanned c r mine self.new }
        ensures lead { self.new.lead ≡ self.old.lead }
        ensures keeps { KeepsSelf self.old self.new }
    {
        if place == self.replicas.saturating_mul(2).saturating_add(HEAD_PLACE) {
            apply_ready(&mut self.follow, &mut self.answers);
        }
    }

    /// What is due at the place. Inlined, since half of all turns ask for it.
    #[inline(always)]
    fn due_at(&self, place: u8) -> Option<Verb>
        requires config { IsConfig self.now.follow.config }
        ensures due { OncePlanned self.now
            (λ c r mine. IsDueAt c r mine (leads_at self.now.lead.place) place result) }
        ensures may { OncePlanned self.now
            (λ c r mine. IfSome result (λ verb. MayBeside c r mine self.now.lead verb)) }
    {
        let host = self.replicas.saturating_mul(2);
        let replayer = host.saturating_add(HOST_PLACES);
        if place < host {
            Some(self.read(place))
        } else if place < replayer {
            self.grants.due(place - host)
        } else {
            self.follow.due(place - replayer, self.lead.is_leading())
        }
    }

    /// The beat and the reads of beats and of asks, at the places before the host's.
    fn read(&self, place: u8) -> Verb
        ensures { result ≡ read_at self.now.replicas self.now.id place }
    {
        let n = self.replicas;
        if place == 0 {
            Verb::Beat
        } else if place < n {
            Verb::ReadBeat(other(self.id, place))
        } else {
            Verb::ReadAsk(place - n)
        }
    }
}
