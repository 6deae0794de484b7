//! A replica that asks again, since a region has gone astray.
ghost use Rattle.std.specs.Prelude.{List, false, length, true, ◌&&◌, ◌==◌, ◌∷◌, ◌≡◌};
ghost use Rattle.mu_model.specs.declared.event.Event.{Event as SomeEvent};
ghost use Rattle.mu_model.specs.declared.event.Verb.{Verb as SomeVerb};
ghost use Rattle.mu_model.specs.Again.{asks_again};
ghost use Rattle.mu_model.specs.Contents.{IsConfig};
ghost use Rattle.mu_model.specs.Histories.{event_by};
ghost use Rattle.mu_model.specs.Parts.{IsPossible};
ghost use Rattle.mu_model.specs.Steps.{is_named};
ghost use Rattle.mu_model.specs.Stretches.{is_odd};
ghost use Rattle.mu_lead.specs.declared.place.Place.{Place};
ghost use Rattle.mu_lead.specs.Again.{TellsAstray};
ghost use Rattle.mu_lead.specs.Journal.{HasLeft, IsWhere};
ghost use Rattle.mu_lead.specs.Standing.{HasHeeded};
ghost use Rattle.mu_node.specs.Due.{asks_out_of_turn, is_eager};
ghost use Rattle.mu_node.specs.Keeping.{Becomes, KeepsSelf, MovesLead};
ghost use Rattle.mu_node.specs.Node.{StandsForNode};

use crate::node::Node;
use crate::planning::is_turn_of_leader;
use crate::zeal::Zeal;
use mu_lead::Note;
use mu_model::{Answer, Verb};

impl Node {
    /// Whether an eager replica that is named asks again in this turn.
    pub(crate) fn asks_out_of_turn(&self) -> bool
        ghost mine: { List SomeEvent }
        requires stands { StandsForNode self.now.follow.config self.now.id mine self.now }
        ensures { result
            ≡ (asks_out_of_turn self.now.zeal self.now.follow.config self.now.id mine
            && is_odd (length mine)) }
    {
        match self.zeal {
            Zeal::Plain => false,
            Zeal::Eager => is_turn_of_leader(self.follow.steps()) && self.is_astray(),
        }
    }

    /// Whether the scores name the replica, and a region of its leadership has gone astray.
    fn is_astray(&self) -> bool
        ghost mine: { List SomeEvent }
        requires stands { StandsForNode self.now.follow.config self.now.id mine self.now }
        ensures { result
            ≡ (is_named self.now.follow.config self.now.id mine
            && asks_again self.now.follow.config self.now.id mine) }
    {
        let asks = self.lead.asks_again(self.watch.failed_replicas());
        self.watch.leader() == self.id && asks
    }

    /// Tells the leader whom the scores name, which is the replica itself, and lets it leave its
    /// leadership. Its note names the region that has gone astray.
    pub(crate) fn leave_leadership(&mut self) -> Note
        ghost mine: { List SomeEvent }
        requires stands { StandsForNode self.old.follow.config self.old.id mine self.old }
        requires named { is_named self.old.follow.config self.old.id mine ≡ true }
        requires asks { asks_again self.old.follow.config self.old.id mine ≡ true }
        ensures stands { Becomes StandsForNode mine self.old self.new }
        ensures left { MovesLead HasLeft mine self.old self.new }
        ensures begins { self.new.lead.place ≡ Place.Ask 0 }
        ensures follow { self.new.follow ≡ self.old.follow }
        ensures keeps { KeepsSelf self.old self.new }
        ensures heeded { HasHeeded mine self.new.lead }
        ensures told { TellsAstray self.old.follow.config self.old.id mine result }
    {
        self.heed();
        self.lead.leave()
    }

    /// Takes the first ask, and tells the leader its answer, of which nothing is to be noted.
    pub(crate) fn took_again(&mut self, id: u8, answer: Answer)
        ghost mine: { List SomeEvent }
        requires id { id ≡ self.old.id }
        requires config { IsConfig self.old.follow.config }
        requires stands { StandsForNode self.old.follow.config self.old.id mine self.old }
        requires begins { self.old.lead.place ≡ Place.Ask 0 }
        requires heeded { HasHeeded mine self.old.lead }
        requires odd { is_odd (length mine) ≡ true }
        requires named { is_named self.old.follow.config self.old.id mine ≡ true }
        requires asks { asks_again self.old.follow.config self.old.id mine ≡ true }
        requires eager { is_eager self.old.zeal ≡ true }
        ensures stands { IsPossible self.old.follow.config id
            (event_by id (SomeVerb.Ask 0) answer ∷ mine)
            → StandsForNode self.old.follow.config id
            (event_by id (SomeVerb.Ask 0) answer ∷ mine) self.new }
        ensures placed { HasLeft self.old.follow.config self.old.id mine self.old.lead
            → IsPossible self.old.follow.config id (event_by id (SomeVerb.Ask 0) answer ∷ mine)
            → IsWhere self.old.follow.config id (event_by id (SomeVerb.Ask 0) answer ∷ mine)
            self.new.lead }
        ensures zeal { self.new.zeal ≡ self.old.zeal }
        ensures stops { self.new.stops ≡ self.old.stops }
        ensures going { IsPossible self.old.follow.config id
            (event_by id (SomeVerb.Ask 0) answer ∷ mine)
            → self.new.lead.under_way ≡ true }
    {
        self.note(id, Verb::Ask(0), answer);
        let known = self.follow.known();
        self.lead
            .take(Verb::Ask(0), answer, known, self.follow.log());
    }
}
