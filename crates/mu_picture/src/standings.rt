//! How a lane stands after the last step of its replica.
ghost use Rattle.std.specs.Prelude.{◌≡◌, ◌∷◌, ◌<◌, ◌≤◌, [], List};
ghost use Rattle.mu_model.specs.declared.config.Config.{Config};
ghost use Rattle.mu_model.specs.declared.event.Event.{Event};
ghost use Rattle.mu_model.specs.declared.script.Script.{Script as Settled};
ghost use Rattle.mu_picture.specs.Standings.{deed_after, halt_by, resumed_with, standing_of, standing_with as standing_with_parts};
ghost use Rattle.mu_picture.specs.StandingsHeld.{HoldStandings};

use crate::deeds::Deed;
use mu_course::Halt;

/// How a lane stands after the last step of its replica.
#[derive(Clone, Copy, PartialEq, Eq)]
pub enum Standing {
    /// It goes on.
    Going,
    /// The script passes its replica over.
    Paused,
    /// The replica stopped, spent its budget, finished or was outrun.
    Ended,
}

/// What holds of a replica that goes on after a pause, or after an end.
#[derive(Clone, Copy, PartialEq, Eq)]
pub struct Resumed {
    /// Whether a leadership of it is under way.
    pub leads: bool,
    /// Whom its scores name.
    pub named: u8,
}

/// How the lane stands after a step that does this, and after which this befalls its replica.
pub fn standing_with(deed: Option<Deed>, halt: Option<Halt>) -> Standing
    ensures { result ≡ standing_with_parts deed halt }
{
    match (deed, halt) {
        (Some(Deed::Outrun(_, _)), _) => Standing::Ended,
        (_, None) => Standing::Going,
        (_, Some(Halt::Pause(_))) => Standing::Paused,
        (_, Some(_)) => Standing::Ended,
    }
}

/// What holds of a replica whose lane stands so, if it goes on after a pause or an end.
pub fn resumption_at(standing: Standing, leads: bool, named: u8) -> Option<Resumed>
    ensures { result ≡ resumed_with standing leads named }
{
    match standing {
        Standing::Going => None,
        Standing::Paused => Some(Resumed { leads, named }),
        Standing::Ended => Some(Resumed { leads, named }),
    }
}

/// How all lanes stand.
#[derive(Drop)]
pub struct Standings {
    lanes: [Standing; 7],
}

impl Standings {
    /// Before any step.
    pub fn new() -> Standings
        ensures { (c : Config) → (script : Settled) → c.replicas ≤ 7
            → HoldStandings c script [] result }
    {
        Standings {
            lanes: [Standing::Going; 7],
        }
    }

    /// How the lane of a replica stands.
    pub fn of(&self, r: u8) -> Standing
        ensures { (c : Config) → (script : Settled) → (past : List Event) → r < c.replicas
            → HoldStandings c script past self.now → result ≡ standing_of c script r past }
    {
        match self.lanes.get(usize::from(r)) {
            Some(standing) => *standing,
            None => Standing::Going,
        }
    }

    /// Takes how a step left the lane of a replica.
    pub fn take(&mut self, r: u8, standing: Standing)
        ensures { (c : Config) → (script : Settled) → (past : List Event) → (e : Event)
            → e.by ≡ r → r < c.replicas
            → standing ≡ standing_with_parts (deed_after c past e) (halt_by c script past e)
            → HoldStandings c script past self.old → HoldStandings c script (e ∷ past) self.new }
    {
        if r < 7 {
            self.lanes[usize::from(r)] = standing;
        }
    }
}
