//! A replica whose configuration gets one row more.
ghost use Rattle.std.specs.Prelude.{IfOk, List, [], vec_capacity, ℕ, ◌+◌, ◌<◌, ◌∷◌, ◌≡◌, ◌≤◌};
ghost use Rattle.mu_model.specs.Growing.{with_more};
ghost use Rattle.mu_model.specs.declared.config.Config.{Config};
ghost use Rattle.mu_model.specs.declared.event.Event.{Event as SomeEvent};
ghost use Rattle.mu_model.specs.Contents.{IsConfig, row_count};
ghost use Rattle.mu_model.specs.Parts.{IsPossible};
ghost use Rattle.mu_model.specs.Room.{reserve};
ghost use Rattle.mu_node.specs.declared.deciding.Decision.{Decision};
ghost use Rattle.mu_node.specs.Deciding.{HasDecided};
ghost use Rattle.mu_node.specs.Growing.{Growth, HasRoomForRow, StandsInTurn, StandsOn};
ghost use Rattle.mu_node.specs.Node.{StandsForNode};

use crate::node::Node;
use mu_knowledge::Commit;
use mu_model::{Config, NoMemory, positions_in};

/// How many rows there are with one more.
fn rows_with_one(config: &Config) -> usize
    requires { row_count config.now ≤ 1500 }
    ensures { result ≡ row_count config.now + 1 }
{
    config.rows.len() + 1
}

/// Makes room in both lists for an item at each position, and for one more. Takes memory.
fn make_room_for_lists(
    log: &mut Vec<u16>,
    commits: &mut Vec<Commit>,
    config: &Config,
) -> Result<(), NoMemory>
    requires { row_count config.now ≤ 1500 }
    ensures log { log.new.items ≡ log.old.items }
    ensures log_grows { vec_capacity log.old ≤ vec_capacity log.new }
    ensures log_room { IfOk result
        (λ done. row_count config.now + reserve config.now + 1 < vec_capacity log.new) }
    ensures commits { commits.new.items ≡ commits.old.items }
    ensures commits_grow { vec_capacity commits.old ≤ vec_capacity commits.new }
    ensures commit_room { IfOk result
        (λ done. row_count config.now + reserve config.now + 1 < vec_capacity commits.new) }
{
    let most = positions_in(config).saturating_add(1);
    log.reserve(most.saturating_sub(log.len()))?;
    commits.reserve(most.saturating_sub(commits.len()))
}

impl Node {
    /// Makes room for one row more. Takes memory. Without it the replica stands as it did.
    pub fn make_room(&mut self) -> Result<(), NoMemory>
        requires config { IsConfig self.old.follow.config }
        ensures keeps { StandsOn self.old self.new }
        ensures room { IfOk result (λ done. (c : Config) → (r : ℕ) → (mine : List SomeEvent)
            → StandsInTurn c r mine self.old → HasRoomForRow c self.new) }
        ensures config { self.new.follow.config ≡ self.old.follow.config }
        ensures id { self.new.id ≡ self.old.id }
        ensures zeal { self.new.zeal ≡ self.old.zeal }
        ensures stops { self.new.stops ≡ self.old.stops }
    {
        self.follow.make_room()?;
        self.lead.make_room()?;
        self.answers.make_room(rows_with_one(self.follow.config()))?;
        make_room_for_lists(&mut self.log, &mut self.commits, self.follow.config())?;
        Ok(())
    }

    /// Goes over to a configuration with one row more at the end, of which the leader and the
    /// replayer have a copy each; also once it decided what it does next. Takes no memory.
    pub fn add_last(&mut self, config: Config, copy: Config)
        ghost growth: { Growth }
        requires was { IsConfig growth.config }
        requires config { IsConfig config }
        requires copy { copy ≡ config }
        requires grown { config ≡ with_more growth.config (growth.row ∷ []) }
        requires possible { IsPossible growth.config growth.replica growth.mine }
        requires stands { StandsInTurn growth.config growth.replica growth.mine self.old }
        requires room { HasRoomForRow growth.config self.old }
        ensures stands { StandsInTurn config growth.replica growth.mine self.new }
        ensures between { StandsForNode growth.config growth.replica growth.mine self.old
            → StandsForNode config growth.replica growth.mine self.new }
        ensures decided { (decision : Decision) → HasDecided growth.mine self.old decision
            → HasDecided growth.mine self.new decision }
        ensures config { self.new.follow.config ≡ config }
        ensures id { self.new.id ≡ self.old.id }
        ensures zeal { self.new.zeal ≡ self.old.zeal }
        ensures stops { self.new.stops ≡ self.old.stops }
    {
        self.follow.add_last(copy);
        let known = self.follow.known();
        self.lead.add_last(config, known, self.follow.log());
    }
}
