//! A replayer whose configuration gets one row more.
ghost use Rattle.std.specs.Prelude.{IfOk, List, [], ℕ, ◌∷◌, ◌≡◌};
ghost use Rattle.mu_model.specs.Growing.{with_more};
ghost use Rattle.mu_model.specs.declared.config.Row.{Row as SomeRow};
ghost use Rattle.mu_model.specs.declared.event.Event.{Event};
ghost use Rattle.mu_model.specs.Contents.{IsConfig};
ghost use Rattle.mu_model.specs.Parts.{IsPossible};
ghost use Rattle.mu_follow.specs.Follow.{StandsForFollow};
ghost use Rattle.mu_follow.specs.Growing.{HasRoomToFollow};

use crate::follow::Follow;
use mu_model::{Config, NoMemory, positions_in, reserve_to};

impl Follow {
    /// Makes room for one row more. Takes memory.
    pub fn make_room(&mut self) -> Result<(), NoMemory>
        requires config { IsConfig self.old.config }
        ensures keeps { (r : ℕ) → (mine : List Event)
            → StandsForFollow self.old.config r mine self.old
            → StandsForFollow self.old.config r mine self.new }
        ensures room { IfOk result (λ done. (r : ℕ) → (mine : List Event)
            → StandsForFollow self.old.config r mine self.old
            → HasRoomToFollow self.old.config self.new) }
        ensures config { self.new.config ≡ self.old.config }
        ensures handed { self.new.progress.handed ≡ self.old.progress.handed }
    {
        self.knowing.make_room(&self.config)?;
        self.rows.make_room()?;
        self.words.make_room()?;
        self.own_log.make_room()?;
        self.completion.make_room()?;
        reserve_to(
            &mut self.commits,
            positions_in(&self.config).saturating_add(1),
        )?;
        Ok(())
    }

    /// Goes over to a configuration with one row more at the end. Takes no memory.
    pub fn add_last(&mut self, config: Config)
        requires was { IsConfig self.old.config }
        requires config { IsConfig config }
        ensures stands { (row : SomeRow) → (r : ℕ) → (mine : List Event)
            → config ≡ with_more self.old.config (row ∷ [])
            → IsPossible self.old.config r mine → HasRoomToFollow self.old.config self.old
            → StandsForFollow self.old.config r mine self.old
            → StandsForFollow config r mine self.new }
        ensures config { self.new.config ≡ config }
        ensures handed { self.new.progress.handed ≡ self.old.progress.handed }
    {
        self.knowing.add_last(&config);
        self.rows.add_last(&config);
        self.words.add_last(&config);
        self.own_log.add_last();
        self.completion.add_last();
        self.config = config;
    }
}
