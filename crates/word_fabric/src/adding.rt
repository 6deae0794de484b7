//! A fabric of words with room for more rows, and its next row.
ghost use Rattle.std.specs.Prelude.{IfOk, [], ◌≡◌, ◌≤◌};
ghost use Rattle.mu_model.specs.Contents.{IsConfig, row_count};

use crate::fabric::WordFabric;
use crate::making::{first_founds, first_words};
use mu_model::{Answer, Config, Journal, NoMemory, Verb};
use mu_port::{GrowingMemory, Memory, MemoryPort};
use mu_words::Layout;
use std::alloc::Global;
use std::marker::Model;

impl WordFabric {
    ghost use Rattle.mu_model.specs.Legal.{IsLegal};
    ghost use Rattle.mu_port.specs.Growing.{IsGrown};

    /// A fabric with no event yet, and with room for `rows` rows of each replica: a configuration
    /// has at most 1,500. Takes memory for the budgets of all replicas, for the words and for what
    /// is kept of them.
    pub(crate) fn start_with_room(
        alloc: Global,
        config: &Config,
        rows: u16,
    ) -> Result<WordFabric, NoMemory>
        requires config { IsConfig config.now }
        requires rows { row_count config.now ≤ rows }
        ensures config { IfOk result (λ f. f.config ≡ config.now) }
        ensures empty { IfOk result (λ f. f.events ≡ []) }
        ensures limit { IfOk result (λ f. f.row_limit ≡ rows) }
    {
        let room = usize::from(config.replicas) * config.budget as usize;
        let layout = Layout::with_rows(config, rows);
        Ok(WordFabric {
            config: config.try_clone()?,
            kept: Journal::with_room(alloc, room)?,
            layout,
            words: first_words(alloc, config, &layout)?,
            founds: first_founds(alloc, config)?,
        })
    }

    /// Goes over to a configuration with one row more at the end: the words have places by the
    /// room, so that those of no other row move. Takes no memory.
    fn add_last(&mut self, grown: Config)
        requires grown { IsGrown self.old.config grown }
        requires good { IsConfig grown }
        requires room { row_count grown ≤ self.old.row_limit }
        ensures config { self.new.config ≡ grown }
        ensures events { self.new.events ≡ self.old.events }
        ensures limit { self.new.row_limit ≡ self.old.row_limit }
        ensures legal { IsLegal self.new.config self.new.events }
    {
        self.config = grown;
    }
}

/// A fabric of words to whose configuration rows may come. It is a type of its own, since a step of
/// a [`WordFabric`] is inlined into the turns of a replay only while nothing else calls it.
#[derive(Drop)]
pub struct GrowingFabric {
    fabric: WordFabric,
}

impl Model for GrowingFabric {
    ghost use Rattle.mu_port.specs.Keeping.{Kept};

    ghost Value = { Kept };

    ghost view = { λ f. f.fabric };
}

impl GrowingFabric {
    /// A fabric with no event yet, and with room for `rows` rows of each replica: a configuration
    /// has at most 1,500. Takes memory for the budgets of all replicas, for the words and for what
    /// is kept of them.
    pub fn start(alloc: Global, config: &Config, rows: u16) -> Result<GrowingFabric, NoMemory>
        requires config { IsConfig config.now }
        requires rows { row_count config.now ≤ rows }
        ensures config { IfOk result (λ f. f.config ≡ config.now) }
        ensures empty { IfOk result (λ f. f.events ≡ []) }
        ensures limit { IfOk result (λ f. f.row_limit ≡ rows) }
    {
        let fabric = WordFabric::start_with_room(alloc, config, rows)?;
        Ok(GrowingFabric { fabric })
    }
}

impl Memory for GrowingFabric {
    ghost config = { λ f. f.config };

    ghost events = { λ f. f.events };

    ghost row_limit = { λ f. f.row_limit };

    fn config(&self) -> &Config {
        self.fabric.config()
    }

    fn step(&mut self, by: u8, verb: Verb) -> Answer {
        self.fabric.make(by, verb)
    }

    fn ask(&mut self, by: u8, p: u8) -> Answer {
        self.fabric.make(by, Verb::Ask(p))
    }

    fn events(&self) -> &Journal {
        self.fabric.events()
    }

    fn into_events(self) -> Journal {
        let GrowingFabric { fabric } = self;
        fabric.into_events()
    }
}

impl GrowingMemory for GrowingFabric {
    fn add_last(&mut self, grown: Config) {
        self.fabric.add_last(grown);
    }
}

/// The access of one replica to a fabric whose configuration may grow.
pub type GrowingPort = MemoryPort<GrowingFabric>;
