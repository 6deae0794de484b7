//! The fabric of whole runs: it answers from packed words.
ghost use Rattle.std.specs.Prelude.{◌≡◌, [], IfOk};

use crate::making::make_step;
use mu_model::{Answer, Config, Event, Journal, NoMemory, Verb};
use mu_port::Memory;
use mu_words::{Found, Layout, with_each_verb};
use std::alloc::Global;
use std::marker::Model;

/// The words of all regions and rows, with the kept list of events of all replicas and what each
/// replica keeps of the words that it found. Contracts see the configuration, the list, and for
/// how many rows there are words.
#[derive(Drop)]
pub struct WordFabric {
    pub(crate) config: Config,
    pub(crate) kept: Journal,
    pub(crate) layout: Layout,
    pub(crate) words: Vec<u64>,
    pub(crate) founds: Vec<Found>,
}

impl Model for WordFabric {
    ghost use Rattle.mu_port.specs.Keeping.{Kept};
    ghost use Rattle.word_fabric.specs.Kept.{IsWordsKept};

    ghost Value = { Kept };

    ghost view = { λ f. record {
      config = f.config;
      events = f.kept.events;
      row_limit = f.layout.rows;
    } };

    ghost invariant = { λ f. IsWordsKept f.config f.kept.events f.kept.room f.layout f.words.items
        f.founds.items };
}

impl WordFabric {
    ghost use Rattle.std.specs.Prelude.{◌++◌, ◌∷◌};
    ghost use Rattle.mu_model.specs.Allowed.{Allowed};
    ghost use Rattle.mu_model.specs.Answers.{answer_of};
    ghost use Rattle.mu_model.specs.Contents.{IsConfig, row_count};
    ghost use Rattle.mu_model.specs.Histories.{history, part};
    ghost use Rattle.mu_model.specs.Legal.{IsLegal};

    /// A fabric with no event yet, and with room for just the rows of the configuration. Takes
    /// memory for the budgets of all replicas, for the words and for what is kept of them.
    pub fn start(alloc: Global, config: &Config) -> Result<WordFabric, NoMemory>
        requires { IsConfig config.now }
        ensures config { IfOk result (λ f. f.config ≡ config.now) }
        ensures empty { IfOk result (λ f. f.events ≡ []) }
        ensures limit { IfOk result (λ f. f.row_limit ≡ row_count config.now) }
    {
        WordFabric::start_with_room(alloc, config, config.rows.len() as u16)
    }

    /// Makes a step that is allowed, inlined where the verb is named: so the compiler settles its
    /// word, what it expects, answers and leaves, and what is noted.
    #[inline(always)]
    pub(crate) fn make(&mut self, by: u8, verb: Verb) -> Answer
        requires { Allowed self.old.config by (part by (history self.old.events)) verb }
        ensures answer { result ≡ answer_of self.old.config by (history self.old.events) verb }
        ensures events { self.new.events
            ≡ self.old.events ++ (record { by = by; verb = verb; answer = result }) ∷ [] }
        ensures config { self.new.config ≡ self.old.config }
        ensures limit { self.new.row_limit ≡ self.old.row_limit }
        ensures legal { IsLegal self.new.config self.new.events }
    {
        let found = &mut self.founds[usize::from(by)];
        let answer = make_step(&self.layout, &mut self.words, found, by, &verb);
        self.kept.push(Event { by, verb, answer });
        answer
    }
}

impl Memory for WordFabric {
    ghost config = { λ f. f.config };

    ghost events = { λ f. f.events };

    ghost row_limit = { λ f. f.row_limit };

    fn config(&self) -> &Config {
        &self.config
    }

    #[inline(always)]
    fn step(&mut self, by: u8, verb: Verb) -> Answer {
        with_each_verb!(verb, named => self.make(by, named))
    }

    fn ask(&mut self, by: u8, p: u8) -> Answer {
        self.make(by, Verb::Ask(p))
    }

    fn events(&self) -> &Journal {
        &self.kept
    }

    fn into_events(self) -> Journal {
        let WordFabric {
            config: _,
            kept,
            layout: _,
            words: _,
            founds: _,
        } = self;
        kept
    }
}
