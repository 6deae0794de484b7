//! Whether a replica may make a verb: the walk of its points, whose reason isn't asked for.
ghost use Rattle.std.specs.Prelude.{IsTrue, List, ℕ, ◌↔◌};
ghost use Rattle.mu_model.specs.declared.event.Event.{Event};
ghost use Rattle.mu_model.specs.declared.event.Verb.{Verb as SomeVerb};
ghost use Rattle.mu_model.specs.Contents.{IsConfig};
ghost use Rattle.mu_model.specs.Parts.{IsPossible};
ghost use Rattle.mu_model.specs.Points.{AreMet, points};
ghost use Rattle.mu_replicas.specs.Stands.{StandsForReplica};
ghost use Rattle.mu_replicas.specs.Finding.{TellsIfMet};

use crate::found::Found;
use crate::replica::Replica;
use mu_model::{Config, Verb};

impl Replica {
    /// Whether a `PutSlot` meets its points, if the replica has a step left. Apart from the commoner
    /// verbs, which cost less.
    #[inline(never)]
    fn meets_put(&self, config: &Config, p: u8, i: u16, b: u32, v: u16) -> bool
        requires { IsConfig config.now }
        ensures { TellsIfMet config.now self.now (SomeVerb.PutSlot p i b v) result }
    {
        self.why_no_put(config, p, i, b, v, Found::new()).is_none()
    }

    /// The same of a verb of any kind.
    #[inline(never)]
    fn meets_any(&self, config: &Config, verb: &Verb) -> bool
        requires { IsConfig config.now }
        ensures { TellsIfMet config.now self.now verb.now result }
    {
        self.why_no_verb(config, verb, Found::new()).is_none()
    }

    /// The same, with arms for the commonest verbs: there the compiler makes no reasons.
    #[inline(always)]
    fn meets_points(&self, config: &Config, verb: &Verb) -> bool
        requires { IsConfig config.now }
        ensures { TellsIfMet config.now self.now verb.now result }
    {
        let found = Found::new();
        match *verb {
            Verb::Beat => found.is_none(),
            Verb::ReadRow(v, k) => self.why_no_read_row(config, v, k, found).is_none(),
            Verb::ReadAsk(w) => self.why_no_read_ask(config, w, found).is_none(),
            Verb::ReadBeat(q) => self.why_no_read_beat(config, q, found).is_none(),
            Verb::Look(p, i) => self.why_no_look(config, p, i, found).is_none(),
            Verb::WriteRow(j, k, x) => self.why_no_write_row(config, j, k, x, found).is_none(),
            Verb::Head(q) => self.why_no_head(config, q, found).is_none(),
            Verb::Fuo(p) => self.why_no_fuo(config, p, found).is_none(),
            Verb::Enter(p, target) => self.why_no_enter(config, p, target, found).is_none(),
            Verb::RaiseFuo(p, u) => self.why_no_raise_fuo(config, p, u, found).is_none(),
            Verb::RaiseHead(h) => self.why_no_raise_head(config, h, found).is_none(),
            Verb::PutSlot(p, i, b, v) => self.meets_put(config, p, i, b, v),
            _ => self.meets_any(config, verb),
        }
    }

    /// Whether the replica may make the verb next. Takes no memory, and makes no reason.
    #[inline(always)]
    pub fn is_allowed(&self, config: &Config, verb: &Verb) -> bool
        requires { IsConfig config.now }
        ensures { (r : ℕ) → (mine : List Event) → IsPossible config.now r mine
            → StandsForReplica config.now r mine self.now
            → (IsTrue result ↔ AreMet config.now r mine (points config.now r mine verb.now)) }
    {
        if !self.why_no_step(config).is_none() {
            return false;
        }
        self.meets_points(config, verb)
    }
}
