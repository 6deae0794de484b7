//! The access of one replica to memory.
use mu_model::{Answer, Verb};

/// The access of one replica to the memory of all.
///
/// It means the replica's number, the configuration, the replica's part, and, if the port tells it,
/// the list of the events of all replicas. Two values are the same port if they are of one fabric,
/// with one configuration and one number.
pub trait Port {
    ghost use Rattle.std.specs.Prelude.{List, ℕ, ◌∷◌, ◌≡◌};
    ghost use Rattle.std.specs.declared.option.Option.{Option};
    ghost use Rattle.mu_model.specs.Allowed.{Allowed};
    ghost use Rattle.mu_model.specs.Parts.{IsPossible};
    ghost use Rattle.mu_model.specs.declared.config.Config.{Config};
    ghost use Rattle.mu_model.specs.declared.event.Event.{Event};
    ghost use Rattle.mu_model.specs.declared.event.Verb.{Verb as SomeVerb};
    ghost use Rattle.mu_port.specs.Telling.{FitsTold, Tells};

    ghost number: { Self → ℕ };

    ghost config: { Self → Config };

    // the replica's own events, newest first
    ghost part: { Self → List Event };

    // the events of all replicas in true order, if the port tells them
    ghost whole: { Self → Option (List Event) };

    ghost same: { Self → Self → Type 0 };

    /// The number of the replica, counted from 0. Takes no memory.
    fn id(&self) -> u8
        ensures number { result ≡ number self.now }
        ensures possible { IsPossible (config self.now) (number self.now) (part self.now) }
        ensures fits { FitsTold (config self.now) (number self.now) (part self.now)
            (whole self.now) };

    /// Makes a step that is allowed after the part. Takes no memory, and does not wait.
    fn step(&mut self, verb: Verb) -> Answer
        requires { Allowed (config self.old) (number self.old) (part self.old) verb }
        ensures part { part self.new
            ≡ (record { by = number self.old; verb = verb; answer = result }) ∷ part self.old }
        ensures told { Tells (config self.old) (number self.old) (whole self.old)
            (whole self.new) verb result }
        ensures same { same self.old self.new }
        ensures possible { IsPossible (config self.new) (number self.new) (part self.new) }
        ensures fits { FitsTold (config self.new) (number self.new) (part self.new)
            (whole self.new) };

    /// The same of an ask. An eager node makes one out of turn: with a call of its own for it a node
    /// calls `step` at one place, where the compiler inlines it.
    fn ask(&mut self, p: u8) -> Answer
        requires { Allowed (config self.old) (number self.old) (part self.old) (SomeVerb.Ask p) }
        ensures part { part self.new
            ≡ (record { by = number self.old; verb = SomeVerb.Ask p; answer = result })
            ∷ part self.old }
        ensures told { Tells (config self.old) (number self.old) (whole self.old)
            (whole self.new) (SomeVerb.Ask p) result }
        ensures same { same self.old self.new }
        ensures possible { IsPossible (config self.new) (number self.new) (part self.new) }
        ensures fits { FitsTold (config self.new) (number self.new) (part self.new)
            (whole self.new) };

    ghost same_refl: { (x : Self) → same x x };

    ghost same_trans: { (x y z : Self) → same x y → same y z → same x z };

    ghost same_number: { (x y : Self) → same x y → number y ≡ number x };

    ghost same_config: { (x y : Self) → same x y → config y ≡ config x };
}
