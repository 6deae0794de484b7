//! How long a replica lets others on, by its own steps.
ghost use Rattle.std.specs.Prelude.{List, [], nat_lt, ◌∷◌, ◌≡◌};
ghost use Rattle.mu_rest.specs.Cycles.{BeginsAmong, BeginsCycle};
ghost use Rattle.mu_rest.specs.declared.sign.Sign.{Sign as SomeSign};
ghost use Rattle.mu_rest.specs.Rests.{HasSettings, Hastens, StandsForRests, Tells, may_rest, shown_by};
ghost use Rattle.mu_rest.specs.Signs.{IsOfSeven};

use crate::cycles::Cycles;
use crate::naps::{Rest, Shown, rest_after};
use crate::progress::Progress;
use crate::sign::Sign;
use crate::silences::Silences;

/// For so many cycles there is no rest if another is known to have ended: some fifteen until it counts
/// as failed, and those in which the next leader begins.
const HASTE: u8 = 80;

/// What the steps of a replica and the times of its cycles have come to. Moments and times are in
/// nanoseconds; whoever calls has a clock.
#[repr(C)]
#[derive(Clone, Copy)]
pub struct Rests {
    silences: Silences,
    progress: Progress,
    cycles: Cycles,
    /// The longest rest, or 0 if it isn't fixed.
    fixed: u64,
    /// Whether there are fewer processors than replicas.
    crowded: bool,
    /// For how many more cycles there is no rest.
    haste: u8,
}

impl Rests {
    /// Those of one of so many replicas before any step, if so much wants to run on so many
    /// processors. Its rests are at most `fixed` nanoseconds, or go by its cycles if that is 0.
    pub fn new(moment: u64, replicas: u32, running: u32, processors: u32, fixed: u64) -> Rests
        ensures stands { StandsForRests [] result }
        ensures cycles { BeginsAmong moment running processors result.cycles }
        ensures settings { HasSettings fixed (nat_lt processors replicas) result }
        ensures haste { result.haste ≡ 0 }
    {
        Rests {
            silences: Silences::new(),
            progress: Progress::new(),
            cycles: Cycles::new(moment, running, processors),
            fixed,
            crowded: processors < replicas,
            haste: 0,
        }
    }

    /// Takes the sign of the newest step.
    #[inline(always)]
    pub fn take(&mut self, sign: Sign)
        requires { IsOfSeven sign }
        ensures signs { (signs : List SomeSign) → StandsForRests signs self.old
            → StandsForRests (sign ∷ signs) self.new }
        ensures cycles { self.new.cycles ≡ self.old.cycles }
        ensures settings { HasSettings self.old.fixed self.old.crowded self.new }
        ensures haste { self.new.haste ≡ self.old.haste }
    {
        self.silences.take(sign);
        self.progress.take(sign);
    }

    /// Whether a rest may be due. If not, nobody has to look at a clock.
    #[inline(always)]
    pub fn may_rest(&self) -> bool
        ensures { result ≡ may_rest self.now }
    {
        0 < self.silences.shown() || self.progress.has_ended_cycle()
    }

    /// Whether the last step ended a cycle.
    #[inline(always)]
    pub fn has_ended_cycle(&self) -> bool
        ensures { result ≡ self.now.progress.ended }
    {
        self.progress.has_ended_cycle()
    }

    /// In how many cycles in a row it changed nothing: up to 256.
    #[inline(always)]
    pub fn quiet_cycles(&self) -> u16
        ensures { result ≡ self.now.progress.quiet }
    {
        self.progress.quiet()
    }

    /// The rest that is due now.
    pub fn rest(&mut self, moment: u64) -> Rest
        ensures { Tells moment self.old self.new result }
    {
        let ended = self.progress.has_ended_cycle();
        if ended {
            self.cycles.end(moment);
        }
        let late = self.cycles.late(moment);
        let rest = if 0 < self.haste {
            Rest::NONE
        } else {
            rest_after(self.fixed, self.crowded, late, &self.shown())
        };
        self.cycles.count(rest.nanoseconds);
        self.haste = self.haste.saturating_sub(u8::from(ended));
        rest
    }

    /// Another is known to have ended: it counts as failed the sooner the less is rested.
    pub fn hasten(&mut self)
        ensures { Hastens self.old self.new }
    {
        self.haste = HASTE;
    }

    /// A cycle begins after a sleep that was no rest: there is something to do.
    pub fn wake(&mut self, moment: u64)
        ensures signs { (signs : List SomeSign) → StandsForRests signs self.old
            → StandsForRests (SomeSign.Work ∷ signs) self.new }
        ensures cycles { BeginsCycle moment self.old.cycles self.new.cycles }
        ensures settings { HasSettings self.old.fixed self.old.crowded self.new }
        ensures haste { self.new.haste ≡ self.old.haste }
    {
        self.take(Sign::Work);
        self.cycles.begin(moment);
    }

    fn shown(&self) -> Shown
        ensures { result ≡ shown_by self.now }
    {
        Shown {
            silence: self.silences.shown(),
            ended: self.progress.has_ended_cycle(),
            idle: self.progress.idle(),
            quiet: self.progress.quiet(),
        }
    }
}
