//! How many cycles in a row a replica got nothing done, or changed nothing at all.
ghost use Rattle.std.specs.Prelude.{List, [], min, ℕ, ◌<◌, ◌||◌, ◌∷◌, ◌≡◌};
ghost use Rattle.mu_rest.specs.declared.sign.Sign.{Sign as SomeSign};
ghost use Rattle.mu_rest.specs.Progress.{HoldHeads, StandsForProgress, cycles_after, gets_done};
ghost use Rattle.mu_rest.specs.Signs.{IsOfSeven, ends_cycle, is_change};

use crate::sign::Sign;

/// More cycles in a row make no rest longer.
const MOST_CYCLES: u16 = 256;

/// How long a replica has got nothing done.
#[repr(C)]
#[derive(Clone, Copy)]
pub(crate) struct Progress {
    /// The heads of all that it read last, 0 before any.
    heads: [u64; 7],
    /// In how many cycles, in a row, it got nothing done: up to 256.
    idle: u16,
    /// In how many of these it changed no fence, minimum or slot either.
    quiet: u16,
    /// Whether the last step ended a cycle.
    ended: bool,
}

/// In how many cycles in a row nothing was done, after one more step.
#[inline(always)]
fn next_cycles(done: bool, ends: bool, before: u16) -> u16
    ensures { (cycles : ℕ) → before ≡ min 256 cycles
        → result ≡ min 256 (cycles_after done ends cycles) }
{
    if done {
        0
    } else if ends {
        before.saturating_add(1).min(MOST_CYCLES)
    } else {
        before
    }
}

/// Takes a read of the head of a replica: whether it is greater than the one before.
fn take_head(heads: &mut [u64; 7], replica: u8, head: u64) -> bool
    requires { replica < 7 }
    ensures greater { (signs : List SomeSign) → HoldHeads signs heads.old
        → result ≡ gets_done (SomeSign.Head replica head) signs }
    ensures heads { (signs : List SomeSign) → HoldHeads signs heads.old
        → HoldHeads (SomeSign.Head replica head ∷ signs) heads.new }
{
    let at = usize::from(replica);
    let before = heads[at];
    heads[at] = head;
    before < head
}

/// Takes a sign: whether its step got something done.
#[inline(always)]
fn take_done(heads: &mut [u64; 7], sign: Sign) -> bool
    requires { IsOfSeven sign }
    ensures done { (signs : List SomeSign) → HoldHeads signs heads.old
        → result ≡ gets_done sign signs }
    ensures heads { (signs : List SomeSign) → HoldHeads signs heads.old
        → HoldHeads (sign ∷ signs) heads.new }
{
    match sign {
        Sign::Work => true,
        Sign::Head(replica, head) => take_head(heads, replica, head),
        _ => false,
    }
}

/// Whether a step got something done, or changed a fence, a minimum or a slot.
#[inline(always)]
fn changes(done: bool, sign: Sign) -> bool
    ensures { result ≡ (done || is_change sign) }
{
    done || matches!(sign, Sign::Change)
}

/// Whether it is the sign of the last step of a cycle.
#[inline(always)]
fn ends_cycle(sign: Sign) -> bool
    ensures { result ≡ ends_cycle sign }
{
    matches!(sign, Sign::CycleEnd)
}

impl Progress {
    /// A replica that has made no step.
    pub(crate) fn new() -> Progress
        ensures { StandsForProgress [] result }
    {
        Progress {
            heads: [0; 7],
            idle: 0,
            quiet: 0,
            ended: false,
        }
    }

    /// In how many cycles in a row it got nothing done: up to 256.
    pub(crate) fn idle(&self) -> u16
        ensures { result ≡ self.now.idle }
    {
        self.idle
    }

    /// In how many cycles in a row it changed nothing: up to 256.
    pub(crate) fn quiet(&self) -> u16
        ensures { result ≡ self.now.quiet }
    {
        self.quiet
    }

    /// Whether the last step ended a cycle.
    pub(crate) fn has_ended_cycle(&self) -> bool
        ensures { result ≡ self.now.ended }
    {
        self.ended
    }

    /// Takes the sign of the newest step.
    #[inline(always)]
    pub(crate) fn take(&mut self, sign: Sign)
        requires { IsOfSeven sign }
        ensures { (signs : List SomeSign) → StandsForProgress signs self.old
            → StandsForProgress (sign ∷ signs) self.new }
    {
        let done = take_done(&mut self.heads, sign);
        let changed = changes(done, sign);
        let ends = ends_cycle(sign);
        self.idle = next_cycles(done, ends, self.idle);
        self.quiet = next_cycles(changed, ends, self.quiet);
        self.ended = ends;
    }
}
