//! For how many reads in a row the beats of others have stood still.
ghost use Rattle.std.specs.Prelude.{List, [], min, ℕ, ◌<◌, ◌∷◌, ◌≡◌};
ghost use Rattle.mu_rest.specs.declared.sign.Sign.{Sign as SomeSign};
ghost use Rattle.mu_rest.specs.Signs.{IsOfSeven};
ghost use Rattle.mu_rest.specs.Silences.{HoldReads, HoldsReads, StandsForSilences, reads_of, silence_after};

use crate::sign::Sign;

/// After this many reads without a new beat a replica counts as failed.
const MOST_READS: u8 = 15;

/// What the last reads of the beats of one replica found.
#[repr(C)]
#[derive(Clone, Copy)]
pub(crate) struct Reads {
    /// The count that the last of them found.
    beats: u64,
    /// How many of them, in a row, found it: up to 15, and 0 before any.
    times: u8,
}

/// What one replica's reads of the beats of the others found.
#[repr(C)]
#[derive(Clone, Copy)]
pub(crate) struct Silences {
    /// What the reads of the beats of each replica found.
    reads: [Reads; 7],
    /// The silence of another that the last step showed.
    shown: u8,
}

impl Reads {
    /// How many of the last reads, in a row, found this count: up to 15.
    fn of(self, beats: u64) -> u8
        ensures { (q : ℕ) → (signs : List SomeSign) → HoldsReads q signs self
            → result ≡ min 15 (reads_of q beats signs) }
    {
        if self.beats == beats { self.times } else { 0 }
    }

    /// What is held after one more read, which found this count.
    fn after(self, beats: u64) -> Reads
        ensures { (q : ℕ) → (signs : List SomeSign) → HoldsReads q signs self
            → HoldsReads q (SomeSign.Beats q beats ∷ signs) result }
    {
        Reads {
            beats,
            times: self.of(beats).saturating_add(1).min(MOST_READS),
        }
    }
}

/// Takes a read of the beats of a replica: the silence that it shows.
fn take_read(reads: &mut [Reads; 7], replica: u8, beats: u64) -> u8
    requires { replica < 7 }
    ensures shown { (signs : List SomeSign) → HoldReads signs reads.old
        → result ≡ min 15 (reads_of replica beats signs) }
    ensures reads { (signs : List SomeSign) → HoldReads signs reads.old
        → HoldReads (SomeSign.Beats replica beats ∷ signs) reads.new }
{
    let at = usize::from(replica);
    let held = reads[at];
    reads[at] = held.after(beats);
    held.of(beats)
}

/// Takes a sign: the silence that it shows.
#[inline(always)]
fn silence_with(reads: &mut [Reads; 7], sign: Sign) -> u8
    requires { IsOfSeven sign }
    ensures shown { (signs : List SomeSign) → HoldReads signs reads.old
        → result ≡ silence_after sign signs }
    ensures reads { (signs : List SomeSign) → HoldReads signs reads.old
        → HoldReads (sign ∷ signs) reads.new }
{
    match sign {
        Sign::Beats(replica, beats) => take_read(reads, replica, beats),
        _ => 0,
    }
}

impl Silences {
    /// A replica that has made no step.
    pub(crate) fn new() -> Silences
        ensures { StandsForSilences [] result }
    {
        Silences {
            reads: [Reads { beats: 0, times: 0 }; 7],
            shown: 0,
        }
    }

    /// The silence of another that the last step shows.
    pub(crate) fn shown(&self) -> u8
        ensures { result ≡ self.now.shown }
    {
        self.shown
    }

    /// Takes the sign of the newest step.
    #[inline(always)]
    pub(crate) fn take(&mut self, sign: Sign)
        requires { IsOfSeven sign }
        ensures { (signs : List SomeSign) → StandsForSilences signs self.old
            → StandsForSilences (sign ∷ signs) self.new }
    {
        self.shown = silence_with(&mut self.reads, sign);
    }
}
