//! For how long a replica lets others on.
ghost use Rattle.std.specs.Prelude.{max, min, ◌/◌, ◌==◌, ◌≡◌};
ghost use Rattle.mu_rest.specs.Naps.{IsIdleNap, IsNap, IsRest, IsSilenceNap, are_scarce, cycles_counted, is_awake, longest};

/// Processors are scarce if a cycle takes longer than this, in nanoseconds.
const SCARCE: u64 = 1_000_000;

/// The longest rest for a silence is so small a part of the longest cycle of late.
const NAP_PART: u64 = 4;

/// Its limits, in nanoseconds.
const LEAST_LONGEST: u64 = 4_000;

const MOST_LONGEST: u64 = 8_192_000;

/// No longer rest is spent awake, in nanoseconds: a sleep takes some fifty microseconds more than
/// is asked for.
const MOST_AWAKE: u64 = 50_000;

/// More idle cycles make no rest longer.
const MOST_IDLE: u16 = 8;

/// Where processors aren't scarce, so many cycles without a change count for nothing: whoever naps
/// beats no more, and the others, who don't nap, would soon hold it failed.
const QUIET_FIRST: u16 = 248;

/// A rest.
#[derive(Clone, Copy, Debug, PartialEq, Eq)]
pub struct Rest {
    /// How long it is; 0 is none.
    pub nanoseconds: u64,
    /// Whether to spend it awake, on the processor.
    pub awake: bool,
}

impl Rest {
    /// No rest.
    pub const NONE: Rest = Rest {
        nanoseconds: 0,
        awake: false,
    };
}

/// What the steps of a replica show.
#[derive(Clone, Copy)]
pub(crate) struct Shown {
    /// The silence of another that the last step shows.
    pub silence: u8,
    /// Whether the last step ended a cycle.
    pub ended: bool,
    /// In how many cycles in a row nothing got done.
    pub idle: u16,
    /// In how many nothing was changed either.
    pub quiet: u16,
}

/// The rest for a silence, if nothing shortens it.
fn silence_nap(silence: u8) -> u64
    ensures { IsSilenceNap silence result }
{
    match silence {
        1..=3 => 4_000,
        4 => 16_000,
        5 => 64_000,
        6 => 256_000,
        7 => 1_024_000,
        8 => 4_096_000,
        9..=14 => MOST_LONGEST,
        _ => 0,
    }
}

/// The rest after idle cycles. The first three are those in which a leader begins.
fn idle_nap(cycles: u16) -> u64
    ensures { IsIdleNap cycles result }
{
    match cycles {
        0..=3 => 0,
        4 => 16_000,
        5 => 64_000,
        6 => 256_000,
        7 => 1_024_000,
        _ => 2_048_000,
    }
}

fn are_scarce(late: u64) -> bool
    ensures { result ≡ are_scarce late }
{
    SCARCE < late
}

/// The longest rest for a silence.
fn longest(fixed: u64, late: u64) -> u64
    ensures { result ≡ longest fixed late }
{
    if fixed == 0 {
        (late / NAP_PART).min(MOST_LONGEST).max(LEAST_LONGEST)
    } else {
        fixed
    }
}

/// The cycles in a row that count.
fn cycles_counted(shown: &Shown, late: u64) -> u16
    ensures { result ≡ cycles_counted shown.now late }
{
    if are_scarce(late) {
        shown.idle.min(MOST_IDLE)
    } else {
        shown.quiet.saturating_sub(QUIET_FIRST)
    }
}

/// Whether a rest is spent awake.
fn is_awake(crowded: bool, late: u64, nanoseconds: u64) -> bool
    ensures { result ≡ is_awake crowded late nanoseconds }
{
    !crowded && !are_scarce(late) && nanoseconds <= MOST_AWAKE
}

/// How many nanoseconds the rest after a step has that shows this.
fn nap(fixed: u64, late: u64, shown: &Shown) -> u64
    ensures { IsNap fixed late shown.now result }
{
    if shown.ended {
        let wanted = idle_nap(cycles_counted(shown, late));
        if fixed == 0 {
            wanted
        } else {
            fixed.min(wanted)
        }
    } else {
        longest(fixed, late).min(silence_nap(shown.silence))
    }
}

/// The rest after a step that shows this, if the longest cycle of late took so long, and no rest is
/// to be longer than `fixed`, unless that is 0; crowded if not each replica has a processor.
pub(crate) fn rest_after(fixed: u64, crowded: bool, late: u64, shown: &Shown) -> Rest
    ensures { IsRest fixed crowded late shown.now result }
{
    let nanoseconds = nap(fixed, late, shown);
    Rest {
        nanoseconds,
        awake: is_awake(crowded, late, nanoseconds),
    }
}
