//! How long the cycles of a replica take.
ghost use Rattle.std.specs.Prelude.{◌≡◌};
ghost use Rattle.mu_rest.specs.Cycles.{BeginsAmong, BeginsCycle, CountsRest, EndsCycle, forgotten_at, late};

/// What a cycle may take if there are fewer processors than want to run: some time slices of
/// others, in nanoseconds.
const SLICES: u64 = 16_000_000;

/// No cycle counts as longer, in nanoseconds.
const MOST_TAKEN: u64 = 1_000_000_000;

/// A time is forgotten in so many times that time.
const FORGET_PART: u64 = 64;

/// When the cycle began, and how long those before it took. Moments and times are in nanoseconds.
#[repr(C)]
#[derive(Clone, Copy)]
pub(crate) struct Cycles {
    /// When it began.
    began: u64,
    /// For how long was rested since.
    rested: u64,
    /// When the longest cycle of late is forgotten.
    forgotten: u64,
}

/// When it is forgotten that a cycle which ended then took so long.
fn forgotten_at(ended: u64, took: u64) -> u64
    ensures { result ≡ forgotten_at ended took }
{
    ended.saturating_add(took.saturating_mul(FORGET_PART))
}

impl Cycles {
    /// The first cycle begins, if so much wants to run on so many processors: where that is more
    /// than there are, as if a cycle had taken some time slices.
    pub(crate) fn new(moment: u64, running: u32, processors: u32) -> Cycles
        ensures { BeginsAmong moment running processors result }
    {
        let took = if processors < running { SLICES } else { 0 };
        Cycles {
            began: moment,
            rested: 0,
            forgotten: forgotten_at(moment, took),
        }
    }

    /// What the longest cycle of late took.
    pub(crate) fn late(&self, moment: u64) -> u64
        ensures { result ≡ late self.now moment }
    {
        self.forgotten.saturating_sub(moment) / FORGET_PART
    }

    /// A cycle begins, whatever was before.
    pub(crate) fn begin(&mut self, moment: u64)
        ensures { BeginsCycle moment self.old self.new }
    {
        self.began = moment;
        self.rested = 0;
    }

    /// A cycle ends, and the next one begins.
    pub(crate) fn end(&mut self, moment: u64)
        ensures { EndsCycle moment self.old self.new }
    {
        let took = moment
            .saturating_sub(self.began)
            .saturating_sub(self.rested)
            .min(MOST_TAKEN);
        self.forgotten = self.forgotten.max(forgotten_at(moment, took));
        self.begin(moment);
    }

    /// Counts a rest in the cycle.
    pub(crate) fn count(&mut self, rest: u64)
        ensures { CountsRest rest self.old self.new }
    {
        self.rested = self.rested.saturating_add(rest);
    }
}
