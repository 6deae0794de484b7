//! What a thread does so that others go on, with tokens that only this makes.
ghost use Rattle.std.specs.Prelude.{◌+◌, ◌<◌, ◌≡◌};

use std::thread;
use std::time::{Clock, Duration};

/// Yields that were made.
#[derive(Drop)]
pub(crate) struct Yields {
    /// How many.
    count: u64,
}

/// A sleep that was made.
#[derive(Drop)]
pub(crate) struct Slept {
    /// For how long.
    nap: Duration,
}

/// Time that was spent awake.
#[derive(Drop)]
pub(crate) struct Waited {
    /// How many nanoseconds.
    nanoseconds: u64,
}

impl Yields {
    /// None yet.
    fn none() -> Yields
        ensures { result.count ≡ 0 }
    {
        Yields { count: 0 }
    }

    /// Yields once more.
    fn and_one(self) -> Yields
        requires { self.count < 18_446_744_073_709_551_615 }
        ensures { result.count ≡ self.count + 1 }
    {
        thread::yield_now();
        Yields {
            count: self.count + 1,
        }
    }
}

/// So many yields.
pub(crate) fn yielded(count: u64) -> Yields
    ensures { result.count ≡ count }
{
    let mut made = Yields::none();
    for _ in 0..count {
        made = made.and_one();
    }
    made
}

/// A sleep, unless its length is zero. A system adds time of its own to each.
pub(crate) fn nap_taken<C: Clock>(clock: &C, nap: Duration) -> Slept
    ensures { result.nap ≡ nap }
{
    if !nap.is_zero() {
        thread::sleep(clock, nap);
    }
    Slept { nap }
}

/// The time by a clock, in nanoseconds; 0 if it can't be read.
#[inline(always)]
pub(crate) fn moment<C: Clock>(clock: &C) -> u64 {
    match clock.monotonic() {
        Ok(time) => u64::try_from(time.as_nanos()).unwrap_or(u64::MAX),
        Err(_) => 0,
    }
}

/// So many nanoseconds awake, in which it yields: whoever else wants this processor has it. If the
/// clock stands still, as many yields.
#[inline(always)]
pub(crate) fn wait_made<C: Clock>(clock: &C, nanoseconds: u64) -> Waited
    ensures { result.nanoseconds ≡ nanoseconds }
{
    if 0 < nanoseconds {
        let began = moment(clock);
        for _ in 0..nanoseconds {
            thread::yield_now();
            if nanoseconds <= moment(clock).saturating_sub(began) {
                break;
            }
        }
    }
    Waited { nanoseconds }
}
