//! By when a replica has every command.
ghost use Rattle.std.specs.Prelude.{◌<◌, ◌≡◌, ◌≤◌, ◌^◌, length};
ghost use Rattle.mu_enough.specs.Committed.{committed_by, committed_in_any_ring, committed_in_large_ring, steps_after, steps_after_in_any_ring, steps_after_pauses};
ghost use Rattle.mu_enough.specs.Promises.{IsPromise, why_not_committed, why_not_in_small_ring};
ghost use Rattle.mu_model.specs.Contents.{IsConfig};

use crate::counts::has_large_ring;
use crate::large_rings::{failing_steps, fetching_steps, last_steps, resuming_steps, steps_enough};
use crate::lines::{
    disturbed_until, has_pause, has_stop, is_left, is_majority_left, last_stop_below,
    last_stop_step, least_left,
};
use crate::promises::{Cause, Promise};
use crate::small_rings::{last_steps_in_any_ring, steps_in_any_ring};
use mu_model::{Config, Script};

/// By how many of its steps a replica has every command in its log, or why the job doesn't promise
/// that.
pub(crate) fn committed(config: &Config, script: &Script) -> Promise
    requires config { IsConfig config.now }
    requires few { length script.now.pauses ≤ 100 }
    ensures { IsPromise (committed_by config.now script.now)
        (why_not_committed config.now script.now) result }
{
    if !is_majority_left(config, script) {
        Promise::Nothing(Cause::HalfStopped)
    } else if has_large_ring(config) {
        Promise::By(committed_in_large_ring(config, script))
    } else {
        committed_in_any_ring(config, script)
    }
}

/// In a ring that has a place for each entry.
fn committed_in_large_ring(config: &Config, script: &Script) -> u64
    requires config { IsConfig config.now }
    requires few { length script.now.pauses ≤ 100 }
    ensures { result ≡ committed_in_large_ring config.now script.now }
{
    let stops = script.stops.as_slice();
    if has_pause(script) {
        disturbed_until(config, script) + steps_after_pauses(config)
    } else if is_left(stops, 0) {
        steps_enough(config)
    } else {
        let least = least_left(config, script);
        u64::from(last_stop_below(stops, least)) + steps_after(config, least)
    }
}

/// In any ring.
fn committed_in_any_ring(config: &Config, script: &Script) -> Promise
    requires { IsConfig config.now }
    ensures { IsPromise (committed_in_any_ring config.now script.now)
        (why_not_in_small_ring config.now script.now) result }
{
    if has_pause(script) {
        Promise::Nothing(Cause::PausedInSmallRing)
    } else if !has_stop(script) {
        Promise::By(steps_in_any_ring(config))
    } else if config.version == 2 {
        let after = steps_after_in_any_ring(config, least_left(config, script));
        Promise::By(u64::from(last_stop_step(script.stops.as_slice())) + after)
    } else {
        Promise::Nothing(Cause::StoppedInSmallRing)
    }
}

/// After the last pause and the last stop.
fn steps_after_pauses(config: &Config) -> u64
    requires { IsConfig config.now }
    ensures is { result ≡ steps_after_pauses config.now }
    ensures small { result < 2 ^ 37 }
{
    resuming_steps(config) + fetching_steps(config)
}

/// After the last step of each replica below `least`.
fn steps_after(config: &Config, least: u8) -> u64
    requires { IsConfig config.now }
    ensures is { result ≡ steps_after config.now least }
    ensures small { result < 2 ^ 36 }
{
    failing_steps(config) + last_steps(config, least) + fetching_steps(config)
}

/// After the last step of all that were stopped, in any ring.
fn steps_after_in_any_ring(config: &Config, least: u8) -> u64
    requires { IsConfig config.now }
    ensures is { result ≡ steps_after_in_any_ring config.now least }
    ensures small { result < 2 ^ 37 }
{
    failing_steps(config) + last_steps_in_any_ring(config, least)
}
