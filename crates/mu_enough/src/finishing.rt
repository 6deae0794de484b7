//! By when each replica that isn't stopped has finished.
ghost use Rattle.std.specs.Prelude.{◌*◌, ◌<◌, ◌≡◌, ◌^◌};
ghost use Rattle.mu_enough.specs.Finished.{finished_by, finished_in_any_ring, finished_in_large_ring, finishing_after, finishing_after_in_any_ring, finishing_in_any_ring, finishing_in_large_ring, finishing_steps};
ghost use Rattle.mu_enough.specs.Promises.{IsPromise, why_not_finished, why_not_after_stops};
ghost use Rattle.mu_model.specs.Bounds.{cycle};
ghost use Rattle.mu_model.specs.Contents.{IsConfig};

use crate::counts::{cycle, has_large_ring, product};
use crate::large_rings::failing_steps;
use crate::lines::{
    has_pause, has_stop, is_left, is_majority_left, last_stop_below, last_stop_step, least_left,
};
use crate::promises::{Cause, Promise};
use crate::small_rings::{
    last_raising_in_any_ring, last_raising_steps, raising_in_any_ring, raising_steps,
};
use mu_model::{Config, Script};

/// By how many of its steps each replica that isn't stopped has finished, or why the job doesn't
/// promise that.
pub(crate) fn finished(config: &Config, script: &Script) -> Promise
    requires { IsConfig config.now }
    ensures { IsPromise (finished_by config.now script.now)
        (why_not_finished config.now script.now) result }
{
    if !is_majority_left(config, script) {
        Promise::Nothing(Cause::HalfStopped)
    } else if has_pause(script) {
        Promise::Nothing(Cause::Paused)
    } else if has_large_ring(config) {
        Promise::By(finished_in_large_ring(config, script))
    } else {
        finished_in_any_ring(config, script)
    }
}

/// In a ring that has a place for each entry.
fn finished_in_large_ring(config: &Config, script: &Script) -> u64
    requires { IsConfig config.now }
    ensures { result ≡ finished_in_large_ring config.now script.now }
{
    let stopped = u64::from(last_stop_step(script.stops.as_slice()));
    finishing_in_large_ring(config, script).max(stopped + failing_steps(config))
}

/// The same without the time in which the stopped are held failed.
fn finishing_in_large_ring(config: &Config, script: &Script) -> u64
    requires { IsConfig config.now }
    ensures { result ≡ finishing_in_large_ring config.now script.now }
{
    let stops = script.stops.as_slice();
    if is_left(stops, 0) {
        finishing_steps(config)
    } else {
        let least = least_left(config, script);
        u64::from(last_stop_below(stops, least)) + finishing_after(config, least)
    }
}

/// In any ring.
fn finished_in_any_ring(config: &Config, script: &Script) -> Promise
    requires { IsConfig config.now }
    ensures { IsPromise (finished_in_any_ring config.now script.now)
        (why_not_after_stops config.now script.now) result }
{
    if !has_stop(script) {
        Promise::By(finishing_in_any_ring(config))
    } else if config.version == 2 {
        let after = finishing_after_in_any_ring(config, least_left(config, script));
        Promise::By(u64::from(last_stop_step(script.stops.as_slice())) + after)
    } else {
        Promise::Nothing(Cause::StoppedInSmallRing)
    }
}

/// The steps of each replica until it has read the heads of all others.
fn reading_steps(config: &Config) -> u64
    requires { IsConfig config.now }
    ensures is { result ≡ config.now.replicas * cycle config.now }
    ensures small { result < 2 ^ 29 }
{
    product(u64::from(config.replicas), cycle(config))
}

/// If replica 0 isn't stopped.
fn finishing_steps(config: &Config) -> u64
    requires { IsConfig config.now }
    ensures { result ≡ finishing_steps config.now }
{
    raising_steps(config) + reading_steps(config)
}

/// After the last step of each replica below `least`.
fn finishing_after(config: &Config, least: u8) -> u64
    requires { IsConfig config.now }
    ensures is { result ≡ finishing_after config.now least }
    ensures small { result < 2 ^ 40 }
{
    failing_steps(config) + last_raising_steps(config, least) + reading_steps(config)
}

/// In any ring, if nobody is stopped.
fn finishing_in_any_ring(config: &Config) -> u64
    requires { IsConfig config.now }
    ensures { result ≡ finishing_in_any_ring config.now }
{
    raising_in_any_ring(config) + reading_steps(config)
}

/// In any ring, after the last step of all that were stopped.
fn finishing_after_in_any_ring(config: &Config, least: u8) -> u64
    requires { IsConfig config.now }
    ensures is { result ≡ finishing_after_in_any_ring config.now least }
    ensures small { result < 2 ^ 40 }
{
    failing_steps(config) + last_raising_in_any_ring(config, least) + reading_steps(config)
}
