//! The steps in any ring, and those that bring everything to each replica.
ghost use Rattle.std.specs.Prelude.{◌<◌, ◌≡◌, ◌≤◌, ◌^◌};
ghost use Rattle.mu_alive.specs.Bringing.{bringing_steps, joining_steps, most_paid};
ghost use Rattle.mu_alive.specs.Finishing.{lagging_steps, last_raising_steps, raising_steps, spreading_steps};
ghost use Rattle.mu_alive.specs.Following.{following_steps};
ghost use Rattle.mu_alive.specs.Lagging.{commit_steps, gain_steps, raising_in_any_ring, settling_steps, steps_in_any_ring};
ghost use Rattle.mu_alive.specs.Stopping.{entry_steps, last_raising_in_any_ring, last_steps_in_any_ring};
ghost use Rattle.mu_model.specs.Contents.{IsConfig};

use crate::counts::{cycle, entries, limit, product, times_entries};
use crate::large_rings::{
    asking_steps, beginning_steps, last_granting_steps, last_steps, steps_enough,
};
use mu_model::Config;

/// Those in which each replica that lags gains an entry or a row.
fn gain_steps(config: &Config) -> u64
    requires { IsConfig config.now }
    ensures is { result ≡ gain_steps config.now }
    ensures small { result ≤ 146 }
{
    2 * cycle(config) + 2
}

/// Those for each entry besides, if nobody stops.
fn commit_steps(config: &Config) -> u64
    requires { IsConfig config.now }
    ensures is { result ≡ commit_steps config.now }
    ensures small { result ≤ 528 }
{
    2 * u64::from(config.replicas) + gain_steps(config) + (cycle(config) + 2) + 2 * limit(config)
}

/// Those for each entry besides, if others stop.
fn entry_steps(config: &Config) -> u64
    requires { IsConfig config.now }
    ensures is { result ≡ entry_steps config.now }
    ensures small { result ≤ 808 }
{
    4 * limit(config) + gain_steps(config) + (cycle(config) + 2)
}

/// What a leadership is paid at most.
fn most_paid(config: &Config) -> u64
    requires { IsConfig config.now }
    ensures is { result ≡ most_paid config.now }
    ensures small { result < 2 ^ 32 }
{
    let replicas = u64::from(config.replicas);
    let entries = entries(config);
    6 * replicas + 8 * (entries + product(replicas, entries))
}

/// The most that a leadership takes until its members are brought up.
fn bringing_steps(config: &Config) -> u64
    requires { IsConfig config.now }
    ensures is { result ≡ bringing_steps config.now }
    ensures small { result < 2 ^ 33 }
{
    limit(config) + most_paid(config)
}

/// Those until a region is a member and brought up.
fn joining_steps(config: &Config) -> u64
    requires { IsConfig config.now }
    ensures is { result ≡ joining_steps config.now }
    ensures small { result < 2 ^ 36 }
{
    6 * bringing_steps(config) + 8
}

/// Those until all regions are, and what the leadership is paid.
fn settling_steps(config: &Config) -> u64
    requires { IsConfig config.now }
    ensures is { result ≡ settling_steps config.now }
    ensures small { result < 2 ^ 37 }
{
    beginning_steps(config)
        + (2 * cycle(config) + 2)
        + joining_steps(config)
        + 2 * bringing_steps(config)
}

/// Those in which a replica that asks alone has every command, in any ring.
pub(crate) fn steps_in_any_ring(config: &Config) -> u64
    requires { IsConfig config.now }
    ensures is { result ≡ steps_in_any_ring config.now }
    ensures small { result < 2 ^ 38 }
{
    settling_steps(config)
        + product(entries(config), commit_steps(config))
        + product(
            times_entries(config, u64::from(config.width) + 1),
            gain_steps(config),
        )
}

/// Those in which the last that asks, replica `a`, has, in any ring.
pub(crate) fn last_steps_in_any_ring(config: &Config, a: u8) -> u64
    requires { IsConfig config.now }
    ensures is { result ≡ last_steps_in_any_ring config.now a }
    ensures small { result < 2 ^ 36 }
{
    let gained = times_entries(config, u64::from(config.width) + 1) + 1;
    last_granting_steps(config, a)
        + 2 * asking_steps(config)
        + 2 * (u64::from(config.replicas) + 2)
        + product(entries(config), entry_steps(config))
        + product(gained, gain_steps(config))
        + 4 * most_paid(config)
}

/// Those in which a follower learns each entry, fetches each row and raises its head.
fn following_steps(config: &Config) -> u64
    requires { IsConfig config.now }
    ensures is { result ≡ following_steps config.now }
    ensures small { result < 2 ^ 29 }
{
    let caught = times_entries(config, u64::from(config.width) + 1) + 1;
    2 * cycle(config) + product(caught, 2 * cycle(config)) + cycle(config)
}

/// Those in which each region is brought up, and each replica has what the leader knew.
fn spreading_steps(config: &Config) -> u64
    requires { IsConfig config.now }
    ensures is { result ≡ spreading_steps config.now }
    ensures small { result < 2 ^ 37 }
{
    joining_steps(config) + (following_steps(config) + 2)
}

/// The same, if each host has to grant first.
fn lagging_steps(config: &Config) -> u64
    requires { IsConfig config.now }
    ensures is { result ≡ lagging_steps config.now }
    ensures small { result < 2 ^ 38 }
{
    2 * cycle(config) + 2 + spreading_steps(config)
}

/// Those until all have applied all and raised their heads, if replica 0 asks alone.
pub(crate) fn raising_steps(config: &Config) -> u64
    requires { IsConfig config.now }
    ensures is { result ≡ raising_steps config.now }
    ensures small { result < 2 ^ 39 }
{
    steps_enough(config) + lagging_steps(config)
}

/// The same in any ring.
pub(crate) fn raising_in_any_ring(config: &Config) -> u64
    requires { IsConfig config.now }
    ensures is { result ≡ raising_in_any_ring config.now }
    ensures small { result < 2 ^ 39 }
{
    steps_in_any_ring(config) + lagging_steps(config)
}

/// Those of the last that asks, replica `a`.
pub(crate) fn last_raising_steps(config: &Config, a: u8) -> u64
    requires { IsConfig config.now }
    ensures is { result ≡ last_raising_steps config.now a }
    ensures small { result < 2 ^ 38 }
{
    last_steps(config, a) + spreading_steps(config)
}

/// The same in any ring.
pub(crate) fn last_raising_in_any_ring(config: &Config, a: u8) -> u64
    requires { IsConfig config.now }
    ensures is { result ≡ last_raising_in_any_ring config.now a }
    ensures small { result < 2 ^ 38 }
{
    last_steps_in_any_ring(config, a) + spreading_steps(config)
}
