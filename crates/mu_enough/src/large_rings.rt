//! The steps in a ring that has a place for each entry.
ghost use Rattle.std.specs.Prelude.{◌+◌, ◌<◌, ◌≡◌, ◌≤◌, ◌^◌};
ghost use Rattle.mu_alive.specs.Calm.{calm_steps};
ghost use Rattle.mu_alive.specs.Clearing.{clearing_steps};
ghost use Rattle.mu_alive.specs.Enough.{asking_steps, beginning_steps, steps_enough};
ghost use Rattle.mu_alive.specs.Failing.{failing_steps};
ghost use Rattle.mu_alive.specs.Last.{fetching_steps, last_granting_steps, last_steps};
ghost use Rattle.mu_alive.specs.Resuming.{resuming_steps, waiting_steps};
ghost use Rattle.mu_model.specs.Contents.{IsConfig, row_count};
ghost use Rattle.mu_model.specs.Room.{reserve};

use crate::counts::{cycle, entries, limit, product, times_entries};
use mu_model::Config;

/// The most that a leadership takes that nothing interrupts, until every command is known.
pub(crate) fn calm_steps(config: &Config) -> u64
    requires { IsConfig config.now }
    ensures is { result ≡ calm_steps config.now (row_count config.now + reserve config.now) }
    ensures small { result < 2 ^ 32 }
{
    let replicas = u64::from(config.replicas);
    let entries = entries(config);
    product(limit(config), entries + 1) + 6 * replicas + 8 * product(replicas, entries)
}

/// Those in which a replica asks every region.
pub(crate) fn asking_steps(config: &Config) -> u64
    requires { IsConfig config.now }
    ensures is { result ≡ asking_steps config.now }
    ensures small { result ≤ 240 }
{
    2 * (17 * u64::from(config.replicas) + 1)
}

/// Those before it reads a minimum.
pub(crate) fn beginning_steps(config: &Config) -> u64
    requires { IsConfig config.now }
    ensures is { result ≡ beginning_steps config.now }
    ensures small { result ≤ 866 }
{
    asking_steps(config) + 2 * cycle(config) + 2 + 2 * asking_steps(config)
}

/// Those with which a replica that asks alone knows every command.
pub(crate) fn steps_enough(config: &Config) -> u64
    requires { IsConfig config.now }
    ensures is { result ≡ steps_enough config.now }
    ensures small { result < 2 ^ 34 }
{
    beginning_steps(config) + 2 * calm_steps(config)
}

/// Those until a replica that makes no more events is held failed.
pub(crate) fn failing_steps(config: &Config) -> u64
    requires { IsConfig config.now }
    ensures is { result ≡ failing_steps config.now }
    ensures small { result ≤ 1080 }
{
    15 * cycle(config)
}

/// Those until each region is granted to the last that asks, replica `a`.
pub(crate) fn last_granting_steps(config: &Config, a: u8) -> u64
    requires { IsConfig config.now }
    ensures is { result ≡ last_granting_steps config.now a }
    ensures small { result < 2 ^ 29 }
{
    asking_steps(config) + product(u64::from(a) + 1, 2 * cycle(config)) + 2
}

/// Those until it knows every command.
pub(crate) fn last_steps(config: &Config, a: u8) -> u64
    requires { IsConfig config.now }
    ensures is { result ≡ last_steps config.now a }
    ensures small { result < 2 ^ 34 }
{
    last_granting_steps(config, a) + 2 * asking_steps(config) + 2 * calm_steps(config)
}

/// Those until it has every row of every entry.
pub(crate) fn fetching_steps(config: &Config) -> u64
    requires { IsConfig config.now }
    ensures is { result ≡ fetching_steps config.now }
    ensures small { result < 2 ^ 29 }
{
    let rows = times_entries(config, u64::from(config.width));
    product(rows + 1, 2 * cycle(config))
}

/// Those until the hosts have served old asks.
fn clearing_steps(config: &Config) -> u64
    requires { IsConfig config.now }
    ensures is { result ≡ clearing_steps config.now }
    ensures small { result < 2 ^ 29 }
{
    product(4 * u64::from(config.replicas) + 5, cycle(config))
}

/// Those in which the least that goes on asks anew three times, if it doesn't know all by then.
fn waiting_steps(config: &Config) -> u64
    requires { IsConfig config.now }
    ensures is { result ≡ waiting_steps config.now }
    ensures small { result < 2 ^ 34 }
{
    let replicas = u64::from(config.replicas);
    let entries = entries(config);
    let commits = product(limit(config), entries + 3) + 18 * replicas;
    6 * asking_steps(config) + 2 * (commits + 24 * (entries + product(replicas, entries)))
}

/// Those after the last disturbance until it knows every command.
pub(crate) fn resuming_steps(config: &Config) -> u64
    requires { IsConfig config.now }
    ensures is { result ≡ resuming_steps config.now 1 1 }
    ensures small { result < 2 ^ 36 }
{
    failing_steps(config)
        + clearing_steps(config)
        + 2 * cycle(config)
        + 3
        + asking_steps(config)
        + waiting_steps(config)
}
