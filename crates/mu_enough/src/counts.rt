//! What the numbers of steps are made of: counts of a configuration, and their products.
ghost use Rattle.std.specs.Prelude.{◌+◌, ◌*◌, ◌≡◌, ◌≤◌};
ghost use Rattle.mu_enough.specs.Lines.{has_large_ring};
ghost use Rattle.mu_model.specs.Bounds.{cycle};
ghost use Rattle.mu_model.specs.Contents.{IsConfig, row_count};
ghost use Rattle.mu_model.specs.Room.{reserve};
ghost use Rattle.mu_pace.specs.Watches.{limit};

use mu_model::{Config, count_of_rows, reserve_of};

/// The product of two small numbers.
pub(crate) fn product(a: u64, b: u64) -> u64
    requires first { a ≤ 16384 }
    requires second { b ≤ 16384 }
    ensures is { result ≡ a * b }
    ensures small { result ≤ 268435456 }
{
    a * b
}

/// One turn of the cycle.
pub(crate) fn cycle(config: &Config) -> u64
    requires { IsConfig config.now }
    ensures is { result ≡ cycle config.now }
    ensures small { result ≤ 72 }
{
    4 * u64::from(config.replicas) + 44
}

/// How many steps a leadership may take from one progress to the next.
pub(crate) fn limit(config: &Config) -> u64
    requires { IsConfig config.now }
    ensures is { result ≡ limit config.now config.now.replicas }
    ensures small { result ≤ 147 }
{
    let replicas = u64::from(config.replicas);
    6 * replicas + 7 * replicas + 8 + 12 * u64::from(config.width)
}

/// How many entries there may be: rows, and marks.
pub(crate) fn entries(config: &Config) -> u64
    requires { IsConfig config.now }
    ensures is { result ≡ row_count config.now + reserve config.now }
    ensures small { result ≤ 1755 }
{
    count_of_rows(config) as u64 + u64::from(reserve_of(config))
}

/// That many entries, this many times.
pub(crate) fn times_entries(config: &Config, times: u64) -> u64
    requires config { IsConfig config.now }
    requires few { times ≤ 5 }
    ensures is { result ≡ times * (row_count config.now + reserve config.now) }
    ensures small { result ≤ 8775 }
{
    times * entries(config)
}

/// As many places as a large ring has at least: one for each row, and for twice the reserve.
pub(crate) fn large_ring(config: &Config) -> u64
    requires { IsConfig config.now }
    ensures is { result ≡ row_count config.now + 2 * reserve config.now }
    ensures small { result ≤ 2010 }
{
    count_of_rows(config) as u64 + 2 * u64::from(reserve_of(config))
}

/// Whether the ring has a place for each entry.
pub(crate) fn has_large_ring(config: &Config) -> bool
    requires { IsConfig config.now }
    ensures { result ≡ has_large_ring config.now }
{
    large_ring(config) <= u64::from(config.ring)
}
