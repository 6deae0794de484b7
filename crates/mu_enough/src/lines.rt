//! What the lines of a script say of a job.
ghost use Rattle.std.specs.Prelude.{◌<◌, ◌==◌, ◌≡◌, ◌≤◌, ◌^◌, if◌then◌else◌, length};
ghost use Rattle.mu_enough.specs.Lines.{disturbed_until, has_pause, has_stop, is_left, is_majority_left, last_line_step, last_pause_step, last_stop_below, last_stop_step, least_left, most_paused_rounds, paused_rounds};
ghost use Rattle.mu_model.specs.Histories.{count_below};

use mu_model::{Config, Pause, Script, Stop, is_stopped, majority};

/// Whether no line stops the replica.
pub(crate) fn is_left(stops: &[Stop], replica: u8) -> bool
    ensures { result ≡ is_left stops.now replica }
{
    !is_stopped(replica, stops)
}

/// The greatest step of these stops, or 0.
pub(crate) fn last_stop_step(stops: &[Stop]) -> u32
    ensures { result ≡ last_stop_step stops.now }
{
    let mut last = 0;
    for stop in stops {
        last = stop.steps.max(last);
    }
    last
}

/// The same of those that stop a replica below `least`.
pub(crate) fn last_stop_below(stops: &[Stop], least: u8) -> u32
    ensures { result ≡ last_stop_below stops.now least }
{
    let mut last = 0;
    for stop in stops {
        let steps = if stop.replica < least { stop.steps } else { 0 };
        last = steps.max(last);
    }
    last
}

/// The greatest step of these pauses, or 0.
fn last_pause_step(pauses: &[Pause]) -> u32
    ensures { result ≡ last_pause_step pauses.now }
{
    let mut last = 0;
    for pause in pauses {
        last = pause.steps.max(last);
    }
    last
}

/// The greatest step of the lines, or 0.
fn last_line_step(script: &Script) -> u32
    ensures { result ≡ last_line_step script.now }
{
    last_stop_step(script.stops.as_slice()).max(last_pause_step(script.pauses.as_slice()))
}

/// The rounds of all pauses of a replica together.
fn paused_rounds(pauses: &[Pause], replica: u8) -> u64
    requires { length pauses.now ≤ 100 }
    ensures is { result ≡ paused_rounds pauses.now replica }
    ensures small { result < 2 ^ 39 }
{
    let mut paused = 0;
    for pause in pauses {
        paused += u64::from(rounds_of(pause, replica));
    }
    paused
}

/// The rounds of a pause, if it is of the replica.
fn rounds_of(pause: &Pause, replica: u8) -> u32
    ensures { result ≡ (if pause.now.replica == replica then pause.now.rounds else 0) }
{
    if pause.replica == replica {
        pause.rounds
    } else {
        0
    }
}

/// Of this many replicas, the most rounds that the pauses of one have together.
fn most_paused_rounds(pauses: &[Pause], replicas: u8) -> u64
    requires { length pauses.now ≤ 100 }
    ensures is { result ≡ most_paused_rounds pauses.now replicas }
    ensures small { result < 2 ^ 39 }
{
    let mut most = 0;
    for replica in 0..replicas {
        most = paused_rounds(pauses, replica).max(most);
    }
    most
}

/// The rounds after which no line disturbs a replay.
pub(crate) fn disturbed_until(config: &Config, script: &Script) -> u64
    requires { length script.now.pauses ≤ 100 }
    ensures is { result ≡ disturbed_until config.now script.now }
    ensures small { result < 2 ^ 40 }
{
    let pauses = script.pauses.as_slice();
    u64::from(last_line_step(script)) + most_paused_rounds(pauses, config.replicas) + 1
}

/// Whether a line pauses a replica.
pub(crate) fn has_pause(script: &Script) -> bool
    ensures { result ≡ has_pause script.now }
{
    !script.pauses.is_empty()
}

/// Whether a line stops one.
pub(crate) fn has_stop(script: &Script) -> bool
    ensures { result ≡ has_stop script.now }
{
    !script.stops.is_empty()
}

/// How many of the first replicas no line stops.
fn count_left(stops: &[Stop], replicas: u8) -> u8
    ensures is { result ≡ count_below replicas (is_left stops.now) }
    ensures few { result ≤ replicas }
{
    let mut count = 0;
    for replica in 0..replicas {
        if is_left(stops, replica) {
            count += 1;
        }
    }
    count
}

/// Whether more than half of the replicas are stopped by no line.
pub(crate) fn is_majority_left(config: &Config, script: &Script) -> bool
    ensures { result ≡ is_majority_left config.now script.now }
{
    majority(config.replicas) <= count_left(script.stops.as_slice(), config.replicas)
}

/// The least replica that no line stops, or how many there are.
pub(crate) fn least_left(config: &Config, script: &Script) -> u8
    ensures { result ≡ least_left config.now script.now }
{
    let stops = script.stops.as_slice();
    let mut least = 0;
    for replica in 0..config.replicas {
        if least == replica && !is_left(stops, replica) {
            least = replica + 1;
        }
    }
    least
}
