//! Walks over a list of events, and over the numbers below one: each is a definition of
//! `Histories` of `mu_model`, at what the closure gives.
ghost use Rattle.mu_model.specs.Histories.{all_below, before, count_below, greatest, has, history, how_many, newest, oldest, since};
ghost use Rattle.mu_oracle.specs.Walks.{Tells, TellsBelow};

use mu_model::Event;

/// What the last event that tells something tells.
pub fn newest_of<T: Copy, F: Fn(&Event) -> Option<T>>(events: &[Event], tells: F) -> Option<T>
    requires { F.IsAlwaysCallable tells }
    ensures { Tells F.Fn tells newest events.now result }
{
    let mut last: Option<T> = None;
    for e in events {
        let told = tells(e);
        if told.is_some() {
            last = told;
        }
    }
    last
}

/// What the first event that tells something tells.
pub fn oldest_of<T: Copy, F: Fn(&Event) -> Option<T>>(events: &[Event], tells: F) -> Option<T>
    requires { F.IsAlwaysCallable tells }
    ensures { Tells F.Fn tells oldest events.now result }
{
    let mut first: Option<T> = None;
    for e in events {
        let told = tells(e);
        if first.is_none() {
            first = told;
        }
    }
    first
}

/// The greatest number that an event tells, else 0.
pub fn greatest_of<F: Fn(&Event) -> Option<u64>>(events: &[Event], tells: F) -> u64
    requires { F.IsAlwaysCallable tells }
    ensures { Tells F.Fn tells greatest events.now result }
{
    let mut most: u64 = 0;
    for e in events {
        if let Some(x) = tells(e) {
            most = most.max(x);
        }
    }
    most
}

/// Whether some event passes.
pub fn some_event<F: Fn(&Event) -> bool>(events: &[Event], test: F) -> bool
    requires { F.IsAlwaysCallable test }
    ensures { Tells F.Fn test has events.now result }
{
    let mut found = false;
    for e in events {
        found = test(e) || found;
    }
    found
}

/// How many events pass.
pub fn count_of<F: Fn(&Event) -> bool>(events: &[Event], test: F) -> u64
    requires { F.IsAlwaysCallable test }
    ensures { Tells F.Fn test how_many events.now result }
{
    let mut count: u64 = 0;
    for e in events {
        if test(e) {
            count += 1;
        }
    }
    count
}

/// The events after the last that passes, or all if none does.
#[tactic(auto, using(crate::proofs::Slices::slice_steps))]
pub fn events_since<F: Fn(&Event) -> bool>(events: &[Event], test: F) -> &[Event]
    requires { F.IsAlwaysCallable test }
    ensures { Tells F.Fn test since events.now (history result.now) }
{
    let mut from = 0;
    for (i, e) in events.iter().enumerate() {
        if test(e) {
            from = i + 1;
        }
    }
    &events[from..]
}

/// The events before the last that passes, or none if none does.
pub fn events_before<F: Fn(&Event) -> bool>(events: &[Event], test: F) -> &[Event]
    requires { F.IsAlwaysCallable test }
    ensures { Tells F.Fn test before events.now (history result.now) }
{
    let mut end = 0;
    for (i, e) in events.iter().enumerate() {
        if test(e) {
            end = i;
        }
    }
    &events[..end]
}

/// Whether all numbers below `n` pass.
pub fn all_under<F: Fn(u8) -> bool>(n: u8, test: F) -> bool
    requires { F.IsAlwaysCallable test }
    ensures { TellsBelow F.Fn test all_below n result }
{
    let mut all = true;
    for j in 0..n {
        all = test(j) && all;
    }
    all
}

/// The same of longer numbers.
pub fn all_up_to<F: Fn(u16) -> bool>(n: u16, test: F) -> bool
    requires { F.IsAlwaysCallable test }
    ensures { TellsBelow F.Fn test all_below n result }
{
    let mut all = true;
    for j in 0..n {
        all = test(j) && all;
    }
    all
}

/// How many numbers below `n` pass.
pub fn count_under<F: Fn(u8) -> bool>(n: u8, test: F) -> u8
    requires { F.IsAlwaysCallable test }
    ensures { TellsBelow F.Fn test count_below n result }
{
    let mut count: u8 = 0;
    for j in 0..n {
        if test(j) {
            count += 1;
        }
    }
    count
}
