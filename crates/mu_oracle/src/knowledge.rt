//! What a replica has learnt, and where it knows that logs are filled.
ghost use Rattle.std.specs.List.{slice_get};
ghost use Rattle.std.specs.Prelude.{List, [], length, not, ℕ, ◌++◌, ◌+◌, ◌<◌, ◌^◌, ◌||◌, ◌∷◌, ◌≡◌, ◌≤◌};
ghost use Rattle.mu_model.specs.Contents.{command_count, marked};
ghost use Rattle.mu_model.specs.Histories.{all_below, has, history};
ghost use Rattle.mu_model.specs.Knowledge.{entry_seen, fills, greatest_fuo_read, is_accepted_by_all, is_filled, is_known_decided, known, lands_entry, learnt_by};
ghost use Rattle.mu_model.specs.Leaderships.{is_member, leadership};

use crate::leadership::{has_ended, is_carried, is_in, leadership_of, proposal_of};
use crate::walks::{all_under, all_up_to, greatest_of, some_event};
use mu_model::{Answer, Config, Event, Verb, count_of_commands, stands_for_batch, stands_for_mark};

/// Whether the event is a put of `r` of `v` at `p` and `i` under the number `b` that landed.
fn lands(r: u8, p: u8, i: u16, b: u32, v: u16, e: &Event) -> bool
    ensures { result ≡ lands_entry r p i b v e.now }
{
    match (e.verb, e.answer) {
        (Verb::PutSlot(q, j, n, w), Answer::Done) => {
            e.by == r && q == p && j == i && n == b && w == v
        }
        _ => false,
    }
}

/// Whether the leadership of `r` has such a put.
fn has_put(r: u8, p: u8, i: u16, b: u32, v: u16, part: &[Event]) -> bool
    ensures { result ≡ has (lands_entry r p i b v) (leadership r (history part.now)) }
{
    some_event(leadership_of(r, part), |e| lands(r, p, i, b, v, e))
}

/// Whether every member below `n` took `v`.
fn have_taken(n: u8, r: u8, i: u16, b: u32, v: u16, part: &[Event]) -> bool
    ensures { result
        ≡ all_below n
        (λ p. not (is_member r p (history part.now))
        || has (lands_entry r p i b v) (leadership r (history part.now))) }
{
    all_under(n, |p| !is_in(r, p, part) || has_put(r, p, i, b, v, part))
}

/// Whether `r` commits `v` at `i` by what it did last.
fn has_accepted(config: &Config, r: u8, part: &[Event], i: u16, b: u32, v: u16) -> bool
    ensures { result ≡ is_accepted_by_all config.now r (history part.now) i b v }
{
    !has_ended(r, part)
        && proposal_of(r, part) == Some(b)
        && is_carried(config, r, part)
        && have_taken(config.replicas, r, i, b, v, part)
}

/// The greatest answer of `Fuo(p)`.
pub fn fuo_read_by(r: u8, p: u8, part: &[Event]) -> u64
    ensures { result ≡ greatest_fuo_read r p (history part.now) }
{
    greatest_of(part, |e| match (e.verb, e.answer) {
        (Verb::Fuo(q), Answer::Number(x)) if e.by == r && q == p => Some(x),
        _ => None,
    })
}

/// Whether `r` saw an entry at `p` in position `i`.
fn has_seen(r: u8, p: u8, i: u64, part: &[Event]) -> bool
    ensures { result ≡ has (entry_seen r p i) (history part.now) }
{
    some_event(part, |e| match (e.verb, e.answer) {
        (Verb::Look(q, j), Answer::Entry { .. }) => e.by == r && q == p && u64::from(j) == i,
        _ => false,
    })
}

/// Whether `r` may trust what it sees at `p` in position `i`.
fn trusts(r: u8, part: &[Event], p: u8, i: u16) -> bool
    ensures { result ≡ is_known_decided r (history part.now) p i }
{
    u64::from(i) < fuo_read_by(r, p, part) || (p == r && has_seen(r, r, u64::from(i) + 1, part))
}

/// The value that the step teaches; `part` came before it, and `now` is with it.
pub fn learnt_value(
    config: &Config,
    r: u8,
    part: &[Event],
    count: u64,
    e: &Event,
    now: &[Event],
) -> Option<u16>
    ensures { result
        ≡ learnt_by config.now r (history part.now) count e.now.by e.now.verb e.now.answer
        (history now.now) }
{
    match (e.verb, e.answer) {
        (Verb::PutSlot(_, i, b, v), Answer::Done) => {
            if e.by == r && u64::from(i) == count && has_accepted(config, r, now, i, b, v) {
                Some(v)
            } else {
                None
            }
        }
        (Verb::Look(p, i), Answer::Entry { number: _, value }) => {
            if e.by == r && u64::from(i) == count && trusts(r, part, p, i) {
                Some(value)
            } else {
                None
            }
        }
        _ => None,
    }
}

/// How many entries `r` knows.
pub fn known_length(config: &Config, r: u8, part: &[Event]) -> u64
    ensures count { result ≡ length (known config.now r (history part.now)) }
    ensures few { result ≤ length part.now }
{
    let mut count: u64 = 0;
    for (i, e) in part.iter().enumerate() {
        if learnt_value(config, r, &part[..i], count, e, &part[..i + 1]).is_some() {
            count += 1;
        }
    }
    count
}

/// The value at `i` after `v` was added to a list of `count` values.
#[tactic(auto, using(mu_model::proofs::Lists::get_push_here, mu_model::proofs::Lists::get_push_other))]
fn value_added(value: Option<u16>, count: u64, i: u16, v: u16) -> Option<u16>
    ensures { (values : List ℕ) → length values ≡ count → slice_get values i ≡ value
        → result ≡ slice_get (values ++ v ∷ []) i }
{
    if u64::from(i) == count {
        Some(v)
    } else {
        value
    }
}

/// What `r` knows at `i`.
pub fn known_value_at(config: &Config, r: u8, part: &[Event], i: u16) -> Option<u16>
    ensures { result ≡ slice_get (known config.now r (history part.now)) i }
{
    let mut count: u64 = 0;
    let mut value: Option<u16> = None;
    for (k, e) in part.iter().enumerate() {
        if let Some(v) = learnt_value(config, r, &part[..k], count, e, &part[..k + 1]) {
            value = value_added(value, count, i, v);
            count += 1;
        }
    }
    value
}

/// Whether the step fills position `j` of `p`.
fn step_fills(
    config: &Config,
    r: u8,
    p: u8,
    j: u16,
    part: &[Event],
    e: &Event,
    now: &[Event],
) -> bool
    ensures { result
        ≡ fills config.now r p j (history part.now) e.now.by e.now.verb e.now.answer
        (history now.now) }
{
    match (e.verb, e.answer) {
        (Verb::Fuo(q), Answer::Number(x)) => e.by == r && q == p && u64::from(j) < x,
        (Verb::PutSlot(q, i, b, v), Answer::Done) => {
            e.by == r
                && ((q == p && i == j && known_value_at(config, r, part, j) == Some(v))
                    || (known_length(config, r, part) == u64::from(j)
                        && known_length(config, r, now) == u64::from(j) + 1
                        && has_put(r, p, j, b, v, now)))
        }
        (Verb::Look(q, i), Answer::Entry { .. }) => {
            e.by == r
                && p == r
                && q == r
                && i == j
                && known_length(config, r, part) == u64::from(j)
                && known_length(config, r, now) == u64::from(j) + 1
        }
        _ => false,
    }
}

/// Whether position `j` of `p` is filled.
fn is_filled_at(config: &Config, r: u8, p: u8, part: &[Event], j: u16) -> bool
    ensures { result ≡ is_filled config.now r p (history part.now) j }
{
    let mut filled = false;
    for (i, e) in part.iter().enumerate() {
        filled = step_fills(config, r, p, j, &part[..i], e, &part[..i + 1]) || filled;
    }
    filled
}

/// Whether all positions of `p` below `u` are filled.
pub fn are_filled(config: &Config, r: u8, p: u8, part: &[Event], u: u16) -> bool
    ensures { result ≡ all_below u (is_filled config.now r p (history part.now)) }
{
    all_up_to(u, |j| is_filled_at(config, r, p, part, j))
}

/// Whether a mark of `q` is among some values and `v`.
#[tactic(auto, using(mu_model::proofs::Scans::marked_after))]
fn mark_added(config: &Config, q: u8, found: bool, v: u16) -> bool
    ensures { (values : List ℕ) → marked config.now q values ≡ found
        → result ≡ marked config.now q (values ++ v ∷ []) }
{
    found || stands_for_mark(config, q, v)
}

/// Whether `r` knows a mark of `q`.
pub fn knows_mark(config: &Config, q: u8, r: u8, part: &[Event]) -> bool
    ensures { result ≡ marked config.now q (known config.now r (history part.now)) }
{
    let mut count: u64 = 0;
    let mut found = false;
    for (i, e) in part.iter().enumerate() {
        if let Some(v) = learnt_value(config, r, &part[..i], count, e, &part[..i + 1]) {
            found = mark_added(config, q, found, v);
            count += 1;
        }
    }
    found
}

/// How many commands of the client some values and `v` hold.
#[tactic(auto, using(mu_model::proofs::Scans::taken_after))]
fn taken_added(config: &Config, client: u64, taken: u64, v: u16) -> u64
    requires { taken < 2 ^ 48 }
    ensures is { (values : List ℕ) → command_count config.now client values ≡ taken
        → result ≡ command_count config.now client (values ++ v ∷ []) }
    ensures few { result ≤ taken + 256 }
{
    taken + count_of_commands(config, client, v)
}

/// How many commands of the client `r` knows.
pub fn commands_known(config: &Config, client: u64, r: u8, part: &[Event]) -> u64
    requires short { length part.now < 2 ^ 32 }
    ensures count { result
        ≡ command_count config.now client (known config.now r (history part.now)) }
    ensures few { result < 2 ^ 41 }
{
    let mut count: u64 = 0;
    let mut taken: u64 = 0;
    for (i, e) in part.iter().enumerate() {
        if let Some(v) = learnt_value(config, r, &part[..i], count, e, &part[..i + 1]) {
            taken = taken_added(config, client, taken, v);
            count += 1;
        }
    }
    taken
}
