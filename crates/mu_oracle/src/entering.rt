//! When a replica may enter a region, and when it may put its minimum.
ghost use Rattle.std.specs.Prelude.{IsTrue, ℕ, ◌%◌, ◌+◌, ◌<◌, ◌↔◌, ◌≡◌, ◌≤◌, ◌⊎◌};
ghost use Rattle.mu_model.specs.Allowed.{Needs};
ghost use Rattle.mu_model.specs.Entering.{any_min_read, enter_open, has_confirmed_majority, has_read_min, min_read, min_read_under, number_allowed, open_target};
ghost use Rattle.mu_model.specs.Histories.{count_below, greatest, history, newest, or_zero};
ghost use Rattle.mu_model.specs.Leaderships.{leadership, number_put, proposal_number};
ghost use Rattle.mu_model.specs.Points.{AreMet, enters};
ghost use Rattle.mu_model.specs.declared.event.Verb.{Verb as SomeVerb};

use crate::leadership::{has_ended, is_in, leadership_of, noted_grant, proposal_of};
use crate::walks::{count_under, greatest_of, newest_of};
use mu_model::{Answer, Config, Event, Fence, Target, Verb, majority};

/// Whether a `Min(p)` was answered since the first `Fence(p)` answer with the grant `g`.
fn has_read_under(r: u8, p: u8, g: u32, part: &[Event]) -> bool
    ensures { result ≡ min_read_under r p g (history part.now) }
{
    let mut seen = false;
    let mut read = false;
    for e in part {
        match (e.verb, e.answer) {
            (Verb::Fence(q), Answer::Seen(f)) => {
                if e.by == r && q == p && f.grant == g {
                    seen = true;
                }
            }
            (Verb::Min(q), Answer::Number(_)) => {
                if e.by == r && q == p && seen {
                    read = true;
                }
            }
            _ => {}
        }
    }
    read
}

/// Whether `r` knows the minimum of `p` under the grant that it noted.
fn has_read_minimum(r: u8, p: u8, part: &[Event]) -> bool
    ensures { result ≡ has_read_min r p (history part.now) }
{
    match noted_grant(r, p, part) {
        None => false,
        Some(g) => has_read_under(r, p, g, part),
    }
}

/// How many regions below `n` have told `r` their minimum.
fn minimums_read(n: u8, r: u8, part: &[Event]) -> u8
    ensures { result ≡ count_below n (λ p. has_read_min r p (history part.now)) }
{
    count_under(n, |p| has_read_minimum(r, p, part))
}

/// Whether the regions whose minimum `r` read are a majority with its own.
fn has_majority(config: &Config, r: u8, part: &[Event]) -> bool
    ensures { result ≡ has_confirmed_majority config.now r (history part.now) }
{
    has_read_minimum(r, r, part)
        && majority(config.replicas) <= minimums_read(config.replicas, r, part)
}

/// Whether `r` may enter the region `p` with the target.
pub fn may_enter(config: &Config, r: u8, part: &[Event], p: u8, target: Target) -> bool
    ensures { IsTrue result ↔ AreMet config.now r (history part.now) (enters p target) }
{
    match target {
        Target::None => false,
        Target::Min => {
            noted_grant(r, p, part).is_some()
                && !has_ended(r, part)
                && has_read_minimum(r, p, part)
                && (proposal_of(r, part).is_some() || has_majority(config, r, part))
        }
        Target::Place(s) => is_in(r, p, part) && !has_ended(r, part) && s < config.ring,
    }
}

/// What the event does to what `r` has entered at `p`.
pub fn opening(r: u8, p: u8, e: &Event) -> Option<Target>
    ensures { result ≡ enter_open r p e.now.by e.now.verb e.now.answer }
{
    match (e.verb, e.answer) {
        (Verb::Enter(q, t), Answer::Entered) if e.by == r && q == p => Some(t),
        (Verb::Enter(q, _) | Verb::PutMin(q, _) | Verb::PutSlot(q, _, _, _), _)
            if e.by == r && q == p => Some(Target::None),
        _ => None,
    }
}

/// The target that `r` has entered `p` with in its leadership and not put yet.
fn entered_target(r: u8, p: u8, part: &[Event]) -> Option<Target>
    ensures { result ≡ open_target r p (history part.now) }
{
    newest_of(leadership_of(r, part), |e| opening(r, p, e))
}

/// The last answer of `Min(p)`.
fn last_minimum_read(r: u8, p: u8, part: &[Event]) -> u64
    ensures { result
        ≡ or_zero (newest (λ e. min_read r p e.by e.verb e.answer) (history part.now)) }
{
    newest_of(part, |e| match (e.verb, e.answer) {
        (Verb::Min(q), Answer::Number(x)) if e.by == r && q == p => Some(x),
        _ => None,
    })
    .unwrap_or(0)
}

/// The greatest answer of a `Min` of the leadership.
fn greatest_minimum_read(r: u8, part: &[Event]) -> u64
    ensures { result
        ≡ greatest (λ e. any_min_read r e.by e.verb e.answer) (leadership r (history part.now)) }
{
    greatest_of(leadership_of(r, part), |e| match (e.verb, e.answer) {
        (Verb::Min(_), Answer::Number(x)) if e.by == r => Some(x),
        _ => None,
    })
}

/// The greatest number that `r` put.
fn greatest_number_put(r: u8, part: &[Event]) -> u64
    ensures { result ≡ greatest (λ e. number_put r e.by e.verb) (history part.now) }
{
    greatest_of(part, |e| match e.verb {
        Verb::PutMin(_, b) if e.by == r => Some(u64::from(b)),
        _ => None,
    })
}

/// Whether the number 8 below `b` is too small.
fn is_next(b: u64, read: u64, put: u64) -> bool
    ensures { IsTrue result ↔ ((b < 16) ⊎ ((b ≤ read + 8) ⊎ (b ≤ put + 8))) }
{
    b < 16 || b - 8 <= read || b - 8 <= put
}

/// Whether `b` is a number of `r` above two others.
fn is_own_above(b: u64, r: u8, read: u64, put: u64) -> bool
    ensures { IsTrue result ↔ ((b % 8 ≡ r) × (8 ≤ b) × (read < b) × (put < b)) }
{
    b % 8 == u64::from(r) && 8 <= b && read < b && put < b
}

/// Whether both hold.
fn both(own: bool, next: bool) -> bool
    ensures { IsTrue result ↔ (IsTrue own × IsTrue next) }
{
    own && next
}

/// Whether `b` is the least number of `r` above two others.
fn is_least_number(b: u64, r: u8, read: u64, put: u64) -> bool
    ensures { IsTrue result
        ↔ ((b % 8 ≡ r) × (8 ≤ b) × (read < b) × (put < b)
        × ((n : ℕ) → n % 8 ≡ r → 8 ≤ n → read < n → put < n → b ≤ n)) }
{
    let own = is_own_above(b, r, read, put);
    let next = is_next(b, read, put);
    both(own, next)
}

/// Whether `r` may put the number.
fn may_take_number(r: u8, part: &[Event], b: u32) -> bool
    ensures { IsTrue result
        ↔ number_allowed r (history part.now) b (proposal_number r (history part.now)) }
{
    match proposal_of(r, part) {
        Some(first) => b == first,
        None => is_least_number(
            u64::from(b),
            r,
            greatest_minimum_read(r, part),
            greatest_number_put(r, part),
        ),
    }
}

/// Whether `r` may put the number `b` into the minimum of `p`.
pub fn may_put_min(config: &Config, r: u8, part: &[Event], p: u8, b: u32) -> bool
    ensures { IsTrue result ↔ Needs config.now r (history part.now) (SomeVerb.PutMin p b) }
{
    p < config.replicas
        && !has_ended(r, part)
        && entered_target(r, p, part) == Some(Target::Min)
        && last_minimum_read(r, p, part) <= u64::from(b)
        && may_take_number(r, part, b)
}
