//! What a leadership of a replica comes to.
ghost use Rattle.std.specs.Prelude.{◌≡◌};
ghost use Rattle.mu_model.specs.Histories.{count_below, history};
ghost use Rattle.mu_model.specs.Leaderships.{begins_leadership, ends_leadership, grant_at_joining, grant_for, has_begun, has_quorum, is_changed, is_member, is_over, lands_min, leadership, noted_grant, proposal_number};

use crate::walks::{count_under, events_since, newest_of, oldest_of, some_event};
use mu_model::{Answer, Config, Event, Fence, Verb, majority};

/// Whether the event begins a leadership of `r`.
pub fn starts_leadership(r: u8, e: &Event) -> bool
    ensures { result ≡ begins_leadership r e.now }
{
    matches!(e.verb, Verb::Ask(p) if e.by == r && p == 0)
}

/// The events of the leadership of `r` under way.
pub fn leadership_of(r: u8, part: &[Event]) -> &[Event]
    ensures { history result.now ≡ leadership r (history part.now) }
{
    events_since(part, |e| starts_leadership(r, e))
}

/// The grant of a fence that names `r` and isn't closing.
fn named_grant(r: u8, seen: Option<Fence>) -> Option<u32>
    ensures { result ≡ grant_for r seen }
{
    match seen {
        Some(f) if !f.closing && f.owner == Some(r) => Some(f.grant),
        _ => None,
    }
}

/// The grant of `p` that `r` has noted.
pub fn noted_grant(r: u8, p: u8, part: &[Event]) -> Option<u32>
    ensures { result ≡ noted_grant r p (history part.now) }
{
    let seen = newest_of(leadership_of(r, part), |e| match (e.verb, e.answer) {
        (Verb::Fence(q), Answer::Seen(f)) if e.by == r && q == p => Some(f),
        _ => None,
    });
    named_grant(r, seen)
}

/// The number of the leadership of `r` under way.
pub fn proposal_of(r: u8, part: &[Event]) -> Option<u32>
    ensures { result ≡ proposal_number r (history part.now) }
{
    oldest_of(leadership_of(r, part), |e| match e.verb {
        Verb::PutMin(_, b) if e.by == r => Some(b),
        _ => None,
    })
}

/// Whether the event is a minimum of `r` that landed at `p`.
fn minimum_landed(r: u8, p: u8, e: &Event) -> bool
    ensures { result ≡ lands_min r p e.now.by e.now.verb e.now.answer }
{
    matches!((e.verb, e.answer), (Verb::PutMin(q, _), Answer::Done) if e.by == r && q == p)
}

/// What was noted of `p` when it became a member, if it is one.
fn joined(r: u8, p: u8, part: &[Event]) -> Option<Option<u32>>
    ensures { result ≡ grant_at_joining r p (history part.now) }
{
    let mut joined: Option<Option<u32>> = None;
    for (i, e) in part.iter().enumerate() {
        if starts_leadership(r, e) {
            joined = None;
        } else if joined.is_none() && minimum_landed(r, p, e) {
            joined = Some(noted_grant(r, p, &part[..i]));
        }
    }
    joined
}

/// Whether the fence isn't the one under which a member joined.
fn fence_changed(joined: Option<Option<u32>>, f: Fence) -> bool
    ensures { result ≡ is_changed joined f }
{
    match joined {
        None => false,
        Some(None) => true,
        Some(Some(g)) => f.closing || f.grant != g,
    }
}

/// Whether the event, made after `part`, ends the leadership.
fn is_ended_by(r: u8, part: &[Event], e: &Event) -> bool
    ensures { result ≡ ends_leadership r (history part.now) e.now.by e.now.verb e.now.answer }
{
    match (e.verb, e.answer) {
        (Verb::Enter(_, _), Answer::Lost(_)) => e.by == r,
        (Verb::PutMin(_, _), Answer::Missed) => e.by == r,
        (Verb::PutSlot(_, _, _, _), Answer::Missed) => e.by == r,
        (Verb::Min(_), Answer::Number(x)) => {
            e.by == r
                && match proposal_of(r, part) {
                    None => false,
                    Some(b) => u64::from(b) < x,
                }
        }
        (Verb::Fence(p), Answer::Seen(f)) => e.by == r && fence_changed(joined(r, p, part), f),
        _ => false,
    }
}

/// Whether the leadership of `r` is over.
pub fn has_ended(r: u8, part: &[Event]) -> bool
    ensures { result ≡ is_over r (history part.now) }
{
    let mut over = false;
    for (i, e) in part.iter().enumerate() {
        if starts_leadership(r, e) {
            over = false;
        } else if is_ended_by(r, &part[..i], e) {
            over = true;
        }
    }
    over
}

/// Whether `p` is a member.
pub fn is_in(r: u8, p: u8, part: &[Event]) -> bool
    ensures { result ≡ is_member r p (history part.now) }
{
    joined(r, p, part).is_some()
}

/// How many regions below `n` are members.
fn members_below(n: u8, r: u8, part: &[Event]) -> u8
    ensures { result ≡ count_below n (λ p. is_member r p (history part.now)) }
{
    count_under(n, |p| is_in(r, p, part))
}

/// Whether the members are a majority with `r`.
pub fn is_carried(config: &Config, r: u8, part: &[Event]) -> bool
    ensures { result ≡ has_quorum config.now r (history part.now) }
{
    is_in(r, r, part) && majority(config.replicas) <= members_below(config.replicas, r, part)
}

/// Whether a leadership has begun.
pub fn has_asked(r: u8, part: &[Event]) -> bool
    ensures { result ≡ has_begun r (history part.now) }
{
    some_event(part, |e| starts_leadership(r, e))
}
