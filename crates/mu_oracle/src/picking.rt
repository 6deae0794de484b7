//! Which value may be put at a position that is not known yet.
ghost use Rattle.std.specs.Prelude.{IsTrue, None, if◌then◌else◌, is_some, length, not, true, ◌&&◌, ◌<◌, ◌^◌, ◌||◌, ◌↔◌, ◌≡◌};
ghost use Rattle.mu_model.specs.Histories.{all_below, has, history};
ghost use Rattle.mu_model.specs.Leaderships.{is_member, leadership};
ghost use Rattle.mu_model.specs.Picks.{entry_of, first_value, highest_accepted, is_fresh_batch, is_joining, is_offer, is_past_look, joined_since_first_put, larger, last_look, look_answer, may_pick_at, may_propose};
ghost use Rattle.mu_model.specs.Knowledge.{known};
ghost use Rattle.mu_model.specs.Room.{has_room, reserve};

use crate::fetching::has_written_batch;
use crate::knowledge::{commands_known, known_length};
use crate::leadership::{is_in, leadership_of, starts_leadership};
use crate::room::{is_offer_of_mark, leaves_room};
use crate::walks::{all_under, oldest_of, some_event};
use mu_model::{
    Answer, Config, Event, PAYLOADS, Verb, reserve_of, row_client, row_number, stands_for_batch,
};

/// Whether a region became a member by the event.
fn joins(r: u8, part: &[Event], e: &Event) -> bool
    ensures { result ≡ is_joining r (history part.now) e.now.by e.now.verb e.now.answer }
{
    match (e.verb, e.answer) {
        (Verb::PutMin(p, _), Answer::Done) => e.by == r && !is_in(r, p, part),
        _ => false,
    }
}

/// What the event saw at `p` in position `i`.
pub fn look_in(r: u8, p: u8, i: u16, e: &Event) -> Option<Answer>
    ensures { result ≡ look_answer r p i e.now.by e.now.verb e.now.answer }
{
    match e.verb {
        Verb::Look(q, j) if e.by == r && q == p && j == i => Some(e.answer),
        _ => None,
    }
}

/// The last look at `p` in position `i` since the last joining.
fn last_look_of(r: u8, p: u8, i: u16, part: &[Event]) -> Option<Answer>
    ensures { result ≡ last_look r p i (history part.now) }
{
    let mut last: Option<Answer> = None;
    for (k, e) in part.iter().enumerate() {
        if joins(r, &part[..k], e) || starts_leadership(r, e) {
            last = None;
        } else if let Some(a) = look_in(r, p, i, e) {
            last = Some(a);
        }
    }
    last
}

/// The entry that a look showed.
fn entry_in(look: Option<Answer>) -> Option<(u32, u16)>
    ensures { result ≡ entry_of look }
{
    match look {
        Some(Answer::Entry { number, value }) => Some((number, value)),
        _ => None,
    }
}

/// The entry of the larger number, the first at a tie.
fn larger_of(x: Option<(u32, u16)>, y: Option<(u32, u16)>) -> Option<(u32, u16)>
    ensures { result ≡ larger x y }
{
    match (x, y) {
        (None, other) => other,
        (Some(a), None) => Some(a),
        (Some(a), Some(b)) => { if a.0 < b.0 { Some(b) } else { Some(a) } }
    }
}

/// What the last look at `p` showed, if it is a member.
fn entry_shown(r: u8, p: u8, i: u16, part: &[Event]) -> Option<(u32, u16)>
    ensures { result
        ≡ (if is_member r p (history part.now) then entry_of (last_look r p i (history part.now))
        else None) }
{
    if is_in(r, p, part) {
        entry_in(last_look_of(r, p, i, part))
    } else {
        None
    }
}

/// The entry of the largest number among the looks at the members below `n`.
fn highest_entry_of(n: u8, r: u8, i: u16, part: &[Event]) -> Option<(u32, u16)>
    ensures { result ≡ highest_accepted r i (history part.now) n }
{
    let mut best: Option<(u32, u16)> = None;
    for p in 0..n {
        best = larger_of(best, entry_shown(r, p, i, part));
    }
    best
}

/// Whether `v` is a batch that `r` may offer.
fn is_own_offer(config: &Config, r: u8, part: &[Event], v: u16) -> bool
    requires short { length part.now < 2 ^ 32 }
    ensures { result ≡ is_offer config.now r (history part.now) v }
{
    stands_for_batch(config, v)
        && v / PAYLOADS == u16::from(r)
        && has_written_batch(config, r, v % PAYLOADS, part)
        && u64::from(row_number(config, v % PAYLOADS))
            == commands_known(config, u64::from(row_client(config, v % PAYLOADS)), r, part) + 1
}

/// Whether `pick` allows `v` at `i`.
fn is_pick(config: &Config, r: u8, part: &[Event], i: u16, v: u16) -> bool
    requires short { length part.now < 2 ^ 32 }
    ensures { result ≡ may_pick_at config.now r (history part.now) i v }
{
    match highest_entry_of(config.replicas, r, i, part) {
        Some(entry) => entry.1 == v,
        None => is_own_offer(config, r, part, v) || is_offer_of_mark(config, r, part, v),
    }
}

/// The value of the first put at `i` in the leadership.
fn first_value_of(r: u8, i: u16, part: &[Event]) -> Option<u16>
    ensures { result ≡ first_value r i (history part.now) }
{
    oldest_of(leadership_of(r, part), |e| match e.verb {
        Verb::PutSlot(_, j, _, v) if e.by == r && j == i => Some(v),
        _ => None,
    })
}

/// Whether a region became a member after the first put at `i`.
fn has_joined_since(r: u8, i: u16, part: &[Event]) -> bool
    ensures { result ≡ joined_since_first_put r i (history part.now) }
{
    let mut since = false;
    for (k, e) in part.iter().enumerate() {
        if starts_leadership(r, e) {
            since = false;
        } else if joins(r, &part[..k], e) && first_value_of(r, i, &part[..k]).is_some() {
            since = true;
        }
    }
    since
}

/// Whether every member below `n` was looked at since the last joining.
fn have_looked(n: u8, r: u8, i: u16, part: &[Event]) -> bool
    ensures { result
        ≡ all_below n
        (λ p. not (is_member r p (history part.now))
        || is_some (last_look r p i (history part.now))) }
{
    all_under(
        n,
        |p| !is_in(r, p, part) || last_look_of(r, p, i, part).is_some(),
    )
}

/// Whether `v` is the value of the first put at `i`, or may be.
fn is_value_to_put(config: &Config, r: u8, part: &[Event], i: u16, v: u16) -> bool
    requires short { length part.now < 2 ^ 32 }
    ensures { result
        ≡ may_propose config.now r (history part.now) i v (first_value r i (history part.now)) }
{
    match first_value_of(r, i, part) {
        Some(first) => v == first && !has_joined_since(r, i, part),
        None => have_looked(config.replicas, r, i, part) && is_pick(config, r, part, i, v),
    }
}

/// Whether the looks at the members show no entry, and `v` is a batch.
fn is_fresh(config: &Config, r: u8, part: &[Event], i: u16, v: u16) -> bool
    ensures { result ≡ is_fresh_batch config.now r (history part.now) i v }
{
    stands_for_batch(config, v) && highest_entry_of(config.replicas, r, i, part).is_none()
}

/// Whether a look at `p` in position `i` was `Past` in the leadership.
fn has_seen_past(r: u8, p: u8, i: u16, part: &[Event]) -> bool
    ensures { result
        ≡ has (λ e. is_past_look (look_answer r p i e.by e.verb e.answer))
        (leadership r (history part.now)) }
{
    some_event(
        leadership_of(r, part),
        |e| matches!(look_in(r, p, i, e), Some(Answer::Past)),
    )
}

/// Whether no look at a member below `n` was `Past`.
fn none_past(n: u8, r: u8, i: u16, part: &[Event]) -> bool
    ensures { result
        ≡ all_below n
        (λ p. not
        (is_member r p (history part.now)
        && has (λ e. is_past_look (look_answer r p i e.by e.verb e.answer))
        (leadership r (history part.now)))) }
{
    all_under(n, |p| !(is_in(r, p, part) && has_seen_past(r, p, i, part)))
}

/// Whether `v` may be put at the new position `i`.
pub fn may_begin(config: &Config, r: u8, part: &[Event], i: u16, v: u16) -> bool
    requires short { length part.now < 2 ^ 32 }
    ensures { IsTrue result
        ↔ ((i ≡ length (known config.now r (history part.now)))
        × (has_room config.now r (history part.now) i 0 ≡ true)
        × (is_fresh_batch config.now r (history part.now) i v ≡ true
        → has_room config.now r (history part.now) i (reserve config.now) ≡ true)
        × (all_below config.now.replicas
        (λ p. not
        (is_member r p (history part.now)
        && has (λ e. is_past_look (look_answer r p i e.by e.verb e.answer))
        (leadership r (history part.now))))
        ≡ true)
        × (may_propose config.now r (history part.now) i v (first_value r i (history part.now))
        ≡ true)) }
{
    u64::from(i) == known_length(config, r, part)
        && leaves_room(config, r, part, i, 0)
        && (!is_fresh(config, r, part, i, v) || leaves_room(config, r, part, i, reserve_of(config)))
        && none_past(config.replicas, r, i, part)
        && is_value_to_put(config, r, part, i, v)
}
