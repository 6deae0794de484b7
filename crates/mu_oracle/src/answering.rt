//! What a step answers, computed from the list of events so far.
ghost use Rattle.std.specs.List.{slice_get};
ghost use Rattle.std.specs.Prelude.{List, [], if◌then◌else◌, length, set, ℕ, ◌++◌, ◌<◌, ◌==◌, ◌^◌, ◌∷◌, ◌≡◌};
ghost use Rattle.mu_model.specs.Answers.{answer_of, drained};
ghost use Rattle.mu_model.specs.Histories.{history};
ghost use Rattle.mu_model.specs.Regions.{asks, beats, fence, fence_grant, region_fuo, region_head, region_log, region_min, row_word};

use crate::hosting::{is_closing, is_drain, is_granting, owner_of};
use crate::leadership::noted_grant;
use crate::placing::is_entering;
use crate::walks::{count_of, events_since, greatest_of, newest_of, some_event};
use mu_model::{Answer, Config, Event, Fence, PAYLOADS, Target, Verb};

/// The fence of `p`.
fn fence_of(p: u8, events: &[Event]) -> Fence
    requires { fence_grant p (history events.now) < 2 ^ 32 }
    ensures { result ≡ fence p (history events.now) }
{
    let since_grant = events_since(events, |e| is_granting(p, e));
    let target = newest_of(since_grant, |e| match (e.verb, e.answer) {
        (Verb::Enter(q, t), Answer::Entered) if q == p => Some(t),
        _ => None,
    });
    Fence {
        owner: owner_of(p, events),
        grant: count_of(events, |e| is_granting(p, e)) as u32,
        closing: is_closing(p, events),
        target: target.unwrap_or(Target::None),
    }
}

/// The minimum of `p`.
fn minimum_of(p: u8, events: &[Event]) -> u32
    ensures { result ≡ region_min p (history events.now) }
{
    newest_of(events, |e| match (e.verb, e.answer) {
        (Verb::PutMin(q, b), Answer::Done) if q == p => Some(b),
        _ => None,
    })
    .unwrap_or(0)
}

/// The FUO of `p`.
fn fuo_of(p: u8, events: &[Event]) -> u64
    ensures { result ≡ region_fuo p (history events.now) }
{
    greatest_of(events, |e| match e.verb {
        Verb::RaiseFuo(q, u) if q == p => Some(u64::from(u)),
        _ => None,
    })
}

/// The head of `p`.
fn head_of(p: u8, events: &[Event]) -> u64
    ensures { result ≡ region_head p (history events.now) }
{
    greatest_of(events, |e| match e.verb {
        Verb::RaiseHead(h) if e.by == p => Some(u64::from(h)),
        _ => None,
    })
}

/// How many beats `q` made.
fn beats_of(q: u8, events: &[Event]) -> u64
    ensures { result ≡ beats q (history events.now) }
{
    count_of(events, |e| matches!(e.verb, Verb::Beat if e.by == q))
}

/// How often `w` asked `p`.
fn asks_of(w: u8, p: u8, events: &[Event]) -> u64
    ensures { result ≡ asks w p (history events.now) }
{
    count_of(
        events,
        |e| matches!(e.verb, Verb::Ask(q) if e.by == w && q == p),
    )
}

/// Word `k` of the row of the payload number `v`.
fn word_of(v: u16, k: u8, events: &[Event]) -> u64
    ensures { result ≡ row_word v k (history events.now) }
{
    newest_of(events, |e| match e.verb {
        Verb::WriteRow(row, l, x)
            if u16::from(e.by) == v / PAYLOADS && row == v % PAYLOADS && l == k => Some(x),
        _ => None,
    })
    .unwrap_or(0)
}

/// How long the log of `p` is.
fn log_length(p: u8, events: &[Event]) -> u64
    ensures { result ≡ length (region_log p (history events.now)) }
{
    let mut count: u64 = 0;
    for e in events {
        if let (Verb::PutSlot(q, j, _, _), Answer::Done) = (e.verb, e.answer) {
            if q == p && u64::from(j) == count {
                count += 1;
            }
        }
    }
    count
}

/// The entry at `i` of a log of `count` entries after a put at `j`.
#[tactic(auto, using(crate::proofs::Entries::get_after))]
fn entry_after(
    entry: Option<(u32, u16)>,
    count: u64,
    i: u16,
    j: u16,
    put: (u32, u16),
) -> Option<(u32, u16)>
    ensures { (log : List (ℕ × ℕ)) → length log ≡ count → slice_get log i ≡ entry
        → result ≡ slice_get (if j == length log then log ++ put ∷ [] else set log j put) i }
{
    if j == i && u64::from(j) <= count {
        Some(put)
    } else {
        entry
    }
}

/// What stands in the log of `p` at `i`.
fn entry_at(p: u8, i: u16, events: &[Event]) -> Option<(u32, u16)>
    ensures { result ≡ slice_get (region_log p (history events.now)) i }
{
    let mut entry: Option<(u32, u16)> = None;
    let mut count: u64 = 0;
    for e in events {
        if let (Verb::PutSlot(q, j, b, v), Answer::Done) = (e.verb, e.answer) {
            if q == p {
                entry = entry_after(entry, count, i, j, (b, v));
                if u64::from(j) == count {
                    count += 1;
                }
            }
        }
    }
    entry
}

/// Whether `p` was drained since the last `Enter` of `r` there.
fn is_drained(r: u8, p: u8, events: &[Event]) -> bool
    ensures { result ≡ drained r p (history events.now) }
{
    some_event(
        events_since(events, |e| is_entering(r, p, e)),
        |e| is_drain(p, e),
    )
}

/// What the replica `by` is answered to `verb` after `events`, if each region was granted fewer
/// than 2^32 times. Takes no memory, and the time of a walk over the events.
pub fn answers(config: &Config, events: &[Event], by: u8, verb: &Verb) -> Answer
    requires few { (p : ℕ) → fence_grant p (history events.now) < 2 ^ 32 }
    ensures { result ≡ answer_of config.now by (history events.now) verb.now }
{
    match *verb {
        Verb::Fence(p) => Answer::Seen(fence_of(p, events)),
        Verb::Min(p) => Answer::Number(u64::from(minimum_of(p, events))),
        Verb::Enter(p, _) => {
            let fence = fence_of(p, events);
            match noted_grant(by, p, events) {
                Some(g) if !fence.closing && fence.grant == g => Answer::Entered,
                _ => Answer::Lost(fence),
            }
        }
        Verb::PutMin(p, _) | Verb::PutSlot(p, _, _, _) => {
            if is_drained(by, p, events) {
                Answer::Missed
            } else {
                Answer::Done
            }
        }
        Verb::Look(p, i) => {
            if u64::from(i) + u64::from(config.ring) < log_length(p, events) {
                Answer::Past
            } else {
                match entry_at(p, i, events) {
                    None => Answer::Empty,
                    Some((number, value)) => Answer::Entry { number, value },
                }
            }
        }
        Verb::Fuo(p) => Answer::Number(fuo_of(p, events)),
        Verb::Head(q) => Answer::Number(head_of(q, events)),
        Verb::ReadBeat(q) => Answer::Number(beats_of(q, events)),
        Verb::ReadRow(v, k) => Answer::Number(word_of(v, k, events)),
        Verb::ReadAsk(w) => Answer::Number(asks_of(w, by, events)),
        Verb::Close => Answer::Seen(fence_of(by, events)),
        _ => Answer::Done,
    }
}
