//! What a host has read of asks, and which replicas it has served.
ghost use Rattle.std.specs.Prelude.{not, ◌≡◌};
ghost use Rattle.mu_model.specs.Histories.{all_below, history, newest, since};
ghost use Rattle.mu_model.specs.Regions.{fence_closing, fence_owner, is_close_of, is_drain_of, is_grant_of};
ghost use Rattle.mu_model.specs.Serving.{close_seen, drained_since_close, has_target, has_unserved_ask, is_least_waiting, looked_since_close, must_drain, seen_asks, served_as_owner, served_by_grant};

use crate::walks::{all_under, events_before, events_since, newest_of, some_event};
use mu_model::{Answer, Event, Fence, Target, Verb};

/// The replica to which `r` granted last.
pub fn owner_of(r: u8, part: &[Event]) -> Option<u8>
    ensures { result ≡ fence_owner r (history part.now) }
{
    newest_of(part, |e| match e.verb {
        Verb::Grant(w) if e.by == r => Some(w),
        _ => None,
    })
}

/// Whether the event is a grant of `r`.
pub fn is_granting(r: u8, e: &Event) -> bool
    ensures { result ≡ is_grant_of r e.now }
{
    matches!(e.verb, Verb::Grant(_) if e.by == r)
}

/// Whether the event is a `Close` of `r`.
fn closes(r: u8, e: &Event) -> bool
    ensures { result ≡ is_close_of r e.now }
{
    matches!(e.verb, Verb::Close if e.by == r)
}

/// Whether the event is a `Drain` of `r`.
pub fn is_drain(r: u8, e: &Event) -> bool
    ensures { result ≡ is_drain_of r e.now }
{
    matches!(e.verb, Verb::Drain if e.by == r)
}

/// Whether a `Close` of `r` is pending.
pub fn is_closing(r: u8, part: &[Event]) -> bool
    ensures { result ≡ fence_closing r (history part.now) }
{
    some_event(events_since(part, |e| is_granting(r, e)), |e| closes(r, e))
}

/// The last answer of `ReadAsk(w)`.
fn last_ask_read(r: u8, w: u8, part: &[Event]) -> u64
    ensures { result ≡ seen_asks r w (history part.now) }
{
    newest_of(part, |e| match (e.verb, e.answer) {
        (Verb::ReadAsk(q), Answer::Number(x)) if e.by == r && q == w => Some(x),
        _ => None,
    })
    .unwrap_or(0)
}

/// The answer of `ReadAsk(w)` before the last grant to `w`.
fn ask_read_at_grant(r: u8, w: u8, part: &[Event]) -> u64
    ensures { result ≡ served_by_grant r w (history part.now) }
{
    let before = events_before(
        part,
        |e| matches!(e.verb, Verb::Grant(q) if e.by == r && q == w),
    );
    last_ask_read(r, w, before)
}

/// The last answer of `ReadAsk(w)` that came while `w` was owner and no `Close` was pending.
fn ask_read_while_owner(r: u8, w: u8, part: &[Event]) -> Option<u64>
    ensures { result ≡ served_as_owner r w (history part.now) }
{
    let mut served: Option<u64> = None;
    for (i, e) in part.iter().enumerate() {
        if let (Verb::ReadAsk(q), Answer::Number(x)) = (e.verb, e.answer) {
            let before = &part[..i];
            if e.by == r && q == w && owner_of(r, before) == Some(w) && !is_closing(r, before) {
                served = Some(x);
            }
        }
    }
    served
}

/// Whether `w`, which isn't the owner, asked again since it was served.
fn is_waiting(r: u8, part: &[Event], w: u8) -> bool
    ensures { result ≡ has_unserved_ask r (history part.now) w }
{
    let owned = match ask_read_while_owner(r, w, part) {
        None => 0,
        Some(x) => x,
    };
    owner_of(r, part) != Some(w)
        && ask_read_at_grant(r, w, part).max(owned) < last_ask_read(r, w, part)
}

/// Whether no replica below `n` waits.
pub fn nobody_waits(n: u8, r: u8, part: &[Event]) -> bool
    ensures { result ≡ all_below n (λ w. not (has_unserved_ask r (history part.now) w)) }
{
    all_under(n, |w| !is_waiting(r, part, w))
}

/// What the last `Close` of `r` answered.
fn last_close(r: u8, part: &[Event]) -> Option<Fence>
    ensures { result ≡ newest (λ e. close_seen r e.by e.verb e.answer) (history part.now) }
{
    newest_of(part, |e| match (e.verb, e.answer) {
        (Verb::Close, Answer::Seen(f)) if e.by == r => Some(f),
        _ => None,
    })
}

/// Whether the target names a word.
fn names_word(target: Target) -> bool
    ensures { result ≡ has_target target }
{
    !matches!(target, Target::None)
}

/// Whether a `Close` is pending whose answer has a target.
pub fn has_to_drain(r: u8, part: &[Event]) -> bool
    ensures { result ≡ must_drain r (history part.now) }
{
    is_closing(r, part)
        && match last_close(r, part) {
            None => false,
            Some(f) => names_word(f.target),
        }
}

/// The events since the last `Close` of `r`.
fn since_close(r: u8, part: &[Event]) -> &[Event]
    ensures { history result.now ≡ since (is_close_of r) (history part.now) }
{
    events_since(part, |e| closes(r, e))
}

/// Whether a `LookTarget` came since the last `Close`.
pub fn has_looked(r: u8, part: &[Event]) -> bool
    ensures { result ≡ looked_since_close r (history part.now) }
{
    some_event(
        since_close(r, part),
        |e| matches!(e.verb, Verb::LookTarget if e.by == r),
    )
}

/// Whether a `Drain` came since the last `Close`.
pub fn has_drained(r: u8, part: &[Event]) -> bool
    ensures { result ≡ drained_since_close r (history part.now) }
{
    some_event(since_close(r, part), |e| is_drain(r, e))
}

/// Whether `w` is the least that waits.
pub fn is_next_to_serve(r: u8, part: &[Event], w: u8) -> bool
    ensures { result ≡ is_least_waiting r (history part.now) w }
{
    is_waiting(r, part, w) && nobody_waits(w, r, part)
}
