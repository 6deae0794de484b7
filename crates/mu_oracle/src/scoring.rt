//! The scores by which a replica holds others to be failed.
ghost use Rattle.std.specs.Prelude.{◌≡◌};
ghost use Rattle.mu_model.specs.Histories.{history};
ghost use Rattle.mu_model.specs.Scores.{beat_read, is_failed, score};

use mu_model::{Answer, Event, Verb, score_after};

/// The beat that the event reads.
fn beat_in(r: u8, q: u8, e: &Event) -> Option<u64>
    ensures { result ≡ beat_read r q e.now.by e.now.verb e.now.answer }
{
    match (e.verb, e.answer) {
        (Verb::ReadBeat(p), Answer::Number(x)) if e.by == r && p == q => Some(x),
        _ => None,
    }
}

/// The score of `q`, and whether it is alive.
fn score_of(r: u8, q: u8, part: &[Event]) -> (u8, bool)
    ensures { result ≡ score r q (history part.now) }
{
    let mut last: u64 = 0;
    let mut state: (u8, bool) = (15, true);
    for e in part {
        if let Some(x) = beat_in(r, q, e) {
            state = score_after(state.0, state.1, x != last);
            last = x;
        }
    }
    state
}

/// Whether `q` is failed by the scores of `r`.
pub fn has_failed(r: u8, q: u8, part: &[Event]) -> bool
    ensures { result ≡ is_failed r q (history part.now) }
{
    !score_of(r, q, part).1
}
