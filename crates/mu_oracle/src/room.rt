//! Whether the heads that were read leave room, and who may be marked.
ghost use Rattle.std.specs.Prelude.{length, not, ◌&&◌, ◌+◌, ◌<◌, ◌==◌, ◌^◌, ◌||◌, ◌≡◌};
ghost use Rattle.mu_model.specs.Contents.{is_mark, marked};
ghost use Rattle.mu_model.specs.Histories.{history};
ghost use Rattle.mu_model.specs.Knowledge.{known};
ghost use Rattle.mu_model.specs.Picks.{is_mark_offer};
ghost use Rattle.mu_model.specs.Room.{has_room, head_read, is_mark_candidate, lacks_room, last_head};

use crate::knowledge::{known_length, knows_mark};
use crate::leadership::starts_leadership;
use crate::scoring::has_failed;
use crate::walks::{all_under, newest_of};
use mu_model::{Answer, Config, Event, PAYLOADS, Verb, reserve_of, stands_for_mark};

/// The last answer of `Head(q)`.
fn last_head_of(r: u8, q: u8, part: &[Event]) -> u64
    ensures { result ≡ last_head r q (history part.now) }
{
    newest_of(part, |e| match (e.verb, e.answer) {
        (Verb::Head(p), Answer::Number(x)) if e.by == r && p == q => Some(x),
        _ => None,
    })
    .unwrap_or(0)
}

/// Whether the event is a `Head(q)` answer that leaves no room.
fn shows_no_room(config: &Config, limit: u64, r: u8, q: u8, e: &Event) -> bool
    ensures { result
        ≡ lacks_room config.now limit (head_read r q e.now.by e.now.verb e.now.answer) }
{
    match (e.verb, e.answer) {
        (Verb::Head(p), Answer::Number(h)) => e.by == r
            && p == q
            && h <= limit
            && u64::from(config.ring) <= limit - h,
        _ => false,
    }
}

/// Whether a head of `q` was read that leaves no room, and `q` was failed then.
fn is_candidate(config: &Config, r: u8, q: u8, limit: u64, part: &[Event]) -> bool
    ensures { result ≡ is_mark_candidate config.now r q limit (history part.now) }
{
    let mut stuck = false;
    for (i, e) in part.iter().enumerate() {
        if starts_leadership(r, e) {
            stuck = false;
        } else if shows_no_room(config, limit, r, q, e) && has_failed(r, q, &part[..i + 1]) {
            stuck = true;
        }
    }
    stuck
}

/// Whether the heads leave room for `i`, with `free` places left over.
pub fn leaves_room(config: &Config, r: u8, part: &[Event], i: u16, free: u8) -> bool
    ensures { result ≡ has_room config.now r (history part.now) i free }
{
    let limit = u64::from(i) + u64::from(free);
    all_under(config.replicas, |q| {
        let head = last_head_of(r, q, part);
        knows_mark(config, q, r, part) || limit < head || limit < head + u64::from(config.ring)
    })
}

/// Whether `v` is the mark of `q`, which may be marked.
fn may_mark(config: &Config, q: u8, r: u8, part: &[Event], v: u16, limit: u64) -> bool
    ensures { result
        ≡ (is_mark config.now q v
        && (not (q == r)
        && (not (marked config.now q (known config.now r (history part.now)))
        && is_mark_candidate config.now r q limit (history part.now)))) }
{
    stands_for_mark(config, q, v)
        && q != r
        && !knows_mark(config, q, r, part)
        && is_candidate(config, r, q, limit, part)
}

/// Whether `v` is a mark that `r` may offer.
pub fn is_offer_of_mark(config: &Config, r: u8, part: &[Event], v: u16) -> bool
    requires short { length part.now < 2 ^ 32 }
    ensures { result ≡ is_mark_offer config.now r (history part.now) v }
{
    let limit = known_length(config, r, part) + u64::from(reserve_of(config));
    v / PAYLOADS == u16::from(r)
        && !all_under(config.replicas, |q| !may_mark(config, q, r, part, v, limit))
}
