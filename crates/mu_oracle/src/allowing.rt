//! What a replica may do next.
ghost use Rattle.std.specs.Prelude.{IsTrue, length, ◌+◌, ◌<◌, ◌^◌, ◌↔◌, ◌≡◌, ◌≤◌};
ghost use Rattle.mu_model.specs.Allowed.{Allowed, Needs};
ghost use Rattle.mu_model.specs.Contents.{row_count};
ghost use Rattle.mu_model.specs.Histories.{history, newest};
ghost use Rattle.mu_model.specs.Points.{last_ask};
ghost use Rattle.mu_model.specs.Room.{reserve};

use crate::entering::{may_enter, may_put_min};
use crate::fetching::{applied_length, has_written};
use crate::hosting::{
    has_drained, has_looked, has_to_drain, is_closing, is_next_to_serve, nobody_waits,
};
use crate::knowledge::{are_filled, known_length};
use crate::leadership::{has_asked, has_ended, noted_grant};
use crate::placing::{has_reached, may_put_slot};
use crate::walks::newest_of;
use mu_model::{Config, Event, Fence, PAYLOADS, Verb, count_of_rows, reserve_of, row_word};

/// The region that was asked last.
fn asked_last(r: u8, part: &[Event]) -> Option<u8>
    ensures { result ≡ newest (λ e. last_ask r e.by e.verb) (history part.now) }
{
    newest_of(part, |e| match e.verb {
        Verb::Ask(p) if e.by == r => Some(p),
        _ => None,
    })
}

/// Whether `i` is a position.
fn is_position(config: &Config, i: u16) -> bool
    ensures { IsTrue result ↔ (i ≤ row_count config.now + reserve config.now) }
{
    usize::from(i) <= count_of_rows(config)
        || usize::from(i) - count_of_rows(config) <= usize::from(reserve_of(config))
}

/// Whether the verb's own needs are met.
fn meets_needs(config: &Config, r: u8, part: &[Event], verb: &Verb) -> bool
    requires short { length part.now < 2 ^ 32 }
    requires ring { 0 < config.now.ring }
    ensures { IsTrue result ↔ Needs config.now r (history part.now) verb.now }
{
    let n = config.replicas;
    match *verb {
        Verb::Ask(p) => p < n
            && (p == 0 || (has_asked(r, part) && asked_last(r, part) == Some(p - 1))),
        Verb::Fence(p) => p < n && has_asked(r, part),
        Verb::Min(p) => p < n && noted_grant(r, p, part).is_some() && !has_ended(r, part),
        Verb::Enter(p, t) => p < n && may_enter(config, r, part, p, t),
        Verb::PutMin(p, b) => may_put_min(config, r, part, p, b),
        Verb::Look(p, i) => p < n
            && is_position(config, i)
            && (p == r || noted_grant(r, p, part).is_some()),
        Verb::PutSlot(p, i, b, v) => p < n
            && is_position(config, i)
            && may_put_slot(config, r, part, p, i, b, v),
        Verb::Fuo(p) => p < n,
        Verb::RaiseFuo(p, u) => p < n
            && u64::from(u) <= known_length(config, r, part)
            && are_filled(config, r, p, part, u),
        Verb::Head(q) => q < n,
        Verb::ReadBeat(q) => q < n && q != r,
        Verb::WriteRow(j, k, x) => usize::from(j) < count_of_rows(config)
            && k < 12
            && x == row_word(config, j, k)
            && !has_written(r, u64::from(j), k, part),
        Verb::ReadRow(v, k) => v / PAYLOADS < u16::from(n)
            && usize::from(v % PAYLOADS) < count_of_rows(config)
            && k < 12,
        Verb::RaiseHead(h) => u64::from(h) <= applied_length(config, r, part)
            && has_reached(r, h, part),
        Verb::Beat => true,
        Verb::ReadAsk(w) => w < n,
        Verb::Close => !is_closing(r, part) && !nobody_waits(n, r, part),
        Verb::LookTarget => has_to_drain(r, part) && !has_looked(r, part),
        Verb::Drain => has_to_drain(r, part) && has_looked(r, part) && !has_drained(r, part),
        Verb::Grant(w) => w < n
            && is_closing(r, part)
            && (!has_to_drain(r, part) || has_drained(r, part))
            && is_next_to_serve(r, part, w),
    }
}

/// Whether the replica `by`, with this part so far, may make the verb. Takes no memory, and for a
/// put of an entry about the time of the cube of the part.
pub fn allows(config: &Config, by: u8, part: &[Event], verb: &Verb) -> bool
    requires few { length part.now < 2 ^ 32 }
    requires ring { 0 < config.now.ring }
    ensures { IsTrue result ↔ Allowed config.now by (history part.now) verb.now }
{
    part.len() < config.budget as usize
        && by < config.replicas
        && meets_needs(config, by, part, verb)
}
