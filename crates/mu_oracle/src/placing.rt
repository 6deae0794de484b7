//! When an entry may be put into the log of a region.
ghost use Rattle.std.specs.List.{slice_get};
ghost use Rattle.std.specs.Prelude.{IsTrue, List, [], length, ℕ, ◌++◌, ◌<◌, ◌^◌, ◌∷◌, ◌↔◌, ◌≡◌};
ghost use Rattle.mu_model.specs.Answers.{is_enter_of};
ghost use Rattle.mu_model.specs.Entering.{last_opened};
ghost use Rattle.mu_model.specs.Histories.{all_below, has, history};
ghost use Rattle.mu_model.specs.Leaderships.{leadership};
ghost use Rattle.mu_model.specs.Picks.{look_answer};
ghost use Rattle.mu_model.specs.Placing.{fuo_read_or_raised, is_caught_up_at, is_good_look, is_known_put, is_slot_put_at, is_within_ring, looked_before_entering, reaches_head};
ghost use Rattle.mu_model.specs.Points.{AreMet, each_below, puts, values};
ghost use Rattle.mu_model.specs.declared.reason.Reason.{Reason};

use crate::entering::opening;
use crate::knowledge::{fuo_read_by, known_value_at};
use crate::leadership::{
    has_ended, is_carried, is_in, leadership_of, proposal_of, starts_leadership,
};
use crate::picking::{look_in, may_begin};
use crate::walks::{all_up_to, newest_of, some_event};
use mu_model::{Answer, Config, Event, Target, Verb};

/// The target of the last `Enter` at `p`, if no put came since.
fn opened_last(r: u8, p: u8, part: &[Event]) -> Option<Target>
    ensures { result ≡ last_opened r p (history part.now) }
{
    newest_of(part, |e| opening(r, p, e))
}

/// The FUO of `p` that the event reads or raises.
fn fuo_in(r: u8, p: u8, e: &Event) -> Option<u64>
    ensures { result ≡ fuo_read_or_raised r p e.now.by e.now.verb e.now.answer }
{
    match (e.verb, e.answer) {
        (Verb::Fuo(q), Answer::Number(x)) if e.by == r && q == p => Some(x),
        (Verb::RaiseFuo(q, u), _) if e.by == r && q == p => Some(u64::from(u)),
        _ => None,
    }
}

/// Whether the leadership read or raised a FUO of `p` near `i`.
fn is_within_reach(r: u8, p: u8, i: u16, ring: u16, part: &[Event]) -> bool
    ensures { result
        ≡ has (λ e. is_within_ring i ring (fuo_read_or_raised r p e.by e.verb e.answer))
        (leadership r (history part.now)) }
{
    some_event(leadership_of(r, part), |e| match fuo_in(r, p, e) {
        None => false,
        Some(x) => u64::from(i) < x || u64::from(i) < x + u64::from(ring),
    })
}

/// Whether `r` read or raised a FUO of its own region of at least `h`.
pub fn has_reached(r: u8, h: u16, part: &[Event]) -> bool
    ensures { result
        ≡ has (λ e. reaches_head h (fuo_read_or_raised r r e.by e.verb e.answer))
        (history part.now) }
{
    some_event(part, |e| match fuo_in(r, r, e) {
        None => false,
        Some(x) => u64::from(h) <= x,
    })
}

/// Whether the event is a put of `r` at `p` in the place of `i`.
fn puts_in_place(r: u8, p: u8, ring: u16, i: u16, e: &Event) -> bool
    requires { 0 < ring }
    ensures { result ≡ is_slot_put_at r p ring i e.now.by e.now.verb }
{
    matches!(e.verb, Verb::PutSlot(q, j, _, _) if e.by == r && q == p && j % ring == i % ring)
}

/// Whether the event is a look at `p` in position `i` that isn't `Past`.
fn is_good_look_at(r: u8, p: u8, i: u16, e: &Event) -> bool
    ensures { result ≡ is_good_look (look_answer r p i e.now.by e.now.verb e.now.answer) }
{
    match look_in(r, p, i, e) {
        None => false,
        Some(Answer::Past) => false,
        Some(_) => true,
    }
}

/// Whether the event is an `Enter` of `r` at `p`.
pub fn is_entering(r: u8, p: u8, e: &Event) -> bool
    ensures { result ≡ is_enter_of r p e.now }
{
    matches!(e.verb, Verb::Enter(q, _) if e.by == r && q == p)
}

/// Whether a good look came before the last `Enter` at `p`, since `p` became a member and since the
/// last put in that place.
fn has_looked_before(config: &Config, r: u8, p: u8, i: u16, part: &[Event]) -> bool
    requires { 0 < config.now.ring }
    ensures { result ≡ looked_before_entering config.now r p i (history part.now) }
{
    let mut looked = false;
    let mut at_enter = false;
    for (k, e) in part.iter().enumerate() {
        if starts_leadership(r, e) || !is_in(r, p, &part[..k]) {
            looked = false;
            at_enter = false;
        } else {
            if is_entering(r, p, e) {
                at_enter = looked;
            }
            if puts_in_place(r, p, config.ring, i, e) {
                looked = false;
            } else if is_good_look_at(r, p, i, e) {
                looked = true;
            }
        }
    }
    at_enter
}

/// Whether the event is a put of `r` of the value at `p` in position `j` that landed.
fn puts_known(r: u8, p: u8, j: u16, value: Option<u16>, e: &Event) -> bool
    ensures { (values : List ℕ) → slice_get values j ≡ value
        → result ≡ is_known_put values r p j e.now.by e.now.verb e.now.answer }
{
    match (e.verb, e.answer) {
        (Verb::PutSlot(q, i, _, v), Answer::Done) => {
            e.by == r && q == p && i == j && value == Some(v)
        }
        _ => false,
    }
}

/// Whether `r` put at `p` in position `j` what it knows of it, in its leadership.
fn has_put_known(r: u8, p: u8, j: u16, value: Option<u16>, part: &[Event]) -> bool
    ensures { (values : List ℕ) → slice_get values j ≡ value
        → result
        ≡ has (λ e. is_known_put values r p j e.by e.verb e.answer)
        (leadership r (history part.now)) }
{
    some_event(leadership_of(r, part), |e| puts_known(r, p, j, value, e))
}

/// Whether `p` has what is known of `j`.
fn is_caught_up_with(config: &Config, r: u8, p: u8, part: &[Event], j: u16) -> bool
    ensures { result ≡ is_caught_up_at config.now r p (history part.now) j }
{
    u64::from(j) < fuo_read_by(r, p, leadership_of(r, part))
        || has_put_known(r, p, j, known_value_at(config, r, part, j), part)
}

/// Whether `p` has all that is known below `i`.
fn is_caught_up_below(config: &Config, r: u8, p: u8, part: &[Event], i: u16) -> bool
    ensures { result ≡ all_below i (is_caught_up_at config.now r p (history part.now)) }
{
    all_up_to(i, |j| is_caught_up_with(config, r, p, part, j))
}

/// Whether each position below `i` is brought.
fn has_caught_up(config: &Config, r: u8, p: u8, part: &[Event], i: u16) -> bool
    ensures { IsTrue result
        ↔ AreMet config.now r (history part.now) (each_below i (λ j. Reason.Behind p j ∷ [])) }
{
    is_caught_up_below(config, r, p, part, i)
}

/// Whether `v` is known at `i`, or may be put there as new.
fn is_value_for(config: &Config, r: u8, part: &[Event], i: u16, v: u16) -> bool
    requires short { length part.now < 2 ^ 32 }
    ensures { IsTrue result
        ↔ AreMet config.now r (history part.now) (values config.now r (history part.now) i v) }
{
    known_value_at(config, r, part, i) == Some(v) || may_begin(config, r, part, i, v)
}

/// Whether `r` may write position `i` of `p` under the number `b`.
fn may_write(config: &Config, r: u8, part: &[Event], p: u8, i: u16, b: u32) -> bool
    requires ring { 0 < config.now.ring }
    ensures { IsTrue result
        ↔ AreMet config.now r (history part.now) (puts config.now r (history part.now) p i b) }
{
    (config.version != 2 || is_within_reach(r, p, i, config.ring, part))
        && !has_ended(r, part)
        && is_carried(config, r, part)
        && is_in(r, p, part)
        && proposal_of(r, part) == Some(b)
        && opened_last(r, p, part) == Some(Target::Place(i % config.ring))
        && has_looked_before(config, r, p, i, part)
}

/// Whether all points hold.
fn all_hold(write: bool, caught_up: bool, value: bool) -> bool
    ensures { IsTrue result ↔ (IsTrue write × IsTrue caught_up × IsTrue value) }
{
    write && caught_up && value
}

/// Whether `r` may put the entry: `v` under the number `b`, at position `i` of `p`.
pub fn may_put_slot(config: &Config, r: u8, part: &[Event], p: u8, i: u16, b: u32, v: u16) -> bool
    requires short { length part.now < 2 ^ 32 }
    requires ring { 0 < config.now.ring }
    ensures { IsTrue result
        ↔ AreMet config.now r (history part.now)
        (puts config.now r (history part.now) p i b
        ++ (each_below i (λ j. Reason.Behind p j ∷ [])
        ++ values config.now r (history part.now) i v)) }
{
    let write = may_write(config, r, part, p, i, b);
    let caught_up = has_caught_up(config, r, p, part, i);
    let value = is_value_for(config, r, part, i, v);
    all_hold(write, caught_up, value)
}
