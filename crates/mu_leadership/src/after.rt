//! What the next event makes of each thing that a leadership has come to.
ghost use Rattle.mu_model.specs.declared.event.Event.{Event};
ghost use Rattle.mu_model.specs.Leaderships.{has_begun, proposal_number};
ghost use Rattle.mu_model.specs.Histories.{Adds};
ghost use Rattle.mu_leadership.specs.Leadership.{greatest_put, greatest_read, last_asked};

use crate::region_notes::begins;
use mu_model::{Answer, Event, Verb};

/// Whether a leadership has begun, after the event.
pub(crate) fn begun_after(held: bool, r: u8, event: &Event) -> bool
    ensures { Adds (has_begun r) event.now held result }
{
    begins(r, event) || held
}

/// The region that was asked last, after the event.
pub(crate) fn asked_after(held: Option<u8>, r: u8, event: &Event) -> Option<u8>
    ensures { Adds (last_asked r) event.now held result }
{
    match event.verb {
        Verb::Ask(p) if event.by == r => Some(p),
        _ => held,
    }
}

/// The number of the leadership, after the event.
pub(crate) fn number_after(held: Option<u32>, r: u8, event: &Event) -> Option<u32>
    ensures { Adds (proposal_number r) event.now held result }
{
    match event.verb {
        Verb::Ask(p) if event.by == r && p == 0 => None,
        Verb::PutMin(_, b) if event.by == r => held.or(Some(b)),
        _ => held,
    }
}

/// The greatest minimum read in the leadership, after the event.
pub(crate) fn greatest_minimum_after(held: u64, r: u8, event: &Event) -> u64
    ensures { Adds (greatest_read r) event.now held result }
{
    match (event.verb, event.answer) {
        (Verb::Ask(p), _) if event.by == r && p == 0 => 0,
        (Verb::Min(_), Answer::Number(x)) if event.by == r => x.max(held),
        _ => held,
    }
}

/// The greatest number put, after the event.
pub(crate) fn greatest_number_after(held: u32, r: u8, event: &Event) -> u32
    ensures { Adds (greatest_put r) event.now held result }
{
    match event.verb {
        Verb::PutMin(_, b) if event.by == r => b.max(held),
        _ => held,
    }
}
