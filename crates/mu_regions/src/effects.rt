//! How one event changes what a region holds.
ghost use Rattle.std.specs.Prelude.{List, [], if◌then◌else◌, length, set, ◌++◌, ◌==◌, ◌+◌, ◌<◌, ◌≡◌, ◌^◌, ◌∷◌, vec_capacity};
ghost use Rattle.mu_model.specs.declared.config.Config.{Config};
ghost use Rattle.mu_model.specs.declared.event.Event.{Event};
ghost use Rattle.mu_model.specs.Contents.{row_count};
ghost use Rattle.mu_model.specs.Leaderships.{grant_for};
ghost use Rattle.mu_model.specs.Regions.{beats, fence, region_fuo, region_head, region_log, region_min};
ghost use Rattle.mu_model.specs.Room.{reserve};
ghost use Rattle.mu_regions.specs.Range.{IsNear};
ghost use Rattle.mu_regions.specs.Stands.{CountsAsks, HoldsRows, MarksDrains, NotesGrants};

use mu_model::{Answer, Event, Fence, Target, Verb};

/// The fence of `p` after the event.
#[tactic(auto, using(crate::proofs::Counts::few_grants))]
pub fn fence_after(held: Fence, p: u8, event: &Event) -> Fence
    ensures { (past : List Event) → length past < 2 ^ 20 → held ≡ fence p past
        → result ≡ fence p (event.now ∷ past) }
{
    match (event.verb, event.answer) {
        (Verb::Grant(w), _) => {
            if event.by == p {
                Fence {
                    owner: Some(w),
                    grant: held.grant.saturating_add(1),
                    closing: false,
                    target: Target::None,
                }
            } else {
                held
            }
        }
        (Verb::Close, _) => Fence {
            closing: held.closing || event.by == p,
            ..held
        },
        (Verb::Enter(q, target), Answer::Entered) => {
            if q == p {
                Fence { target, ..held }
            } else {
                held
            }
        }
        _ => held,
    }
}

/// The minimum of `p` after the event.
pub fn minimum_after(held: u32, p: u8, event: &Event) -> u32
    ensures { (past : List Event) → held ≡ region_min p past
        → result ≡ region_min p (event.now ∷ past) }
{
    match (event.verb, event.answer) {
        (Verb::PutMin(q, b), Answer::Done) => { if q == p { b } else { held } }
        _ => held,
    }
}

/// The FUO of `p` after the event.
pub fn fuo_after(held: u16, p: u8, event: &Event) -> u16
    ensures { (past : List Event) → held ≡ region_fuo p past
        → result ≡ region_fuo p (event.now ∷ past) }
{
    match event.verb {
        Verb::RaiseFuo(q, u) => { if q == p { u.max(held) } else { held } }
        _ => held,
    }
}

/// The head of `p` after the event.
pub fn head_after(held: u16, p: u8, event: &Event) -> u16
    ensures { (past : List Event) → held ≡ region_head p past
        → result ≡ region_head p (event.now ∷ past) }
{
    match event.verb {
        Verb::RaiseHead(h) => { if event.by == p { h.max(held) } else { held } }
        _ => held,
    }
}

/// The beats of `p` after the event.
#[tactic(auto, using(crate::proofs::Counts::few_beats))]
pub fn beats_after(held: u64, p: u8, event: &Event) -> u64
    ensures { (past : List Event) → length past < 2 ^ 20 → held ≡ beats p past
        → result ≡ beats p (event.now ∷ past) }
{
    match event.verb {
        Verb::Beat => {
            if event.by == p {
                held.saturating_add(1)
            } else {
                held
            }
        }
        _ => held,
    }
}

/// Puts an entry into a log, at a position that it has or at its end. Takes no memory.
#[tactic(auto, using(std::proofs::lemmas::List::set_past))]
fn put(log: &mut Vec<(u32, u16)>, i: usize, entry: (u32, u16))
    ensures items { i < vec_capacity log.old
        → log.new.items
        ≡ (if i == length log.old.items then log.old.items ++ entry ∷ []
        else set log.old.items i entry) }
    ensures room { vec_capacity log.new ≡ vec_capacity log.old }
{
    if i < log.len() {
        log[i] = entry;
    } else if i == log.len() {
        if i < log.capacity() {
            log.push_reserved(entry);
        }
    }
}

/// Adds to the log of `p` what the event puts there. Takes no memory.
pub fn note_put(log: &mut Vec<(u32, u16)>, p: u8, event: &Event)
    ensures items { (c : Config) → IsNear c event.now.verb → (past : List Event)
        → row_count c + reserve c < vec_capacity log.old → log.old.items ≡ region_log p past
        → log.new.items ≡ region_log p (event.now ∷ past) }
    ensures room { vec_capacity log.new ≡ vec_capacity log.old }
{
    if let (Verb::PutSlot(q, i, b, v), Answer::Done) = (event.verb, event.answer) {
        if q == p {
            put(log, usize::from(i), (b, v));
        }
    }
}

/// Counts the event if it asks `p`.
#[tactic(auto, using(crate::proofs::Counts::few_asks))]
pub fn note_ask(asks: &mut [u64; 7], p: u8, event: &Event)
    ensures { (past : List Event) → length past < 2 ^ 20 → CountsAsks p past asks.old
        → CountsAsks p (event.now ∷ past) asks.new }
{
    if let Verb::Ask(q) = event.verb {
        let w = usize::from(event.by);
        if q == p && w < 7 {
            asks[w] = asks[w].saturating_add(1);
        }
    }
}

/// The grant that `r` notes if it sees this fence.
fn grant_in(fence: Fence, r: u8) -> Option<u32>
    ensures { result ≡ grant_for r (Some fence) }
{
    if !fence.closing && fence.owner == Some(r) {
        Some(fence.grant)
    } else {
        None
    }
}

/// Notes the grant of `p` that the event shows, or that a leadership begins.
pub fn note_grant(noted: &mut [Option<u32>; 7], p: u8, event: &Event)
    ensures { (past : List Event) → NotesGrants p past noted.old
        → NotesGrants p (event.now ∷ past) noted.new }
{
    let r = usize::from(event.by);
    if r < 7 {
        match (event.verb, event.answer) {
            (Verb::Ask(q), _) => {
                if q == 0 {
                    noted[r] = None;
                }
            }
            (Verb::Fence(q), Answer::Seen(fence)) => {
                if q == p {
                    noted[r] = grant_in(fence, event.by);
                }
            }
            _ => {}
        }
    }
}

/// Marks `p` as drained for all replicas, or as entered by one.
pub fn note_drain(drained: &mut [bool; 7], p: u8, event: &Event)
    ensures { (past : List Event) → MarksDrains p past drained.old
        → MarksDrains p (event.now ∷ past) drained.new }
{
    match event.verb {
        Verb::Drain => {
            if event.by == p {
                *drained = [true; 7];
            }
        }
        Verb::Enter(q, _) => {
            let r = usize::from(event.by);
            if q == p && r < 7 {
                drained[r] = false;
            }
        }
        _ => {}
    }
}

/// Writes into the rows of `p` the word that the event writes.
pub fn note_word(words: &mut [u64], p: u8, event: &Event)
    ensures { (c : Config) → IsNear c event.now.verb → (past : List Event)
        → HoldsRows c p past words.old
        → HoldsRows c p (event.now ∷ past) words.new }
{
    if let Verb::WriteRow(row, word, x) = event.verb {
        let at = usize::from(row) * 12 + usize::from(word);
        if event.by == p && word < 12 && at < words.len() {
            words[at] = x;
        }
    }
}
