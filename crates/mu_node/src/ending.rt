//! How the journal of a replica ends.
ghost use Rattle.std.specs.Prelude.{List, None, Some, false, slice_index, true, ℕ, ◌<◌, ◌==◌, ◌||◌, ◌≡◌};
ghost use Rattle.mu_model.specs.declared.config.Config.{Config};
ghost use Rattle.mu_model.specs.declared.event.Event.{Event};
ghost use Rattle.mu_model.specs.declared.script.End.{End as SomeEnd};
ghost use Rattle.mu_model.specs.declared.script.Script.{Script};
ghost use Rattle.mu_model.specs.Contents.{IsConfig};
ghost use Rattle.mu_model.specs.Ends.{EndsBy, IsGoing, head_known as head_known_of, is_at_least, is_finished as is_finished_of, outrun, stops_at};
ghost use Rattle.mu_model.specs.Histories.{all_below};
ghost use Rattle.mu_model.specs.Parts.{IsPossible};
ghost use Rattle.mu_model.specs.Scores.{is_failed};
ghost use Rattle.mu_follow.specs.Follow.{StandsForFollow};
ghost use Rattle.mu_follow.specs.Published.{head_heard};
ghost use Rattle.mu_node.specs.Turns.{halts};
ghost use Rattle.mu_node.specs.Watch.{StandsForWatch};

use crate::watch::Watch;
use mu_follow::Follow;
use mu_model::{End, Stop};

/// Whether the script stops the replica after this many steps.
pub(crate) fn is_stop(stops: &[Stop], r: u8, steps: u32) -> bool
    ensures { result ≡ stops_at r steps stops.now }
{
    for stop in stops {
        if stop.replica == r && stop.steps == steps {
            return true;
        }
    }
    false
}

/// Whether the head, if there is one, is at least `full`.
fn reaches(head: Option<u64>, full: usize) -> bool
    ensures { result ≡ is_at_least full head }
{
    match head {
        Some(head) => full as u64 <= head,
        None => false,
    }
}

/// Whether the other replica has applied `full` entries, or is held to be failed.
fn is_done(follow: &Follow, watch: &Watch, r: u8, q: u8, full: usize) -> bool
    ensures { (c : Config) → (mine : List Event) → q < c.replicas
        → StandsForWatch c r mine watch.now
        → StandsForFollow c r mine follow.now
        → result ≡ ((q == r) || (is_at_least full (head_heard r q mine) || is_failed r q mine)) }
{
    let own = q == r;
    let there = reaches(follow.head_of(q), full);
    let failed = !watch.alive(q);
    own || (there || failed)
}

/// Whether all others have applied `full` entries, or are held to be failed.
#[inline(never)]
fn are_done(follow: &Follow, watch: &Watch, r: u8, n: u8, full: usize) -> bool
    ensures { (c : Config) → (mine : List Event) → n ≡ c.replicas
        → StandsForWatch c r mine watch.now
        → StandsForFollow c r mine follow.now
        → result
        ≡ all_below n
        (λ q. (q == r) || (is_at_least full (head_heard r q mine) || is_failed r q mine)) }
{
    let mut all = true;
    for q in 0..n {
        all = is_done(follow, watch, r, q, full) && all;
    }
    all
}

/// Whether the replica has applied all commands, and so have the others, or are held to be failed.
pub(crate) fn is_finished(follow: &Follow, watch: &Watch, r: u8, n: u8) -> bool
    ensures { (c : Config) → (mine : List Event) → n ≡ c.replicas
        → StandsForWatch c r mine watch.now
        → StandsForFollow c r mine follow.now → result ≡ is_finished_of c r mine }
{
    match follow.full_count() {
        Some(full) => {
            full <= usize::from(follow.own_head()) && are_done(follow, watch, r, n, full)
        }
        None => false,
    }
}

/// A head as a position: positions are few.
pub(crate) fn as_head(head: u64) -> u16
    ensures { head < 65536 → result ≡ head }
{
    match u16::try_from(head) {
        Ok(head) => head,
        Err(_) => u16::MAX,
    }
}

/// The head of `q` that is known: its own, or the one that was read last.
fn head_known(follow: &Follow, r: u8, q: u8) -> u16
    ensures { (c : Config) → (mine : List Event) → q < 7 → IsConfig c → IsPossible c r mine
        → StandsForFollow c r mine follow.now → result ≡ head_known_of r mine q }
{
    if q == r {
        follow.own_head()
    } else {
        match follow.head_of(q) {
            Some(head) => as_head(head),
            None => 0,
        }
    }
}

/// The heads that are known.
pub(crate) fn heads_known(follow: &Follow, r: u8) -> [u16; 7]
    ensures { (c : Config) → (mine : List Event) → IsConfig c → IsPossible c r mine
        → StandsForFollow c r mine follow.now → (q : ℕ) → q < 7
        → slice_index result q ≡ head_known_of r mine q }
{
    let mut heads = [0; 7];
    for q in 0..7u8 {
        heads[usize::from(q)] = head_known(follow, r, q);
    }
    heads
}

/// That the replica was outrun, if it was.
pub(crate) fn end_of_outrun(follow: &Follow) -> Option<End>
    ensures some { (c : Config) → (script : Script) → (r : ℕ) → (mine : List Event)
        → (end : SomeEnd) → StandsForFollow c r mine follow.now → IsGoing c script r mine
        → result ≡ Some end → EndsBy c script r mine end × (halts end ≡ true) }
    ensures none { (c : Config) → (r : ℕ) → (mine : List Event)
        → StandsForFollow c r mine follow.now → result ≡ None → outrun c r mine ≡ None }
{
    match follow.outrun_place() {
        Some((replica, position)) => Some(End::Outrun { replica, position }),
        None => None,
    }
}

/// The end of a journal that neither the script nor the budget ends.
pub(crate) fn end_of_going(follow: &Follow, watch: &Watch, r: u8, n: u8) -> Option<End>
    ensures some { (c : Config) → (script : Script) → (mine : List Event) → (end : SomeEnd)
        → n ≡ c.replicas
        → IsConfig c → IsPossible c r mine → StandsForWatch c r mine watch.now
        → StandsForFollow c r mine follow.now → IsGoing c script r mine → result ≡ Some end
        → EndsBy c script r mine end }
    ensures none { (c : Config) → (mine : List Event) → n ≡ c.replicas
        → StandsForWatch c r mine watch.now
        → StandsForFollow c r mine follow.now → result ≡ None
        → (outrun c r mine ≡ None) × (is_finished_of c r mine ≡ false) }
{
    match follow.outrun_place() {
        Some((replica, position)) => Some(End::Outrun { replica, position }),
        None => {
            if is_finished(follow, watch, r, n) {
                Some(End::Finished {
                    heads: heads_known(follow, r),
                })
            } else {
                None
            }
        }
    }
}
