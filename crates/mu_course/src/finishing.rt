//! When a replica has finished.
ghost use Rattle.std.specs.Prelude.{List, ◌&&◌, ◌<◌, ◌==◌, ◌||◌, ◌≡◌};
ghost use Rattle.mu_model.specs.declared.config.Config.{Config};
ghost use Rattle.mu_model.specs.declared.event.Event.{Event};
ghost use Rattle.mu_model.specs.Ends.{is_at_least, is_finished as is_finished_of};
ghost use Rattle.mu_model.specs.Histories.{all_below};
ghost use Rattle.mu_model.specs.Knowledge.{applied};
ghost use Rattle.mu_model.specs.Scores.{is_failed};
ghost use Rattle.mu_detect.specs.Stands.{StandsFor};
ghost use Rattle.mu_follow.specs.Completion.{HoldsCompletion};
ghost use Rattle.mu_follow.specs.Published.{HoldsPublished, head_heard};

use mu_detect::Scores;
use mu_follow::{Completion, Published};

/// Whether the head, if there is one, is at least `full`.
fn reaches(head: Option<u64>, full: usize) -> bool
    ensures { result ≡ is_at_least full head }
{
    match head {
        Some(head) => full as u64 <= head,
        None => false,
    }
}

/// Whether the other replica has applied `full` entries, or is held to be failed.
fn is_done(heads: &Published, scores: &Scores, r: u8, q: u8, full: usize) -> bool
    requires { q < 7 }
    ensures { (c : Config) → (mine : List Event) → q < c.replicas
        → StandsFor c.replicas r mine scores.now → HoldsPublished r mine heads.now
        → result ≡ ((q == r) || (is_at_least full (head_heard r q mine) || is_failed r q mine)) }
{
    let own = q == r;
    let there = reaches(heads.of(q), full);
    let failed = !scores.alive(q);
    own || (there || failed)
}

/// Whether both hold.
fn are_both(one: bool, other: bool) -> bool
    ensures { result ≡ (one && other) }
{
    one && other
}

/// Whether all others have applied `full` entries, or are held to be failed.
fn are_done(heads: &Published, scores: &Scores, r: u8, n: u8, full: usize) -> bool
    requires { n < 8 }
    ensures { (c : Config) → (mine : List Event) → n ≡ c.replicas
        → StandsFor c.replicas r mine scores.now → HoldsPublished r mine heads.now
        → result
        ≡ all_below n
        (λ q. (q == r) || (is_at_least full (head_heard r q mine) || is_failed r q mine)) }
{
    let mut all = true;
    for q in 0..n {
        let done = is_done(heads, scores, r, q, full);
        all = are_both(done, all);
    }
    all
}

/// Whether `r`, one of `n`, has applied all commands, and so have the others, or are held to be
/// failed.
pub fn is_finished(
    completion: &Completion,
    heads: &Published,
    scores: &Scores,
    r: u8,
    n: u8,
) -> bool
    requires { n < 8 }
    ensures { (c : Config) → (mine : List Event) → n ≡ c.replicas
        → StandsFor c.replicas r mine scores.now → HoldsPublished r mine heads.now
        → HoldsCompletion c (applied c r mine) completion.now
        → result ≡ is_finished_of c r mine }
{
    match completion.full_count() {
        Some(full) => full <= usize::from(heads.own_head()) && are_done(heads, scores, r, n, full),
        None => false,
    }
}
