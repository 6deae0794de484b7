//! Which rows a replica has written or read, and what it has applied.
ghost use Rattle.std.specs.Prelude.{List, [], length, ℕ, ◌%◌, ◌&&◌, ◌++◌, ◌+◌, ◌/◌, ◌<◌, ◌==◌, ◌^◌, ◌||◌, ◌∷◌, ◌≡◌, ◌≤◌};
ghost use Rattle.mu_model.specs.Histories.{all_below, has, history};
ghost use Rattle.mu_model.specs.Knowledge.{applied, fetched_prefix, front, has_entry, has_row, has_word, is_read, wrote, wrote_batch};

use crate::knowledge::learnt_value;
use crate::walks::{all_under, all_up_to, some_event};
use mu_model::{Config, Event, PAYLOADS, Verb, row_rest, stands_for_batch};

/// Whether `r` wrote word `k` of its row `j`.
pub fn has_written(r: u8, j: u64, k: u8, part: &[Event]) -> bool
    ensures { result ≡ wrote r j k (history part.now) }
{
    some_event(part, |e| match e.verb {
        Verb::WriteRow(row, word, _) => e.by == r && u64::from(row) == j && word == k,
        _ => false,
    })
}

/// Whether `r` read word `k` of the row of `v`.
fn has_read(r: u8, v: u64, k: u8, part: &[Event]) -> bool
    ensures { result ≡ has (λ e. is_read r v k e.by e.verb) (history part.now) }
{
    some_event(part, |e| match e.verb {
        Verb::ReadRow(w, word) => e.by == r && u64::from(w) == v && word == k,
        _ => false,
    })
}

/// Whether `r` wrote the first `n` words of its row `j`.
fn wrote_below(n: u8, r: u8, j: u64, part: &[Event]) -> bool
    ensures { result ≡ all_below n (λ k. wrote r j k (history part.now)) }
{
    all_under(n, |k| has_written(r, j, k, part))
}

/// Whether `r` wrote or read the first `n` words of the row of `v`.
fn has_words_below(n: u8, r: u8, v: u64, part: &[Event]) -> bool
    ensures { result ≡ all_below n (λ k. has_word r v k (history part.now)) }
{
    all_under(n, |k| {
        (v / 4096 == u64::from(r) && has_written(r, v % 4096, k, part)) || has_read(r, v, k, part)
    })
}

/// Whether `r` has the `n` rows from that of `v` on.
fn has_rows(n: u16, r: u8, v: u16, part: &[Event]) -> bool
    ensures { result ≡ all_below n (λ t. has_row r (v + t) (history part.now)) }
{
    all_up_to(
        n,
        |t| has_words_below(12, r, u64::from(v) + u64::from(t), part),
    )
}

/// Whether `r` has all rows of the entry `v`.
fn has_whole_entry(config: &Config, r: u8, v: u16, part: &[Event]) -> bool
    ensures { result ≡ has_entry config.now r v (history part.now) }
{
    !stands_for_batch(config, v)
        || has_rows(u16::from(row_rest(config, v % PAYLOADS)) + 1, r, v, part)
}

/// Whether `r` wrote all rows of the batch that begins with its row `j`.
pub fn has_written_batch(config: &Config, r: u8, j: u16, part: &[Event]) -> bool
    ensures { result ≡ wrote_batch config.now r j (history part.now) }
{
    let rows = u16::from(row_rest(config, j)) + 1;
    all_up_to(
        rows,
        |t| wrote_below(12, r, u64::from(j) + u64::from(t), part),
    )
}

/// How many of the first values `r` has after `v` was added.
#[tactic(auto, using(crate::proofs::Fronts::front_after))]
fn front_added(config: &Config, r: u8, part: &[Event], front: u64, count: u64, v: u16) -> u64
    requires { front < 2 ^ 32 }
    ensures is { (values : List ℕ) → length values ≡ count
        → length (fetched_prefix config.now r (history part.now) values) ≡ front
        → result ≡ length (fetched_prefix config.now r (history part.now) (values ++ v ∷ [])) }
    ensures few { result ≤ front + 1 }
{
    if front == count && has_whole_entry(config, r, v, part) {
        front + 1
    } else {
        front
    }
}

/// How many entries `r` applied.
pub fn applied_length(config: &Config, r: u8, part: &[Event]) -> u64
    requires short { length part.now < 2 ^ 32 }
    ensures { result ≡ length (applied config.now r (history part.now)) }
{
    let mut count: u64 = 0;
    let mut front: u64 = 0;
    for (i, e) in part.iter().enumerate() {
        if let Some(v) = learnt_value(config, r, &part[..i], count, e, &part[..i + 1]) {
            front = front_added(config, r, part, front, count, v);
            count += 1;
        }
    }
    front
}
