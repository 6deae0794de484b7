//! Whether all commands are known, and what a replica offers next.
ghost use Rattle.std.specs.Prelude.{List, None, is_some, ℕ, ◌*◌, ◌+◌, ◌<◌, ◌≡◌, ◌≤◌, length};
ghost use Rattle.mu_model.specs.Contents.{IsConfig, IsInSession, client_of, holds_all};
ghost use Rattle.mu_knowledge.specs.KnownLog.{HoldsValues};
ghost use Rattle.mu_knowledge.specs.Offers.{IsNextRow, NamesRow, batch_of, first_in};
ghost use Rattle.mu_lead.specs.Listing.{batch_of_named, own_offer};

use mu_knowledge::KnownLog;
use mu_model::{Config, count_of_rows};

/// Whether all commands are known, by how many they are: no row is among theirs twice.
#[tactic(auto, using(crate::proofs::Held::all_held))]
pub(crate) fn knows_all(config: &Config, log: &KnownLog) -> bool
    ensures { (values : List ℕ) → HoldsValues config.now values log.now → IsConfig config.now
        → IsInSession config.now values → result ≡ holds_all config.now values }
{
    log.rows() == count_of_rows(config)
}

/// The replica's own payload number of row `j`.
pub(crate) fn own_value(id: u8, j: u16) -> u16
    ensures { id < 8 → j < 4096 → result ≡ id * 4096 + j }
{
    u16::from(id % 8) * 4096 + j % 4096
}

/// The row of the next batch of the first of these clients that has one.
fn next_of(config: &Config, from: u16, to: u16, log: &KnownLog) -> Option<u16>
    ensures named { (values : List ℕ) → IsConfig config.now → to ≤ 256
        → HoldsValues config.now values log.now
        → NamesRow result (λ j. IsNextRow config.now values j) }
    ensures none { result ≡ None → (values : List ℕ) → IsConfig config.now → to ≤ 256
        → HoldsValues config.now values log.now
        → (j : ℕ) → from ≤ client_of config.now j → client_of config.now j < to
        → IsNextRow config.now values j → ⊥ }
    ensures listed { (values : List ℕ) → IsConfig config.now → to ≤ 256
        → HoldsValues config.now values log.now
        → result
        ≡ batch_of_named config.now values
        (first_in (λ w. is_some (batch_of config.now values w)) from to) }
{
    for client in from..to {
        if let Some(j) = log.next_batch(config, client) {
            return Some(j);
        }
    }
    None
}

/// The row of the batch that the replica `id` offers next: that of the first client with one,
/// counted upwards and round from a client that changes with the position.
pub(crate) fn next_offer(config: &Config, id: u8, known: &[u16], log: &KnownLog) -> Option<u16>
    ensures named { IsConfig config.now → HoldsValues config.now known.now log.now
        → NamesRow result (λ j. IsNextRow config.now known.now j) }
    ensures none { result ≡ None → IsConfig config.now → HoldsValues config.now known.now log.now
        → (j : ℕ) → IsNextRow config.now known.now j → ⊥ }
    ensures listed { length known.now < 65536 → IsConfig config.now
        → HoldsValues config.now known.now log.now
        → result ≡ own_offer config.now id known.now (length known.now) }
{
    let clients = log.clients();
    if clients == 0 {
        return None;
    }
    let first = ((usize::from(id) + known.len().min(65_535)) % usize::from(clients)) as u16;
    match next_of(config, first, clients, log) {
        Some(j) => Some(j),
        None => next_of(config, 0, first, log),
    }
}
