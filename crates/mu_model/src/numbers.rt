//! Majorities and proposal numbers.
ghost use Rattle.std.specs.Prelude.{ℕ, ◌%◌, ◌<◌, ◌≡◌, ◌≤◌};
ghost use Rattle.mu_model.specs.Leaderships.{majority_of};

/// More than half of `n`.
pub fn majority(n: u8) -> u8
    ensures { result ≡ majority_of n }
{
    n / 2 + 1
}

/// The least proposal number of the replica `id` above `above`: a number is a round, counted from
/// 1, times 8, and the id.
pub fn next_number(id: u8, above: u32) -> u32
    requires small { id < 7 }
    requires room { above < 8000000 }
    ensures own { result % 8 ≡ id }
    ensures first { 8 ≤ result }
    ensures above { above < result }
    ensures least { (n : ℕ) → n % 8 ≡ id → 8 ≤ n → above < n → result ≤ n }
{
    let round = above / 8;
    let same = round * 8 + u32::from(id);
    if round > 0 && above < same {
        same
    } else {
        same + 8
    }
}
