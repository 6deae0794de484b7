//! The score by which a replica holds another to be failed.
ghost use Rattle.std.specs.Prelude.{◌≡◌};
ghost use Rattle.mu_model.specs.Scores.{next_score};

/// The score of a replica and whether it is alive, after one more read of its count of beats:
/// `changed` says whether the count differs from the one read before. Scores go from 0 to 15. Below
/// 2 the replica is failed, above 6 it is alive, and otherwise it stays what it was.
pub fn score_after(score: u8, alive: bool, changed: bool) -> (u8, bool)
    ensures { result ≡ next_score score alive changed }
{
    let points = if changed {
        if score < 15 { score + 1 } else { 15 }
    } else {
        score.saturating_sub(1)
    };
    if points < 2 {
        (points, false)
    } else if 6 < points {
        (points, true)
    } else {
        (points, alive)
    }
}
