//! The next pause of a replica.
ghost use Rattle.std.specs.Prelude.{List, ℕ, ◌+◌, ◌∷◌, ◌≡◌};
ghost use Rattle.mu_model.specs.declared.script.Pause.{Pause as SomePause};
ghost use Rattle.mu_cluster.specs.Pauses.{IsNextBefore, IsNextPause, is_sooner};
ghost use Rattle.mu_outcome.specs.Turns.{rounds_paused};

use mu_model::Pause;

/// Whether the step is before this pause.
fn is_sooner(steps: u32, next: Option<Pause>) -> bool
    ensures { result ≡ is_sooner steps next }
{
    match next {
        Some(next) => steps < next.steps,
        None => true,
    }
}

/// The pause, if it comes before `next` and the replica hasn't passed it; else `next`.
fn sooner(next: Option<Pause>, pause: &Pause, replica: u8, taken: u32) -> Option<Pause>
    ensures { (pauses rest : List SomePause)
        → IsNextBefore pauses (pause.now ∷ rest) replica taken next
        → IsNextBefore pauses rest replica taken result }
{
    if pause.replica == replica && taken <= pause.steps && is_sooner(pause.steps, next) {
        Some(*pause)
    } else {
        next
    }
}

/// The first pause of a replica once it has taken so many steps. The pauses may come in any order.
pub(crate) fn next_pause(pauses: &[Pause], replica: u8, taken: u32) -> Option<Pause>
    ensures { IsNextPause pauses.now replica taken result }
{
    let mut next = None;
    for pause in pauses {
        next = sooner(next, pause, replica, taken);
    }
    next
}

/// Goes on to the next pause, one step later. The pauses are gone over only if the last one is past:
/// mostly it isn't, and stays as it is.
pub(crate) fn go_on(next: &mut Option<Pause>, pauses: &[Pause], replica: u8, taken: u32)
    ensures { (before : ℕ) → taken ≡ before + 1 → IsNextPause pauses.now replica before next.old
        → IsNextPause pauses.now replica taken next.new }
{
    match *next {
        Some(pause) if pause.steps < taken => *next = next_pause(pauses, replica, taken),
        _ => {}
    }
}

/// For how many rounds a replica is passed over once it has taken so many steps.
pub(crate) fn rounds_at(next: Option<Pause>, taken: u32) -> u32
    ensures { (pauses : List SomePause) → (r : ℕ) → IsNextPause pauses r taken next
        → result ≡ rounds_paused pauses r taken }
{
    match next {
        Some(pause) if pause.steps == taken => pause.rounds,
        _ => 0,
    }
}
