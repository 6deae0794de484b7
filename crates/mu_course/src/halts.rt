//! What befalls a replica after a step.
ghost use Rattle.std.specs.Prelude.{◌≡◌};
ghost use Rattle.mu_course.specs.Halts.{halt_after as halt_after_steps, pause_at as pause_at_steps};
ghost use Rattle.mu_model.specs.Ends.{stops_at as stops_at_steps};

use mu_model::{Config, Pause, Script, Stop};

/// What befalls a replica after a step.
#[derive(Clone, Copy, Debug, PartialEq, Eq)]
pub enum Halt {
    /// The script stops it.
    Stop,
    /// Its budget is spent.
    Spent,
    /// It has finished: all commands are applied, by it and by each other one that isn't failed.
    Finish,
    /// The script passes it over for this many rounds.
    Pause(u32),
}

/// Whether the script stops the replica after this many steps.
pub(crate) fn stops_at(stops: &[Stop], replica: u8, steps: u32) -> bool
    ensures { result ≡ stops_at_steps replica steps stops.now }
{
    for stop in stops {
        if stop.replica == replica && stop.steps == steps {
            return true;
        }
    }
    false
}

/// For how many rounds the script passes the replica over after this many steps, if it does.
fn pause_at(pauses: &[Pause], replica: u8, steps: u32) -> Option<Halt>
    ensures { result ≡ pause_at_steps replica steps pauses.now }
{
    for pause in pauses {
        if pause.replica == replica && pause.steps == steps {
            return Some(Halt::Pause(pause.rounds));
        }
    }
    None
}

/// What befalls a replica after this many steps; `finishes` says whether it finishes by the last of
/// them.
pub fn halt_after(
    config: &Config,
    script: &Script,
    replica: u8,
    steps: u32,
    finishes: bool,
) -> Option<Halt>
    ensures { result ≡ halt_after_steps config.now script.now replica steps finishes }
{
    if stops_at(script.stops.as_slice(), replica, steps) {
        Some(Halt::Stop)
    } else if steps == config.budget {
        Some(Halt::Spent)
    } else if finishes {
        Some(Halt::Finish)
    } else {
        pause_at(script.pauses.as_slice(), replica, steps)
    }
}
