//! What a number and an input ask for.
ghost use Rattle.std.specs.Prelude.{◌≡◌};
ghost use Rattle.mu_library.specs.Calls.{asked_after as asked_after_these, asked_as, asked_at, HasRoom};

use mu_input::MOST_COMMANDS;
use mu_text::number_within;
use mu_top::{Alone, MOST_SHOWN};

/// What is to be done.
#[derive(Clone, Copy, Debug)]
pub(crate) enum Work {
    /// Nothing that is known: the usage is told.
    Nothing,
    /// Something with an input.
    Input(Alone),
    /// The stated large job with this many commands.
    Bulk(u16),
}

/// What the number asks for. The input of the stated large job is how many commands it has.
pub(crate) fn asked_of(task: u32, input: &[u8]) -> Work
    ensures exact { asked_as result ≡ asked_at task input.now }
    ensures reach { HasRoom result }
{
    match task {
        1 => Work::Input(Alone::Replay),
        2 => Work::Input(Alone::Trace),
        3 => Work::Input(Alone::Check),
        4 => Work::Input(Alone::Why),
        5 => Work::Input(Alone::Book),
        6 => match number_within(input, 0, MOST_COMMANDS as u32) {
            Some(count) => Work::Bulk(count as u16),
            None => Work::Nothing,
        },
        7 => Work::Input(Alone::Tell),
        8 => Work::Input(Alone::Attest),
        _ => Work::Nothing,
    }
}

/// What is asked by the number of events after which a moment is to be shown.
pub(crate) fn asked_after(count: u32) -> Work
    ensures exact { asked_as result ≡ asked_after_these count }
    ensures reach { HasRoom result }
{
    if count <= MOST_SHOWN {
        Work::Input(Alone::Show(count))
    } else {
        Work::Nothing
    }
}
