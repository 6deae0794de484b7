//! Whether a replica found a place used again that it still had to read.
ghost use Rattle.std.specs.Prelude.{List, length, ◌∷◌, ◌≡◌};
ghost use Rattle.mu_model.specs.declared.config.Config.{Config};
ghost use Rattle.mu_model.specs.declared.event.Event.{Event};
ghost use Rattle.mu_model.specs.Ends.{outrun, outrun_by};
ghost use Rattle.mu_model.specs.Knowledge.{known as known_of};

use mu_model::{Answer, Event, Verb};

/// The region and the position that the event finds to be past, if `known` values were known before
/// it.
fn outrun_in(r: u8, known: usize, event: &Event) -> Option<(u8, u16)>
    ensures { result ≡ outrun_by r known event.now.by event.now.verb event.now.answer }
{
    match (event.verb, event.answer) {
        (Verb::Look(p, i), Answer::Past) => {
            if event.by == r && known <= usize::from(i) {
                Some((p, i))
            } else {
                None
            }
        }
        _ => None,
    }
}

/// The region and the position of the first look of `r` that found a place used again which it still
/// had to read, after the event. Before it `known` values were known, and `held` is that of the
/// events so far.
pub fn outrun_after(
    held: Option<(u8, u16)>,
    r: u8,
    known: usize,
    event: &Event,
) -> Option<(u8, u16)>
    ensures { (c : Config) → (mine : List Event) → known ≡ length (known_of c r mine)
        → held ≡ outrun c r mine → result ≡ outrun c r (event.now ∷ mine) }
{
    match held {
        Some(look) => Some(look),
        None => outrun_in(r, known, event),
    }
}
