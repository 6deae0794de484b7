//! The mark of a step.
ghost use Rattle.std.specs.Prelude.{◌≡◌};
ghost use Rattle.mu_picture.specs.Marks.{is_chief as is_chief_deed, is_kept as is_kept_mark, kept as kept_mark, made_of as made_of_parts};

use crate::deeds::Deed;
use crate::standings::Resumed;
use mu_course::Halt;
use mu_model::Event;

/// A drawn event: what a step does, and what befalls its replica before and after it. At least one
/// of the three is there.
#[derive(Clone, Copy)]
pub struct Mark {
    /// The index of the step in the list of events, counted from 0: its row.
    pub step: u32,
    /// The event: the replica that made it has its lane.
    pub event: Event,
    /// What holds before it, if the replica goes on after a pause or an end.
    pub resumed: Option<Resumed>,
    /// What it does, if that is drawn.
    pub deed: Option<Deed>,
    /// What befalls the replica after it, if anything does.
    pub halt: Option<Halt>,
}

/// The mark of these parts, if one of the three is there.
pub fn mark_of(
    step: u32,
    event: &Event,
    resumed: Option<Resumed>,
    deed: Option<Deed>,
    halt: Option<Halt>,
) -> Option<Mark>
    ensures { result ≡ made_of_parts step event.now resumed deed halt }
{
    match (resumed, deed, halt) {
        (None, None, None) => None,
        _ => Some(Mark {
            step,
            event: *event,
            resumed,
            deed,
            halt,
        }),
    }
}

/// Whether what a step does is drawn in brief.
fn is_chief(deed: Option<Deed>) -> bool
    ensures { result ≡ is_chief_deed deed }
{
    match deed {
        Some(Deed::PutMin(_, _, landed)) => !landed,
        Some(Deed::Put(_, _, landed)) => !landed,
        Some(Deed::Ask(_)) => true,
        Some(Deed::Grant(_, _)) => true,
        Some(Deed::Commit(_, _, _)) => true,
        Some(Deed::Barred(_)) => true,
        Some(Deed::Deposed(_)) => true,
        Some(Deed::Outbid(_)) => true,
        Some(Deed::Resign(_)) => true,
        Some(Deed::Outrun(_, _)) => true,
        Some(Deed::Fails(q, named)) => q < named,
        Some(Deed::Trusts(q, named)) => q == named,
        _ => false,
    }
}

/// Whether the mark is kept, in brief or not.
fn is_kept(brief: bool, mark: &Mark) -> bool
    ensures { result ≡ is_kept_mark brief mark.now }
{
    !brief || mark.resumed.is_some() || is_chief(mark.deed) || mark.halt.is_some()
}

/// A mark, if it is kept.
pub fn kept_mark(brief: bool, mark: Option<Mark>) -> Option<Mark>
    ensures { result ≡ kept_mark brief mark }
{
    match mark {
        None => None,
        Some(mark) => {
            if is_kept(brief, &mark) {
                Some(mark)
            } else {
                None
            }
        }
    }
}
