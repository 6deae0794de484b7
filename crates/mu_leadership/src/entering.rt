//! What an entry or a put into a slot changes of what was done at its region.
ghost use Rattle.std.specs.Prelude.{List, Some, ℕ, ◌≡◌};
ghost use Rattle.mu_model.specs.declared.event.Event.{Event};
ghost use Rattle.mu_model.specs.declared.event.Target.{Target as SomeTarget};
ghost use Rattle.mu_model.specs.declared.event.Verb.{Verb};
ghost use Rattle.mu_model.specs.Entering.{enter_open};
ghost use Rattle.mu_model.specs.Leaderships.{ends_leadership};
ghost use Rattle.mu_leadership.specs.Bearing.{region_entered};
ghost use Rattle.mu_leadership.specs.Leadership.{NotesTake, TakesAt};

use crate::region_notes::RegionNotes;
use mu_model::{Answer, Target};

/// Whether an entry with this answer lost, which ends a leadership.
#[inline(always)]
pub(crate) fn is_lost(answer: &Answer) -> bool
    ensures { (r p : ℕ) → (target : SomeTarget) → (mine : List Event)
        → result ≡ ends_leadership r mine r (Verb.Enter p target) answer.now }
{
    matches!(answer, Answer::Lost(_))
}

/// Whether a put with this answer missed, which ends a leadership.
#[inline(always)]
pub(crate) fn is_missed(answer: &Answer) -> bool
    ensures { (r p i b v : ℕ) → (mine : List Event)
        → result ≡ ends_leadership r mine r (Verb.PutSlot p i b v) answer.now }
{
    matches!(answer, Answer::Missed)
}

/// The target that an entry with this one and this answer leaves its region entered with.
#[inline(always)]
pub(crate) fn target_named(target: Target, answer: &Answer) -> Target
    ensures { (r p : ℕ) → enter_open r p r (Verb.Enter p target) answer.now ≡ Some result }
{
    match answer {
        Answer::Entered => target,
        _ => Target::None,
    }
}

impl RegionNotes {
    /// Notes the target that the region is entered with now.
    #[inline(always)]
    fn enter(&mut self, target: Target)
        ensures { (r p : ℕ) → (e : Event) → (mine : List Event) → region_entered e.verb ≡ Some p
            → enter_open r p e.by e.verb e.answer ≡ Some target
            → TakesAt r p mine e self.old self.new }
    {
        self.entered = Some(target);
        self.opened = Some(target);
    }
}

/// Notes at `p` the target that it is entered with now.
#[inline(always)]
pub(crate) fn enter_at(notes: &mut [RegionNotes; 7], p: u8, target: Target)
    ensures { (r : ℕ) → (e : Event) → (mine : List Event) → region_entered e.verb ≡ Some p
        → enter_open r p e.by e.verb e.answer ≡ Some target
        → NotesTake r mine e notes.old notes.new }
{
    if p < 7 {
        notes[usize::from(p)].enter(target);
    }
}
