//! What a step does that is drawn.
ghost use Rattle.std.specs.Prelude.{◌≡◌, List};
ghost use Rattle.mu_model.specs.declared.config.Config.{Config};
ghost use Rattle.mu_model.specs.declared.event.Event.{Event as Made};
ghost use Rattle.std.specs.Prelude.{ℕ};
ghost use Rattle.mu_model.specs.declared.event.Verb.TheVariants.{ReadBeat};
ghost use Rattle.mu_course.specs.Resigning.{resigns as resigns_by};
ghost use Rattle.mu_course.specs.Telling.{Tells};
ghost use Rattle.mu_model.specs.Scores.{leader};
ghost use Rattle.mu_picture.specs.Deeds.{deed_of as deed_of_step, heard_deed as heard_deed_of, is_done as is_done_answer, look_deed as look_deed_of};
ghost use Rattle.mu_picture.specs.Hearing.{Hears};

use mu_course::Told;
use mu_model::{Answer, Event, Verb};

/// What a step does that is drawn. Regions and replicas are ids from 0, positions count from 0.
#[derive(Clone, Copy)]
pub enum Deed {
    /// Asks a region for permission to write; a leadership begins with the ask of region 0.
    Ask(u8),
    /// Closes the own region.
    Close,
    /// Drains the word that the owner of the own region named.
    Drain,
    /// Grants the own region to a replica; so often it was granted before.
    Grant(u8, u32),
    /// Puts into the minimum of a region a proposal number, and whether that landed.
    PutMin(u8, u32, bool),
    /// Puts an entry into the log of a region, at a position, and whether that landed.
    Put(u8, u16, bool),
    /// Puts an entry into the log of a region, at a position, which commits a payload number.
    Commit(u8, u16, u16),
    /// Learns, by a look at a region, that a position holds a payload number.
    Learn(u8, u16, u16),
    /// Raises the own head.
    Head(u16),
    /// Is not let into a region, which ends its leadership.
    Barred(u8),
    /// Sees another fence at a region, which ends its leadership.
    Deposed(u8),
    /// Reads at a region a minimum above its number, which ends its leadership.
    Outbid(u8),
    /// Gives up its leadership for a replica that its scores name.
    Resign(u8),
    /// Holds a replica to be failed from now on, and names one.
    Fails(u8, u8),
    /// Holds a replica to be alive again, and names one.
    Trusts(u8, u8),
    /// Finds at a region the place of a position that it doesn't know used again.
    Outrun(u8, u16),
}

/// Whether the step was made.
fn is_done(answer: &Answer) -> bool
    ensures { result ≡ is_done_answer answer.now }
{
    matches!(answer, Answer::Done)
}

/// What a look does that is drawn, by whether it teaches a value.
fn look_deed(p: u8, i: u16, known: usize, answer: &Answer, taught: Option<u16>) -> Option<Deed>
    ensures { result ≡ look_deed_of p i known answer.now taught }
{
    match (taught, answer) {
        (Some(v), _) => Some(Deed::Learn(p, i, v)),
        (None, Answer::Past) => {
            if known <= usize::from(i) {
                Some(Deed::Outrun(p, i))
            } else {
                None
            }
        }
        (None, _) => None,
    }
}

/// What a read of beats changes for the reader: whether it held the other to be failed before, and
/// after; and whom it names after.
#[derive(Clone, Copy)]
pub struct Heard {
    pub was: bool,
    pub now: bool,
    pub named: u8,
}

/// What a read of the beats of `q` does that is drawn.
fn heard_deed(q: u8, heard: Heard) -> Option<Deed>
    ensures { result ≡ heard_deed_of q heard.was heard.now heard.named }
{
    match (heard.was, heard.now) {
        (false, true) => Some(Deed::Fails(q, heard.named)),
        (true, false) => Some(Deed::Trusts(q, heard.named)),
        _ => None,
    }
}

/// What the event does that is drawn. Its replica gives up its leadership by it or doesn't, and
/// named a replica before; so often its region was granted before.
pub fn deed_of(
    event: &Event,
    told: &Told,
    resigns: bool,
    named: u8,
    heard: Heard,
    granted: u32,
) -> Option<Deed>
    ensures { (c : Config) → (mine : List Made) → Tells c mine event.now told.now
        → resigns ≡ resigns_by c event.now.by mine event.now → named ≡ leader c event.now.by mine
        → ((q : ℕ) → event.now.verb ≡ ReadBeat q → Hears c mine q event.now heard)
        → result ≡ deed_of_step c mine granted event.now }
{
    match event.verb {
        Verb::Ask(p) => Some(Deed::Ask(p)),
        Verb::Close => Some(Deed::Close),
        Verb::Drain => Some(Deed::Drain),
        Verb::Grant(w) => Some(Deed::Grant(w, granted)),
        Verb::PutMin(p, b) => Some(Deed::PutMin(p, b, is_done(&event.answer))),
        Verb::PutSlot(p, i, _, _) => match told.taught {
            Some(v) => Some(Deed::Commit(p, i, v)),
            None => Some(Deed::Put(p, i, is_done(&event.answer))),
        },
        Verb::Look(p, i) => look_deed(p, i, told.known, &event.answer, told.taught),
        Verb::RaiseHead(h) => Some(Deed::Head(h)),
        Verb::Enter(p, _) if told.ends => Some(Deed::Barred(p)),
        Verb::Fence(p) if told.ends => Some(Deed::Deposed(p)),
        Verb::Min(p) if told.ends => Some(Deed::Outbid(p)),
        Verb::Beat if resigns => Some(Deed::Resign(named)),
        Verb::ReadBeat(q) => heard_deed(q, heard),
        _ => None,
    }
}
