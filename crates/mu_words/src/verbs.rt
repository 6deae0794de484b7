//! What is said of each verb: on which word its step is made, what the step does to that word, and
//! the answer that is read off it.
ghost use Rattle.std.specs.Prelude.{◌<◌, ◌≡◌};
ghost use Rattle.mu_words.specs.Verbs.{HasRoom, IsMove, VerbFits, WordFits, answer_from, granted, made_of, name_at, slot_answer, word_after};

use crate::layout::{Layout, Name};
use crate::words::{
    CLOSING, FenceWord, GRANT, LAP, MinWord, OWNER, PROPOSAL, STAMP, SlotWord, target_code,
};
use mu_model::{Answer, Target, Verb};

/// What a step does to its word.
#[derive(Clone, Copy)]
pub enum Move {
    /// Loads it.
    Load,
    /// Stores this one.
    Store(u64),
    /// Raises it to this number, unless it is greater.
    Raise(u64),
    /// Adds 1 to it.
    Add,
    /// Sets these bits of it.
    SetBits(u64),
    /// Puts the second in its place, if it still is the first. It is tried once.
    Exchange(u64, u64),
    /// Puts this one in its place.
    Swap(u64),
}

impl Move {
    /// The word that the move makes of this one.
    #[inline(always)]
    fn made_of(self, word: u64) -> u64
        requires { HasRoom self word }
        ensures { result ≡ made_of self word }
    {
        match self {
            Move::Load => word,
            Move::Store(new) => new,
            Move::Raise(least) => least.max(word),
            Move::Add => word + 1,
            Move::SetBits(bits) => word | bits,
            Move::Exchange(old, new) => { if old == word { new } else { word } }
            Move::Swap(new) => new,
        }
    }
}

/// Runs the code with the verb under this name, in an arm for each verb, the commonest first: so
/// the compiler settles all that the verb alone decides. Looking at the verb again and again took a
/// fifth of a replay.
#[macro_export]
macro_rules! with_each_verb {
    ($verb:expr, $name:ident => $code:expr) => {
        $crate::with_each_verb!(
            $verb, $name => $code;
            Beat, ReadRow(value, word), WriteRow(row, word, content), ReadAsk(w), ReadBeat(q),
            Look(p, position), Head(q), Fuo(p), RaiseFuo(p, fuo), RaiseHead(head), Enter(p, target),
            PutSlot(p, position, number, value), Ask(p), Fence(p), Min(p), PutMin(p, number), Close,
            LookTarget, Drain, Grant(owner)
        )
    };
    ($verb:expr, $name:ident => $code:expr; $($each:ident $(($($part:ident),+))?),+) => {
        match $verb {
            $(Verb::$each $(($($part),+))? => {
                let $name = Verb::$each $(($($part),+))?;
                $code
            })+
        }
    };
}

/// The fence word that a `Grant` to the replica leaves, made from the grant that the closed fence
/// had.
fn granted(grant: u32, owner: u8) -> u64
    ensures { result ≡ granted grant owner }
{
    (u64::from(grant) + 1) * GRANT + u64::from(owner) * OWNER
}

impl Layout {
    /// The word on which the replica `id` makes the step, if its last `Close` found the target.
    #[inline(always)]
    pub fn name_of(&self, id: u8, target: Target, verb: &Verb) -> Name
        requires { 0 < self.now.ring }
        ensures { result ≡ name_at self.now.ring id target verb.now }
    {
        match *verb {
            Verb::Ask(p) => Name::Ask(p, id),
            Verb::Fence(p) | Verb::Enter(p, _) => Name::Fence(p),
            Verb::Min(p) | Verb::PutMin(p, _) => Name::Min(p),
            Verb::Look(p, position) | Verb::PutSlot(p, position, _, _) => Name::Slot(
                p,
                position % self.ring,
            ),
            Verb::Fuo(p) | Verb::RaiseFuo(p, _) => Name::Fuo(p),
            Verb::Head(q) => Name::Head(q),
            Verb::ReadBeat(q) => Name::Beat(q),
            Verb::WriteRow(row, word, _) => Name::Row(id, row, word),
            Verb::ReadRow(value, word) => Name::Row((value / 4_096) as u8, value % 4_096, word),
            Verb::RaiseHead(_) => Name::Head(id),
            Verb::Beat => Name::Beat(id),
            Verb::ReadAsk(w) => Name::Ask(id, w),
            Verb::Close | Verb::Grant(_) => Name::Fence(id),
            Verb::LookTarget | Verb::Drain => match target {
                Target::Place(place) => Name::Slot(id, place),
                _ => Name::Min(id),
            },
        }
    }

    /// What the step of the verb does to its word, if the last `Close` found this grant and an
    /// exchange expects this word.
    #[inline(always)]
    pub fn move_of(&self, grant: u32, verb: &Verb, expected: u64) -> Move
        requires ring { 0 < self.now.ring }
        requires fields { VerbFits self.now.ring verb.now }
        ensures { IsMove self.now.ring grant verb.now expected result }
    {
        match *verb {
            Verb::Ask(_) | Verb::Beat => Move::Add,
            Verb::RaiseFuo(_, fuo) => Move::Raise(u64::from(fuo)),
            Verb::RaiseHead(head) => Move::Raise(u64::from(head)),
            Verb::WriteRow(_, _, content) => Move::Store(content),
            Verb::Close => Move::SetBits(CLOSING),
            Verb::Grant(owner) => Move::Swap(granted(grant, owner)),
            Verb::Enter(_, target) => {
                Move::Exchange(expected, expected / OWNER * OWNER + target_code(target))
            }
            Verb::PutMin(_, number) => {
                Move::Exchange(expected, expected / STAMP * STAMP + u64::from(number))
            }
            Verb::PutSlot(_, position, number, value) => {
                let fields = u64::from(position / self.ring) * LAP
                    + u64::from(number) * PROPOSAL
                    + u64::from(value);
                Move::Exchange(expected, expected / STAMP * STAMP + fields)
            }
            Verb::Drain => Move::Exchange(expected, expected.wrapping_add(STAMP)),
            _ => Move::Load,
        }
    }

    /// What a slot word shows of a position.
    fn slot_answer(&self, position: u16, word: u64) -> Answer
        requires { 0 < self.now.ring }
        ensures { result ≡ slot_answer self.now.ring position word }
    {
        let slot = SlotWord::unpack(word);
        let lap = position / self.ring;
        if lap < slot.lap {
            Answer::Past
        } else if slot.lap == lap && 0 < slot.proposal {
            Answer::Entry {
                number: slot.proposal,
                value: slot.payload,
            }
        } else {
            Answer::Empty
        }
    }

    /// The answer that is read off the word that the step finds. An exchange takes exactly if it
    /// finds the word that it expects; `expected` is 0 for a step that is no exchange.
    #[inline(always)]
    pub fn answer_from(&self, verb: &Verb, expected: u64, word: u64) -> Answer
        requires { 0 < self.now.ring }
        ensures { result ≡ answer_from self.now.ring verb.now expected word }
    {
        match *verb {
            Verb::Fence(_) | Verb::Close => Answer::Seen(FenceWord::fence_in(word)),
            Verb::Min(_) => Answer::Number(u64::from(MinWord::unpack(word).proposal)),
            Verb::Enter(_, _) => {
                if expected == word {
                    Answer::Entered
                } else {
                    Answer::Lost(FenceWord::fence_in(word))
                }
            }
            Verb::PutMin(_, _) | Verb::PutSlot(_, _, _, _) => {
                if expected == word {
                    Answer::Done
                } else {
                    Answer::Missed
                }
            }
            Verb::Look(_, position) => self.slot_answer(position, word),
            Verb::Fuo(_)
            | Verb::Head(_)
            | Verb::ReadBeat(_)
            | Verb::ReadRow(_, _)
            | Verb::ReadAsk(_) => Answer::Number(word),
            _ => Answer::Done,
        }
    }

    /// The word that the step leaves. An exchange that finds another word than it expects leaves
    /// it.
    #[inline(always)]
    pub fn word_after(&self, verb: &Verb, expected: u64, word: u64) -> u64
        requires ring { 0 < self.now.ring }
        requires fields { VerbFits self.now.ring verb.now }
        requires room { WordFits verb.now word }
        ensures { result ≡ word_after self.now.ring verb.now expected word }
    {
        let step = self.move_of(FenceWord::unpack(word).grant, verb, expected);
        step.made_of(word)
    }
}
