//! What the steps of all kinds share: on which word a step is made, and how it is noted.
ghost use Rattle.std.specs.Prelude.{◌<◌, ◌≡◌};
ghost use Rattle.mu_words.specs.Founds.{Notes};
ghost use Rattle.mu_words.specs.Places.{IsName, place_of};
ghost use Rattle.mu_words.specs.Verbs.{answer_from, name_at};

use mu_model::{Answer, Verb};
use mu_words::{Found, Layout};

/// The place of the word on which the replica makes a step.
#[inline(always)]
pub(crate) fn word_place(layout: &Layout, found: &Found, id: u8, verb: &Verb) -> usize
    requires ring { 0 < layout.now.ring }
    requires named { IsName layout.now
        (name_at layout.now.ring id found.now.close_target verb.now) }
    ensures { result
        ≡ place_of layout.now (name_at layout.now.ring id found.now.close_target verb.now) }
{
    layout.place_of(layout.name_of(id, found.close_target(), verb))
}

/// What a step has found, and what its exchange expected: 0 if it is no exchange.
#[derive(Clone, Copy)]
pub(crate) struct Sight {
    pub(crate) expected: u64,
    pub(crate) word: u64,
}

/// The answer of a step. Keeps the word that it found. Takes no memory.
#[inline(always)]
pub(crate) fn note(layout: &Layout, found: &mut Found, by: u8, verb: Verb, sight: Sight) -> Answer
    requires ring { 0 < layout.now.ring }
    requires kept { 0 < found.old.ring }
    ensures answer { result ≡ answer_from layout.now.ring verb sight.expected sight.word }
    ensures found { Notes by verb result sight.word found.old found.new }
{
    let answer = layout.answer_from(&verb, sight.expected, sight.word);
    found.note(by, &verb, &answer, sight.word);
    answer
}
