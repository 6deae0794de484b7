//! The first words, and one step on them.
ghost use Rattle.std.specs.Prelude.{IfOk, [], length, slice_index, ◌<◌, ◌≡◌};
ghost use Rattle.mu_model.specs.Contents.{IsConfig};
ghost use Rattle.mu_words.specs.Places.{IsLayoutOf, IsName, word_count};
ghost use Rattle.mu_words.specs.Verbs.{VerbFits, WordFits, name_at};
ghost use Rattle.word_fabric.specs.Kept.{HoldsFirst, HoldsFounds, IsMade, place_at};

use mu_model::{Answer, Config, NoMemory, Verb};
use mu_words::{Found, Layout};
use std::alloc::Global;

/// The word of a fence without an owner.
const FREE: u64 = 14_336;

/// The words before any event: fences without owners, and 0. Takes memory once.
pub(crate) fn first_words(
    alloc: Global,
    config: &Config,
    layout: &Layout,
) -> Result<Vec<u64>, NoMemory>
    requires { IsLayoutOf config.now layout.now }
    ensures { IfOk result (λ words. HoldsFirst layout.now config.now.replicas words.items) }
{
    let mut words = vec![in alloc; 0; layout.words()]?;
    for p in 0..config.replicas {
        words[layout.fence_of(p)] = FREE;
    }
    Ok(words)
}

/// What each replica keeps before any event. Takes all memory that it ever needs.
pub(crate) fn first_founds(alloc: Global, config: &Config) -> Result<Vec<Found>, NoMemory>
    requires { IsConfig config.now }
    ensures count { IfOk result (λ founds. length founds.items ≡ config.now.replicas) }
    ensures each { IfOk result (λ founds. HoldsFounds config.now [] founds.items) }
{
    let mut founds = Vec::with_capacity(alloc, usize::from(config.replicas))?;
    for _ in 0..config.replicas {
        founds.push_reserved(Found::with_room(alloc, config)?);
    }
    Ok(founds)
}

/// Makes a step on its word: it answers by the word that it finds, and the replica notes it.
#[inline(always)]
#[tactic(auto, using(crate::proofs::FirstWords::place_inside))]
pub(crate) fn make_step(
    layout: &Layout,
    words: &mut [u64],
    found: &mut Found,
    by: u8,
    verb: &Verb,
) -> Answer
    requires ring { 0 < layout.now.ring }
    requires found_ring { 0 < found.old.ring }
    requires fields { VerbFits layout.now.ring verb.now }
    requires named { IsName layout.now
        (name_at layout.now.ring by found.old.close_target verb.now) }
    requires table { length words.old ≡ word_count layout.now }
    requires room { WordFits verb.now
        (slice_index words.old (place_at layout.now by found.old verb.now)) }
    ensures { IsMade layout.now by verb.now words.old found.old result words.new found.new }
{
    let place = layout.place_of(layout.name_of(by, found.close_target(), verb));
    let expected = found.expected_word(by, verb);
    let word = words[place];
    let answer = layout.answer_from(verb, expected, word);
    words[place] = layout.word_after(verb, expected, word);
    found.note(by, verb, &answer, word);
    answer
}
