//! The words of shared memory: how fields are packed, where each word stands, what one step does to
//! one word and what a replica keeps of the words that it found.
//!
//! `mu_model` answers a step by the list of all events. Here the same answers come from one word,
//! and each step changes one word: `word_steps` says so of every legal list.
#![tactic(auto)]

ghost use Rattle.mu_words.specs.Growing.{FoundsStay, WordsStay};
ghost use Rattle.mu_words.specs.Places.{PlacesAreInside, PlacesDiffer};
ghost use Rattle.mu_words.specs.Stands.{FieldsAlwaysFit, FirstWords, OneListStands, StepsInTableForms, WordsAreUnique};
ghost use Rattle.mu_words.specs.Steps.{WordSteps};

mod found;
mod layout;
mod verbs;
mod words;

pub use found::Found;
pub use layout::{Layout, Name};
pub use verbs::Move;
pub use words::{FenceWord, MinWord, SlotWord};

/// Words of different names stand at different places of the list.
pub fn places_differ()
    ensures differ { PlacesDiffer }
    ensures inside { PlacesAreInside }
{}

/// Before any event fences have no owner, and every other word is 0.
pub fn first_words()
    ensures { FirstWords }
{}

/// What words hold has room in their fields, whatever legal list came before.
pub fn fields_fit()
    ensures { FieldsAlwaysFit }
{}

/// The law of word steps: a step that is allowed answers by the word that it finds as the list of
/// all events makes it, and leaves the word that stands for the longer list; no other word changes.
pub fn word_steps()
    ensures { WordSteps }
{}

/// At most one list of words stands for a list of events.
pub fn words_are_unique()
    ensures { WordsAreUnique }
{}

/// Exactly one list of words, one for each place, stands for a list of events.
pub fn one_list_stands()
    ensures { OneListStands }
{}

/// An exchange, a `Close` and a `Grant` are each one step of a table of words: an exchange by a
/// word made from the expected one, a fetch-or, and a swap by a word made from the replica's
/// events.
pub fn steps_in_table_forms()
    ensures { StepsInTableForms }
{}

/// Words that stand for a list do so when rows are added.
pub fn words_stay()
    ensures { WordsStay }
{}

/// What a replica keeps of them does so too.
pub fn founds_stay()
    ensures { FoundsStay }
{}
