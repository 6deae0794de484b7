//! How the events of a replica change what it knows, has and did as a replayer.
ghost use Rattle.std.specs.Prelude.{List, None, Some, if◌then◌else◌, length, ℕ, ◌&&◌, ◌+◌, ◌<◌, ◌==◌, ◌∷◌, ◌≡◌};
ghost use Rattle.std.specs.List.{slice_get};
ghost use Rattle.mu_model.specs.declared.config.Config.{Config};
ghost use Rattle.mu_model.specs.declared.event.Answer.{Answer};
ghost use Rattle.mu_model.specs.declared.event.Event.{Event};
ghost use Rattle.mu_model.specs.declared.event.Verb.{Verb};
ghost use Rattle.mu_model.specs.Contents.{IsConfig};
ghost use Rattle.mu_model.specs.Knowledge.{applied, is_value, known};
ghost use Rattle.mu_model.specs.Parts.{IsPossible};
ghost use Rattle.mu_knowledge.specs.FilledLog.{filled_spot};
ghost use Rattle.mu_knowledge.specs.HeldRows.{StandsForHeldRows};
ghost use Rattle.mu_knowledge.specs.KnownLog.{StandsForKnownLog};
ghost use Rattle.mu_follow.specs.declared.kind.Kind.{Kind};
ghost use Rattle.mu_follow.specs.Completion.{HoldsCompletion};
ghost use Rattle.mu_follow.specs.Follow.{AwaitsEntry, HoldsFollow, KeepsPlan, LeavesEntry, StandsForFollow, Takes, TakesKind, TakesWhole, commit_of};
ghost use Rattle.mu_follow.specs.Kinds.{kind_of as kind_of_verb, put_spot};

use crate::completion::Completion;
use crate::follow::Follow;
use crate::kind::{Kind, kind_of};
use crate::outrunning::outrun_after;
use mu_knowledge::{Commit, HeldRows, KnownLog, fuo_in};
use mu_model::{Answer, Config, Event, Verb, push_within};

/// How many steps there were, after one more.
fn steps_after(steps: u32) -> u32
    ensures { steps < 131072 → result ≡ steps + 1 }
{
    steps.saturating_add(1)
}

/// The position, if it is filled.
fn spot_if(filled: bool, i: u16) -> Option<u16>
    ensures { result ≡ (if filled then Some i else None) }
{
    if filled { Some(i) } else { None }
}

/// Whether the position became known: the known values ended before it, and end with it.
fn is_learnt(before: usize, after: usize, i: u16) -> bool
    ensures { result ≡ ((before == i) && (after == i + 1)) }
{
    before == usize::from(i) && after == usize::from(i) + 1
}

/// The position of its own log that a look shows to be filled: the look taught its entry.
fn spot_of_look(r: u8, before: usize, after: usize, event: &Event) -> Option<u16>
    ensures { (c : Config) → (mine : List Event) → kind_of_verb event.now.verb ≡ Kind.Look
        → before ≡ length (known c r mine) → after ≡ length (known c r (event.now ∷ mine))
        → result
        ≡ filled_spot c r r mine event.now.by event.now.verb event.now.answer (event.now ∷ mine) }
{
    match (event.verb, event.answer) {
        (Verb::Look(q, i), Answer::Entry { .. }) => {
            let learnt = is_learnt(before, after, i);
            spot_if(event.by == r && q == r && learnt, i)
        }
        _ => None,
    }
}

/// Whether `v` is known at position `i`.
fn is_known(values: &[u16], i: u16, v: u16) -> bool
    ensures { result ≡ is_value (slice_get values.now i) v }
{
    match values.get(usize::from(i)) {
        None => false,
        Some(w) => *w == v,
    }
}

/// The position of its own log that a put of a value already known fills.
fn spot_of_put(r: u8, known: &[u16], event: &Event) -> Option<u16>
    ensures { result ≡ put_spot r known.now event.now.verb event.now.answer }
{
    match (event.verb, event.answer) {
        (Verb::PutSlot(q, i, _, v), Answer::Done) => spot_if(q == r && is_known(known, i, v), i),
        _ => None,
    }
}

/// The number that was answered, if one was.
#[inline(always)]
fn number_in(answer: &Answer) -> u64
    ensures { (x : ℕ) → answer.now ≡ Answer.Number x → result ≡ x }
{
    match *answer {
        Answer::Number(x) => x,
        _ => 0,
    }
}

/// Counts the entries that the replica has in full now.
#[inline(always)]
pub fn count_applied(
    completion: &mut Completion,
    config: &Config,
    knowing: &KnownLog,
    rows: &HeldRows,
)
    ensures { (r : ℕ) → (mine : List Event) → (event : Event) → IsConfig config.now
        → IsPossible config.now r (event ∷ mine)
        → StandsForKnownLog config.now r (event ∷ mine) knowing.now
        → StandsForHeldRows config.now r (event ∷ mine) rows.now
        → HoldsCompletion config.now (applied config.now r mine) completion.old
        → HoldsCompletion config.now (applied config.now r (event ∷ mine)) completion.new }
{
    completion.take(config, knowing.known(), rows.applied_count());
}

impl Follow {
    /// Takes the next event of the replica, of any kind: all that it changes, except the entry that
    /// a put made known, which `learn` is told next. Takes no memory.
    #[inline(always)]
    pub fn note(&mut self, event: &Event)
        requires config { IsConfig self.old.config }
        ensures stands { (mine : List Event)
            → IsPossible self.old.config event.now.by (event.now ∷ mine)
            → StandsForFollow self.old.config event.now.by mine self.old
            → commit_of self.old.config event.now.by mine event.now ≡ None
            → StandsForFollow self.old.config event.now.by (event.now ∷ mine) self.new }
        ensures awaits { (mine : List Event) → (entry : ℕ × ℕ)
            → IsPossible self.old.config event.now.by (event.now ∷ mine)
            → StandsForFollow self.old.config event.now.by mine self.old
            → commit_of self.old.config event.now.by mine event.now ≡ Some entry
            → AwaitsEntry self.old.config event.now.by mine self.new }
        ensures config { self.new.config ≡ self.old.config }
        ensures handed { self.new.progress.handed ≡ self.old.progress.handed }
    {
        self.steps = steps_after(self.steps);
        self.note_by_kind(event);
    }

    /// Takes the event in the states that its verb can change.
    #[inline(always)]
    fn note_by_kind(&mut self, event: &Event)
        requires config { IsConfig self.old.config }
        ensures stands { TakesWhole event.now self.old self.new }
        ensures awaits { LeavesEntry event.now self.old self.new }
        ensures keeps { KeepsPlan self.old self.new }
    {
        match kind_of(&event.verb) {
            Kind::Look => self.note_look(event),
            Kind::Put => self.note_put(event),
            Kind::Fuo => self.note_fuo(event),
            Kind::Row => self.note_row(event),
            Kind::Head => self.note_head(event),
            Kind::Other => {}
        }
    }

    /// Takes a look.
    #[inline(never)]
    fn note_look(&mut self, event: &Event)
        requires config { IsConfig self.old.config }
        ensures stands { TakesKind Kind.Look event.now self.old self.new }
        ensures keeps { KeepsPlan self.old self.new }
    {
        let r = event.by;
        let before = self.knowing.known().len();
        self.outrun = outrun_after(self.outrun, r, before, event);
        self.knowing.take(&self.config, r, false, event);
        let after = self.knowing.known().len();
        self.own_log
            .take(None, spot_of_look(r, before, after, event));
        self.rows.pass(&self.config, self.knowing.known());
        count_applied(
            &mut self.completion,
            &self.config,
            &self.knowing,
            &self.rows,
        );
    }

    /// Takes a put, except for the entry that it makes known.
    fn note_put(&mut self, event: &Event)
        ensures stands { kind_of_verb event.now.verb ≡ Kind.Put
            → TakesWhole event.now self.old self.new }
        ensures awaits { LeavesEntry event.now self.old self.new }
        ensures keeps { KeepsPlan self.old self.new }
    {
        match spot_of_put(event.by, self.knowing.known(), event) {
            Some(i) => self.own_log.take(None, Some(i)),
            None => {}
        }
    }

    /// Takes a read or a raise of a FUO.
    fn note_fuo(&mut self, event: &Event)
        requires config { IsConfig self.old.config }
        ensures stands { TakesKind Kind.Fuo event.now self.old self.new }
        ensures keeps { KeepsPlan self.old self.new }
    {
        let r = event.by;
        self.knowing.take(&self.config, r, false, event);
        self.own_log.take(fuo_in(r, r, event), None);
        self.progress.note(r, event);
    }

    /// Takes a word of a row, written or read.
    #[inline(always)]
    fn note_row(&mut self, event: &Event)
        requires config { IsConfig self.old.config }
        ensures stands { TakesKind Kind.Row event.now self.old self.new }
        ensures keeps { KeepsPlan self.old self.new }
    {
        match event.verb {
            Verb::WriteRow(row, word, x) => self.note_written(event.by, row, word, x),
            Verb::ReadRow(v, word) => self.note_read(v, word, number_in(&event.answer)),
            _ => {}
        }
    }

    /// Takes a word that `r` writes into a row of its own.
    #[inline(never)]
    fn note_written(&mut self, r: u8, row: u16, word: u8, x: u64)
        requires config { IsConfig self.old.config }
        ensures stands { (mine : List Event) → (n : ℕ) → (e : Event)
            → e.verb ≡ Verb.WriteRow row word x → Takes r mine n e self.old self.new }
        ensures keeps { KeepsPlan self.old self.new }
    {
        self.words.note_written(row, word, x);
        self.rows
            .note_written(&self.config, r, self.knowing.known(), row, word);
        count_applied(
            &mut self.completion,
            &self.config,
            &self.knowing,
            &self.rows,
        );
    }

    /// Takes a word of the row of `v` that is read as `x`.
    #[inline(never)]
    fn note_read(&mut self, v: u16, word: u8, x: u64)
        requires config { IsConfig self.old.config }
        ensures stands { (r : ℕ) → (mine : List Event) → (n : ℕ) → (e : Event)
            → e.verb ≡ Verb.ReadRow v word → e.answer ≡ Answer.Number x
            → Takes r mine n e self.old self.new }
        ensures keeps { KeepsPlan self.old self.new }
    {
        self.words.note_read(v, word, x);
        self.rows
            .note_read(&self.config, self.knowing.known(), v, word);
        self.progress.note_read(v, word);
        count_applied(
            &mut self.completion,
            &self.config,
            &self.knowing,
            &self.rows,
        );
    }

    /// Takes a read or a raise of a head.
    fn note_head(&mut self, event: &Event)
        ensures stands { (mine : List Event) → (n : ℕ) → kind_of_verb event.now.verb ≡ Kind.Head
            → HoldsFollow self.old.config event.now.by mine n self.old
            → HoldsFollow self.old.config event.now.by (event.now ∷ mine) n self.new }
        ensures keeps { KeepsPlan self.old self.new }
    {
        self.heads.note(event.by, event);
    }

    /// Takes the entry that the put noted last made known, at the first position that wasn't known.
    /// Takes no memory.
    pub fn learn(&mut self, position: u16, value: u16)
        requires config { IsConfig self.old.config }
        ensures stands { (r : ℕ) → (mine : List Event) → (event : Event)
            → IsPossible self.old.config r (event ∷ mine)
            → commit_of self.old.config r mine event ≡ Some (position, value)
            → AwaitsEntry self.old.config r mine self.old
            → StandsForFollow self.old.config r (event ∷ mine) self.new }
        ensures config { self.new.config ≡ self.old.config }
        ensures handed { self.new.progress.handed ≡ self.old.progress.handed }
    {
        self.knowing.learn(&self.config, Some(value));
        self.own_log.take(None, Some(position));
        self.rows.pass(&self.config, self.knowing.known());
        count_applied(
            &mut self.completion,
            &self.config,
            &self.knowing,
            &self.rows,
        );
        push_within(&mut self.commits, Commit { position, value });
    }
}
