//! The picture of some steps of a run.
ghost use Rattle.std.specs.Prelude.{◌≡◌, ◌+◌, ◌-◌, ◌<◌, ◌≤◌, ◌^◌, ℕ, true, is_some, IfOk, length};
ghost use Rattle.mu_model.specs.Contents.{IsConfig};
ghost use Rattle.mu_outcome.specs.Breaks.{Explains};
ghost use Rattle.mu_picture.specs.Marks.{hidden_from, legal_front, lowest, IsPictureOf};
ghost use Rattle.mu_picture.specs.Rows.{AddsStep, AsksAlike, HoldsRows, HoldsSteps, IsFresh};
ghost use Rattle.mu_picture.specs.Trails.{HasPassed};

use crate::layout::{Cursor, top_of};
use crate::marks::{Mark, kept_mark};
use crate::openings::{Opening, openings_at};
use crate::trail::{Trail, reached};
use mu_model::{Config, Event, NoMemory, Script};
use mu_outcome::Broken;
use std::alloc::Global;

/// A picture of some steps of a run.
#[derive(Drop)]
pub struct Picture {
    /// Whether it is in brief.
    pub brief: bool,
    /// The first step.
    pub first: u32,
    /// The step after the last one.
    pub end: u32,
    /// The step after the last one that is asked for: above `end` if there are too many rows.
    pub asked: u32,
    /// What holds in each lane before the first step.
    pub openings: Vec<Opening>,
    /// The marks, in the order of their steps.
    pub marks: Vec<Mark>,
}

/// Which steps of a run are asked for, and how.
#[derive(Clone, Copy, PartialEq, Eq)]
pub struct Extent {
    /// The first step, counted from 0.
    pub first: u32,
    /// The last step.
    pub last: u32,
    /// Whether they are drawn in brief: only asks, grants, commits, whom each names, and ends.
    pub brief: bool,
}

/// The marks of a picture under construction.
#[derive(Drop)]
struct Rows {
    /// Whether the picture is in brief.
    brief: bool,
    /// The first step.
    first: u32,
    /// The step after the last one that is asked for.
    asked: u32,
    /// The step after the last one that is there.
    end: u32,
    /// The marks so far.
    marks: Vec<Mark>,
    /// Where the next row goes.
    cursor: Cursor,
}

impl Rows {
    /// None yet.
    fn new(alloc: Global, brief: bool, first: u32, asked: u32) -> Rows
        ensures { IsFresh brief first asked result }
    {
        Rows {
            brief,
            first,
            asked,
            end: first,
            marks: Vec::new(alloc),
            cursor: top_of(u64::from(first)),
        }
    }

    /// Adds the step `index` with its mark, if it has one and the step is asked for, unless there is
    /// no room for that: then the steps end before it.
    fn push(&mut self, index: u32, mark: Option<Mark>) -> Result<(), NoMemory>
        requires few { self.old.cursor.rows < 2 ^ 40 }
        requires low { index + 1 < 2 ^ 32 }
        ensures rows { (n : ℕ) → HoldsRows n self.old
            → IfOk result (λ done. HoldsRows (n + 1) self.new) }
        ensures asked { AsksAlike self.old self.new }
        ensures adds { IfOk result (λ done. AddsStep index mark self.old self.new) }
    {
        if self.end != index || self.asked <= index {
            return Ok(());
        }
        match mark {
            None => {
                self.end = index + 1;
                Ok(())
            }
            Some(_) if self.cursor.is_full() => Ok(()),
            Some(mark) => {
                self.marks.push(mark)?;
                self.cursor = self.cursor.after(mark.step);
                self.end = index + 1;
                Ok(())
            }
        }
    }

    /// Judges the events from the first step on, and adds those that are asked for and have room.
    /// The answer is the event that breaks the list, if one does: this one, if it did before.
    ///
    /// # Errors
    ///
    /// Only want of memory.
    fn fill(
        &mut self,
        trail: &mut Trail,
        before: Option<Broken>,
        config: &Config,
        script: &Script,
        events: &[Event],
    ) -> Result<Option<Broken>, NoMemory>
        requires config { IsConfig config.now }
        requires countable { length events.now < 2 ^ 32 }
        requires fresh { IsFresh self.old.brief self.old.first self.old.asked self.old }
        requires passed { HasPassed config.now script.now events.now self.old.first trail.old
            before }
        requires order { self.old.first ≤ self.old.asked }
        requires within { self.old.asked ≤ length events.now }
        ensures explains { IfOk result (λ broken. Explains config.now events.now broken) }
        ensures before { IfOk result (λ broken. is_some before ≡ true → broken ≡ before) }
        ensures asked { AsksAlike self.old self.new }
        ensures holds { IfOk result (λ broken.
            HoldsSteps config.now script.now (legal_front events.now broken) self.new) }
    {
        if before.is_some() {
            return Ok(before);
        }
        for index in self.first..events.len() as u32 {
            let mark = match trail.next(config, script, events, index) {
                Err(broken) => return Ok(Some(broken)),
                Ok(mark) => mark,
            };
            self.push(index, kept_mark(self.brief, mark))?;
        }
        Ok(None)
    }
}

/// Judges a list, and draws up the picture of the events that are asked for, of those before the
/// one that breaks it: what holds before the first of them, and exactly one mark for each of them
/// that is drawn, in order; so the stretches between the marks hide exactly the other steps. If
/// they have more rows than a page has room for, it ends right before the first mark that has none:
/// with that the next page begins. Takes memory for the states of the replicas and regions, and for
/// the marks.
///
/// # Errors
///
/// Only want of memory.
pub fn picture_of(
    alloc: Global,
    config: &Config,
    script: &Script,
    events: &[Event],
    extent: Extent,
) -> Result<(Picture, Option<Broken>), NoMemory>
    requires config { IsConfig config.now }
    requires countable { length events.now < 2 ^ 32 }
    ensures explains { IfOk result (λ found. Explains config.now events.now found.1) }
    ensures picture { IfOk result (λ found.
        IsPictureOf config.now script.now (legal_front events.now found.1)
        extent.brief extent.first extent.last found.0) }
    ensures hidden { IfOk result (λ found.
        hidden_from found.0.end found.0.first found.0.marks.items + length found.0.marks.items
        ≡ found.0.end - found.0.first) }
    ensures few { IfOk result (λ found. length found.0.marks.items < 2 ^ 32) }
    ensures low { IfOk result (λ found. lowest found.0 ≤ 32559) }
    ensures order { IfOk result (λ found. found.0.first ≤ found.0.end) }
    ensures lanes { IfOk result (λ found. length found.0.openings.items < 256) }
{
    let count = events.len();
    let asked = (extent.last as usize + 1).min(count) as u32;
    let mut trail = Trail::new(alloc, config)?;
    let first = extent.first.min(asked);
    let before = trail.pass(config, script, events, first);
    let first = reached(&before, first);
    let openings = openings_at(alloc, &trail, config.replicas)?;
    let mut rows = Rows::new(alloc, extent.brief, first, asked);
    let broken = rows.fill(&mut trail, before, config, script, events)?;
    let picture = Picture {
        brief: rows.brief,
        first: rows.first,
        end: rows.end,
        asked: asked.min(reached(&broken, count as u32)),
        openings,
        marks: rows.marks,
    };
    Ok((picture, broken))
}
