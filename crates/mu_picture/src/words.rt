//! What is said in a lane and to the right of the lanes.
ghost use Rattle.std.specs.Prelude.{◌≡◌, ◌+◌, ◌<◌, ◌++◌, length, IfOk, OnOk};
ghost use Rattle.std.specs.Fmt.{decimal};
ghost use Rattle.std.specs.Prelude.{Some};
ghost use Rattle.mu_picture.specs.declared.deeds.Deed.TheVariants.{Grant};
ghost use Rattle.mu_picture.specs.Words.{commands_words, committed_words, deed_words, done_words, entry_words, halt_words, held_words, label_words, lost_words, missed_words, note_with, note_words, outrun_words, pause_words, resumed_words, step_words};

use crate::deeds::Deed;
use crate::marks::Mark;
use crate::shapes::{Part, push_parts};
use crate::sheet::Sheet;
use crate::standings::Resumed;
use kv_store::Command;
use mu_course::Halt;
use mu_events::event_line;
use mu_input::{Job, op_line};
use mu_model::{Event, FIRST_MARK, NoMemory, PAYLOADS, stands_for_mark};
use mu_outcome::commands_of;
use mu_text::Line;
use std::alloc::Global;

/// Adds commands, each with its client and number.
fn push_commands(sheet: &mut Sheet, commands: &[Command]) -> Result<(), NoMemory>
    ensures { OnOk result (sheet.new ≡ sheet.old ++ commands_words commands.now) }
{
    for command in commands {
        sheet.push(b", ")?;
        sheet.push_number(u64::from(command.client))?;
        sheet.push(b".")?;
        sheet.push_number(u64::from(command.number))?;
        sheet.push(b" ")?;
        sheet.push(op_line(&command.op).as_slice())?;
    }
    Ok(())
}

/// Adds the mark or the commands that a payload number stands for.
fn push_entry(sheet: &mut Sheet, job: &Job, value: u16) -> Result<(), NoMemory>
    ensures { OnOk result (sheet.new ≡ sheet.old ++ entry_words job.now value) }
{
    let gone = (value % PAYLOADS).saturating_sub(FIRST_MARK);
    if stands_for_mark(&job.config, gone as u8, value) {
        sheet.push(b", ")?;
        sheet.push_number(u64::from(gone))?;
        sheet.push(b" is gone")
    } else {
        push_commands(sheet, commands_of(job, value))
    }
}

/// Adds that a put missed, if it did.
fn push_missed(
    sheet: &mut Sheet,
    landed: bool,
    what: &[u8],
    number: u64,
    region: u8,
) -> Result<(), NoMemory>
    ensures { OnOk result (sheet.new ≡ sheet.old ++ missed_words landed what.now number region) }
{
    if landed {
        return Ok(());
    }
    push_parts(
        sheet,
        &[
            Part::Words(b" misses region "),
            Part::Number(u64::from(region)),
            Part::Words(what),
            Part::Number(number),
            Part::Words(b", it leads no more"),
        ],
    )
}

/// Adds what befell a leadership, by a region or a replica.
fn push_loss(sheet: &mut Sheet, what: &[u8], id: u8) -> Result<(), NoMemory>
    ensures { OnOk result (sheet.new ≡ sheet.old ++ lost_words what.now id) }
{
    push_parts(
        sheet,
        &[
            Part::Words(what),
            Part::Number(u64::from(id)),
            Part::Words(b", it leads no more"),
        ],
    )
}

/// Adds whom a replica holds to be failed or alive, and whom it names.
fn push_held(sheet: &mut Sheet, q: u8, how: &[u8], named: u8) -> Result<(), NoMemory>
    ensures { OnOk result (sheet.new ≡ sheet.old ++ held_words q how.now named) }
{
    push_parts(
        sheet,
        &[
            Part::Words(b" holds "),
            Part::Number(u64::from(q)),
            Part::Words(how),
            Part::Number(u64::from(named)),
            Part::Words(b""),
        ],
    )
}

/// Adds at which position a replica is outrun.
fn push_outrun(sheet: &mut Sheet, p: u8, i: u16) -> Result<(), NoMemory>
    ensures { OnOk result (sheet.new ≡ sheet.old ++ outrun_words p i) }
{
    push_parts(
        sheet,
        &[
            Part::Words(b" is outrun at "),
            Part::Number(u64::from(p)),
            Part::Words(b", position "),
            Part::Number(u64::from(i)),
            Part::Words(b""),
        ],
    )
}

/// Adds what a commit commits.
fn push_committed(sheet: &mut Sheet, job: &Job, i: u16, v: u16) -> Result<(), NoMemory>
    ensures { OnOk result (sheet.new ≡ sheet.old ++ committed_words job.now i v) }
{
    sheet.push(b" commits ")?;
    sheet.push_number(u64::from(i))?;
    push_entry(sheet, job, v)
}

/// Adds the words on what a step does.
fn push_done_words(sheet: &mut Sheet, job: &Job, deed: Deed) -> Result<(), NoMemory>
    ensures { OnOk result (sheet.new ≡ sheet.old ++ done_words job.now deed) }
{
    match deed {
        Deed::PutMin(p, b, landed) => {
            push_missed(sheet, landed, b" with number ", u64::from(b), p)
        }
        Deed::Put(p, i, landed) => {
            push_missed(sheet, landed, b" with position ", u64::from(i), p)
        }
        Deed::Commit(_, i, v) => push_committed(sheet, job, i, v),
        Deed::Barred(p) => push_loss(sheet, b" is not let into ", p),
        Deed::Deposed(p) => push_loss(sheet, b" sees another grant at ", p),
        Deed::Outbid(p) => push_loss(sheet, b" reads a greater number at ", p),
        Deed::Resign(q) => push_loss(sheet, b" resigns to ", q),
        Deed::Fails(q, named) => push_held(sheet, q, b" failed, names ", named),
        Deed::Trusts(q, named) => push_held(sheet, q, b" alive, names ", named),
        Deed::Outrun(p, i) => push_outrun(sheet, p, i),
        _ => Ok(()),
    }
}

/// Adds what is said of a deed.
fn push_deed_words(sheet: &mut Sheet, job: &Job, deed: Option<Deed>) -> Result<(), NoMemory>
    ensures { OnOk result (sheet.new ≡ sheet.old ++ deed_words job.now deed) }
{
    match deed {
        None => Ok(()),
        Some(deed) => push_done_words(sheet, job, deed),
    }
}

/// Adds for how many rounds a replica is passed over.
fn push_pause(sheet: &mut Sheet, rounds: u32) -> Result<(), NoMemory>
    ensures { OnOk result (sheet.new ≡ sheet.old ++ pause_words rounds) }
{
    push_parts(
        sheet,
        &[
            Part::Words(b" pauses for "),
            Part::Number(u64::from(rounds)),
            Part::Words(b" rounds"),
        ],
    )
}

/// Adds the words on what befalls the replica.
fn push_halt_words(sheet: &mut Sheet, halt: Option<Halt>) -> Result<(), NoMemory>
    ensures { OnOk result (sheet.new ≡ sheet.old ++ halt_words halt) }
{
    match halt {
        None => Ok(()),
        Some(Halt::Stop) => sheet.push(b" stops"),
        Some(Halt::Spent) => sheet.push(b" has spent its budget"),
        Some(Halt::Finish) => sheet.push(b" has finished"),
        Some(Halt::Pause(rounds)) => push_pause(sheet, rounds),
    }
}

/// Adds that a replica goes on, if it does; other words follow or not.
fn push_resumed(sheet: &mut Sheet, resumed: Option<Resumed>, words: &[u8]) -> Result<(), NoMemory>
    ensures { OnOk result (sheet.new ≡ sheet.old ++ resumed_words resumed words.now) }
{
    if resumed.is_some() {
        if words.is_empty() {
            return sheet.push(b" goes on");
        }
        sheet.push(b" goes on:")?;
    }
    sheet.push(words)
}

/// What is said of a step, if there are words for it.
fn note_of(alloc: Global, step: u32, r: u8, words: &[u8]) -> Result<Sheet, NoMemory>
    ensures { IfOk result (λ note. note ≡ note_with step r words.now) }
{
    let mut note = Sheet::new(alloc);
    if words.is_empty() {
        return Ok(note);
    }
    note.push_number(u64::from(step))?;
    note.push(b": replica ")?;
    note.push_number(u64::from(r))?;
    note.push(words)?;
    Ok(note)
}

/// What is said of a mark to the right of the lanes.
pub fn note(alloc: Global, job: &Job, mark: &Mark) -> Result<Sheet, NoMemory>
    ensures { IfOk result (λ note. note ≡ note_words job.now mark.now) }
{
    let mut words = Sheet::new(alloc);
    push_deed_words(&mut words, job, mark.deed)?;
    push_halt_words(&mut words, mark.halt)?;
    let mut all = Sheet::new(alloc);
    push_resumed(&mut all, mark.resumed, words.as_slice())?;
    note_of(alloc, mark.step, mark.event.by, all.as_slice())
}

/// A word and a number.
pub fn numbered_line(words: &[u8], number: u64) -> Line
    requires { length words.now < 100 }
    ensures { result ≡ words.now ++ decimal number }
{
    let mut line = Line::new();
    line.push(words);
    line.push_number(number);
    line
}

/// A number and words.
fn counted(number: u8, words: &[u8]) -> Line
    requires { length words.now < 100 }
    ensures { result ≡ decimal number ++ words.now }
{
    let mut line = Line::new();
    line.push_number(u64::from(number));
    line.push(words);
    line
}

/// Only words.
fn plain(words: &[u8]) -> Line
    requires { length words.now < 100 }
    ensures { result ≡ words.now }
{
    let mut line = Line::new();
    line.push(words);
    line
}

/// What is said of a grant of a region that was granted so often before.
fn grant_label(to: u8, granted: u32) -> Line
    ensures { result ≡ label_words (Some (Grant to granted)) }
{
    let mut line = Line::new();
    line.push(b"to ");
    line.push_number(u64::from(to));
    line.push(b", grant ");
    line.push_number(u64::from(granted) + 1);
    line
}

/// What is said in the lane of a deed's replica.
pub fn label_of(deed: Option<Deed>) -> Line
    ensures { result ≡ label_words deed }
{
    match deed {
        Some(Deed::Close) => plain(b"close"),
        Some(Deed::Drain) => plain(b"drain"),
        Some(Deed::Grant(to, granted)) => grant_label(to, granted),
        Some(Deed::PutMin(_, b, _)) => numbered_line(b"number ", u64::from(b)),
        Some(Deed::Put(_, i, _)) => numbered_line(b"put ", u64::from(i)),
        Some(Deed::Commit(_, i, _)) => numbered_line(b"commit ", u64::from(i)),
        Some(Deed::Learn(_, i, _)) => numbered_line(b"learns ", u64::from(i)),
        Some(Deed::Head(h)) => numbered_line(b"applied to ", u64::from(h)),
        Some(Deed::Fails(q, _)) => counted(q, b" failed"),
        Some(Deed::Trusts(q, _)) => counted(q, b" alive"),
        _ => Line::new(),
    }
}

/// Adds which step an event is, its line if step 0 stands in `line`, and the event as a trace
/// has it.
pub fn push_step_words(
    sheet: &mut Sheet,
    line: u32,
    step: u32,
    event: &Event,
) -> Result<(), NoMemory>
    ensures { OnOk result (sheet.new ≡ sheet.old ++ step_words line step event.now) }
{
    let words = event_line(event);
    push_parts(
        sheet,
        &[
            Part::Words(b"step "),
            Part::Number(u64::from(step)),
            Part::Words(b", line "),
            Part::Number(u64::from(line) + u64::from(step)),
            Part::Words(b": "),
            Part::Words(words.as_slice()),
            Part::Words(b""),
        ],
    )
}
