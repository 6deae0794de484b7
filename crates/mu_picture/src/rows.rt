//! The rows of a picture.
ghost use Rattle.std.specs.Prelude.{◌≡◌, ◌++◌, ◌+◌, ◌-◌, ◌<◌, ◌^◌, [], length, IfOk, OnOk};
ghost use Rattle.std.specs.Fmt.{decimal};
ghost use Rattle.mu_picture.specs.Drawing.{axis_piece, figure_pieces, fold_pieces, mark_pieces, note_piece, row_pieces, rows_from, strip_shape, title_pieces, titles_again, titles_pieces};
ghost use Rattle.mu_picture.specs.Layout.{after_marks, lane_of, top};
ghost use Rattle.mu_picture.specs.Shapes.{said_piece, text_piece, tooltip_piece};
ghost use Rattle.mu_picture.specs.Words.{step_words};
ghost use Rattle.mu_picture.specs.declared.shapes.Look.TheVariants.{Label};

use crate::lanes::{push_deed, push_halt, push_resumed};
use crate::layout::{Cursor, is_folded, lane, top_of};
use crate::marks::Mark;
use crate::shapes::{Look, Shape, push_shape, push_text};
use crate::sheet::Sheet;
use crate::words::{label_of, note, push_step_words};
use mu_input::Job;
use mu_model::{Event, NoMemory};
use mu_text::Line;
use std::alloc::Global;

/// Where the words of the axis end.
const AXIS: u64 = 56;

/// Adds words at the axis.
pub fn push_axis(sheet: &mut Sheet, y: u64, words: &[u8]) -> Result<(), NoMemory>
    ensures { OnOk result (sheet.new ≡ sheet.old ++ axis_piece y words.now) }
{
    push_text(sheet, Look::Axis, AXIS, y, words)
}

/// Adds a number at the axis.
pub fn push_step(sheet: &mut Sheet, y: u64, step: u32) -> Result<(), NoMemory>
    ensures { OnOk result (sheet.new ≡ sheet.old ++ axis_piece y ([] ++ decimal step)) }
{
    let mut line = Line::new();
    line.push_number(u64::from(step));
    push_axis(sheet, y, line.as_slice())
}

/// Adds what is said of a mark of `r` to the right of `n` lanes, with a dot in the colour of `r`.
fn push_note(sheet: &mut Sheet, n: u64, r: u8, y: u64, words: &[u8]) -> Result<(), NoMemory>
    requires lanes { n < 2 ^ 16 }
    requires low { y < 2 ^ 60 }
    ensures { OnOk result (sheet.new ≡ sheet.old ++ note_piece n r y words.now) }
{
    if words.is_empty() {
        return Ok(());
    }
    let x = lane(n);
    push_shape(
        sheet,
        Shape::Dot {
            look: Look::Of(r),
            x: x + 4,
            y,
        },
    )?;
    push_text(sheet, Look::Note, x + 12, y + 3, words)
}

/// Adds words in the lane of `r`, if there are any.
fn push_label(sheet: &mut Sheet, r: u8, y: u64, words: &[u8]) -> Result<(), NoMemory>
    requires { y < 2 ^ 60 }
    ensures { OnOk result (sheet.new
        ≡ sheet.old ++ said_piece Label (lane_of r + 58) (y + 3) words.now) }
{
    if words.is_empty() {
        return Ok(());
    }
    push_text(sheet, Look::Label, lane(u64::from(r)) + 58, y + 3, words)
}

/// Adds what a mark is drawn as in the row at `y`, in its lane.
fn push_figure(sheet: &mut Sheet, y: u64, mark: &Mark) -> Result<(), NoMemory>
    requires { y < 2 ^ 60 }
    ensures { OnOk result (sheet.new ≡ sheet.old ++ figure_pieces y mark.now) }
{
    let r = mark.event.by;
    let label = label_of(mark.deed);
    push_resumed(sheet, r, y, mark.resumed)?;
    push_deed(sheet, r, y, mark.deed)?;
    push_halt(sheet, r, y, mark.halt)?;
    push_label(sheet, r, y, label.as_slice())
}

/// Begins pieces with a tooltip.
pub fn push_tooltip(sheet: &mut Sheet, words: &[u8]) -> Result<(), NoMemory>
    ensures { OnOk result (sheet.new ≡ sheet.old ++ tooltip_piece words.now) }
{
    sheet.push(b"<g><title>")?;
    sheet.push_escaped(words)?;
    sheet.push(b"</title>\n")
}

/// Begins the pieces of a step, with the step, its line and its event as a tooltip.
pub fn push_event(
    sheet: &mut Sheet,
    alloc: Global,
    line: u32,
    step: u32,
    event: &Event,
) -> Result<(), NoMemory>
    ensures { OnOk result (sheet.new
        ≡ sheet.old ++ tooltip_piece (step_words line step event.now)) }
{
    let mut words = Sheet::new(alloc);
    push_step_words(&mut words, line, step, event)?;
    push_tooltip(sheet, words.as_slice())
}

/// Adds a mark, in the row at `y` of `n` lanes: its lane, its step and what is said of it.
fn push_mark(
    sheet: &mut Sheet,
    alloc: Global,
    job: &Job,
    line: u32,
    n: u64,
    y: u64,
    mark: &Mark,
) -> Result<(), NoMemory>
    requires lanes { n < 2 ^ 16 }
    requires low { y < 2 ^ 60 }
    ensures { OnOk result (sheet.new ≡ sheet.old ++ mark_pieces job.now line n y mark.now) }
{
    let note = note(alloc, job, mark)?;
    push_event(sheet, alloc, line, mark.step, &mark.event)?;
    push_figure(sheet, y, mark)?;
    push_step(sheet, y + 3, mark.step)?;
    push_note(sheet, n, mark.event.by, y, note.as_slice())?;
    sheet.push(b"</g>\n")
}

/// Adds a word and the number of a lane.
fn push_title_word(sheet: &mut Sheet, x: u64, y: u64, words: &[u8], r: u64) -> Result<(), NoMemory>
    requires { length words.now < 100 }
    ensures { OnOk result (sheet.new
        ≡ sheet.old ++ text_piece Label x y (words.now ++ decimal r)) }
{
    let mut line = Line::new();
    line.push(words);
    line.push_number(r);
    push_text(sheet, Look::Label, x, y, line.as_slice())
}

/// Adds what stands above a lane and its region.
pub fn push_title(sheet: &mut Sheet, r: u64, y: u64) -> Result<(), NoMemory>
    requires { r < 2 ^ 16 }
    ensures { OnOk result (sheet.new ≡ sheet.old ++ title_pieces r y) }
{
    let x = lane(r);
    push_title_word(sheet, x - 2, y, b"replica ", r)?;
    push_title_word(sheet, x + 42, y, b"region ", r)
}

/// Adds the titles of the first `n` lanes.
fn push_titles(sheet: &mut Sheet, n: u64, y: u64) -> Result<(), NoMemory>
    requires { n < 2 ^ 16 }
    ensures { OnOk result (sheet.new ≡ sheet.old ++ titles_pieces n y) }
{
    for r in 0..n {
        push_title(sheet, r, y)?;
    }
    Ok(())
}

/// Adds the titles again, if they stand above the next row.
fn push_titles_again(sheet: &mut Sheet, n: u64, cursor: Cursor) -> Result<(), NoMemory>
    requires lanes { n < 2 ^ 16 }
    requires low { cursor.y < 2 ^ 50 }
    ensures { OnOk result (sheet.new ≡ sheet.old ++ titles_again n cursor) }
{
    if cursor.has_titles() {
        push_titles(sheet, n, cursor.y + 11)
    } else {
        Ok(())
    }
}

/// Adds a stretch, if it is folded: it breaks the bars, and says how many steps it hides.
pub fn push_fold(sheet: &mut Sheet, n: u64, y: u64, steps: u64) -> Result<(), NoMemory>
    requires lanes { n < 2 ^ 16 }
    requires low { y < 2 ^ 60 }
    ensures { OnOk result (sheet.new ≡ sheet.old ++ fold_pieces n y steps) }
{
    if !is_folded(steps) {
        return Ok(());
    }
    let mut line = Line::new();
    line.push_number(steps);
    line.push(b" steps");
    push_shape(sheet, strip(Look::Folded, n, y + 3, 10))?;
    push_axis(sheet, y + 11, line.as_slice())
}

/// A strip across `n` lanes.
pub fn strip(look: Look, n: u64, y: u64, height: u64) -> Shape
    requires { n < 2 ^ 16 }
    ensures { result ≡ strip_shape look n y height }
{
    let left = lane(0);
    Shape::Block {
        look,
        x: left - 10,
        y,
        width: lane(n) - left,
        height,
    }
}

/// Adds the row of a mark, with the stretch before it.
fn push_row(
    sheet: &mut Sheet,
    alloc: Global,
    job: &Job,
    line: u32,
    n: u64,
    cursor: Cursor,
    mark: &Mark,
) -> Result<(), NoMemory>
    requires lanes { n < 2 ^ 16 }
    requires low { cursor.y < 2 ^ 50 }
    ensures { OnOk result (sheet.new ≡ sheet.old ++ row_pieces job.now line n cursor mark.now) }
{
    let step = u64::from(mark.step);
    push_titles_again(sheet, n, cursor)?;
    push_fold(sheet, n, cursor.stretch_top(), cursor.hidden_before(step))?;
    push_mark(sheet, alloc, job, line, n, cursor.row(step) + 6, mark)
}

/// Adds the rows of marks, and tells at which height the next row would go.
pub fn push_rows(
    sheet: &mut Sheet,
    alloc: Global,
    job: &Job,
    line: u32,
    n: u64,
    first: u32,
    marks: &[Mark],
) -> Result<Cursor, NoMemory>
    requires lanes { n < 2 ^ 16 }
    requires few { length marks.now < 2 ^ 32 }
    ensures rows { OnOk result (sheet.new
        ≡ sheet.old ++ rows_from job.now line n (top first) marks.now) }
    ensures next { IfOk result (λ cursor. cursor ≡ after_marks (top first) marks.now) }
{
    let mut cursor = top_of(u64::from(first));
    for mark in marks {
        push_row(sheet, alloc, job, line, n, cursor, mark)?;
        cursor = cursor.after(mark.step);
    }
    Ok(cursor)
}
