//! A picture as a document of SVG.
ghost use Rattle.std.specs.Prelude.{◌≡◌, ◌++◌, ◌+◌, ◌*◌, ◌-◌, ◌<◌, ◌≤◌, ◌^◌, length, max, min, Some, IfOk, OnOk};
ghost use Rattle.mu_picture.specs.Drawing.{breach_figure, breach_inside, breach_pieces, breach_shape, content_of, document_of, event_length, fault_length, fault_piece, foot_pieces, front_of, goes_on_pieces, height_of, lane_pieces, lanes_from, last_cursor, longest_of, more_pieces, rows_from, standing_pieces, svg_of, width_for, width_of};
ghost use Rattle.mu_picture.specs.Layout.{top};
ghost use Rattle.mu_picture.specs.Marks.{lowest};
ghost use Rattle.mu_picture.specs.Xml.{IsDocument};

use crate::heading::push_head;
use crate::lanes::{pause_shape, push_lane as push_lane_line, push_region};
use crate::layout::{Cursor, TOP, lane, top_of};
use crate::marks::Mark;
use crate::openings::Opening;
use crate::pictures::Picture;
use crate::rows::{push_axis, push_event, push_fold, push_rows, push_step, push_title, strip};
use crate::shapes::{Look, Part, Shape, Way, push_parts, push_shape, push_text};
use crate::sheet::Sheet;
use crate::standings::Standing;
use crate::words::{note, numbered_line};
use mu_events::event_line;
use mu_input::Job;
use mu_model::{Event, NoMemory};
use mu_text::Line;
use std::alloc::Global;

/// The event that breaks a list of events, and what is wrong with it.
#[derive(Drop)]
pub struct Breach {
    /// Its index in the list, counted from 0.
    pub step: u32,
    /// The event.
    pub event: Event,
    /// What is wrong, in words.
    pub fault: Line,
}

/// Adds a lane that stands so before the first step.
fn push_standing(sheet: &mut Sheet, r: u8, opening: &Opening) -> Result<(), NoMemory>
    ensures { OnOk result (sheet.new
        ≡ sheet.old ++ standing_pieces r opening.now opening.now.standing) }
{
    match opening.standing {
        Standing::Going => push_lane_line(sheet, r, TOP, opening.leads, opening.named),
        Standing::Paused => {
            push_lane_line(sheet, r, TOP, opening.leads, opening.named)?;
            push_shape(sheet, pause_shape(r, TOP))
        }
        Standing::Ended => Ok(()),
    }
}

/// Adds a lane with its region before the first step.
fn push_lane(sheet: &mut Sheet, r: u8, opening: &Opening) -> Result<(), NoMemory>
    ensures { OnOk result (sheet.new ≡ sheet.old ++ lane_pieces r opening.now) }
{
    push_title(sheet, u64::from(r), TOP - 8)?;
    push_region(sheet, r, opening)?;
    push_standing(sheet, r, opening)
}

/// Adds all lanes.
fn push_lanes(sheet: &mut Sheet, openings: &[Opening]) -> Result<(), NoMemory>
    requires { length openings.now < 256 }
    ensures { OnOk result (sheet.new ≡ sheet.old ++ lanes_from 0 openings.now) }
{
    let mut r: u8 = 0;
    for opening in openings {
        push_lane(sheet, r, opening)?;
        r += 1;
    }
    Ok(())
}

/// Adds with which step a picture goes on.
fn push_goes_on(sheet: &mut Sheet, end: u32, y: u64) -> Result<(), NoMemory>
    requires { y < 2 ^ 60 }
    ensures { OnOk result (sheet.new ≡ sheet.old ++ goes_on_pieces end y) }
{
    let line = numbered_line(b"with step ", u64::from(end));
    push_axis(sheet, y + 12, b"goes on")?;
    push_text(sheet, Look::Label, 62, y + 12, line.as_slice())
}

/// Adds that, if not all steps that are asked for have room.
fn push_more(sheet: &mut Sheet, picture: &Picture, y: u64) -> Result<(), NoMemory>
    requires { y < 2 ^ 60 }
    ensures { OnOk result (sheet.new ≡ sheet.old ++ more_pieces picture.now y) }
{
    if picture.end < picture.asked {
        push_goes_on(sheet, picture.end, y)
    } else {
        Ok(())
    }
}

/// A cross in the lane of `r`.
fn breach_cross(r: u8, y: u64) -> Shape
    ensures { result ≡ breach_shape r y }
{
    Shape::Line {
        look: Look::Wrong,
        way: Way::Cross {
            x: lane(u64::from(r)) + 4,
            y,
        },
    }
}

/// Adds a line across `n` lanes, and a cross below it in that of `r`.
fn push_breach_figure(sheet: &mut Sheet, n: u64, r: u8, y: u64) -> Result<(), NoMemory>
    requires lanes { n < 2 ^ 16 }
    requires low { y < 2 ^ 50 }
    ensures { OnOk result (sheet.new ≡ sheet.old ++ breach_figure n r y) }
{
    push_shape(sheet, strip(Look::Wrong, n, y + 17, 1))?;
    push_shape(sheet, breach_cross(r, y + 22))
}

/// Adds words on an event that breaks the list, to the right of `n` lanes.
fn push_fault(sheet: &mut Sheet, n: u64, y: u64, words: &[u8]) -> Result<(), NoMemory>
    requires { n < 2 ^ 16 }
    ensures { OnOk result (sheet.new ≡ sheet.old ++ fault_piece n y words.now) }
{
    push_text(sheet, Look::Fault, lane(n) + 12, y, words)
}

/// Adds what is drawn of the event that breaks the list, below `y`.
fn push_breach_inside(sheet: &mut Sheet, n: u64, y: u64, breach: &Breach) -> Result<(), NoMemory>
    requires lanes { n < 2 ^ 16 }
    requires low { y < 2 ^ 50 }
    ensures { OnOk result (sheet.new ≡ sheet.old ++ breach_inside n y breach.now) }
{
    let words = event_line(&breach.event);
    push_breach_figure(sheet, n, breach.event.by, y)?;
    push_step(sheet, y + 29, breach.step)?;
    push_fault(sheet, n, y + 29, words.as_slice())?;
    push_fault(sheet, 0, y + 41, breach.fault.as_slice())
}

/// Adds that, with its step and line as a tooltip.
fn push_breach(
    sheet: &mut Sheet,
    alloc: Global,
    line: u32,
    n: u64,
    y: u64,
    breach: &Option<Breach>,
) -> Result<(), NoMemory>
    requires lanes { n < 2 ^ 16 }
    requires low { y < 2 ^ 50 }
    ensures { OnOk result (sheet.new ≡ sheet.old ++ breach_pieces line n y breach.now) }
{
    match breach {
        None => Ok(()),
        Some(breach) => {
            push_event(sheet, alloc, line, breach.step, &breach.event)?;
            push_breach_inside(sheet, n, y, breach)?;
            sheet.push(b"</g>\n")
        }
    }
}

/// Adds what stands below the rows; the next row would go at the cursor.
fn push_foot(
    sheet: &mut Sheet,
    alloc: Global,
    line: u32,
    n: u64,
    picture: &Picture,
    breach: &Option<Breach>,
    cursor: Cursor,
) -> Result<(), NoMemory>
    requires lanes { n < 2 ^ 16 }
    requires low { cursor.y ≤ 32559 }
    ensures { OnOk result (sheet.new
        ≡ sheet.old ++ foot_pieces line n picture.now breach.now cursor) }
{
    let end = u64::from(picture.end);
    let foot = cursor.bottom(end);
    push_fold(sheet, n, cursor.y, cursor.hidden_before(end))?;
    push_more(sheet, picture, foot)?;
    push_breach(sheet, alloc, line, n, foot, breach)
}

/// How many lanes there are.
fn lanes_in(picture: &Picture) -> u64
    ensures { result ≡ length picture.now.openings.items }
{
    picture.openings.len() as u64
}

/// Adds the lanes of a picture.
fn push_all_lanes(sheet: &mut Sheet, picture: &Picture) -> Result<(), NoMemory>
    requires { length picture.now.openings.items < 256 }
    ensures { OnOk result (sheet.new ≡ sheet.old ++ lanes_from 0 picture.now.openings.items) }
{
    push_lanes(sheet, picture.openings.as_slice())
}

/// Adds the rows of a picture of `n` lanes, and tells where the next row would go.
fn push_all_rows(
    sheet: &mut Sheet,
    alloc: Global,
    job: &Job,
    line: u32,
    n: u64,
    picture: &Picture,
) -> Result<Cursor, NoMemory>
    requires lanes { n < 2 ^ 16 }
    requires few { length picture.now.marks.items < 2 ^ 32 }
    ensures rows { OnOk result (sheet.new
        ≡ sheet.old ++ rows_from job.now line n (top picture.now.first) picture.now.marks.items) }
    ensures next { IfOk result (λ cursor. cursor ≡ last_cursor picture.now) }
{
    push_rows(
        sheet,
        alloc,
        job,
        line,
        n,
        picture.first,
        picture.marks.as_slice(),
    )
}

/// Adds what stands in a document of this width.
fn push_content(
    sheet: &mut Sheet,
    alloc: Global,
    job: &Job,
    line: u32,
    picture: &Picture,
    breach: &Option<Breach>,
    width: u64,
) -> Result<(), NoMemory>
    requires lanes { length picture.now.openings.items < 256 }
    requires marks { length picture.now.marks.items < 2 ^ 32 }
    requires low { lowest picture.now ≤ 32559 }
    requires order { picture.now.first ≤ picture.now.end }
    ensures { OnOk result (sheet.new
        ≡ sheet.old ++ content_of job.now line picture.now breach.now width) }
{
    let n = lanes_in(picture);
    push_head(sheet, alloc, &job.config, picture, width)?;
    push_all_lanes(sheet, picture)?;
    let cursor = push_all_rows(sheet, alloc, job, line, n, picture)?;
    push_foot(sheet, alloc, line, n, picture, breach, cursor)
}

/// How many bytes the longest note has.
fn longest(alloc: Global, job: &Job, marks: &[Mark]) -> Result<u64, NoMemory>
    ensures { IfOk result (λ most. most ≡ longest_of job.now marks.now) }
{
    let mut most = 0;
    for mark in marks {
        let note = note(alloc, job, mark)?;
        most = (note.as_slice().len() as u64).max(most);
    }
    Ok(most)
}

/// How many bytes the event that breaks the list has.
fn event_bytes(breach: &Option<Breach>) -> u64
    ensures { result ≡ event_length breach.now }
{
    match breach {
        None => 0,
        Some(breach) => {
            let words = event_line(&breach.event);
            words.as_slice().len() as u64
        }
    }
}

/// How many bytes the words on what is wrong with it have.
fn fault_bytes(breach: &Option<Breach>) -> u64
    ensures { result ≡ fault_length breach.now }
{
    match breach {
        None => 0,
        Some(breach) => breach.fault.as_slice().len() as u64,
    }
}

/// How wide a picture of `n` lanes is, if the longest words next to them have this many bytes.
fn width(n: u64, longest: u64) -> u64
    requires { n < 256 }
    ensures { result ≡ width_for n longest }
{
    (lane(n) + 24 + 6 * longest.min(5000)).max(580)
}

/// Where the row after the last mark would go.
fn cursor_below(picture: &Picture) -> Cursor
    requires { length picture.now.marks.items < 2 ^ 32 }
    ensures { result ≡ last_cursor picture.now }
{
    let mut cursor = top_of(u64::from(picture.first));
    for mark in picture.marks.as_slice() {
        cursor = cursor.after(mark.step);
    }
    cursor
}

/// How high a picture is.
fn height(picture: &Picture) -> u64
    requires marks { length picture.now.marks.items < 2 ^ 32 }
    requires low { lowest picture.now ≤ 32559 }
    ensures is { result ≡ height_of picture.now }
    ensures fits { result ≤ 32767 }
{
    cursor_below(picture).bottom(u64::from(picture.end)) + 56
}

/// Adds the front of a document of this width and height.
fn push_front(sheet: &mut Sheet, width: u64, height: u64) -> Result<(), NoMemory>
    ensures { OnOk result (sheet.new ≡ sheet.old ++ front_of width height) }
{
    push_parts(
        sheet,
        &[
            Part::Words(b"<svg xmlns='http://www.w3.org/2000/svg' role='img' viewBox='0 0 "),
            Part::Number(width),
            Part::Words(b" "),
            Part::Number(height),
            Part::Words(b"' width='"),
            Part::Number(width),
            Part::Words(b"' height='"),
            Part::Number(height),
            Part::Words(b"'>\n"),
        ],
    )
}

/// How wide a picture is, with the event that breaks the list.
fn width_with(
    alloc: Global,
    job: &Job,
    picture: &Picture,
    breach: &Option<Breach>,
) -> Result<u64, NoMemory>
    requires { length picture.now.openings.items < 256 }
    ensures { IfOk result (λ width. width ≡ width_of job.now picture.now breach.now) }
{
    let notes = longest(alloc, job, picture.marks.as_slice())?;
    let most = notes.max(event_bytes(breach));
    let below = width(0, fault_bytes(breach));
    Ok(width(lanes_in(picture), most).max(below))
}

/// Adds the document of a picture, of this width and height.
fn push_document(
    sheet: &mut Sheet,
    alloc: Global,
    job: &Job,
    line: u32,
    picture: &Picture,
    breach: &Option<Breach>,
    width: u64,
    height: u64,
) -> Result<(), NoMemory>
    requires lanes { length picture.now.openings.items < 256 }
    requires marks { length picture.now.marks.items < 2 ^ 32 }
    requires low { lowest picture.now ≤ 32559 }
    requires order { picture.now.first ≤ picture.now.end }
    ensures { OnOk result (sheet.new ≡ sheet.old
        ++ document_of width height (content_of job.now line picture.now breach.now width)) }
{
    push_front(sheet, width, height)?;
    push_content(sheet, alloc, job, line, picture, breach, width)?;
    sheet.push(b"</svg>\n")
}

/// The document of a picture of a trace of the job, in which step 0 stands in this line, with the
/// event that breaks its list, if one does. Takes memory for the document, which has at most some
/// hundred bytes for each mark and the texts of the committed commands.
///
/// # Errors
///
/// Only want of memory.
pub fn drawing_of(
    alloc: Global,
    job: &Job,
    line: u32,
    picture: &Picture,
    breach: &Option<Breach>,
) -> Result<Sheet, NoMemory>
    requires lanes { length picture.now.openings.items < 256 }
    requires marks { length picture.now.marks.items < 2 ^ 32 }
    requires low { lowest picture.now ≤ 32559 }
    requires order { picture.now.first ≤ picture.now.end }
    ensures drawing { IfOk result (λ sheet. sheet ≡ svg_of job.now line picture.now breach.now) }
    ensures fits { IfOk result (λ sheet. height_of picture.now ≤ 32767) }
    ensures document { IfOk result IsDocument }
{
    let width = width_with(alloc, job, picture, breach)?;
    let height = height(picture);
    let mut sheet = Sheet::new(alloc);
    push_document(&mut sheet, alloc, job, line, picture, breach, width, height)?;
    Ok(sheet)
}
