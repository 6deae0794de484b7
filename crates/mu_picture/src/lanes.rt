//! How lanes and marks are drawn, as shapes.
ghost use Rattle.std.specs.Prelude.{◌≡◌, ◌++◌, ◌<◌, ◌≤◌, ◌^◌, OnOk};
ghost use Rattle.mu_picture.specs.Lanes.{across_shape, ask_shapes, bare_shape, closing_shape, deed_shapes, dot_shape, edge_of, ended_shapes, finished_shapes, halt_shapes, lane_shape, lane_shapes, leading_shape, naming_shape, owned_shape, paused_shape, put_shapes, region_shapes, resting_shape, resumed_shapes, tip_of};
ghost use Rattle.mu_picture.specs.Layout.{lane_of as lane_of_number};
ghost use Rattle.mu_picture.specs.Shapes.{shape_piece, shape_pieces};

use crate::deeds::Deed;
use crate::layout::{TOP, lane};
use crate::openings::Opening;
use crate::shapes::{Look, Shape, Way, push_shape};
use crate::sheet::Sheet;
use crate::standings::Resumed;
use mu_course::Halt;
use mu_model::NoMemory;

/// Where the lane of a replica stands.
fn lane_of(r: u8) -> u64
    ensures is { result ≡ lane_of_number r }
    ensures low { result < 2 ^ 32 }
    ensures left { 72 ≤ result }
{
    lane(u64::from(r))
}

/// The bar of the region of `r`, owned from `y` on.
fn owned(r: u8, y: u64, owner: u8) -> Shape
    ensures { result ≡ owned_shape r y owner }
{
    Shape::Bar {
        look: Look::Of(owner),
        x: lane_of(r) + 44,
        y,
        width: 8,
    }
}

/// The bar of the region of `r`, closing from `y` on.
fn closing(r: u8, y: u64) -> Shape
    ensures { result ≡ closing_shape r y }
{
    Shape::Bar {
        look: Look::Closing,
        x: lane_of(r) + 44,
        y,
        width: 8,
    }
}

/// A leadership of `r` from `y` on.
fn leading(r: u8, y: u64) -> Shape
    ensures { result ≡ leading_shape r y }
{
    Shape::Bar {
        look: Look::Of(r),
        x: lane_of(r) + 2,
        y,
        width: 12,
    }
}

/// No leadership of `r` from `y` on.
fn resting(r: u8, y: u64) -> Shape
    ensures { result ≡ resting_shape r y }
{
    Shape::Bar {
        look: Look::Ground,
        x: lane_of(r) + 1,
        y,
        width: 14,
    }
}

/// Whom `r` names from `y` on.
fn naming(r: u8, y: u64, named: u8) -> Shape
    ensures { result ≡ naming_shape r y named }
{
    Shape::Bar {
        look: Look::Of(named),
        x: lane_of(r) - 7,
        y,
        width: 3,
    }
}

/// The line of the lane of `r` from `y` on.
fn line(r: u8, y: u64) -> Shape
    ensures { result ≡ lane_shape r y }
{
    Shape::Bar {
        look: Look::Lane,
        x: lane_of(r),
        y,
        width: 1,
    }
}

/// A pause of `r` from `y` on.
pub fn pause_shape(r: u8, y: u64) -> Shape
    ensures { result ≡ paused_shape r y }
{
    Shape::Bar {
        look: Look::Hatched,
        x: lane_of(r) + 2,
        y,
        width: 12,
    }
}

/// No more of the lane of `r` from `y` on.
fn bare(r: u8, y: u64) -> Shape
    ensures { result ≡ bare_shape r y }
{
    Shape::Bar {
        look: Look::Ground,
        x: lane_of(r) - 8,
        y,
        width: 24,
    }
}

/// The edge of a square that a line goes to the left from, or to the right.
fn edge(left: bool) -> u64
    ensures is { result ≡ edge_of left }
    ensures low { result < 100 }
{
    if left { 5 } else { 11 }
}

/// The end of a line at a bar of a region.
fn tip(missed: bool, left: bool) -> u64
    ensures is { result ≡ tip_of missed left }
    ensures low { result < 100 }
{
    if missed {
        48
    } else if left {
        52
    } else {
        44
    }
}

/// A line from the lane of `r` to the region of `p`.
fn across(look: Look, missed: bool, r: u8, y: u64, p: u8) -> Shape
    ensures { result ≡ across_shape look missed r y p }
{
    let left = p < r;
    Shape::Line {
        look,
        way: Way::Across {
            x: lane_of(r) + edge(left),
            y,
            to: lane_of(p) + tip(missed, left),
            missed,
            left,
        },
    }
}

/// Adds two shapes.
fn push_two(sheet: &mut Sheet, one: Shape, other: Shape) -> Result<(), NoMemory>
    ensures { OnOk result (sheet.new ≡ sheet.old ++ (shape_piece one ++ shape_piece other)) }
{
    push_shape(sheet, one)?;
    push_shape(sheet, other)
}

/// Adds a put: if it missed, it ends a leadership.
fn push_put(sheet: &mut Sheet, landed: bool, r: u8, y: u64, p: u8) -> Result<(), NoMemory>
    ensures { OnOk result (sheet.new ≡ sheet.old ++ shape_pieces (put_shapes landed r y p)) }
{
    if landed {
        push_shape(sheet, across(Look::Landed, false, r, y, p))
    } else {
        push_two(sheet, resting(r, y), across(Look::Missed, true, r, y, p))
    }
}

/// Adds an ask: the first begins a leadership.
fn push_ask(sheet: &mut Sheet, r: u8, y: u64, p: u8) -> Result<(), NoMemory>
    ensures { OnOk result (sheet.new ≡ sheet.old ++ shape_pieces (ask_shapes r y p)) }
{
    if p == 0 {
        push_two(sheet, leading(r, y), across(Look::Asks, false, r, y, p))
    } else {
        push_shape(sheet, across(Look::Asks, false, r, y, p))
    }
}

/// Adds the end of the lane of `r` below `y`, with a cross.
fn push_ended(sheet: &mut Sheet, r: u8, y: u64) -> Result<(), NoMemory>
    requires { y < 2 ^ 60 }
    ensures { OnOk result (sheet.new ≡ sheet.old ++ shape_pieces (ended_shapes r y)) }
{
    let cross = Shape::Line {
        look: Look::Sign,
        way: Way::Cross {
            x: lane_of(r) + 4,
            y: y + 2,
        },
    };
    push_two(sheet, bare(r, y + 6), cross)
}

/// Adds the end of the lane of `r` below `y`, if it has finished.
fn push_finished(sheet: &mut Sheet, r: u8, y: u64) -> Result<(), NoMemory>
    requires { y < 2 ^ 60 }
    ensures { OnOk result (sheet.new ≡ sheet.old ++ shape_pieces (finished_shapes r y)) }
{
    let level = Shape::Line {
        look: Look::Sign,
        way: Way::Level {
            x: lane_of(r),
            y: y + 5,
        },
    };
    push_two(sheet, bare(r, y + 6), level)
}

/// A dot in the lane of `r`.
fn dot(look: Look, r: u8, y: u64) -> Shape
    ensures { result ≡ dot_shape look r y }
{
    Shape::Dot {
        look,
        x: lane_of(r) + 8,
        y,
    }
}

/// Adds what a deed of `r` is drawn as, in the row at `y`.
pub fn push_deed(sheet: &mut Sheet, r: u8, y: u64, deed: Option<Deed>) -> Result<(), NoMemory>
    requires { y < 2 ^ 60 }
    ensures { OnOk result (sheet.new ≡ sheet.old ++ shape_pieces (deed_shapes r y deed)) }
{
    match deed {
        None => Ok(()),
        Some(Deed::Ask(p)) => push_ask(sheet, r, y, p),
        Some(Deed::Close) => push_shape(sheet, closing(r, y)),
        Some(Deed::Drain) => Ok(()),
        Some(Deed::Grant(to, _)) => push_shape(sheet, owned(r, y, to)),
        Some(Deed::PutMin(p, _, landed)) => push_put(sheet, landed, r, y, p),
        Some(Deed::Put(p, _, landed)) => push_put(sheet, landed, r, y, p),
        Some(Deed::Commit(p, _, _)) => { push_shape(sheet, across(Look::Commits, false, r, y, p)) }
        Some(Deed::Learn(_, _, _)) => push_shape(sheet, dot(Look::Landed, r, y)),
        Some(Deed::Head(_)) => push_shape(sheet, dot(Look::Closing, r, y)),
        Some(Deed::Barred(_)) => push_shape(sheet, resting(r, y)),
        Some(Deed::Deposed(_)) => push_shape(sheet, resting(r, y)),
        Some(Deed::Outbid(_)) => push_shape(sheet, resting(r, y)),
        Some(Deed::Resign(_)) => push_shape(sheet, resting(r, y)),
        Some(Deed::Fails(_, named)) => push_shape(sheet, naming(r, y, named)),
        Some(Deed::Trusts(_, named)) => push_shape(sheet, naming(r, y, named)),
        Some(Deed::Outrun(_, _)) => push_ended(sheet, r, y),
    }
}

/// Adds what befalls `r` as it is drawn, in the row at `y`.
pub fn push_halt(sheet: &mut Sheet, r: u8, y: u64, halt: Option<Halt>) -> Result<(), NoMemory>
    requires { y < 2 ^ 60 }
    ensures { OnOk result (sheet.new ≡ sheet.old ++ shape_pieces (halt_shapes r y halt)) }
{
    match halt {
        None => Ok(()),
        Some(Halt::Stop) => push_ended(sheet, r, y),
        Some(Halt::Spent) => push_ended(sheet, r, y),
        Some(Halt::Finish) => push_finished(sheet, r, y),
        Some(Halt::Pause(_)) => push_shape(sheet, pause_shape(r, y + 6)),
    }
}

/// Adds the lane of `r` from `y` on: whether it leads, and whom it names.
pub fn push_lane(sheet: &mut Sheet, r: u8, y: u64, leads: bool, named: u8) -> Result<(), NoMemory>
    ensures { OnOk result (sheet.new ≡ sheet.old ++ shape_pieces (lane_shapes r y leads named)) }
{
    push_two(sheet, naming(r, y, named), line(r, y))?;
    if leads {
        push_shape(sheet, leading(r, y))
    } else {
        Ok(())
    }
}

/// Adds the lane of a replica that goes on, in the row at `y`.
pub fn push_resumed(
    sheet: &mut Sheet,
    r: u8,
    y: u64,
    resumed: Option<Resumed>,
) -> Result<(), NoMemory>
    ensures { OnOk result (sheet.new ≡ sheet.old ++ shape_pieces (resumed_shapes r y resumed)) }
{
    match resumed {
        None => Ok(()),
        Some(Resumed { leads, named }) => {
            push_shape(sheet, bare(r, y))?;
            push_lane(sheet, r, y, leads, named)
        }
    }
}

/// Adds the bar of a region before the first step.
pub fn push_region(sheet: &mut Sheet, r: u8, opening: &Opening) -> Result<(), NoMemory>
    ensures { OnOk result (sheet.new ≡ sheet.old ++ shape_pieces (region_shapes r opening.now)) }
{
    if opening.closing {
        return push_shape(sheet, closing(r, TOP));
    }
    match opening.owner {
        None => Ok(()),
        Some(owner) => push_shape(sheet, owned(r, TOP, owner)),
    }
}
