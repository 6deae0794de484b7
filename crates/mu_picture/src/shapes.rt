//! The shapes and texts that a drawing is made of.
ghost use Rattle.std.specs.Prelude.{◌≡◌, ◌++◌, OnOk};
ghost use Rattle.mu_picture.specs.declared.shapes.Shape.TheVariants.{Line};
ghost use Rattle.mu_picture.specs.Shapes.{head_bytes, look_class, part_bytes, parts_bytes, shape_piece, square_bytes, text_piece};

use crate::sheet::Sheet;
use mu_model::NoMemory;

/// How a shape or a text looks.
#[derive(Clone, Copy)]
pub enum Look {
    /// The ground.
    Ground,
    /// The line of a lane.
    Lane,
    /// A region that is closing, and a ring.
    Closing,
    /// A pause.
    Hatched,
    /// A folded stretch.
    Folded,
    /// An ask.
    Asks,
    /// A put that landed, and a dot.
    Landed,
    /// A put that missed.
    Missed,
    /// A put that commits.
    Commits,
    /// The end of a lane.
    Sign,
    /// The event that breaks the list.
    Wrong,
    /// Words of a lane.
    Label,
    /// Words of the axis.
    Axis,
    /// Words to the right of the lanes.
    Note,
    /// Words on the event that breaks the list.
    Fault,
    /// What is a replica's.
    Of(u8),
}

/// The way of a line.
#[derive(Clone, Copy)]
pub enum Way {
    /// From a small square, with this edge, across to a region.
    Across {
        /// The edge of the square.
        x: u64,
        /// The middle.
        y: u64,
        /// The head of the arrow, or the middle of the cross.
        to: u64,
        /// Whether a cross is at its end, and no arrow.
        missed: bool,
        /// Whether it goes to the left.
        left: bool,
    },
    /// A cross of 8 units, with this left upper corner.
    Cross {
        /// The left edge.
        x: u64,
        /// The upper edge.
        y: u64,
    },
    /// A level line of 16 units from here.
    Level {
        /// The left end.
        x: u64,
        /// The height.
        y: u64,
    },
}

/// A shape. Places and sizes are in units of the drawing.
#[derive(Clone, Copy)]
pub enum Shape {
    /// A bar down to the bottom.
    Bar {
        /// How it looks.
        look: Look,
        /// The left edge.
        x: u64,
        /// The upper edge.
        y: u64,
        /// How wide it is.
        width: u64,
    },
    /// A block.
    Block {
        /// How it looks.
        look: Look,
        /// The left edge.
        x: u64,
        /// The upper edge.
        y: u64,
        /// How wide it is.
        width: u64,
        /// How high it is.
        height: u64,
    },
    /// A line.
    Line {
        /// How it looks.
        look: Look,
        /// Where it goes.
        way: Way,
    },
    /// A dot.
    Dot {
        /// How it looks.
        look: Look,
        /// The middle.
        x: u64,
        /// The middle.
        y: u64,
    },
}

/// A part of an element.
#[derive(Clone, Copy)]
pub enum Part<'a> {
    /// Words as they stand.
    Words(&'a [u8]),
    /// Words of a text.
    Text(&'a [u8]),
    /// A number in decimal digits.
    Number(u64),
    /// The class of a look.
    Class(Look),
    /// The far end of a line: a cross if it missed, else an arrow head to the left or the right.
    Head(bool, bool),
    /// The square at its near end, on the way to the left or to the right.
    Square(bool),
}

/// Adds the class of a look.
fn push_class(sheet: &mut Sheet, look: Look) -> Result<(), NoMemory>
    ensures { OnOk result (sheet.new ≡ sheet.old ++ look_class look) }
{
    match look {
        Look::Ground => sheet.push(b"w"),
        Look::Lane => sheet.push(b"l"),
        Look::Closing => sheet.push(b"c"),
        Look::Hatched => sheet.push(b"z"),
        Look::Folded => sheet.push(b"f"),
        Look::Asks => sheet.push(b"a"),
        Look::Landed => sheet.push(b"p"),
        Look::Missed => sheet.push(b"q"),
        Look::Commits => sheet.push(b"k"),
        Look::Sign => sheet.push(b"x"),
        Look::Wrong => sheet.push(b"r"),
        Look::Label => sheet.push(b"n"),
        Look::Axis => sheet.push(b"s"),
        Look::Note => sheet.push(b"t"),
        Look::Fault => sheet.push(b"t e"),
        Look::Of(r) => {
            sheet.push(b"o")?;
            sheet.push_number(u64::from(r))
        }
    }
}

/// Adds what is at the far end of a line, and the way on to the square.
fn push_end(sheet: &mut Sheet, missed: bool, left: bool) -> Result<(), NoMemory>
    ensures { OnOk result (sheet.new ≡ sheet.old ++ head_bytes missed left) }
{
    if missed {
        sheet.push(b"m-4-4l8 8m0-8l-8 8m4-4H")
    } else if left {
        sheet.push(b"l6-3v6zH")
    } else {
        sheet.push(b"l-6-3v6zH")
    }
}

/// Adds the square at its near end.
fn push_square(sheet: &mut Sheet, left: bool) -> Result<(), NoMemory>
    ensures { OnOk result (sheet.new ≡ sheet.old ++ square_bytes left) }
{
    if left {
        sheet.push(b"v3h6v-6h-6v3")
    } else {
        sheet.push(b"v3h-6v-6h6v3")
    }
}

/// Adds a part.
fn push_part(sheet: &mut Sheet, part: Part<'_>) -> Result<(), NoMemory>
    ensures { OnOk result (sheet.new ≡ sheet.old ++ part_bytes part.entry) }
{
    match part {
        Part::Words(words) => sheet.push(words),
        Part::Text(words) => sheet.push_escaped(words),
        Part::Number(number) => sheet.push_number(number),
        Part::Class(look) => push_class(sheet, look),
        Part::Head(missed, left) => push_end(sheet, missed, left),
        Part::Square(left) => push_square(sheet, left),
    }
}

/// Adds parts, one after another.
pub fn push_parts(sheet: &mut Sheet, parts: &[Part<'_>]) -> Result<(), NoMemory>
    ensures { OnOk result (sheet.new ≡ sheet.old ++ parts_bytes parts.now) }
{
    for part in parts {
        push_part(sheet, *part)?;
    }
    Ok(())
}

/// Adds a line.
fn push_line(sheet: &mut Sheet, look: Look, way: Way) -> Result<(), NoMemory>
    ensures { OnOk result (sheet.new ≡ sheet.old ++ shape_piece (Line look way)) }
{
    match way {
        Way::Across {
            x,
            y,
            to,
            missed,
            left,
        } => push_parts(
            sheet,
            &[
                Part::Words(b"<path class='"),
                Part::Class(look),
                Part::Words(b"' d='M"),
                Part::Number(to),
                Part::Words(b" "),
                Part::Number(y),
                Part::Head(missed, left),
                Part::Number(x),
                Part::Square(left),
                Part::Words(b"'/>\n"),
            ],
        ),
        Way::Cross { x, y } => push_parts(
            sheet,
            &[
                Part::Words(b"<path class='"),
                Part::Class(look),
                Part::Words(b"' d='M"),
                Part::Number(x),
                Part::Words(b" "),
                Part::Number(y),
                Part::Words(b"l8 8m0-8l-8 8'/>\n"),
            ],
        ),
        Way::Level { x, y } => push_parts(
            sheet,
            &[
                Part::Words(b"<path class='"),
                Part::Class(look),
                Part::Words(b"' d='M"),
                Part::Number(x),
                Part::Words(b" "),
                Part::Number(y),
                Part::Words(b"h16'/>\n"),
            ],
        ),
    }
}

/// Adds a shape.
pub fn push_shape(sheet: &mut Sheet, shape: Shape) -> Result<(), NoMemory>
    ensures { OnOk result (sheet.new ≡ sheet.old ++ shape_piece shape) }
{
    match shape {
        Shape::Bar { look, x, y, width } => push_parts(
            sheet,
            &[
                Part::Words(b"<rect class='"),
                Part::Class(look),
                Part::Words(b"' x='"),
                Part::Number(x),
                Part::Words(b"' y='"),
                Part::Number(y),
                Part::Words(b"' width='"),
                Part::Number(width),
                Part::Words(b"' height='100%'/>\n"),
            ],
        ),
        Shape::Block {
            look,
            x,
            y,
            width,
            height,
        } => push_parts(
            sheet,
            &[
                Part::Words(b"<rect class='"),
                Part::Class(look),
                Part::Words(b"' x='"),
                Part::Number(x),
                Part::Words(b"' y='"),
                Part::Number(y),
                Part::Words(b"' width='"),
                Part::Number(width),
                Part::Words(b"' height='"),
                Part::Number(height),
                Part::Words(b"'/>\n"),
            ],
        ),
        Shape::Line { look, way } => push_line(sheet, look, way),
        Shape::Dot { look, x, y } => push_parts(
            sheet,
            &[
                Part::Words(b"<circle class='"),
                Part::Class(look),
                Part::Words(b"' cx='"),
                Part::Number(x),
                Part::Words(b"' cy='"),
                Part::Number(y),
                Part::Words(b"' r='3'/>\n"),
            ],
        ),
    }
}

/// Adds words.
pub fn push_text(
    sheet: &mut Sheet,
    look: Look,
    x: u64,
    y: u64,
    words: &[u8],
) -> Result<(), NoMemory>
    ensures { OnOk result (sheet.new ≡ sheet.old ++ text_piece look x y words.now) }
{
    push_parts(
        sheet,
        &[
            Part::Words(b"<text class='"),
            Part::Class(look),
            Part::Words(b"' x='"),
            Part::Number(x),
            Part::Words(b"' y='"),
            Part::Number(y),
            Part::Words(b"'>"),
            Part::Text(words),
            Part::Words(b"</text>\n"),
        ],
    )
}
