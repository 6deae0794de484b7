//! What stands above the lanes: how a picture looks, what it is of, and its legend.
ghost use Rattle.std.specs.Prelude.{◌≡◌, ◌++◌, ◌+◌, ◌<◌, ◌≤◌, length, OnOk};
ghost use Rattle.mu_picture.specs.Drawing.{brief_words as brief_words_of, facts_words, hatching, head_pieces, legend, legend_of_bars, legend_of_lanes, legend_of_lines, sample_block, sample_cross, sample_dot, sample_level, sample_line, sample_piece, style, title};

use crate::pictures::Picture;
use crate::shapes::{Look, Part, Shape, Way, push_parts, push_shape, push_text};
use crate::sheet::Sheet;
use mu_model::{Config, NoMemory};
use std::alloc::Global;

/// Adds what the picture is, for who doesn't see it.
fn push_title(sheet: &mut Sheet) -> Result<(), NoMemory>
    ensures { OnOk result (sheet.new ≡ sheet.old ++ title) }
{
    sheet.push(b"<title>A run of replicas: their steps from top to bottom</title>\n")
}

/// Adds how text and shapes look.
fn push_style(sheet: &mut Sheet) -> Result<(), NoMemory>
    ensures { OnOk result (sheet.new ≡ sheet.old ++ style) }
{
    sheet.push(
        b"<style>text{font:9px sans-serif;paint-order:stroke;stroke:#fff;stroke-width:5px}\
          .t{font-family:monospace}.s{text-anchor:end;fill:#555}path{stroke:#000;fill:none}\
          rect,circle{stroke:#000;stroke-width:.6}.w,.l,.z{stroke:none}.w,.c{fill:#fff}\
          .l{fill:#888}.z{fill:url(#z)}.f{fill:#fff;stroke:#888;stroke-dasharray:2 2}\
          .p,.k{fill:#000}.q{stroke-dasharray:4 2}.k,.x,.r{stroke-width:2}\
          .a{stroke:#333;stroke-dasharray:2 2}.e{fill:#c00}.r{stroke:#c00}\
          .o0{fill:#e69f00}.o1{fill:#56b4e9}.o2{fill:#009e73}.o3{fill:#f0e442}\
          .o4{fill:#0072b2}.o5{fill:#d55e00}.o6{fill:#cc79a7}</style>\n",
    )
}

/// Adds how a pause is hatched.
fn push_hatching(sheet: &mut Sheet) -> Result<(), NoMemory>
    ensures { OnOk result (sheet.new ≡ sheet.old ++ hatching) }
{
    sheet.push(
        b"<pattern id='z' patternUnits='userSpaceOnUse' width='4' height='4'>\
          <path d='M0 4l4-4'/></pattern>\n",
    )
}

/// Adds a sample to the legend, and its words.
fn push_sample(
    sheet: &mut Sheet,
    x: u64,
    y: u64,
    shape: Shape,
    words: &[u8],
) -> Result<(), NoMemory>
    ensures { OnOk result (sheet.new ≡ sheet.old ++ sample_piece x y shape words.now) }
{
    push_shape(sheet, shape)?;
    push_text(sheet, Look::Label, x, y, words)
}

/// A line in the legend.
fn sample(look: Look, missed: bool, x: u64, y: u64) -> Shape
    requires { x < 1000 }
    ensures { result ≡ sample_line look missed x y }
{
    let to = if missed { x + 14 } else { x + 18 };
    Shape::Line {
        look,
        way: Way::Across {
            x,
            y,
            to,
            missed,
            left: false,
        },
    }
}

/// A block in the legend.
fn block(look: Look, x: u64, y: u64, width: u64) -> Shape
    ensures { result ≡ sample_block look x y width }
{
    Shape::Block {
        look,
        x,
        y,
        width,
        height: 8,
    }
}

/// A dot in the legend.
fn dot(look: Look, x: u64, y: u64) -> Shape
    ensures { result ≡ sample_dot look x y }
{
    Shape::Dot { look, x, y }
}

/// A cross in the legend.
fn cross(x: u64, y: u64) -> Shape
    ensures { result ≡ sample_cross x y }
{
    Shape::Line {
        look: Look::Sign,
        way: Way::Cross { x, y },
    }
}

/// The end of a lane in the legend, whose replica has finished.
fn level(x: u64, y: u64) -> Shape
    ensures { result ≡ sample_level x y }
{
    Shape::Line {
        look: Look::Sign,
        way: Way::Level { x, y },
    }
}

/// Adds samples of lines and dots.
fn push_lines(sheet: &mut Sheet) -> Result<(), NoMemory>
    ensures { OnOk result (sheet.new ≡ sheet.old ++ legend_of_lines) }
{
    push_sample(sheet, 36, 33, sample(Look::Asks, false, 14, 30), b"asks")?;
    push_sample(
        sheet,
        146,
        33,
        sample(Look::Landed, false, 124, 30),
        b"put landed",
    )?;
    push_sample(
        sheet,
        256,
        33,
        sample(Look::Missed, true, 234, 30),
        b"put missed",
    )?;
    push_sample(
        sheet,
        366,
        33,
        sample(Look::Commits, false, 344, 30),
        b"put commits",
    )?;
    push_sample(sheet, 476, 33, dot(Look::Landed, 460, 30), b"learns")?;
    push_sample(sheet, 36, 47, dot(Look::Closing, 20, 44), b"applied to")
}

/// Adds samples of bands, and of the ends of lanes.
fn push_lanes(sheet: &mut Sheet) -> Result<(), NoMemory>
    ensures { OnOk result (sheet.new ≡ sheet.old ++ legend_of_lanes) }
{
    push_sample(sheet, 146, 47, block(Look::Of(0), 124, 40, 12), b"leads")?;
    push_sample(sheet, 256, 47, block(Look::Hatched, 234, 40, 12), b"pauses")?;
    push_sample(sheet, 366, 47, cross(346, 40), b"stops, outrun")?;
    push_sample(sheet, 476, 47, level(452, 44), b"has finished")
}

/// Adds samples of bars of regions, and of the others.
fn push_bars(sheet: &mut Sheet) -> Result<(), NoMemory>
    ensures { OnOk result (sheet.new ≡ sheet.old ++ legend_of_bars) }
{
    push_sample(
        sheet,
        36,
        61,
        block(Look::Of(0), 16, 54, 8),
        b"owns the region",
    )?;
    push_sample(sheet, 146, 61, block(Look::Closing, 126, 54, 8), b"closing")?;
    push_sample(
        sheet,
        256,
        61,
        block(Look::Of(0), 239, 54, 3),
        b"whom it names",
    )?;
    push_sample(
        sheet,
        366,
        61,
        block(Look::Folded, 340, 54, 22),
        b"folded steps",
    )
}

/// That a picture is in brief, if it is.
fn brief_words(brief: bool) -> &'static [u8]
    ensures { result.now ≡ brief_words_of brief }
{
    if brief { b", in brief" } else { b"" }
}

/// How many steps are drawn.
fn drawn_in(picture: &Picture) -> u64
    ensures { result ≡ length picture.now.marks.items }
{
    picture.marks.len() as u64
}

/// Adds what a picture is of: the settings, and how many of its steps are drawn.
fn push_facts(sheet: &mut Sheet, config: &Config, picture: &Picture) -> Result<(), NoMemory>
    requires { picture.now.first ≤ picture.now.end }
    ensures { OnOk result (sheet.new ≡ sheet.old ++ facts_words config.now picture.now) }
{
    push_parts(
        sheet,
        &[
            Part::Words(b"version "),
            Part::Number(u64::from(config.version)),
            Part::Words(b", "),
            Part::Number(u64::from(config.replicas)),
            Part::Words(b" replicas, ring "),
            Part::Number(u64::from(config.ring)),
            Part::Words(b": "),
            Part::Number(drawn_in(picture)),
            Part::Words(b" of "),
            Part::Number(u64::from(picture.end - picture.first)),
            Part::Words(b" steps drawn"),
            Part::Words(brief_words(picture.brief)),
            Part::Words(b", from step "),
            Part::Number(u64::from(picture.first)),
            Part::Words(b" on"),
        ],
    )
}

/// Adds the legend.
fn push_legend(sheet: &mut Sheet) -> Result<(), NoMemory>
    ensures { OnOk result (sheet.new ≡ sheet.old ++ legend) }
{
    push_lines(sheet)?;
    push_lanes(sheet)?;
    push_bars(sheet)
}

/// Adds what stands above the lanes, in a document of this width.
pub fn push_head(
    sheet: &mut Sheet,
    alloc: Global,
    config: &Config,
    picture: &Picture,
    width: u64,
) -> Result<(), NoMemory>
    requires { picture.now.first ≤ picture.now.end }
    ensures { OnOk result (sheet.new
        ≡ sheet.old ++ head_pieces config.now picture.now width) }
{
    let mut facts = Sheet::new(alloc);
    push_facts(&mut facts, config, picture)?;
    let ground = Shape::Bar {
        look: Look::Ground,
        x: 0,
        y: 0,
        width,
    };
    push_title(sheet)?;
    push_style(sheet)?;
    push_hatching(sheet)?;
    push_shape(sheet, ground)?;
    push_text(sheet, Look::Label, 4, 14, facts.as_slice())?;
    push_legend(sheet)
}
