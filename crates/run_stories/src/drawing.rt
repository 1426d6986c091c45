//! The drawing of a timeline: a picture in SVG that needs no other file. It has a lane for each
//! service name, cut by shades (what the service is), a legend of the shades above, and an axis
//! with moments below.
use crate::intervals::Interval;
use crate::scale::{MARKS, Scale, WIDTH};
use crate::shade::Shade;
use s6_events::{At, Name};
use std::io::{self, Write};

/// The shades that are drawn, in the order of the legend.
const SHADES: &[Shade] = &[
    Shade::Up,
    Shade::Ready,
    Shade::Finishing,
    Shade::Pausing,
    Shade::Down,
    Shade::Failed,
];

/// The height of the legend, above the lanes, in pixels.
const TOP: u64 = 40;

/// The height of a lane, in pixels.
const LANE: u64 = 22;

/// The height of the axis, below the lanes, in pixels.
const BOTTOM: u64 = 44;

/// The width of the lanes, in pixels: `WIDTH` has it in tenths.
const LANES_WIDTH: u64 = WIDTH / 10;

/// The free space to the right of the lanes, in pixels.
const RIGHT: u64 = 60;

/// The most width of a letter of a name, in pixels.
const LETTER: u64 = 8;

/// The free space beside the names, in pixels.
const MARGIN: u64 = 20;

/// How far from the left the lanes begin at the least, in pixels.
const LEFT: u64 = 60;

/// How far the words of the legend are apart, in pixels.
const LEGEND_STEP: u64 = 150;

/// Where a drawing has its parts, in pixels.
#[derive(Clone, Copy)]
pub struct Layout {
    // Where the lanes begin.
    left: u64,
    // Where the axis is.
    axis: u64,
}

impl Layout {
    /// The layout for `lanes` lanes, whose longest name has `letters` letters: the names stand left
    /// of the lanes, the legend above them.
    pub fn of(lanes: usize, letters: usize) -> Layout {
        let left = (letters as u64).saturating_mul(LETTER);
        let height = (lanes as u64).saturating_mul(LANE);
        Layout {
            left: left.saturating_add(MARGIN).max(LEFT),
            axis: height.saturating_add(TOP),
        }
    }
}

// The colour of a shade: those of Okabe and Ito, which colour-blind readers tell apart, and a grey.
fn colour_of(shade: Shade) -> &'static str {
    match shade {
        Shade::Absent => "#FFFFFF",
        Shade::Up => "#56B4E9",
        Shade::Ready => "#009E73",
        Shade::Finishing => "#CC79A7",
        Shade::Pausing => "#F0E442",
        Shade::Down => "#999999",
        Shade::Failed => "#D55E00",
    }
}

// How thick the line of a shade is, in pixels, so that shades can be told apart without their
// colours too.
fn thickness_of(shade: Shade) -> u64 {
    match shade {
        Shade::Absent => 0,
        Shade::Up => 11,
        Shade::Ready | Shade::Failed => 16,
        Shade::Finishing => 8,
        Shade::Pausing => 5,
        Shade::Down => 2,
    }
}

// The word of a shade in the legend.
fn word_of(shade: Shade) -> &'static str {
    match shade {
        Shade::Absent => "",
        Shade::Up => "up",
        Shade::Ready => "ready",
        Shade::Finishing => "finishing",
        Shade::Pausing => "pause",
        Shade::Down => "down",
        Shade::Failed => "failed for good",
    }
}

// Writes the beginning of the picture: its size, its fonts, its title, and a white ground.
fn write_head<W: Write>(writer: &mut W, layout: Layout) -> io::Result<()> {
    // To the right of the lanes some space is left (`RIGHT`), and below the axis there is room for
    // its words (`BOTTOM`).
    let width = layout.left.saturating_add(LANES_WIDTH + RIGHT);
    let height = layout.axis.saturating_add(BOTTOM);
    write!(
        writer,
        "<svg xmlns=\"http://www.w3.org/2000/svg\" width=\"{width}\" height=\"{height}\" viewBox=\"0 0 {width} {height}\""
    )?;
    writer.write_all(b" font-family=\"monospace\" font-size=\"12\">\n")?;
    writer.write_all(b"<title>What each service was, over time</title>\n")?;
    write!(
        writer,
        "<rect width=\"{width}\" height=\"{height}\" fill=\"#FFFFFF\"/>\n"
    )
}

// Writes an entry of the legend, which begins at `left` pixels: a line of this shade, and its word.
fn write_key<W: Write>(writer: &mut W, left: u64, shade: Shade) -> io::Result<()> {
    let (colour, thickness, word) = (colour_of(shade), thickness_of(shade), word_of(shade));
    write!(
        writer,
        "<path stroke=\"{colour}\" stroke-width=\"{thickness}\" d=\"M{left} 18h16\"/>"
    )?;
    // The word stands behind the line, which is 16 pixels long.
    let text = left.saturating_add(22);
    write!(writer, "<text x=\"{text}\" y=\"22\">{word}</text>\n")
}

// Writes the legend: an entry for each shade, from where the lanes begin, at even distances.
fn write_legend<W: Write>(writer: &mut W, layout: Layout) -> io::Result<()> {
    let mut left = layout.left;
    for shade in SHADES {
        write_key(writer, left, *shade)?;
        left = left.saturating_add(LEGEND_STEP);
    }
    Ok(())
}

// Writes a mark of the axis: a line through all lanes, and the moment below it, in seconds. It has
// three decimals where the `step` from mark to mark, in milliseconds, is less than a second.
fn write_mark<W: Write>(
    writer: &mut W,
    layout: Layout,
    scale: &Scale,
    step: u64,
    at: At,
) -> io::Result<()> {
    // The scale gives tenths of a pixel.
    let x = layout.left.saturating_add(scale.place(at) / 10);
    // The line goes from the top of the lanes to 6 pixels below the axis.
    let height = layout.axis.saturating_sub(TOP).saturating_add(6);
    let y = layout.axis.saturating_add(20);
    write!(
        writer,
        "<path stroke=\"#CCCCCC\" d=\"M{x} {TOP}v{height}\"/><text x=\"{x}\" y=\"{y}\" text-anchor=\"middle\">"
    )?;
    let (seconds, millis) = (at.millis() / 1000, at.millis() % 1000);
    if step < 1000 {
        write!(writer, "{seconds}.{millis:03}</text>\n")
    } else {
        write!(writer, "{seconds}</text>\n")
    }
}

// Writes the marks of the axis, at multiples of their step, up to the last moment of the scale.
fn write_marks<W: Write>(writer: &mut W, layout: Layout, scale: &Scale) -> io::Result<()> {
    let step = scale.mark_step();
    let mut millis = scale.first_mark(step);
    for _ in 0..MARKS {
        match At::new(millis) {
            Some(at) if at <= scale.last => write_mark(writer, layout, scale, step, at)?,
            _ => return Ok(()),
        }
        millis = millis.saturating_add(step);
    }
    Ok(())
}

/// Writes all of the picture but the lanes and its end: the legend, and the time along the bottom
/// with its unit in the middle.
pub fn write_frame<W: Write>(writer: &mut W, layout: Layout, scale: &Scale) -> io::Result<()> {
    write_head(writer, layout)?;
    write_legend(writer, layout)?;
    write_marks(writer, layout, scale)?;
    // The unit stands below the middle of the axis.
    let (x, y) = (
        layout.left.saturating_add(LANES_WIDTH / 2),
        layout.axis.saturating_add(36),
    );
    write!(
        writer,
        "<text x=\"{x}\" y=\"{y}\" text-anchor=\"middle\">seconds</text>\n"
    )
}

// Writes a number of tenths (of a pixel) as a decimal number.
fn write_tenths<W: Write>(writer: &mut W, tenths: u64) -> io::Result<()> {
    let (whole, tenth) = (tenths / 10, tenths % 10);
    if tenth == 0 {
        write!(writer, "{whole}")
    } else {
        write!(writer, "{whole}.{tenth}")
    }
}

// Writes an interval, whose places are in tenths of a pixel, as a part of a path: a move (M) to its
// beginning, and a line (h) to its end.
fn write_interval<W: Write>(writer: &mut W, interval: &Interval) -> io::Result<()> {
    writer.write_all(b"M")?;
    write_tenths(writer, interval.from)?;
    writer.write_all(b" 0h")?;
    write_tenths(writer, interval.to.saturating_sub(interval.from))
}

// Writes the intervals of this shade as one line with gaps; nothing where there is no such
// interval.
fn write_shade<W: Write>(writer: &mut W, intervals: &[Interval], shade: Shade) -> io::Result<()> {
    if !intervals.iter().any(|interval| interval.shade == shade) {
        return Ok(());
    }
    let (colour, thickness) = (colour_of(shade), thickness_of(shade));
    write!(
        writer,
        "<path stroke=\"{colour}\" stroke-width=\"{thickness}\" d=\""
    )?;
    for interval in intervals {
        if interval.shade == shade {
            write_interval(writer, interval)?;
        }
    }
    writer.write_all(b"\"/>\n")
}

/// Writes a lane: its name at the left, and its intervals, those of each shade as one path. `place`
/// is its number from the top, from 0.
pub fn write_lane<W: Write>(
    writer: &mut W,
    layout: Layout,
    place: usize,
    name: &Name,
    intervals: &[Interval],
) -> io::Result<()> {
    let left = layout.left;
    // The height at which its lines are drawn: below the legend and the lanes above it.
    let middle = (place as u64)
        .saturating_mul(LANE)
        .saturating_add(TOP + LANE / 2);
    write!(
        writer,
        "<g class=\"lane\" transform=\"translate({left} {middle})\">\n"
    )?;
    writer.write_all(b"<text x=\"-8\" y=\"4\" text-anchor=\"end\">")?;
    // A name has no byte that XML escapes.
    writer.write_all(name.as_bytes())?;
    writer.write_all(b"</text>\n")?;
    for shade in SHADES {
        write_shade(writer, intervals, *shade)?;
    }
    writer.write_all(b"</g>\n")
}

/// Writes the end of the picture.
pub fn write_end<W: Write>(writer: &mut W) -> io::Result<()> {
    writer.write_all(b"</svg>\n")
}
