//! The whole picture.

ghost use Rattle.std.specs.Prelude.{◌≡◌, ◌<◌, ◌≤◌, [], map, IfOk, OnOk, string_bytes};
ghost use Rattle.std.specs.List.{flat_map};
ghost use Rattle.mencius_draw.specs.Layout.{lines_of, outline};
ghost use Rattle.mencius_draw.specs.Picture.{IsPicture, arrow_by, elements_of, groups_by, servers_of};
ghost use Rattle.mencius_draw.specs.Svg.{Adds, IsSvg, IsText, Keeps};

use crate::feet::push_foot;
use crate::frame::{begun_with_head, push_key, push_lanes, push_rule};
use crate::layout::{SentMessage, Shape, end_of, first_line, sents_of, shapes_of};
use crate::marks::{push_shape, reach_of};
use crate::options::{MOST_LEVELS, Options, TooLarge};
use crate::places::width_of;
use crate::ways::push_way;
use crate::words::{number, word};
use std::alloc::{AllocError, Global};

// Returns how far to the right the labels of the shapes reach, in the picture's units, or 0 if no label is drawn.
fn greatest_reach(alloc: Global, servers: u32, shapes: &[Shape]) -> Result<usize, AllocError>
    ensures { IfOk result (λ reach. reach < 10000) }
{
    let mut reach = 0usize;
    for shape in shapes {
        reach = reach.max(reach_of(alloc, servers, shape)?);
    }
    Ok(reach)
}

fn push_rules(
    alloc: Global,
    text: &mut String,
    width: usize,
    shapes: &[Shape],
) -> Result<(), AllocError>
    ensures { OnOk result (Keeps (string_bytes text.old) (string_bytes text.new)) }
{
    for shape in shapes {
        push_rule(alloc, text, width, shape)?;
    }
    Ok(())
}

fn push_ways(
    alloc: Global,
    text: &mut String,
    servers: u32,
    sents: &[SentMessage],
    shapes: &[Shape],
) -> Result<(), AllocError>
    ensures { OnOk result (Adds [] (flat_map (arrow_by servers sents.now) (map outline shapes.now))
        (string_bytes text.old) (string_bytes text.new)) }
{
    for shape in shapes {
        push_way(alloc, text, servers, sents, shape)?;
    }
    Ok(())
}

fn push_shapes(
    alloc: Global,
    text: &mut String,
    servers: u32,
    sents: &[SentMessage],
    shapes: &[Shape],
) -> Result<(), AllocError>
    ensures { OnOk result (Adds [] (flat_map (groups_by servers) (map outline shapes.now))
        (string_bytes text.old) (string_bytes text.new)) }
{
    for shape in shapes {
        push_shape(alloc, text, servers, sents, shape)?;
    }
    Ok(())
}

fn push_feet(
    alloc: Global,
    text: &mut String,
    servers: u32,
    levels: usize,
    shapes: &[Shape],
) -> Result<(), AllocError>
    ensures { OnOk result (Keeps (string_bytes text.old) (string_bytes text.new)) }
{
    for shape in shapes {
        push_foot(alloc, text, servers, levels, shapes, shape)?;
    }
    Ok(())
}

// Returns the number of servers in the first line of a trace, but at most 7. A picture has room for seven lanes.
fn servers_of(trace: &str) -> u32
    ensures { result ≡ servers_of (lines_of trace.now) }
{
    number(word(first_line(trace), 1)).min(7)
}

// Returns the text of a picture without its end tag.
fn inner_text(
    alloc: Global,
    options: &Options,
    servers: u32,
    levels: usize,
    shapes: &[Shape],
) -> Result<String, AllocError>
    requires { servers ≤ 7 }
    ensures { IfOk result (λ text. IsText (string_bytes text) [] (elements_of servers (map outline shapes.now))) }
{
    let sents = sents_of(alloc, shapes)?;
    let width = width_of(servers, greatest_reach(alloc, servers, shapes)?);
    let mut text = begun_with_head(alloc, options.scheme, servers, width, levels)?;
    push_rules(alloc, &mut text, width, shapes)?;
    push_lanes(alloc, &mut text, servers, levels)?;
    push_ways(alloc, &mut text, servers, sents.as_slice(), shapes)?;
    push_shapes(alloc, &mut text, servers, sents.as_slice(), shapes)?;
    push_feet(alloc, &mut text, servers, levels, shapes)?;
    push_key(&mut text, levels)?;
    Ok(text)
}

fn picture_text(
    alloc: Global,
    options: &Options,
    servers: u32,
    levels: usize,
    shapes: &[Shape],
) -> Result<String, AllocError>
    requires { servers ≤ 7 }
    ensures { IfOk result (λ text. IsSvg (string_bytes text) (elements_of servers (map outline shapes.now))) }
{
    let mut text = inner_text(alloc, options, servers, levels, shapes)?;
    text.push_str("</svg>\n")?;
    Ok(text)
}

/// Returns the picture of a trace, as the text of an SVG file. Each server has a lane, and time runs downwards. An
/// event takes one level, and another for each outcome after the first. Each delivery and each loss has an arrow.
///
/// The event at place I is one element `<g id='eI'>`, and message number K is one element `<g id='mK'>`. An event, its
/// outcomes and its arrow have the place of the event as `data-e`. Only the events from `first` to `last` are drawn.
/// The foot shows the end of the whole trace. A line is skipped if its first words begin no line that a picture shows.
///
/// If the part takes more than `MOST_LEVELS` levels, the call returns `TooLarge` with the number of levels. This does
/// not allocate. A picture allocates memory for its text and for each line of the events that it draws. Apart from
/// these lines, it allocates memory for each message, each executed instance and each line about the end. It takes time
/// for each line of the trace.
pub fn picture(
    alloc: Global,
    trace: &str,
    options: &Options,
) -> Result<Result<String, TooLarge>, AllocError>
    ensures { IfOk result (λ x. IsPicture options.now trace.now x) }
{
    let end = end_of(options, trace);
    if MOST_LEVELS < end.next {
        return Ok(Err(TooLarge { levels: end.next }));
    }
    let shapes = shapes_of(alloc, options, trace)?;
    let servers = servers_of(trace);
    Ok(Ok(picture_text(alloc, options, servers, end.next, shapes.as_slice())?))
}
