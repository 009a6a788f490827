//! The position of each line of a trace in the picture.

ghost use Rattle.std.specs.Prelude.{◌≡◌, ◌++◌, [], ◌+◌, ◌-◌, ◌<◌, ◌^◌, map, IfOk, OnOk};
ghost use Rattle.std.specs.List.{cons_option, flat_map};
ghost use Rattle.mencius_draw.specs.Facts.{fact_of};
ghost use Rattle.mencius_draw.specs.Layout.{end_of, event_spot, is_drawn, if_needed, is_told_below, lines_of, next_line, outcome_spot, outline, sent_here, sents_of, shape_of, shapes_of, spot_after, start};

use crate::facts::{Fact, Kind, Note, fact_of};
use crate::options::Options;
use std::alloc::{AllocError, Global};

/// The position of a line in the picture, and the levels of the lines after it. Levels are counted downwards from 0.
#[derive(Clone, Copy, Drop)]
pub(crate) struct Spot {
    /// The place of the line's event in the schedule, counted from 0.
    pub(crate) place: u32,
    /// The server at which the line's event happens.
    pub(crate) server: u32,
    /// Whether the line's event is drawn.
    pub(crate) is_shown: bool,
    /// The level of the line's event.
    pub(crate) top: usize,
    /// The level of the line.
    pub(crate) level: usize,
    /// The level of the event's next outcome.
    pub(crate) free: usize,
    /// The level of the next event.
    pub(crate) next: usize,
}

/// A line of a trace, with its content and its position in the picture.
#[derive(Clone, Copy, Drop)]
pub(crate) struct Shape<'a> {
    pub(crate) line: &'a [u8],
    pub(crate) fact: Fact,
    pub(crate) spot: Spot,
}

/// A message that was sent, with the position of its line. For a Skip, `inst` is the first instance.
#[derive(Clone, Copy, Drop)]
pub(crate) struct SentMessage {
    pub(crate) number: u32,
    pub(crate) kind: Kind,
    pub(crate) from: u32,
    pub(crate) inst: u32,
    pub(crate) spot: Spot,
}

/// Returns the spot before the first line of a trace.
pub(crate) fn start() -> Spot
    ensures { result ≡ start }
{
    Spot {
        place: 0,
        server: 0,
        is_shown: false,
        top: 0,
        level: 0,
        free: 0,
        next: 0,
    }
}

fn is_drawn(options: &Options, place: u32) -> bool
    ensures { result ≡ is_drawn options.now place }
{
    options.first <= place && place <= options.last
}

// Returns the spot of a line with this fact, if `pen` is the spot of the line before. A drawn event begins at a level
// of its own. Its first outcome is at the same level, and each further outcome is one level lower.
#[tactic(auto, unfolding(crate::specs::Layout::spot_after))]
fn spot_after(options: &Options, pen: Spot, fact: Fact) -> Spot
    requires free { pen.free < 2 ^ 64 - 1 }
    requires next { pen.next < 2 ^ 64 - 1 }
    ensures { result ≡ spot_after options.now pen fact }
{
    match fact {
        Fact::Event { place, server, .. } => event_spot(
            pen,
            is_drawn(options, place),
            place,
            server,
        ),
        Fact::Sent { .. } | Fact::Outcome(_) => outcome_spot(pen),
        Fact::Closing(_) | Fact::Unheard { .. } | Fact::Other => pen,
    }
}

fn event_spot(pen: Spot, is_shown: bool, place: u32, server: u32) -> Spot
    requires { pen.next < 2 ^ 64 - 1 }
    ensures { result ≡ event_spot pen is_shown place server }
{
    let next = if is_shown { pen.next + 1 } else { pen.next };
    Spot {
        place,
        server,
        is_shown,
        top: pen.next,
        level: pen.next,
        free: pen.next,
        next,
    }
}

fn outcome_spot(pen: Spot) -> Spot
    requires { pen.free < 2 ^ 64 - 1 }
    ensures { result ≡ outcome_spot pen }
{
    if !pen.is_shown {
        return pen;
    }
    Spot {
        level: pen.free,
        free: pen.free + 1,
        next: pen.free + 1,
        ..pen
    }
}

/// Returns the first line of a trace.
pub(crate) fn first_line<'a>(trace: &'a str) -> &'a [u8]
    ensures { result.now ≡ next_line (lines_of trace.now) }
{
    match trace.as_bytes().split(|b| *b == b'\n').next() {
        Some(line) => line,
        None => &[],
    }
}

/// Returns the spot after the last line of a trace. The meaning of a line depends on the line after it. So the loop
/// handles each line when it has read the next one.
pub(crate) fn end_of(options: &Options, trace: &str) -> Spot
    ensures { result ≡ end_of options.now start (lines_of trace.now) }
{
    let mut pen = start();
    let mut line: &[u8] = &[];
    for after in trace.as_bytes().split(|b| *b == b'\n') {
        pen = spot_after(options, pen, fact_of(line, after));
        line = after;
    }
    spot_after(options, pen, fact_of(line, &[]))
}

// Whether a picture needs a line even if its event is not drawn. The foot needs executions, closing lines and unheard
// messages. An arrow may need a message that was sent by any event.
fn is_told_below(fact: Fact) -> bool
    ensures { result ≡ is_told_below fact }
{
    match fact {
        Fact::Sent { .. }
        | Fact::Outcome(Note::Executed(_))
        | Fact::Closing(_)
        | Fact::Unheard { .. } => true,
        Fact::Event { .. } | Fact::Outcome(_) | Fact::Other => false,
    }
}

// Adds the shape of a line if a picture needs the line. Returns the spot of the line.
fn push_line<'a>(
    shapes: &mut Vec<Shape<'a>>,
    options: &Options,
    pen: Spot,
    line: &'a [u8],
    next: &[u8],
) -> Result<Spot, AllocError>
    requires free { pen.free < 2 ^ 64 - 1 }
    requires next { pen.next < 2 ^ 64 - 1 }
    ensures spot { IfOk result (λ spot. spot ≡ spot_after options.now pen (fact_of line.now next.now)) }
    ensures shapes { OnOk result (map outline shapes.new.items ≡ map outline shapes.old.items
        ++ if_needed (shape_of options.now pen line.now next.now)) }
{
    let fact = fact_of(line, next);
    let spot = spot_after(options, pen, fact);
    if spot.is_shown || is_told_below(fact) {
        shapes.push(Shape { line, fact, spot })?;
    }
    Ok(spot)
}

/// Returns the shapes of those lines that a picture of this part needs, in the order of the trace.
pub(crate) fn shapes_of<'a>(
    alloc: Global,
    options: &Options,
    trace: &'a str,
) -> Result<Vec<Shape<'a>>, AllocError>
    ensures { IfOk result (λ shapes. map outline shapes.items
        ≡ flat_map if_needed (shapes_of options.now start (lines_of trace.now))) }
{
    let mut shapes = Vec::new(alloc);
    let mut pen = start();
    let mut line: &[u8] = &[];
    for after in trace.as_bytes().split(|b| *b == b'\n') {
        pen = push_line(&mut shapes, options, pen, line, after)?;
        line = after;
    }
    push_line(&mut shapes, options, pen, line, &[])?;
    Ok(shapes)
}

fn sent_here(shape: &Shape) -> Option<SentMessage>
    ensures { result ≡ sent_here (outline shape.now) }
{
    match shape.fact {
        Fact::Sent {
            number,
            kind,
            from,
            inst,
        } => Some(SentMessage {
            number,
            kind,
            from,
            inst,
            spot: shape.spot,
        }),
        _ => None,
    }
}

fn push_sent_here(sents: &mut Vec<SentMessage>, shape: &Shape) -> Result<(), AllocError>
    ensures { OnOk result (sents.new.items
        ≡ sents.old.items ++ cons_option (sent_here (outline shape.now)) []) }
{
    if let Some(sent) = sent_here(shape) {
        sents.push(sent)?;
    }
    Ok(())
}

/// Returns the messages that were sent, in the order of the trace. A trace numbers them in this order, from 0.
pub(crate) fn sents_of(alloc: Global, shapes: &[Shape]) -> Result<Vec<SentMessage>, AllocError>
    ensures { IfOk result (λ sents. sents.items ≡ sents_of (map outline shapes.now)) }
{
    let mut sents = Vec::new(alloc);
    for shape in shapes {
        push_sent_here(&mut sents, shape)?;
    }
    Ok(sents)
}
