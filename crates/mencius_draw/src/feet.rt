//! The cards below the lanes. Each card shows the progress of a server at the end of the trace.

ghost use Rattle.std.specs.Prelude.{◌≡◌, OnOk, string_bytes};
ghost use Rattle.mencius_draw.specs.Svg.{Keeps};

use crate::facts::{Fact, Note};
use crate::labels::shown_of;
use crate::layout::Shape;
use crate::places::{lane_of, y_of};
use crate::svg::{Place, push_card, push_end, push_label, push_leaf, push_words};
use crate::words::{is_word, number, push_shown, rest, word};
use std::alloc::{AllocError, Global};

// Adds the command that the line reports as executed at `server`. Adds no text for a no-op or any other line.
fn push_executed(text: &mut String, server: u32, shape: &Shape) -> Result<(), AllocError> {
    match shape.fact {
        Fact::Outcome(Note::Executed(_)) => {
            let value = word(shape.line, 5);
            if number(word(shape.line, 1)) == server && !is_word(value, "no-op") {
                text.push(' ')?;
                push_shown(text, value)?;
            }
            Ok(())
        }
        _ => Ok(()),
    }
}

// Adds a dash, which stands for an empty list.
fn push_dash_if_none(text: &mut String, is_none: bool) -> Result<(), AllocError> {
    if is_none {
        text.push_str(" -")?;
    }
    Ok(())
}

// Returns the commands that a server executed, in order, each after a space.
fn history_of(alloc: Global, server: u32, shapes: &[Shape]) -> Result<String, AllocError> {
    let mut text = String::new(alloc);
    for shape in shapes {
        push_executed(&mut text, server, shape)?;
    }
    let is_none = text.is_empty();
    push_dash_if_none(&mut text, is_none)?;
    Ok(text)
}

// Adds the number of the message if the line reports that `wanted` neither heard nor lost it.
fn push_unheard_at(text: &mut String, wanted: u32, shape: &Shape) -> Result<(), AllocError> {
    match shape.fact {
        Fact::Unheard { number, server } if server == wanted => write!(text, " {number}"),
        _ => Ok(()),
    }
}

// Returns the numbers of the messages that a server neither heard nor lost, each after a space.
fn unheard_of(alloc: Global, server: u32, shapes: &[Shape]) -> Result<String, AllocError> {
    let mut text = String::new(alloc);
    for shape in shapes {
        push_unheard_at(&mut text, server, shape)?;
    }
    let is_none = text.is_empty();
    push_dash_if_none(&mut text, is_none)?;
    Ok(text)
}

// Adds a line of a card, `y` units below its top.
fn push_at(alloc: Global, text: &mut String, y: u32, words: &str) -> Result<(), AllocError>
    ensures { OnOk result (Keeps (string_bytes text.old) (string_bytes text.new)) }
{
    let rest = format!(in alloc; " x='-86' y='{y}'")?;
    push_label(text, rest.as_str(), words)
}

// Adds the progress of a server.
fn push_progress(alloc: Global, text: &mut String, line: &[u8]) -> Result<(), AllocError>
    ensures { OnOk result (Keeps (string_bytes text.old) (string_bytes text.new)) }
{
    let front = shown_of(alloc, word(line, 3))?;
    let executed = shown_of(alloc, word(line, 5))?;
    let words = format!(in alloc; "front {front}, executed {executed}")?;
    push_at(alloc, text, 20, words.as_str())
}

fn push_history(
    alloc: Global,
    text: &mut String,
    server: u32,
    shapes: &[Shape],
) -> Result<(), AllocError>
    ensures { OnOk result (Keeps (string_bytes text.old) (string_bytes text.new)) }
{
    let history = history_of(alloc, server, shapes)?;
    let words = format!(in alloc; "history{history}")?;
    push_at(alloc, text, 39, words.as_str())
}

// Adds the commands that wait at a server.
fn push_waiting(alloc: Global, text: &mut String, line: &[u8]) -> Result<(), AllocError>
    ensures { OnOk result (Keeps (string_bytes text.old) (string_bytes text.new)) }
{
    let words = shown_of(alloc, rest(line, 8))?;
    push_at(alloc, text, 58, words.as_str())
}

fn push_unheard(
    alloc: Global,
    text: &mut String,
    server: u32,
    shapes: &[Shape],
) -> Result<(), AllocError>
    ensures { OnOk result (Keeps (string_bytes text.old) (string_bytes text.new)) }
{
    let unheard = unheard_of(alloc, server, shapes)?;
    let words = format!(in alloc; "unheard{unheard}")?;
    push_at(alloc, text, 77, words.as_str())
}

fn push_lines(
    alloc: Global,
    text: &mut String,
    shapes: &[Shape],
    line: &[u8],
    server: u32,
) -> Result<(), AllocError>
    ensures { OnOk result (Keeps (string_bytes text.old) (string_bytes text.new)) }
{
    push_progress(alloc, text, line)?;
    push_history(alloc, text, server, shapes)?;
    push_waiting(alloc, text, line)?;
    push_unheard(alloc, text, server, shapes)
}

fn push_foot_at(
    alloc: Global,
    text: &mut String,
    servers: u32,
    levels: usize,
    shapes: &[Shape],
    line: &[u8],
    server: u32,
) -> Result<(), AllocError>
    ensures { OnOk result (Keeps (string_bytes text.old) (string_bytes text.new)) }
{
    let place = Place {
        x: lane_of(servers, server),
        y: y_of(levels) + 4,
    };
    push_card(text, "foot", place)?;
    push_leaf(
        text,
        "rect class='card' x='-96' width='192' height='92' rx='8'",
    )?;
    push_lines(alloc, text, shapes, line, server)?;
    push_leaf(
        text,
        "rect x='64' y='6' width='28' height='80' fill='url(#fading)'",
    )?;
    push_end(text, "g")?;
    push_words(text, "\n")
}

/// Adds the card of a server if the line shows the server's progress at the end. Adds no text for any other line.
pub(crate) fn push_foot(
    alloc: Global,
    text: &mut String,
    servers: u32,
    levels: usize,
    shapes: &[Shape],
    shape: &Shape,
) -> Result<(), AllocError>
    ensures { OnOk result (Keeps (string_bytes text.old) (string_bytes text.new)) }
{
    match shape.fact {
        Fact::Closing(server) => {
            push_foot_at(alloc, text, servers, levels, shapes, shape.line, server)
        },
        _ => Ok(()),
    }
}
