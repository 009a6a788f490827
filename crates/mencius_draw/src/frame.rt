//! The parts around the events. These are the head, the lanes, a rule above each event, and the key.

ghost use Rattle.std.specs.Prelude.{◌≡◌, ◌++◌, ◌<◌, ◌≤◌, [], IfOk, OnOk, codes, string_bytes};
ghost use Rattle.mencius_draw.specs.Svg.{IsText, Keeps};

use crate::colours::{COLOURS, DARK_COLOURS, RULES};
use crate::facts::Fact;
use crate::layout::Shape;
use crate::options::Scheme;
use crate::places::{lane_of, y_of};
use crate::svg::{
    Place, Tag, begun, push_card, push_definitions, push_element, push_end, push_entries,
    push_label, push_leaf, push_words,
};
use std::alloc::{AllocError, Global};

fn scheme_of(scheme: Scheme) -> &'static str {
    match scheme {
        Scheme::Both => "\nsvg{color-scheme:light dark}\n",
        Scheme::Light => "\nsvg{color-scheme:light}\n",
        Scheme::Dark => "\nsvg{color-scheme:dark}\n",
    }
}

fn colours_of(scheme: Scheme) -> &'static str {
    match scheme {
        Scheme::Both | Scheme::Light => COLOURS,
        Scheme::Dark => DARK_COLOURS,
    }
}

// Returns the rules of style, with the colours of a scheme.
fn style_of(alloc: Global, scheme: Scheme) -> Result<String, AllocError> {
    let preferred = scheme_of(scheme);
    let colours = colours_of(scheme);
    format!(in alloc; "{preferred}{RULES}{colours}")
}

// Returns the height of the picture. It leaves 250 units below the levels for the cards and the key.
fn height_of(levels: usize) -> usize {
    y_of(levels) + 250
}

fn begun_of_size(alloc: Global, width: usize, levels: usize) -> Result<String, AllocError>
    ensures { IfOk result (λ text. IsText (string_bytes text) [] []) }
{
    let height = height_of(levels);
    let rest = format!(in alloc;
        " width='{width}' height='{height}' viewBox='0 0 {width} {height}' role='img'"
    )?;
    begun(alloc, rest.as_str())
}

fn push_paper(
    alloc: Global,
    text: &mut String,
    width: usize,
    levels: usize,
) -> Result<(), AllocError>
    ensures { OnOk result (Keeps (string_bytes text.old) (string_bytes text.new)) }
{
    let height = height_of(levels);
    let rest = format!(in alloc; "rect class='paper' width='{width}' height='{height}'")?;
    push_leaf(text, rest.as_str())?;
    push_words(text, "\n")
}

fn push_title(alloc: Global, text: &mut String, servers: u32) -> Result<(), AllocError>
    ensures { OnOk result (Keeps (string_bytes text.old) (string_bytes text.new)) }
{
    let title = format!(in alloc; "Space-time diagram of a schedule; servers: {servers}")?;
    push_element(text, Tag::Title, "", title.as_str())
}

fn push_style(alloc: Global, text: &mut String, scheme: Scheme) -> Result<(), AllocError>
    ensures { OnOk result (Keeps (string_bytes text.old) (string_bytes text.new)) }
{
    let style = style_of(alloc, scheme)?;
    push_element(text, Tag::Style, "", style.as_str())
}

// Adds the parts of the head, after the start tag of the picture.
fn push_head(
    alloc: Global,
    text: &mut String,
    scheme: Scheme,
    servers: u32,
    width: usize,
    levels: usize,
) -> Result<(), AllocError>
    ensures { OnOk result (Keeps (string_bytes text.old) (string_bytes text.new)) }
{
    push_words(text, "\n")?;
    push_title(alloc, text, servers)?;
    push_words(text, "\n")?;
    push_style(alloc, text, scheme)?;
    push_words(text, "\n")?;
    push_definitions(text)?;
    push_paper(alloc, text, width, levels)
}

/// Returns the head, which comes before the first rule. It contains the title, the styles, the definitions and the
/// background.
pub(crate) fn begun_with_head(
    alloc: Global,
    scheme: Scheme,
    servers: u32,
    width: usize,
    levels: usize,
) -> Result<String, AllocError>
    ensures { IfOk result (λ text. IsText (string_bytes text) [] []) }
{
    let mut text = begun_of_size(alloc, width, levels)?;
    push_head(alloc, &mut text, scheme, servers, width, levels)?;
    Ok(text)
}

fn push_rule_at(
    alloc: Global,
    text: &mut String,
    width: usize,
    level: usize,
) -> Result<(), AllocError>
    ensures { OnOk result (Keeps (string_bytes text.old) (string_bytes text.new)) }
{
    let y = y_of(level) - 12;
    let rest = format!(in alloc; "path class='rule' d='M0 {y}H{width}'")?;
    push_leaf(text, rest.as_str())?;
    push_words(text, "\n")
}

/// Adds a rule above an event that is drawn. Adds no text for any other line.
pub(crate) fn push_rule(
    alloc: Global,
    text: &mut String,
    width: usize,
    shape: &Shape,
) -> Result<(), AllocError>
    ensures { OnOk result (Keeps (string_bytes text.old) (string_bytes text.new)) }
{
    if !shape.spot.is_shown {
        return Ok(());
    }
    match shape.fact {
        Fact::Event { .. } => push_rule_at(alloc, text, width, shape.spot.level),
        _ => Ok(()),
    }
}

fn push_name_box(alloc: Global, text: &mut String, server: u32) -> Result<(), AllocError>
    ensures { OnOk result (Keeps (string_bytes text.old) (string_bytes text.new)) }
{
    let rest = format!(in alloc;
        "rect class='t{server} s{server}' x='-62' y='14' width='124' height='44' rx='9'"
    )?;
    push_leaf(text, rest.as_str())
}

fn push_name(alloc: Global, text: &mut String, server: u32) -> Result<(), AllocError>
    ensures { OnOk result (Keeps (string_bytes text.old) (string_bytes text.new)) }
{
    let rest = format!(in alloc; " class='name f{server}' y='33'")?;
    push_server_label(alloc, text, rest.as_str(), server)
}

fn push_server_label(
    alloc: Global,
    text: &mut String,
    rest: &str,
    server: u32,
) -> Result<(), AllocError>
    ensures { OnOk result (Keeps (string_bytes text.old) (string_bytes text.new)) }
{
    let name = format!(in alloc; "server {server}")?;
    push_label(text, rest, name.as_str())
}

// Adds the first instances that a server owns.
fn push_owns(alloc: Global, text: &mut String, servers: u32, server: u32) -> Result<(), AllocError>
    requires small { server < servers }
    requires few { servers ≤ 7 }
    ensures { OnOk result (Keeps (string_bytes text.old) (string_bytes text.new)) }
{
    let next = server + servers;
    let owns = format!(in alloc; "owns {server}, {next}, ..")?;
    push_label(text, " class='owns' y='49'", owns.as_str())
}

fn push_line(alloc: Global, text: &mut String, levels: usize) -> Result<(), AllocError>
    ensures { OnOk result (Keeps (string_bytes text.old) (string_bytes text.new)) }
{
    let y = y_of(levels);
    let rest = format!(in alloc; "path class='line' d='M0 56V{y}'")?;
    push_leaf(text, rest.as_str())
}

// Adds a lane, with the name of its server at the top.
fn push_lane(
    alloc: Global,
    text: &mut String,
    servers: u32,
    levels: usize,
    server: u32,
) -> Result<(), AllocError>
    requires small { server < servers }
    requires few { servers ≤ 7 }
    ensures { OnOk result (Keeps (string_bytes text.old) (string_bytes text.new)) }
{
    let x = lane_of(servers, server);
    push_card(text, "lane", Place { x, y: 0 })?;
    push_line(alloc, text, levels)?;
    push_name_box(alloc, text, server)?;
    push_name(alloc, text, server)?;
    push_owns(alloc, text, servers, server)?;
    push_end(text, "g")?;
    push_words(text, "\n")
}

/// Adds a lane for each server.
pub(crate) fn push_lanes(
    alloc: Global,
    text: &mut String,
    servers: u32,
    levels: usize,
) -> Result<(), AllocError>
    requires { servers ≤ 7 }
    ensures { OnOk result (Keeps (string_bytes text.old) (string_bytes text.new)) }
{
    for server in 0..servers {
        push_lane(alloc, text, servers, levels, server)?;
    }
    Ok(())
}

/// Adds the key, which explains the lines, the points, the marks and the colours.
pub(crate) fn push_key(text: &mut String, levels: usize) -> Result<(), AllocError>
    ensures { OnOk result (Keeps (string_bytes text.old) (string_bytes text.new)) }
{
    let y = y_of(levels) + 136;
    push_card(text, "key", Place { x: 16, y })?;
    push_words(text, "\n")?;
    push_entries(text)?;
    push_end(text, "g")?;
    push_words(text, "\n")
}
