//! Events with their marks, and the outcomes next to the marks.

ghost use Rattle.std.specs.Prelude.{◌≡◌, ◌<◌, [], ◌∷◌, codes, true, false, IfOk, OnOk, string_bytes};
ghost use Rattle.mencius_draw.specs.Layout.{outline};
ghost use Rattle.mencius_draw.specs.Picture.{box_of, event_groups, groups_by, note_boxes, note_groups, sent_group, sent_groups};
ghost use Rattle.mencius_draw.specs.Places.{place_at, y_of};
ghost use Rattle.mencius_draw.specs.Svg.{Adds, Keeps, of_box, of_group, of_place};

use crate::facts::{Act, Fact, Kind, Note};
use crate::labels::{note_class, note_label, sent_label, shown_of};
use crate::layout::{SentMessage, Shape, Spot};
use crate::places::{lane_of, place_at, y_of};
use crate::svg::{
    Group, LabelBox, Name, Place, push_box, push_end, push_group, push_label, push_leaf,
    push_moved, push_words,
};
use crate::ways::{fate_of, heard_by, is_near, owner_of, way_of};
use crate::words::rest;
use std::alloc::{AllocError, Global};

// Returns the classes of an event.
fn act_class(act: Act) -> &'static str {
    match act {
        Act::Submit => "event submit",
        Act::Deliver(_) => "event deliver",
        Act::Lose(_) => "event lose",
        Act::Suspect(_) => "event suspect",
        Act::Retry => "event retry",
        Act::Execute => "event execute",
    }
}

// Adds the words left of the mark of an event. `rest` are their attributes. The backing hides the arrows behind them.
fn push_cause_words(
    alloc: Global,
    text: &mut String,
    rest: &str,
    words: &str,
) -> Result<(), AllocError>
    ensures { OnOk result (Keeps (string_bytes text.old) (string_bytes text.new)) }
{
    let width = words.len().min(1000) * 20 / 3 + 6;
    let left = width + 21;
    let backing = format!(in alloc;
        "rect class='backing' x='-{left}' y='-8' width='{width}' height='16'"
    )?;
    push_leaf(text, backing.as_str())?;
    push_label(text, rest, words)
}

// Adds the message that was heard or lost. Also adds the event that sent it, if the arrow does not show this event.
fn push_message(
    alloc: Global,
    text: &mut String,
    servers: u32,
    sent: &SentMessage,
    is_lost: bool,
    spot: Spot,
) -> Result<(), AllocError>
    ensures { OnOk result (Keeps (string_bytes text.old) (string_bytes text.new)) }
{
    let owner = owner_of(servers, sent.inst);
    let rest = format!(in alloc; " class='cause f{owner}' x='-24' y='4'")?;
    let fate = fate_of(is_lost);
    let number = sent.number;
    let kind = sent.kind.name();
    let place = sent.spot.place;
    let words = if is_near(sent.spot, spot) {
        format!(in alloc; "{fate} {number} {kind}")?
    } else {
        format!(in alloc; "{fate} {number} {kind} from event {place}")?
    };
    push_cause_words(alloc, text, rest.as_str(), words.as_str())
}

fn act_words(alloc: Global, act: Act) -> Result<String, AllocError> {
    match act {
        Act::Submit => format!(in alloc; "client asks"),
        Act::Deliver(message) | Act::Lose(message) => format!(in alloc; "message {message}"),
        Act::Suspect(suspected) => format!(in alloc; "suspects {suspected}"),
        Act::Retry => format!(in alloc; "retries"),
        Act::Execute => format!(in alloc; "executes"),
    }
}

fn push_act(alloc: Global, text: &mut String, act: Act) -> Result<(), AllocError>
    ensures { OnOk result (Keeps (string_bytes text.old) (string_bytes text.new)) }
{
    let words = act_words(alloc, act)?;
    push_cause_words(alloc, text, " class='cause' x='-24' y='4'", words.as_str())
}

// Adds the text left of an event's mark, which names the event.
fn push_cause(
    alloc: Global,
    text: &mut String,
    servers: u32,
    sents: &[SentMessage],
    fact: Fact,
    act: Act,
    spot: Spot,
) -> Result<(), AllocError>
    ensures { OnOk result (Keeps (string_bytes text.old) (string_bytes text.new)) }
{
    if let Some(way) = way_of(fact) {
        if let Some(sent) = heard_by(sents, way) {
            return push_message(alloc, text, servers, &sent, way.is_lost, spot);
        }
    }
    push_act(alloc, text, act)
}

// Adds the mark of an event. A ring means heard, a cross means lost, and a dot means asked from outside. A barred ring
// means refused.
fn push_mark(text: &mut String, act: Act, is_refused: bool) -> Result<(), AllocError>
    ensures { OnOk result (Keeps (string_bytes text.old) (string_bytes text.new)) }
{
    if is_refused {
        push_leaf(text, "circle class='no' r='6'")?;
        push_leaf(text, "path class='no' d='M-4 4L4 -4'")?;
        return Ok(());
    }
    match act {
        Act::Deliver(_) => push_leaf(text, "circle class='ring' r='5.5'"),
        Act::Lose(_) => push_leaf(text, "path class='cross' d='M-7 -7L7 7M7 -7L-7 7'"),
        Act::Submit | Act::Suspect(_) | Act::Retry | Act::Execute => {
            push_leaf(text, "circle class='dot' r='5.5'")
        }
    }
}

fn push_place(alloc: Global, text: &mut String, place: u32) -> Result<(), AllocError>
    ensures { OnOk result (Keeps (string_bytes text.old) (string_bytes text.new)) }
{
    let words = format!(in alloc; "{place}")?;
    push_label(text, " class='place' x='44' y='4'", words.as_str())
}

// Adds the text of an event.
fn push_what(alloc: Global, text: &mut String, line: &[u8]) -> Result<(), AllocError>
    ensures { OnOk result (Keeps (string_bytes text.old) (string_bytes text.new)) }
{
    let words = shown_of(alloc, rest(line, 2))?;
    push_label(text, " class='what' x='54' y='4'", words.as_str())
}

// Adds the start tag of the group at the left edge.
fn push_at_edge(text: &mut String, level: usize) -> Result<(), AllocError>
    ensures { OnOk result (Adds (codes "g" ∷ []) (of_place (record { x = 0; y = y_of level }) ∷ [])
        (string_bytes text.old) (string_bytes text.new)) }
{
    let y = y_of(level);
    push_moved(text, Place { x: 0, y })
}

// Adds the start tag of the group on the lane of a server.
fn push_at_lane(
    text: &mut String,
    servers: u32,
    server: u32,
    level: usize,
) -> Result<(), AllocError>
    ensures { OnOk result (Adds (codes "g" ∷ []) (of_place (place_at servers server level) ∷ [])
        (string_bytes text.old) (string_bytes text.new)) }
{
    push_moved(text, place_at(servers, server, level))
}

fn push_event(
    alloc: Global,
    text: &mut String,
    servers: u32,
    sents: &[SentMessage],
    shape: &Shape,
    act: Act,
    is_refused: bool,
) -> Result<(), AllocError>
    ensures { OnOk result (Adds [] (event_groups servers shape.now.spot) (string_bytes text.old) (string_bytes text.new)) }
{
    let spot = shape.spot;
    let group = Group {
        name: Name::EventName(spot.place),
        event: spot.place,
        at: None,
    };
    push_group(text, group, act_class(act))?;
    push_at_edge(text, spot.level)?;
    push_place(alloc, text, spot.place)?;
    push_what(alloc, text, shape.line)?;
    push_end(text, "g")?;
    push_at_lane(text, servers, spot.server, spot.level)?;
    push_cause(alloc, text, servers, sents, shape.fact, act, spot)?;
    push_mark(text, act, is_refused)?;
    push_end(text, "g")?;
    push_end(text, "g")?;
    push_words(text, "\n")
}

// Returns the width of a box, in the picture's units. The letters of a label all have the same width. Only the first
// 1,000 bytes of a label count.
fn box_width(label: &str) -> usize
    ensures { result < 7270 }
{
    label.len().min(1000) * 29 / 4 + 15
}

// Returns how far to the right a label reaches, in the picture's units.
fn reach_at(servers: u32, spot: Spot, label: &str) -> usize
    ensures { result < 10000 }
{
    lane_of(servers, spot.server) as usize + 24 + box_width(label)
}

/// Returns how far to the right the label of a line reaches, in the picture's units. 0 if the line has no label or is
/// not drawn.
pub(crate) fn reach_of(alloc: Global, servers: u32, shape: &Shape) -> Result<usize, AllocError>
    ensures { IfOk result (λ reach. reach < 10000) }
{
    if !shape.spot.is_shown {
        return Ok(0);
    }
    match shape.fact {
        Fact::Sent { number, kind, .. } => {
            let label = sent_label(alloc, number, kind, shape.line)?;
            Ok(reach_at(servers, shape.spot, label.as_str()))
        }
        Fact::Outcome(note) => {
            let label = note_label(alloc, note, shape.line)?;
            Ok(reach_at(servers, shape.spot, label.as_str()))
        }
        _ => Ok(0),
    }
}

fn push_box_around(
    alloc: Global,
    text: &mut String,
    servers: u32,
    inst: u32,
    is_filled: bool,
    label: &str,
) -> Result<(), AllocError>
    ensures { OnOk result (Adds [] (of_box (box_of servers inst is_filled) ∷ []) (string_bytes text.old) (string_bytes text.new)) }
{
    let owner = owner_of(servers, inst);
    let width = box_width(label);
    let rest = format!(in alloc; "x='24' y='-10' width='{width}' height='20' rx='4'")?;
    push_box(text, LabelBox { owner, is_filled }, rest.as_str())
}

// Adds a label in a box with a tint and a border.
fn push_tinted_box(
    alloc: Global,
    text: &mut String,
    servers: u32,
    inst: u32,
    label: &str,
) -> Result<(), AllocError>
    ensures { OnOk result (Adds [] (of_box (box_of servers inst false) ∷ []) (string_bytes text.old) (string_bytes text.new)) }
{
    let owner = owner_of(servers, inst);
    let rest = format!(in alloc; " class='says f{owner}' x='31' y='4'")?;
    push_box_around(alloc, text, servers, inst, false, label)?;
    push_label(text, rest.as_str(), label)
}

// Adds a label in a filled box.
fn push_filled_box(
    alloc: Global,
    text: &mut String,
    servers: u32,
    inst: u32,
    label: &str,
) -> Result<(), AllocError>
    ensures { OnOk result (Adds [] (of_box (box_of servers inst true) ∷ []) (string_bytes text.old) (string_bytes text.new)) }
{
    push_box_around(alloc, text, servers, inst, true, label)?;
    push_label(text, " class='says on' x='31' y='4'", label)
}

// Adds the line from a lane to a box. If the box is next to a mark, the line begins at the mark's right edge.
fn push_tick(alloc: Global, text: &mut String, owner: u32, spot: Spot) -> Result<(), AllocError>
    ensures { OnOk result (Keeps (string_bytes text.old) (string_bytes text.new)) }
{
    let path = if spot.level == spot.top {
        "M7 0H24"
    } else {
        "M0 0H24"
    };
    let rest = format!(in alloc; "path class='tick s{owner}' d='{path}'")?;
    push_leaf(text, rest.as_str())
}

// Adds the start tag of the group of a message.
fn push_sent_group(
    alloc: Global,
    text: &mut String,
    servers: u32,
    spot: Spot,
    number: u32,
    kind: Kind,
) -> Result<(), AllocError>
    ensures { OnOk result (Adds (codes "g" ∷ []) (of_group (sent_group servers spot number) ∷ [])
        (string_bytes text.old) (string_bytes text.new)) }
{
    let kind = kind.name();
    let class = format!(in alloc; "sent {kind}")?;
    let group = Group {
        name: Name::MessageName(number),
        event: spot.place,
        at: Some(place_at(servers, spot.server, spot.level)),
    };
    push_group(text, group, class.as_str())
}

// Adds the box of a message, with its label.
fn push_sent_box(
    alloc: Global,
    text: &mut String,
    servers: u32,
    sent: &SentMessage,
    line: &[u8],
) -> Result<(), AllocError>
    ensures { OnOk result (Adds [] (of_box (box_of servers sent.now.inst false) ∷ []) (string_bytes text.old) (string_bytes text.new)) }
{
    let label = sent_label(alloc, sent.number, sent.kind, line)?;
    push_tinted_box(alloc, text, servers, sent.inst, label.as_str())
}

fn push_sent(
    alloc: Global,
    text: &mut String,
    servers: u32,
    shape: &Shape,
    sent: &SentMessage,
) -> Result<(), AllocError>
    ensures { OnOk result (Adds [] (sent_groups servers shape.now.spot sent.now.number sent.now.inst)
        (string_bytes text.old) (string_bytes text.new)) }
{
    let spot = shape.spot;
    let owner = owner_of(servers, sent.inst);
    push_sent_group(alloc, text, servers, spot, sent.number, sent.kind)?;
    push_tick(alloc, text, owner, spot)?;
    push_sent_box(alloc, text, servers, sent, shape.line)?;
    push_end(text, "g")?;
    push_words(text, "\n")
}

// Adds a filled path on top of the mark of an event.
fn push_over_at(
    alloc: Global,
    text: &mut String,
    servers: u32,
    inst: u32,
    spot: Spot,
    path: &str,
) -> Result<(), AllocError>
    ensures { OnOk result (Keeps (string_bytes text.old) (string_bytes text.new)) }
{
    let owner = owner_of(servers, inst);
    let x = lane_of(servers, spot.server);
    let y = y_of(spot.top);
    let rest = format!(in alloc;
        "path class='f{owner}' transform='translate({x} {y})' d='{path}'"
    )?;
    push_leaf(text, rest.as_str())
}

// Adds a diamond if a value was learned, and a square if an instance was executed. Adds nothing for other outcomes.
fn push_over(
    alloc: Global,
    text: &mut String,
    servers: u32,
    note: Note,
    spot: Spot,
) -> Result<(), AllocError>
    ensures { OnOk result (Keeps (string_bytes text.old) (string_bytes text.new)) }
{
    match note {
        Note::Learned(inst) => push_over_at(
            alloc,
            text,
            servers,
            inst,
            spot,
            "M0 -9L9 0L0 9L-9 0z",
        ),
        Note::Executed(inst) => push_over_at(alloc, text, servers, inst, spot, "M-7 -7H7V7H-7z"),
        Note::Refused | Note::Ignored | Note::Count | Note::Reply => Ok(()),
    }
}

// Adds a label without a box. The backing hides the arrows and lanes behind it.
fn push_plain_words(alloc: Global, text: &mut String, label: &str) -> Result<(), AllocError>
    ensures { OnOk result (Keeps (string_bytes text.old) (string_bytes text.new)) }
{
    let width = label.len().min(1000) * 29 / 4 + 6;
    let backing = format!(in alloc;
        "rect class='backing' x='23' y='-8' width='{width}' height='16'"
    )?;
    push_leaf(text, backing.as_str())?;
    push_label(text, " class='says' x='26' y='4'", label)
}

// Adds a filled box if the event learned or executed an instance, and plain words for any other outcome.
fn push_note_words(
    alloc: Global,
    text: &mut String,
    servers: u32,
    note: Note,
    line: &[u8],
) -> Result<(), AllocError>
    ensures { OnOk result (Adds [] (note_boxes servers note) (string_bytes text.old) (string_bytes text.new)) }
{
    let label = note_label(alloc, note, line)?;
    match note {
        Note::Learned(inst) | Note::Executed(inst) => {
            push_filled_box(alloc, text, servers, inst, label.as_str())
        }
        Note::Refused | Note::Ignored | Note::Count | Note::Reply => {
            push_plain_words(alloc, text, label.as_str())
        }
    }
}

fn push_note(
    alloc: Global,
    text: &mut String,
    servers: u32,
    shape: &Shape,
    note: Note,
) -> Result<(), AllocError>
    ensures { OnOk result (Adds [] (note_groups servers shape.now.spot note) (string_bytes text.old) (string_bytes text.new)) }
{
    let spot = shape.spot;
    let group = Group {
        name: Name::Unnamed,
        event: spot.place,
        at: None,
    };
    push_group(text, group, note_class(note))?;
    push_over(alloc, text, servers, note, spot)?;
    push_at_lane(text, servers, spot.server, spot.level)?;
    push_note_words(alloc, text, servers, note, shape.line)?;
    push_end(text, "g")?;
    push_end(text, "g")?;
    push_words(text, "\n")
}

/// Adds an event or one of its outcomes. Adds nothing for any other line, or if the event is not drawn.
pub(crate) fn push_shape(
    alloc: Global,
    text: &mut String,
    servers: u32,
    sents: &[SentMessage],
    shape: &Shape,
) -> Result<(), AllocError>
    ensures { OnOk result (Adds [] (groups_by servers (outline shape.now)) (string_bytes text.old) (string_bytes text.new)) }
{
    if !shape.spot.is_shown {
        return Ok(());
    }
    match shape.fact {
        Fact::Event {
            act,
            is_refused,
            ..
        } => push_event(alloc, text, servers, sents, shape, act, is_refused),
        Fact::Sent {
            number,
            kind,
            from,
            inst,
        } => {
            let sent = SentMessage {
                number,
                kind,
                from,
                inst,
                spot: shape.spot,
            };
            push_sent(alloc, text, servers, shape, &sent)
        }
        Fact::Outcome(note) => push_note(alloc, text, servers, shape, note),
        Fact::Closing(_) | Fact::Unheard { .. } | Fact::Other => Ok(()),
    }
}
