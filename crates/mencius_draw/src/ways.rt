//! The arrows. They show how messages came to servers, or were lost on the way.

ghost use Rattle.std.specs.Prelude.{◌≡◌, ◌<◌, [], ◌∷◌, codes, OnOk, string_bytes};
ghost use Rattle.mencius_draw.specs.Layout.{outline};
ghost use Rattle.mencius_draw.specs.Picture.{arrow_by, arrow_of, beside_mark, heard_by, is_near, longest_way, owner_of, place_beside, tail_of, tip_of, way_of};
ghost use Rattle.mencius_draw.specs.Svg.{Adds, Keeps, of_arrow};

use crate::facts::{Act, Fact, Kind};
use crate::layout::{SentMessage, Shape, Spot};
use crate::places::{lane_of, place_at, y_of};
use crate::svg::{Arrow, Place, Tag, push_arrow, push_element, push_end, push_words};
use std::alloc::{AllocError, Global};

/// Returns the owner of an instance. The instance is drawn in the owner's colour.
pub(crate) fn owner_of(servers: u32, inst: u32) -> u32
    ensures { result ≡ owner_of servers inst }
{
    inst % servers.max(1)
}

/// An event that delivered a message to a server, or lost it for that server.
#[derive(Clone, Copy, Drop)]
pub(crate) struct Way {
    pub(crate) message: u32,
    pub(crate) is_lost: bool,
    pub(crate) server: u32,
}

/// Returns the delivery or the loss in a fact. `None` if the cluster refused the event, or for any other fact.
pub(crate) fn way_of(fact: Fact) -> Option<Way>
    ensures { result ≡ way_of fact }
{
    match fact {
        Fact::Event {
            act: Act::Deliver(message),
            server,
            is_refused: false,
            ..
        } => Some(Way {
            message,
            is_lost: false,
            server,
        }),
        Fact::Event {
            act: Act::Lose(message),
            server,
            is_refused: false,
            ..
        } => Some(Way {
            message,
            is_lost: true,
            server,
        }),
        _ => None,
    }
}

/// Returns the message that was delivered or lost. `None` if no message with its number was sent.
pub(crate) fn heard_by(sents: &[SentMessage], way: Way) -> Option<SentMessage>
    ensures { result ≡ heard_by sents.now way }
{
    sents.get(way.message as usize).copied()
}

// Returns the greatest number of events that an arrow may pass. The loops of one server are drawn side by side. If a
// loop could pass more events, loops would lie on top of each other.
fn longest_way(sent: Spot, heard: Spot) -> u32
    ensures { result ≡ longest_way sent heard }
{
    if sent.server == heard.server { 8 } else { 30 }
}

/// Whether the whole arrow of a message is drawn. It is drawn if the event that sent the message is drawn and is not
/// too far above.
pub(crate) fn is_near(sent: Spot, heard: Spot) -> bool
    ensures { result ≡ is_near sent heard }
{
    sent.is_shown && heard.place.saturating_sub(sent.place) <= longest_way(sent, heard)
}

/// Returns `lost` or `heard`, the fate of a message.
pub(crate) fn fate_of(is_lost: bool) -> &'static str {
    if is_lost { "lost" } else { "heard" }
}

// Returns the shape of the point at the end of an arrow.
fn point_of(kind: Kind) -> &'static str {
    match kind {
        Kind::Suggest | Kind::Propose | Kind::Learn | Kind::Skip => "full",
        Kind::Prepare => "hollow",
        Kind::Accepted | Kind::Promise => "open",
    }
}

// Returns the x coordinate `by` units away from the lane `to`, on the side of the sender's lane `from`. If both are the
// same lane, the side is the left.
fn place_beside(from: u32, to: u32, by: u32) -> u32
    requires lane { to < 2000 }
    requires near { by < 100 }
    ensures { result ≡ place_beside from to by }
{
    if to < from {
        to + by
    } else {
        to.saturating_sub(by)
    }
}

// Returns the place next to the lane of the server, on the side of the sender's lane, and `up` units above the event.
fn beside_mark(servers: u32, sent: &SentMessage, way: Way, spot: Spot, by: u32, up: usize) -> Place
    requires near { by < 100 }
    requires above { up < 100 }
    ensures { result ≡ beside_mark servers sent.now way spot by up }
{
    Place {
        x: place_beside(
            lane_of(servers, sent.from),
            lane_of(servers, way.server),
            by,
        ),
        y: y_of(spot.level) - up,
    }
}

// Returns the place where an arrow begins.
fn tail_of(servers: u32, sent: &SentMessage, way: Way, spot: Spot) -> Place
    ensures { result ≡ tail_of servers sent.now way spot }
{
    if is_near(sent.spot, spot) {
        place_at(servers, sent.from, sent.spot.level)
    } else {
        beside_mark(servers, sent, way, spot, 30, 12)
    }
}

// Returns the place where an arrow ends, next to the mark of the event.
fn tip_of(servers: u32, sent: &SentMessage, way: Way, spot: Spot) -> Place
    ensures { result ≡ tip_of servers sent.now way spot }
{
    if is_near(sent.spot, spot) {
        beside_mark(servers, sent, way, spot, 10, 3)
    } else {
        beside_mark(servers, sent, way, spot, 9, 4)
    }
}

// Returns the bend of a loop from a lane back to the same lane. The place of the event decides how far out the loop
// goes, so that loops keep apart.
fn loop_of(
    alloc: Global,
    lane: u32,
    start: usize,
    end: usize,
    place: u32,
) -> Result<String, AllocError>
    requires { start < 2000000 }
{
    let side = lane.saturating_sub(place % 8 * 9 + 52);
    let below = start + 10;
    let above = end.saturating_sub(14);
    format!(in alloc; "C{side} {below} {side} {above} ")
}

// Returns the part of an arrow's path between its tail and its tip. `L` means a straight line. If the sender is also the
// server, a whole arrow is a loop.
fn bend_of(
    alloc: Global,
    servers: u32,
    sent: &SentMessage,
    way: Way,
    spot: Spot,
) -> Result<String, AllocError> {
    let from = lane_of(servers, sent.from);
    let to = lane_of(servers, way.server);
    if from == to && is_near(sent.spot, spot) {
        loop_of(
            alloc,
            to,
            y_of(sent.spot.level),
            y_of(spot.level),
            spot.place,
        )
    } else {
        format!(in alloc; "L")
    }
}

fn title_of(alloc: Global, sent: &SentMessage, way: Way) -> Result<String, AllocError> {
    let number = sent.number;
    let kind = sent.kind.name();
    let from = sent.from;
    let server = way.server;
    let fate = fate_of(way.is_lost);
    format!(in alloc; "message {number}: {kind} from {from} to {server}, {fate}")
}

fn arrow_of(servers: u32, sent: &SentMessage, way: Way, spot: Spot) -> Arrow
    ensures { result ≡ arrow_of servers way spot sent.now }
{
    Arrow {
        event: spot.place,
        message: sent.number,
        is_lost: way.is_lost,
        owner: owner_of(servers, sent.inst),
        tail: tail_of(servers, sent, way, spot),
        tip: tip_of(servers, sent, way, spot),
    }
}

fn push_title(
    alloc: Global,
    text: &mut String,
    sent: &SentMessage,
    way: Way,
) -> Result<(), AllocError>
    ensures { OnOk result (Keeps (string_bytes text.old) (string_bytes text.new)) }
{
    let title = title_of(alloc, sent, way)?;
    push_element(text, Tag::Title, "", title.as_str())
}

// Adds the start tag of an arrow.
fn push_start(
    alloc: Global,
    text: &mut String,
    servers: u32,
    sent: &SentMessage,
    way: Way,
    spot: Spot,
) -> Result<(), AllocError>
    ensures { OnOk result (Adds (codes "path" ∷ []) (of_arrow (arrow_of servers way spot sent.now) ∷ [])
        (string_bytes text.old) (string_bytes text.new)) }
{
    let arrow = arrow_of(servers, sent, way, spot);
    let bend = bend_of(alloc, servers, sent, way, spot)?;
    push_arrow(
        text,
        arrow,
        sent.kind.name(),
        bend.as_str(),
        point_of(sent.kind),
    )
}

fn push_arrow_of(
    alloc: Global,
    text: &mut String,
    servers: u32,
    sent: &SentMessage,
    way: Way,
    spot: Spot,
) -> Result<(), AllocError>
    ensures { OnOk result (Adds [] (of_arrow (arrow_of servers way spot sent.now) ∷ []) (string_bytes text.old) (string_bytes text.new)) }
{
    push_start(alloc, text, servers, sent, way, spot)?;
    push_title(alloc, text, sent, way)?;
    push_end(text, "path")?;
    push_words(text, "\n")
}

/// Adds the arrow of a delivery or a loss. Adds no text for any other line, or if the event is not drawn.
pub(crate) fn push_way(
    alloc: Global,
    text: &mut String,
    servers: u32,
    sents: &[SentMessage],
    shape: &Shape,
) -> Result<(), AllocError>
    ensures { OnOk result (Adds [] (arrow_by servers sents.now (outline shape.now)) (string_bytes text.old) (string_bytes text.new)) }
{
    if !shape.spot.is_shown {
        return Ok(());
    }
    let Some(way) = way_of(shape.fact) else {
        return Ok(());
    };
    let Some(sent) = heard_by(sents, way) else {
        return Ok(());
    };
    push_arrow_of(alloc, text, servers, &sent, way, shape.spot)
}
