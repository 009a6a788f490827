//! Writes the tags of a picture. Other modules write only the constants of `colours` and the end tag of the picture.

ghost use Rattle.std.specs.Prelude.{◌≡◌, ◌++◌, ◌<◌, [], ◌∷◌, codes, IfOk, OnOk, string_bytes};
ghost use Rattle.mencius_draw.specs.Svg.{Adds, Ends, IsText, Keeps, at_text, box_class, end_text, event_text, fate_text, message_text, name_text, of_arrow, of_box, of_group, of_place, owner_text, place_text, point_text, tag_name};
ghost use Rattle.mencius_draw.specs.Words.{plain_text, tag_byte, tag_text};

use crate::colours::{DEFINITIONS, KEY};
use crate::words::{plain_byte, push_plain};
use std::alloc::{AllocError, Global};

/// An element that contains words.
#[derive(Clone, Copy, Drop)]
pub(crate) enum Tag {
    Title,
    Style,
    Label,
}

/// The identity of a group, which is the place of an event or the number of a message.
#[derive(Clone, Copy, Drop)]
pub(crate) enum Name {
    Unnamed,
    EventName(u32),
    MessageName(u32),
}

/// A point of the picture, in its units.
#[derive(Clone, Copy, Drop)]
pub(crate) struct Place {
    pub(crate) x: u32,
    pub(crate) y: usize,
}

/// A group that shows a line of a trace.
#[derive(Clone, Copy, Drop)]
pub(crate) struct Group {
    pub(crate) name: Name,
    /// The place of the event to which the group belongs.
    pub(crate) event: u32,
    pub(crate) at: Option<Place>,
}

/// The box of a label, in the colour of a server.
#[derive(Clone, Copy, Drop)]
pub(crate) struct LabelBox {
    pub(crate) owner: u32,
    /// Whether the colour fills the box. Otherwise, the box has a tint and a border.
    pub(crate) is_filled: bool,
}

/// The arrow of a message, from its tail to its tip, in the colour of a server.
#[derive(Clone, Copy, Drop)]
pub(crate) struct Arrow {
    /// The place of the event that delivered the message or lost it.
    pub(crate) event: u32,
    pub(crate) message: u32,
    pub(crate) is_lost: bool,
    pub(crate) owner: u32,
    pub(crate) tail: Place,
    pub(crate) tip: Place,
}

impl Tag {
    fn name(self) -> &'static str
        ensures { result.now ≡ tag_name self }
    {
        match self {
            Tag::Title => "title",
            Tag::Style => "style",
            Tag::Label => "text",
        }
    }
}

// Returns the byte as it may be inside a tag.
#[tactic(auto, unfolding(crate::specs::Words::tag_byte))]
fn tag_byte(byte: u8) -> char
    ensures value { result ≡ tag_byte byte }
    ensures ascii { result < 128 }
{
    if byte == b'\'' {
        '\''
    } else if byte == b'/' {
        '?'
    } else {
        plain_byte(byte)
    }
}

// Adds attributes. A byte that could begin or end a tag becomes a question mark.
fn push_rest(text: &mut String, rest: &[u8]) -> Result<(), AllocError>
    ensures { OnOk result (string_bytes text.new ≡ string_bytes text.old ++ tag_text rest.now) }
{
    for byte in rest {
        text.push(tag_byte(*byte))?;
    }
    Ok(())
}

fn push_place(text: &mut String, place: Place) -> Result<(), AllocError>
    ensures { OnOk result (string_bytes text.new ≡ string_bytes text.old ++ place_text place) }
{
    text.push_str(" transform='translate(")?;
    push_point(text, place)?;
    text.push_str(")'")
}

fn push_at(text: &mut String, at: Option<Place>) -> Result<(), AllocError>
    ensures { OnOk result (string_bytes text.new ≡ string_bytes text.old ++ at_text at) }
{
    match at {
        Some(place) => push_place(text, place),
        None => Ok(()),
    }
}

fn push_name(text: &mut String, name: Name) -> Result<(), AllocError>
    ensures { OnOk result (string_bytes text.new ≡ string_bytes text.old ++ name_text name) }
{
    match name {
        Name::EventName(place) => write!(text, " id='e{place}'"),
        Name::MessageName(number) => write!(text, " id='m{number}'"),
        Name::Unnamed => Ok(()),
    }
}

fn push_event(text: &mut String, place: u32) -> Result<(), AllocError>
    ensures { OnOk result (string_bytes text.new ≡ string_bytes text.old ++ event_text place) }
{
    write!(text, "' data-e='{place}'")
}

fn push_number(text: &mut String, number: u32) -> Result<(), AllocError>
    ensures { OnOk result (string_bytes text.new ≡ string_bytes text.old ++ message_text number) }
{
    write!(text, " data-m='{number}' d='M")
}

fn push_fate(text: &mut String, is_lost: bool) -> Result<(), AllocError>
    ensures { OnOk result (string_bytes text.new ≡ string_bytes text.old ++ fate_text is_lost) }
{
    text.push_str(if is_lost { "lost " } else { "heard " })
}

fn push_point(text: &mut String, point: Place) -> Result<(), AllocError>
    ensures { OnOk result (string_bytes text.new ≡ string_bytes text.old ++ point_text point) }
{
    let x = point.x;
    let y = point.y;
    write!(text, "{x} {y}")
}

fn push_owner(text: &mut String, owner: u32) -> Result<(), AllocError>
    ensures { OnOk result (string_bytes text.new ≡ string_bytes text.old ++ owner_text owner) }
{
    write!(text, " s{owner}")
}

// Ends the path of an arrow.
fn push_path_end(
    text: &mut String,
    is_lost: bool,
    shape: &[u8],
    owner: u32,
) -> Result<(), AllocError>
    ensures { OnOk result (string_bytes text.new
        ≡ string_bytes text.old ++ end_text is_lost (plain_text shape.now) owner) }
{
    if is_lost {
        return text.push_str("'");
    }
    text.push_str("' marker-end='url(#")?;
    push_plain(text, shape)?;
    write!(text, "{owner}")?;
    text.push_str(")'")
}

fn push_box_class(text: &mut String, label_box: LabelBox) -> Result<(), AllocError>
    ensures { OnOk result (string_bytes text.new ≡ string_bytes text.old ++ box_class label_box) }
{
    let owner = label_box.owner;
    if label_box.is_filled {
        write!(text, "f{owner}")
    } else {
        write!(text, "t{owner} s{owner}")
    }
}

fn push_tag_name(text: &mut String, tag: Tag) -> Result<(), AllocError>
    ensures { OnOk result (string_bytes text.new ≡ string_bytes text.old ++ tag_name tag) }
{
    text.push_str(tag.name())
}

/// Returns the start tag of a picture.
pub(crate) fn begun(alloc: Global, rest: &str) -> Result<String, AllocError>
    ensures { IfOk result (λ text. IsText (string_bytes text) [] []) }
{
    let mut text = String::new(alloc);
    text.push_str("<svg xmlns='http://www.w3.org/2000/svg'")?;
    push_rest(&mut text, rest.as_bytes())?;
    text.push_str(">")?;
    Ok(text)
}

/// Adds words. A byte that could begin or end a tag becomes a question mark.
pub(crate) fn push_words(text: &mut String, words: &str) -> Result<(), AllocError>
    ensures { OnOk result (Keeps (string_bytes text.old) (string_bytes text.new)) }
{
    push_plain(text, words.as_bytes())
}

/// Adds an element without content. `rest` is its name and its attributes.
pub(crate) fn push_leaf(text: &mut String, rest: &str) -> Result<(), AllocError>
    ensures { OnOk result (Keeps (string_bytes text.old) (string_bytes text.new)) }
{
    text.push_str("<")?;
    push_rest(text, rest.as_bytes())?;
    text.push_str("/>")
}

fn push_start(text: &mut String, tag: Tag, rest: &str) -> Result<(), AllocError>
    ensures { OnOk result (Adds (tag_name tag ∷ []) [] (string_bytes text.old) (string_bytes text.new)) }
{
    text.push_str("<")?;
    push_tag_name(text, tag)?;
    push_rest(text, rest.as_bytes())?;
    text.push_str(">")
}

/// Adds an element that contains words. `rest` is its attributes, each after a space.
pub(crate) fn push_element(
    text: &mut String,
    tag: Tag,
    rest: &str,
    words: &str,
) -> Result<(), AllocError>
    ensures { OnOk result (Keeps (string_bytes text.old) (string_bytes text.new)) }
{
    push_start(text, tag, rest)?;
    push_words(text, words)?;
    push_end(text, tag.name())
}

/// Adds a text element.
pub(crate) fn push_label(text: &mut String, rest: &str, words: &str) -> Result<(), AllocError>
    ensures { OnOk result (Keeps (string_bytes text.old) (string_bytes text.new)) }
{
    push_element(text, Tag::Label, rest, words)
}

/// Adds the end tag of the innermost open element, which has this name.
pub(crate) fn push_end(text: &mut String, name: &str) -> Result<(), AllocError>
    ensures { OnOk result (Ends name.now (string_bytes text.old) (string_bytes text.new)) }
{
    text.push_str("</")?;
    text.push_str(name)?;
    text.push_str(">")
}

/// Adds the start tag of a group that shows a line of a trace.
pub(crate) fn push_group(text: &mut String, group: Group, class: &str) -> Result<(), AllocError>
    ensures { OnOk result (Adds (codes "g" ∷ []) (of_group group ∷ []) (string_bytes text.old) (string_bytes text.new)) }
{
    text.push_str("<g")?;
    push_name(text, group.name)?;
    text.push_str(" class='")?;
    push_plain(text, class.as_bytes())?;
    push_event(text, group.event)?;
    push_at(text, group.at)?;
    text.push_str(">")
}

/// Adds the start tag of a group that only has a place.
pub(crate) fn push_moved(text: &mut String, place: Place) -> Result<(), AllocError>
    ensures { OnOk result (Adds (codes "g" ∷ []) (of_place place ∷ []) (string_bytes text.old) (string_bytes text.new)) }
{
    text.push_str("<g")?;
    push_place(text, place)?;
    text.push_str(">")
}

/// Adds the start tag of a group that shows no single line of a trace.
pub(crate) fn push_card(text: &mut String, class: &str, place: Place) -> Result<(), AllocError>
    ensures { OnOk result (Adds (codes "g" ∷ []) [] (string_bytes text.old) (string_bytes text.new)) }
{
    text.push_str("<g class='")?;
    push_plain(text, class.as_bytes())?;
    text.push_str("'")?;
    push_place(text, place)?;
    text.push_str(">")
}

/// Adds the box of a label.
pub(crate) fn push_box(text: &mut String, label_box: LabelBox, rest: &str) -> Result<(), AllocError>
    ensures { OnOk result (Adds [] (of_box label_box ∷ []) (string_bytes text.old) (string_bytes text.new)) }
{
    text.push_str("<rect class='")?;
    push_box_class(text, label_box)?;
    text.push_str("' ")?;
    push_rest(text, rest.as_bytes())?;
    text.push_str("/>")
}

/// Adds the start tag of an arrow. `kind` is the name of the message's kind. `bend` is the part of the path between the
/// tail and the tip. `shape` is the shape of the arrow's point.
pub(crate) fn push_arrow(
    text: &mut String,
    arrow: Arrow,
    kind: &str,
    bend: &str,
    shape: &str,
) -> Result<(), AllocError>
    ensures { OnOk result (Adds (codes "path" ∷ []) (of_arrow arrow ∷ []) (string_bytes text.old) (string_bytes text.new)) }
{
    text.push_str("<path class='way ")?;
    push_fate(text, arrow.is_lost)?;
    push_plain(text, kind.as_bytes())?;
    push_owner(text, arrow.owner)?;
    push_event(text, arrow.event)?;
    push_number(text, arrow.message)?;
    push_point(text, arrow.tail)?;
    push_plain(text, bend.as_bytes())?;
    push_point(text, arrow.tip)?;
    push_path_end(text, arrow.is_lost, shape.as_bytes(), arrow.owner)?;
    text.push_str(">")
}

/// Adds the definitions of the points of arrows.
pub(crate) fn push_definitions(text: &mut String) -> Result<(), AllocError>
    ensures { OnOk result (Keeps (string_bytes text.old) (string_bytes text.new)) }
{
    text.push_str(DEFINITIONS)
}

/// Adds the entries of the key.
pub(crate) fn push_entries(text: &mut String) -> Result<(), AllocError>
    ensures { OnOk result (Keeps (string_bytes text.old) (string_bytes text.new)) }
{
    text.push_str(KEY)
}
