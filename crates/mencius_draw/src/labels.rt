//! The labels, which are short texts next to marks.

use crate::facts::{Kind, Note};
use crate::words::{is_word, push_shown, rest, word};
use std::alloc::{AllocError, Global};

// Adds an instance and a ballot. Both are words of a line.
fn push_at_ballot(label: &mut String, inst: &[u8], ballot: &[u8]) -> Result<(), AllocError> {
    label.push_str(" i")?;
    push_shown(label, inst)?;
    label.push_str(" b")?;
    push_shown(label, ballot)
}

fn push_vote(label: &mut String, line: &[u8]) -> Result<(), AllocError> {
    if is_word(word(line, 12), "none") {
        return label.push_str(" no vote");
    }
    label.push_str(" voted ")?;
    push_shown(label, word(line, 13))?;
    label.push_str("@b")?;
    push_shown(label, word(line, 12))
}

// Adds the content of a message. Its kind decides which words of the line are shown.
fn push_content(label: &mut String, kind: Kind, line: &[u8]) -> Result<(), AllocError> {
    match kind {
        Kind::Skip => {
            label.push_str(" i")?;
            push_shown(label, word(line, 8))?;
            label.push_str(" until i")?;
            push_shown(label, word(line, 10))
        }
        Kind::Learn => {
            label.push_str(" i")?;
            push_shown(label, word(line, 8))?;
            label.push_str(" = ")?;
            push_shown(label, word(line, 10))
        }
        Kind::Accepted | Kind::Prepare => push_at_ballot(label, word(line, 8), word(line, 10)),
        Kind::Suggest | Kind::Propose => {
            push_at_ballot(label, word(line, 8), word(line, 10))?;
            label.push(' ')?;
            push_shown(label, word(line, 12))
        }
        Kind::Promise => {
            push_at_ballot(label, word(line, 8), word(line, 10))?;
            push_vote(label, line)
        }
    }
}

/// Returns the label of a message that was sent, with its number, kind and content.
pub(crate) fn sent_label(
    alloc: Global,
    number: u32,
    kind: Kind,
    line: &[u8],
) -> Result<String, AllocError> {
    let mut label = String::new(alloc);
    let name = kind.name();
    write!(label, "{number} {name}")?;
    push_content(&mut label, kind, line)?;
    Ok(label)
}

fn push_count(label: &mut String, line: &[u8]) -> Result<(), AllocError> {
    push_shown(label, word(line, 0))?;
    label.push(' ')?;
    push_shown(label, word(line, 7))?;
    label.push_str(" of ")?;
    push_shown(label, word(line, 9))?;
    label.push_str(" for")?;
    push_at_ballot(label, word(line, 3), word(line, 5))
}

fn push_learned(label: &mut String, line: &[u8]) -> Result<(), AllocError> {
    push_shown(label, word(line, 0))?;
    label.push_str(" i")?;
    push_shown(label, word(line, 3))?;
    label.push_str(" = ")?;
    push_shown(label, word(line, 5))
}

// Adds `name`, and then the rest of the line after its first word.
fn push_about(label: &mut String, name: &str, line: &[u8]) -> Result<(), AllocError> {
    label.push_str(name)?;
    push_shown(label, rest(line, 1))
}

/// Returns the label of an outcome other than a sent message.
pub(crate) fn note_label(alloc: Global, note: Note, line: &[u8]) -> Result<String, AllocError> {
    let mut label = String::new(alloc);
    match note {
        Note::Refused => push_about(&mut label, "refused: ", line)?,
        Note::Ignored => push_about(&mut label, "ignored: ", line)?,
        Note::Reply => push_about(&mut label, "reply ", line)?,
        Note::Count => push_count(&mut label, line)?,
        Note::Learned(_) | Note::Executed(_) => push_learned(&mut label, line)?,
    }
    Ok(label)
}

/// Returns the class of an outcome's element in the picture.
pub(crate) fn note_class(note: Note) -> &'static str {
    match note {
        Note::Refused => "refused",
        Note::Ignored => "ignored",
        Note::Count => "count",
        Note::Reply => "reply",
        Note::Learned(_) => "learned",
        Note::Executed(_) => "executed",
    }
}

/// Returns bytes of a trace, as a picture shows them.
pub(crate) fn shown_of(alloc: Global, bytes: &[u8]) -> Result<String, AllocError> {
    let mut text = String::new(alloc);
    push_shown(&mut text, bytes)?;
    Ok(text)
}
