//! The facts in the lines of a trace that a picture shows.

ghost use Rattle.std.specs.Prelude.{◌≡◌};
ghost use Rattle.mencius_draw.specs.Facts.{act_of, event_of, fact_of, kind_of, note_of, outcome_of, sent_of};

use crate::words::{is_word, number, word};

/// The kind of a message.
#[derive(Clone, Copy, Drop)]
pub(crate) enum Kind {
    Suggest,
    Skip,
    Accepted,
    Prepare,
    Promise,
    Propose,
    Learn,
}

impl Kind {
    /// Returns the name of the kind, as traces write it.
    pub(crate) fn name(self) -> &'static str {
        match self {
            Kind::Suggest => "Suggest",
            Kind::Skip => "Skip",
            Kind::Accepted => "Accepted",
            Kind::Prepare => "Prepare",
            Kind::Promise => "Promise",
            Kind::Propose => "Propose",
            Kind::Learn => "Learn",
        }
    }
}

/// The act of an event. A delivery and a loss have the number of the message. A suspicion has the number of the
/// suspected server.
#[derive(Clone, Copy, Drop)]
pub(crate) enum Act {
    Submit,
    Deliver(u32),
    Lose(u32),
    Suspect(u32),
    Retry,
    Execute,
}

/// An outcome of an event, other than a sent message. It is written next to the event's mark. `Learned` and `Executed`
/// have the instance.
#[derive(Clone, Copy, Drop)]
pub(crate) enum Note {
    Refused,
    Ignored,
    Count,
    Reply,
    Learned(u32),
    Executed(u32),
}

/// The fact in a line of a trace.
#[derive(Clone, Copy, Drop)]
pub(crate) enum Fact {
    Event {
        place: u32,
        act: Act,
        server: u32,
        is_refused: bool,
    },
    /// A message was sent. For a Skip, `inst` is the first instance.
    Sent {
        number: u32,
        kind: Kind,
        from: u32,
        inst: u32,
    },
    /// An outcome of an event, other than a sent message.
    Outcome(Note),
    /// The line that shows the progress of a server at the end of the trace. It has the number of the server.
    Closing(u32),
    /// A message that a server neither heard nor lost.
    Unheard {
        number: u32,
        server: u32,
    },
    /// A line that is not drawn.
    Other,
}

#[tactic(auto, unfolding(crate::specs::Facts::kind_of))]
fn kind_of(name: &[u8]) -> Option<Kind>
    ensures { result ≡ kind_of name.now }
{
    if is_word(name, "Suggest") {
        Some(Kind::Suggest)
    } else if is_word(name, "Skip") {
        Some(Kind::Skip)
    } else if is_word(name, "Accepted") {
        Some(Kind::Accepted)
    } else if is_word(name, "Prepare") {
        Some(Kind::Prepare)
    } else if is_word(name, "Promise") {
        Some(Kind::Promise)
    } else if is_word(name, "Propose") {
        Some(Kind::Propose)
    } else if is_word(name, "Learn") {
        Some(Kind::Learn)
    } else {
        None
    }
}

// Returns the act in an event's line, and the server of the act. `None` if the act is unknown.
#[tactic(auto, unfolding(crate::specs::Facts::act_by))]
fn act_of(line: &[u8]) -> Option<(Act, u32)>
    ensures { result ≡ act_of line.now }
{
    let name = word(line, 2);
    let first = number(word(line, 3));
    let second = number(word(line, 4));
    if is_word(name, "submit") {
        Some((Act::Submit, first))
    } else if is_word(name, "deliver") {
        Some((Act::Deliver(first), second))
    } else if is_word(name, "lose") {
        Some((Act::Lose(first), second))
    } else if is_word(name, "suspect") {
        Some((Act::Suspect(second), first))
    } else if is_word(name, "retry") {
        Some((Act::Retry, first))
    } else if is_word(name, "execute") {
        Some((Act::Execute, first))
    } else {
        None
    }
}

// Reads the event in `line`. After a refused event, a trace has the refusal and no other outcome. So `next` shows
// whether the event was refused.
fn event_of(line: &[u8], next: &[u8]) -> Fact
    ensures { result ≡ event_of line.now next.now }
{
    match act_of(line) {
        Some((act, server)) => Fact::Event {
            place: number(word(line, 1)),
            act,
            server,
            is_refused: is_word(word(next, 0), "refused"),
        },
        None => Fact::Other,
    }
}

fn sent_of(line: &[u8]) -> Fact
    ensures { result ≡ sent_of line.now }
{
    match kind_of(word(line, 2)) {
        Some(kind) => Fact::Sent {
            number: number(word(line, 1)),
            kind,
            from: number(word(line, 4)),
            inst: number(word(line, 8)),
        },
        None => Fact::Other,
    }
}

#[tactic(auto, unfolding(crate::specs::Facts::note_of))]
fn note_of(name: &[u8], inst: u32) -> Option<Note>
    ensures { result ≡ note_of name.now inst }
{
    if is_word(name, "refused") {
        Some(Note::Refused)
    } else if is_word(name, "ignored") {
        Some(Note::Ignored)
    } else if is_word(name, "promises") || is_word(name, "acceptances") {
        Some(Note::Count)
    } else if is_word(name, "reply") {
        Some(Note::Reply)
    } else if is_word(name, "learned") {
        Some(Note::Learned(inst))
    } else if is_word(name, "executed") {
        Some(Note::Executed(inst))
    } else {
        None
    }
}

fn outcome_of(line: &[u8]) -> Fact
    ensures { result ≡ outcome_of line.now }
{
    match note_of(word(line, 0), number(word(line, 3))) {
        Some(note) => Fact::Outcome(note),
        None => Fact::Other,
    }
}

/// Returns the fact in `line`. `next` is the line after it, which shows whether an event was refused.
#[tactic(auto, unfolding(crate::specs::Facts::fact_of))]
pub(crate) fn fact_of(line: &[u8], next: &[u8]) -> Fact
    ensures { result ≡ fact_of line.now next.now }
{
    let name = word(line, 0);
    if is_word(name, "event") {
        event_of(line, next)
    } else if is_word(name, "sent") {
        sent_of(line)
    } else if is_word(name, "server") {
        Fact::Closing(number(word(line, 1)))
    } else if is_word(name, "unheard") {
        Fact::Unheard {
            number: number(word(line, 1)),
            server: number(word(line, 4)),
        }
    } else {
        outcome_of(line)
    }
}
