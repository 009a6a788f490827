//! The table that gives the choice for three random words.
ghost use Rattle.std.specs.Prelude.{◌≡◌, ◌<◌, ◌%◌, slice_get};
ghost use Rattle.mencius_model.specs.Trace.{sent_messages};
ghost use Rattle.mencius_cluster.specs.State.{trace_of};
ghost use Rattle.mencius_choices.specs.Picks.{addressee_or, message_named, pick_by, pick_of};

use crate::choice::Pick;
use mencius_base::{Event, Message};
use mencius_cluster::Cluster;

/// Returns the choice that three words pick on a cluster. `loss` is the number of choices, out of 64, that lose a
/// message. `left` says whether the worker has a command left. The call does not allocate memory.
///
/// With n servers, m messages so far and the words a, b, c:
///
/// | a mod 64 | Pick |
/// |---|---|
/// | 0 to 5 | the next command, or a delivery if none is left |
/// | 6 to 17 | `Execute` at server c mod n |
/// | 18 to 20 | `Retry` at server c mod n |
/// | 21 | `Suspect`: server b mod n suspects server c mod n |
/// | 22 to 21 + loss | `Lose` of the message, for the server |
/// | all others | `Deliver` of the message, to the server |
///
/// The message has number 0 if no message was sent, and number b / 2 mod m if b is even. If b is odd, it is one of the
/// last 32 messages, with number m - 1 - (b / 2 mod min(m, 32)). Divisions round down. The server is the addressee of
/// the message, if the message goes to one server alone. Otherwise it is server c mod n.
///
/// The cluster may refuse the event that is picked.
pub fn pick(words: [u32; 3], loss: u8, left: bool, cluster: &Cluster) -> Pick
    ensures { result ≡ pick_of cluster.now loss left words }
{
    let [kind, second, third] = words;
    let servers = u32::from(cluster.servers());
    let message = find_message(second, cluster.messages());
    let server = find_server(cluster, message, third);
    pick_row(
        kind % 64,
        u32::from(loss),
        left,
        message,
        server,
        (second % servers) as u8,
        (third % servers) as u8,
    )
}

// Returns the choice of this row of the table.
fn pick_row(
    row: u32,
    loss: u32,
    left: bool,
    message: u32,
    server: u8,
    second: u8,
    third: u8,
) -> Pick
    requires { loss < 256 }
    ensures { result ≡ pick_by row loss left message server second third }
{
    Pick::Is(if row < 6 {
        if left {
            return Pick::NextCommand;
        }
        Event::Deliver { message, server }
    } else if row < 18 {
        Event::Execute { server: third }
    } else if row < 21 {
        Event::Retry { server: third }
    } else if row < 22 {
        Event::Suspect {
            server: second,
            suspected: third,
        }
    } else if row < 22 + loss {
        Event::Lose { message, server }
    } else {
        Event::Deliver { message, server }
    })
}

// Returns the number of the message that a word names among `many` messages. An even word may name any of them, and an
// odd word names one of the last 32. Without messages, the number is 0.
fn find_message(word: u32, many: u32) -> u32
    ensures { result ≡ message_named word many }
{
    if many == 0 {
        return 0;
    }
    if word % 2 == 0 {
        return word / 2 % many;
    }
    many - 1 - word / 2 % many.min(32)
}

// Returns the addressee of a message that goes to one server alone. For any other message, returns the server that the
// word names.
fn find_server(cluster: &Cluster, message: u32, word: u32) -> u8
    ensures { result
        ≡ addressee_or (slice_get (sent_messages (trace_of cluster.now)) message)
        (word % cluster.now.members.count) }
{
    match cluster.message(message) {
        Some(Message::Accepted { to, .. } | Message::Promise { to, .. }) => to,
        _ => (word % u32::from(cluster.servers())) as u8,
    }
}
