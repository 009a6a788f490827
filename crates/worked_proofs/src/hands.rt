//! Conclusions that a simulator with its own network can draw about the servers that it steps.
//!
//! Nothing here looks inside a server, and no cluster is involved. The proof rests on the promises of the call and on
//! the laws.

ghost use Rattle.mencius_base.specs.Message.{is_for};
ghost use Rattle.mencius_base.specs.Outbox.{outbox_full};
ghost use Rattle.mencius_base.specs.Refusal.{IsRefusedFor};
ghost use Rattle.mencius_base.specs.declared.event.Event.TheVariants.{Deliver};
ghost use Rattle.mencius_model.specs.Next.{cluster_cause, with_event};
ghost use Rattle.mencius_model.specs.Trace.{Trace, sent_messages};
ghost use Rattle.mencius_server.specs.Machine.{IsUndone, learned_on, sent_on};
ghost use Rattle.worked_proofs.specs.Hands.{AreAt, AreOthers};
ghost use Rattle.std.specs.Prelude.{IfOk, IsTrue, None, OnErr, OnOk, Some, length, slice_get, ◌≡◌, ℕ};

use mencius_base::{Message, Outbox, Refusal};
use mencius_server::{Server, laws};

/// Delivers a message to one of three servers of a cluster. Returns the number of instances that this server learned
/// from it. Only the contract needs the two other servers.
///
/// Assume that all three servers are at a trace, that the outbox has its messages, and that the network has no cause to
/// refuse the delivery. Then all three servers are at the longer trace afterwards, and the outbox has the messages of
/// the longer trace. The network may refuse a delivery for these causes:
///
/// - The trace already has the greatest number of events.
/// - The server does not exist, or no message has this number.
/// - The message is not for the server, or it was lost on the way to the server.
///
/// # Errors
///
/// Fails with the errors of [`Server::hear`]. The server and the messages are then as before.
pub fn deliver(
    receiver: &mut Server,
    second: &Server,
    third: &Server,
    out: &mut Outbox,
    message: &Message,
) -> Result<u32, Refusal>
    requires addressed { IsTrue (is_for receiver.old.members receiver.old.id message.now) }
    requires others { AreOthers receiver.old second.now third.now }
    ensures delivery { OnOk result ((w : Trace) (k : ℕ)
        → AreAt w receiver.old second.now third.now out.old
        → slice_get (sent_messages w) k ≡ Some message.now
        → cluster_cause receiver.old.members w (Deliver k receiver.old.id) ≡ None
        → AreAt (with_event receiver.old.members w (Deliver k receiver.old.id))
        receiver.new second.now third.now out.new) }
    ensures learned { IfOk result (λ n. n ≡ learned_on receiver.old message.now) }
    ensures refusal { IsRefusedFor
        (outbox_full out.old (length (sent_on receiver.old message.now))) result }
    ensures err { OnErr result (IsUndone receiver.old receiver.new out.old out.new) }
{
    // The two other servers are only read for their numbers.
    let _within_limit = (second.id(), third.id()); // proof: both are members
    // The calls of the laws only give their promises to the proof.
    laws::events(); // proof: how an event changes a server
    laws::isolation(); // proof: an event leaves other servers alone
    receiver.hear(message, out)
}
