//! What a line of a trace is about.

ghost use Rattle.std.specs.Prelude.{◌≡◌};
ghost use Rattle.std.specs.List.{list_any};
ghost use Rattle.mencius_cluster.specs.State.{trace_of};
ghost use Rattle.mencius_trace.specs.Choice.{event_topic, fact_topic, fits_command, fits_instance, is_about, is_event_at, is_fact_at, is_message_about, is_of_command, is_waiting_at, message_topic, sender};

use crate::before::instance_of;
use crate::fact::Fact;
use crate::suggestions::is_same_id;
use mencius_base::{CommandId, Event, INSTANCES, Members, Message, Vote};
use mencius_cluster::Cluster;

/// What a line of a trace is about, apart from servers.
#[derive(Clone, Copy)]
pub enum Topic {
    /// No instance and no command.
    Nothing,
    /// The submission of a command.
    Submission(CommandId),
    /// An instance.
    Instance(u32),
    /// The instance of a message, or the instances that a Skip gives up.
    Message(Message),
    /// The instances that a server lost, so that a command waits there.
    Waiting(u8),
}

/// Returns the topic of an event.
pub(crate) fn event_topic(cluster: &Cluster, event: &Event) -> Topic
    ensures { result ≡ event_topic (trace_of cluster.now) event.now }
{
    match event {
        Event::Submit { command, .. } => Topic::Submission(command.id()),
        Event::Deliver { message, .. } | Event::Lose { message, .. } => {
            message_topic(cluster, *message)
        }
        Event::Suspect { .. } | Event::Retry { .. } | Event::Execute { .. } => Topic::Nothing,
    }
}

fn message_topic(cluster: &Cluster, number: u32) -> Topic
    ensures { result ≡ message_topic (trace_of cluster.now) number }
{
    let _named: Option<Vote> = None; // proof: a message can hold a vote
    match cluster.message(number) {
        Some(message) => Topic::Message(message),
        None => Topic::Nothing,
    }
}

/// Returns whether an event happens at a server or suspects it.
pub(crate) fn is_event_at(server: u8, event: &Event) -> bool
    ensures { result ≡ is_event_at server event.now }
{
    match *event {
        Event::Suspect {
            server: at,
            suspected,
        } => at == server || suspected == server,
        Event::Submit { server: at, .. }
        | Event::Deliver { server: at, .. }
        | Event::Lose { server: at, .. }
        | Event::Retry { server: at }
        | Event::Execute { server: at } => at == server,
    }
}

/// Returns the topic of a fact.
pub(crate) fn fact_topic(fact: &Fact) -> Topic
    ensures { result ≡ fact_topic fact.now }
{
    let _named: Option<Vote> = None; // proof: a message can hold a vote
    match *fact {
        Fact::Refused(_) => Topic::Nothing,
        Fact::Promises { inst, .. }
        | Fact::Acceptances { inst, .. }
        | Fact::Learned { inst, .. }
        | Fact::Executed { inst, .. }
        | Fact::Reply { inst, .. } => Topic::Instance(inst),
        Fact::Front { front, .. } => Topic::Instance(front),
        Fact::Ignored { message, .. }
        | Fact::Sent { message, .. }
        | Fact::Unheard { message, .. } => Topic::Message(message),
    }
}

/// Returns whether a fact happens at a server. A message that was sent concerns its sender and the servers that it goes
/// to.
pub(crate) fn is_fact_at(server: u8, fact: &Fact) -> bool
    ensures { result ≡ is_fact_at server fact.now }
{
    match fact {
        Fact::Refused(_) => false,
        Fact::Promises { server: at, .. }
        | Fact::Acceptances { server: at, .. }
        | Fact::Ignored { server: at, .. }
        | Fact::Learned { server: at, .. }
        | Fact::Front { server: at, .. }
        | Fact::Executed { server: at, .. }
        | Fact::Reply { server: at, .. }
        | Fact::Unheard { server: at, .. } => *at == server,
        Fact::Sent { message, .. } => sender(message) == server || message.is_sent_to(server),
    }
}

fn sender(message: &Message) -> u8
    ensures { result ≡ sender message.now }
{
    match *message {
        Message::Suggest { from, .. }
        | Message::Skip { from, .. }
        | Message::Accepted { from, .. }
        | Message::Prepare { from, .. }
        | Message::Promise { from, .. }
        | Message::Propose { from, .. }
        | Message::Learn { from, .. } => from,
    }
}

/// Returns whether a topic concerns the chosen instance. Without one, it does.
pub(crate) fn fits_instance(chosen: Option<u32>, cluster: &Cluster, topic: &Topic) -> bool
    ensures { result ≡ fits_instance cluster.now.members (trace_of cluster.now) chosen topic.now }
{
    match chosen {
        Some(inst) => is_about(cluster, inst, topic),
        None => true,
    }
}

/// Returns whether a topic concerns the chosen command. Without one, it does.
pub(crate) fn fits_command(
    chosen: Option<CommandId>,
    suggested: &[u32],
    cluster: &Cluster,
    topic: &Topic,
) -> bool
    ensures { result ≡ fits_command cluster.now.members (trace_of cluster.now) chosen suggested.now topic.now }
{
    match chosen {
        Some(id) => is_of_command(id, suggested, cluster, topic),
        None => true,
    }
}

fn is_of_command(id: CommandId, suggested: &[u32], cluster: &Cluster, topic: &Topic) -> bool
    ensures { result ≡ is_of_command cluster.now.members (trace_of cluster.now) id suggested.now topic.now }
{
    if let Topic::Submission(given) = topic {
        return is_same_id(*given, id);
    }
    is_about_any(suggested, cluster, topic)
}

fn is_about_any(instances: &[u32], cluster: &Cluster, topic: &Topic) -> bool
    ensures { result ≡ list_any (λ i. is_about cluster.now.members (trace_of cluster.now) i topic.now) instances.now }
{
    let mut rest = instances;
    while let Some((inst, after)) = rest.split_first() {
        if is_about(cluster, *inst, topic) {
            return true;
        }
        rest = after;
    }
    false
}

fn is_about(cluster: &Cluster, inst: u32, topic: &Topic) -> bool
    ensures { result ≡ is_about cluster.now.members (trace_of cluster.now) inst topic.now }
{
    match topic {
        Topic::Nothing | Topic::Submission(_) => false,
        Topic::Instance(at) => *at == inst,
        Topic::Message(message) => is_message_about(cluster.members(), inst, message),
        Topic::Waiting(server) => is_waiting_at(cluster, *server, inst),
    }
}

fn is_message_about(members: Members, inst: u32, message: &Message) -> bool
    ensures { result ≡ is_message_about members inst message.now }
{
    match *message {
        Message::Skip { from, first, stop } => {
            from == members.owner(inst) && first <= inst && inst < stop
        }
        Message::Suggest { .. }
        | Message::Accepted { .. }
        | Message::Prepare { .. }
        | Message::Promise { .. }
        | Message::Propose { .. }
        | Message::Learn { .. } => instance_of(message) == inst,
    }
}

fn is_waiting_at(cluster: &Cluster, server: u8, inst: u32) -> bool
    ensures { result ≡ is_waiting_at cluster.now.members (trace_of cluster.now) server inst }
{
    if inst >= INSTANCES {
        return false;
    }
    cluster.waiting_at(server, inst).is_some()
}
