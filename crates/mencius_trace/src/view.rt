//! The choice of the lines of a trace.

ghost use Rattle.std.specs.Prelude.{◌≡◌};
ghost use Rattle.mencius_trace.specs.Choice.{concerns, concerns_event, concerns_server, is_chosen, is_filtered};
ghost use Rattle.mencius_cluster.specs.State.{trace_of};

use crate::fact::Fact;
use crate::topic::{
    Topic, event_topic, fact_topic, fits_command, fits_instance, is_event_at, is_fact_at,
};
use mencius_base::{CommandId, Event};
use mencius_cluster::Cluster;

/// The form of a trace, and the choice of its lines. A line is printed if it concerns all that is chosen.
#[derive(Clone, Copy)]
pub struct View {
    /// Whether each line is a JSON object.
    pub is_json: bool,
    /// The chosen instance, if there is one.
    pub instance: Option<u32>,
    /// The chosen command, if there is one. A line concerns it if it concerns an instance that the command was
    /// suggested for.
    pub command: Option<CommandId>,
    /// The chosen server, if there is one.
    pub server: Option<u8>,
}

/// Returns whether only some of the lines are printed.
pub(crate) fn is_filtered(view: &View) -> bool
    ensures { result ≡ is_filtered view.now }
{
    view.instance.is_some() || view.command.is_some() || view.server.is_some()
}

/// Returns whether a topic concerns the chosen instance and the chosen command, which was suggested for the instances
/// `suggested`.
pub(crate) fn is_chosen(view: &View, suggested: &[u32], cluster: &Cluster, topic: &Topic) -> bool
    ensures { result ≡ is_chosen view.now suggested.now cluster.now.members (trace_of cluster.now) topic.now }
{
    fits_instance(view.instance, cluster, topic)
        && fits_command(view.command, suggested, cluster, topic)
}

/// Returns whether a fact concerns all that is chosen.
pub(crate) fn concerns(view: &View, suggested: &[u32], cluster: &Cluster, fact: &Fact) -> bool
    ensures { result ≡ concerns view.now suggested.now cluster.now.members (trace_of cluster.now) fact.now }
{
    let is_here = match view.server {
        Some(server) => is_fact_at(server, fact),
        None => true,
    };
    is_here && is_chosen(view, suggested, cluster, &fact_topic(fact))
}

/// Returns whether an event concerns all that is chosen.
pub(crate) fn concerns_event(
    view: &View,
    suggested: &[u32],
    cluster: &Cluster,
    event: &Event,
) -> bool
    ensures { result ≡ concerns_event view.now suggested.now cluster.now.members (trace_of cluster.now) event.now }
{
    let is_here = match view.server {
        Some(server) => is_event_at(server, event),
        None => true,
    };
    is_here && is_chosen(view, suggested, cluster, &event_topic(cluster, event))
}

/// Returns whether the progress of a server concerns all that is chosen.
pub(crate) fn concerns_server(view: &View, suggested: &[u32], cluster: &Cluster, server: u8) -> bool
    ensures { result ≡ concerns_server view.now suggested.now cluster.now.members (trace_of cluster.now) server }
{
    let is_here = match view.server {
        Some(chosen) => server == chosen,
        None => true,
    };
    is_here && is_chosen(view, suggested, cluster, &Topic::Waiting(server))
}
