//! Tests of the calls of a cluster after a worked schedule, each call once, and of the effect of each event.

use crate::courses::{
    GET_AT_ANOTHER_SERVER, REVOKED_AND_SUGGESTED_AGAIN, cluster_after, new_cluster, scenario_of,
};
use crate::same::assert_same;
use mencius_base::{Command, CommandId, Entry, Event, Members, Message, Value};
use mencius_cluster::{Answered, Cluster, Effect};
use mencius_format::parse_command;
use std::alloc::Global;
use std::panic::Expect;
use std::process::Abort;

// For each event of `get_at_another_server`, the number of messages that it sends, and the number of instances that it
// teaches.
const EFFECTS: [(u32, u32); 14] = [
    (1, 0),
    (1, 0),
    (1, 0),
    (0, 0),
    (1, 1),
    (0, 0),
    (1, 0),
    (1, 0),
    (1, 0),
    (0, 0),
    (1, 1),
    (0, 1),
    (0, 0),
    (0, 0),
];

// Returns the reply of a client's first command in words.
fn shown(cluster: &Cluster, client: u32) -> &str {
    match cluster.reply(CommandId { client, number: 0 }) {
        None => "not submitted",
        Some(Answered::Pending) => "pending",
        Some(Answered::Given(None)) => "none",
        Some(Answered::Given(Some(text))) => text.as_str(),
    }
}

// Checks that an event is accepted and has this effect.
fn assert_effect<R: Abort>(rt: &R, cluster: &mut Cluster, event: Event, effect: Effect) {
    assert!(rt; cluster.step(event) == Ok(effect));
}

#[test]
fn each_event_has_its_effect(rt: HostRuntime) {
    let alloc = rt.alloc();
    let scenario = scenario_of(&rt, alloc, GET_AT_ANOTHER_SERVER);
    let mut cluster = new_cluster(&rt, alloc, scenario.members);
    assert_same(&rt, &scenario.course.len(), &EFFECTS.len(), "");
    let mut first: u32 = 0;
    for (event, (sent, learned)) in scenario.course.into_iter().zip(EFFECTS) {
        let effect = Effect {
            first,
            sent,
            learned,
        };
        assert_effect(&rt, &mut cluster, event, effect);
        first = first.wrapping_add(sent);
    }
}

// The number of commands that are submitted to server 2, one after the other. The last command gets the last of the
// server's first 1,365 instances.
const SUBMITTED: u32 = 1365;

// Returns client 1's command with this number, which sets `a`.
fn set_a<R: Abort>(rt: &R, alloc: Global, number: u32) -> Command {
    let text = format!(in alloc; "1.{number} set a x").expect(rt, "memory");
    parse_command(alloc, text.as_str()).expect(rt, "a command")
}

// Lets server 2 suggest each of the commands, in a message with the number of the command.
fn submit_all<R: Abort>(rt: &R, alloc: Global, cluster: &mut Cluster) {
    for number in 0..SUBMITTED {
        let submission = Event::Submit {
            server: 2,
            command: set_a(rt, alloc, number),
        };
        let effect = Effect {
            first: number,
            sent: 1,
            learned: 0,
        };
        assert_effect(rt, cluster, submission, effect);
    }
}

// Server 0 hears only the last suggestion, and skips all its own instances before it. Up to there, it has 1,365
// instances, like server 2. Server 1 learns all of them from the one Skip, which comes before the acceptance for server
// 2.
#[test]
fn one_message_teaches_a_long_skip(rt: HostRuntime) {
    let alloc = rt.alloc();
    let members = Members::new(3).expect(&rt, "three servers");
    let mut cluster = new_cluster(&rt, alloc, members);
    submit_all(&rt, alloc, &mut cluster);
    let suggestion = Event::Deliver {
        message: 1364,
        server: 0,
    };
    assert!(rt; cluster.step(suggestion).is_ok());
    let skip = Event::Deliver {
        message: 1365,
        server: 1,
    };
    let effect = Effect {
        first: 1367,
        sent: 0,
        learned: 1365,
    };
    assert_effect(&rt, &mut cluster, skip, effect);
}

// Returns the front of a server, and the numbers of instances and of commands that it executed.
fn answers_of(cluster: &Cluster, server: u8) -> Option<(u32, u32, usize)> {
    let front = cluster.front(server)?;
    let done = cluster.done(server)?;
    Some((front, done, cluster.history(server)?.len()))
}

// For each of the three servers, its front and the numbers of instances and of commands that it executed.
const ANSWERS: [(u32, u32, usize); 3] = [(3, 1, 1), (4, 2, 2), (2, 0, 0)];

fn assert_servers<R: Abort>(rt: &R, cluster: &Cluster) {
    let found = (
        cluster.members().count(),
        cluster.servers(),
        cluster.longest(),
    );
    assert_same(rt, &found, &(3, 3, 1), "");
    for (server, wanted) in (0..3).zip(ANSWERS) {
        assert_same(
            rt,
            &(server, answers_of(cluster, server)),
            &(server, Some(wanted)),
            "",
        );
    }
    assert_same(rt, &cluster.front(3), &None, "");
}

// Returns the ticket that a server executed last.
fn last_of(cluster: &Cluster, server: u8) -> Option<u32> {
    cluster.history(server)?.last().copied()
}

fn assert_learned<R: Abort>(rt: &R, cluster: &Cluster) {
    assert_same(rt, &last_of(cluster, 1), &Some(1), "");
    let found = (cluster.learned(1, 1), cluster.learned(2, 1));
    assert_same(rt, &found, &(Some(Value::Ticket(1)), None), "");
}

#[test]
fn servers_answer(rt: HostRuntime) {
    let cluster = cluster_after(&rt, rt.alloc(), GET_AT_ANOTHER_SERVER);
    assert_servers(&rt, &cluster);
    assert_learned(&rt, &cluster);
}

// Checks the number of Prepares that server 1 sends if it suspects server 0. If servers look ahead by two, these are at
// instances 0 and 3, otherwise only at 0.
fn assert_sends_ahead<R: Abort>(rt: &R, alloc: Global, beta: u32, sent: u32) {
    let members = Members::with_beta(3, beta).expect(rt, "three servers");
    let mut cluster = new_cluster(rt, alloc, members);
    assert_same(rt, &cluster.members().beta(), &beta, "");
    let suspicion = Event::Suspect {
        server: 1,
        suspected: 0,
    };
    let effect = Effect {
        first: 0,
        sent,
        learned: 0,
    };
    assert_effect(rt, &mut cluster, suspicion, effect);
    assert_same(rt, &cluster.members().beta(), &beta, "");
}

#[test]
fn members_keep_their_beta(rt: HostRuntime) {
    let alloc = rt.alloc();
    assert_sends_ahead(&rt, alloc, 0, 1);
    assert_sends_ahead(&rt, alloc, 2, 2);
}

fn assert_counts<R: Abort>(rt: &R, cluster: &Cluster) {
    let found = (cluster.messages(), cluster.events(), cluster.commands());
    assert_same(rt, &found, &(8, 14, 2), "");
}

// Checks that message 4 is the suggestion of the second command.
fn assert_suggested<R: Abort>(rt: &R, cluster: &Cluster) {
    let suggestion = Message::Suggest {
        from: 1,
        inst: 1,
        ticket: 1,
    };
    assert!(rt; cluster.message(4) == Some(suggestion));
}

// Checks that the first event is the first submission, and that the second command belongs to client 2.
fn assert_submitted<R: Abort>(rt: &R, cluster: &Cluster) {
    let submission = Entry::Submit {
        server: 0,
        ticket: 0,
    };
    assert!(rt; cluster.journal().first() == Some(&submission));
    let client = cluster.command(1).map(|command| command.id().client);
    assert_same(rt, &client, &Some(2), "");
}

#[test]
fn lists_answer(rt: HostRuntime) {
    let cluster = cluster_after(&rt, rt.alloc(), GET_AT_ANOTHER_SERVER);
    assert_counts(&rt, &cluster);
    assert_suggested(&rt, &cluster);
    assert_submitted(&rt, &cluster);
}

// Checks the replies of clients 1 and 2 after a schedule, in words.
fn assert_replies<R: Abort>(rt: &R, alloc: Global, schedule: &str, wanted: [&str; 2]) {
    let cluster = cluster_after(rt, alloc, schedule);
    assert_same(rt, &[shown(&cluster, 1), shown(&cluster, 2)], &wanted, "");
}

#[test]
fn replies_answer(rt: HostRuntime) {
    let alloc = rt.alloc();
    assert_replies(&rt, alloc, GET_AT_ANOTHER_SERVER, ["none", "x"]);
    let wanted = ["pending", "not submitted"];
    assert_replies(&rt, alloc, REVOKED_AND_SUGGESTED_AGAIN, wanted);
}
