//! Tests of single servers. They check the messages that an event makes a server send, and the instances that it
//! teaches, given the messages that were sent before.

ghost use Rattle.std.specs.Prelude.{◌<◌};

use crate::same::assert_same;
use mencius_base::{Ballot, Members, Message, Outbox, Refusal, Value};
use mencius_server::Server;
use std::alloc::Global;
use std::panic::Expect;
use std::process::Abort;

fn hear(
    rt: &impl Abort,
    server: &mut Server,
    message: &Message,
    out: &mut Outbox,
) -> Result<u32, Refusal> {
    let is_addressed = message.is_for(server.members(), server.id());
    assert!(rt; is_addressed, "{message:?} goes to {}", server.id());
    server.hear(message, out)
}

fn suspect(
    rt: &impl Abort,
    server: &mut Server,
    suspected: u8,
    out: &mut Outbox,
) -> Result<(), Refusal> {
    assert!(rt; suspected < server.members().count());
    server.suspect(suspected, out)
}

fn suggest(from: u8, inst: u32, ticket: u32) -> Message {
    Message::Suggest { from, inst, ticket }
}

fn skip(from: u8, first: u32, stop: u32) -> Message {
    Message::Skip { from, first, stop }
}

fn accepted(from: u8, to: u8, inst: u32, ballot: Ballot) -> Message {
    Message::Accepted {
        from,
        to,
        inst,
        ballot,
    }
}

fn learn(from: u8, inst: u32, value: Value) -> Message {
    Message::Learn { from, inst, value }
}

// Creates one of three servers.
fn new_server(rt: &impl Abort, alloc: Global, id: u8) -> Server
    requires { id < 3 }
{
    let members = Members::new(3).expect(rt, "three");
    let server = Server::new(alloc, members, id).expect(rt, "memory");
    assert_is(rt, &server, id);
    server
}

// Checks the number of a server.
fn assert_is(rt: &impl Abort, server: &Server, id: u8) {
    assert!(rt; server.id() == id);
}

// Submits tickets, which the server must accept.
fn submit_all(rt: &impl Abort, server: &mut Server, out: &mut Outbox, tickets: &[u32]) {
    for ticket in tickets {
        submit(rt, server, out, *ticket);
    }
}

fn submit(rt: &impl Abort, server: &mut Server, out: &mut Outbox, ticket: u32) {
    assert_same(rt, &server.submit(ticket, out), &Ok(()), "");
}

// Checks the result of a suspicion.
fn assert_suspects(
    rt: &impl Abort,
    server: &mut Server,
    suspected: u8,
    out: &mut Outbox,
    answer: Result<(), Refusal>,
) {
    assert_same(rt, &suspect(rt, server, suspected, out), &answer, "");
}

// Checks that a message teaches `count` instances.
fn assert_learns(
    rt: &impl Abort,
    server: &mut Server,
    message: &Message,
    out: &mut Outbox,
    count: u32,
) {
    assert_same(rt, &hear(rt, server, message, out), &Ok(count), "");
}

// Checks the messages on the outbox from place `before` on.
fn assert_sent(rt: &impl Abort, out: &Outbox, before: usize, sends: &[Message]) {
    assert_same(rt, &out.messages().get(before..), &Some(sends), "");
}

fn assert_front(rt: &impl Abort, server: &Server, front: u32) {
    assert_same(rt, &server.front(), &front, "");
}

// Checks the value that a server learned at an instance.
fn assert_learned(rt: &impl Abort, server: &Server, inst: u32, value: Option<Value>) {
    assert_same(rt, &(inst, server.learned(inst)), &(inst, value), "");
}

// Checks the numbers of slots and intervals that a server keeps.
fn assert_stored(rt: &impl Abort, server: &Server, counts: (u32, u32)) {
    assert_same(rt, &server.kept(), &counts, "");
}

// Checks that no message is sent if the outbox has no room for both messages that a suggestion calls for.
fn assert_lacks_room(rt: &impl Abort, server: &mut Server, message: &Message, out: &mut Outbox) {
    let answer = hear(rt, server, message, out);
    let found = (answer, server.front(), out.len());
    assert_same(rt, &found, &(Err(Refusal::MessagesFull), 0, 0), "");
}

#[test]
fn suggestion_heard_with_little_room(rt: HostRuntime) {
    let message = suggest(2, 2, 0);
    let mut zero = new_server(&rt, rt.alloc(), 0);
    let mut little = Outbox::new(rt.alloc(), 1);
    assert_lacks_room(&rt, &mut zero, &message, &mut little);
    let mut out = Outbox::new(rt.alloc(), 2);
    assert_learns(&rt, &mut zero, &message, &mut out, 0);
    let sent = [skip(0, 0, 3), accepted(0, 2, 2, Ballot::OWNER)];
    assert_sent(&rt, &out, 0, &sent);
    assert_front(&rt, &zero, 3);
}

// Teaches a no-op at an instance, and checks the ticket that then waits.
fn lose_instance(
    rt: &impl Abort,
    server: &mut Server,
    inst: u32,
    out: &mut Outbox,
    waiting: Option<u32>,
) {
    let answer = hear(rt, server, &learn(1, inst, Value::Noop), out);
    assert_same(rt, &(answer, server.waiting()), &(Ok(1), waiting), "");
}

// Checks the result of a retry, and the ticket that then waits, if any.
fn assert_retries(
    rt: &impl Abort,
    server: &mut Server,
    out: &mut Outbox,
    answer: Result<(), Refusal>,
    waiting: Option<u32>,
) {
    let found = server.retry(out);
    assert_same(rt, &(found, server.waiting()), &(answer, waiting), "");
}

#[test]
fn tickets_wait_by_instance(rt: HostRuntime) {
    let mut zero = new_server(&rt, rt.alloc(), 0);
    let mut out = Outbox::new(rt.alloc(), 5);
    submit_all(&rt, &mut zero, &mut out, &[7, 8, 9]);
    let none = Err(Refusal::NothingWaiting);
    assert_retries(&rt, &mut zero, &mut out, none, None);
    lose_instance(&rt, &mut zero, 6, &mut out, Some(9));
    lose_instance(&rt, &mut zero, 3, &mut out, Some(8));
    assert_learned(&rt, &zero, 3, Some(Value::Noop));
    assert_retries(&rt, &mut zero, &mut out, Ok(()), Some(9));
    assert_retries(&rt, &mut zero, &mut out, Ok(()), None);
    assert_sent(&rt, &out, 3, &[suggest(0, 9, 8), suggest(0, 12, 9)]);
}

// Lets a server hear that server 0 skips an interval. Checks that the server then stores one interval.
fn take_skip(
    rt: &impl Abort,
    server: &mut Server,
    out: &mut Outbox,
    interval: (u32, u32),
    learns: u32,
) {
    let (first, stop) = interval;
    assert_learns(rt, server, &skip(0, first, stop), out, learns);
    assert_stored(rt, server, (0, 1));
}

#[test]
fn a_long_skip_keeps_one_interval(rt: HostRuntime) {
    let mut out = Outbox::new(rt.alloc(), 0);
    let mut one = new_server(&rt, rt.alloc(), 1);
    take_skip(&rt, &mut one, &mut out, (0, 4095), 1365);
}

#[test]
fn two_skips_keep_one_interval_and_a_suggestion_one_slot(rt: HostRuntime) {
    let mut out = Outbox::new(rt.alloc(), 2);
    let mut one = new_server(&rt, rt.alloc(), 1);
    take_skip(&rt, &mut one, &mut out, (3, 6), 1);
    take_skip(&rt, &mut one, &mut out, (0, 3), 1);
    assert_learns(&rt, &mut one, &suggest(0, 6, 0), &mut out, 0);
    assert_stored(&rt, &one, (1, 1));
    assert_learned(&rt, &one, 3, Some(Value::Noop));
    assert_learned(&rt, &one, 6, None);
}

#[test]
fn a_refused_suspicion_keeps_nothing(rt: HostRuntime) {
    let mut one = new_server(&rt, rt.alloc(), 1);
    let mut out = Outbox::new(rt.alloc(), 4);
    submit_all(&rt, &mut one, &mut out, &[0, 1, 2]);
    assert_stored(&rt, &one, (3, 0));
    let full = Err(Refusal::MessagesFull);
    assert_suspects(&rt, &mut one, 0, &mut out, full);
    assert_stored(&rt, &one, (3, 0));
    let mut wide = Outbox::new(rt.alloc(), 4);
    assert_suspects(&rt, &mut one, 0, &mut wide, Ok(()));
    assert_stored(&rt, &one, (7, 0));
}
