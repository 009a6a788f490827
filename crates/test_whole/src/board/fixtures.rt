//! Commands, clusters and boards that the tests share.
ghost use Rattle.mencius_base.specs.Limits.{most_readers};
ghost use Rattle.std.specs.Prelude.{◌≡◌, ◌<◌, ◌≤◌};

use crate::same::assert_same;
use mencius_base::{Command, CommandId, Event, Key, Members, Op, Text};
use mencius_board::{Board, Plan};
use mencius_cluster::Cluster;
use std::alloc::Global;
use std::panic::Expect;
use std::process::Abort;
use std::sync::Wait;

// Returns client 1's command with this number. It binds the key `a` to a text.
pub fn set_a<R: Abort>(rt: &R, alloc: Global, number: u32, text: String) -> Command {
    let key = Key::new(String::from_str(alloc, "a").expect(rt, "memory"));
    let text = Text::new(text);
    let id = CommandId { client: 1, number };
    Command::new(id, Op::Set { key, text }).expect(rt, "a command")
}

// Returns client 1's command with this number. It binds the key `a` to the number in decimal digits.
pub fn set_number<R: Abort>(rt: &R, alloc: Global, number: u32) -> Command {
    let text = format!(in alloc; "{number}").expect(rt, "memory");
    set_a(rt, alloc, number, text)
}

// Returns client 1's command with number 0. It binds the key `a` to `x`.
pub fn set_x<R: Abort>(rt: &R, alloc: Global) -> Command {
    let text = String::from_str(alloc, "x").expect(rt, "memory");
    set_a(rt, alloc, 0, text)
}

// Returns a plan with a loss of 4. It is the only place of these tests that names each field of a plan.
pub fn plan_over<R: Abort>(
    rt: &R,
    workers: u8,
    seed: u64,
    turns: u32,
    lists: Vec<Vec<Command>>,
) -> Plan
    ensures { result.workers ≡ workers }
{
    Plan::new(workers, seed, turns, 4, lists).expect(rt, "a plan")
}

pub fn new_cluster<R: Abort>(rt: &R, alloc: Global, servers: u8) -> Cluster {
    let members = Members::new(servers).expect(rt, "members");
    Cluster::new(alloc, members).expect(rt, "memory")
}

pub fn new_board<R: Abort + Wait>(rt: &R, alloc: Global, servers: u8, readers: u8) -> Board
    requires { (0 < readers) × (readers ≤ most_readers) }
{
    let cluster = new_cluster(rt, alloc, servers);
    Board::new(rt, alloc, cluster, readers).expect(rt, "a board")
}

// Takes an event that the board must accept. Returns the number of the first message that it sends.
fn step_board<R: Abort>(rt: &R, board: &mut Board, event: Event) -> u32
    ensures { board.new.book ≡ board.old.book }
{
    let effect = board.step(event).expect(rt, "an accepted event");
    effect.first
}

// Lets the only server suggest, accept, learn and execute a command.
pub fn decide<R: Abort>(rt: &R, board: &mut Board, command: Command)
    ensures { board.new.book ≡ board.old.book }
{
    let server = 0;
    let message = step_board(rt, board, Event::Submit { server, command });
    let message = step_board(rt, board, Event::Deliver { message, server });
    step_board(rt, board, Event::Deliver { message, server });
    step_board(rt, board, Event::Execute { server });
}

// Checks the numbers of a cluster's commands and events.
pub fn assert_counts<R: Abort>(rt: &R, cluster: &Cluster, counts: (u32, u32)) {
    assert_same(rt, &(cluster.commands(), cluster.events()), &counts, "");
}
