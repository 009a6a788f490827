//! Tests of the workers of a run. A single worker takes its turns on a board one after the other, and each turn passes
//! the gate.

use crate::courses::{new_board, new_cluster, plan_of};
use crate::same::assert_same;
use mencius_app::{AppFault, Open, Std, report, run};
use mencius_base::{Command, CommandId, Entry, Op};
use mencius_board::{Board, Chooser, Gate, Plan, lend, run_workers, worker_turn};
use mencius_cluster::Cluster;
use std::alloc::{AllocError, Global};
use std::panic::Expect;
use std::process::Abort;
use std::sync::atomic::{AtomicU64, Ordering};
use std::sync::{Mutex, Wait};
use std::thread::Threads;

// Three servers and one worker.
const ONE_WORKER: &str = "{\"version\":1,\"servers\":3,\"workers\":1,\"seed\":1,\"turns\":2000,\
    \"loss\":4,\"commands\":[[\"1.0 set a x\"],[\"2.0 get a\"],[\"3.0 del a\"]]}";

// Makes a run that writes its journal before the report.
fn ran<R: Threads + Wait + Sync, G: Gate + Sync>(
    rt: &R,
    alloc: Global,
    scenario: &str,
    gate: &G,
    written: &mut Vec<u8>,
) -> Result<(), AppFault> {
    let mut source = Std::new(scenario.as_bytes());
    let mut sink = Std::new(written);
    run(rt, alloc, &mut source, &mut sink, gate, true, None)
}

/// Returns the text that a run prints, with its journal before the report.
pub fn printed<R: Abort + Threads + Wait + Sync, G: Gate + Sync>(
    rt: &R,
    alloc: Global,
    scenario: &str,
    gate: &G,
) -> String {
    let mut written = Vec::new(alloc);
    let answer = ran(rt, alloc, scenario, gate, &mut written);
    assert_same(rt, &answer, &Ok(()), "");
    String::from_utf8(written).expect(rt, "a text")
}

/// Takes a turn of a worker, which must succeed.
pub fn take<R: Abort>(rt: &R, board: &mut Board, chooser: &mut Chooser) {
    let answer = worker_turn(board, chooser);
    assert_same(rt, &answer, &Ok(()), "");
}

// Takes all turns of a run's only worker on a board.
fn take_all<R: Abort>(rt: &R, board: &mut Board, plan: &Plan) {
    assert!(rt; plan.workers() == 1);
    let mut chooser = Chooser::new(plan, 0);
    for _ in 0..2000 {
        take(rt, board, &mut chooser);
    }
}

// Returns a cluster after the turns of a run's only worker, each taken on a board.
fn cluster_of_turns<R: Abort + Wait>(rt: &R, alloc: Global, scenario: &str) -> Cluster {
    let scenario = plan_of(rt, alloc, scenario);
    let mut board = new_board(rt, alloc, new_cluster(rt, alloc, scenario.members));
    take_all(rt, &mut board, &scenario.course);
    board.end(rt)
}

// Returns the report of a cluster.
fn report_of<R: Abort>(rt: &R, alloc: Global, cluster: &Cluster) -> Vec<u8> {
    let mut taken = Vec::new(alloc);
    let answer = report(alloc, cluster, &mut Std::new(&mut taken));
    assert_same(rt, &answer, &Ok(()), "");
    taken
}

// Adds the text of a command, with its identity and its operation.
fn push_command(line: &mut String, command: &Command) -> Result<(), AllocError> {
    let CommandId { client, number } = command.id();
    write!(line, "{client}.{number} ")?;
    push_op(line, command.op())
}

// Adds the text of an operation of `ONE_WORKER`: its word, its key and its text.
fn push_op(line: &mut String, op: &Op) -> Result<(), AllocError> {
    match op {
        Op::Set { key, text } => write!(line, "set {} {}", key.as_str(), text.as_str()),
        Op::Get { key } => write!(line, "get {}", key.as_str()),
        Op::Del { key } => write!(line, "del {}", key.as_str()),
        _ => line.push_str("another operation"),
    }
}

// Adds the text of a cluster's event, with its word, and its numbers or its command.
fn push_entry<R: Abort>(
    rt: &R,
    line: &mut String,
    cluster: &Cluster,
    entry: &Entry,
) -> Result<(), AllocError> {
    match *entry {
        Entry::Submit { server, ticket } => {
            write!(line, "submit {server} ")?;
            push_command(line, cluster.command(ticket).expect(rt, "a command"))
        }
        Entry::Deliver { message, server } => write!(line, "deliver {message} {server}"),
        Entry::Lose { message, server } => write!(line, "lose {message} {server}"),
        Entry::Suspect { server, suspected } => write!(line, "suspect {server} {suspected}"),
        Entry::Retry { server } => write!(line, "retry {server}"),
        Entry::Execute { server } => write!(line, "execute {server}"),
    }
}

// Returns all events of a cluster as a scenario on one line, without the line break. The fields are sorted, with no
// space between them. No server looks ahead, so the scenario has no `beta`. No command compares and sets, so the
// version is 1.
fn line_of<R: Abort>(rt: &R, alloc: Global, cluster: &Cluster) -> Result<String, AllocError> {
    let mut line = String::new(alloc);
    line.push_str("{\"events\":[")?;
    let mut before = "\"";
    for entry in cluster.journal() {
        line.push_str(before)?;
        push_entry(rt, &mut line, cluster, entry)?;
        line.push('"')?;
        before = ",\"";
    }
    let servers = cluster.servers();
    write!(line, "],\"servers\":{servers},\"version\":1}}")?;
    Ok(line)
}

/// Whether a run's text is the line of a cluster's events and then the cluster's report, byte for byte.
pub fn is_printed<R: Abort>(rt: &R, alloc: Global, text: &str, cluster: &Cluster) -> bool {
    let (line, rest) = text.split_once('\n').expect(rt, "one line");
    let wanted = line_of(rt, alloc, cluster).expect(rt, "memory");
    line == wanted.as_str() && report_of(rt, alloc, cluster).as_slice() == rest.as_bytes()
}

#[test]
fn one_worker_is_a_board_that_is_stepped(rt: HostRuntime) {
    let alloc = rt.alloc();
    let text = printed(&rt, alloc, ONE_WORKER, &Open);
    let cluster = cluster_of_turns(&rt, alloc, ONE_WORKER);
    assert!(rt; is_printed(&rt, alloc, text.as_str(), &cluster));
}

// Returns a cluster after a run's only worker ran on a board under a lock.
fn cluster_of_run<R: Abort + Threads + Wait + Sync>(
    rt: &R,
    alloc: Global,
    scenario: &str,
) -> Cluster {
    let scenario = plan_of(rt, alloc, scenario);
    let cluster = new_cluster(rt, alloc, scenario.members);
    let board = Mutex::new(new_board(rt, alloc, cluster));
    let choosers = run_workers(rt, alloc, &board, &scenario.course, &Open).expect(rt, "a run");
    assert_same(rt, &choosers.len(), &1, "");
    board.into_inner().end(rt)
}

#[test]
fn one_worker_under_a_lock_does_what_is_printed(rt: HostRuntime) {
    let alloc = rt.alloc();
    let text = printed(&rt, alloc, ONE_WORKER, &Open);
    let cluster = cluster_of_run(&rt, alloc, ONE_WORKER);
    assert!(rt; is_printed(&rt, alloc, text.as_str(), &cluster));
}

/// Three servers and two workers.
pub const TWO_WORKERS: &str =
    "{\"version\":1,\"servers\":3,\"workers\":2,\"seed\":1,\"turns\":2000,\
    \"loss\":4,\"commands\":[[\"1.0 set a x\"],[\"2.0 get a\"],[\"3.0 del a\"]]}";

// Counts how often each of two workers passes the gate.
#[derive(Drop)]
struct Counting {
    passed: [AtomicU64; 2],
}

impl Gate for Counting {
    fn pass(&self, worker: u8) {
        if let Some(count) = self.passed.get(usize::from(worker)) {
            count.fetch_add(1, Ordering::SeqCst);
        }
    }
}

/// Runs two workers on a board.
pub fn run_two<R: Abort + Threads + Wait + Sync, G: Gate + Sync>(
    rt: &R,
    alloc: Global,
    board: &Mutex<Board>,
    plan: &Plan,
    gate: &G,
) {
    let choosers = run_workers(rt, alloc, board, plan, gate).expect(rt, "a run");
    assert_same(rt, &choosers.len(), &2, "");
}

fn assert_passed<R: Abort>(rt: &R, gate: &Counting) {
    for count in &gate.passed {
        assert_same(rt, &count.load(Ordering::SeqCst), &2000, "");
    }
}

#[test]
fn each_turn_passes_the_gate(rt: HostRuntime) {
    let alloc = rt.alloc();
    let scenario = plan_of(&rt, alloc, TWO_WORKERS);
    let gate = Counting {
        passed: [AtomicU64::new(0), AtomicU64::new(0)],
    };
    let cluster = new_cluster(&rt, alloc, scenario.members);
    let board = Mutex::new(new_board(&rt, alloc, cluster));
    run_two(&rt, alloc, &board, &scenario.course, &gate);
    let shown = lend(&rt, &board, |board| board.show(&rt, alloc).is_ok());
    assert!(rt; shown);
    let cluster = board.into_inner().end(&rt);
    assert!(rt; 0 < cluster.events());
    assert_passed(&rt, &gate);
}
