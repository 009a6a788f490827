//! Tests of two workers. Their gate lets one turn begin at a time, in a known order. Their run has the same result as a
//! board that takes these turns in this order. A reader next to them finds the list that worker 0 has shown.

use crate::courses::{new_board, new_cluster, plan_of};
use crate::runs::{TWO_WORKERS, is_printed, printed, run_two, take};
use crate::same::assert_same;
use mencius_board::{Board, Chooser, Gate, Plan, Reader, lend};
use mencius_cluster::Cluster;
use std::alloc::Global;
use std::panic::Expect;
use std::process::Abort;
use std::sync::{Condvar, Mutex, Wait};
use std::thread::Threads;

// The number of turns that each of the two workers takes.
const TURNS: usize = 2000;

// The number of turns in the known order, which are all turns except the last turn of each worker. If a worker comes to
// the gate again, its turn has ended. After its last turn, it does not come again. So the last two turns may be taken
// in either order.
const TURNS_IN_ORDER: usize = 2 * TURNS - 2;

// Returns the worker that takes the turn with this number. The workers take turns, worker 0 first, but in each fifth
// round worker 1 is first.
fn worker_of(turn: usize) -> u8 {
    let is_second = turn % 2 == 1;
    let is_fifth = turn / 2 % 5 == 4;
    u8::from(is_second != is_fifth)
}

// The progress of the order.
#[derive(Drop)]
struct Course {
    // The number of turns of the order that have begun.
    turns: usize,
    // The worker whose turn has begun and not ended.
    worker: Option<u8>,
}

impl Course {
    // Ends the turn of a worker that comes to the gate, if it has begun one.
    fn end_turn(&mut self, worker: u8) {
        if self.worker == Some(worker) {
            self.worker = None;
        }
    }

    fn is_to_wait(&self, worker: u8) -> bool {
        self.worker.is_some() || (self.turns < TURNS_IN_ORDER && worker_of(self.turns) != worker)
    }

    fn begin_turn(&mut self, worker: u8) {
        if self.turns < TURNS_IN_ORDER {
            self.turns += 1;
            self.worker = Some(worker);
        }
    }
}

// A gate that makes each of two workers wait for its turns.
#[derive(Drop)]
struct OrderGate<'a, R> {
    rt: &'a R,
    course: Mutex<Course>,
    changed: Condvar,
}

impl<'a, R> OrderGate<'a, R> {
    fn new(rt: &'a R) -> OrderGate<'a, R> {
        let course = Course {
            turns: 0,
            worker: None,
        };
        OrderGate {
            rt,
            course: Mutex::new(course),
            changed: Condvar::new(),
        }
    }
}

impl<R: Wait> Gate for OrderGate<'_, R> {
    fn pass(&self, worker: u8) {
        let mut course = self.course.lock(self.rt);
        course.end_turn(worker);
        self.changed.notify_all();
        let mut course = self
            .changed
            .wait_while(self.rt, course, |course| course.is_to_wait(worker));
        course.begin_turn(worker);
    }
}

// The result of the turns if they are taken on a board.
#[derive(Drop)]
struct Outcome {
    cluster: Cluster,
    // For each turn of worker 1, the number of commands that are shown before it.
    counts: Vec<u32>,
}

// Shows the board. Returns the number of commands that it then shows.
fn show<R: Abort + Wait>(rt: &R, alloc: Global, board: &mut Board) -> u32 {
    board.show(rt, alloc).expect(rt, "News").count()
}

// Takes the turns in their order, and the last two turns in the order `last_two`. Shows the board after each 64th turn
// of worker 0. Returns the number of commands that are shown before each turn of worker 1.
fn take_turns<R: Abort + Wait>(
    rt: &R,
    alloc: Global,
    board: &mut Board,
    plan: &Plan,
    last_two: [u8; 2],
) -> Vec<u32> {
    assert!(rt; plan.workers() == 2);
    let mut zero = Chooser::new(plan, 0);
    let mut one = Chooser::new(plan, 1);
    let mut counts = Vec::new(alloc);
    let mut count = 0;
    let mut turns: u32 = 0;
    for worker in (0..TURNS_IN_ORDER).map(worker_of).chain(last_two) {
        if worker == 0 {
            take(rt, board, &mut zero);
            turns = turns.wrapping_add(1);
            if turns % 64 == 0 {
                count = show(rt, alloc, board);
            }
        } else {
            counts.push(count).expect(rt, "memory");
            take(rt, board, &mut one);
        }
    }
    counts
}

fn outcome_of<R: Abort + Wait>(rt: &R, alloc: Global, last_two: [u8; 2]) -> Outcome {
    let scenario = plan_of(rt, alloc, TWO_WORKERS);
    let mut board = new_board(rt, alloc, new_cluster(rt, alloc, scenario.members));
    let counts = take_turns(rt, alloc, &mut board, &scenario.course, last_two);
    let cluster = board.end(rt);
    Outcome { cluster, counts }
}

// Whether a text is the output for the turns, with the last two turns in this order.
fn is_of_turns<R: Abort + Wait>(rt: &R, alloc: Global, text: &str, last_two: [u8; 2]) -> bool {
    let outcome = outcome_of(rt, alloc, last_two);
    is_printed(rt, alloc, text, &outcome.cluster)
}

#[test]
fn a_run_is_a_board_that_is_stepped_in_order(rt: HostRuntime) {
    let alloc = rt.alloc();
    let written = printed(&rt, alloc, TWO_WORKERS, &OrderGate::new(&rt));
    let text = written.as_str();
    assert!(rt; is_of_turns(&rt, alloc, text, [0, 1]) || is_of_turns(&rt, alloc, text, [1, 0]));
}

// A reader that looks up `a` again and again.
#[derive(Drop)]
struct Looks {
    reader: Reader,
    lookups: usize,
    // Whether each lookup found a list with the expected number of commands.
    are_right: bool,
}

impl Looks {
    fn look(&mut self, alloc: Global, counts: &[u32]) {
        let found = self.reader.lookup(alloc, "a");
        let is_right = found.is_ok() && counts.get(self.lookups) == Some(&self.reader.count());
        self.are_right = self.are_right && is_right;
        self.lookups = self.lookups.wrapping_add(1);
    }
}

// A gate that makes a reader look before each turn of worker 1. Meanwhile, worker 0 waits or takes its last turn, which
// does not show.
#[derive(Drop)]
struct ReaderGate<'a, R> {
    order: OrderGate<'a, R>,
    alloc: Global,
    counts: &'a [u32],
    looks: Mutex<Looks>,
}

impl<'a, R> ReaderGate<'a, R> {
    fn new(rt: &'a R, alloc: Global, reader: Reader, counts: &'a [u32]) -> ReaderGate<'a, R> {
        let looks = Looks {
            reader,
            lookups: 0,
            are_right: true,
        };
        ReaderGate {
            order: OrderGate::new(rt),
            alloc,
            counts,
            looks: Mutex::new(looks),
        }
    }
}

impl<R: Wait> Gate for ReaderGate<'_, R> {
    fn pass(&self, worker: u8) {
        self.order.pass(worker);
        if worker == 1 {
            lend(self.order.rt, &self.looks, |looks| {
                looks.look(self.alloc, self.counts)
            });
        }
    }
}

// Returns the looks of a reader next to two workers. `counts` has the expected number of commands for each look.
fn looks_beside<R: Abort + Threads + Wait + Sync>(rt: &R, alloc: Global, counts: &[u32]) -> Looks {
    let scenario = plan_of(rt, alloc, TWO_WORKERS);
    let mut board = new_board(rt, alloc, new_cluster(rt, alloc, scenario.members));
    let reader = board.reader().expect(rt, "a reader");
    let gate = ReaderGate::new(rt, alloc, reader, counts);
    let board = Mutex::new(board);
    run_two(rt, alloc, &board, &scenario.course, &gate);
    drop(board.into_inner().end(rt));
    gate.looks.into_inner()
}

#[test]
fn a_reader_beside_workers_finds_what_is_shown(rt: HostRuntime) {
    let alloc = rt.alloc();
    let counts = outcome_of(&rt, alloc, [0, 1]).counts;
    assert_same(&rt, &counts.len(), &TURNS, "");
    assert!(rt; counts.last().is_some_and(|&count| 0 < count));
    let looks = looks_beside(&rt, alloc, counts.as_slice());
    assert!(rt; looks.are_right && looks.lookups == TURNS);
}
