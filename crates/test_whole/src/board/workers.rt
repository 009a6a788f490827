//! Tests of workers. They run side by side, and a turn waits for the lock.
use super::fixtures::{assert_counts, new_board, plan_over, set_number};
use crate::same::assert_same;
use mencius_board::{Board, Gate, Plan, lend, run_workers};
use std::alloc::Global;
use std::panic::Expect;
use std::process::Abort;
use std::sync::atomic::{AtomicBool, Ordering};
use std::sync::{Mutex, Wait};
use std::thread;

// Returns a plan of workers that take one turn each, over three servers with one command each.
fn plan_of<R: Abort>(rt: &R, alloc: Global, workers: u8, seed: u64) -> Plan {
    let mut lists = Vec::new(alloc);
    for number in 0..3 {
        let mut list = Vec::new(alloc);
        list.push(set_number(rt, alloc, number))
            .expect(rt, "memory");
        lists.push(list).expect(rt, "memory");
    }
    plan_over(rt, workers, seed, 1, lists)
}

// A gate that makes each of two workers set its own flag, and then look for the other's flag at most `LOOKS` times.
#[derive(Drop)]
struct Meeting {
    here: [AtomicBool; 2],
    missed: AtomicBool,
}

const LOOKS: u32 = 100_000_000;

// Whether the flag is set within this number of looks.
fn is_set_within(flag: &AtomicBool, looks: u32) -> bool {
    for _ in 0..looks {
        if flag.load(Ordering::SeqCst) {
            return true;
        }
    }
    false
}

impl Gate for Meeting {
    fn pass(&self, worker: u8) {
        let (own, other) = if worker == 0 {
            (&self.here[0], &self.here[1])
        } else {
            (&self.here[1], &self.here[0])
        };
        own.store(true, Ordering::SeqCst);
        if !is_set_within(other, LOOKS) {
            self.missed.store(true, Ordering::SeqCst);
        }
    }
}

impl Meeting {
    fn new() -> Meeting {
        Meeting {
            here: [AtomicBool::new(false), AtomicBool::new(false)],
            missed: AtomicBool::new(false),
        }
    }

    // Whether both workers came and neither missed the other.
    fn are_met(&self) -> bool {
        let [zero, one] = &self.here;
        zero.load(Ordering::SeqCst)
            && one.load(Ordering::SeqCst)
            && !self.missed.load(Ordering::SeqCst)
    }
}

#[test]
fn two_workers_meet(rt: HostRuntime) {
    let alloc = rt.alloc();
    let plan = plan_of(&rt, alloc, 2, 1);
    let gate = Meeting::new();
    let board = Mutex::new(new_board(&rt, alloc, 3, 1));
    let choosers = run_workers(&rt, alloc, &board, &plan, &gate).expect(&rt, "a run");
    assert_same(&rt, &choosers.len(), &2, "");
    drop(board.into_inner().end(&rt));
    assert!(rt; gate.are_met());
}

// A gate that lets the only worker take its turn once another thread has the lock. Its flag `passed` then shows that
// thread that the worker has passed the gate.
#[derive(Drop)]
struct Late {
    held: AtomicBool,
    passed: AtomicBool,
}

impl Gate for Late {
    fn pass(&self, _worker: u8) {
        is_set_within(&self.held, LOOKS);
        self.passed.store(true, Ordering::SeqCst);
    }
}

// Keeps the lock until the worker passes the gate, and then long enough for the worker to reach the lock.
fn keep_lock<R: Wait>(rt: &R, board: &Mutex<Board>, gate: &Late) -> bool {
    lend(rt, board, |_board| {
        gate.held.store(true, Ordering::SeqCst);
        let passed = is_set_within(&gate.passed, LOOKS);
        let never = AtomicBool::new(false);
        passed && !is_set_within(&never, LOOKS / 50)
    })
}

#[test]
fn a_turn_waits_for_the_lock(rt: HostRuntime) {
    let alloc = rt.alloc();
    // The first words of this seed pick the next command.
    let plan = plan_of(&rt, alloc, 1, 24);
    let gate = Late {
        held: AtomicBool::new(false),
        passed: AtomicBool::new(false),
    };
    let board = Mutex::new(new_board(&rt, alloc, 3, 1));
    let (kept, ran) = thread::join(
        &rt,
        || keep_lock(&rt, &board, &gate),
        || run_workers(&rt, alloc, &board, &plan, &gate).is_ok(),
    );
    let cluster = board.into_inner().end(&rt);
    assert!(rt; kept && ran);
    assert_counts(&rt, &cluster, (1, 1));
}
