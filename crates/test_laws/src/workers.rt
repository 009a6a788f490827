//! Runs two workers on a board, and counts the turns that each of them begins.

use crate::watched::Stop;
use mencius_app::Scenario;
use mencius_board::{Board, BoardFault, Gate, Plan, run_plan, run_workers};
use mencius_cluster::Cluster;
use std::alloc::Global;
use std::sync::atomic::{AtomicU32, Ordering};
use std::sync::{Mutex, Wait};
use std::thread::Threads;

// Counts the turns that each of two workers begins.
#[derive(Drop)]
struct TurnCounter {
    turns: [AtomicU32; 2],
}

impl TurnCounter {
    fn new() -> TurnCounter {
        TurnCounter {
            turns: [AtomicU32::new(0), AtomicU32::new(0)],
        }
    }

    fn counts(&self) -> (u32, u32) {
        let [zero, one] = &self.turns;
        (zero.load(Ordering::SeqCst), one.load(Ordering::SeqCst))
    }
}

impl Gate for TurnCounter {
    fn pass(&self, worker: u8) {
        if let Some(count) = self.turns.get(usize::from(worker)) {
            count.fetch_add(1, Ordering::SeqCst);
        }
    }
}

/// Runs the workers of a scenario. If beta is 0, the board is one that others may step. Otherwise, the board belongs to
/// the run alone. Returns a line with the name of the workers' fault, or `Ok`, and the numbers of turns that worker 0
/// and worker 1 began.
pub fn run_counted<R: Threads + Wait + Sync>(
    rt: &R,
    alloc: Global,
    scenario: &Scenario<Plan>,
) -> Result<String, Stop> {
    let Ok(cluster) = Cluster::new(alloc, scenario.members) else {
        return Err(Stop::Elsewhere);
    };
    let Ok(board) = Board::new(rt, alloc, cluster, 1) else {
        return Err(Stop::Elsewhere);
    };
    let gate = TurnCounter::new();
    let ran = if scenario.members.beta() == 0 {
        run_shared(rt, alloc, board, &scenario.course, &gate)
    } else {
        run_alone(rt, alloc, board, &scenario.course, &gate)
    };
    let (zero, one) = gate.counts();
    let name = name_of(ran);
    format!(in alloc; "{name} {zero} {one}\n").map_err(|_| Stop::Elsewhere)
}

// Runs the workers on a board under a lock that others may take too.
fn run_shared<R: Threads + Wait + Sync>(
    rt: &R,
    alloc: Global,
    board: Board,
    plan: &Plan,
    gate: &TurnCounter,
) -> Result<(), BoardFault> {
    let board = Mutex::new(board);
    let ran = run_workers(rt, alloc, &board, plan, gate).map(|_choosers| ());
    drop(board.into_inner().end(rt));
    ran
}

// Runs the workers on a board that belongs to the run alone, as a run of the program does.
fn run_alone<R: Threads + Wait + Sync>(
    rt: &R,
    alloc: Global,
    board: Board,
    plan: &Plan,
    gate: &TurnCounter,
) -> Result<(), BoardFault> {
    let (board, ran) = run_plan(rt, alloc, board, plan, gate);
    drop(board.end(rt));
    ran
}

fn name_of(ran: Result<(), BoardFault>) -> &'static str {
    match ran {
        Ok(()) => "Ok",
        Err(fault) => fault.name(),
    }
}
