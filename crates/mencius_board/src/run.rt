//! A run makes the workers of a plan take all of their turns on one board. Each worker has its own thread.
ghost use Rattle.std.specs.Prelude.{◌≡◌, ◌<◌, map, replicate, IfErr, IfOk, Ok, OnOk};
ghost use Rattle.mencius_base.specs.Members.{numbers_below};
ghost use Rattle.mencius_board.specs.Boards.{BoardState};
ghost use Rattle.mencius_board.specs.Faults.{IsRunFault};
ghost use Rattle.mencius_board.specs.Runs.{GoesOn, HasFailed, HasRun, HasStopped, first_end};
ghost use Rattle.mencius_choices.specs.Choices.{first_chooser};
ghost use Rattle.mencius_base.specs.Plan.{PlanState};

use crate::board::Board;
use crate::fault::BoardFault;
use crate::workers::{Gate, is_to_show, lend, take_turn};
use mencius_base::{NoMemory, Plan};
use mencius_choices::{Chooser, first_choosers};
use std::alloc::Global;
use std::marker::{Brand, Model, PhantomData, Send, Sync};
use std::sync::{Mutex, Wait};
use std::thread;
use std::thread::{Scope, Threads};

/// The plan of a run, and the board as it was before the first turn.
///
/// After taking a lock, a proof knows only the type's invariant. So the type must know both.
pub trait Job {
    ghost plan: { PlanState };

    ghost first: { BoardState };
}

impl Job for Brand {
    ghost use Rattle.mencius_board.specs.Runs.{no_board, no_plan};

    ghost plan = { no_plan };

    ghost first = { no_board };
}

// The number of turns that a worker took, or the fault at which it ended.
type Way = Result<u32, BoardFault>;

// The value under the lock of a run. Its type ensures that turns of the plan have brought the board to this state. The
// same turns have brought each worker as far as its way says.
struct Run<'p, J: Job> {
    board: Board,
    // The choosers and the ways of the workers, by worker number.
    choosers: Vec<Chooser<'p>>,
    ways: Vec<Way>,
    // The number of turns that each worker must take.
    turns: u32,
    job: PhantomData<J>,
}

impl<'p, J: Job> Model for Run<'p, J> {
    ghost use Rattle.mencius_board.specs.Boards.{BoardState};
    ghost use Rattle.mencius_board.specs.Runs.{IsRun};

    ghost Value = { BoardState };

    ghost view = { λ x. x.board };

    ghost invariant = { λ x. IsRun J.plan J.first x.board x.choosers.items x.ways.items x.turns };
}

impl<'p, J: Job> Run<'p, J> {
    fn new(board: Board, choosers: Vec<Chooser<'p>>, ways: Vec<Way>, turns: u32) -> Run<'p, J>
        requires first { board ≡ J.first }
        requires turns { turns ≡ J.plan.turns }
        requires choosers { choosers.items ≡ map (first_chooser J.plan) (numbers_below J.plan.workers) }
        requires ways { ways.items ≡ replicate J.plan.workers (Ok 0) }
        ensures { result ≡ board }
    {
        Run {
            board,
            choosers,
            ways,
            turns,
            job: PhantomData,
        }
    }

    // Takes the next turn of a worker, unless it has a fault or no turn left. The turn also shows the longest history
    // if `is_to_show` says so. Returns true if the turn was taken and ended without a fault.
    fn advance<R: Wait>(&mut self, rt: &R, alloc: Global, worker: u8) -> bool
        requires { worker < J.plan.workers }
        ensures { GoesOn worker self.old self.new result }
    {
        let seat = usize::from(worker);
        let Ok(taken) = self.ways[seat] else {
            return false;
        };
        if taken >= self.turns {
            return false;
        }
        let shows = is_to_show(worker, taken);
        let answer = take_turn(rt, alloc, &mut self.board, &mut self.choosers[seat], shows);
        match answer {
            Ok(()) => {
                self.ways[seat] = Ok(taken + 1);
                true
            }
            Err(fault) => {
                self.ways[seat] = Err(fault);
                false
            }
        }
    }

    // Records that the thread of a worker could not be started. The worker keeps an earlier fault.
    fn refuse(&mut self, worker: u8)
        requires { worker < J.plan.workers }
        ensures { self.new ≡ self.old }
    {
        let seat = usize::from(worker);
        if self.ways[seat].is_ok() {
            self.ways[seat] = Err(BoardFault::NoWorker);
        }
    }

    // Returns the board, and how the run ended. The end is `Ok` if each worker took all of its turns. Otherwise it is
    // the fault of the first worker that did not. If that worker has no fault, the unfinished run is returned.
    fn into_board(self) -> Result<(Board, Result<(), BoardFault>), Run<'p, J>>
        ensures ran { IfOk result (λ x. OnOk x.1 (HasRun J.plan J.first x.0)) }
        ensures failed { IfOk result (λ x. IfErr x.1 (HasFailed J.plan J.first x.0)) }
        ensures fault { IfOk result (λ x. IfErr x.1 (IsRunFault J.plan.turns)) }
    {
        let Run {
            board,
            choosers,
            ways,
            turns,
            job,
        } = self;
        match first_end(ways.as_slice(), turns) {
            Some(end) => Ok((board, end)),
            None => Err(Run {
                board,
                choosers,
                ways,
                turns,
                job,
            }),
        }
    }
}

// Returns how these workers ended. The end is `Ok` if each of them took `turns` turns. Otherwise it is the fault of the
// first worker that did not. If that worker has no fault, the result is `None`.
fn first_end(ways: &[Way], turns: u32) -> Option<Result<(), BoardFault>>
    ensures { result ≡ first_end turns ways.now }
{
    for way in ways {
        match *way {
            Ok(taken) => {
                if taken != turns {
                    return None;
                }
            }
            Err(fault) => return Some(Err(fault)),
        }
    }
    Some(Ok(()))
}

// Ends a run whose threads have ended.
//
// No clause says that a thread takes all turns of its worker. If a thread ended early, this function takes the turns
// that are left.
fn finish<'p, J: Job, R: Wait>(
    rt: &R,
    alloc: Global,
    run: Run<'p, J>,
    workers: u8,
) -> (Board, Result<(), BoardFault>)
    requires { workers ≡ J.plan.workers }
    ensures ran { OnOk result.1 (HasRun J.plan J.first result.0) }
    ensures failed { IfErr result.1 (HasFailed J.plan J.first result.0) }
    ensures fault { IfErr result.1 (IsRunFault J.plan.turns) }
{
    let mut left = run;
    for _ in rt.forever() {
        match left.into_board() {
            Ok(end) => return end,
            Err(unfinished) => left = unfinished,
        }
        for worker in 0..workers {
            left.advance(rt, alloc, worker);
        }
    }
    unreachable!()
}

// Takes all turns of one worker, up to its first fault.
fn take_turns<'p, J: Job, R: Wait, G: Gate>(
    rt: &R,
    alloc: Global,
    run: &Mutex<Run<'p, J>>,
    gate: &G,
    worker: u8,
    turns: u32,
)
    requires { worker < J.plan.workers }
{
    for _ in 0..turns {
        gate.pass(worker);
        let goes_on = lend(rt, run, |run| run.advance(rt, alloc, worker));
        if !goes_on {
            return;
        }
    }
}

// Starts the workers in a scope. The end of the scope waits for them.
fn start_threads<'s, 'p, J: Job + Send, E, R: Threads + Wait + Sync + 's, G: Gate + Sync + 's>(
    scope: &Scope<'s, E>,
    rt: &'s R,
    alloc: Global,
    run: &'s Mutex<Run<'p, J>>,
    plan: &Plan,
    gate: &'s G,
)
    requires { plan.now ≡ J.plan }
{
    let turns = plan.turns();
    for worker in 0..plan.workers() {
        let child = scope.spawn(move || take_turns(rt, alloc, run, gate, worker, turns));
        if child.is_err() {
            lend(rt, run, |run| run.refuse(worker));
        }
    }
}

// Takes all turns of all workers, each worker in its own thread.
fn run_threads<'p, J: Job + Send, R: Threads + Wait + Sync, G: Gate + Sync>(
    rt: &R,
    alloc: Global,
    run: &Mutex<Run<'p, J>>,
    plan: &Plan,
    gate: &G,
)
    requires { plan.now ≡ J.plan }
{
    thread::scope(
        thread::scope_env(),
        rt,
        |scope|
            requires { plan.now ≡ J.plan }
        { start_threads(scope, rt, alloc, run, plan, gate) },
    );
}

// Returns the choosers of a plan before any turn, and a way of zero turns for each worker, both by worker number.
fn seats<'p>(alloc: Global, plan: &'p Plan) -> Result<(Vec<Chooser<'p>>, Vec<Way>), NoMemory>
    ensures choosers { IfOk result (λ x. x.0.items
        ≡ map (first_chooser plan.now) (numbers_below plan.now.workers)) }
    ensures ways { IfOk result (λ x. x.1.items ≡ replicate plan.now.workers (Ok 0)) }
{
    let choosers = first_choosers(alloc, plan)?;
    let ways = vec![in alloc; Ok(0); usize::from(plan.workers())]?;
    Ok((choosers, ways))
}

// Runs this plan on this board. The type `J` knows both.
fn run_job<'p, J: Job + Send, R: Threads + Wait + Sync, G: Gate + Sync>(
    rt: &R,
    alloc: Global,
    board: Board,
    plan: &'p Plan,
    gate: &G,
) -> (Board, Result<(), BoardFault>)
    requires first { board ≡ J.first }
    requires plan { plan.now ≡ J.plan }
    ensures ran { OnOk result.1 (HasRun J.plan J.first result.0) }
    ensures stopped { IfErr result.1 (HasStopped J.plan J.first result.0) }
    ensures fault { IfErr result.1 (IsRunFault plan.now.turns) }
{
    let Ok((choosers, ways)) = seats(alloc, plan) else {
        return (board, Err(BoardFault::NoMemory));
    };
    let run = Mutex::new(Run::<J>::new(board, choosers, ways, plan.turns()));
    run_threads(rt, alloc, &run, plan, gate);
    finish(rt, alloc, run.into_inner(), plan.workers())
}

/// Makes each worker of the plan take all of its turns on a board, in its own thread. Returns the board, and how the
/// run ended.
///
/// For each turn, a worker passes the gate, takes a lock that belongs to the run, and makes one
/// [`worker_turn`](crate::worker_turn) with its chooser. After each 64th of its turns, worker 0 also shows the longest
/// history before it releases the lock. If the run ends with `Ok`, exactly these turns have produced the board, in the
/// order in which the workers got the lock.
///
/// A worker ends at its first fault, and all others go on. The run fails with `NoMemory` if there is not enough memory
/// to start. Otherwise, if any worker has a fault, it fails with the fault of the lowest worker that has one:
///
/// - `NoMemory`;
/// - `NoWorker`, if its thread could not be started;
/// - `ShowRefused`, which only worker 0 can have, from its 64th turn on.
///
/// If a thread has left turns of its worker, they are taken without the gate after all threads have ended.
pub fn run_plan<R: Threads + Wait + Sync, G: Gate + Sync>(
    rt: &R,
    alloc: Global,
    board: Board,
    plan: &Plan,
    gate: &G,
) -> (Board, Result<(), BoardFault>)
    ensures ran { OnOk result.1 (HasRun plan.now board result.0) }
    ensures stopped { IfErr result.1 (HasStopped plan.now board result.0) }
    ensures fault { IfErr result.1 (IsRunFault plan.now.turns) }
{
    run_job::<Brand, R, G>(rt, alloc, board, plan, gate)
}
