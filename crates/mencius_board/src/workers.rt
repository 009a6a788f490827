//! Workers step one board, each in its own thread.
ghost use Rattle.std.specs.Prelude.{◌≡◌, ◌<◌, ◌≤◌, ◌+◌, ◌^◌, ℕ, Err, IfErr, IfOk, MatchOption, MatchResult, vec_len, vec_capacity, slice_index_or};
ghost use Rattle.std.specs.Fn.{FnOnceReturnsAtMut};
ghost use Rattle.mencius_choices.specs.Choices.{after_words, chooser_at};
ghost use Rattle.mencius_board.specs.Turns.{EndsTurn, IsAfterTurn, TakesTurn, is_to_show};
ghost use Rattle.mencius_board.specs.Faults.{IsRunFault, IsTurnFault};
ghost use Rattle.mencius_board.specs.Workers.{Answers, HasEnded, HaveEnded, HaveFailed, HaveTurned, choosers_or_fault};
ghost use Rattle.mencius_board.specs.declared.fault.BoardFault.TheVariants.{NoWorker};

use crate::board::Board;
use crate::fault::BoardFault;
use mencius_base::{NoMemory, Plan};
use mencius_choices::{Chooser, Progress};
use std::alloc::Global;
use std::sync::{Mutex, Wait};
use std::thread;
use std::thread::{Promise, PromisedHandle, Scope, Threads};

/// Takes one turn of a worker. The call chooses one event, as [`Chooser::choose`] does, and steps the board through it.
/// A turn also ends well if the event is refused, except with `NoMemory`.
///
/// Fails with `NoMemory` if the choice or the step runs out of memory. The board is then unchanged, and the chooser is
/// as the choice left it.
pub fn worker_turn(board: &mut Board, chooser: &mut Chooser) -> Result<(), BoardFault>
    ensures turn { EndsTurn chooser.old chooser.new board.old board.new result }
    ensures drawn { chooser.new.drawing ≡ after_words chooser.old.drawing }
{
    let event = chooser.choose(board.cluster())?;
    match board.step(event) {
        Ok(_) => Ok(()),
        Err(refusal) => {
            refusal.memory_apart()?;
            Ok(())
        }
    }
}

/// A worker passes a gate before each of its turns, before it takes the lock. A gate can count turns, slow workers down
/// or let them meet. Threads share it.
pub trait Gate {
    /// Lets the worker with this number pass. The worker is about to take a turn.
    fn pass(&self, worker: u8);
}

/// A gate that lets each worker pass at once.
pub struct Open;

impl Gate for Open {
    fn pass(&self, _worker: u8) {}
}

/// Takes the lock, lends the value under it to `f`, and returns the result of `f`.
///
/// The function is generic in the type of that value. Releasing the guard of a lock requires a way to drop the value
/// under it, and a board cannot be dropped.
pub fn lend<B, X, R: Wait, F: FnOnce(&mut B) -> X>(rt: &R, lock: &Mutex<B>, f: F) -> X
    requires { F.IsAlwaysCallable f }
    ensures { (old new : B) × FnOnceReturnsAtMut F.FnOnce f old result new }
{
    let mut held = lock.lock(rt);
    f(&mut held)
}

/// Worker 0 shows the longest history each time that it has taken this number of turns.
const TURNS_A_SHOW: u32 = 64;

// How a worker ended. This is its progress after all turns, or its fault.
type Ended = Result<Progress, BoardFault>;

// Takes all turns of one worker, up to its first fault.
fn work<R: Wait, G: Gate>(
    rt: &R,
    alloc: Global,
    board: &Mutex<Board>,
    plan: &Plan,
    gate: &G,
    worker: u8,
) -> Ended
    requires { worker < plan.now.workers }
    ensures { HasEnded plan.now worker result }
{
    let mut progress = Chooser::new(plan, worker).into_progress();
    for turn in 0..plan.turns() {
        gate.pass(worker);
        let shows = is_to_show(worker, turn);
        let (next, answer) = lend(
            rt,
            board,
            |board| -> (Progress, Result<(), BoardFault>)
                ensures { TakesTurn (chooser_at plan.entry.now progress)
                    (chooser_at plan.entry.now result.0) board.old board.new shows result.1
                    × (result.0.drawing ≡ after_words progress.drawing)
                    × IfErr result.1 (IsTurnFault shows) }
            { go_on(rt, alloc, board, plan, progress, shows) },
        );
        progress = next;
        answer?;
    }
    Ok(progress)
}

// Takes the next turn of a worker with this progress. Returns the progress after the turn, and the turn's result.
fn go_on<R: Wait>(
    rt: &R,
    alloc: Global,
    board: &mut Board,
    plan: &Plan,
    progress: Progress,
    shows: bool,
) -> (Progress, Result<(), BoardFault>)
    ensures turn { TakesTurn (chooser_at plan.now progress) (chooser_at plan.now result.0)
        board.old board.new shows result.1 }
    ensures drawn { result.0.drawing ≡ after_words progress.drawing }
    ensures fault { IfErr result.1 (IsTurnFault shows) }
{
    let mut chooser = Chooser::of(plan, progress);
    let answer = take_turn(rt, alloc, board, &mut chooser, shows);
    (chooser.into_progress(), answer)
}

/// Takes one turn. If `shows` is set and the turn ended well, the call then shows the longest history.
pub(crate) fn take_turn<R: Wait>(
    rt: &R,
    alloc: Global,
    board: &mut Board,
    chooser: &mut Chooser,
    shows: bool,
) -> Result<(), BoardFault>
    ensures turn { TakesTurn chooser.old chooser.new board.old board.new shows result }
    ensures drawn { chooser.new.drawing ≡ after_words chooser.old.drawing }
    ensures fault { IfErr result (IsTurnFault shows) }
{
    let turned = worker_turn(board, chooser);
    show_after(rt, alloc, board, turned, shows)
}

/// Returns whether a worker that has taken `taken` turns shows the longest history after its next turn.
pub(crate) fn is_to_show(worker: u8, taken: u32) -> bool
    requires { taken + 1 < 2 ^ 32 }
    ensures { result ≡ is_to_show worker taken }
{
    worker == 0 && (taken + 1) % TURNS_A_SHOW == 0
}

// Shows the longest history if `shows` is set and the turn ended well. `turned` is the result of the turn.
fn show_after<R: Wait>(
    rt: &R,
    alloc: Global,
    board: &mut Board,
    turned: Result<(), BoardFault>,
    shows: bool,
) -> Result<(), BoardFault>
    ensures { IsAfterTurn shows board.old board.new turned result }
{
    if !shows {
        return turned;
    }
    turned?;
    drop(board.show(rt, alloc)?);
    Ok(())
}

// The promise of a worker's thread, which returns how the worker of this plan ended.
#[derive(Clone, Copy)]
struct ProgressOf<'p> {
    plan: &'p Plan,
    worker: u8,
}

impl<'p> Promise<Result<Progress, BoardFault>> for ProgressOf<'p> {
    ghost use Rattle.mencius_board.specs.Workers.{HasEnded};

    ghost kept_by = { λ x r. HasEnded x.plan.now x.worker r };
}

// The thread of a worker, or `None` if it could not be started.
type Running<'p> = Option<PromisedHandle<Result<Progress, BoardFault>, ProgressOf<'p>>>;

/// Joins a worker's thread and returns its result. If there is no thread, the result is `NoWorker`.
pub(crate) fn join_started<T, P: Promise<Result<T, BoardFault>>, R: Threads>(
    rt: &R,
    child: Option<PromisedHandle<Result<T, BoardFault>, P>>,
) -> Result<T, BoardFault>
    ensures { MatchOption child (result ≡ Err NoWorker) (λ h. P.kept_by h.promise result) }
{
    match child {
        Some(child) => child.join(rt),
        None => Err(BoardFault::NoWorker),
    }
}

// Joins each worker. Returns how the workers ended, by worker number.
fn gather<'p, R: Threads>(
    rt: &R,
    mut ends: Vec<Ended>,
    running: Vec<Running<'p>>,
    plan: &'p Plan,
) -> Vec<Ended>
    requires empty { vec_len ends ≡ 0 }
    requires room { vec_len running ≤ vec_capacity ends }
    requires each { (n : ℕ) (d : _) → n < vec_len running
        → Answers plan.now n (slice_index_or running.items n d) }
    ensures len { vec_len result ≡ vec_len running.entry }
    ensures each { HaveEnded result.items plan.now (vec_len running.entry) }
{
    for child in running {
        let end = join_started(rt, child);
        ends.push_reserved(end);
    }
    ends
}

// Starts the workers in a scope and joins them. Returns how they ended, by worker number.
fn start_and_join<'s, E, R: Threads + Wait + Sync + 's, G: Gate + Sync + 's>(
    scope: &Scope<'s, E>,
    rt: &'s R,
    alloc: Global,
    board: &'s Mutex<Board>,
    plan: &'s Plan,
    gate: &'s G,
) -> Result<Vec<Ended>, NoMemory>
    ensures len { IfOk result (λ x. vec_len x ≡ plan.now.workers) }
    ensures each { IfOk result (λ x. HaveEnded x.items plan.now plan.now.workers) }
{
    let many = usize::from(plan.workers());
    let ends = Vec::with_capacity(alloc, many)?;
    let mut running = Vec::with_capacity(alloc, many)?;
    for worker in 0..plan.workers() {
        let promise = ProgressOf { plan, worker };
        let child = scope.spawn_with(promise, move || work(rt, alloc, board, plan, gate, worker));
        running.push_reserved(child.ok());
    }
    Ok(gather(rt, ends, running, plan))
}

// Returns the choosers by worker number, or the fault of the worker with the lowest number that has one.
fn settle<'p>(
    plan: &'p Plan,
    ends: Vec<Ended>,
    mut choosers: Vec<Chooser<'p>>,
) -> Result<Vec<Chooser<'p>>, BoardFault>
    requires empty { vec_len choosers ≡ 0 }
    requires room { vec_len ends ≤ vec_capacity choosers }
    ensures { MatchResult result (λ x. choosers_or_fault plan.now ends.items ≡ Ok x.items)
        (λ f. choosers_or_fault plan.now ends.items ≡ Err f) }
{
    for end in ends {
        let progress = end?;
        choosers.push_reserved(Chooser::of(plan, progress));
    }
    Ok(choosers)
}

/// Makes each worker of the plan take all of its turns, in its own thread. Returns the choosers by worker number.
///
/// For each turn, a worker passes the gate, takes the lock and makes one [`worker_turn`]. After each 64th of its turns,
/// worker 0 also shows the longest history before it releases the lock.
///
/// A worker ends at its first fault, and all others go on. The call fails with `NoMemory` if there is not enough memory
/// to start. Otherwise, if any worker has a fault, it fails with the fault of the lowest worker that has one:
///
/// - `NoMemory`;
/// - `NoWorker`, if its thread could not be started;
/// - `ShowRefused`, which only worker 0 can have, from its 64th turn on.
pub fn run_workers<'p, R: Threads + Wait + Sync, G: Gate + Sync>(
    rt: &R,
    alloc: Global,
    board: &Mutex<Board>,
    plan: &'p Plan,
    gate: &G,
) -> Result<Vec<Chooser<'p>>, BoardFault>
    ensures len { IfOk result (λ x. vec_len x ≡ plan.now.workers) }
    ensures each { IfOk result (λ x. HaveTurned x.items plan.now) }
    ensures failed { IfErr result (HaveFailed plan.now) }
    ensures fault { IfErr result (IsRunFault plan.now.turns) }
{
    let choosers = Vec::with_capacity(alloc, usize::from(plan.workers()))?;
    let ends = thread::scope(
        thread::scope_env(),
        rt,
        |scope| -> Result<Vec<Ended>, NoMemory>
            ensures { IfOk result (λ x. (vec_len x ≡ plan.entry.now.workers)
                × HaveEnded x.items plan.entry.now plan.entry.now.workers) }
        { start_and_join(scope, rt, alloc, board, plan, gate) },
    )?;
    settle(plan, ends, choosers)
}
