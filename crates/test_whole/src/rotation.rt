//! Tests of workers that take turns on one board, and of a reader that gets News from time to time.

ghost use Rattle.std.specs.Prelude.{◌≡◌};

use crate::courses::{new_cluster, plan_of};
use crate::same::assert_same;
use mencius_base::{Command, CommandId, Op};
use mencius_board::{Board, BoardFault, Chooser, Plan, Reader, worker_turn};
use mencius_cluster::{Answered, Cluster};
use std::alloc::{AllocError, Global};
use std::marker::Model;
use std::panic::Expect;
use std::process::Abort;
use std::sync::Wait;

// Five servers and eight workers. Half of the choices lose a message.
const EIGHT_WORKERS: &str = "{\"version\":1,\"servers\":5,\"workers\":8,\"seed\":7,\"turns\":2000,\
    \"loss\":32,\"commands\":[[\"1.0 set a x\",\"1.1 get a\"],[\"2.0 set a y\"],[\"3.0 del a\"],\
    [\"4.0 get a\"],[\"5.0 set b z\"]]}";

// Returns the text that a list of commands leaves at a key.
fn left_at(alloc: Global, commands: &[Command], key: &str) -> Result<Option<String>, AllocError> {
    let mut left = None;
    for command in commands {
        match command.op() {
            Op::Set { key: bound, text } if bound.as_str() == key => left = Some(text.as_str()),
            Op::Del { key: bound } if bound.as_str() == key => left = None,
            Op::Cas {
                key: bound,
                held,
                text,
            } if bound.as_str() == key && left == Some(held.as_str()) => left = Some(text.as_str()),
            _ => {}
        }
    }
    match left {
        Some(text) => Ok(Some(String::from_str(alloc, text)?)),
        None => Ok(None),
    }
}

// A board and its reader.
struct BoardAndReader {
    board: Board,
    reader: Reader,
}

impl Model for BoardAndReader {
    ghost use Rattle.std.specs.Prelude.{◌≡◌};
    ghost use Rattle.mencius_board.specs.Boards.{BoardState};

    ghost Value = { BoardState };

    ghost view = { λ x. x.board };

    ghost invariant = { λ x. x.reader.book ≡ x.board.book };
}

impl BoardAndReader {
    fn new(mut board: Board) -> Result<BoardAndReader, Board> {
        match board.reader() {
            Ok(reader) => Ok(BoardAndReader { board, reader }),
            Err(_) => Err(board),
        }
    }

    // Shows the board, and gives the News to the reader. Returns whether the reader then finds the text that the shown
    // commands leave at `a`.
    fn finds<R: Wait>(&mut self, rt: &R, alloc: Global) -> Result<bool, BoardFault> {
        let news = self.board.show(rt, alloc)?;
        let Ok(left) = left_at(alloc, news.commands(), "a") else {
            return Err(BoardFault::NoMemory);
        };
        self.reader.learn(news);
        let found = self.reader.lookup(alloc, "a")?;
        Ok(found.as_deref() == left.as_deref())
    }

    // Takes a turn of a worker. Returns whether the turn succeeded.
    fn turn(&mut self, chooser: &mut Chooser) -> bool {
        worker_turn(&mut self.board, chooser).is_ok()
    }

    fn end<R: Wait>(self, rt: &R) -> Cluster {
        let BoardAndReader {
            board,
            reader: _reader,
        } = self;
        board.end(rt)
    }
}

// Takes eight turns of each worker, which are 64 turns of eight workers. Returns whether all turns succeeded.
fn turn_all(told: &mut BoardAndReader, choosers: &mut [Chooser]) -> bool {
    let mut are_well = true;
    for _ in 0..8 {
        for chooser in &mut *choosers {
            are_well = told.turn(chooser) && are_well;
        }
    }
    are_well
}

// Takes all turns of a plan's workers. Returns whether all turns succeeded, and whether the reader found the right text
// after each 64 turns.
fn rotate<R: Wait>(
    rt: &R,
    alloc: Global,
    told: &mut BoardAndReader,
    choosers: &mut [Chooser],
) -> bool {
    for _ in 0..250 {
        let are_well = turn_all(told, choosers);
        if !are_well || told.finds(rt, alloc) != Ok(true) {
            return false;
        }
    }
    true
}

fn choosers_of<'a>(alloc: Global, plan: &'a Plan) -> Result<Vec<Chooser<'a>>, AllocError> {
    let mut choosers = Vec::new(alloc);
    for worker in 0..plan.workers() {
        choosers.push(Chooser::new(plan, worker))?;
    }
    Ok(choosers)
}

// Takes all turns on a new board. Returns whether the reader always found the right text, and the cluster after all
// turns.
fn rotated<R: Wait>(
    rt: &R,
    alloc: Global,
    plan: &Plan,
    cluster: Cluster,
) -> Result<(bool, Cluster), BoardFault> {
    let Ok(mut choosers) = choosers_of(alloc, plan) else {
        return Err(BoardFault::NoMemory);
    };
    let board = Board::new(rt, alloc, cluster, 1)?;
    match BoardAndReader::new(board) {
        Ok(mut told) => {
            let finds = rotate(rt, alloc, &mut told, choosers.as_mut_slice());
            Ok((finds, told.end(rt)))
        }
        Err(board) => Ok((false, board.end(rt))),
    }
}

// Checks that a reader always finds the right text while the workers take all their turns. Returns the cluster after
// all turns.
fn assert_finds<R: Abort + Wait>(rt: &R, alloc: Global, scenario: &str) -> Cluster {
    let scenario = plan_of(rt, alloc, scenario);
    let cluster = new_cluster(rt, alloc, scenario.members);
    let rotated = rotated(rt, alloc, &scenario.course, cluster);
    let (finds, cluster) = rotated.expect(rt, "a board");
    assert!(rt; finds);
    cluster
}

// Three servers and eight workers. Few choices lose a message.
const FEW_LOSSES: &str = "{\"version\":1,\"servers\":3,\"workers\":8,\"seed\":7,\"turns\":2000,\
    \"loss\":1,\"commands\":[[\"1.0 set a x\",\"1.1 get a\"],[\"2.0 set a y\"],[\"3.0 del a\"]]}";

// Three servers that look ahead, and eight workers. Few choices lose a message. Only client 1 changes `a`, first to `x`
// and then from `x` to `y`.
const COMPARED: &str =
    "{\"version\":2,\"servers\":3,\"beta\":2,\"workers\":8,\"seed\":7,\"turns\":2000,\
    \"loss\":1,\"commands\":[[\"1.0 set a x\",\"1.1 cas a x y\"],[\"2.0 cas b  z\"],[\"3.0 cas a z x\"]]}";

#[test]
fn told_reader_beside_workers_in_rotation(rt: HostRuntime) {
    drop(assert_finds(&rt, rt.alloc(), EIGHT_WORKERS));
    let cluster = assert_finds(&rt, rt.alloc(), FEW_LOSSES);
    let longest = cluster.history(cluster.longest());
    assert!(rt; 0 < longest.expect(&rt, "a history").len());
}

// Returns the text that client 1's second command found.
fn found_by_cas(cluster: &Cluster) -> Option<&str> {
    let second = CommandId {
        client: 1,
        number: 1,
    };
    match cluster.reply(second) {
        Some(Answered::Given(Some(text))) => Some(text.as_str()),
        _ => None,
    }
}

#[test]
fn told_reader_beside_workers_that_compare_and_set(rt: HostRuntime) {
    let cluster = assert_finds(&rt, rt.alloc(), COMPARED);
    assert_same(&rt, &found_by_cas(&cluster), &Some("x"), "");
}
