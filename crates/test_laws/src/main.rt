//! Tests that step clusters. They are one program, so that the libraries under test are read and compiled only once.
//! The first argument says what is tested:
//!
//! - Without an argument, the program steps a cluster through a schedule, and delivers all its messages again (see
//!   `laws`).
//! - With `board`, it tests a board whose calls run out of memory (see `memory`).
//! - With `parts`, it tests single servers and executors whose calls run out of memory (see `memory`).
//! - With `both`, the first line of standard input is a schedule for a cluster, and the rest is for the board.
//!
//! `same` compares the results of the calls of two clusters.
//!
//! The exit status is one of these:
//!
//! - 0 if nothing is wrong.
//! - 2 if standard input or the argument is none of the above.
//! - 6 if memory ran out in a call that is not under test, or if standard input cannot be read.
//! - 9 if something is wrong. Standard error then names it.
#![tactic(auto)]

mod laws;
mod memory;
mod observed;
mod parts;
mod same;
mod watched;
mod workers;

use crate::laws::try_laws;
use crate::memory::{try_board, try_parts};
use mencius_app::arguments_of;
use mencius_io::{Sink, Std, read_all};
use std::alloc::Global;
use std::process::ExitCode;
use std::sync::Wait;
use std::thread::Threads;

// The tests to make.
#[derive(Clone, Copy)]
enum Task {
    Laws,
    Board,
    Parts,
    Both,
}

// Returns the tests that the arguments select, if they select any.
fn task_of(arguments: &[Vec<u8>]) -> Option<Task> {
    let Some(word) = arguments.first() else {
        return Some(Task::Laws);
    };
    let word = word.as_slice();
    if word == b"board".as_slice() {
        return Some(Task::Board);
    }
    if word == b"parts".as_slice() {
        return Some(Task::Parts);
    }
    if word == b"both".as_slice() {
        return Some(Task::Both);
    }
    None
}

// Returns the first line of a text, without its line break, and the other lines.
fn first_line(bytes: &[u8]) -> Option<(&[u8], &[u8])> {
    let text = str::from_utf8(bytes).ok()?;
    let (first, rest) = text.split_once('\n')?;
    Some((first.as_bytes(), rest.as_bytes()))
}

// Tests the laws by the first line, and then the board by the other lines. Returns the exit status.
fn try_both<R: Threads + Wait + Sync, W: Sink, E: Sink>(
    rt: &R,
    alloc: Global,
    bytes: &[u8],
    sink: &mut W,
    errors: &mut E,
) -> u8 {
    let Some((first, rest)) = first_line(bytes) else {
        return 2;
    };
    match try_laws(alloc, first, errors) {
        0 => try_board(rt, alloc, rest, sink, errors),
        status => status,
    }
}

fn main(rt: HostRuntime) -> ExitCode {
    let alloc = rt.alloc();
    let mut source = Std::new(rt.stdin());
    let mut sink = Std::new(rt.stdout());
    let mut errors = Std::new(rt.stderr());
    let Ok(arguments) = arguments_of(&rt, alloc) else {
        return ExitCode::from(6);
    };
    let Ok(bytes) = read_all(alloc, &mut source) else {
        return ExitCode::from(6);
    };
    let bytes = bytes.as_slice();
    let status = match task_of(arguments.as_slice()) {
        Some(Task::Laws) => try_laws(alloc, bytes, &mut errors),
        Some(Task::Board) => try_board(&rt, alloc, bytes, &mut sink, &mut errors),
        Some(Task::Parts) => try_parts(alloc, bytes, &mut sink, &mut errors),
        Some(Task::Both) => try_both(&rt, alloc, bytes, &mut sink, &mut errors),
        None => 2,
    };
    ExitCode::from(status)
}
