//! Tests of readers. They find the list that was shown, with or without News, and also while another thread steps.
ghost use Rattle.std.specs.Prelude.{◌≡◌};

use super::fixtures::{assert_counts, decide, new_board, set_number, set_x};
use crate::same::assert_same;
use core::mem::replace_with;
use mencius_board::{Board, BoardFault, News, Reader};
use std::alloc::Global;
use std::panic::Expect;
use std::process::Abort;
use std::sync::Wait;
use std::test::Fail;
use std::thread;

// Returns the reader's count before learning the News, the text that it then finds at `a`, and its count after
// learning. This function has no `Wait`, so it neither takes a lock nor waits.
fn learn_and_look(
    alloc: Global,
    reader: &mut Reader,
    news: News,
) -> Result<(u32, Option<String>, u32), BoardFault>
    requires { news.book ≡ reader.old.book }
{
    let before = reader.count();
    reader.learn(news);
    let told = reader.count();
    let found = reader.lookup(alloc, "a")?;
    Ok((before, found, told))
}

fn is_text(found: &Option<String>, text: &str) -> bool {
    match found {
        Some(found) => found.as_str() == text,
        None => false,
    }
}

fn assert_finds_x<R: Abort>(rt: &R, alloc: Global, reader: &mut Reader) {
    let found = reader.lookup(alloc, "a").expect(rt, "a lookup");
    assert!(rt; is_text(&found, "x"));
}

fn assert_lacks<R: Abort>(rt: &R, alloc: Global, reader: &mut Reader, key: &str)
    ensures { reader.new.book ≡ reader.old.book }
{
    let found = reader.lookup(alloc, key).expect(rt, "a lookup");
    assert!(rt; found.is_none());
}

// Checks that a reader learns of the only command, and finds its text.
fn assert_told<R: Abort>(rt: &R, alloc: Global, reader: &mut Reader, news: News)
    requires { news.book ≡ reader.old.book }
{
    assert_same(rt, &(news.count(), news.commands().len()), &(1, 1), "");
    let (before, found, after) = learn_and_look(alloc, reader, news).expect(rt, "a lookup");
    assert_same(rt, &(before, after), &(0, 1), "");
    assert!(rt; is_text(&found, "x"));
}

// Takes the events of the schedule one_server. Checks a reader that gets the News, and a reader that does not.
fn told_and_untold<R: Wait + Abort>(
    rt: &R,
    alloc: Global,
    board: &mut Board,
) -> Result<(), BoardFault> {
    let mut told = board.reader()?;
    let mut untold = board.reader()?;
    assert!(rt; board.reader().is_err());
    decide(rt, board, set_x(rt, alloc));
    assert_lacks(rt, alloc, &mut told, "a");
    let news = board.show(rt, alloc)?;
    assert_told(rt, alloc, &mut told, news);
    assert_untold(rt, alloc, &mut untold);
    assert_find_x(rt, alloc, &mut told, &mut untold);
    Ok(())
}

// Checks that a reader without News finds the only command.
fn assert_untold<R: Abort>(rt: &R, alloc: Global, reader: &mut Reader) {
    assert_finds_x(rt, alloc, reader);
    assert_same(rt, &reader.count(), &1, "");
    assert_lacks(rt, alloc, reader, "b");
}

// Checks that two readers find `x` again and again.
fn assert_find_x<R: Abort>(rt: &R, alloc: Global, first: &mut Reader, second: &mut Reader) {
    for _ in 0..3 {
        assert_finds_x(rt, alloc, first);
        assert_finds_x(rt, alloc, second);
    }
}

#[test]
fn two_readers_find_what_is_shown(rt: HostRuntime) -> Result<(), Fail> {
    let alloc = rt.alloc();
    let mut board = new_board(&rt, alloc, 1, 2);
    let answer = told_and_untold(&rt, alloc, &mut board);
    let cluster = board.end(&rt);
    answer?;
    assert_counts(&rt, &cluster, (1, 4));
    Ok(())
}

// Shows the longest history, and gives the News to a reader.
fn tell<R: Wait>(
    rt: &R,
    alloc: Global,
    board: &mut Board,
    reader: &mut Reader,
) -> Result<(), BoardFault>
    requires { reader.old.book ≡ board.old.book }
    ensures reader { reader.new.book ≡ reader.old.book }
    ensures board { board.new.book ≡ board.old.book }
{
    reader.learn(board.show(rt, alloc)?);
    Ok(())
}

// Returns two readers that have both learned that `a` is 1. They get their News from two calls of `show`, with no step
// between them.
fn two_told<R: Wait + Abort>(
    rt: &R,
    alloc: Global,
    board: &mut Board,
) -> Result<(Reader, Reader), BoardFault> {
    let mut first = board.reader()?;
    let mut second = board.reader()?;
    decide(rt, board, set_number(rt, alloc, 1));
    tell(rt, alloc, board, &mut first)?;
    tell(rt, alloc, board, &mut second)?;
    Ok((first, second))
}

// Decides and shows a number. Returns whether it was shown.
fn show_number<R: Wait + Abort>(rt: &R, alloc: Global, board: &mut Board, number: u32) -> bool {
    decide(rt, board, set_number(rt, alloc, number));
    board.show(rt, alloc).is_ok()
}

// Owns the board, and decides and shows rising numbers. Returns the board, and whether all numbers were shown.
fn show_rising<R: Wait + Abort>(rt: &R, alloc: Global, mut board: Board) -> (Board, bool) {
    let mut all_shown = true;
    for number in 2..200 {
        all_shown = show_number(rt, alloc, &mut board, number) && all_shown;
    }
    (board, all_shown)
}

// Takes the board out of its place. The place has the board again once the numbers were shown.
fn take_and_show<R: Wait + Abort>(rt: &R, alloc: Global, place: &mut Board) -> bool {
    replace_with(place, rt, |board, rt| show_rising(rt, alloc, board))
}

// Whether each of 1,000 lookups finds a number that is at least 1 and not less than the number before it.
fn look_up_rising(alloc: Global, mut reader: Reader) -> bool {
    let mut least = 1u32;
    for _ in 0..1000 {
        match reader.lookup(alloc, "a") {
            Ok(Some(text)) => match text.as_str().parse::<u32>() {
                Ok(found) if found >= least => least = found,
                _ => return false,
            },
            _ => return false,
        }
    }
    true
}

#[test]
fn readers_beside_a_thread_that_owns_the_board(rt: HostRuntime) {
    let alloc = rt.alloc();
    let mut board = new_board(&rt, alloc, 1, 2);
    let (first, second) = two_told(&rt, alloc, &mut board).expect(&rt, "two readers");
    let place = &mut board;
    let (all_shown, found) = thread::join(
        &rt,
        || take_and_show(&rt, alloc, place),
        || {
            thread::join(
                &rt,
                || look_up_rising(alloc, first),
                || look_up_rising(alloc, second),
            )
        },
    );
    let cluster = board.end(&rt);
    assert!(rt; all_shown && found.0 && found.1);
    // Each command has a submission, two deliveries and an execution.
    assert_counts(&rt, &cluster, (199, 796));
}
