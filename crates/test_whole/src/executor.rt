//! Tests of the replies to commands at one key, one after the other.

use crate::same::assert_same;
use map_exec::{Executor, Reply};
use mencius_format::parse_command;
use std::alloc::Global;
use std::panic::Expect;
use std::process::Abort;

fn text_of(reply: &Reply) -> Option<&str> {
    match reply {
        Some(text) => Some(text.as_str()),
        None => None,
    }
}

// A command as a scenario writes it, its reply, and the text that the key `a` then holds.
type CommandRow = (&'static str, Option<&'static str>, Option<&'static str>);

fn assert_row(
    rt: &impl Abort,
    alloc: Global,
    executor: &mut Executor,
    ticket: u32,
    row: &CommandRow,
) {
    let (text, answer, held) = *row;
    let command = parse_command(alloc, text).expect(rt, "a command");
    let reply = executor.execute(&command, ticket).expect(rt, "memory");
    assert_same(rt, &text_of(&reply), &answer, text);
    assert_same(rt, &executor.get("a"), &held, text);
}

// Executes the rows one after the other, with tickets from 0 on. Then checks the history.
fn assert_rows(rt: &impl Abort, alloc: Global, rows: &[CommandRow], history: &[u32]) {
    let mut executor = Executor::new(alloc);
    let mut ticket: u32 = 0;
    for row in rows {
        assert_row(rt, alloc, &mut executor, ticket, row);
        ticket = ticket.saturating_add(1);
    }
    assert!(rt; executor.history() == history);
}

const EMPTY_TEXT: [CommandRow; 4] = [
    ("1.0 set a x", None, Some("x")),
    ("1.0 set a ", Some("x"), Some("")),
    ("1.0 del a", Some(""), None),
    ("1.0 get a", None, None),
];

// An empty text is a text, so it is returned as the former text. A key that was removed has no text.
#[test]
fn empty_text_del_and_get(rt: HostRuntime) {
    assert_rows(&rt, rt.alloc(), &EMPTY_TEXT, &[0, 1, 2, 3]);
}

const COMPARED: [CommandRow; 6] = [
    ("1.0 cas a  x", None, None),
    ("1.0 set a x", None, Some("x")),
    ("1.0 cas a y z", Some("x"), Some("x")),
    ("1.0 cas a x ", Some("x"), Some("")),
    ("1.0 cas a  x", Some(""), Some("x")),
    ("1.0 cas a x x", Some("x"), Some("x")),
];

// A compare-and-set does not bind an absent key, even if it expects an empty text. It changes a text only if this is
// the expected text. In both cases, it returns the former text.
#[test]
fn compare_and_set(rt: HostRuntime) {
    assert_rows(&rt, rt.alloc(), &COMPARED, &[0, 1, 2, 3, 4, 5]);
}

const WHOLE_TEXTS: [CommandRow; 6] = [
    ("1.0 set a xy", None, Some("xy")),
    ("1.0 cas a x z", Some("xy"), Some("xy")),
    ("1.0 cas a xyz z", Some("xy"), Some("xy")),
    ("1.0 cas a  z", Some("xy"), Some("xy")),
    ("1.0 del a", Some("xy"), None),
    ("1.0 cas a xy z", None, None),
];

// The expected text must be the whole text at the key. A part of it, a longer text and a removed text do not count.
#[test]
fn compare_and_set_by_whole_texts(rt: HostRuntime) {
    assert_rows(&rt, rt.alloc(), &WHOLE_TEXTS, &[0, 1, 2, 3, 4, 5]);
}
