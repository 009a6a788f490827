//! Tests of the conclusions that a caller can draw about a cluster, about servers stepped by hand, and about a board's
//! readers.

ghost use Rattle.mencius_server.specs.Reached.{server_at};
ghost use Rattle.std.specs.Prelude.{[], ◌≡◌, ◌<◌};

use crate::courses::{
    COMPARED_AND_SET, GET_AT_ANOTHER_SERVER, ONE_COMMAND, cluster_after, new_board, new_cluster,
    scenario_of,
};
use crate::same::assert_same;
use mencius_base::{Ballot, Event, Members, Message, Outbox, Refusal};
use mencius_board::readings::{Reading, look_up_shown, look_up_within};
use mencius_board::{Board, BoardFault, Reader};
use mencius_cluster::Cluster;
use mencius_server::Server;
use std::alloc::Global;
use std::panic::Expect;
use std::process::Abort;
use std::sync::Wait;
use worked_proofs::hands::deliver;
use worked_proofs::histories::{TwoHistories, histories, note_across};

// The number of events that come first, two servers, the history of the first server then, and the history of the
// second server after all events.
type Row = (usize, u8, u8, &'static [u32], &'static [u32]);

// Server 0 executes ticket 0, and later server 1 executes both tickets.
const ROWS: [Row; 5] = [
    (0, 1, 1, &[], &[0, 1]),
    (6, 0, 1, &[0], &[0, 1]),
    (6, 0, 2, &[0], &[]),
    (13, 1, 1, &[0], &[0, 1]),
    (14, 1, 0, &[0, 1], &[0]),
];

// Returns a cluster that accepted the first events, and the events that are left.
fn begun<R: Abort>(rt: &R, alloc: Global, first: usize) -> (Cluster, Vec<Event>) {
    let scenario = scenario_of(rt, alloc, GET_AT_ANOTHER_SERVER);
    let mut cluster = new_cluster(rt, alloc, scenario.members);
    let mut rest = scenario.course.into_iter();
    for event in rest.by_ref().take(first) {
        assert!(rt; cluster.step(event).is_ok());
    }
    (cluster, rest.collect(alloc).expect(rt, "memory"))
}

// Returns the histories of servers 1 and 0.
fn both<'a, R: Abort>(rt: &R, cluster: &'a Cluster) -> (&'a [u32], &'a [u32]) {
    histories(cluster, 1, 0).expect(rt, "members")
}

// Checks that, after all events, server 1 has executed both tickets and server 0 only the first.
fn assert_histories<R: Abort>(rt: &R, cluster: &Cluster) {
    let (longer, shorter) = both(rt, cluster);
    assert!(rt; longer == [0, 1].as_slice());
    assert!(rt; shorter == [0].as_slice());
    assert!(rt; histories(cluster, 1, 3).is_none());
}

// Returns the two histories that are noted across the events that are left.
fn noted<R: Abort>(
    rt: &R,
    alloc: Global,
    cluster: &mut Cluster,
    servers: (u8, u8),
    rest: Vec<Event>,
) -> TwoHistories {
    let (server, other) = servers;
    note_across(alloc, cluster, server, rest, other).expect(rt, "memory")
}

fn assert_noted<R: Abort>(rt: &R, alloc: Global, row: Row) {
    let (first, server, other, earlier, later) = row;
    let (mut cluster, rest) = begun(rt, alloc, first);
    let noted = noted(rt, alloc, &mut cluster, (server, other), rest);
    let found = (first, noted.earlier.as_slice(), noted.later.as_slice());
    assert_same(rt, &found, &(first, earlier, later), "");
    assert_same(rt, &cluster.events(), &14, "");
    assert_histories(rt, &cluster);
}

#[test]
fn noted_histories(rt: HostRuntime) {
    for row in ROWS {
        assert_noted(&rt, rt.alloc(), row);
    }
}

fn assert_no_server<R: Abort>(rt: &R, alloc: Global, server: u8, other: u8) {
    let (mut cluster, events) = begun(rt, alloc, 0);
    let answer = note_across(alloc, &mut cluster, server, events, other);
    let refusal = answer.expect_err(rt, "no such server");
    assert_same(
        rt,
        &(refusal, cluster.events()),
        &(Refusal::BadServer, 0),
        "",
    );
}

#[test]
fn no_such_server(rt: HostRuntime) {
    for (server, other) in [(3, 0), (0, 3), (3, 3)] {
        assert_no_server(&rt, rt.alloc(), server, other);
    }
}

// Checks that the last message is the acceptance of server 1 for the suggestion of server 0 at instance 0.
fn assert_accepted<R: Abort>(rt: &R, out: &Outbox) {
    let answer = Message::Accepted {
        from: 1,
        to: 0,
        inst: 0,
        ballot: Ballot::OWNER,
    };
    assert!(rt; out.messages().last() == Some(&answer));
}

// Creates one of three servers.
fn new_server<R: Abort>(rt: &R, alloc: Global, members: Members, id: u8) -> Server
    requires { id < members.count }
    ensures { result ≡ server_at members [] id }
{
    Server::new(alloc, members, id).expect(rt, "memory")
}

// Lets a server suggest its first ticket. Returns the suggestion.
fn suggested<R: Abort>(rt: &R, server: &mut Server, out: &mut Outbox) -> Message
    ensures id { server.new.id ≡ server.old.id }
    ensures members { server.new.members ≡ server.old.members }
{
    assert!(rt; server.submit(0, out).is_ok());
    *out.messages().first().expect(rt, "a suggestion")
}

// Server 1 hears the first suggestion of server 0, and accepts it.
#[test]
fn first_delivery(rt: HostRuntime) {
    let alloc = rt.alloc();
    let members = Members::new(3).expect(&rt, "three servers");
    let mut zero = new_server(&rt, alloc, members, 0);
    let mut one = new_server(&rt, alloc, members, 1);
    let two = new_server(&rt, alloc, members, 2);
    let mut out = Outbox::new(alloc, 8);
    let message = suggested(&rt, &mut zero, &mut out);
    assert!(rt; message.is_for(members, 1), "it is for server 1");
    assert!(rt; deliver(&mut one, &zero, &two, &mut out, &message) == Ok(0));
    assert_accepted(&rt, &out);
}

// Checks the text that a reading found, and the number of commands in its list.
fn assert_reading<R: Abort>(rt: &R, reading: &Reading, count: u32, text: Option<&str>) {
    assert_same(
        rt,
        &(reading.count, reading.text.as_deref()),
        &(count, text),
        "",
    );
}

fn look_up<R: Wait>(rt: &R, alloc: Global, board: &mut Board) -> Result<Reading, BoardFault> {
    let mut reader = board.reader()?;
    look_up_shown(rt, alloc, board, &mut reader, "a")
}

#[test]
fn a_told_reader_finds_what_was_executed(rt: HostRuntime) {
    let alloc = rt.alloc();
    let mut board = new_board(&rt, alloc, cluster_after(&rt, alloc, ONE_COMMAND));
    let answer = look_up(&rt, alloc, &mut board);
    let cluster = board.end(&rt);
    assert_reading(&rt, &answer.expect(&rt, "a reading"), 1, Some("x"));
    assert_same(&rt, &cluster.events(), &6, "");
}

// Returns a board that accepted each event of a schedule.
fn board_after<R: Abort + Wait>(rt: &R, alloc: Global, text: &str) -> Board {
    let scenario = scenario_of(rt, alloc, text);
    let mut board = new_board(rt, alloc, new_cluster(rt, alloc, scenario.members));
    for event in scenario.course {
        assert!(rt; board.step(event).is_ok());
    }
    board
}

// Returns the text that a reader finds at `a` after it learned the News of its board.
fn learn_and_look_up<R: Wait>(
    rt: &R,
    alloc: Global,
    board: &mut Board,
) -> Result<Option<String>, BoardFault> {
    let mut reader = board.reader()?;
    let news = board.show(rt, alloc)?;
    reader.learn(news);
    reader.lookup(alloc, "a")
}

#[test]
fn a_told_reader_finds_the_empty_text(rt: HostRuntime) {
    let alloc = rt.alloc();
    let mut board = board_after(&rt, alloc, COMPARED_AND_SET);
    let answer = learn_and_look_up(&rt, alloc, &mut board);
    let cluster = board.end(&rt);
    let found = answer.expect(&rt, "a lookup");
    assert_same(
        &rt,
        &(found.as_deref(), cluster.events()),
        &(Some(""), 20),
        "",
    );
}

fn look_within(alloc: Global, board: &mut Board, reader: &mut Reader) -> Result<Reading, BoardFault>
    requires { reader.old.book ≡ board.old.book }
    ensures reader { reader.new.book ≡ reader.old.book }
    ensures board { board.new.book ≡ board.old.book }
{
    look_up_within(alloc, board, reader, "a")
}

// Looks up `a` before the longest history is shown, and again after.
fn look_up_twice<R: Wait>(
    rt: &R,
    alloc: Global,
    board: &mut Board,
) -> Result<(Reading, Reading), BoardFault> {
    let mut reader = board.reader()?;
    let before = look_within(alloc, board, &mut reader)?;
    drop(board.show(rt, alloc)?);
    let after = look_within(alloc, board, &mut reader)?;
    Ok((before, after))
}

#[test]
fn an_untold_reader_finds_what_is_shown(rt: HostRuntime) {
    let alloc = rt.alloc();
    let mut board = new_board(&rt, alloc, cluster_after(&rt, alloc, ONE_COMMAND));
    let answer = look_up_twice(&rt, alloc, &mut board);
    drop(board.end(&rt));
    let (before, after) = answer.expect(&rt, "two readings");
    assert_reading(&rt, &before, 0, None);
    assert_reading(&rt, &after, 1, Some("x"));
}
