//! Tests of the events that words pick, and of the order of a worker's commands.
ghost use Rattle.std.specs.Prelude.{◌≡◌, ◌<◌};

use super::fixtures::{new_cluster, plan_over, set_number, set_x};
use crate::same::assert_same;
use mencius_base::Event;
use mencius_board::{Chooser, Pick, Plan, pick};
use mencius_cluster::Cluster;
use rand_core::utils::NextWord;
use rand_pcg::Lcg64Xsh32;
use std::alloc::Global;
use std::fmt::Debug;
use std::panic::Expect;
use std::process::Abort;
use std::slice::Iter;

// Returns a pick or an event, as `Debug` writes it.
fn shown<R: Abort, T: Debug>(rt: &R, alloc: Global, value: &T) -> String {
    format!(in alloc; "{value:?}").expect(rt, "memory")
}

// The words, the loss, whether a command is left, and the pick.
type PickRow = ([u32; 3], u8, bool, &'static str);

// A pick on a new cluster.
const ON_NEW: PickRow = ([40, 1, 2], 0, true, "Is(Deliver { message: 0, server: 2 })");

// The picks after the schedule one_command.
const PICKS: [PickRow; 8] = [
    ([6, 0, 5], 0, true, "Is(Execute { server: 2 })"),
    ([18, 0, 4], 0, true, "Is(Retry { server: 1 })"),
    (
        [21, 4, 5],
        0,
        true,
        "Is(Suspect { server: 1, suspected: 2 })",
    ),
    ([22, 2, 1], 2, true, "Is(Lose { message: 1, server: 0 })"),
    ([22, 2, 1], 0, true, "Is(Deliver { message: 1, server: 0 })"),
    (
        [63, 7, 5],
        32,
        true,
        "Is(Deliver { message: 0, server: 2 })",
    ),
    ([69, 0, 0], 0, true, "NextCommand"),
    (
        [69, 0, 0],
        0,
        false,
        "Is(Deliver { message: 0, server: 0 })",
    ),
];

fn assert_picks<R: Abort>(rt: &R, alloc: Global, cluster: &Cluster, row: &PickRow) {
    let (words, loss, left, expected) = *row;
    let text = shown(rt, alloc, &pick(words, loss, left, cluster));
    assert_same(rt, &text.as_str(), &expected, "");
}

fn step_cluster<R: Abort>(rt: &R, cluster: &mut Cluster, event: Event) {
    assert!(rt; cluster.step(event).is_ok());
}

// Takes the schedule one_command, up to its first execution.
fn take_one_command<R: Abort>(rt: &R, alloc: Global, cluster: &mut Cluster) {
    let command = set_x(rt, alloc);
    step_cluster(rt, cluster, Event::Submit { server: 0, command });
    for (message, server) in [(0, 1), (0, 0), (1, 0), (2, 0)] {
        step_cluster(rt, cluster, Event::Deliver { message, server });
    }
    step_cluster(rt, cluster, Event::Execute { server: 0 });
}

#[test]
fn words_pick_by_the_table(rt: HostRuntime) {
    let alloc = rt.alloc();
    let mut cluster = new_cluster(&rt, alloc, 3);
    assert_picks(&rt, alloc, &cluster, &ON_NEW);
    take_one_command(&rt, alloc, &mut cluster);
    for row in &PICKS {
        assert_picks(&rt, alloc, &cluster, row);
    }
}

// Returns a plan of two workers over three servers. The lists of the servers have 2, 1 and 2 commands.
fn two_workers<R: Abort>(rt: &R, alloc: Global) -> Plan
    ensures { result.workers ≡ 2 }
{
    let mut lists = Vec::new(alloc);
    for (first, many) in [(0, 2), (10, 1), (20, 2)] {
        let mut list = Vec::new(alloc);
        for number in first..first + many {
            list.push(set_number(rt, alloc, number))
                .expect(rt, "memory");
        }
        lists.push(list).expect(rt, "memory");
    }
    plan_over(rt, 2, 7, 200, lists)
}

// Whether an event submits the command with the wanted number at the wanted server.
fn is_submission_of(event: &Event, wanted: Option<&(u8, u32)>) -> bool {
    match event {
        Event::Submit { server, command } => wanted == Some(&(*server, command.id().number)),
        _ => false,
    }
}

// Whether an event is the picked event. If the pick is the next command, the event must submit the first command that
// is left.
fn is_picked<R: Abort>(
    rt: &R,
    alloc: Global,
    event: &Event,
    picked: Pick,
    left: &mut Iter<(u8, u32)>,
) -> bool {
    match picked {
        Pick::NextCommand => is_submission_of(event, left.next()),
        Pick::Is(wanted) => shown(rt, alloc, event).as_str() == shown(rt, alloc, &wanted).as_str(),
    }
}

// Steps the cluster by a worker's choice. Returns whether the words pick this choice.
fn take_turn<R: Abort>(
    rt: &R,
    alloc: Global,
    words: [u32; 3],
    left: &mut Iter<(u8, u32)>,
    chooser: &mut Chooser,
    cluster: &mut Cluster,
) -> bool {
    let picked = pick(words, 4, 0 < left.len(), cluster);
    let event = chooser.choose(cluster).expect(rt, "memory");
    let is_right = is_picked(rt, alloc, &event, picked, left);
    let _answer = cluster.step(event);
    is_right
}

// Makes 200 choices of a worker. Returns whether words that are drawn independently pick the same events, and whether
// the worker's commands come in this order of servers and numbers.
fn take_turns<R: Abort>(
    rt: &R,
    alloc: Global,
    plan: &Plan,
    worker: u8,
    order: &[(u8, u32)],
    cluster: &mut Cluster,
) -> bool
    requires { worker < plan.now.workers }
{
    let mut words_beside = Lcg64Xsh32::new(7, u64::from(worker));
    let mut chooser = Chooser::new(plan, worker);
    let mut left = order.iter();
    for _ in 0..200 {
        let first = words_beside.next_word();
        let second = words_beside.next_word();
        let third = words_beside.next_word();
        let words = [first, second, third];
        if !take_turn(rt, alloc, words, &mut left, &mut chooser, cluster) {
            return false;
        }
    }
    left.len() == 0
}

#[test]
fn choices_follow_the_words_and_the_lists(rt: HostRuntime) {
    let alloc = rt.alloc();
    let plan = two_workers(&rt, alloc);
    let mut cluster = new_cluster(&rt, alloc, 3);
    let first = [(0, 0), (2, 20), (0, 1), (2, 21)];
    assert!(rt; take_turns(&rt, alloc, &plan, 0, &first, &mut cluster));
    assert!(rt; take_turns(&rt, alloc, &plan, 1, &[(1, 10)], &mut cluster));
}
