//! Tests of one instance at one server. They check the replies of the acceptor, and the counts of the proposer.

ghost use Rattle.std.specs.Prelude.{◌≡◌, ◌<◌};

use crate::same::assert_same;
use coord_paxos::{Answer, Slot};
use mencius_base::{Ballot, Members, Value, Vote};
use std::panic::Expect;
use std::process::Abort;

fn three(rt: &impl Abort) -> Members
    ensures { result.count ≡ 3 }
{
    Members::new(3).expect(rt, "three")
}

// Returns the ballot of three members with this number. For example, 4 is round 1 of server 1.
pub(crate) fn ballot(rt: &impl Abort, number: u32) -> Ballot
    ensures { result ≡ number }
{
    Ballot::new(three(rt), number / 3, (number % 3) as u8).expect(rt, "a ballot")
}

fn vote(ballot: Ballot, value: Value) -> Option<Vote> {
    Some(Vote { ballot, value })
}

// Returns the number of a ballot, if there is such a ballot.
fn number_of(members: Members, round: u32, server: u8) -> Option<u32> {
    Some(Ballot::new(members, round, server)?.number())
}

#[test]
fn ballots_are_numbered(rt: HostRuntime) {
    let members = three(&rt);
    for (round, server, want) in [
        (1, 1, Some(4)),
        (65_535, 2, Some(196_607)),
        (0, 1, None),
        (65_536, 1, None),
        (1, 3, None),
    ] {
        let number = number_of(members, round, server);
        assert_same(&rt, &(round, server, number), &(round, server, want), "");
    }
}

#[test]
fn ballots_have_leaders(rt: HostRuntime) {
    let members = three(&rt);
    let leaders = (
        Ballot::OWNER.leader(members, 5),
        ballot(&rt, 7).leader(members, 5),
    );
    assert_same(&rt, &leaders, &(2, 1), "");
}

// Checks the acceptor's reply to a Prepare.
fn assert_answers(rt: &impl Abort, slot: &mut Slot, ballot: Ballot, want: Answer) {
    assert_same(rt, &slot.prepare(ballot), &want, "");
}

// Checks whether a value is accepted.
fn assert_accepts(rt: &impl Abort, slot: &mut Slot, ballot: Ballot, value: Value, want: bool) {
    assert!(rt; slot.accept(ballot, value) == want);
}

// Checks whether a value is the first one that is learned.
fn assert_slot_learns(rt: &impl Abort, slot: &mut Slot, value: Value, want: bool) {
    assert!(rt; slot.learn(value) == want);
}

// Checks the value that was learned, if any.
fn assert_learned(rt: &impl Abort, slot: &Slot, want: Option<Value>) {
    assert_same(rt, &slot.learned(), &want, "");
}

#[test]
fn an_acceptor_answers(rt: HostRuntime) {
    let four = ballot(&rt, 4);
    let five = ballot(&rt, 5);
    let seven = ballot(&rt, 7);
    let ticket = Value::Ticket(0);
    let accepted = vote(five, ticket);
    let mut slot = Slot::new(three(&rt));

    assert_answers(&rt, &mut slot, four, Answer::Promise(None));
    assert_answers(&rt, &mut slot, four, Answer::Silent);
    assert_answers(&rt, &mut slot, five, Answer::Promise(None));
    assert_accepts(&rt, &mut slot, four, Value::Noop, false);
    assert_accepts(&rt, &mut slot, five, ticket, true);
    assert_same(&rt, &slot.vote(), &accepted, "");
    assert_answers(&rt, &mut slot, seven, Answer::Promise(accepted));
    assert_accepts(&rt, &mut slot, Ballot::OWNER, Value::Ticket(1), false);
    assert_slot_learns(&rt, &mut slot, ticket, true);
    assert_slot_learns(&rt, &mut slot, Value::Noop, false);
    assert_learned(&rt, &slot, Some(ticket));
    assert_answers(&rt, &mut slot, ballot(&rt, 8), Answer::Known(ticket));
    assert_same(&rt, &slot.promised(), &seven, "");
    assert_accepts(&rt, &mut slot, seven, ticket, true);
}

// Counts a promise of a ballot, and checks the value that is then proposed, if any.
fn assert_promise(
    rt: &impl Abort,
    slot: &mut Slot,
    from: u8,
    ballot: Ballot,
    vote: Option<Vote>,
    want: Option<Value>,
)
    requires tried { 0 < ballot }
    requires member { from < slot.old.members.count }
    ensures { slot.new.members ≡ slot.old.members }
{
    assert_same(rt, &slot.add_promise(from, ballot, vote), &want, "");
}

// Counts an acceptance of a ballot, and checks the value that is then learned, if any.
fn assert_accept(rt: &impl Abort, slot: &mut Slot, from: u8, ballot: Ballot, want: Option<Value>)
    requires { from < slot.old.members.count }
    ensures { slot.new.members ≡ slot.old.members }
{
    assert_same(rt, &slot.add_accept(from, ballot), &want, "");
}

// Checks that all three servers promised the ballot that is tried, and accepted the value that was proposed at it.
fn assert_has_all(rt: &impl Abort, slot: &Slot, ballot: Ballot, value: Value) {
    let found = (slot.trying(), slot.proposal());
    assert_same(rt, &found, &(ballot, Some(value)), "");
    assert_are_all(rt, slot.promises());
    assert_are_all(rt, slot.accepts());
}

// Checks that a list of the three servers has each of them.
fn assert_are_all(rt: &impl Abort, servers: &[bool]) {
    assert!(rt; servers == [true, true, true].as_slice());
}

#[test]
fn a_proposer_counts_servers(rt: HostRuntime) {
    let four = ballot(&rt, 4);
    let ticket = Value::Ticket(0);
    let owned = vote(Ballot::OWNER, ticket);
    let mut slot = Slot::new(three(&rt));

    slot.begin(four);
    assert_promise(&rt, &mut slot, 1, four, None, None);
    assert_promise(&rt, &mut slot, 1, four, None, None);
    assert_promise(&rt, &mut slot, 2, four, owned, Some(ticket));
    assert_promise(&rt, &mut slot, 0, four, None, None);
    assert_accept(&rt, &mut slot, 1, four, None);
    assert_accept(&rt, &mut slot, 1, four, None);
    assert_accept(&rt, &mut slot, 2, ballot(&rt, 5), None);
    assert_accept(&rt, &mut slot, 2, four, Some(ticket));
    assert_accept(&rt, &mut slot, 0, four, None);
    assert_has_all(&rt, &slot, four, ticket);
}

#[test]
fn an_owner_needs_no_first_phase(rt: HostRuntime) {
    let ticket = Value::Ticket(5);
    let mut slot = Slot::new(three(&rt));

    slot.suggest(5);
    assert_accept(&rt, &mut slot, 0, Ballot::OWNER, None);
    let answer = slot.acceptance_answer(1, Ballot::OWNER);
    assert_same(&rt, &answer, &Some(ticket), "");
    assert_learned(&rt, &slot, None);
    assert_accept(&rt, &mut slot, 1, Ballot::OWNER, Some(ticket));
    assert_learned(&rt, &slot, Some(ticket));
}
