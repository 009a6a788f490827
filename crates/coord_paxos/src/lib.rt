//! One server's part in one instance of Coordinated Paxos.
//!
//! Coordinated Paxos is consensus in which the instance's owner may propose a command without asking first. Every other
//! server may only propose no-op, or a value that an earlier ballot may have chosen already. `docs/MODEL.md` names the
//! source of these rules.
//!
//! A [`Slot`] sends nothing and hears nothing. Its caller passes in the content of each message, and sends the messages
//! that the returned value calls for. No call allocates memory, and no call fails.
#![tactic(auto)]

ghost use Rattle.std.specs.Prelude.{◌≡◌, ◌<◌, ◌==◌, Some, None, is_none, length, nat_le, slice_set, take, true};
ghost use Rattle.std.specs.Option.{option_map_or};
ghost use Rattle.coord_paxos.specs.Fresh.{new_slot};
ghost use Rattle.coord_paxos.specs.Slot.{acceptance_answer, after_accept, after_acceptance, after_begin, after_learn, after_prepare, after_promise, has_majority, prepare_answer, promise_answer, with_acceptance, with_promise};
ghost use Rattle.mencius_model.specs.Instance.{higher_vote};
ghost use Rattle.mencius_model.specs.Rules.{due_proposal_from};
ghost use Rattle.mencius_base.specs.declared.message.Value.TheVariants.{Noop, Ticket};

pub use mencius_base::Answer;
use mencius_base::{Ballot, MOST_SERVERS, Members, Value, Vote};
use std::marker::Model;

pub mod laws;

// One truth value for each of the at most seven servers. Places after the last server stay false.
type ServerSet = [bool; MOST_SERVERS as usize];

/// The knowledge of one server about one instance, as acceptor, proposer and learner.
///
/// - As acceptor, it stores the greatest ballot that it promised or accepted. It also stores its vote, which is the
///   value that it accepted last, with its ballot.
/// - As proposer, it stores the greatest ballot that it tries. For that ballot alone, it stores the greatest vote
///   reported to it and the value that it proposed. It also stores the servers whose promises and whose acceptances it
///   heard.
/// - As learner, it stores the value that it learned.
///
/// A slot belongs to one server and one instance, and stores the number of neither.
#[derive(Debug, Drop)]
pub struct Slot {
    members: Members,
    promised: Ballot,
    vote: Option<Vote>,
    learned: Option<Value>,
    trying: Ballot,
    reported: Option<Vote>,
    proposal: Option<Value>,
    promises: ServerSet,
    accepts: ServerSet,
}

impl Model for Slot {
    ghost use Rattle.std.specs.Prelude.{take};
    ghost use Rattle.coord_paxos.specs.SlotState.{SlotState};

    ghost Value = { SlotState };

    ghost view = { λ s. record {
      members = s.members;
      promised = s.promised;
      vote = s.vote;
      learned = s.learned;
      trying = s.trying;
      reported = s.reported;
      proposal = s.proposal;
      promises = take s.members.count s.promises;
      accepts = take s.members.count s.accepts;
    } };
}

impl Slot {
    /// Returns the slot of an instance about which the server has heard nothing. Nothing is promised, accepted, tried
    /// or learned, and both sets are empty.
    pub fn new(members: Members) -> Slot
        ensures { result ≡ new_slot members }
    {
        let _within_limit = members.count(); // proof: at most 7 servers
        Slot {
            members,
            promised: Ballot::OWNER,
            vote: None,
            learned: None,
            trying: Ballot::OWNER,
            reported: None,
            proposal: None,
            promises: [false; MOST_SERVERS as usize],
            accepts: [false; MOST_SERVERS as usize],
        }
    }

    /// Returns the slot of an instance about which the server has heard only the value. It is a new slot that has
    /// learned `value`.
    pub fn known(members: Members, value: Value) -> Slot
        ensures { result ≡ after_learn (new_slot members) value }
    {
        let mut slot = Slot::new(members);
        slot.learn(value);
        slot
    }

    /// Returns the servers of the cluster, as passed to [`Slot::new`].
    pub fn members(&self) -> Members
        ensures { result ≡ self.now.members }
    {
        self.members
    }

    /// Returns the greatest ballot promised or accepted here, or `Ballot::OWNER` at the start. It never decreases.
    pub fn promised(&self) -> Ballot
        ensures { result ≡ self.now.promised }
    {
        self.promised
    }

    /// Returns the value that was accepted here last, with its ballot. A promise reports this vote.
    pub fn vote(&self) -> Option<Vote>
        ensures { result ≡ self.now.vote }
    {
        self.vote
    }

    /// Returns the value that the instance decided, once it is known here. It never changes again.
    pub fn learned(&self) -> Option<Value>
        ensures { result ≡ self.now.learned }
    {
        self.learned
    }

    /// Returns the greatest ballot that this server tries here. It is `Ballot::OWNER` until the server starts a first
    /// phase. Promises and acceptances count at this ballot alone.
    pub fn trying(&self) -> Ballot
        ensures { result ≡ self.now.trying }
    {
        self.trying
    }

    /// Returns the value that this server itself proposed at the ballot that it tries.
    pub fn proposal(&self) -> Option<Value>
        ensures { result ≡ self.now.proposal }
    {
        self.proposal
    }

    /// Returns one truth value for each server. It is true if this server heard that server's promise of the ballot
    /// tried.
    pub fn promises(&self) -> &[bool]
        ensures value { result.now ≡ self.now.promises }
        ensures count { length result.now ≡ self.now.members.count }
    {
        &self.promises[..self.members.count() as usize]
    }

    /// Returns one truth value for each server. It is true if this server heard that server's acceptance at the ballot
    /// tried.
    pub fn accepts(&self) -> &[bool]
        ensures value { result.now ≡ self.now.accepts }
        ensures count { length result.now ≡ self.now.members.count }
    {
        &self.accepts[..self.members.count() as usize]
    }

    /// Records the owner's own proposal of `ticket` at ballot 0, which needs no first phase. Only the instance's owner
    /// calls this, at most once, and never after `begin`.
    pub fn suggest(&mut self, ticket: u32)
        requires unsaid { self.old.proposal ≡ None }
        requires own { self.old.trying ≡ 0 }
        ensures { self.new ≡ record self.old { proposal = Some (Ticket ticket) } }
    {
        self.proposal = Some(Value::Ticket(ticket));
    }

    /// Processes a Prepare and returns the reply to it.
    ///
    /// If a value is learned here, the reply is that value. Otherwise, a ballot above every ballot promised or accepted
    /// here is promised, and the reply reports the vote. Any other ballot gets no reply, so a ballot is never promised
    /// twice.
    pub fn prepare(&mut self, ballot: Ballot) -> Answer
        ensures answer { result ≡ prepare_answer self.old ballot }
        ensures after { self.new ≡ after_prepare self.old ballot }
    {
        let answer = self.prepare_answer(ballot);
        if let Answer::Promise(_) = answer {
            self.promised = ballot;
        }
        answer
    }

    /// Returns the reply that [`Slot::prepare`] would return. It changes nothing.
    pub fn prepare_answer(&self, ballot: Ballot) -> Answer
        ensures { result ≡ prepare_answer self.now ballot }
    {
        if let Some(value) = self.learned {
            return Answer::Known(value);
        }
        if ballot <= self.promised {
            return Answer::Silent;
        }
        Answer::Promise(self.vote)
    }

    /// Accepts a proposal, unless its ballot is below the promised one. Returns whether it accepted the proposal. It
    /// accepts the same proposal again each time that it comes, even if a value is learned.
    pub fn accept(&mut self, ballot: Ballot, value: Value) -> bool
        ensures answer { result ≡ nat_le self.old.promised ballot }
        ensures after { self.new ≡ after_accept self.old ballot value }
    {
        if ballot < self.promised {
            return false;
        }
        self.promised = ballot;
        self.vote = Some(Vote { ballot, value });
        true
    }

    /// Starts the first phase of a ballot above all ballots that were tried here. The slot forgets the reports, the
    /// proposal and the counts of the previous ballot.
    pub fn begin(&mut self, ballot: Ballot)
        requires { self.old.trying < ballot }
        ensures { self.new ≡ after_begin self.old ballot }
    {
        let _within_limit = self.members.count(); // proof: at most 7 servers
        self.trying = ballot;
        self.reported = None;
        self.proposal = None;
        self.promises = [false; MOST_SERVERS as usize];
        self.accepts = [false; MOST_SERVERS as usize];
    }

    /// Learns the instance's value if none was learned before. Returns whether it did so. The first value stays.
    pub fn learn(&mut self, value: Value) -> bool
        ensures answer { result ≡ is_none self.old.learned }
        ensures after { self.new ≡ after_learn self.old value }
    {
        if self.learned.is_some() {
            return false;
        }
        self.learned = Some(value);
        true
    }

    /// Counts a server's promise and the vote that it reports, if it is a promise of the ballot tried. Any other
    /// promise is ignored.
    ///
    /// Returns the value to propose once a majority of servers has promised. It is the value of the greatest vote
    /// reported, or no-op if no vote was reported. Of votes with equal ballots, the first counts. A value is returned
    /// at most once for each ballot, and never if a value is learned.
    pub fn add_promise(&mut self, from: u8, ballot: Ballot, vote: Option<Vote>) -> Option<Value>
        requires tried { 0 < ballot }
        requires member { from < self.old.members.count }
        ensures answer { result ≡ promise_answer self.old from ballot vote }
        ensures after { self.new ≡ after_promise self.old from ballot vote }
    {
        if self.trying != ballot {
            return None;
        }
        self.note_promise(from, vote);
        let majority = has_majority(self.members, self.promises());
        let value = self.due_proposal(majority, self.reported);
        if value.is_some() {
            self.proposal = value;
        }
        value
    }

    /// Returns the value that [`Slot::add_promise`] would return. It changes nothing.
    pub fn promise_answer(&self, from: u8, ballot: Ballot, vote: Option<Vote>) -> Option<Value>
        requires { from < self.now.members.count }
        ensures { result ≡ promise_answer self.now from ballot vote }
    {
        if ballot != self.trying {
            return None;
        }
        let majority = has_majority_with(self.members, self.promises, from);
        self.due_proposal(majority, higher(self.reported, vote))
    }

    /// Counts a server's acceptance, if it is at the ballot tried. Any other acceptance is ignored.
    ///
    /// Once a majority of servers has accepted, the slot learns the value that this server proposed at that ballot, and
    /// returns it. A value is returned at most once, and never if a value was learned before.
    pub fn add_accept(&mut self, from: u8, ballot: Ballot) -> Option<Value>
        requires { from < self.old.members.count }
        ensures answer { result ≡ acceptance_answer self.old from ballot }
        ensures after { self.new ≡ after_acceptance self.old from ballot }
    {
        let value = self.acceptance_answer(from, ballot);
        if ballot == self.trying {
            self.note_acceptance(from);
        }
        if value.is_some() {
            self.learned = value;
        }
        value
    }

    /// Returns the value that [`Slot::add_accept`] would return. It changes nothing.
    pub fn acceptance_answer(&self, from: u8, ballot: Ballot) -> Option<Value>
        requires { from < self.now.members.count }
        ensures { result ≡ acceptance_answer self.now from ballot }
    {
        if ballot != self.trying || self.learned.is_some() {
            return None;
        }
        if !has_majority_with(self.members, self.accepts, from) {
            return None;
        }
        self.proposal
    }

    // Returns the value to propose if `majority` says that a majority has promised. `reported` is the greatest vote
    // that it reported.
    fn due_proposal(&self, majority: bool, reported: Option<Vote>) -> Option<Value>
        ensures { result ≡ due_proposal_from self.now.learned self.now.proposal majority reported }
    {
        if self.learned.is_some() || self.proposal.is_some() || !majority {
            return None;
        }
        Some(value_or_noop(reported))
    }

    fn note_promise(&mut self, from: u8, vote: Option<Vote>)
        requires { from < self.old.members.count }
        ensures { self.new ≡ with_promise self.old from vote }
    {
        let _within_limit = self.members.count(); // proof: at most 7 servers
        self.promises[from as usize] = true;
        self.reported = higher(self.reported, vote);
    }

    fn note_acceptance(&mut self, from: u8)
        requires { from < self.old.members.count }
        ensures { self.new ≡ with_acceptance self.old from }
    {
        let _within_limit = self.members.count(); // proof: at most 7 servers
        self.accepts[from as usize] = true;
    }
}

// Returns the vote with the greater ballot. If the ballots are equal, it returns the first vote.
fn higher(first: Option<Vote>, second: Option<Vote>) -> Option<Vote>
    ensures { result ≡ higher_vote first second }
{
    match (first, second) {
        (None, second) => second,
        (Some(first), None) => Some(first),
        (Some(first), Some(second)) => {
            if first.ballot < second.ballot {
                Some(second)
            } else {
                Some(first)
            }
        }
    }
}

// Returns the value of a vote, or no-op if there is no vote.
fn value_or_noop(vote: Option<Vote>) -> Value
    ensures { result ≡ option_map_or (λ x. x.value) vote Noop }
{
    match vote {
        Some(vote) => vote.value,
        None => Value::Noop,
    }
}

// Returns whether more than half of the servers are in the set after server `from` is added to it.
fn has_majority_with(members: Members, among: ServerSet, from: u8) -> bool
    requires { from < members.count }
    ensures { result ≡ has_majority members (slice_set (take members.count among) from true) }
{
    let count = members.count() as usize;
    let mut among = among;
    among[from as usize] = true;
    has_majority(members, &among[..count])
}

// Returns whether more than half of the servers are in the set.
fn has_majority(members: Members, among: &[bool]) -> bool
    ensures { result ≡ has_majority members among.now }
{
    among.iter().filter(|present| **present).count() >= members.majority() as usize
}
