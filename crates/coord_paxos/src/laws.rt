//! The laws of one instance. Each law is the contract of a function that does nothing when it runs.
//!
//! The contracts of a slot's calls are about the slot's record. These laws connect the record with the trace.
//! `slot_at m w p i` is the slot of server p at instance i, computed from the trace w. After each line about sending,
//! hearing or learning, it equals the slot that the matching call leaves. Each call returns the value that the trace
//! calls for.

ghost use Rattle.coord_paxos.specs.CallLaws.{RepeatedAcceptanceIgnored, BeginEmpties, FirstVoteStands, GreaterVoteReplaces, LearnedStays, LearnsOwnProposal, PromiseBinds, PromiseGrows, RepeatedPromiseIgnored, PromisesAbove, ProposalStays, ProposesOnce};
ghost use Rattle.coord_paxos.specs.Laws.{SlotAfterAccept, AcceptanceAnswered, PrepareAnswered, PromiseAnswered, SlotAfterBegin, SlotAfterAcceptance, SlotAfterPromise, IgnoresAcceptances, IgnoresPromises, LeavesProposals, LeavesRepeats, LeavesSuggestions, LeavesUncounted, LeavesUntouched, SlotAfterLearn, SlotAfterPrepare, SlotAtTheStart, SlotAfterSuggest};
ghost use Rattle.coord_paxos.specs.Premises.{AcceptedGoesToOwner, AcceptedWasProposed, FreeIsUnsaid, NextIsUntried, PromiseIsPositive, ProposeIsProposal, SuggestIsProposal, UntouchedLeavesPremises};
ghost use Rattle.mencius_model.specs.Laws.{ReportedIsGreatest, ReportedWasHeard, ReportedWhereHeard};

/// In the empty trace, the slot is the one that [`Slot::new`](crate::Slot::new) returns. After the owner's first
/// suggestion, it is the one that [`suggest`](crate::Slot::suggest) leaves.
pub fn owner_proposes()
    ensures start { SlotAtTheStart }
    ensures suggested { SlotAfterSuggest }
{}

/// Every trace that some journal makes (`IsReached`) meets the conditions that the other laws set for a trace.
///
/// - A value had been proposed at the greatest ballot that a server accepted at an instance (`IsVoted`).
/// - At the free instance that takes a server's next ticket, the server is the owner and tries no ballot above 0. No
///   ticket has been suggested there.
/// - The ballot that a suspicion prepares is greater than each ballot that the server tried at the instance. No value
///   is proposed at it, and the server heard no promise of it and no acceptance at it (`IsUntried`).
/// - A sent Suggest or Propose carries the proposal at its instance and ballot.
/// - A sent Promise is of a ballot above 0, and a sent Accepted at ballot 0 goes to the owner of the instance.
///
/// A line that does not touch the slot keeps `IsVoted` and `IsUntried`. It leaves the ballot tried and the proposals
/// unchanged (`between`). So these conditions also hold within an event, as long as its lines so far do not touch the
/// slot. Lines about other instances do not touch it.
pub fn premises()
    ensures voted { AcceptedWasProposed }
    ensures free { FreeIsUnsaid }
    ensures untried { NextIsUntried }
    ensures suggested { SuggestIsProposal }
    ensures proposed { ProposeIsProposal }
    ensures promised { PromiseIsPositive }
    ensures accepted { AcceptedGoesToOwner }
    ensures between { UntouchedLeavesPremises }
{}

/// [`prepare`](crate::Slot::prepare) returns the reply that the acceptor's rule gives for the trace. After the reply is
/// sent, the slot is the one that the call leaves.
pub fn prepares()
    ensures answer { PrepareAnswered }
    ensures after { SlotAfterPrepare }
{}

/// If an acceptance is sent, the slot after it is the one that [`accept`](crate::Slot::accept) leaves. If none is sent,
/// that call changes nothing.
pub fn accepts()
    ensures { SlotAfterAccept }
{}

/// After a Prepare is sent, the slot is the one that [`begin`](crate::Slot::begin) leaves.
pub fn begins()
    ensures { SlotAfterBegin }
{}

/// [`add_promise`](crate::Slot::add_promise) returns the value that is due after all promises heard, and none for a
/// promise of another ballot. After the value is proposed, the slot is the one that the call leaves.
pub fn counts_promises()
    ensures tried { PromiseAnswered }
    ensures other_ballot { IgnoresPromises }
    ensures after { SlotAfterPromise }
{}

/// [`add_accept`](crate::Slot::add_accept) returns the value that all acceptances heard decide, and none for an
/// acceptance at another ballot. After the value is learned, the slot is the one that the call leaves.
pub fn counts_acceptances()
    ensures tried { AcceptanceAnswered }
    ensures other_ballot { IgnoresAcceptances }
    ensures after { SlotAfterAcceptance }
{}

/// After a value is learned, the slot is the one that [`learn`](crate::Slot::learn) leaves.
pub fn learns()
    ensures { SlotAfterLearn }
{}

/// All other lines leave the slot of server p at instance i unchanged.
///
/// - Only some lines can touch the slot. At i, these are each Suggest and Propose, each Promise, Accepted and Prepare
///   that p sent, and each value that p learned. Each message that p heard can also touch the slot.
/// - A message that p heard leaves the slot unchanged, unless it is a Promise or an Accepted of the ballot tried at i.
/// - A Propose at a ballot that p does not try leaves the slot unchanged.
/// - A Suggest leaves the slot unchanged if p does not own i.
///
/// The last two statements hold if a value had been proposed at the greatest ballot that p accepted at i. This is so in
/// every trace that some journal makes ([`premises`]).
pub fn leaves_the_rest()
    ensures untouched { LeavesUntouched }
    ensures uncounted { LeavesUncounted }
    ensures proposals { LeavesProposals }
    ensures suggestions { LeavesSuggestions }
{}

/// A message that comes again changes nothing. Counting the same promise or acceptance a second time changes nothing
/// and calls for nothing.
pub fn ignores_repeats()
    ensures messages { LeavesRepeats }
    ensures promises { RepeatedPromiseIgnored }
    ensures acceptances { RepeatedAcceptanceIgnored }
{}

/// A slot only promises ballots that are greater than its promised ballot. After a promise, it accepts nothing at a
/// lower ballot. Its promised ballot never decreases.
pub fn keeps_promises()
    ensures above { PromisesAbove }
    ensures binds { PromiseBinds }
    ensures grows { PromiseGrows }
{}

/// The reported vote is one of the votes that were heard, and no vote that was heard has a greater ballot. If a vote
/// was heard, one is reported. Of votes with equal ballots, the first stays, and a vote with a greater ballot replaces
/// it.
pub fn reports_greatest()
    ensures heard { ReportedWasHeard }
    ensures greatest { ReportedIsGreatest }
    ensures some { ReportedWhereHeard }
    ensures first { FirstVoteStands }
    ensures greater { GreaterVoteReplaces }
{}

/// A new ballot starts with empty sets. It has at most one proposal, and none once a value is learned. The proposal
/// stays until the next ballot.
pub fn proposes_once()
    ensures empty { BeginEmpties }
    ensures once { ProposesOnce }
    ensures stays { ProposalStays }
{}

/// Acceptances only decide the slot's own proposal at that ballot. The first value learned stays. After that, nothing
/// more is proposed or decided.
pub fn learns_own_proposal()
    ensures own { LearnsOwnProposal }
    ensures stays { LearnedStays }
{}
