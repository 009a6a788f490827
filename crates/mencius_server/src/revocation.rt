//! Rule 3, which starts first phases at the instances of a suspected server.
ghost use Rattle.mencius_base.specs.Refusal.{IsRefusedFor};
ghost use Rattle.mencius_server.specs.Machine.{IsUndone, SameServerAndLimit, after_suspect, is_spent, next_round_of, suspect_cause, suspect_sent};
ghost use Rattle.mencius_server.specs.Slots.{prepare_at, slot_after_phase};
ghost use Rattle.mencius_server.specs.State.{slot};
ghost use Rattle.mencius_server.specs.Calls.{CanBegin};
ghost use Rattle.mencius_base.specs.Outbox.{IsPushed};
ghost use Rattle.std.specs.Prelude.{◌≡◌, false, is_none, is_some, ◌+◌, ◌<◌, ◌≤◌, ◌++◌, ◌==◌, OnOk, OnErr, if◌then◌else◌, Some};

use crate::Server;
use coord_paxos::Slot;
use mencius_base::{Ballot, GREATEST_ROUND, Members, Message, Outbox, Refusal};

impl Server {
    /// Revokes the open instances of a suspected server (Rule 3 of Mao, Junqueira and Marzullo, OSDI 2008, section 4).
    /// The reach of a suspicion is this project's choice.
    ///
    /// The suspicion acts if the lowest unlearned instance of the suspected server is below this server's front plus
    /// beta. It then covers all unlearned instances of the suspected server that are at most this server's front plus
    /// twice beta. For each of them, in rising order, one Prepare goes to `out`. The round of the Prepare is one above
    /// the greater of the rounds that this server tried and promised there. A suspicion may be wrong, but a chosen
    /// command stays chosen.
    ///
    /// `suspected` is below the number of members.
    ///
    /// # Errors
    ///
    /// In this order:
    ///
    /// - `SelfSuspect` if `suspected` is this server
    /// - `NothingToRevoke` if the suspicion covers no instance
    /// - `RoundsFull` if the round would exceed 65,535 at a covered instance
    /// - `MessagesFull` if `out` has no space for all the Prepares
    /// - `NoMemory` if an allocation fails
    ///
    /// A refused suspicion sends no Prepare.
    pub fn suspect(&mut self, suspected: u8, out: &mut Outbox) -> Result<(), Refusal>
        requires { suspected < self.old.members.count }
        // The clauses state the effect in terms of the server's own state, for all messages heard before.
        // `laws::events` says that the call is the suspicion at each reached trace.
        ensures sent { OnOk result (out.new.messages
            ≡ out.old.messages ++ suspect_sent self.old suspected) }
        ensures after { OnOk result (self.new ≡ after_suspect self.old suspected) }
        ensures refusal { IsRefusedFor (suspect_cause self.old out.old suspected) result }
        ensures err { OnErr result (IsUndone self.old self.new out.old out.new) }
        ensures same { SameServerAndLimit self.old self.new out.old out.new }
    {
        if self.id == suspected {
            return Err(Refusal::SelfSuspect);
        }
        let reach = self.instances.reach(suspected, self.front);
        let tally = self.instances.tally(suspected, reach);
        tally.reserve(out)?;
        self.instances.begin_all(self.id, suspected, reach, out)?;
        Ok(())
    }
}

// Returns the round after the rounds of the tried ballot and the promised ballot.
pub(crate) fn next_round_of(members: Members, slot: &Slot) -> u32
    ensures round { result ≡ next_round_of members slot.now }
    ensures some { 1 ≤ result }
{
    // Rounds have the same order as their ballots, so one division is enough.
    let highest = slot.trying().max(slot.promised());
    highest.round(members) + 1
}

// Starts a first phase at an unlearned slot, and returns whether that phase is in the last round. If the slot has
// learned a value, the function starts no phase and returns `None`.
pub(crate) fn begin_slot(
    slot: &mut Slot,
    members: Members,
    id: u8,
    inst: u32,
    out: &mut Outbox,
) -> Option<bool>
    requires { CanBegin members id slot.old out.old }
    ensures after { slot.new ≡ slot_after_phase members id slot.old }
    ensures pushed { IsPushed (prepare_at members id inst (Some slot.old))
        (if is_none slot.old.learned then 1 else 0) out.old out.new }
    ensures begun { is_some result ≡ is_none slot.old.learned }
    ensures last { result ≡ Some false → is_spent members slot.new ≡ false }
{
    if slot.learned().is_some() {
        return None;
    }
    let round = next_round_of(members, slot);
    if let Some(ballot) = Ballot::new(members, round, id) {
        slot.begin(ballot);
        out.push(Message::Prepare {
            from: id,
            inst,
            ballot,
        });
    }
    // The slot now tries this round, so its next round is the one after it.
    Some(round >= GREATEST_ROUND)
}
