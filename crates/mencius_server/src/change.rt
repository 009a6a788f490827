//! Changes of one slot.
ghost use Rattle.mencius_server.specs.Changes.{IsSaid, slot_after_change};
ghost use Rattle.std.specs.Prelude.{◌≡◌};

use coord_paxos::Slot;
use mencius_base::{Ballot, Value, Vote};

/// A change that a message makes to one slot.
///
/// A server first asks the slot for its answer, then reserves room for the messages, and then changes the slot in
/// place.
#[derive(Clone, Copy)]
pub(crate) enum Change {
    Prepare(Ballot),
    Accept(Ballot, Value),
    CountPromise(u8, Ballot, Option<Vote>),
    CountAcceptance(u8, Ballot),
    Learn(Value),
}

impl Change {
    /// Applies the change to a slot.
    pub(crate) fn make(self, slot: &mut Slot)
        requires { IsSaid slot.old.members self }
        ensures { slot.new ≡ slot_after_change slot.old self }
    {
        match self {
            Change::Prepare(ballot) => {
                slot.prepare(ballot);
            }
            Change::Accept(ballot, value) => {
                slot.accept(ballot, value);
            }
            Change::CountPromise(from, ballot, vote) => {
                slot.add_promise(from, ballot, vote);
            }
            Change::CountAcceptance(from, ballot) => {
                slot.add_accept(from, ballot);
            }
            Change::Learn(value) => {
                slot.learn(value);
            }
        }
    }
}
