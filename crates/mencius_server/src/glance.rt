//! A summary of a server's knowledge about one instance.
ghost use Rattle.mencius_server.specs.Glances.{glance_of};
ghost use Rattle.std.specs.List.{count_by};
ghost use Rattle.std.specs.Prelude.{◌≡◌};

use coord_paxos::Slot;
use mencius_base::{Ballot, Value};

/// A server's knowledge about one instance, with counts in place of sets.
#[derive(Clone, Copy, Debug, PartialEq, Eq)]
pub struct Glance {
    /// The greatest ballot that the server promised or accepted, or 0 if it did neither.
    pub promised: Ballot,
    /// The value that the server learned, if any.
    pub learned: Option<Value>,
    /// The greatest ballot that the server tries, or 0 if it tried none.
    pub trying: Ballot,
    /// The value that the server proposed at the ballot that it tries, if any.
    pub proposal: Option<Value>,
    /// The number of servers whose promise of the tried ballot it heard.
    pub promise_count: usize,
    /// The number of servers whose acceptance at the tried ballot it heard.
    pub acceptance_count: usize,
}

pub(crate) fn glance_at(slot: &Slot) -> Glance
    ensures { result ≡ glance_of slot.now }
{
    Glance {
        promised: slot.promised(),
        learned: slot.learned(),
        trying: slot.trying(),
        proposal: slot.proposal(),
        promise_count: count_of(slot.promises()),
        acceptance_count: count_of(slot.accepts()),
    }
}

fn count_of(among: &[bool]) -> usize
    ensures { result ≡ count_by (λ x. x) among.now }
{
    among.iter().filter(|present| **present).count()
}
