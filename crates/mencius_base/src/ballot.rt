ghost use Rattle.mencius_base.specs.Limits.{greatest_ballot, greatest_round};
ghost use Rattle.std.specs.Prelude.{◌≡◌, ◌<◌, ◌≤◌, ◌↔◌, IsSome, IfSome};
ghost use Rattle.mencius_base.specs.Members.{ballot_of, leader, round};

use crate::limits::GREATEST_ROUND;
use crate::members::Members;
use std::marker::Model;

/// The number of an attempt to decide an instance.
///
/// Ballot 0 belongs to the owner and needs no first phase. With n servers, every other ballot is `round * n + server`,
/// with a round of 1 to 65,535. Coordinated Paxos gives the owner the lowest ballot. The formula for all other ballots
/// is our choice.
#[derive(Clone, Copy, Debug, PartialEq, Eq, PartialOrd, Ord)]
pub struct Ballot {
    number: u32,
}

impl Model for Ballot {
    ghost use Rattle.mencius_base.specs.Limits.{greatest_ballot};
    ghost use Rattle.std.specs.Prelude.{ℕ, ◌≤◌};

    ghost Value = { ℕ };

    ghost view = { λ x. x.number };

    ghost invariant = { λ x. x.number ≤ greatest_ballot };

    ghost inverse = { λ n. record { number = n } };
}

impl Ballot {
    /// The ballot of an instance's owner. It is below every other ballot.
    pub const OWNER: Ballot = Ballot { number: 0 };

    /// Returns the ballot of a round that a server leads, or `None` unless the round is 1 to 65,535 and the server is a
    /// member.
    pub fn new(members: Members, round: u32, server: u8) -> Option<Ballot>
        ensures valid { IsSome result
            ↔ ((1 ≤ round) × (round ≤ greatest_round) × (server < members.count)) }
        ensures value { IfSome result (λ x. x ≡ ballot_of members round server) }
    {
        if round < 1 || round > GREATEST_ROUND || server >= members.count() {
            return None;
        }
        Some(Ballot {
            number: round * members.count() as u32 + server as u32,
        })
    }

    /// Returns the number of the ballot, which is 0 for the owner's ballot. Ballots are ordered by it.
    pub fn number(self) -> u32
        ensures number { result ≡ self }
        ensures small { result ≤ greatest_ballot }
    {
        self.number
    }

    /// Returns the round, which is 0 for the owner's ballot.
    pub fn round(self, members: Members) -> u32
        ensures round { result ≡ round members self }
        ensures small { result ≤ greatest_ballot }
    {
        self.number / members.count() as u32
    }

    /// Returns the server that may propose at this ballot of an instance. At ballot 0, it is the instance's owner.
    pub fn leader(self, members: Members, inst: u32) -> u8
        ensures leader { result ≡ leader members self inst }
        ensures member { result < members.count }
    {
        if self.number == 0 {
            members.owner(inst)
        } else {
            (self.number % members.count() as u32) as u8
        }
    }
}
