ghost use Rattle.mencius_base.specs.Limits.{greatest_beta, greatest_front, most_servers};
ghost use Rattle.std.specs.Prelude.{◌≡◌, ℕ, ◌+◌, ◌<◌, ◌≤◌, ◌↔◌, IsSome, IfSome};
ghost use Rattle.mencius_base.specs.Members.{first_owned, majority, owner};

use crate::limits::{GREATEST_BETA, MOST_SERVERS};
use std::marker::Model;

/// The servers of a cluster, numbered from 0, and the constant beta that they share.
///
/// The servers own the instances in turn, round-robin. Beta sets how far past its own front a server's suspicion of
/// another server looks (look-ahead revocation). `docs/MODEL.md` names the source of both rules.
#[derive(Clone, Copy, Debug, PartialEq, Eq)]
pub struct Members {
    count: u8,
    beta: u16,
}

impl Model for Members {
    ghost use Rattle.std.specs.Prelude.{◌≤◌};
    ghost use Rattle.mencius_base.specs.Limits.{greatest_beta, most_servers};
    ghost use Rattle.mencius_base.specs.Members.{Membership};

    ghost Value = { Membership };

    ghost view = { λ m. record { count = m.count; beta = m.beta } };

    ghost invariant = { λ m.
        (1 ≤ m.count) × (m.count ≤ most_servers) × (m.beta ≤ greatest_beta) };

    ghost inverse = { λ x. record { count = x.count; beta = x.beta } };
}

impl Members {
    /// Returns the members of a cluster of `n` servers with a beta of 0, or `None` unless `n` is 1 to 7.
    pub fn new(n: u8) -> Option<Members>
        ensures valid { IsSome result ↔ ((1 ≤ n) × (n ≤ most_servers)) }
        ensures value { IfSome result (λ m. m.count ≡ n) }
        ensures beta { IfSome result (λ m. m.beta ≡ 0) }
    {
        Members::with_beta(n, 0)
    }

    /// Returns the members of a cluster of `n` servers with this beta. Returns `None` unless `n` is 1 to 7 and the beta
    /// is at most 4,095.
    pub fn with_beta(n: u8, beta: u32) -> Option<Members>
        ensures valid { IsSome result
            ↔ ((1 ≤ n) × (n ≤ most_servers) × (beta ≤ greatest_beta)) }
        ensures value { IfSome result (λ m. m.count ≡ n) }
        ensures beta { IfSome result (λ m. m.beta ≡ beta) }
    {
        if n < 1 || n > MOST_SERVERS || beta > GREATEST_BETA {
            return None;
        }
        Some(Members {
            count: n,
            beta: beta as u16,
        })
    }

    /// Returns the number of servers, 1 to 7.
    pub fn count(self) -> u8
        ensures count { result ≡ self.count }
        ensures some { 1 ≤ result }
        ensures few { result ≤ most_servers }
    {
        self.count
    }

    /// Returns beta, 0 to 4,095. It sets how far past its own front a server's suspicion of another server looks. A
    /// suspicion needs an open instance below the front plus beta. It covers open instances up to the front plus twice
    /// beta.
    pub fn beta(self) -> u32
        ensures beta { result ≡ self.beta }
        ensures small { result ≤ greatest_beta }
    {
        u32::from(self.beta)
    }

    /// Returns the smallest number of servers that is more than half of them.
    pub fn majority(self) -> u8
        ensures { result ≡ majority self }
    {
        self.count / 2 + 1
    }

    /// Returns the server that owns an instance. Only that server may suggest a command there.
    pub fn owner(self, inst: u32) -> u8
        ensures owner { result ≡ owner self inst }
        ensures member { result < self.count }
    {
        (inst % self.count as u32) as u8
    }

    /// Returns the lowest instance that `server` owns and that is not below `from`. The server must be a member, and
    /// `from` must be at most 4,102.
    #[tactic(auto, using(crate::proofs::LeastOwned::first_owned_owner, crate::proofs::LeastOwned::first_owned_least))]
    pub fn first_owned(self, server: u8, from: u32) -> u32
        requires { (server < self.count) × (from ≤ greatest_front) }
        ensures owned { owner self result ≡ server }
        ensures above { from ≤ result }
        ensures least { (i : ℕ) → from ≤ i → owner self i ≡ server → result ≤ i }

        // The clause `place` gives the same instance by a formula, for proofs that compute with it.
        ensures place { result ≡ first_owned self server from }
        ensures near { result < from + self.count }
    {
        let n = self.count as u32;
        from + (server as u32 + n - from % n) % n
    }
}
