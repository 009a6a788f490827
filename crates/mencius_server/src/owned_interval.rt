//! Intervals of the instances of one server.
ghost use Rattle.mencius_base.specs.Limits.{greatest_front, most_servers};
ghost use Rattle.mencius_base.specs.Members.{owner};
ghost use Rattle.mencius_server.specs.OwnedIntervals.{IsOwnedInterval};
ghost use Rattle.std.specs.Prelude.{◌≡◌, ℕ, ◌+◌, ◌≤◌};

use mencius_base::Members;

/// The instances of one server from `first` up to, but not including, `stop`. The server owns `first`.
#[derive(Clone, Copy)]
pub(crate) struct OwnedInterval {
    pub(crate) members: Members,
    pub(crate) server: u8,
    pub(crate) first: u32,
    pub(crate) stop: u32,
}

impl OwnedInterval {
    /// Returns the server's next instance after its instance `inst`.
    pub(crate) fn next(self, inst: u32) -> u32
        requires interval { IsOwnedInterval self }
        requires own { owner self.members inst ≡ self.server }
        requires small { inst ≤ greatest_front }
        ensures owned { owner self.members result ≡ self.server }
        ensures above { inst + 1 ≤ result }
        ensures least { (i : ℕ) → inst + 1 ≤ i → owner self.members i ≡ self.server → result ≤ i }
    {
        next_owned(self.members, inst)
    }
}

/// Returns the next instance after `inst` that has the same owner.
pub(crate) fn next_owned(members: Members, inst: u32) -> u32
    requires { inst ≤ greatest_front }
    ensures owned { owner members result ≡ owner members inst }
    ensures above { inst + 1 ≤ result }
    ensures near { result ≤ inst + most_servers }
    ensures least { (i : ℕ) → inst + 1 ≤ i → owner members i ≡ owner members inst → result ≤ i }
{
    inst + u32::from(members.count())
}
