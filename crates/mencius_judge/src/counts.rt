ghost use Rattle.std.specs.Prelude.{◌≡◌, ◌↔◌, ◌+◌, IfOk, IsTrue};
ghost use Rattle.mencius_judge.specs.Counts.{AreCounts};
ghost use Rattle.mencius_judge.specs.Log.{Log};
ghost use Rattle.mencius_judge.specs.Promises.{AreComparable, WasJudged};

use mencius_base::NoMemory;

/// The counts of a log that keeps all promises.
#[derive(Clone, Copy, Debug, PartialEq, Eq)]
pub struct Counts {
    /// The number of servers that have at least one command.
    pub servers: usize,
    /// The number of different identities of submitted commands.
    pub commands: u64,
    /// The number of commands in the longest history.
    pub executed: usize,
    /// The number of commands that had a reply.
    pub replies: u64,
    /// The number of commands that had a reply other than `failed` but are in no history. Nothing has checked whether
    /// these replies are right.
    pub open_replies: usize,
    /// The number of lookups.
    pub lookups: u64,
    /// The number of commands in the shortest history that is not empty, or 0 if there is none.
    pub shortest: usize,
}

impl Counts {
    /// Returns whether something was judged. This is so if a server has a history and no reply is open.
    pub fn is_judged(&self) -> bool
        ensures { (w : Log) → AreComparable w → AreCounts w self.now → (IsTrue result ↔ WasJudged w) }
    {
        self.executed > 0 && self.open_replies == 0
    }
}

/// Returns the count plus 1, or `NoMemory` if that would exceed the greatest `u64`. No count is known to come near that
/// number.
pub fn one_more(count: u64) -> Result<u64, NoMemory>
    ensures { IfOk result (λ more. more ≡ count + 1) }
{
    count.checked_add(1).ok_or(NoMemory)
}

/// Returns the number of commands plus 1, or `NoMemory` if that would exceed the greatest `usize`. No number of commands
/// is known to come near that number.
pub(crate) fn one_more_command(count: usize) -> Result<usize, NoMemory>
    ensures { IfOk result (λ more. more ≡ count + 1) }
{
    count.checked_add(1).ok_or(NoMemory)
}
