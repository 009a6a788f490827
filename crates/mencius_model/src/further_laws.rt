//! Two more theorems about the trace: which server has the longest history, and who leads the ballots of messages.
//!
//! The claims about a cluster do not need them. As in [`laws`](crate::laws), the functions do nothing when they run, and
//! the contract of each is the theorem.

ghost use Rattle.mencius_model.specs.Ballots.{MessagesLed};
ghost use Rattle.mencius_model.specs.Longest.{LongestIsLeast};

/// The history that the law `growth` and a board take as the longest is a longest one: no member has a longer history,
/// and each member with a lower number has a shorter one. `Cluster::longest` returns the number of this server.
pub fn longest()
    ensures { LongestIsLeast }
{}

/// The right server leads the ballot of each message. With n servers, no message and no vote has a ballot of 1 to n - 1.
///
/// - A Suggest comes from the instance's owner.
/// - A Prepare and a Propose have a ballot of n or more, and come from the server that leads it.
/// - A Promise has a ballot of n or more, and goes to the server that leads it. If it reports a vote, the vote's ballot
///   is lower.
/// - An Accepted goes to the server that leads its ballot. The owner leads ballot 0 of its instance.
pub fn ballots()
    ensures { MessagesLed }
{}
