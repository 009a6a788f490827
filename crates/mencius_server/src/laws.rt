//! Laws of a server's calls. Their functions do nothing when they run, and only their contracts matter.
//!
//! The contracts of a server's calls are about the server's own state, for all messages that it may have heard. The
//! laws link these calls to the trace. If the server's state is the state that the definitions give at a reached trace,
//! a call is one event of that trace.
ghost use Rattle.mencius_server.specs.Laws.{ExecutionLeavesAll, FrontAnswers, HearAddresses, HearIsEvent, HearLearnsAsEvent, LearnedAnswers, LeavesOthers, LossLeavesAll, RetryAddresses, RetryIsEvent, SubmitAddresses, SubmitIsEvent, SuspectAddresses, SuspectIsEvent, WaitingAnswers};

pub use mencius_model::laws::{one_proposal, one_suggestion};

/// If the server's state is its state at a reached trace, its calls return the values of that trace.
///
/// - [`front`](crate::Server::front) returns the server's next own instance after all that it sent.
/// - [`learned`](crate::Server::learned) returns the value in the server's first line about learning the instance.
/// - [`waiting`](crate::Server::waiting) returns the first ticket that waits according to the server's lines.
pub fn answers()
    ensures front { FrontAnswers }
    ensures learned { LearnedAnswers }
    ensures waiting { WaitingAnswers }
{}

/// If the server's state is its state at a reached trace, a call is an event of that trace.
///
/// The call puts exactly the messages of the event on the outbox. It leaves the server in its state at the longer
/// trace. It is refused for the first cause of the event that holds.
///
/// - [`submit`](crate::Server::submit) of the next ticket is the submission, for any command.
/// - [`hear`](crate::Server::hear) of a message that was sent is its delivery. Both teach the same number of instances.
/// - [`suspect`](crate::Server::suspect) by a member is the suspicion.
/// - [`retry`](crate::Server::retry) is the retry.
pub fn events()
    ensures submission { SubmitIsEvent }
    ensures delivery { HearIsEvent }
    ensures learned { HearLearnsAsEvent }
    ensures suspicion { SuspectIsEvent }
    ensures retry { RetryIsEvent }
{}

/// Each message that a server sends may be passed to [`hear`](crate::Server::hear) of every server that the message
/// goes to. This is true for all messages that the sender may have heard. So you can carry the messages over a network
/// of your own.
///
/// The laws require that the server's number is below the number of members. The law of deliveries also requires at
/// most seven members. Both are true for every [`Server`](crate::Server).
pub fn addresses()
    ensures submission { SubmitAddresses }
    ensures delivery { HearAddresses }
    ensures suspicion { SuspectAddresses }
    ensures retry { RetryAddresses }
{}

/// An accepted event at a reached trace leaves all servers as they were, except the server of the event. An accepted
/// loss or execution leaves all servers as they were.
///
/// A simulator with its own network needs these laws. After a call of one [`Server`](crate::Server), it may keep all
/// other servers unchanged. They are then at the longer trace too.
pub fn isolation()
    ensures others { LeavesOthers }
    ensures loss { LossLeavesAll }
    ensures execution { ExecutionLeavesAll }
{}
