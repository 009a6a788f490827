//! Laws of all texts. The functions do nothing when they run. The contract of each one is a theorem.

ghost use Rattle.mencius_format.specs.Laws.{CommandsReadBack, EventsReadBack};

/// Reading the text of an event returns that event, and reading the text of a command returns that command. Both are
/// within the limits of a scenario. This holds in each version of a scenario that has the operation. Compare and set is
/// only in the newest version, and every other operation is in every version.
///
/// The law covers every event with numbers that their types can hold and with an allowed command (`IsSayable`). Each
/// event that [`push_event`](crate::push_event) has written is one of them. The law also covers every allowed command
/// (`IsCommand`), such as each one that [`push_command`](crate::push_command) has written.
pub fn reads_back()
    ensures events { EventsReadBack }
    ensures commands { CommandsReadBack }
{}
