ghost use Rattle.std.specs.Prelude.{◌≡◌, ◌<◌, [], ◌∷◌, ◌++◌, None, OnOk, OnErr, length, option_copied, option_map, slice_get};
ghost use Rattle.std.specs.Map.{lookup};
ghost use Rattle.mencius_base.specs.Command.{is_same_id};
ghost use Rattle.mencius_cluster.specs.declared.submission.Answered.TheVariants.{Pending};
ghost use Rattle.mencius_cluster.specs.Performed.{IsExecution, IsPerformed};
ghost use Rattle.mencius_cluster.specs.Salt.{hash_by, hasher_with};
ghost use Rattle.mencius_model.specs.WithinLimits.{IsTicketBelow};

use crate::salt::{BuildSaltedHasher, Identity};
use crate::submission::{Answered, Submission};
use indexmap::IndexMap;
use map_exec::Executor;
use mencius_base::{Command, CommandId, INSTANCES, NoMemory, Value};
use std::alloc::Global;
use std::hash::BuildHasher;
use std::marker::Model;

// The first command requests room for this number of commands, because a cluster accepts no more. If the table grew
// from zero, each command would be copied twice, and its place would be searched again each time.
const FIRST_COMMANDS: usize = INSTANCES as usize;

/// The submitted commands, in the order of their tickets. No two commands have the same identity.
///
/// A command is found by its ticket or by its identity. The cost of a search by identity depends on a hash of the
/// identities, which begins with a salt.
#[derive(Drop)]
pub struct Submissions {
    // The place of a command is its ticket.
    rows: IndexMap<Identity, Submission, BuildSaltedHasher>,
}

impl Model for Submissions {
    ghost use Rattle.std.specs.Prelude.{map};
    ghost use Rattle.indexmap.specs.IndexMap.{hasher_of, spare};
    ghost use Rattle.mencius_cluster.specs.Submissions.{SubmissionTable, row_of};

    ghost Value = { SubmissionTable };

    ghost view = { λ x. record {
      entries = map row_of x.rows.entries;
      room = spare x.rows;
      hasher = (hasher_of x.rows).first;
    } };
}

impl Submissions {
    /// Makes a table without commands. The call does not allocate.
    pub fn new(alloc: Global, salt: u64) -> Submissions
        ensures entries { result.entries ≡ [] }
        ensures hasher { result.hasher ≡ hasher_with salt }
    {
        Submissions {
            rows: IndexMap::with_hasher(alloc, BuildSaltedHasher::new(salt)),
        }
    }

    /// Returns the number of submitted commands.
    pub fn len(&self) -> usize
        ensures len { result ≡ length self.now.entries }
    {
        self.rows.len()
    }

    /// Returns the stored command of a ticket, or `None` if no command has this ticket.
    pub fn of_ticket(&self, ticket: u32) -> Option<&Submission>
        ensures { option_copied result
            ≡ option_map (λ row. row.1) (slice_get self.now.entries ticket) }
    {
        let (_, submission) = self.rows.get_index(ticket as usize)?;
        Some(submission)
    }

    /// Returns the stored command of an identity, or `None` if no command has this identity.
    pub fn of_id(&self, id: CommandId) -> Option<&Submission>
        ensures value { option_copied result ≡ lookup (is_same_id id) self.now.entries }
    {
        self.rows.get(&Identity { id })
    }

    /// Returns the hash that a search for this identity uses.
    pub fn hash_of(&self, id: CommandId) -> u64
        ensures { result ≡ hash_by self.now.hasher id }
    {
        self.rows.hasher().hash_one(Identity { id })
    }

    /// Makes room for another command. The stored commands stay, even if the call fails.
    pub fn reserve(&mut self) -> Result<(), NoMemory>
        ensures entries { self.new.entries ≡ self.old.entries }
        ensures hasher { self.new.hasher ≡ self.old.hasher }
        ensures room { OnOk result (0 < self.new.room) }
    {
        if self.rows.is_empty() && self.rows.reserve(FIRST_COMMANDS).is_ok() {
            return Ok(());
        }
        self.rows.reserve(1)?;
        Ok(())
    }

    /// Adds a command without a reply, which gets the next ticket. There must be room for it, and its identity must be
    /// new.
    pub fn enroll(&mut self, command: Command, home: u8)
        requires room { 0 < self.old.room }
        requires new { lookup (is_same_id command.id) self.old.entries ≡ None }
        ensures entries { self.new.entries ≡ self.old.entries
            ++ (command.id, record { command = command; home = home; reply = Pending }) ∷ [] }
        ensures hasher { self.new.hasher ≡ self.old.hasher }
    {
        let identity = Identity { id: command.id() };
        let submission = Submission {
            command,
            home,
            reply: Answered::Pending,
        };
        let Ok(_) = self.rows.insert(identity, submission) else {
            unreachable!();
        };
    }

    /// Executes the command of a ticket at a server. Stores the reply if the server is the command's home and no reply
    /// is stored yet.
    pub fn execute(
        &mut self,
        executor: &mut Executor,
        server: u8,
        ticket: u32,
    ) -> Result<(), NoMemory>
        requires { ticket < length self.old.entries }
        ensures done { OnOk result (IsExecution server ticket executor.old executor.new
            self.old.entries self.new.entries) }
        ensures executor { OnErr result (executor.new ≡ executor.old) }
        ensures rows { OnErr result (self.new.entries ≡ self.old.entries) }
        ensures hasher { self.new.hasher ≡ self.old.hasher }
    {
        let (_, submission) = self.rows.pair_mut(ticket as usize);
        submission.execute(executor, server, ticket)
    }
}

/// Executes a value at a server. No-op does nothing, and a ticket executes its command.
pub fn perform(
    executor: &mut Executor,
    submissions: &mut Submissions,
    server: u8,
    value: Value,
) -> Result<(), NoMemory>
    requires { IsTicketBelow (length submissions.old.entries) value }
    ensures done { OnOk result (IsPerformed server value executor.old executor.new
        submissions.old.entries submissions.new.entries) }
    ensures executor { OnErr result (executor.new ≡ executor.old) }
    ensures rows { OnErr result (submissions.new.entries ≡ submissions.old.entries) }
    ensures hasher { submissions.new.hasher ≡ submissions.old.hasher }
{
    match value {
        Value::Noop => Ok(()),
        Value::Ticket(ticket) => submissions.execute(executor, server, ticket),
    }
}
