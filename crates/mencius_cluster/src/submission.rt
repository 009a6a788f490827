ghost use Rattle.std.specs.Prelude.{◌≡◌, ◌==◌, OnOk, OnErr};
ghost use Rattle.std.specs.FinMap as finite;
ghost use Rattle.map_exec.specs.State.{after_execution};
ghost use Rattle.mencius_model.specs.KeyMap.{key_of};
ghost use Rattle.mencius_cluster.specs.Answers.{bytes_in};
ghost use Rattle.mencius_model.specs.Replies.{first_reply};

use map_exec::{Executor, Reply};
use mencius_base::{Command, NoMemory};

/// The reply of a submitted command, if the command has one.
#[derive(Debug, Drop)]
pub enum Answered {
    /// The server that the command was submitted to has not executed it yet.
    Pending,
    /// The text, if any, that the map of that server had at the command's key when it first executed the command.
    Given(Reply),
}

/// A submitted command, as a cluster stores it.
#[derive(Debug, Drop)]
pub struct Submission {
    /// The command.
    pub command: Command,
    /// The server that the command was submitted to.
    pub home: u8,
    /// The reply of the command, if the command has one.
    pub reply: Answered,
}

impl Submission {
    /// Executes the command at a server. Stores the reply if the server is the command's home and no reply is stored
    /// yet.
    pub(crate) fn execute(
        &mut self,
        executor: &mut Executor,
        server: u8,
        ticket: u32,
    ) -> Result<(), NoMemory>
        ensures executed { OnOk result (executor.new
            ≡ after_execution executor.old self.old.command ticket) }
        ensures command { self.new.command ≡ self.old.command }
        ensures home { self.new.home ≡ self.old.home }
        ensures answer { OnOk result (bytes_in self.new.reply
            ≡ first_reply (self.old.home == server) (bytes_in self.old.reply)
            (finite.get executor.old.store (key_of self.old.command.op))) }
        ensures executor { OnErr result (executor.new ≡ executor.old) }
        ensures submission { OnErr result (self.new ≡ self.old) }
    {
        let reply = executor.execute(&self.command, ticket)?;
        if self.home == server
            && let Answered::Pending = self.reply
        {
            self.reply = Answered::Given(reply);
        }
        Ok(())
    }
}
