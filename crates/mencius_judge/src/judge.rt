ghost use Rattle.std.specs.Prelude.{ℕ, ◌≡◌, ◌↔◌, [], ◌∷◌, Some, IsNone, IfOk, OnOk};
ghost use Rattle.mencius_log.specs.declared.observation.Observation.TheVariants.{Execute, Lookup, Reply, Restore, Settle, Submit, Tell};
ghost use Rattle.mencius_judge.specs.declared.histories.Next.TheVariants.{Differs, Leads};
ghost use Rattle.mencius_judge.specs.Log.{Log};
ghost use Rattle.mencius_judge.specs.Promises.{KeepsAll};
ghost use Rattle.mencius_judge.specs.Quotes.{NumberedLog, log_of};
ghost use Rattle.mencius_judge.specs.Rows.{count_of};
ghost use Rattle.mencius_judge.specs.Tables.{IsNext, floor_of};

use crate::answers::copy_of_answer;
use crate::counts::{Counts, one_more};
use crate::histories::{Histories, Next};
use crate::operations::is_same_op;
use crate::reply_checks::{other_reply, wrong_at_place, wrong_before};
use crate::settled::{acknowledge, count_settled, first_unsettled, id_at, open_count};
use crate::tables::{identity_key, put};
use crate::texts::{copy_of, copy_of_key};
use crate::timelines::Timelines;
use crate::violation::Violation;
use mencius_base::{Command, CommandId, Key, NoMemory, Text};
use mencius_log::{Answer, Observation};
use std::alloc::Global;
use std::collections::BTreeMap;

/// A submitted command, the number of commands that were acknowledged when it was first submitted, and the number of the
/// line that first submitted it.
#[derive(Drop)]
pub struct Submission {
    pub command: Command,
    pub acknowledged: usize,
    pub line: u64,
}

impl Submission {
    fn of(command: &Command, acknowledged: usize, line: u64) -> Result<Submission, NoMemory>
        ensures command { IfOk result (λ s. s.command ≡ command.now) }
        ensures acknowledged { IfOk result (λ s. s.acknowledged ≡ acknowledged) }
        ensures line { IfOk result (λ s. s.line ≡ line) }
    {
        Ok(Submission {
            command: command.clone()?,
            acknowledged,
            line,
        })
    }
}

/// The first reply to a command, and the number of its line.
#[derive(Drop)]
pub struct FirstReply {
    pub answer: Answer,
    pub line: u64,
}

/// The place of a command in the longest history, and the text that a map holds at its key there.
#[derive(Drop)]
pub struct Execution {
    pub place: usize,
    pub held: Option<Text>,
}

/// The acknowledged commands that are known to be in the longest history. These are the first `count` acknowledged
/// commands, and `highest` is the highest of their places.
#[derive(Clone, Copy)]
pub struct SettledCommands {
    pub count: usize,
    pub highest: usize,
}

/// The knowledge of a store that is needed to judge its next observation.
///
/// A judge does not keep the observations. It keeps the commands, their first replies, the longest history, the changes
/// of the keys, and how far each server and each reader has come. It also keeps the numbers of the lines that a
/// violation may quote.
#[derive(Drop)]
pub struct Judge {
    pub(crate) histories: Histories,
    // The text that each key held after each prefix of the longest history.
    pub(crate) timelines: Timelines,
    // The submissions, the first replies and the executions of commands, by `identity_key`.
    pub(crate) submissions: BTreeMap<u64, Submission>,
    pub(crate) replies: BTreeMap<u64, FirstReply>,
    pub(crate) executions: BTreeMap<u64, Execution>,
    // The commands that had a reply other than `failed`, in the order of their first replies.
    acknowledged: Vec<CommandId>,
    settled: SettledCommands,
    // For each reader, the lowest number of commands of the longest history that it may have seen.
    floors: BTreeMap<u64, usize>,
    // The number of different identities of submitted commands, of commands with a reply, and of lookups.
    commands: u64,
    replied: u64,
    lookups: u64,
}

impl Judge {
    ghost use Rattle.mencius_judge.specs.Counts.{AreCounts};
    ghost use Rattle.mencius_judge.specs.Judged.{Breaks, HasSeen, HasSeenLog, IsJudged};

    /// Creates a judge that has seen nothing.
    pub fn new(alloc: Global) -> Result<Judge, NoMemory>
        ensures { IfOk result (λ j. HasSeen j []) }
    {
        Ok(Judge {
            histories: Histories::new(alloc)?,
            timelines: Timelines::new(alloc),
            submissions: BTreeMap::new(alloc),
            replies: BTreeMap::new(alloc),
            executions: BTreeMap::new(alloc),
            acknowledged: Vec::new(alloc),
            settled: SettledCommands {
                count: 0,
                highest: 0,
            },
            floors: BTreeMap::new(alloc),
            commands: 0,
            replied: 0,
            lookups: 0,
        })
    }

    /// Judges the observation of the next line. `line` is the number of the line, or any number by which you want to
    /// find it again. Returns how the observation breaks a promise, or `None` if it breaks none.
    ///
    /// Suppose that the judge has seen some lines, which keep all promises (`HasSeen`). If the result is `None`, the
    /// judge has then seen the new line too, and all lines together keep all promises. If the result is a violation, the
    /// observation shows it and breaks its promise. The judge has then still seen the lines before, and
    /// [`Judge::quotes`] returns the lines that show the violation. After `NoMemory`, nothing is known about the judge.
    pub fn observe(
        &mut self,
        line: u64,
        observation: &Observation,
    ) -> Result<Option<Violation>, NoMemory>
        ensures judged { IfOk result (λ x. (n : NumberedLog) → HasSeen self.old n
            → IsJudged n (record { number = line; observation = observation.now }) x self.new) }
        ensures kept { IfOk result (λ x. (n : NumberedLog) → HasSeen self.old n
            → (IsNone x ↔ KeepsAll (observation.now ∷ log_of n))) }
    {
        match observation {
            Observation::Submit { command } => self.submit(line, command),
            Observation::Execute { server, id } => self.execute(line, *server, *id),
            Observation::Reply { id, answer } => self.reply(line, *id, answer),
            Observation::Lookup { reader, key, text } => self.look_up(*reader, key, text),
            Observation::Tell { reader, server } => self.tell(*reader, *server),
            Observation::Settle { server } => Ok(self.settle(*server)),
            Observation::Restore {
                server,
                source,
                count,
            } => self.restore(line, *server, *source, *count),
        }
    }

    /// Returns the counts of the log so far. It goes through all servers and all acknowledged commands.
    pub fn counts(&self) -> Counts
        ensures { (w : Log) → HasSeenLog self.now w → AreCounts w result }
    {
        Counts {
            servers: self.histories.servers(),
            commands: self.commands,
            executed: self.histories.longest(),
            replies: self.replied,
            open_replies: open_count(&self.executions, self.acknowledged.as_slice()),
            lookups: self.lookups,
            shortest: self.histories.shortest(),
        }
    }

    fn submit(&mut self, line: u64, command: &Command) -> Result<Option<Violation>, NoMemory>
        ensures { IfOk result (λ x. (n : NumberedLog) → HasSeen self.old n
            → IsJudged n (record { number = line; observation = Submit command.now }) x self.new) }
    {
        let id = command.id();
        let key = identity_key(id);
        if let Some(found) = self.submissions.get(&key) {
            if is_same_op(found.command.op(), command.op()) {
                return Ok(None);
            }
            return Ok(Some(Violation::OneCommand { id }));
        }
        let row = Submission::of(command, self.acknowledged.len(), line)?;
        self.commands = one_more(self.commands)?;
        put(&mut self.submissions, key, row)?;
        Ok(None)
    }

    fn execute(
        &mut self,
        line: u64,
        server: u32,
        id: CommandId,
    ) -> Result<Option<Violation>, NoMemory>
        ensures { IfOk result (λ x. (n : NumberedLog) → HasSeen self.old n
            → IsJudged n (record { number = line; observation = Execute server id }) x self.new) }
    {
        match self.histories.next(server, id) {
            Next::Differs { expected } => Ok(Some(self.differing(server, id, expected))),
            Next::Follows => {
                self.histories.follow(line, server)?;
                Ok(None)
            }
            Next::Leads => self.lead(line, server, id),
        }
    }

    // Returns the violation of a server that executes a command at a place where another server executed `expected`.
    fn differing(&self, server: u32, id: CommandId, expected: CommandId) -> Violation
        ensures { (n : NumberedLog) → HasSeen self.now n
            → IsNext self.now.histories.order.items
            (count_of self.now.histories.places self.now.histories.rows.items server) id (Differs expected)
            → Breaks (log_of n) (Execute server id) result }
    {
        if self.submissions.get(&identity_key(id)).is_none() {
            return Violation::Submitted { id };
        }
        Violation::SameOrder {
            server,
            place: self.histories.count(server),
            expected,
            found: id,
        }
    }

    // Judges the execution of a command at a place that no server had reached.
    fn lead(&mut self, line: u64, server: u32, id: CommandId) -> Result<Option<Violation>, NoMemory>
        ensures { IfOk result (λ x. (n : NumberedLog) → HasSeen self.old n
            → IsNext self.old.histories.order.items
            (count_of self.old.histories.places self.old.histories.rows.items server) id Leads
            → IsJudged n (record { number = line; observation = Execute server id }) x self.new) }
    {
        let key = identity_key(id);
        let place = self.histories.count(server);
        let Some(row) = self.submissions.get(&key) else {
            return Ok(Some(Violation::Submitted { id }));
        };
        if self.executions.get(&key).is_some() {
            return Ok(Some(Violation::Once { server, place, id }));
        }
        let acknowledged = self.acknowledged.as_slice();
        self.settled = count_settled(&self.executions, acknowledged, self.settled);
        if let Some(behind) = first_unsettled(acknowledged, self.settled.count, row.acknowledged) {
            return Ok(Some(Violation::RealTime {
                server,
                place,
                id,
                behind,
            }));
        }
        if let Some(violation) = wrong_before(
            &self.timelines,
            &self.replies,
            key,
            &row.command,
            place,
        )? {
            return Ok(Some(violation));
        }
        self.histories.lead(line, server, id)?;
        let size = self.histories.longest();
        let held = self.timelines.execute(&row.command, size)?;
        put(&mut self.executions, key, Execution { place, held })?;
        Ok(None)
    }

    fn reply(
        &mut self,
        line: u64,
        id: CommandId,
        answer: &Answer,
    ) -> Result<Option<Violation>, NoMemory>
        ensures { IfOk result (λ x. (n : NumberedLog) → HasSeen self.old n
            → IsJudged n (record { number = line; observation = Reply id answer.now }) x self.new) }
    {
        let key = identity_key(id);
        let Some(row) = self.submissions.get(&key) else {
            return Ok(Some(Violation::Submitted { id }));
        };
        if let Some(first) = self.replies.get(&key) {
            return other_reply(id, &first.answer, answer);
        }
        if let Some(violation) = wrong_at_place(&self.executions, key, &row.command, answer)? {
            return Ok(Some(violation));
        }
        acknowledge(&mut self.acknowledged, id, answer)?;
        self.replied = one_more(self.replied)?;
        let first = FirstReply {
            answer: copy_of_answer(answer)?,
            line,
        };
        put(&mut self.replies, key, first)?;
        Ok(None)
    }

    fn look_up(
        &mut self,
        reader: u32,
        key: &Key,
        text: &Option<Text>,
    ) -> Result<Option<Violation>, NoMemory>
        ensures { IfOk result (λ x. (n : NumberedLog) (line : ℕ) → HasSeen self.old n
            → IsJudged n (record { number = line; observation = Lookup reader key.now text.now }) x self.new) }
    {
        let from = floor_of(&self.floors, reader);
        let to = self.histories.longest();
        let Some(count) = self.timelines.first_count(key.as_str(), text, from, to) else {
            return Ok(Some(Violation::RightLookup {
                reader,
                key: copy_of_key(key)?,
                from,
                to,
                found: copy_of(text)?,
            }));
        };
        self.lookups = one_more(self.lookups)?;
        put(&mut self.floors, u64::from(reader), count)?;
        Ok(None)
    }

    fn tell(&mut self, reader: u32, server: u32) -> Result<Option<Violation>, NoMemory>
        ensures { IfOk result (λ x. (n : NumberedLog) (line : ℕ) → HasSeen self.old n
            → IsJudged n (record { number = line; observation = Tell reader server }) x self.new) }
    {
        let floor = floor_of(&self.floors, reader).max(self.histories.count(server));
        put(&mut self.floors, u64::from(reader), floor)?;
        Ok(None)
    }

    fn settle(&mut self, server: u32) -> Option<Violation>
        ensures { (n : NumberedLog) (line : ℕ) → HasSeen self.old n
            → IsJudged n (record { number = line; observation = Settle server }) result self.new }
    {
        let acknowledged = self.acknowledged.as_slice();
        self.settled = count_settled(&self.executions, acknowledged, self.settled);
        // If some acknowledged command is in no history, this server lacks it.
        if let Some(id) = id_at(acknowledged, self.settled.count) {
            return Some(Violation::Settled { server, id });
        }
        let reached = self.histories.count(server);
        if self.settled.count > 0 && self.settled.highest >= reached {
            let id = id_at(self.histories.order.as_slice(), self.settled.highest)?;
            return Some(Violation::Settled { server, id });
        }
        None
    }

    fn restore(
        &mut self,
        line: u64,
        server: u32,
        source: u32,
        count: u32,
    ) -> Result<Option<Violation>, NoMemory>
        ensures { IfOk result (λ x. (n : NumberedLog) → HasSeen self.old n
            → IsJudged n (record { number = line; observation = Restore server source count }) x self.new) }
    {
        if self.histories.count(server) > 0 || self.histories.count(source) < count as usize {
            return Ok(Some(Violation::Restore {
                server,
                source,
                count,
            }));
        }
        self.histories.restore(line, server, source, count)?;
        Ok(None)
    }
}

// Returns the lowest number of commands that a reader may have seen.
fn floor_of(floors: &BTreeMap<u64, usize>, reader: u32) -> usize
    ensures { result ≡ floor_of floors.now reader }
{
    match floors.get(&u64::from(reader)) {
        Some(count) => *count,
        None => 0,
    }
}
