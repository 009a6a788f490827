//! The lines that show a violation.

ghost use Rattle.std.specs.Prelude.{◌≡◌, ◌≤◌, ◌∷◌, ℕ, List, Some, Contains, IfOk, OnOk, length, slice_get};
ghost use Rattle.mencius_base.specs.declared.command.Command.{Command};
ghost use Rattle.mencius_base.specs.declared.command.CommandId.{CommandId};
ghost use Rattle.mencius_model.specs.KeyMap.{key_of as op_key};
ghost use Rattle.mencius_judge.specs.Added.{Adds, AddsSeen, IsGiftOf, IsLastOf, ShowsReply};
ghost use Rattle.mencius_judge.specs.Judged.{Breaks, HasSeen};
ghost use Rattle.mencius_judge.specs.Log.{command_of, commands_of, history};
ghost use Rattle.mencius_judge.specs.Promises.{WereRestored};
ghost use Rattle.mencius_judge.specs.Quotes.{AreNumbered, AreQuotes, IsFirstGift, IsFirstLine, IsGift, IsReason, NumberedLog, Replies, Submits, log_of};
ghost use Rattle.mencius_judge.specs.Sources.{HasGifts, lead_line, reply_line, snapshot_line, submission_line};
ghost use Rattle.mencius_judge.specs.Timelines.{held_by};

use crate::answers::copy_of_answer;
use crate::histories::{Lead, Row, Snapshot};
use crate::judge::{FirstReply, Judge, Submission};
use crate::operations::key_of;
use crate::quote::{Quote, insert_quote};
use crate::tables::identity_key;
use crate::violation::Violation;
use mencius_base::{CommandId, NoMemory, Text};
use mencius_log::Observation;
use std::alloc::Global;

impl Judge {
    /// Returns the lines that show a violation, in the order of their numbers. `line` and `observation` are those for
    /// which [`Judge::observe`] returned the violation. They are the last of the lines. The others are:
    ///
    /// - for `OneCommand`, the first submission of the command;
    /// - for `Once`, the line that gave the server the command before, by an execution or a snapshot;
    /// - for `SameOrder`, the first execution at the place;
    /// - for `RealTime`, the submission of and the reply to the earlier command, and the submission of the later one;
    /// - for `OneReply` and `Settled`, the first reply to the command;
    /// - for `RightReply`, the submission of the command, its reply, its first execution, and the submission of the
    ///   last command before it that changed its key;
    /// - for `RightLookup`, the submissions of the last command that the reader has seen, and of the last one that
    ///   changed the key;
    /// - for `Restore`, the line that gave the server its first command.
    ///
    /// The numbers of the lines must have been rising.
    pub fn quotes(
        &self,
        alloc: Global,
        line: u64,
        observation: &Observation,
        violation: &Violation,
    ) -> Result<Vec<Quote>, NoMemory>
        ensures { IfOk result (λ quotes. (n : NumberedLog) → HasSeen self.now n
            → AreNumbered (record { number = line; observation = observation.now } ∷ n)
            → Breaks (log_of n) observation.now violation.now
            → AreQuotes (record { number = line; observation = observation.now }) n violation.now quotes.items) }
    {
        let mut quotes = Vec::new(alloc);
        let own = Quote {
            number: line,
            observation: observation.clone()?,
        };
        insert_quote(&mut quotes, own)?;
        self.quote_reasons(&mut quotes, violation)?;
        Ok(quotes)
    }

    // Quotes the other lines that show a violation.
    fn quote_reasons(&self, quotes: &mut Vec<Quote>, violation: &Violation) -> Result<(), NoMemory>
        ensures { OnOk result ((n : NumberedLog) (line : Quote) → HasSeen self.now n
            → Breaks (log_of n) line.observation violation.now → Contains quotes.old.items line
            → Adds (line ∷ n) (IsReason (line ∷ n) violation.now) quotes.old.items quotes.new.items) }
    {
        match violation {
            Violation::OneCommand { id } => self.quote_submission(quotes, *id),
            Violation::Submitted { .. } => Ok(()),
            Violation::Once { server, id, .. } => self.quote_former(quotes, *server, *id),
            Violation::SameOrder { place, .. } => self.quote_lead(quotes, *place),
            Violation::RealTime { id, behind, .. } => {
                self.quote_submission(quotes, *behind)?;
                self.quote_reply(quotes, *behind)?;
                self.quote_submission(quotes, *id)
            }
            Violation::OneReply { id, .. } => self.quote_reply(quotes, *id),
            Violation::Settled { id, .. } => self.quote_reply(quotes, *id),
            Violation::RightReply {
                id,
                place,
                expected,
                ..
            } => self.quote_wrong_reply(quotes, *id, *place, expected),
            Violation::RightLookup { key, from, .. } => {
                self.quote_last(quotes, *from)?;
                self.quote_last(quotes, self.timelines.changed(key.as_str()))
            }
            Violation::Restore { server, .. } => self.quote_gift(quotes, *server, 0),
        }
    }

    // Quotes what shows that a reply to a command is wrong. The map holds the text `held` at the command's place.
    fn quote_wrong_reply(
        &self,
        quotes: &mut Vec<Quote>,
        id: CommandId,
        place: usize,
        held: &Option<Text>,
    ) -> Result<(), NoMemory>
        ensures { OnOk result ((n : NumberedLog) (line : Quote) (c : Command) → HasSeen self.now n
            → command_of (log_of n) id ≡ Some c → place ≤ length self.now.histories.order.items
            → held_by (commands_of (log_of n) self.now.histories.order.items) (op_key c.op) place ≡ held.now
            → Adds (line ∷ n) (ShowsReply self.now.histories.order.items id (op_key c.op) place n)
            quotes.old.items quotes.new.items) }
    {
        self.quote_submission(quotes, id)?;
        self.quote_reply(quotes, id)?;
        self.quote_lead(quotes, place)?;
        let Some(row) = self.submissions.get(&identity_key(id)) else {
            return Ok(());
        };
        let key = key_of(row.command.op());
        let changed = self.timelines.began(key, held, place);
        self.quote_last(quotes, changed)
    }

    // Quotes the first submission of a command.
    fn quote_submission(&self, quotes: &mut Vec<Quote>, id: CommandId) -> Result<(), NoMemory>
        ensures { OnOk result (AddsSeen self.now (λ n. IsFirstLine (Submits id) n) quotes.old.items quotes.new.items) }
    {
        match self.submissions.get(&identity_key(id)) {
            Some(row) => insert_quote(quotes, quote_of_submission(row)?),
            None => Ok(()),
        }
    }

    // Quotes the first reply to a command, if it is not in the last line.
    fn quote_reply(&self, quotes: &mut Vec<Quote>, id: CommandId) -> Result<(), NoMemory>
        ensures { OnOk result (AddsSeen self.now (λ n. IsFirstLine (Replies id) n) quotes.old.items quotes.new.items) }
    {
        match self.replies.get(&identity_key(id)) {
            Some(reply) => insert_quote(quotes, quote_of_reply(id, reply)?),
            None => Ok(()),
        }
    }

    // Quotes the first execution at a place, if it is not in the last line.
    fn quote_lead(&self, quotes: &mut Vec<Quote>, place: usize) -> Result<(), NoMemory>
        ensures { OnOk result (AddsSeen self.now (λ n. IsFirstGift n place) quotes.old.items quotes.new.items) }
    {
        let Some(id) = self.histories.order.get(place) else {
            return Ok(());
        };
        match self.histories.leads.get(place) {
            Some(lead) => insert_quote(quotes, quote_of_lead(*id, *lead)),
            None => Ok(()),
        }
    }

    // Quotes the submission of the last of the first `count` commands of the longest history.
    fn quote_last(&self, quotes: &mut Vec<Quote>, count: usize) -> Result<(), NoMemory>
        ensures { OnOk result (AddsSeen self.now (IsLastOf self.now.histories.order.items count)
            quotes.old.items quotes.new.items) }
    {
        let Some(place) = count.checked_sub(1) else {
            return Ok(());
        };
        match self.histories.order.get(place) {
            Some(id) => self.quote_submission(quotes, *id),
            None => Ok(()),
        }
    }

    // Quotes the line that gave a server a command that it has.
    fn quote_former(
        &self,
        quotes: &mut Vec<Quote>,
        server: u32,
        id: CommandId,
    ) -> Result<(), NoMemory>
        ensures { OnOk result (AddsSeen self.now (IsGiftOf self.now.histories.order.items server id)
            quotes.old.items quotes.new.items) }
    {
        match self.executions.get(&identity_key(id)) {
            Some(execution) => self.quote_gift(quotes, server, execution.place),
            None => Ok(()),
        }
    }

    // Quotes the line that gave a server its command at a place. Quotes nothing if it has no such command.
    fn quote_gift(&self, quotes: &mut Vec<Quote>, server: u32, place: usize) -> Result<(), NoMemory>
        ensures { OnOk result (AddsSeen self.now (λ n. IsGift n server place) quotes.old.items quotes.new.items) }
    {
        let Some(row) = self.histories.row(server) else {
            return Ok(());
        };
        match self.histories.order.get(place) {
            Some(id) => quote_gift_of(quotes, server, row, place, *id),
            None => Ok(()),
        }
    }
}

// Quotes the line of a server's history that gave it the command at this place.
fn quote_gift_of(
    quotes: &mut Vec<Quote>,
    server: u32,
    row: &Row,
    place: usize,
    id: CommandId,
) -> Result<(), NoMemory>
    ensures { OnOk result ((n : NumberedLog) (line : Quote) (order : List CommandId) → WereRestored (log_of n)
        → HasGifts n order server row.now → length (history (log_of n) server) ≤ row.now.count
        → slice_get order place ≡ Some id
        → Adds (line ∷ n) (IsGift n server place) quotes.old.items quotes.new.items) }
{
    let mut executed = place;
    if let Some(snapshot) = row.snapshot {
        match place.checked_sub(snapshot.count as usize) {
            None => return insert_quote(quotes, quote_of_snapshot(server, snapshot)),
            Some(rest) => executed = rest,
        }
    }
    match row.lines.get(executed) {
        Some(line) => insert_quote(
            quotes,
            quote_of_lead(
                id,
                Lead {
                    server,
                    line: *line,
                },
            ),
        ),
        None => Ok(()),
    }
}

fn quote_of_submission(row: &Submission) -> Result<Quote, NoMemory>
    ensures { IfOk result (λ q. q ≡ submission_line row.now) }
{
    Ok(Quote {
        number: row.line,
        observation: Observation::Submit {
            command: row.command.clone()?,
        },
    })
}

fn quote_of_reply(id: CommandId, reply: &FirstReply) -> Result<Quote, NoMemory>
    ensures { IfOk result (λ q. q ≡ reply_line id reply.now) }
{
    Ok(Quote {
        number: reply.line,
        observation: Observation::Reply {
            id,
            answer: copy_of_answer(&reply.answer)?,
        },
    })
}

fn quote_of_lead(id: CommandId, lead: Lead) -> Quote
    ensures { result ≡ lead_line id lead }
{
    Quote {
        number: lead.line,
        observation: Observation::Execute {
            server: lead.server,
            id,
        },
    }
}

fn quote_of_snapshot(server: u32, snapshot: Snapshot) -> Quote
    ensures { result ≡ snapshot_line server snapshot }
{
    Quote {
        number: snapshot.line,
        observation: Observation::Restore {
            server,
            source: snapshot.source,
            count: snapshot.count,
        },
    }
}
