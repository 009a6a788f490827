//! The effect of each message on a server, including Rule 2.
ghost use Rattle.mencius_base.specs.Limits.{instance_count};
ghost use Rattle.mencius_base.specs.Message.{is_for};
ghost use Rattle.mencius_base.specs.Outbox.{outbox_full, IsPushed};
ghost use Rattle.mencius_base.specs.Refusal.{IsRefusedFor};
ghost use Rattle.mencius_base.specs.declared.message.Message.TheVariants.{Prepare, Accepted, Promise, Propose, Suggest};
ghost use Rattle.mencius_server.specs.Machine.{IsUndone, SameServerAndLimit, accepted_sent, after_learn_at, after_skip, newly_skipped_count, prepare_sent, promise_sent, propose_sent, sent_on, own_skip, suggest_sent, next_front, IsAnswer, IsHeard};
ghost use Rattle.mencius_server.specs.State.{slot};
ghost use Rattle.std.specs.Prelude.{◌≡◌, ◌+◌, ◌<◌, ◌==◌, length, is_none, OnOk, OnErr, IfOk, if◌then◌else◌, IsTrue, Some};

use crate::Server;
use crate::change::Change;
use coord_paxos::Answer;
use mencius_base::{Ballot, Message, NoMemory, Outbox, Refusal, Value, Vote};

impl Server {
    /// Processes a delivered message by the rules of Mao, Junqueira and Marzullo (OSDI 2008, section 4). Returns the
    /// number of instances that this server learned from the message.
    ///
    /// - On a Suggest, the server accepts unless it has promised another ballot there. If the instance is above its
    ///   front, the server first gives up its own instances from the front up to that instance with one Skip. Its front
    ///   then moves past the instance (Rule 2).
    /// - On a Skip, the server learns no-op at once at each unlearned instance of the skipper in the interval.
    /// - On a Prepare, the server sends Learn if it has learned the instance. Otherwise, if the ballot is above its
    ///   promise, it promises the ballot and reports its vote.
    /// - On a Promise, the server proposes a value once a majority has promised the ballot that it tries. The value is
    ///   that of the greatest vote reported, or no-op if no vote was reported. It proposes only once at a ballot, and
    ///   only if it has not learned the instance.
    /// - On a Propose, the server accepts unless it has promised a greater ballot.
    /// - On an Accepted, the server learns the value that it proposed once a majority has accepted the ballot that it
    ///   tries, and sends Learn to all servers. It does so only if it has not learned the instance.
    /// - On a Learn, the server learns the value unless it has already learned one.
    ///
    /// `Message::is_for` must accept the message for this server. The server may hear a message any number of times.
    ///
    /// # Errors
    ///
    /// `MessagesFull` if `out` has no space for the messages that are sent, otherwise `NoMemory` if an allocation
    /// fails.
    // Always inlined, because its caller has just copied the message out of a list.
    #[inline(always)]
    pub fn hear(&mut self, message: &Message, out: &mut Outbox) -> Result<u32, Refusal>
        requires { IsTrue (is_for self.old.members self.old.id message.now) }
        // The clauses state the effect in terms of the server's own state, for all messages heard before.
        // `laws::events` says that the call is the delivery at each reached trace.
        ensures heard { IfOk result (λ n. IsHeard self.old self.new out.old out.new message.now n) }
        ensures refusal { IsRefusedFor
            (outbox_full out.old (length (sent_on self.old message.now))) result }
        ensures err { OnErr result (IsUndone self.old self.new out.old out.new) }
        ensures same { SameServerAndLimit self.old self.new out.old out.new }
    {
        let _within_limit = out.len(); // proof: no more messages than the outbox may hold
        match *message {
            Message::Suggest { from, inst, ticket } => self.hear_suggest(from, inst, ticket, out),
            Message::Skip { from, first, stop } => Ok(self.hear_skip(from, first, stop)?),
            Message::Accepted {
                from,
                inst,
                ballot,
                ..
            } => self.hear_accepted(from, inst, ballot, out),
            Message::Prepare { from, inst, ballot } => self.hear_prepare(from, inst, ballot, out),
            Message::Promise {
                from,
                inst,
                ballot,
                vote,
                ..
            } => self.hear_promise(from, inst, ballot, vote, out),
            Message::Propose {
                from,
                inst,
                ballot,
                value,
            } => self.hear_propose(from, inst, ballot, value, out),
            Message::Learn { inst, value, .. } => Ok(self.hear_learn(inst, value)?),
        }
    }

    fn hear_skip(&mut self, from: u8, first: u32, stop: u32) -> Result<u32, NoMemory>
        requires member { from < self.old.members.count }
        requires small { first < instance_count }
        ensures after { OnOk result (self.new ≡ after_skip self.old from first stop) }
        ensures learned { IfOk result (λ n. n ≡ newly_skipped_count self.old from first stop) }
        ensures err { OnErr result (self.new ≡ self.old) }
    {
        let learned = self.instances.skip(from, first, stop)?;
        if from == self.id {
            self.notes.note_lost(first);
        }
        Ok(learned)
    }

    fn hear_suggest(
        &mut self,
        from: u8,
        inst: u32,
        ticket: u32,
        out: &mut Outbox,
    ) -> Result<u32, Refusal>
        requires small { inst < instance_count }
        ensures heard { IfOk result (λ n. IsHeard self.old self.new out.old out.new
            (Suggest from inst ticket) n) }
        ensures limit { out.new.limit ≡ out.old.limit }
        ensures err { OnErr result (IsUndone self.old self.new out.old out.new) }
        ensures refusal { IsRefusedFor
            (outbox_full out.old (length (suggest_sent self.old from inst))) result }
    {
        let first = self.front;
        let is_ahead = first < inst;
        let is_accepted = self.instances.promised(inst) == Ballot::OWNER;
        out.reserve(u32::from(is_ahead) + u32::from(is_accepted))?;
        if is_accepted {
            self.change(inst, Change::Accept(Ballot::OWNER, Value::Ticket(ticket)))?;
        }
        if is_ahead {
            self.push_own_skip(inst, out);
        }
        if is_accepted {
            out.push(Message::Accepted {
                from: self.id,
                to: from,
                inst,
                ballot: Ballot::OWNER,
            });
        }
        Ok(0)
    }

    fn hear_prepare(
        &mut self,
        from: u8,
        inst: u32,
        ballot: Ballot,
        out: &mut Outbox,
    ) -> Result<u32, Refusal>
        requires small { inst < instance_count }
        ensures heard { IfOk result (λ n. IsHeard self.old self.new out.old out.new
            (Prepare from inst ballot) n) }
        ensures limit { out.new.limit ≡ out.old.limit }
        ensures err { OnErr result (IsUndone self.old self.new out.old out.new) }
        ensures refusal { IsRefusedFor
            (outbox_full out.old (length (prepare_sent self.old from inst ballot))) result }
    {
        let _within_limit = out.len(); // proof: no more messages than the outbox may hold
        match self.instances.prepare_answer(inst, ballot) {
            Answer::Promise(vote) => {
                out.reserve(1)?;
                self.change(inst, Change::Prepare(ballot))?;
                out.push(Message::Promise {
                    from: self.id,
                    to: from,
                    inst,
                    ballot,
                    vote,
                });
            }
            Answer::Known(value) => {
                out.reserve(1)?;
                out.push(Message::Learn {
                    from: self.id,
                    inst,
                    value,
                });
            }
            Answer::Silent => {}
        }
        Ok(0)
    }

    fn hear_promise(
        &mut self,
        from: u8,
        inst: u32,
        ballot: Ballot,
        vote: Option<Vote>,
        out: &mut Outbox,
    ) -> Result<u32, Refusal>
        requires answer { IsAnswer self.old from inst }
        requires tried { 0 < ballot }
        ensures heard { IfOk result (λ n. IsHeard self.old self.new out.old out.new
            (Promise from self.old.id inst ballot vote) n) }
        ensures limit { out.new.limit ≡ out.old.limit }
        ensures err { OnErr result (IsUndone self.old self.new out.old out.new) }
        ensures refusal { IsRefusedFor
            (outbox_full out.old (length (promise_sent self.old from inst ballot vote))) result }
    {
        let _within_limit = out.len(); // proof: no more messages than the outbox may hold
        if ballot != self.instances.trying(inst) {
            return Ok(0);
        }
        // The answer uses one copy of the vote, and the change counts the other.
        let reported = vote;
        let value = self.instances.promise_answer(inst, from, ballot, vote);
        out.reserve(u32::from(value.is_some()))?;
        self.change(inst, Change::CountPromise(from, ballot, reported))?;
        if let Some(value) = value {
            out.push(Message::Propose {
                from: self.id,
                inst,
                ballot,
                value,
            });
        }
        Ok(0)
    }

    fn hear_propose(
        &mut self,
        from: u8,
        inst: u32,
        ballot: Ballot,
        value: Value,
        out: &mut Outbox,
    ) -> Result<u32, Refusal>
        requires small { inst < instance_count }
        ensures heard { IfOk result (λ n. IsHeard self.old self.new out.old out.new
            (Propose from inst ballot value) n) }
        ensures limit { out.new.limit ≡ out.old.limit }
        ensures err { OnErr result (IsUndone self.old self.new out.old out.new) }
        ensures refusal { IsRefusedFor
            (outbox_full out.old (length (propose_sent self.old from inst ballot))) result }
    {
        let _within_limit = out.len(); // proof: no more messages than the outbox may hold
        if ballot < self.instances.promised(inst) {
            return Ok(0);
        }
        out.reserve(1)?;
        self.change(inst, Change::Accept(ballot, value))?;
        out.push(Message::Accepted {
            from: self.id,
            to: from,
            inst,
            ballot,
        });
        Ok(0)
    }

    fn hear_learn(&mut self, inst: u32, value: Value) -> Result<u32, NoMemory>
        requires small { inst < instance_count }
        ensures after { OnOk result (self.new ≡ after_learn_at self.old inst value) }
        ensures learned { IfOk result
            (λ n. n ≡ (if is_none (slot self.old inst).learned then 1 else 0)) }
        ensures err { OnErr result (self.new ≡ self.old) }
    {
        if self.instances.learned(inst).is_some() {
            return Ok(0);
        }
        self.change(inst, Change::Learn(value))?;
        Ok(1)
    }

    fn hear_accepted(
        &mut self,
        from: u8,
        inst: u32,
        ballot: Ballot,
        out: &mut Outbox,
    ) -> Result<u32, Refusal>
        requires { IsAnswer self.old from inst }
        ensures heard { IfOk result (λ n. IsHeard self.old self.new out.old out.new
            (Accepted from self.old.id inst ballot) n) }
        ensures limit { out.new.limit ≡ out.old.limit }
        ensures err { OnErr result (IsUndone self.old self.new out.old out.new) }
        ensures refusal { IsRefusedFor
            (outbox_full out.old (length (accepted_sent self.old from inst ballot))) result }
    {
        let _within_limit = out.len(); // proof: no more messages than the outbox may hold
        if ballot != self.instances.trying(inst) {
            return Ok(0);
        }
        let value = self.instances.acceptance_answer(inst, from, ballot);
        if value.is_none() && self.instances.has_accepter(inst, from) {
            // This acceptance was counted before, and decides nothing.
            return Ok(0);
        }
        out.reserve(u32::from(value.is_some()))?;
        self.change(inst, Change::CountAcceptance(from, ballot))?;
        match value {
            Some(value) => {
                out.push(Message::Learn {
                    from: self.id,
                    inst,
                    value,
                });
                Ok(1)
            }
            None => Ok(0),
        }
    }

    // Gives up the own instances from the front up to and including `inst` with one Skip, and moves the front past them
    // (Rule 2). The outbox has room for the Skip.
    fn push_own_skip(&mut self, inst: u32, out: &mut Outbox)
        requires small { inst < instance_count }
        requires ahead { self.old.front < inst }
        requires room { 0 < out.old.room }
        ensures pushed { IsPushed (own_skip self.old inst) 1 out.old out.new }
        ensures after { self.new ≡ record self.old { front = next_front self.old inst } }
    {
        let first = self.front;
        let _within_limit = self.members.count(); // proof: at most 7 servers
        let stop = self.members.first_owned(self.id, inst + 1);
        self.advance(stop);
        out.push(Message::Skip {
            from: self.id,
            first,
            stop,
        });
    }
}
