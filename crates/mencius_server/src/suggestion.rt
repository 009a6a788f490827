//! Rules 1 and 4. They say where a server suggests a ticket, and which tickets wait to be suggested again.
ghost use Rattle.mencius_base.specs.Limits.{instance_count};
ghost use Rattle.mencius_base.specs.Members.{instances};
ghost use Rattle.mencius_base.specs.Refusal.{IsRefusedFor};
ghost use Rattle.mencius_base.specs.declared.message.Value.TheVariants.{Noop};
ghost use Rattle.mencius_server.specs.Machine.{IsFree, IsUndone, SameServerAndLimit, is_free_at, after_submit, after_submit_at, free_at, submit_cause, submit_sent, after_retry, first_waiting, is_suggested_again, retry_cause, retry_sent, suggested_at, own_waiting_at};
ghost use Rattle.mencius_server.specs.State.{slot};
ghost use Rattle.std.specs.List.{list_any};
ghost use Rattle.std.specs.Prelude.{◌≡◌, ℕ, ◌||◌, IfNone, None, false, ◌+◌, ◌<◌, ◌++◌, OnOk, OnErr, IfSome, Some};

use crate::Server;
use crate::instances::Instances;
use mencius_base::{INSTANCES, Members, Message, NoMemory, Outbox, Refusal, Value};

impl Server {
    /// Suggests a new ticket (Rule 1 of Mao, Junqueira and Marzullo, OSDI 2008, section 4).
    ///
    /// One Suggest goes to `out`. Its instance is the lowest own instance at or above the front that this server has
    /// not learned. The front moves to the next own instance after it. The ticket is the number of a command in order
    /// of submission, from 0.
    ///
    /// # Errors
    ///
    /// In this order:
    ///
    /// - `InstancesFull` if no such instance is left
    /// - `MessagesFull` if `out` is at its limit
    /// - `NoMemory` if an allocation fails
    pub fn submit(&mut self, ticket: u32, out: &mut Outbox) -> Result<(), Refusal>
        // The clauses state the effect in terms of the server's own state, for all messages heard before.
        // `laws::events` says that the call is the submission at each reached trace whose next ticket is `ticket`.
        ensures sent { OnOk result (out.new.messages
            ≡ out.old.messages ++ submit_sent self.old ticket (free_at self.old)) }
        ensures after { OnOk result (self.new
            ≡ after_submit_at self.old ticket (free_at self.old)) }
        ensures refusal { IsRefusedFor (submit_cause out.old (free_at self.old)) result }
        ensures err { OnErr result (IsUndone self.old self.new out.old out.new) }
        ensures same { SameServerAndLimit self.old self.new out.old out.new }
    {
        let Some(inst) = self.free() else {
            return Err(Refusal::InstancesFull);
        };
        out.reserve(1)?;
        self.place(inst, ticket)?;
        let from = self.id;
        out.push(Message::Suggest { from, inst, ticket });
        Ok(())
    }

    // Records a suggestion at a free instance, and moves the front past it.
    fn place(&mut self, inst: u32, ticket: u32) -> Result<(), NoMemory>
        requires { IsFree self.old inst }
        ensures ok { OnOk result (self.new ≡ after_submit self.old inst ticket) }
        ensures err { OnErr result (self.new ≡ self.old) }
    {
        let front = self.front;
        self.notes.reserve(front, ticket)?;
        self.instances.suggest(inst, ticket)?;
        self.notes
            .pass_on(&self.instances, self.members, self.id, front, ticket);
        self.front = inst + u32::from(self.members.count());
        Ok(())
    }

    // Returns the lowest unlearned own instance at or above the front. It is noted, so that the next search starts
    // there.
    fn free(&mut self) -> Option<u32>
        ensures place { result ≡ free_at self.old }
        ensures fits { IfSome result (λ i. IsFree self.old i) }
        ensures same { self.new ≡ self.old }
    {
        match self.find_free() {
            Some(inst) => {
                self.notes.free_only_from(inst);
                Some(inst)
            }
            None => {
                self.notes.free_only_from(INSTANCES);
                None
            }
        }
    }

    // Returns the lowest unlearned own instance at or above the front.
    fn find_free(&self) -> Option<u32>
        ensures place { result ≡ free_at self.now }
        ensures fits { IfSome result (λ i. IsFree self.now i) }
        ensures before { IfSome result (λ i. (j : ℕ) → j < i → is_free_at self.now j ≡ false) }
        ensures none { IfNone result ((j : ℕ) → j < instance_count
            → is_free_at self.now j ≡ false) }
    {
        let from = self.front.max(self.notes.free_from());
        let mut inst = self.next_own(from);
        while inst < INSTANCES {
            if self.learned(inst).is_none() {
                return Some(inst);
            }
            inst = self.next_own(inst + 1);
        }
        None
    }

    /// Returns the first ticket that waits to be suggested again (Rule 4), if any. It is the ticket that waits at the
    /// lowest instance.
    ///
    /// A ticket waits at an instance if this server suggested the ticket there, learned no-op there, and suggested the
    /// ticket at no later instance.
    pub fn waiting(&self) -> Option<u32>
        ensures { result ≡ first_waiting self.now }
    {
        match self.first_lost() {
            Some((_, ticket)) => Some(ticket),
            None => None,
        }
    }

    // Returns the lowest instance where a ticket waits, and that ticket.
    fn first_lost(&self) -> Option<(u32, u32)>
        ensures first { IfSome result (λ x. (x.0 < instance_count)
            × (own_waiting_at self.now x.0 ≡ Some x.1)
            × ((j : ℕ) → j < x.0 → own_waiting_at self.now j ≡ None)) }
        ensures none { IfNone result ((j : ℕ) → j < instance_count → own_waiting_at self.now j ≡ None) }
    {
        let end = self.front.min(INSTANCES);
        let mut inst = self.next_own(self.notes.lost_from());
        while inst < end {
            if let Some(ticket) = self.waiting_at(inst) {
                return Some((inst, ticket));
            }
            inst = self.next_own(inst + 1);
        }
        None
    }

    /// Returns the ticket that waits because it lost this instance, if any. The server suggested it there, learned
    /// no-op there, and suggested it at no later instance.
    pub fn waiting_at(&self, inst: u32) -> Option<u32>
        ensures { result ≡ own_waiting_at self.now inst }
    {
        let Some(ticket) = self.suggested(inst) else {
            return None;
        };
        let is_lost = matches!(self.learned(inst), Some(Value::Noop));
        if !is_lost || self.is_suggested_again(inst, ticket) {
            return None;
        }
        Some(ticket)
    }

    // Returns whether the ticket of an own instance was suggested again at a later instance.
    fn is_suggested_again(&self, inst: u32, ticket: u32) -> bool
        requires { suggested_at self.now inst ≡ Some ticket }
        ensures { result ≡ list_any (is_suggested_again self.now ticket inst) instances }
    {
        self.notes.is_suggested_again(inst)
    }

    // Returns the ticket that the server suggested at an instance, if any.
    fn suggested(&self, inst: u32) -> Option<u32>
        ensures { result ≡ suggested_at self.now inst }
    {
        if self.members.owner(inst) != self.id {
            return None;
        }
        match self.proposal(inst) {
            Some(Value::Ticket(ticket)) => Some(ticket),
            Some(Value::Noop) => None,
            None => None,
        }
    }

    // Returns the value that the server proposed at an instance, at the ballot that it tries, if any.
    fn proposal(&self, inst: u32) -> Option<Value>
        ensures { result ≡ (slot self.now inst).proposal }
    {
        if inst < INSTANCES {
            self.instances.proposal(inst)
        } else {
            None
        }
    }

    /// Suggests the first waiting ticket again (Rule 4), as [`Server::submit`] suggests a new ticket.
    ///
    /// # Errors
    ///
    /// In this order:
    ///
    /// - `NothingWaiting` if [`Server::waiting`] is `None`
    /// - `InstancesFull` if no own instance at or above the front is unlearned
    /// - `MessagesFull` if `out` is at its limit
    /// - `NoMemory` if an allocation fails
    pub fn retry(&mut self, out: &mut Outbox) -> Result<(), Refusal>
        // The clauses state the effect in terms of the server's own state, for all messages heard before.
        // `laws::events` says that the call is the retry at each reached trace.
        ensures sent { OnOk result (out.new.messages
            ≡ out.old.messages ++ retry_sent self.old (first_waiting self.old)) }
        ensures after { OnOk result (self.new ≡ after_retry self.old (first_waiting self.old)) }
        ensures refusal { IsRefusedFor
            (retry_cause self.old out.old (first_waiting self.old)) result }
        ensures err { OnErr result (IsUndone self.old self.new out.old out.new) }
        ensures same { SameServerAndLimit self.old self.new out.old out.new }
    {
        match self.first_lost() {
            Some((inst, ticket)) => {
                self.notes.lost_only_from(inst);
                self.submit(ticket, out)
            }
            None => {
                self.notes.lost_only_from(INSTANCES);
                Err(Refusal::NothingWaiting)
            }
        }
    }
}
