ghost use Rattle.std.specs.Prelude.{◌≡◌, ◌+◌, ◌<◌, ◌≤◌, [], ◌∷◌, ◌++◌, length, OnOk, ◌==◌};
ghost use Rattle.mencius_base.specs.Outbox.{outbox_full};
ghost use Rattle.mencius_base.specs.Refusal.{IsRefusedFor};

use crate::message::{Message, Vote};
use crate::refusal::Refusal;
use std::alloc::Global;
use std::marker::Model;

/// Messages that were sent, in order, up to a limit on their number. Room for more messages is reserved before it is
/// used. A caller that has reserved room can no longer fail.
#[derive(Drop)]
pub struct Outbox {
    messages: Vec<Message>,
    limit: u32,
}

impl Model for Outbox {
    ghost use Rattle.std.specs.Prelude.{◌-◌, ◌≤◌, min, vec_len};
    ghost use Rattle.std.specs.Vec.{vec_capacity};
    ghost use Rattle.mencius_base.specs.Outbox.{OutboxState};

    ghost Value = { OutboxState };

    ghost view = { λ o. record {
      messages = o.messages.items;
      limit = o.limit;
      room = min (vec_capacity o.messages) o.limit - vec_len o.messages;
    } };

    ghost invariant = { λ o. vec_len o.messages ≤ o.limit };
}

impl Outbox {
    /// Returns an outbox without messages, which may hold at most `limit` of them. It does not allocate memory.
    pub fn new(alloc: Global, limit: u32) -> Outbox
        ensures messages { result.messages ≡ [] }
        ensures limit { result.limit ≡ limit }
        ensures room { result.room ≡ 0 }
    {
        Outbox {
            messages: Vec::new(alloc),
            limit,
        }
    }

    /// Returns the messages, the oldest first.
    pub fn messages(&self) -> &[Message]
        ensures { result.now ≡ self.now.messages }
    {
        self.messages.as_slice()
    }

    /// Returns the number of messages.
    pub fn len(&self) -> u32
        ensures count { result ≡ length self.now.messages }
        ensures few { result ≤ self.now.limit }
    {
        let limit = self.limit;
        prove!(self.messages.len() <= limit as usize);
        self.messages.len() as u32
    }

    /// Returns whether the outbox has no messages.
    pub fn is_empty(&self) -> bool
        ensures { result ≡ (length self.now.messages == 0) }
    {
        self.messages.is_empty()
    }

    /// Returns the greatest number of messages that the outbox may hold.
    pub fn limit(&self) -> u32
        ensures { result ≡ self.now.limit }
    {
        self.limit
    }

    /// Returns the number of messages that can be pushed before room must be reserved again.
    pub fn room(&self) -> u32
        ensures { result ≡ self.now.room }
    {
        self.messages.capacity().min(self.limit as usize) as u32 - self.messages.len() as u32
    }

    /// Makes room for `extra` more messages. It fails with `MessagesFull` if they would exceed the limit, and otherwise
    /// only with `NoMemory`. The messages stay as they are in both cases.
    pub fn reserve(&mut self, extra: u32) -> Result<(), Refusal>
        ensures messages { self.new.messages ≡ self.old.messages }
        ensures limit { self.new.limit ≡ self.old.limit }
        ensures room { OnOk result (extra ≤ self.new.room) }
        ensures kept { self.old.room ≤ self.new.room }
        ensures refusal { IsRefusedFor (outbox_full self.old extra) result }
    {
        if extra > self.limit - self.messages.len() as u32 {
            return Err(Refusal::MessagesFull);
        }
        self.messages.reserve(extra as usize)?;
        Ok(())
    }

    /// Adds a message at the end. The caller must have reserved room for it.
    pub fn push(&mut self, message: Message)
        requires { 0 < self.old.room }
        ensures messages { self.new.messages ≡ self.old.messages ++ message ∷ [] }
        ensures limit { self.new.limit ≡ self.old.limit }
        ensures room { self.new.room + 1 ≡ self.old.room }
    {
        let _named: Option<Vote> = None; // proof: a message can hold a vote
        self.messages.push_reserved(message);
    }
}
