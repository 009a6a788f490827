//! One server of Mencius (Mao, Junqueira and Marzullo, OSDI 2008, section 4).
//!
//! A [`Server`] suggests commands at its own instances, and skips the instances for which it has no command. It revokes
//! the instances of a server that it suspects. If a command loses its instance, the server suggests the command again.
//! The server puts all messages that it sends on an `Outbox`. It learns only through [`Server::hear`], also from its
//! own messages. The caller is the network.
//!
//! The contracts describe the effect of a call, and the causes of its refusal, in terms of the server's own state. They
//! hold for all messages that the server may have heard, even for messages that no cluster of such servers sends. The
//! [`laws`] link a call to the model. The call is one event of each reached trace at which the server's state is the
//! state that the definitions give.
#![tactic(auto)]

ghost use Rattle.mencius_base.specs.Limits.{greatest_front, instance_count};
ghost use Rattle.mencius_base.specs.Members.{owner};
ghost use Rattle.mencius_base.specs.declared.refusal.Refusal.TheVariants as refusal;
ghost use Rattle.mencius_server.specs.Reached.{server_at};
ghost use Rattle.mencius_server.specs.Changes.{IsSaid, slot_after_change};
ghost use Rattle.mencius_server.specs.Glances.{glance_of};
ghost use Rattle.mencius_server.specs.State.{slot, with_slot};
ghost use Rattle.std.specs.Prelude.{◌≡◌, ◌<◌, ◌≤◌, [], OnOk, OnErr, IfOk, IfErr, ℕ};

use crate::change::Change;
use crate::glance::glance_at;
use crate::instances::Instances;
use crate::notes::Notes;
use coord_paxos::Slot;
pub use glance::Glance;
use mencius_base::{INSTANCES, Members, NoMemory, Refusal, Value};
use std::alloc::Global;
use std::marker::Model;

mod change;
mod delivery;
mod glance;
mod instances;
pub mod laws;
mod learned_intervals;
mod notes;
mod owned_interval;
mod revocation;
mod skipped_intervals;
mod slots;
mod stored_instances;
mod suggestion;
mod tally;

/// One server of a cluster, with its knowledge about each of the 4,096 instances and its next own instance.
///
/// A refused call leaves the server and the `Outbox` as they were, except that the outbox may have more room. Each call
/// reserves all memory that it needs, including the outbox's, before it changes anything.
#[derive(Drop)]
pub struct Server {
    members: Members,
    id: u8,
    front: u32,
    instances: Instances,
    notes: Notes,
}

impl Model for Server {
    ghost use Rattle.mencius_server.specs.Inside.{IsServerInside};
    ghost use Rattle.mencius_server.specs.State.{ServerState};

    ghost Value = { ServerState };

    ghost view = { λ s.
        record { members = s.members; id = s.id; front = s.front; slots = s.instances.slots } };

    ghost invariant = { λ s. IsServerInside
        (record { members = s.members; id = s.id; front = s.front; slots = s.instances.slots })
        s.instances.members s.notes };
}

impl Server {
    /// Makes a server that has heard nothing. It knows nothing about any instance, and its front is its number.
    ///
    /// `id` is the server's number, which is below the number of members. The only refusal is `NoMemory`.
    pub fn new(alloc: Global, members: Members, id: u8) -> Result<Server, Refusal>
        requires { id < members.count }
        ensures ok { IfOk result (λ s. s ≡ server_at members [] id) }
        ensures memory { IfErr result (λ r. r ≡ refusal.NoMemory) }
    {
        let _within_limit = members.count(); // proof: at most 7 servers
        let instances = Instances::new(alloc, members)?;
        Ok(Server {
            members,
            id,
            front: id as u32,
            instances,
            notes: Notes::new(alloc),
        })
    }

    /// Returns the membership that was passed to [`Server::new`].
    pub fn members(&self) -> Members
        ensures { result ≡ self.now.members }
    {
        self.members
    }

    /// Returns the server's own number, which is below the number of members.
    pub fn id(&self) -> u8
        ensures id { result ≡ self.now.id }
        ensures member { result < self.now.members.count }
    {
        let _within_limit = &self.members; // proof: the server is a member
        self.id
    }

    /// Returns the server's front, which is its next own instance after all that it suggested or skipped.
    ///
    /// The front starts as the server's number, only grows, and is at most 4,102. If it is above 4,095, the server has
    /// no instance left.
    pub fn front(&self) -> u32
        ensures { result ≡ self.now.front }
    {
        self.front
    }

    /// Returns the value that the server learned at an instance, if any. No instance is above 4,095, so the result
    /// there is `None`.
    pub fn learned(&self, inst: u32) -> Option<Value>
        ensures { result ≡ (slot self.now inst).learned }
    {
        if inst < INSTANCES {
            self.instances.learned(inst)
        } else {
            None
        }
    }

    /// Returns a summary of the server's knowledge about an instance. No instance is above 4,095, so the server knows
    /// nothing there.
    pub fn glance(&self, inst: u32) -> Glance
        ensures { result ≡ glance_of (slot self.now inst) }
    {
        if inst < INSTANCES {
            self.instances.glance(inst)
        } else {
            glance_at(&Slot::new(self.members))
        }
    }

    /// Returns the number of slots that the server keeps, and the number of intervals that their owners were heard to
    /// skip.
    ///
    /// A slot is stored only for an instance where the server heard or did something other than hearing a Skip. So
    /// neither count grows with the number of instances. The counts are for tests, and no other result of the server
    /// depends on them.
    pub fn kept(&self) -> (u32, u32) {
        self.instances.kept()
    }

    // Returns the lowest own instance at or above `from`.
    fn next_own(&self, from: u32) -> u32
        requires { from ≤ greatest_front }
        ensures own { owner self.now.members result ≡ self.now.id }
        ensures above { from ≤ result }
        ensures least { (i : ℕ) → from ≤ i → owner self.now.members i ≡ self.now.id → result ≤ i }
    {
        self.members.first_owned(self.id, from)
    }

    // Changes the slot of an instance in place. The front stays as it is.
    fn change(&mut self, inst: u32, change: Change) -> Result<(), NoMemory>
        requires small { inst < instance_count }
        requires said { IsSaid self.old.members change }
        ensures ok { OnOk result (self.new
            ≡ with_slot self.old inst (slot_after_change (slot self.old inst) change)) }
        ensures err { OnErr result (self.new ≡ self.old) }
    {
        self.instances.change(inst, change)?;
        let is_lost = matches!(self.instances.learned(inst), Some(Value::Noop));
        if is_lost && self.members.owner(inst) == self.id {
            self.notes.note_lost(inst);
        }
        Ok(())
    }

    // Moves the front, which must not move back.
    fn advance(&mut self, front: u32)
        requires ahead { self.old.front ≤ front }
        requires near { front ≤ greatest_front }
        ensures { self.new ≡ record self.old { front = front } }
    {
        self.front = front;
    }
}
