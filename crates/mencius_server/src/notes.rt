//! A server's notes about its own tickets, which save searches for them.
ghost use Rattle.mencius_base.specs.Limits.{instance_count};
ghost use Rattle.mencius_server.specs.Instances.{instance_slot};
ghost use Rattle.mencius_server.specs.Machine.{is_ticket, suggested_in};
ghost use Rattle.mencius_server.specs.Notes.{nothing_noted};
ghost use Rattle.mencius_model.specs.Server.{ticket_of};
ghost use Rattle.mencius_server.specs.Calls.{CanPassOn, HasMember};
ghost use Rattle.std.specs.Prelude.{◌≡◌, ℕ, ◌<◌, ◌≤◌, ◌⊎◌, ◌||◌, Some, false, length, min, slice_index_or, vec_len, OnErr, OnOk};

use crate::instances::Instances;
use mencius_base::{INSTANCES, Members, NoMemory, Value};
use std::alloc::Global;
use std::marker::Model;

/// Bounds and marks for the tickets that a server suggested.
#[derive(Drop)]
pub(crate) struct Notes {
    // No own ticket waits at an instance below this place.
    lost_from: u32,
    // No own instance below this place is free.
    free_from: u32,
    // Every suggested ticket is below this number.
    next_ticket: u64,
    // For each instance from 0, whether the own ticket there was suggested again at a later instance.
    suggested_again: Vec<bool>,
}

impl Model for Notes {
    ghost use Rattle.mencius_server.specs.Notes.{NotesState};

    ghost Value = { NotesState };

    ghost view = { λ n. record {
      lost_from = n.lost_from;
      free_from = n.free_from;
      next_ticket = n.next_ticket;
      suggested_again = n.suggested_again.items;
    } };
}

impl Notes {
    /// Makes the notes of a server that has suggested no ticket. This does not allocate.
    pub(crate) fn new(alloc: Global) -> Notes
        ensures { result ≡ nothing_noted }
    {
        Notes {
            lost_from: INSTANCES,
            free_from: 0,
            next_ticket: 0,
            suggested_again: Vec::new(alloc),
        }
    }

    /// Returns a place below which no own ticket waits.
    pub(crate) fn lost_from(&self) -> u32
        ensures { result ≡ self.now.lost_from }
    {
        self.lost_from
    }

    /// Notes that an own ticket may wait at `inst` from now on.
    pub(crate) fn note_lost(&mut self, inst: u32)
        ensures { self.new ≡ record self.old { lost_from = min self.old.lost_from inst } }
    {
        self.lost_from = self.lost_from.min(inst);
    }

    /// Notes that no own ticket waits below `inst`.
    pub(crate) fn lost_only_from(&mut self, inst: u32)
        ensures { self.new ≡ record self.old { lost_from = inst } }
    {
        self.lost_from = inst;
    }

    /// Returns a place below which no own instance is free for a suggestion.
    pub(crate) fn free_from(&self) -> u32
        ensures { result ≡ self.now.free_from }
    {
        self.free_from
    }

    /// Notes that no own instance below `inst` is free.
    pub(crate) fn free_only_from(&mut self, inst: u32)
        ensures { self.new ≡ record self.old { free_from = inst } }
    {
        self.free_from = inst;
    }

    /// Returns whether the own ticket at `inst` was suggested again at a later instance.
    pub(crate) fn is_suggested_again(&self, inst: u32) -> bool
        ensures { result ≡ slice_index_or self.now.suggested_again inst false }
    {
        (inst as usize) < self.suggested_again.len() && self.suggested_again[inst as usize]
    }

    /// Makes room for the marks of a ticket if the ticket may have been suggested before.
    pub(crate) fn reserve(&mut self, front: u32, ticket: u32) -> Result<(), NoMemory>
        requires short { length self.old.suggested_again ≤ front }
        ensures others { self.new ≡ record self.old { suggested_again = self.new.suggested_again } }
        ensures reach { OnOk result (ticket < self.old.next_ticket
            → min front instance_count ≤ length self.new.suggested_again) }
        ensures short { length self.new.suggested_again ≤ front }
        ensures same { (j : ℕ) → slice_index_or self.new.suggested_again j false
            ≡ slice_index_or self.old.suggested_again j false }
        ensures err { OnErr result (self.new ≡ self.old) }
    {
        if u64::from(ticket) >= self.next_ticket {
            return Ok(());
        }
        unmarked_to(&mut self.suggested_again, front.min(INSTANCES) as usize)
    }

    /// Notes that a ticket is suggested at or above the front. Each own instance below the front where the ticket was
    /// suggested before gets a mark.
    pub(crate) fn pass_on(
        &mut self,
        instances: &Instances,
        members: Members,
        id: u8,
        front: u32,
        ticket: u32,
    )
        requires { CanPassOn self.old instances.now members id front ticket }
        ensures others { self.new ≡ record self.old {
          next_ticket = self.new.next_ticket;
          suggested_again = self.new.suggested_again;
        } }
        ensures above { (self.old.next_ticket ≤ self.new.next_ticket)
            × (ticket < self.new.next_ticket) }
        ensures short { length self.new.suggested_again ≤ front }
        ensures marked { (j : ℕ) → j < front → j < instance_count
            → slice_index_or self.new.suggested_again j false
            ≡ (slice_index_or self.old.suggested_again j false
            || is_ticket ticket (suggested_in members id j (instance_slot instances.now j))) }
        ensures rest { (j : ℕ) → min front instance_count ≤ j
            → slice_index_or self.new.suggested_again j false ≡ slice_index_or self.old.suggested_again j false }
    {
        if u64::from(ticket) >= self.next_ticket {
            self.next_ticket = u64::from(ticket) + 1;
            return;
        }
        let end = front.min(INSTANCES) as usize;
        mark(
            &mut self.suggested_again,
            instances,
            members,
            id,
            end,
            ticket,
        );
    }
}

// Lengthens the list to at least `wanted` places. The new places have no mark.
fn unmarked_to(suggested_again: &mut Vec<bool>, wanted: usize) -> Result<(), NoMemory>
    ensures reach { OnOk result (wanted ≤ vec_len suggested_again.new) }
    ensures few { (vec_len suggested_again.new ≤ wanted) ⊎ (vec_len suggested_again.new ≡ vec_len suggested_again.old) }
    ensures same { (j : ℕ) → slice_index_or suggested_again.new.items j false
        ≡ slice_index_or suggested_again.old.items j false }
    ensures err { OnErr result (suggested_again.new.items ≡ suggested_again.old.items) }
{
    if suggested_again.len() >= wanted {
        return Ok(());
    }
    suggested_again.reserve(wanted - suggested_again.len())?;
    while suggested_again.len() < wanted {
        suggested_again.push_reserved(false);
    }
    Ok(())
}

// Marks the own instances below `end` where the ticket was suggested.
fn mark(
    suggested_again: &mut Vec<bool>,
    instances: &Instances,
    members: Members,
    id: u8,
    end: usize,
    ticket: u32,
)
    requires own { HasMember instances.now members id }
    requires few { end ≤ instance_count }
    requires suggested_again { end ≤ vec_len suggested_again.old }
    ensures len { vec_len suggested_again.new ≡ vec_len suggested_again.old }
    ensures marked { (j : ℕ) → j < end → slice_index_or suggested_again.new.items j false
        ≡ (slice_index_or suggested_again.old.items j false
        || is_ticket ticket (suggested_in members id j (instance_slot instances.now j))) }
    ensures rest { (j : ℕ) → end ≤ j
        → slice_index_or suggested_again.new.items j false ≡ slice_index_or suggested_again.old.items j false }
{
    let mut inst = members.first_owned(id, 0);
    while (inst as usize) < end {
        if is_of(instances, inst, ticket) {
            suggested_again[inst as usize] = true;
        }
        inst = members.first_owned(id, inst + 1);
    }
}

// Returns whether the server's proposal at the instance is the ticket.
fn is_of(instances: &Instances, inst: u32, ticket: u32) -> bool
    requires { inst < instance_count }
    ensures { result ≡ is_ticket ticket (ticket_of (instance_slot instances.now inst).proposal) }
{
    match instances.proposal(inst) {
        Some(Value::Ticket(other)) => other == ticket,
        Some(Value::Noop) => false,
        None => false,
    }
}
