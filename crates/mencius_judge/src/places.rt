//! The places of servers in a list.

ghost use Rattle.std.specs.Prelude.{◌≡◌, ℕ, None, IfOk, OnOk};
ghost use Rattle.mencius_judge.specs.Rows.{IsPlaced, server_place};

use mencius_base::NoMemory;
use std::alloc::Global;
use std::collections::BTreeMap;

// The number of servers that have an entry in the table.
const TABLE_SIZE: usize = 256;

/// The place of each server that has a row.
#[derive(Drop)]
pub struct Places {
    // The servers with small numbers, which most stores have, are in a table, because it is faster than a map.
    pub table: Vec<Option<usize>>,
    pub others: BTreeMap<u64, usize>,
}

impl Places {
    /// Creates the places of no servers.
    pub fn new(alloc: Global) -> Result<Places, NoMemory>
        ensures { IfOk result (λ places. (p : ℕ) → server_place places p ≡ None) }
    {
        Ok(Places {
            table: vec![in alloc; None; TABLE_SIZE]?,
            others: BTreeMap::new(alloc),
        })
    }

    /// Returns the place of a server, if it has one.
    pub fn get(&self, server: u32) -> Option<usize>
        ensures { result ≡ server_place self.now server }
    {
        match self.table.get(server as usize) {
            Some(entry) => *entry,
            None => self.others.get(&u64::from(server)).copied(),
        }
    }

    /// Gives a server this place.
    pub fn put(&mut self, server: u32, place: usize) -> Result<(), NoMemory>
        ensures { OnOk result (IsPlaced server place self.old self.new) }
    {
        if let Some(entry) = self.table.get_mut(server as usize) {
            *entry = Some(place);
        } else {
            self.others.insert(u64::from(server), place)?;
        }
        Ok(())
    }
}
