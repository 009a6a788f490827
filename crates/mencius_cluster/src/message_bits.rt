ghost use Rattle.std.specs.Prelude.{◌≡◌, ◌<◌, ◌==◌, ◌&&◌, ◌||◌, false, slice_index_or, vec_len, OnOk};
ghost use Rattle.std.specs.Vec.{vec_capacity};
ghost use Rattle.mencius_base.specs.Limits.{most_servers};
ghost use Rattle.mencius_cluster.specs.MessageBits.{has_bit_in};

use mencius_base::NoMemory;
use std::alloc::Global;
use std::marker::Model;

/// A table of marks. Each mark is at a message and a server, and says for example that the message was lost for that
/// server.
///
/// The table grows by one byte for each message up to the last message with a mark, and by nothing more. Room is
/// reserved before a mark is set, so that setting the mark cannot fail.
#[derive(Drop)]
pub struct MessageBits {
    // One mask for each message number, with one bit for each server. No message past the end has a mark.
    masks: Vec<u8>,
}

impl Model for MessageBits {
    ghost use Rattle.std.specs.Vec.{vec_capacity};
    ghost use Rattle.mencius_cluster.specs.MessageBits.{MessageBitsState};

    ghost Value = { MessageBitsState };

    ghost view = { λ m. record { masks = m.masks.items; room = vec_capacity m.masks } };
}

impl MessageBits {
    /// Makes a table without marks. The call does not allocate.
    pub fn new(alloc: Global) -> MessageBits
        ensures { (k p : _) → has_bit_in result k p ≡ false }
    {
        MessageBits {
            masks: Vec::new(alloc),
        }
    }

    /// Returns whether there is a mark at the message and the server.
    pub fn is_marked(&self, message: u32, server: u8) -> bool
        requires { server < most_servers }
        ensures { result ≡ has_bit_in self.now message server }
    {
        match self.masks.get(message as usize) {
            Some(mask) => (*mask >> server) & 1 == 1,
            None => false,
        }
    }

    /// Makes room for marks at this message. Existing marks stay, even if the call fails.
    pub fn reserve(&mut self, message: u32) -> Result<(), NoMemory>
        ensures kept { (k p : _) → has_bit_in self.new k p ≡ has_bit_in self.old k p }
        ensures room { OnOk result (message < self.new.room) }
    {
        let needed = message as usize + 1;
        self.masks.reserve(needed.saturating_sub(self.masks.len()))?;
        Ok(())
    }

    /// Sets a mark at the message and the server. The caller must have reserved room for it.
    pub fn mark(&mut self, message: u32, server: u8)
        requires server { server < most_servers }
        requires room { message < self.old.room }
        ensures { (k p : _) → has_bit_in self.new k p
            ≡ ((message == k && server == p) || has_bit_in self.old k p) }
    {
        fill(&mut self.masks, message as usize);
        self.masks[message as usize] |= 1 << server;
    }
}

// Appends empty masks until a mask with this number exists. There must be room for them.
fn fill(masks: &mut Vec<u8>, number: usize)
    requires { number < vec_capacity masks.old }
    ensures there { number < vec_len masks.new }
    ensures kept { (k : _) → slice_index_or masks.new.items k 0
        ≡ slice_index_or masks.old.items k 0 }
{
    if number < masks.len() {
        return;
    }
    let Ok(()) = masks.resize(number + 1, 0) else {
        unreachable!();
    };
}
