//! Compares a cluster with itself after earlier events.

use mencius_cluster::{Answered, Cluster};
use std::alloc::{AllocError, Global};
use std::collections::BTreeMap;

/// The longest history and the replies of one cluster so far.
#[derive(Drop)]
pub struct Observed {
    alloc: Global,
    // The tickets of the longest history, in order.
    longest: Vec<u32>,
    // For each server, the length of its history.
    lengths: BTreeMap<u8, usize>,
    // The replies, by ticket.
    replies: BTreeMap<u32, Option<String>>,
}

impl Observed {
    /// Creates an empty record.
    pub fn new(alloc: Global) -> Observed {
        Observed {
            alloc,
            longest: Vec::new(alloc),
            lengths: BTreeMap::new(alloc),
            replies: BTreeMap::new(alloc),
        }
    }

    /// Returns in words what is wrong, or `None` if the following holds:
    ///
    /// - Of any two histories, now or earlier, one is the beginning of the other. The history of a server only grows.
    /// - Each reply that a command had earlier is its reply now.
    pub fn see(&mut self, cluster: &Cluster) -> Result<Option<&'static str>, AllocError> {
        for server in 0..cluster.servers() {
            let history = cluster.history(server).unwrap_or(&[]);
            if self.has_shrunk(server, history.len())? {
                return Ok(Some("a history shrinks"));
            }
            if !self.continues(history)? {
                return Ok(Some("two histories differ"));
            }
        }
        for ticket in 0..cluster.commands() {
            if !self.keeps_reply(cluster, ticket)? {
                return Ok(Some("a reply changes"));
            }
        }
        Ok(None)
    }

    // Returns whether the server's history was longer before. Stores the new length.
    fn has_shrunk(&mut self, server: u8, length: usize) -> Result<bool, AllocError> {
        match self.lengths.insert(server, length)? {
            Some(before) => Ok(length < before),
            None => Ok(false),
        }
    }

    // Returns whether the history and the longest history agree up to the end of the shorter one. Stores what is new.
    fn continues(&mut self, history: &[u32]) -> Result<bool, AllocError> {
        let known = history.len().min(self.longest.len());
        if &history[..known] != &self.longest.as_slice()[..known] {
            return Ok(false);
        }
        for ticket in &history[known..] {
            self.longest.push(*ticket)?;
        }
        Ok(true)
    }

    // Returns whether a command has the same reply as before, if it had one. Stores the first reply.
    fn keeps_reply(&mut self, cluster: &Cluster, ticket: u32) -> Result<bool, AllocError> {
        let reply = match cluster.submission(ticket) {
            Some(submission) => &submission.reply,
            None => return Ok(false),
        };
        match (self.replies.get(&ticket), reply) {
            (Some(before), Answered::Given(text)) => Ok(before.as_deref() == text.as_deref()),
            (Some(_), Answered::Pending) => Ok(false),
            (None, Answered::Pending) => Ok(true),
            (None, Answered::Given(text)) => {
                let text = text.clone()?;
                self.replies.insert(ticket, text)?;
                Ok(true)
            }
        }
    }
}
