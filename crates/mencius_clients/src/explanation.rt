//! The verdict on a log.

ghost use Rattle.std.specs.Prelude.{◌≡◌, ◌<◌, [], IfOk, IfSome, MatchOption, length, reverse, slice_get, Some, None};
ghost use Rattle.mencius_clients.specs.Configurations.{AreReplyLines};
ghost use Rattle.mencius_clients.specs.Explained.{IsEnd, IsExplanation};
ghost use Rattle.mencius_clients.specs.Searched.{HasSearched};
ghost use Rattle.mencius_clients.specs.OrdersSoFar.{HasFound};
ghost use Rattle.mencius_judge.specs.Promises.{AreOneReply};

use crate::answers::reply_lines;
use crate::orders::merged_order;
use crate::outcome::Outcome;
use crate::search::Search;
use mencius_base::{CommandId, NoMemory};
use mencius_log::Observation;
use std::alloc::Global;
use std::collections::BTreeMap;

/// The reason why a search was given up.
#[derive(Clone, Copy, Debug)]
pub enum Cause {
    /// With the command that this line submits, more than 4,096 commands of its key wait for their replies.
    Waiting { line: usize },
    /// The reply at this line makes as many configurations of its key as the limit allows, or more.
    Configurations { line: usize },
}

/// The verdict on the submissions and replies of a log. Lines count from 0.
#[derive(Debug, Drop)]
pub enum Explanation {
    /// This order of the commands is a linearization.
    Explained { order: Vec<CommandId> },
    /// No order is a linearization. The search ended at this line, and the lines before it have a linearization. The
    /// search knew all replies of the log, so the lines up to this one may have one too.
    Unexplained { line: usize },
    /// The search was given up.
    Undecided { cause: Cause },
}

/// Searches for an order of the commands that is a linearization of the log's submissions and replies. No two replies to
/// a command may differ. The search is given up if more than 4,096 commands of one key wait for their replies at once, or
/// if a reply makes `limit` configurations of its key or more.
pub fn explain(alloc: Global, log: &[Observation], limit: usize) -> Result<Explanation, NoMemory>
    requires { AreOneReply (reverse log.now) }
    ensures { IfOk result (IsExplanation log.now limit) }
{
    let replies = reply_lines(alloc, log)?;
    let mut search = Search::new(alloc);
    if let Some(explanation) = search_all(log, &replies, limit, &mut search)? {
        return Ok(explanation);
    }
    let order = merged_order(alloc, log, &search)?;
    Ok(Explanation::Explained { order })
}

// Takes one line of the log after the other. Returns the verdict of a search that ends early.
fn search_all(
    log: &[Observation],
    replies: &BTreeMap<u64, usize>,
    limit: usize,
    search: &mut Search,
) -> Result<Option<Explanation>, NoMemory>
    requires { AreReplyLines log.now replies.now (length log.now) }
    ensures explained { IfOk result (λ found. HasSearched (reverse log.now) [] log.now search.old
        → AreOneReply (reverse log.now) → HasFound log.now [] search.old
        → IfSome found (IsExplanation log.now limit)) }
    ensures searched { IfOk result (λ found. found ≡ None → HasSearched (reverse log.now) [] log.now search.old
        → HasSearched (reverse log.now) (reverse log.now) log.now search.new) }
    ensures orders { IfOk result (λ found. found ≡ None → HasSearched (reverse log.now) [] log.now search.old
        → AreOneReply (reverse log.now) → HasFound log.now [] search.old → HasFound log.now (reverse log.now) search.new) }
{
    for line in 0..log.len() {
        let outcome = search.take(log, replies, line, &log[line], limit)?;
        if let Some(explanation) = ended(outcome, line) {
            return Ok(Some(explanation));
        }
    }
    Ok(None)
}

// Returns the verdict of a search that has this outcome at a line, unless it goes on.
fn ended(outcome: Outcome, line: usize) -> Option<Explanation>
    ensures { IsEnd outcome line result }
{
    match outcome {
        Outcome::Goes => None,
        Outcome::Unexplained => Some(Explanation::Unexplained { line }),
        Outcome::Waiting => Some(Explanation::Undecided {
            cause: Cause::Waiting { line },
        }),
        Outcome::Configurations => Some(Explanation::Undecided {
            cause: Cause::Configurations { line },
        }),
    }
}
