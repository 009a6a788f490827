ghost use Rattle.std.specs.Prelude.{◌≡◌, ◌≤◌, ◌↔◌, IsSome, IfSome, map, length, vec_len};
ghost use Rattle.mencius_base.specs.Limits.{most_servers, most_turns, most_workers};
ghost use Rattle.mencius_base.specs.Plan.{AreInRange, plan_of};

use crate::command::Command;
use crate::limits::{GREATEST_LOSS, MOST_SERVERS, MOST_TURNS, MOST_WORKERS};
use std::marker::Model;

/// The work of the workers of a run. A plan has the number of workers, the seed of their choices, and the number of
/// turns of each worker. It also has the loss, and a list of commands for each server. The loss is the number of
/// choices, out of 64, that lose a message.
///
/// Worker w submits the commands of the servers s with s mod workers = w. First comes the first command of each of
/// these lists, in rising order of servers, then the second command of each list, and so on.
#[derive(Debug, Drop)]
pub struct Plan {
    workers: u8,
    seed: u64,
    turns: u32,
    loss: u8,
    commands: Vec<Vec<Command>>,
}

impl Model for Plan {
    ghost use Rattle.std.specs.Prelude.{length, map};
    ghost use Rattle.mencius_base.specs.Plan.{AreInRange, PlanState, plan_of};

    ghost Value = { PlanState };

    ghost view = { λ x. plan_of x.workers x.seed x.turns x.loss
        (map (λ l. l.items) x.commands.items) };

    ghost invariant = { λ x. AreInRange x.workers x.turns x.loss (length x.commands.items) };
}

impl Plan {
    /// Returns the plan of these numbers and lists, or `None` if one of them is out of range. A plan has 1 to 8
    /// workers, at most 100,000 turns, a loss of at most 32, and at most 7 lists. The call does not allocate memory.
    pub fn new(
        workers: u8,
        seed: u64,
        turns: u32,
        loss: u8,
        commands: Vec<Vec<Command>>,
    ) -> Option<Plan>
        ensures valid { IsSome result ↔ AreInRange workers turns loss (vec_len commands) }
        ensures plan { IfSome result (λ x. x
            ≡ plan_of workers seed turns loss (map (λ l. l.items) commands.items)) }
    {
        let is_in_range = workers >= 1
            && workers <= MOST_WORKERS
            && turns <= MOST_TURNS
            && loss <= GREATEST_LOSS
            && commands.len() <= usize::from(MOST_SERVERS);
        if !is_in_range {
            return None;
        }
        Some(Plan {
            workers,
            seed,
            turns,
            loss,
            commands,
        })
    }

    /// Returns the number of workers, 1 to 8.
    pub fn workers(&self) -> u8
        ensures workers { result ≡ self.now.workers }
        ensures some { 1 ≤ result }
        ensures few { result ≤ most_workers }
    {
        self.workers
    }

    /// Returns the seed of all choices.
    pub fn seed(&self) -> u64
        ensures { result ≡ self.now.seed }
    {
        self.seed
    }

    /// Returns the number of turns that each worker takes, at most 100,000.
    pub fn turns(&self) -> u32
        ensures turns { result ≡ self.now.turns }
        ensures few { result ≤ most_turns }
    {
        self.turns
    }

    /// Returns the number of choices, out of 64, that lose a message. It is at most 32.
    pub fn loss(&self) -> u8
        ensures { result ≡ self.now.loss }
    {
        self.loss
    }

    /// Returns the commands that the workers submit. There is a list for each server, and at most 7 lists.
    pub fn commands(&self) -> &[Vec<Command>]
        ensures lists { map (λ l. l.items) result.now ≡ self.now.commands }
        ensures few { length result.now ≤ most_servers }
    {
        self.commands.as_slice()
    }
}
