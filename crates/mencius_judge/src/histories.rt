ghost use Rattle.std.specs.Prelude.{◌≡◌, ◌≢◌, ℕ, [], ◌∷◌, ◌++◌, Some, None, IfOk, MatchOption, OnOk, length, map};
ghost use Rattle.mencius_judge.specs.Counts.{least_of};
ghost use Rattle.mencius_judge.specs.Rows.{IsAdded, IsAdvanced, IsFollowed, IsPlaced, count_of, row_count, row_of, server_place};
ghost use Rattle.mencius_judge.specs.Tables.{IsNext};

use crate::counts::one_more_command;
use crate::places::Places;
use mencius_base::{CommandId, NoMemory};
use std::alloc::Global;

/// How the next command of a server compares with the commands that other servers executed.
#[derive(Clone, Copy)]
pub enum Next {
    /// Another server executed the same command at this place.
    Follows,
    /// Another server executed the command `expected` at this place, which is a different one.
    Differs { expected: CommandId },
    /// No server had reached this place.
    Leads,
}

/// The first execution at a place, with the server and the number of the line.
#[derive(Clone, Copy)]
pub struct Lead {
    pub server: u32,
    pub line: u64,
}

/// The commands that a server took over from another one, with the number of the line.
#[derive(Clone, Copy)]
pub struct Snapshot {
    pub line: u64,
    pub source: u32,
    pub count: u32,
}

/// The history of a server.
#[derive(Drop)]
pub struct Row {
    /// The number of commands that the server has.
    pub count: usize,
    /// The snapshot with which its history began, if it began with one.
    pub snapshot: Option<Snapshot>,
    /// The numbers of the lines of its executions, in order.
    pub lines: Vec<u64>,
}

/// The commands that the servers executed, as the longest history and the number of its commands that each server has.
#[derive(Drop)]
pub struct Histories {
    alloc: Global,
    pub order: Vec<CommandId>,
    // The first execution at each place of `order`.
    pub leads: Vec<Lead>,
    // The place of each server that has a history in `rows`. The rows are in the order in which the servers got it.
    pub places: Places,
    pub rows: Vec<Row>,
}

impl Histories {
    /// Creates the histories of servers that have executed nothing.
    pub fn new(alloc: Global) -> Result<Histories, NoMemory>
        ensures order { IfOk result (λ h. h.order.items ≡ []) }
        ensures leads { IfOk result (λ h. h.leads.items ≡ []) }
        ensures places { IfOk result (λ h. (p : ℕ) → server_place h.places p ≡ None) }
        ensures rows { IfOk result (λ h. h.rows.items ≡ []) }
    {
        Ok(Histories {
            alloc,
            order: Vec::new(alloc),
            leads: Vec::new(alloc),
            places: Places::new(alloc)?,
            rows: Vec::new(alloc),
        })
    }

    /// Returns how this command would compare if the server executed it next.
    pub fn next(&self, server: u32, id: CommandId) -> Next
        ensures { IsNext self.now.order.items (count_of self.now.places self.now.rows.items server) id result }
    {
        match self.order.get(self.count(server)) {
            None => Next::Leads,
            Some(found) if *found == id => Next::Follows,
            Some(found) => Next::Differs { expected: *found },
        }
    }

    /// Returns the row of a server, if it has a history.
    pub fn row(&self, server: u32) -> Option<&Row>
        ensures { MatchOption result (row_of self.now.places self.now.rows.items server ≡ None)
            (λ row. row_of self.now.places self.now.rows.items server ≡ Some row.now) }
    {
        let place = self.places.get(server)?;
        self.rows.get(place)
    }

    /// Returns the number of commands that a server has.
    pub fn count(&self, server: u32) -> usize
        ensures { result ≡ count_of self.now.places self.now.rows.items server }
    {
        match self.row(server) {
            Some(row) => row.count,
            None => 0,
        }
    }

    /// Returns the number of servers that have at least one command.
    pub fn servers(&self) -> usize
        ensures { result ≡ length self.now.rows.items }
    {
        self.rows.len()
    }

    /// Returns the number of commands in the longest history.
    pub fn longest(&self) -> usize
        ensures { result ≡ length self.now.order.items }
    {
        self.order.len()
    }

    /// Returns the number of commands in the shortest history that is not empty, or 0 if there is none.
    pub fn shortest(&self) -> usize
        ensures { result ≡ least_of (map row_count self.now.rows.items) }
    {
        let rows = self.rows.as_slice();
        match rows.iter().map(|row| row.count).min() {
            Some(count) => count,
            None => 0,
        }
    }

    /// Records that the server executes the next command of the longest history, in this line. The server must not have
    /// all of that history yet.
    pub fn follow(&mut self, line: u64, server: u32) -> Result<(), NoMemory>
        ensures order { self.new.order.items ≡ self.old.order.items }
        ensures leads { self.new.leads.items ≡ self.old.leads.items }
        ensures rows { OnOk result (IsFollowed line server self.old.places self.old.rows.items
            self.new.places self.new.rows.items) }
    {
        match self.places.get(server) {
            Some(place) => advance(&mut self.rows, place, line),
            None => self.begin(line, server),
        }
    }

    // Adds a row for a server that executes its first command in this line.
    fn begin(&mut self, line: u64, server: u32) -> Result<(), NoMemory>
        ensures order { self.new.order.items ≡ self.old.order.items }
        ensures leads { self.new.leads.items ≡ self.old.leads.items }
        ensures rows { OnOk result (IsAdded server 1 None (line ∷ []) self.old.places self.old.rows.items
            self.new.places self.new.rows.items) }
    {
        let mut lines = Vec::new(self.alloc);
        lines.push(line)?;
        let row = Row {
            count: 1,
            snapshot: None,
            lines,
        };
        self.add_row(server, row)
    }

    /// Records that the server executes this command at a place that no server had reached.
    pub fn lead(&mut self, line: u64, server: u32, id: CommandId) -> Result<(), NoMemory>
        ensures order { OnOk result (self.new.order.items ≡ self.old.order.items ++ id ∷ []) }
        ensures leads { OnOk result (self.new.leads.items
            ≡ self.old.leads.items ++ record { server = server; line = line } ∷ []) }
        ensures rows { OnOk result (IsFollowed line server self.old.places self.old.rows.items
            self.new.places self.new.rows.items) }
    {
        self.order.push(id)?;
        self.leads.push(Lead { server, line })?;
        self.follow(line, server)
    }

    /// Records that the server, which has no history, takes over the first `count` commands of the longest history.
    pub fn restore(
        &mut self,
        line: u64,
        server: u32,
        source: u32,
        count: u32,
    ) -> Result<(), NoMemory>
        ensures order { self.new.order.items ≡ self.old.order.items }
        ensures leads { self.new.leads.items ≡ self.old.leads.items }
        ensures none { count ≡ 0 → (self.new.places ≡ self.old.places) × (self.new.rows ≡ self.old.rows) }
        ensures some { OnOk result (count ≢ 0 → IsAdded server count
            (Some (record { line = line; source = source; count = count })) []
            self.old.places self.old.rows.items self.new.places self.new.rows.items) }
    {
        if count == 0 {
            return Ok(());
        }
        let snapshot = Snapshot {
            line,
            source,
            count,
        };
        let row = Row {
            count: count as usize,
            snapshot: Some(snapshot),
            lines: Vec::new(self.alloc),
        };
        self.add_row(server, row)
    }

    // Adds a row for a server that has no history.
    fn add_row(&mut self, server: u32, row: Row) -> Result<(), NoMemory>
        ensures order { self.new.order.items ≡ self.old.order.items }
        ensures leads { self.new.leads.items ≡ self.old.leads.items }
        ensures rows { OnOk result (self.new.rows.items ≡ self.old.rows.items ++ row ∷ []) }
        ensures places { OnOk result (IsPlaced server (length self.old.rows.items) self.old.places self.new.places) }
    {
        let place = self.rows.len();
        self.rows.push(row)?;
        self.places.put(server, place)
    }
}

// Adds one command to the row at this place, by the execution in this line.
fn advance(rows: &mut Vec<Row>, place: usize, line: u64) -> Result<(), NoMemory>
    ensures { OnOk result (IsAdvanced line place rows.old.items rows.new.items) }
{
    if let Some(row) = rows.get_mut(place) {
        row.lines.push(line)?;
        row.count = one_more_command(row.count)?;
    }
    Ok(())
}
