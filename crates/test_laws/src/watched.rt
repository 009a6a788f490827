//! A board whose calls are made again if they were refused memory.

ghost use Rattle.std.specs.Prelude.{◌≡◌, IfOk};

use crate::same::first_difference;
use mencius_base::{Event, Refusal};
use mencius_board::{Board, BoardFault, News, Reader};
use mencius_cluster::Cluster;
use mencius_input::{Scenario, read_scenario};
use std::alloc::Global;
use std::marker::Model;
use std::sync::Wait;

/// Why a course ends early.
#[derive(Clone, Copy, Debug, PartialEq, Eq)]
pub enum Stop {
    /// Memory ran out in a call that is not under test.
    Elsewhere,
    /// A call was refused memory. Then the named thing changed, or the named call failed when it was made again.
    Changed(&'static str),
}

/// A call that is made again if it was refused memory.
#[derive(Clone, Copy, Debug, PartialEq, Eq)]
pub enum Call {
    /// `Board::step`.
    Step,
    /// `Board::show`.
    Show,
    /// `Reader::lookup`.
    Lookup,
    /// `Server::submit`.
    Submit,
    /// `Server::hear`.
    Hear,
    /// `Server::suspect`.
    Suspect,
    /// `Server::retry`.
    Retry,
    /// `Executor::execute`.
    Execute,
}

impl Call {
    /// Returns the call's name. `checks/memory` counts calls by these names.
    pub fn name(self) -> &'static str {
        match self {
            Call::Step => "step",
            Call::Show => "show",
            Call::Lookup => "lookup",
            Call::Submit => "submit",
            Call::Hear => "hear",
            Call::Suspect => "suspect",
            Call::Retry => "retry",
            Call::Execute => "execute",
        }
    }
}

/// A board, its reader, the result of the last lookup, and the last call that was refused memory.
pub struct Watched {
    board: Board,
    reader: Reader,
    found: Option<String>,
    refused: Option<Call>,
}

impl Model for Watched {
    ghost use Rattle.std.specs.Prelude.{◌≡◌};
    ghost use Rattle.mencius_board.specs.Boards.{BoardState};

    ghost Value = { BoardState };

    ghost view = { λ x. x.board };

    ghost invariant = { λ x. x.reader.book ≡ x.board.book };
}

impl Watched {
    /// Puts a cluster on a new board with one reader. No event may have happened to the cluster yet.
    pub fn new<R: Wait>(rt: &R, alloc: Global, cluster: Cluster) -> Result<Watched, Stop> {
        let Ok(mut board) = Board::new(rt, alloc, cluster, 1) else {
            return Err(Stop::Elsewhere);
        };
        match board.reader() {
            Ok(reader) => Ok(Watched {
                board,
                reader,
                found: None,
                refused: None,
            }),
            Err(_) => {
                board.end(rt);
                Err(Stop::Elsewhere)
            }
        }
    }

    /// Ends the board.
    pub fn end<R: Wait>(self, rt: &R) {
        let Watched {
            board,
            reader: _reader,
            found: _found,
            refused: _,
        } = self;
        board.end(rt);
    }

    /// Returns the cluster of the board.
    pub fn cluster(&self) -> &Cluster {
        self.board.cluster()
    }

    /// Returns the text that the last lookup found, if any.
    pub fn found(&self) -> Option<&str> {
        self.found.as_deref()
    }

    /// Returns the last call that was refused memory, if any.
    pub fn refused(&self) -> Option<Call> {
        self.refused
    }

    /// Returns the number of commands in the reader's floor. After a lookup, the floor is the list that the lookup
    /// used.
    pub fn count(&self) -> u32 {
        self.reader.count()
    }

    /// Takes the event at a place of the scenario. All events before this place must have been taken.
    pub fn step(
        &mut self,
        alloc: Global,
        bytes: &[u8],
        place: usize,
        event: Event,
    ) -> Result<(), Stop> {
        if self.board.step(event) != Err(Refusal::NoMemory) {
            return Ok(());
        }
        self.refused = Some(Call::Step);
        match self.judge(alloc, bytes, place)? {
            Some(again) => self.step_once(again),
            None => Err(Stop::Elsewhere),
        }
    }

    // Checks that a refused call of the board changed nothing. The cluster must be the same as a new cluster after the
    // first `taken` events of the scenario, and a lookup must find the same as before. Returns the next event of the
    // scenario.
    fn judge(&mut self, alloc: Global, bytes: &[u8], taken: usize) -> Result<Option<Event>, Stop>
        ensures { self.new ≡ self.old }
    {
        let next = self.judge_cluster(alloc, bytes, taken)?;
        self.judge_shown(alloc)?;
        Ok(next)
    }

    // Checks that the cluster is the same as a new cluster after the first `taken` events of the scenario. Returns the
    // next event of the scenario.
    fn judge_cluster(
        &self,
        alloc: Global,
        bytes: &[u8],
        taken: usize,
    ) -> Result<Option<Event>, Stop> {
        let (before, next) = retraced(alloc, bytes, taken)?;
        compare(alloc, &before, self.board.cluster())?;
        Ok(next)
    }

    fn step_once(&mut self, event: Event) -> Result<(), Stop> {
        match self.board.step(event) {
            Err(Refusal::NoMemory) => Err(Stop::Changed("step again")),
            _ => Ok(()),
        }
    }

    /// Shows the longest history after the first `taken` events, and gives the News to the reader.
    pub fn show<R: Wait>(
        &mut self,
        rt: &R,
        alloc: Global,
        bytes: &[u8],
        taken: usize,
    ) -> Result<(), Stop> {
        let news = match self.board.show(rt, alloc) {
            Ok(news) => news,
            Err(BoardFault::NoMemory | BoardFault::ShowRefused) => {
                self.refused = Some(Call::Show);
                let _next = self.judge(alloc, bytes, taken)?;
                self.show_once(rt, alloc)?
            }
            Err(_) => return Err(Stop::Changed("fault of show")),
        };
        self.reader.learn(news);
        Ok(())
    }

    // Checks that a lookup finds the same as the last lookup.
    fn judge_shown(&mut self, alloc: Global) -> Result<(), Stop>
        ensures { self.new ≡ self.old }
    {
        let count = self.reader.count();
        let found = self.look_up_once(alloc)?;
        if self.reader.count() != count || found.as_deref() != self.found.as_deref() {
            return Err(Stop::Changed("what is shown"));
        }
        Ok(())
    }

    fn show_once<R: Wait>(&mut self, rt: &R, alloc: Global) -> Result<News, Stop>
        ensures { IfOk result (λ n. n.book ≡ self.new.book) }
    {
        match self.board.show(rt, alloc) {
            Ok(news) => Ok(news),
            Err(_) => Err(Stop::Changed("show again")),
        }
    }

    /// Looks up `KEY`. If the lookup is refused memory, checks that the floor did not change, and looks up again.
    pub fn look_up(&mut self, alloc: Global) -> Result<(), Stop> {
        let count = self.reader.count();
        let found = match self.reader.lookup(alloc, KEY) {
            Ok(found) => found,
            Err(fault) => {
                if fault != BoardFault::NoMemory {
                    return Err(Stop::Changed("fault of lookup"));
                }
                self.refused = Some(Call::Lookup);
                if self.reader.count() != count {
                    return Err(Stop::Changed("floor"));
                }
                self.look_up_once(alloc)?
            }
        };
        self.found = found;
        Ok(())
    }

    fn look_up_once(&mut self, alloc: Global) -> Result<Option<String>, Stop>
        ensures { self.new ≡ self.old }
    {
        self.reader
            .lookup(alloc, KEY)
            .map_err(|_| Stop::Changed("lookup again"))
    }
}

/// The key of all lookups.
pub const KEY: &str = "a";

// Returns a new cluster after the first `taken` events of a scenario, and the next event.
fn retraced(alloc: Global, bytes: &[u8], taken: usize) -> Result<(Cluster, Option<Event>), Stop> {
    let Ok(scenario) = read_scenario(alloc, bytes) else {
        return Err(Stop::Elsewhere);
    };
    let Ok(mut cluster) = Cluster::new(alloc, scenario.members) else {
        return Err(Stop::Elsewhere);
    };
    let mut events = scenario.course.into_iter();
    for _ in 0..taken {
        if let Some(event) = events.next() {
            let _ = cluster.step(event);
        }
    }
    Ok((cluster, events.next()))
}

// Fails if the calls of two clusters have different results.
fn compare(alloc: Global, first: &Cluster, second: &Cluster) -> Result<(), Stop> {
    match first_difference(alloc, first, second) {
        Ok(None) => Ok(()),
        Ok(Some(difference)) => Err(Stop::Changed(difference)),
        Err(_) => Err(Stop::Elsewhere),
    }
}
