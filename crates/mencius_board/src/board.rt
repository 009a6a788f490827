ghost use Rattle.std.specs.Prelude.{◌≡◌, ◌≤◌, ◌<◌, ◌-◌, ◌++◌, [], IfOk, IfErr, OnOk, OnErr};
ghost use mathlib.Core.List.{IsPrefix};
ghost use Rattle.mencius_cluster.specs.State.{IsRefusal, IsStepped};
ghost use Rattle.mencius_board.specs.declared.fault.BoardFault.TheVariants.{NoMemory, NoReader};
ghost use Rattle.mencius_board.specs.Marks.{mark_of};
ghost use Rattle.mencius_board.specs.Boards.{longest_of, new_board};
ghost use Rattle.mencius_board.specs.Faults.{IsShowFault};
ghost use Rattle.mencius_base.specs.Limits.{most_readers};

use crate::fault::BoardFault;
use crate::longest::copy_longest;
use crate::news::News;
use crate::pending::{hand_over, record};
use crate::reader::Reader;
use crate::shown::{SeatNotes, Showing, open_writer, publish};
use crate::shown_log::{Mark, ShownLog};
use core::mem::replace_with;
use mencius_base::{Event, Refusal};
use mencius_cluster::{Cluster, Effect, laws};
use std::alloc::Global;
use std::marker::Model;
use std::sync::Wait;

/// A cluster that threads step one at a time, together with the part of its longest history that readers can see.
///
/// Contracts see the identity of the board, the cluster, the shown list of commands, the pending commands, and the
/// number of readers that can still be made. The type ensures that the shown list, followed by the pending commands, is
/// a prefix of the longest history. So a thread that gets the lock on a board can rely on this, no matter which thread
/// held the lock before.
///
/// A board cannot be dropped. [`Board::end`] consumes it.
pub struct Board {
    cluster: Cluster,
    // All commands that the board was ever meant to show.
    log: ShownLog,
    // The mark of the log while it was still empty.
    opening: Mark,
    // The number of readers that can still be made.
    places: u8,
    writer: Showing,
    // The number of commands that were handed to the writer.
    handed: usize,
}

impl Model for Board {
    ghost use Rattle.std.specs.Prelude.{drop};
    ghost use Rattle.left_right.specs.Sides.{view as known};
    ghost use Rattle.mencius_board.specs.Pending.{added_commands};
    ghost use Rattle.mencius_board.specs.Boards.{BoardState, IsBoardInside};

    ghost Value = { BoardState };

    ghost view = { λ x. record {
      book = x.log.book;
      cluster = x.cluster;
      shown = x.writer.desk.shown.value.list;
      pending = added_commands (drop x.writer.behind x.writer.log.items);
      places = x.places;
    } };

    ghost invariant = { λ x. IsBoardInside x.cluster x.log x.opening (known x.writer.desk.place)
        x.writer.desk.shown.value (drop x.writer.behind x.writer.log.items) x.handed };
}

impl Board {
    /// Makes a board over a cluster, for 1 to 16 readers. The board shows the empty list. The only fault is `NoMemory`.
    ///
    /// The call needs `Wait` because it publishes that empty list, and publishing needs it. No reader exists yet, so
    /// the call waits for nobody.
    pub fn new<R: Wait>(
        rt: &R,
        alloc: Global,
        cluster: Cluster,
        readers: u8,
    ) -> Result<Board, BoardFault>
        requires { (0 < readers) × (readers ≤ most_readers) }
        ensures board { IfOk result (λ x. x ≡ new_board x.book cluster readers) }
        ensures err { IfErr result (λ f. f ≡ NoMemory) }
    {
        // The next three calls promise facts about every cluster. The board's type maintains them from here on.
        laws::growth(); // proof: histories only grow
        cluster.servers(); // proof: 1 to 7 servers
        cluster.replays(); // proof: the journal replays to the trace
        let log = ShownLog::new();
        let opening = log.mark();
        let writer = open_writer(rt, alloc, &opening, readers)?;
        Ok(Board {
            cluster,
            log,
            opening,
            places: readers,
            writer,
            handed: 0,
        })
    }

    /// Steps the cluster through one event, as [`Cluster::step`] does, with the same refusals. Nothing on the board
    /// changes except the cluster, and a refused event changes nothing.
    pub fn step(&mut self, event: Event) -> Result<Effect, Refusal>
        ensures effect { IfOk result (IsStepped self.old.cluster self.new.cluster event) }
        ensures refusal { IfErr result (IsRefusal self.old.cluster event) }
        ensures err { OnErr result (self.new ≡ self.old) }
        ensures rest { self.new ≡ record self.old { cluster = self.new.cluster } }
    {
        self.cluster.step(event)
    }

    /// Returns the cluster. The shown list, followed by the pending commands, is a prefix of its longest history.
    pub fn cluster(&self) -> &Cluster
        ensures cluster { result.now ≡ self.now.cluster }
        ensures begins { IsPrefix (self.now.shown ++ self.now.pending) (longest_of self.now.cluster) }
    {
        &self.cluster
    }

    /// Shows the longest history to readers, all at once, and returns it as News. The call may wait for readers to
    /// leave the list that was shown before. Its work is the new commands, plus one copy of the history for the News.
    ///
    /// Fails with `NoMemory` if memory for a copy is refused. Fails with `ShowRefused` if `left_right` refuses to take
    /// a command or to publish, for any reason. The cluster and the shown list then stay as they were. Some of the new
    /// commands may already be handed over, and the next call shows them.
    #[tactic(auto, using(crate::proofs::BoardInvariant::all_begins))]
    pub fn show<R: Wait>(&mut self, rt: &R, alloc: Global) -> Result<News, BoardFault>
        ensures shown { OnOk result (self.new
            ≡ record self.old { shown = longest_of self.old.cluster; pending = [] }) }
        ensures news { IfOk result (λ n. n ≡ mark_of self.old.book (longest_of self.old.cluster)) }
        ensures err { OnErr result (self.new ≡ record self.old { pending = self.new.pending }) }
        ensures fault { IfErr result IsShowFault }
    {
        let list = copy_longest(alloc, &self.cluster)?;
        hand_over(list.as_slice(), &mut self.handed, &mut self.writer)?;
        record(list.as_slice(), &mut self.log);
        let mark = self.log.mark();
        let Ok(()) = replace_with(&mut self.writer, rt, |writer, rt| {
            publish(rt, &mark, writer)
        }) else {
            return Err(BoardFault::ShowRefused);
        };
        Ok(News::new(mark, list))
    }

    /// Makes a reader with an empty floor.
    ///
    /// Fails with `NoReader` once the number of readers that was passed to `new` has been made. It also fails with
    /// `NoReader` if `left_right` gives no reader.
    pub fn reader(&mut self) -> Result<Reader, BoardFault>
        ensures some { OnOk result (0 < self.old.places) }
        ensures ok { OnOk result (self.new ≡ record self.old { places = self.old.places - 1 }) }
        ensures reader { IfOk result (λ r. r ≡ mark_of self.old.book []) }
        ensures err { OnErr result (self.new ≡ self.old) }
        ensures fault { IfErr result (λ f. f ≡ NoReader) }
    {
        if self.places == 0 {
            return Err(BoardFault::NoReader);
        }
        let Ok(mut home) = self.writer.factory().reader() else {
            return Err(BoardFault::NoReader);
        };
        self.places -= 1;
        home.learn::<SeatNotes>(self.writer.tell::<SeatNotes>());
        Ok(Reader::new(home, self.opening.again()))
    }

    /// Promises that the floor of this reader is a prefix of the longest history. So each list that the reader has used
    /// for a lookup is also a prefix of it. The reader must be one of this board.
    ///
    /// The call changes nothing and does not allocate. Its work is one exchange of a word.
    pub fn bounds(&mut self, reader: &Reader)
        requires { reader.now.book ≡ self.old.book }
        ensures begins { IsPrefix reader.now.log (longest_of self.old.cluster) }
        ensures same { self.new ≡ self.old }
    {
        self.log.covers(reader.floor());
    }

    /// Consumes the board and returns its cluster. The call may wait for readers to leave. Lookups that enter later are
    /// refused.
    pub fn end<R: Wait>(self, rt: &R) -> Cluster
        ensures { result ≡ self.cluster }
    {
        let Board {
            cluster,
            log: _log,
            opening: _opening,
            places: _,
            writer,
            handed: _,
        } = self;
        drop(writer.take(rt));
        cluster
    }
}
