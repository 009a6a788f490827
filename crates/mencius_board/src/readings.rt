//! Lookups that use a reader together with News of its board, or together with the board itself.

ghost use Rattle.std.specs.Prelude.{◌≡◌, ◌⊎◌, IfErr, IfOk, OnOk};
ghost use mathlib.Core.List.{IsPrefix};
ghost use Rattle.mencius_board.specs.Boards.{longest_of};
ghost use Rattle.mencius_board.specs.Faults.{IsLookupFault, IsShowFault};
ghost use Rattle.mencius_board.specs.Readings.{IsReading};

use crate::board::Board;
use crate::fault::BoardFault;
use crate::news::News;
use crate::reader::Reader;
use std::alloc::Global;
use std::sync::Wait;

/// The result of a lookup. `text` is the text at the key, if there is one. `count` is the number of commands in the
/// list that the lookup used.
#[derive(Debug, Drop)]
pub struct Reading {
    pub text: Option<String>,
    pub count: u32,
}

/// Lets a reader learn News of its own board, and looks up a key. The lookup uses a list that begins with the list of
/// the News. The call takes no lock and never waits.
pub fn look_up_told(
    alloc: Global,
    reader: &mut Reader,
    news: News,
    key: &str,
) -> Result<Reading, BoardFault>
    requires { news.book ≡ reader.old.book }
    ensures told { OnOk result (IsPrefix news.log reader.new.log) }
    ensures reading { IfOk result (IsReading key.now reader.new.log) }
    ensures board { reader.new.book ≡ reader.old.book }
    ensures fault { IfErr result IsLookupFault }
{
    reader.learn(news);
    look_up(alloc, reader, key)
}

/// Looks up a key with a reader of this board. The lookup uses a prefix of the board's longest history. The reader's
/// former floor is a prefix of the list that the lookup uses. The board does not change.
pub fn look_up_within(
    alloc: Global,
    board: &mut Board,
    reader: &mut Reader,
    key: &str,
) -> Result<Reading, BoardFault>
    requires { reader.old.book ≡ board.old.book }
    ensures begins { IsPrefix reader.new.log (longest_of board.old.cluster) }
    ensures grows { IsPrefix reader.old.log reader.new.log }
    ensures reading { IfOk result (IsReading key.now reader.new.log) }
    ensures board { (reader.new.book ≡ reader.old.book) × (board.new ≡ board.old) }
    ensures fault { IfErr result IsLookupFault }
{
    let reading = look_up(alloc, reader, key);
    // This call is made only for the promise in its contract.
    board.bounds(reader);
    reading
}

/// Shows a board's longest history, lets a reader of the board learn it, and looks up a key. The lookup uses exactly
/// that history.
pub fn look_up_shown<R: Wait>(
    rt: &R,
    alloc: Global,
    board: &mut Board,
    reader: &mut Reader,
    key: &str,
) -> Result<Reading, BoardFault>
    requires { reader.old.book ≡ board.old.book }
    ensures shown { OnOk result (reader.new.log ≡ longest_of board.old.cluster) }
    ensures reading { IfOk result (IsReading key.now (longest_of board.old.cluster)) }
    ensures board { (reader.new.book ≡ reader.old.book) × (board.new.book ≡ board.old.book) }
    ensures cluster { board.new.cluster ≡ board.old.cluster }
    ensures fault { IfErr result (λ f. IsShowFault f ⊎ IsLookupFault f) }
{
    let news = board.show(rt, alloc)?;
    let reading = look_up_told(alloc, reader, news, key);
    // This call is made only for the promise in its contract.
    board.bounds(reader);
    reading
}

// Looks up a key, and counts the commands of the list that the lookup used.
fn look_up(alloc: Global, reader: &mut Reader, key: &str) -> Result<Reading, BoardFault>
    ensures board { reader.new.book ≡ reader.old.book }
    ensures grows { IsPrefix reader.old.log reader.new.log }
    ensures reading { IfOk result (IsReading key.now reader.new.log) }
    ensures fault { IfErr result IsLookupFault }
{
    let text = reader.lookup(alloc, key)?;
    let count = reader.count();
    Ok(Reading { text, count })
}
