ghost use Rattle.std.specs.Prelude.{◌≡◌, ◌⊎◌, [], Some, IfOk, IfErr, OnOk, OnErr, length, option_map};
ghost use Rattle.std.specs.String.{string_bytes};
ghost use mathlib.Core.List.{IsPrefix};
ghost use Rattle.left_right.specs.Sides.{view};
ghost use Rattle.mencius_model.specs.Executed.{IsComparable};
ghost use Rattle.mencius_model.specs.KeyMap.{value_at};
ghost use Rattle.mencius_board.specs.Faults.{IsLookupFault};
ghost use Rattle.mencius_board.specs.Shown.{book_of};

use crate::fault::BoardFault;
use crate::news::News;
use crate::shown::{Home, read};
use crate::shown_log::Mark;
use core::mem::replace_with;
use mencius_base::MOST_TEXT_BYTES;
use std::alloc::Global;
use std::marker::Model;

/// Looks up keys in the list that a board shows, while other threads step the board. A reader takes no lock and never
/// waits, and may be moved into its own thread.
///
/// Contracts see which board it reads, and its floor. The floor is the longest list that the reader saw or learned from
/// `News`. It is empty at first, and only grows.
#[derive(Drop)]
pub struct Reader {
    home: Home,
    floor: Mark,
    count: u32,
}

impl Model for Reader {
    ghost use Rattle.std.specs.Prelude.{◌≡◌, Some, length};
    ghost use Rattle.left_right.specs.Sides.{view as known};
    ghost use Rattle.mencius_board.specs.Marks.{MarkState};

    ghost Value = { MarkState };

    ghost use Rattle.mencius_board.specs.Shown.{book_of};

    ghost view = { λ r. r.floor };

    ghost invariant = { λ r. (r.count ≡ length r.floor.log)
        × (book_of (known r.home.place) ≡ Some r.floor.book) };
}

impl Reader {
    pub(crate) fn new(home: Home, opening: Mark) -> Reader
        requires empty { opening.log ≡ [] }
        requires tied { book_of (view home.place) ≡ Some opening.book }
        ensures { result ≡ opening }
    {
        Reader {
            home,
            floor: opening,
            count: 0,
        }
    }

    /// Returns the text that the shown commands leave at the key, or `None` if the key has no text. The old floor is a
    /// prefix of the shown list, and the shown list becomes the new floor.
    ///
    /// Fails with `NoMemory` if room for the text is refused. Fails with `NoReader` if the reader cannot enter, for
    /// example because the board is gone. The floor then stays as it was.
    pub fn lookup(&mut self, alloc: Global, key: &str) -> Result<Option<String>, BoardFault>
        ensures board { self.new.book ≡ self.old.book }
        ensures grows { OnOk result (IsPrefix self.old.log self.new.log) }
        ensures text { IfOk result (λ x. option_map string_bytes x
            ≡ value_at key.now self.new.log) }
        ensures err { OnErr result (self.new ≡ self.old) }
        ensures fault { IfErr result IsLookupFault }
    {
        // This is room for the longest text that a command can set.
        let room = String::with_capacity(alloc, MOST_TEXT_BYTES)?;
        let least = self.count;
        let found = replace_with(&mut self.home, room, |home, room| {
            read(home, key, room, least)
        })?;
        self.floor.compare(&found.mark);
        self.floor = found.mark;
        self.count = found.count;
        Ok(found.text)
    }

    /// Learns the list of this News, which must come from the reader's own board. Either that list is a prefix of the
    /// floor, or the floor is a prefix of that list. The longer of them becomes the floor. The call consumes the News
    /// and does not allocate.
    pub fn learn(&mut self, news: News)
        requires { news.book ≡ self.old.book }
        ensures comparable { IsComparable self.old.log news.log }
        ensures floor { IsPrefix self.old.log self.new.log }
        ensures told { IsPrefix news.log self.new.log }
        ensures one { (self.new ≡ self.old) ⊎ (self.new ≡ news) }
    {
        let count = news.count();
        let mark = news.into_mark();
        self.floor.compare(&mark);
        if self.count < count {
            self.floor = mark;
            self.count = count;
        }
    }

    pub(crate) fn floor(&self) -> &Mark
        ensures { result.now ≡ self.now }
    {
        &self.floor
    }

    /// Returns the number of commands in the floor, the longest list that the reader saw or learned.
    pub fn count(&self) -> u32
        ensures { result ≡ length self.now.log }
    {
        self.count
    }
}
