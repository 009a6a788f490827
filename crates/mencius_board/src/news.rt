ghost use Rattle.std.specs.Prelude.{◌≡◌, ◌<◌, ◌^◌, length};

use crate::shown_log::Mark;
use mencius_base::Command;
use std::marker::Model;

/// The list that one call of [`Board::show`] showed. Once a reader has learned it, no lookup of that reader uses a
/// shorter list.
///
/// Contracts see which board showed the list, and the list itself.
///
/// [`Board::show`]: crate::Board::show
#[derive(Drop)]
pub struct News {
    mark: Mark,
    list: Vec<Command>,
    count: u32,
}

impl Model for News {
    ghost use Rattle.std.specs.Prelude.{◌≡◌, length};
    ghost use Rattle.mencius_board.specs.Marks.{MarkState};

    ghost Value = { MarkState };

    ghost view = { λ n. n.mark };

    ghost invariant = { λ n. (n.list.items ≡ n.mark.log) × (n.count ≡ length n.mark.log) };
}

impl News {
    pub(crate) fn new(mark: Mark, list: Vec<Command>) -> News
        requires list { list.items ≡ mark.log }
        requires limit { length mark.log < 2 ^ 32 }
        ensures { result ≡ mark }
    {
        let count = list.len() as u32;
        News { mark, list, count }
    }

    /// Returns the number of commands in the list.
    pub fn count(&self) -> u32
        ensures { result ≡ length self.now.log }
    {
        self.count
    }

    /// Returns the commands of the list, in order.
    pub fn commands(&self) -> &[Command]
        ensures { result.now ≡ self.now.log }
    {
        self.list.as_slice()
    }

    pub(crate) fn into_mark(self) -> Mark
        ensures { result ≡ self }
    {
        let News {
            mark,
            list: _list,
            count: _,
        } = self;
        mark
    }
}
