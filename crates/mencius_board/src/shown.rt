//! The rule that readers follow when they enter the value that the writer shows.
ghost use Rattle.std.specs.Prelude.{◌≡◌, ◌≤◌, ◌++◌, Some, IfOk, IfErr, length, ◌<◌, ◌^◌};
ghost use Rattle.std.specs.Prelude.{drop, MatchResult, [], option_copied, option_map};
ghost use Rattle.std.specs.String.{string_bytes};
ghost use Rattle.left_right.specs.Sides.{view};
ghost use Rattle.mencius_board.specs.Faults.{IsLookupFault};
ghost use Rattle.mencius_model.specs.KeyMap.{value_at};
ghost use Rattle.mencius_board.specs.Marks.{Origin};
ghost use Rattle.mencius_board.specs.Shown.{Follows, book_of};
ghost use Rattle.mencius_board.specs.Pending.{IsMarked, added_commands};
ghost use Rattle.mencius_base.specs.Limits.{most_readers};

use crate::fault::BoardFault;
use crate::shown_log::Mark;
use crate::version::{Operation, Version};
use atomic_table::{Join, Split};
use crossbeam_utils::rule::{Outcome, Protocol};
use left_right::reader::Reader;
use left_right::writer::Writer;
use std::alloc::{AllocError, Global};
use std::sync::Wait;

/// The rule of the shown value. Its list belongs to one log and only grows. The writer and each reader know the prefix
/// that they have seen.
pub struct Published;

impl Protocol<Version, Option<Mark>> for Published {
    ghost use Rattle.std.specs.Prelude.{None};
    ghost use Rattle.mencius_board.specs.Shown.{Keeps};

    ghost holds = { Keeps };

    ghost first = { None };
}

/// A step that sees the shown value and keeps its mark.
pub struct Sees;

impl Outcome<Version, Option<Mark>> for Sees {
    ghost use Rattle.mencius_board.specs.Shown.{Shows};

    ghost then = { Shows };
}

/// The notes that readers learn are copies of the mark that the writer has seen.
pub struct SeatNotes;

impl Split<Option<Mark>> for SeatNotes {
    ghost left = { λ x. x };

    ghost right = { λ x. x };
}

impl Join<Option<Mark>> for SeatNotes {
    ghost use Rattle.std.specs.Prelude.{None};

    ghost both = { λ x y. y };

    ghost spent = { None };
}

/// A `left_right` reader that is not reading at the moment.
pub type Home = Reader<Version, Option<Mark>, Published>;

pub type Showing = Writer<Version, Operation, Option<Mark>, Published>;

/// The result of one reading. It has the mark of the shown list, the number of commands in that list, and the text at
/// the key, if there is one.
#[derive(Drop)]
pub struct Found {
    pub mark: Mark,
    pub count: u32,
    pub text: Option<String>,
}

/// Enters the shown value and looks up a key. `room` is an empty string that takes the text. `least` is the length of
/// the reader's floor. Fails with `NoReader` if `left_right` gives no entry, for example because the writer is gone.
pub fn read(home: Home, key: &str, room: String, least: u32) -> (Home, Result<Found, BoardFault>)
    requires { string_bytes room ≡ [] }
    ensures book { (x : Origin) → book_of (view home.place) ≡ Some x
        → book_of (view result.0.place) ≡ Some x }
    ensures follows { IfOk result.1 (λ f. Follows (view home.place) f.mark) }
    ensures text { IfOk result.1 (λ f. option_map string_bytes f.text
        ≡ value_at key.now f.mark.log) }
    ensures count { IfOk result.1 (λ f. (f.count ≡ length f.mark.log) × (least ≤ f.count)) }
    ensures fault { IfErr result.1 IsLookupFault }
{
    let reading = match home.enter_as::<Sees>() {
        Ok(reading) => reading,
        Err(home) => return (home, Err(BoardFault::NoReader)),
    };
    let store = reading.get();
    let mark = store.mark();
    let count = store.commands().len() as u32;
    let copied = copy_into(room, store.get(key));
    let home = reading.leave();
    let Ok(text) = copied else {
        return (home, Err(BoardFault::NoMemory));
    };
    // The shown list only grows, so this never happens. But no clause of `left_right` says that a list from News was
    // shown before the reader entered.
    if count < least {
        return (home, Err(BoardFault::NoReader));
    }
    (home, Ok(Found { mark, count, text }))
}

// Copies the text, if there is one, into `room`.
fn copy_into(mut room: String, text: Option<&str>) -> Result<Option<String>, AllocError>
    requires { string_bytes room ≡ [] }
    ensures { IfOk result (λ x. option_map string_bytes x ≡ option_copied text.entry) }
{
    let Some(text) = text else {
        return Ok(None);
    };
    room.push_str(text)?;
    Ok(Some(room))
}

/// Shows all pending commands at once. The shown list, followed by the pending commands, must be the whole list of
/// `log`. If the call fails, the shown list and the pending commands stay as they were.
pub fn publish<R: Wait>(
    rt: &R,
    log: &Mark,
    mut writer: Showing,
) -> (Showing, Result<(), AllocError>)
    requires marked { IsMarked log.now.book writer.desk.shown.value }
    requires whole { writer.desk.shown.value.list
        ++ added_commands (drop writer.behind writer.log.items) ≡ log.now.log }
    requires limit { length log.now.log < 2 ^ 32 }
    ensures seen { MatchResult result.1 (λ _.
        book_of (view result.0.desk.place) ≡ Some log.now.book)
        (λ _. view result.0.desk.place ≡ view writer.desk.place) }
    ensures shown { MatchResult result.1
        (λ _. result.0.desk.shown.value ≡ record { mark = log.now; list = log.now.log })
        (λ _. result.0.desk.shown.value ≡ writer.desk.shown.value) }
    ensures pending { let after = added_commands (drop result.0.behind result.0.log.items) in
        MatchResult result.1 (λ _. after ≡ [])
        (λ _. after ≡ added_commands (drop writer.behind writer.log.items)) }
{
    let Ok(()) = writer.append(Operation::Stamp(log.again())) else {
        return (writer, Err(AllocError));
    };
    writer.publish_as::<Sees, R>(rt)
}

/// Makes a writer for `readers` readers, which shows the empty list of a new log. `opening` is the mark of that list.
pub fn open_writer<R: Wait>(
    rt: &R,
    alloc: Global,
    opening: &Mark,
    readers: u8,
) -> Result<Showing, AllocError>
    requires some { (0 < readers) × (readers ≤ most_readers) }
    requires empty { opening.now.log ≡ [] }
    ensures seen { IfOk result (λ x. book_of (view x.desk.place) ≡ Some opening.now.book) }
    ensures shown { IfOk result
        (λ x. x.desk.shown.value ≡ record { mark = opening.now; list = opening.now.log }) }
    ensures pending { IfOk result (λ x. added_commands (drop x.behind x.log.items) ≡ []) }
{
    let first = Version::new(alloc, opening.again());
    let second = Version::new(alloc, opening.again());
    let writer = Showing::new(alloc, first, second, usize::from(readers))?;
    let (writer, shown) = publish(rt, opening, writer);
    match shown {
        Ok(()) => Ok(writer),
        Err(refused) => {
            drop(writer.take(rt));
            Err(refused)
        }
    }
}
