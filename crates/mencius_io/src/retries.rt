ghost use Rattle.std.specs.Prelude.{◌≡◌, ◌+◌, MatchBool};

use std::io;
use std::io::ErrorKind;

/// The greatest number of interrupted calls that a task makes again, over all of its calls.
pub const MOST_RETRIES: u32 = 1_000;

/// Uses up one of the retries that are left if a call was interrupted. Returns whether the call is made again. Any
/// other error ends the work, and so does an interruption if no retry is left.
pub(crate) fn spend_retry(error: &io::Error, retries: &mut u32) -> bool
    ensures { MatchBool result (retries.old ≡ retries.new + 1) (retries.new ≡ retries.old) }
{
    if error.kind() != ErrorKind::Interrupted || *retries == 0 {
        return false;
    }
    *retries -= 1;
    true
}
