//! The lowest version that a text needs. Only the word of its operation decides it.

ghost use Rattle.std.specs.Prelude.{◌≡◌};
ghost use Rattle.mencius_format.specs.TextVersions.{command_version, event_version, submit_version};
ghost use Rattle.mencius_format.specs.Words.{words};

use crate::operations::words_version;
use crate::parse::behind_submit;
use crate::version::FIRST_VERSION;
use crate::words::cut_at_space;

/// Returns the lowest version that the text of a command needs. Only the word at the place of its operation decides it.
/// The rest of the text may have any fault.
pub fn command_version(text: &str) -> u64
    ensures { result ≡ command_version (words text.now) }
{
    match cut_at_space(text) {
        Ok((_, op)) => words_version(op),
        Err(_) => FIRST_VERSION,
    }
}

/// Returns the lowest version that a submission needs. `text` is the part after the word `submit` and its space. Only
/// the word at the place of the operation decides the version. The rest of the text may have any fault.
pub fn submit_version(text: &str) -> u64
    ensures { result ≡ submit_version (words text.now) }
{
    match cut_at_space(text) {
        Ok((_, command)) => command_version(command),
        Err(_) => FIRST_VERSION,
    }
}

/// Returns the lowest version that the text of an event needs. If the text begins as a submission, the word at the
/// place of its operation decides it. Any other text needs only the first version. The rest of the text may have any
/// fault.
pub fn event_version(text: &str) -> u64
    ensures { result ≡ event_version (words text.now) }
{
    match behind_submit(text) {
        Some(rest) => submit_version(rest),
        None => FIRST_VERSION,
    }
}
