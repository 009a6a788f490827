//! Reads the arguments that the program is called with. An argument is a list of bytes.

ghost use Rattle.std.specs.Prelude.{◌≡◌, IfOk, map, string_bytes, true};
ghost use Rattle.std.specs.Str.{is_utf8};
ghost use Rattle.clap.specs.Words.{FailsBy};
ghost use Rattle.mencius_command_line.specs.CommandLine.{are_texts, bytes_of, faults, line_of, lossy_of, task_in, task_state};

use crate::line::{Task, read_command_line};
use clap::Error;
use std::alloc::{AllocError, Global};

// The name that usage shows. It does not depend on the name that the program was started by.
const NAME: &str = "mencius";

/// Returns whether all arguments are texts, which means that they are UTF-8.
pub fn are_texts(arguments: &[Vec<u8>]) -> bool
    ensures { result ≡ are_texts (bytes_of arguments.now) }
{
    let mut rest = arguments;
    while let Some((argument, after)) = rest.split_first() {
        if !is_text(argument.as_slice()) {
            return false;
        }
        rest = after;
    }
    true
}

fn is_text(bytes: &[u8]) -> bool
    ensures { result ≡ is_utf8 bytes.now }
{
    match str::from_utf8(bytes) {
        Ok(_) => true,
        Err(_) => false,
    }
}

/// Reads arguments that are texts, by the rules of [`read_command_line`]. The arguments do not contain the program's
/// own name.
///
/// # Errors
///
/// The errors of [`read_command_line`].
pub fn read_arguments(alloc: Global, arguments: &[Vec<u8>]) -> Result<Task, Error>
    requires { are_texts (bytes_of arguments.now) ≡ true }
    ensures task { IfOk result
        (λ task. task_state task ≡ task_in (line_of (bytes_of arguments.now))) }
    ensures faults { FailsBy (faults (line_of (bytes_of arguments.now))) result }
{
    let words = words_in(alloc, arguments)?;
    read_command_line(alloc, words.as_slice())
}

// Returns the program's name, followed by the arguments.
fn words_in(alloc: Global, arguments: &[Vec<u8>]) -> Result<Vec<String>, AllocError>
    ensures { IfOk result (λ x. map string_bytes x.items ≡ line_of (lossy_of arguments.now)) }
{
    let mut words = Vec::new(alloc);
    words.push(String::from_str(alloc, NAME)?)?;
    let mut rest = arguments;
    while let Some((argument, after)) = rest.split_first() {
        words.push(String::from_utf8_lossy(alloc, argument.as_slice())?)?;
        rest = after;
    }
    Ok(words)
}
