//! Reads the options of the task `judge` for a log that clients saw.

ghost use Rattle.std.specs.Prelude.{◌≡◌, IfOk, Ok, Some, codes, false, is_some, true};
ghost use Rattle.clap.specs.Words.{FailsBy, first_of, found_of, kind_of, rows_of};
ghost use Rattle.mencius_command_line.specs.ClientOptions.{client_faults, client_options_of, has_client_option, most_faults, most_in};

use crate::line::{has_flag, judge_command};
use clap::error::ErrorKind;
use clap::{ArgMatches, Error};
use mencius_format::parse_u32;
use std::alloc::{AllocError, Global};

/// The options of a judgement of what clients saw.
#[derive(Clone, Copy, Debug, PartialEq, Eq)]
pub struct ClientOptions {
    /// The number of configurations of a key at which a reply ends the search.
    pub most: u32,
    /// Whether the order that was found is printed.
    pub with_order: bool,
    /// Whether the lines and the sentence that explain a verdict are left out.
    pub is_brief: bool,
    /// Whether the verdict is printed as one JSON object.
    pub is_json: bool,
}

const DEFAULT_MOST: u32 = 100_000;

const MOST_RULE: &str = "the number of configurations is a number, 0 to 4294967295";

const OPTIONS_RULE: &str = "'--most' and '--order' need '--clients'";

/// Returns whether one of these options was given.
pub(crate) fn has_client_option(matches: &ArgMatches) -> bool
    ensures { result ≡ has_client_option (rows_of (found_of matches.now)) }
{
    has_flag(matches, "clients") || has_flag(matches, "order") || has_value(matches, "most")
}

// Returns whether an option was given.
fn has_value(matches: &ArgMatches, name: &str) -> bool
    ensures { result ≡ is_some (first_of name.now (rows_of (found_of matches.now))) }
{
    match matches.get_str(name) {
        Some(_) => true,
        None => false,
    }
}

// Returns the number of configurations that the options name.
fn most_in(alloc: Global, matches: &ArgMatches) -> Result<u32, Error>
    ensures most { IfOk result (λ most. most_in (first_of (codes "most") (rows_of (found_of matches.now))) ≡ Ok most) }
    ensures faults { FailsBy (most_faults (most_in (first_of (codes "most") (rows_of (found_of matches.now))))) result }
{
    match matches.get_str("most") {
        Some(word) => match parse_u32(word) {
            Ok(most) => Ok(most),
            Err(_) => Err(most_error(alloc, word)?),
        },
        None => Ok(DEFAULT_MOST),
    }
}

// Builds the error for a word that is not a number. It has the form of `clap`'s own errors, and the usage of `judge`.
fn most_error(alloc: Global, word: &str) -> Result<Error, AllocError>
    ensures { IfOk result (λ e. kind_of e ≡ ErrorKind.ValueValidation) }
{
    let message = format!(in alloc; "invalid value '{word}' for '--most <N>': {MOST_RULE}")?;
    judge_command(alloc)?.error(ErrorKind::ValueValidation, message.as_str())
}

// Builds the error for options that need `--clients`.
fn misfit_error(alloc: Global) -> Result<Error, AllocError>
    ensures { IfOk result (λ e. kind_of e ≡ ErrorKind.ValueValidation) }
{
    judge_command(alloc)?.error(ErrorKind::ValueValidation, OPTIONS_RULE)
}

/// Returns the options of a judgement of what clients saw. Fails without `--clients`, or if N is not a number.
pub(crate) fn client_options_of(alloc: Global, matches: &ArgMatches) -> Result<ClientOptions, Error>
    ensures options { IfOk result (λ options.
        client_options_of (rows_of (found_of matches.now)) ≡ Some options) }
    ensures faults { FailsBy (client_faults (client_options_of (rows_of (found_of matches.now)))) result }
{
    if !has_flag(matches, "clients") {
        return Err(misfit_error(alloc)?);
    }
    let most = most_in(alloc, matches)?;
    Ok(ClientOptions {
        most,
        with_order: has_flag(matches, "order"),
        is_brief: has_flag(matches, "brief"),
        is_json: has_flag(matches, "json"),
    })
}
