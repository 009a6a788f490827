//! Reads the options of the task `draw`. They select the part of a schedule that is drawn, and its colours.

ghost use Rattle.std.specs.Prelude.{◌≡◌, IfOk, Ok, Some};
ghost use Rattle.clap.specs.Words.{FailsBy, first_of, found_of, kind_of, rows_of};
ghost use Rattle.mencius_command_line.specs.DrawOptions.{draw_task, options_of, part_faults, place_faults, place_in, scheme_by};
ghost use Rattle.mencius_command_line.specs.Options.{IsTask};

use crate::line::has_flag;
use crate::tasks::{new_task, with_flag, with_value};
use clap::error::ErrorKind;
use clap::{ArgMatches, Command, Error};
use mencius_draw::{Options, Scheme};
use mencius_format::parse_u32;
use std::alloc::{AllocError, Global};

const DRAW_USAGE: &str = "mencius draw [OPTIONS] < SCENARIO";

const PLACE_RULE: &str = "the place of an event is a number, 0 to 4294967295";

/// Builds the task `draw`, with its options.
pub(crate) fn draw_command<'a>(alloc: Global) -> Result<Command<'a>, AllocError>
    ensures { IfOk result (IsTask draw_task) }
{
    let task = new_task(alloc, "draw", DRAW_USAGE);
    let task = with_value(alloc, task, "from", "EVENT")?;
    let task = with_value(alloc, task, "to", "EVENT")?;
    let task = with_flag(alloc, task, "dark")?;
    with_flag(alloc, task, "light")
}

// Returns the colours that the flags request. With both flags, or with neither, these are the colours of both schemes.
fn scheme_by(is_dark: bool, is_light: bool) -> Scheme
    ensures { result ≡ scheme_by is_dark is_light }
{
    match (is_dark, is_light) {
        (true, false) => Scheme::Dark,
        (false, true) => Scheme::Light,
        _ => Scheme::Both,
    }
}

// Returns the place that an option names, or `other` if the option is not given.
fn place_in(alloc: Global, matches: &ArgMatches, name: &str, other: u32) -> Result<u32, Error>
    ensures place { IfOk result (λ place.
        place_in other (first_of name.now (rows_of (found_of matches.now))) ≡ Ok place) }
    ensures faults { FailsBy
        (place_faults (place_in other (first_of name.now (rows_of (found_of matches.now))))) result }
{
    match matches.get_str(name) {
        Some(word) => match parse_u32(word) {
            Ok(place) => Ok(place),
            Err(_) => Err(place_error(alloc, name, word)?),
        },
        None => Ok(other),
    }
}

// Builds the error for a word that is not a place. It has the form of `clap`'s own errors, and the usage of `draw`.
fn place_error(alloc: Global, name: &str, word: &str) -> Result<Error, AllocError>
    ensures { IfOk result (λ e. kind_of e ≡ ErrorKind.ValueValidation) }
{
    let message = format!(in alloc; "invalid value '{word}' for '--{name} <EVENT>': {PLACE_RULE}")?;
    draw_command(alloc)?.error(ErrorKind::ValueValidation, message.as_str())
}

/// Returns the part and the colours that the options of `draw` request. Fails if a place is not a number.
pub(crate) fn options_of(alloc: Global, matches: &ArgMatches) -> Result<Options, Error>
    ensures options { IfOk result (λ options.
        options_of (rows_of (found_of matches.now)) ≡ Some options) }
    ensures faults { FailsBy (part_faults (options_of (rows_of (found_of matches.now)))) result }
{
    let first = place_in(alloc, matches, "from", 0)?;
    let last = place_in(alloc, matches, "to", u32::MAX)?;
    let scheme = scheme_by(has_flag(matches, "dark"), has_flag(matches, "light"));
    Ok(Options {
        first,
        last,
        scheme,
    })
}
