//! Reads the scenario of a task.

ghost use Rattle.std.specs.Prelude.{IfErr, IfOk, OnOk};
ghost use Rattle.std.specs.Io.KnownBytes.{IsAtEnd};
ghost use Rattle.mencius_app.specs.Failures.{ExplainsAs, FailsReading};
ghost use Rattle.mencius_app.specs.Input.{HasFault, Says, unless_long};
ghost use Rattle.mencius_app.specs.Tasks.{AsksReader};
ghost use Rattle.mencius_input.specs.Scenario.{scenario};

use crate::failure::{misread_as, unread};
use mencius_input::{Events, Kind, Scenario, read_scenario};
use mencius_io::{Failure, Source, read_all};
use std::alloc::Global;

/// Reads a scenario of `replay` from a reader, to its end.
pub(crate) fn read_input<R: Source>(
    alloc: Global,
    source: &mut R,
) -> Result<Scenario<Events>, Failure>
    ensures end { OnOk result (IsAtEnd (R.state source.new).bytes) }
    ensures said { IfOk result (λ s. Says (unless_long scenario) (R.state source.old).bytes s) }
    ensures fault { IfErr result (FailsReading (HasFault (unless_long scenario)) (ExplainsAs Kind.Replay)
        (R.state source.old) (R.state source.new)) }
    ensures asked { AsksReader (R.state source.old) (R.state source.new) }
{
    let bytes = match read_all(alloc, source) {
        Ok(bytes) => bytes,
        Err(fault) => return Err(unread(alloc, fault)),
    };
    match read_scenario(alloc, bytes.as_slice()) {
        Ok(scenario) => Ok(scenario),
        Err(fault) => Err(misread_as(alloc, Kind::Replay, bytes.as_slice(), fault)),
    }
}
