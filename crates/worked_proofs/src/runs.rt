//! What the contracts of two runs of the same scenario say together.

ghost use Rattle.worked_proofs.specs.OneWorker.{OneText};

/// A run with one worker has one text. Take two texts that are each the text of a run of the same bytes, by the clauses
/// of [`run`](mencius_app::run) or of [`run_in_turns`](mencius_app::run_in_turns). Then both are the same. So both calls
/// print the same if both succeed, on any machine.
///
/// The function does nothing when it runs. Its contract is the theorem.
pub fn one_worker()
    ensures { OneText }
{}
