//! Facts about the texts of all scenarios. The function does nothing when it runs, and its contract is a theorem.

ghost use Rattle.mencius_input.specs.Laws.{FaultsHavePlaces};

/// A mistake has a place. If [`read_scenario`](crate::read_scenario) or [`read_plan`](crate::read_plan) returns
/// `BadShape` or `BadLimit` for the bytes of a scenario, [`place_of`](crate::place_of) finds a place in them that has
/// this fault. So [`explain`](crate::explain) names that place, unless the text has too many signs for a tree.
pub fn faults_have_places()
    ensures { FaultsHavePlaces }
{}
