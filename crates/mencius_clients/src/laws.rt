//! Laws of linearizations.
//!
//! The function does nothing when it runs. Its contract is a theorem about the definitions in `specs/Locality.antt`.

ghost use Rattle.mencius_clients.specs.Locality.{IsLocal, LinearizesEachKey, LinearizesByMoments};

/// Linearizability can be decided for each key alone. This is true of every log, even if it breaks other promises.
///
/// - A log has a linearization exactly if the log of each key has one.
/// - Take a linearization of a log, and only the commands of one key. They are a linearization of the log of the key.
/// - Take a linearization of the log of each key. Give each command a moment, which is a line of the log. The moment is
///   not before the first submission of the command, and not after its first reply other than `failed`. The moments do
///   not fall along the order of a key. Then the commands of all keys, sorted by their moments, are a linearization of
///   the log. Commands with the same moment may have any order that keeps the order of each key.
pub fn locality()
    ensures local { IsLocal }
    ensures restricted { LinearizesEachKey }
    ensures merged { LinearizesByMoments }
{}
