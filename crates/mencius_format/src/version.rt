//! The numbers of the versions of a scenario. The definitions in `specs/Versions.antt` have the same numbers.

ghost use Rattle.std.specs.Prelude.{◌≡◌, if◌then◌else◌};
ghost use Rattle.mencius_format.specs.Versions.{first_version, is_version, may_stand_in};

/// The first version of a scenario.
pub const FIRST_VERSION: u64 = 1;

/// The newest version of a scenario.
pub const NEWEST_VERSION: u64 = 2;

// Returns `number` if it is a version, otherwise the first version.
fn version_or_first(number: u64) -> u64
    ensures { result ≡ (if is_version number then number else first_version) }
{
    if FIRST_VERSION <= number && number <= NEWEST_VERSION {
        number
    } else {
        FIRST_VERSION
    }
}

/// Returns whether a text that needs the version `needed` may be in a scenario with the version `number`. A number that
/// is not a version allows the same texts as the first version.
pub fn may_stand_in(needed: u64, number: u64) -> bool
    ensures { result ≡ may_stand_in needed number }
{
    needed <= version_or_first(number)
}
