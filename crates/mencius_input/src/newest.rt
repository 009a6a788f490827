//! Content that is read before the version of a scenario is known.

ghost use Rattle.std.specs.Prelude.{◌≡◌};
ghost use Rattle.mencius_input.specs.Newest.{in_version};

use mencius_format::may_stand_in;
use mencius_io::IoFault;

/// The content of a list in the newest version, and the lowest version that allows the list. Each version that allows
/// the whole list gives it the same content. So a list can be read before the version is known.
#[derive(Drop)]
pub(crate) struct Newest<X> {
    pub said: Result<X, IoFault>,
    pub version: u64,
}

/// Returns the content of the list in a version, or `BadShape` if the version does not allow the list.
pub(crate) fn in_version<X: Drop>(version: u64, list: Newest<X>) -> Result<X, IoFault>
    ensures { result ≡ in_version version list }
{
    if !may_stand_in(list.version, version) {
        return Err(IoFault::BadShape);
    }
    list.said
}
