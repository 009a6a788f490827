ghost use Rattle.std.specs.Prelude.{◌≡◌};
ghost use Rattle.mencius_format.specs.ValuesOrFaults.{both_or_fault};

use mencius_io::IoFault;

/// Returns both values, or the fault of one of them. If both have a fault, the first one counts, unless it is
/// `BadLimit`. Then the second one counts, because every part is checked for its shape before any limit.
pub fn both<A: Drop, B: Drop>(
    first: Result<A, IoFault>,
    second: Result<B, IoFault>,
) -> Result<(A, B), IoFault>
    ensures { result ≡ both_or_fault first second }
{
    match (first, second) {
        (Ok(a), Ok(b)) => Ok((a, b)),
        (Err(IoFault::BadLimit), Err(fault)) => Err(fault),
        (Err(fault), _) | (Ok(_), Err(fault)) => Err(fault),
    }
}
