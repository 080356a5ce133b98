//! Answers of the checks of a host's data.
ghost use Rattle.std.specs.Prelude.{◌≡◌};
ghost use Rattle.std.specs.Result.{is_ok};
ghost use Rattle.cedar_conformance.specs.Answers.{fault_in, finds_none};

use std::alloc::AllocError;

/// The answer of a check: nothing, or the fault that it finds. If memory is refused, it is an
/// `AllocError`.
pub type Checked<F> = Result<Result<(), F>, AllocError>;

/// The fault that a search finds, if there is one.
pub(crate) type Found<F> = Result<Option<F>, AllocError>;

/// Returns the answer of a check that searches for a fault.
pub(crate) fn answer<F>(found: Option<F>) -> Result<(), F>
    ensures ok { is_ok result ≡ finds_none found }
    ensures fault { fault_in result ≡ found }
{
    match found {
        None => Ok(()),
        Some(fault) => Err(fault),
    }
}
