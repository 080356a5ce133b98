//! Computed examples of slices and of the promises over them, each on a function that does nothing.
ghost use Rattle.cedar_typechecker.specs.Slices.Examples.{SlicePremisesAreMet, SlicesAreAsSaid};
ghost use Rattle.cedar_typechecker.specs.Slices.Examples.LeftOpen.{SlicePremisesLeaveOpen};
ghost use Rattle.cedar_typechecker.specs.Slices.Examples.Promises.{SlicePromisesCanBreak};
ghost use Rattle.cedar_typechecker.specs.Slices.NeededPremises.{SlicePremisesAreNeeded};

/// The premises of slice soundness hold together at the least level that is enough, also in worlds that leave much
/// open, for example without a stored principal. The reached ids and the slices of a small store are computed.
pub fn slice_premises_are_met()
    ensures premises { SlicePremisesAreMet }
    ensures left_open { SlicePremisesLeaveOpen }
    ensures slices { SlicesAreAsSaid }
{}

/// Each premise of slice soundness is needed: without it, some policy evaluates over a part of a store otherwise than
/// over the store.
pub fn slice_premises_are_needed()
    ensures { SlicePremisesAreNeeded }
{}

/// Promises of silence that are false: at a level that is too small, if one failure stands for another, over a part of
/// the store that has more than the slice, and for a policy that goes wrong.
pub fn slice_promises_can_break()
    ensures { SlicePromisesCanBreak }
{}
