//! Laws of slices, the parts of a store within some steps of a request, each on a function that does nothing.
ghost use Rattle.cedar_typechecker.specs.Slices.Reach.{SlicesHold};
ghost use Rattle.cedar_typechecker.specs.Slices.Soundness.{SliceSoundness, TargetsAreReached};
ghost use Rattle.cedar_typechecker.specs.Slices.TypedCopies.{CopiesNeedSliceAlone};

/// The slice of some steps is a part of the store that holds itself, and so does the whole store.
pub fn slices_hold()
    ensures { SlicesHold }
{}

/// An expression that has a type and no level error at n evaluates over each part of the store that has the slice of n
/// steps as over the whole store: to the same value, or with the same failure.
pub fn slice_soundness()
    ensures { SliceSoundness }
{}

/// A typed copy without level errors at n evaluates over each part of the store that has the slice of n steps as the
/// expression does over the whole store.
pub fn copies_need_slice_alone()
    ensures { CopiesNeedSliceAlone }
{}

/// Each entity that the value of a target holds along its path is reached in no more steps than the target's level.
pub fn targets_are_reached()
    ensures { TargetsAreReached }
{}
