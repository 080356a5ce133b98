//! Laws of the promises for a policy that the level rules accept, each on a function that does nothing.
ghost use Rattle.cedar_typechecker.specs.Slices.Nesting.{ShallowIsCutNowhere};
ghost use Rattle.cedar_typechecker.specs.Slices.Passing.{PassingIsKept, RequiredLevelSuffices};
ghost use Rattle.cedar_typechecker.specs.Slices.Policies.{PassingNeedsSliceAlone};
ghost use Rattle.cedar_typechecker.specs.Slices.TypedCopies.{PassingCopyNeedsSliceAlone};
ghost use Rattle.cedar_typechecker.specs.Slices.Validation.{PassingIsCutNowhere, OutcomesAreKept};
ghost use Rattle.cedar_typechecker.specs.Validations.{ValidationsAreKept};

/// The condition of a policy that passes, and has no level error at n in any environment, evaluates over each part of
/// the store that has the slice of n steps as over the whole store: to the same value, or with the same failure.
pub fn passing_needs_slice_alone()
    ensures { PassingNeedsSliceAlone }
{}

/// The typed condition of a policy that passes, and has no level error at n in any environment, evaluates over each
/// part of the store that has the slice of n steps as the template's condition does over the whole store. It is the
/// typed condition in the request's own environment, which links each slot to its variable's own type.
pub fn passing_copy_needs_slice_alone()
    ensures { PassingCopyNeedsSliceAlone }
{}

/// A policy that passes, or whose condition is nested no deeper than the limit, is cut nowhere.
pub fn cut_nowhere()
    ensures passing { PassingIsCutNowhere }
    ensures shallow { ShallowIsCutNowhere }
{}

/// The promises of validation without levels follow from its outcome: a policy whose only errors are ids that their
/// enumerated types do not list is safe, and a policy that is warned to be impossible is never true.
pub fn validations_are_kept()
    ensures { ValidationsAreKept }
{}

/// The promises of validation with levels follow from its outcome: a policy without errors keeps both halves of the
/// promise, and a policy that is warned to be impossible is never true.
pub fn outcomes_are_kept()
    ensures { OutcomesAreKept }
{}

/// A policy keeps both halves of the promise even if validation with levels finds errors, if its check passes, and no
/// error is an unknown type, an unknown action or one of the rules of levels. For example, it may name an id that its
/// enumerated type does not list.
pub fn passing_is_kept()
    ensures { PassingIsKept }
{}

/// A policy that passes, whose types and actions the schema has, and that requires n levels, keeps both halves of the promise for
/// the slice of n steps.
pub fn required_level_suffices()
    ensures { RequiredLevelSuffices }
{}
