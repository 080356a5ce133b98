//! Strict is a refinement of Permissive: laws, each on a function that does nothing.
ghost use Rattle.cedar_typing.specs.Examples.Refinement.{FormIsNeededInStrict};
ghost use Rattle.cedar_typing.specs.Refinement.{StrictBoundIsKept, StrictIsKept, StrictCheckIsKept, EnvironmentsAreKept, StrictVerdictsAreKept, StrictPolicyIsKept, StrictPassesInPermissive, PermissiveIsKeptInPartial, SuccessIsKeptInPartial};

/// A bound in Strict is the bound in Permissive too.
pub fn strict_bounds_are_kept()
    ensures { StrictBoundIsKept }
{}

/// What Strict says of an expression without an error, Permissive says just the same.
pub fn strict_is_kept()
    ensures { StrictIsKept }
{}

/// What passes in Strict passes in Permissive: a condition in an environment, and a policy in all of them, which are the same.
pub fn strict_passes_in_permissive()
    ensures check { StrictCheckIsKept }
    ensures environments { EnvironmentsAreKept }
    ensures verdicts { StrictVerdictsAreKept }
    ensures policy { StrictPolicyIsKept }
    ensures answer { StrictPassesInPermissive }
{}

/// Where a name comes twice in a type, as in no type of the program, a bound in Strict is not that in Permissive, and neither is
/// the type of a set.
pub fn examples_of_refinement()
    ensures { FormIsNeededInStrict }
{}

/// What Permissive derives, Partial derives just the same, and so a success of Permissive is one of Partial.
pub fn permissive_is_kept_in_partial()
    ensures derivations { PermissiveIsKeptInPartial }
    ensures success { SuccessIsKeptInPartial }
{}
