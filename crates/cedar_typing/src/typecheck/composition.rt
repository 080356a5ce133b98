//! What the checks of a template in its environments say together: laws, each on a function that does nothing.
ghost use Rattle.cedar_typing.specs.Composition.{OwnEnvIsChecked, OwnEnvIsCheckedOfTypes, OwnTestsAreBool, LinksDoNotMatter, ScopeIsBoolean, Coverage, NeverTrue, OwnSuccessIsKept};
ghost use Rattle.cedar_typing.specs.Examples.Composition.{EnvironmentsAre, SlotsInTheRestAreNot, OwnEnvMayBeMissing};
ghost use Rattle.cedar_typing.specs.Examples.Conforming.{ConformityAllows};
ghost use Rattle.cedar_typing.specs.Examples.LeftOpen.{PremisesLeaveOpen};
ghost use Rattle.cedar_typing.specs.Examples.NeededPremises.{PremisesAreNeeded};
ghost use Rattle.cedar_typing.specs.Examples.PolicySoundness.{PolicyPremisesAreMet};
ghost use Rattle.cedar_typing.specs.Soundness.Policies.{PromisesAreKept};
ghost use Rattle.cedar_typing.specs.Silence.{ConditionIsWellNamed, FailuresHaveErrors, SilentFailureIsCut, PassingIsDerived, PassingPolicyIsDerived};

/// One of the environments that are checked links each slot to its variable's own type, and there the scope's tests of slots
/// may be true.
pub fn own_environment()
    ensures checked { OwnEnvIsChecked }
    ensures of_types { OwnEnvIsCheckedOfTypes }
    ensures tests { OwnTestsAreBool }
{}

/// What mentions no slot is typed in the same way whatever the slots are linked to.
pub fn links_of_no_concern()
    ensures { LinksDoNotMatter }
{}

/// Where the scope is true, one of the environments that are checked fits.
pub fn environments_cover()
    ensures boolean { ScopeIsBoolean }
    ensures covered { Coverage }
{}

/// What is warned to be impossible is never true, and what succeeds in the own environment is safe whatever the slots are
/// bound to.
pub fn impossible_is_never_true()
    ensures never { NeverTrue }
    ensures kept { OwnSuccessIsKept }
{}

/// In Strict and in Permissive, what fails without being cut has at least one error, where nothing is unknown: no name of a type or of an action,
/// and no part. So a check that fails without one is a cut, and what passes is derived, in each environment of a policy.
pub fn failures_have_errors()
    ensures well_named { ConditionIsWellNamed }
    ensures failures { FailuresHaveErrors }
    ensures cut { SilentFailureIsCut }
    ensures passing { PassingIsDerived }
    ensures policy { PassingPolicyIsDerived }
{}

/// What is promised of a policy that passes, and of one that is warned to be impossible, follows from what its check comes to.
pub fn passing_is_safe()
    ensures { PromisesAreKept }
{}

/// Which environments some templates are checked in, and that what is warned to be impossible may be true where a slot stands
/// in the rest.
pub fn examples_of_environments()
    ensures environments { EnvironmentsAre }
    ensures rest { SlotsInTheRestAreNot }
    ensures own { OwnEnvMayBeMissing }
{}

/// A policy that passes, in a world that conforms; what a world that conforms may still hold; requests, stores and scopes that
/// the premises leave open; and that each premise on such a policy is needed, in Strict and in Permissive: without it one that
/// passes breaks the promise.
pub fn examples_of_policies()
    ensures met { PolicyPremisesAreMet }
    ensures allows { ConformityAllows }
    ensures left_open { PremisesLeaveOpen }
    ensures needed { PremisesAreNeeded }
{}
