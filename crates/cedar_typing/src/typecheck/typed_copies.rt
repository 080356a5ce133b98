//! A typed copy means what the expression means: laws, each on a function that does nothing.
ghost use Rattle.cedar_typing.specs.Examples.CopyPremises.{CopyPremisesAreNeeded};
ghost use Rattle.cedar_typing.specs.Examples.TypedCopies.{CopyExamples};
ghost use Rattle.cedar_typing.specs.TypedCopies.Policies.{ConditionsMeanTheSame};
ghost use Rattle.cedar_typing.specs.TypedCopies.{ChecksMeanTheSame, CopiesMeanTheSame, TypesDoNotMatter};

/// A typed copy evaluates to what the expression evaluates to, whether it has a type or is refused: the
/// same value, or the same failure. The types at its nodes do not matter to that.
pub fn copies_mean_the_same()
    ensures types { TypesDoNotMatter }
    ensures same { CopiesMeanTheSame }
{}

/// So does the typed condition of the check of a condition.
pub fn checks_mean_the_same()
    ensures { ChecksMeanTheSame }
{}

/// Of a policy: in an environment that fits, whatever its slots are linked to, and in the own environment
/// of a request, whatever the slots are bound to, the typed condition evaluates as the template's
/// condition does. One of the checked environments is such.
pub fn conditions_mean_the_same()
    ensures { ConditionsMeanTheSame }
{}

/// A copy from which a part was dropped; and worlds in which a copy evaluates to something else than the
/// expression, since one premise does not hold there. No example shows that the functions have to keep
/// the table, nor in Strict that the table has to be without a fault.
pub fn examples_of_copies()
    ensures copies { CopyExamples }
    ensures premises { CopyPremisesAreNeeded }
{}
