//! The law of typing an expression once, and examples of it, each on a function that does nothing.
ghost use Rattle.cedar_alike.specs.Conditions.{PolicyAgreementIsEnough};
ghost use Rattle.cedar_alike.specs.Examples.{EachPartDecides};
ghost use Rattle.cedar_alike.specs.TypedOnce.{AgreementIsEnough};

/// Two environments that agree on what an expression reads have one answer of inference: one verdict,
/// one typed copy, the same errors in the same order, and the same capabilities. An expression reads
/// the variables and slots that occur in it.
pub fn typed_once()
    ensures { AgreementIsEnough }
{}

/// The condition of a policy has one answer in two environments, by a schema without faults, if they
/// agree on what the rest reads and the scope's tests of the principal and of the resource, and if
/// the scope admits both actions or neither. Both actions are declared, and of one type.
pub fn policy_typed_once()
    ensures { PolicyAgreementIsEnough }
{}

/// The type of each variable and of each slot can decide the type of an expression that reads it. Of
/// `action` the action too can decide it, where two actions are of one type.
pub fn each_part_decides()
    ensures { EachPartDecides }
{}
