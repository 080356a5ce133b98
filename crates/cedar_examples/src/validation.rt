//! Examples of the libraries' promises, and conclusions from their laws, each on a function that
//! does nothing.
ghost use Rattle.cedar_examples.specs.ModeConclusions.{CopiesFailAlike, ImpossibleInBothModes, PartialFindsNoOther, RequiredInBothModes, SilentInBothModes};
ghost use Rattle.cedar_examples.specs.ExpressionPromises.{AnswerExamples, FailureExamples, SuccessExamples};
ghost use Rattle.cedar_examples.specs.PolicyPromises.{BothHalvesAtItsLevel, CopiesOfFaultySchemas, ErrorsBesideLevels, ErrorsOfMembers};

/// Answers of the check of an expression that keep each promise, and answers that break one of them
/// alone.
pub fn examples_of_expression_promises()
    ensures success { SuccessExamples }
    ensures failure { FailureExamples }
    ensures answer { AnswerExamples }
{}

/// Examples of errors beside which a policy keeps its promise; of the two halves of the promise of
/// a required level; and of typed conditions that mean something else, by schemas with a fault.
pub fn examples_of_policy_promises()
    ensures members { ErrorsOfMembers }
    ensures errors { ErrorsBesideLevels }
    ensures level { BothHalvesAtItsLevel }
    ensures copies { CopiesOfFaultySchemas }
{}

/// Conclusions from laws: on failures over parts of a store, and on the modes.
pub fn conclusions_of_laws()
    ensures slices { CopiesFailAlike }
    ensures partial { PartialFindsNoOther }
    ensures impossible { ImpossibleInBothModes }
    ensures required { RequiredInBothModes }
    ensures silent { SilentInBothModes }
{}
