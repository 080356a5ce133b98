//! Laws of the rules of typing and of evaluation, and computed examples of both, each on a function that does nothing.
ghost use Rattle.cedar_typing.specs.Evaluation.Equality.{EqualityIsAnEquivalence, EqualityHasNoOrder};
ghost use Rattle.cedar_typing.specs.Examples.Evaluation.Ancestors.{AncestorExamples};
ghost use Rattle.cedar_typing.specs.Examples.Evaluation.Calls.{PatternExamples, CallExamples, OrderExamples};
ghost use Rattle.cedar_typing.specs.Examples.Evaluation.Entities.{MembershipExamples, AttributeExamples, TagExamples};
ghost use Rattle.cedar_typing.specs.Examples.Evaluation.Leaves.{LeafExamples, TestExamples};
ghost use Rattle.cedar_typing.specs.Examples.Evaluation.Operators.{NumberExamples, EqualityExamples, SetExamples};
ghost use Rattle.cedar_typing.specs.Examples.Permissive.{PermissivePremisesAreMet, WrongBoundIsRefuted, FormIsNeeded};
ghost use Rattle.cedar_typing.specs.Examples.Premises.{PremisesAreMet, PremisesCanFail};
ghost use Rattle.cedar_typing.specs.Examples.Promises.{PromiseExamples, PromisesCanBreak};
ghost use Rattle.cedar_typing.specs.Examples.Rules.Attributes.{HasTyping, GetTyping};
ghost use Rattle.cedar_typing.specs.Examples.Rules.Calls.{CallTyping, ArgumentTyping};
ghost use Rattle.cedar_typing.specs.Examples.Rules.Chains.{ChainTyping};
ghost use Rattle.cedar_typing.specs.Examples.Rules.Check.{CheckTyping};
ghost use Rattle.cedar_typing.specs.Examples.Rules.Records.{RecordTyping};
ghost use Rattle.cedar_typing.specs.Examples.Rules.Sets.{SetTyping};
ghost use Rattle.cedar_typing.specs.Examples.Rules.Conditional.{ConditionalTyping};
ghost use Rattle.cedar_typing.specs.Examples.Rules.Equality.{EqualityTyping, MemberTyping};
ghost use Rattle.cedar_typing.specs.Examples.Rules.Leaves.{LeafTyping};
ghost use Rattle.cedar_typing.specs.Examples.Rules.Membership.{ActionMembershipTyping, MembershipTyping};
ghost use Rattle.cedar_typing.specs.Examples.Rules.Nesting.{NestingTyping};
ghost use Rattle.cedar_typing.specs.Examples.Rules.Numbers.{OperatorTyping, NumberTyping};
ghost use Rattle.cedar_typing.specs.Examples.Rules.ShortCircuit.{AndTyping, OrTyping};
ghost use Rattle.cedar_typing.specs.Examples.Rules.Tags.{HasTagTyping, GetTagTyping};
ghost use Rattle.cedar_typing.specs.Examples.Rules.Unary.{UnaryTyping};
ghost use Rattle.cedar_typing.specs.Examples.Values.{RecordsOfType, SetsOfType, EntitiesOfType, LeavesOfType};
ghost use Rattle.cedar_typing.specs.Rules.Laws.{TypingIsAFunction, RecoveryIsAFunction, CutIsAFunction, OneOfThreeAtMost, OneOfThreeAtLeast, CutIsByDepth, OneVerdictAtMost, OneVerdictAtLeast, ErrorsInAnyOrder};
ghost use Rattle.cedar_typing.specs.Soundness.{TypeSoundness};

/// An expression is derived, recovered and cut in one way at most: with one type, one set of capabilities, one typed expression
/// and one list of errors.
pub fn rules_are_functions()
    ensures typing { TypingIsAFunction }
    ensures recovery { RecoveryIsAFunction }
    ensures cut { CutIsAFunction }
{}

/// An expression is derived, recovered or cut, one of the three and never two. It is cut exactly where a part that is looked at
/// is too deep.
pub fn one_of_three()
    ensures at_most { OneOfThreeAtMost }
    ensures at_least { OneOfThreeAtLeast }
    ensures cut_by_depth { CutIsByDepth }
{}

/// The check of a condition comes to exactly one verdict, save for the order of its errors, and to that one in every order.
pub fn one_verdict()
    ensures at_most { OneVerdictAtMost }
    ensures at_least { OneVerdictAtLeast }
    ensures any_order { ErrorsInAnyOrder }
{}

/// What has a type does not go wrong: type soundness with capabilities, in Strict and in Permissive.
pub fn type_soundness()
    ensures { TypeSoundness }
{}

/// In Permissive, where sets of entity types are united and records joined by width, the premises of type soundness hold of some
/// schema, policy, request and store; and a bound of two records that keeps an attribute of one side alone as required is no
/// bound, nor is one of records in which a name comes twice, which no schema of the program has.
pub fn permissive_premises_are_met()
    ensures met { PermissivePremisesAreMet }
    ensures wrong_bound { WrongBoundIsRefuted }
    ensures form { FormIsNeeded }
{}

/// The premises of type soundness hold of some schema, policy, request and store, and five of them fail of other data.
pub fn premises_are_met()
    ensures met { PremisesAreMet }
    ensures unmet { PremisesCanFail }
{}

/// Which outcomes keep the promises of a check, and which break them: each kind of value, and each failure. And what is promised
/// of a success is false of a condition that goes wrong, and of a policy; what a new warning promises, of a policy that is true.
pub fn examples_of_promises()
    ensures outcomes { PromiseExamples }
    ensures policies { PromisesCanBreak }
{}

/// Which values have a type, and which have not: records that are open or closed, sets, entities of several types, and leaves.
pub fn examples_of_values()
    ensures records { RecordsOfType }
    ensures sets { SetsOfType }
    ensures entities { EntitiesOfType }
    ensures leaves { LeavesOfType }
{}

/// Equality of values, of sets by their members and of records by their keys, is an equivalence.
pub fn equality_of_values()
    ensures equivalence { EqualityIsAnEquivalence }
    ensures order { EqualityHasNoOrder }
{}

/// What the rules say of some small expressions: one for each rule, and one for each way to fail; what is cut at the limit of
/// depth; and what the check of a condition answers.
pub fn examples_of_rules()
    ensures leaves { LeafTyping }
    ensures conjunctions { AndTyping }
    ensures disjunctions { OrTyping }
    ensures unary { UnaryTyping }
    ensures conditionals { ConditionalTyping }
    ensures has_attribute { HasTyping }
    ensures get_attribute { GetTyping }
    ensures chains { ChainTyping }
    ensures action_memberships { ActionMembershipTyping }
    ensures memberships { MembershipTyping }
    ensures has_tag { HasTagTyping }
    ensures get_tag { GetTagTyping }
    ensures operators { OperatorTyping }
    ensures numbers { NumberTyping }
    ensures equality { EqualityTyping }
    ensures members { MemberTyping }
    ensures sets { SetTyping }
    ensures records { RecordTyping }
    ensures calls { CallTyping }
    ensures arguments { ArgumentTyping }
    ensures nesting { NestingTyping }
    ensures checks { CheckTyping }
{}

/// What each form comes to in evaluation, with each kind of failure, and which of several failures comes first.
pub fn examples_of_evaluation()
    ensures leaves { LeafExamples }
    ensures tests { TestExamples }
    ensures numbers { NumberExamples }
    ensures equality { EqualityExamples }
    ensures sets { SetExamples }
    ensures memberships { MembershipExamples }
    ensures ancestors { AncestorExamples }
    ensures attributes { AttributeExamples }
    ensures tags { TagExamples }
    ensures patterns { PatternExamples }
    ensures calls { CallExamples }
    ensures order { OrderExamples }
{}
