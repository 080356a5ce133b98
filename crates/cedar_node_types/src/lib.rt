//! The types at the nodes of typed conditions, for compilers that choose by them, for example a column: each node has a type, and a
//! node that evaluation reaches evaluates to a value of this type. These are laws, each on a function that does nothing.
#![tactic(auto)]

ghost use Rattle.cedar_node_types.specs.Examples.NodeTypes.{NodeTypeExamples};
ghost use Rattle.cedar_node_types.specs.Examples.NodeTypeConclusions.{NodeTypeConclusions};
ghost use Rattle.cedar_node_types.specs.Examples.NodeTypePremises.{TypePremisesAreNeeded};
ghost use Rattle.cedar_node_types.specs.Examples.Reached.{ReachedExamples};
ghost use Rattle.cedar_node_types.specs.NodeTypes.Policies.{ConditionTypesHold};
ghost use Rattle.cedar_node_types.specs.NodeTypes.{CopiesHaveTypes, SuccessesHaveTypes, PassingHaveTypes, CopiesFitTypes, ChecksFitTypes};

/// Each node of the typed copy of an expression that has a type carries a type. So does each node of the typed condition of a
/// success, and of each condition that passes if nothing in it is unknown.
pub fn nodes_have_types()
    ensures copies { CopiesHaveTypes }
    ensures successes { SuccessesHaveTypes }
    ensures passing { PassingHaveTypes }
{}

/// A node of a typed copy that evaluation reaches evaluates to a value of the type at the node, or fails. So does each such
/// node of the typed condition of a check.
pub fn reached_nodes_fit()
    ensures copies { CopiesFitTypes }
    ensures checks { ChecksFitTypes }
{}

/// Of a policy that passes and in which nothing is unknown, each node of each typed condition carries a type. Of each policy, the
/// nodes of its typed conditions that evaluation reaches evaluate to values of their types, or fail.
pub fn condition_types_hold()
    ensures { ConditionTypesHold }
{}

/// Nodes that evaluation reaches, for each form, and nodes that it does not reach. Conditions in which some node has no type,
/// because they have an error, name what is unknown, or are typed for an action that is not declared. And nodes whose value is
/// not of their type, because evaluation does not reach them, or because one premise on the world, the mode, the schema or the table
/// does not hold. And conclusions that need the whole of the laws.
pub fn examples_of_node_types()
    ensures reached { ReachedExamples }
    ensures types { NodeTypeExamples }
    ensures premises { TypePremisesAreNeeded }
    ensures conclusions { NodeTypeConclusions }
{}
