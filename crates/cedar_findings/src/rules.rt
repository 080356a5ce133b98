//! Kinds of findings as the rules of SARIF describe them: the meaning of each, at length, and its remedy.
use crate::codes::Code;

/// The condition for a kind of finding, at length.
pub fn description(code: Code) -> &'static str {
    match code {
        Code::UnknownType => "The policy names an entity type that the schema does not declare.",
        Code::UnknownAction => "The policy names an action that the schema does not declare.",
        Code::UnknownId => {
            "The policy names an id of an enumerated entity type, and the schema does not list that id."
        }
        Code::UnexpectedType => {
            "An operator, a condition or a function takes other types than that of its operand."
        }
        Code::IncompatibleTypes => {
            "Both sides of a comparison, both branches of an `if` or all elements of a set have to \
             agree in their types, and do not."
        }
        Code::UnknownAttribute => {
            "An attribute is read that the type of the entity or record does not declare."
        }
        Code::UnguardedAttribute => {
            "An attribute that may be absent is read where no `has` shows before that it is there. If \
             it is absent, the policy has an error and is not applied."
        }
        Code::UnguardedTag => {
            "A tag is read where no `hasTag` shows before that it is there. If it is absent, the \
             policy has an error and is not applied."
        }
        Code::NoTags => "A tag is read of an entity whose type declares no tags in the schema.",
        Code::UnknownFunction => "A function is called that Cedar and its extensions do not have.",
        Code::ArgumentCount => "A function is called with fewer or more arguments than it takes.",
        Code::BadArgument => {
            "A function makes a value of a text, such as an address or a date, and this text says no \
             such value. The call always has an error."
        }
        Code::EmptySet => {
            "In the mode `strict` a set without elements, `[]`, is refused, because the type of its \
             elements is not known."
        }
        Code::ComputedArgument => {
            "In the mode `strict` a function that makes a value of a text takes a text that is written \
             there, so that validation can read it."
        }
        Code::NoRule => "Validation has no rule for a part, so the policy is refused.",
        Code::Level => {
            "The policy dereferences more entities, one after another, than `--level` allows."
        }
        Code::LiteralTarget => {
            "The policy dereferences an entity that it names itself. With `--level`, a policy may \
             dereference only what it reaches from the request."
        }
        Code::Unchecked => {
            "The parts of the policy are nested too deep to be checked, so the policy is refused."
        }
        Code::SameId => "A policy or an entity has the id of an earlier one in the file.",
        Code::Impossible => {
            "The conditions of the policy are false for each request that the schema allows, so the \
             policy never applies."
        }
        Code::NoAction => {
            "The scope allows types of principals and resources to which no action of the scope applies."
        }
        Code::Direction => {
            "A text, an id or an attribute has characters that change the direction of writing, so that \
             it may be shown in another order than it is compared in."
        }
        Code::LookAlike => {
            "A text, an id or an attribute has letters of several scripts, letters that look like those of \
             Latin, or characters that show nothing, so that a reader may take it for another."
        }
        Code::Environments => {
            "By the newer schema a policy may apply in an environment in which it could not by the older one, \
             or the reverse: an environment is an action with the types of its principal and its resource."
        }
        Code::DataType =>
            "A value in entities or a context has another type than the schema declares.",
        Code::DataMissing => {
            "An entity or a context lacks an attribute that the schema requires, or a declared action \
             is missing."
        }
        Code::DataUndeclared => {
            "Entities or a request have a type, an attribute, a tag or an action that the schema does \
             not declare."
        }
        Code::DataParents => {
            "An entity is in an entity whose type the schema does not allow as its parent, or in itself."
        }
        Code::DataRequest => {
            "The action of a request does not apply to the type of its principal or of its resource."
        }
        Code::Rest => "Only the first hundred findings of a policy or a file of data are shown.",
        Code::Fault => "A text cannot be read as a schema, as policies or as data.",
        Code::File => "A file cannot be read, or the rest of it is not.",
    }
}

/// The remedy for a kind of finding.
pub fn help(code: Code) -> &'static str {
    match code {
        Code::UnknownType => "Correct the name of the type, or declare it in the schema.",
        Code::UnknownAction => "Correct the id of the action, or declare it in the schema.",
        Code::UnknownId =>
            "Use an id that the schema lists, or add this id to the enumerated type.",
        Code::UnexpectedType => "Use a part of the type that the finding says is expected.",
        Code::IncompatibleTypes => "Give all sides the same type.",
        Code::UnknownAttribute => "Correct the name of the attribute, or declare it in the schema.",
        Code::UnguardedAttribute => {
            "Test the attribute before, as in `principal has name && principal.name == \"a\"`."
        }
        Code::UnguardedTag => {
            "Test the tag before, as in `principal.hasTag(\"a\") && principal.getTag(\"a\") == \"b\"`."
        }
        Code::NoTags => "Declare tags for the entity type in the schema, or read an attribute.",
        Code::UnknownFunction => "Correct the name of the function.",
        Code::ArgumentCount => "Call the function with as many arguments as it takes.",
        Code::BadArgument => "Write the text in the form that the function reads.",
        Code::EmptySet => "Write an element, or test with `isEmpty()` whether a set has none.",
        Code::ComputedArgument => "Write the text itself as the argument.",
        Code::NoRule => "Write the part in another way.",
        Code::Level => "Dereference fewer entities, or validate at a higher level.",
        Code::LiteralTarget => "Reach the entity from `principal`, `resource` or `context`.",
        Code::Unchecked => "Split the policy into several policies.",
        Code::SameId => "Give each policy, or each entity, an id of its own.",
        Code::Impossible => "Correct the part that is never true, or remove the policy.",
        Code::NoAction => "Correct the scope, or the `appliesTo` of the action in the schema.",
        Code::Direction => "Remove these characters, unless the text is meant to have them.",
        Code::LookAlike => "Write the text in visible letters of one script.",
        Code::Environments => "Restrict the scope of the policy, if it must not apply there.",
        Code::DataType => "Correct the value, or the type in the schema.",
        Code::DataMissing => "Add what is missing, or make the attribute optional in the schema.",
        Code::DataUndeclared => "Correct the name, or declare it in the schema.",
        Code::DataParents => "Correct the parents, or the `in` of the entity type in the schema.",
        Code::DataRequest => "Correct the request, or the `appliesTo` of the action in the schema.",
        Code::Rest => "Correct the findings that are shown, and validate again.",
        Code::Fault => "Correct the text at this place.",
        Code::File => "See whether the file is there, may be read, and is a text in UTF-8.",
    }
}

/// The page of Cedar's documentation about a kind of finding, as an absolute address.
pub fn page(code: Code) -> &'static str {
    match code {
        // the functions and the texts that they read are listed with the operators
        Code::UnknownFunction | Code::ArgumentCount | Code::BadArgument => {
            "https://docs.cedarpolicy.com/policies/syntax-operators.html"
        }
        Code::Fault | Code::File => "https://docs.cedarpolicy.com/policies/syntax-grammar.html",
        Code::DataType
        | Code::DataMissing
        | Code::DataUndeclared
        | Code::DataParents
        | Code::DataRequest => "https://docs.cedarpolicy.com/auth/entities-syntax.html",
        Code::UnknownType
        | Code::UnknownAction
        | Code::UnknownId
        | Code::UnexpectedType
        | Code::IncompatibleTypes
        | Code::UnknownAttribute
        | Code::UnguardedAttribute
        | Code::UnguardedTag
        | Code::NoTags
        | Code::EmptySet
        | Code::ComputedArgument
        | Code::NoRule
        | Code::Level
        | Code::LiteralTarget
        | Code::Unchecked
        | Code::SameId
        | Code::Impossible
        | Code::NoAction
        | Code::Direction
        | Code::LookAlike
        | Code::Environments
        | Code::Rest => "https://docs.cedarpolicy.com/policies/validation.html",
    }
}
