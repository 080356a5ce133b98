// Checks of policies, and questions about them, that are made while memory is refused.
use crate::calls::checks::{InEnvironment, OfValidator, Question};
use crate::calls::types::{PARTIAL, PERMISSIVE, STRICT};

/// Checks of conditions, by the texts that they show.
pub const CHECKS: [(InEnvironment, &str); 4] = [
    (
        InEnvironment::First(STRICT),
        r#"
Typechecker::typecheck_by_single_request_env, one finding | Irrelevant | ONE
Typechecker::typecheck_by_single_request_env, many findings | Irrelevant | MANY
Typechecker::typecheck_by_single_request_env, a slot | Success | KNOWN
Typechecker::typecheck_by_single_request_env, names of no type | Irrelevant | NAMED
Typechecker::typecheck_by_single_request_env, an open if | Success | if context.is_public then principal.vip else resource.owner.vip
Typechecker::typecheck_by_single_request_env, a decided if | Success | if true then principal.vip else principal
Typechecker::typecheck_by_single_request_env, an if that is false | Success | if false then principal else principal.vip
Typechecker::typecheck_by_single_request_env, an if without a bound | Conditional | (if context.is_public then 1 else "a") == 1
Typechecker::typecheck_by_single_request_env, an if that guards | Success | (if principal has nick then principal.nick == "a" else principal has nick) && principal.nick == "a"
Typechecker::typecheck_by_single_request_env, and | Success | principal has nick && resource.owner.vip
Typechecker::typecheck_by_single_request_env, or | Success | (principal has nick || (principal has nick && principal.vip)) && principal.nick == "a"
Typechecker::typecheck_by_single_request_env, not | Success | !(!principal.vip)
Typechecker::typecheck_by_single_request_env, negation | Success | -principal.age == -(-2)
Typechecker::typecheck_by_single_request_env, is empty | UnexpectedType | principal.names.isEmpty() || 1.isEmpty()
Typechecker::typecheck_by_single_request_env, equality | Success | principal == resource.owner
Typechecker::typecheck_by_single_request_env, equality of literals | Success | User::"a" == Photo::"a" || action == Action::"view" || 1 == 2
Typechecker::typecheck_by_single_request_env, equality without a bound | Equality | principal.age == principal.names
Typechecker::typecheck_by_single_request_env, comparison | Success | principal.age < 2 || principal.age <= 3
Typechecker::typecheck_by_single_request_env, comparison of texts | UnexpectedType | principal.names < 1 || "a" <= "b"
Typechecker::typecheck_by_single_request_env, comparison of addresses | Success | principal.ip < principal.boss.ip
Typechecker::typecheck_by_single_request_env, arithmetic | Success | principal.age + 1 - 2 * principal.age == 4
Typechecker::typecheck_by_single_request_env, membership | Success | principal in [User::"a", User::"b"] || resource in Group::"a"
Typechecker::typecheck_by_single_request_env, membership of actions | Success | action in [Action::"all", Action::"view"]
Typechecker::typecheck_by_single_request_env, membership in what is unknown | Fail | principal in Nope::"a" || Action::"gone" in action
Typechecker::typecheck_by_single_request_env, membership in no set of entities | UnexpectedType | principal in [1]
Typechecker::typecheck_by_single_request_env, contains | Success | principal.names.contains("a") && principal.names.containsAll(["a"])
Typechecker::typecheck_by_single_request_env, contains any | Contains | principal.names.containsAny(["a", "b"]) || principal.names.contains(1)
Typechecker::typecheck_by_single_request_env, contains all without a bound | ContainsAnyAll | principal.names.containsAll([1])
Typechecker::typecheck_by_single_request_env, tags | Success | principal.hasTag("t") && principal.getTag("t").vip
Typechecker::typecheck_by_single_request_env, a tag without a guard | UnsafeTagAccess | principal.getTag("t").vip
Typechecker::typecheck_by_single_request_env, tags that are not declared | Irrelevant | resource.hasTag("t") && resource.getTag("t") == 1
Typechecker::typecheck_by_single_request_env, has | Success | principal has nick && principal.nick == "a"
Typechecker::typecheck_by_single_request_env, has of a record | Irrelevant | context has is_public && {a: 1} has b
Typechecker::typecheck_by_single_request_env, an access without a guard | UnsafeOptionalAttributeAccess | principal.nick == "a"
Typechecker::typecheck_by_single_request_env, an undeclared attribute | UnsafeAttributeAccess | principal.gone == 1
Typechecker::typecheck_by_single_request_env, a chain | Success | principal has boss.info.note && principal.boss.info.note == "a"
Typechecker::typecheck_by_single_request_env, a chain that ends | Irrelevant | principal has boss.gone.note
Typechecker::typecheck_by_single_request_env, a chain through a long | UnexpectedType | principal has age.gone
Typechecker::typecheck_by_single_request_env, like | Success | principal has nick && principal.nick like "a*"
Typechecker::typecheck_by_single_request_env, is | Success | principal is User && resource is Photo
Typechecker::typecheck_by_single_request_env, sets | Success | [principal.age, 2].contains(1)
Typechecker::typecheck_by_single_request_env, an empty set | EmptySetForbidden | [].contains(1)
Typechecker::typecheck_by_single_request_env, a set without a bound | IncompatibleTypes | [1, "a", true].contains(1)
Typechecker::typecheck_by_single_request_env, records | Success | {a: principal, b: {c: 1}} == {b: {c: 2}, a: resource.owner}
Typechecker::typecheck_by_single_request_env, a call | Success | ip("a") == principal.ip && principal.ip.isInRange(ip("b"))
Typechecker::typecheck_by_single_request_env, a call that its check refuses | FunctionArgumentValidation | ip("") == principal.ip
Typechecker::typecheck_by_single_request_env, a call without arguments | WrongNumberArguments | ip() == principal.ip
Typechecker::typecheck_by_single_request_env, a call of no literal | NonLitExtConstructor | ip(principal.boss.ip) == principal.ip
Typechecker::typecheck_by_single_request_env, a call of no function | UndefinedFunction | nope(1, "a") == principal.ip
Typechecker::typecheck_by_single_request_env, a call of another type | UnexpectedType | ip("a").isInRange(1)
Typechecker::typecheck_by_single_request_env, a variadic call | UnexpectedType | sum(1, principal.age, "a") == 2
Typechecker::typecheck_by_single_request_env, an unknown | Fail | unknown("u") == principal.ip
Typechecker::typecheck_by_single_request_env, a slot in a condition | UnsafeAttributeAccess | ?principal.vip
"#,
    ),
    (
        InEnvironment::First(PERMISSIVE),
        r#"
Typechecker::typecheck_by_single_request_env, united entities | Success | (if context.is_public then principal else resource) == principal.boss
Typechecker::typecheck_by_single_request_env, united records | Success | (if context.is_public then {a: 1, b: principal} else {a: 2, b: resource, c: 1}).b is User
Typechecker::typecheck_by_single_request_env, an attribute of several types | Success | (if context.is_public then resource else resource).owner.vip
Typechecker::typecheck_by_single_request_env, an attribute of one of two types | may_exist: true | (if context.is_public then principal else resource).owner.vip
Typechecker::typecheck_by_single_request_env, tags of several types | GetTag | (if context.is_public then principal else Group::"a").hasTag("t") && (if context.is_public then principal else Group::"a").getTag("t") == 1
"#,
    ),
    (
        InEnvironment::First(PARTIAL),
        "Typechecker::typecheck_by_single_request_env, what may be there | Fail | principal.nope == 1",
    ),
    (
        InEnvironment::Undeclared,
        r#"Typechecker::typecheck_by_single_request_env, undeclared actions | Success | principal.nope.nick == 1 && context.x && principal.hasTag("a") && principal in [resource] && action in Action::"view""#,
    ),
];

/// Questions about policies.
pub const POLICIES: [(OfValidator, &str); 9] = [
    (
        OfValidator::Shown(Question::Principals),
        "Validator::get_principals_satisfying_constraint | User | NAMED",
    ),
    (
        OfValidator::Shown(Question::Resources),
        "Validator::get_resources_satisfying_constraint | Color | KNOWN",
    ),
    (
        OfValidator::Shown(Question::Application),
        r#"
Validator::validate_template_action_application, that warns | InvalidActionApplication | NAMED
Validator::validate_template_action_application | Ok | KNOWN
"#,
    ),
    (
        OfValidator::Shown(Question::LinkedApplication),
        r#"
Validator::validate_linked_action_application, that warns | InvalidActionApplication | UNKNOWN
Validator::validate_linked_action_application | Ok | KNOWN
"#,
    ),
    (
        OfValidator::Shown(Question::Policy),
        r#"
Validator::validate_policy, of unknown names | InvalidActionApplication | NAMED
Validator::validate_policy, of many findings | ImpossiblePolicy | MANY
"#,
    ),
    (
        OfValidator::Level,
        r#"
Validator::validate_policy_with_level, of level errors | MaximumLevelExceeded | KNOWN
Validator::validate_policy_with_level, of many findings | ImpossiblePolicy | MANY
Validator::validate_policy_with_level, of a target | LiteralDereferenceTarget | permit(principal, action, resource) when { {a: User::"a", b: principal.boss}.a.vip };
"#,
    ),
    (
        OfValidator::Shown(Question::RequiredLevel),
        r#"
Validator::required_level, with a slot | level: 1 | KNOWN
Validator::required_level, of a chain of attributes | level: 2 | permit(principal, action, resource) when { resource has owner.vip };
Validator::required_level, where none is enough | None | permit(principal, action, resource) when { User::"a".vip };
Validator::required_level, of a record | level: 2 | permit(principal, action, resource) when { {a: resource.owner, b: principal.boss}.a.vip };
Validator::required_level, of a conditional | level: 2 | permit(principal, action, resource) when { (if context.is_public then principal else principal.boss).vip };
Validator::required_level, of a tag | level: 2 | permit(principal, action, resource) when { principal.hasTag("t") && principal.getTag("t").vip };
"#,
    ),
    (
        OfValidator::Survey,
        r#"
Validator::survey, with a slot | level: 1 | KNOWN
Validator::survey, of many findings | UnexpectedType | MANY
Validator::survey, of an error in some environments | count: | permit(principal, action, resource) when { resource.owner.vip == 1 };
"#,
    ),
    (
        OfValidator::SurveyedLevel,
        r#"
Survey::level_errors, of level errors | MaximumLevelExceeded | KNOWN
Survey::level_errors, of a target | LiteralDereferenceTarget | permit(principal, action, resource) when { {a: User::"a", b: principal.boss}.a.vip };
"#,
    ),
];
