// The rows on policies in their environments, on names and scopes, and on tables, as texts.

/// A type that is not declared, at a place that is never evaluated. Validation finds it there too.
pub const UNKNOWN_TYPE: &str = r#"
? S1 Strict policy: (Unk::"a" < 1) && false
true errors=0 warnings=1
! ImpossiblePolicy @ the policy
for policy `policy0`, policy is impossible: it evaluates to false for every valid request
? S1 entity types: (Unk::"a" < 1) && false
errors=1
! UnrecognizedEntityType @ Unk
for policy `policy0`, unrecognized entity type `Unk`
"#;

/// A schema without actions has no environment.
pub const NO_ENVIRONMENT: &str = r#"
? S0 Strict policy: permit(principal, action, resource)
true errors=0 warnings=1
! ImpossiblePolicy @ the policy
for policy `policy0`, policy is impossible: it evaluates to false for every valid request
"#;

/// Users may be in users, so the slot is linked to them twice.
pub const REPEATED_ENVIRONMENTS: &str = r#"
? S1 Strict environments: permit(principal in ?principal, action, resource)
Success; Success
! User Action::"view" Photo, linked to User and none: Success
! User Action::"view" Photo, linked to User and none: Success
"#;

/// The action is on users and widgets, and the scope has entities in which they may be.
pub const GROUPS_IN_SCOPE: &str = r#"
? S3 applies: permit(principal == admins::"admin1", action == Action::"act", resource == bin::"bin")
warning principal=true resource=true
! InvalidActionApplication @ the policy
for policy `policy0`, unable to find an applicable action given the policy scope constraints
"#;

/// A literal at the limit of depth, and one beyond it.
pub const NESTING: &str = r#"
? S1 Strict check: TRUE_UNDER_398
Success
? S1 Strict check: TRUE_UNDER_399
Fail errors=0
? S1 Strict policy: TRUE_UNDER_399
false errors=0 warnings=0
"#;

/// A function that returns any entity, and a slot that is bound to an entity of a type that is not
/// declared.
pub const UNKNOWN_TYPE_IN_SLOT: &str = r#"
? S4 table: f() -> entity
BadReturnType
? S4 slot types with Undefined::"foo": permit(principal == ?principal, action, resource)
errors=1
! UnrecognizedEntityType @ nowhere
for policy `0`, unrecognized entity type `Undefined`
"#;

/// A slot may be bound to an entity of any type.
pub const ANY_TYPE: &str = r#"
? S4 principal types: permit(principal == ?principal, action, resource)
User
"#;

/// A type that is not declared, in the scope.
pub const UNKNOWN_TYPE_IN_SCOPE: &str = r#"
? S0 entity types: permit(principal, action, resource == foo_type::"foo_name")
errors=1
! UnrecognizedEntityType @ foo_type
for policy `policy0`, unrecognized entity type `foo_type`
"#;

/// An action that is not declared, in the scope.
pub const UNKNOWN_ACTION_IN_SCOPE: &str = r#"
? S0 action ids: permit(principal, action == Action::"foo_name", resource)
errors=1
! UnrecognizedActionId @ Action::"foo_name"
for policy `policy0`, unrecognized action `Action::"foo_name"`
"#;

/// In Partial the action need not be declared.
pub const UNDECLARED_ACTIONS: &str = r#"
? S1 Partial environments: principal.nope == 1
Fail errors=1; Success
! User Action::"view" Photo, linked to none and none: Fail errors=1
! undeclared: Success
! UnsafeAttributeAccess Entity @ principal.nope
for policy `policy0`, attribute `nope` does not exist on `User`
? S1 Partial policy: principal.nope == 1
false errors=1 warnings=0
! UnsafeAttributeAccess Entity @ principal.nope
for policy `policy0`, attribute `nope` does not exist on `User`
"#;

/// The action is compared with the declared one, and with another, which is found.
pub const UNKNOWN_ACTION: &str = r#"
? S1 Strict check: action == Action::"view"
Success
? S1 Strict check: action == Action::"edit"
Irrelevant errors=0
? S1 Strict policy: action == Action::"edit"
true errors=0 warnings=1
! ImpossiblePolicy @ the policy
for policy `policy0`, policy is impossible: it evaluates to false for every valid request
? S1 action ids: action == Action::"edit"
errors=1
! UnrecognizedActionId @ Action::"edit"
for policy `policy0`, unrecognized action `Action::"edit"`
"#;

/// Functions whose table is refused. Of several faults the first counts.
pub const FAULTY_TABLES: &str = r#"
? S0 table: f() -> {}
BadReturnType
? S0 table: f(..) -> Long
VariadicWithoutArguments
? S0 table: f(Long) -> Long, f(Long) -> Long
DuplicateFunction
? S0 table: f(..) -> Long, f(..) -> Long
VariadicWithoutArguments
"#;

/// Users may be in admins, and a widget equals itself alone.
pub const LINKED_SLOTS: &str = r#"
? S3 Strict environments: permit(principal in ?principal, action, resource == ?resource)
Success; Success
! user Action::"act" widget, linked to admins and widget: Success
! user Action::"act" widget, linked to user and widget: Success
"#;

/// A condition that is False, and has an error.
pub const FALSE_WITH_ERROR: &str = r#"
? S1 Strict policy: (1 + "a") == 2 && false
false errors=1 warnings=1
! UnexpectedType Long but String @ "a"
for policy `policy0`, unexpected type: expected `Long` but saw `String`
! ImpossiblePolicy @ the policy
for policy `policy0`, policy is impossible: it evaluates to false for every valid request
"#;

/// Each occurrence of an id that is no member of its type counts.
pub const NO_MEMBERS: &str = r#"
? S5 enumerated ids: Color::"red" == Color::"blue"
errors=1
! InvalidEnumEntity @ Color::"blue"
for policy `policy0`, entity `Color::"blue"` is not a member of its enumerated type
? S5 enumerated ids: Color::"blue" == Color::"blue"
errors=2
! InvalidEnumEntity @ Color::"blue"
for policy `policy0`, entity `Color::"blue"` is not a member of its enumerated type
! InvalidEnumEntity @ Color::"blue"
for policy `policy0`, entity `Color::"blue"` is not a member of its enumerated type
"#;

/// Scopes that an action fits, or for which `in` might help, or might not.
pub const APPLICATIONS: &str = r#"
? S3 applies: permit(principal in admins::"a", action, resource)
applies
? S3 applies: permit(principal == admins::"a", action, resource)
warning principal=true resource=false
! InvalidActionApplication @ the policy
for policy `policy0`, unable to find an applicable action given the policy scope constraints
? S3 applies: permit(principal, action in [Action::"gone"], resource)
warning principal=false resource=false
! InvalidActionApplication @ the policy
for policy `policy0`, unable to find an applicable action given the policy scope constraints
? S3 applies: permit(principal is user in bin::"b", action, resource)
warning principal=false resource=false
! InvalidActionApplication @ the policy
for policy `policy0`, unable to find an applicable action given the policy scope constraints
"#;

/// The slot is bound to a group, and then to a user.
pub const LINKED_APPLICATIONS: &str = r#"
? S3 applies linked with admins::"a": permit(principal == ?principal, action, resource)
warning principal=true resource=false
! InvalidActionApplication @ the policy
for policy `policy0`, unable to find an applicable action given the policy scope constraints
? S3 applies linked with user::"u": permit(principal == ?principal, action, resource)
applies
"#;

/// Declarations whose schema is refused, as they are given. Of several faults the first counts.
pub const FAULTY_SCHEMAS: &str = r#"
? S0 schema: entity A; entity A;
DuplicateEntityType
? S0 schema: action a; action a;
DuplicateAction
? S0 schema: namespace N { entity Action; }
ActionTypeDeclared
? S0 schema: entity User; action User::"a";
NotAnActionType
? S0 schema: entity A enum [];
EmptyEnum
? S0 schema: entity A { x: Gone };
UnknownType
? S0 schema: action a above [gone];
UnknownActionDescendant
? S0 schema: entity A { x: Never };
VagueType
? S0 schema: entity A above [B]; entity B above [C]; entity C;
DescendantsNotClosed
? S0 schema: entity A { x: Never }; entity A { x: Never };
DuplicateEntityType
"#;

/// A type that is not declared, in a condition.
pub const UNKNOWN_TYPE_AS_OPERAND: &str = r#"
? S1 Strict check: Nope::"a" == principal
Fail errors=0
? S1 Strict check: principal is Nope
Irrelevant errors=0
? S1 Strict check: principal in Nope::"a"
Fail errors=0
? S1 Strict policy: Nope::"a" == principal
false errors=0 warnings=0
? S1 entity types: principal is Nope
errors=1
! UnrecognizedEntityType @ Nope
for policy `policy0`, unrecognized entity type `Nope`
"#;
