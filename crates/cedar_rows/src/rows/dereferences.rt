// The rows on levels, and on the costs of chains of attributes, as texts.

/// A record literal under an access is no dereference.
pub const NO_DEREFERENCE: &str = r#"
? S1 Strict level 0: {foo: principal}.foo is User
errors=0 warnings=0
"#;

/// An attribute of an entity.
pub const ONE_ACCESS: &str = r#"
? S1 Strict level 0: principal.bool
errors=1 warnings=0
! MaximumLevelExceeded @ principal.bool
for policy `policy0`, this policy requires level 1, which exceeds the maximum allowed level (0)
? S1 Strict level 1: principal.bool
errors=0 warnings=0
"#;

/// The literal of the environment's own action may be dereferenced.
pub const ACTION_LITERAL: &str = r#"
? S1 Strict level 0: Action::"view" in action
errors=1 warnings=0
! MaximumLevelExceeded @ Action::"view" in action
for policy `policy0`, this policy requires level 1, which exceeds the maximum allowed level (0)
? S1 Strict level 1: Action::"view" in action
errors=0 warnings=0
"#;

/// A part that an access to a record literal leaves out counts by itself.
pub const OTHER_KEY: &str = r#"
? S1 Strict level 3: {foo: principal, bar: principal.user.user.user.user}.foo.bool
errors=1 warnings=0
! MaximumLevelExceeded @ principal.user.user.user.user
for policy `policy0`, this policy requires level 4, which exceeds the maximum allowed level (3)
? S1 Strict level 4: {foo: principal, bar: principal.user.user.user.user}.foo.bool
errors=0 warnings=0
"#;

/// The greater branch counts.
pub const CONDITIONAL_TARGET: &str = r#"
? S1 Strict level 2: (if principal.bool then principal.user else resource.user.user).bool
errors=1 warnings=0
! MaximumLevelExceeded @ (if principal.bool then principal.user else resource.user.user).bool
for policy `policy0`, this policy requires level 3, which exceeds the maximum allowed level (2)
? S1 Strict level 3: (if principal.bool then principal.user else resource.user.user).bool
errors=0 warnings=0
"#;

/// A literal that is dereferenced is an error, and another literal is none.
pub const ENTITY_LITERALS: &str = r#"
? S1 Strict level 1: {foo: User::"alice", bar: User::"bob"}.foo.bool
errors=1 warnings=0
! LiteralDereferenceTarget @ User::"alice"
for policy `policy0`, entity literals cannot be dereferenced at any level
"#;

/// A part that is never evaluated needs no level.
pub const DROPPED_ACCESS: &str = r#"
? S1 Strict level 0: false && principal.bool
errors=0 warnings=1
! ImpossiblePolicy @ the policy
for policy `policy0`, policy is impossible: it evaluates to false for every valid request
"#;

/// A chain of tests over a record and an entity.
pub const CHAIN_OF_TESTS: &str = r#"
? S1 Strict level 1: principal has nested.user.bool
errors=1 warnings=0
! MaximumLevelExceeded @ principal has nested.user.bool
for policy `policy0`, this policy requires level 2, which exceeds the maximum allowed level (1)
? S1 Strict level 2: principal has nested.user.bool
errors=0 warnings=0
"#;

/// The costs of chains of attributes, from an entity and from a record.
pub const CHAIN_COSTS: &str = r#"
? S1 chain cost: User.user
1
? S1 chain cost: User
0
? S1 chain cost: User.user.bool
2
? S1 chain cost: {user: User}.user
0
? S1 chain cost: {user: User}.user.bool
1
"#;

/// A level that is exceeded, and the greatest that there is.
pub const GREATEST_LEVEL: &str = r#"
? S1 Strict level 2: principal.user.user.user.user.user.bool
errors=1 warnings=0
! MaximumLevelExceeded @ principal.user.user.user.user.user.bool
for policy `policy0`, this policy requires level 6, which exceeds the maximum allowed level (2)
? S1 Strict level 4294967295: principal.user.user.user.user.user.bool
errors=0 warnings=0
"#;

/// The left side of `||` counts even if its right side is True.
pub const LEFT_OF_TRUE: &str = r#"
? S1 Strict level 0: (principal.bool || true) || true
errors=1 warnings=0
! MaximumLevelExceeded @ principal.bool
for policy `policy0`, this policy requires level 1, which exceeds the maximum allowed level (0)
? S1 Strict level 1: (principal.bool || true) || true
errors=0 warnings=0
"#;

/// An access to the value of a record literal at a key: the greatest level is the whole's.
pub const THROUGH_RECORD: &str = r#"
? S1 Strict level 0: {foo: principal.user}.foo.bool
errors=1 warnings=0
! MaximumLevelExceeded @ {foo: principal.user}.foo.bool
for policy `policy0`, this policy requires level 2, which exceeds the maximum allowed level (0)
"#;

/// A chain of tests that ends at an entity, and one that goes beyond it.
pub const CHAINS_FROM_RECORDS: &str = r#"
? S1 Strict level 0: context has nested.user
errors=0 warnings=0
? S1 Strict level 1: {foo: principal.user} has foo.bool
errors=1 warnings=0
! MaximumLevelExceeded @ {foo: principal.user} has foo.bool
for policy `policy0`, this policy requires level 2, which exceeds the maximum allowed level (1)
? S1 Strict level 2: {foo: principal.user} has foo.bool
errors=0 warnings=0
"#;

/// An access in an argument of a call.
pub const ARGUMENT: &str = r#"
? S1 Strict level 0: ip("192.168.0.0").isInRange(principal.ip)
errors=1 warnings=0
! MaximumLevelExceeded @ principal.ip
for policy `policy0`, this policy requires level 1, which exceeds the maximum allowed level (0)
? S1 Strict level 1: ip("192.168.0.0").isInRange(principal.ip)
errors=0 warnings=0
"#;

/// An impossible policy may need a level, because it is evaluated like any other.
pub const IMPOSSIBLE: &str = r#"
? S1 Strict level 0: principal.bool && false
errors=1 warnings=1
! MaximumLevelExceeded @ principal.bool
for policy `policy0`, this policy requires level 1, which exceeds the maximum allowed level (0)
! ImpossiblePolicy @ the policy
for policy `policy0`, policy is impossible: it evaluates to false for every valid request
? S1 Strict level 1: principal.bool && false
errors=0 warnings=1
! ImpossiblePolicy @ the policy
for policy `policy0`, policy is impossible: it evaluates to false for every valid request
"#;

/// Two equal environments give one error.
pub const EQUAL_ENVIRONMENTS: &str = r#"
? S1 Strict level 0: permit(principal in ?principal, action, resource)
errors=1 warnings=0
! MaximumLevelExceeded @ the policy
for policy `policy0`, this policy requires level 1, which exceeds the maximum allowed level (0)
? S1 Strict level 1: permit(principal in ?principal, action, resource)
errors=0 warnings=0
"#;

/// The cost of a long chain of attributes.
pub const LONG_CHAIN: &str = r#"
? S1 chain cost: USER_AND_10000
10000
"#;

/// A long chain of tests.
pub const LONG_CHAIN_OF_TESTS: &str = r#"
? S1 Strict level 299: principal has ATTRIBUTES_300
errors=1 warnings=0
! MaximumLevelExceeded @ principal has ATTRIBUTES_300
for policy `policy0`, this policy requires level 300, which exceeds the maximum allowed level (299)
? S1 Strict level 300: principal has ATTRIBUTES_300
errors=0 warnings=0
"#;

/// A slot in the condition: it is typed, and no level allows to dereference it.
pub const SLOT_IN_CONDITION: &str = r#"
? S1 Strict check: permit(principal == ?principal, action, resource)
Success
? S1 Strict check: permit(principal == ?principal, action, resource) when { ?principal.bool }
Fail errors=1
! UnsafeAttributeAccess AnyEntity @ ?principal.bool
for policy `policy0`, attribute `bool` may be absent from `entity`
? S1 Strict check: permit(principal == ?principal, action, resource) when { ?principal has bool }
Success
? S1 Strict level 5: permit(principal == ?principal, action, resource) when { ?principal has bool }
errors=1 warnings=0
! LiteralDereferenceTarget @ ?principal
for policy `policy0`, entity literals cannot be dereferenced at any level
"#;

/// The least level that is enough for the policies of other rows. It is 0 for a policy that fails,
/// and for one without an environment.
pub const REQUIRED_LEVELS: &str = r#"
? S1 Strict required level: {foo: principal}.foo is User
0
? S1 Strict required level: {foo: principal, bar: principal.user.user.user.user}.foo.bool
4
? S1 Strict required level: (if principal.bool then principal.user else resource.user.user).bool
3
? S1 Strict required level: {foo: User::"alice", bar: User::"bob"}.foo.bool
none
? S1 Strict required level: principal has nested.user.bool
2
? S1 Strict required level: principal.user.user.user.user.user.bool
6
? S0 Strict required level: permit(principal, action, resource)
0
? S2 Strict required level: principal.vip
0
? S1 Strict required level: permit(principal in ?principal, action, resource)
1
"#;

/// Conditionals that a test decides hold one branch twice. Each is walked once, because a walk over
/// both would not end.
pub const SHARED_BRANCHES: &str = r#"
? S1 Strict level 0: ACCESS_UNDER_64
errors=1 warnings=0
! MaximumLevelExceeded @ principal.bool
for policy `policy0`, this policy requires level 1, which exceeds the maximum allowed level (0)
? S1 Strict level 1: ACCESS_UNDER_64
errors=0 warnings=0
"#;

/// An entity of several types is an entity.
pub const UNITED_TYPES: &str = r#"
? S1 Permissive level 2: (if principal.bool then principal.user else resource).user.bool
errors=1 warnings=0
! MaximumLevelExceeded @ (if principal.bool then principal.user else resource).user.bool
for policy `policy0`, this policy requires level 3, which exceeds the maximum allowed level (2)
? S1 Permissive level 3: (if principal.bool then principal.user else resource).user.bool
errors=0 warnings=0
? S1 Permissive level 1: (if principal.bool then principal else resource) has user.bool
errors=1 warnings=0
! MaximumLevelExceeded @ (if principal.bool then principal else resource) has user.bool
for policy `policy0`, this policy requires level 2, which exceeds the maximum allowed level (1)
? S1 Permissive level 2: (if principal.bool then principal else resource) has user.bool
errors=0 warnings=0
"#;
