// Steps on levels and on the costs of chains with wrong expectations, as changes of right ones.

/// Changes of the outcome, beside right findings.
pub const OUTCOMES_AT_LEVELS: &str = r#"
? S1 Strict level 0: {foo: principal}.foo is User
~ errors=0 => errors=1
~ warnings=0 => warnings=1
~ => errors=0
~ => Success
? S1 Strict level 0: principal.bool
~ errors=1 => errors=0
? S1 Strict level 0: permit(principal in ?principal, action, resource)
~ errors=1 => errors=2
? S1 Strict level 0: false && principal.bool
~ warnings=1 => warnings=0
? S1 chain cost: User.user
~ => 0
~ => 2
~ => errors=0
~ nothing
? S1 chain cost: User
~ => 1
? S1 chain cost: User.user.bool
~ => 3
? S1 chain cost: {user: User}.user
~ => 1
? S1 chain cost: {user: User}.user.bool
~ => 0
? S1 Strict required level: principal.bool
1
~ => 0
~ => none
~ => errors=1 warnings=0
? S1 Strict required level: {foo: User::"alice", bar: User::"bob"}.foo.bool
~ => 1
~ => no
"#;

/// Changes of the findings of a level run: one is missing or too many, or has another kind, place or text.
pub const LEVELS: &str = r#"
? S1 Strict level 0: principal.bool
~ without the last
~ the last twice
~ @ principal.bool => @ principal
~ @ principal.bool => @ the policy
~ requires level 1 => requires level 2
~ level (0) => level (1)
~ MaximumLevelExceeded => LiteralDereferenceTarget
? S1 Strict level 1: {foo: User::"alice", bar: User::"bob"}.foo.bool
~ @ User::"alice" => @ User::"bob"
~ @ User::"alice" => @ User::"alice"
for policy `policy0`, entity literals cannot be dereferenced at any level
! LiteralDereferenceTarget @ User::"bob"
? S1 Strict level 0: principal.bool && false
~ without the last
~ => errors=1 warnings=1
! ImpossiblePolicy @ the policy
for policy `policy0`, policy is impossible: it evaluates to false for every valid request
? S1 Strict level 0: permit(principal in ?principal, action, resource)
~ the last twice
? S1 chain cost: User.user
~ => 1
! MaximumLevelExceeded @ the policy
for policy `policy0`, this policy requires level 1, which exceeds the maximum allowed level (0)
"#;

/// Steps that cannot be read.
pub const UNREAD_LEVELS: &str = r#"
? S1 Strict level 4294967296: principal.bool
errors=0 warnings=0
? S1 Strict level one: principal.bool
errors=0 warnings=0
? S1 Strict level: principal.bool
errors=0 warnings=0
? S1 Lenient level 1: principal.bool
errors=0 warnings=0
? S9 chain cost: User.user
1
? S1 Lenient required level: principal.bool
1
? S1 required level: principal.bool
1
"#;
