// Changes of right steps, each of which makes an expectation wrong. Except in `OUTCOMES` and `UNREAD`, outcomes are right.

/// Changes of the outcome, beside right findings.
pub const OUTCOMES: &str = r#"
? S1 Strict check: 1 == "a"
~ => Success
~ Irrelevant => Fail
~ errors=0 => errors=1
~ => Irrelevant
~ nothing
? S2 Strict check: principal.vip
~ Fail errors=1 => Success
~ Fail => Irrelevant
? S4 principal types: permit(principal == ?principal, action, resource)
~ nothing
~ => user
~ => User,User
? S0 table: f(Long) -> Long
a table
~ => DuplicateFunction
? S3 applies: permit(principal in admins::"a", action, resource)
~ => warning principal=true resource=false
! InvalidActionApplication @ the policy
for policy `policy0`, unable to find an applicable action given the policy scope constraints
? S3 applies: permit(principal == admins::"a", action, resource)
~ => applies
~ principal=true resource=false => principal=false resource=true
~ resource=false => resource=true
~ principal=true => principal=false
? S1 Strict environments: permit(principal in ?principal, action, resource)
~ Success; Success => Success
"#;

/// Changes of errors: one is missing or too many, or has another kind, place or text.
pub const ERRORS: &str = r#"
? S2 Strict check: principal.vip
~ without the last
~ the last twice
~ @ principal.vip => @ principal
~ @ principal.vip => @ the policy
~ @ principal.vip => @ nowhere
~ `vip` => `nick`
~ policy0 => policy1
~ Access Entity => Access Extension
~ Access Entity => Access Entities
~ UnsafeOptional => Unsafe
? S1 Strict check: "a" < "b"
~ without the last
~ @ "b" => @ "a"
~ the last twice
~ the last => UnexpectedType Long String but String @ "b"
for policy `policy0`, unexpected type: expected `Long` or `String` but saw `String`
~ the last => UnexpectedType Long but Entity @ "b"
for policy `policy0`, unexpected type: expected `Long` but saw `User`
? S1 Strict check: principal.ip < principal.ip
~ without the last
~ the last => UnexpectedType Long but Entity @ principal.ip
for policy `policy0`, unexpected type: expected `Long` but saw `ipaddr`
? S1 Strict check: {a: 1} == {a: 1, b: 2}
~ Equality => Contains
~ Record<Long><Long> => Record<Long><Entity>
~ Record<Long><Long> => Record<Long>
~ b: Long => b?: Long
? S1 Strict check: ip("") == principal.ip
~ without the last
~ @ ip("") => @ ip("") == principal.ip
~ argument: empty address => argument:
~ FunctionArgumentValidation => NonLitExtConstructor
? S1 Strict check: ip() == principal.ip
~ expected 1, got 0 => expected 0, got 1
~ the last => UndefinedFunction @ ip()
for policy `policy0`, undefined extension function `ip`
"#;

/// Changes of the finding of a pass.
pub const NAMES: &str = r#"
? S1 entity types: (Unk::"a" < 1) && false
~ without the last
~ the last twice
~ @ Unk => @ Unk::"a"
~ @ Unk => @ nowhere
~ `Unk` => `User`
? S1 action ids: action == Action::"edit"
~ without the last
~ `Action::"edit"` => `Action::"view"`
~ the last => InvalidEnumEntity @ Action::"edit"
for policy `policy0`, entity `Action::"edit"` is not a member of its enumerated type
? S5 enumerated ids: Color::"blue" == Color::"blue"
~ without the last
~ => errors=2
? S4 slot types with User::"a": permit(principal == ?principal, action, resource)
errors=0
~ => errors=0
! UnrecognizedEntityType @ nowhere
for policy `0`, unrecognized entity type `User`
? S4 slot types with Undefined::"foo": permit(principal == ?principal, action, resource)
~ without the last
~ @ nowhere => @ the policy
~ `0` => `policy0`
"#;

/// Changes of a warning or an environment: one is different, missing or too many.
pub const WARNINGS: &str = r#"
? S3 applies: permit(principal in admins::"a", action, resource)
~ => applies
! InvalidActionApplication @ the policy
for policy `policy0`, unable to find an applicable action given the policy scope constraints
? S3 applies: permit(principal == admins::"a", action, resource)
~ without the last
~ @ the policy => @ admins::"a"
? S1 Strict policy: false
true errors=0 warnings=1
! ImpossiblePolicy @ the policy
for policy `policy0`, policy is impossible: it evaluates to false for every valid request
~ without the last
~ @ the policy => @ false
~ ImpossiblePolicy => InvalidActionApplication
? S1 Strict policy: true
true errors=0 warnings=0
~ => true errors=0 warnings=0
! ImpossiblePolicy @ the policy
for policy `policy0`, policy is impossible: it evaluates to false for every valid request
? S1 Strict environments: permit(principal in ?principal, action, resource)
~ without the last
~ the last => User Action::"view" Photo, linked to User and Photo: Success
"#;

/// Steps that cannot be read, or are refused.
pub const UNREAD: &str = r#"
? S9 Strict check: true
Success
? S1 Strict cheque: true
Success
? S1 Strict check
Success
? S1 Strict check: true &&
Success
? S4 slot types with User: permit(principal == ?principal, action, resource)
errors=0
"#;
