// The rows on conditions, as texts.

/// An optional attribute is read behind a `has` test, and without one.
pub const GUARDED_ACCESS: &str = r#"
? S2 Strict check: principal has vip && principal.vip
Success
? S2 Strict check: principal.vip
Fail errors=1
! UnsafeOptionalAttributeAccess Entity @ principal.vip
for policy `policy0`, access to optional attribute `vip` on `User` is not guarded
"#;

/// An optional attribute is compared beside a test.
pub const TEST_BESIDE_EQUALITY: &str = r#"
? S2 Strict check: principal has nick || principal.nick == "a"
Fail errors=1
! UnsafeOptionalAttributeAccess Entity @ principal.nick
for policy `policy0`, access to optional attribute `nick` on `User` is not guarded
"#;

/// Literals may differ in type, because they are never equal then. Other sides may not.
pub const SIDES_WITHOUT_BOUND: &str = r#"
? S1 Strict check: 1 == "a"
Irrelevant errors=0
? S1 Strict check: context.user == "a"
Fail errors=1
! IncompatibleTypes String Entity in Equality @ context.user == "a"
for policy `policy0`, the types `String`, `User` are not compatible
? S1 Strict check: [].contains(1)
Fail errors=1
! EmptySetForbidden @ []
for policy `policy0`, empty set literals are forbidden
"#;

/// Calls that are wrong, each in another way.
pub const WRONG_CALLS: &str = r#"
? S1 Strict check: ip(principal.other) == principal.ip
Fail errors=1
! NonLitExtConstructor @ ip(principal.other)
for policy `policy0`, extension constructors take literals alone
? S1 Strict check: ip("") == principal.ip
Fail errors=1
! FunctionArgumentValidation @ ip("")
for policy `policy0`, invalid argument: empty address
? S1 Strict check: ip() == principal.ip
Fail errors=1
! WrongNumberArguments @ ip()
for policy `policy0`, wrong number of arguments: expected 1, got 0
? S1 Strict check: nope(1) == principal.ip
Fail errors=1
! UndefinedFunction @ nope(1)
for policy `policy0`, undefined extension function `nope`
"#;

/// A tag is read behind a test, and without one. A type that declares no tags has none.
pub const TAGS: &str = r#"
? S1 Strict check: principal.hasTag("t") && principal.getTag("t").bool
Success
? S1 Strict check: principal.getTag("t").bool
Fail errors=1
! UnsafeTagAccess Entity @ principal.getTag("t")
for policy `policy0`, access to a tag of `User` is not guarded
? S1 Strict check: resource.hasTag("t")
Irrelevant errors=0
"#;

/// Forms that let a test of one part guard a read in another, and forms that do not.
pub const GUARDING_FORMS: &str = r#"
? S2 Strict check: principal has vip || principal.vip
Fail errors=1
! UnsafeOptionalAttributeAccess Entity @ principal.vip
for policy `policy0`, access to optional attribute `vip` on `User` is not guarded
? S2 Strict check: if principal has vip then principal.vip else false
Success
? S2 Strict check: !(principal has vip) || principal.vip
Fail errors=1
! UnsafeOptionalAttributeAccess Entity @ principal.vip
for policy `policy0`, access to optional attribute `vip` on `User` is not guarded
? S2 Strict check: (principal has vip || true) && principal.vip
Fail errors=1
! UnsafeOptionalAttributeAccess Entity @ principal.vip
for policy `policy0`, access to optional attribute `vip` on `User` is not guarded
? S2 Strict check: principal has vip && ((principal.bool || principal has vip) && principal.vip)
Success
"#;

/// Guards that are conditionals.
pub const CONDITIONAL_GUARDS: &str = r#"
? S2 Strict check: (if true then principal has vip else false) && principal.vip
Success
? S2 Strict check: (if false then true else principal has vip) && principal.vip
Success
? S2 Strict check: (if principal.bool then principal has vip else false) && principal.vip
Fail errors=1
! UnsafeOptionalAttributeAccess Entity @ principal.vip
for policy `policy0`, access to optional attribute `vip` on `User` is not guarded
"#;

/// Operators on operands that they accept, and on other operands.
pub const OPERATORS: &str = r#"
? S1 Strict check: 1 < 2
Success
? S1 Strict check: "a" < 1
Fail errors=1
! UnexpectedType Long but String @ "a"
for policy `policy0`, unexpected type: expected `Long` but saw `String`
? S1 Strict check: "a" < "b"
Fail errors=2
! UnexpectedType Long but String @ "a"
for policy `policy0`, unexpected type: expected `Long` but saw `String`
! UnexpectedType Long but String @ "b"
for policy `policy0`, unexpected type: expected `Long` but saw `String`
? S1 Strict check: [1, "a"].contains(1)
Fail errors=1
! IncompatibleTypes Long String in Set @ [1, "a"]
for policy `policy0`, the types `Long`, `String` are not compatible
? S1 Strict check: principal == resource
Irrelevant errors=0
? S1 Strict check: principal is User
Success
? S1 Strict check: {a: 1} == {a: 1, b: 2}
Fail errors=1
! IncompatibleTypes Record<Long> Record<Long><Long> in Equality @ {a: 1} == {a: 1, b: 2}
for policy `policy0`, the types `{a: Long}`, `{a: Long, b: Long}` are not compatible
"#;

/// Entities are in others as far as their types allow it, and actions as the schema says.
pub const MEMBERSHIPS: &str = r#"
? S3 Strict check: principal in admins::"x"
Success
? S3 Strict check: principal in bin::"b"
Irrelevant errors=0
? S3 Strict check: action in Action::"act"
Success
? S3 Strict check: Action::"act" in [user::"u"]
Irrelevant errors=0
? S3 Strict check: action in Action::"none"
Fail errors=0
? S3 Strict check: principal in [admins::"x", bin::"b"]
Fail errors=1
! IncompatibleTypes Entity Entity in Set @ [admins::"x", bin::"b"]
for policy `policy0`, the types `admins`, `bin` are not compatible
"#;

/// A chain goes on from records and entities alone, and is False if an attribute is not declared.
pub const CHAINS: &str = r#"
? S2 Strict check: principal has user.vip && principal.user.vip
Success
? S2 Strict check: principal has vip.x
Fail errors=1
! UnexpectedType Record AnyEntity but Bool @ principal has vip.x
for policy `policy0`, unexpected type: expected `{..}` or `entity` but saw `Bool`
? S2 Strict check: context has nested.user
Success
? S2 Strict check: context has nope.user
Irrelevant errors=0
? S2 Strict check: principal has user.nope && principal.user
Irrelevant errors=0
? S2 Strict check: principal has vip.x.y
Fail errors=1
! UnexpectedType Record AnyEntity but Bool @ principal has vip.x.y
for policy `policy0`, unexpected type: expected `{..}` or `entity` but saw `Bool`
"#;

/// A variadic function, and comparisons of addresses, with a table that orders them and with one that does not.
pub const VARIADIC_CALLS: &str = r#"
? S1 X2 Strict check: sum(1) == 1
Success
? S1 X2 Strict check: sum(1, 2, 3) == 1
Success
? S1 X2 Strict check: sum() == 1
Fail errors=1
! WrongNumberArguments @ sum()
for policy `policy0`, wrong number of arguments: expected 1, got 0
? S1 X2 Strict check: sum(1, "a") == 1
Fail errors=1
! UnexpectedType Long but String @ "a"
for policy `policy0`, unexpected type: expected `Long` but saw `String`
? S1 X2 Strict check: principal.ip < principal.ip
Success
? S1 Strict check: principal.ip < principal.ip
Fail errors=2
! UnexpectedType Long but Extension @ principal.ip
for policy `policy0`, unexpected type: expected `Long` but saw `ipaddr`
! UnexpectedType Long but Extension @ principal.ip
for policy `policy0`, unexpected type: expected `Long` but saw `ipaddr`
"#;

/// In Permissive entity types unite, and records keep the attributes that they share.
pub const PERMISSIVE_BOUNDS: &str = r#"
? S1 Permissive check: (if principal.bool then principal else resource).user is User
Success
? S1 Permissive check: (if principal.bool then principal else resource).bool
Fail errors=1
! UnsafeAttributeAccess Entities @ (if principal.bool then principal else resource).bool
for policy `policy0`, attribute `bool` may be absent from `Photo|User`
? S1 Permissive check: [].contains(1)
Success
? S1 Permissive check: {a: 1} == {a: 1, b: 2}
Success
? S1 Permissive check: (if principal.bool then {a: 1} else {a: 1, b: 2}).a == 1
Success
? S1 Strict check: (if principal.bool then principal else resource).user is User
Fail errors=1
! IncompatibleTypes Entity Entity in Conditional @ if principal.bool then principal else resource
for policy `policy0`, the types `Photo`, `User` are not compatible
"#;

/// A part that is nested too deep has a place that is never visited.
pub const DEEP_UNVISITED: &str = r#"
? S1 Strict check: false && TRUE_UNDER_450
Irrelevant errors=0
? S1 Strict check: true || TRUE_UNDER_450
Success
? S1 Strict check: if true then true else TRUE_UNDER_450
Success
"#;

/// A part that is nested too deep stands before parts with errors, which are visited in some forms and not in others.
pub const DEEP_BESIDE_ERRORS: &str = r#"
? S1 Strict check: TRUE_UNDER_450 == (1 + "a")
Fail errors=1
! UnexpectedType Long but String @ "a"
for policy `policy0`, unexpected type: expected `Long` but saw `String`
? S1 Strict check: (TRUE_UNDER_450 + (1 + "a")) == 2
Fail errors=0
? S1 Strict check: [1, "a", TRUE_UNDER_450, 1 + "b"].isEmpty()
Fail errors=2
! IncompatibleTypes Long String in Set @ [1, "a", TRUE_UNDER_450, 1 + "b"]
for policy `policy0`, the types `Long`, `String` are not compatible
! UnexpectedType Long but String @ "b"
for policy `policy0`, unexpected type: expected `Long` but saw `String`
? S1 Strict check: {a: TRUE_UNDER_450, b: 1 + "a"} has a
Fail errors=0
? S1 Strict check: nope(TRUE_UNDER_450)
Fail errors=1
! UndefinedFunction @ nope(TRUE_UNDER_450)
for policy `policy0`, undefined extension function `nope`
? S1 Strict check: if principal.bool then TRUE_UNDER_450 else (1 + "a") == 2
Fail errors=1
! UnexpectedType Long but String @ "a"
for policy `policy0`, unexpected type: expected `Long` but saw `String`
"#;
