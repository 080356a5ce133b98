// Mistakes in conditions, and the hints.

/// The schema of these conditions.
pub const HINT_SCHEMA: &str = r#"entity Job enum ["internal", "external"];
entity List;
entity Photo, Video in [List] { isPublic: Bool, owner: User, job: Job, meta: { a: Long, b: String }, price: decimal };
entity User in [List] { vip?: Bool, name: String, tags: Set<String>, home: { zip?: String, city: String }, "a b"?: Long } tags String;
action view appliesTo { principal: User, resource: [Photo, Video], context: { n: Long, now: datetime, f: Bool } };
namespace App { entity Doc; action share appliesTo { principal: User, resource: Doc }; }
"#;

/// Conditions, and the errors and warnings against each, with the hints.
pub const HINTS: [(&str, &[&str]); 50] = [
    (
        "resource.isPubic",
        &["attribute `isPubic` does not exist on `Photo`; did you mean `isPublic`?"],
    ),
    (
        "principal.nothing",
        &["attribute `nothing` does not exist on `User`"],
    ),
    (
        "principal.vip",
        &[
            "access to optional attribute `vip` on `User` is not guarded; `has` may guard it, as \
             in `principal has vip && principal.vip`",
        ],
    ),
    (
        "resource.owner[\"vip\"]",
        &[
            "access to optional attribute `vip` on `User` is not guarded; `has` may guard it, as \
             in `resource.owner has vip && resource.owner[\"vip\"]`",
        ],
    ),
    (
        "principal[\"a b\"] > 1",
        &[
            r#"access to optional attribute `a b` on `User` is not guarded; `has` may guard it, as in `principal has "a b" && principal["a b"]`"#,
        ],
    ),
    (
        "principal.home.zip == \"1\"",
        &[
            "access to optional attribute `zip` on `{city: String, zip?: String}` is not guarded; \
             `has` may guard it, as in `principal.home has zip && principal.home.zip`",
        ],
    ),
    (
        r#"resource.owner.getTag("a") == "x""#,
        &[
            r#"access to a tag of `User` is not guarded; `hasTag` may guard it, as in `resource.owner.hasTag("a") && resource.owner.getTag("a")`"#,
        ],
    ),
    (
        r#"resource.getTag("a") == "x""#,
        &["access to a tag of `Photo` is not guarded; the schema declares no tags for `Photo`"],
    ),
    (
        "principal is Lst",
        &["unrecognized entity type `Lst`; did you mean `List`?"],
    ),
    (
        "resource is Doc",
        &["unrecognized entity type `Doc`; did you mean `App::Doc`?"],
    ),
    (
        "action in [Action::\"veiw\"]",
        &[r#"unrecognized action `Action::"veiw"`; did you mean `Action::"view"`?"#],
    ),
    (
        "action == Action::\"Action::view\"",
        &[r#"unrecognized action `Action::"Action::view"`; did you mean `Action::"view"`?"#],
    ),
    (
        "action == Action::\"share\"",
        &[r#"unrecognized action `Action::"share"`; did you mean `App::Action::"share"`?"#],
    ),
    (
        "resource.job == Job::\"intern\"",
        &[
            r#"entity `Job::"intern"` is not a member of its enumerated type; did you mean `Job::"internal"`?"#,
        ],
    ),
    (
        "resource.job == Job::\"x\"",
        &[
            "entity `Job::\"x\"` is not a member of its enumerated type; there are `internal`, \
             `external`",
        ],
    ),
    (
        "resource.job == \"internal\"",
        &[
            "the types `String`, `Job` are not compatible; both sides of `==` have to be of one \
             type; did you mean `Job::\"internal\"`?",
        ],
    ),
    (
        "resource.meta == {a: 1}",
        &[
            "the types `{a: Long}`, `{a: Long, b: String}` are not compatible; both sides of `==` \
             have to be of one type: one of the records lacks `b`",
        ],
    ),
    (
        "resource.meta == {a: 1, b: 2}",
        &[
            "the types `{a: Long, b: Long}`, `{a: Long, b: String}` are not compatible; both \
             sides of `==` have to be of one type: `b` is `Long` in one of the records and \
             `String` in the other",
        ],
    ),
    (
        "[1, \"a\"].isEmpty()",
        &[
            "the types `Long`, `String` are not compatible; the elements of a set have to be of \
             one type",
        ],
    ),
    (
        "(if context.f then 1 else \"a\") == 1",
        &[
            "the types `Long`, `String` are not compatible; both branches of an `if` have to be \
             of one type",
        ],
    ),
    (
        "principal.name.contains(\"a\")",
        &[
            "unexpected type: expected `Set` but saw `String`; `like` looks into a text: \
             `principal.name like \"*a*\"`",
        ],
    ),
    (
        "principal.tags has \"a\"",
        &[
            "unexpected type: expected `{..}` or `entity` but saw `Set<String>`; `contains` looks \
             into a set: `principal.tags.contains(\"a\")`",
        ],
    ),
    (
        "\"a\" in principal.tags",
        &[
            "unexpected type: expected `entity` but saw `String`; `contains` looks into a set: \
             `principal.tags.contains(\"a\")`",
            "unexpected type: expected `Set<entity>` or `entity` but saw `Set<String>`; \
             `contains` looks into a set: `principal.tags.contains(\"a\")`",
        ],
    ),
    (
        "principal.name in [\"admin\"]",
        &[
            "unexpected type: expected `entity` but saw `String`; `contains` looks into a set: \
             `[\"admin\"].contains(principal.name)`",
            "unexpected type: expected `Set<entity>` or `entity` but saw `Set<String>`; \
             `contains` looks into a set: `[\"admin\"].contains(principal.name)`",
        ],
    ),
    (
        "!principal == resource.owner",
        &[
            "the types `Bool`, `User` are not compatible; both sides of `==` have to be of one type",
            "unexpected type: expected `Bool` but saw `User`; `!` negates `principal` alone: did \
             you mean `principal != resource.owner`?",
        ],
    ),
    (
        "context.now < datetime(\"2024-01-01T00:00:00\")",
        &[
            "invalid argument: `datetime` cannot read `2024-01-01T00:00:00`; a time of the day \
             has its zone behind it: `datetime(\"2024-01-01T00:00:00Z\")`",
        ],
    ),
    (
        "resource is Animal",
        &[
            "unrecognized entity type `Animal`; the schema declares `Job`, `List`, `Photo`, \
             `Video`, `User`, `App::Doc`",
        ],
    ),
    (
        "action == Action::\"remove\"",
        &[
            "unrecognized action `Action::\"remove\"`; the schema declares `Action::\"view\"`, \
             `App::Action::\"share\"`",
        ],
    ),
    (
        "principal in \"ann\"",
        &[
            "unexpected type: expected `Set<entity>` or `entity` but saw `String`; an entity has \
             its type before it, as `User::\"ann\"`",
        ],
    ),
    (
        "context.n + \"x\" == 1",
        &[
            "unexpected type: expected `Long` but saw `String`; numbers alone are reckoned with: \
             texts cannot be joined",
        ],
    ),
    (
        "context.n < \"3\"",
        &["unexpected type: expected `Long` but saw `String`; numbers stand without quotes"],
    ),
    (
        "context.now > \"2024-01-01\"",
        &[
            "unexpected type: expected `datetime` but saw `String`; a time is written \
             `datetime(\"2024-01-01\")`",
        ],
    ),
    (
        "principal.name < principal.name",
        &[
            "unexpected type: expected `Long` or `datetime` or `duration` but saw `String`; texts \
             have no order: `==` and `like` are there for them",
            "unexpected type: expected `Long` or `datetime` or `duration` but saw `String`; texts \
             have no order: `==` and `like` are there for them",
        ],
    ),
    (
        "resource.price < resource.price",
        &[
            "unexpected type: expected `Long` or `datetime` or `duration` but saw `decimal`; \
             decimals are compared by `.lessThan()`, `.greaterThan()` and the like",
            "unexpected type: expected `Long` or `datetime` or `duration` but saw `decimal`; \
             decimals are compared by `.lessThan()`, `.greaterThan()` and the like",
        ],
    ),
    (
        "contains(principal.tags, \"a\")",
        &[
            "undefined extension function `contains`; it is a method: \
             `principal.tags.contains(\"a\")`",
        ],
    ),
    (
        "isEmpty(principal.tags)",
        &["undefined extension function `isEmpty`; it is a method: `principal.tags.isEmpty()`"],
    ),
    (
        "principal.tags.contain(\"a\")",
        &["undefined extension function `contain`; did you mean `contains`?"],
    ),
    (
        "principal.name.startsWith(\"a\")",
        &[
            "undefined extension function `startsWith`; `like` looks into a text: `principal.name \
             like \"a*\"`",
        ],
    ),
    (
        "principal.tags.size() > 1",
        &[
            "undefined extension function `size`; there are no sizes; `.isEmpty()` asks whether a \
             set has no elements",
        ],
    ),
    (
        "context.n == 1.5",
        &[
            "a name is expected, where `5` is read; numbers are whole, and `decimal(\"1.5\")` has \
             a fraction",
        ],
    ),
    (
        "context.n == -12.25",
        &[
            "a name is expected, where `25` is read; numbers are whole, and `decimal(\"12.25\")` \
             has a fraction",
        ],
    ),
    (
        "context.n == 1.00005",
        &["a name is expected, where `00005` is read; numbers are whole"],
    ),
    (
        "{a-b: 1} == {}",
        &[
            "`:` is expected, where `-` is read; a key that is no word stands in quotes, as \
             `\"a-b\"`",
        ],
    ),
    (
        "principal has ownr",
        &[
            "policy is impossible: it evaluates to false for every valid request; this part is \
             never true",
        ],
    ),
    (
        "principal has nam && principal.name == \"x\"",
        &[
            "policy is impossible: it evaluates to false for every valid request; this part is \
             never true: did you mean `name`?",
        ],
    ),
    (
        "resource.meta has b && context has nwo",
        &[
            "policy is impossible: it evaluates to false for every valid request; this part is \
             never true: did you mean `now`?",
        ],
    ),
    (
        "true || principal.nme.lower()",
        &[
            "undefined extension function `lower`; there are `contains`, `containsAll`, \
             `containsAny`, `isEmpty`, `hasTag`, `getTag`, and the functions of the extensions",
        ],
    ),
    (
        "true || App::ip(\"1.1.1.1\")",
        &["undefined extension function `App::ip`; `ip` stands without a path"],
    ),
    (
        "something(1)",
        &[
            "undefined extension function `something`; there are `contains`, `containsAll`, \
             `containsAny`, `isEmpty`, `hasTag`, `getTag`, and the functions of the extensions",
        ],
    ),
    (
        "principal.tags == []",
        &[
            "empty set literals are forbidden; the type of its elements is not known; \
             `.isEmpty()` asks whether a set has none",
        ],
    ),
];
