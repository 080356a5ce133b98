// Conditions of policies, and the answers.

/// The text before a condition.
pub const BEFORE: &str = "permit(principal, action, resource) when { ";

/// The text behind a condition.
pub const BEHIND: &str = " };\n";

/// Conditions between `BEFORE` and `BEHIND`, each with the status and the beginning of a line.
pub const CONDITIONS: [(&str, u8, &str); 40] = [
    (
        "principal.age > - 9223372036854775808 && - - 5 > -\n// five\n5",
        0,
        "p:1:1: policy `policy0`: accepted, level 1",
    ),
    (
        "principal.age > - 9223372036854775809",
        2,
        "p:1:60: fault: a number that does not fit 64 bits, where `- 9223372036854775809` is \
         read",
    ),
    (
        "true && if true then true else true",
        2,
        "p:1:52: fault: an expression is expected, where `if` is read; an `if` that is a part \
         of something else stands in",
    ),
    (
        "isIpv4(ip(\"10.0.0.1\"))",
        2,
        "p:1:44: fault: `isIpv4` is a method: `ip(\"10.0.0.1\").isIpv4()`",
    ),
    (
        "ip // note\n(\"10.0.0.1\").isIpv4()",
        0,
        "p:1:1: policy `policy0`: accepted, level 0",
    ),
    (
        "isIpv4 // c\n(ip(\"1.1.1.1\"))",
        2,
        "p:1:44: fault: `isIpv4` is a method: `ip(\"1.1.1.1\").isIpv4()`",
    ),
    (
        "true || ip(\"1.1.1.1\").ip()",
        2,
        "p:1:52: fault: `ip` is a function: `ip(ip(\"1.1.1.1\"))`",
    ),
    (
        r#""2024-01-01".datetime() == datetime("2024-01-01")"#,
        2,
        "p:1:44: fault: `datetime` is a function: `datetime(\"2024-01-01\")`",
    ),
    (
        r#"ip("10.0.0.1").isInRange(ip("10.0.0.0/8"))"#,
        0,
        "p:1:1: policy `policy0`: accepted, level 0",
    ),
    (
        "principal is Usr",
        1,
        "policies: 1, accepted: 0, refused: 1, warnings: 0, faults: 0",
    ),
    (
        "context.n > 1 && principal is File",
        0,
        "p:1:61: warning: policy is impossible: it evaluates to false for every valid \
         request; this part is never true",
    ),
    (
        "principal.x",
        1,
        "policies: 1, accepted: 0, refused: 1, warnings: 0, faults: 0",
    ),
    (
        "resource::owner == principal",
        2,
        "p:1:54: fault: an id in quotes is expected, where `owner` is read; ids stand as \
         `User::\"ann\"`, attributes as `a.b`",
    ),
    (
        "true::x",
        2,
        "p:1:44: fault: a name that the language keeps for itself, where `true` is read",
    ),
    (
        "(principal is User in principal) is User in principal",
        2,
        "p:1:85: fault: an `is .. in` behind an operand that has one too",
    ),
    (
        "principal == User :: \"a\"",
        0,
        "p:1:1: policy `policy0`: accepted, level 0",
    ),
    (
        r#""\u{6_1}" == "a""#,
        0,
        "policies: 1, accepted: 1, refused: 0, warnings: 0, faults: 0",
    ),
    (
        "\"a\rb\" == \"a\"",
        2,
        "p:1:44: fault: a carriage return in a text: `\\r` stands for one, where",
    ),
    (
        "principal.name == \"\u{202e}\"",
        0,
        "p:1:62: warning: a text with marks of direction, which may be shown in another order",
    ),
    (
        r#"principal != User::"\u{2066}""#,
        0,
        "p:1:57: warning: an id with marks of direction, which may be shown in another order",
    ),
    (
        "[1].contains()",
        2,
        "p:1:48: fault: one argument is expected, where `contains` is read",
    ),
    (
        "[1].contains(1, 2) && true",
        2,
        "p:1:48: fault: one argument is expected, where `contains` is read",
    ),
    (
        "[1].isEmpty(1) && true",
        2,
        "p:1:48: fault: no argument is expected, where `isEmpty` is read",
    ),
    (
        "true || unknown(1)",
        2,
        "p:1:52: fault: the name of an unknown is expected, where `unknown` is read",
    ),
    (
        "true || foo(1)",
        2,
        "p:1:52: fault: undefined extension function `foo`",
    ),
    (
        "true || principal.foo(1)",
        2,
        "p:1:52: fault: undefined extension function `foo`",
    ),
    (
        "true || contains(1, 2)",
        2,
        "p:1:52: fault: undefined extension function `contains`",
    ),
    (
        "true || isEmpty([1])",
        2,
        "p:1:52: fault: undefined extension function `isEmpty`",
    ),
    (
        "true || principal.lower()",
        2,
        "p:1:52: fault: undefined extension function `lower`",
    ),
    (
        "true || __cedar::ip(\"1.1.1.1\").isIpv4()",
        2,
        "p:1:52: fault: undefined extension function `__cedar::ip`",
    ),
    (
        "true || N::ip(\"1.1.1.1\")",
        2,
        "p:1:52: fault: undefined extension function `N::ip`",
    ),
    (
        "true || principal(\"a\")",
        2,
        "p:1:52: fault: undefined extension function `principal`",
    ),
    (
        "true || -5.x == 1",
        0,
        "p:1:1: policy `policy0`: accepted, level 0",
    ),
    (
        "true || -5[\"x\"] == 1",
        0,
        "p:1:1: policy `policy0`: accepted, level 0",
    ),
    (
        "true || --5.x == 1",
        0,
        "p:1:1: policy `policy0`: accepted, level 0",
    ),
    (
        "true || !-5.x",
        2,
        "p:1:53: fault: `!` and `-` side by side, where `-5` is read",
    ),
    (
        "true || -5.contains(1)",
        0,
        "p:1:1: policy `policy0`: accepted, level 0",
    ),
    (
        "true || -9223372036854775808.x",
        2,
        "p:1:53: fault: a number that does not fit 64 bits, where `9223372036854775808` is \
         read",
    ),
    (
        r#""\u{430}dmin" == principal.name"#,
        0,
        "p:1:44: warning: a text with letters of several scripts, of which some may look \
         alike",
    ),
    (
        r#"principal == User::"\u{430}\u{441}\u{435}""#,
        0,
        "p:1:57: warning: an id of letters that look like Latin ones and are others",
    ),
];
