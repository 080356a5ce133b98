// Faults of policies, with their places.
use crate::findings_tests::cases::check;
use cedar_findings::faults::{TextFault, Written, read_fault};
use cedar_reading::{Policies, Position};
use std::alloc::{AllocError, Global};
use std::test::Fail;

/// The text before a condition.
const BEFORE: &str = "permit(principal, action, resource)\nwhen { ";

/// Conditions behind `BEFORE`, with the rest of the text.
const CONDITIONS: [(&str, &str); 43] = [
    (
        "user.a };",
        "2:8: an expression is expected, where `user` is read; there are `principal`, `action`, \
         `resource`, `context`, and ids such as `User::\"ann\"`",
    ),
    (
        "principal.a = 1 };",
        "2:20: `}` is expected, where `=` is read; `==` compares",
    ),
    (
        "principal.a == 'x' };",
        "2:23: a character that begins nothing, where `'` is read; texts stand in double quotes",
    ),
    (
        "not true };",
        "2:8: an expression is expected, where `not` is read; `!` negates",
    ),
    (
        "True };",
        "2:8: an expression is expected, where `True` is read; `true` is written small",
    ),
    (
        "1 < 2 < 3 };",
        "2:14: `}` is expected, where `<` is read; one comparison does not follow another: `&&` \
         joins two",
    ),
    (
        "true and false };",
        "2:13: `}` is expected, where `and` is read; `&&` stands between conditions that both \
         have to hold",
    ),
    (
        "true | false };",
        "2:13: `}` is expected, where `|` is read; `||` stands between conditions of which one \
         has to hold",
    ),
    (
        r#""a\q" };"#,
        r#"2:8: an escape that there is not: there are \" \\ \' \n \r \t \0 \x41 \u{41}, where `"a\q"` is read"#,
    ),
    (
        "\"a };",
        "2:8: a text in quotes that does not end, where `\"a };` is read",
    ),
    (
        "\"a };\n\"b\" };",
        "3:2: `}` is expected, where `b` is read; the text in quotes before it began on another \
         line: it may have lost its end there",
    ),
    (
        "9223372036854775808 };",
        "2:8: a number that does not fit 64 bits, where `9223372036854775808` is read",
    ),
    (
        "{a: 1, a: 2} };",
        "2:15: the same key twice, where `a` is read",
    ),
    (
        "principal.a } when",
        "2:26: `{` is expected, where the text ends",
    ),
    (
        "principal.a }",
        "2:21: `when`, `unless` or `;` is expected, where the text ends",
    ),
    (
        "if true then 1 };",
        "2:23: `else` is expected, where `}` is read",
    ),
    (
        "principal has };",
        "2:22: a text in quotes is expected, where `}` is read",
    ),
    (
        "unknown() };",
        "2:8: one argument is expected, where `unknown` is read",
    ),
    (
        "true && if true then true else true };",
        "2:16: an expression is expected, where `if` is read; an `if` that is a part of something \
         else stands in parentheses",
    ),
    (
        "1 > -9223372036854775809 };",
        "2:12: a number that does not fit 64 bits, where `-9223372036854775809` is read",
    ),
    (
        "principal has a == true };",
        "2:24: `}` is expected, where `==` is read; one comparison does not follow another: `&&` \
         joins two",
    ),
    ("(if true then 1 else 2).a + - 3 .b };", "no fault"),
    ("\"\\u{1_0}\\u{1f_6_00}\" == \"\" };", "no fault"),
    (
        "\"\\u{_1}\" == \"\" };",
        "2:8: an escape that there is not: there are \\\" \\\\ \\' \\n \\r \\t \\0 \\x41 \\u{41}, where \
         `\"\\u{_1}\"` is read",
    ),
    (
        "\"a\rb\" == \"\" };",
        "2:8: a carriage return in a text: `\\r` stands for one, where `\"a\rb\"` is read",
    ),
    (
        "[1, 2).isEmpty() };",
        "2:13: `]` is expected, where `)` is read",
    ),
    (
        "principal has \"a\".b };",
        "2:25: `}` is expected, where `.` is read",
    ),
    (
        "principal has a.if };",
        "2:24: an attribute without quotes that is a word of the language, where `if` is read; it stands as `a[\"b\"]`, `a has \"b\"` or `{\"b\": 1}`",
    ),
    (
        "!-principal.a };",
        "2:9: `!` and `-` side by side, where `-` is read; a parenthesis stands between them, as in `!(-a < b)`",
    ),
    (
        "-!principal.a };",
        "2:9: `!` and `-` side by side, where `!` is read; a parenthesis stands between them, as in `!(-a < b)`",
    ),
    (
        "- - - - -5 == 1 };",
        "2:16: more than four `!` or `-` in a row, where `-5` is read",
    ),
    ("- - - -5 == 1 && !!!!(-1 == 1) };", "no fault"),
    ("-5.x == 1 && - // five\n5[\"x\"] == -5 };", "no fault"),
    (
        "principal.if };",
        "2:18: an attribute without quotes that is a word of the language, where `if` is read; it stands as `a[\"b\"]`, `a has \"b\"` or `{\"b\": 1}`",
    ),
    (
        "principal.in() };",
        "2:18: an attribute without quotes that is a word of the language, where `in` is read; it stands as `a[\"b\"]`, `a has \"b\"` or `{\"b\": 1}`",
    ),
    (
        "principal has in };",
        "2:22: an attribute without quotes that is a word of the language, where `in` is read; it stands as `a[\"b\"]`, `a has \"b\"` or `{\"b\": 1}`",
    ),
    (
        "{a: 1, like: 1} == context };",
        "2:15: an attribute without quotes that is a word of the language, where `like` is read; it stands as `a[\"b\"]`, `a has \"b\"` or `{\"b\": 1}`",
    ),
    (
        "{\"if\": 1}[\"if\"] == 1 && context has \"in\" };",
        "no fault",
    ),
    (
        "\"\\*\" == \"a\" };",
        "2:8: an escape that there is not: there are \\\" \\\\ \\' \\n \\r \\t \\0 \\x41 \\u{41}, where `\"\\*\"` is read",
    ),
    ("\"a\\\\*\" like \"*\\*\\\\*\" };", "no fault"),
    (
        "principal == User::alice };",
        "2:27: an id in quotes is expected, where `alice` is read; ids stand as `User::\"ann\"`, attributes as `a.b`",
    ),
    (
        "principal is in };",
        "2:21: a name that the language keeps for itself, where `in` is read",
    ),
    (
        "in::\"a\" == principal };",
        "2:8: a name that the language keeps for itself, where `in` is read",
    ),
];

/// The fault of the first policy, which has this condition.
fn describe_condition(alloc: Global, condition: &str) -> Result<String, Fail> {
    let text = format!(in alloc; "{BEFORE}{condition}")?;
    fault_of_policy(alloc, text.as_str())
}

#[test]
fn conditions(rt: HostRuntime) -> Result<(), Fail> {
    check(&rt, describe_condition, &CONDITIONS)
}

/// Whole policies.
const POLICIES: [(&str, &str); 27] = [
    (
        "allow(principal);",
        "1:1: `permit` or `forbid` is expected, where `allow` is read",
    ),
    ("permit(principal, action, resource,);", "no fault"),
    (
        "permit(principal, action in [Action::\"a\", N::Action::\"b\",], resource);",
        "no fault",
    ),
    (
        "permit(principal is N :: User, action, resource);",
        "no fault",
    ),
    (
        "permit(principal, action == User::\"a\", resource);",
        "1:29: the type of an action has to be named `Action`, where `User` is read",
    ),
    (
        "permit(principal, action in Action::B::\"a\", resource);",
        "1:29: the type of an action has to be named `Action`, where `Action` is read",
    ),
    (
        "permit(principal, action in [Action::\"a\", User::\"a\"], resource);",
        "1:43: the type of an action has to be named `Action`, where `User` is read",
    ),
    (
        "permit(principal, action, resource,,);",
        "1:36: `)` is expected, where `,` is read",
    ),
    (
        "permit(principal, action);",
        "1:25: `,` is expected, where `)` is read",
    ),
    (
        "permit(principal == User, action, resource);",
        "1:25: `::` is expected, where `,` is read; an id stands as `User::\"ann\"`",
    ),
    (
        "@id(x) permit(principal);",
        "1:5: a text in quotes is expected, where `x` is read",
    ),
    (
        "permit\n(principal in ?resource);",
        "2:16: `principal` is expected, where `resource` is read",
    ),
    (
        "entity User;",
        "1:1: `permit` or `forbid` is expected, where `entity` is read; the schema is the first \
         file, and policies come behind it",
    ),
    (
        "permit(principal == User::alice, action, resource);",
        "1:27: an id in quotes is expected, where `alice` is read; ids stand as `User::\"ann\"`, attributes as `a.b`",
    ),
    (
        "permit(principal == ?user, action, resource);",
        "1:22: `principal` or `resource` is expected, where `user` is read; there are the slots `?principal` and `?resource`, without a blank in them",
    ),
    (
        "permit(principal == ? principal, action, resource);",
        "1:23: `principal` or `resource` is expected, where `principal` is read; there are the slots `?principal` and `?resource`, without a blank in them",
    ),
    (
        "permit(principal, action in [\"view\"], resource);",
        "1:30: the id of an action is expected, where `\"view\"` is read; as in `Action::\"view\"`",
    ),
    (
        "permit(principal is if, action, resource);",
        "1:21: a name that the language keeps for itself, where `if` is read",
    ),
    (
        "permit(principal == N::in::\"a\", action, resource);",
        "1:24: a name that the language keeps for itself, where `in` is read",
    ),
    (
        "permit(principal is __cedar::N, action, resource);",
        "1:21: a name that the language keeps for itself, where `__cedar` is read",
    ),
    (
        "@id(\"a\") @id(\"b\") permit(principal, action, resource);",
        "1:11: the same key twice, where `id` is read",
    ),
    (
        "@if(\"a\") @in permit(principal, action, resource);",
        "no fault",
    ),
    (
        "permit(principal == (User::\"a\"), action in ([(Action::\"a\"), Action::\"b\"]), resource in ((?resource)));",
        "no fault",
    ),
    (
        "permit(principal is User in (?principal), action == ((Action::\"a\")), resource);",
        "no fault",
    ),
    (
        "permit(principal in ([User::\"a\"]), action, resource);",
        "1:22: a name is expected, where `[` is read; only behind `action in` may a list stand",
    ),
    (
        "permit(principal is (User), action, resource);",
        "1:21: a name is expected, where `(` is read",
    ),
    (
        "permit(principal == (User::\"a\", action, resource);",
        "1:31: `)` is expected, where `,` is read",
    ),
];

#[test]
fn policies(rt: HostRuntime) -> Result<(), Fail> {
    check(&rt, fault_of_policy, &POLICIES)
}

/// A text and its number of repetitions, the text in the middle, the text that closes each repetition, and the fault. At most
/// 800 brackets and operators may be begun, so 400 parentheses with an operator in each; and 800 nodes may stand inside each
/// other.
const NESTED: [(&str, usize, &str, &str, &str); 11] = [
    ("(", 799, "true", ")", "no fault"),
    ("(", 800, "true", ")", TOO_DEEP_AT_TRUE),
    ("(true || ", 399, "true", ")", "no fault"),
    (
        "(true || ",
        400,
        "true",
        ")",
        "2:3608: nested too deep: 800 brackets and operators are read inside each other, or 800 links of a chain, \
         where `true` is read",
    ),
    ("(", 400, "true", " || true)", "no fault"),
    ("!!!!(", 159, "!!!!true", ")", "no fault"),
    ("!!!!(", 160, "true", ")", TOO_DEEP_AT_TRUE),
    ("!", 4, "true", "", "no fault"),
    (
        "!",
        5,
        "true",
        "",
        "2:12: more than four `!` or `-` in a row, where `!` is read",
    ),
    ("[", 799, "1", "]", "no fault"),
    ("", 799, "true", " || true", "no fault"),
];

const TOO_DEEP_AT_TRUE: &str =
    "2:808: nested too deep: 800 brackets and operators are read inside each other, or 800 links \
     of a chain, where `true` is read";

#[test]
fn nesting(rt: HostRuntime) -> Result<(), Fail> {
    let alloc = rt.alloc();
    for (before, count, middle, behind, wanted) in &NESTED {
        let mut text = String::from_str(alloc, BEFORE)?;
        for _ in 0..*count {
            text.push_str(before)?;
        }
        text.push_str(middle)?;
        for _ in 0..*count {
            text.push_str(behind)?;
        }
        text.push_str(" };")?;
        let got = fault_of_policy(alloc, text.as_str())?;
        assert_eq!(rt;
            got.as_str(),
            *wanted,
            "for {count} times {before} .. {behind}"
        );
    }
    Ok(())
}

/// Texts that are repeated, with the text before them and behind them, and how often they may stand there.
const REPEATED: [(&str, &str, &str, usize); 3] = [
    (
        "permit(principal, action, resource)",
        " when { true }",
        ";",
        799,
    ),
    (
        "permit(principal, action, resource) when { context has a",
        ".a",
        " };",
        799,
    ),
    (
        "permit(principal, action, resource) when { context",
        ".a",
        " };",
        799,
    ),
];

#[test]
fn repeated_parts(rt: HostRuntime) -> Result<(), Fail> {
    let alloc = rt.alloc();
    for (before, part, behind, most) in &REPEATED {
        for (times, is_read) in [(*most, true), (most.saturating_add(1), false)] {
            let parts = part.repeat(alloc, times)?;
            let text = format!(in alloc; "{before}{parts}{behind}")?;
            let got = fault_of_policy(alloc, text.as_str())?;
            assert_eq!(rt; got.as_str() == "no fault", is_read, "{times} times {part}");
            assert_eq!(rt; got.as_str().contains("nested too deep"), !is_read, "{got}");
        }
    }
    Ok(())
}

/// The fault of the first policy.
fn fault_of_policy(alloc: Global, text: &str) -> Result<String, Fail> {
    let read = match Policies::new(alloc, text) {
        Ok(mut policies) => policies.next_policy(),
        Err(error) => Some(Err(error)),
    };
    match read {
        None => Ok(String::from_str(alloc, "nothing")?),
        Some(Ok(_policy)) => Ok(String::from_str(alloc, "no fault")?),
        Some(Err(error)) => {
            let fault = read_fault(alloc, Written::Policies, text, error)?;
            Ok(describe(alloc, text, &fault)?)
        }
    }
}

/// A fault of a text, and its line and column.
pub fn describe(alloc: Global, text: &str, fault: &TextFault) -> Result<String, AllocError> {
    let Position { line, column } = Position::in_text(text, fault.place.start);
    format!(in alloc; "{line}:{column}: {fault}")
}
