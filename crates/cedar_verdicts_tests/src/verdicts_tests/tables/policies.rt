// Policies in Cedar's own syntax, and the answers.

/// Whole policies, each with the status and the beginning of a line.
pub const POLICIES: [(&str, u8, &str); 31] = [
    (
        "permit(principal, action, resource)\r\n\
         when { principal.age > 3 };\n\
         permit(principal, action, resource)\r\n\
         when { principal.age > 3 };\n",
        0,
        "p:3:1: policy `policy1`: accepted, level 1",
    ),
    (
        "permit(principal, action, resource) when { principal.age > 3 };\n\u{feff}",
        2,
        "p:2:1: fault: `permit` or `forbid` is expected, where `\\u{feff}` is read",
    ),
    (
        "permit(principal, action, resource) when { {gr\u{f6}\u{df}e: 1} has gr\u{f6}\u{df}e };",
        0,
        "p:1:1: policy `policy0`: accepted, level 0",
    ),
    (
        "permit(principal, action is Action, resource);",
        2,
        "p:1:26: fault: `,` is expected, where `is` is read; behind `action` stand `==` and \
         `in` alone, and a condition may",
    ),
    (
        "permit(principal, action == Action::\"vew\", resource);",
        1,
        "policies: 1, accepted: 0, refused: 1, warnings: 0, faults: 0",
    ),
    (
        "permit(principal is Usr, action, resource);",
        1,
        "policies: 1, accepted: 0, refused: 1, warnings: 0, faults: 0",
    ),
    (
        "permit(principal is File, action, resource) when { resource is Usr };",
        1,
        "policies: 1, accepted: 0, refused: 1, warnings: 1, faults: 0",
    ),
    (
        "permit(principal == File::\"a\", action, resource) when { context.n > 1 };",
        0,
        "p:1:1: warning: policy is impossible: it evaluates to false for every valid request",
    ),
    (
        "permit(principal is File, action, resource);",
        0,
        "p:1:1: warning: unable to find an applicable action given the policy scope \
         constraints; no action applies to a principal of the type `File`",
    ),
    (
        r#"permit(principal, action == Action::"view", resource == User::"a");"#,
        0,
        "p:1:1: warning: unable to find an applicable action given the policy scope \
         constraints; `Action::\"view\"` applies to no resource of the type `User`",
    ),
    (
        "permit(principal, action, resource) when { principal.age > 3 };\n\
         permit(principal, action, resource) when { principal.boss.boss.age > 1 };\n\
         permit(principal, action, resource) when { principal.x };\n",
        1,
        "policies: 3, accepted: 2, refused: 1, warnings: 0, faults: 0, level 3",
    ),
    (
        "permit(principal, action, resource) when { User::\"a\".age > 1 };\n\
         permit(principal, action, resource) when { principal.age > 3 };\n",
        0,
        "policies: 2, accepted: 2, refused: 0, warnings: 0, faults: 0, no level is enough",
    ),
    (
        "permit(principal == User \"a\", action, resource);",
        2,
        "p:1:26: fault: `::` is expected, where `\"a\"` is read",
    ),
    (
        "permit(principal, action, resource,);\n",
        0,
        "policies: 1, accepted: 1, refused: 0, warnings: 0, faults: 0",
    ),
    (
        "permit(principal, action in [Action::\"view\",], resource);",
        0,
        "policies: 1, accepted: 1, refused: 0, warnings: 0, faults: 0",
    ),
    (
        "permit(principal, action == User::\"a\", resource);",
        2,
        "p:1:29: fault: the type of an action has to be named `Action`, where `User`",
    ),
    (
        r#"permit(principal, action in [Action::"view", File::"b"], resource);"#,
        2,
        "p:1:46: fault: the type of an action has to be named",
    ),
    (
        "@id(\"admin\u{3164}\") permit(principal, action, resource) when { principal.age > 3 \
         };\n",
        0,
        "p:1:1: policy `admin\\u{3164}`: accepted, level 1",
    ),
    (
        "@id(\"x\") @level(3)\npermit(principal, action, resource);\n",
        2,
        "policies: 0, accepted: 0, refused: 0, warnings: 0, faults: 1",
    ),
    (
        r#"@id("x") # permit
@level("3")
permit(principal, action, resource);
permit(principal, action, resource) when { principal.age > 3 };
"#,
        2,
        "policies: 1, accepted: 1, refused: 0, warnings: 0, faults: 1",
    ),
    (
        "@permit(\"x\") # all\npermit(principal, action, resource);\n",
        2,
        "policies: 0, accepted: 0, refused: 0, warnings: 0, faults: 1",
    ),
    (
        "forbid(principal, action, resource) when { true ; permit(principal, action, \
         resource); };\n",
        2,
        "policies: 0, accepted: 0, refused: 0, warnings: 0, faults: 1",
    ),
    (
        "permit(principal, action, resource) when { [(1 ;\n\
         permit(principal, action, resource) when { principal.age > 3 };\n",
        2,
        "p:2:1: policy `policy1`: accepted, level 1",
    ),
    (
        "permit(principal, action, resource) when { [(1 ;\n\
         @id(\"b\")\n\
         permit(principal, action, resource) when { principal.age > 3 };\n",
        2,
        "p:2:1: policy `b`: accepted, level 1",
    ),
    (
        "permit(principal, action, resource) wen { true; true };\n\
         permit(principal, action, resource) when { principal.age > 3 };\n",
        2,
        "p:1:37: fault: `when`, `unless` or `;` is expected, where `wen` is read",
    ),
    (
        "permit(principal, action, resource) when { true }",
        2,
        "p:1:50: fault: `when`, `unless` or `;` is expected, where the text ends",
    ),
    (
        "permit(principal == User::\"a, action, resource);\n\
         permit(principal == User::\"a, action, resource);\n",
        2,
        "p:2:28: fault: `,` is expected, where `a` is read; the text in quotes before",
    ),
    (
        "permit(principal, action, resource) when { principal.age > 3 };\n\
         [{\"effect\": \"permit\"}]",
        2,
        "p:2:1: fault: `permit` or `forbid` is expected, where `[` is read; JSON is read \
         where a file begins with it",
    ),
    (
        "permit(principal, action, resource);\n\
         // harmless\rforbid(principal, action, resource);\n",
        0,
        "policies: 2, accepted: 2, refused: 0, warnings: 0, faults: 0",
    ),
    (
        r#"@id("a")permit(principal, action, resource) when { principal.age > 3 };
permit(principal, action, resource) when { principal.age > 3 };
@id("a")permit(principal, action, resource) when { principal.age > 3 };
"#,
        1,
        "p:3:1: error: the policy at 1:1 of this file has the same id",
    ),
    (
        r#"permit(principal, action, resource) when { true || foo(1) };
permit(principal, action, resource) when { true || principal.foo(1) };
permit(principal, action, resource) when { true || contains(1, 2) };
permit(principal, action, resource) when { true || isEmpty([1]) };
permit(principal, action, resource) when { true || principal.lower() };
permit(principal, action, resource) when { true || __cedar::ip("1.1.1.1").isIpv4() };
permit(principal, action, resource) when { true || N::ip("1.1.1.1") };
permit(principal, action, resource) when { true || principal("a") };
permit(principal, action, resource) when { principal.age > 3 };
"#,
        2,
        "policies: 1, accepted: 1, refused: 0, warnings: 0, faults: 8",
    ),
];
