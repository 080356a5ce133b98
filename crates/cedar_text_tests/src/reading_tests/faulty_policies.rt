// Texts of several policies, some of which have a fault.
use crate::reading_tests::shown::show;
use std::alloc::{AllocError, Global};
use std::test::Fail;

/// Texts with the fault of each case in the first policy, and the words for it.
const FIRST: [(&str, &str); 16] = [
    ("", ""),
    ("permit", "policy0 0..6 !6 ( is expected: permit"),
    (
        "allow(principal, action, resource);",
        "policy0 0..35 !0 `permit` or `forbid` is expected:",
    ),
    (
        "@id(\"a\") @b @c(",
        "a 0..15 !15 a text in quotes is expected: @id=a @b=",
    ),
    (
        "@id(\"a\") @b forbid[",
        "a 0..19 !18 ( is expected: @id=a @b= forbid",
    ),
    (
        "@id(\"a\") @id(\"b\") forbid[",
        "a 0..25 !10 the same key twice: @id=a",
    ),
    (
        "forbid(principal = A::\"a\");",
        "policy0 0..27 !17 , is expected: forbid principal",
    ),
    (
        "forbid(principal == );",
        "policy0 0..22 !20 a name is expected: forbid",
    ),
    (
        "permit(principal in ?principal, action in [Action::\"a\", B",
        "policy0 0..57 !57 :: is expected: permit principal in ?",
    ),
    (
        "permit(principal is A in A::\"b\", action in [Action::\"a\"]);",
        "policy0 0..58 !56 , is expected: permit principal is A in A::\"b\" action in 1",
    ),
    (
        "permit(principal, action == A::\"a\", resource);",
        "policy0 0..46 !28 the type of an action has to be named `Action`: permit principal action == A::\"a\" resource",
    ),
    (
        "permit(principal, action, resource is R) when true;",
        "policy0 0..51 !46 { is expected: permit principal action resource is R",
    ),
    (
        "permit(principal, action, resource)",
        "policy0 0..35 !35 `when`, `unless` or `;` is expected: permit principal action resource",
    ),
    (
        "permit(principal, action, resource) when { };",
        "policy0 0..45 !43 an expression is expected: permit principal action resource",
    ),
    (
        "permit(principal, action, resource) when { 1 } unless { 2 } when { 3 < };",
        "policy0 0..73 !71 an expression is expected: permit principal action resource when when { 1 } unless { 2 } left 3",
    ),
    (
        "permit(principal, action, resource) when { 1 } unless { 2 };;",
        "policy0 0..60 permit\npolicy1 60..61 !60 `permit` or `forbid` is expected:",
    ),
];

#[test]
fn parts_before_a_fault_are_kept(rt: HostRuntime) -> Result<(), Fail> {
    for (text, want) in &FIRST {
        let got = show(rt.alloc(), text)?;
        assert!(rt; got.trim_end() == *want, "{text}: {got}");
    }
    Ok(())
}

/// Three policies on lines of their own, the second of which is this one.
fn between_two(alloc: Global, second: &str) -> Result<String, AllocError> {
    let policy = "permit(principal, action, resource);";
    show(
        alloc,
        format!(in alloc; "{policy}\n{second}\n@id(\"last\")\n{policy}")?.as_str(),
    )
}

/// Texts between two policies, and their lines.
const BETWEEN: [(&str, &str); 6] = [
    (
        "forbid(principal, action, resource) when { principal. };",
        "policy1 37..93 !91 a name is expected: forbid principal action resource left principal",
    ),
    (
        "forbid(principal, action, resource) when { principal.",
        "policy1 37..90 !91 a name is expected: forbid principal action resource left principal",
    ),
    (
        "forbid(principal, action, resource) when { a.b",
        "policy1 37..83 !80 an expression is expected: forbid principal action resource",
    ),
    (
        "forbid(principal, action,",
        "policy1 37..62 !63 resource is expected: forbid principal action",
    ),
    (
        "forbid(principal, action, resource) when { 1 + 2",
        "policy1 37..85 !86 } is expected: forbid principal action resource left 1 + 2",
    ),
    (
        "@id(\"x\") forbid(principal, action, resource) when { true } when { false",
        "x 37..108 !109 } is expected: @id=x forbid principal action resource when true left false",
    ),
];

#[test]
fn policies_around_a_fault_are_read(rt: HostRuntime) -> Result<(), Fail> {
    let alloc = rt.alloc();
    for (second, want) in &BETWEEN {
        let got = between_two(alloc, second)?;
        let last = 37usize.saturating_add(second.len()).saturating_add(1);
        let end = last.saturating_add(48);
        let all = format!(in alloc; "policy0 0..36 permit\n{want}\nlast {last}..{end} permit\n")?;
        assert!(rt; got == all, "{got}");
    }
    Ok(())
}

#[test]
fn a_policy_behind_an_open_point_is_read(rt: HostRuntime) -> Result<(), Fail> {
    let text =
        "permit(principal, action, resource) when { principal.\nforbid(principal, action, resource);";
    let want =
        "policy0 0..53 !53 a name is expected: permit principal action resource left principal\npolicy1 54..90 forbid\n";
    let got = show(rt.alloc(), text)?;
    assert!(rt; got.as_str() == want, "{got}");
    Ok(())
}
