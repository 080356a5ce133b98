// Rests of a condition before its fault: the text, and the tree of that text.
use crate::reading_tests::shown::text_of;
use cedar_reading::{ReadError, condition, policies_with_faults};
use cedar_types::base::{Expr, ExprShapeOnly};
use std::alloc::{AllocError, Global};
use std::test::Fail;

/// Conditions with a fault, and the rest before it.
const CONDITIONS: [(&str, &str); 32] = [
    (
        "principal.age > 18 && resource.",
        "principal.age > 18 && resource",
    ),
    ("principal.age > 18 && ", "principal.age > 18"),
    ("principal.", "principal"),
    ("principal.a.b.", "principal.a.b"),
    ("principal[", "principal"),
    ("principal[\"a\"", "principal"),
    ("1 + 2 * 3 *", "1 + 2 * 3"),
    ("1 + 2 == 3 == 4", "1 + 2 == 3"),
    ("1 == 2 && 3 == 4 || 5 ==", "1 == 2 && 3 == 4 || 5"),
    ("!principal.a.", "!principal.a"),
    ("! -", ""),
    ("true && (false || true.", "false || true"),
    ("true && (", "true"),
    ("true && (1 + 2", "1 + 2"),
    ("(true && false", "true && false"),
    ("[1, 2 + 3", "2 + 3"),
    ("[1, 2 + ", "2"),
    ("[1, 2,", "2"),
    ("{a: 1, b: principal.", "principal"),
    ("{a: 1, \"a\": 2}", "1"),
    ("principal.contains(1, 2)", "principal"),
    ("ip(\"1.1.1.1\").isInRange(ip(\"", "ip(\"1.1.1.1\")"),
    ("ip(\"1.1.1.1\") <", "ip(\"1.1.1.1\")"),
    ("if true then 1 + ", "1"),
    ("if principal.a then", "principal.a"),
    ("if true then 1 else 2.", "if true then 1 else 2"),
    ("principal has a.b.", "principal has a.b"),
    ("principal has ", "principal"),
    ("principal is User in", "principal is User"),
    (
        "true || principal is N::User && ",
        "true || principal is N::User",
    ),
    ("principal in User", "principal"),
    ("1 < 99999999999999999999", "1"),
];

/// The rest of a condition before its fault, which is not the end of a policy; empty if there is no rest.
fn left_of_fault(alloc: Global, condition: &str) -> Result<String, ReadError> {
    let text = format!(in alloc; "permit(principal, action, resource) when {{ {condition} }};")?;
    let mut shown = String::new(alloc);
    for policy in policies_with_faults(alloc, text.as_str())? {
        match policy {
            Ok(_) => shown.push_str("no fault")?,
            Err(faulty) => {
                if let Some(expr) = &faulty.unfinished {
                    shown.push_str(text_of(text.as_str(), expr))?;
                    check_tree(alloc, expr, &mut shown)?;
                }
            }
        }
    }
    Ok(shown)
}

/// Adds a mark if a tree is not the one of the text so far.
fn check_tree(alloc: Global, expr: &Expr, shown: &mut String) -> Result<(), ReadError> {
    let alone = condition(alloc, shown.as_str())?;
    if ExprShapeOnly::Borrowed(expr) != ExprShapeOnly::Borrowed(&alone) {
        shown.push_str(" of another tree")?;
    }
    Ok(())
}

/// The rest of a condition, or the fault of the text.
fn answer(alloc: Global, condition: &str) -> Result<String, AllocError> {
    match left_of_fault(alloc, condition) {
        Ok(shown) => Ok(shown),
        Err(ReadError::Memory(error)) => Err(error),
        Err(ReadError::At(at, fault)) => format!(in alloc; "{at} {fault}"),
    }
}

#[test]
fn what_is_whole_is_left_of_the_fault(rt: HostRuntime) -> Result<(), Fail> {
    for (text, want) in &CONDITIONS {
        let got = answer(rt.alloc(), text)?;
        assert_eq!(rt; got.as_str(), *want, "{text}");
    }
    Ok(())
}
