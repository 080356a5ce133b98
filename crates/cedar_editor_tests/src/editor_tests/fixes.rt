// Fixes of the errors of policies.
use crate::editor_tests::judged::{OF_USERS, SCHEMA, VIEW, judge_by};
use cedar_editor::checks::check_policy;
use cedar_editor::fixes::{Fix, fix_of};
use cedar_editor::schemas::SchemaDocument;
use cedar_findings::syntaxes::Syntax;
use cedar_types::base::ExtensionSchemas;
use std::alloc::{AllocError, Global};
use std::test::Fail;

/// The beginning of a policy, its rest with one error, the title of the fix, and the rest behind it; no title if there is no
/// fix.
const FIXES: [(&str, &str, &str, &str); 18] = [
    (
        VIEW,
        "resource.isPubic };",
        "Write `isPublic`",
        "resource.isPublic };",
    ),
    (
        VIEW,
        "\"é\" == \"é\" && resource . isPubic };",
        "Write `isPublic`",
        "\"é\" == \"é\" && resource . isPublic };",
    ),
    (
        VIEW,
        "resource[\"isPubic\"] };",
        "Write `isPublic`",
        "resource[\"isPublic\"] };",
    ),
    (
        VIEW,
        "\"é\" == \"\" || resource[ \"isPubic\"] };",
        "Write `isPublic`",
        "\"é\" == \"\" || resource[ \"isPublic\"] };",
    ),
    (
        "permit(",
        "principal is Usr, action, resource);",
        "Write `User`",
        "principal is User, action, resource);",
    ),
    (
        "permit(",
        "principal == Usr::\"a\", action, resource);",
        "Write `User`",
        "principal == User::\"a\", action, resource);",
    ),
    (
        "permit(",
        "principal, action == Action::\"viw\", resource);",
        "Write `Action::\"view\"`",
        "principal, action == Action::\"view\", resource);",
    ),
    (
        OF_USERS,
        "principal.vip };",
        "Test `principal has vip` before it",
        "principal has vip && principal.vip };",
    ),
    (
        OF_USERS,
        "resource.isPublic || principal.vip == true };",
        "Test `principal has vip` before it",
        "resource.isPublic || principal has vip && principal.vip == true };",
    ),
    (
        OF_USERS,
        "resource.isPublic && !(principal.vip) };",
        "Test `principal has vip` before it",
        "resource.isPublic && principal has vip && !(principal.vip) };",
    ),
    (
        OF_USERS,
        "resource.size.h > 3 };",
        "Test `resource.size has h` before it",
        "resource.size has h && resource.size.h > 3 };",
    ),
    (
        OF_USERS,
        "(if principal.vip then 1 else 2) == 1 };",
        "Test `principal has vip` before it",
        "(if principal has vip && principal.vip then 1 else 2) == 1 };",
    ),
    (
        OF_USERS,
        "true } when { principal.vip };",
        "Test `principal has vip` before it",
        "true } when { principal has vip && principal.vip };",
    ),
    // the test stands inside of the braces of `unless`
    (
        OF_USERS,
        "true } unless { principal.vip };",
        "Test `principal has vip` before it",
        "true } unless { principal has vip && principal.vip };",
    ),
    (
        "permit(principal is User, action, resource)",
        " unless\n{ // who\nprincipal.vip == true };",
        "Test `principal has vip` before it",
        " unless\n{ // who\nprincipal has vip && principal.vip == true };",
    ),
    // nothing is near, or what is near mends nothing
    (OF_USERS, "principal.zzz };", "", ""),
    (OF_USERS, "resource.size.hh > 1 };", "", ""),
    (OF_USERS, "resource.owner };", "", ""),
];

/// A text behind a fix.
fn fixed(alloc: Global, text: &str, fix: &Fix) -> Result<String, AllocError> {
    let front = text.get(..fix.place.start).unwrap_or("");
    let behind = text.get(fix.place.end..).unwrap_or("");
    let own = fix.text.as_str();
    format!(in alloc; "{front}{own}{behind}")
}

#[test]
fn fixes(rt: HostRuntime) -> Result<(), Fail> {
    let alloc = rt.alloc();
    let extensions = ExtensionSchemas::default(alloc);
    let schema = SchemaDocument::new(alloc, &extensions, Syntax::Cedar, SCHEMA)?;
    let judge = judge_by(&schema, None).ok_or("there is a schema")?;
    let settings = judge.settings().ok_or("there are settings")?;
    for (front, rest, title, mended) in &FIXES {
        let text = format!(in alloc; "{front}{rest}")?;
        let wanted = format!(in alloc; "{front}{mended}")?;
        let policy = check_policy(alloc, &settings, text.as_str())?.ok_or("a policy")?;
        let verdict = policy.verdict.as_ref().ok_or("a verdict")?;
        assert_eq!(rt; verdict.errors.len(), 1, "{text}");
        for error in &verdict.errors {
            match fix_of(alloc, &settings, &policy, error)? {
                Some(fix) => {
                    assert_eq!(rt; fix.title.as_str(), *title, "{text}");
                    let new = fixed(alloc, text.as_str(), &fix)?;
                    assert_eq!(rt; new.as_str(), wanted.as_str());
                }
                None => assert_eq!(rt; "", *title, "{text}"),
            }
        }
    }
    Ok(())
}
