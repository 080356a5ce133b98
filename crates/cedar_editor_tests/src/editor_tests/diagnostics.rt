// Diagnostics of documents: places, codes and words.
use crate::editor_tests::judged::{OF_USERS, SCHEMA, VIEW, check_shown, document_by};
use cedar_editor::diagnostics::{add_policy, of_finding};
use cedar_editor::documents::PolicyDocument;
use cedar_editor::judges::Judge;
use cedar_editor::schemas::SchemaDocument;
use cedar_findings::findings::Severity;
use cedar_findings::syntaxes::Syntax;
use cedar_types::base::ExtensionSchemas;
use std::test::Fail;

/// Texts of policies, and the lines on them.
const DIAGNOSED: [(&str, &[&str]); 17] = [
    ("", &[]),
    ("// nothing\n", &[]),
    ("permit(principal, action, resource);", &[]),
    // the place is counted in units of UTF-16, behind characters of 4 and 2 bytes
    (
        "// 👍\npermit(principal, action, resource) when { \"👍é\" == \"👍é\" && principal.zzz };",
        &["1:61 error unknown-attribute `principal.zzz`"],
    ),
    (
        r#"permit(principal is Usr, action == Action::"viw", resource);"#,
        &[
            "0:20 error unknown-type `Usr`",
            "0:35 error unknown-action `Action::\"viw\"`",
        ],
    ),
    (
        "permit(principal is Team, action, resource);",
        &[
            "0:0 warning impossible `permit(principal is Team, action, resource);`",
            "0:0 warning no-action `permit(principal is Team, action, resource);`",
        ],
    ),
    // a fault hides no policy, and no error of the parts before it
    (
        "permit(principal is User, action, resource) when { principal.vip } when { principal. };\n\
         permit(principal is User, action, resource) when { principal.vip };",
        &[
            "0:85 error fault `}`",
            "0:51 error unguarded-attribute `principal.vip`",
            "1:51 error unguarded-attribute `principal.vip`",
        ],
    ),
    // what is half written may still become right
    (
        "permit(principal is User, action, resource) when { resource.isPublic && resource. };",
        &["0:82 error fault `}`"],
    ),
    (
        "permit(principal is User, action, resource) when { principal.team == resource. };",
        &["0:79 error fault `}`"],
    ),
    (
        "permit(principal is User, action, resource) when { resource.size.w < resource. };",
        &["0:79 error fault `}`"],
    ),
    (
        "permit(principal is User, action, resource) when { resource.isPublic && (resource). };",
        &["0:84 error fault `}`"],
    ),
    (
        "permit(principal is User, action, resource) when { principal.vip && (1 || resource. };",
        &["0:84 error fault `}`", "0:69 error unexpected-type `1`"],
    ),
    (
        "@id(\"a\") permit(principal, action, resource);\n\
         @id(\"b\")\nforbid(principal, action, resource);\n\
         @id(\"a\")\nforbid(principal, action, resource);\n\
         @id(\"a\") forbid(principal, action, resource);",
        &[
            "3:0 error same-id `@id(\"a\")`, other 0:0",
            "5:0 error same-id `@id(\"a\") forbid(principal, action, resource);`, other 0:0",
        ],
    ),
    // each end of a line ends the first line
    (
        "@id(\"a\") permit(principal, action, resource);\r\
         @id(\"a\")\rforbid(principal, action, resource);\r\n\
         @id(\"a\")\r\nforbid(principal, action, resource);",
        &[
            "1:0 error same-id `@id(\"a\")`, other 0:0",
            "3:0 error same-id `@id(\"a\")`, other 0:0",
        ],
    ),
    // a policy without `@id` has a number
    (
        "@id(\"policy1\") permit(principal, action, resource);\n\
         permit(principal, action, resource);",
        &["1:0 error same-id `permit(principal, action, resource);`, other 0:0"],
    ),
    // an id that is not written yet is none
    (
        "permit(principal, action, resource);\n\
         @id( permit(principal, action, resource);\n",
        &["1:5 error fault `permit`"],
    ),
    (
        "permit(principal, action, resource);\n\
         @id(\"a\") @b( permit(principal, action, resource);\n\
         @id(\"a\") permit(principal, action, resource);\n",
        &[
            "1:13 error fault `permit`",
            "2:0 error same-id `@id(\"a\") permit(principal, action, resource);`, other 1:0",
        ],
    ),
];

#[test]
fn places_of_diagnostics(rt: HostRuntime) -> Result<(), Fail> {
    let alloc = rt.alloc();
    let extensions = ExtensionSchemas::default(alloc);
    let schema = SchemaDocument::new(alloc, &extensions, Syntax::Cedar, SCHEMA)?;
    for (text, wanted) in &DIAGNOSED {
        let document = document_by(alloc, &schema, text)?;
        check_shown(&rt, &document, wanted)?;
    }
    // without a schema, faults and ids alone are told
    let document = PolicyDocument::new(
        alloc,
        Judge::Reading(&extensions),
        "permit(principal is Usr, action, resource);\n@id(\"policy0\") permit(principal);",
    )?;
    check_shown(
        &rt,
        &document,
        &[
            "1:31 error fault `)`",
            "1:0 error same-id `@id(\"policy0\") permit(principal);`, other 0:0",
        ],
    )
}

/// The beginning of a policy, its condition, and the words of its only diagnostic.
const MESSAGES: [(&str, &str, &str); 6] = [
    (
        VIEW,
        "resource.isPubic",
        "attribute `isPubic` does not exist on `Photo`; did you mean `isPublic`?",
    ),
    (
        VIEW,
        "principal.zzz",
        "attribute `zzz` does not exist on `Robot`\nthe same for User",
    ),
    (
        VIEW,
        "principal.name == \"a\"",
        "attribute `name` does not exist on `Robot`\nonly for Action::\"view\" by Robot on Photo",
    ),
    (
        OF_USERS,
        "principal.vip",
        "access to optional attribute `vip` on `User` is not guarded; `has` may guard it, as in \
         `principal has vip && principal.vip`",
    ),
    (
        VIEW,
        "resource.owner",
        "unexpected type: expected `Bool` but saw `User`",
    ),
    (
        OF_USERS,
        "principal.",
        "a name is expected, where `}` is read",
    ),
];

#[test]
fn words_of_diagnostics(rt: HostRuntime) -> Result<(), Fail> {
    let alloc = rt.alloc();
    let extensions = ExtensionSchemas::default(alloc);
    let schema = SchemaDocument::new(alloc, &extensions, Syntax::Cedar, SCHEMA)?;
    for (front, condition, wanted) in &MESSAGES {
        let text = format!(in alloc; "\n{front}{condition} }};")?;
        let document = document_by(alloc, &schema, text.as_str())?;
        assert_eq!(rt; document.policies().len(), 1, "{condition}");
        for placed in document.policies() {
            let mut told = Vec::new(alloc);
            add_policy(alloc, placed, &mut told)?;
            assert_eq!(rt; told.len(), 1, "{condition}");
            for it in &told {
                assert_eq!(rt; it.message.as_str(), *wanted);
            }
            let verdict = placed.policy().verdict.as_ref().ok_or("a verdict")?;
            for finding in &verdict.errors {
                let own = of_finding(alloc, placed, Severity::Error, finding)?;
                assert_eq!(rt; own.message.as_str(), *wanted);
                assert_eq!(rt;
                    own.place.start,
                    finding.start.saturating_add(1),
                    "{condition}"
                );
            }
        }
    }
    Ok(())
}
