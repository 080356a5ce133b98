// Changes of documents: what is shown behind a change is what is shown of the changed text.
use crate::editor_tests::judged::{Check, SCHEMA, check_shown, document_by, place_in};
use cedar_editor::documents::PolicyDocument;
use cedar_editor::edits::Edit;
use cedar_editor::schemas::SchemaDocument;
use cedar_findings::syntaxes::Syntax;
use cedar_types::base::{ExtensionSchemas, Loc};
use std::alloc::{AllocError, Global};
use std::process::Abort;
use std::rc::Rc;
use std::test::Fail;

/// A change: the first place of a part in a text is given another text.
#[derive(Clone, Copy)]
struct Change {
    text: &'static str,
    part: &'static str,
    new: &'static str,
}

/// Three policies, of which the first two have an error each.
const THREE: &str = r#"permit(principal, action == Action::"view", resource)
when { resource.isPubic };
// the second
permit(principal is User, action, resource) when { principal.vip };
forbid(principal, action, resource);
"#;

/// Changes, and what is told behind each: the number of policies, and the lines.
const CHANGES: [(Change, usize, &[&str]); 14] = [
    // inside of one policy: its error is mended
    (
        Change {
            text: THREE,
            part: "Pubic",
            new: "Public",
        },
        3,
        &["3:51 error unguarded-attribute `principal.vip`"],
    ),
    (
        Change {
            text: THREE,
            part: "principal.vip",
            new: "principal has vip && principal.vip",
        },
        3,
        &["1:7 error unknown-attribute `resource.isPubic`"],
    ),
    // two policies become one, and one becomes two
    (
        Change {
            text: "permit(principal, action, resource)\nwhen { principal is User };\n\
                   permit(principal, action, resource)\nwhen { principal.name == \"a\" };\n",
            part: ";\npermit(principal, action, resource)",
            new: "",
        },
        1,
        &[],
    ),
    (
        Change {
            text: "permit(principal, action, resource)\nwhen { principal is User }\n\
                   when { principal.name == \"a\" };\n",
            part: "\nwhen { principal.name",
            new: ";\npermit(principal, action, resource)\nwhen { principal.name",
        },
        2,
        &["3:7 error unknown-attribute `principal.name`"],
    ),
    // a comment takes a policy in, and gives it back
    (
        Change {
            text: "// a\npermit(principal, action, resource);\nforbid(principal, action, resource);",
            part: "\n",
            new: "",
        },
        1,
        &[],
    ),
    (
        Change {
            text: "// permit(principal, action, resource) when { 1 };\nforbid(principal, action, resource);",
            part: "// ",
            new: "",
        },
        2,
        &["0:43 error unexpected-type `1`"],
    ),
    // a text in quotes that does not end takes the next policy in, and gives it back
    (
        Change {
            text: "permit(principal, action, resource) when { \"a\" == \"a\" };\n\
                   @id(\"b\") forbid(principal, action, resource);\n",
            part: "\"a\"",
            new: "\"a",
        },
        1,
        &["0:50 error fault `a`"],
    ),
    (
        Change {
            text: "permit(principal, action, resource) when { \"a == \"a\" };\n\
                   @id(\"b\") forbid(principal, action, resource);\n",
            part: "\"a ==",
            new: "\"a\" ==",
        },
        2,
        &[],
    ),
    // behind an open bracket a policy begins at the beginning of a line alone
    (
        Change {
            text: "permit(principal, action, resource) when { (1 forbid(principal, action, resource);",
            part: " forbid",
            new: "\nforbid",
        },
        2,
        &["0:45 error fault ``"],
    ),
    (
        Change {
            text: "permit(principal, action, resource) when { (1\nforbid(principal, action, resource);",
            part: "\nforbid",
            new: " forbid",
        },
        1,
        &["0:46 error fault `forbid`"],
    ),
    // a policy that was not ended ends
    (
        Change {
            text: "permit(principal, action, resource)\nforbid(principal, action, resource);\n",
            part: "\n",
            new: ";\n",
        },
        2,
        &[],
    ),
    // a new policy moves the numbers of those behind it
    (
        Change {
            text: "permit(principal, action, resource);\n@id(\"policy1\") permit(principal, action, resource);",
            part: "permit",
            new: "forbid(principal, action, resource);\npermit",
        },
        3,
        &["2:0 error same-id `@id(\"policy1\") permit(principal, action, resource);`, other 1:0"],
    ),
    // all goes, and all comes
    (
        Change {
            text: THREE,
            part: THREE,
            new: "",
        },
        0,
        &[],
    ),
    (
        Change {
            text: "\n",
            part: "\n",
            new: "permit(principal, action, resource) when { 1 };",
        },
        1,
        &["0:43 error unexpected-type `1`"],
    ),
];

/// The bytes at which the policies of a document begin and end.
fn places_of(alloc: Global, document: &PolicyDocument<'_, Check>) -> Result<String, AllocError> {
    let mut places = String::new(alloc);
    for placed in document.policies() {
        writeln!(places, "{} {}", placed.start, placed.end())?;
    }
    Ok(places)
}

/// Checks a document of a changed text: the text, the places of the policies, their number, and the lines on them.
fn check(
    rt: &(impl Abort + AllocGlobal),
    document: &PolicyDocument<'_, Check>,
    fresh: &PolicyDocument<'_, Check>,
    count: usize,
    wanted: &[&str],
) -> Result<(), Fail> {
    let alloc = rt.alloc();
    let text = fresh.text();
    assert_eq!(rt; document.text(), text);
    let places = places_of(alloc, document)?;
    let others = places_of(alloc, fresh)?;
    assert_eq!(rt; places.as_str(), others.as_str(), "for {text}");
    assert_eq!(rt; document.policies().len(), count, "for {text}");
    check_shown(rt, document, wanted)
}

#[test]
fn documents_behind_changes(rt: HostRuntime) -> Result<(), Fail> {
    let alloc = rt.alloc();
    let extensions = ExtensionSchemas::default(alloc);
    let schema = SchemaDocument::new(alloc, &extensions, Syntax::Cedar, SCHEMA)?;
    for (change, count, wanted) in &CHANGES {
        let Change { text, part, new } = *change;
        let place = place_in(text, part);
        let mut changed = document_by(alloc, &schema, text)?;
        let range = Some(changed.range(place));
        changed.change(alloc, place, new)?;
        let fresh = document_by(alloc, &schema, changed.text())?;
        check(&rt, &changed, &fresh, *count, wanted)?;
        let mut edited = document_by(alloc, &schema, text)?;
        edited.edit(alloc, &[Edit { range, text: new }])?;
        check(&rt, &edited, &fresh, *count, wanted)?;
        let mut replaced = document_by(alloc, &schema, text)?;
        replaced.replace(alloc, fresh.text())?;
        check(&rt, &replaced, &fresh, *count, wanted)?;
        // and back
        replaced.replace(alloc, text)?;
        replaced.replace(alloc, fresh.text())?;
        check(&rt, &replaced, &fresh, *count, wanted)?;
    }
    Ok(())
}

/// A text in which `é` stands at the bytes 3 and 4, and places that are no part of it: one ends inside of `é`, one goes
/// backwards, and one goes on behind the text.
const ACCENT: &str = "// é\nforbid(principal, action, resource);";

const NO_PARTS: [(usize, usize); 4] = [(4, 4), (3, 4), (5, 3), (0, 43)];

#[test]
fn places_that_are_no_part(rt: HostRuntime) -> Result<(), Fail> {
    let alloc = rt.alloc();
    let extensions = ExtensionSchemas::default(alloc);
    let schema = SchemaDocument::new(alloc, &extensions, Syntax::Cedar, SCHEMA)?;
    let mut document = document_by(alloc, &schema, ACCENT)?;
    for (start, end) in &NO_PARTS {
        let place = Loc {
            start: *start,
            end: *end,
        };
        document.change(alloc, place, "permit")?;
        assert_eq!(rt; document.text(), ACCENT);
    }
    let accent = Loc { start: 3, end: 5 };
    document.change(alloc, accent, "e")?;
    assert_eq!(rt;
        document.text(),
        "// e\nforbid(principal, action, resource);"
    );
    Ok(())
}

/// The text of twelve policies, from the first or from the last on.
fn text_of_twelve(alloc: Global, is_reversed: bool) -> Result<String, AllocError> {
    let mut text = String::new(alloc);
    for at in 0..12usize {
        let number = if is_reversed { 11 - at } else { at };
        writeln!(
            text,
            "@id(\"p{number}\") forbid(principal, action, resource);"
        )?;
    }
    Ok(text)
}

/// Policies that only change their places are not read again.
#[test]
fn policies_in_another_order(rt: HostRuntime) -> Result<(), Fail> {
    let alloc = rt.alloc();
    let extensions = ExtensionSchemas::default(alloc);
    let schema = SchemaDocument::new(alloc, &extensions, Syntax::Cedar, SCHEMA)?;
    let text = text_of_twelve(alloc, false)?;
    let mut document = document_by(alloc, &schema, text.as_str())?;
    let mut before = Vec::new(alloc);
    for placed in document.policies() {
        before.push(placed.policy.clone()?)?;
    }
    let text = text_of_twelve(alloc, true)?;
    document.replace(alloc, text.as_str())?;
    assert_eq!(rt; document.policies().len(), before.len());
    for (placed, old) in document.policies().iter().zip(before.iter().rev()) {
        assert!(rt; Rc::ptr_eq(&placed.policy, old));
    }
    let fresh = document_by(alloc, &schema, text.as_str())?;
    check(&rt, &document, &fresh, before.len(), &[])
}
