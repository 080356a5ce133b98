// Documents of three policies: where these stand, and what other settings say of them.
use crate::editor_tests::judged::{SCHEMA, check_shown, document_by, judge_by};
use cedar_editor::documents::{PlacedPolicy, silent_policies_keep_the_promise};
use cedar_editor::edits::Edit;
use cedar_editor::judges::Judge;
use cedar_editor::lines::{Position, Range};
use cedar_editor::schemas::SchemaDocument;
use cedar_editor::symbols::{Symbol, SymbolKind, policy_symbols};
use cedar_findings::syntaxes::Syntax;
use cedar_types::base::{ExtensionSchemas, Loc};
use std::process::Abort;
use std::test::Fail;

/// Three policies, of which the first two have an error each.
const THREE: &str = r#"// Who may see it
permit(principal, action == Action::"view", resource)
when { resource.isPubic };

@id("edit")
permit(principal is User, action == Action::"edit", resource)
when { principal.vip };
forbid(principal, action, resource) when { principal.team == resource.owner.team };
"#;

/// The three policies without the errors.
const MENDED: &str = r#"// Who may see it
permit(principal, action == Action::"view", resource)
when { resource.isPublic };

@id("edit")
permit(principal is User, action == Action::"edit", resource)
when { principal has vip && principal.vip };
forbid(principal, action, resource) when { principal.team == resource.owner.team };
"#;

/// The ids of the three policies, the bytes at which these begin and end, and whether they have an error.
const PLACES: [(&str, usize, usize, bool); 3] = [
    ("policy0", 18, 98, true),
    ("edit", 100, 197, true),
    ("policy2", 198, 281, false),
];

/// Bytes, the number of the policy there or before, and the byte at which that policy begins.
const NUMBERS: [(usize, Option<usize>, Option<usize>); 10] = [
    (0, None, None),
    (17, None, None),
    (18, Some(0), Some(18)),
    (97, Some(0), Some(18)),
    (99, Some(0), Some(18)),
    (100, Some(1), Some(100)),
    (197, Some(1), Some(100)),
    (198, Some(2), Some(198)),
    (282, Some(2), Some(198)),
    (999, Some(2), Some(198)),
];

/// Checks the place of a policy, and its symbol.
fn check_placed(
    rt: &(impl Abort + AllocGlobal),
    placed: &PlacedPolicy,
    symbol: &Symbol,
    wanted: (&str, usize, usize, bool),
) {
    let (id, start, end, has_error) = wanted;
    let whole = Loc { start, end };
    assert_eq!(rt; symbol.name.as_str(), id);
    assert_eq!(rt; symbol.kind, SymbolKind::Policy, "{id}");
    assert_eq!(rt; symbol.whole, whole, "{id}");
    assert_eq!(rt; symbol.own.start, start, "{id}");
    assert_eq!(rt; placed.start, start, "{id}");
    assert_eq!(rt; placed.end(), end, "{id}");
    assert!(rt; placed.ends_by(end), "{id}");
    assert!(rt; !placed.ends_by(end.saturating_sub(1)), "{id}");
    let own = Loc {
        start: 0,
        end: placed.policy().text.len(),
    };
    assert_eq!(rt; placed.place(own), whole, "{id}");
    assert_eq!(rt; placed.policy().has_error(), has_error, "{id}");
}

#[test]
fn three_policies(rt: HostRuntime) -> Result<(), Fail> {
    let alloc = rt.alloc();
    let extensions = ExtensionSchemas::default(alloc);
    let schema = SchemaDocument::new(alloc, &extensions, Syntax::Cedar, SCHEMA)?;
    let document = document_by(alloc, &schema, THREE)?;
    assert_eq!(rt; document.text(), THREE);
    assert_eq!(rt; document.policies().len(), PLACES.len());
    let symbols = policy_symbols(alloc, document.policies())?;
    assert_eq!(rt; symbols.len(), PLACES.len());
    for (number, wanted) in PLACES.iter().enumerate() {
        let placed = document.policies().get(number).ok_or("a policy")?;
        let symbol = symbols.get(number).ok_or("a symbol")?;
        check_placed(&rt, placed, symbol, *wanted);
    }
    for (byte, number, start) in &NUMBERS {
        assert_eq!(rt; document.number_at(*byte), *number, "at {byte}");
        let found = match document.policy_at(*byte) {
            Some(placed) => Some(placed.start),
            None => None,
        };
        assert_eq!(rt; found, *start, "at {byte}");
    }
    // `resource.isPubic`, on the line that begins at byte 72
    let range = document.range(Loc { start: 79, end: 95 });
    assert_eq!(rt; range.start, Position { line: 2, unit: 7 });
    assert_eq!(rt; range.end, Position { line: 2, unit: 23 });
    assert_eq!(rt; document.byte(range.start), 79);
    assert_eq!(rt; document.lines().byte(THREE, range.end), 95);
    check_shown(
        &rt,
        &document,
        &[
            "2:7 error unknown-attribute `resource.isPubic`",
            "6:7 error unguarded-attribute `principal.vip`",
        ],
    )
}

/// An empty range at a position.
fn at(line: usize, unit: usize) -> Option<Range> {
    let start = Position { line, unit };
    Some(Range { start, end: start })
}

#[test]
fn mended_and_judged_again(rt: HostRuntime) -> Result<(), Fail> {
    let alloc = rt.alloc();
    let extensions = ExtensionSchemas::default(alloc);
    let schema = SchemaDocument::new(alloc, &extensions, Syntax::Cedar, SCHEMA)?;
    let mut document = document_by(alloc, &schema, THREE)?;
    let edits = [
        Edit {
            range: at(2, 21),
            text: "l",
        },
        Edit {
            range: at(6, 7),
            text: "principal has vip && ",
        },
    ];
    document.edit(alloc, &edits)?;
    assert_eq!(rt; document.text(), MENDED);
    check_shown(&rt, &document, &[])?;
    for placed in document.policies() {
        assert!(rt; !placed.policy().has_error());
    }
    silent_policies_keep_the_promise(&document);
    // other settings judge the same text
    let at_one = judge_by(&schema, Some(1)).ok_or("there is a schema")?;
    let at_two = judge_by(&schema, Some(2)).ok_or("there is a schema")?;
    document.judge_all(alloc, at_one)?;
    check_shown(&rt, &document, &["7:61 error level `resource.owner.team`"])?;
    document.judge_all(alloc, at_two)?;
    check_shown(&rt, &document, &[])?;
    document.replace(alloc, THREE)?;
    document.judge_all(alloc, Judge::Reading(&extensions))?;
    assert!(rt; document.judge().settings().is_none());
    check_shown(&rt, &document, &[])?;
    for placed in document.policies() {
        assert!(rt; placed.policy().verdict.is_none());
    }
    let judge = judge_by(&schema, None).ok_or("there is a schema")?;
    document.judge_all(alloc, judge)?;
    assert_eq!(rt; document.text(), THREE);
    check_shown(
        &rt,
        &document,
        &[
            "2:7 error unknown-attribute `resource.isPubic`",
            "6:7 error unguarded-attribute `principal.vip`",
        ],
    )
}
