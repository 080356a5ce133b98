// Completions at positions of policies, in which a mark `^` stands.
use crate::editor_tests::judged::{
    OF_USERS, SCHEMA, VIEW, document_by, judge_by, text_at, unmarked,
};
use cedar_editor::completions::completion_at;
use cedar_editor::items::{Item, ItemKind};
use cedar_editor::schemas::SchemaDocument;
use cedar_findings::syntaxes::Syntax;
use cedar_types::base::ExtensionSchemas;
use std::process::Abort;
use std::test::Fail;

/// Items, each with its detail.
type Items = &'static [(&'static str, &'static str)];

const TYPES: Items = &[
    ("Team", "entity type"),
    ("Robot", "entity type"),
    ("User", "entity type"),
    ("Photo", "entity type"),
];

const ACTIONS: Items = &[
    ("Action::\"view\"", "action"),
    ("Action::\"edit\"", "action"),
    ("Action::\"delete\"", "action"),
];

const OPERANDS: Items = &[
    ("principal", "who wants to act"),
    ("action", "what they want to do"),
    ("resource", "what they want to do it to"),
    ("context", "what else the request says"),
    ("ip", "ip(\"10.0.0.0/8\"): ipaddr"),
    ("decimal", "decimal(\"1.5\"): decimal"),
    ("datetime", "datetime(\"2024-10-15\"): datetime"),
    ("duration", "duration(\"1h30m\"): duration"),
];

const OF_PHOTO: Items = &[
    ("isPublic", "Bool"),
    ("owner", "User"),
    ("size", "{h?: Long, w: Long}"),
    ("tags", "Set<String>"),
];

const OF_USER: Items = &[
    ("name", "String"),
    ("team", "Team"),
    ("vip", "Bool, optional: needs `has`"),
];

const OF_GUARDED_USER: Items = &[
    ("name", "String"),
    ("team", "Team"),
    ("vip", "Bool, optional: known to be there"),
];

const OF_SIZE: Items = &[("h", "Long, optional: needs `has`"), ("w", "Long")];

const OF_SET: Items = &[
    ("contains", "contains(element): Bool"),
    ("containsAll", "containsAll(set): Bool"),
    ("containsAny", "containsAny(set): Bool"),
    ("isEmpty", "isEmpty(): Bool"),
];

/// Rests of policies with the mark, and the text that an item replaces in each.
type Rests = &'static [(&'static str, &'static str)];

/// The beginning of policies, the kind of the items, these, and the rests of the policies.
const COMPLETIONS: [(&str, ItemKind, Items, Rests); 13] = [
    // behind a point
    (
        VIEW,
        ItemKind::Attribute,
        OF_PHOTO,
        &[
            ("resource.^ };", ""),
            ("resource.is^ };", "is"),
            ("resource.is^Pub };", "is"),
            ("resource.^", ""),
            ("resource.isPublic && resource.^ };", ""),
        ],
    ),
    (
        VIEW,
        ItemKind::Attribute,
        OF_USER,
        &[("principal.^ };", "")],
    ),
    (
        VIEW,
        ItemKind::Attribute,
        OF_SIZE,
        &[
            ("resource.size.^ > 3 };", ""),
            ("resource has size.^ };", ""),
        ],
    ),
    (
        VIEW,
        ItemKind::Method,
        OF_SET,
        &[("resource.tags.^ };", "")],
    ),
    // behind a guard, and where none holds
    (
        VIEW,
        ItemKind::Attribute,
        OF_GUARDED_USER,
        &[(
            "principal is User && principal has vip && principal.^ };",
            "",
        )],
    ),
    (
        OF_USERS,
        ItemKind::Attribute,
        OF_USER,
        &[
            ("principal has vip || principal.^ };", ""),
            ("principal has ^ };", ""),
            ("principal has v^ };", "v"),
            ("principal has ^", ""),
        ],
    ),
    // in a scope
    (
        "permit(",
        ItemKind::EntityType,
        TYPES,
        &[
            ("principal is ^, action, resource);", ""),
            ("principal == Us^, action, resource);", "Us"),
            ("principal, action, resource in ^);", ""),
            ("principal is ^", ""),
            ("principal is ^\npermit(principal, action, resource);", ""),
        ],
    ),
    (
        "permit(principal, action ",
        ItemKind::Action,
        ACTIONS,
        &[
            ("== ^, resource);", ""),
            ("in [^], resource);", ""),
            ("in [Action::\"view\", ^], resource);", ""),
            (
                "in [Action::\"view\", Action::\"ed^, resource);",
                "Action::\"ed",
            ),
            // the quote that closes an id is replaced with it
            ("== Action::\"ed^\", resource);", "Action::\"ed\""),
            ("== Action::\"^edit\", resource);", "Action::\"edit\""),
            ("== Action::\"edit\"^, resource);", "Action::\"edit\""),
            ("== Action::^\"edit\", resource);", "Action::"),
        ],
    ),
    // a comma outside of brackets ends a comparison
    (
        "permit(principal",
        ItemKind::Operand,
        OPERANDS,
        &[
            (", ^", ""),
            (", action, ^);", ""),
            (" is User, ^);", ""),
            (" == User::\"a\", ac^);", "ac"),
        ],
    ),
    // in a condition
    (
        VIEW,
        ItemKind::EntityType,
        TYPES,
        &[("principal is ^ };", ""), ("principal == ^ };", "")],
    ),
    (VIEW, ItemKind::Action, ACTIONS, &[("action == ^ };", "")]),
    (
        VIEW,
        ItemKind::Operand,
        OPERANDS,
        &[
            ("^ };", ""),
            ("resource.isPublic && !pr^ };", "pr"),
            ("principal.team == ^ };", ""),
            ("resource.size.w > res^ };", "res"),
        ],
    ),
    // no name stands behind a policy
    (
        "permit(principal, action, resource);",
        ItemKind::Operand,
        &[],
        &[("^", ""), ("\n\n^\n", "")],
    ),
];

/// Checks that these items are there, in any order, and no others.
fn check_items(rt: &impl Abort, marked: &str, items: &[Item], kind: ItemKind, wanted: Items) {
    assert_eq!(rt; items.len(), wanted.len(), "for {marked}");
    for (label, detail) in wanted {
        let mut is_there = false;
        for item in items {
            let is_same = item.label.as_str() == *label && item.detail.as_str() == *detail;
            is_there = is_there || (is_same && item.kind == kind);
        }
        assert!(rt; is_there, "{label} for {marked}");
    }
}

#[test]
fn completions(rt: HostRuntime) -> Result<(), Fail> {
    let alloc = rt.alloc();
    let extensions = ExtensionSchemas::default(alloc);
    let schema = SchemaDocument::new(alloc, &extensions, Syntax::Cedar, SCHEMA)?;
    let judge = judge_by(&schema, None).ok_or("there is a schema")?;
    let settings = judge.settings().ok_or("there are settings")?;
    for (front, kind, wanted, rests) in &COMPLETIONS {
        for (rest, replaced) in *rests {
            let marked = format!(in alloc; "// é\n{front}{rest}")?;
            let (text, byte) = unmarked(alloc, marked.as_str())?;
            let document = document_by(alloc, &schema, text.as_str())?;
            let placed = document.policy_at(byte).ok_or("a policy")?;
            let at = byte.saturating_sub(placed.start);
            let found = completion_at(alloc, &settings, placed.policy(), at)?;
            let items = found.items.as_slice();
            check_items(&rt, marked.as_str(), items, *kind, *wanted);
            let place = placed.place(found.place);
            assert_eq!(rt; text_at(text.as_str(), place), *replaced, "{marked}");
            assert!(rt; place.start <= byte && byte <= place.end, "{marked}");
        }
    }
    Ok(())
}
