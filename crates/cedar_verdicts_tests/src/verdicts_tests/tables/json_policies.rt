// Policies in JSON, and the answers.
use crate::verdicts_tests::tables::teams::{JSON_BEFORE, JSON_BEHIND, TEAM, TEAM_TEXT};
use cedar_findings::syntaxes::Syntax;

/// Policies in JSON by their parts, with the status and the lines.
pub const POLICIES: [(&[&str], u8, &[&str]); 8] = [
    (
        &[
            " \n",
            "\t{\"effect\": \"permit\", \"principal\": {\"op\": \"All\"}, \"action\": {\"op\": \"==\", ",
            r#""entity": {"type": "Team::Action", "id": "view"}}, "resource": {"op": "All"}, "#,
            r#""conditions": [{"kind": "when", "body": {".": {"left": {"Var": "resource"}, "#,
            r#""attr": "isPublic"}}}]}"#,
        ],
        0,
        &[
            "p:2:2: policy `policy0`: accepted, level 1",
            "policies: 1, accepted: 1, refused: 0, warnings: 0, faults: 0, level 1",
        ],
    ),
    (
        &[
            r#"{"effect": "permit", "principal": {"op": "==", "slot": "?principal"}, "#,
            r#""action": {"op": "==", "entity": {"type": "Team::Action", "id": "view"}}, "#,
            r#""resource": {"op": "==", "slot": "?resource"}}"#,
        ],
        0,
        &[
            "p:1:1: policy `policy0`: accepted, level 0",
            "policies: 1, accepted: 1, refused: 0, warnings: 0, faults: 0, level 0",
        ],
    ),
    (
        &[
            r#"[{"effect": "permit", "principal": {"op": "All"}, "action": {"op": "==", "#,
            r#""entity": {"type": "Team::Action", "id": "view"}}, "resource": {"op": "All"}, "#,
            r#""conditions": [{"kind": "when", "body": {".": {"left": {"Var": "resource"}, "#,
            "\"attr\": \"isPublic\"}}}]},\n",
            r#"{"effect": "permit", "principal": {"op": "All"}, "action": {"op": "==", "#,
            r#""entity": {"type": "Team::Action", "id": "view"}}, "resource": {"op": "All"}, "#,
            r#""conditions": [{"kind": "when", "body": {".": {"left": {"Var": "resource"}, "#,
            r#""attr": "isPublic"}}}], "annotations": {"id": "b"}}]"#,
        ],
        0,
        &[
            "p:1:2: policy `policy0`: accepted, level 1",
            "p:2:1: policy `b`: accepted, level 1",
            "policies: 2, accepted: 2, refused: 0, warnings: 0, faults: 0, level 1",
        ],
    ),
    (
        &["[]"],
        0,
        &["policies: 0, accepted: 0, refused: 0, warnings: 0, faults: 0"],
    ),
    (
        &["{}"],
        0,
        &["policies: 0, accepted: 0, refused: 0, warnings: 0, faults: 0"],
    ),
    (
        &[r#"{"templateLinks": []}"#],
        0,
        &["policies: 0, accepted: 0, refused: 0, warnings: 0, faults: 0"],
    ),
    (
        &[
            r#"{"effect": "permit", "conditions": [{"kind": "when", "#,
            r#""body": {".": {"left": {"Var": "resource"}, "attr": "isPublic"}}}], "#,
            r#""principal": {"op": "is", "entity_type": "Team::Usr"}, "action": {"op": "==", "#,
            r#""entity": {"type": "Team::Action", "id": "view"}}, "resource": {"op": "All"}}"#,
        ],
        1,
        &[
            "p:1:1: policy `policy0`: refused",
            "p:1:163: error: unrecognized entity type `Team::Usr`; did you mean `Team::User`?",
            "policies: 1, accepted: 0, refused: 1, warnings: 0, faults: 0",
        ],
    ),
    (
        &[
            JSON_BEFORE,
            r#"{"isIpv4": [{".": {"left": {"Var": "context"}, "attr": "ip"}}]}"#,
            JSON_BEHIND,
        ],
        0,
        &[
            "p:1:1: policy `policy0`: accepted, level 0",
            "policies: 1, accepted: 1, refused: 0, warnings: 0, faults: 0, level 0",
        ],
    ),
];

/// A level, a syntax, a schema, and policies by their parts, with the status and the lines.
pub const ASKED: [(Option<u32>, Option<Syntax>, &str, &[&str], u8, &[&str]); 7] = [
    (
        None,
        Some(Syntax::Json),
        TEAM,
        &[
            JSON_BEFORE,
            r#"{".": {"left": {"Var": "resource"}, "attr": "isPublic"}}"#,
            JSON_BEHIND,
        ],
        0,
        &[
            "p:1:1: policy `policy0`: accepted, level 1",
            "policies: 1, accepted: 1, refused: 0, warnings: 0, faults: 0, level 1",
        ],
    ),
    (
        None,
        Some(Syntax::Json),
        TEAM,
        &[
            r#"permit(principal, action == Team::Action::"view", "#,
            "resource) when { resource.isPublic };\n",
        ],
        2,
        &[
            "p:1:1: fault: a value is expected, where `permit` is read; this is no JSON",
            "policies: 0, accepted: 0, refused: 0, warnings: 0, faults: 1",
        ],
    ),
    (
        None,
        Some(Syntax::Json),
        TEAM,
        &[" \n"],
        2,
        &[
            "p:2:1: fault: a value is expected, where the text ends; this is no JSON",
            "policies: 0, accepted: 0, refused: 0, warnings: 0, faults: 1",
        ],
    ),
    (
        None,
        Some(Syntax::Json),
        TEAM_TEXT,
        &[
            JSON_BEFORE,
            r#"{".": {"left": {"Var": "resource"}, "attr": "isPublic"}}"#,
            JSON_BEHIND,
        ],
        2,
        &["s:1:1: fault: a value is expected, where `namespace` is read; this is no JSON"],
    ),
    (
        None,
        Some(Syntax::Cedar),
        TEAM_TEXT,
        &[
            r#"[{"effect": "permit", "principal": {"op": "All"}, "action": {"op": "==", "#,
            r#""entity": {"type": "Team::Action", "id": "view"}}, "resource": {"op": "All"}, "#,
            r#""conditions": [{"kind": "when", "body": {".": {"left": {"Var": "resource"}, "#,
            r#""attr": "isPublic"}}}]}]"#,
        ],
        2,
        &[
            "p:1:1: fault: `permit` or `forbid` is expected, where `[` is read; JSON is read \
             where a file begins with it, or by `--input json`",
            "policies: 0, accepted: 0, refused: 0, warnings: 0, faults: 1",
        ],
    ),
    (
        None,
        Some(Syntax::Cedar),
        TEAM,
        &[
            r#"permit(principal, action == Team::Action::"view", "#,
            "resource) when { resource.isPublic };\n",
        ],
        2,
        &[
            "s:1:1: fault: a declaration is expected, where `{` is read; JSON is read where a \
             file begins with it, or by `--input json`",
        ],
    ),
    (
        Some(0),
        None,
        TEAM,
        &[
            JSON_BEFORE,
            r#"{".": {"left": {"Var": "resource"}, "attr": "isPublic"}}"#,
            JSON_BEHIND,
        ],
        1,
        &[
            "p:1:1: policy `policy0`: refused, level 1",
            "p:1:191: error: this policy requires level 1, which exceeds the maximum allowed \
             level (0)",
            "policies: 1, accepted: 0, refused: 1, warnings: 0, faults: 0, level 1",
        ],
    ),
];
