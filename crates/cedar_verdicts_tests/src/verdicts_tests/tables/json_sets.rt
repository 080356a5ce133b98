// Policies in JSON by id and with links, and the answers.
use crate::verdicts_tests::tables::teams::{JSON_BEFORE, JSON_BEHIND};

/// The texts of policies in JSON by id, by their parts, and the lines on each.
pub const BY_ID: [(&[&str], &[&str]); 10] = [
    (
        &[
            r#" "public": "#,
            JSON_BEFORE,
            r#"{".": {"left": {"Var": "resource"}, "attr": "isPublic"}}"#,
            JSON_BEHIND,
        ],
        &["p:2:2: policy `public`: accepted, level 1"],
    ),
    (
        &[
            r#" "misspelt": "#,
            JSON_BEFORE,
            r#"{".": {"left": {"Var": "resource"}, "attr": "isPubic"}}"#,
            JSON_BEHIND,
        ],
        &[
            "p:3:2: policy `misspelt`: refused",
            "p:3:204: error: attribute `isPubic` does not exist on `Team::Doc`; did you mean \
             `isPublic`?",
        ],
    ),
    (
        &[
            r#" "guarded": "#,
            JSON_BEFORE,
            r#"{"&&": {"left": {"has": {"left": {"Var": "principal"}, "attr": "boss"}}, "#,
            r#""right": {"==": {"left": {".": {"left": {"Var": "principal"}, "attr": "boss"}}, "#,
            r#""right": {".": {"left": {"Var": "resource"}, "attr": "owner"}}}}}}"#,
            JSON_BEHIND,
        ],
        &["p:4:2: policy `guarded`: accepted, level 1"],
    ),
    (
        &[
            r#" "unguarded": "#,
            JSON_BEFORE,
            r#"{"==": {"left": {".": {"left": {"Var": "principal"}, "attr": "boss"}}, "#,
            r#""right": {".": {"left": {"Var": "resource"}, "attr": "owner"}}}}"#,
            JSON_BEHIND,
        ],
        &[
            "p:5:2: policy `unguarded`: refused",
            "p:5:221: error: access to optional attribute `boss` on `Team::User` is not guarded; \
             `has` may guard it, as in `a has b && a.b`",
        ],
    ),
    (
        &[
            r#" "untagged": "#,
            JSON_BEFORE,
            r#"{"==": {"left": {"getTag": {"left": {"Var": "principal"}, "#,
            r#""right": {"Value": "x"}}}, "right": {"Value": "y"}}}"#,
            JSON_BEHIND,
        ],
        &[
            "p:6:2: policy `untagged`: refused",
            r#"p:6:220: error: access to a tag of `Team::User` is not guarded; `hasTag` may guard it, as in `a.hasTag("b") && a.getTag("b")`"#,
        ],
    ),
    (
        &[
            r#" "grade": "#,
            JSON_BEFORE,
            r#"{"==": {"left": {".": {"left": {"Var": "principal"}, "attr": "grade"}}, "#,
            r#""right": {"Value": {"__entity": {"type": "Team::Grade", "id": "senor"}}}}}"#,
            JSON_BEHIND,
        ],
        &[
            "p:7:2: policy `grade`: refused",
            r#"p:7:292: error: entity `Team::Grade::"senor"` is not a member of its enumerated type; did you mean `Team::Grade::"senior"`?"#,
        ],
    ),
    (
        &[
            r#" "network": "#,
            JSON_BEFORE,
            r#"{"isInRange": [{".": {"left": {"Var": "context"}, "attr": "ip"}}, "#,
            r#"{"ip": [{"Value": "10.0.0.0/8"}]}]}"#,
            JSON_BEHIND,
        ],
        &["p:8:2: policy `network`: accepted, level 0"],
    ),
    (
        &[
            r#" "no network": "#,
            JSON_BEFORE,
            r#"{"isInRange": [{".": {"left": {"Var": "context"}, "attr": "ip"}}, "#,
            r#"{"Value": {"__extn": {"fn": "ip", "arg": "10.0.0.0/64"}}}]}"#,
            JSON_BEHIND,
        ],
        &[
            "p:9:2: policy `no network`: refused",
            "p:9:272: error: invalid argument: `ip` cannot read `10.0.0.0/64`",
        ],
    ),
    (
        &[
            r#" "staff": {"effect": "forbid", "principal": {"op": "in", "#,
            r#""entity": {"type": "Team::Group", "id": "staff"}}, "action": {"op": "in", "#,
            r#""entity": {"type": "Team::Action", "id": "read"}}, "resource": {"op": "All"}, "#,
            r#""conditions": [{"kind": "unless", "body": {".": {"left": {"Var": "resource"}, "#,
            r#""attr": "isPublic"}}}]}"#,
        ],
        &["p:10:2: policy `staff`: accepted, level 1"],
    ),
    (
        &[
            r#" "never": "#,
            JSON_BEFORE,
            r#"{"is": {"left": {"Var": "principal"}, "entity_type": "Team::Doc"}}"#,
            JSON_BEHIND,
        ],
        &[
            "p:11:2: policy `never`: accepted, level 0",
            "p:11:201: warning: policy is impossible: it evaluates to false for every valid \
             request; this part is never true",
        ],
    ),
];

/// The line of the counts of these policies.
pub const BY_ID_COUNTS: &str =
    "policies: 10, accepted: 5, refused: 5, warnings: 1, faults: 0, level 1";

/// A policy, two templates and their links, some with faults, by parts.
pub const LINKED: [&str; 29] = [
    r#"{"staticPolicies": {"public": {"effect": "permit", "principal": {"op": "All"}, "#,
    r#""action": {"op": "==", "entity": {"type": "Team::Action", "id": "view"}}, "#,
    r#""resource": {"op": "All"}, "conditions": [{"kind": "when", "#,
    "\"body\": {\".\": {\"left\": {\"Var\": \"resource\"}, \"attr\": \"isPublic\"}}}]}},\n",
    " \"templates\": {\n",
    r#"  "share": {"effect": "permit", "principal": {"op": "==", "slot": "?principal"}, "#,
    r#""action": {"op": "==", "entity": {"type": "Team::Action", "id": "view"}}, "#,
    "\"resource\": {\"op\": \"==\", \"slot\": \"?resource\"}},\n",
    r#"  "peek": {"effect": "permit", "principal": {"op": "in", "slot": "?principal"}, "#,
    r#""action": {"op": "==", "entity": {"type": "Team::Action", "id": "view"}}, "#,
    r#""resource": {"op": "All"}, "conditions": [{"kind": "when", "#,
    "\"body\": {\".\": {\"left\": {\"Var\": \"resource\"}, \"attr\": \"isPubic\"}}}]}\n",
    " },\n",
    " \"templateLinks\": [\n",
    r#"  {"templateId": "share", "newId": "share-ann", "#,
    r#""values": {"?principal": {"__entity": {"type": "Team::User", "id": "ann"}}, "#,
    "\"?resource\": {\"__entity\": {\"type\": \"Team::Doc\", \"id\": \"d\"}}}},\n",
    r#"  {"templateId": "share", "newId": "share-doc", "#,
    r#""values": {"?principal": {"__entity": {"type": "Team::Doc", "id": "d"}}, "#,
    "\"?resource\": {\"__entity\": {\"type\": \"Team::Doc\", \"id\": \"d\"}}}},\n",
    r#"  {"templateId": "share", "newId": "half", "#,
    "\"values\": {\"?principal\": {\"__entity\": {\"type\": \"Team::User\", \"id\": \"ann\"}}}},\n",
    "  {\"templateId\": \"nope\", \"newId\": \"none\", \"values\": {}},\n",
    r#"  {"templateId": "share", "newId": "share-ann", "#,
    r#""values": {"?principal": {"__entity": {"type": "Team::User", "id": "ann"}}, "#,
    "\"?resource\": {\"__entity\": {\"type\": \"Team::Doc\", \"id\": \"d\"}}}},\n",
    r#"  {"templateId": "peek", "newId": "peek-staff", "#,
    "\"values\": {\"?principal\": {\"__entity\": {\"type\": \"Team::Group\", \"id\": \"staff\"}}}}\n",
    " ]}\n",
];

/// The lines on these policies.
pub const LINKED_LINES: [&str; 15] = [
    "p:1:21: policy `public`: accepted, level 1",
    "p:3:3: policy `share`: accepted, level 0",
    "p:4:3: policy `peek`: refused",
    "p:4:222: error: attribute `isPubic` does not exist on `Team::Doc`; did you mean \
     `isPublic`?",
    "p:7:3: policy `share-ann`: accepted, level 0",
    "p:8:3: policy `share-doc`: accepted, level 0",
    "p:8:3: warning: policy is impossible: it evaluates to false for every valid request",
    "p:8:3: warning: unable to find an applicable action given the policy scope \
     constraints; `Team::Action::\"view\"` applies to no principal of the type \
     `Team::Doc`",
    "p:9:54: fault: the key `?resource` is missing",
    "p:10:18: fault: a name that is not declared: `nope`",
    "p:11:3: policy `share-ann`: refused, level 0",
    "p:11:3: error: the policy at 7:3 of this file has the same id",
    "p:12:3: policy `peek-staff`: refused",
    "p:4:222: error: attribute `isPubic` does not exist on `Team::Doc`; did you mean \
     `isPublic`?",
    "policies: 7, accepted: 4, refused: 3, warnings: 2, faults: 2, level 1",
];
