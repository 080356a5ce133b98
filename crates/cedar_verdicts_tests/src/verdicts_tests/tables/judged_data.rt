// Entities and requests, and the answers.

/// The schema of these entities and requests.
pub const DATA_SCHEMA: &str = r#"type Address = { street: String, zip: Long };
entity Org;
entity Group in [Group, Org];
entity Color enum ["red", "green"];
entity User in [Group] {
  name: String, age?: Long, boss?: User, homes?: Set<Address>, seen?: Set<datetime>, from?: ipaddr,
} tags Set<String>;
action write;
action read in [write];
action view in [read] appliesTo { principal: User, resource: Group, context: { ip: ipaddr, color?: Color } };
"#;

/// Three entities without a mistake.
pub const GOOD_ENTITIES: &str = r#"[
  { "uid": { "type": "User", "id": "alice" },
    "attrs": { "name": "Alice", "age": 30, "boss": { "type": "User", "id": "bob" },
               "homes": [ { "street": "High Street", "zip": 12 } ], "seen": [ "2024-01-01" ], "from": "10.0.0.1" },
    "parents": [ { "type": "Group", "id": "staff" } ], "tags": { "team": [ "a", "b" ] } },
  { "uid": { "__entity": { "type": "User", "id": "bob" } },
    "attrs": { "name": "Bob", "boss": { "__entity": { "type": "User", "id": "alice" } },
               "seen": [ { "fn": "datetime", "arg": "2024-01-02" }, { "__extn": { "fn": "datetime", "arg": "2024-01-03" } } ],
               "from": { "__extn": { "fn": "ip", "arg": "::1/64" } } },
    "parents": [] },
  { "uid": { "type": "Group", "id": "staff" }, "attrs": {}, "parents": [ { "type": "Org", "id": "acme" } ] }
]
"#;

/// Three entities with ten mistakes.
pub const TEN_MISTAKES: &str = r#"[
  { "uid": { "type": "User", "id": "alice" },
    "attrs": { "age": "30", "boss": "bob",
               "homes": [ { "street": "High Street", "zip": 12 }, { "street": "Low Street", "zip": "x" } ],
               "seen": [ "2024-13-01" ], "from": { "fn": "ipv4", "arg": "10.0.0.1" }, "emial": "a@b" },
    "parents": [ { "type": "Color", "id": "red" } ] },
  { "uid": { "type": "Usr", "id": "bob" }, "attrs": {}, "parents": [] },
  { "uid": { "type": "Group", "id": "a" }, "attrs": {}, "parents": [ { "type": "Group", "id": "a" } ] }
]
"#;

/// A request without a mistake.
pub const GOOD_REQUEST: &str =
    r#"{ "principal": { "type": "User", "id": "alice" }, "action": { "type": "Action", "id": "view" },
  "resource": { "type": "Group", "id": "staff" }, "context": { "ip": "10.0.0.1" } }
"#;

/// Entities or a request, with the status and the lines.
pub const DATA: [(Option<&str>, Option<&str>, u8, &[&str]); 16] = [
    (
        Some(GOOD_ENTITIES),
        Some(GOOD_REQUEST),
        0,
        &[
            "policies: 0, accepted: 0, refused: 0, warnings: 0, faults: 0, entities: 3, errors in \
             data: 0",
        ],
    ),
    (
        Some(GOOD_ENTITIES),
        None,
        0,
        &[
            "policies: 0, accepted: 0, refused: 0, warnings: 0, faults: 0, entities: 3, errors in \
             data: 0",
        ],
    ),
    (
        None,
        Some(
            r#"{"principal": "User::\"alice\"", "action": "Action::\"view\"", "resource": "Group::\"staff\"", "context": {"ip": "::1"}}"#,
        ),
        0,
        &[
            "policies: 0, accepted: 0, refused: 0, warnings: 0, faults: 0, entities: 0, errors in \
             data: 0",
        ],
    ),
    (
        Some("[]"),
        None,
        0,
        &[
            "policies: 0, accepted: 0, refused: 0, warnings: 0, faults: 0, entities: 0, errors in \
             data: 0",
        ],
    ),
    (
        Some(TEN_MISTAKES),
        None,
        2,
        &[
            "e:3:14: error: User::\"alice\".name: expected String, found nothing",
            "e:3:23: error: User::\"alice\".age: expected Long, found String",
            "e:3:37: error: User::\"alice\".boss: expected User, found String",
            "e:4:100: error: User::\"alice\".homes[1].zip: expected Long, found String",
            "e:5:26: error: `datetime` cannot read `2024-13-01`",
            "e:5:58: fault: `ip`, `decimal`, `datetime` or `duration` is expected, where \
             `\"ipv4\"` is read",
            "e:5:87: error: User::\"alice\".emial: the attribute is not declared",
            r#"e:6:18: error: User::"alice": it may not be in Color::"red""#,
            "e:7:12: error: Usr::\"bob\": it is not declared; did you mean `User`?",
            r#"e:8:70: error: parents in a circle: Group::"a" in Group::"a""#,
            "policies: 0, accepted: 0, refused: 0, warnings: 0, faults: 1, entities: 3, errors in \
             data: 9",
        ],
    ),
    (
        Some(
            r#"[
  { "uid": { "type": "User", "id": "a" }, "attrs": { "name": "A", "agee": 3, "homes": [ { "street": "x", "zip": 1, "stret": "y" } ] },
    "parents": [ { "type": "Grop", "id": "b" } ] },
  { "uid": { "type": "Group", "id": "c" }, "attr": {}, "parents": [] }
]
"#,
        ),
        None,
        2,
        &[
            "e:2:67: error: User::\"a\".agee: the attribute is not declared; did you mean `age`?",
            "e:2:116: error: User::\"a\".homes[0].stret: the attribute is not declared; did you \
             mean `street`?",
            r#"e:3:18: error: User::"a": it may not be in Grop::"b"; did you mean `Group`?"#,
            "e:4:3: fault: the key `attrs` is missing",
            "e:4:44: fault: a key that has no meaning here: `attr`; did you mean `attrs`?",
            "policies: 0, accepted: 0, refused: 0, warnings: 0, faults: 2, entities: 2, errors in \
             data: 3",
        ],
    ),
    (
        None,
        Some(
            r#"{"principal": "Usr::\"a\"", "action": "Action::\"view\"", "resource": "Group::\"g\"", "context": {"ip": "::1", "colr": 1}}"#,
        ),
        1,
        &[
            "q:1:15: error: principal: the action does not apply to Usr; did you mean `User`?",
            "q:1:112: error: context.colr: the attribute is not declared; did you mean `color`?",
            "policies: 0, accepted: 0, refused: 0, warnings: 0, faults: 0, entities: 0, errors in \
             data: 2",
        ],
    ),
    (
        Some(
            r#"[{"uid": {"type": "Group", "id": "a"}, "attrs": {}, "parents": [{"type": "Group", "id": "b"}]},
{"uid": {"type": "Group", "id": "b"}, "attrs": {}, "parents": [{"type": "Group", "id": "c"}]},
{"uid": {"type": "Group", "id": "c"}, "attrs": {}, "parents": [{"type": "Group", "id": "a"}]}]"#,
        ),
        None,
        1,
        &[
            r#"e:1:65: error: parents in a circle: Group::"a" in Group::"b" in Group::"c" in Group::"a""#,
            "policies: 0, accepted: 0, refused: 0, warnings: 0, faults: 0, entities: 3, errors in \
             data: 1",
        ],
    ),
    (
        Some(
            r#"[{"uid": {"type": "Group", "id": "a"}, "attrs": {}, "parents": []},
{"uid": {"type": "Group", "id": "b"}, "attrs": {}, "parents": []},
{"uid": {"type": "Group", "id": "a"}, "attrs": {}, "parents": []}]"#,
        ),
        None,
        1,
        &[
            "e:3:9: error: Group::\"a\": the entity at 1:10 of this file has the same id",
            "policies: 0, accepted: 0, refused: 0, warnings: 0, faults: 0, entities: 2, errors in \
             data: 1",
        ],
    ),
    (
        Some(
            r#"[{"uid": {"type": "Org", "id": "a"}, "attrs": null, "parents": []},
{"uid": {"type": "Org", "id": "b"}, "attrs": {}, "parents": [], "more": 1},
{"uid": {"type": "Org", "id": "c"}, "attrs": {}},
{"uid": {"type": "Org", "id": "d"}, "attrs": {"d": 1}, "parents": []}]"#,
        ),
        None,
        2,
        &[
            "e:1:47: fault: `null` has no meaning here; what is not there is left out with its \
             key",
            "e:2:65: fault: a key that has no meaning here: `more`",
            "e:3:1: fault: the key `parents` is missing",
            "e:4:47: error: Org::\"d\".d: the attribute is not declared",
            "policies: 0, accepted: 0, refused: 0, warnings: 0, faults: 3, entities: 4, errors in \
             data: 1",
        ],
    ),
    (
        Some("[{\"uid\": null}]"),
        None,
        2,
        &[
            "e:1:10: fault: `null` has no meaning here; what is not there is left out with its \
             key",
            "policies: 0, accepted: 0, refused: 0, warnings: 0, faults: 1, entities: 0, errors in \
             data: 0",
        ],
    ),
    (
        Some(r#"[{"uid": 1, "uid": 2}]"#),
        None,
        2,
        &[
            "e:1:13: fault: the same key twice: `uid`",
            "policies: 0, accepted: 0, refused: 0, warnings: 0, faults: 1, entities: 0, errors in \
             data: 0",
        ],
    ),
    (
        Some("{}"),
        None,
        2,
        &[
            "e:1:1: fault: a list is expected, where `{` is read",
            "policies: 0, accepted: 0, refused: 0, warnings: 0, faults: 1, entities: 0, errors in \
             data: 0",
        ],
    ),
    (
        None,
        Some(
            r#"{"principal": "User::\"a\"", "action": "Action::\"veiw\"", "resource": "Group::\"g\"", "context": {}}"#,
        ),
        1,
        &[
            r#"q:1:40: error: action: Action::"veiw" is not declared; did you mean `Action::"view"`?"#,
            "policies: 0, accepted: 0, refused: 0, warnings: 0, faults: 0, entities: 0, errors in \
             data: 1",
        ],
    ),
    (
        None,
        Some(
            r#"{ "principal": { "type": "User", "id": "alice" }, "action": { "type": "Action", "id": "view" },
  "resource": { "type": "User", "id": "staff" }, "context": { "ip": "10.0.0.256", "color": {"type": "Color", "id": "blue"}, "n": 1 } }
"#,
        ),
        1,
        &[
            "q:2:15: error: resource: the action does not apply to User",
            "q:2:69: error: `ip` cannot read `10.0.0.256`",
            "q:2:92: error: Color::\"blue\": the type `Color` does not have this id",
            "q:2:125: error: context.n: the attribute is not declared",
            "policies: 0, accepted: 0, refused: 0, warnings: 0, faults: 0, entities: 0, errors in \
             data: 4",
        ],
    ),
    (
        None,
        Some("{}"),
        2,
        &[
            "q:1:1: fault: the key `principal` is missing",
            "q:1:1: fault: the key `action` is missing",
            "q:1:1: fault: the key `resource` is missing",
            "q:1:1: fault: the key `context` is missing",
            "policies: 0, accepted: 0, refused: 0, warnings: 0, faults: 4, entities: 0, errors in \
             data: 0",
        ],
    ),
];

/// Entities by their pieces, each with its number of repetitions; with the status and the lines.
pub const NESTED: [(&[(&str, usize)], u8, &[&str]); 1] = [(
    &[("[", 100000)],
    2,
    &[
        "e:1:401: fault: nested too deep: 400 objects and lists may stand inside each other",
        "policies: 0, accepted: 0, refused: 0, warnings: 0, faults: 1, entities: 0, errors in \
         data: 0",
    ],
)];
