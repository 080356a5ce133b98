// Texts whose findings are shown in each format, and the answers.

/// A schema with ten faults.
pub const FAULTY_SCHEMA: &str = "entity User in Grop {
  name: Strng,
  name: Long,
  boss: Usr
};
entity User;
entity Kind enum [];
entity Broken { a Long };
entity Uses { b: Broken, c: Gone };
type T = { t: T };
action view in [gone];
";

/// The line and the column of each, and its text.
pub const SCHEMA_FAULTS: [(usize, usize, &str); 10] = [
    (1, 16, "a name that is not declared, where `Grop` is read"),
    (2, 9, "a type that is not declared: `Strng`"),
    (3, 3, "the same key twice, where `name` is read"),
    (4, 9, "a type that is not declared: `Usr`"),
    (6, 8, "an entity type is declared twice: `User`"),
    (7, 8, "an enumerated type has no ids: `Kind`"),
    (8, 19, "`:` is expected, where `Long` is read"),
    (9, 29, "a type that is not declared: `Gone`"),
    (
        10,
        15,
        "nested too deep, as a type that contains itself is, where `T` is read",
    ),
    (11, 17, "a name that is not declared, where `gone` is read"),
];

/// Policies with lines that are commands to a code host if they stand at the beginning of a line,
/// or anywhere.
pub const COMMANDS: [&str; 3] = [
    "permit(principal, action, resource) when {
::error file=app.js,line=1::forged by a policy
};
",
    "@id(\"a\")
permit(principal, action, resource) when { principal.name == \"
::stop-commands::x
\" && resource.nope };
",
    "@id(\"##[error]x\")
permit(principal, action, resource) when { principal.name == \"##vso[task.setvariable]\" && resource[\"##[b]\"] };
",
];

/// The results of a policy that is refused and of one that cannot be read, in SARIF.
pub const POLICY_RESULTS: [&str; 2] = [
    r#"{"ruleId":"unknown-attribute","level":"error","message":{"text":"policy `policy0`: attribute `x` does not exist on `User`"},"locations":[{"physicalLocation":{"artifactLocation":{"uri":"a%20b%3Ac"},"region":{"startLine":1,"startColumn":44,"endLine":1,"endColumn":55}}}]}"#,
    r#"{"ruleId":"fault","level":"error","message":{"text":"`principal` is expected, where `;` is read"},"locations":[{"physicalLocation":{"artifactLocation":{"uri":"a%20b%3Ac"},"region":{"startLine":4,"startColumn":8,"endLine":4,"endColumn":9}}}]}"#,
];

/// The objects of a policy and of data with one mistake.
pub const DATA_OBJECTS: &str =
    r#"{"kind":"policy","file":"p","line":1,"column":1,"end_line":1,"end_column":37,"id":"policy0","accepted":true,"level":0}
{"kind":"data","file":"e","line":3,"column":40,"end_line":3,"end_column":43,"code":"data-type","text":"User::\"alice\".age: expected Long, found String"}
{"kind":"summary","policies":1,"accepted":1,"refused":0,"warnings":0,"faults":0,"entities":3,"data_errors":1,"level":0}
"#;

/// The result of this mistake, in SARIF.
pub const DATA_RESULT: &str =
    r#"{"ruleId":"data-type","level":"error","message":{"text":"User::\"alice\".age: expected Long, found String"},"locations":[{"physicalLocation":{"artifactLocation":{"uri":"e"},"region":{"startLine":3,"startColumn":40,"endLine":3,"endColumn":43}}}]}"#;
