// Schemas in several files.
use crate::findings_tests::cases::check;
use cedar_findings::faults::{TextFault, schema_fault};
use cedar_findings::schema_texts::SchemaTexts;
use cedar_reading::schema;
use cedar_types::base::Loc;
use std::alloc::Global;
use std::test::Fail;

/// The texts of some files with a `|` between them, and their fault as one schema.
const SCHEMAS: [(&str, &str); 12] = [
    ("entity A;", ""),
    ("entity A { b: B };|entity B; // B", ""),
    (
        "// A|entity A;|action a appliesTo { principal: A, resource: A };",
        "",
    ),
    (
        "namespace N { entity A; }|namespace N { entity B in A; }",
        "",
    ),
    (
        "entity A;|entity B { c: C };",
        "1 at 14: a type that is not declared: `C`",
    ),
    (
        "entity A { c: C };|entity B;",
        "0 at 14: a type that is not declared: `C`",
    ),
    (
        "entity A;|entity A;",
        "1 at 7: an entity type is declared twice: `A`",
    ),
    (
        "entity A|;",
        "0 at 8: a declaration does not end in the file that it begins in",
    ),
    (
        "namespace N { entity A;|entity B; }",
        "0 at 23: a declaration does not end in the file that it begins in",
    ),
    (
        "entity A enum [\"a|\"];",
        "0 at 17: a declaration does not end in the file that it begins in",
    ),
    (
        "@a(|\"b\") entity A;",
        "0 at 3: a declaration does not end in the file that it begins in",
    ),
    (
        "entity A;|entity",
        "1 at 6: a name is expected, where the text ends",
    ),
];

/// The number of the file with the fault of some texts, its byte, and its words.
fn describe_in_files(alloc: Global, all: &str) -> Result<String, Fail> {
    let mut texts = SchemaTexts::new(alloc);
    for text in all.split('|') {
        texts.add(text)?;
    }
    let fault = match schema(alloc, texts.text()) {
        Ok(_) => return Ok(String::new(alloc)),
        Err(error) => schema_fault(alloc, texts.text(), error)?,
    };
    let (number, TextFault { place, text }) = texts.own_fault(alloc, fault)?;
    let Loc { start, .. } = place;
    Ok(format!(in alloc; "{number} at {start}: {text}")?)
}

#[test]
fn faults(rt: HostRuntime) -> Result<(), Fail> {
    check(&rt, describe_in_files, &SCHEMAS)
}
