// Schemas while they are written: the last one without a fault counts.
use crate::editor_tests::judged::{
    Check, OF_USERS, SCHEMA, check_shown, document_by, judge_by, place_in, text_at,
};
use cedar_editor::diagnostics::schema_diagnostics;
use cedar_editor::edits::{Edit, edited};
use cedar_editor::lines::Position;
use cedar_editor::schemas::{SchemaDocument, SchemaSource, SchemaText};
use cedar_findings::codes::Code;
use cedar_findings::syntaxes::Syntax;
use cedar_types::base::ExtensionSchemas;
use std::alloc::Global;
use std::process::Abort;
use std::test::Fail;

/// The only text of a schema.
fn only_text<'a>(schema: &'a SchemaDocument<'_, Check>) -> Result<&'a SchemaText, Fail> {
    match schema.texts() {
        [text] => Ok(text),
        _ => Err(Fail::from("one text")),
    }
}

/// Puts a text in Cedar's syntax in place of the texts of a schema.
fn replace<'e>(
    alloc: Global,
    schema: &mut SchemaDocument<'e, Check>,
    extensions: &'e ExtensionSchemas<Check>,
    text: &str,
) -> Result<(), Fail> {
    let source = SchemaSource {
        syntax: Syntax::Cedar,
        text,
    };
    Ok(schema.replace(alloc, extensions, &[source])?)
}

/// Checks that a schema has one fault, at this part of its text, or none if there is no part.
fn check_faults(
    rt: &(impl Abort + AllocGlobal),
    schema: &SchemaDocument<'_, Check>,
    part: Option<&str>,
) -> Result<(), Fail> {
    let own = only_text(schema)?;
    let text = own.text.as_str();
    let told = schema_diagnostics(rt.alloc(), own)?;
    assert_eq!(rt;
        told.len(),
        if part.is_some() { 1 } else { 0 },
        "for {text}"
    );
    for it in &told {
        assert!(rt; it.code == Code::Fault, "for {text}");
        assert_eq!(rt; text_at(text, it.place), part.unwrap_or(""), "for {text}");
        assert!(rt; it.other.is_none() && !it.message.is_empty(), "for {text}");
    }
    Ok(())
}

/// Checks the lines on a policy of this condition by a schema.
fn check_policy(
    rt: &(impl Abort + AllocGlobal),
    schema: &SchemaDocument<'_, Check>,
    condition: &str,
    wanted: &[&str],
) -> Result<(), Fail> {
    let alloc = rt.alloc();
    let text = format!(in alloc; "{OF_USERS}{condition} }};")?;
    let document = document_by(alloc, schema, text.as_str())?;
    check_shown(rt, &document, wanted)
}

/// Schemas in JSON, and whether each has no fault.
const OF_JSON: [(&str, bool); 4] = [
    ("{}", true),
    (
        r#"{"": {"entityTypes": {"User": {}}, "actions": {}}}"#,
        true,
    ),
    (
        r#"{"": {"entityTypes": {"User": {"memberOfTypes": ["Gone"]}}, "actions": {}}}"#,
        false,
    ),
    ("{", false),
];

#[test]
fn the_last_good_schema_stays(rt: HostRuntime) -> Result<(), Fail> {
    let alloc = rt.alloc();
    let extensions = ExtensionSchemas::default(alloc);
    let mut schema = SchemaDocument::new(alloc, &extensions, Syntax::Cedar, SCHEMA)?;
    check_faults(&rt, &schema, None)?;
    check_policy(&rt, &schema, "principal.name == \"a\"", &[])?;
    // the type of the name is unknown now
    let place = place_in(SCHEMA, "String, team");
    let range = only_text(&schema)?.range(place);
    assert_eq!(rt; range.start, Position { line: 2, unit: 20 });
    assert_eq!(rt; range.end, Position { line: 2, unit: 32 });
    let edit = Edit {
        range: Some(range),
        text: "Strin, team",
    };
    let text = edited(alloc, SCHEMA, &[edit])?;
    assert!(rt; text.as_str().contains("{ name: Strin, team: Team"));
    replace(alloc, &mut schema, &extensions, text.as_str())?;
    assert!(rt; schema.has_fault());
    check_faults(&rt, &schema, Some("Strin"))?;
    check_policy(&rt, &schema, "principal.name == \"a\"", &[])?;
    // a fault of form
    replace(
        alloc,
        &mut schema,
        &extensions,
        "entity User { name String };",
    )?;
    check_faults(&rt, &schema, Some("String"))?;
    check_policy(&rt, &schema, "principal.name == \"a\"", &[])?;
    // another good schema, in which the name is a number
    let text = SCHEMA.replace(alloc, "name: String", "name: Long")?;
    replace(alloc, &mut schema, &extensions, text.as_str())?;
    assert!(rt; !schema.has_fault());
    check_faults(&rt, &schema, None)?;
    check_policy(&rt, &schema, "principal.name == 1", &[])?;
    check_policy(
        &rt,
        &schema,
        "principal.name == \"a\"",
        &["0:51 error incompatible-types `principal.name == \"a\"`"],
    )?;
    // a schema that never was good has no validator, and one in JSON has no declarations
    for (text, is_good) in &OF_JSON {
        let schema = SchemaDocument::new(alloc, &extensions, Syntax::Json, text)?;
        assert_eq!(rt; schema.validator().is_some(), *is_good, "{text}");
        assert_eq!(rt; schema.has_fault(), !*is_good, "{text}");
        let own = only_text(&schema)?;
        assert_eq!(rt; own.faults.is_empty(), *is_good, "{text}");
        assert!(rt; own.declared.is_empty(), "{text}");
        assert_eq!(rt; judge_by(&schema, None).is_some(), *is_good, "{text}");
    }
    Ok(())
}

/// Texts of the files of a schema, each with its syntax and the text at the place of its fault, which is empty if it has none.
const FILES: [&[(Syntax, &str, &str)]; 5] = [
    // a name of one file is declared in another
    &[
        (Syntax::Cedar, "entity User { team: Team };", ""),
        (Syntax::Cedar, "entity Team;", ""),
    ],
    // a fault stands in its own file
    &[
        (Syntax::Cedar, "entity User;", ""),
        (Syntax::Cedar, "entity Team { lead: Usr };", "Usr"),
    ],
    &[
        (Syntax::Cedar, "entity User { team: Tem };", "Tem"),
        (Syntax::Cedar, "entity Team;", ""),
    ],
    // a name is declared in both files
    &[
        (Syntax::Cedar, "entity User;", ""),
        (Syntax::Cedar, "entity Team; entity User;", "User"),
    ],
    // a schema without a text declares nothing
    &[],
];

#[test]
fn schemas_of_several_files(rt: HostRuntime) -> Result<(), Fail> {
    let alloc = rt.alloc();
    let extensions: ExtensionSchemas<Check> = ExtensionSchemas::default(alloc);
    for files in &FILES {
        let mut sources = Vec::new(alloc);
        let mut is_faulty = false;
        for (syntax, text, fault) in *files {
            is_faulty = is_faulty || !fault.is_empty();
            sources.push(SchemaSource {
                syntax: *syntax,
                text,
            })?;
        }
        let schema = SchemaDocument::of_texts(alloc, &extensions, sources.as_slice())?;
        assert_eq!(rt; schema.texts().len(), files.len());
        assert_eq!(rt; schema.has_fault(), is_faulty);
        assert_eq!(rt; schema.validator().is_none(), is_faulty);
        for (own, (_, text, fault)) in schema.texts().iter().zip(files.iter()) {
            assert_eq!(rt; own.text.as_str(), *text);
            assert_eq!(rt; own.faults.len(), usize::from(!fault.is_empty()), "{text}");
            for it in &own.faults {
                assert_eq!(rt; text_at(text, it.place), *fault, "{text}");
            }
        }
    }
    // a text of JSON must be alone
    let sources = [
        SchemaSource {
            syntax: Syntax::Cedar,
            text: "entity User;",
        },
        SchemaSource {
            syntax: Syntax::Json,
            text: "{}",
        },
    ];
    let schema = SchemaDocument::of_texts(alloc, &extensions, &sources)?;
    assert!(rt; schema.has_fault() && schema.validator().is_none());
    let faults = schema.texts().iter().map(|own| own.faults.len());
    assert!(rt; faults.eq([0, 1]));
    Ok(())
}
