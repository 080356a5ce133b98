// Schemas of files, and their faults.
use cedar_findings::colours::Colours;
use cedar_findings::outputs::Output;
use cedar_findings::sources::Source;
use cedar_findings::syntaxes::Syntax;
use cedar_verdicts::shown::schemas::{SchemaFiles, Taken};
use std::alloc::{AllocError, Global};
use std::test::Fail;

const JSON: &str = r#"{"": {"entityTypes": {"A": {}}, "actions": {}}}"#;

/// The shown faults of a schema in files `f0`, `f1` and so on of these texts, and whether there is
/// a schema.
fn shown_of(
    alloc: Global,
    syntax: Option<Syntax>,
    texts: &[&str],
) -> Result<(String, bool), AllocError> {
    let mut names = Vec::new(alloc);
    for number in 0..texts.len() {
        names.push(format!(in alloc; "f{number}")?)?;
    }
    let mut output = Output::new(alloc, Colours::None);
    let is_schema = has_schema(alloc, syntax, names.as_slice(), texts, &mut output)?;
    Ok((String::from_str(alloc, output.shown())?, is_schema))
}

fn has_schema(
    alloc: Global,
    syntax: Option<Syntax>,
    names: &[String],
    texts: &[&str],
    output: &mut Output,
) -> Result<bool, AllocError> {
    let mut files = SchemaFiles::new(alloc, names, syntax);
    for (name, text) in names.iter().zip(texts.iter()) {
        let source = Source {
            name: name.as_str(),
            text,
        };
        if let Taken::Whole(schema) = files.take_in(alloc, source, output)? {
            return Ok(schema.is_some());
        }
    }
    Ok(files.schema(alloc, output)?.is_some())
}

/// The texts of files, whether there is a schema, and the text shown. Each file may name the
/// declarations of the others, and a fault stands in its own file. A schema in JSON stands alone.
const FILES: [(&[&str], bool, &str); 7] = [
    (&["entity A { b: B };", "entity B;"], true, ""),
    (
        &["entity A { b: B };", "\nentity C { d: D };"],
        false,
        "f0:1:15: fault: a type that is not declared: `B`\n  1 | entity A { b: B };\n    |               ^\n\
         f1:2:15: fault: a type that is not declared: `D`\n  2 | entity C { d: D };\n    |               ^\n",
    ),
    (&[JSON], true, ""),
    (
        &["{\"\": 1}"],
        false,
        "f0:1:6: fault: an object is expected, where `1` is read\n  1 | {\"\": 1}\n    |      ^\n",
    ),
    (
        &["entity A;", JSON],
        false,
        "f1: fault: a schema in JSON has to be the only file of the schema\n",
    ),
    (
        &[JSON, "entity A;"],
        false,
        "f0: fault: a schema in JSON has to be the only file of the schema\n",
    ),
    // the last line of the first file is not ended
    (
        &[
            "entity Other in [User]; // here",
            "entity User;",
            "entity Bad { a: Other\n, b: Nope };",
        ],
        false,
        "f2:2:6: fault: a type that is not declared: `Nope`\n  2 | , b: Nope };\n    |      ^^^^\n",
    ),
];

#[test]
fn files_of_schemas(rt: HostRuntime) -> Result<(), Fail> {
    let alloc = rt.alloc();
    for (texts, is_schema, wanted) in &FILES {
        let (shown, had_schema) = shown_of(alloc, None, texts)?;
        assert_eq!(rt; shown.as_str(), *wanted);
        assert_eq!(rt; had_schema, *is_schema, "{wanted}");
    }
    Ok(())
}

/// A given syntax decides, whatever the first characters are.
#[test]
fn given_syntaxes(rt: HostRuntime) -> Result<(), Fail> {
    let alloc = rt.alloc();
    for (syntax, text, is_schema) in [
        (Syntax::Json, JSON, true),
        (Syntax::Cedar, JSON, false),
        (Syntax::Json, "entity A;", false),
        (Syntax::Cedar, "entity A;", true),
    ] {
        let (shown, had_schema) = shown_of(alloc, Some(syntax), &[text])?;
        assert_eq!(rt; had_schema, is_schema, "{text}");
        assert_eq!(rt; shown.as_str().is_empty(), is_schema, "{text}");
    }
    Ok(())
}
