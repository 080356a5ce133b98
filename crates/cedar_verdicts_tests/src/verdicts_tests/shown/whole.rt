// The output of all texts of a call, in a format.
use crate::verdicts_tests::asked::cedar_functions;
use cedar_findings::colours::Colours;
use cedar_findings::columns::Columns;
use cedar_findings::formats::Format;
use cedar_findings::outputs::Output;
use cedar_findings::sources::Source;
use cedar_typechecker::rbac::Validator;
use cedar_types::base::{ValidationMode, ValidatorSchema};
use cedar_verdicts::data::DataKind;
use cedar_verdicts::links::Links;
use cedar_verdicts::settings::Settings;
use cedar_verdicts::shown::policies::{Shared, ShownPolicies};
use cedar_verdicts::shown::schemas::{SchemaFiles, Taken};
use cedar_verdicts::shown::texts::show_data;
use std::alloc::{AllocError, Global};
use std::process::Abort;
use std::test::Fail;

/// The texts of a call: the schema `s`, policies by the names of their files, and if there are such, the entities `e` and the
/// request `q`.
#[derive(Clone, Copy)]
pub struct Texts<'p, 'd> {
    pub schema: &'p str,
    pub policies: &'p [(&'p str, &'p str)],
    pub entities: Option<&'d str>,
    pub request: Option<&'d str>,
}

impl<'p> Texts<'p, 'p> {
    /// A schema and policies, without data.
    pub fn of_policies(schema: &'p str, policies: &'p [(&'p str, &'p str)]) -> Texts<'p, 'p> {
        Texts {
            schema,
            policies,
            entities: None,
            request: None,
        }
    }
}

/// The output of these texts in the format of this name, which must be one.
pub fn output_in(
    rt: &(impl Abort + AllocGlobal),
    format: &str,
    texts: Texts<'_, '_>,
) -> Result<Output, Fail> {
    let alloc = rt.alloc();
    let Some(format) = Format::by_name(format) else {
        panic!(rt; "there is a format {format}");
    };
    let mut output = Output::new(alloc, Colours::None);
    output.begin(alloc, format, Columns::Characters)?;
    match schema_shown(alloc, texts.schema, &mut output)? {
        None => output.totals.add_missing_schema(),
        Some(schema) => show_texts(alloc, schema, texts, &mut output)?,
    }
    output.end(alloc)?;
    Ok(output)
}

/// The schema of a text, or `None` if its faults are shown.
fn schema_shown(
    alloc: Global,
    text: &str,
    output: &mut Output,
) -> Result<Option<ValidatorSchema>, AllocError> {
    let mut names = Vec::new(alloc);
    names.push(String::from_str(alloc, "s")?)?;
    let mut files = SchemaFiles::new(alloc, names.as_slice(), None);
    if let Taken::Whole(schema) = files.take_in(alloc, Source { name: "s", text }, output)? {
        return Ok(schema);
    }
    files.schema(alloc, output)
}

fn show_texts(
    alloc: Global,
    schema: ValidatorSchema,
    texts: Texts<'_, '_>,
    output: &mut Output,
) -> Result<(), Fail> {
    let functions = cedar_functions(alloc)?;
    let validator = Validator::new(schema, &functions);
    let settings = Settings {
        validator: &validator,
        mode: ValidationMode::Strict,
        level: None,
        syntax: None,
    };
    for (name, text) in texts.policies {
        show_policies(alloc, &settings, Source { name, text }, output)?;
    }
    for (name, kind, text) in [
        ("e", DataKind::Entities, texts.entities),
        ("q", DataKind::Request, texts.request),
    ] {
        if let Some(text) = text {
            output.totals.data.is_asked = true;
            show_data(
                alloc,
                validator.schema(),
                kind,
                Source { name, text },
                output,
            )?;
        }
    }
    Ok(())
}

/// Shows the policies of a file.
fn show_policies(
    alloc: Global,
    settings: &Settings<'_>,
    source: Source<'_>,
    output: &mut Output,
) -> Result<(), AllocError> {
    let mut shared = Shared {
        ids: None,
        links: Links::none(alloc),
    };
    let Some(mut policies) = ShownPolicies::begin(alloc, settings, source, &mut shared, output)?
    else {
        return Ok(());
    };
    for _ in 0..policies.most() {
        if !policies.show_next(alloc, settings, &mut shared, output)? {
            break;
        }
    }
    policies.end(alloc, output)
}
