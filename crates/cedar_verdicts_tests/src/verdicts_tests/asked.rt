// Verdicts of the library on texts.
use crate::verdicts_tests::lines::Lines;
use crate::verdicts_tests::said::status_of;
use cedar_extensions::checks::Constructor;
use cedar_extensions::functions::{Checks, functions, overloaded_types};
use cedar_findings::schema_texts::SchemaTexts;
use cedar_findings::sources::Source;
use cedar_findings::syntaxes::Syntax;
use cedar_typechecker::rbac::Validator;
use cedar_types::base::{ExtensionSchemas, ValidationMode, ValidatorSchema};
use cedar_verdicts::data::{DataKind, judge_data};
use cedar_verdicts::schemas::{json_schema_or_faults, schema_or_faults};
use cedar_verdicts::settings::Settings;
use cedar_verdicts::texts::{PolicyText, PolicyVerdicts, Said};
use std::alloc::{AllocError, Global};
use std::process::Abort;
use std::test::Fail;

/// Settings in Strict: the level, if there is one, and the syntax, if the first characters do not tell it.
#[derive(Clone, Copy)]
pub struct Asked {
    pub level: Option<u32>,
    pub syntax: Option<Syntax>,
}

/// Settings without a level, in the syntax that the first characters tell.
pub const PLAIN: Asked = Asked {
    level: None,
    syntax: None,
};

/// The lines on the policies `p` by the schema `s`.
pub fn said_of_policies(
    alloc: Global,
    asked: Asked,
    schema: &str,
    policies: &str,
) -> Result<Lines, Fail> {
    let mut lines = Lines::new(alloc);
    let Some(schema) = schema_of(alloc, &mut lines, asked.syntax, schema)? else {
        lines.totals.add_missing_schema();
        return Ok(lines);
    };
    let extensions = cedar_functions(alloc)?;
    let validator = Validator::new(schema, &extensions);
    let settings = Settings {
        validator: &validator,
        mode: ValidationMode::Strict,
        level: asked.level,
        syntax: asked.syntax,
    };
    add_policies(alloc, &mut lines, &settings, policies)?;
    lines.add_totals()?;
    Ok(lines)
}

/// The lines on the entities `e` and on the request `q`, if there are such, by the schema `s`.
pub fn said_of_data(
    alloc: Global,
    schema: &str,
    entities: Option<&str>,
    request: Option<&str>,
) -> Result<Lines, Fail> {
    let mut lines = Lines::new(alloc);
    let Some(schema) = schema_of(alloc, &mut lines, None, schema)? else {
        lines.totals.add_missing_schema();
        return Ok(lines);
    };
    lines.totals.data.is_asked = true;
    if let Some(text) = entities {
        let source = Source { name: "e", text };
        add_data(alloc, &mut lines, &schema, DataKind::Entities, source)?;
    }
    if let Some(text) = request {
        let source = Source { name: "q", text };
        add_data(alloc, &mut lines, &schema, DataKind::Request, source)?;
    }
    lines.add_totals()?;
    Ok(lines)
}

/// Checks that the lines on a text are exactly these, and that the counts come to this status.
pub fn check_lines(
    rt: &(impl Abort + AllocGlobal),
    text: &str,
    said: &Lines,
    status: u8,
    wanted: &[&str],
) -> Result<(), Fail> {
    let mut lines = String::new(rt.alloc());
    for line in wanted {
        writeln!(lines, "{line}")?;
    }
    assert_eq!(rt; said.shown.as_str(), lines.as_str(), "for {text}");
    assert_eq!(rt; status_of(&said.totals, false), status, "for {text}");
    Ok(())
}

/// Checks that a line begins so, and that the counts come to this status.
pub fn check_line(
    rt: &(impl Abort + AllocGlobal),
    said: &Lines,
    status: u8,
    wanted: &str,
) -> Result<(), Fail> {
    let shown = said.shown.as_str();
    assert!(rt; said.has(wanted), "{wanted} is wanted, not {shown}");
    assert_eq!(rt; status_of(&said.totals, false), status, "for {wanted}");
    Ok(())
}

/// The schema of a text. If there is none, its faults are added.
fn schema_of(
    alloc: Global,
    lines: &mut Lines,
    syntax: Option<Syntax>,
    text: &str,
) -> Result<Option<ValidatorSchema>, AllocError> {
    let source = Source { name: "s", text };
    if syntax.unwrap_or(Syntax::of(text)) == Syntax::Json {
        let faults = match json_schema_or_faults(alloc, text)? {
            Ok(schema) => return Ok(Some(schema)),
            Err(faults) => faults,
        };
        for fault in &faults {
            lines.add_fault(source, fault)?;
        }
        return Ok(None);
    }
    let mut texts = SchemaTexts::new(alloc);
    texts.add(text)?;
    match schema_or_faults(alloc, &texts)? {
        Ok(schema) => Ok(Some(schema)),
        Err(faults) => {
            for it in &faults {
                lines.add_fault(source, &it.fault)?;
            }
            Ok(None)
        }
    }
}

/// Cedar's functions.
pub fn cedar_functions(alloc: Global) -> Result<ExtensionSchemas, Fail> {
    let checks = Checks {
        ip: Box::new(alloc, Constructor::Ip.check(alloc))?,
        decimal: Box::new(alloc, Constructor::Decimal.check(alloc))?,
        datetime: Box::new(alloc, Constructor::Datetime.check(alloc))?,
        duration: Box::new(alloc, Constructor::Duration.check(alloc))?,
    };
    let functions = functions(alloc, checks)?;
    Ok(ExtensionSchemas::new(functions, overloaded_types(alloc)?)?)
}

fn add_policies(
    alloc: Global,
    lines: &mut Lines,
    settings: &Settings<'_>,
    text: &str,
) -> Result<(), AllocError> {
    let source = Source { name: "p", text };
    let whole = PolicyText::new(settings.syntax, text);
    match whole.verdicts(alloc, settings.validator.extensions())? {
        Ok(mut verdicts) => add_verdicts(alloc, lines, settings, source, &mut verdicts),
        Err(fault) => {
            lines.totals.add_fault();
            lines.add_fault(source, &fault)
        }
    }
}

fn add_verdicts(
    alloc: Global,
    lines: &mut Lines,
    settings: &Settings<'_>,
    source: Source<'_>,
    verdicts: &mut PolicyVerdicts<'_>,
) -> Result<(), AllocError> {
    for _ in 0..verdicts.most() {
        let Some(said) = verdicts.next_said(alloc, settings)? else {
            break;
        };
        match &said {
            Said::Verdict(policy, verdict) => {
                lines.totals.add(verdict);
                lines.add_policy(alloc, source, policy, verdict)?;
            }
            Said::Fault(fault) => {
                lines.totals.add_fault();
                lines.add_fault(source, fault)?;
            }
        }
    }
    Ok(())
}

fn add_data(
    alloc: Global,
    lines: &mut Lines,
    schema: &ValidatorSchema,
    kind: DataKind,
    source: Source<'_>,
) -> Result<(), AllocError> {
    let verdict = judge_data(alloc, schema, kind, source.text)?;
    lines.totals.add_data(&verdict);
    lines.add_data(source, &verdict)
}
