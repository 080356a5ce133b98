// Verdicts as the tests show them.
use cedar_findings::findings::{Finding, Requirement, Verdict};
use cedar_findings::schema_texts::SchemaTexts;
use cedar_findings::totals::Totals;
use cedar_types::base::{ValidationMode, ValidatorSchema};
use cedar_verdicts::schemas::schema_or_faults;
use cedar_verdicts::settings::Settings;
use cedar_verdicts::texts::{PolicyText, PolicyVerdicts, Said};
use std::alloc::{AllocError, Global};

/// The schema of the tests.
pub const SCHEMA: &str = "entity User in [User] { boss: User, age: Long };
entity File { owner: User };
action view appliesTo { principal: User, resource: File };
";

/// The schema of a text, if it has one.
pub fn schema_of(alloc: Global, text: &str) -> Result<Option<ValidatorSchema>, AllocError> {
    let mut texts = SchemaTexts::new(alloc);
    texts.add(text)?;
    Ok(schema_or_faults(alloc, &texts)?.ok())
}

/// The verdicts on the policies of a text: a line for each.
pub fn verdicts_shown(
    alloc: Global,
    settings: &Settings<'_>,
    text: &str,
) -> Result<String, AllocError> {
    let whole = PolicyText::new(settings.syntax, text);
    match whole.verdicts(alloc, settings.validator.extensions())? {
        Ok(mut verdicts) => all_shown(alloc, settings, &mut verdicts),
        Err(_fault) => String::from_str(alloc, "no policies"),
    }
}

fn all_shown(
    alloc: Global,
    settings: &Settings<'_>,
    verdicts: &mut PolicyVerdicts<'_>,
) -> Result<String, AllocError> {
    let mut shown = String::new(alloc);
    for _ in 0..verdicts.most() {
        let Some(said) = verdicts.next_said(alloc, settings)? else {
            break;
        };
        push_said(&mut shown, &said)?;
    }
    if verdicts.is_cut() {
        shown.push_str("cut\n")?;
    }
    Ok(shown)
}

fn push_said(shown: &mut String, said: &Said) -> Result<(), AllocError> {
    match said {
        Said::Verdict(policy, verdict) => {
            shown.push_str(policy.id.text.as_str())?;
            push_verdict(shown, verdict)?;
        }
        Said::Fault(fault) => writeln!(shown, "fault: {}", fault.text)?,
    }
    Ok(())
}

/// Adds a verdict: whether it accepts, the level, and each finding by its first byte and its code.
pub fn push_verdict(shown: &mut String, verdict: &Verdict) -> Result<(), AllocError> {
    shown.push_str(if verdict.is_accepted {
        " accepted"
    } else {
        " refused"
    })?;
    match verdict.requirement {
        Requirement::Unsaid => {}
        Requirement::NoLevel => shown.push_str(", no level")?,
        Requirement::Level(level) => write!(shown, ", level {level}")?,
    }
    push_findings(shown, "error", &verdict.errors)?;
    push_findings(shown, "warning", &verdict.warnings)?;
    if verdict.others > 0 {
        write!(shown, ", {} more", verdict.others)?;
    }
    shown.push_str("\n")
}

fn push_findings(
    shown: &mut String,
    kind: &str,
    findings: &Vec<Finding>,
) -> Result<(), AllocError> {
    for finding in findings {
        write!(shown, ", {kind} {} {}", finding.start, finding.code.text())?;
    }
    Ok(())
}

/// The mode of this name.
pub fn mode_of(name: &str) -> ValidationMode {
    match name {
        "permissive" => ValidationMode::Permissive,
        "partial" => ValidationMode::Partial,
        _ => ValidationMode::Strict,
    }
}

/// The exit status that these counts ask for: 2 for a fault, else 1 for a refused policy, refused data or a denied warning, else 0.
pub fn status_of(totals: &Totals, denies_warnings: bool) -> u8 {
    let is_refused = totals.refused > 0 || totals.data.is_refused;
    if totals.faults > 0 {
        2
    } else {
        u8::from(is_refused || denies_warnings && totals.warnings > 0)
    }
}
