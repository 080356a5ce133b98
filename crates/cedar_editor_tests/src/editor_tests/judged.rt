// A schema, policies that are judged by it, and lines on these.
use cedar_editor::diagnostics::{Diagnostic, policy_diagnostics};
use cedar_editor::documents::PolicyDocument;
use cedar_editor::judges::{Judge, SharedSettings};
use cedar_editor::lines::Position;
use cedar_editor::schemas::SchemaDocument;
use cedar_types::base::{ArgumentCheck, Loc, ValidationMode};
use std::alloc::{AllocError, Global};
use std::process::Abort;
use std::test::Fail;

/// The check of the arguments of an extension function.
pub type Check = Box<dyn ArgumentCheck>;

/// The schema of the tests.
pub const SCHEMA: &str = "entity Team { lead: User };
entity Robot { team: Team };
entity User { name: String, team: Team, vip?: Bool };
entity Photo {
  owner: User,
  isPublic: Bool,
  tags: Set<String>,
  size: { w: Long, h?: Long },
};
type Seen = { device?: String, hour: Long };
action view appliesTo { principal: [Robot, User], resource: Photo, context: Seen };
action edit, delete appliesTo { principal: User, resource: Photo };
";

/// The beginning of a policy of users or robots who view, up to its condition.
pub const VIEW: &str = r#"permit(principal, action == Action::"view", resource) when { "#;

/// The beginning of a policy of users, up to its condition.
pub const OF_USERS: &str = "permit(principal is User, action, resource) when { ";

/// The judge by a schema at this level in Strict, if the schema once had no fault.
pub fn judge_by<'e>(
    schema: &SchemaDocument<'e, Check>,
    level: Option<u32>,
) -> Option<Judge<'e, Check>> {
    let validator = schema.validator()?.clone().ok()?;
    Some(Judge::Settings(SharedSettings {
        validator,
        mode: ValidationMode::Strict,
        level,
    }))
}

/// A document of this text that is judged by a schema.
pub fn document_by<'e>(
    alloc: Global,
    schema: &SchemaDocument<'e, Check>,
    text: &str,
) -> Result<PolicyDocument<'e, Check>, Fail> {
    let judge = judge_by(schema, None).ok_or("there is a schema")?;
    Ok(PolicyDocument::new(alloc, judge, text)?)
}

/// The text at a place.
pub fn text_at(text: &str, place: Loc) -> &str {
    text.get(place.start..place.end).unwrap_or("no text")
}

/// The place at which a text first has this part; the end of the text if it has none.
pub fn place_in(text: &str, part: &str) -> Loc {
    match text.find(part) {
        Some(start) => Loc {
            start,
            end: start + part.len(),
        },
        None => Loc {
            start: text.len(),
            end: text.len(),
        },
    }
}

/// A text without its mark `^`, and the byte at which the mark stood.
pub fn unmarked(alloc: Global, text: &str) -> Result<(String, usize), AllocError> {
    match text.split_once('^') {
        Some((front, behind)) => Ok((format!(in alloc; "{front}{behind}")?, front.len())),
        None => Ok((String::from_str(alloc, text)?, text.len())),
    }
}

/// The diagnostics of a document, each on a line: its position, its severity, its code, and the text at its place; and the
/// position of the other place.
pub fn shown(alloc: Global, document: &PolicyDocument<'_, Check>) -> Result<String, AllocError> {
    let mut lines = String::new(alloc);
    for told in policy_diagnostics(alloc, document.policies())? {
        push_told(&mut lines, document, &told)?;
    }
    Ok(lines)
}

fn push_told(
    lines: &mut String,
    document: &PolicyDocument<'_, Check>,
    told: &Diagnostic,
) -> Result<(), AllocError> {
    let Position { line, unit } = document.range(told.place).start;
    let part = text_at(document.text(), told.place);
    let (severity, code) = (told.severity.text(), told.code.text());
    write!(lines, "{line}:{unit} {severity} {code} `{part}`")?;
    if let Some(other) = told.other {
        let Position { line, unit } = document.range(other).start;
        write!(lines, ", other {line}:{unit}")?;
    }
    lines.push_str("\n")
}

/// Checks that the lines on a document are exactly these.
pub fn check_shown(
    rt: &(impl Abort + AllocGlobal),
    document: &PolicyDocument<'_, Check>,
    wanted: &[&str],
) -> Result<(), Fail> {
    let alloc = rt.alloc();
    let text = document.text();
    let mut lines = String::new(alloc);
    for line in wanted {
        writeln!(lines, "{line}")?;
    }
    let said = shown(alloc, document)?;
    assert_eq!(rt; said.as_str(), lines.as_str(), "for {text}");
    Ok(())
}
