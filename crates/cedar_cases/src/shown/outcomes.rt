// Outcomes of a check, with its errors.
ghost use Rattle.std.specs.Iterator.{IsFinite};

use crate::shown::places::{Source, push_place};
use cedar_typechecker::level_validate::{LevelErrors, LevelWarnings};
use cedar_types::base::{Loc, Message, ValidationError, ValidationWarning};
use cedar_typing::typecheck::PolicyCheck;
use std::alloc::{AllocError, Global};
use std::collections::HashSet;

/// `Success`, `Irrelevant` or `Fail`, and behind it each error with the text at its place, sorted by bytes.
pub fn outcome(
    alloc: Global,
    check: &PolicyCheck,
    source: Source<'_>,
) -> Result<String, AllocError> {
    let (outcome, errors) = match check {
        PolicyCheck::Success(_) => return String::from_str(alloc, "Success"),
        PolicyCheck::Irrelevant(errors, _) => ("Irrelevant", errors),
        PolicyCheck::Fail(errors) => ("Fail", errors),
    };
    let mut shown = String::from_str(alloc, outcome)?;
    push_all(&mut shown, &sorted_texts(alloc, errors.iter(), source)?)?;
    Ok(shown)
}

/// Whether a policy passes, and behind it each error of the policy, and then each warning, sorted by bytes.
pub fn policy_outcome(
    alloc: Global,
    passes: bool,
    errors: &HashSet<ValidationError>,
    warnings: &HashSet<ValidationWarning>,
    source: Source<'_>,
) -> Result<String, AllocError> {
    let mut shown = format!(in alloc; "{passes}")?;
    push_all(&mut shown, &sorted_texts(alloc, errors.iter(), source)?)?;
    push_all(&mut shown, &sorted_texts(alloc, warnings.iter(), source)?)?;
    Ok(shown)
}

/// Each error and then each warning, as often as it comes, sorted by bytes, with `; ` between them.
pub fn level_outcome(
    alloc: Global,
    errors: LevelErrors,
    warnings: LevelWarnings,
    source: Source<'_>,
) -> Result<String, AllocError> {
    let mut shown = sorted_texts(alloc, errors, source)?;
    for warning in sorted_texts(alloc, warnings, source)? {
        shown.push(warning)?;
    }
    shown.as_slice().join(alloc, "; ")
}

/// The texts of these findings, sorted by bytes.
fn sorted_texts<F: Finding + Drop, I: Iterator<Item = F> + Drop>(
    alloc: Global,
    findings: I,
    source: Source<'_>,
) -> Result<Vec<String>, AllocError>
    requires can { I.can_next findings }
    requires ends { IsFinite (I.remaining findings) }
{
    let mut texts = Vec::new(alloc);
    for finding in findings {
        texts.push(finding.show(alloc, source)?)?;
    }
    texts.sort()?;
    Ok(texts)
}

/// The errors of a pass, sorted by bytes, with `; ` between them. An error without a place is shown without one.
pub fn findings(
    alloc: Global,
    errors: &[ValidationError],
    source: Source<'_>,
) -> Result<String, AllocError> {
    let mut texts = Vec::new(alloc);
    for error in errors {
        texts.push(match error.source_loc() {
            Some(_) => error.show(alloc, source)?,
            None => Message(error).to_string(alloc)?,
        })?;
    }
    texts.sort()?;
    texts.as_slice().join(alloc, "; ")
}

/// Adds each text behind `; `.
fn push_all(shown: &mut String, texts: &Vec<String>) -> Result<(), AllocError> {
    for text in texts {
        shown.push_str("; ")?;
        shown.push_str(text.as_str())?;
    }
    Ok(())
}

/// An error or a warning.
trait Finding {
    /// The message of the finding, and the text at its place.
    fn show(&self, alloc: Global, source: Source<'_>) -> Result<String, AllocError>;
}

impl Finding for ValidationError {
    fn show(&self, alloc: Global, source: Source<'_>) -> Result<String, AllocError> {
        with_place(Message(self).to_string(alloc)?, self.source_loc(), source)
    }
}

impl Finding for ValidationWarning {
    fn show(&self, alloc: Global, source: Source<'_>) -> Result<String, AllocError> {
        with_place(Message(self).to_string(alloc)?, self.source_loc(), source)
    }
}

impl<F: Finding> Finding for &F {
    fn show(&self, alloc: Global, source: Source<'_>) -> Result<String, AllocError> {
        (**self).show(alloc, source)
    }
}

/// A message, and the text at its place.
fn with_place(
    mut text: String,
    place: Option<Loc>,
    source: Source<'_>,
) -> Result<String, AllocError> {
    push_place(&mut text, place, source)?;
    Ok(text)
}
