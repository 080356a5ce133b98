// Wording of findings of a policy: the first ones, put into words.
ghost use Rattle.std.specs.Prelude.{◌≡◌, ◌<◌, ◌-◌, min, true, [], length, IfOk};
ghost use Rattle.std.specs.List.{flat_map, list_all, list_any};
ghost use Rattle.cedar_verdicts.specs.Impossible.{calls_impossible};
ghost use Rattle.cedar_verdicts.specs.Mistakes.{AreFirstOf, causes_in, is_one_mistake};
ghost use Rattle.cedar_verdicts.specs.Mistakes.{says_impossible, may_say_impossible, is_of_impossible, may_be_of_impossible};

use crate::causes::{Cause, Found, types_shown};
use crate::environments::ShownEnvironments;
use cedar_findings::findings::Finding;
use cedar_findings::hints::{hint_for_error, hint_for_warning};
use cedar_findings::lengths::{cut_name, shortened};
use cedar_findings::search_room::SearchRoom;
use cedar_reading::Position;
use cedar_types::base::{Message, Template, ValidatorSchema};
use std::alloc::{AllocError, Global};

/// The hint at a part that makes a policy impossible.
const NEVER_TRUE: &str = "this part is never true";

/// The number of other types of one mistake that are named.
const MAX_ALSO: usize = 4;

/// The subject of a policy's findings.
#[derive(Clone, Copy)]
pub struct About<'a> {
    pub schema: &'a ValidatorSchema,
    pub policy: &'a Template,
    /// The text that hints take their examples from.
    pub text: &'a str,
    /// The number of environments in which the policy may apply.
    pub applicable: u64,
}

/// A mistake at one place: its first cause, and others that differ only in types.
#[derive(Drop)]
struct Mistake<'a> {
    first: Found<'a>,
    others: Vec<Found<'a>>,
}

/// The first findings, in ascending order, and the number of the others.
#[derive(Drop)]
pub struct FirstFindings {
    pub listed: Vec<Finding>,
    pub others: usize,
}

/// The first findings in order, at most `most`, and the number of the others: together they are the
/// mistakes (clause `first`). Errors that differ only in types are one mistake.
pub fn first_findings(
    alloc: Global,
    about: About<'_>,
    mut causes: Vec<Found<'_>>,
    most: usize,
    room: &mut SearchRoom,
) -> Result<FirstFindings, AllocError>
    ensures first { IfOk result (AreFirstOf most causes.entry.items) }
    ensures some { IfOk result (λ findings.
        0 < most → 0 < length causes.entry.items → 0 < length findings.listed.items) }
    ensures none { IfOk result (λ findings.
        length causes.entry.items ≡ 0 → length findings.listed.items ≡ 0) }
    ensures told { IfOk result (λ findings. findings.others ≡ 0
        → list_any says_impossible causes.entry.items ≡ true
        → list_any calls_impossible findings.listed.items ≡ true) }
    ensures only { IfOk result (λ findings.
        list_any calls_impossible findings.listed.items ≡ true
        → list_any may_say_impossible causes.entry.items ≡ true) }
{
    causes.sort_by_key(|it| (it.place.start, it.place.end))?;
    let mistakes = mistakes_of(alloc, causes.as_slice())?;
    let mut findings = findings_of(alloc, about, mistakes.as_slice(), most, room)?;
    findings.listed.sort()?;
    Ok(findings)
}

/// The mistakes of causes in the order of places: each cause is one, unless it and the one before it
/// are errors that differ only in types.
fn mistakes_of<'a>(alloc: Global, causes: &[Found<'a>]) -> Result<Vec<Mistake<'a>>, AllocError>
    ensures all { IfOk result (λ mistakes. flat_map causes_in mistakes.items ≡ causes.now) }
    ensures each { IfOk result (λ mistakes. list_all is_one_mistake mistakes.items ≡ true) }
{
    let mut mistakes = Vec::new(alloc);
    let Some((first, rest)) = causes.split_first() else {
        return Ok(mistakes);
    };
    let mut mistake = Mistake::new(alloc, *first);
    for cause in rest {
        if mistake.last().is_same_mistake(cause) {
            mistake.others.push(*cause)?;
        } else {
            mistakes.push(mistake)?;
            mistake = Mistake::new(alloc, *cause);
        }
    }
    mistakes.push(mistake)?;
    Ok(mistakes)
}

impl<'a> Mistake<'a> {
    fn new(alloc: Global, first: Found<'a>) -> Mistake<'a>
        ensures first { result.first ≡ first.entry }
        ensures alone { result.others.items ≡ [] }
    {
        Mistake {
            first,
            others: Vec::new(alloc),
        }
    }

    fn last(&self) -> &Found<'a> {
        self.others.last().unwrap_or(&self.first)
    }
}

/// The findings of the first mistakes, at most `most`, and the number of the others.
fn findings_of(
    alloc: Global,
    about: About<'_>,
    mistakes: &[Mistake<'_>],
    most: usize,
    room: &mut SearchRoom,
) -> Result<FirstFindings, AllocError>
    ensures listed { IfOk result (λ findings.
        length findings.listed.items ≡ min most (length mistakes.now)) }
    ensures others { IfOk result (λ findings. findings.others ≡ length mistakes.now - most) }
    ensures told { IfOk result (λ findings. findings.others ≡ 0
        → list_any is_of_impossible mistakes.now ≡ true
        → list_any calls_impossible findings.listed.items ≡ true) }
    ensures only { IfOk result (λ findings.
        list_any calls_impossible findings.listed.items ≡ true
        → list_any may_be_of_impossible mistakes.now ≡ true) }
{
    let (first, rest) = mistakes.split_at(most.min(mistakes.len()));
    Ok(FirstFindings {
        listed: each_finding(alloc, about, first, room)?,
        others: rest.len(),
    })
}

/// The finding of each mistake.
fn each_finding(
    alloc: Global,
    about: About<'_>,
    mistakes: &[Mistake<'_>],
    room: &mut SearchRoom,
) -> Result<Vec<Finding>, AllocError>
    ensures each { IfOk result (λ findings. length findings.items ≡ length mistakes.now) }
    ensures told { IfOk result (λ findings. list_any is_of_impossible mistakes.now ≡ true
        → list_any calls_impossible findings.items ≡ true) }
    ensures only { IfOk result (λ findings. list_any calls_impossible findings.items ≡ true
        → list_any may_be_of_impossible mistakes.now ≡ true) }
{
    let mut findings = Vec::new(alloc);
    for mistake in mistakes {
        findings.push(finding_of(alloc, about, mistake, room)?)?;
    }
    Ok(findings)
}

/// The finding of a mistake: the words of its first cause, and the types and environments of all.
fn finding_of(
    alloc: Global,
    about: About<'_>,
    mistake: &Mistake<'_>,
    room: &mut SearchRoom,
) -> Result<Finding, AllocError>
    ensures told { IfOk result (λ finding.
        is_of_impossible mistake.now ≡ true → calls_impossible finding ≡ true) }
    ensures only { IfOk result (λ finding.
        calls_impossible finding ≡ true → may_be_of_impossible mistake.now ≡ true) }
{
    let Mistake { first, others } = mistake;
    let text = text_of(alloc, first.cause)?;
    let hint = hint(alloc, about, first.cause, room)?;
    Ok(Finding {
        start: first.place.start,
        end: first.place.end,
        text: shortened(alloc, text)?,
        hint: shortened(alloc, hint)?,
        also: types_of(alloc, others.as_slice())?,
        environments: environments_of(alloc, about.applicable, mistake)?,
        code: first.code(),
    })
}

fn text_of(alloc: Global, cause: Cause<'_>) -> Result<String, AllocError> {
    match cause {
        Cause::Error(error, _) => Message(error).to_string(alloc),
        Cause::NoAction(warning) | Cause::Impossible(warning, _) => {
            Message(warning).to_string(alloc)
        }
        Cause::Direction(text) | Cause::LookAlike(text) | Cause::Unexplained(text) => {
            String::from_str(alloc, text)
        }
        Cause::SameId(Position { line, column }) => {
            format!(in alloc; "the policy at {line}:{column} of this file has the same id")
        }
    }
}

fn hint(
    alloc: Global,
    about: About<'_>,
    cause: Cause<'_>,
    room: &mut SearchRoom,
) -> Result<String, AllocError> {
    match cause {
        Cause::Error(error, _) => {
            let About {
                schema,
                policy,
                text,
                ..
            } = about;
            hint_for_error(alloc, schema, policy, text, error, room)
        }
        Cause::NoAction(warning) => hint_for_warning(alloc, about.schema, about.policy, warning),
        Cause::Impossible(_, Some(part)) => hint_for_false(alloc, part.hint.as_str()),
        _ => Ok(String::new(alloc)),
    }
}

/// The hint that a part is never true, with the meant name if one is near.
fn hint_for_false(alloc: Global, meant: &str) -> Result<String, AllocError> {
    if meant.is_empty() {
        return String::from_str(alloc, NEVER_TRUE);
    }
    format!(in alloc; "{NEVER_TRUE}: {meant}")
}

/// The types of these errors: the first few, and the number of the others.
fn types_of(alloc: Global, errors: &[Found<'_>]) -> Result<Vec<String>, AllocError> {
    let mut types = Vec::new(alloc);
    for it in errors.iter().take(MAX_ALSO) {
        if let Cause::Error(error, _) = it.cause {
            types.push(cut_name(alloc, types_shown(alloc, error)?)?)?;
        }
    }
    let others = errors.len().saturating_sub(MAX_ALSO);
    if others > 0 {
        types.push(format!(in alloc; "{others} more types")?)?;
    }
    Ok(types)
}

/// The environments of a mistake. A false part lists its environments whatever their number,
/// because an impossible policy may apply in none.
fn environments_of(
    alloc: Global,
    applicable: u64,
    mistake: &Mistake<'_>,
) -> Result<Vec<String>, AllocError> {
    let mut all = ShownEnvironments::new(alloc);
    add_environments(alloc, mistake.first.cause, &mut all)?;
    for it in &mistake.others {
        add_environments(alloc, it.cause, &mut all)?;
    }
    match mistake.first.cause {
        Cause::Impossible(_, Some(_)) => all.finish(alloc, u64::MAX),
        _ => all.finish(alloc, applicable),
    }
}

fn add_environments(
    alloc: Global,
    cause: Cause<'_>,
    all: &mut ShownEnvironments,
) -> Result<(), AllocError> {
    match cause {
        Cause::Error(_, environments) => all.add(alloc, environments),
        Cause::Impossible(_, Some(part)) => all.add(alloc, &part.environments),
        _ => Ok(()),
    }
}
