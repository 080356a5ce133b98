// Expected answers of steps: the right answer is taken for the expected one, and no other is.
use crate::tests::tables::{x1, x2};
use crate::tests::wrong_expectations::{ERRORS, NAMES, OUTCOMES, UNREAD, WARNINGS};
use crate::tests::wrong_levels::{LEVELS, OUTCOMES_AT_LEVELS, UNREAD_LEVELS};
use cedar_rows::rows::{NamedRow, Report, Row, Steps, WORKED};
use std::alloc::{AllocError, Global};
use std::process::Abort;
use std::test::Fail;

/// Findings in another order than that of their bytes, and steps unlike those of any row.
const EXPECTED: &str = r#"
? S1 Strict check: "a" < "b"
Fail errors=2
! UnexpectedType Long but String @ "b"
for policy `policy0`, unexpected type: expected `Long` but saw `String`
! UnexpectedType Long but String @ "a"
for policy `policy0`, unexpected type: expected `Long` but saw `String`
? S4 slot types with User::"a": permit(principal == ?principal, action, resource)
errors=0
? S1 action ids: (Unk::"a" < 1) && false
errors=0
? S1 enumerated ids: (Unk::"a" < 1) && false
errors=0
? S1 entity types: action == Action::"edit"
errors=0
? S1 enumerated ids: action == Action::"edit"
errors=0
? S0 table: f(Long) -> Long
a table
? S4 Strict check: true
no environment
? S1 Strict check: ?principal.getTag("t") == ?principal
Fail errors=1
! UnsafeTagAccess AnyEntity @ ?principal.getTag("t")
for policy `policy0`, access to a tag of `entity` is not guarded
? S1 Partial level 0: principal.bool
errors=2 warnings=0
! MaximumLevelExceeded @ principal.bool
for policy `policy0`, this policy requires level 1, which exceeds the maximum allowed level (0)
! InternalInvariantViolation @ principal.bool
for policy `policy0`, internal invariant violated
? S3 Strict level 0: permit(principal == admins::"a", action, resource)
errors=0 warnings=2
! InvalidActionApplication @ the policy
for policy `policy0`, unable to find an applicable action given the policy scope constraints
! ImpossiblePolicy @ the policy
for policy `policy0`, policy is impossible: it evaluates to false for every valid request
? S1 Permissive required level: (if principal.bool then principal.user else resource).user.bool
3
? S1 Partial required level: principal.bool
none
? S1 chain cost: Nope.user.user
1
? S1 chain cost: User.nope.user
1
"#;

/// The result of a row of this text.
fn report_of(alloc: Global, text: &str) -> Result<Report, Fail> {
    Ok(Steps(text, &[]).report(alloc, &x1(alloc)?, &x2(alloc)?)?)
}

/// The right step that stands before changes. If only its question stands there, it is the step of a row with that question.
fn right_step(rows: &[NamedRow<Steps<'static>>], text: &'static str) -> &'static str {
    let (right, _) = text.split_once("\n~ ").unwrap_or((text, ""));
    for row in rows {
        let Steps(steps, _) = row.row;
        for step in steps.split("\n? ").skip(1) {
            if step.split('\n').next() == Some(right) {
                return step.trim_end();
            }
        }
    }
    right
}

/// The step with one change that makes its expectation wrong: `old => new` in it, `=> new` in its place, `the last => new` in
/// place of its last finding, the last finding twice or left out, or `nothing` expected.
fn change_step(alloc: Global, step: &str, change: &str) -> Result<String, AllocError> {
    let (question, answer) = step.split_once('\n').unwrap_or((step, ""));
    let (before, last) = step.rsplit_once("\n! ").unwrap_or((step, ""));
    let Some((old, new)) = change.split_once("=> ") else {
        return match change.trim_end() {
            "nothing" => String::from_str(alloc, question),
            "without the last" => String::from_str(alloc, before),
            _ => format!(in alloc; "{step}\n! {last}"),
        };
    };
    match old.trim_end() {
        "the last" => format!(in alloc; "{before}\n! {new}"),
        "" => format!(in alloc; "{question}\n{new}"),
        old => {
            let answer = answer.replace(alloc, old, new)?;
            format!(in alloc; "{question}\n{answer}")
        }
    }
}

/// Each right step of a text with each of its changes.
fn wrong_steps(alloc: Global, text: &'static str) -> Result<Vec<String>, AllocError> {
    let mut wrong = Vec::new(alloc);
    for step in text.trim_end().split("\n? ").skip(1) {
        let right = right_step(&WORKED, step);
        for change in step.split("\n~ ").skip(1) {
            wrong.push(change_step(alloc, right, change)?)?;
        }
    }
    Ok(wrong)
}

#[test]
fn what_is_expected_is_met(rt: HostRuntime) -> Result<(), Fail> {
    for step in EXPECTED.split("\n? ").skip(1) {
        assert!(rt; report_of(rt.alloc(), step)?.is_expected, "{step}");
    }
    Ok(())
}

/// The texts of changes, and the number of wrong steps in each.
const CHANGED: [(&str, usize); 6] = [
    (OUTCOMES, 17),
    (ERRORS, 27),
    (NAMES, 14),
    (WARNINGS, 9),
    (OUTCOMES_AT_LEVELS, 20),
    (LEVELS, 13),
];

#[test]
fn what_is_changed_was_right(rt: HostRuntime) -> Result<(), Fail> {
    for (text, count) in CHANGED {
        assert_eq!(rt; wrong_steps(rt.alloc(), text)?.len(), count);
        for step in text.trim_end().split("\n? ").skip(1) {
            let right = right_step(&WORKED, step);
            assert!(rt; report_of(rt.alloc(), right)?.is_expected, "{right}");
        }
    }
    Ok(())
}

/// The outcome that a step expects.
fn expected_outcome(step: &str) -> &str {
    step.split('\n').nth(1).unwrap_or("")
}

#[test]
fn other_findings_are_not_taken_for_it(rt: HostRuntime) -> Result<(), Fail> {
    for text in [ERRORS, NAMES, WARNINGS, LEVELS] {
        for step in &wrong_steps(rt.alloc(), text)? {
            let step = step.as_str();
            let report = report_of(rt.alloc(), step)?;
            let outcome = report.outcomes.as_slice().join(rt.alloc(), "; ")?;
            assert!(rt; !report.is_expected, "{step}");
            assert_eq!(rt; outcome.as_str(), expected_outcome(step));
        }
    }
    Ok(())
}

/// Checks that a step is not met, and that its outcome tells so unless the step is not read.
fn check_outcome(rt: &impl Abort, alloc: Global, step: &str, is_read: bool) -> Result<(), Fail> {
    let report = report_of(alloc, step)?;
    let outcome = report.outcomes.as_slice().join(alloc, "; ")?;
    assert!(rt; !report.is_expected, "{step}");
    assert_eq!(rt; outcome.ends_with("is expected"), !is_read, "{step}");
    Ok(())
}

#[test]
fn other_outcomes_are_not_taken_for_it(rt: HostRuntime) -> Result<(), Fail> {
    for text in [OUTCOMES, OUTCOMES_AT_LEVELS] {
        for step in &wrong_steps(rt.alloc(), text)? {
            check_outcome(&rt, rt.alloc(), step.as_str(), true)?;
        }
    }
    for text in [UNREAD, UNREAD_LEVELS] {
        for step in text.split("\n? ").skip(1) {
            check_outcome(&rt, rt.alloc(), step, false)?;
        }
    }
    Ok(())
}

/// A step with the expected answer, and one with another, in both orders.
const ONE_OF_TWO: [(&str, &str); 2] = [
    (
        "S1 Strict check: true\nSuccess\n? S1 Strict check: false\nSuccess",
        "Success; Irrelevant errors=0",
    ),
    (
        "S1 Strict check: false\nSuccess\n? S1 Strict check: true\nSuccess",
        "Irrelevant errors=0; Success",
    ),
];

#[test]
fn each_step_of_a_row_counts(rt: HostRuntime) -> Result<(), Fail> {
    for (text, outcomes) in ONE_OF_TWO {
        let report = report_of(rt.alloc(), text)?;
        assert!(rt; !report.is_expected);
        assert_eq!(rt;
            report.outcomes.as_slice().join(rt.alloc(), "; ")?.as_str(),
            outcomes
        );
    }
    Ok(())
}

/// Whether a step is about a set of errors, as a level run is if no name is unknown.
fn is_of_set(step: &str) -> bool {
    let (line, _) = step.split_once('\n').unwrap_or((step, ""));
    line.contains(" policy: ") || line.contains(" level ")
}

/// Whether a step expects a finding twice.
fn repeats_finding(step: &str) -> bool {
    for finding in step.split("\n! ").skip(1) {
        if step.split(finding).count() > 2 {
            return true;
        }
    }
    false
}

/// No step about a set has two errors at one text. In a list, two errors at two parts of one text are two in any case.
#[test]
fn no_set_has_two_errors_at_one_text(rt: HostRuntime) -> Result<(), Fail> {
    for row in &WORKED {
        let Steps(text, _) = row.row;
        for step in text.split("\n? ") {
            assert!(rt; !is_of_set(step) || !repeats_finding(step), "{step}");
        }
    }
    Ok(())
}
