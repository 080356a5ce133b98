// Tables of cases: texts with their answers.
use crate::frames::Frame;
use std::alloc::{AllocError, Global};
use std::process::Abort;
use std::test::Fail;

/// Checks that each text gives the answer beside it.
pub fn check<F: Fn(Global, &str) -> Result<String, AllocError>>(
    rt: &impl Abort,
    alloc: Global,
    answer: F,
    cases: &[(&str, &str)],
) -> Result<(), Fail>
    requires { F.IsAlwaysCallable answer }
{
    for (text, wanted) in cases {
        let given = answer(alloc, text)?;
        assert_eq!(rt; given.as_str(), *wanted, "{text}");
    }
    Ok(())
}

/// Checks that each part has, in this frame, the fault beside it, at the mark `§` in it. A policy of several ends with `;`.
pub fn check_faults<F: Fn(Global, &str) -> Result<String, AllocError>>(
    rt: &impl Abort,
    alloc: Global,
    answer: F,
    frame: Frame<'_>,
    cases: &[(&str, &str)],
) -> Result<(), Fail>
    requires { F.IsAlwaysCallable answer }
{
    let (before, behind) = frame;
    for (part, fault) in cases {
        let text = format!(in alloc; "{before}{part}{behind}")?;
        let (json, at) = split_at_mark(alloc, text.as_str())?;
        let given = answer(alloc, json.as_str())?;
        let wanted = format!(in alloc; "{at} {fault}")?;
        assert_eq!(rt;
            given.as_str().trim_end_matches(';'),
            wanted.as_str(),
            "{text}"
        );
    }
    Ok(())
}

/// The text without its first `§`, and the byte of that: the end of the text if there is none.
fn split_at_mark(alloc: Global, text: &str) -> Result<(String, usize), AllocError> {
    let (before, behind) = text.split_once('§').unwrap_or((text, ""));
    let mut whole = String::from_str(alloc, before)?;
    whole.push_str(behind)?;
    Ok((whole, before.len()))
}
