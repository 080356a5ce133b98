// Messages of each error and each warning about texts, odd ones too.
use crate::types_tests::findings::{KINDS, PLAIN, application_warning, impossible};
use crate::types_tests::kinds::{Fields, Kind, error};
use cedar_types::base::{Message, ValidationWarning};
use std::alloc::{AllocError, Global};
use std::test::Fail;

/// A line break, a quote, a backquote, the characters ESC and NUL, one that turns the direction of a text, a backslash; and
/// a text that would be a line of its own.
const ODD: [&str; 8] = [
    "x\ny",
    "x\"y",
    "x`y",
    "x\u{1b}[31my",
    "x\0y",
    "x\u{202e}y",
    "x\\y",
    "x` is well\nfor policy `z`, y",
];

/// The message about fields: each text as it is, but in an id a quote and a backslash get a backslash before them.
fn expected_message(alloc: Global, text: &str, fields: Fields<'_>) -> Result<String, AllocError> {
    let id = fields.second.replace(alloc, '\\', "\\\\")?;
    let id = id.replace(alloc, '"', "\\\"")?;
    let message = text.replace(alloc, "FIRST", fields.first)?;
    let message = message.replace(alloc, "SECOND", fields.second)?;
    message.replace(alloc, "ID", id.as_str())
}

/// Whether the message of each kind of error is right for the fields.
fn all_say(alloc: Global, fields: Fields<'_>) -> Result<bool, AllocError> {
    let mut is_so = true;
    for (kind, _, text) in &KINDS {
        is_so = says(alloc, *kind, text, fields)? && is_so;
    }
    Ok(is_so)
}

/// Whether the message of an error of this kind is right for the fields, with its policy and without.
fn says(alloc: Global, kind: Kind, text: &str, fields: Fields<'_>) -> Result<bool, AllocError> {
    let error = error(alloc, kind, fields)?;
    let message = expected_message(alloc, text, fields)?;
    let policy = fields.policy;
    let whole = format!(in alloc; "for policy `{policy}`, {message}")?;
    let is_message = Message(&error).to_string(alloc)? == message;
    Ok(error.to_string(alloc)? == whole && is_message)
}

/// Whether the message of each kind is right for this text, in any field.
fn all_say_it(alloc: Global, odd: &str) -> Result<bool, AllocError> {
    let second = format!(in alloc; "y{odd}")?;
    let fields = Fields {
        policy: odd,
        first: odd,
        second: second.as_str(),
        ..PLAIN
    };
    all_say(alloc, fields)
}

#[test]
fn errors_say_any_text_as_it_is(rt: HostRuntime) -> Result<(), Fail> {
    assert!(rt; all_say_it(rt.alloc(), "x")?);
    for odd in &ODD {
        assert!(rt; all_say_it(rt.alloc(), odd)?, "{odd:?}");
    }
    Ok(())
}

/// The message if no action applies.
const NOT_APPLICABLE: &str =
    "unable to find an applicable action given the policy scope constraints";

/// The message if a policy never applies.
const IMPOSSIBLE: &str = "policy is impossible: it evaluates to false for every valid request";

/// Whether this is the text of the warning for the policy of this id, with the id and without.
fn is_text_of(
    alloc: Global,
    warning: &ValidationWarning,
    odd: &str,
    text: &str,
) -> Result<bool, AllocError> {
    let shown = warning.to_string(alloc)?;
    let is_message = Message(warning).to_string(alloc)?.as_str() == text;
    Ok(shown == format!(in alloc; "for policy `{odd}`, {text}")? && is_message)
}

/// Whether both warnings of a policy of this id have the right messages.
fn both_warn(alloc: Global, odd: &str) -> Result<bool, AllocError> {
    let fields = Fields {
        policy: odd,
        ..PLAIN
    };
    let of_action = is_text_of(
        alloc,
        &application_warning(alloc, fields)?,
        odd,
        NOT_APPLICABLE,
    )?;
    Ok(is_text_of(alloc, &impossible(alloc, fields)?, odd, IMPOSSIBLE)? && of_action)
}

#[test]
fn warnings_say_any_id_as_it_is(rt: HostRuntime) -> Result<(), Fail> {
    for odd in &ODD {
        assert!(rt; both_warn(rt.alloc(), odd)?, "{odd:?}");
    }
    Ok(())
}
