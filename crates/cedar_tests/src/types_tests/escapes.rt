// Texts by strangers, as they are shown to people.
use crate::parts::{assert_text, place, policy, text};
use cedar_types::base::{CedarType, Escaped, OneLine, ValidationError};
use std::alloc::{AllocError, Global};
use std::test::Fail;

/// An attribute that would end its backquotes, begin a line of its own and turn the rest round.
const FORGED: &str = "x` ok\nno error: \u{202e}\"accepted\" \\ it's\u{7}é";

#[test]
fn a_forged_name_stays_in_its_quotes(rt: HostRuntime) -> Result<(), Fail> {
    let shown = format!(in rt.alloc(); "`{}`", Escaped(FORGED))?;
    let want = r#"`x\u{60} ok\nno error: \u{202e}\"accepted\" \\ it's\u{7}é`"#;
    assert_text(&rt, shown.as_str(), want);
    Ok(())
}

/// The error that there is no such attribute, with its name as it is.
fn forge(alloc: Global) -> Result<String, AllocError> {
    let attr = text(alloc, FORGED)?;
    let id = policy(alloc)?;
    ValidationError::unsafe_attribute_access(place(1), id, CedarType::Long, attr, false).to_string(
        alloc,
    )
}

/// The error on one line.
fn forged_line(alloc: Global) -> Result<String, AllocError> {
    let text = forge(alloc)?;
    format!(in alloc; "{}", OneLine(text.as_str()))
}

#[test]
fn the_text_of_an_error_is_one_line(rt: HostRuntime) -> Result<(), Fail> {
    let want =
        r#"for policy `policy0`, attribute `x` ok\nno error: \u{202e}"accepted" \\ it's\u{7}é` does not exist on `Long`"#;
    assert_text(&rt, forged_line(rt.alloc())?.as_str(), want);
    Ok(())
}

#[test]
fn a_plain_text_is_shown_as_it_is(rt: HostRuntime) -> Result<(), Fail> {
    let alloc = rt.alloc();
    let shown = format!(in alloc;
        "{} {}",
        Escaped("Photo"),
        OneLine("is `Größe` there? \"yes\"")
    )?;
    assert_text(&rt, shown.as_str(), "Photo is `Größe` there? \"yes\"");
    Ok(())
}
