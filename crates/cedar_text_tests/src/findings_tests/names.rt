// Texts that are a name or an id, and nothing else.
use crate::findings_tests::cases::check;
use cedar_reading::{name_alone, uid_alone};
use std::alloc::Global;
use std::test::Fail;

/// The name in a text, as it is shown; `-` if the text is none.
fn show_name(alloc: Global, text: &str) -> Result<String, Fail> {
    match name_alone(alloc, text) {
        Ok(name) => Ok(format!(in alloc; "{name}")?),
        Err(_fault) => Ok(String::from_str(alloc, "-")?),
    }
}

/// The id in a text, as it is shown; `-` if the text is none.
fn show_id(alloc: Global, text: &str) -> Result<String, Fail> {
    match uid_alone(alloc, text) {
        Ok(uid) => Ok(format!(in alloc; "{uid}")?),
        Err(_fault) => Ok(String::from_str(alloc, "-")?),
    }
}

#[test]
fn a_name_is_the_whole_text(rt: HostRuntime) -> Result<(), Fail> {
    let cases = [
        ("User", "User"),
        (" Acme::Team::User ", "Acme::Team::User"),
        ("Acme::User Team", "-"),
        ("Acme::", "-"),
        (r#"User::"alice""#, "-"),
        ("", "-"),
    ];
    check(&rt, show_name, &cases)
}

#[test]
fn an_id_is_the_whole_text(rt: HostRuntime) -> Result<(), Fail> {
    let cases = [
        (r#"Acme::User::"alice""#, r#"Acme::User::"alice""#),
        ("User", "-"),
        (r#"User::"alice".age"#, "-"),
    ];
    check(&rt, show_id, &cases)
}
