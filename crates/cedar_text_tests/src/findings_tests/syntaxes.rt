// Syntaxes of texts, by their beginning.
use cedar_findings::syntaxes::Syntax;
use std::test::Fail;

/// Texts, and their syntax.
const TEXTS: [(&str, Syntax); 9] = [
    ("", Syntax::Cedar),
    (" \n", Syntax::Cedar),
    ("{}", Syntax::Json),
    ("[", Syntax::Json),
    ("\u{a0}\t\r\n [{", Syntax::Json),
    (
        "permit(principal, action, resource) when { [] };",
        Syntax::Cedar,
    ),
    ("// {", Syntax::Cedar),
    ("\"{\"", Syntax::Cedar),
    ("namespace N { }", Syntax::Cedar),
];

#[test]
fn beginnings(rt: HostRuntime) -> Result<(), Fail> {
    for (text, wanted) in &TEXTS {
        assert_eq!(rt; Syntax::of(text), *wanted, "{text}");
    }
    Ok(())
}

#[test]
fn names(rt: HostRuntime) -> Result<(), Fail> {
    assert_eq!(rt; Syntax::by_name("text"), Some(Syntax::Cedar));
    assert_eq!(rt; Syntax::by_name("json"), Some(Syntax::Json));
    assert_eq!(rt; Syntax::by_name("JSON"), None);
    Ok(())
}
