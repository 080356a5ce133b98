// Comments between any two tokens: none is lost, and they stay in their order.
use crate::writing_tests::formatting::shown;
use cedar_reading::token_text;
use std::alloc::{AllocError, Global};
use std::test::Fail;

/// Policies of which the parts may have comments between them.
const POLICIES: [&str; 10] = [
    "@id(\"a // no comment\") @note permit(principal,action,resource);",
    "forbid(principal == User::\"a\", action in [Action::\"a\", Action::\"b\",], resource,);",
    "permit(principal is N::User in Team::\"\", action == Action::\"a\", resource in (?resource));",
    "permit(principal,action,resource) when { true } unless { false } when { 1 < 2 };",
    "permit(principal,action,resource) when { principal.a.b[\"c d\"].e || ((context.a)) };",
    "permit(principal,action,resource) when { principal has a.b && resource has \"c\" && !true };",
    "permit(principal,action,resource) when { principal is User in Team::\"a\" || a::\"b\".c };",
    "permit(principal,action,resource) when { if context.n > 1 then -5 + 3 * -2 else -x::\"a\".n };",
    "permit(principal,action,resource) when { [1, 2,].contains(3) != {a: 1, \"b\": [],}.a };",
    "permit(principal,action,resource) when { ip((\"::1\")).isInRange(ip(\"::1\")) };",
];

/// The text with a comment before each of its tokens, with the token's number in it. A slot is one
/// token. The comments stand behind the token before them, or on lines of their own.
fn with_comments(alloc: Global, text: &str, begin: &str) -> Result<String, AllocError> {
    let mut out = String::new(alloc);
    let mut at = 0;
    for number in 0..text.len() {
        let rest = text.get(at..).unwrap_or("").trim_start();
        let start = text.len().saturating_sub(rest.len());
        let token = token_text(text, start);
        if token.is_empty() {
            break;
        }
        if !text.get(..start).unwrap_or("").ends_with('?') {
            write!(out, "{begin}// {number}\n")?;
        }
        out.push_str(token)?;
        at = start.saturating_add(token.len());
    }
    Ok(out)
}

/// The comments of a text, each on a line.
fn comments(alloc: Global, text: &str) -> Result<String, AllocError> {
    let mut out = String::new(alloc);
    for line in text.split('\n') {
        let comment = line.split("// ").last().unwrap_or("");
        if line.contains("// ") && comment.parse::<usize>().is_ok() {
            write!(out, "{comment}\n")?;
        }
    }
    Ok(out)
}

#[test]
fn comments_between_any_two_tokens(rt: HostRuntime) -> Result<(), Fail> {
    let alloc = rt.alloc();
    for text in &POLICIES {
        for begin in &[" ", "\n", "\n\n"] {
            let given = with_comments(alloc, text, begin)?;
            let formatted = shown(alloc, given.as_str())?;
            let wanted = comments(alloc, given.as_str())?;
            let kept = comments(alloc, formatted.as_str())?;
            assert_eq!(rt; kept.as_str(), wanted.as_str(), "{formatted}");
        }
    }
    Ok(())
}
