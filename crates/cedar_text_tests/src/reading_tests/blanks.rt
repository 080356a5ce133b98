// Blanks and comments between the tokens of policies: they change nothing.
use cedar_findings::forbidden_parts::forbidden_part;
use cedar_fixtures::shown::push_constraint;
use cedar_reading::{Policies, ReadError, token_text};
use cedar_types::base::{ActionConstraint, ExprShapeOnly, ExtensionSchemas, Template};
use std::alloc::{AllocError, Global};
use std::test::Fail;

/// Texts that stand between two tokens. Cedar's comments end at a line feed or a carriage return.
const BETWEEN: [&str; 6] = [
    " ",
    "\n\t",
    " // note\n",
    "// (\n// {\" '\n",
    "//)\r",
    "\u{a0}\u{2003}//\n\r\n",
];

/// Policies of which the parts of conditions may stand there.
const ALLOWED: [&str; 32] = [
    "permit(principal,action,resource);",
    "forbid ( principal == User::\"a\" , action , resource ) ;",
    "permit(principal in N::Team::\"a b\",action==Action::\"view\",resource is Photo);",
    "permit(principal is N::User in Team::\"\",action in [Action::\"a\",Action::\"b\",],resource,);",
    "permit(principal == ?principal,action in Action::\"a\",resource in ?resource);",
    "@id(\"a // no comment\") @note permit(principal,action,resource);",
    "permit(principal,action,resource) when { true } unless { false } when { 1 < 2 };",
    "permit(principal,action,resource) when { principal.a.b[\"c d\"].e };",
    "permit(principal,action,resource) when { principal has a.b && resource has \"c\" };",
    "permit(principal,action,resource) when { principal.name like \"a*b\\*\" };",
    "permit(principal,action,resource) when { principal is N::User in Team::\"a\" || false };",
    "permit(principal,action,resource) when { if context.n > 1 then !principal.a else true };",
    "permit(principal,action,resource) when { - 5 + 3 * -2 - -x::\"a\".n <= 4 };",
    "permit(principal,action,resource) when { [1, 2,].contains(3) != {a: 1, \"b\": [],}.a };",
    "permit(principal,action,resource) when { principal.hasTag(\"a\") && principal.getTag(\"a\") };",
    "permit(principal,action,resource) when { principal in [Team::\"a\", resource.owner] };",
    "permit(principal,action,resource) when { context.tags.containsAny(resource.tags) };",
    "permit(principal,action,resource) when { context.tags.isEmpty() };",
    "permit(principal,action,resource) when { ip(\"10.0.0.1\").isIpv4() };",
    "permit(principal,action,resource) when { (ip(\"10.0.0.1\")).isIpv4() };",
    "permit(principal,action,resource) when { ip(((\"10.0.0.1\"))).isLoopback() };",
    "permit(principal,action,resource) when { ip((\"10.0.0.1\")).isInRange(ip(\"10.0.0.0/8\")) };",
    "permit(principal,action,resource) when { context.ip.isInRange(ip(\"::1\")) || true };",
    "permit(principal,action,resource) when { ((context.ip).isInRange((ip(\"::1\")))) };",
    "permit(principal,action,resource) when { decimal(\"1.0\").lessThan(decimal(\"2.0\")) };",
    "permit(principal,action,resource) when { datetime(\"2024-01-01\").offset(duration(\"1d\")) };",
    "permit(principal,action,resource) when { datetime(\"2024-01-01\").toDate().toTime() };",
    "permit(principal,action,resource) when { duration(\"1d\").toDays() * 24 >= -1 };",
    "permit(principal,action,resource) when { {ip: ip(\"::1\")}.ip.isIpv6() };",
    "permit(principal,action,resource) when { (if true then context.a else context.b).isIpv4() };",
    "permit(principal,action,resource) when { [ip(\"::1\")].contains(context.ip) };",
    "permit(principal,action,resource) when { {\"a\": 1}[\"a\"] == \"// no comment\" };",
];

/// Conditions with a call in the wrong way, and the fault.
const WRONG_CALLS: [(&str, &str); 10] = [
    ("isIpv4(ip(\"1.1.1.1\"))", "`isIpv4` is a method"),
    ("isIpv4((ip(\"1.1.1.1\")))", "`isIpv4` is a method"),
    ("isIpv4()", "`isIpv4` is a method"),
    ("isIpv4((isIpv4(context.a)))", "`isIpv4` is a method"),
    ("isIpv4(a::\"b\", 1)", "`isIpv4` is a method"),
    ("ip(\"1.1.1.1\").ip()", "`ip` is a function"),
    ("(ip(\"1.1.1.1\")).ip()", "`ip` is a function"),
    ("ip(\"1.1.1.1\").ip().isIpv4()", "`ip` is a function"),
    ("\"1.1.1.1\".ip()", "`ip` is a function"),
    ("context.ip.decimal()", "`decimal` is a function"),
];

/// The text with `between` before each of its tokens and behind the last one. A slot is one token.
fn spaced(alloc: Global, text: &str, between: &str) -> Result<String, AllocError> {
    let mut out = String::new(alloc);
    let mut at = 0;
    for _ in 0..text.len() {
        let rest = text.get(at..).unwrap_or("").trim_start();
        let start = text.len().saturating_sub(rest.len());
        let token = token_text(text, start);
        if token.is_empty() {
            break;
        }
        if !text.get(..start).unwrap_or("").ends_with('?') {
            out.push_str(between)?;
        }
        out.push_str(token)?;
        at = start.saturating_add(token.len());
    }
    out.push_str(between)?;
    Ok(out)
}

/// The first policy of a text, or its fault.
fn read(alloc: Global, text: &str) -> Result<Result<Template, String>, ReadError> {
    match Policies::new(alloc, text)?.next_policy() {
        Some(Ok(read)) => Ok(Ok(read.template)),
        Some(Err(ReadError::At(_, fault))) => Ok(Err(format!(in alloc; "{fault}")?)),
        Some(Err(error)) => Err(error),
        None => Ok(Err(String::from_str(alloc, "no policy")?)),
    }
}

/// The scope of a policy, without places.
fn shown_scope(alloc: Global, policy: &Template) -> Result<String, AllocError> {
    let mut out = format!(in alloc; "{}", policy.id)?;
    push_constraint(&mut out, &policy.principal_constraint.constraint)?;
    match &policy.action_constraint {
        ActionConstraint::Any => out.push_str(" action")?,
        ActionConstraint::Eq(uid) => write!(out, " == {uid}")?,
        ActionConstraint::In(uids) => {
            for uid in uids {
                write!(out, " in {uid}")?;
            }
        }
    }
    push_constraint(&mut out, &policy.resource_constraint.constraint)?;
    Ok(out)
}

/// Whether two policies have one id, one scope and one condition, whatever their places are.
fn is_same(alloc: Global, a: &Template, b: &Template) -> Result<bool, AllocError> {
    let is_same_condition = match (&a.non_scope_constraints, &b.non_scope_constraints) {
        (Some(a), Some(b)) => ExprShapeOnly::Borrowed(a) == ExprShapeOnly::Borrowed(b),
        (None, None) => true,
        _ => false,
    };
    Ok(is_same_condition && shown_scope(alloc, a)? == shown_scope(alloc, b)?)
}

/// The fault of a part that Cedar's parser refuses; empty if there is none.
fn forbidden(alloc: Global, text: &str, policy: &Template) -> Result<String, AllocError> {
    let functions: ExtensionSchemas = ExtensionSchemas::default(alloc);
    match forbidden_part(alloc, &functions, Some(text), policy)? {
        Some(fault) => Ok(fault.text),
        None => Ok(String::new(alloc)),
    }
}

#[test]
fn blanks_between_tokens(rt: HostRuntime) -> Result<(), Fail> {
    let alloc = rt.alloc();
    for text in &ALLOWED {
        let plain = match read(alloc, text)? {
            Ok(plain) => plain,
            Err(fault) => {
                assert_eq!(rt; fault.as_str(), "", "{text}");
                continue;
            }
        };
        assert_eq!(rt; forbidden(alloc, text, &plain)?.as_str(), "", "{text}");
        for between in &BETWEEN {
            let spaced = spaced(alloc, text, between)?;
            match read(alloc, spaced.as_str())? {
                Ok(policy) => {
                    assert!(rt; is_same(alloc, &plain, &policy)?, "{spaced}");
                    let fault = forbidden(alloc, spaced.as_str(), &policy)?;
                    assert_eq!(rt; fault.as_str(), "", "{spaced}");
                }
                Err(fault) => assert_eq!(rt; fault.as_str(), "", "{spaced}"),
            }
        }
    }
    Ok(())
}

#[test]
fn calls_in_the_wrong_way(rt: HostRuntime) -> Result<(), Fail> {
    let alloc = rt.alloc();
    for (condition, wanted) in &WRONG_CALLS {
        let text = format!(in alloc;
            "permit(principal, action, resource) when {{ true || {condition} }};"
        )?;
        for between in &BETWEEN {
            let spaced = spaced(alloc, text.as_str(), between)?;
            match read(alloc, spaced.as_str())? {
                Ok(policy) => {
                    let fault = forbidden(alloc, spaced.as_str(), &policy)?;
                    assert!(rt; fault.as_str().starts_with(*wanted), "{spaced}: {fault}");
                }
                Err(fault) => assert_eq!(rt; fault.as_str(), *wanted, "{spaced}"),
            }
        }
    }
    Ok(())
}
