// Texts that the functions of Cedar read, and a gate's findings on a policy with another text.
use crate::embedding::policies::permit_when;
use crate::embedding::schemas::documents;
use crate::wanted::{REFUSED, Want, alone, are_said};
use cedar_extensions::checks::Constructor;
use cedar_extensions::functions::{Checks, functions, is_constructor, is_method, overloaded_types};
use cedar_extensions::unread_texts::unread_texts;
use cedar_host::policy_sets::validate_set;
use cedar_host::safety::SoundMode;
use cedar_typechecker::rbac::Validator;
use cedar_types::base::{Expr, ExtensionFunctionType, ExtensionSchemas, Literal, Name};
use std::alloc::{AllocError, Global};
use std::fmt::Write;
use std::process::Abort;
use std::test::Fail;

/// The table of Cedar's functions, whose checks are made here.
pub fn cedar_functions(alloc: Global) -> Result<ExtensionSchemas, Fail> {
    let checks = Checks {
        ip: Box::new(alloc, Constructor::Ip.check(alloc))?,
        decimal: Box::new(alloc, Constructor::Decimal.check(alloc))?,
        datetime: Box::new(alloc, Constructor::Datetime.check(alloc))?,
        duration: Box::new(alloc, Constructor::Duration.check(alloc))?,
    };
    let functions = functions(alloc, checks)?;
    if functions.len() != SIGNATURES.len() {
        return Err(Fail::new("a function is there that SIGNATURES does not list"));
    }
    Ok(ExtensionSchemas::new(functions, overloaded_types(alloc)?)?)
}

/// Cedar's functions, each with the types that it takes and the type that it gives.
const SIGNATURES: &[(&str, &str)] = &[
    ("ip", "(String) -> ipaddr"),
    ("decimal", "(String) -> decimal"),
    ("datetime", "(String) -> datetime"),
    ("duration", "(String) -> duration"),
    ("isIpv4", "(ipaddr) -> Bool"),
    ("isIpv6", "(ipaddr) -> Bool"),
    ("isLoopback", "(ipaddr) -> Bool"),
    ("isMulticast", "(ipaddr) -> Bool"),
    ("isInRange", "(ipaddr, ipaddr) -> Bool"),
    ("lessThan", "(decimal, decimal) -> Bool"),
    ("lessThanOrEqual", "(decimal, decimal) -> Bool"),
    ("greaterThan", "(decimal, decimal) -> Bool"),
    ("greaterThanOrEqual", "(decimal, decimal) -> Bool"),
    ("offset", "(datetime, duration) -> datetime"),
    ("durationSince", "(datetime, datetime) -> duration"),
    ("toDate", "(datetime) -> datetime"),
    ("toTime", "(datetime) -> duration"),
    ("toMilliseconds", "(duration) -> Long"),
    ("toSeconds", "(duration) -> Long"),
    ("toMinutes", "(duration) -> Long"),
    ("toHours", "(duration) -> Long"),
    ("toDays", "(duration) -> Long"),
];

/// The types that a function takes and gives.
fn signature(alloc: Global, function: &ExtensionFunctionType) -> Result<String, AllocError> {
    let mut shown = String::from_str(alloc, "(")?;
    for (index, ty) in function.argument_types.iter().enumerate() {
        let before = if index == 0 { "" } else { ", " };
        write!(shown, "{before}{ty}")?;
    }
    write!(shown, ") -> {}", function.return_type)?;
    Ok(shown)
}

#[test]
fn each_function_takes_and_gives_its_types(rt: HostRuntime) -> Result<(), Fail> {
    let alloc = rt.alloc();
    let extensions = cedar_functions(alloc)?;
    for (name, wanted) in SIGNATURES {
        let found = extensions.func_type(&Name::unqualified_name(alloc, name)?);
        let function = found.expect(&rt, name);
        assert_eq!(rt; signature(alloc, function)?.as_str(), *wanted);
        assert!(rt; !function.is_variadic);
        assert_eq!(rt; function.check_arguments.is_some(), is_constructor(name));
        assert!(rt; is_constructor(name) != is_method(name));
    }
    let mut ordered = String::new(alloc);
    for name in extensions.overloaded_types() {
        write!(ordered, "{name} ")?;
    }
    assert_eq!(rt; ordered.as_str(), "datetime duration ");
    Ok(())
}

const READ: &[(Constructor, &[&str])] = &[
    (
        Constructor::Ip,
        &[
            "1.2.3.4",
            "1.2.3.4/32",
            "0.0.0.0/0",
            "::",
            "::1",
            "1::",
            "2001:db8::/32",
            "ffff::/128",
        ],
    ),
    (
        Constructor::Ip,
        &[
            "1:2:3:4:5:6:7:8",
            "1:2:3:4:5:6:7::",
            "::2:3:4:5:6:7:8",
            "ABCD::ef01",
        ],
    ),
    (
        Constructor::Decimal,
        &[
            "0.0",
            "-12.3456",
            "01.5",
            "922337203685477.5807",
            "-922337203685477.5808",
        ],
    ),
    (
        Constructor::Datetime,
        &[
            "2024-02-29",
            "2000-02-29",
            "2023-12-31T23:59:59Z",
            "2023-12-31T00:00:00.123+2359",
            "0000-01-01T00:00:00-0000",
        ],
    ),
    (
        Constructor::Duration,
        &[
            "1d2h3m4s5ms",
            "-5m",
            "10ms",
            "0d",
            "9223372036854775807ms",
            "-9223372036854775808ms",
        ],
    ),
];

const UNREAD: &[(Constructor, &[&str])] = &[
    (
        Constructor::Ip,
        &[
            "",
            "1.2.3",
            "1.2.3.4.5",
            "1.2.3.4/33",
            "01.2.3.4",
            "256.0.0.1",
            "1.2.3.4/",
            "1.2.3.4/01",
        ],
    ),
    (
        Constructor::Ip,
        &[
            "::1.2.3.4",
            ":1",
            "1:",
            ":::",
            "1::2::3",
            "1:2:3:4:5:6:7",
            "12345::",
            "::/129",
            "g::",
        ],
    ),
    (
        Constructor::Decimal,
        &[
            "",
            "1",
            "1.",
            ".5",
            "1.23456",
            "+1.0",
            "922337203685477.5808",
            "-922337203685477.5809",
        ],
    ),
    (
        Constructor::Datetime,
        &[
            "",
            "2020-13-01",
            "2020-00-01",
            "2023-02-29",
            "1900-02-29",
            "2024-04-31",
            "2024-1-01",
            "2024-01-01T24:00:00Z",
            "2024-01-01T00:00:00",
            "2024-01-01T00:00:00.1Z",
            "2024-01-01T00:00:00+2400",
            "2024-01-01T00:00:00Z ",
        ],
    ),
    (
        Constructor::Duration,
        &[
            "",
            "-",
            "1",
            "1h1d",
            "1d1d",
            "1mm",
            "d",
            "9223372036854775808ms",
            "- 1h",
            "99999999999999999999d",
        ],
    ),
];

/// Checks that a function reads all of these texts, or none.
fn are_read(rt: &impl Abort, function: Constructor, texts: &[&str], wanted: bool) {
    for text in texts {
        assert_eq!(rt; function.reads(text), wanted);
    }
}

#[test]
fn texts_of_values_are_read_and_others_are_not(rt: HostRuntime) -> Result<(), Fail> {
    for (function, texts) in READ {
        are_read(&rt, *function, texts, true);
    }
    for (function, texts) in UNREAD {
        are_read(&rt, *function, texts, false);
    }
    Ok(())
}

#[test]
fn a_constructor_has_its_name(rt: HostRuntime) -> Result<(), Fail> {
    for name in ["ip", "decimal", "datetime", "duration"] {
        assert!(rt; is_constructor(name) && !is_method(name));
        assert!(rt; Constructor::from_name(name).is_some_and(|it| it.name() == name));
    }
    assert!(rt; Constructor::from_name("isIpv4").is_none() && is_method("isIpv4"));
    Ok(())
}

/// `datetime(TEXT) == datetime(TEXT)`
fn equal_times(alloc: Global, text: &str) -> Result<Expr, AllocError> {
    Expr::is_eq(alloc, time(alloc, text)?, time(alloc, text)?)
}

fn time(alloc: Global, text: &str) -> Result<Expr, AllocError> {
    let text = Expr::val(Literal::from_string(alloc, text)?);
    let name = Name::unqualified_name(alloc, "datetime")?;
    Ok(Expr::call_extension_fn(name, vec![in alloc; text]?))
}

#[test]
fn a_gate_refuses_a_date_that_there_is_not(rt: HostRuntime) -> Result<(), Fail> {
    let alloc = rt.alloc();
    let extensions = cedar_functions(alloc)?;
    let validator = Validator::new(documents(alloc)?, &extensions);
    let policy = permit_when(alloc, "", equal_times(alloc, "2020-13-01")?)?;
    let policies = alone(alloc, policy, "")?;
    let reports = validate_set(alloc, &validator, SoundMode::Strict, &policies)?;
    let want = Want {
        errors: &["for policy `policy0`, invalid argument: `datetime` cannot read `2020-13-01`"],
        ..REFUSED
    };
    are_said(&rt, &reports, &[want]);
    for it in &policies {
        let errors = unread_texts(alloc, &it.template)?;
        assert_eq!(rt; errors.len(), 2);
        assert!(rt; errors[0].is_same_finding(&errors[1]));
    }
    Ok(())
}
