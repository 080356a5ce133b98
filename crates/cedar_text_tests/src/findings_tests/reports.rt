// Reports of a policy with more findings than are shown.
use cedar_findings::codes::Code;
use cedar_findings::columns::Columns;
use cedar_findings::faults::TextFault;
use cedar_findings::findings::{Finding, Requirement, Verdict};
use cedar_findings::formats::Format;
use cedar_findings::lines::Lines;
use cedar_findings::reports::{Report, render_missing};
use cedar_findings::sources::Source;
use cedar_findings::totals::Totals;
use cedar_findings::writers::FindingsWriter;
use cedar_reading::Policies;
use cedar_types::base::Loc;
use std::alloc::Global;
use std::test::Fail;

const TEXT: &str = "\npermit(principal, action, resource);";

/// The number of shown findings and of the others, the format, the number of lines, and the last line.
const CASES: [(usize, usize, &str, usize, &str); 7] = [
    (
        100,
        0,
        "lines",
        301,
        "    | ^^^^^^^^^^^^^^^^^^^^^^^^^^^^^^^^^^^^",
    ),
    (100, 1, "lines", 302, "f:2:1: 1 more findings"),
    (100, 250, "lines", 302, "f:2:1: 250 more findings"),
    (
        100,
        0,
        "json",
        101,
        r#"{"kind":"error","file":"f","line":2,"column":1,"end_line":2,"end_column":37,"code":"level","id":"policy0","text":"e","only":[]}"#,
    ),
    (
        100,
        2,
        "json",
        102,
        r#"{"kind":"rest","file":"f","line":2,"column":1,"end_line":2,"end_column":37,"id":"policy0","findings":2}"#,
    ),
    (
        1,
        0,
        "sarif",
        2,
        r#"{"ruleId":"level","level":"error","message":{"text":"policy `policy0`: e"},"locations":[{"physicalLocation":{"artifactLocation":{"uri":"f"},"region":{"startLine":2,"startColumn":1,"endLine":2,"endColumn":37}}}]}"#,
    ),
    (
        2,
        3,
        "sarif",
        4,
        r#"{"ruleId":"rest","level":"error","message":{"text":"policy `policy0`: 3 more findings"},"locations":[{"physicalLocation":{"artifactLocation":{"uri":"f"},"region":{"startLine":2,"startColumn":1,"endLine":2,"endColumn":37}}}]}"#,
    ),
];

#[test]
fn findings_and_how_many_more(rt: HostRuntime) -> Result<(), Fail> {
    let alloc = rt.alloc();
    for (count, others, name, lines, last) in &CASES {
        let shown = describe(alloc, *count, *others, name)?;
        assert_eq!(rt; shown.lines().count(), *lines);
        assert_eq!(rt; shown.lines().next_back().unwrap_or(""), *last);
    }
    Ok(())
}

/// The report of a policy with `count` findings and `others` more, in the format of this name.
fn describe(alloc: Global, count: usize, others: usize, name: &str) -> Result<String, Fail> {
    let Some(format) = Format::by_name(name) else {
        return Ok(String::new(alloc));
    };
    let source = Source {
        name: "f",
        text: TEXT,
    };
    let mut report = Report::new(alloc, format, Columns::Characters, source);
    let mut policies = Policies::new(alloc, TEXT)?;
    let Some(read) = policies.next_policy() else {
        return Ok(String::new(alloc));
    };
    let policy = read?.template;
    let mut errors = Vec::new(alloc);
    for _ in 0..count {
        let code = Code::Level;
        errors.push(Finding::new(alloc, &policy, code, None, "e")?)?;
    }
    let verdict = Verdict {
        is_accepted: false,
        requirement: Requirement::Unsaid,
        errors,
        warnings: Vec::new(alloc),
        others,
        warning_count: 0,
    };
    Ok(report.policy_shown(alloc, &policy, &verdict)?)
}

/// The output of each format without a file, with a schema and without one: SARIF always begins and ends.
#[test]
fn nothing_found(rt: HostRuntime) -> Result<(), Fail> {
    let alloc = rt.alloc();
    for (name, lacks_schema, lines) in [
        ("lines", false, 1),
        ("lines", true, 0),
        ("json", false, 1),
        ("json", true, 0),
        ("sarif", false, 36),
        ("sarif", true, 36),
    ] {
        let Some(mut format) = Format::by_name(name) else {
            continue;
        };
        let mut totals = Totals::default();
        if lacks_schema {
            totals.add_missing_schema();
        }
        let mut out = String::new(alloc);
        format.begin(&mut out)?;
        format.end(&mut out, &totals)?;
        assert_eq!(rt; out.as_str().lines().count(), lines, "{name}");
    }
    Ok(())
}

/// Texts of findings, and how a message of SARIF says them: neither as a link nor as a placeholder.
const MESSAGES: [(&str, &str); 8] = [
    ("[a](https://b.example)", r"\\[a\\](https://b.example)"),
    (r"x\](y", r"x\\\\\\](y"),
    ("`[]` and [a] (b)", "`[]` and [a] (b)"),
    (r"a\b", r"a\\b"),
    ("{0}", "{{0}}"),
    ("{a: {12}}", "{{a: {{12}}}}"),
    ("{ a: Long }, {}, {1 }", "{ a: Long }, {}, {1 }"),
    ("[{1}](c)", r"\\[{{1}}\\](c)"),
];

#[test]
fn messages_of_sarif(rt: HostRuntime) -> Result<(), Fail> {
    let alloc = rt.alloc();
    for (text, wanted) in &MESSAGES {
        let place = Loc { start: 0, end: 1 };
        let text = String::from_str(alloc, text)?;
        let shown = fault_shown(alloc, "sarif", "f", TextFault { place, text })?;
        let message = format!(in alloc; "\"message\":{{\"text\":\"{wanted}\"}},")?;
        let is_there = shown.contains(message.as_str());
        assert_eq!(rt; is_there, true, "{shown} has no {message}");
    }
    Ok(())
}

/// Names of files, and how a line begins with them: with no command to a code host.
const FILES: [(&str, &str); 5] = [
    ("f", "f:"),
    ("::error file=x::y.cedar", "./::error file=x::y.cedar:"),
    (" \u{a0}::error::y", "./ \\u{a0}::error::y:"),
    ("a::b", "a::b:"),
    ("##[error]y", "#\\u{23}[error]y:"),
];

#[test]
fn names_of_files(rt: HostRuntime) -> Result<(), Fail> {
    let alloc = rt.alloc();
    for (file, wanted) in &FILES {
        let place = Loc { start: 0, end: 1 };
        let text = String::from_str(alloc, "e")?;
        let shown = fault_shown(alloc, "lines", file, TextFault { place, text })?;
        assert_eq!(rt; shown.starts_with(wanted), true, "{shown}");
        let mut format = Format::Lines(Lines);
        let missing = render_missing(alloc, &mut format, file, "cannot be read")?;
        assert_eq!(rt; missing.starts_with(wanted), true, "{missing}");
    }
    Ok(())
}

/// The report of a fault in a file of this name.
fn fault_shown(alloc: Global, format: &str, name: &str, fault: TextFault) -> Result<String, Fail> {
    let Some(format) = Format::by_name(format) else {
        return Ok(String::new(alloc));
    };
    let source = Source { name, text: TEXT };
    let mut report = Report::new(alloc, format, Columns::Characters, source);
    Ok(report.fault_shown(alloc, &fault)?)
}
