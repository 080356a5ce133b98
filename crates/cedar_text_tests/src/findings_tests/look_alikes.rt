// Letters that may be taken for others.
use crate::findings_tests::cases::check;
use cedar_findings::marks::marked_parts;
use cedar_reading::Policies;
use std::alloc::Global;
use std::test::Fail;

/// Conditions, and the warnings of their policies with a `;` behind each. `\u{430}` is the Cyrillic letter that looks like `a`.
const CONDITIONS: [(&str, &str); 15] = [
    ("principal.admin == \"admin\"", ""),
    // a text of one script, of any
    (
        "context.a == \"мир\" || context.a == \"naïve\" || context.a == \"Ωμέγα\"",
        "",
    ),
    // Japanese, Korean and Bopomofo have Chinese characters too.
    (
        "context.a == \"東京タワーへ\" || context.a == \"大韓민국\" || context.a == \"注ㄓㄨ\"",
        "",
    ),
    // digits and marks belong to any script
    ("context.a == \"мир-2_0, (x)\"", "text several;"),
    ("context.a == \"мир-2_0, ()\"", ""),
    ("context.a == \"\u{430}dmin\"", "text several;"),
    ("context.a == \"タ한\"", "text several;"),
    ("context.a like \"*\u{430}dm*in\"", "text several;"),
    ("resource in User::\"\u{430}dmin\"", "id several;"),
    (
        "context.\u{430}dmin || {\u{430}dmin: 1} == context",
        "attribute several;attribute several;",
    ),
    ("resource is Us\u{435}r", "name several;"),
    // all letters look like Latin ones
    ("resource in User::\"\u{440}\u{43e}\u{440}\"", "id latin;"),
    ("context.\u{430}\u{441}\u{435} == 1", "attribute latin;"),
    (
        "context[\"\u{ff41}dmin\"] || context[\"\u{1d41a}dmin\"]",
        "attribute latin;attribute latin;",
    ),
    // in a text they may be words of another language
    ("context.a == \"\u{430}\u{441}\u{435}\"", ""),
];

/// The warnings of a policy with this condition, in short.
fn show_warnings(alloc: Global, condition: &str) -> Result<String, Fail> {
    let mut got = String::new(alloc);
    let text = format!(in alloc; "permit(principal, action, resource) when {{ {condition} }};")?;
    let mut policies = Policies::new(alloc, text.as_str())?;
    if let Some(read) = policies.next_policy() {
        for marked in marked_parts(alloc, &read?.template)? {
            push_other_code(&mut got, marked.code.text())?;
            got.push_str(in_short(marked.text))?;
            got.push_str(";")?;
        }
    }
    Ok(got)
}

/// Adds the code of a warning, if it is not that of look-alikes.
fn push_other_code(got: &mut String, code: &str) -> Result<(), Fail> {
    if code != "look-alike" {
        got.push_str(code)?;
    }
    Ok(())
}

fn in_short(text: &str) -> &'static str {
    match text {
        "a text with letters of several scripts, of which some may look alike" => "text several",
        "an id with letters of several scripts, of which some may look alike" => "id several",
        "a name with letters of several scripts, of which some may look alike" => "name several",
        "an attribute with letters of several scripts, of which some may look alike" => {
            "attribute several"
        }
        "an id of letters that look like Latin ones and are others" => "id latin",
        "an attribute of letters that look like Latin ones and are others" => "attribute latin",
        _ => "?",
    }
}

#[test]
fn look_alikes(rt: HostRuntime) -> Result<(), Fail> {
    check(&rt, show_warnings, &CONDITIONS)
}
