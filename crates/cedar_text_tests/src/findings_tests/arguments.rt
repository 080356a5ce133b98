// Arguments in the words of a command line.
use crate::findings_tests::cases::check;
use cedar_findings::arguments::{Arguments, Asked, read_arguments};
use cedar_findings::columns::Columns;
use cedar_findings::formats::Format;
use cedar_findings::syntaxes::Syntax;
use cedar_types::base::ValidationMode;
use std::alloc::{AllocError, Global};
use std::test::Fail;

/// Command lines, each with its reading or its fault.
const LINES: [(&str, &str); 60] = [
    (
        "--schema s p --schema=t q",
        "strict, no level, lines: s, t, p, q, 2 schemas",
    ),
    ("p --schema s", "strict, no level, lines: s, p"),
    (
        "--schema s",
        "a schema and at least one file of policies are wanted",
    ),
    ("p --schema", "`--schema` takes a file"),
    ("--schema - p -", "standard input, `-`, can be read once"),
    (
        "--format sarif s p --deny-warnings",
        "strict, no level, no warnings, sarif: s, p",
    ),
    ("--format=json s p", "strict, no level, objects: s, p"),
    ("--json --format lines s p", "strict, no level, lines: s, p"),
    (
        "--format xml s p",
        "`--format` takes `lines`, `json` or `sarif`",
    ),
    (
        "s p --format",
        "`--format` takes `lines`, `json` or `sarif`",
    ),
    (
        "--deny-warnings=1 s p",
        "there is no option `--deny-warnings=1`",
    ),
    ("--input json s p", "strict, no level, in json, lines: s, p"),
    ("s --input=text p", "strict, no level, in text, lines: s, p"),
    (
        "--input text --json --input json s p",
        "strict, no level, in json, objects: s, p",
    ),
    ("--input sarif s p", "`--input` takes `text` or `json`"),
    ("s p --input", "`--input` takes `text` or `json`"),
    ("s p", "strict, no level, lines: s, p"),
    ("--json s - q", "strict, no level, objects: s, -, q"),
    (
        "--level 3 --mode permissive s p",
        "permissive, level 3, lines: s, p",
    ),
    ("s p --mode partial", "partial, no level, lines: s, p"),
    ("s --help", "help"),
    ("s", "a schema and at least one file of policies are wanted"),
    ("--level 1 s p --level 0", "strict, level 0, lines: s, p"),
    ("--json --help --nonsense", "help"),
    ("", "a schema and at least one file of policies are wanted"),
    ("- p q", "strict, no level, lines: -, p, q"),
    ("- p -", "standard input, `-`, can be read once"),
    ("--modes strict s p", "there is no option `--modes`"),
    ("--level=1 s p", "strict, level 1, lines: s, p"),
    ("--mode=partial s p", "partial, no level, lines: s, p"),
    ("--levels=1 s p", "there is no option `--levels=1`"),
    (
        "--level= s p",
        "`--level` takes a number from 0 to 4294967295",
    ),
    (
        "--json -- --json -h",
        "strict, no level, objects: --json, -h",
    ),
    ("s -- -p -", "strict, no level, lines: s, -p, -"),
    ("s -h", "help"),
    ("--version s", "version"),
    ("- -- -", "standard input, `-`, can be read once"),
    ("--\u{202e} s p", "there is no option `--\\u{202e}`"),
    (
        "--mode stricter s p",
        "`--mode` takes `strict`, `permissive` or `partial`",
    ),
    (
        "s p --mode",
        "`--mode` takes `strict`, `permissive` or `partial`",
    ),
    (
        "--level 4294967296 s p",
        "`--level` takes a number from 0 to 4294967295",
    ),
    (
        "s p --level",
        "`--level` takes a number from 0 to 4294967295",
    ),
    (
        "--level -1 s p",
        "`--level` takes a number from 0 to 4294967295",
    ),
    (
        "--level 1 --mode partial s p",
        "`--level` is for the modes `strict` and `permissive`",
    ),
    ("--entities e s", "strict, no level, lines: s, entities e"),
    (
        "s --request q p --entities=e --json",
        "strict, no level, objects: s, p, entities e, request q",
    ),
    (
        "--schema s --request=q",
        "strict, no level, lines: s, request q",
    ),
    (
        "--entities e",
        "a schema and at least one file of policies are wanted",
    ),
    ("s --entities", "`--entities` takes a file, once"),
    (
        "s --entities e --entities e",
        "`--entities` takes a file, once",
    ),
    ("s p --request", "`--request` takes a file, once"),
    (
        "s --request=q --request r",
        "`--request` takes a file, once",
    ),
    (
        "s --entities - --request -",
        "standard input, `-`, can be read once",
    ),
    ("--entity e s p", "there is no option `--entity`"),
    (
        "--columns utf16 s p",
        "strict, no level, lines in utf16: s, p",
    ),
    (
        "s p --json --columns=bytes",
        "strict, no level, objects in bytes: s, p",
    ),
    (
        "--columns bytes --columns characters s p",
        "strict, no level, lines: s, p",
    ),
    (
        "--columns tabs s p",
        "`--columns` takes `characters`, `utf16` or `bytes`",
    ),
    (
        "--columns bytes s p --format sarif",
        "SARIF has no columns in bytes: `--format sarif` goes with `--columns characters` or `utf16`",
    ),
    (
        "--columns utf16 s p --format sarif",
        "strict, no level, sarif in utf16: s, p",
    ),
];

/// The arguments of a command line, in words.
fn show_arguments(alloc: Global, line: &str) -> Result<String, Fail> {
    let mut words = Vec::new(alloc);
    for word in line.split(' ') {
        words.push(String::from_str(alloc, word)?)?;
    }
    let arguments = match read_arguments(alloc, words.as_slice())? {
        Ok(Asked::Validation(arguments)) => arguments,
        Ok(Asked::Help) => return Ok(String::from_str(alloc, "help")?),
        Ok(Asked::Version) => return Ok(String::from_str(alloc, "version")?),
        Ok(Asked::Page) => return Ok(String::from_str(alloc, "page")?),
        Ok(Asked::Completion(_)) => return Ok(String::from_str(alloc, "completion")?),
        Err(misuse) => return Ok(misuse.to_string(alloc)?),
    };
    let mut got = String::from_str(alloc, mode_text(arguments.mode))?;
    match arguments.level {
        Some(level) => write!(got, ", level {level}")?,
        None => got.push_str(", no level")?,
    }
    if arguments.denies_warnings {
        got.push_str(", no warnings")?;
    }
    got.push_str(match arguments.syntax {
        None => "",
        Some(Syntax::Cedar) => ", in text",
        Some(Syntax::Json) => ", in json",
    })?;
    got.push_str(match arguments.format {
        Format::Lines(_) => ", lines",
        Format::Objects(_) => ", objects",
        Format::Sarif(_) => ", sarif",
    })?;
    got.push_str(match arguments.columns {
        Columns::Characters => ": ",
        Columns::Utf16 => " in utf16: ",
        Columns::Bytes => " in bytes: ",
    })?;
    push_files(&mut got, &arguments)?;
    if arguments.schemas.len() > 1 {
        write!(got, ", {} schemas", arguments.schemas.len())?;
    }
    if let Some(name) = &arguments.entities {
        write!(got, ", entities {name}")?;
    }
    if let Some(name) = &arguments.request {
        write!(got, ", request {name}")?;
    }
    Ok(got)
}

#[test]
fn what_is_asked(rt: HostRuntime) -> Result<(), Fail> {
    check(&rt, show_arguments, &LINES)
}

/// Adds the files of the schema and of policies.
fn push_files(got: &mut String, arguments: &Arguments) -> Result<(), AllocError> {
    let mut is_first = true;
    for name in arguments.schemas.iter().chain(arguments.policies.iter()) {
        if !is_first {
            got.push_str(", ")?;
        }
        is_first = false;
        got.push_str(name.as_str())?;
    }
    Ok(())
}

fn mode_text(mode: ValidationMode) -> &'static str {
    match mode {
        ValidationMode::Strict => "strict",
        ValidationMode::Permissive => "permissive",
        ValidationMode::Partial => "partial",
    }
}
