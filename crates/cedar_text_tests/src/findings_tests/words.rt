// Words of the command line that stand for others, and words that choose the task.
use crate::findings_tests::cases::check;
use cedar_findings::arguments::{Arguments, Asked, IdScope, Task, read_arguments};
use cedar_findings::options::{Asks, WORDS, option_by_name};
use cedar_findings::shells::Shell;
use cedar_findings::statuses::Statuses;
use cedar_findings::syntaxes::Syntax;
use std::alloc::{AllocError, Global};
use std::test::Fail;

const TOO_FEW: &str = "a schema and at least one file of policies are wanted";

const PARSE_ALONE: &str =
    "`--check-parse` is for schemas and policies alone: without `--since`, `--template-linked`, `--entities` and `--request`";

const SINCE_ALONE: &str = "`--since` is for policies alone: without `--entities` and `--request`";

/// Command lines, with their task or their misuse.
const LINES: [(&str, &str); 58] = [
    // short options that one word joins, and their values
    ("-ss -pp", "validation of s: p"),
    ("-qss -pp", "validation of s: p, quiet"),
    ("-qs s p", "validation of s: p, quiet"),
    ("-qs=s -qp=p", "validation of s: p, quiet"),
    ("s -qkl p", "validation of s: p, links l, quiet"),
    ("-s=s -p=a=b", "validation of s: a=b"),
    ("--schema=s --policies=a=b", "validation of s: a=b"),
    ("-sh p", "validation of h: p"),
    ("-qh", "help"),
    ("s -qV", "version"),
    ("s p -qs", "`--schema` takes a file"),
    ("s p -qx", "there is no option `-qx`"),
    ("s p -xq", "there is no option `-xq`"),
    ("s p --qs", "there is no option `--qs`"),
    ("-q -- -qs -ss", "validation of -qs: -ss, quiet"),
    ("-s -qh p", "validation of -qh: p"),
    ("-s s -p p", "validation of s: p"),
    ("-s=s -p=p", "validation of s: p"),
    ("--schema s --policies p", "validation of s: p"),
    ("--schema s --policies -", "validation of s: -"),
    ("s -p p", "validation of s: p"),
    ("-p p s", "validation of s: p"),
    ("-p p s q", "validation of s: p, q"),
    ("-p p -s s q", "validation of s: p, q"),
    ("-p p -p q s", "validation of s: p, q"),
    ("-p p", TOO_FEW),
    ("-s s", TOO_FEW),
    ("-s s -p", "`--policies` takes a file"),
    ("-s s -p - -k -", "standard input, `-`, can be read once"),
    ("s p -k l", "validation of s: p, links l"),
    ("s p --template-linked=l", "validation of s: p, links l"),
    ("s p -k l -k m", "`--template-linked` takes a file, once"),
    ("s p --schema-format json", "validation of s in json: p"),
    ("s p --policy-format cedar", "validation of s: p in text"),
    (
        "s p --schema-format cedar --input json",
        "validation of s in text: p in json",
    ),
    (
        "s p --input json --policy-format cedar",
        "validation of s in json: p in text",
    ),
    (
        "s p --schema-format text",
        "`--schema-format` takes `cedar` or `json`",
    ),
    (
        "s p --policy-format est",
        "`--policy-format` takes `cedar` or `json`",
    ),
    (
        "s p --validation-mode strictly",
        "`--mode` takes `strict`, `permissive` or `partial`",
    ),
    ("s p -q", "validation of s: p, quiet"),
    (
        "s p --quiet --unique-ids",
        "validation of s: p, quiet, unique",
    ),
    ("s p --cedar-status", "validation of s: p, status of Cedar"),
    ("--since o s p", "comparison with o of s: p"),
    ("--since o --since=o2 s p", "comparison with o, o2 of s: p"),
    ("s p --since", "`--since` takes a file"),
    ("--since o s", TOO_FEW),
    ("--since o s p --entities e", SINCE_ALONE),
    ("--since - s -", "standard input, `-`, can be read once"),
    ("--check-parse p q", "parsing of: p, q"),
    ("--check-parse --schema s", "parsing of s:"),
    (
        "--check-parse",
        "at least one file is wanted, of policies or behind `--schema`",
    ),
    ("--check-parse p --since o", PARSE_ALONE),
    ("--check-parse p -k l", PARSE_ALONE),
    ("--check-parse p --request r", PARSE_ALONE),
    ("--completion zsh", "completion in zsh"),
    (
        "--completion tcsh",
        "`--completion` takes `bash`, `zsh` or `fish`",
    ),
    ("s p --man", "page"),
    ("s -V", "version"),
];

/// The task of a command line, in words.
fn show_task(alloc: Global, line: &str) -> Result<String, Fail> {
    let mut words = Vec::new(alloc);
    for word in line.split(' ') {
        words.push(String::from_str(alloc, word)?)?;
    }
    let text = match read_arguments(alloc, words.as_slice())? {
        Ok(Asked::Validation(arguments)) => return Ok(show_arguments(alloc, &arguments)?),
        Ok(Asked::Help) => "help",
        Ok(Asked::Version) => "version",
        Ok(Asked::Page) => "page",
        Ok(Asked::Completion(Shell::Bash)) => "completion in bash",
        Ok(Asked::Completion(Shell::Zsh)) => "completion in zsh",
        Ok(Asked::Completion(Shell::Fish)) => "completion in fish",
        Err(misuse) => return Ok(misuse.to_string(alloc)?),
    };
    Ok(String::from_str(alloc, text)?)
}

fn show_arguments(alloc: Global, arguments: &Arguments) -> Result<String, AllocError> {
    let task = match arguments.task {
        Task::Validation => "validation of",
        Task::Comparison => "comparison with",
        Task::Parsing => "parsing of",
    };
    let mut shown = String::from_str(alloc, task)?;
    if arguments.task == Task::Comparison {
        push_names(&mut shown, &arguments.old_schemas)?;
        shown.push_str(" of")?;
    }
    push_names(&mut shown, &arguments.schemas)?;
    shown.push_str(syntax_text(arguments.schema_syntax))?;
    shown.push_str(":")?;
    push_names(&mut shown, &arguments.policies)?;
    shown.push_str(syntax_text(arguments.policy_syntax))?;
    if let Some(name) = &arguments.links {
        write!(shown, ", links {name}")?;
    }
    if arguments.is_quiet {
        shown.push_str(", quiet")?;
    }
    if arguments.id_scope == IdScope::Call {
        shown.push_str(", unique")?;
    }
    if arguments.statuses == Statuses::Cedar {
        shown.push_str(", status of Cedar")?;
    }
    Ok(shown)
}

fn push_names(shown: &mut String, names: &Vec<String>) -> Result<(), AllocError> {
    let mut before = " ";
    for name in names {
        write!(shown, "{before}{name}")?;
        before = ", ";
    }
    Ok(())
}

fn syntax_text(syntax: Option<Syntax>) -> &'static str {
    match syntax {
        None => "",
        Some(Syntax::Cedar) => " in text",
        Some(Syntax::Json) => " in json",
    }
}

#[test]
fn words_that_stand_for_others(rt: HostRuntime) -> Result<(), Fail> {
    check(&rt, show_task, &LINES)
}

/// No two words of the table share a name, and each name begins as an option does.
#[test]
fn names_are_of_one_word(rt: HostRuntime) -> Result<(), Fail> {
    let alloc = rt.alloc();
    let mut names: Vec<&str> = Vec::new(alloc);
    for word in &WORDS {
        for name in word.names {
            assert!(rt; name.starts_with("-") && name.len() > 1, "{name}");
            assert!(rt; !names.contains(name), "{name}");
            names.push(name)?;
            let is_found = match (option_by_name(name), word.asks) {
                (Some(Asks::Value(_, _)), Asks::Value(_, _)) => true,
                (Some(Asks::Flag(_)), Asks::Flag(_)) => true,
                _ => false,
            };
            assert!(rt; is_found, "{name}");
        }
    }
    assert_eq!(rt; names.len(), 30);
    Ok(())
}
