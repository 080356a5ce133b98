// Texts and counts of an output, in each format.
use cedar_findings::changes::{Change, Comparison};
use cedar_findings::colours::Colours;
use cedar_findings::columns::Columns;
use cedar_findings::environment_changes::EnvironmentChanges;
use cedar_findings::faults::TextFault;
use cedar_findings::formats::Format;
use cedar_findings::outputs::Output;
use cedar_findings::sources::{Content, Source};
use cedar_types::base::Loc;
use std::alloc::{AllocError, Global};
use std::env::VarError;
use std::io;
use std::io::ErrorKind;
use std::test::Fail;

/// A file with one line.
const SOURCE: Source<'static> = Source {
    name: "f",
    text: "abc",
};

/// An output in the format of this name, which has begun; `None` if there is no such format.
fn begun(alloc: Global, colours: Colours, name: &str) -> Result<Option<Output>, AllocError> {
    let mut output = Output::new(alloc, colours);
    let Some(format) = Format::by_name(name) else {
        return Ok(None);
    };
    output.begin(alloc, format, Columns::Characters)?;
    Ok(Some(output))
}

/// A fault at the text of the file.
fn fault(alloc: Global) -> Result<TextFault, AllocError> {
    Ok(TextFault {
        place: Loc { start: 0, end: 3 },
        text: String::from_str(alloc, "why")?,
    })
}

#[test]
fn faults(rt: HostRuntime) -> Result<(), Fail> {
    let alloc = rt.alloc();
    for (colours, wanted) in [
        (
            Colours::None,
            "f:1:1: fault: why\n  1 | abc\n    | ^^^\n\
             g: fault: gone\n\
             f: fault: 100 faults, so the rest of the file is not read\n\
             policies: 0, accepted: 0, refused: 0, warnings: 0, faults: 2\n",
        ),
        // a kind has its colour only on a line about the file that is meant
        (
            Colours::Terminal,
            "f:1:1: \x1b[1;31mfault\x1b[0m: why\n  1 | abc\n    | ^^^\n\
             g: \x1b[1;31mfault\x1b[0m: gone\n\
             f: \x1b[1;31mfault\x1b[0m: 100 faults, so the rest of the file is not read\n\
             policies: 0, accepted: 0, refused: 0, warnings: 0, faults: 2\n",
        ),
    ] {
        let Some(mut output) = begun(alloc, colours, "lines")? else {
            panic!(rt; "there are lines");
        };
        output.add_fault(alloc, SOURCE, &fault(alloc)?)?;
        output.show_missing(alloc, "g", "gone")?;
        output.add_cut(alloc, "f", 100)?;
        output.end(alloc)?;
        assert_eq!(rt; output.shown(), wanted);
        assert_eq!(rt; output.totals.faults, 2);
    }
    Ok(())
}

/// Lines are painted on a terminal alone, and not if the environment has a `NO_COLOR` that is not
/// empty.
#[test]
fn colours(rt: HostRuntime) -> Result<(), Fail> {
    let alloc = rt.alloc();
    for (is_terminal, no_color, wanted) in [
        (true, Err(VarError::NotPresent), Colours::Terminal),
        (true, Ok(""), Colours::Terminal),
        (true, Ok("1"), Colours::None),
        (true, Err(VarError::NotUnicode), Colours::None),
        (true, Err(VarError::OutOfMemory), Colours::None),
        (false, Err(VarError::NotPresent), Colours::None),
        (false, Ok(""), Colours::None),
    ] {
        let variable = match no_color {
            Ok(text) => Ok(String::from_str(alloc, text)?),
            Err(error) => Err(error),
        };
        assert_eq!(rt; Colours::of_output(is_terminal, variable), wanted);
    }
    Ok(())
}

/// Cleared output is not shown again.
#[test]
fn parts(rt: HostRuntime) -> Result<(), Fail> {
    let alloc = rt.alloc();
    let mut output = Output::new(alloc, Colours::None);
    output.show(alloc, "f", "one\n")?;
    assert_eq!(rt; output.shown(), "one\n");
    output.clear();
    assert_eq!(rt; output.shown(), "");
    output.show(alloc, "f", "two\n")?;
    assert_eq!(rt; output.shown(), "two\n");
    Ok(())
}

/// Quiet output in lines or objects has no end, neither of verdicts nor of a comparison. SARIF
/// always ends, because it is one object.
#[test]
fn quiet_ends(rt: HostRuntime) -> Result<(), Fail> {
    let alloc = rt.alloc();
    for (name, of_changes, has_end) in [
        ("lines", false, false),
        ("lines", true, false),
        ("json", false, false),
        ("json", true, false),
        ("sarif", false, true),
        ("sarif", true, true),
    ] {
        let Some(mut output) = begun(alloc, Colours::None, name)? else {
            panic!(rt; "there is a format {name}");
        };
        output.is_quiet = true;
        output.clear();
        if of_changes {
            output.end_changes(alloc)?;
        } else {
            output.end(alloc)?;
        }
        assert_eq!(rt; !output.shown().is_empty(), has_end, "{name}");
    }
    Ok(())
}

/// A comparison without findings, of a policy that is worse off, or is not.
fn comparison<'a>(alloc: Global, is_worse: bool) -> Result<Comparison<'a, 'a>, AllocError> {
    Ok(Comparison {
        is_worse,
        changes: vec![in alloc; Change::Level]?,
        environments: EnvironmentChanges {
            gained: Vec::new(alloc),
            lost: Vec::new(alloc),
        },
        came: Vec::new(alloc),
        went: Vec::new(alloc),
    })
}

#[test]
fn changes(rt: HostRuntime) -> Result<(), Fail> {
    let alloc = rt.alloc();
    for (is_worse, wanted) in [
        (false, "policies: 1, changed: 1, worse: 0, faults: 0\n"),
        (true, "policies: 1, changed: 1, worse: 1, faults: 0\n"),
    ] {
        let mut output = Output::new(alloc, Colours::None);
        output.changes.add(&comparison(alloc, is_worse)?);
        output.end_changes(alloc)?;
        assert_eq!(rt; output.shown(), wanted);
    }
    Ok(())
}

/// The text of a file, or the reason why it cannot be read.
#[test]
fn texts(rt: HostRuntime) -> Result<(), Fail> {
    let alloc = rt.alloc();
    let mut output = Output::new(alloc, Colours::None);
    let whole = Content::Text(String::from_str(alloc, "a")?);
    let Some(text) = output.text_of(alloc, "f", Ok(whole))? else {
        panic!(rt; "there is a text");
    };
    assert_eq!(rt; text.as_str(), "a");
    assert_eq!(rt; output.shown(), "");
    let broken = Content::Broken(String::from_str(alloc, "abc")?, fault(alloc)?);
    assert!(rt; output.text_of(alloc, "f", Ok(broken))?.is_none());
    let gone = io::Error::from(ErrorKind::NotFound);
    assert!(rt; output.text_of(alloc, "g", Err(gone))?.is_none());
    let wanted = "f:1:1: fault: why\n  1 | abc\n    | ^^^\ng: fault: cannot be read: ";
    assert!(rt; output.shown().starts_with(wanted), "{}", output.shown());
    // the reader of the file counts the fault
    assert_eq!(rt; output.totals.faults, 0);
    Ok(())
}
