// Objects of JSON, in which no text by another writer ends a text or a line.
use cedar_findings::codes::Code;
use cedar_findings::columns::Columns;
use cedar_findings::data_findings::DataFinding;
use cedar_findings::findings::{Finding, Requirement, Severity, Verdict};
use cedar_findings::objects::Objects;
use cedar_findings::sources::Source;
use cedar_findings::totals::{DataTally, Totals};
use cedar_findings::writers::{Entry, FindingsWriter, Place};
use cedar_reading::Position;
use cedar_types::base::{EntityDerefLevel, Loc};
use std::alloc::{AllocError, Global};
use std::test::Fail;

/// From 3:7 up to 4:1.
const PLACE: Place<'static> = Place {
    source: Source {
        name: "a\"",
        text: "\n",
    },
    loc: Loc { start: 0, end: 1 },
    at: Position { line: 3, column: 7 },
    columns: Columns::Characters,
};

const POLICIES: &str = r#"
{"kind":"policy","file":"a\"","line":3,"column":7,"end_line":4,"end_column":1,"id":"x\u000ay","accepted":false}
{"kind":"policy","file":"a\"","line":3,"column":7,"end_line":4,"end_column":1,"id":"\\","accepted":true,"level":null}
{"kind":"policy","file":"a\"","line":3,"column":7,"end_line":4,"end_column":1,"id":"\\","accepted":true,"level":2}
"#;

#[test]
fn policies(rt: HostRuntime) -> Result<(), Fail> {
    let alloc = rt.alloc();
    let mut out = String::new(alloc);
    let level = Requirement::Level(EntityDerefLevel { level: 2 });
    add_policy(&mut out, alloc, "x\ny", (false, Requirement::Unsaid))?;
    add_policy(&mut out, alloc, "\\", (true, Requirement::NoLevel))?;
    add_policy(&mut out, alloc, "\\", (true, level))?;
    assert_eq!(rt; out.as_str(), POLICIES.trim_start());
    Ok(())
}

/// Adds a policy of this id, which is accepted or not.
fn add_policy(
    out: &mut String,
    alloc: Global,
    id: &str,
    (is_accepted, requirement): (bool, Requirement),
) -> Result<(), Fail> {
    let verdict = Verdict {
        is_accepted,
        requirement,
        errors: Vec::new(alloc),
        warnings: Vec::new(alloc),
        others: 0,
        warning_count: 0,
    };
    Objects.add(out, Entry::Policy(PLACE, id, &verdict))?;
    Ok(())
}

const FINDINGS: &str = r#"
{"kind":"error","file":"a\"","line":3,"column":7,"end_line":4,"end_column":1,"code":"direction","id":"i","text":"\u202e","hint":"ask \"x\"","also":["A"],"only":["h","t\u0009"]}
{"kind":"warning","file":"a\"","line":3,"column":7,"end_line":4,"end_column":1,"code":"direction","id":"i","text":"\u202e","only":[]}
{"kind":"fault","file":"a\"","line":3,"column":7,"end_line":4,"end_column":1,"code":"fault","text":"`;` is expected"}
{"kind":"fault","file":"\u001b","code":"file","text":"none"}
{"kind":"summary","policies":1,"accepted":2,"refused":3,"warnings":4,"faults":5,"level":6}
"#;

#[test]
fn findings_and_faults(rt: HostRuntime) -> Result<(), Fail> {
    let alloc = rt.alloc();
    let mut out = String::new(alloc);
    let environments = vec![in alloc;
        String::from_str(alloc, "h")?,
        String::from_str(alloc, "t\t")?,
    ]?;
    let somewhere = finding(alloc, environments)?;
    Objects.add(
        &mut out,
        Entry::Finding(PLACE, "i", Severity::Error, &somewhere),
    )?;
    let nowhere = finding(alloc, Vec::new(alloc))?;
    Objects.add(
        &mut out,
        Entry::Finding(PLACE, "i", Severity::Warning, &nowhere),
    )?;
    Objects.add(&mut out, Entry::Fault(PLACE, "`;` is expected"))?;
    Objects.add(&mut out, Entry::Missing("\u{1b}", "none"))?;
    let totals = Totals {
        policies: 1,
        accepted: 2,
        refused: 3,
        warnings: 4,
        faults: 5,
        requirement: Requirement::Level(EntityDerefLevel { level: 6 }),
        data: DataTally::default(),
        lacks_schema: false,
    };
    Objects.end(&mut out, &totals)?;
    assert_eq!(rt; out.as_str(), FINDINGS.trim_start());
    Ok(())
}

fn finding(alloc: Global, environments: Vec<String>) -> Result<Finding, AllocError> {
    let mut also = Vec::new(alloc);
    let mut hint = String::new(alloc);
    if !environments.is_empty() {
        also.push(String::from_str(alloc, "A")?)?;
        hint.push_str("ask \"x\"")?;
    }
    Ok(Finding {
        start: 0,
        end: 1,
        text: String::from_str(alloc, "\u{202e}")?,
        hint,
        also,
        environments,
        code: Code::Direction,
    })
}

/// The objects of a mistake in data, and of the counts if data is checked.
const DATA: &str = r#"
{"kind":"data","file":"a\"","line":3,"column":7,"end_line":4,"end_column":1,"code":"data-type","text":"a \"b\"","hint":"c"}
{"kind":"summary","policies":0,"accepted":0,"refused":0,"warnings":0,"faults":0,"entities":1,"data_errors":2}
"#;

#[test]
fn data_as_objects(rt: HostRuntime) -> Result<(), Fail> {
    let alloc = rt.alloc();
    let mut out = String::new(alloc);
    let finding = DataFinding {
        place: Loc { start: 0, end: 1 },
        code: Code::DataType,
        text: String::from_str(alloc, "a \"b\"")?,
        hint: String::from_str(alloc, "c")?,
    };
    Objects.add(&mut out, Entry::Data(PLACE, &finding))?;
    let mut totals = Totals::default();
    totals.data.is_asked = true;
    totals.data.entities = 1;
    totals.data.errors = 2;
    Objects.end(&mut out, &totals)?;
    assert_eq!(rt; out.as_str(), DATA.trim_start());
    Ok(())
}
