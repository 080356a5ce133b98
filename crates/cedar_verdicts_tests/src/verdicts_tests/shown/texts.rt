// Shown texts that are only read, links and data.
use crate::verdicts_tests::said::{SCHEMA, schema_of};
use cedar_findings::colours::Colours;
use cedar_findings::outputs::Output;
use cedar_findings::sources::Source;
use cedar_verdicts::data::DataKind;
use cedar_verdicts::links::Links;
use cedar_verdicts::shown::texts::{show_data, show_link_faults, show_parsed};
use std::alloc::Global;
use std::test::Fail;

fn file(text: &str) -> Source<'_> {
    Source { name: "f", text }
}

/// The lines without those of texts.
fn lines_of(alloc: Global, output: &Output) -> Result<String, Fail> {
    let mut lines = String::new(alloc);
    for line in output.shown().lines() {
        if !line.starts_with(' ') {
            lines.push_str(line)?;
            lines.push_str("\n")?;
        }
    }
    Ok(lines)
}

#[test]
fn parsed(rt: HostRuntime) -> Result<(), Fail> {
    let alloc = rt.alloc();
    let text = "@id(\"a\") permit(principal, action, resource);\npermit(principal);\n\
                @id(\"a\") forbid(principal, action, resource);";
    let mut output = Output::new(alloc, Colours::None);
    show_parsed(alloc, None, file(text), &mut output)?;
    output.end(alloc)?;
    let lines = lines_of(alloc, &output)?;
    assert_eq!(rt;
        lines.as_str(),
        "f:2:17: fault: `,` is expected, where `)` is read\n\
         f:3:1: fault: the policy at 1:1 of this file has the same id\n\
         policies: 1, accepted: 0, refused: 0, warnings: 0, faults: 2\n"
    );
    Ok(())
}

/// A hundred faults are shown, and then that there are more policies.
#[test]
fn cut(rt: HostRuntime) -> Result<(), Fail> {
    let alloc = rt.alloc();
    let mut text = String::new(alloc);
    for _ in 0..101 {
        text.push_str("permit(principal);\n")?;
    }
    let mut output = Output::new(alloc, Colours::None);
    show_parsed(alloc, None, file(text.as_str()), &mut output)?;
    let lines = lines_of(alloc, &output)?;
    assert_eq!(rt; lines.as_str().lines().count(), 101);
    assert_eq!(rt;
        lines.as_str().lines().next_back().unwrap_or(""),
        "f: fault: 100 faults, so the rest of the file is not read"
    );
    assert_eq!(rt; output.totals.faults, 101);
    Ok(())
}

#[test]
fn links(rt: HostRuntime) -> Result<(), Fail> {
    let alloc = rt.alloc();
    let name = Some(String::from_str(alloc, "f")?);
    for (text, wanted) in [
        ("[]", ""),
        (
            r#"[{"template_id": "t", "link_id": "l", "args": {}}]"#,
            "f:1:18: fault: no policy has this id\n",
        ),
        (
            r#"[{"template_id": "t"}]"#,
            "f:1:2: fault: the key `link_id` is missing\n",
        ),
        (
            "{}",
            "f:1:1: fault: a list is expected, where `{` is read\n",
        ),
        // an item that is no link costs itself alone, and what no text of JSON follows is kept
        (
            r#"[{"template_id": "t", "link_id": "l", "args": {}}, 1, {"template_id": "s", "link_id": "m", "args": {}}]"#,
            "f:1:18: fault: no policy has this id\n\
             f:1:52: fault: an object is expected, where `1` is read\n\
             f:1:71: fault: no policy has this id\n",
        ),
        (
            r#"[{"template_id": "t", "link_id": "l", "args": {}}, x"#,
            "f:1:18: fault: no policy has this id\n\
             f:1:52: fault: a value is expected, where `x` is read\n",
        ),
    ] {
        let mut output = Output::new(alloc, Colours::None);
        let links = Links::read(alloc, String::from_str(alloc, text)?)?;
        show_link_faults(alloc, &name, links, &mut output)?;
        let lines = lines_of(alloc, &output)?;
        assert_eq!(rt; lines.as_str(), wanted, "{text}");
        assert_eq!(rt; output.totals.faults > 0, !wanted.is_empty(), "{text}");
    }
    Ok(())
}

/// A hundred faults of a file of links are shown, the first ones by their places, and all are counted. Items that are no links
/// and links without a template alternate here.
#[test]
fn many_faults_of_links(rt: HostRuntime) -> Result<(), Fail> {
    let alloc = rt.alloc();
    let name = Some(String::from_str(alloc, "f")?);
    for (count, shown, last) in [
        (
            50,
            100,
            "f:100:2: fault: an object is expected, where `1` is read",
        ),
        (51, 101, "f: fault: 2 more faults"),
        (500, 101, "f: fault: 900 more faults"),
    ] {
        let mut text = String::from_str(alloc, "[")?;
        for number in 0..count {
            let comma = if number == 0 { " " } else { "," };
            writeln!(
                text,
                r#"{comma}{{"template_id": "t", "link_id": "l{number}", "args": {{}}}}"#
            )?;
            text.push_str(",1\n")?;
        }
        text.push_str("]")?;
        let mut output = Output::new(alloc, Colours::None);
        let links = Links::read(alloc, text)?;
        show_link_faults(alloc, &name, links, &mut output)?;
        let lines = lines_of(alloc, &output)?;
        assert_eq!(rt; lines.as_str().lines().count(), shown, "{count}");
        assert_eq!(rt;
            lines.as_str().lines().next_back().unwrap_or(""),
            last,
            "{count}"
        );
        assert_eq!(rt; output.totals.faults, 2 * count, "{count}");
    }
    Ok(())
}

#[test]
fn data(rt: HostRuntime) -> Result<(), Fail> {
    let alloc = rt.alloc();
    let Some(schema) = schema_of(alloc, SCHEMA)? else {
        panic!(rt; "there is a schema");
    };
    for (kind, text, entities, errors, faults, wanted) in [
        (DataKind::Entities, "[]", 0, 0, 0, ""),
        (
            DataKind::Entities,
            r#"[{"uid": {"type": "Gone", "id": "a"}, "attrs": {}, "parents": []}]"#,
            1,
            1,
            0,
            "f:1:",
        ),
        (DataKind::Request, "1", 0, 0, 1, "f:1:1: fault: "),
    ] {
        let mut output = Output::new(alloc, Colours::None);
        show_data(alloc, &schema, kind, file(text), &mut output)?;
        let lines = lines_of(alloc, &output)?;
        assert!(rt; lines.as_str().starts_with(wanted), "{lines}");
        assert_eq!(rt; lines.as_str().is_empty(), wanted.is_empty(), "{text}");
        assert_eq!(rt; output.totals.data.entities, entities, "{text}");
        assert_eq!(rt; output.totals.data.errors, errors, "{text}");
        assert_eq!(rt; output.totals.faults, faults, "{text}");
        assert_eq!(rt; output.totals.data.is_refused, !wanted.is_empty(), "{text}");
    }
    Ok(())
}
