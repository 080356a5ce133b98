//! Verdicts on texts that are only read, on links and on data, as an output shows them.
use crate::data::{DataKind, judge_data};
use crate::links::Links;
use crate::parses::parse_policies;
use crate::texts::MAX_FAULTS;
use cedar_findings::outputs::Output;
use cedar_findings::reports::Report;
use cedar_findings::sources::Source;
use cedar_findings::syntaxes::Syntax;
use cedar_types::base::ValidatorSchema;
use std::alloc::{AllocError, Global};

/// Reads the policies of a file, counts them, and shows the faults of the others.
pub fn show_parsed(
    alloc: Global,
    syntax: Option<Syntax>,
    source: Source<'_>,
    output: &mut Output,
) -> Result<(), AllocError> {
    let parsed = parse_policies(alloc, syntax, source.text)?;
    output.totals.add_read(parsed.policies);
    for fault in &parsed.faults {
        output.add_fault(alloc, source, fault)?;
    }
    if parsed.is_cut {
        output.add_cut(alloc, source.name, MAX_FAULTS)?;
    }
    Ok(())
}

/// Shows the faults of the links in the file of this name, if there is one, and counts all of them.
pub fn show_link_faults(
    alloc: Global,
    name: &Option<String>,
    links: Links,
    output: &mut Output,
) -> Result<(), AllocError> {
    let Some(name) = name else {
        return Ok(());
    };
    let faults = links.into_faults(alloc)?;
    let source = Source {
        name: name.as_str(),
        text: faults.text.as_str(),
    };
    output.add_faults(alloc, source, faults.listed.as_slice())?;
    if faults.others > 0 {
        output.add_others(alloc, source.name, faults.others)?;
    }
    Ok(())
}

/// Checks the entities or the request of a file, counts them, and shows their mistakes.
pub fn show_data(
    alloc: Global,
    schema: &ValidatorSchema,
    kind: DataKind,
    source: Source<'_>,
    output: &mut Output,
) -> Result<(), AllocError> {
    let verdict = judge_data(alloc, schema, kind, source.text)?;
    output.totals.add_data(&verdict);
    let mut report = Report::new(alloc, output.format, output.columns, source);
    let shown = report.data_shown(alloc, &verdict)?;
    output.format = report.format();
    output.show(alloc, source.name, shown.as_str())
}
