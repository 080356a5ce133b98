// Runs of the program, over any files and any two writers.
use crate::cases::{
    CaseCounts, CaseFile, FileFault, Notation, fault_of_columns, notation_of, run_cases,
    run_refusals,
};
use crate::conformance::{run_data, schema_of_data};
use crate::tables::Tables;
use cedar_reading::{
    Fault, MAX_LENGTH, Position, ReadError, SchemaReadError, refused_name, schema,
};
use cedar_typechecker::rbac::Validator;
use cedar_types::base::{SchemaError, ValidatorSchema};
use std::alloc::{AllocError, Global};
use std::io::Write;
use std::rt::Files;
use std::{fs, io};

const USAGE: &str = "usage: cedar-cases FILE..\n";

/// Runs the cases of each file, and answers the exit status: 0 if every case that ran agrees, 1 if one differs or something
/// cannot be read or written, 2 without a file.
pub fn run<R: Files + AllocGlobal, O: Write, E: Write>(
    rt: &R,
    files: &[String],
    tables: Tables<'_>,
    out: &mut O,
    err: &mut E,
) -> u8 {
    if files.is_empty() {
        return match err.write_all(USAGE.as_bytes()) {
            Ok(()) => 2,
            Err(_) => 1,
        };
    }
    match run_files(rt, files, tables, out) {
        Ok(true) => 0,
        _ => 1,
    }
}

fn run_files<R: Files + AllocGlobal, O: Write>(
    rt: &R,
    files: &[String],
    tables: Tables<'_>,
    out: &mut O,
) -> io::Result<bool> {
    let mut all_agree = true;
    for file in files {
        let agrees = run_file(rt, file.as_str(), tables, out)?;
        all_agree = all_agree && agrees;
    }
    Ok(all_agree)
}

/// Runs the cases of a file, and answers whether all that ran agree.
fn run_file<R: Files + AllocGlobal, O: Write>(
    rt: &R,
    name: &str,
    tables: Tables<'_>,
    out: &mut O,
) -> io::Result<bool> {
    let alloc = rt.alloc();
    let Some(text) = read(rt, name, out)? else {
        return Ok(false);
    };
    if let Some(notation) = notation_of(text.as_str()) {
        return run_schemas(alloc, name, text.as_str(), notation, out);
    }
    if let Some(schema) = schema_of_data(text.as_str()) {
        return run_conformance(rt, name, text.as_str(), schema, out);
    }
    let file = match CaseFile::new(alloc, text.as_str())? {
        Ok(file) => file,
        Err(fault) => {
            write_file_fault(out, name, fault)?;
            return Ok(false);
        }
    };
    let Some(schema) = schema_beside(rt, name, file.schema, out)? else {
        return Ok(false);
    };
    let extensions = tables.where_ordered(file.has_ordered_addresses);
    let validator = Validator::new(schema, extensions);
    let counts = run_cases(alloc, name, &file, &validator, out)?;
    write_counts(out, name, counts)?;
    Ok(counts.wrong == 0)
}

/// Runs the cases of a file that have their own declarations, and answers whether all agree.
fn run_schemas<O: Write>(
    alloc: Global,
    name: &str,
    text: &str,
    notation: Notation,
    out: &mut O,
) -> io::Result<bool> {
    if let Some(fault) = fault_of_columns(text) {
        write_file_fault(out, name, fault)?;
        return Ok(false);
    }
    let counts = run_refusals(alloc, name, text, notation, out)?;
    write_counts(out, name, counts)?;
    Ok(counts.wrong == 0)
}

/// Runs the cases of a file that are about data, by the schema in the file of this name beside it, and answers whether all
/// agree.
fn run_conformance<R: Files + AllocGlobal, O: Write>(
    rt: &R,
    name: &str,
    text: &str,
    schema: &str,
    out: &mut O,
) -> io::Result<bool> {
    let Some(schema) = schema_beside(rt, name, schema, out)? else {
        return Ok(false);
    };
    let counts = run_data(rt.alloc(), name, text, &schema, out)?;
    write_counts(out, name, counts)?;
    Ok(counts.wrong == 0)
}

fn write_counts<O: Write>(out: &mut O, name: &str, counts: CaseCounts) -> io::Result<()> {
    writeln!(out, "{name}: {} ran, {} differ", counts.ran, counts.wrong)
}

/// The text of a file. If it cannot be read, that is written, and the answer is `None`.
fn read<R: Files + AllocGlobal, O: Write>(
    rt: &R,
    name: &str,
    out: &mut O,
) -> io::Result<Option<String>> {
    match fs::read_to_string(rt, name) {
        Ok(text) if text.len() <= MAX_LENGTH => Ok(Some(text)),
        Ok(_) => {
            writeln!(out, "{name}: {}", Fault::TooLong)?;
            Ok(None)
        }
        Err(error) => {
            writeln!(out, "{name}: {error}")?;
            Ok(None)
        }
    }
}

/// The schema in the file of this name, which lies in the folder of another. If there is none, the reason is written, and the
/// answer is `None`.
fn schema_beside<R: Files + AllocGlobal, O: Write>(
    rt: &R,
    name: &str,
    schema: &str,
    out: &mut O,
) -> io::Result<Option<ValidatorSchema>> {
    let alloc = rt.alloc();
    let schema = beside(alloc, name, schema)?;
    let Some(text) = read(rt, schema.as_str(), out)? else {
        return Ok(None);
    };
    read_schema(alloc, schema.as_str(), text.as_str(), out)
}

/// The name of a file that lies in the folder of another.
fn beside(alloc: Global, name: &str, other: &str) -> Result<String, AllocError> {
    match name.rsplit_once('/') {
        None => String::from_str(alloc, other),
        Some((folder, _)) => format!(in alloc; "{folder}/{other}"),
    }
}

fn write_file_fault<O: Write>(out: &mut O, name: &str, fault: FileFault) -> io::Result<()> {
    match fault {
        FileFault::NoSchema => {
            writeln!(
                out,
                "{name}:1:1: `schema`, a tab and the name of a file are expected"
            )
        }
        FileFault::NoOrder => writeln!(out, "{name}:1:3: `ordered ipaddr` is expected"),
        FileFault::NoColumn(column) => {
            writeln!(out, "{name}:2:{column}: the name of a column is expected")
        }
        FileFault::SameColumn(column) => {
            writeln!(out, "{name}:2:{column}: the same column twice")
        }
    }
}

/// The schema of a text. If there is none, the reason is written, and the answer is `None`.
fn read_schema<O: Write>(
    alloc: Global,
    name: &str,
    text: &str,
    out: &mut O,
) -> io::Result<Option<ValidatorSchema>> {
    match schema(alloc, text) {
        Ok(schema) => Ok(Some(schema)),
        Err(SchemaReadError::Refused(fault)) => {
            write_refusal(alloc, name, text, &fault, out)?;
            Ok(None)
        }
        Err(SchemaReadError::Read(ReadError::Memory(error))) => Err(io::Error::from(error)),
        Err(SchemaReadError::Read(ReadError::At(at, fault))) => {
            let at = Position::in_text(text, at);
            writeln!(out, "{name}:{}:{}: {fault}", at.line, at.column)?;
            Ok(None)
        }
    }
}

/// Writes the reason why a schema is refused, and the name of its text that is refused.
fn write_refusal<O: Write>(
    alloc: Global,
    name: &str,
    text: &str,
    fault: &SchemaError,
    out: &mut O,
) -> io::Result<()> {
    match refused_name(alloc, text, fault)? {
        None => writeln!(out, "{name}: {fault}"),
        Some(refused) => {
            let at = Position::in_text(text, refused.start);
            let refused = refused.name;
            writeln!(
                out,
                "{name}:{}:{}: {fault}: `{refused}`",
                at.line, at.column
            )
        }
    }
}
