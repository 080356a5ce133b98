// The run of the program, over any two writers.
ghost use Rattle.std.specs.Prelude.{◌≡◌, ◌<◌, ◌≤◌, ◌⊎◌, ◌↔◌, [], length, true, IsNone, option_copied};
ghost use Rattle.std.specs.List.{position};
ghost use Rattle.std.specs.Str.{bytes_eq};
ghost use Rattle.cedar_rows.specs.Asked.{rows_asked};
ghost use Rattle.std.specs.Io.KnownBytes.{Appends};

use crate::rows::{NamedRow, Row, WORKED};
use cedar_types::base::ExtensionSchemas;
use std::alloc::Global;
use std::io;
use std::io::Write;

const USAGE: &str = "usage: cedar-check [ROW]\n";

/// Runs one row, or all in order without a word, and answers the exit status.
pub fn run<O: Write, E: Write>(
    alloc: Global,
    words: &[String],
    x1: &ExtensionSchemas,
    x2: &ExtensionSchemas,
    out: &mut O,
    err: &mut E,
) -> u8
    ensures status { result ≤ 2 }
    ensures no_word { words.now ≡ [] → result ≤ 1 }
    ensures second_word { 1 < length words.now → 1 ≤ result }
    ensures usage_alone { result ≡ 2 → out.new ≡ out.old }
    ensures usage { result ≡ 2 → Appends (E.contents err.old) (E.contents err.new) USAGE.now }
    ensures ok_is_silent { result ≡ 0 → err.new ≡ err.old }
{
    run_among(alloc, &WORKED, words, x1, x2, out, err)
}

/// Runs one of these rows, which need not be the worked ones, or all of them. Its clauses are those of `run`, so that the proof
/// of `run` need not look at the rows.
pub fn run_among<R: Row, O: Write, E: Write>(
    alloc: Global,
    rows: &[NamedRow<R>],
    words: &[String],
    x1: &ExtensionSchemas,
    x2: &ExtensionSchemas,
    out: &mut O,
    err: &mut E,
) -> u8
    ensures status { result ≤ 2 }
    ensures no_row { IsNone (rows_asked rows.now words.now) → 1 ≤ result }
    ensures no_word { words.now ≡ [] → result ≤ 1 }
    ensures second_word { 1 < length words.now → 1 ≤ result }
    ensures usage_of_no_row { result ≡ 2 → IsNone (rows_asked rows.now words.now) }
    ensures usage_alone { result ≡ 2 → out.new ≡ out.old }
    ensures usage { result ≡ 2 → Appends (E.contents err.old) (E.contents err.new) USAGE.now }
    ensures ok_is_silent { result ≡ 0 → err.new ≡ err.old }
{
    match select(rows, words) {
        Some(rows) => status_of(run_rows(alloc, rows, x1, x2, out)),
        None => print_usage(err),
    }
}

fn select<'a, R>(rows: &'a [NamedRow<R>], words: &[String]) -> Option<&'a [NamedRow<R>]>
    ensures { option_copied result ≡ rows_asked rows.now words.now }
{
    match words {
        [] => Some(rows),
        [word] => {
            let at = place_of(rows, word.as_str())?;
            Some(&rows[at..at + 1])
        }
        _ => None,
    }
}

fn place_of<R>(rows: &[NamedRow<R>], word: &str) -> Option<usize>
    ensures { result ≡ position (λ row. bytes_eq row.name.now word.now) rows.now }
{
    rows.iter().position(|row| row.name == word)
}

fn print_usage<E: Write>(err: &mut E) -> u8
    ensures status { (result ≡ 1) ⊎ (result ≡ 2) }
    ensures text { result ≡ 2 → Appends (E.contents err.old) (E.contents err.new) USAGE.now }
{
    match err.write_all(USAGE.as_bytes()) {
        Ok(()) => 2,
        Err(_) => 1,
    }
}

fn status_of(ran: io::Result<bool>) -> u8
    ensures bound { result ≤ 1 }
    ensures ok { (result ≡ 0) ↔ (ran ≡ Ok true) }
{
    match ran {
        Ok(true) => 0,
        _ => 1,
    }
}

fn run_rows<R: Row, O: Write>(
    alloc: Global,
    rows: &[NamedRow<R>],
    x1: &ExtensionSchemas,
    x2: &ExtensionSchemas,
    out: &mut O,
) -> io::Result<bool> {
    let mut all_ok = true;
    for row in rows {
        let is_ok = run_row(alloc, row, x1, x2, out)?;
        all_ok = all_ok && is_ok;
    }
    Ok(all_ok)
}

fn run_row<R: Row, O: Write>(
    alloc: Global,
    row: &NamedRow<R>,
    x1: &ExtensionSchemas,
    x2: &ExtensionSchemas,
    out: &mut O,
) -> io::Result<bool> {
    let name = row.name;
    let Ok(report) = row.row.report(alloc, x1, x2) else {
        writeln!(out, "row {name}: no memory")?;
        return Ok(false);
    };
    write!(out, "row {name}:")?;
    for outcome in &report.outcomes {
        write!(out, " {outcome};")?;
    }
    let verdict = if report.is_expected { "ok" } else { "differs" };
    writeln!(out, " {verdict}")?;
    Ok(report.is_expected)
}
