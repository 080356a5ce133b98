//! Sample hosts, to read and to copy: `cedar-samples [example | gate | queries [SCHEMA POLICIES] | rounds | store]`. Without a word
//! all run, one after another. `cedar-samples clauses SCHEMA POLICIES` prints cases for tests of where-clauses.
#![tactic(auto)]

mod clauses;
mod example;
mod gate;
mod queries;
mod rounds;
mod store;
mod texts;

use example::ReportError;
use rounds::LoadError;
use std::process::ExitCode;
use std::{env, io};
use texts::{Files, HostError};
use thiserror::Error;

const USAGE: &str =
    "usage: cedar-samples [example | gate | queries [SCHEMA POLICIES] | rounds | store | clauses SCHEMA POLICIES]";

/// The files of the sample `queries`, if no others are named.
const DOCUMENTS: Files<'static> = Files {
    schema: "queries/documents.cedarschema",
    policies: "queries/documents.cedar",
};

/// A sample host.
#[derive(Clone, Copy)]
enum Sample {
    Example,
    Gate,
    Queries,
    Rounds,
    Store,
}

/// All samples, in the order in which they run.
const SAMPLES: [Sample; 5] = [
    Sample::Example,
    Sample::Gate,
    Sample::Queries,
    Sample::Rounds,
    Sample::Store,
];

/// The reason why a sample does not go on.
#[derive(Debug, Drop, Error)]
enum SampleError {
    #[error(transparent)]
    Io(#[from] io::Error),
    #[error(transparent)]
    Report(#[from] ReportError),
    #[error(transparent)]
    Host(#[from] HostError),
    #[error(transparent)]
    Load(#[from] LoadError),
}

/// The request of a command line.
#[derive(Drop)]
enum Asked {
    All,
    One(Sample),
    /// The queries of a schema and of policies, in these files.
    Queries(String, String),
    /// The clauses of a schema and of policies, in these files.
    Clauses(String, String),
    /// An unknown word, or too few or too many.
    Misuse,
}

fn main(rt: HostRuntime) -> ExitCode {
    match run_asked(&rt) {
        Ok(status) => status,
        Err(error) => match eprintln!(rt; "{error}") {
            Ok(()) | Err(_) => ExitCode::FAILURE,
        },
    }
}

/// Runs the request, and answers the exit status: 0, or 2 if the command line is misused.
fn run_asked(rt: &HostRuntime) -> Result<ExitCode, SampleError> {
    match read_words(rt)? {
        Asked::All => {
            for sample in SAMPLES {
                run_sample(rt, sample)?;
            }
        }
        Asked::One(sample) => run_sample(rt, sample)?,
        Asked::Queries(schema, policies) => queries::run(
            rt,
            Files {
                schema: &schema,
                policies: &policies,
            },
        )?,
        Asked::Clauses(schema, policies) => clauses::run(
            rt,
            Files {
                schema: &schema,
                policies: &policies,
            },
        )?,
        Asked::Misuse => {
            eprintln!(rt; "{USAGE}")?;
            return Ok(ExitCode::from(2));
        }
    }
    Ok(ExitCode::SUCCESS)
}

fn read_words(rt: &HostRuntime) -> io::Result<Asked> {
    let mut words = env::args(rt)?.skip(1);
    let Some(word) = words.next() else {
        return Ok(Asked::All);
    };
    let asked = match (words.next(), words.next(), words.next()) {
        (None, _, _) => sample_of(word.as_str()),
        (Some(schema), Some(policies), None) => match word.as_str() {
            "queries" => Asked::Queries(schema, policies),
            "clauses" => Asked::Clauses(schema, policies),
            _ => Asked::Misuse,
        },
        (Some(_), _, _) => Asked::Misuse,
    };
    Ok(asked)
}

fn sample_of(word: &str) -> Asked {
    match word {
        "example" => Asked::One(Sample::Example),
        "gate" => Asked::One(Sample::Gate),
        "queries" => Asked::One(Sample::Queries),
        "rounds" => Asked::One(Sample::Rounds),
        "store" => Asked::One(Sample::Store),
        _ => Asked::Misuse,
    }
}

fn run_sample(rt: &HostRuntime, sample: Sample) -> Result<(), SampleError> {
    match sample {
        Sample::Example => example::run(rt)?,
        Sample::Gate => gate::run(rt)?,
        Sample::Queries => queries::run(rt, DOCUMENTS)?,
        Sample::Rounds => rounds::run(rt)?,
        Sample::Store => store::run(rt)?,
    }
    Ok(())
}
