//! Runs test cases that stand in files: `cedar-cases FILE..`.
#![tactic(auto)]

mod cases;
mod conformance;
mod run;
mod shown;
mod tables;

use cedar_fixtures::addresses::RefusesEmptyAddress;
use cedar_fixtures::tables::{addresses_alone, functions_with_sum};
use cedar_types::base::ExtensionSchemas;
use run::run;
use std::collections::BTreeSet;
use std::env;
use std::process::ExitCode;
use tables::Tables;

fn main(rt: HostRuntime) -> ExitCode {
    let alloc = rt.alloc();
    let Ok(arguments) = env::args(&rt) else {
        return ExitCode::FAILURE;
    };
    let mut files = Vec::new(alloc);
    for word in arguments.skip(1) {
        let Ok(()) = files.push(word) else {
            return ExitCode::FAILURE;
        };
    }
    let Ok(check) = Box::new(alloc, RefusesEmptyAddress { alloc }) else {
        return ExitCode::FAILURE;
    };
    let Ok(listed) = functions_with_sum(alloc, check) else {
        return ExitCode::FAILURE;
    };
    let Ok(plain) = ExtensionSchemas::new(listed, BTreeSet::new(alloc)) else {
        unreachable!()
    };
    let Ok(check) = Box::new(alloc, RefusesEmptyAddress { alloc }) else {
        return ExitCode::FAILURE;
    };
    let (Ok(listed), Ok(compared)) = (functions_with_sum(alloc, check), addresses_alone(alloc))
    else {
        return ExitCode::FAILURE;
    };
    let Ok(ordered) = ExtensionSchemas::new(listed, compared) else {
        unreachable!()
    };
    let tables = Tables {
        plain: &plain,
        ordered: &ordered,
    };
    let mut out = rt.stdout();
    let mut err = rt.stderr();
    ExitCode::from(run(&rt, files.as_slice(), tables, &mut out, &mut err))
}
