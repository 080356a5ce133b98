//! Runs the worked rows: `cedar-check [ROW]`.
#![tactic(auto)]

use cedar_fixtures::addresses::RefusesEmptyAddress;
use cedar_fixtures::tables::{address_functions, addresses_alone, functions_with_sum};
use cedar_rows::run::run;
use cedar_types::base::ExtensionSchemas;
use std::collections::BTreeSet;
use std::env;
use std::process::ExitCode;

fn main(rt: HostRuntime) -> ExitCode {
    let alloc = rt.alloc();
    let Ok(arguments) = env::args(&rt) else {
        return ExitCode::FAILURE;
    };
    let mut words = Vec::new(alloc);
    for word in arguments.skip(1) {
        let Ok(()) = words.push(word) else {
            return ExitCode::FAILURE;
        };
    }
    let Ok(check) = Box::new(alloc, RefusesEmptyAddress { alloc }) else {
        return ExitCode::FAILURE;
    };
    let Ok(functions) = address_functions(alloc, check) else {
        return ExitCode::FAILURE;
    };
    let Ok(x1) = ExtensionSchemas::new(functions, BTreeSet::new(alloc)) else {
        unreachable!()
    };
    let Ok(check) = Box::new(alloc, RefusesEmptyAddress { alloc }) else {
        return ExitCode::FAILURE;
    };
    let (Ok(functions), Ok(ordered)) = (functions_with_sum(alloc, check), addresses_alone(alloc))
    else {
        return ExitCode::FAILURE;
    };
    let Ok(x2) = ExtensionSchemas::new(functions, ordered) else {
        unreachable!()
    };
    let mut out = rt.stdout();
    let mut err = rt.stderr();
    let status = run(alloc, words.as_slice(), &x1, &x2, &mut out, &mut err);
    ExitCode::from(status)
}
