//! Makes calls while memory is refused, growth by growth: `scripts/refused.py` runs it.
//!
//! It prints a line for each call. Run by itself, it makes each call once, and nothing is refused.
#![tactic(auto)]

mod calls;
mod outcomes;
mod pictures;
mod refusals;
mod report;
mod samples;
mod sweep;
mod table;

use cedar_fixtures::addresses::RefusesEmptyAddress;
use cedar_fixtures::tables::{addresses_alone, functions_with_sum};
use cedar_types::base::ExtensionSchemas;
use report::report;
use std::process::ExitCode;

fn main(rt: HostRuntime) -> ExitCode {
    let alloc = rt.alloc();
    let Ok(check) = Box::new(alloc, RefusesEmptyAddress { alloc }) else {
        return ExitCode::FAILURE;
    };
    let (Ok(functions), Ok(ordered)) = (functions_with_sum(alloc, check), addresses_alone(alloc))
    else {
        return ExitCode::FAILURE;
    };
    let Ok(extensions) = ExtensionSchemas::new(functions, ordered) else {
        return ExitCode::FAILURE;
    };
    let mut out = rt.stdout();
    match report(alloc, &extensions, &mut out) {
        Ok(()) => ExitCode::SUCCESS,
        Err(_) => ExitCode::FAILURE,
    }
}
