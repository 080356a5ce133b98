//! Validates the policies of files by a schema: `cedar-validate SCHEMA POLICY..`.
#![tactic(auto)]

mod call;
mod files;
mod outcomes;
mod progress;
mod run;
mod version;

use call::Call;
use cedar_extensions::checks::Constructor;
use cedar_extensions::functions::{Checks, functions, overloaded_types};
use cedar_findings::colours::Colours;
use cedar_findings::outputs::Output;
use cedar_types::base::ExtensionSchemas;
use progress::Progress;
use run::run;
use std::env;
use std::io::{ErrorKind, IsTerminal, Write};
use std::process::ExitCode;

/// The reason why the program cannot begin, unless a word of the command line is the reason.
const NO_MEMORY: &str = "memory was refused";

fn main(rt: HostRuntime) -> ExitCode {
    let alloc = rt.alloc();
    let mut err = rt.stderr();
    let arguments = match env::args(&rt) {
        Ok(arguments) => arguments,
        Err(error) if error.kind() == ErrorKind::InvalidData => {
            return cannot_begin(&mut err, "a word of the command line is no text in UTF-8");
        }
        Err(_) => return cannot_begin(&mut err, NO_MEMORY),
    };
    let mut words = Vec::new(alloc);
    for word in arguments.skip(1) {
        let Ok(()) = words.push(word) else {
            return cannot_begin(&mut err, NO_MEMORY);
        };
    }
    let (Ok(ip), Ok(decimal), Ok(datetime), Ok(duration)) = (
        Box::new(alloc, Constructor::Ip.check(alloc)),
        Box::new(alloc, Constructor::Decimal.check(alloc)),
        Box::new(alloc, Constructor::Datetime.check(alloc)),
        Box::new(alloc, Constructor::Duration.check(alloc)),
    ) else {
        return cannot_begin(&mut err, NO_MEMORY);
    };
    let checks = Checks {
        ip,
        decimal,
        datetime,
        duration,
    };
    let (Ok(functions), Ok(overloaded)) = (functions(alloc, checks), overloaded_types(alloc)) else {
        return cannot_begin(&mut err, NO_MEMORY);
    };
    let Ok(extensions) = ExtensionSchemas::new(functions, overloaded) else {
        return cannot_begin(&mut err, NO_MEMORY);
    };
    let out = rt.stdout();
    let is_terminal = out.is_terminal();
    // lines of policies on a terminal show the progress themselves
    let terminal = (err.is_terminal() && !is_terminal).then_some(rt.stderr());
    let colours = Colours::of_output(is_terminal, env::var(&rt, "NO_COLOR"));
    let mut call = Call {
        rt: &rt,
        extensions: &extensions,
        output: Output::new(alloc, colours),
        progress: Progress::new(terminal),
        out,
    };
    ExitCode::from(run(&mut call, words.as_slice(), &mut err))
}

/// Says why the program cannot begin, and answers its status.
fn cannot_begin<E: Write>(err: &mut E, why: &str) -> ExitCode {
    let _ = writeln!(err, "cedar-validate: {why}");
    ExitCode::from(2)
}
