//! A language server for Cedar policies and schemas, over standard input and output:
//! `cedar-language-server`.
#![tactic(auto)]

mod arguments;
mod homes;
mod messages;
mod notes;
mod options;
mod published;
mod questions;
mod replies;
mod schema_files;
mod schema_questions;
mod schemas_in_use;
mod serving;
mod sessions;
mod uris;
mod waiting;
mod workspaces;
mod written;
mod written_items;

use arguments::{Asked, asked_in};
use cedar_extensions::checks::Constructor;
use cedar_extensions::functions::{Checks, functions, overloaded_types};
use cedar_types::base::{ArgumentCheck, ExtensionSchemas};
use serving::Server;
use sessions::Session;
use std::io::Write;
use std::process::ExitCode;
use std::{env, io};

/// The exit status of a server that cannot go on.
const CANNOT_GO_ON: u8 = 2;

const NO_MEMORY: &str = "memory was refused";

fn main(rt: HostRuntime) -> ExitCode {
    let mut err = rt.stderr();
    let Ok(words) = words_of(&rt) else {
        return stop(&mut err, "the command line cannot be read");
    };
    match asked_in(words.as_slice()) {
        Asked::Server => run(&rt, &mut err),
        Asked::Text(text) => print(&rt, text),
        Asked::Unknown(word) => {
            let _ = writeln!(
                err,
                "cedar-language-server: unknown word {word}, see --help"
            );
            ExitCode::from(CANNOT_GO_ON)
        }
    }
}

/// The words of the command line, without the name of the program.
fn words_of(rt: &HostRuntime) -> io::Result<Vec<String>> {
    let mut words = Vec::new(rt.alloc());
    for word in env::args(rt)?.skip(1) {
        words.push(word)?;
    }
    Ok(words)
}

/// Writes a text to standard output.
fn print(rt: &HostRuntime, text: &str) -> ExitCode {
    let mut out = rt.stdout();
    match writeln!(out, "{text}") {
        Ok(()) => ExitCode::SUCCESS,
        Err(_) => ExitCode::from(CANNOT_GO_ON),
    }
}

/// Makes the extension functions, and serves with them.
fn run<E: Write>(rt: &HostRuntime, err: &mut E) -> ExitCode {
    let alloc = rt.alloc();
    let (Ok(ip), Ok(decimal), Ok(datetime), Ok(duration)) = (
        Box::new(alloc, Constructor::Ip.check(alloc)),
        Box::new(alloc, Constructor::Decimal.check(alloc)),
        Box::new(alloc, Constructor::Datetime.check(alloc)),
        Box::new(alloc, Constructor::Duration.check(alloc)),
    ) else {
        return stop(err, NO_MEMORY);
    };
    let checks = Checks {
        ip,
        decimal,
        datetime,
        duration,
    };
    let (Ok(functions), Ok(overloaded)) = (functions(alloc, checks), overloaded_types(alloc)) else {
        return stop(err, NO_MEMORY);
    };
    let Ok(extensions) = ExtensionSchemas::new(functions, overloaded) else {
        return stop(err, NO_MEMORY);
    };
    match serve(rt, &extensions) {
        Ok(status) => ExitCode::from(status),
        Err(error) => {
            let _ = writeln!(err, "cedar-language-server: {error}");
            ExitCode::from(CANNOT_GO_ON)
        }
    }
}

/// Serves over standard input and output with these extension functions. The answer is the exit
/// status.
fn serve<C: ArgumentCheck>(rt: &HostRuntime, extensions: &ExtensionSchemas<C>) -> io::Result<u8> {
    let alloc = rt.alloc();
    // the session lies on the heap, because the prover does not cover the drop of a variable of so
    // many parts
    let mut session = Box::new(alloc, Session::new(alloc, extensions))?;
    let mut server = Server {
        rt,
        out: rt.stdout(),
        log: rt.stderr(),
    };
    let mut input = rt.stdin();
    server.serve(&mut *session, &mut input)
}

/// Says why the server cannot go on, and answers its status.
fn stop<E: Write>(err: &mut E, why: &str) -> ExitCode {
    let _ = writeln!(err, "cedar-language-server: {why}");
    ExitCode::from(CANNOT_GO_ON)
}
