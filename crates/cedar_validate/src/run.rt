// Requests of the command line, and their exit statuses.
ghost use Rattle.std.specs.Prelude.{◌≡◌, IfOk};
ghost use Rattle.cedar_validate.specs.Outcomes.{CountsNoRefusal};

use crate::call::Call;
use crate::version::{VERSION, build};
use cedar_findings::arguments::{Asked, read_arguments};
use cedar_findings::completions::completion;
use cedar_findings::help::{help, usage};
use cedar_findings::man_page::man_page;
use std::io;
use std::io::{ErrorKind, Write};
use std::rt::Files;

/// Performs the request of these words, and answers the exit status: 0 if all policies are accepted, 1 if some are refused or
/// worse off, 2 if the words are wrong, a file cannot be read or understood, or memory or a writer fails; or the statuses of
/// Cedar. A call that has counted no fault and no refusal before ends with 0 only if it counts none.
pub fn run<R: Files + AllocGlobal + Input, O: Write, E: Write, T: Write>(
    call: &mut Call<'_, R, O, T>,
    words: &[String],
    err: &mut E,
) -> u8
    ensures { CountsNoRefusal call.old.output → result ≡ 0 → CountsNoRefusal call.new.output }
{
    match answer(call, words, err) {
        Ok(status) => status,
        Err(error) => {
            // behind `| head` nobody reads the output any more, so there is nothing to say
            if error.kind() != ErrorKind::BrokenPipe {
                let _ = writeln!(err, "cedar-validate: {error}");
            }
            2
        }
    }
}

fn answer<R: Files + AllocGlobal + Input, O: Write, E: Write, T: Write>(
    call: &mut Call<'_, R, O, T>,
    words: &[String],
    err: &mut E,
) -> io::Result<u8>
    ensures { IfOk result (λ status. CountsNoRefusal call.old.output → status ≡ 0
        → CountsNoRefusal call.new.output) }
{
    let alloc = call.rt.alloc();
    let shown = match read_arguments(alloc, words)? {
        Ok(Asked::Help) => help(alloc)?,
        Ok(Asked::Version) => format!(in alloc; "{VERSION}\n{}\n", build())?,
        Ok(Asked::Page) => man_page(alloc)?,
        Ok(Asked::Completion(shell)) => completion(alloc, shell)?,
        Ok(Asked::Validation(arguments)) => return call.perform(&arguments),
        Err(misuse) => {
            let usage = usage(alloc)?;
            write!(err, "cedar-validate: {misuse}\n{usage}")?;
            return Ok(2);
        }
    };
    call.out.write_all(shown.as_bytes())?;
    Ok(0)
}
