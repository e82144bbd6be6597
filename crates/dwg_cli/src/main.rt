//! The program `dwg`: it says of a drawing on standard input what the words of its command line ask for, or makes one.
#![tactic(auto)]

ghost use Rattle.std.specs.Prelude.{◌≡◌};
ghost use Rattle.std.specs.Process.{exit_status};
ghost use Rattle.dwg_commands.specs.Status.{code_of};

mod adapters;
mod run;
#[cfg(test)]
mod tests;

use adapters::{ReaderSource, WriterSink};
use dwg_commands::Status;
use std::env;
use std::io::ErrorKind;
use std::process::ExitCode;

/// The arguments after the program's name, and no word where one of them isn't UTF-8, so that they get the usage note.
/// Err: out of memory.
fn arguments(rt: &HostRuntime) -> Result<Vec<String>, Status> {
    let mut arguments = match env::args(rt) {
        Ok(arguments) => arguments,
        Err(fault) if fault.kind() == ErrorKind::InvalidData => return Ok(Vec::new(rt.alloc())),
        Err(_) => return Err(Status::NoMemory),
    };
    let _name = arguments.next();
    arguments.collect(rt.alloc()).map_err(|_| Status::NoMemory)
}

/// Runs the program over its arguments and the standard streams.
fn status_of_run(rt: &HostRuntime) -> Status {
    match arguments(rt) {
        Ok(words) => run::run(
            rt.alloc(),
            &words,
            &mut ReaderSource::new(rt.stdin()),
            &mut WriterSink::new(rt.stdout()),
            &mut WriterSink::new(rt.stderr()),
        ),
        Err(status) => status,
    }
}

/// The exit status of the program, by how its run ended.
fn exit_of(status: Status) -> ExitCode
    ensures { exit_status result ≡ code_of status }
{
    ExitCode::from(status.code())
}

fn main(rt: HostRuntime) -> ExitCode {
    exit_of(status_of_run(&rt))
}
