//! `dsv`: verifies a digital controller in the words that it runs in. `main` makes the real files
//! and the real output, and calls [`dsv_cli::run_with_built_in`].
#![tactic(auto)]

use dsv_cli::{OsFiles, OsOut, run_with_built_in};
use std::io;
use std::io::ErrorKind;
use std::process::ExitCode;

/// There is no memory for the command's arguments or for the output.
const NO_MEMORY: u8 = 5;

/// The command's arguments can't be had, as where one isn't UTF-8.
const NO_ARGUMENTS: u8 = 8;

/// The command's arguments, without the program's name.
fn command_arguments(rt: &HostRuntime) -> io::Result<Vec<String>> {
    let mut arguments = Vec::new(rt.alloc());
    for argument in std::env::args(rt)?.skip(1) {
        arguments.push(argument)?;
    }
    Ok(arguments)
}

fn main(rt: HostRuntime) -> ExitCode {
    let alloc = rt.alloc();
    let arguments = match command_arguments(&rt) {
        Ok(arguments) => arguments,
        Err(error) if error.kind() == ErrorKind::OutOfMemory => return ExitCode::from(NO_MEMORY),
        Err(_) => return ExitCode::from(NO_ARGUMENTS),
    };
    let Ok(out) = rt.clone() else {
        return ExitCode::from(NO_MEMORY);
    };
    let mut files = OsFiles::new(rt, alloc);
    let mut sink = OsOut::new(out);
    let done = run_with_built_in(alloc, &arguments, &mut files, &mut sink);
    ExitCode::from(done.status)
}
