//! Help, the version and usage errors, as they are printed.

use crate::arguments::{Sought, unknown_command, unnamed};
use crate::output::{Errors, standard_output};
use crate::pieces::Name;
use crate::pieces::Piece::{Escaped, Text};
use crate::standard_error::{USAGE, exit_after_message, exit_of_result, exit_write_error};
use clap::Error;
use rtnl::{Heading, RunError};
use std::alloc::AllocError;
use std::io::{self, Write};
use std::process::ExitCode;

/// Names the command that shows this file, on standard error.
fn name_show<'a>(rt: &HostRuntime, dashes: &'a str, file: &'a str) -> io::Result<()> {
    let quote = if file.is_empty() || file.contains(char::is_whitespace) {
        "\""
    } else {
        ""
    };
    Errors(rt).say(&[
        Text("to show a recording: rtnl show "),
        Text(dashes),
        Text(quote),
        Escaped(file),
        Text(quote),
    ])
}

/// Prints help or the version on standard output.
fn print_help(rt: &HostRuntime, message: &Error) -> ExitCode {
    let Ok(text) = message.to_string(rt.alloc()) else {
        return exit_of_result(rt, Err(RunError::Memory));
    };
    match standard_output(rt).write_all(text.as_bytes()) {
        Ok(()) => ExitCode::SUCCESS,
        Err(error) => exit_write_error(rt, Some(error)),
    }
}

/// Prints help or the version on standard output, or a usage error on standard error.
pub(crate) fn print_message(rt: &HostRuntime, message: &Error, arguments: &[String]) -> ExitCode {
    if !message.use_stderr() {
        return print_help(rt, message);
    }
    let printed = Errors(rt).eprint(message);
    match unknown_command(message, arguments) {
        Some((dashes, file)) => exit_after_message(name_show(rt, dashes, file), USAGE),
        None => exit_after_message(printed, USAGE),
    }
}

/// Prints the usage error of a table whose dump isn't known.
pub(crate) fn print_unnamed(
    rt: &HostRuntime,
    sought: Sought,
    found: Option<Heading>,
    name: Name<'_>,
    error: Option<&io::Error>,
) -> ExitCode {
    match unnamed(rt.alloc(), sought, found, name, error) {
        Ok(message) => exit_after_message(Errors(rt).eprint(&message), USAGE),
        Err(AllocError) => exit_of_result(rt, Err(RunError::Memory)),
    }
}
