//! The fixed lines on standard error, the reasons behind them, and the exit statuses.

use crate::hints::hint_too_long;
use crate::output::Errors;
use crate::pieces::Name;
use crate::pieces::Piece::{self, Failure, Reason, Text};
use rtnl::{RunError, Verdict};
use std::io::{self, ErrorKind};
use std::process::ExitCode;

/// A datagram was refused, a dump is not complete, or a line is bad.
pub(crate) const NOT_CLEAN: u8 = 1;

/// A usage error.
pub(crate) const USAGE: u8 = 2;

/// A read or a write failed.
const FAULT: u8 = 3;

/// Memory ran out.
const MEMORY: u8 = 4;

/// What is named where a write failed.
const STANDARD_OUTPUT: Name<'static> = Name(Some("standard output"));

/// Why a read and a write failed, as far as the system said it.
#[derive(Clone, Copy)]
pub(crate) struct Causes {
    pub read: Option<io::Error>,
    pub written: Option<io::Error>,
}

/// An exit status, after a message on standard error, be it printed or not.
pub(crate) fn exit_after_message(_printed: io::Result<()>, status: u8) -> ExitCode {
    ExitCode::from(status)
}

/// This exit status, after one more line on standard error, be it printed or not.
pub(crate) fn exit_with(_printed: io::Result<()>, status: ExitCode) -> ExitCode {
    status
}

/// The exit status of a run of which more was to be said.
pub(crate) fn exit_after_explaining(
    rt: &HostRuntime,
    written: io::Result<()>,
    status: ExitCode,
) -> ExitCode {
    match written {
        Ok(()) => status,
        Err(error) => exit_with(Errors(rt).say(&[Reason("not explained: ", error)]), status),
    }
}

/// The exit status of a run, with the fixed line where it failed.
pub(crate) fn exit_of_result(rt: &HostRuntime, answer: Result<Verdict, RunError>) -> ExitCode {
    match answer {
        Ok(Verdict::Clean) => ExitCode::SUCCESS,
        Ok(Verdict::NotClean) => ExitCode::from(NOT_CLEAN),
        Err(error) => {
            let status = match error {
                RunError::BadLine(_) => NOT_CLEAN,
                RunError::ReadFault | RunError::WriteFault => FAULT,
                RunError::Memory => MEMORY,
            };
            exit_after_message(Errors(rt).say(&[Failure(error)]), status)
        }
    }
}

/// Writes the system's reason behind the name of what failed.
fn name_reason(rt: &HostRuntime, name: Name<'_>, error: io::Error) -> io::Result<()> {
    Errors(rt).say(&[Piece::Name(name), Reason(": ", error)])
}

/// Names the file that a bad line stands in, if it is one.
pub(crate) fn name_file(rt: &HostRuntime, name: Name<'_>) -> io::Result<()> {
    if name.is_file() {
        Errors(rt).say(&[Piece::Name(name), Text(": bad line")])
    } else {
        Ok(())
    }
}

/// The exit status where a recording of this name couldn't be opened or read.
pub(crate) fn exit_read_error(rt: &HostRuntime, name: Name<'_>, error: io::Error) -> ExitCode {
    if error.kind() == ErrorKind::OutOfMemory {
        return exit_of_result(rt, Err(RunError::Memory));
    }
    let status = exit_of_result(rt, Err(RunError::ReadFault));
    exit_with(name_reason(rt, name, error), status)
}

/// The exit status where standard output took no more, for this reason where the system said one.
pub(crate) fn exit_write_error(rt: &HostRuntime, error: Option<io::Error>) -> ExitCode {
    let status = exit_of_result(rt, Err(RunError::WriteFault));
    match error {
        Some(error) => exit_with(name_reason(rt, STANDARD_OUTPUT, error), status),
        None => status,
    }
}

/// The exit status of a run over a recording of this name, with the fixed line where it failed and
/// the reason behind it.
pub(crate) fn exit_of_run(
    rt: &HostRuntime,
    name: Name<'_>,
    answer: Result<Verdict, RunError>,
    causes: Causes,
) -> ExitCode {
    match (answer, causes.read) {
        (Err(RunError::ReadFault), Some(error)) => return exit_read_error(rt, name, error),
        (Err(RunError::WriteFault), _) => return exit_write_error(rt, causes.written),
        _ => {}
    }
    let status = exit_of_result(rt, answer);
    let said = match answer {
        // No read failed.
        Err(RunError::ReadFault) => hint_too_long(rt, name),
        Err(RunError::BadLine(_)) => name_file(rt, name),
        _ => Ok(()),
    };
    exit_with(said, status)
}
