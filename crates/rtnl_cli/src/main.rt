//! The command `rtnl`: shows and checks recordings of rtnetlink datagrams, reads them as the
//! answers to a dump, keeps tables current by them, and prints the request that begins a dump.
#![tactic(auto)]

mod arguments;
mod commands;
mod errors_told;
mod explain;
mod follow;
mod given;
mod help;
mod hints;
mod output;
mod pieces;
mod reading;
mod senders;
mod standard_error;
mod subject;
mod terminal;

use arguments::{
    Follow, Format, Mirror, Parsed, RecordingJob, Table, Task, WholeCommand, WholeRun,
};
use explain::{Detail, tell};
use follow::{BadLineReporter, Ended, follow};
use given::{Given, read_given};
use help::{print_message, print_unnamed};
use nl_attr::Order;
use output::{Errors, standard_output};
use pieces::Name;
use pieces::Piece::{Number, Text};
use reading::Reading;
use rtnl::dump::{Kind, Seed};
use rtnl::{
    LONGEST_INPUT, ReadSource, RunError, Sink, SliceSource, Source, VecSink, Verdict, WriteSink,
    heading_in, run_check, run_check_json, run_request_ordered, run_show, run_show_bytes,
    run_show_coloured, run_show_json, run_table_json, run_table_with_seed,
};
use standard_error::{
    Causes, NOT_CLEAN, USAGE, exit_after_explaining, exit_after_message, exit_of_result,
    exit_of_run, exit_read_error, exit_with, exit_write_error,
};
use std::alloc::{AllocError, Global};
use std::io::{self, ErrorKind, Read, Write};
use std::process::ExitCode;
use std::random::RandomSource;
use terminal::{STDERR, is_coloured, is_terminal, row_format};

/// Runs a command over a source; what it prints goes to a sink.
fn run<S: Source, W: Sink>(
    rt: &HostRuntime,
    source: &mut S,
    sink: &mut W,
    whole: &WholeRun,
) -> Result<Verdict, RunError> {
    let alloc = rt.alloc();
    let limits = &whole.limits;
    match (whole.command, whole.format) {
        (WholeCommand::Show(color), Format::Text) if is_coloured(rt, color) => {
            run_show_coloured(alloc, source, sink, limits)
        }
        (WholeCommand::Show(_), Format::Text) => run_show(alloc, source, sink, limits),
        (WholeCommand::Show(_), Format::Json) => run_show_json(alloc, source, sink, limits),
        (WholeCommand::ShowBytes(color), format) => {
            run_show_bytes(alloc, source, sink, limits, row_format(rt, color, format))
        }
        (WholeCommand::Check, Format::Text) => run_check(alloc, source, sink, limits),
        (WholeCommand::Check, Format::Json) => run_check_json(alloc, source, sink, limits),
        (WholeCommand::Table(dump, seed), Format::Text) => {
            run_table_with_seed(alloc, source, sink, dump, limits, seed)
        }
        (WholeCommand::Table(dump, seed), Format::Json) => {
            run_table_json(alloc, source, sink, dump, limits, seed)
        }
    }
}

/// Runs over a recording as it is read; what is printed goes to standard output.
fn run_over(
    rt: &HostRuntime,
    name: Name<'_>,
    mut reading: Reading<'_>,
    whole: &WholeRun,
) -> ExitCode {
    let mut writer = standard_output(rt);
    let mut source = ReadSource::new(&mut reading);
    let mut sink = WriteSink::new(&mut writer);
    let answer = run(rt, &mut source, &mut sink, whole);
    let causes = Causes {
        read: reading.error,
        written: writer.error,
    };
    exit_of_run(rt, name, answer, causes)
}

/// All of a recording, up to the longest input and one byte more.
fn read_all(alloc: Global, reading: Reading<'_>) -> io::Result<Vec<u8>> {
    let mut input = Vec::new(alloc);
    reading
        .take(LONGEST_INPUT as u64 + 1)
        .read_to_end(&mut input)?;
    Ok(input)
}

/// Runs over an input in memory, and says what can be done about what was missed.
fn run_kept(rt: &HostRuntime, name: Name<'_>, input: &[u8], whole: &WholeRun) -> ExitCode {
    let mut writer = standard_output(rt);
    let mut source = SliceSource::new(input);
    let mut sink = WriteSink::new(&mut writer);
    let answer = run(rt, &mut source, &mut sink, whole);
    if answer == Err(RunError::WriteFault) {
        return exit_write_error(rt, writer.error);
    }
    let detail = if is_terminal(rt, STDERR) {
        Detail::Hints
    } else {
        Detail::Least
    };
    let status = exit_of_result(rt, answer);
    let told = tell(rt, name, input, whole, answer, detail);
    exit_after_explaining(rt, told, status)
}

/// Runs over an input in memory into this sink, prints what it took, and explains on standard error
/// what failed or was refused.
fn run_into(
    rt: &HostRuntime,
    name: Name<'_>,
    input: &[u8],
    whole: &WholeRun,
    sink: &mut VecSink,
) -> ExitCode {
    let mut source = SliceSource::new(input);
    // A sink in memory fails for memory alone.
    let answer = match run(rt, &mut source, sink, whole) {
        Err(RunError::WriteFault) => Err(RunError::Memory),
        answer => answer,
    };
    if answer.is_ok()
        && let Err(error) = standard_output(rt).write_all(sink.bytes.as_slice())
    {
        return exit_write_error(rt, Some(error));
    }
    let status = exit_of_result(rt, answer);
    let told = tell(rt, name, input, whole, answer, Detail::All);
    exit_after_explaining(rt, told, status)
}

/// Runs over an input in memory, and explains on standard error what failed or was refused.
fn run_explained(rt: &HostRuntime, name: Name<'_>, input: &[u8], whole: &WholeRun) -> ExitCode {
    let mut sink = VecSink::new(rt.alloc());
    run_into(rt, name, input, whole, &mut sink)
}

/// Does with a recording what is asked for.
fn perform_whole(
    rt: &HostRuntime,
    whole: &WholeRun,
    explain: bool,
    file: Option<&str>,
) -> ExitCode {
    let name = Name(file);
    let reading = match Reading::open(rt, file) {
        Ok(reading) => reading,
        Err(error) => return exit_read_error(rt, name, error),
    };
    if !explain {
        return run_over(rt, name, reading, whole);
    }
    match read_all(rt.alloc(), reading) {
        Ok(input) => run_explained(rt, name, input.as_slice(), whole),
        Err(error) => exit_read_error(rt, name, error),
    }
}

/// The exit status of a recording that was followed, after what was counted, which is said on a
/// terminal.
fn followed_status(rt: &HostRuntime, ended: Ended, is_spoilt: bool) -> ExitCode {
    let status = if ended.is_clean && !is_spoilt {
        ExitCode::SUCCESS
    } else {
        ExitCode::from(NOT_CLEAN)
    };
    if !is_terminal(rt, STDERR) {
        return status;
    }
    let counts = ended.counts;
    let counted = Errors(rt).say(&[
        Number("", counts.datagrams),
        Number(" datagrams, ", counts.refused),
        Number(" refused, ", counts.bad_lines),
        Text(" bad lines"),
    ]);
    exit_with(counted, status)
}

/// Follows a recording as it is read; what is printed goes to standard output.
fn follow_over(
    rt: &HostRuntime,
    name: Name<'_>,
    mut reading: Reading<'_>,
    how: &Follow,
    explain: bool,
) -> ExitCode {
    let mut writer = standard_output(rt);
    let mut source = ReadSource::new(&mut reading);
    let mut sink = WriteSink::new(&mut writer);
    let mut reporter = BadLineReporter {
        rt,
        name,
        explain,
        is_strict: how.is_strict,
        limits: &how.limits,
        is_ended: false,
    };
    match follow(&mut source, &mut sink, &mut reporter, how) {
        Ok(counted) => {
            let is_spoilt = reading.is_lossy && how.is_spoilt_by_loss();
            followed_status(rt, counted, is_spoilt)
        }
        Err(fault) => {
            let causes = Causes {
                read: reading.error,
                written: writer.error,
            };
            exit_of_run(rt, name, Err(fault), causes)
        }
    }
}

/// Follows a recording as it comes.
fn perform_follow(rt: &HostRuntime, how: &Follow, explain: bool, file: Option<&str>) -> ExitCode {
    let name = Name(file);
    match Reading::open(rt, file) {
        Ok(reading) => follow_over(rt, name, reading, how, explain),
        Err(error) => exit_read_error(rt, name, error),
    }
}

/// What is named where the system gives no seed.
const RANDOM_BYTES: Name<'static> = Name(Some("random bytes"));

/// A seed that nobody knows.
fn random_seed(rt: &HostRuntime) -> io::Result<Seed> {
    let mut bytes = [0; 16];
    rt.fill_bytes(&mut bytes)?;
    Ok(Seed::from_bytes(bytes))
}

/// Reads a recording as the answers to a dump. It is read only once, so it is kept: it may name the
/// dump, and more may have to be said of it.
fn perform_table(rt: &HostRuntime, table: &Table, explain: bool, file: Option<&str>) -> ExitCode {
    let (name, sought) = (Name(file), table.sought);
    let reading = match Reading::open(rt, file) {
        Ok(reading) => reading,
        Err(error) if !sought.is_whole() && error.kind() != ErrorKind::OutOfMemory => {
            return print_unnamed(rt, sought, None, name, Some(&error));
        }
        Err(error) => return exit_read_error(rt, name, error),
    };
    let input = match read_all(rt.alloc(), reading) {
        Ok(input) => input,
        Err(error) => return exit_read_error(rt, name, error),
    };
    let seed = match random_seed(rt) {
        Ok(seed) => seed,
        Err(error) => return exit_read_error(rt, RANDOM_BYTES, error),
    };
    let Some(whole) = table.whole_run(input.as_slice(), seed) else {
        let found = heading_in(input.as_slice());
        return print_unnamed(rt, sought, found, name, None);
    };
    if explain {
        run_explained(rt, name, input.as_slice(), &whole)
    } else {
        run_kept(rt, name, input.as_slice(), &whole)
    }
}

/// Prints a request.
fn perform_request(rt: &HostRuntime, kind: Kind, family: u8, seq: u32, order: Order) -> ExitCode {
    let mut writer = standard_output(rt);
    let mut sink = WriteSink::new(&mut writer);
    match run_request_ordered(rt.alloc(), &mut sink, kind, family, seq, order) {
        Err(RunError::WriteFault) => exit_write_error(rt, writer.error),
        answer => exit_of_result(rt, answer),
    }
}

/// Does what the arguments ask for.
fn perform(rt: &HostRuntime, task: &Task) -> ExitCode {
    let (job, explain, file) = match task {
        Task::Recording { job, explain, file } => (job, *explain, file.as_ref()),
        Task::Request {
            kind,
            family,
            seq,
            order,
        } => return perform_request(rt, *kind, *family, *seq, *order),
    };
    let file = file.map(String::as_str);
    match job {
        RecordingJob::Whole(whole) => perform_whole(rt, whole, explain, file),
        RecordingJob::Follow(follow) => perform_follow(rt, follow, explain, file),
        RecordingJob::Mirror(mirror) => match random_seed(rt) {
            Ok(seed) => perform_follow(rt, &mirror.follow(seed), explain, file),
            Err(error) => exit_read_error(rt, RANDOM_BYTES, error),
        },
        RecordingJob::Table(table) => perform_table(rt, table, explain, file),
    }
}

/// Does what these arguments, the program's name first, ask for.
fn perform_given(rt: &HostRuntime, arguments: &[String]) -> ExitCode {
    match arguments::parse(rt.alloc(), arguments) {
        Ok(Parsed::Task(task)) => perform(rt, &task),
        Ok(Parsed::Message(message)) => print_message(rt, &message, arguments),
        Err(AllocError) => exit_of_result(rt, Err(RunError::Memory)),
    }
}

fn main(rt: HostRuntime) -> ExitCode {
    match read_given(&rt) {
        Ok(Given::Texts(arguments)) => perform_given(&rt, arguments.as_slice()),
        Ok(Given::NoText(shown)) => {
            let read = " is not UTF-8; a file of such a name is read by rtnl show <FILE";
            exit_after_message(Errors(&rt).say(&[Text(shown.as_str()), Text(read)]), USAGE)
        }
        Err(AllocError) => exit_of_result(&rt, Err(RunError::Memory)),
    }
}
