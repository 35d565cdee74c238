//! Makes calls of the libraries, for tests alone. Standard input has rows, each behind its length:
//! the numbers of a module here and of a call in it, and what the call takes. Standard output has a
//! line for each: what the call answers, and behind it a dot, or a question mark where the row is
//! asked as none may be.
//! `tests/rows.py` says which call has which number, and asks for rows and shows what is answered
//! as the tables in `tests/data/rows` have them.
//!
//! A number is asked in decimals, with a byte behind it; bytes are asked as how many they are, and
//! then themselves. Answers are numbers, bytes as `COUNT:BYTES`, texts in quotes, and a dash for
//! none, each with a blank behind it.
//!
//! Where memory runs out outside of a call that is tried, the program ends with status 4 and what
//! was answered up to there; where input can't be read or an answer printed, with status 1.
#![tactic(auto)]

mod bodies;
mod building;
mod entries;
mod fakes;
mod files;
mod laws;
mod messages;
mod mirrors;
mod plain;
mod row;
mod runs;
mod scans;
mod sessions;
mod streams;
mod tables;
mod trees;
mod uses;
mod views;
mod walkers;

use row::Row;
use std::io::{Read, Write, writer};
use std::process::ExitCode;

/// The most bytes of all rows, and the most of them in one read.
const LONGEST: usize = 268_435_456;

const READ: usize = 65_536;

/// Room for answers beforehand.
const ROOM: usize = 1_048_576;

/// Makes the call of a row, by the module that has it.
fn answer(row: &mut Row<'_>) {
    row.begin();
    match row.number() {
        0 => walkers::answer(row),
        1 => trees::answer(row),
        2 => messages::answer(row),
        3 => bodies::answer(row),
        4 => building::answer(row),
        5 => plain::answer(row),
        6 => scans::answer(row),
        7 => sessions::answer(row),
        8 => streams::answer(row),
        9 => mirrors::answer(row),
        10 => tables::answer(row),
        11 => runs::answer(row),
        12 => uses::answer(row),
        13 => laws::answer(row),
        _ => row.fail(),
    }
    row.end();
}

/// The status of a program that ran out of memory, and of one that failed otherwise.
const OUT_OF_MEMORY: u8 = 4;

const FAILED: u8 = 1;

/// Appends all that a reader gives. Where that fails, the status.
fn read_all<R: Read + Drop>(reader: R, input: &mut Vec<u8>) -> Result<(), u8> {
    let mut reader = reader;
    let mut buffer = [0u8; READ];
    for _ in 0..LONGEST {
        let Ok(count) = reader.read(&mut buffer) else {
            return Err(FAILED);
        };
        if count == 0 {
            return Ok(());
        }
        let (read, _) = buffer.split_at(count);
        if input.extend_from_slice(read).is_err() {
            return Err(OUT_OF_MEMORY);
        }
    }
    Err(FAILED)
}

/// Answers each row.
fn run(rt: &HostRuntime, asked: &[u8], answers: Vec<u8>) -> u8 {
    let mut row = Row::new(rt.alloc(), asked, answers);
    for _ in 0..LONGEST {
        if row.is_out_of_memory || row.behind.is_empty() {
            break;
        }
        answer(&mut row);
    }
    if writer(rt).write_all(row.answers.as_slice()).is_err() {
        return FAILED;
    }
    if row.is_out_of_memory {
        OUT_OF_MEMORY
    } else {
        0
    }
}

fn main(rt: HostRuntime) -> ExitCode {
    let input = Vec::with_capacity(rt.alloc(), ROOM);
    let answers = Vec::with_capacity(rt.alloc(), ROOM);
    let (Ok(mut input), Ok(answers)) = (input, answers) else {
        return ExitCode::from(OUT_OF_MEMORY);
    };
    ExitCode::from(match read_all(rt.reader(), &mut input) {
        Ok(()) => run(&rt, input.as_slice(), answers),
        Err(status) => status,
    })
}
