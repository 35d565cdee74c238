//! Whole runs over recordings, their sources and sinks call by call, and the lines of recordings.

use crate::fakes::{BrokenSource, EndlessSource, TightSink};
use crate::files::{ShortReader, ShortWriter};
use crate::row::Row;
use rtnl::dump::{Dump, Kind, Seed};
use rtnl::frame::Limits;
use rtnl::{
    LineFault, ReadSource, RowFormat, RunError, Sink, SliceSource, Source, VecSink, Verdict,
    WriteSink, datagrams, line_fault, run_check, run_check_json, run_request, run_request_ordered,
    run_show, run_show_bytes, run_show_json, run_table, run_table_json,
};

pub(crate) fn answer(row: &mut Row<'_>) {
    match row.number() {
        0 => go(row),
        1 => find_fault(row),
        2 => split(row),
        3 => take(row),
        4 => give(row),
        _ => row.fail(),
    }
}

/// Room that a run into memory has beforehand: short output takes no more.
const ROOM: usize = 1024;

/// A run by its number, of this kind, within limits.
#[derive(Clone, Copy)]
struct Run {
    engine: u64,
    kind: Kind,
    limits: Limits,
}

/// So many `#`, and the bytes of a text behind them.
fn recording_of(row: &mut Row<'_>) -> Vec<u8> {
    let Ok(mut recording) = vec![in row.alloc; b'#'; row.int()] else {
        row.run_out();
        return Vec::new(row.alloc);
    };
    if recording.extend_from_slice(row.text()).is_err() {
        row.run_out();
    }
    recording
}

/// What a run answers. A dump has the sequence number 1 and the port id 12345; a request is one for
/// IPv4, under the number 7.
fn answer_of<S: Source, W: Sink>(
    row: &Row<'_>,
    run: Run,
    source: &mut S,
    sink: &mut W,
) -> Result<Verdict, RunError> {
    let (alloc, engine, kind, limits) = (row.alloc, run.engine, run.kind, &run.limits);
    let dump = Dump {
        kind,
        family: 0,
        seq: 1,
        port: 12_345,
    };
    match engine {
        0 => run_show(alloc, source, sink, limits),
        1 => run_show_json(alloc, source, sink, limits),
        2 => run_show_bytes(alloc, source, sink, limits, RowFormat::Text),
        3 => run_show_bytes(alloc, source, sink, limits, RowFormat::Coloured),
        4 => run_show_bytes(alloc, source, sink, limits, RowFormat::Json),
        5 => run_check(alloc, source, sink, limits),
        6 => run_check_json(alloc, source, sink, limits),
        7 => run_table(alloc, source, sink, dump, limits),
        8 => run_table_json(alloc, source, sink, dump, limits, Seed::from_bytes([7; 16])),
        9 => run_request(alloc, sink, kind, 2, 7),
        _ => run_request_ordered(alloc, sink, kind, 2, 7, limits.order()),
    }
}

/// Runs, and answers how that ended, and how many calls of the source and the sink failed, or took
/// no byte.
fn put_end<S: Source, W: Sink>(row: &mut Row<'_>, run: Run, source: &mut S, sink: &mut W) {
    match answer_of(row, run, source, sink) {
        Ok(verdict) => row.put_all(&[0, verdict as u64]),
        Err(error) => row.refuse(error.code(), error),
    }
    row.put_all(&[source.failures(), sink.failures(), sink.stalls()]);
}

/// Runs into memory, into a file, or into a sink that moves few bytes at a time and fails; answers
/// the end, and what was written.
fn write<S: Source>(row: &mut Row<'_>, run: Run, source: &mut S) {
    match row.number() {
        0 => {
            let mut sink = VecSink::new(row.alloc);
            if sink.bytes.reserve(ROOM).is_err() {
                return row.run_out();
            }
            put_end(row, run, source, &mut sink);
            row.put_bytes(sink.bytes.as_slice());
        }
        1 => {
            let mut file = ShortWriter::of(row);
            put_end(row, run, source, &mut WriteSink::new(&mut file));
            row.put_bytes(file.bytes.as_slice());
        }
        _ => {
            let mut sink = TightSink {
                bytes: Vec::new(row.alloc),
                each: row.int::<usize>(),
                calls: row.int::<usize>(),
                fails: row.number() != 0,
                stalled: false,
                stalls: 0,
                failures: 0,
            };
            put_end(row, run, source, &mut sink);
            row.put_bytes(sink.bytes.as_slice());
        }
    }
}

/// Runs over a recording in memory; in a file, of which is answered how many bytes were not read;
/// before a failure, with the same; or over blanks without end, with how many were given.
fn go(row: &mut Row<'_>) {
    let run = Run {
        engine: row.number(),
        kind: row.family(),
        limits: row.limits(),
    };
    let recording = recording_of(row);
    match row.number() {
        0 => write(row, run, &mut SliceSource::new(recording.as_slice())),
        1 => {
            let mut file = ShortReader::of(row, recording.as_slice());
            write(row, run, &mut ReadSource::new(&mut file));
            row.put(file.left() as u64);
        }
        2 => {
            let mut source = BrokenSource {
                left: recording.as_slice(),
                failures: 0,
            };
            write(row, run, &mut source);
            row.put(source.left.len() as u64);
        }
        _ => {
            let mut source = EndlessSource { given: 0 };
            write(row, run, &mut source);
            row.put(source.given);
        }
    }
}

/// What is wrong with the line of these bytes.
fn find_fault(row: &mut Row<'_>) {
    match line_fault(row.text()) {
        None => row.put(0),
        Some(LineFault::Character { column, byte }) => {
            row.put_all(&[1, column as u64, byte as u64]);
        }
        Some(LineFault::Odd { digits }) => row.put_all(&[2, digits as u64]),
    }
}

/// The datagrams of a recording, or why it has none.
fn split(row: &mut Row<'_>) {
    let recording = recording_of(row);
    match datagrams(row.alloc, recording.as_slice()) {
        Ok(found) => {
            row.put_all(&[0, found.len() as u64]);
            for datagram in found.as_slice() {
                row.put_bytes(datagram.as_slice());
            }
        }
        Err(error) => row.refuse(error.code(), error),
    }
}

/// Takes of a source into new buffers of these sizes, and answers how many bytes it gave, and the
/// buffers.
fn put_taken<S: Source>(row: &mut Row<'_>, source: &mut S) {
    for _ in 0..row.number() {
        let size = row.int::<u8>();
        let Ok(mut buffer) = vec![in row.alloc; 0u8; size as usize] else {
            return row.run_out();
        };
        match source.take(buffer.as_mut_slice()) {
            Ok(count) => {
                row.put_all(&[0, count as u64]);
                row.put_bytes(buffer.as_slice());
            }
            Err(error) => row.refuse(1, error),
        }
    }
    row.put(source.failures());
}

/// Takes from memory, or from a file.
fn take(row: &mut Row<'_>) {
    let bytes = row.text();
    if row.number() != 0 {
        let mut file = ShortReader::of(row, bytes);
        put_taken(row, &mut ReadSource::new(&mut file));
    } else {
        put_taken(row, &mut SliceSource::new(bytes));
    }
}

/// Gives a sink bytes again and again, and answers how many it took.
fn put_given<W: Sink>(row: &mut Row<'_>, sink: &mut W) {
    for _ in 0..row.number() {
        match sink.give(row.text()) {
            Ok(count) => row.put_all(&[0, count as u64]),
            Err(error) => row.refuse(1, error),
        }
    }
    row.put_all(&[sink.failures(), sink.stalls()]);
}

/// Gives into memory, or into a file, and answers what it kept.
fn give(row: &mut Row<'_>) {
    if row.number() != 0 {
        let mut file = ShortWriter::of(row);
        put_given(row, &mut WriteSink::new(&mut file));
        row.put_bytes(file.bytes.as_slice());
    } else {
        let mut sink = VecSink::new(row.alloc);
        put_given(row, &mut sink);
        row.put_bytes(sink.bytes.as_slice());
    }
}
