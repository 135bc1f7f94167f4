//! Sources and sinks: what each call answers, and what a reading, a writing or a run comes to.

ghost use Rattle.std.specs.Prelude.{◌≤◌};

use crate::files;
use crate::runs::text_with_status;
use case_files::{bytes, list, texts};
use pylock_run::{
    FromRead, Output, Pieces, Room, Sink, Source, ToWrite, open_fault, read_file, read_whole, run,
    write_all,
};
use std::alloc::Global;
use std::io;
use std::io::{Cursor, ErrorKind, Read, Write};
use std::str::from_utf8;
use toml::{Table, Value};

/// The most bytes that may be asked for at once.
const PIECE: usize = 65_536;

/// A reader of `rest`, and a writer onto `taken`, whose calls do in turn what `steps` says: a
/// number moves as many bytes at most, and anything else fails. So does a read of more than a
/// piece.
#[derive(Drop)]
struct Stepped<'a> {
    rest: &'a [u8],
    taken: Vec<u8>,
    steps: &'a [Value],
    calls: usize,
}

impl<'a> Stepped<'a> {
    fn new(alloc: Global, case: &'a Table, rest: &'a [u8]) -> Stepped<'a> {
        Stepped {
            rest,
            taken: Vec::new(alloc),
            steps: list(case, "steps"),
            calls: 0,
        }
    }

    /// How many bytes the next call moves at most.
    fn next(&mut self) -> io::Result<usize> {
        self.calls = self.calls.saturating_add(1);
        let Some((step, rest)) = self.steps.split_first() else {
            return Ok(usize::MAX);
        };
        self.steps = rest;
        match size(step) {
            Some(most) => Ok(most),
            None => Err(io::Error::from(ErrorKind::Interrupted)),
        }
    }
}

impl<'a> Read for Stepped<'a> {
    fn read(&mut self, buf: &mut [u8]) -> io::Result<usize> {
        let most = self.next()?;
        if buf.len() > PIECE {
            return Err(io::Error::from(ErrorKind::InvalidInput));
        }
        let count = self.rest.len().min(buf.len()).min(most);
        let (given, rest) = self.rest.split_at(count);
        buf[..count].copy_from_slice(given);
        self.rest = rest;
        Ok(count)
    }
}

impl<'a> Write for Stepped<'a> {
    fn write(&mut self, buf: &[u8]) -> io::Result<usize> {
        let count = buf.len().min(self.next()?);
        self.taken.extend_from_slice(&buf[..count])?;
        Ok(count)
    }

    fn flush(&mut self) -> io::Result<()> {
        Ok(())
    }
}

/// The number of a value.
fn size(value: &Value) -> Option<usize> {
    usize::try_from(value.as_integer()?).ok()
}

/// The number of the key.
fn number(case: &Table, key: &str) -> Option<usize> {
    size(case.get(key)?)
}

/// The call that fails.
fn failing(case: &Table) -> Option<u64> {
    Some(number(case, "failing")? as u64)
}

/// The bytes of a piece at most.
fn piece(case: &Table) -> usize
    ensures { 1 ≤ result }
{
    number(case, "piece").unwrap_or(1).max(1)
}

/// What is read of the source `from` over the bytes; of a reader with steps, its calls too.
pub(crate) fn read_case(alloc: Global, case: &Table) -> anyhow::Result<String> {
    let bytes = bytes(alloc, case, "bytes")?;
    match case.get("from").and_then(Value::as_str) {
        Some("pieces") => {
            let mut pieces = Pieces::new(&bytes, piece(case), failing(case));
            read_from(alloc, case, &bytes, &mut pieces)
        }
        Some("slice") => read_from(alloc, case, &bytes, &mut FromRead::new(bytes.as_slice())),
        Some("cursor") => {
            let cursor = Cursor::new(bytes.as_slice());
            read_from(alloc, case, &bytes, &mut FromRead::new(cursor))
        }
        Some("endless") => read_from(alloc, case, &bytes, &mut FromRead::new(io::repeat(0))),
        _ => {
            let mut reader = Stepped::new(alloc, case, &bytes);
            let mut told = read_from(alloc, case, &bytes, &mut FromRead::new(&mut reader))?;
            writeln!(told, "calls {}", reader.calls)?;
            Ok(told)
        }
    }
}

/// What the source gives: to so many `reads`, to a `run`, or up to its end, within the `limit` or
/// what a file may have.
fn read_from<S: Source>(
    alloc: Global,
    case: &Table,
    bytes: &[u8],
    source: &mut S,
) -> anyhow::Result<String> {
    if let Some(reads) = number(case, "reads") {
        return read_each(alloc, reads, source);
    }
    if case.contains_key("run") {
        return run_on(alloc, case, source);
    }
    let given = match number(case, "limit") {
        Some(limit) => read_whole(alloc, source, limit as u64),
        None => read_file(alloc, source),
    };
    Ok(match given {
        Ok(given) if bytes.starts_with(&given) => format!(in alloc; "the first {}\n", given.len())?,
        Ok(given) => format!(in alloc; "{given:?}\n")?,
        Err(fault) => format!(in alloc; "{fault:?}\n")?,
    })
}

/// What each read answers, and the four bytes that it was given for it.
fn read_each<S: Source>(alloc: Global, reads: usize, source: &mut S) -> anyhow::Result<String> {
    let mut told = String::new(alloc);
    for _ in 0..reads {
        let mut buffer = [b'.'; 4];
        let answer = source.read(&mut buffer);
        writeln!(told, "{answer:?} {}", from_utf8(&buffer)?)?;
    }
    Ok(told)
}

/// A run over the source, whose text is taken byte by byte.
fn run_on<S: Source>(alloc: Global, case: &Table, source: &mut S) -> anyhow::Result<String> {
    let lock = files::lock(alloc, case)?;
    let environment = files::environment(alloc, case)?;
    let mut capacity = Room::new(alloc, PIECE, 1, None)?;
    let end = run(alloc, &lock, &environment, source, &mut capacity);
    text_with_status(Vec::from_slice(alloc, capacity.bytes())?, end)
}

/// What writing into the sink `into` answers, and the bytes that were taken; of a writer with
/// steps, its calls too.
pub(crate) fn write_case(alloc: Global, case: &Table) -> anyhow::Result<String> {
    let mut taken = Vec::new(alloc);
    let is_terminal = case.contains_key("terminal");
    let mut told = match case.get("into").and_then(Value::as_str) {
        Some("capacity") => {
            let size = number(case, "capacity").unwrap_or(0);
            let mut capacity = Room::new(alloc, size, piece(case), failing(case))?;
            let told = write_to(alloc, case, &mut capacity)?;
            taken.extend_from_slice(capacity.bytes())?;
            told
        }
        Some("array") => {
            let mut array = [b'.'; 6];
            let writer = ToWrite::new(Cursor::new(&mut array[..]));
            let told = write_to(alloc, case, &mut Output::new(alloc, writer, is_terminal))?;
            taken.extend_from_slice(&array)?;
            told
        }
        Some("vector") => {
            let writer = ToWrite::new(&mut taken);
            write_to(alloc, case, &mut Output::new(alloc, writer, is_terminal))?
        }
        _ => {
            let mut writer = Stepped::new(alloc, case, b"");
            let mut told = write_to(alloc, case, &mut ToWrite::new(&mut writer))?;
            writeln!(told, "calls {}", writer.calls)?;
            taken = writer.taken;
            told
        }
    };
    writeln!(told, "{:?}", from_utf8(&taken)?)?;
    Ok(told)
}

/// What the sink answers to each text of `whole`, which is written until all is taken, to each of
/// `pieces`, and to the `bytes`.
fn write_to<S: Sink>(alloc: Global, case: &Table, sink: &mut S) -> anyhow::Result<String> {
    let mut told = String::new(alloc);
    for text in &texts(alloc, case, "whole")? {
        writeln!(told, "{:?}", write_all(sink, text.as_bytes()))?;
    }
    for piece in &texts(alloc, case, "pieces")? {
        writeln!(told, "{:?}", sink.write(piece.as_bytes()))?;
    }
    if case.contains_key("bytes") {
        writeln!(told, "{:?}", sink.write(&bytes(alloc, case, "bytes")?))?;
    }
    Ok(told)
}

/// Why a file is not read that can't be opened.
pub(crate) fn tell_faults(alloc: Global) -> anyhow::Result<String> {
    let mut told = String::new(alloc);
    for kind in [
        ErrorKind::NotFound,
        ErrorKind::PermissionDenied,
        ErrorKind::OutOfMemory,
        ErrorKind::Other,
    ] {
        writeln!(told, "{kind:?} {:?}", open_fault(kind))?;
    }
    Ok(told)
}
