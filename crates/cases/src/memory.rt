//! The program as one call, over files and a standard input in memory.

use crate::runs::text_with_status;
use case_files::{bytes, list, texts};
use pylock_memory::{cut_parts, run_bytes};
use std::alloc::{AllocError, Global};
use toml::{Table, Value};

/// What the program prints that is called with the words `line`, and behind them the bytes of
/// `word`, where `files` are a path and its text by turns and `input` is its standard input: its
/// output, its status or why it ended, and what a person is told.
pub(crate) fn answer_case(alloc: Global, case: &Table) -> anyhow::Result<String> {
    let (words, files) = (
        words(alloc, case)?,
        owned(alloc, &texts(alloc, case, "files")?)?,
    );
    let input = bytes(alloc, case, "input")?;
    let (words, files) = (slices(alloc, &words)?, slices(alloc, &files)?);
    let ran = run_bytes(alloc, &words, &files, &input);
    let status = ran.status();
    let mut told = text_with_status(ran.output, ran.end)?;
    writeln!(told, "{status}")?;
    told.push_str(std::str::from_utf8(&ran.diagnostics)?)?;
    Ok(told)
}

fn words(alloc: Global, case: &Table) -> anyhow::Result<Vec<Vec<u8>>> {
    let mut words = owned(alloc, &texts(alloc, case, "line")?)?;
    if case.contains_key("word") {
        words.push(bytes(alloc, case, "word")?)?;
    }
    Ok(words)
}

fn owned(alloc: Global, texts: &[&str]) -> Result<Vec<Vec<u8>>, AllocError> {
    let mut owned = Vec::new(alloc);
    for text in texts {
        owned.push(Vec::from_slice(alloc, text.as_bytes())?)?;
    }
    Ok(owned)
}

fn slices(alloc: Global, texts: &[Vec<u8>]) -> Result<Vec<&[u8]>, AllocError> {
    let mut slices = Vec::new(alloc);
    for text in texts {
        slices.push(text.as_slice())?;
    }
    Ok(slices)
}

/// The parts of `bytes` that have these `lengths`.
pub(crate) fn cut_case(alloc: Global, case: &Table) -> anyhow::Result<String> {
    let bytes = bytes(alloc, case, "bytes")?;
    let mut lengths = Vec::new(alloc);
    for length in list(case, "lengths") {
        if let Value::Integer(length) = length {
            lengths.push(usize::try_from(*length)?)?;
        }
    }
    Ok(format!(in alloc; "{:?}", cut_parts(alloc, &lengths, &bytes)?)?)
}
