//! Runs over a lock, an environment and an input.

use crate::files;
use case_files::bytes;
use pylock_run::{FileFault, Files, Pieces, ToWrite, run};
use std::alloc::Global;
use std::fmt::Debug;
use toml::Table;

/// The most bytes that a run asks for at once.
const PIECE: usize = 65_536;

/// The bytes of a lock and of an environment.
#[derive(Drop)]
pub(crate) struct Inputs {
    lock: Vec<u8>,
    environment: Vec<u8>,
}

/// The same as files of these names.
#[derive(Drop)]
pub(crate) struct InputFiles<'a> {
    pub(crate) inputs: &'a Inputs,
}

impl<'a> Files for InputFiles<'a> {
    ghost read_gives = { λ _ _ _. Unit {0} };

    fn read(&self, path: &str) -> Result<Vec<u8>, FileFault> {
        match path {
            "lock" => Ok(self.inputs.lock.clone()?),
            "environment" => Ok(self.inputs.environment.clone()?),
            _ => Err(FileFault::Read),
        }
    }
}

/// What the run prints, and its status.
pub(crate) fn answer_case(alloc: Global, case: &Table) -> anyhow::Result<String> {
    let inputs = read_inputs(alloc, case)?;
    let input = bytes(alloc, case, "input")?;
    report(alloc, &inputs, &input)
}

/// The lock and the environment of a case.
pub(crate) fn read_inputs(alloc: Global, case: &Table) -> anyhow::Result<Inputs> {
    let lock = files::lock(alloc, case)?;
    let environment = files::environment(alloc, case)?;
    Ok(Inputs { lock, environment })
}

fn report(alloc: Global, inputs: &Inputs, input: &[u8]) -> anyhow::Result<String> {
    let mut text = Vec::new(alloc);
    let mut reader = Pieces::new(input, PIECE, None);
    let mut writer = ToWrite::new(&mut text);
    let end = run(
        alloc,
        &inputs.lock,
        &inputs.environment,
        &mut reader,
        &mut writer,
    );
    text_with_status(text, end)
}

/// The text, and the status in a line of its own.
pub(crate) fn text_with_status<E: Debug + Drop>(
    text: Vec<u8>,
    end: Result<u8, E>,
) -> anyhow::Result<String> {
    let mut text = String::from_utf8(text)?;
    match end {
        Ok(status) => writeln!(text, "status {status}")?,
        Err(fault) => writeln!(text, "{fault:?}")?,
    }
    Ok(text)
}
