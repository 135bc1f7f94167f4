//! What the paths of the command line give: `-` is standard input, and any other path a file.

ghost use Rattle.std.specs.Prelude.{◌≡◌, map, option_map};
ghost use Rattle.std.specs.Result.{result_map_both};
ghost use Rattle.pylock_program.specs.Inner.Machine.{machine_read};
ghost use Rattle.pylock_program.specs.Paths.{AreRead, IsMachineRead, IsMaybeRead, IsRead, IsReadAs};
ghost use Rattle.pylock_readers.specs.Input.{input_env_of};

use crate::diagnostics::tell_file;
use crate::failure::Failure;
use crate::host::Host;
use pylock_command::{Machine, TargetWords};
use pylock_core::EnvironmentInput;
use pylock_run::{FileFault, Files, Sink, Source, read_file};
use std::alloc::Global;

/// A file that was read: its path as it was given, and its bytes.
#[derive(Drop)]
pub(crate) struct FileBytes<'a> {
    pub(crate) path: &'a str,
    pub(crate) bytes: Vec<u8>,
}

/// What the environment of a machine is made of.
#[derive(Drop)]
pub(crate) enum MachineInput<'a> {
    /// The file with its text.
    File(FileBytes<'a>),
    /// The words of a target.
    Target(TargetWords<'a>),
}

impl<'a> MachineInput<'a> {
    /// What the environment is read from.
    pub(crate) fn input(&self) -> EnvironmentInput<'_>
        ensures { input_env_of result ≡ machine_read self.now }
    {
        match self {
            MachineInput::File(file) => EnvironmentInput::Text(&file.bytes),
            MachineInput::Target(target) => EnvironmentInput::Target {
                python: target.python,
                platform: target.platform,
            },
        }
    }
}

/// What a session is opened on, as it was read.
#[derive(Clone, Copy)]
pub(crate) struct Inputs<'a> {
    pub(crate) lock: &'a FileBytes<'a>,
    pub(crate) machine: &'a MachineInput<'a>,
}

/// What stands at a path: standard input, or a file.
fn read_path<F: Files, R: Source>(
    alloc: Global,
    files: &F,
    reader: &mut R,
    path: &str,
) -> Result<Vec<u8>, FileFault>
    ensures { IsRead (F.read_gives files.now) path.now (R.value reader.old) (R.value reader.new)
        (result_map_both (λ bytes. bytes.items) (λ fault. fault) result) }
{
    if path == "-" {
        read_file(alloc, reader)
    } else {
        files.read(path)
    }
}

/// The same with its path. A person is told which file can't be read, and why.
pub(crate) fn read_bytes<'a, F: Files, R: Source, W: Sink, N: Sink>(
    alloc: Global,
    host: &mut Host<F, R, W, N>,
    path: &'a str,
) -> Result<FileBytes<'a>, Failure>
    ensures read { IsReadAs (F.read_gives host.old.files) path.now
        (R.value host.old.reader) (R.value host.new.reader)
        (result_map_both (λ file. file.bytes.items) (λ failure. failure) result) }
    ensures files { host.new.files ≡ host.old.files }
    ensures writer { host.new.outputs.writer ≡ host.old.outputs.writer }
{
    match read_path(alloc, &host.files, &mut host.reader, path) {
        Ok(bytes) => Ok(FileBytes { path, bytes }),
        Err(FileFault::Memory) => Err(Failure::Memory),
        Err(fault) => {
            tell_file(alloc, &mut host.outputs.diagnostics, path, fault);
            Err(Failure::File)
        }
    }
}

/// What stands at each of these paths, as [`read_bytes`] reads it, in order.
pub(crate) fn read_each<'a, F: Files, R: Source, W: Sink, N: Sink>(
    alloc: Global,
    host: &mut Host<F, R, W, N>,
    paths: &[&'a str],
) -> Result<Vec<FileBytes<'a>>, Failure>
    ensures read { AreRead (F.read_gives host.old.files) (map (λ path. path.now) paths.now)
        (R.value host.old.reader) (R.value host.new.reader)
        (result_map_both (λ files. map (λ file. file.bytes.items) files.items)
        (λ failure. failure) result) }
    ensures files { host.new.files ≡ host.old.files }
    ensures writer { host.new.outputs.writer ≡ host.old.outputs.writer }
{
    let mut files = Vec::new(alloc);
    for path in paths {
        let file = read_bytes(alloc, host, path)?;
        let Ok(()) = files.push(file) else {
            return Err(Failure::Memory);
        };
    }
    Ok(files)
}

/// What stands at a path, if there is one, as [`read_bytes`] reads it.
pub(crate) fn read_maybe<'a, F: Files, R: Source, W: Sink, N: Sink>(
    alloc: Global,
    host: &mut Host<F, R, W, N>,
    path: Option<&'a str>,
) -> Result<Option<FileBytes<'a>>, Failure>
    ensures read { IsMaybeRead (F.read_gives host.old.files) path.entry
        (R.value host.old.reader) (R.value host.new.reader)
        (result_map_both (λ file. option_map (λ f. f.bytes.items) file)
        (λ failure. failure) result) }
    ensures files { host.new.files ≡ host.old.files }
    ensures writer { host.new.outputs.writer ≡ host.old.outputs.writer }
{
    match path {
        Some(path) => Ok(Some(read_bytes(alloc, host, path)?)),
        None => Ok(None),
    }
}

/// What the environment of a machine is made of; of a file as [`read_bytes`] reads it.
pub(crate) fn read_machine<'a, F: Files, R: Source, W: Sink, N: Sink>(
    alloc: Global,
    host: &mut Host<F, R, W, N>,
    machine: Machine<'a>,
) -> Result<MachineInput<'a>, Failure>
    ensures read { IsMachineRead (F.read_gives host.old.files) machine.entry
        (R.value host.old.reader) (R.value host.new.reader)
        (result_map_both machine_read (λ failure. failure) result) }
    ensures files { host.new.files ≡ host.old.files }
    ensures writer { host.new.outputs.writer ≡ host.old.outputs.writer }
{
    match machine {
        Machine::File(path) => Ok(MachineInput::File(read_bytes(alloc, host, path)?)),
        Machine::Target(target) => Ok(MachineInput::Target(target)),
    }
}
