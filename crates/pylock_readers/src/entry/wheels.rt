//! The wheels of an entry.
ghost use Rattle.std.specs.Prelude.{◌≡◌, IfOk, map, option_map};
ghost use Rattle.toml.specs.View.{view};
ghost use Rattle.pytext.specs.Agreement.{Gives};
ghost use Rattle.pylock_readers.specs.Entry.{wheel_name};
ghost use Rattle.pylock_readers.specs.Entry.Fields.{list_in};
ghost use Rattle.pylock_readers.specs.Entry.Sources.{file_of};

use crate::entry::file::WheelFile;
use crate::field::{FieldError, read_list};
use pywheel_core::{WheelError, WheelName, WheelReader};
use std::alloc::{AllocError, Global};
use std::marker::Model;
use toml::Value;

/// The wheels of an entry, and what their file names say, read once.
pub(crate) struct Wheels {
    files: Vec<WheelFile>,
    names: Vec<Option<WheelName>>,
}

impl Model for Wheels {
    ghost use Rattle.std.specs.Prelude.{◌≡◌, List, map};
    ghost use Rattle.pylock_readers.specs.Entry.{FileValue, wheel_name};

    ghost Value = { List FileValue };

    ghost view = { λ w. w.files.items };

    ghost invariant = { λ w. w.names.items ≡ map wheel_name w.files.items };
}

impl Drop for Wheels {
    fn drop(self) {
        let Wheels { files: _, names: _ } = self;
    }
}

impl Wheels {
    /// The wheels of the key `wheels`; none where it is absent.
    pub(crate) fn read(
        alloc: Global,
        field: Option<Value>,
        names: &mut WheelReader,
    ) -> Result<Wheels, FieldError>
        ensures { Gives FieldError.Memory (λ w. w) result
            (list_in file_of (option_map view field)) }
    {
        let files = read_list(alloc, field)?;
        let names = read_names(alloc, &files, names)?;
        Ok(Wheels { files, names })
    }

    /// The wheels, in their order.
    pub(crate) fn files(&self) -> &[WheelFile]
        ensures { result.now ≡ self.now }
    {
        self.files.as_slice()
    }

    /// What the file name of each wheel says, nothing where it is absent or refused.
    pub(crate) fn names(&self) -> &[Option<WheelName>]
        ensures { result.now ≡ map wheel_name self.now }
    {
        self.names.as_slice()
    }
}

fn read_names(
    alloc: Global,
    files: &[WheelFile],
    reader: &mut WheelReader,
) -> Result<Vec<Option<WheelName>>, AllocError>
    ensures { IfOk result (λ names. names.items ≡ map wheel_name files.now) }
{
    let mut names = Vec::with_capacity(alloc, files.len())?;
    for file in files {
        names.push(read_name(file, reader)?)?;
    }
    Ok(names)
}

fn read_name(file: &WheelFile, reader: &mut WheelReader) -> Result<Option<WheelName>, AllocError>
    ensures { IfOk result (λ name. name ≡ wheel_name file.now) }
{
    let Some(name) = file.file_name() else {
        return Ok(None);
    };
    match reader.read(name) {
        Ok(name) => Ok(Some(name)),
        Err(WheelError::Memory) => Err(AllocError),
        Err(_) => Ok(None),
    }
}
