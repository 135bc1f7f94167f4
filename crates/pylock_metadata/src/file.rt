//! What a lock says of a file besides what installation takes.

ghost use Rattle.std.specs.Prelude.{◌≡◌, IfOk, false, option_and_then, option_map};
ghost use Rattle.std.specs.Option.{option_map_or};
ghost use Rattle.toml.specs.View.{items_view, table_view, view};
ghost use Rattle.pylock_metadata.specs.Metadata.{file_at, file_in, file_of, files_of, is_moment};
ghost use Rattle.pylock_metadata.specs.Metadata.{is_utc, nothing_said, size_of, upload_time_of};
ghost use Rattle.pylock_metadata.specs.Table.{items_at};

use crate::table::{field, items_at};
use pytext::Text;
use std::alloc::{AllocError, Global};
use toml::value::{Datetime, Offset};
use toml::{Table, Value};

/// What a lock says of a file besides what installation takes (PEP 751, the keys `size` and
/// `upload-time` of `packages.archive`, `packages.sdist` and `packages.wheels`). A key that is
/// absent, or of another type than PEP 751 gives it, says nothing.
#[derive(Debug, Drop)]
pub struct FileMetadata {
    /// The size in bytes.
    pub size: Option<u64>,
    /// When it was uploaded: a date and a time in UTC, as TOML writes it (RFC 3339).
    pub upload_time: Option<Text>,
}

impl FileMetadata {
    /// Of a file of which nothing is said.
    fn nothing_said() -> FileMetadata
        ensures { result ≡ nothing_said }
    {
        FileMetadata {
            size: None,
            upload_time: None,
        }
    }

    /// What the table of a file says.
    fn of(alloc: Global, file: &Table) -> Result<FileMetadata, AllocError>
        ensures { IfOk result (λ said. said ≡ file_in (table_view file.now)) }
    {
        Ok(FileMetadata {
            size: size_of(field(file, "size")),
            upload_time: upload_time_of(alloc, field(file, "upload-time"))?,
        })
    }

    /// What a file says, which is a table in a lock.
    fn of_value(alloc: Global, value: &Value) -> Result<FileMetadata, AllocError>
        ensures { IfOk result (λ said. said ≡ file_of (view value.now)) }
    {
        match value {
            Value::Table(file) => FileMetadata::of(alloc, file),
            _ => Ok(FileMetadata::nothing_said()),
        }
    }

    /// What the file of this key of an entry says.
    pub(crate) fn at(alloc: Global, entry: &Table, key: &str) -> Result<FileMetadata, AllocError>
        ensures { IfOk result (λ said. said ≡ file_at key.now (table_view entry.now)) }
    {
        match field(entry, key) {
            Some(value) => FileMetadata::of_value(alloc, value),
            None => Ok(FileMetadata::nothing_said()),
        }
    }

    /// What each file of the list says that an entry has at this key.
    pub(crate) fn each_at(
        alloc: Global,
        entry: &Table,
        key: &str,
    ) -> Result<Vec<FileMetadata>, AllocError>
        ensures { IfOk result (λ files. files.items
            ≡ files_of (items_at key.now (table_view entry.now))) }
    {
        FileMetadata::each(alloc, items_at(entry, key))
    }

    fn each(alloc: Global, values: &[Value]) -> Result<Vec<FileMetadata>, AllocError>
        ensures { IfOk result (λ files. files.items ≡ files_of (items_view values.now)) }
    {
        let mut files = Vec::with_capacity(alloc, values.len())?;
        for value in values {
            files.push(FileMetadata::of_value(alloc, value)?)?;
        }
        Ok(files)
    }
}

// ---- the keys

/// The size that a value is: an integer that isn't negative.
fn size_of(value: Option<&Value>) -> Option<u64>
    ensures { result ≡ option_and_then size_of (option_map (λ v. view v.now) value.entry) }
{
    match value {
        Some(Value::Integer(size)) if *size >= 0 => Some(*size as u64),
        _ => None,
    }
}

/// The time that a value is: a date and a time in UTC.
fn upload_time_of(alloc: Global, value: Option<&Value>) -> Result<Option<Text>, AllocError>
    ensures { IfOk result (λ time. time
        ≡ option_and_then upload_time_of (option_map (λ v. view v.now) value.entry)) }
{
    match value {
        Some(Value::Datetime(time)) if is_moment(time) => {
            let text = format!(in alloc; "{time}")?;
            Ok(Some(Text::new(text)))
        }
        _ => Ok(None),
    }
}

fn is_moment(time: &Datetime) -> bool
    ensures { result ≡ is_moment time.now }
{
    time.date.is_some() && time.time.is_some() && is_utc(time.offset)
}

/// Whether the offset is there and is none.
fn is_utc(offset: Option<Offset>) -> bool
    ensures { result ≡ option_map_or is_utc offset false }
{
    match offset {
        Some(Offset::Z) => true,
        Some(Offset::Custom { minutes }) => minutes == 0,
        None => false,
    }
}
