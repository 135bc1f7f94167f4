//! What the names of files say: of which project they are, and what a tool takes them for.

ghost use Rattle.std.specs.Prelude.{◌≡◌, None, option_map, IfOk, string_bytes};
ghost use Rattle.std.specs.Option.{option_copied};
ghost use Rattle.pylock_exports.specs.FileNames.{ends_as_file, ends_as_wheel, ends_in};
ghost use Rattle.pylock_exports.specs.FileNames.{is_step, is_wheel_end, last_part, last_step};
ghost use Rattle.pylock_exports.specs.FileNames.{project_check, sdist_project, wheel_project};

use crate::listed::owned;
use crate::parts::require;
use crate::refusal::{Field, FieldFault, Reason};
use pylock_readers::{path_file_name, url_file_name};
use pyver_core::normal_name;
use pywheel_core::{SdistError, SdistName, WheelError, WheelName};
use std::alloc::{AllocError, Global};

/// What the URL ends in before its query, decoded once, else what the path ends in.
pub(crate) fn last_part(
    alloc: Global,
    url: Option<&str>,
    path: Option<&str>,
) -> Result<Option<String>, AllocError>
    ensures { IfOk result (λ last. option_map string_bytes last
        ≡ last_part (option_copied url.entry) (option_copied path.entry)) }
{
    match url {
        Some(url) => url_file_name(alloc, url),
        None => owned(alloc, last_of_path(path)),
    }
}

/// What a path ends in.
fn last_of_path(path: Option<&str>) -> Option<&str>
    ensures { option_copied result ≡ last_part None (option_copied path.entry) }
{
    path_file_name(path?)
}

// ---- of which project

/// The project that the file name of a wheel says, in normal form; nothing where it can't be read.
pub(crate) fn wheel_project(alloc: Global, name: &str) -> Result<Option<String>, AllocError>
    ensures { IfOk result (λ project. option_map string_bytes project ≡ wheel_project name.now) }
{
    match WheelName::parse(alloc, name) {
        Ok(wheel) => Ok(Some(normal_name(alloc, wheel.name())?)),
        Err(WheelError::Memory) => Err(AllocError),
        Err(_) => Ok(None),
    }
}

/// The project that the file name of an sdist says; nothing where it can't be read.
pub(crate) fn sdist_project(alloc: Global, name: &str) -> Result<Option<String>, AllocError>
    ensures { IfOk result (λ project. option_map string_bytes project ≡ sdist_project name.now) }
{
    match SdistName::parse(alloc, name) {
        Ok(sdist) => Ok(Some(String::from_str(alloc, sdist.name())?)),
        Err(SdistError::Memory) => Err(AllocError),
        Err(_) => Ok(None),
    }
}

/// A file name that can be read is of this project.
pub(crate) fn check_project(name: &str, project: Option<&str>) -> Result<(), FieldFault>
    ensures { result ≡ project_check name.now (option_copied project.entry) }
{
    match project {
        Some(project) => require(Field::FileName, Reason::OtherProject, project == name),
        None => require(Field::FileName, Reason::Unread, false),
    }
}

// ---- how they end

/// Whether the text ends so, ASCII letter case ignored.
fn ends_in(ending: &[u8], text: &[u8]) -> bool
    ensures { result ≡ ends_in ending.now text.now }
{
    let place = text.len().saturating_sub(ending.len());
    let (_, end) = text.split_at(place);
    end.eq_ignore_ascii_case(ending)
}

fn ends_as_wheel(text: &[u8]) -> bool
    ensures { result ≡ ends_as_wheel text.now }
{
    ends_in(b".whl", text)
}

/// Whether what stands there ends as a wheel does.
pub(crate) fn is_wheel_end(last: Option<&str>) -> bool
    ensures { result ≡ is_wheel_end (option_copied last.entry) }
{
    match last {
        Some(last) => ends_as_wheel(last.as_bytes()),
        None => false,
    }
}

/// Whether pip takes a path that ends so for the file that may stand there.
pub(crate) fn ends_as_file(text: &[u8]) -> bool
    ensures { result ≡ ends_as_file text.now }
{
    ends_as_wheel(text)
        || ends_in(b".zip", text)
        || ends_in(b".tar", text)
        || ends_in(b".tar.gz", text)
        || ends_in(b".tgz", text)
        || ends_in(b".tar.bz2", text)
        || ends_in(b".tbz", text)
        || ends_in(b".tar.xz", text)
        || ends_in(b".txz", text)
        || ends_in(b".tlz", text)
        || ends_in(b".tar.lz", text)
        || ends_in(b".tar.lzma", text)
}

/// Whether a part of a path names something.
fn is_step(part: &[u8]) -> bool
    ensures { result ≡ is_step part.now }
{
    part.len() != 0 && part != b".".as_slice()
}

/// The last part of a path that names something, else the one before it.
pub(crate) fn last_step<'a>(before: &'a [u8], path: &'a str) -> &'a [u8]
    ensures { result.now ≡ last_step before.now path.now }
{
    let mut last = before;
    for part in path.split('/') {
        if is_step(part.as_bytes()) {
            last = part.as_bytes();
        }
    }
    last
}
