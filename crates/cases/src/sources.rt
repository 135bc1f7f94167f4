//! What the sources of an entry tell.

use pylock_core::{Archive, Directory, DistributionFile, Entry, Vcs};
use pywheel_core::WheelName;
use std::alloc::AllocError;

/// A line for each source of the entry.
pub(crate) fn push_sources(told: &mut String, entry: &Entry) -> Result<(), AllocError> {
    if let Some(vcs) = entry.vcs() {
        push_vcs(told, vcs)?;
    }
    if let Some(directory) = entry.directory() {
        push_directory(told, directory)?;
    }
    if let Some(archive) = entry.archive() {
        push_archive(told, archive)?;
    }
    if let Some(sdist) = entry.sdist() {
        push_file(told, "sdist", sdist)?;
    }
    for wheel in entry.wheels() {
        push_file(told, "wheel", wheel)?;
    }
    push_wheel_names(told, entry.wheel_names())
}

fn push_vcs(told: &mut String, vcs: &Vcs) -> Result<(), AllocError> {
    let (kind, commit_id) = (vcs.kind(), vcs.commit_id());
    let (url, path, place) = (vcs.url(), vcs.path(), vcs.place());
    let subdirectory = vcs.subdirectory();
    write!(
        told,
        "vcs {kind:?}, commit-id {commit_id:?}, url {url:?}, path {path:?}, "
    )?;
    writeln!(told, "place {place:?}, subdirectory {subdirectory:?}")
}

fn push_directory(told: &mut String, directory: &Directory) -> Result<(), AllocError> {
    let (path, place) = (directory.path(), directory.place());
    let (editable, subdirectory) = (directory.editable(), directory.subdirectory());
    write!(
        told,
        "directory {path:?}, place {place:?}, editable {editable}, "
    )?;
    writeln!(told, "subdirectory {subdirectory:?}")
}

fn push_archive(told: &mut String, archive: &Archive) -> Result<(), AllocError> {
    let (url, path, place) = (archive.url(), archive.path(), archive.place());
    let (hashes, subdirectory) = (archive.hashes(), archive.subdirectory());
    write!(
        told,
        "archive: url {url:?}, path {path:?}, place {place:?}, hashes {hashes:?}, "
    )?;
    writeln!(told, "subdirectory {subdirectory:?}")
}

/// An sdist or a wheel.
fn push_file(told: &mut String, kind: &str, file: &DistributionFile) -> Result<(), AllocError> {
    let (name, url, path) = (file.name(), file.url(), file.path());
    let (place, file_name, hashes) = (file.place(), file.file_name(), file.hashes());
    write!(
        told,
        "{kind}: name {name:?}, url {url:?}, path {path:?}, place {place:?}, "
    )?;
    writeln!(told, "file name {file_name:?}, hashes {hashes:?}")
}

/// The name that the file name of each wheel begins with.
fn push_wheel_names(told: &mut String, names: &[Option<WheelName>]) -> Result<(), AllocError> {
    for name in names {
        let name = name.as_ref().map(WheelName::name);
        writeln!(told, "wheel name {name:?}")?;
    }
    Ok(())
}
