//! What the file names of an entry say of the package and of each other.

ghost use Rattle.std.specs.Prelude.{◌≡◌, ◌++◌, [], IfOk, List, OnOk, Some, slice_get, ℕ};
ghost use Rattle.std.specs.BTreeSet.{contains_text};
ghost use Rattle.std.specs.List.{flat_map, list_any};
ghost use Rattle.std.specs.Option.{option_copied, option_map_or};
ghost use Rattle.std.specs.Str.{bytes_eq};
ghost use Rattle.pylock_readers.specs.Entry.{file_name, wheel_name};
ghost use Rattle.pylock_audit.specs.Entry.{ends, ends_as_sdist, first_version, has_front_of};
ghost use Rattle.pylock_audit.specs.Entry.{is_name_of, is_other_file, is_other_sdist};
ghost use Rattle.pylock_audit.specs.Entry.{is_other_version, is_other_wheel, of_file_names};
ghost use Rattle.pylock_audit.specs.Entry.{of_file_names_by, other_files, other_sdist};
ghost use Rattle.pylock_audit.specs.Entry.{other_wheel, read_wheels, same_file_names, same_names};
ghost use Rattle.pylock_audit.specs.Entry.{sdist_name, unnamed_sdist, unnamed_wheel};
ghost use Rattle.pylock_audit.specs.Entry.{wanted_version, with_name, with_names};
ghost use Rattle.pylock_audit.specs.Finding.{findings_each};
ghost use Rattle.pylock_audit.specs.Inner.Names.{Holds};
ghost use Rattle.pylock_audit.specs.Source.{name_where};

use crate::finding::{Finding, FindingKind, push_each, push_plain, push_where};
use pylock_core::{DistributionFile, Entry, Sdist, WheelFile};
use pylock_places::{file_label, shown_file_name};
use pylock_shared::LabelledText;
use pylock_shown::around;
use pyver_core::{Version, VersionError, is_name, normal_name};
use pywheel_core::{SdistError, SdistName, WheelName};
use std::alloc::{AllocError, Global};
use std::collections::BTreeSet;

/// Adds what the file names of an entry give. The sdist's is read once.
pub(crate) fn push_file_names(
    alloc: Global,
    findings: &mut Vec<Finding>,
    entry: &Entry,
) -> Result<(), AllocError>
    ensures { OnOk result (findings.new.items ≡ findings.old.items ++ of_file_names entry.now) }
{
    let sdist = sdist_name(alloc, entry)?;
    push_by_sdist(alloc, findings, entry, sdist.as_ref())
}

/// What the file name of the sdist says; nothing where there is none or it is refused.
fn sdist_name(alloc: Global, entry: &Entry) -> Result<Option<SdistName>, AllocError>
    ensures { IfOk result (λ sdist. sdist ≡ sdist_name entry.now) }
{
    let Some(file) = entry.sdist() else {
        return Ok(None);
    };
    let Some(name) = file.file_name() else {
        return Ok(None);
    };
    match SdistName::parse(alloc, name) {
        Ok(sdist) => Ok(Some(sdist)),
        Err(SdistError::Memory) => Err(AllocError),
        Err(_) => Ok(None),
    }
}

/// Adds what the file names of an entry give, where the sdist's says this.
fn push_by_sdist(
    alloc: Global,
    findings: &mut Vec<Finding>,
    entry: &Entry,
    sdist: Option<&SdistName>,
) -> Result<(), AllocError>
    ensures { OnOk result (findings.new.items ≡ findings.old.items
        ++ of_file_names_by (option_copied sdist.entry) entry.now) }
{
    push_unnamed(alloc, findings, entry)?;
    push_unnamed_sdist(alloc, findings, entry, sdist)?;
    let wanted = wanted_version(alloc, entry)?;
    let version = wanted.as_ref();
    push_others(
        alloc,
        findings,
        FindingKind::OtherName,
        version,
        entry,
        sdist,
    )?;
    push_others(
        alloc,
        findings,
        FindingKind::OtherVersion,
        version,
        entry,
        sdist,
    )?;
    let names = same_names(alloc, entry)?;
    push_each(findings, FindingKind::SameFileName, names)
}

/// What the file name of this wheel says, which stands at this place; nothing where the name is
/// absent or refused.
#[tactic(auto, using(crate::proofs::WheelLemmas::read_at))]
fn name_at<'a>(entry: &'a Entry, place: usize, file: &WheelFile) -> Option<&'a WheelName>
    requires { slice_get entry.now.wheels place ≡ Some file.now }
    ensures { option_copied result ≡ wheel_name file.now }
{
    entry.wheel_names().get(place)?.as_ref()
}

// ---- names that can't be read

/// Adds the wheels that are never chosen, since their name can't be read.
fn push_unnamed(alloc: Global, findings: &mut Vec<Finding>, entry: &Entry) -> Result<(), AllocError>
    ensures { OnOk result (findings.new.items
        ≡ findings.old.items ++ flat_map unnamed_wheel (read_wheels entry.now)) }
{
    for (place, file) in entry.wheels().iter().enumerate() {
        push_unnamed_wheel(alloc, findings, file, name_at(entry, place, file))?;
    }
    Ok(())
}

fn push_unnamed_wheel(
    alloc: Global,
    findings: &mut Vec<Finding>,
    file: &WheelFile,
    name: Option<&WheelName>,
) -> Result<(), AllocError>
    ensures { OnOk result (findings.new.items
        ≡ findings.old.items ++ unnamed_wheel (file.now, option_copied name.entry)) }
{
    if name.is_some() {
        return Ok(());
    }
    let file_name = shown_file_name(alloc, file)?;
    push_where(findings, true, FindingKind::NoWheelName, file_name)
}

/// Adds the sdist, where its name can't be read.
fn push_unnamed_sdist(
    alloc: Global,
    findings: &mut Vec<Finding>,
    entry: &Entry,
    sdist: Option<&SdistName>,
) -> Result<(), AllocError>
    ensures { OnOk result (findings.new.items ≡ findings.old.items
        ++ unnamed_sdist (option_copied sdist.entry) entry.now) }
{
    let Some(file) = entry.sdist() else {
        return Ok(());
    };
    if sdist.is_some() {
        return Ok(());
    }
    let file_name = shown_file_name(alloc, file)?;
    push_where(findings, true, FindingKind::NoSdistName, file_name)
}

// ---- other packages and versions

/// Adds the files of another package or of another version, as this kind of finding tells.
fn push_others(
    alloc: Global,
    findings: &mut Vec<Finding>,
    kind: FindingKind,
    wanted: Option<&Version>,
    entry: &Entry,
    sdist: Option<&SdistName>,
) -> Result<(), AllocError>
    ensures { OnOk result (findings.new.items ≡ findings.old.items ++ findings_each kind
        (other_files kind (option_copied wanted.entry) (option_copied sdist.entry) entry.now)) }
{
    let mut list = Vec::new(alloc);
    for (place, file) in entry.wheels().iter().enumerate() {
        let name = name_at(entry, place, file);
        push_other_wheel(alloc, &mut list, kind, wanted, entry.name(), file, name)?;
    }
    if let Some(file) = entry.sdist() {
        push_other_sdist(alloc, &mut list, kind, wanted, entry.name(), sdist, file)?;
    }
    push_each(findings, kind, list)
}

/// Adds what a wheel is called, where the kind tells of what its file name says.
fn push_other_wheel(
    alloc: Global,
    list: &mut Vec<LabelledText>,
    kind: FindingKind,
    wanted: Option<&Version>,
    name: &str,
    file: &WheelFile,
    wheel: Option<&WheelName>,
) -> Result<(), AllocError>
    ensures { OnOk result (list.new.items ≡ list.old.items
        ++ other_wheel kind (option_copied wanted.entry) name.now
        (file.now, option_copied wheel.entry)) }
{
    let Some(parts) = wheel else {
        return Ok(());
    };
    if is_other_wheel(alloc, kind, wanted, name, parts)? {
        push_plain(list, file_label(alloc, file)?)?;
    }
    Ok(())
}

fn is_other_wheel(
    alloc: Global,
    kind: FindingKind,
    wanted: Option<&Version>,
    name: &str,
    wheel: &WheelName,
) -> Result<bool, AllocError>
    ensures { IfOk result (λ other. other
        ≡ is_other_wheel kind (option_copied wanted.entry) name.now wheel.now) }
{
    match kind {
        FindingKind::OtherName => Ok(normal_name(alloc, wheel.name())?.as_str() != name),
        _ => Ok(is_other_version(wanted, wheel.version())),
    }
}

/// Adds what the sdist is called, where the kind tells of its file name, which says this.
fn push_other_sdist(
    alloc: Global,
    list: &mut Vec<LabelledText>,
    kind: FindingKind,
    wanted: Option<&Version>,
    name: &str,
    sdist: Option<&SdistName>,
    file: &Sdist,
) -> Result<(), AllocError>
    ensures { OnOk result (list.new.items ≡ list.old.items
        ++ other_sdist kind (option_copied wanted.entry) name.now (option_copied sdist.entry)
        file.now) }
{
    let Some(own) = file.file_name() else {
        return Ok(());
    };
    if is_other_file(alloc, kind, wanted, name, sdist, own)? {
        push_plain(list, file_label(alloc, file)?)?;
    }
    Ok(())
}

fn is_other_file(
    alloc: Global,
    kind: FindingKind,
    wanted: Option<&Version>,
    name: &str,
    sdist: Option<&SdistName>,
    file: &str,
) -> Result<bool, AllocError>
    ensures { IfOk result (λ other. other ≡ is_other_file kind (option_copied wanted.entry)
        name.now (option_copied sdist.entry) file.now) }
{
    match (kind, sdist) {
        (FindingKind::OtherName, _) => is_other_sdist(alloc, name, sdist, file),
        (_, Some(said)) => Ok(is_other_version(wanted, said.version())),
        (_, None) => Ok(false),
    }
}

/// Whether the file name of an sdist, which says this, is another package's.
fn is_other_sdist(
    alloc: Global,
    name: &str,
    sdist: Option<&SdistName>,
    file: &str,
) -> Result<bool, AllocError>
    ensures { IfOk result (λ other. other
        ≡ is_other_sdist name.now (option_copied sdist.entry) file.now) }
{
    match sdist {
        Some(sdist) => Ok(sdist.name() != name),
        None => Ok(ends_as_sdist(file) && !has_front_of(alloc, name, file)?),
    }
}

fn ends_as_sdist(file: &str) -> bool
    ensures { result ≡ ends_as_sdist file.now }
{
    ends(b".tar.gz", file.as_bytes()) || ends(b".zip", file.as_bytes())
}

/// Whether the text ends so.
fn ends(ending: &[u8], text: &[u8]) -> bool
    ensures { result ≡ ends ending.now text.now }
{
    text.ends_with(ending)
}

/// Whether some `-` has a name before it whose normal form is this one.
fn has_front_of(alloc: Global, name: &str, file: &str) -> Result<bool, AllocError>
    ensures { IfOk result (λ found. found ≡ has_front_of name.now file.now) }
{
    let mut front = String::new(alloc);
    let mut left = file;
    while let Some((piece, rest)) = around(left, b'-') {
        front.push_str(piece)?;
        if is_name_of(alloc, name, front.as_str())? {
            return Ok(true);
        }
        front.push_str("-")?;
        left = rest;
    }
    Ok(false)
}

/// Whether the text is a name whose normal form is this one.
fn is_name_of(alloc: Global, name: &str, text: &str) -> Result<bool, AllocError>
    ensures { IfOk result (λ is. is ≡ is_name_of name.now text.now) }
{
    Ok(is_name(text) && normal_name(alloc, text)?.as_str() == name)
}

/// The version that the files should have: the entry's, or where it has none that of its first
/// wheel with a readable name.
fn wanted_version(alloc: Global, entry: &Entry) -> Result<Option<Version>, AllocError>
    ensures { IfOk result (λ version. version ≡ wanted_version entry.now) }
{
    let Some(version) = entry.version() else {
        return first_version(entry.wheel_names());
    };
    match Version::parse(alloc, version) {
        Ok(version) => Ok(Some(version)),
        Err(VersionError::Memory) => Err(AllocError),
        Err(_) => Ok(None),
    }
}

fn first_version(names: &[Option<WheelName>]) -> Result<Option<Version>, AllocError>
    ensures { IfOk result (λ version. version ≡ first_version names.now) }
{
    for name in names {
        if let Some(wheel) = name {
            return Ok(Some(wheel.version().clone()?));
        }
    }
    Ok(None)
}

fn is_other_version(wanted: Option<&Version>, version: &Version) -> bool
    ensures { result ≡ is_other_version (option_copied wanted.entry) version.now }
{
    match wanted {
        Some(wanted) => version != wanted,
        None => false,
    }
}

// ---- the same names

/// The file names that an earlier wheel has.
fn same_names(alloc: Global, entry: &Entry) -> Result<Vec<LabelledText>, AllocError>
    ensures { IfOk result (λ list. list.items ≡ same_file_names entry.now) }
{
    let mut list = Vec::new(alloc);
    let mut earlier = BTreeSet::new(alloc);
    push_same_names(alloc, &mut list, &mut earlier, entry.wheels())?;
    push_same_sdist(alloc, &mut list, &earlier, entry.sdist())?;
    Ok(list)
}

/// Adds the file name of the sdist where a wheel has it.
fn push_same_sdist(
    alloc: Global,
    list: &mut Vec<LabelledText>,
    earlier: &BTreeSet<String>,
    sdist: Option<&Sdist>,
) -> Result<(), AllocError>
    ensures { OnOk result (list.new.items ≡ list.old.items
        ++ option_map_or (name_where (contains_text earlier.now)) (option_copied sdist.entry) []) }
{
    let Some(file) = sdist else {
        return Ok(());
    };
    match file.file_name() {
        Some(name) if earlier.contains(name) => push_plain(list, file_label(alloc, file)?),
        _ => Ok(()),
    }
}

fn push_same_names(
    alloc: Global,
    list: &mut Vec<LabelledText>,
    earlier: &mut BTreeSet<String>,
    files: &[DistributionFile],
) -> Result<(), AllocError>
    ensures list { OnOk result ((names : List (List ℕ)) → Holds earlier.old names
        → list.new.items
        ≡ list.old.items ++ same_names names files.now) }
    ensures earlier { OnOk result ((names : List (List ℕ)) → Holds earlier.old names
        → Holds earlier.new (with_names files.now names)) }
{
    for file in files {
        push_same_name(alloc, list, earlier, file)?;
    }
    Ok(())
}

/// Adds the file name where an earlier file has it, and has it among the earlier ones.
fn push_same_name(
    alloc: Global,
    list: &mut Vec<LabelledText>,
    earlier: &mut BTreeSet<String>,
    file: &DistributionFile,
) -> Result<(), AllocError>
    ensures list { OnOk result ((names : List (List ℕ)) → Holds earlier.old names
        → list.new.items ≡ list.old.items
        ++ name_where (λ name. list_any (bytes_eq name) names) file.now) }
    ensures earlier { OnOk result ((names : List (List ℕ)) → Holds earlier.old names
        → Holds earlier.new (with_name (file_name file.now) names)) }
{
    let Some(name) = file.file_name() else {
        return Ok(());
    };
    if earlier.contains(name) {
        push_plain(list, file_label(alloc, file)?)?;
    }
    earlier.insert(String::from_str(alloc, name)?)?;
    Ok(())
}
