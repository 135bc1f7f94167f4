//! Versions: their texts, their parts, versions of parts, and their order.

use crate::told::{measure_text, printed_text, read, refused, tell};
use case_files::{text, texts};
use pytext::Text;
use pyver_core::{LocalPart, Version, VersionParts};
use std::alloc::{AllocError, Global};
use std::cmp::Ordering;
use std::collections::HashSet;
use toml::Table;

/// The parts of `version`, its text, and what is left of it as a public version and as a release.
pub(crate) fn tell_parts(alloc: Global, case: &Table) -> anyhow::Result<String> {
    let version = read(alloc, case, "version", Version::parse)?;
    Ok(parts(alloc, &version)?)
}

fn parts(alloc: Global, version: &Version) -> Result<String, AllocError> {
    let (epoch, release, pre) = (version.epoch(), version.release(), version.pre());
    let (post, dev, local) = (version.post(), version.dev(), version.local());
    let mut parts = String::new(alloc);
    writeln!(
        parts,
        "epoch {epoch}, release {release:?}, pre {pre:?}, post {post:?}, dev {dev:?}"
    )?;
    writeln!(parts, "local {local:?}")?;
    let (is_prerelease, is_postrelease) = (version.is_prerelease(), version.is_postrelease());
    writeln!(
        parts,
        "pre-release {is_prerelease}, post-release {is_postrelease}"
    )?;
    writeln!(parts, "text {}", version.text())?;
    push_shorter(&mut parts, alloc, version)?;
    Ok(parts)
}

fn push_shorter(parts: &mut String, alloc: Global, version: &Version) -> Result<(), AllocError> {
    let public = version.public_part(alloc)?;
    let base = version.base_release(alloc)?;
    writeln!(parts, "public {public}, base {base}")
}

/// How many numbers and segments the long `version` has, whether its text is read as the version
/// again, and what is to be seen of the text; or why it is refused.
pub(crate) fn measure(alloc: Global, case: &Table) -> anyhow::Result<String> {
    tell(alloc, case, "version", Version::parse, |alloc, version| {
        measure_version(alloc, case, version)
    })
}

fn measure_version(alloc: Global, case: &Table, version: &Version) -> anyhow::Result<String> {
    let printed = printed_text(alloc, version)?;
    let measured = measure_text(alloc, case, "version", printed.as_str())?;
    let is_read = is_read_back(alloc, version, printed.as_str())?;
    let (numbers, segments) = (version.release().len(), version.local().len());
    Ok(format!(in alloc;
        "{numbers} numbers, {segments} segments, read back {is_read}, {measured}"
    )?)
}

/// Whether what the version prints is its text, and spells an equal version.
fn is_read_back(alloc: Global, version: &Version, printed: &str) -> anyhow::Result<bool> {
    let read = Version::parse(alloc, printed)?;
    Ok(read == *version && printed == version.text())
}

/// What `long_version` says of the version that is made of a copy of the parts of `version`: with
/// the text `label` before the other segments of the local part, and without a number in the
/// release, where the case says so. Or why no version has them.
pub(crate) fn make_version(alloc: Global, case: &Table) -> anyhow::Result<String> {
    let version = read(alloc, case, "version", Version::parse)?;
    let parts = parts_of(alloc, case, &version)?;
    match Version::from_parts(alloc, parts.clone()?) {
        Ok(version) => measure_version(alloc, case, &version),
        Err(refusal) => refused(alloc, &refusal),
    }
}

fn parts_of(alloc: Global, case: &Table, version: &Version) -> anyhow::Result<VersionParts> {
    let mut release = Vec::new(alloc);
    if case.get("no_release").is_none() {
        release.extend_from_slice(version.release())?;
    }
    let local = local_of(alloc, case, version.local())?;
    Ok(VersionParts {
        epoch: version.epoch(),
        release,
        pre: version.pre(),
        post: version.post(),
        dev: version.dev(),
        local,
    })
}

fn local_of(alloc: Global, case: &Table, segments: &[LocalPart]) -> anyhow::Result<Vec<LocalPart>> {
    let mut local = Vec::new(alloc);
    if case.get("label").is_some() {
        let label = text(alloc, case, "label")?;
        local.push(LocalPart::Text(Text::new(label)))?;
    }
    for segment in segments {
        local.push(segment.clone()?)?;
    }
    Ok(local)
}

/// The text that a label of `label` gives.
pub(crate) fn label_text(alloc: Global, case: &Table) -> anyhow::Result<String> {
    let label = Text::new(text(alloc, case, "label")?);
    Ok(label.into_string())
}

/// How many of `versions` a set that hashes them has.
pub(crate) fn count(alloc: Global, case: &Table) -> anyhow::Result<String> {
    let mut versions = HashSet::new(alloc);
    for text in texts(alloc, case, "versions")? {
        versions.insert(Version::parse(alloc, text)?)?;
    }
    Ok(versions.len().to_string(alloc)?)
}

/// How each of `versions` compares with the next.
pub(crate) fn compare(alloc: Global, case: &Table) -> anyhow::Result<String> {
    let versions = texts(alloc, case, "versions")?;
    let mut compared = String::new(alloc);
    for pair in versions.windows(2) {
        if let [left, right] = pair {
            let sign = sign_between(alloc, left, right)?;
            writeln!(compared, "{left} {sign} {right}")?;
        }
    }
    Ok(compared)
}

fn sign_between(alloc: Global, left: &str, right: &str) -> anyhow::Result<&'static str> {
    let left = Version::parse(alloc, left)?;
    let right = Version::parse(alloc, right)?;
    let keys = left.order_key(alloc)?.cmp(&right.order_key(alloc)?);
    Ok(sign(&left, &right, keys))
}

/// What each of the comparisons says, and that of the order keys.
fn sign(left: &Version, right: &Version, keys: Ordering) -> &'static str {
    match (
        left < right,
        left == right,
        left > right,
        left != right,
        keys,
    ) {
        (true, false, false, true, Ordering::Less) => "<",
        (false, true, false, false, Ordering::Equal) => "==",
        (false, false, true, true, Ordering::Greater) => ">",
        _ => "?",
    }
}

/// The bytes of the order key of `version`.
pub(crate) fn tell_key(alloc: Global, case: &Table) -> anyhow::Result<String> {
    let version = read(alloc, case, "version", Version::parse)?;
    let key = version.order_key(alloc)?;
    Ok(format!(in alloc; "{key:?}")?)
}
