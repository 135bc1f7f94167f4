//! The targets of a matrix for which none is asked.

ghost use Rattle.std.specs.Prelude.{◌≡◌, ◌++◌, ◌<◌, IfOk, OnOk, map};
ghost use Rattle.std.specs.List.{flat_map};
ghost use Rattle.std.specs.Option.{option_copied};
ghost use Rattle.pylock_matrix.specs.Defaults as defaults;
ghost use Rattle.pylock_matrix.specs.Defaults.{is_met, least_micro, least_release, short_release};

use pytext::Text;
use pyver_core::{SpecifierSet, Version, VersionError};
use std::alloc::{AllocError, Global};

/// The second numbers of the Pythons.
const MINORS: [u8; 5] = [10, 11, 12, 13, 14];

/// The third numbers that are tried are below this one.
const MICRO_LIMIT: u16 = 100;

/// The platforms that most wheels are made for.
const PLATFORMS: [&str; 7] = [
    "manylinux_2_28_x86_64",
    "manylinux_2_28_aarch64",
    "musllinux_1_2_x86_64",
    "musllinux_1_2_aarch64",
    "macosx_14_0_x86_64",
    "macosx_14_0_arm64",
    "win_amd64",
];

/// The Pythons of a matrix for which none is asked: of 3.10 to 3.14 the least release that the set
/// of `requires-python` admits, as `3.10.4`, whose third number is at most 99; none where it admits
/// no such release. Without a set they are `3.10` to `3.14`. It takes memory for each word, and for
/// one version at a time.
pub fn default_pythons(
    alloc: Global,
    requires_python: Option<&SpecifierSet>,
) -> Result<Vec<Text>, AllocError>
    ensures { IfOk result (λ pythons. pythons.items
        ≡ defaults.default_pythons (option_copied requires_python.entry)) }
{
    match requires_python {
        Some(set) => least_releases(alloc, set),
        None => short_releases(alloc),
    }
}

/// The platforms of a matrix for which none is asked: Linux with glibc and with musl, and macOS, on
/// two machines each, and Windows. It takes memory for each word.
pub fn default_platforms(alloc: Global) -> Result<Vec<Text>, AllocError>
    ensures { IfOk result (λ platforms. platforms.items ≡ defaults.default_platforms) }
{
    let mut platforms = Vec::with_capacity(alloc, PLATFORMS.len())?;
    for platform in PLATFORMS {
        platforms.push(Text::copy_of(alloc, platform)?)?;
    }
    Ok(platforms)
}

fn short_releases(alloc: Global) -> Result<Vec<Text>, AllocError>
    ensures { IfOk result (λ pythons. pythons.items ≡ map short_release defaults.minors) }
{
    let mut pythons = Vec::with_capacity(alloc, MINORS.len())?;
    for minor in MINORS {
        pythons.push(Text::new(format!(in alloc; "3.{minor}")?))?;
    }
    Ok(pythons)
}

fn least_releases(alloc: Global, set: &SpecifierSet) -> Result<Vec<Text>, AllocError>
    ensures { IfOk result (λ pythons. pythons.items
        ≡ flat_map (least_release set.now) defaults.minors) }
{
    let mut pythons = Vec::with_capacity(alloc, MINORS.len())?;
    for minor in MINORS {
        push_least_release(alloc, &mut pythons, set, minor)?;
    }
    Ok(pythons)
}

/// Pushes the least release of CPython 3.`minor` that the set admits, where there is one.
fn push_least_release(
    alloc: Global,
    pythons: &mut Vec<Text>,
    set: &SpecifierSet,
    minor: u8,
) -> Result<(), AllocError>
    ensures { OnOk result (pythons.new.items
        ≡ pythons.old.items ++ least_release set.now minor) }
{
    if let Some(micro) = least_micro(alloc, set, minor)? {
        pythons.push(release(alloc, minor, micro)?)?;
    }
    Ok(())
}

fn least_micro(alloc: Global, set: &SpecifierSet, minor: u8) -> Result<Option<u16>, AllocError>
    ensures { IfOk result (λ micro. micro ≡ least_micro set.now minor) }
{
    for micro in 0..MICRO_LIMIT {
        if is_met(alloc, set, minor, micro)? {
            return Ok(Some(micro));
        }
    }
    Ok(None)
}

/// Whether the set admits CPython 3.`minor`.`micro`.
fn is_met(alloc: Global, set: &SpecifierSet, minor: u8, micro: u16) -> Result<bool, AllocError>
    ensures { IfOk result (λ met. met ≡ is_met set.now minor micro) }
{
    let release = release(alloc, minor, micro)?;
    match Version::parse(alloc, release.as_str()) {
        Ok(version) => Ok(set.admits(&version)),
        Err(VersionError::Memory) => Err(AllocError),
        Err(_) => Ok(false),
    }
}

fn release(alloc: Global, minor: u8, micro: u16) -> Result<Text, AllocError>
    ensures { IfOk result (λ text. text ≡ defaults.release minor micro) }
{
    Ok(Text::new(format!(in alloc; "3.{minor}.{micro}")?))
}
