//! What is taken as the platform of a target, and which of these a refused word may be meant for.

use pywheel_core::Target;
use std::alloc::{AllocError, Global};

/// What is taken.
pub(crate) const PLATFORMS: &str = "none of linux, macos, windows, win32, win_amd64, win_arm64, \
manylinux_2_N_ARCH (N from 5 to 99 for x86_64 and i686, else from 17 to 99), manylinux2014_ARCH, \
manylinux2010_ARCH and manylinux1_ARCH (x86_64, i686), musllinux_1_N_ARCH (N from 0 to 99), \
macosx_M_0_ARCH (M from 11 to 99; x86_64, arm64), macosx_10_N_x86_64 (N from 4 to 16), and none \
of uv's names, such as ARCH-manylinux_2_N, ARCH-unknown-linux-gnu, aarch64-apple-darwin; ARCH is \
one of x86_64, i686, aarch64, armv7l, ppc64le, s390x, riscv64, loongarch64";

/// The name of a platform for which a refused word may be meant, where there is one: that of the
/// system, or the word in lower case, or its nearest number or architecture.
pub(crate) fn meant_platform(alloc: Global, word: &str) -> Result<Option<String>, AllocError> {
    let lower = word.to_ascii_lowercase(alloc)?;
    if is_platform(lower.as_str()) {
        return Ok(Some(lower));
    }
    match nearest_platform(alloc, lower.as_str())? {
        Some(name) if is_platform(name.as_str()) => Ok(Some(name)),
        _ => Ok(None),
    }
}

fn is_platform(word: &str) -> bool {
    Target::parse("3.12", word).is_ok()
}

/// What is to be tried in place of a word in lower case.
fn nearest_platform(alloc: Global, word: &str) -> Result<Option<String>, AllocError> {
    if let Some(system) = system_of(word) {
        return Ok(Some(String::from_str(alloc, system)?));
    }
    if let Some(arch) = word.strip_prefix("linux_") {
        let arch = linux_arch(arch);
        return Ok(Some(format!(in alloc; "manylinux_2_28_{arch}")?));
    }
    if let Some(rest) = word.strip_prefix("manylinux_2_") {
        return nearest_glibc(alloc, rest);
    }
    match word.strip_prefix("macosx_") {
        Some(rest) => without_minor(alloc, rest),
        None => Ok(None),
    }
}

/// The name of the system that is called so elsewhere.
fn system_of(word: &str) -> Option<&'static str> {
    match word {
        "darwin" | "mac" | "macosx" | "osx" => Some("macos"),
        "nt" | "win" | "win64" => Some("windows"),
        "gnu/linux" | "linux2" => Some("linux"),
        _ => None,
    }
}

/// The word of tags of Linux for an architecture that is called so elsewhere.
fn linux_arch(word: &str) -> &str {
    match word {
        "amd64" | "x64" => "x86_64",
        "arm64" => "aarch64",
        "i386" | "x86" => "i686",
        _ => word,
    }
}

/// The same glibc of the right architecture, else the oldest that each of them has, of `N_ARCH`.
fn nearest_glibc(alloc: Global, rest: &str) -> Result<Option<String>, AllocError> {
    let Some((minor, arch)) = rest.split_once('_') else {
        return Ok(None);
    };
    let arch = linux_arch(arch);
    let same = format!(in alloc; "manylinux_2_{minor}_{arch}")?;
    if is_platform(same.as_str()) {
        return Ok(Some(same));
    }
    Ok(Some(format!(in alloc; "manylinux_2_17_{arch}")?))
}

/// The version of macOS whose second number is 0, of `M_N_ARCH`.
fn without_minor(alloc: Global, rest: &str) -> Result<Option<String>, AllocError> {
    let Some((major, rest)) = rest.split_once('_') else {
        return Ok(None);
    };
    let Some((_, arch)) = rest.split_once('_') else {
        return Ok(None);
    };
    let arch = if arch == "aarch64" { "arm64" } else { arch };
    Ok(Some(format!(in alloc; "macosx_{major}_0_{arch}")?))
}
