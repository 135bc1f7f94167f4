//! Whether an environment is coherent.

ghost use Rattle.std.specs.Prelude.{◌≡◌, IsTrue, take};
ghost use Rattle.pyver_algebra.specs.FirstTwo.{first_two};
ghost use Rattle.pyver_core.specs.Version.Parts.{Parts, release_alone};
ghost use Rattle.pymark_algebra.specs.Coherent.{IsCoherent, IsPython};
ghost use Rattle.pymark_algebra.specs.Platforms.{HasItsText, IsOn};
ghost use Rattle.pymark_algebra.specs.declared.platform.Platform.{Platform};

use crate::platform::Platform;
use pymark_core::{Environment, Var};
use pyver_core::Version;

/// Whether the environment is coherent, and sets both variables of the Python's version. `false`
/// says nothing. It takes no memory.
pub fn is_coherent(environment: &Environment) -> bool
    ensures { IsTrue result → IsCoherent environment.now }
{
    if !is_python(environment) {
        return false;
    }
    is_on_any(environment)
}

/// Whether there is a version that the Python is of.
fn is_python(environment: &Environment) -> bool
    ensures { IsTrue result → (version : Parts) × IsPython version environment.now }
{
    let Some(Ok(whole)) = environment.version(Var::PythonFullVersion) else {
        return false;
    };
    let Some(Ok(first)) = environment.version(Var::PythonVersion) else {
        return false;
    };
    if whole.epoch() != 0 {
        return false;
    }
    is_first_two(first, whole)
}

/// Whether the first version has the first two numbers of the other's release, and nothing else.
fn is_first_two(first: &Version, whole: &Version) -> bool
    ensures { IsTrue result → first.now ≡ first_two whole.now }
{
    if !is_alone(first) {
        return false;
    }
    first.release() == front(whole.release())
}

/// Whether the version is a release alone.
fn is_alone(version: &Version) -> bool
    ensures { IsTrue result → version.now ≡ release_alone version.now.release }
{
    if version.epoch() != 0 {
        return false;
    }
    if version.pre().is_some() {
        return false;
    }
    if version.post().is_some() {
        return false;
    }
    if version.dev().is_some() {
        return false;
    }
    version.local().is_empty()
}

/// The first two numbers.
fn front(release: &[u128]) -> &[u128]
    ensures { result.now ≡ take 2 release.now }
{
    if release.len() < 2 {
        return release;
    }
    release.split_at(2).0
}

/// Whether there is a platform that the Python is on.
fn is_on_any(environment: &Environment) -> bool
    ensures { IsTrue result → (platform : Platform) × IsOn platform environment.now }
{
    is_on(environment, Platform::Linux)
        || is_on(environment, Platform::MacOs)
        || is_on(environment, Platform::Windows)
        || is_on(environment, Platform::Other)
}

/// Whether it is on this one.
fn is_on(environment: &Environment, platform: Platform) -> bool
    ensures { IsTrue result → IsOn platform environment.now }
{
    has_its_text(environment, platform, Var::OsName)
        && has_its_text(environment, platform, Var::SysPlatform)
        && has_its_text(environment, platform, Var::PlatformSystem)
}

/// Whether the variable, where it is set, has a text that it may have on the platform.
fn has_its_text(environment: &Environment, platform: Platform, variable: Var) -> bool
    ensures { IsTrue result → HasItsText platform variable environment.now }
{
    match environment.get(variable) {
        Some(text) => platform.may_have(variable, text),
        None => true,
    }
}
