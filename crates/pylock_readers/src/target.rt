//! The environment of a target.
ghost use Rattle.std.specs.Prelude.{◌≡◌, IfOk};
ghost use Rattle.pytext.specs.Agreement.{Gives};
ghost use Rattle.pywheel_core.specs.Target.Tags.{target_tags};
ghost use Rattle.pylock_readers.specs.Target.{target_env_of, target_environment};

use crate::error::EnvError;
use pymark_core::{Environment, Var};
use pywheel_core::{TagList, Target, TargetError};
use std::alloc::{AllocError, Global};

/// Reads PYTHON and PLATFORM, as `3.12` and `manylinux_2_28_x86_64`, and gives the environment and
/// the list of tags of such a machine. `Python` comes before `Platform`. It takes memory for both.
#[tactic(auto, unfolding(crate::specs::Target::target_env_of))]
pub fn read_target(
    alloc: Global,
    python: &str,
    platform: &str,
) -> Result<(Environment, TagList), EnvError>
    ensures { Gives EnvError.Memory (λ e. e) result (target_env_of python.now platform.now) }
{
    match Target::parse(python, platform) {
        Ok(target) => Ok(target_environment(alloc, &target)?),
        Err(TargetError::Python) => Err(EnvError::Python),
        Err(TargetError::Platform) => Err(EnvError::Platform),
    }
}

/// The environment of a target, and its list of tags. Each variable of markers is set but
/// `platform_release` and `platform_version`, which a target doesn't know, and nothing is asked
/// for. It takes memory for both.
pub fn target_environment(
    alloc: Global,
    target: &Target,
) -> Result<(Environment, TagList), AllocError>
    ensures { IfOk result (λ e. e ≡ (target_environment target.now, target_tags target.now)) }
{
    let environment = variables(alloc, target)?;
    let tags = TagList::of_target(alloc, target)?;
    Ok((environment, tags))
}

/// The environment of a target.
fn variables(alloc: Global, target: &Target) -> Result<Environment, AllocError>
    ensures { IfOk result (λ environment. environment ≡ target_environment target.now) }
{
    let (python, platform) = (target.python(), target.platform());
    let version = format!(in alloc; "3.{}", python.minor)?;
    let release = format!(in alloc; "3.{}.{}", python.minor, python.micro)?;
    let mut environment = Environment::new(alloc);
    environment.set(Var::OsName, platform.os_name())?;
    environment.set(Var::SysPlatform, platform.sys_platform())?;
    environment.set(Var::PlatformMachine, platform.platform_machine())?;
    environment.set(Var::PlatformPythonImplementation, "CPython")?;
    environment.set(Var::PlatformSystem, platform.platform_system())?;
    environment.set(Var::PythonVersion, version.as_str())?;
    environment.set(Var::PythonFullVersion, release.as_str())?;
    environment.set(Var::ImplementationName, "cpython")?;
    environment.set(Var::ImplementationVersion, release.as_str())?;
    Ok(environment)
}
