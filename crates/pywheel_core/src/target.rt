//! Targets: an environment without its machine.

ghost use Rattle.std.specs.Prelude.{◌≡◌, true};
ghost use Rattle.pywheel_core.specs.Target.Reading.{target_of};
ghost use Rattle.pywheel_core.specs.Target.Value.{TargetValue, is_target};

pub(crate) mod cpython;
pub(crate) mod platform;
mod reading;
pub(crate) mod tags;
pub(crate) mod words;

use crate::error::TargetError;
use crate::target::cpython::CPython;
use crate::target::platform::Platform;
use crate::target::reading::{read_platform, read_python};
use std::marker::Model;

/// A CPython and a platform, which stand for an environment and a list of tags.
#[derive(Clone, Copy)]
pub struct Target {
    python: CPython,
    platform: Platform,
}

impl Model for Target {
    ghost use Rattle.std.specs.Prelude.{◌≡◌, true};
    ghost use Rattle.pywheel_core.specs.Target.Value.{TargetValue, is_target};

    ghost Value = { TargetValue };

    ghost view = { λ t. record { python = t.python; platform = t.platform } };

    ghost invariant = { λ t. is_target (record { python = t.python; platform = t.platform })
        ≡ true };

    ghost inverse = { λ v. record { python = v.python; platform = v.platform } };
}

impl Target {
    /// The target that PYTHON and PLATFORM name, as `3.12` and `manylinux_2_28_x86_64`. PYTHON is
    /// `3.MINOR` or `3.MINOR.MICRO`, with `t` behind it for the free-threaded build; PLATFORM is a
    /// platform under the name of its own wheels, an older name of manylinux, what uv calls it (as
    /// `x86_64-manylinux_2_28`, `aarch64-apple-darwin`), or one of `linux`, `macos` and `windows`.
    /// PYTHON is judged first. It takes no memory.
    #[tactic(auto, using(crate::proofs::fits), unfolding(crate::specs::Target::Reading::target_of))]
    pub fn parse(python: &str, platform: &str) -> Result<Target, TargetError>
        ensures { result ≡ target_of python.now platform.now }
    {
        let Some(python) = read_python(python) else {
            return Err(TargetError::Python);
        };
        let Some(platform) = read_platform(platform) else {
            return Err(TargetError::Platform);
        };
        Ok(Target { python, platform })
    }

    /// The release of CPython: 3.8 to 3.99, free-threaded from 3.13 on. It takes no memory.
    pub fn python(&self) -> CPython
        ensures python { result ≡ self.now.python }
        ensures known { is_target self.now ≡ true }
    {
        self.python
    }

    /// The platform, whose numbers are those of one for which wheels are made. It takes no memory.
    pub fn platform(&self) -> Platform
        ensures platform { result ≡ self.now.platform }
        ensures known { is_target self.now ≡ true }
    {
        self.platform
    }
}
