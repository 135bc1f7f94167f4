//! The variables of markers (PEP 508, "Environment Markers").

ghost use Rattle.std.specs.Fmt.{padded};
ghost use Rattle.std.specs.Prelude.{◌≡◌, ◌<◌, Some};
ghost use Rattle.pymark_core.specs.Variables.{variable_name, variable_number, variable_of};
ghost use Rattle.pymark_core.specs.Variables.{variables};

use std::fmt;

/// A variable of markers (PEP 508, "Environment Markers"): a text about the Python that is
/// installed for.
#[derive(Clone, Copy, PartialEq, Eq, Hash, Debug)]
pub enum Var {
    /// `os_name`
    OsName,
    /// `sys_platform`
    SysPlatform,
    /// `platform_machine`
    PlatformMachine,
    /// `platform_python_implementation`
    PlatformPythonImplementation,
    /// `platform_release`
    PlatformRelease,
    /// `platform_system`
    PlatformSystem,
    /// `platform_version`
    PlatformVersion,
    /// `python_version`
    PythonVersion,
    /// `python_full_version`
    PythonFullVersion,
    /// `implementation_name`
    ImplementationName,
    /// `implementation_version`
    ImplementationVersion,
}

/// The eleven variables, in the order of their numbers.
const VARIABLES: [Var; 11] = [
    Var::OsName,
    Var::SysPlatform,
    Var::PlatformMachine,
    Var::PlatformPythonImplementation,
    Var::PlatformRelease,
    Var::PlatformSystem,
    Var::PlatformVersion,
    Var::PythonVersion,
    Var::PythonFullVersion,
    Var::ImplementationName,
    Var::ImplementationVersion,
];

impl Var {
    /// The eleven variables (PEP 508, "Environment Markers"). It takes no memory.
    pub fn all() -> [Var; 11]
        ensures { result ≡ variables }
    {
        VARIABLES
    }

    /// The variable of this name in markers. It takes no memory.
    pub fn of(name: &str) -> Option<Var>
        ensures { result ≡ variable_of name.now }
    {
        VARIABLES
            .iter()
            .copied()
            .find(|variable| variable.name() == name)
    }

    /// The name of the variable in markers. It takes no memory.
    pub fn name(self) -> &'static str
        ensures { result.now ≡ variable_name self }
    {
        match self {
            Var::OsName => "os_name",
            Var::SysPlatform => "sys_platform",
            Var::PlatformMachine => "platform_machine",
            Var::PlatformPythonImplementation => "platform_python_implementation",
            Var::PlatformRelease => "platform_release",
            Var::PlatformSystem => "platform_system",
            Var::PlatformVersion => "platform_version",
            Var::PythonVersion => "python_version",
            Var::PythonFullVersion => "python_full_version",
            Var::ImplementationName => "implementation_name",
            Var::ImplementationVersion => "implementation_version",
        }
    }

    /// The number of the variable, from 0: its index among the eleven.
    pub(crate) fn number(self) -> usize
        ensures value { result ≡ variable_number self }
        ensures within { result < 11 }
    {
        self as usize
    }
}

/// The name of the variable in markers.
impl fmt::Display for Var {
    ghost output = { λ variable. Some (variable_name variable) };

    ghost styled_output = { λ variable spec. Some (padded spec (variable_name variable)) };

    fn fmt<W: fmt::Write>(&self, f: &mut fmt::Formatter<W>) -> fmt::Result {
        f.pad(self.name())
    }
}
