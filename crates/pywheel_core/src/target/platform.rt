//! Platforms of targets.

ghost use Rattle.std.specs.Prelude.{◌≡◌};
ghost use Rattle.pywheel_core.specs.Target.Names as names;
ghost use Rattle.pywheel_core.specs.Target.Value as value;
ghost use Rattle.pywheel_core.specs.Target.Value.{glibc_floor, is_platform};

/// A system for which wheels are made (PEP 425, "Platform Tag").
#[derive(Clone, Copy, PartialEq, Eq, Debug)]
pub enum Platform {
    /// Linux with glibc 2.`minor` (PEP 600).
    Manylinux {
        /// Of glibc.
        minor: u8,
        /// Of the machine.
        arch: LinuxArch,
    },
    /// Linux with musl 1.`minor` (PEP 656).
    Musllinux {
        /// Of musl.
        minor: u8,
        /// Of the machine.
        arch: LinuxArch,
    },
    /// macOS of a version.
    MacOs {
        /// The first number of the version.
        major: u8,
        /// The second one, 0 from macOS 11 on.
        minor: u8,
        /// Of the machine.
        arch: MacArch,
    },
    /// Windows.
    Windows(WindowsArch),
}

/// An architecture of Linux, under the name of its `uname`.
#[derive(Clone, Copy, PartialEq, Eq, Debug)]
pub enum LinuxArch {
    /// `x86_64`.
    X86_64,
    /// `i686`.
    I686,
    /// `aarch64`.
    Aarch64,
    /// `armv7l`.
    Armv7l,
    /// `ppc64le`.
    Ppc64le,
    /// `s390x`.
    S390x,
    /// `riscv64`.
    Riscv64,
    /// `loongarch64`.
    Loongarch64,
}

/// An architecture of macOS.
#[derive(Clone, Copy, PartialEq, Eq, Debug)]
pub enum MacArch {
    /// Intel's.
    X86_64,
    /// Apple silicon.
    Arm64,
}

/// An architecture of Windows.
#[derive(Clone, Copy, PartialEq, Eq, Debug)]
pub enum WindowsArch {
    /// 32 bits, `win32`.
    X86,
    /// 64 bits, `win_amd64`.
    Amd64,
    /// `win_arm64`.
    Arm64,
}

impl Platform {
    /// The variable `os_name` there (PEP 508).
    pub fn os_name(self) -> &'static str
        ensures { result.now ≡ names.os_name self }
    {
        match self {
            Platform::Windows(_) => "nt",
            _ => "posix",
        }
    }

    /// The variable `sys_platform` there (PEP 508).
    pub fn sys_platform(self) -> &'static str
        ensures { result.now ≡ names.sys_platform self }
    {
        match self {
            Platform::Manylinux { .. } | Platform::Musllinux { .. } => "linux",
            Platform::MacOs { .. } => "darwin",
            Platform::Windows(_) => "win32",
        }
    }

    /// The variable `platform_system` there (PEP 508).
    pub fn platform_system(self) -> &'static str
        ensures { result.now ≡ names.platform_system self }
    {
        match self {
            Platform::Manylinux { .. } | Platform::Musllinux { .. } => "Linux",
            Platform::MacOs { .. } => "Darwin",
            Platform::Windows(_) => "Windows",
        }
    }

    /// The variable `platform_machine` there (PEP 508).
    pub fn platform_machine(self) -> &'static str
        ensures { result.now ≡ names.platform_machine self }
    {
        match self {
            Platform::Manylinux { arch, .. } | Platform::Musllinux { arch, .. } => arch.name(),
            Platform::MacOs { arch, .. } => arch.name(),
            Platform::Windows(arch) => arch.machine(),
        }
    }

    /// Whether there is such a platform: its numbers are those of a system that wheels are made
    /// for.
    pub(crate) fn is_known(self) -> bool
        ensures { result ≡ is_platform self }
    {
        match self {
            Platform::Manylinux { minor, arch } => arch.glibc_floor() <= minor && minor <= 99,
            Platform::Musllinux { minor, .. } => minor <= 99,
            Platform::MacOs { major, minor, arch } => is_mac_version(major, minor, arch),
            Platform::Windows(_) => true,
        }
    }
}

/// Whether there was, or may be, such a version of macOS.
fn is_mac_version(major: u8, minor: u8, arch: MacArch) -> bool
    ensures { result ≡ value.is_mac_version major minor arch }
{
    let is_old = major == 10 && arch == MacArch::X86_64 && 4 <= minor && minor <= 16;
    is_old || (11 <= major && major <= 99 && minor == 0)
}

impl LinuxArch {
    /// Its name in tags.
    pub fn name(self) -> &'static str
        ensures { result.now ≡ names.linux_arch_name self }
    {
        match self {
            LinuxArch::X86_64 => "x86_64",
            LinuxArch::I686 => "i686",
            LinuxArch::Aarch64 => "aarch64",
            LinuxArch::Armv7l => "armv7l",
            LinuxArch::Ppc64le => "ppc64le",
            LinuxArch::S390x => "s390x",
            LinuxArch::Riscv64 => "riscv64",
            LinuxArch::Loongarch64 => "loongarch64",
        }
    }

    /// The oldest glibc 2 for which there are wheels.
    pub(crate) fn glibc_floor(self) -> u8
        ensures { result ≡ glibc_floor self }
    {
        match self {
            LinuxArch::X86_64 | LinuxArch::I686 => 5,
            _ => 17,
        }
    }
}

impl MacArch {
    /// Its name in tags.
    pub fn name(self) -> &'static str
        ensures { result.now ≡ names.mac_arch_name self }
    {
        match self {
            MacArch::X86_64 => "x86_64",
            MacArch::Arm64 => "arm64",
        }
    }
}

impl WindowsArch {
    /// Its name in tags.
    pub fn name(self) -> &'static str
        ensures { result.now ≡ names.windows_name self }
    {
        match self {
            WindowsArch::X86 => "win32",
            WindowsArch::Amd64 => "win_amd64",
            WindowsArch::Arm64 => "win_arm64",
        }
    }

    /// What Python's `platform.machine()` says there.
    fn machine(self) -> &'static str
        ensures { result.now ≡ names.windows_machine self }
    {
        match self {
            WindowsArch::X86 => "x86",
            WindowsArch::Amd64 => "AMD64",
            WindowsArch::Arm64 => "ARM64",
        }
    }
}
