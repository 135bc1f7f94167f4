//! Reading of targets: PYTHON and PLATFORM.

ghost use Rattle.std.specs.Prelude.{◌≡◌, ◌<◌, IfSome, option_map};
ghost use Rattle.pywheel_core.specs.Target.Reading as reading;
ghost use Rattle.pywheel_core.specs.Texts.{cut_at};

use crate::cut::{before_ending, cut};
use crate::tag_set::cut_at_dot;
use crate::target::cpython::CPython;
use crate::target::platform::{LinuxArch, MacArch, Platform, WindowsArch};
use pytext::{digits_value, is_number};

/// The release that PYTHON names: `3.MINOR` or `3.MINOR.MICRO`, with `t` behind it for the
/// free-threaded build.
#[tactic(auto, unfolding(crate::specs::Target::Reading::python_of))]
pub(crate) fn read_python(text: &str) -> Option<CPython>
    ensures { result ≡ reading.python_of text.now }
{
    match before_ending(text, "t") {
        Some(release) => python_with(true, release),
        None => python_with(false, text),
    }
}

#[tactic(auto, unfolding(crate::specs::Target::Reading::python_with))]
fn python_with(is_free_threaded: bool, text: &str) -> Option<CPython>
    ensures { result ≡ reading.python_with is_free_threaded text.now }
{
    let (minor, micro) = release(text)?;
    let python = CPython {
        minor,
        micro,
        is_free_threaded,
    };
    if python.is_known() {
        Some(python)
    } else {
        None
    }
}

/// The last two numbers of a release.
#[tactic(auto, unfolding(crate::specs::Target::Reading::release_of))]
fn release(text: &str) -> Option<(u8, u16)>
    ensures { result ≡ reading.release_of text.now }
{
    let (major, rest) = cut_at_dot(text)?;
    if major == "3" {
        minor_and_micro(rest)
    } else {
        None
    }
}

#[tactic(auto, unfolding(crate::specs::Target::Reading::minor_and_micro))]
fn minor_and_micro(text: &str) -> Option<(u8, u16)>
    ensures { result ≡ reading.minor_and_micro text.now }
{
    match cut_at_dot(text) {
        None => Some((number_below_100(text)?, 0)),
        Some((minor, micro)) => {
            let minor = number_below_100(minor)?;
            let micro = number_below_1000(micro)?;
            Some((minor, micro))
        }
    }
}

fn number_below_100(text: &str) -> Option<u8>
    ensures { result ≡ reading.number_below 100 text.now }
{
    let number = number_below(100, text)?;
    Some(number as u8)
}

fn number_below_1000(text: &str) -> Option<u16>
    ensures { result ≡ reading.number_below 1000 text.now }
{
    let number = number_below(1000, text)?;
    Some(number as u16)
}

/// The number that the digits write, without leading zeros, where it is below the limit.
#[tactic(auto, unfolding(crate::specs::Target::Reading::number_below))]
fn number_below(limit: u128, text: &str) -> Option<u128>
    ensures number { result ≡ reading.number_below limit text.now }
    ensures below { IfSome result (λ number. number < limit) }
{
    let digits = text.as_bytes();
    if !is_plain_number(digits) {
        return None;
    }
    match digits_value(digits) {
        Some(number) if number < limit => Some(number),
        _ => None,
    }
}

fn is_plain_number(digits: &[u8]) -> bool
    ensures { result ≡ reading.is_plain_number digits.now }
{
    is_number(digits) && (digits[0] != b'0' || digits.len() == 1)
}

/// The platform that PLATFORM names or stands for.
#[tactic(auto, unfolding(crate::specs::Target::Reading::platform_of))]
pub(crate) fn read_platform(text: &str) -> Option<Platform>
    ensures { result ≡ reading.platform_of text.now }
{
    let platform = shaped_platform(text)?;
    if platform.is_known() {
        Some(platform)
    } else {
        None
    }
}

#[tactic(auto, unfolding(crate::specs::Target::Reading::shaped_platform))]
fn shaped_platform(text: &str) -> Option<Platform>
    ensures { result ≡ reading.shaped_platform text.now }
{
    match cut(text) {
        Some((arch, rest)) => triple_platform(arch, rest),
        None => undashed_platform(text),
    }
}

/// The platform with this name of wheels, or with this word.
#[tactic(auto, unfolding(crate::specs::Target::Reading::undashed_platform))]
fn undashed_platform(text: &str) -> Option<Platform>
    ensures { result ≡ reading.undashed_platform text.now }
{
    match cut_at_underscore(text) {
        Some((word, rest)) => platform_behind(word, rest),
        None => lone_platform(text),
    }
}

/// What stands before the first `_`, and what stands after it.
fn cut_at_underscore(text: &str) -> Option<(&str, &str)>
    ensures { option_map (λ x. (x.0.now, x.1.now)) result ≡ cut_at 95 text.now }
{
    text.split_once('_')
}

#[tactic(auto, unfolding(crate::specs::Target::Reading::lone_platform))]
fn lone_platform(text: &str) -> Option<Platform>
    ensures { result ≡ reading.lone_platform text.now }
{
    if text == "linux" {
        Some(Platform::Manylinux {
            minor: 28,
            arch: LinuxArch::X86_64,
        })
    } else if text == "macos" {
        Some(Platform::MacOs {
            major: 14,
            minor: 0,
            arch: MacArch::Arm64,
        })
    } else if text == "windows" {
        Some(Platform::Windows(WindowsArch::Amd64))
    } else if text == "win32" {
        Some(Platform::Windows(WindowsArch::X86))
    } else {
        None
    }
}

/// The platform with this word before its first `_` and the rest after it.
#[tactic(auto, unfolding(crate::specs::Target::Reading::platform_behind))]
fn platform_behind(word: &str, rest: &str) -> Option<Platform>
    ensures { result ≡ reading.platform_behind word.now rest.now }
{
    if word == "manylinux" {
        glibc_platform(rest)
    } else if word == "musllinux" {
        musl_platform(rest)
    } else if word == "macosx" {
        mac_platform(rest)
    } else if word == "win" {
        windows_platform(rest)
    } else if word == "manylinux1" {
        older_platform(5, rest)
    } else if word == "manylinux2010" {
        older_platform(12, rest)
    } else if word == "manylinux2014" {
        older_platform(17, rest)
    } else {
        None
    }
}

/// Two numbers and an architecture, as written.
#[tactic(auto, unfolding(crate::specs::Target::Reading::versioned))]
fn versioned(text: &str) -> Option<(&str, &str, &str)>
    ensures { option_map (λ x. (x.0.now, x.1.now, x.2.now)) result ≡ reading.versioned text.now }
{
    let (major, rest) = cut_at_underscore(text)?;
    let (minor, arch) = cut_at_underscore(rest)?;
    Some((major, minor, arch))
}

#[tactic(auto, unfolding(crate::specs::Target::Reading::glibc_platform))]
fn glibc_platform(text: &str) -> Option<Platform>
    ensures { result ≡ reading.glibc_platform text.now }
{
    let (major, minor, arch) = versioned(text)?;
    let minor = number_below_100(minor)?;
    let arch = linux_arch(arch)?;
    if major == "2" {
        Some(Platform::Manylinux { minor, arch })
    } else {
        None
    }
}

#[tactic(auto, unfolding(crate::specs::Target::Reading::musl_platform))]
fn musl_platform(text: &str) -> Option<Platform>
    ensures { result ≡ reading.musl_platform text.now }
{
    let (major, minor, arch) = versioned(text)?;
    let minor = number_below_100(minor)?;
    let arch = linux_arch(arch)?;
    if major == "1" {
        Some(Platform::Musllinux { minor, arch })
    } else {
        None
    }
}

#[tactic(auto, unfolding(crate::specs::Target::Reading::mac_platform))]
fn mac_platform(text: &str) -> Option<Platform>
    ensures { result ≡ reading.mac_platform text.now }
{
    let (major, minor, arch) = versioned(text)?;
    let major = number_below_100(major)?;
    let minor = number_below_100(minor)?;
    let arch = mac_arch(arch)?;
    Some(Platform::MacOs { major, minor, arch })
}

#[tactic(auto, unfolding(crate::specs::Target::Reading::older_platform))]
fn older_platform(minor: u8, text: &str) -> Option<Platform>
    ensures { result ≡ reading.older_platform minor text.now }
{
    let arch = linux_arch(text)?;
    Some(Platform::Manylinux { minor, arch })
}

#[tactic(auto, unfolding(crate::specs::Target::Reading::windows_platform))]
fn windows_platform(text: &str) -> Option<Platform>
    ensures { result ≡ reading.windows_platform text.now }
{
    if text == "amd64" {
        Some(Platform::Windows(WindowsArch::Amd64))
    } else if text == "arm64" {
        Some(Platform::Windows(WindowsArch::Arm64))
    } else {
        None
    }
}

/// The platform that uv calls by an architecture, `-`, and the rest.
#[tactic(auto, unfolding(crate::specs::Target::Reading::triple_platform))]
fn triple_platform(arch: &str, rest: &str) -> Option<Platform>
    ensures { result ≡ reading.triple_platform arch.now rest.now }
{
    if rest == "apple-darwin" {
        apple_platform(arch)
    } else if rest == "pc-windows-msvc" {
        msvc_platform(arch)
    } else {
        linux_triple(linux_arch(arch)?, rest)
    }
}

#[tactic(auto, unfolding(crate::specs::Target::Reading::apple_platform))]
fn apple_platform(arch: &str) -> Option<Platform>
    ensures { result ≡ reading.apple_platform arch.now }
{
    if arch == "aarch64" {
        Some(Platform::MacOs {
            major: 14,
            minor: 0,
            arch: MacArch::Arm64,
        })
    } else if arch == "x86_64" {
        Some(Platform::MacOs {
            major: 14,
            minor: 0,
            arch: MacArch::X86_64,
        })
    } else {
        None
    }
}

#[tactic(auto, unfolding(crate::specs::Target::Reading::msvc_platform))]
fn msvc_platform(arch: &str) -> Option<Platform>
    ensures { result ≡ reading.msvc_platform arch.now }
{
    if arch == "x86_64" {
        Some(Platform::Windows(WindowsArch::Amd64))
    } else if arch == "i686" {
        Some(Platform::Windows(WindowsArch::X86))
    } else if arch == "aarch64" {
        Some(Platform::Windows(WindowsArch::Arm64))
    } else {
        None
    }
}

#[tactic(auto, unfolding(crate::specs::Target::Reading::linux_triple))]
fn linux_triple(arch: LinuxArch, text: &str) -> Option<Platform>
    ensures { result ≡ reading.linux_triple arch text.now }
{
    if text == "unknown-linux-gnu" {
        Some(Platform::Manylinux { minor: 28, arch })
    } else if text == "unknown-linux-musl" {
        Some(Platform::Musllinux { minor: 2, arch })
    } else if text == "manylinux2014" {
        Some(Platform::Manylinux { minor: 17, arch })
    } else {
        glibc_triple(arch, text)
    }
}

#[tactic(auto, unfolding(crate::specs::Target::Reading::glibc_triple))]
fn glibc_triple(arch: LinuxArch, text: &str) -> Option<Platform>
    ensures { result ≡ reading.glibc_triple arch text.now }
{
    let (name, major, minor) = versioned(text)?;
    let minor = number_below_100(minor)?;
    if name == "manylinux" && major == "2" {
        Some(Platform::Manylinux { minor, arch })
    } else {
        None
    }
}

#[tactic(auto, unfolding(crate::specs::Target::Reading::linux_arch_of))]
fn linux_arch(text: &str) -> Option<LinuxArch>
    ensures { result ≡ reading.linux_arch_of text.now }
{
    if text == "x86_64" {
        Some(LinuxArch::X86_64)
    } else if text == "i686" {
        Some(LinuxArch::I686)
    } else if text == "aarch64" {
        Some(LinuxArch::Aarch64)
    } else if text == "armv7l" {
        Some(LinuxArch::Armv7l)
    } else if text == "ppc64le" {
        Some(LinuxArch::Ppc64le)
    } else if text == "s390x" {
        Some(LinuxArch::S390x)
    } else if text == "riscv64" {
        Some(LinuxArch::Riscv64)
    } else if text == "loongarch64" {
        Some(LinuxArch::Loongarch64)
    } else {
        None
    }
}

#[tactic(auto, unfolding(crate::specs::Target::Reading::mac_arch_of))]
fn mac_arch(text: &str) -> Option<MacArch>
    ensures { result ≡ reading.mac_arch_of text.now }
{
    if text == "x86_64" {
        Some(MacArch::X86_64)
    } else if text == "arm64" {
        Some(MacArch::Arm64)
    } else {
        None
    }
}
