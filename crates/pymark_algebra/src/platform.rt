//! Platforms, by the texts of three variables (PEP 508, "Environment Markers").

ghost use Rattle.std.specs.Prelude.{◌≡◌, IfSome, None};
ghost use Rattle.std.specs.List.{list_any};
ghost use Rattle.std.specs.Str.{bytes_eq};
ghost use Rattle.std.specs.Option.{option_copied};
ghost use Rattle.pyver_core.specs.Version.Reading.{version_of};
ghost use Rattle.pymark_algebra.specs.Platforms as platforms;

use pymark_core::Var;

/// A row of the table of platforms.
#[derive(Clone, Copy, PartialEq, Eq, Debug)]
pub enum Platform {
    /// Linux: `posix`, `linux`, `Linux`.
    Linux,
    /// macOS: `posix`, `darwin`, `Darwin`.
    MacOs,
    /// Windows: `nt`, `win32`, `Windows`.
    Windows,
    /// Any other.
    Other,
}

impl Platform {
    /// The text that the variable has there, if it has one alone. It takes no memory.
    #[tactic(auto, using(crate::proofs::PlatformLemmas::known_spells))]
    pub fn known_text(self, variable: Var) -> Option<&'static str>
        ensures value { option_copied result ≡ platforms.known_text self variable }
        ensures spells { IfSome result (λ text. version_of text.now ≡ None) }
    {
        match (self, variable) {
            (Platform::Linux | Platform::MacOs, Var::OsName) => Some("posix"),
            (Platform::Linux, Var::SysPlatform) => Some("linux"),
            (Platform::Linux, Var::PlatformSystem) => Some("Linux"),
            (Platform::MacOs, Var::SysPlatform) => Some("darwin"),
            (Platform::MacOs, Var::PlatformSystem) => Some("Darwin"),
            (Platform::Windows, Var::OsName) => Some("nt"),
            (Platform::Windows, Var::SysPlatform) => Some("win32"),
            (Platform::Windows, Var::PlatformSystem) => Some("Windows"),
            _ => None,
        }
    }

    /// Whether the variable may have the text there. It takes no memory.
    pub fn may_have(self, variable: Var, text: &str) -> bool
        ensures { result ≡ platforms.may_have self variable text.now }
    {
        match self {
            Platform::Other => !is_taken(variable, text),
            platform => match platform.known_text(variable) {
                Some(known) => text == known,
                None => true,
            },
        }
    }
}

/// Whether only platforms of the table have the text.
fn is_taken(variable: Var, text: &str) -> bool
    ensures { result ≡ list_any (bytes_eq text.now) (platforms.taken_texts variable) }
{
    match variable {
        Var::OsName => text == "nt",
        Var::SysPlatform => text == "linux" || text == "darwin" || text == "win32",
        Var::PlatformSystem => text == "Linux" || text == "Darwin" || text == "Windows",
        _ => false,
    }
}
